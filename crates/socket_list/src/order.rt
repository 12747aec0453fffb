//! The order in which sockets are listed.

ghost use Rattle.std.specs.Prelude.{◌≡◌, IfOk};
ghost use Rattle.socket_list.specs.Order as spec;
ghost use Rattle.socket_list.specs.Order.{ascending};

use sock_card::Card;
use std::alloc::AllocError;

/// Where a socket stands in a list: by its name, and of one name by the number of its kind.
fn order_of(card: &Card) -> u128
    ensures { result ≡ spec.order_of card.now }
{
    u128::from(card.name) * 8 + card.kind as u128
}

/// The cards, ascending by name, and of one name by kind: a full socket, a TIME_WAIT, a listener, a request.
///
/// Takes memory for as many cards again, and time about in proportion to them.
pub fn in_order(mut cards: Vec<Card>) -> Result<Vec<Card>, AllocError>
    ensures { IfOk result (λ sorted. sorted.items ≡ ascending cards.items) }
{
    cards.sort_by_key(order_of)?;
    Ok(cards)
}
