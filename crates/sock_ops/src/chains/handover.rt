//! Requests that hand over to their sockets.

ghost use Rattle.std.specs.Prelude.{◌≡◌, true, IfErr, IfOk, IfSome, IfNone};
ghost use Rattle.chain_book.specs.Tuples.{same_cards};
ghost use Rattle.sock_ops.specs.Answers.{HandsOver, RoomBy};
ghost use Rattle.sock_ops.specs.Sides.{HasRoom, IsAtHome, IsResting, TakesRoom, side_of};
ghost use Rattle.nulls_chain.specs.Changes.{IsPlaced, OthersStay, OtherPlacesStay, PlacesStay};
ghost use Rattle.established.specs.Comings.{FourDrawn};
ghost use Rattle.sock_card.specs.declared.card.Kind.TheVariants as kinds;
ghost use Rattle.table_rule.specs.Calls.{HasShares};
ghost use Rattle.table_rule.specs.Passes.{known};

use super::leaving::is_told;
use super::table::{ChainPass, ChainTable};
use nulls_chain::Place;
use patience::Patience;
use sock_card::Card;
use sock_slots::Full;

/// Hashes the connected socket that a request was for into its chain, and then takes the request out.
///
/// Where no slot is free beside the request it stands as it did: its place comes back, and how full the slots are. It
/// tries for one bucket's lock as long as the caller's patience lasts, and takes no memory. None: another pass had the
/// lock for so long, nothing has changed, and the request stands at its place.
pub fn hand_over<P: Patience>(
    table: &ChainTable,
    patience: &P,
    pass: &mut ChainPass,
    place: Place,
    card: &Card,
) -> Option<Result<Place, (Place, Full)>>
    requires rests { IsResting table.now pass.old }
    requires home { IsAtHome table.now place }
    requires full { card.now.kind ≡ kinds.Full }
    requires pending { place.card.kind ≡ kinds.Request }
    requires tuple { same_cards card.now place.card ≡ true }
    requires place { IsPlaced place (known pass.old.pass).book }
    requires room { HasRoom 2 pass.old }
    requires share { HasShares 4 (known pass.old.pass) }
    ensures rests { IsResting table.now pass.new }
    ensures hands { IfSome result (λ answer. HandsOver place card.now answer
        (side_of table.now pass.old) (side_of table.now pass.new)) }
    ensures place { IfSome result (λ answer. IfOk answer (λ child. IsPlaced child (known pass.new.pass).book)) }
    ensures stay { OthersStay place.slot (known pass.old.pass) (known pass.new.pass) }
    ensures others { OtherPlacesStay place (known pass.old.pass) (known pass.new.pass) }
    ensures all { IfSome result (λ answer. IfErr answer (λ e. PlacesStay (known pass.old.pass) (known pass.new.pass))) }
    ensures share { FourDrawn (known pass.old.pass) (known pass.new.pass) }
    ensures room { IfSome result (λ answer. RoomBy 2 answer pass.old pass.new) }
    ensures none { IfNone result (side_of table.now pass.new ≡ side_of table.now pass.old) }
    ensures spared { IfNone result (TakesRoom 0 pass.old pass.new) }
    ensures had { P.endless ≡ true → IfNone result ⊥ }
{
    is_told(&place.card);
    let answer = established::hand_over(
        &table.chains,
        patience,
        &mut pass.pass,
        place,
        pass.next,
        card,
    )?;
    if let Ok(child) = &answer {
        pass.next = child.slot + 1;
    }
    Some(answer)
}
