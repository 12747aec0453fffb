//! Connected sockets and requests that come into their chains.

ghost use Rattle.std.specs.Prelude.{◌≡◌, true, IfErr};
ghost use Rattle.chain_book.specs.Tuples.{claims_tuple};
ghost use Rattle.sock_ops.specs.Sides.{HasRoom, IsResting, side_of};
ghost use Rattle.nulls_chain.specs.Changes.{PlacesStay};
ghost use Rattle.table_rule.specs.Calls.{HasShares};
ghost use Rattle.table_rule.specs.Passes.{known};
ghost use Rattle.sock_ops.specs.Hashing as spec;
ghost use Rattle.sock_ops.specs.Hashing.{DrawnAs, InsertsAs, request_wish, wish_for, wish_of};
ghost use Rattle.sock_ops.specs.Goes.{NotBusy};

use crate::chains::{self, ChainPass, ChainTable};
use chain_book::{Place, Replace};
use established::InsertEnd;
use flat_list::owned;
use patience::Patience;
use sock_card::{Card, Kind, Owner};
use table_model::{Cause, OpEnd};

/// A socket that came: where it is hashed, and the name of the TIME_WAIT that it replaced.
#[derive(Debug, Drop)]
pub struct Came {
    pub place: Place,
    pub replaced: Option<u64>,
}

fn end_of(end: InsertEnd) -> OpEnd
    ensures { result ≡ spec.insert_error end }
{
    match end {
        InsertEnd::Taken(name) => OpEnd::Taken(name),
        InsertEnd::Full(slots) => OpEnd::Full {
            owned: slots.owned,
            held: slots.held,
        },
    }
}

/// Hashes a card at that moment; a TIME_WAIT of its four-tuple may give way by that rule.
fn insert_card<P: Patience>(
    patience: &P,
    chains: &ChainTable,
    pass: &mut ChainPass,
    card: &Card,
    moment: u32,
    rule: Replace,
) -> Result<Came, OpEnd>
    requires rests { IsResting chains.now pass.old }
    requires claims { claims_tuple card.now.kind ≡ true }
    requires room { HasRoom 2 pass.old }
    requires share { HasShares 4 (known pass.old.pass) }
    ensures rests { IsResting chains.now pass.new }
    ensures inserts { InsertsAs (wish_of card.now moment rule)
        (side_of chains.now pass.old) (side_of chains.now pass.new) result }
    ensures stay { PlacesStay (known pass.old.pass) (known pass.new.pass) }
    ensures share { DrawnAs result (known pass.old.pass) (known pass.new.pass) }
    ensures patient { P.endless ≡ true → IfErr result NotBusy }
{
    let Some(answer) = chains::insert(chains, patience, pass, card, moment, rule) else {
        return Err(OpEnd::LeftOff(Cause::Busy));
    };
    match answer {
        Ok(inserted) => Ok(Came {
            place: Place {
                bucket: inserted.place.bucket,
                slot: inserted.place.slot,
            },
            replaced: inserted.replaced,
        }),
        Err(end) => Err(end_of(end)),
    }
}

/// Hashes a full owner at that moment; a TIME_WAIT of its four-tuple may give way by that rule.
pub(crate) fn insert<P: Patience>(
    patience: &P,
    chains: &ChainTable,
    pass: &mut ChainPass,
    full: &Owner,
    moment: u32,
    rule: Replace,
) -> Result<Came, OpEnd>
    requires rests { IsResting chains.now pass.old }
    requires room { HasRoom 2 pass.old }
    requires share { HasShares 4 (known pass.old.pass) }
    ensures rests { IsResting chains.now pass.new }
    ensures inserts { InsertsAs (wish_for full.now moment rule)
        (side_of chains.now pass.old) (side_of chains.now pass.new) result }
    ensures stay { PlacesStay (known pass.old.pass) (known pass.new.pass) }
    ensures share { DrawnAs result (known pass.old.pass) (known pass.new.pass) }
    ensures patient { P.endless ≡ true → IfErr result NotBusy }
{
    let card = owned::card_as(Kind::Full, full, 0);
    insert_card(patience, chains, pass, &card, moment, rule)
}

/// Hashes a request; a TIME_WAIT of its four-tuple gives way.
pub(crate) fn insert_request<P: Patience>(
    patience: &P,
    chains: &ChainTable,
    pass: &mut ChainPass,
    request: &Owner,
) -> Result<Came, OpEnd>
    requires rests { IsResting chains.now pass.old }
    requires room { HasRoom 2 pass.old }
    requires share { HasShares 4 (known pass.old.pass) }
    ensures rests { IsResting chains.now pass.new }
    ensures inserts { InsertsAs (request_wish request.now)
        (side_of chains.now pass.old) (side_of chains.now pass.new) result }
    ensures stay { PlacesStay (known pass.old.pass) (known pass.new.pass) }
    ensures share { DrawnAs result (known pass.old.pass) (known pass.new.pass) }
    ensures patient { P.endless ≡ true → IfErr result NotBusy }
{
    let card = owned::card_as(Kind::Request, request, 0);
    insert_card(patience, chains, pass, &card, 0, Replace::Always)
}
