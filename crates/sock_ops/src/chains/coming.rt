//! Sockets that come into their chains.

ghost use Rattle.std.specs.Prelude.{◌≡◌, true, IfOk, IfSome, IfNone};
ghost use Rattle.chain_book.specs.Tuples.{claims_tuple};
ghost use Rattle.sock_ops.specs.Answers.{Adds, DrawnBy, Inserts, RoomBy};
ghost use Rattle.sock_ops.specs.Sides.{HasRoom, IsAtHome, IsResting, TakesRoom, side_of};
ghost use Rattle.nulls_chain.specs.Changes.{IsPlaced, PlacesStay, TwoDrawn};
ghost use Rattle.sock_card.specs.declared.card.Kind.TheVariants as kinds;
ghost use Rattle.table_rule.specs.Calls.{HasShares};
ghost use Rattle.table_rule.specs.Passes.{known};

use super::table::{ChainPass, ChainTable};
use chain_book::Replace;
use established::{InsertEnd, Inserted, Newcomer};
use nulls_chain::Place;
use patience::Patience;
use sock_card::Card;
use sock_slots::Full;

/// Hashes a connected socket or a request for one, unless its four-tuple is kept from it at that moment, in seconds.
///
/// A TIME_WAIT of its four-tuple gives way where the rule lets it. The newcomer comes before that goes, so it needs a
/// slot of its own. It tries for one bucket's lock as long as the caller's patience lasts, and takes no memory. None:
/// another pass had the lock for so long, and nothing has changed.
pub fn insert<P: Patience>(
    table: &ChainTable,
    patience: &P,
    pass: &mut ChainPass,
    card: &Card,
    moment: u32,
    rule: Replace,
) -> Option<Result<Inserted, InsertEnd>>
    requires rests { IsResting table.now pass.old }
    requires claims { claims_tuple card.now.kind ≡ true }
    requires room { HasRoom 2 pass.old }
    requires share { HasShares 4 (known pass.old.pass) }
    ensures rests { IsResting table.now pass.new }
    ensures inserts { IfSome result (λ answer. Inserts (record { card = card.now; moment = moment; rule = rule }) answer
        (side_of table.now pass.old) (side_of table.now pass.new)) }
    ensures place { IfSome result (λ answer. IfOk answer (λ i. IsPlaced i.place (known pass.new.pass).book)) }
    ensures home { IfSome result (λ answer. IfOk answer (λ i. IsAtHome table.now i.place)) }
    ensures stay { PlacesStay (known pass.old.pass) (known pass.new.pass) }
    ensures share { IfSome result (λ answer. DrawnBy answer (known pass.old.pass) (known pass.new.pass)) }
    ensures room { IfSome result (λ answer. RoomBy 2 answer pass.old pass.new) }
    ensures none { IfNone result (side_of table.now pass.new ≡ side_of table.now pass.old) }
    ensures spared { IfNone result (TakesRoom 0 pass.old pass.new) }
    ensures had { P.endless ≡ true → IfNone result ⊥ }
{
    let bucket = table.bucket_of(card);
    let new = Newcomer {
        card: *card,
        moment,
        replace: rule,
    };
    let answer = established::insert(
        &table.chains,
        patience,
        &mut pass.pass,
        bucket,
        pass.next,
        &new,
    )?;
    if let Ok(inserted) = &answer {
        pass.next = inserted.place.slot + 1;
    }
    Some(answer)
}

/// Hashes a listener, whatever stands in its chain. `Full`: no slot is free.
///
/// It tries for one bucket's lock as long as the caller's patience lasts, and takes no memory. None: another pass had
/// the lock for so long, and nothing has changed.
pub fn add<P: Patience>(
    table: &ChainTable,
    patience: &P,
    pass: &mut ChainPass,
    card: &Card,
) -> Option<Result<Place, Full>>
    requires rests { IsResting table.now pass.old }
    requires listens { card.now.kind ≡ kinds.Listen }
    requires room { HasRoom 1 pass.old }
    requires share { HasShares 2 (known pass.old.pass) }
    ensures rests { IsResting table.now pass.new }
    ensures adds { IfSome result (λ answer. Adds card.now answer (side_of table.now pass.old)
        (side_of table.now pass.new)) }
    ensures place { IfSome result (λ answer. IfOk answer (λ place. IsPlaced place (known pass.new.pass).book)) }
    ensures home { IfSome result (λ answer. IfOk answer (λ place. IsAtHome table.now place)) }
    ensures stay { PlacesStay (known pass.old.pass) (known pass.new.pass) }
    ensures share { TwoDrawn (known pass.old.pass) (known pass.new.pass) }
    ensures room { IfSome result (λ answer. RoomBy 1 answer pass.old pass.new) }
    ensures none { IfNone result (side_of table.now pass.new ≡ side_of table.now pass.old) }
    ensures spared { IfNone result (TakesRoom 0 pass.old pass.new) }
    ensures had { P.endless ≡ true → IfNone result ⊥ }
{
    let bucket = table.bucket_of(card);
    let answer = listeners::add(
        &table.chains,
        patience,
        &mut pass.pass,
        bucket,
        pass.next,
        card,
    )?;
    if let Ok(place) = &answer {
        pass.next = place.slot + 1;
    }
    Some(answer)
}
