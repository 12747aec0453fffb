//! Sockets that leave their chains, and the TIME_WAITs that they leave there.

ghost use Rattle.std.specs.Prelude.{◌≡◌, ℕ, true, IfSome, IfNone};
ghost use Rattle.chain_book.specs.Homes.{home};
ghost use Rattle.sock_ops.specs.Answers.{Reaps, Removes, Waits};
ghost use Rattle.sock_ops.specs.Sides.{HasLockSince, HasRoom, IsAtHome, IsResting, Side, TakesRoom, side_of};
ghost use Rattle.nulls_chain.specs.Changes.{IsPlaced, OthersStay, OtherPlacesStay, PlacesStay, TwoDrawn};
ghost use Rattle.established.specs.Comings.{FourDrawn};
ghost use Rattle.sock_card.specs.Words.{packed, unpacked};
ghost use Rattle.sock_card.specs.declared.card.Kind.TheVariants as kinds;
ghost use Rattle.table_rule.specs.Calls.{HasShares};
ghost use Rattle.table_rule.specs.Passes.{known};

use super::table::{ChainPass, ChainTable};
use bucket_locks::{Locked, lock};
use nulls_chain::Place;
use patience::Patience;
use sock_card::{Card, pack};
use sock_slots::Full;

// A card is what its words give.
pub(crate) fn is_told(card: &Card)
    ensures { unpacked (packed card.now) ≡ card.now }
{
    let _words = pack(card);
}

/// Locks the chain of a place of this pass, which [`remove`] then takes out.
///
/// So a caller that has more to do than that does it in between, when nothing can keep the socket in its chain any
/// more. It tries for the bucket's lock as long as the caller's patience lasts, and takes no memory. None: another pass
/// had the lock for so long, and nothing has changed.
pub fn lock_chain_of<P: Patience>(
    table: &ChainTable,
    patience: &P,
    pass: &mut ChainPass,
    place: &Place,
) -> Option<Locked>
    requires rests { IsResting table.now pass.old }
    requires home { IsAtHome table.now place.now }
    requires place { IsPlaced place.now (known pass.old.pass).book }
    ensures locked { IfSome result
        (λ locked. HasLockSince (side_of table.now pass.old) table.now locked place.now pass.new) }
    ensures rests { IfNone result (IsResting table.now pass.new) }
    ensures none { IfNone result (side_of table.now pass.new ≡ side_of table.now pass.old) }
    ensures place { IsPlaced place.now (known pass.new.pass).book }
    ensures share { (n : ℕ) → HasShares n (known pass.old.pass) → HasShares n (known pass.new.pass) }
    ensures room { TakesRoom 0 pass.old pass.new }
    ensures had { P.endless ≡ true → IfNone result ⊥ }
{
    lock(&table.chains, patience, &mut pass.pass.steps, place.bucket)
}

/// Takes out the socket that this pass hashed at that place, whose chain it has locked by [`lock_chain_of`], and gives
/// the lock back.
///
/// It waits for nobody, and takes no memory. What the clauses say is said since before the lock was taken.
pub fn remove(table: &ChainTable, pass: &mut ChainPass, locked: Locked, place: Place)
    requires locked { (c : Side) × HasLockSince c table.now locked place pass.old }
    requires home { IsAtHome table.now place }
    requires place { IsPlaced place (known pass.old.pass).book }
    requires room { HasRoom 1 pass.old }
    requires share { HasShares 2 (known pass.old.pass) }
    ensures rests { IsResting table.now pass.new }
    ensures removes { (c : Side) → HasLockSince c table.now locked place pass.old
        → Removes place c (side_of table.now pass.new) }
    ensures stay { (c : Side) → HasLockSince c table.now locked place pass.old
        → OthersStay place.slot c.view (known pass.new.pass) }
    ensures others { (c : Side) → HasLockSince c table.now locked place pass.old
        → OtherPlacesStay place c.view (known pass.new.pass) }
    ensures share { (c : Side) → HasLockSince c table.now locked place pass.old
        → TwoDrawn c.view (known pass.new.pass) }
    ensures room { TakesRoom 1 pass.old pass.new }
{
    is_told(&place.card);
    established::remove(&table.chains, &mut pass.pass, locked, place);
}

/// Hashes the TIME_WAIT of a connected socket into its chain, and then takes that socket out.
///
/// Where no slot is free the socket goes without one, and the answer says how full the slots are. It tries for one
/// bucket's lock as long as the caller's patience lasts, and takes no memory. None: another pass had the lock for so
/// long, nothing has changed, and the socket stands at its place.
pub fn time_wait<P: Patience>(
    table: &ChainTable,
    patience: &P,
    pass: &mut ChainPass,
    place: Place,
    card: &Card,
) -> Option<Result<Place, Full>>
    requires rests { IsResting table.now pass.old }
    requires home { IsAtHome table.now place }
    requires chain { home table.now.layout.shape table.now.layout.seed card.now ≡ place.bucket }
    requires waits { card.now.kind ≡ kinds.TimeWait }
    requires place { IsPlaced place (known pass.old.pass).book }
    requires room { HasRoom 2 pass.old }
    requires share { HasShares 4 (known pass.old.pass) }
    ensures rests { IsResting table.now pass.new }
    ensures waits { IfSome result (λ answer. Waits place card.now answer
        (side_of table.now pass.old) (side_of table.now pass.new)) }
    ensures stay { OthersStay place.slot (known pass.old.pass) (known pass.new.pass) }
    ensures others { OtherPlacesStay place (known pass.old.pass) (known pass.new.pass) }
    ensures share { FourDrawn (known pass.old.pass) (known pass.new.pass) }
    ensures room { TakesRoom 2 pass.old pass.new }
    ensures none { IfNone result (side_of table.now pass.new ≡ side_of table.now pass.old) }
    ensures spared { IfNone result (TakesRoom 0 pass.old pass.new) }
    ensures had { P.endless ≡ true → IfNone result ⊥ }
{
    is_told(&place.card);
    let answer = established::time_wait(
        &table.chains,
        patience,
        &mut pass.pass,
        place,
        pass.next,
        card,
    )?;
    if let Ok(place) = &answer {
        pass.next = place.slot + 1;
    }
    Some(answer)
}

/// Takes out the first TIME_WAIT of the card's name from the card's chain, and answers its slot: none, where there is
/// none, and then nothing has changed.
///
/// Whichever pass has a chain's lock takes a TIME_WAIT out, so another may have been before it. It tries for one
/// bucket's lock as long as the caller's patience lasts, and takes no memory. None in place of an answer: another pass
/// had the lock for so long, and nothing has changed.
pub fn remove_tw<P: Patience>(
    table: &ChainTable,
    patience: &P,
    pass: &mut ChainPass,
    card: &Card,
) -> Option<Option<u32>>
    requires rests { IsResting table.now pass.old }
    requires waits { card.now.kind ≡ kinds.TimeWait }
    requires room { HasRoom 1 pass.old }
    requires share { HasShares 2 (known pass.old.pass) }
    ensures rests { IsResting table.now pass.new }
    ensures reaps { IfSome result
        (λ slot. Reaps card.now slot (side_of table.now pass.old) (side_of table.now pass.new)) }
    ensures stay { PlacesStay (known pass.old.pass) (known pass.new.pass) }
    ensures share { TwoDrawn (known pass.old.pass) (known pass.new.pass) }
    ensures room { TakesRoom 1 pass.old pass.new }
    ensures none { IfNone result (side_of table.now pass.new ≡ side_of table.now pass.old) }
    ensures spared { IfNone result (TakesRoom 0 pass.old pass.new) }
    ensures had { P.endless ≡ true → IfNone result ⊥ }
{
    let bucket = table.bucket_of(card);
    established::remove_tw(&table.chains, patience, &mut pass.pass, bucket, card.name)
}
