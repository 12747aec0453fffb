ghost use Rattle.std.specs.Prelude.{◌≡◌, ◌+◌, ◌≤◌, ◌<◌, [], false, true, IfSome, IfNone, ◌⊎◌};
ghost use Rattle.sock_card.specs.Words.{packed};
ghost use Rattle.table_rule.specs.Changes.{len_of, capacity_of};
ghost use Rattle.table_rule.specs.Calls.{IsIdle, HasShares, layout_of};
ghost use Rattle.table_rule.specs.Passes.{IsPassOf, known};
ghost use Rattle.table_rule.specs.Plays.{without};
ghost use Rattle.table_rule.specs.Words.{words_of};
ghost use Rattle.bucket_locks.specs.Locks.{IsAt, WalkKnown};
ghost use Rattle.nulls_chain.specs.Changes.{Adds, Rest, Sees, TwoDrawn, TookWait, HasNoWait};
ghost use Rattle.nulls_chain.specs.Changes.{IsPlaced, IsApart, OthersStay, OtherPlacesStay};

use super::finding::{find_wait, walk_to_end};
use super::halting::{Halt, Unhalted};
use super::keeping::{Place, unhash_slot, unhash_slot_with};
use bucket_locks::Locked;
use table_rule::{Chains, Pass, known_card};

/// Unhashes a place of the pass in the locked bucket, whether the chain was walked before or not.
///
/// It walks to the chain's end first. A place is that of a card that is no TIME_WAIT's.
pub fn unhash(chains: &Chains, pass: &mut Pass, locked: &mut Locked, place: Place)
    requires table { IsPassOf chains.now pass.old }
    requires at { IsAt (layout_of chains.now) locked.old (known pass.old) }
    requires known { WalkKnown (layout_of chains.now) (known pass.old) }
    requires place { IsPlaced place (known pass.old).book × (place.bucket ≡ locked.old.bucket) }
    requires idle { IsIdle (known pass.old).slot × ((known pass.old).book.opened ≡ []) }
    requires share { HasShares 2 (known pass.old) }
    requires room { len_of pass.old.changes < capacity_of pass.old.changes }
    ensures table { IsPassOf chains.now pass.new }
    ensures idle { IsIdle (known pass.new).slot × ((known pass.new).book.opened ≡ []) }
    ensures change { Adds (known pass.old) (known pass.new) 0 locked.old.bucket place.slot
        (words_of (packed place.card)) }
    ensures stay { OthersStay place.slot (known pass.old) (known pass.new) }
    // Where the chain was walked before, its caller knows that no place of another bucket has this slot.
    ensures others { ((known pass.old).chain.met ≡ 0) ⊎ IsApart place (known pass.old).book
        → OtherPlacesStay place (known pass.old) (known pass.new) }
    ensures share { TwoDrawn (known pass.old) (known pass.new) }
    ensures rest { Rest (known pass.old) (known pass.new) }
    ensures saw { Sees (known pass.old) (known pass.new) }
    ensures twice { (known pass.new).twice ≡ (known pass.old).twice }
    ensures hand { pass.new.steps.seat.me.1 ≡ pass.old.steps.seat.me.1 }
    ensures at { IsAt (layout_of chains.now) locked.new (known pass.new) × (locked.new.started ≡ true)
        × (locked.new.bucket ≡ locked.old.bucket) }
    ensures whole { ((known pass.new).chain.met ≡ 1) × ((known pass.new).chain.ahead ≡ []) }
    ensures gone { (known pass.old).chain.met ≡ 1
        → (known pass.new).chain ≡ record (known pass.old).chain
        { walked = without place.slot (known pass.old).chain.walked } }
    ensures room { capacity_of pass.new.changes ≡ capacity_of pass.old.changes }
    ensures len { len_of pass.new.changes ≡ len_of pass.old.changes + 1 }
{
    unhash_with(chains, pass, locked, place, &mut Unhalted);
}

/// [`unhash`], with a halt that is called before each of its steps.
pub fn unhash_with<H: Halt>(
    chains: &Chains,
    pass: &mut Pass,
    locked: &mut Locked,
    place: Place,
    halt: &mut H,
)
    requires table { IsPassOf chains.now pass.old }
    requires at { IsAt (layout_of chains.now) locked.old (known pass.old) }
    requires known { WalkKnown (layout_of chains.now) (known pass.old) }
    requires place { IsPlaced place (known pass.old).book × (place.bucket ≡ locked.old.bucket) }
    requires idle { IsIdle (known pass.old).slot × ((known pass.old).book.opened ≡ []) }
    requires share { HasShares 2 (known pass.old) }
    requires room { len_of pass.old.changes < capacity_of pass.old.changes }
    ensures table { IsPassOf chains.now pass.new }
    ensures idle { IsIdle (known pass.new).slot × ((known pass.new).book.opened ≡ []) }
    ensures change { Adds (known pass.old) (known pass.new) 0 locked.old.bucket place.slot
        (words_of (packed place.card)) }
    ensures stay { OthersStay place.slot (known pass.old) (known pass.new) }
    // Where the chain was walked before, its caller knows that no place of another bucket has this slot.
    ensures others { ((known pass.old).chain.met ≡ 0) ⊎ IsApart place (known pass.old).book
        → OtherPlacesStay place (known pass.old) (known pass.new) }
    ensures share { TwoDrawn (known pass.old) (known pass.new) }
    ensures rest { Rest (known pass.old) (known pass.new) }
    ensures saw { Sees (known pass.old) (known pass.new) }
    ensures twice { (known pass.new).twice ≡ (known pass.old).twice }
    ensures hand { pass.new.steps.seat.me.1 ≡ pass.old.steps.seat.me.1 }
    ensures at { IsAt (layout_of chains.now) locked.new (known pass.new) × (locked.new.started ≡ true)
        × (locked.new.bucket ≡ locked.old.bucket) }
    ensures whole { ((known pass.new).chain.met ≡ 1) × ((known pass.new).chain.ahead ≡ []) }
    ensures gone { (known pass.old).chain.met ≡ 1
        → (known pass.new).chain ≡ record (known pass.old).chain
        { walked = without place.slot (known pass.old).chain.walked } }
    ensures room { capacity_of pass.new.changes ≡ capacity_of pass.old.changes }
    ensures len { len_of pass.new.changes ≡ len_of pass.old.changes + 1 }
{
    walk_to_end(chains, &mut pass.steps, locked);
    unhash_slot_with(chains, pass, locked, place.slot, &place.card, halt);
}

/// Unhashes the first TIME_WAIT of this name in the chain of a bucket that was just locked: its slot. None: the chain
/// has none, and nothing changed.
///
/// A TIME_WAIT is unhashed by whichever pass has its bucket's lock, so no place stands for it.
pub fn unhash_tw(chains: &Chains, pass: &mut Pass, locked: &mut Locked, name: u64) -> Option<u32>
    requires table { IsPassOf chains.now pass.old }
    requires at { IsAt (layout_of chains.now) locked.old (known pass.old) }
    requires fresh { locked.old.started ≡ false }
    requires known { WalkKnown (layout_of chains.now) (known pass.old) }
    requires idle { IsIdle (known pass.old).slot × ((known pass.old).book.opened ≡ []) }
    requires share { HasShares 2 (known pass.old) }
    requires room { len_of pass.old.changes < capacity_of pass.old.changes }
    ensures table { IsPassOf chains.now pass.new }
    ensures idle { IsIdle (known pass.new).slot × ((known pass.new).book.opened ≡ []) }
    ensures took { IfSome result (λ slot. TookWait name locked.old.bucket slot (known pass.old) (known pass.new)) }
    ensures none { IfNone result (HasNoWait name locked.old.bucket (known pass.old) (known pass.new)) }
    ensures stay { IfSome result (λ slot. OthersStay slot (known pass.old) (known pass.new)) }
    ensures share { TwoDrawn (known pass.old) (known pass.new) }
    ensures rest { Rest (known pass.old) (known pass.new) }
    ensures saw { Sees (known pass.old) (known pass.new) }
    ensures twice { (known pass.new).twice ≡ (known pass.old).twice }
    ensures hand { pass.new.steps.seat.me.1 ≡ pass.old.steps.seat.me.1 }
    ensures at { IsAt (layout_of chains.now) locked.new (known pass.new) × (locked.new.bucket ≡ locked.old.bucket) }
    ensures room { capacity_of pass.new.changes ≡ capacity_of pass.old.changes }
    ensures len { len_of pass.new.changes ≤ len_of pass.old.changes + 1 }
{
    let (slot, card) = find_wait(chains, &mut pass.steps, locked, name)?;
    walk_to_end(chains, &mut pass.steps, locked);
    unhash_slot(chains, pass, locked, slot, &known_card(&card));
    Some(slot)
}
