ghost use Rattle.std.specs.Prelude.{◌+◌, length, ◌≡◌, ◌<◌, ◌≤◌, [], ℕ, true, IfOk, IfErr};
ghost use Rattle.chain_book.specs.Homes.{home};
ghost use Rattle.sock_card.specs.Words.{packed};
ghost use Rattle.table_rule.specs.Changes.{len_of, capacity_of};
ghost use Rattle.table_rule.specs.declared.view.View.{View};
ghost use Rattle.table_rule.specs.Lists.{stands};
ghost use Rattle.table_rule.specs.Owners.{time_waits};
ghost use Rattle.table_rule.specs.Sole.{IsBare, FirstFree, AllUsed};
ghost use Rattle.table_rule.specs.Calls.{IsIdle, HasShares, MayUnhash, layout_of};
ghost use Rattle.table_rule.specs.Passes.{IsPassOf, known};
ghost use Rattle.table_rule.specs.Words.{words_of};
ghost use Rattle.table_rule.specs.Plays.{beginning, dropping_beginning, without, card_in};
ghost use Rattle.bucket_locks.specs.Locks.{IsAt, WalkKnown};
ghost use Rattle.sock_slots.specs.Claims.{IsFull};
ghost use Rattle.nulls_chain.specs.Changes.{HasNoTwin, IsAlone, hashed, Adds, Rest, Sees, PlacesStay, OthersStay, TwoDrawn, IsPlaced, IsPlacedBy};

use super::changes::{hash_numbered, unhash_numbered};
use super::finding::slot_before;
use super::halting::{Halt, Unhalted};
use bucket_locks::Locked;
use chain_book::{Act, Change};
use sock_card::{Card, pack};
use sock_slots::Full;
use table_rule::{Chains, Pass};

/// Where a card stands that a pass hashed: the bucket, the slot, and the card,
/// which nobody reads again once the chain was walked.
#[derive(Debug, Drop)]
pub struct Place {
    pub bucket: u32,
    pub slot: u32,
    pub card: Card,
}

/// Hashes a card into its bucket, whose chain was walked to its end: from then on its slot is first in the chain.
///
/// A number is drawn from the clock, a slot claimed from `from` on and round to it, its card written, its link
/// stored, the head stored, the slot lit, and a second number drawn. The change goes into room that was made before.
/// `Full`: no slot is free, and of the change only its first number is gone.
///
/// A connected socket comes beside no other of its four-tuple, but it may come beside a request for it: then the lock
/// is given back only when the request is gone.
///
/// As `inet_ehash_insert` of net/ipv4/inet_hashtables.c does by `hlist_nulls_add_head_rcu`.
pub fn hash(
    chains: &Chains,
    pass: &mut Pass,
    locked: &Locked,
    from: u32,
    card: &Card,
) -> Result<Place, Full>
    requires table { IsPassOf chains.now pass.old }
    requires at { IsAt (layout_of chains.now) locked.now (known pass.old) × (locked.now.started ≡ true) }
    requires idle { IsIdle (known pass.old).slot × ((known pass.old).book.opened ≡ []) }
    requires from { from ≤ (layout_of chains.now).shape.slots }
    requires room { len_of pass.old.changes < capacity_of pass.old.changes }
    requires share { HasShares 2 (known pass.old) }
    requires whole { ((known pass.old).chain.met ≡ 1) × ((known pass.old).chain.ahead ≡ []) }
    requires twin { HasNoTwin (packed card.now) (known pass.old).chain.walked }
    requires home { home (layout_of chains.now).shape (layout_of chains.now).seed card.now ≡ locked.now.bucket }
    ensures table { IsPassOf chains.now pass.new }
    ensures at { IsAt (layout_of chains.now) locked.now (known pass.new) }
    ensures idle { IsIdle (known pass.new).slot × ((known pass.new).book.opened ≡ []) }
    ensures some { IfOk result (λ place. (place.slot < (layout_of chains.now).shape.slots)
        × (place.bucket ≡ locked.now.bucket) × (place.card ≡ card.now)) }
    ensures chain { IfOk result (λ place. (known pass.new).chain
        ≡ hashed (known pass.old).chain place.slot (packed card.now)) }
    ensures far { IfOk result (λ place. stands place.slot (known pass.old).chain.walked ≡ 0) }
    ensures known { IfOk result (λ place. WalkKnown (layout_of chains.now) (known pass.old)
        → WalkKnown (layout_of chains.now) (known pass.new)) }
    ensures first { IfOk result (λ place. IsBare (known pass.old)
        → FirstFree (known pass.old).book.closed (layout_of chains.now).shape.slots from place.slot) }
    ensures all { IfErr result (λ f. IsBare (known pass.old)
        → AllUsed (known pass.old).book.closed 0 (layout_of chains.now).shape.slots × (f.held ≡ 0)) }
    ensures place { IfOk result (λ place. time_waits (words_of (packed card.now)) ≡ 0
        → IsPlaced place (known pass.new).book) }
    ensures newest { IfOk result (λ place. time_waits (words_of (packed card.now)) ≡ 0
        → IsPlacedBy (length (known pass.old).book.closed) place (known pass.new).book) }
    ensures stay { PlacesStay (known pass.old) (known pass.new) }
    ensures share { TwoDrawn (known pass.old) (known pass.new) }
    ensures change { IfOk result (λ place. Adds (known pass.old) (known pass.new) 1 locked.now.bucket place.slot
        (words_of (packed card.now))) }
    ensures rest { IfOk result (λ place. Rest (known pass.old) (known pass.new)) }
    ensures saw { Sees (known pass.old) (known pass.new) }
    ensures twice { IsAlone (packed card.now) (known pass.old).chain.walked
        → (known pass.new).twice ≡ (known pass.old).twice }
    ensures hand { pass.new.steps.seat.me.1 ≡ pass.old.steps.seat.me.1 }
    ensures full { IfErr result (λ f. (b : ℕ) × (w : View)
        × IsFull (layout_of chains.now) (beginning (known pass.old) b) w f × ((known pass.old).seen ≤ b)
        × ((known pass.new) ≡ dropping_beginning w)) }
    ensures same { IfErr result (λ f. (known pass.new).book.closed ≡ (known pass.old).book.closed) }
    ensures room { capacity_of pass.new.changes ≡ capacity_of pass.old.changes }
    ensures len { len_of pass.new.changes ≤ len_of pass.old.changes + 1 }
{
    hash_with(chains, pass, locked, from, card, &mut Unhalted)
}

/// [`hash`], with a halt that is called before each of its steps.
pub fn hash_with<H: Halt>(
    chains: &Chains,
    pass: &mut Pass,
    locked: &Locked,
    from: u32,
    card: &Card,
    halt: &mut H,
) -> Result<Place, Full>
    requires table { IsPassOf chains.now pass.old }
    requires at { IsAt (layout_of chains.now) locked.now (known pass.old) × (locked.now.started ≡ true) }
    requires idle { IsIdle (known pass.old).slot × ((known pass.old).book.opened ≡ []) }
    requires from { from ≤ (layout_of chains.now).shape.slots }
    requires room { len_of pass.old.changes < capacity_of pass.old.changes }
    requires share { HasShares 2 (known pass.old) }
    requires whole { ((known pass.old).chain.met ≡ 1) × ((known pass.old).chain.ahead ≡ []) }
    requires twin { HasNoTwin (packed card.now) (known pass.old).chain.walked }
    requires home { home (layout_of chains.now).shape (layout_of chains.now).seed card.now ≡ locked.now.bucket }
    ensures table { IsPassOf chains.now pass.new }
    ensures at { IsAt (layout_of chains.now) locked.now (known pass.new) }
    ensures idle { IsIdle (known pass.new).slot × ((known pass.new).book.opened ≡ []) }
    ensures some { IfOk result (λ place. (place.slot < (layout_of chains.now).shape.slots)
        × (place.bucket ≡ locked.now.bucket) × (place.card ≡ card.now)) }
    ensures chain { IfOk result (λ place. (known pass.new).chain
        ≡ hashed (known pass.old).chain place.slot (packed card.now)) }
    ensures far { IfOk result (λ place. stands place.slot (known pass.old).chain.walked ≡ 0) }
    ensures known { IfOk result (λ place. WalkKnown (layout_of chains.now) (known pass.old)
        → WalkKnown (layout_of chains.now) (known pass.new)) }
    ensures first { IfOk result (λ place. IsBare (known pass.old)
        → FirstFree (known pass.old).book.closed (layout_of chains.now).shape.slots from place.slot) }
    ensures all { IfErr result (λ f. IsBare (known pass.old)
        → AllUsed (known pass.old).book.closed 0 (layout_of chains.now).shape.slots × (f.held ≡ 0)) }
    ensures place { IfOk result (λ place. time_waits (words_of (packed card.now)) ≡ 0
        → IsPlaced place (known pass.new).book) }
    ensures newest { IfOk result (λ place. time_waits (words_of (packed card.now)) ≡ 0
        → IsPlacedBy (length (known pass.old).book.closed) place (known pass.new).book) }
    ensures stay { PlacesStay (known pass.old) (known pass.new) }
    ensures share { TwoDrawn (known pass.old) (known pass.new) }
    ensures change { IfOk result (λ place. Adds (known pass.old) (known pass.new) 1 locked.now.bucket place.slot
        (words_of (packed card.now))) }
    ensures rest { IfOk result (λ place. Rest (known pass.old) (known pass.new)) }
    ensures saw { Sees (known pass.old) (known pass.new) }
    ensures twice { IsAlone (packed card.now) (known pass.old).chain.walked
        → (known pass.new).twice ≡ (known pass.old).twice }
    ensures hand { pass.new.steps.seat.me.1 ≡ pass.old.steps.seat.me.1 }
    ensures full { IfErr result (λ f. (b : ℕ) × (w : View)
        × IsFull (layout_of chains.now) (beginning (known pass.old) b) w f × ((known pass.old).seen ≤ b)
        × ((known pass.new) ≡ dropping_beginning w)) }
    ensures same { IfErr result (λ f. (known pass.new).book.closed ≡ (known pass.old).book.closed) }
    ensures room { capacity_of pass.new.changes ≡ capacity_of pass.old.changes }
    ensures len { len_of pass.new.changes ≤ len_of pass.old.changes + 1 }
{
    let words = pack(card);
    match hash_numbered(chains, &mut pass.steps, locked, from, &words, halt) {
        Err(full) => Err(full),
        Ok(done) => {
            pass.changes.push_reserved(Change {
                bucket: locked.bucket,
                slot: done.slot,
                card: *card,
                act: Act::Hash,
                begin: done.begin,
                end: done.end,
            });
            Ok(Place {
                bucket: locked.bucket,
                slot: done.slot,
                card: *card,
            })
        }
    }
}

/// Unhashes a slot of a chain that was walked to its end.
///
/// Its predecessor is found by the links alone, from the head on. Then a number is drawn from the clock, the slot
/// dimmed, passed over and released, and a second number drawn. The change goes into room that was made before. A
/// card that is no TIME_WAIT's is unhashed by the pass that hashed it alone.
///
/// As `inet_unhash` of net/ipv4/inet_hashtables.c does by `hlist_nulls_del_init_rcu`.
pub fn unhash_slot(chains: &Chains, pass: &mut Pass, locked: &Locked, slot: u32, card: &Card)
    requires table { IsPassOf chains.now pass.old }
    requires at { IsAt (layout_of chains.now) locked.now (known pass.old) × (locked.now.started ≡ true) }
    requires slot { slot < (layout_of chains.now).shape.slots }
    requires idle { IsIdle (known pass.old).slot × ((known pass.old).book.opened ≡ []) }
    requires share { HasShares 2 (known pass.old) }
    requires card { card_in slot (known pass.old).chain.walked ≡ words_of (packed card.now) }
    requires room { len_of pass.old.changes < capacity_of pass.old.changes }
    requires own { MayUnhash slot (known pass.old) }
    requires whole { ((known pass.old).chain.met ≡ 1) × ((known pass.old).chain.ahead ≡ []) }
    requires known { WalkKnown (layout_of chains.now) (known pass.old) }
    requires listed { 0 < stands slot (known pass.old).chain.walked }
    ensures table { IsPassOf chains.now pass.new }
    ensures idle { IsIdle (known pass.new).slot × ((known pass.new).book.opened ≡ []) }
    ensures change { Adds (known pass.old) (known pass.new) 0 locked.now.bucket slot (words_of (packed card.now)) }
    ensures stay { OthersStay slot (known pass.old) (known pass.new) }
    ensures share { TwoDrawn (known pass.old) (known pass.new) }
    ensures rest { Rest (known pass.old) (known pass.new) }
    ensures saw { Sees (known pass.old) (known pass.new) }
    ensures twice { (known pass.new).twice ≡ (known pass.old).twice }
    ensures hand { pass.new.steps.seat.me.1 ≡ pass.old.steps.seat.me.1 }
    ensures at { IsAt (layout_of chains.now) locked.now (known pass.new) }
    ensures gone { (known pass.new).chain
        ≡ record (known pass.old).chain { walked = without slot (known pass.old).chain.walked } }
    ensures room { capacity_of pass.new.changes ≡ capacity_of pass.old.changes }
    ensures len { len_of pass.new.changes ≡ len_of pass.old.changes + 1 }
{
    unhash_slot_with(chains, pass, locked, slot, card, &mut Unhalted);
}

// The same, with a halt that is called before each step.
pub(crate) fn unhash_slot_with<H: Halt>(
    chains: &Chains,
    pass: &mut Pass,
    locked: &Locked,
    slot: u32,
    card: &Card,
    halt: &mut H,
)
    requires table { IsPassOf chains.now pass.old }
    requires at { IsAt (layout_of chains.now) locked.now (known pass.old) × (locked.now.started ≡ true) }
    requires slot { slot < (layout_of chains.now).shape.slots }
    requires idle { IsIdle (known pass.old).slot × ((known pass.old).book.opened ≡ []) }
    requires share { HasShares 2 (known pass.old) }
    requires card { card_in slot (known pass.old).chain.walked ≡ words_of (packed card.now) }
    requires room { len_of pass.old.changes < capacity_of pass.old.changes }
    requires own { MayUnhash slot (known pass.old) }
    requires whole { ((known pass.old).chain.met ≡ 1) × ((known pass.old).chain.ahead ≡ []) }
    requires known { WalkKnown (layout_of chains.now) (known pass.old) }
    requires listed { 0 < stands slot (known pass.old).chain.walked }
    ensures table { IsPassOf chains.now pass.new }
    ensures idle { IsIdle (known pass.new).slot × ((known pass.new).book.opened ≡ []) }
    ensures change { Adds (known pass.old) (known pass.new) 0 locked.now.bucket slot (words_of (packed card.now)) }
    ensures stay { OthersStay slot (known pass.old) (known pass.new) }
    ensures share { TwoDrawn (known pass.old) (known pass.new) }
    ensures rest { Rest (known pass.old) (known pass.new) }
    ensures saw { Sees (known pass.old) (known pass.new) }
    ensures twice { (known pass.new).twice ≡ (known pass.old).twice }
    ensures hand { pass.new.steps.seat.me.1 ≡ pass.old.steps.seat.me.1 }
    ensures at { IsAt (layout_of chains.now) locked.now (known pass.new) }
    ensures gone { (known pass.new).chain
        ≡ record (known pass.old).chain { walked = without slot (known pass.old).chain.walked } }
    ensures room { capacity_of pass.new.changes ≡ capacity_of pass.old.changes }
    ensures len { len_of pass.new.changes ≡ len_of pass.old.changes + 1 }
{
    let before = slot_before(chains, &mut pass.steps, locked.bucket, slot);
    let done = unhash_numbered(chains, &mut pass.steps, locked, before, slot, halt);
    pass.changes.push_reserved(Change {
        bucket: locked.bucket,
        slot,
        card: *card,
        act: Act::Unhash,
        begin: done.begin,
        end: done.end,
    });
}
