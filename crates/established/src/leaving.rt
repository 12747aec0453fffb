//! Sockets that leave their chains, and the TIME_WAITs that they leave there.

ghost use Rattle.std.specs.Prelude.{◌≡◌, ◌+◌, ◌<◌, ◌≤◌, [], true, IfSome, IfNone};
ghost use Rattle.chain_book.specs.Homes.{home};
ghost use Rattle.nulls_chain.specs.Changes.{IsPlaced, OthersStay, OtherPlacesStay, PlacesStay, TwoDrawn};
ghost use Rattle.established.specs.Alone.{LeavesAlone, ReapsAlone, WaitsAlone};
ghost use Rattle.established.specs.Comings.{FourDrawn};
ghost use Rattle.established.specs.Leavings.{HasLockSince, Leaves, Reaps, Waits};
ghost use Rattle.sock_card.specs.declared.card.Kind.TheVariants as kinds;
ghost use Rattle.table_rule.specs.Changes.{len_of, capacity_of};
ghost use Rattle.table_rule.specs.Calls.{IsIdle, HasShares, layout_of};
ghost use Rattle.table_rule.specs.Passes.{IsPassOf, known};
ghost use Rattle.table_rule.specs.Words.{bucket_count};
ghost use Rattle.table_rule.specs.declared.view.View.{View};

use super::coming::{is_told, take_out};
use super::survey::{Sought, survey_chain};
use bucket_locks::{Locked, lock, unlock};
use nulls_chain::{Place, hash, unhash, walk_to_end};
use patience::Patience;
use sock_card::Card;
use sock_slots::Full;
use table_rule::{Chains, Pass};

/// Takes out the socket at that place, whose bucket the pass has just locked, and gives the lock back.
///
/// It waits for nobody. What the clauses say is said since before the lock was taken.
///
/// As `inet_unhash` of net/ipv4/inet_hashtables.c. Only the pass that hashed a connected socket, a request or a
/// listener takes it out.
pub fn remove(chains: &Chains, pass: &mut Pass, locked: Locked, place: Place)
    requires table { IsPassOf chains.now pass.old }
    requires bucket { place.bucket < bucket_count (layout_of chains.now) }
    requires locked { (v : View) × HasLockSince v locked place.bucket (known pass.old) }
    requires place { IsPlaced place (known pass.old).book }
    requires idle { IsIdle (known pass.old).slot × ((known pass.old).book.opened ≡ []) }
    requires room { len_of pass.old.changes < capacity_of pass.old.changes }
    requires share { HasShares 2 (known pass.old) }
    ensures table { IsPassOf chains.now pass.new }
    ensures idle { IsIdle (known pass.new).slot × ((known pass.new).book.opened ≡ []) }
    ensures free { (known pass.new).chain.locked ≡ [] }
    ensures goes { (v : View) → HasLockSince v locked place.bucket (known pass.old) → Leaves place v (known pass.new) }
    ensures alone { (v : View) → HasLockSince v locked place.bucket (known pass.old)
        → LeavesAlone (layout_of chains.now) place v (known pass.new) }
    ensures stay { OthersStay place.slot (known pass.old) (known pass.new) }
    ensures others { OtherPlacesStay place (known pass.old) (known pass.new) }
    ensures share { TwoDrawn (known pass.old) (known pass.new) }
    ensures hand { pass.new.steps.seat.me.1 ≡ pass.old.steps.seat.me.1 }
    ensures room { capacity_of pass.new.changes ≡ capacity_of pass.old.changes }
    ensures len { len_of pass.new.changes ≡ len_of pass.old.changes + 1 }
{
    let mut walked = locked;
    unhash(chains, pass, &mut walked, place);
    unlock(chains, &mut pass.steps, walked);
}

/// Hashes a TIME_WAIT into the chain of a connected socket, and then takes that socket out, from which it comes.
///
/// Where no slot is free the socket goes without one, and the answer says how full the slots are. The TIME_WAIT
/// belongs into the socket's chain, as one with its four-tuple does. None: another pass had the bucket's lock for as
/// long as the caller's patience lasts, nothing has changed, and the socket stands at its place.
///
/// As `inet_twsk_hashdance_schedule` of net/ipv4/inet_timewait_sock.c.
pub fn time_wait<P: Patience>(
    chains: &Chains,
    patience: &P,
    pass: &mut Pass,
    place: Place,
    from: u32,
    card: &Card,
) -> Option<Result<Place, Full>>
    requires table { IsPassOf chains.now pass.old }
    requires bucket { place.bucket < bucket_count (layout_of chains.now) }
    requires home { home (layout_of chains.now).shape (layout_of chains.now).seed card.now ≡ place.bucket }
    requires waits { card.now.kind ≡ kinds.TimeWait }
    requires place { IsPlaced place (known pass.old).book }
    requires idle { IsIdle (known pass.old).slot × ((known pass.old).book.opened ≡ []) }
    requires free { (known pass.old).chain.locked ≡ [] }
    requires from { from ≤ (layout_of chains.now).shape.slots }
    requires room { len_of pass.old.changes + 2 ≤ capacity_of pass.old.changes }
    requires share { HasShares 4 (known pass.old) }
    ensures table { IsPassOf chains.now pass.new }
    ensures idle { IsIdle (known pass.new).slot × ((known pass.new).book.opened ≡ []) }
    ensures free { (known pass.new).chain.locked ≡ [] }
    ensures answer { IfSome result
        (λ answer. Waits (layout_of chains.now) from place card.now answer (known pass.old) (known pass.new)) }
    ensures alone { IfSome result
        (λ answer. WaitsAlone (layout_of chains.now) from place card.now answer (known pass.old) (known pass.new)) }
    ensures none { IfNone result (known pass.new ≡ known pass.old) }
    ensures kept { IfNone result (pass.new.changes ≡ pass.old.changes) }
    ensures had { P.endless ≡ true → IfNone result ⊥ }
    ensures stay { OthersStay place.slot (known pass.old) (known pass.new) }
    ensures others { OtherPlacesStay place (known pass.old) (known pass.new) }
    ensures share { FourDrawn (known pass.old) (known pass.new) }
    ensures hand { pass.new.steps.seat.me.1 ≡ pass.old.steps.seat.me.1 }
    ensures room { capacity_of pass.new.changes ≡ capacity_of pass.old.changes }
    ensures len { len_of pass.new.changes ≤ len_of pass.old.changes + 2 }
{
    let mut locked = lock(chains, patience, &mut pass.steps, place.bucket)?;
    walk_to_end(chains, &mut pass.steps, &mut locked);
    is_told(card);
    let answer = hash(chains, pass, &locked, from, card);
    unhash(chains, pass, &mut locked, place);
    unlock(chains, &mut pass.steps, locked);
    Some(answer)
}

/// Takes out the first TIME_WAIT of that name from a chain, and answers its slot: none, where the chain has none, and
/// then nothing has changed.
///
/// None in place of an answer: another pass had the bucket's lock for as long as the caller's patience lasts, and
/// nothing has changed.
///
/// Whichever pass has the bucket's lock takes a TIME_WAIT out, so no place stands for it. As `inet_twsk_kill` of
/// net/ipv4/inet_timewait_sock.c.
pub fn remove_tw<P: Patience>(
    chains: &Chains,
    patience: &P,
    pass: &mut Pass,
    bucket: u32,
    name: u64,
) -> Option<Option<u32>>
    requires table { IsPassOf chains.now pass.old }
    requires bucket { bucket < bucket_count (layout_of chains.now) }
    requires idle { IsIdle (known pass.old).slot × ((known pass.old).book.opened ≡ []) }
    requires free { (known pass.old).chain.locked ≡ [] }
    requires room { len_of pass.old.changes < capacity_of pass.old.changes }
    requires share { HasShares 2 (known pass.old) }
    ensures table { IsPassOf chains.now pass.new }
    ensures idle { IsIdle (known pass.new).slot × ((known pass.new).book.opened ≡ []) }
    ensures free { (known pass.new).chain.locked ≡ [] }
    ensures answer { IfSome result (λ slot. Reaps bucket name slot (known pass.old) (known pass.new)) }
    ensures alone { IfSome result
        (λ slot. ReapsAlone (layout_of chains.now) bucket name slot (known pass.old) (known pass.new)) }
    ensures none { IfNone result (known pass.new ≡ known pass.old) }
    ensures kept { IfNone result (pass.new.changes ≡ pass.old.changes) }
    ensures had { P.endless ≡ true → IfNone result ⊥ }
    ensures stay { PlacesStay (known pass.old) (known pass.new) }
    ensures share { TwoDrawn (known pass.old) (known pass.new) }
    ensures hand { pass.new.steps.seat.me.1 ≡ pass.old.steps.seat.me.1 }
    ensures room { capacity_of pass.new.changes ≡ capacity_of pass.old.changes }
    ensures len { len_of pass.new.changes ≤ len_of pass.old.changes + 1 }
{
    let mut locked = lock(chains, patience, &mut pass.steps, bucket)?;
    let survey = survey_chain(chains, &mut pass.steps, &mut locked, &Sought::Waiting(name));
    take_out(chains, pass, &locked, &survey.waiting);
    unlock(chains, &mut pass.steps, locked);
    Some(survey.waiting.map(|found| found.slot))
}
