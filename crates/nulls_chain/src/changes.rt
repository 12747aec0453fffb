ghost use Rattle.std.specs.Prelude.{◌≡◌, ◌<◌, ◌≤◌, ◌∷◌, [], ℕ, true, IfOk, IfErr};
ghost use Rattle.table_rule.specs.declared.view.View.{View};
ghost use Rattle.table_rule.specs.Lists.{stands};
ghost use Rattle.table_rule.specs.Owners.{time_waits, IsPlace};
ghost use Rattle.table_rule.specs.Sole.{IsBare, FirstFree, AllUsed};
ghost use Rattle.table_rule.specs.Beyond.{IsCardWords};
ghost use Rattle.table_rule.specs.Calls.{IsOf, IsIdle, IsHashOf, IsUnhashOf, HasShares, MayUnhash, seen_of, view, layout_of};
ghost use Rattle.table_rule.specs.Words.{words_of, home_of, bucket_count};
ghost use Rattle.bucket_locks.specs.Locks.{IsAt};
ghost use Rattle.nulls_chain.specs.Changes.{HasNoTwin, IsAlone, hashed, Stands, AddsAt, Rest, Sees};
ghost use Rattle.sock_slots.specs.Claims.{IsFull};
ghost use Rattle.table_rule.specs.Plays.{beginning, dropping_beginning, without, carding, card_in};

use super::halting::{Halt, Turning};
use bucket_locks::Locked;
use sock_card::CardWords;
use sock_slots::{Full, claim, write_card};
use table_rule::{Chains, Steps};

// A card was hashed into this slot; the numbers of its beginning and its end.
#[derive(Clone, Copy)]
pub struct Hashed {
    pub slot: u32,
    pub begin: u64,
    pub end: u64,
}

// The numbers of an unhash's beginning and end.
#[derive(Clone, Copy)]
pub struct Unhashed {
    pub begin: u64,
    pub end: u64,
}

fn link<H: Halt>(
    chains: &Chains,
    steps: &mut Steps,
    bucket: u32,
    slot: u32,
    card: &CardWords,
    halt: &mut H,
)
    requires table { IsOf chains.now steps.old }
    requires slot { slot < (layout_of chains.now).shape.slots }
    requires bucket { bucket < bucket_count (layout_of chains.now) }
    requires held { (view steps.old).chain.locked ≡ bucket ∷ [] }
    requires whole { ((view steps.old).chain.met ≡ 1) × ((view steps.old).chain.ahead ≡ []) }
    requires fresh { (view steps.old).slot.fresh ≡ seen_of slot card.now ∷ [] }
    requires idle { ((view steps.old).slot.tied ≡ []) × ((view steps.old).slot.hung ≡ [])
        × ((view steps.old).slot.dimmed ≡ []) × ((view steps.old).slot.loose ≡ []) }
    requires begun { IsHashOf slot (view steps.old) × ((view steps.old).done ≡ 0) }
    requires twin { HasNoTwin card.now (view steps.old).chain.walked }
    requires words { IsCardWords (words_of card.now) }
    requires home { home_of (layout_of chains.now) (words_of card.now) ≡ bucket }
    ensures table { IsOf chains.now steps.new }
    ensures chain { (view steps.new).chain ≡ hashed (view steps.old).chain slot card.now }
    ensures idle { IsIdle (view steps.new).slot }
    ensures rest { Rest (view steps.old) (view steps.new) }
    ensures seen { (view steps.new).seen ≡ (view steps.old).seen }
    ensures sights { (view steps.new).sights ≡ (view steps.old).sights }
    ensures twice { IsAlone card.now (view steps.old).chain.walked → (view steps.new).twice ≡ (view steps.old).twice }
    ensures hand { steps.new.seat.me.1 ≡ steps.old.seat.me.1 }
    ensures book { ((view steps.new).book
        ≡ record (view steps.old).book { opened = carding (view steps.old).book.opened (words_of card.now) })
        × ((view steps.new).done ≡ 1) }
{
    let head = chains.step_again_head(steps, bucket);
    halt.step(Turning::Link);
    chains.step_link(steps, slot, bucket, head);
    halt.step(Turning::Head);
    chains.step_head(steps, bucket, slot);
    halt.step(Turning::Live);
    chains.step_live(steps, slot);
}

// Hashes a card: its slot is first in the list.
pub(crate) fn hash_numbered<H: Halt>(
    chains: &Chains,
    steps: &mut Steps,
    locked: &Locked,
    from: u32,
    card: &CardWords,
    halt: &mut H,
) -> Result<Hashed, Full>
    requires table { IsOf chains.now steps.old }
    requires at { IsAt (layout_of chains.now) locked.now (view steps.old) × (locked.now.started ≡ true) }
    requires idle { IsIdle (view steps.old).slot × ((view steps.old).book.opened ≡ []) }
    requires from { from ≤ (layout_of chains.now).shape.slots }
    requires share { HasShares 2 (view steps.old) }
    requires whole { ((view steps.old).chain.met ≡ 1) × ((view steps.old).chain.ahead ≡ []) }
    requires twin { HasNoTwin card.now (view steps.old).chain.walked }
    requires words { IsCardWords (words_of card.now) }
    requires home { home_of (layout_of chains.now) (words_of card.now) ≡ locked.now.bucket }
    ensures table { IsOf chains.now steps.new }
    ensures at { IsAt (layout_of chains.now) locked.now (view steps.new) }
    ensures idle { IsIdle (view steps.new).slot × ((view steps.new).book.opened ≡ []) }
    ensures some { IfOk result (λ d. (d.slot < (layout_of chains.now).shape.slots)
        × ((view steps.new).chain ≡ hashed (view steps.old).chain d.slot card.now)) }
    ensures far { IfOk result (λ d. stands d.slot (view steps.old).chain.walked ≡ 0) }
    ensures first { IfOk result (λ d. IsBare (view steps.old)
        → FirstFree (view steps.old).book.closed (layout_of chains.now).shape.slots from d.slot) }
    ensures all { IfErr result (λ f. IsBare (view steps.old)
        → AllUsed (view steps.old).book.closed 0 (layout_of chains.now).shape.slots × (f.held ≡ 0)) }
    ensures place { IfOk result (λ d. time_waits (words_of card.now) ≡ 0
        → IsPlace (view steps.new).book
        (record {
          kind = 1;
          bucket = locked.now.bucket;
          slot = d.slot;
          card = words_of card.now;
          begins = d.begin;
          ends = d.end;
        })) }
    ensures change { IfOk result (λ d. AddsAt (view steps.old) (view steps.new) 1 locked.now.bucket d.slot
        (words_of card.now) d.begin d.end) }
    ensures rest { IfOk result (λ d. Rest (view steps.old) (view steps.new)) }
    ensures saw { Sees (view steps.old) (view steps.new) }
    ensures twice { IsAlone card.now (view steps.old).chain.walked → (view steps.new).twice ≡ (view steps.old).twice }
    ensures hand { steps.new.seat.me.1 ≡ steps.old.seat.me.1 }
    ensures full { IfErr result (λ f. (b : ℕ) × (w : View)
        × IsFull (layout_of chains.now) (beginning (view steps.old) b) w f × ((view steps.old).seen ≤ b)
        × ((view steps.new) ≡ dropping_beginning w)) }
    ensures same { IfErr result (λ f. (view steps.new).book.closed ≡ (view steps.old).book.closed) }
{
    halt.step(Turning::Begin);
    let begin = chains.step_begin_hash(steps);
    halt.step(Turning::Claim);
    match claim(chains, steps, from) {
        Err(full) => {
            chains.step_forget(steps);
            Err(full)
        }
        Ok(slot) => {
            halt.step(Turning::Fill);
            write_card(chains, steps, slot, card);
            link(chains, steps, locked.bucket, slot, card, halt);
            halt.step(Turning::End);
            let end = chains.step_end(steps);
            Ok(Hashed { slot, begin, end })
        }
    }
}

// Unhashes the slot that stands in the list behind another, or first.
pub(crate) fn unhash_numbered<H: Halt>(
    chains: &Chains,
    steps: &mut Steps,
    locked: &Locked,
    before: Option<u32>,
    slot: u32,
    halt: &mut H,
) -> Unhashed
    requires table { IsOf chains.now steps.old }
    requires at { IsAt (layout_of chains.now) locked.now (view steps.old) × (locked.now.started ≡ true) }
    requires slot { slot < (layout_of chains.now).shape.slots }
    requires idle { IsIdle (view steps.old).slot × ((view steps.old).book.opened ≡ []) }
    requires share { HasShares 2 (view steps.old) }
    requires card { (a : ℕ) × (b : ℕ) × (c : ℕ) × (d : ℕ)
        × (card_in slot (view steps.old).chain.walked ≡ a ∷ b ∷ c ∷ d ∷ []) }
    requires listed { Stands (layout_of chains.now) before slot (view steps.old) }
    requires own { MayUnhash slot (view steps.old) }
    ensures table { IsOf chains.now steps.new }
    ensures idle { IsIdle (view steps.new).slot × ((view steps.new).book.opened ≡ []) }
    ensures change { AddsAt (view steps.old) (view steps.new) 0 locked.now.bucket slot
        (card_in slot (view steps.old).chain.walked) result.begin result.end }
    ensures rest { Rest (view steps.old) (view steps.new) }
    ensures saw { Sees (view steps.old) (view steps.new) }
    ensures twice { (view steps.new).twice ≡ (view steps.old).twice }
    ensures hand { steps.new.seat.me.1 ≡ steps.old.seat.me.1 }
    ensures at { IsAt (layout_of chains.now) locked.now (view steps.new) }
    ensures gone { (view steps.new).chain
        ≡ record (view steps.old).chain { walked = without slot (view steps.old).chain.walked } }
{
    halt.step(Turning::Begin);
    let begin = chains.step_begin_unhash(steps, slot);
    leave(chains, steps, locked.bucket, before, slot, halt);
    halt.step(Turning::End);
    let end = chains.step_end(steps);
    Unhashed { begin, end }
}

// The steps of an unhash between its draws.
fn leave<H: Halt>(
    chains: &Chains,
    steps: &mut Steps,
    bucket: u32,
    before: Option<u32>,
    slot: u32,
    halt: &mut H,
)
    requires table { IsOf chains.now steps.old }
    requires held { ((view steps.old).chain.locked ≡ bucket ∷ []) × (bucket < bucket_count (layout_of chains.now)) }
    requires slot { slot < (layout_of chains.now).shape.slots }
    requires idle { IsIdle (view steps.old).slot }
    requires begun { IsUnhashOf slot (view steps.old) × ((view steps.old).done ≡ 0) }
    requires listed { Stands (layout_of chains.now) before slot (view steps.old) }
    ensures table { IsOf chains.now steps.new }
    ensures idle { IsIdle (view steps.new).slot }
    ensures rest { Rest (view steps.old) (view steps.new) }
    ensures seen { (view steps.new).seen ≡ (view steps.old).seen }
    ensures sights { (view steps.new).sights ≡ (view steps.old).sights }
    ensures twice { (view steps.new).twice ≡ (view steps.old).twice }
    ensures hand { steps.new.seat.me.1 ≡ steps.old.seat.me.1 }
    ensures gone { (view steps.new).chain
        ≡ record (view steps.old).chain { walked = without slot (view steps.old).chain.walked } }
    ensures book { ((view steps.new).book ≡ (view steps.old).book) × ((view steps.new).done ≡ 1) }
{
    halt.step(Turning::Clear);
    chains.step_clear_live(steps, slot);
    let link = chains.step_again_link(steps, slot);
    halt.step(Turning::Past);
    match before {
        None => chains.step_past_head(steps, bucket, slot, link),
        Some(before) => chains.step_past_link(steps, before, slot, link),
    }
    halt.step(Turning::Release);
    chains.step_clear_own(steps, slot);
}
