ghost use Rattle.std.specs.Prelude.{◌≡◌, ◌≢◌, ◌<◌, ◌≤◌, ◌∷◌, [], ℕ, false, IfOk, IfErr, ◌+◌};
ghost use Rattle.table_rule.specs.declared.view.View.{View};
ghost use Rattle.table_rule.specs.declared.view.Change.{Change};
ghost use Rattle.table_rule.specs.Lists.{stands};
ghost use Rattle.table_rule.specs.Sole.{IsBare, FirstFree, AllUsed, KnowsUse, used_in};
ghost use Rattle.table_rule.specs.Calls.{IsOf, IsHashOf, seen_of, view, me, layout_of, Becomes};
ghost use Rattle.sock_slots.specs.Claims.{Tried, Between, IsFull};
ghost use Rattle.table_rule.specs.Plays.{claiming, glimpsing, seeing_held};

use sock_card::CardWords;
use table_rule::{Chains, Steps};

/// No slot is free: so many are somebody's or linked, and so many are only held by a lookup.
#[derive(Clone, Copy)]
pub struct Full {
    pub owned: u32,
    pub held: u32,
}

// Claims a slot if it is free. The answer is the state that was found. It is loaded first, since an exchange that is
// refused takes longer.
fn claim_one(chains: &Chains, steps: &mut Steps, slot: u32) -> u64
    requires table { IsOf chains.now steps.old }
    requires begun { (c : Change) × ((view steps.old).book.opened ≡ c ∷ []) × (c.kind ≡ 2) }
    requires slot { slot < (layout_of chains.now).shape.slots }
    requires free { (view steps.old).slot.fresh ≡ [] }
    ensures table { IsOf chains.now steps.new }
    ensures claimed { result ≡ 0 → Becomes steps.old steps.new (claiming (view steps.old) slot) }
    ensures held { result ≢ 0 → result < 9223372036854775808
        → Becomes steps.old steps.new (seeing_held (view steps.old) slot) }
    ensures owned { 9223372036854775808 ≤ result → Becomes steps.old steps.new (glimpsing (view steps.old) slot) }
    ensures known { KnowsUse (view steps.old) slot result }
    ensures far { result ≡ 0 → stands slot (view steps.old).chain.walked ≡ 0 }
{
    let state = chains.step_glimpse(steps, slot);
    if state == 0 {
        chains.step_claim(steps, slot)
    } else {
        state
    }
}

// Tries the slots from one on, below another.
fn claim_within(chains: &Chains, steps: &mut Steps, start: u32, end: u32) -> Result<u32, Full>
    requires table { IsOf chains.now steps.old }
    requires begun { (c : Change) × ((view steps.old).book.opened ≡ c ∷ []) × (c.kind ≡ 2) }
    requires free { (view steps.old).slot.fresh ≡ [] }
    requires span { (start ≤ end) × (end ≤ (layout_of chains.now).shape.slots) }
    ensures table { IsOf chains.now steps.new }
    ensures some { IfOk result (λ slot. (slot < (layout_of chains.now).shape.slots) × (start ≤ slot) × (slot < end)
        × (w : View) × (owned : ℕ) × (held : ℕ) × Tried (view steps.old) w owned held (Between start slot)
        × (Becomes steps.old steps.new (claiming w slot))) }
    ensures far { IfOk result (λ slot. stands slot (view steps.old).chain.walked ≡ 0) }
    ensures full { IfErr result (λ f. (start + f.owned + f.held ≡ end)
        × Tried (view steps.old) (view steps.new) f.owned f.held (Between start end)
        × ((me steps.new).1 ≡ (me steps.old).1)) }
    ensures first { IfOk result (λ slot. IsBare (view steps.old) → (used_in (view steps.old).book.closed slot ≡ false)
        × AllUsed (view steps.old).book.closed start slot) }
    ensures all { IfErr result (λ f. IsBare (view steps.old) → AllUsed (view steps.old).book.closed start end
        × (f.held ≡ 0)) }
{
    let mut owned = 0;
    let mut held = 0;
    for slot in start..end {
        let state = claim_one(chains, steps, slot);
        if state == 0 {
            return Ok(slot);
        }
        if state >= 1 << 63 {
            owned += 1;
        } else {
            held += 1;
        }
    }
    Err(Full { owned, held })
}

/// Claims a slot, by one exchange of its state from 0: all are tried, from one on and round to it, each by a load and
/// by the exchange only where that found 0.
///
/// It comes after the beginning of a hash was drawn, and it is refused only where each slot's state was read as not 0
/// at a step of this call: the pass has seen each of them so.
pub fn claim(chains: &Chains, steps: &mut Steps, from: u32) -> Result<u32, Full>
    requires table { IsOf chains.now steps.old }
    requires begun { (c : Change) × ((view steps.old).book.opened ≡ c ∷ []) × (c.kind ≡ 2) }
    requires free { (view steps.old).slot.fresh ≡ [] }
    requires from { from ≤ (layout_of chains.now).shape.slots }
    ensures table { IsOf chains.now steps.new }
    ensures some { IfOk result (λ slot. (slot < (layout_of chains.now).shape.slots) × (w : View) × (owned : ℕ)
        × (held : ℕ) × Tried (view steps.old) w owned held (Between 0 (layout_of chains.now).shape.slots)
        × (Becomes steps.old steps.new (claiming w slot))) }
    ensures far { IfOk result (λ slot. stands slot (view steps.old).chain.walked ≡ 0) }
    ensures full { IfErr result (λ f. IsFull (layout_of chains.now) (view steps.old) (view steps.new) f
        × ((me steps.new).1 ≡ (me steps.old).1)) }
    ensures first { IfOk result (λ slot. IsBare (view steps.old)
        → FirstFree (view steps.old).book.closed (layout_of chains.now).shape.slots from slot) }
    ensures all { IfErr result (λ f. IsBare (view steps.old)
        → AllUsed (view steps.old).book.closed 0 (layout_of chains.now).shape.slots × (f.held ≡ 0)) }
{
    match claim_within(chains, steps, from, chains.slot_count()) {
        Ok(slot) => Ok(slot),
        Err(high) => match claim_within(chains, steps, 0, from) {
            Ok(slot) => Ok(slot),
            Err(low) => Err(Full {
                owned: high.owned + low.owned,
                held: high.held + low.held,
            }),
        },
    }
}

/// Writes the card of a claimed slot, by four stores.
pub fn write_card(chains: &Chains, steps: &mut Steps, slot: u32, card: &CardWords)
    requires table { IsOf chains.now steps.old }
    requires slot { slot < (layout_of chains.now).shape.slots }
    requires begun { IsHashOf slot (view steps.old) }
    requires fresh { (view steps.old).slot.fresh ≡ record { slot = slot; words = [] } ∷ [] }
    ensures table { IsOf chains.now steps.new }
    ensures fresh { Becomes steps.old steps.new
        (record (view steps.old) { slot = record (view steps.old).slot { fresh = seen_of slot card.now ∷ [] } }) }
{
    chains.step_card(steps, slot, 0, card.ends);
    chains.step_card(steps, slot, 1, card.ports);
    chains.step_card(steps, slot, 2, card.name);
    chains.step_card(steps, slot, 3, card.extra);
}
