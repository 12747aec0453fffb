ghost use Rattle.std.specs.Prelude.{◌≡◌, ◌%◌, true, ◌<◌, ◌++◌, ◌∷◌, [], ℕ, IfSome, IfNone};
ghost use Rattle.table_rule.specs.Plays.{PlacesListed, PlacesApart, TuplesListed, advancing, Inside, Fits};
ghost use Rattle.table_rule.specs.Sole.{SoleKnown};
ghost use Rattle.table_rule.specs.Beyond.{IsCardWords};
ghost use Rattle.table_rule.specs.Calls.{IsOf, IsIdle, seen_of, view, layout_of, Becomes};
ghost use Rattle.table_rule.specs.Words.{words_of};
ghost use Rattle.bucket_locks.specs.Locks.{IsAt, WalkKnown};
ghost use Rattle.nulls_chain.specs.Changes.{going};

use bucket_locks::Locked;
use sock_card::CardWords;
use table_rule::{Chains, Steps};

#[inline(always)]
fn read_card(chains: &Chains, steps: &mut Steps, slot: u32) -> CardWords
    requires table { IsOf chains.now steps.old }
    requires slot { slot < (layout_of chains.now).shape.slots }
    requires ahead { (view steps.old).chain.ahead ≡ record { slot = slot; words = [] } ∷ [] }
    ensures table { IsOf chains.now steps.new }
    ensures ahead { Becomes steps.old steps.new
        (record (view steps.old) { chain = record (view steps.old).chain { ahead = seen_of slot result ∷ [] } }) }
    ensures small { result.ports < 18446744073709551616 }
    ensures card { (b : ℕ) → (view steps.old).chain.locked ≡ b ∷ [] → IsIdle (view steps.old).slot
        → IsCardWords (words_of result) }
{
    let ends = chains.step_read(steps, slot, 0);
    let ports = chains.step_read(steps, slot, 1);
    let name = chains.step_read(steps, slot, 2);
    let extra = chains.step_read(steps, slot, 3);
    CardWords {
        ends,
        ports,
        name,
        extra,
    }
}

#[inline(always)]
fn step(chains: &Chains, steps: &mut Steps, locked: &Locked) -> u64
    requires table { IsOf chains.now steps.old }
    requires at { IsAt (layout_of chains.now) locked.now (view steps.old) }
    requires on { locked.now.started ≡ true → locked.now.link % 2 ≡ 0 }
    ensures table { IsOf chains.now steps.new }
    ensures view { Becomes steps.old steps.new (advancing (view steps.old) result) }
    ensures inside { Inside (layout_of chains.now) result }
    ensures known { SoleKnown (view steps.new) }
    ensures fits { Fits (layout_of chains.now) (view steps.new) }
    ensures places { PlacesListed (view steps.new) }
    ensures apart { PlacesApart (view steps.new) }
    ensures tuples { TuplesListed (view steps.new) }
{
    if locked.started {
        chains.step_next_link(steps, (locked.link / 2) as u32)
    } else {
        chains.step_next_head(steps, locked.bucket)
    }
}

/// The next slot of the chain and its card, where the walk has not met the end. None at the end.
// Inlined, so that a card's words stay in registers: a walk goes by most cards at a look at one of them.
#[inline(always)]
pub fn walk(chains: &Chains, steps: &mut Steps, locked: &mut Locked) -> Option<(u32, CardWords)>
    requires table { IsOf chains.now steps.old }
    requires at { IsAt (layout_of chains.now) locked.old (view steps.old) }
    requires on { locked.old.started ≡ true → locked.old.link % 2 ≡ 0 }
    ensures table { IsOf chains.now steps.new }
    ensures at { IsAt (layout_of chains.now) locked.new (view steps.new) }
    ensures locked { (locked.new.bucket ≡ locked.old.bucket) × (locked.new.started ≡ true) }
    ensures kept { Becomes steps.old steps.new (record (view steps.old) { chain = (view steps.new).chain }) }
    ensures some { IfSome result (λ t. (view steps.new).chain ≡ going (view steps.old).chain (seen_of t.0 t.1 ∷ []) 0) }
    ensures near { IfSome result (λ t. (t.0 < (layout_of chains.now).shape.slots) × (locked.new.link % 2 ≡ 0)
        × (t.1.ports < 18446744073709551616)) }
    ensures cards { IfSome result (λ t. IsIdle (view steps.old).slot → IsCardWords (words_of t.1)) }
    ensures none { IfNone result (((view steps.new).chain.walked ≡ (view steps.old).chain.walked
        ++ (view steps.old).chain.ahead) × ((view steps.new).chain.ahead ≡ []) × ((view steps.new).chain.met ≡ 1)) }
    ensures known { IfNone result (SoleKnown (view steps.new)) }
    ensures places { IfNone result (PlacesListed (view steps.new)) }
    ensures apart { IfNone result (PlacesApart (view steps.new)) }
    ensures tuples { IfNone result (TuplesListed (view steps.new)) }
    ensures fits { Fits (layout_of chains.now) (view steps.new) }
    ensures walked { WalkKnown (layout_of chains.now) (view steps.old)
        → WalkKnown (layout_of chains.now) (view steps.new) }
{
    let link = step(chains, steps, locked);
    locked.started = true;
    locked.link = link;
    if link % 2 == 1 {
        return None;
    }
    let slot = (link / 2) as u32;
    let card = read_card(chains, steps, slot);
    Some((slot, card))
}
