ghost use Rattle.std.specs.Prelude.{◌≡◌, ◌<◌, ◌∷◌, ◌++◌, [], List, None, true, false, IfSome, IfNone};
ghost use Rattle.table_rule.specs.declared.view.Seen.{Seen};
ghost use Rattle.table_rule.specs.Lists.{stands};
ghost use Rattle.table_rule.specs.Calls.{IsOf, IsIdle, Stays, Becomes, layout_of, seen_of, view};
ghost use Rattle.table_rule.specs.Beyond.{IsCardWords};
ghost use Rattle.table_rule.specs.Plays.{PlacesApart, TuplesListed};
ghost use Rattle.table_rule.specs.Words.{bucket_count, words_of};
ghost use Rattle.bucket_locks.specs.Locks.{IsAt, WalkKnown};
ghost use Rattle.nulls_chain.specs.Changes.{Stands, WasChain, wait_in};
ghost use Rattle.nulls_chain.specs.Changes as spec;

use super::walking::walk;
use bucket_locks::Locked;
use sock_card::CardWords;
use table_rule::{Chains, Steps};

/// The number of TIME_WAIT in a card's second word.
const TIME_WAIT: u64 = 2;

// Of a chain that was walked to its end, the slot before another; None before the first.
pub(crate) fn slot_before(chains: &Chains, steps: &mut Steps, bucket: u32, slot: u32) -> Option<u32>
    requires table { IsOf chains.now steps.old }
    requires held { ((view steps.old).chain.locked ≡ bucket ∷ []) × (bucket < bucket_count (layout_of chains.now)) }
    requires whole { ((view steps.old).chain.met ≡ 1) × ((view steps.old).chain.ahead ≡ []) }
    requires known { WalkKnown (layout_of chains.now) (view steps.old) }
    requires listed { 0 < stands slot (view steps.old).chain.walked }
    ensures table { IsOf chains.now steps.new }
    ensures same { Stays steps.old steps.new }
    ensures stands { Stands (layout_of chains.now) result slot (view steps.old) }
{
    let mut before = None;
    let mut link = chains.step_again_head(steps, bucket);
    for _count in 0..chains.slot_count() {
        let here = (link / 2) as u32;
        if here == slot {
            return before;
        }
        before = Some(here);
        link = chains.step_again_link(steps, here);
    }
    unreachable!()
}

/// Walks on to the end of the chain, from wherever the walk stands.
pub fn walk_to_end(chains: &Chains, steps: &mut Steps, locked: &mut Locked)
    requires table { IsOf chains.now steps.old }
    requires at { IsAt (layout_of chains.now) locked.old (view steps.old) }
    requires known { WalkKnown (layout_of chains.now) (view steps.old) }
    ensures table { IsOf chains.now steps.new }
    ensures at { IsAt (layout_of chains.now) locked.new (view steps.new) × (locked.new.started ≡ true)
        × (locked.new.bucket ≡ locked.old.bucket) }
    ensures kept { Becomes steps.old steps.new (record (view steps.old) { chain = (view steps.new).chain }) }
    ensures whole { ((view steps.new).chain.met ≡ 1) × ((view steps.new).chain.ahead ≡ []) }
    ensures known { WalkKnown (layout_of chains.now) (view steps.new) }
    ensures on { (more : List Seen)
        × ((view steps.new).chain.walked ≡ ((view steps.old).chain.walked ++ (view steps.old).chain.ahead) ++ more) }
    ensures still { (view steps.old).chain.met ≡ 1 → (view steps.new).chain ≡ (view steps.old).chain }
    ensures sole { (view steps.old).chain.met ≡ 0
        → WasChain (view steps.new).chain.walked locked.old.bucket (view steps.old) }
    ensures apart { (view steps.old).chain.met ≡ 0 → PlacesApart (view steps.new) }
    ensures tuples { (view steps.old).chain.met ≡ 0 → TuplesListed (view steps.new) }
{
    if locked.started && locked.link % 2 == 1 {
        return;
    }
    for _count in 0..u64::from(chains.slot_count()) + 1 {
        match walk(chains, steps, locked) {
            Some(_) => {}
            None => return,
        }
    }
    unreachable!()
}

fn waits_as(card: &CardWords, name: u64) -> bool
    ensures { result ≡ spec.waits_as name (words_of card.now) }
{
    card.ports % 16 == TIME_WAIT && card.name == name
}

// Walks a bucket that was just locked to the first TIME_WAIT of this name; None at the chain's end.
pub(crate) fn find_wait(
    chains: &Chains,
    steps: &mut Steps,
    locked: &mut Locked,
    name: u64,
) -> Option<(u32, CardWords)>
    requires table { IsOf chains.now steps.old }
    requires at { IsAt (layout_of chains.now) locked.old (view steps.old) }
    requires fresh { locked.old.started ≡ false }
    requires known { WalkKnown (layout_of chains.now) (view steps.old) }
    requires idle { IsIdle (view steps.old).slot }
    ensures table { IsOf chains.now steps.new }
    ensures at { IsAt (layout_of chains.now) locked.new (view steps.new) × (locked.new.bucket ≡ locked.old.bucket) }
    ensures kept { Becomes steps.old steps.new (record (view steps.old) { chain = (view steps.new).chain }) }
    ensures known { WalkKnown (layout_of chains.now) (view steps.new) }
    ensures some { IfSome result (λ t. ((view steps.new).chain.ahead ≡ seen_of t.0 t.1 ∷ [])
        × ((view steps.new).chain.met ≡ 0) × (wait_in name (view steps.new).chain.walked ≡ None)) }
    ensures card { IfSome result (λ t. (spec.waits_as name (words_of t.1) ≡ true) × IsCardWords (words_of t.1)
        × (t.0 < (layout_of chains.now).shape.slots)) }
    ensures none { IfNone result (((view steps.new).chain.met ≡ 1) × ((view steps.new).chain.ahead ≡ [])
        × (wait_in name (view steps.new).chain.walked ≡ None)) }
    ensures sole { IfNone result (WasChain (view steps.new).chain.walked locked.old.bucket (view steps.old)) }
{
    for _count in 0..u64::from(chains.slot_count()) + 1 {
        let (slot, card) = walk(chains, steps, locked)?;
        if waits_as(&card, name) {
            return Some((slot, card));
        }
    }
    unreachable!()
}
