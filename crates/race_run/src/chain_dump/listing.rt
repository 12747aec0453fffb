//! The sockets of one bucket.

ghost use Rattle.std.specs.Prelude.{◌≡◌, ◌+◌, ◌++◌, ◌<◌, ◌≤◌, [], false, true, vec_len, vec_capacity};
ghost use Rattle.bucket_locks.specs.Locks.{IsAt, WalkKnown};
ghost use Rattle.nulls_chain.specs.Changes.{WasChain};
ghost use Rattle.race_run.specs.Rows.{cards_of};
ghost use Rattle.race_run.specs.Sightings.{Lists};
ghost use Rattle.table_rule.specs.Calls.{IsOf, IsIdle, Becomes, view, layout_of};
ghost use Rattle.table_rule.specs.Words.{bucket_count};

use bucket_locks::{Locked, lock, unlock};
use nulls_chain::walk;
use patience::Waits;
use sock_card::{Card, unpack};
use std::sync::Wait;
use table_rule::{Chains, Steps};

/// Walks the whole chain of a bucket that was just locked, and appends its cards, the newest first.
///
/// It takes no memory. Its cost is six loads a card.
pub fn list(chains: &Chains, steps: &mut Steps, locked: &mut Locked, items: &mut Vec<Card>)
    requires table { IsOf chains.now steps.old }
    requires at { IsAt (layout_of chains.now) locked.old (view steps.old) }
    requires fresh { locked.old.started ≡ false }
    requires known { WalkKnown (layout_of chains.now) (view steps.old) }
    requires room { vec_len items.old + (layout_of chains.now).shape.slots ≤ vec_capacity items.old }
    ensures table { IsOf chains.now steps.new }
    ensures at { IsAt (layout_of chains.now) locked.new (view steps.new) × (locked.new.started ≡ true)
        × (locked.new.bucket ≡ locked.old.bucket) }
    ensures kept { Becomes steps.old steps.new (record (view steps.old) { chain = (view steps.new).chain }) }
    ensures whole { ((view steps.new).chain.met ≡ 1) × ((view steps.new).chain.ahead ≡ []) }
    ensures known { WalkKnown (layout_of chains.now) (view steps.new) }
    ensures listed { items.new.items ≡ items.old.items ++ cards_of (view steps.new).chain.walked }
    ensures sole { WasChain (view steps.new).chain.walked locked.old.bucket (view steps.old) }
    ensures room { vec_capacity items.new ≡ vec_capacity items.old }
{
    for _count in 0..u64::from(chains.slot_count()) + 1 {
        match walk(chains, steps, locked) {
            None => return,
            Some((_, words)) => items.push_reserved(unpack(&words)),
        }
    }
    unreachable!()
}

// The same of a bucket that nobody in this pass has locked: under its lock, which is given back.
pub(crate) fn list_bucket<R: Wait>(
    chains: &Chains,
    rt: &R,
    steps: &mut Steps,
    bucket: u32,
    items: &mut Vec<Card>,
)
    requires table { IsOf chains.now steps.old }
    requires bucket { bucket < bucket_count (layout_of chains.now) }
    requires idle { IsIdle (view steps.old).slot × ((view steps.old).book.opened ≡ []) }
    requires free { (view steps.old).chain.locked ≡ [] }
    requires room { vec_len items.old + (layout_of chains.now).shape.slots ≤ vec_capacity items.old }
    ensures table { IsOf chains.now steps.new }
    ensures lists { Lists bucket items.old.items items.new.items (view steps.old) (view steps.new) }
    ensures hand { steps.new.seat.me.1 ≡ steps.old.seat.me.1 }
{
    let mut locked = lock(chains, &Waits::by(rt), steps, bucket).unwrap();
    list(chains, steps, &mut locked, items);
    unlock(chains, steps, locked);
}
