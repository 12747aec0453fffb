//! The sockets of all buckets.

ghost use Rattle.std.specs.Prelude.{◌≡◌, ◌<◌, ◌≤◌, ◌^◌, [], IfOk};
ghost use Rattle.race_run.specs.Books.{AreTold};
ghost use Rattle.race_run.specs.Dumps.{Keeps, ListsAll, Saw, cards_from};
ghost use Rattle.table_rule.specs.Alone.{mine};
ghost use Rattle.table_rule.specs.Calls.{IsOf, IsIdle, view, layout_of};
ghost use Rattle.table_rule.specs.Passes.{IsPassOf, known};
ghost use Rattle.table_rule.specs.Sole.{IsSole};
ghost use Rattle.table_rule.specs.Words.{bucket_count};

use super::listing::list_bucket;
use chain_book::Shape;
use sock_card::Card;
use std::alloc::{AllocError, Global};
use std::sync::Wait;
use table_rule::{Chains, Pass, Steps};

/// All sockets that a dump saw, bucket by bucket, and the clock before its first lock and after its last.
#[derive(Drop)]
pub struct Dump {
    pub items: Vec<Card>,
    pub t0: u64,
    pub t1: u64,
}

// One bucket after the other, from the first on.
fn list_buckets<R: Wait>(
    chains: &Chains,
    rt: &R,
    steps: &mut Steps,
    buckets: u32,
    items: &mut Vec<Card>,
) -> Result<(), AllocError>
    requires table { IsOf chains.now steps.old }
    requires buckets { buckets ≡ bucket_count (layout_of chains.now) }
    requires idle { IsIdle (view steps.old).slot × ((view steps.old).book.opened ≡ []) }
    requires free { (view steps.old).chain.locked ≡ [] }
    ensures table { IsOf chains.now steps.new }
    ensures free { (view steps.new).chain.locked ≡ [] }
    ensures keeps { Keeps (view steps.old) (view steps.new) }
    ensures seen { (view steps.new).seen ≡ (view steps.old).seen }
    ensures lists { IfOk result (λ _. ListsAll buckets items.old.items items.new.items (view steps.old)
        (view steps.new)) }
    ensures hand { steps.new.seat.me.1 ≡ steps.old.seat.me.1 }
{
    for bucket in 0..buckets {
        items.reserve(chains.slot_count() as usize)?;
        list_bucket(chains, rt, steps, bucket, items);
    }
    Ok(())
}

/// Lists all sockets of the table: it loads the clock, lists the chain of each bucket in turn under its lock, and
/// loads the clock again.
///
/// Room for as many cards as there are slots is made before each lock is taken, so no memory is made under one. A
/// failure is that of memory; the pass is as it was then too, but for what it saw.
///
/// As `inet_diag_dump_icsk` of net/ipv4/inet_diag.c, which makes no promise of this kind.
pub fn dump_sockets<R: Wait>(
    chains: &Chains,
    shape: &Shape,
    rt: &R,
    alloc: Global,
    pass: &mut Pass,
) -> Result<Dump, AllocError>
    requires table { IsPassOf chains.now pass.old }
    requires shape { shape.now ≡ (layout_of chains.now).shape }
    requires fits { bucket_count (layout_of chains.now) < 2 ^ 32 }
    requires idle { IsIdle (known pass.old).slot × ((known pass.old).book.opened ≡ []) }
    requires free { (known pass.old).chain.locked ≡ [] }
    ensures table { IsPassOf chains.now pass.new }
    ensures free { (known pass.new).chain.locked ≡ [] }
    ensures keeps { Keeps (known pass.old) (known pass.new) }
    ensures changes { pass.new.changes ≡ pass.old.changes }
    ensures hand { pass.new.steps.seat.me.1 ≡ pass.old.steps.seat.me.1 }
    ensures fresh { IfOk result (λ d. (known pass.old).seen ≤ d.t0) }
    ensures span { IfOk result (λ d. d.t0 ≤ d.t1) }
    ensures ends { IfOk result (λ d. (known pass.new).seen ≡ d.t1) }
    ensures saw { IfOk result (λ d. Saw (layout_of chains.now) d (known pass.old) (known pass.new)) }
    ensures own { IfOk result (λ d. (known pass.old).slot.parts ≡ 16384
        → AreTold (mine (known pass.new)) (bucket_count (layout_of chains.now)) d.t0 d.t1 d.items.items) }
    ensures sole { IfOk result (λ d. IsSole (known pass.old)
        → d.items.items ≡ cards_from (layout_of chains.now) (known pass.old).book.closed) }
{
    let t0 = chains.step_clock(&mut pass.steps);
    let mut items = Vec::new(alloc);
    list_buckets(
        chains,
        rt,
        &mut pass.steps,
        shape.hash + shape.listen,
        &mut items,
    )?;
    let t1 = chains.step_clock(&mut pass.steps);
    Ok(Dump { items, t0, t1 })
}
