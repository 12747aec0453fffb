//! Tries for a lock that another pass has, once, for a while, and for good once it was given back; and what a patience
//! is asked meanwhile.

ghost use Rattle.std.specs.Prelude.{◌≡◌, ◌<◌, [], false};
ghost use Rattle.table_rule.specs.Calls.{IsIdle, layout_of};
ghost use Rattle.table_rule.specs.Passes.{IsPassOf, known};
ghost use Rattle.table_rule.specs.Words.{bucket_count};

use bucket_locks::{lock, try_lock, unlock};
use chain_book::Shape;
use patience::{Patience, Tries, Waits};
use std::sync::atomic::{AtomicU64, Ordering};
use std::test::Fail;
use table_rule::{Chains, Pass};

const SHAPE: Shape = Shape {
    slots: 1,
    bind: 1,
    hash: 1,
    listen: 1,
};

/// Whether the lock of a bucket is had before the patience ends. Where that is so, it is given back.
fn is_had<P: Patience>(chains: &Chains, patience: &P, pass: &mut Pass, bucket: u32) -> bool
    requires table { IsPassOf chains.now pass.old }
    requires bucket { bucket < bucket_count (layout_of chains.now) }
    requires idle { IsIdle (known pass.old).slot × ((known pass.old).book.opened ≡ []) }
    requires free { (known pass.old).chain.locked ≡ [] }
    ensures table { IsPassOf chains.now pass.new }
    ensures idle { IsIdle (known pass.new).slot × ((known pass.new).book.opened ≡ []) }
    ensures free { (known pass.new).chain.locked ≡ [] }
{
    match lock(chains, patience, &mut pass.steps, bucket) {
        None => false,
        Some(locked) => {
            unlock(chains, &mut pass.steps, locked);
            true
        }
    }
}

#[test]
fn a_lock_that_is_held_is_not_taken(rt: HostRuntime) -> Result<(), Fail> {
    let (chains, mut first) = Chains::new(rt.alloc(), SHAPE, 7)?;
    let mut second = chains.split(rt.alloc(), &mut first);
    let Some(locked) = try_lock(&chains, &mut first.steps, 0) else {
        panic!(rt; "nobody has the lock")
    };
    let meanwhile = (
        is_had(&chains, &Tries(3), &mut second, 0),
        is_had(&chains, &Tries(3), &mut second, 1),
    );
    unlock(&chains, &mut first.steps, locked);
    let afterwards = (
        is_had(&chains, &Tries(0), &mut second, 0),
        is_had(&chains, &Waits::by(&rt), &mut second, 0),
    );
    assert_eq!(rt; (meanwhile, afterwards), ((false, true), (true, true)));
    Ok(())
}

/// Lasts for two tries more than one. It counts how often it is asked, and how often not after so many tries.
#[derive(Drop)]
struct Asked {
    times: AtomicU64,
    wrong: AtomicU64,
}

impl Patience for Asked {
    ghost endless = { false };

    fn lasts(&self, tries: u64) -> bool {
        let times = self.times.fetch_add(1, Ordering::SeqCst);
        if times != tries {
            self.wrong.fetch_add(1, Ordering::SeqCst);
        }
        times < 2
    }
}

#[test]
fn a_patience_is_asked_after_each_try(rt: HostRuntime) -> Result<(), Fail> {
    let (chains, mut first) = Chains::new(rt.alloc(), SHAPE, 7)?;
    let mut second = chains.split(rt.alloc(), &mut first);
    let asked = Asked {
        times: AtomicU64::new(0),
        wrong: AtomicU64::new(0),
    };
    let other = is_had(&chains, &asked, &mut second, 1);
    let Some(_locked) = try_lock(&chains, &mut first.steps, 0) else {
        panic!(rt; "nobody has the lock")
    };
    let same = is_had(&chains, &asked, &mut second, 0);
    let times = asked.times.load(Ordering::SeqCst);
    let wrong = asked.wrong.load(Ordering::SeqCst);
    assert_eq!(rt; (other, same, times, wrong), (true, false, 3, 0));
    Ok(())
}
