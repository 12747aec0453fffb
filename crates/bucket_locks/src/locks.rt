ghost use Rattle.std.specs.Prelude.{◌≡◌, ◌<◌, ◌∷◌, [], true, false, IfSome, IfNone};
ghost use Rattle.table_rule.specs.Calls.{IsOf, view, Becomes, Stays, MayUnlock, layout_of, Unlocks};
ghost use Rattle.bucket_locks.specs.Locks.{IsAt, WalkKnown};
ghost use Rattle.table_rule.specs.Plays.{locking};
ghost use Rattle.table_rule.specs.Words.{bucket_count};

use patience::Patience;
use table_rule::{Chains, Steps};

/// A bucket that a pass has locked, and how far its walk has come.
#[derive(Drop)]
pub struct Locked {
    pub bucket: u32,
    /// The head was loaded: `link` is the link that was loaded last.
    pub started: bool,
    pub link: u64,
}

/// Takes the bucket's lock where nobody has it, by one exchange of its lock word.
///
/// It is one try: where another pass has the lock, the answer is None, and nothing has changed. It waits for nobody.
pub fn try_lock(chains: &Chains, steps: &mut Steps, bucket: u32) -> Option<Locked>
    requires table { IsOf chains.now steps.old }
    requires bucket { bucket < bucket_count (layout_of chains.now) }
    requires closed { (view steps.old).book.opened ≡ [] }
    requires free { ((view steps.old).chain.locked ≡ []) × ((view steps.old).slot.tied ≡ []) }
    ensures table { IsOf chains.now steps.new }
    ensures view { IfSome result (λ locked. Becomes steps.old steps.new (locking (view steps.old) bucket)) }
    ensures at { IfSome result (λ locked. IsAt (layout_of chains.now) locked (view steps.new)) }
    ensures fresh { IfSome result (λ locked. locked.started ≡ false) }
    ensures known { IfSome result (λ locked. WalkKnown (layout_of chains.now) (view steps.new)) }
    ensures none { IfNone result (Stays steps.old steps.new) }
{
    if chains.step_lock(steps, bucket) == 0 {
        Some(Locked {
            bucket,
            started: false,
            link: 0,
        })
    } else {
        None
    }
}

/// Takes the bucket's lock, and tries until it is free, as long as the caller's patience lasts.
///
/// From then on this pass alone changes the bucket's chain, until it gives the lock back. A pass has one bucket
/// locked at most. None: another pass had it for so long, and nothing has changed; with a [`Patience`] that is endless,
/// this doesn't come.
pub fn lock<P: Patience>(
    chains: &Chains,
    patience: &P,
    steps: &mut Steps,
    bucket: u32,
) -> Option<Locked>
    requires table { IsOf chains.now steps.old }
    requires bucket { bucket < bucket_count (layout_of chains.now) }
    requires closed { (view steps.old).book.opened ≡ [] }
    requires free { ((view steps.old).chain.locked ≡ []) × ((view steps.old).slot.tied ≡ []) }
    ensures table { IsOf chains.now steps.new }
    ensures view { IfSome result (λ locked. Becomes steps.old steps.new (locking (view steps.old) bucket)) }
    ensures at { IfSome result (λ locked. IsAt (layout_of chains.now) locked (view steps.new)) }
    ensures fresh { IfSome result (λ locked. locked.started ≡ false) }
    ensures known { IfSome result (λ locked. WalkKnown (layout_of chains.now) (view steps.new)) }
    ensures none { IfNone result (Stays steps.old steps.new) }
    ensures had { P.endless ≡ true → IfNone result ⊥ }
{
    for tries in 0..=u64::MAX {
        if let Some(locked) = try_lock(chains, steps, bucket) {
            return Some(locked);
        }
        if !patience.lasts(tries) {
            return None;
        }
    }
    None
}

/// Gives the lock back. What was walked of the chain is what the pass saw of it, from the lock on.
pub fn unlock(chains: &Chains, steps: &mut Steps, locked: Locked)
    requires table { IsOf chains.now steps.old }
    requires closed { (view steps.old).book.opened ≡ [] }
    requires at { ((view steps.old).chain.locked ≡ locked.bucket ∷ [])
        × (locked.bucket < bucket_count (layout_of chains.now)) }
    requires idle { ((view steps.old).slot.tied ≡ []) × ((view steps.old).slot.hung ≡ [])
        × ((view steps.old).slot.dimmed ≡ []) }
    requires alone { MayUnlock (view steps.old) }
    ensures table { IsOf chains.now steps.new }
    ensures view { Unlocks steps.old steps.new }
{
    chains.step_unlock(steps, locked.bucket);
}
