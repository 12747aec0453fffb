//! The lock of a bucket: who holds it changes the bucket's chain, and nobody else does.
//!
//! [`try_lock`] takes the lock by one exchange of the bucket's lock word, where nobody has it, and [`lock`] tries
//! as long as its caller likes; [`unlock`] gives it back by one store. A [`Locked`] stands for as much of the chain
//! as was walked since. Lookups ask for no lock.
//!
//! ```text
//! let locked = lock(&chains, &Waits::by(rt), &mut pass.steps, bucket).unwrap();    // or Tries(1_000), and None
//! unlock(&chains, &mut pass.steps, locked);
//! ```
#![tactic(auto)]

mod locks;

pub use locks::{Locked, lock, try_lock, unlock};
