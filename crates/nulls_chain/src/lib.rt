//! Chains whose ends have numbers: walked, and changed by a hash or an unhash under the bucket's lock.
//!
//! [`walk`] goes on to the next socket of a locked bucket's chain. [`hash`] puts a card first into it, and answers
//! its [`Place`]; [`unhash`] takes a place out, [`unhash_tw`] a TIME_WAIT by its name, [`unhash_slot`] a slot that a
//! walk found: one change each, with two numbers of the clock, which lookups that lock nothing may meet at any step.
//! [`hash_with`] and [`unhash_with`] report each step to a [`Halt`] before it comes.
//!
//! ```text
//! let mut locked = lock(&chains, &Waits::by(&rt), &mut pass.steps, bucket).unwrap();
//! while let Some((slot, card)) = walk(&chains, &mut pass.steps, &mut locked) { .. }
//! let place = hash(&chains, &mut pass, &locked, from, &card)?;
//! unhash(&chains, &mut pass, &mut locked, place);
//! unlock(&chains, &mut pass.steps, locked);
//! ```
#![tactic(auto)]

mod changes;
mod finding;
mod halting;
mod keeping;
mod leaving;
mod walking;

pub use finding::walk_to_end;
pub use halting::{Halt, Turning, Unhalted};
pub use keeping::{Place, hash, hash_with, unhash_slot};
pub use leaving::{unhash, unhash_tw, unhash_with};
pub use walking::walk;
