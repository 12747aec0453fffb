//! How long a call tries to have what another thread has: for good, or so many times.
//!
//! A program that may wait has a handle for it, and its calls go on by [`Waits`] until they have what they want. A
//! library that is called from outside has none: its calls try a number of times, by [`Tries`], and then say that
//! they were too busy. One text of a call serves both, over any [`Patience`].
//!
//! ```text
//! for tries in 0..=u64::MAX {
//!     if let Some(had) = try_to_have() {
//!         return Some(had);
//!     }
//!     if !patience.lasts(tries) {
//!         return None;
//!     }
//! }
//! None
//! ```
#![tactic(auto)]

mod patience;
#[cfg(test)]
mod tests;

pub use patience::{Patience, Tries, Waits};
