//! Slots of the chain table: claimed, filled with a card, held by counts.
//!
//! [`claim`] takes a slot that nobody has and no count is on, [`write_card`] fills it before it is linked.
//! [`take`] takes a count of a live slot: while it stands nobody claims the slot, and its [`card`] stays as it is.
//! [`put`] gives the count back. None of them locks, waits or takes memory.
//!
//! ```text
//! let held = take(&chains, &mut pass.steps, slot)?;
//! let card = card(&chains, &mut pass.steps, &held);
//! put(&chains, &mut pass.steps, held);
//! ```
#![tactic(auto)]

pub mod fresh;
pub mod holds;

pub use fresh::{Full, claim, write_card};
pub use holds::{Dead, Held, card, put, take};
