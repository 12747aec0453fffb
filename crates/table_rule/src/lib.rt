//! The words of the chain table, under one rule that each single step of any thread keeps.
//!
//! [`Chains`] are the words: a clock, a head and a lock for each bucket, and six words for each slot, all of them
//! atomic. A thread steps on them by a [`Pass`] of its own, which has its [`Steps`] and the [`Changes`] of chains
//! that they closed; [`Chains::split`] makes another one, and [`Chains::join`] takes it in again. Each `step_` of
//! [`Chains`] is one atomic step on one word. The crates above make calls of them: on a slot, a lock, a chain, a
//! lookup.
//!
//! The [`Rule`] says what holds of all words and all passes between any two steps, such as that the changes of all
//! passes explain what a lookup answered. Each step keeps it, and its contract says what the pass knows afterwards.
//!
//! ```text
//! let (chains, mut pass) = Chains::new(alloc, shape, seed)?;
//! let found = chains.step_lock(&mut pass.steps, bucket);
//! chains.step_unlock(&mut pass.steps, bucket);
//! ```
#![tactic(auto)]

mod cards;
mod changes;
pub mod laws;
mod make;
mod pass;
mod passes;
mod rule;
mod steps;
mod table;
mod unlocked;
mod view;
mod wholes;

pub use cards::known_card;
pub use changes::Changes;
pub use pass::Pass;
pub use rule::{First, Rule, Second, Told};
pub use steps::LEAST_LIVE;
pub use table::{Chains, Steps};
pub use view::{
    BookView, ChainView, Change, Kept, Layout, ReadView, Reader, Receipt, Seen, Sight, Sighted,
    SlotView, Stop, View, Whole,
};
