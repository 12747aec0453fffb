//! Sockets in the chains that threads share, as operations change them: each call does deeds of a race's record.
//!
//! A [`ChainTable`] is the chain table with what it is laid out for, and a [`ChainPass`] a thread's part in it, which
//! knows from which slot it seeks the next free one. [`insert`] and [`add`] hash a socket in the chain in which its
//! card belongs, [`remove`] takes one out, whose chain [`lock_chain_of`] has locked, [`time_wait`] leaves a TIME_WAIT
//! in its place, which [`remove_tw`] ends, and [`hand_over`] puts a socket in the place of its request. Each takes
//! one lock, and needs room that [`ChainPass::reserve`] made; where another pass has the lock for longer than its
//! caller's [`Patience`](patience::Patience) lasts, nothing has changed. Their contracts say which deeds they did,
//! and that on a pass which was never split the chains answered as plain ones do.
//!
//! ```text
//! let (table, mut pass) = ChainTable::new(alloc, shape, seed)?;
//! pass.reserve(&table, 2)?;
//! let inserted = insert(&table, &Waits::by(&rt), &mut pass, &card, moment, Replace::After).unwrap()?;
//! ```

mod coming;
mod handover;
mod leaving;
mod table;

pub use coming::{add, insert};
pub use handover::hand_over;
pub use leaving::{lock_chain_of, remove, remove_tw, time_wait};
pub use table::{ChainPass, ChainTable};
