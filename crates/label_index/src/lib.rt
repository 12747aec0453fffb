//! The labels of a section, and at which place each was given first.
//!
//! A [`LabelIndex`] is seen as the list of the labels given, in order. It keeps none of them but by its key, and finds
//! one by its hash, whatever their count. Strangers choose the labels, so each hash begins with a [`LabelSeed`],
//! which a program draws anew and keeps secret: labels that were chosen before aren't likely to share their hashes.
//!
//! ```text
//! let seed = LabelSeed::random(&rt);
//! let mut given = LabelIndex::new(alloc, seed);
//! given.give(&label)?;
//! let place = given.place_of(&label);                   // Some(0)
//! ```
#![tactic(auto)]

mod index;
mod seed;
#[cfg(test)]
mod tests;

pub use index::LabelIndex;
pub use seed::LabelSeed;
