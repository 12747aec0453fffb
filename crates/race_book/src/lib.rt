//! The book of a race: which lives its changes make, which answers of lookups it explains, and when it is serial.
//!
//! Our own. A [`chain_book::Change`] puts a card into a chain or takes it out, between two numbers of a clock. A life
//! is a hash with the unhash that ends it. `specs/Lives` says when a life stood, and when it stood throughout a call;
//! `specs/Explained` which answers of lookups changes explain; `specs/Serial` when changes follow one another as if
//! one after the other. [`laws`] has what follows from these definitions, and [`lives`] computes the lives of a list
//! of changes. It stands on the changes and homes of `chain_book` and the ranks of `sock_card`.
//!
//! ```text
//! let lives = lives(alloc, &changes, slots)?;    // ascending by their beginnings
//! ```
#![tactic(auto)]

pub mod laws;
pub mod lives;
#[cfg(test)]
mod tests;

pub use lives::Life;
