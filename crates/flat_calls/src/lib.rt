//! The flat list by calls with numbers, for callers that don't write scripts.
//!
//! [`Tables`] are a [`flat_list::Flat`] whose sockets have numbers in place of labels: a socket's label is its number's
//! eight bytes. A worker is a section: 1 to 64, each with its sockets, its moment and its searches. A call carries out
//! one command, and what comes of it is an [`Outcome`], with a number of errno(3) for callers in C.
//!
//! ```text
//! let mut tables = Tables::new(alloc, &header);
//! let number = tables.next_number();
//! let outcome = tables.call(1, &commands::socket(number, options));
//! ```
#![tactic(auto)]

pub mod commands;
pub mod item;
pub mod outcome;
pub mod sight;
pub mod tables;
#[cfg(test)]
mod tests;

pub use item::Item;
pub use outcome::Outcome;
pub use sight::Sight;
pub use tables::Tables;
