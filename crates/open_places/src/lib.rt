//! A list of places, each empty or with a value, in an array or on pages.
//!
//! [`OpenPlaces`] is seen as the list of all places that were given, each with its value or none. A place is kept from
//! when it is given until it is let go, which is done once it is empty for good. It stands in one of two forms:
//!
//! - In an array, which is found by one step, and has each place that was ever given: for places whose number is known
//!   beforehand.
//! - On pages of 32, of which one before the last goes with the last of its places that is kept: so memory is bounded
//!   by 32 times how many were kept at once, and not by how many were ever given. The last page is at hand, and the
//!   others are sought in a B-tree, of which a call changes a node or two a level: nothing is moved as they become
//!   many.
//!
//! ```text
//! let mut places = OpenPlaces::on_pages(alloc);
//! places.give()?;
//! places.put(0, value);
//! let value = places.take(0);                           // Some(value)
//! places.let_go(0);
//! ```
#![tactic(auto)]

mod page;
mod paged;
mod places;
#[cfg(test)]
mod tests;

pub use places::OpenPlaces;
