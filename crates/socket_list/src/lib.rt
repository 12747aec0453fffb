//! What a dump of all sockets reports, and in which order.
//!
//! [`in_order`] sorts cards by name and kind, as `specs/Order` says; a [`Listing`] is what a dump reports. It stands on
//! the cards of `sock_card`.
//!
//! ```text
//! let cards = in_order(cards)?;
//! ```
#![tactic(auto)]

pub mod laws;
mod listing;
mod order;

pub use listing::{Listing, Span};
pub use order::in_order;
