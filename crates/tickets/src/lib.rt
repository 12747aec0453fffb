//! Numbers that threads draw, each once: the tickets for what is to be done once, by whoever comes first.
//!
//! [`Tickets`] has the numbers below a limit, in one word that counts all draws. A thread draws by a
//! [`TicketPass`] of its own, until it meets None. Each number is drawn by one pass at most, and what a
//! pass draws ascends.
//!
//! It stands on the kit's `atomic_table`, on `list_words`, and on `turn_table` for its word
//! `numbers_below`: between any two steps of any passes the rule of `specs/Numbered` holds, which ties
//! the count to what all passes drew. So once all passes were joined again the last one learns, by
//! [`Tickets::count`], that each number below the count was drawn, once.
//!
//! ```text
//! let (tickets, mut pass) = Tickets::new(alloc, n)?;
//! let mut other = pass.split(&tickets);                 // for another thread
//! while let Some(i) = tickets.next(&mut other) { .. }   // i is drawn here, and nowhere else
//! while let Some(i) = tickets.next(&mut pass) { .. }
//! pass.join(&tickets, other);
//! let draws = tickets.count(&mut pass);                 // each number below n was drawn
//! ```
#![tactic(auto)]

mod draws;
mod pass;
mod rule;
#[cfg(test)]
mod tests;
mod view;

pub use pass::{TicketPass, Tickets};
pub use view::TicketView;
