//! The choice among listeners that share a port with `SO_REUSEPORT`.
//!
//! Linux takes one member of the group by the packet's hash (`reuseport_select_sock` of
//! `net/core/sock_reuseport.c`), so that all packets of a connection find one socket. A member is one
//! number: the slot of its card and 1 more in the upper half, and its name in the lower. None is chosen
//! of no members alone.
//!
//! [`pick`] is that choice over a list that nobody changes. [`Groups`] has the lists of all groups in
//! words that change in single atomic steps, for threads that look packets up while others publish new
//! lists, as Linux reads `struct sock_reuseport` without a lock: [`Groups::publish`] stores a list,
//! [`Groups::choose`] loads a count and one member. A thread does either by [`GroupPasses`] of its own.
//!
//! It stands on `jhash_words`, whose `scale` gives the place, on `list_words`, and on the kit's
//! `atomic_table`: between any two steps of any passes the rule of `specs/Grouped` holds, which ties
//! the words to all that was stored. So a choice is of members that some list had there, and with one
//! thread it is `pick` of the list that was published last.
//!
//! ```text
//! let (groups, mut passes) = Groups::new(alloc, count)?;
//! let mut readers = passes.split(&groups);              // for another thread
//! groups.publish(&mut passes, group, &members);
//! let choice = groups.choose(&mut readers, group, packet_hash(&packet, seed));
//! let slot = choice.map(|c| slot_of(c.member));
//! passes.join(&groups, readers);
//! ```
#![tactic(auto)]

pub mod choice;
mod groups;
mod pass;
mod rule;
#[cfg(test)]
mod tests;
mod view;

pub use choice::{Choice, member_of, name_of, pick, slot_of};
pub use pass::{GroupPasses, Groups, MOST};
pub use view::{GroupView, Stored};
