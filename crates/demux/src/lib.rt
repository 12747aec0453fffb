//! Which socket takes a packet, beside threads that hash and unhash sockets.
//!
//! [`look_packet`] is `__inet_lookup` of `include/net/inet_hashtables.h` with `inet_lookup_reuseport` of
//! `net/ipv4/inet_hashtables.c`: the connected sockets first, then the listeners, and where the listener found is of
//! a group, the member that the packet's hash chooses. It locks nothing, waits for nobody and takes no memory, and
//! lets each count go before it answers.
//!
//! Its contract says that the pass has one receipt of a whole lookup more, the answer's, which the changes of all
//! passes explain at any moment from then on; in which order the chains were asked; when the group's member is the
//! answer; and what the answer is on a pass that has the table to itself.
//!
//! ```text
//! let tables = Lookups { chains: &chains, groups: &groups, layout };
//! let look = look_packet(&tables, &mut pass.steps, &mut group_passes, &packet, 8, &mut Still);
//! ```
#![tactic(auto)]

mod group;
mod packet;

pub use packet::{Lookups, look_packet};
