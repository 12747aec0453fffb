//! Searches for a local port, as `bind` and `listen` to port 0 and `connect` of a socket without a
//! port make them.
//!
//! Linux tries the ports of a range from an offset on: `inet_csk_find_open_port` of
//! `net/ipv4/inet_connection_sock.c` asks the bind bucket of each whether an owner stands in the way,
//! and `__inet_hash_connect` of `net/ipv4/inet_hashtables.c` also whether the connection's four-tuple
//! is still to be had there. [`Ports`] are the ports in their order. [`turning::find_bind`] and
//! [`turning::find_connect`] go through them over buckets that threads share, each port in a turn of
//! its own. A port's bucket is the one at the place that the port and the number of the owner's
//! namespace, added up, leave when divided by the number of buckets.
//! It stands on `bind_buckets`, and on `flat_list` for the order.
//!
//! The contracts say that the port found was taken in its turn and each before it refused in its own,
//! that NoPort comes only where each of all the ports was refused so, and which entries the search
//! left: one for each port that was tried, in the order of the search. Of a pass that was never split
//! they say what the search is over buckets that nobody shares.
//!
//! ```text
//! let ports = Ports::new(range, offset, First::Odd);
//! let port = turning::find_bind(&Waits::by(rt), &turns, &mut pass, ports, owner)?;    // or Tries(1_000), and Busy
//! ```
#![tactic(auto)]

pub mod ends;
pub mod laws;
pub mod ports;
pub mod turning;

pub use ends::{Attempt, SearchEnd};
pub use ports::Ports;
