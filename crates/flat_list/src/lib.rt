//! The plain engine of the socket tables: one list of sockets, searched by filters.
//!
//! The kernel keeps a TCP socket in a bucket of the owners of its port in its network namespace, and,
//! once it listens or is connected, in a chain of a hash table. Here all sockets stand in one list, and
//! each question of `bind`, `listen` and a packet's lookup is asked of every one of them. That is slow,
//! and easy to believe: faster tables are proved to answer as this list does.
//!
//! Where a script leaves the choice of a port to the system, the ports of the header's range are tried
//! in an order that begins at the header's offset, or at the next word of the section's generator;
//! reserved ports are passed by.
//!
//! Listeners that share an end by SO_REUSEPORT stand in a [`Group`], of which a packet's hash chooses
//! one. A closed connection leaves a TIME_WAIT for a minute of its section's own time.
//!
//! [`Flat::apply`] carries out one command of a section of a script, [`Flat::look`] finds a packet's socket, and
//! [`Flat::list`] lists all that lookups can find; all answer exactly what `specs/` says. It stands on the rules of
//! `sock_card`, the hashes of `jhash_words`, the [`Shape`] of `chain_book`, the order of `socket_list`,
//! and the generator of `rand_pcg`.
//!
//! ```text
//! let mut flat = Flat::new(alloc, &header);
//! let reply = flat.apply(1, &Command::Listen { label })?;
//! ```
#![tactic(auto)]

pub mod command;
pub mod flat;
pub mod group;
pub mod header;
pub mod kept;
pub mod laws;
pub mod owned;
pub mod ports;
pub mod script;
pub mod search;
pub mod section;
pub mod socket;

pub use chain_book::Shape;
pub use command::{Command, End, Label, LabelKey, Query, Reply};
pub use flat::Flat;
pub use group::Group;
pub use header::{First, Header, NONE_RESERVED, RESERVED_ROOM, Range, Reserved};
pub use kept::KeptCommand;
pub use owned::Options;
pub use script::{CapturePlace, Script};
pub use section::Section;
pub use socket::Socket;
