//! Connected sockets, requests and TIME_WAITs in shared chains: they come and leave, each under its bucket's lock, and
//! a packet finds its own without one.
//!
//! [`insert`] hashes a connected socket, or a request for one, where nobody in its chain keeps its four-tuple from it.
//! [`hand_over`] hashes the socket of a request and takes the request out, [`remove`] takes a socket out, [`time_wait`]
//! leaves a TIME_WAIT in its place, and [`remove_tw`] ends one. Each takes one lock, walks one chain, and makes two
//! changes at most, which lookups that lock nothing may meet at any step. They try for a bucket's lock as long as their
//! caller's [`Patience`](patience::Patience) lasts, [`remove`] has it from its caller, and none takes memory.
//!
//! [`find`] is `__inet_lookup_established` of `net/ipv4/inet_hashtables.c`, beside threads that hash and unhash
//! sockets: it walks its chain by `null_reader::look`, so it waits for nobody and takes no memory, and what it found is
//! held by a count until that is put. Its contract says which chain was asked, with which least rank, what the pass
//! knows then, and on a pass that has the table to itself that the answer is the best card that stands.
//!
//! ```text
//! let waits = Waits::by(&rt);    // or Tries(1_000), and None
//! let inserted = insert(&chains, &waits, &mut pass, bucket, from, &newcomer).unwrap()?;
//! let waiting = time_wait(&chains, &waits, &mut pass, inserted.place, from, &card).unwrap()?;
//! let slot = remove_tw(&chains, &waits, &mut pass, bucket, name).unwrap();
//! ```
#![tactic(auto)]

mod coming;
mod finding;
mod handover;
pub mod laws;
mod leaving;
mod survey;

pub use coming::{InsertEnd, Inserted, insert, is_told};
pub use finding::find;
pub use handover::hand_over;
pub use leaving::{remove, remove_tw, time_wait};
pub use survey::Newcomer;
