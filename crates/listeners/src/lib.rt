//! Listeners in shared chains: they come, and a packet finds its own.
//!
//! [`add`] hashes a listener under its bucket's lock, whatever stands in its chain, and [`remove`], which is that of
//! `established`, takes it out. [`find`] is `__inet_lookup_listener` of `net/ipv4/inet_hashtables.c`, beside threads
//! that hash and unhash sockets: it asks the listeners at the packet's address, and where none is there those at any
//! address, by `null_reader::look`, so it waits for nobody and takes no memory, and what it found is held by a count
//! until that is put. Its contract says which chains were asked, with which least rank, in which order; what the pass
//! knows then; and on a pass that has the table to itself that the answer is the best card that stands.
//!
//! ```text
//! let place = add(&chains, &waits, &mut pass, bucket, from, &card).unwrap()?;
//! let look = find(&chains, &layout, &mut pass.steps, &packet, 1, &mut Still);
//! if let LookEnd::Found(held, card) = look.end { put(&chains, &mut pass.steps, held); }
//! ```
#![tactic(auto)]

mod coming;
mod finding;

pub use coming::add;
pub use established::remove;
pub use finding::find;
