//! The bind buckets of TCP sockets: who owns which port.
//!
//! Linux hashes each local port, with its network namespace, to a bucket (`struct inet_bind_bucket` in
//! `net/ipv4/inet_hashtables.c`), which keeps the sockets that own the port. `bind` and `listen` ask
//! there whether another owner stands in the way, searches for a port whether it may be taken, and
//! listeners with `SO_REUSEPORT` find their group there (`net/core/sock_reuseport.c`). A [`Bucket`] is
//! one such bucket: its owners, oldest first; the groups at its [`GROUP_PLACES`], of sixty-four members
//! each; and a journal with one note for each call, refused ones too. Threads share buckets by
//! [`turning`].
//!
//! Each call's contract says that the bucket afterwards, its answer and its note are what
//! `owner_step` of `specs/` makes of the bucket before. What every bucket keeps is `IsSound`: its
//! journal is lawful, replaying it gives the owners and groups that stand, any two owners agree, and
//! each owner's key, its port and its namespace's number added up, is one of the bucket's. Only
//! [`Bucket::reserve`] takes memory; the other calls use the room that it made. It stands on the rules
//! of `sock_card`.
//!
//! An owner is found by its name, its port, or its port and address without a look at the others, and
//! counts of the owners of a port, and of a port and address, answer most questions without any look.
//! The notes of a journal exist in proofs alone, and take no room; a program has their count.
//!
//! ```text
//! let mut bucket = Bucket::new(alloc, number, buckets);
//! bucket.reserve()?;
//! bucket.bind(owner)?;
//! let group = bucket.may_listen(owner.name)?;
//! bucket.listen(owner.name, slot);
//! ```
#![tactic(auto)]

pub mod bucket;
mod change;
mod counts;
mod group;
mod held;
mod index;
mod journal;
pub mod laws;
mod links;
mod maybe_place;
mod owner_list;
mod owners;
mod places;
pub mod request;
mod room;
mod slot;
mod tally;
pub mod turning;

pub use bucket::Bucket;
pub use held::GROUP_PLACES;
pub use request::{Answer, Entry, InUse, ListenEnd, Mark, NotFree, Request, Sharing, Strange};
pub use turn_table::Note;
