//! The records of the kernel's socket tables, and the rules that speak of one or two of them.
//!
//! An [`Owner`] is a socket as the bind buckets see it: [`bind_conflict`] says which other owner of
//! its port keeps it from being bound or from listening. A [`Card`] is a socket as lookups see it:
//! [`rank`] says how well it matches a packet. All are plain numbers, and each function is exactly
//! its definition in `specs/`; laws say that owners agree whichever comes first, and that what isn't
//! refused agrees with what was there. It stands on nothing.
//!
//! ```text
//! if owners.iter().any(|other| bind_conflict(&new, other)) {
//!     return Reply::Eaddrinuse;
//! }
//! ```
#![tactic(auto)]

pub mod card;
pub mod owner;
pub mod words;

pub use card::{
    Card, Kind, Packet, Tuple, packet_tuple, rank, same_tuple, tuple_of, tw_expired, tw_replaceable,
};
pub use owner::{
    GROUP_ROOM, Owner, State, as_listener, as_request, as_waiting, bind_conflict, bind_key, child,
    connected, holds, is_mate, overlap, strict_conflict,
};
pub use words::{CardWords, pack, unpack, word_rank};
