//! The operations on TCP sockets over tables that threads share: `bind`, `listen`, `connect`, `accept`, `syn`, `ack`,
//! `close`, `reap`.
//!
//! [`Tables`] are the bind buckets under turns and the chain table, whose calls are in [`chains`]; a [`Worker`] is a
//! thread's part in both. A socket is a value of its own type for each state, [`Sock`], which an operation takes and
//! hands back: a refused one as it came. An operation takes the turn of its key's bind bucket, makes room, and then
//! takes a chain's lock: never two turns and never two locks. So want of memory comes before anything has changed. What
//! an operation asks of buckets and chains, in which order, and what it comes to is its plan in table_model; each
//! contract says which deeds it did by that plan, whoever else was at the tables. What follows of that for any plan is
//! a law, in [`laws`]: that on a worker which was never split the plan, carried out on the tables that its own entries
//! and changes make, comes to the same, say.
//!
//! ```text
//! let (tables, mut worker) = Tables::new(alloc, shape, seed, Sharing::Alone, Changes::Counted)?;
//! let socket = Sock::Unbound(Unbound::new(newcomer, options));
//! let (socket, port) = bind(&Waits::by(&rt), &tables, &mut worker, socket, end, ports)?;
//! ```
#![tactic(auto)]

pub mod accepting;
mod asking;
pub mod binding;
pub mod chains;
pub mod connecting;
mod group_lists;
pub mod handshaking;
mod hashing;
pub mod laws;
pub mod leaving;
pub mod listening;
mod order;
pub mod reaping;
pub mod requesting;
mod room;
mod searching;
pub mod sock;
pub mod tables;

pub use accepting::accept;
pub use binding::bind;
pub use chains::{ChainPass, ChainTable};
pub use connecting::connect;
pub use handshaking::ack;
pub use leaving::{Closed, Waiting, close, drop_sock};
pub use listening::listen;
pub use reaping::reap_one;
pub use requesting::syn;
pub use sock::{Bound, Connected, Listening, Newcomer, Request, Sock, Unbound};
pub use table_model::{Cause, OpEnd};
pub use tables::{Changes, Tables, Worker};
