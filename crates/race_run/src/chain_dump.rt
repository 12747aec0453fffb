//! A list of all sockets of the shared chains, made while other threads hash and unhash them.
//!
//! [`dump_sockets`] loads the clock, walks one bucket's chain after the other, each under its lock, and loads the
//! clock again. [`list`] is such a walk. No lock is held while memory is made, and one at a time. It is what
//! `ss -tan` shows of a machine; the kernel's own dump may miss a socket that is there all the time,
//! or list one twice.
//!
//! Each chain is listed as it was at one instant of the clock between the two loads, and a later chain at no earlier
//! one: each item is the card of a socket that stood there then, none is listed twice, and each that did has its card
//! listed. So it is in every book of changes in which what the pass saw is true, as in that of the pass into which all
//! passes were joined.
//!
//! ```text
//! let dump = dump_sockets(&chains, &shape, &rt, rt.alloc(), &mut pass)?;
//! ```

mod dumping;
mod listing;

pub use dumping::{Dump, dump_sockets};
pub use listing::list;
