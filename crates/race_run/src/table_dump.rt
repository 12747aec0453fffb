//! All sockets of the tables, as a worker lists them.
//!
//! [`dump`] walks all chains one after the other, as [`chain_dump`](crate::chain_dump) does, and lists the sockets that stood there,
//! ascending by name, between two loads of the clock. It changes nothing, takes no turn and draws no number: the
//! worker may go on behind it as it could before, whoever else is at the tables.
//!
//! ```text
//! let listing = dump(&rt, alloc, &tables, &mut worker)?;
//! ```

mod dumping;

pub use dumping::dump;
