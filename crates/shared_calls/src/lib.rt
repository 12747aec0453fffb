//! The tables that threads share, for callers that don't write scripts: sockets by numbers.
//!
//! [`SharedTables`] are made once, and hand out what threads hold: a [`Caller`] is a section of its own, with its
//! sockets, its moment and its searches, and a [`Looker`] looks packets up, locks nothing and waits for nobody. Each
//! goes to the thread that uses it; the tables go when the last of them does.
//!
//! A socket's label is its number's eight bytes, and its name has that number in its lower 56 bits, and its caller's in
//! those above. So a lookup, which sees names, gives both numbers.
//!
//! ```text
//! let mut tables = SharedTables::new(alloc, &header)?;
//! let mut caller = tables.caller(alloc)?;
//! let number = caller.next_number();
//! let outcome = caller.call(&Tries(1000), &commands::socket(number, options));
//! ```
//!
//! [`Limited`] is a caller under limits of its own.
#![tactic(auto)]

pub mod asked;
pub mod batch;
pub mod caller;
pub mod laws;
pub mod limited;
pub mod looker;
pub mod reaping;
pub mod tables;

pub use asked::Left;
pub use batch::{Asking, Sighting};
pub use caller::Caller;
pub use limited::{Limited, Limits};
pub use looker::Looker;
pub use tables::{Refused, SharedTables};
