//! A section of a script at tables that threads share: its labels with their sockets, and its commands one by one.
//!
//! A [`Machine`] is what a section has for itself: [`Labels`] with the sockets that they name, [`Waits`] for the
//! sockets in TIME_WAIT that it left, [`Offsets`] for where its searches begin, and its moment. [`Machine::try_step`]
//! carries out one command, any but a lookup, by the operations of sock_ops on the worker that it is handed, and
//! gives the reply. It wants the turn of one bucket and the lock of one chain at a time, for each of which it tries as
//! long as its caller's patience lasts; [`Machine::step`] waits for good.
//!
//! Its contract says which entries and changes it made, whoever else is at the tables: those by which the command's
//! plan goes to that reply and to what the section keeps then, and no others. For want of memory or of patience the
//! plan is left off, and the contract says by which entries and changes it went so far, and what the section keeps: it
//! takes the next command then, too.
//!
//! ```text
//! let mut machine = Machine::new(alloc, seed, &header, number);
//! let reply = machine.step(&rt, &tables, &mut worker, &command)?;
//! ```
#![tactic(auto)]

mod ending;
mod handshaking;
pub mod labels;
pub mod laws;
pub mod machine;
mod meeting;
pub mod offsets;
pub mod reaping;
pub mod waits;

pub use labels::Labels;
pub use machine::Machine;
pub use offsets::Offsets;
pub use reaping::Gone;
pub use waits::Waits;
