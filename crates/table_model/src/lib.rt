//! What the operations on sockets ask of the tables, and what tables mean as a flat list of sockets.
//!
//! `specs/` has the plan of each operation: which bind bucket and which chain it asks, one question
//! after the other, and what it comes to by their answers. The laws say that a command's plan, carried
//! out on tables that mean a flat list, replies as the flat list does, and leaves what it leaves.
//!
//! Nothing here runs: it stands between the definitions of `bind_buckets` and `chain_book` on one side and those of
//! `flat_list` on the other, and the layers above cite its plans and laws.
#![tactic(auto)]

pub mod laws;
pub mod operation;
pub mod rows;

pub use operation::{Cause, OpEnd};
