//! The run of a script by one worker.
//!
//! [`run`] gives what lines show of the flat list's replies to a script's commands, and to the packets of its
//! capture, and lists what it lists. It runs over the tables that threads can share, by one worker that is never
//! split off another; `headers_fit` of `sock_script` says that it can be asked of each script that a text is.
//! It stands on `section_machine`, whose machines run the sections, on `demux`, which looks packets up, and on
//! [`dump`](crate::dump).
//!
//! ```text
//! let replies = run(&rt, alloc, LabelSeed::random(&rt), &script, &capture)?;
//! ```

mod listing;
mod look;
pub mod running;
mod start;

pub use running::run;
