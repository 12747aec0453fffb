//! Runs and races of a script over the tables that threads share, and the list of all their sockets.
//!
//! [`run`] is the run by one worker that is alone ([`script_run`]), [`race`] the race of many, on threads, and [`dump`]
//! lists the tables' sockets, for either ([`table_dump`], over [`chain_dump`]).
//!
//! What the workers of a race did beside each other is one record. [`start`] makes the tables, [`race`] runs one race
//! at them, and [`tell`] makes of what that left the record. Of `race`, [`worker`] splits workers off the first one and
//! takes them in again, and [`jobs`] hands them out, one for each section and each looker. [`section`] carries a
//! section out, [`share`] a looker's share of the capture by [`looker`], and [`work`] whichever of both a job is;
//! [`threads`] does all jobs beside each other, and [`finish`] ends the race.
//!
//! Lookers draw the capture's items by `tickets`: whoever is free takes the next. Once all passes of tickets are
//! joined, each item was drawn once (`specs/Shares`), and its answer is put at its place.
//!
//! [`laws`] says what follows from what workers did: a section's deeds, command by command, with what a `dump` listed
//! (`specs/Dumped`), and a load of the clock behind each (`specs/Made`, `specs/Sections`); the first worker, as
//! others are joined to it in whatever order (`specs/Joins`); and, once all are joined, the clock is loaded and the
//! bind buckets are taken, that the record is lawful (`specs/Races`, `specs/Lookers`).
//!
//! ```text
//! let (tables, first) = start(alloc, &script)?;
//! let seed = LabelSeed::random(&rt);
//! let ended = race(&rt, alloc, seed, tables, first, &script, &capture, lookers, passes, &Open)?;
//! let record = tell(alloc, &script, &capture, lookers, passes, ended)?;
//! ```
#![tactic(auto)]

pub mod chain_dump;
pub mod finish;
pub mod jobs;
pub mod laws;
pub mod looker;
pub mod racing;
pub mod script_run;
pub mod section;
pub mod share;
pub mod start;
pub mod table_dump;
pub mod tell;
pub mod threads;
pub mod work;
pub mod worker;

pub use racing::race;
pub use script_run::run;
pub use table_dump::dump;
