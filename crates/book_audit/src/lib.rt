//! The judge of a race as its text describes it.
//!
//! Our own. A [`Printed`] race is plain data: the lines of its lives and packets, and what the clock came to.
//! [`judge::judge`] finds the first test that it fails, in the order of [`Why`], and the first line that fails it:
//! `specs/Lines` has the tests of lives, `specs/Looks` that of packets in the words of `race_book`, `specs/Findings`
//! the order and the place. [`laws`] says what follows: the changes of a sound race are serial, and there is one
//! finding. An order of the lives' stays (`stays`) shows that no two lives clash, and an index (`index`) what a packet
//! might have met; only where these don't show it, lives are compared one by one.
//! `record_reader` reads such a race from its text.
//!
//! ```text
//! match judge(alloc, &printed)? {
//!     Finding::Sound => ..,
//!     Finding::Wrong { why, at } => ..,    // the line `at` is the first that breaks the rule `why`
//! }
//! ```
#![tactic(auto)]

pub mod clashes;
pub mod counts;
pub mod homes;
pub mod index;
pub mod judge;
pub mod laws;
pub mod lines;
pub mod looks;
pub mod printed;
pub mod receipts;
pub mod stamps;
pub mod stays;

pub use printed::{
    Finding, Printed, PrintedAnswer, PrintedEnd, PrintedLife, PrintedLook, PrintedPacket, Span, Why,
};
