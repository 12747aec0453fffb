//! The text of a race's record.
//!
//! Our own format, as `specs/Render` says it. [`Record`] is what is written of a race; [`render()`] writes it: the
//! lines of the sections as `run` writes them, but with the two loads of the clock between which a dump was made; how
//! many entries each journal has, each life of the chains, and what came of each item of the capture. The texts of
//! worked records are in [`rows`]. It stands on `race_record` and on the lines of `sock_script`.
//!
//! ```text
//! let text = render(alloc, &script, &record)?;
//! ```
#![tactic(auto)]

pub mod record;
pub mod render;
pub mod rows;
mod text;

pub use record::Record;
