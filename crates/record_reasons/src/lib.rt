//! Why a text is no record of a race, and why an audit refutes one, written out.
//!
//! Our own. [`answer::explain`] reads a text as `record_reader` does. Of a text that is no record it writes the first bad
//! line, the reason (`specs/Outside`) and what may stand there; of a record that is refuted the line of the verdict, the
//! test, what keeps it from passing (`specs/Causes`), and the lines that have a part in that (`specs/Parts`). It stands
//! on `record_reader`, and on the tests of `book_audit`.
//!
//! ```text
//! let Explained { outcome, text } = explain(alloc, b"race lookers 1 passes 1\nclock 4\n")?;
//! // Outcome::BadLine(2), "bad record line 2: clock 4\nbehind the line race stands the line shape\nthere may .."
//! ```
#![tactic(auto)]

pub mod answer;
pub mod cause;
pub mod lines;
pub mod outside;
pub mod parts;
pub mod put;
pub mod text;
pub mod wanted;

pub use answer::{Explained, Outcome, explain};
pub use cause::{Cause, Sought};
pub use outside::{Head, Outside};
