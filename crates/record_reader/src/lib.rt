//! The text of a race's record, read back and judged.
//!
//! Our own. `specs/Record` says which texts are records, line by line as `race_text` writes them, and `specs/Told`
//! which race the lines describe. [`read::read`] reads a text so, or names the first line that is outside;
//! [`audit::audit`] hands the race to the judge of `book_audit`, and says which line fails which test. It stands on
//! that judge and on the texts of `inet_io`.
//!
//! ```text
//! match audit(alloc, &text)? {
//!     Verdict::Yes { lives, packets, clock } => ..,
//!     Verdict::No { line, why } => ..,     // the line, from 1, is the first that breaks the rule `why`
//! }
//! ```
#![tactic(auto)]

pub mod audit;
pub mod form;
pub mod laws;
pub mod line;
pub mod name;
pub mod order;
pub mod read;
pub mod tell;
pub mod word;

pub use audit::{AuditEnd, Verdict};
pub use read::{ReadEnd, Record};
