//! The outside of the program: a source that is read, a sink that is written, a gate that workers
//! pass, and the texts of numbers, addresses, ends and labels.
//!
//! A `Source` and a `Sink` count their faults and, where they state their bytes, have them in their
//! contracts. So a caller proves what was read and written, and that a failure was a fault of the
//! end that it was handed. `MemSource` and `MemSink` state all, for tests; `StdSource` and `StdSink`
//! go over std's readers and writers, and state what those state: of standard input and output,
//! nothing.
//!
//! It stands on std, and on `itoa` for decimal text. The contract that callers rest on: `read_all` gives all the
//! bytes of a source, up to a limit; `write_all` writes all of a text, or a front of it where the sink failed.
//!
//! ```text
//! let bytes = read_all(alloc, &mut source, 1_000_000)?;
//! write_all(&mut sink, &bytes)?;
//! ```
#![tactic(auto)]

mod ends;
mod gate;
mod memory;
mod standard;
mod text;
mod transfer;

pub use ends::{Failed, Sink, Source};
pub use gate::{Gate, Open, Who};
pub use memory::{MemSink, MemSource};
pub use standard::{StdSink, StdSource};
pub use text::{get_addr, get_end, get_num, is_label, put_addr, put_num, texts_differ};
pub use transfer::{ReadEnd, read_all, write_all};
