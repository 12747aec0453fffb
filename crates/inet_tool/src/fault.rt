//! What may be wrong with an input.

/// What is wrong with an input that can't be run.
#[derive(Clone, Copy, Debug, PartialEq, Eq)]
pub enum Fault {
    /// The line of that number, from 1, is the first outside the grammar.
    Line(u64),
    /// What the script has for a capture isn't empty, and has no header of a capture file.
    Capture,
}
