//! What passes know. No value of it is ever made: it exists in proofs alone.

use std::collections::LinkedList;

/// One store: word `at` of the list `members` was stored as word `at` of this group.
pub struct Stored {
    pub group: u64,
    pub at: u64,
    pub members: LinkedList<u64>,
}

/// What passes know of their table. `specs/Passes` has the words by which contracts read it.
pub struct GroupView {
    pub parts: u64,
    /// They were never split.
    pub sole: bool,
    /// All that was stored in the table up to a moment, newest first, for each moment that they know.
    pub moments: LinkedList<LinkedList<Stored>>,
    /// What they stored, newest first, and behind it what those stored that they joined.
    pub mine: LinkedList<Stored>,
}
