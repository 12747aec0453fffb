//! A pass: what it steps with, and the changes that it closed.

ghost use Rattle.table_rule.specs.Changes.{Tells};

use super::changes::Changes;
use super::table::Steps;

/// A thread's part in the chain table, with the changes that it made and those of the passes that it joined, or their
/// count.
///
/// Who steps with it appends each change that the steps close, into room that [`reserve`](Pass::reserve) made: so no
/// step takes memory, and a bucket is never left in the middle of a change for want of it.
#[derive(Drop)]
pub struct Pass {
    /// What it steps with, on single words.
    pub steps: Steps,
    /// All that it closed, oldest first, and behind that what joined passes closed.
    pub changes: Changes,
    ghost told: { Tells changes steps.seat.me.0.book.closed },
}
