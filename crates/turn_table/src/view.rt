//! What a pass knows. No value of it is ever made: it exists in proofs alone.

use crate::note::{Find, Note, Placed};
use std::collections::LinkedList;

/// What a pass knows of its table. `specs/Passes` has the words by which contracts read it.
pub struct TurnView<E, H> {
    /// What the values have in common, once; the view of a joined pass has none.
    pub home: LinkedList<H>,
    /// Its parts of the right to know the whole, of 16384.
    pub parts: u64,
    /// Its number as a caller: 0 of the first pass, and k of the k-th that was split off.
    pub caller: u32,
    /// How many passes it has split off.
    pub splits: u32,
    /// How many numbers it drew itself.
    pub draws: u64,
    /// How many it drew, with those of the passes that it joined.
    pub tickets: u64,
    /// Each number that it drew or found is below it, and so are those of the passes that it joined.
    pub seen: u64,
    /// The answers of its `now`, in order, with those of the passes that it joined.
    pub loads: LinkedList<u64>,
    /// What it gave, in its order, with what the passes that it joined gave.
    pub mine: LinkedList<Placed<E>>,
    /// The journals that it found, each with its place and the count at that moment.
    pub finds: LinkedList<Find<E>>,
    /// One more than the place whose turn it has, or 0.
    pub at: u64,
    /// The journal of the place whose turn it has, as the turn began.
    pub found: LinkedList<Note<E>>,
    /// The numbers that it has drawn in this turn, in order.
    pub drawn: LinkedList<u64>,
}
