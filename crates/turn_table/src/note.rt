//! The notes of a journal, and how a pass keeps them.

use std::collections::LinkedList;

/// An entry of a journal, with its number among all entries of the table, and whose it is.
#[derive(Clone, Copy, Debug, PartialEq, Eq)]
pub struct Note<E> {
    pub number: u64,
    pub caller: u32,
    pub entry: E,
}

/// An entry and the place of its value. It exists in proofs alone.
pub struct Placed<E> {
    pub place: u64,
    pub note: Note<E>,
}

/// A journal as a pass found it when it took the turn of its place. Each later entry there has a
/// number of at least `since`. It exists in proofs alone.
pub struct Find<E> {
    pub place: u64,
    pub since: u64,
    pub notes: LinkedList<Note<E>>,
}
