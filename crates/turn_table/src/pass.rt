//! A table of turns, and what a thread holds of it.

ghost use Rattle.std.specs.Prelude.{◌≡◌, ◌+◌};

use crate::journaled::Journaled;
use crate::rule::TurnRule;
use crate::view::TurnView;
use atomic_table::{Seat, Table};
use std::alloc::Global;

/// Values that threads take in turns: at any moment a value is at home, or out with one pass.
#[derive(Drop)]
pub struct Turns<V: Journaled> {
    pub(crate) table: Table<Option<V>, TurnView<V::Entry, V::Home>, V::Home, TurnRule<V>, Global>,
    pub(crate) count: usize,
    ghost sized: { (table.shared.table_id.words ≡ 1 + table.shared.table_id.slots)
        × (count ≡ table.shared.table_id.slots) },
}

/// A thread's part in a table of turns.
///
/// It has one turn at a time at most. A pass that is dropped takes its parts with it, so that no other
/// has them all again.
#[derive(Drop)]
pub struct TurnPass<V: Journaled> {
    pub(crate) seat: Seat<Option<V>, TurnView<V::Entry, V::Home>>,
    pub(crate) caller: u32,
    pub(crate) splits: u32,
    pub(crate) draws: u64,
}

/// A value that is out. It can't be dropped: [`Turns::give`] takes it back.
pub struct Turn<V> {
    pub value: V,
    pub place: usize,
}
