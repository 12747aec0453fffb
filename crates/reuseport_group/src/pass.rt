//! A table of groups, and what a thread holds of it.

ghost use Rattle.std.specs.Prelude.{◌≡◌, ◌+◌, ◌*◌, []};
ghost use Rattle.reuseport_group.specs.Words.{most};

use crate::rule::GroupRule;
use crate::view::GroupView;
use atomic_table::{Seat, Table};
use std::alloc::Global;

/// The most members that a list of a group may have.
pub const MOST: usize = 64;

/// The lists of so many groups, in words that change in single atomic steps, so that a group is read
/// without a lock while its list is replaced.
#[derive(Drop)]
pub struct Groups {
    pub(crate) table: Table<(), GroupView, u32, GroupRule, Global>,
    pub(crate) count: u32,
    ghost keyed: { table.shared.key ≡ count },
    ghost sized: { table.shared.table_id.words ≡ (1 + most) * count + 1 },
}

/// A thread's right to publish and to choose in all groups, and in proofs what it knows of them. It has
/// no bytes.
///
/// Passes that are dropped take their parts with them, so that no others have them all again.
#[derive(Drop)]
pub struct GroupPasses {
    pub(crate) seat: Seat<(), GroupView>,
    ghost free: { seat.me.1 ≡ [] },
}
