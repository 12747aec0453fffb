//! The chain table, and what a pass steps with.

ghost use Rattle.std.specs.Prelude.{◌≡◌, ◌+◌, ◌*◌, ◌^◌, ◌<◌};
ghost use Rattle.table_rule.specs.Words.{bucket_count};
ghost use Rattle.table_rule.specs.Rule.{HasNumbers};

use super::rule::Rule;
use super::view::{Layout, View};
use atomic_table::{Seat, Table};
use std::alloc::Global;

/// The words of the chain table: its clock, a head and a lock for each bucket, and six words for each slot.
///
/// All threads step on them at once, each through a [`Steps`] of its own.
#[derive(Drop)]
pub struct Chains {
    pub(crate) table: Table<(), View, Layout, Rule, Global>,
    pub(crate) layout: Layout,
    /// Where the words of the slots begin.
    pub(crate) first_slot: usize,
    ghost keyed: { layout ≡ table.shared.key },
    ghost placed: { first_slot ≡ 1 + 2 * bucket_count layout },
    ghost low: { first_slot < 2 ^ 35 },
    ghost small: { layout.shape.slots + 1 < 2 ^ 32 },
    ghost sized: { table.shared.table_id.words ≡ 1 + 2 * bucket_count layout + 6 * layout.shape.slots },
}

/// A thread's part in the chain table. Of what the thread knows of the table it has two numbers; all else stands in
/// proofs alone.
#[derive(Drop)]
pub struct Steps {
    pub(crate) seat: Seat<(), View>,
    /// The greatest value of the clock that it knows.
    pub(crate) seen: u64,
    /// How many numbers of the clock it drew, with those of the passes that it joined.
    pub(crate) drawn: u64,
    ghost numbers: { HasNumbers seat.me.0 seen drawn },
}
