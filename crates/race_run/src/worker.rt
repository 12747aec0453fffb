//! Workers that are split off the first one of a race.

ghost use Rattle.std.specs.Prelude.{◌+◌, ◌^◌, ◌<◌};
ghost use Rattle.flat_list.specs.declared.header.Header.{Header};
ghost use Rattle.race_run.specs.Workers.{AreTables, IsFirst, IsFresh};
ghost use Rattle.turn_table.specs.Passes as words;

use sock_ops::{Tables, Worker};
use std::alloc::Global;

/// Splits a worker off the first one, as the next caller.
pub fn split(alloc: Global, tables: &Tables, first: &mut Worker) -> Worker
    requires first { IsFirst tables.now (words.splits first.old.turns) first.old }
    requires few { words.splits first.old.turns < 2 ^ 13 }
    requires tables { (header : Header) × AreTables header tables.now }
    ensures first { IsFirst tables.now (words.splits first.old.turns + 1) first.new }
    ensures fresh { (header : Header) → AreTables header tables.now
        → IsFresh header tables.now (words.splits first.old.turns + 1) result }
{
    first.split(alloc, tables)
}
