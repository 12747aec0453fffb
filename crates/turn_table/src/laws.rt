//! What follows from the rule alone.

ghost use Rattle.turn_table.specs.Values.{Fits};
ghost use Rattle.turn_table.specs.Turning.{FindsAll};

use crate::journaled::Journaled;

/// While a pass has a turn, the journal that it found there has each entry that any pass has given at
/// that place, whatever the passes reported to each other.
pub fn finds_all<V: Journaled>()
    ensures { (home : V.Home) → FindsAll V.notes (Fits V.notes V.is_replay V.made_for V.may_make home) home }
{}
