//! What deeds at tables come to where nobody else is at them.

ghost use Rattle.race_laws.specs.Order.{TurnsAreFlat};
ghost use Rattle.race_laws.specs.Plays.{PlayedRefines, PlayedRuns, RunsGo};
ghost use Rattle.race_laws.specs.Sole.{SoleIsFlat};

/// A plan that goes on by deeds at such tables is carried out by them, and so a step refines the flat list.
pub fn played_plans()
    ensures runs { PlayedRuns }
    ensures refines { PlayedRefines }
    ensures told { RunsGo }
{}

/// A record whose steps were made at such tables, in any order of sections, has the flat list's replies to the same
/// commands in that order.
pub fn any_order()
    ensures { TurnsAreFlat }
{}

/// Where they were made one section after the other, these are the replies that a run of the script has.
pub fn sole_worker()
    ensures { SoleIsFlat }
{}
