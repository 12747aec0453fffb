//! What follows from what workers did.

ghost use Rattle.race_run.specs.Laws as law;
ghost use Rattle.race_run.specs.Scripts.{ScriptsAreForRace};

/// What deeds leave, one after the other, and a section's commands.
pub fn sections()
    ensures made { law.AllMade }
    ensures begins { law.Begins }
    ensures more { law.OneMore }
{}

/// The first worker, as others are joined to it.
pub fn joins()
    ensures none { law.JoinsNone }
    ensures more { law.JoinsMore }
{}

/// Once all workers are joined, each section has reaped to the end.
pub fn reaps()
    ensures { law.ReapsToTheEnd }
{}

/// All workers joined, the clock loaded and the bind buckets taken: the record is lawful, but for what is said of
/// lookups.
pub fn closes()
    ensures { law.Closes }
{}

/// With what the lookers reported of a capture, the record is lawful.
pub fn looks()
    ensures { law.LooksToo }
{}

/// All changes explain each search of a looker.
pub fn searches()
    ensures { law.SearchesMeetChanges }
{}

/// A looker, one item after the other.
pub fn lookers()
    ensures none { law.LooksNone }
    ensures more { law.LooksMore }
    ensures past { law.LooksPast }
    ensures buckets { law.NamesBuckets }
    ensures passes { law.GivesUpAfter }
{}

/// There can be a race of each small script that a text is by the grammar of a race.
pub fn for_race()
    ensures { ScriptsAreForRace }
{}
