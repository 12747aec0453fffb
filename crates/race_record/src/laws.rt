//! What follows from the definitions of a record.

ghost use Rattle.race_record.specs.Laws as law;
ghost use Rattle.race_record.specs.Headline.{LawfulNumbers, LawfulSays};
ghost use Rattle.race_record.specs.Gathered.{GatheredJournals};

/// What an operation did leads to one result, and is part of what its command did.
pub fn deeds_lead()
    ensures turn { law.GoesInTurn }
    ensures apart { law.GoesApart }
    ensures once { law.GoesOnce }
{}

/// Replies show how often a slot was sought in vain.
pub fn vain()
    ensures { law.RepliesTellVain }
{}

/// Deeds lead a plan as the answers that they report lead it, and have the same entries.
pub fn deeds_tell()
    ensures leads { law.GoesLeads }
    ensures entries { law.TellsEntries }
{}

/// What a lawful record says of its race, and its numbers.
pub fn headline()
    ensures says { LawfulSays }
    ensures numbers { LawfulNumbers }
{}

/// The journals of a table whose turns the workers took are the record's.
pub fn gathered()
    ensures { GatheredJournals }
{}
