//! What is answered of the texts of lawful races.

ghost use Rattle.race_laws.specs.Laws as law;

/// The text of a lawful race audits as yes, with its lives, its packets and its clock, unless there is no memory.
pub fn lawful_races()
    ensures yes { law.LawfulIsYes }
    ensures record { law.LawfulIsRecord }
    ensures passes { law.LawfulPasses }
    ensures written { law.WrittenPasses }
{}
