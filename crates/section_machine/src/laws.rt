//! Laws of sections, for the crates above.

ghost use Rattle.section_machine.specs.Begins.{SectionBegins, SectionComesNext};

/// A new section is a worker's that is ready and asked no bucket about a name of this section, or of a later one.
pub fn section_comes_next()
    ensures { SectionComesNext }
{}

/// A new section is a worker's that is ready and asked no bucket yet.
pub fn section_begins()
    ensures { SectionBegins }
{}
