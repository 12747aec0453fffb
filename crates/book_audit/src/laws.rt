//! What follows from the tests of a printed race.

ghost use Rattle.book_audit.specs.Laws as law;

/// The changes of a sound race's lives are serial, and no number of the clock stands in them twice.
pub fn sound_is_serial()
    ensures serial { law.SoundIsSerial }
    ensures once { law.SoundStampsDiffer }
{}

/// Of each race there is exactly one finding.
pub fn one_finding()
    ensures most { law.OneFinding }
    ensures least { law.SomeFinding }
{}
