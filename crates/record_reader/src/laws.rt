//! What follows from the definitions of records.

ghost use Rattle.record_reader.specs.Laws as law;

/// A text has one answer: it is one record with one verdict, or one line is the first outside.
///
/// At most one of each, and never both; that it has none can't be. A record's verdict is there to be named, where
/// memory has room for what the record says.
pub fn one_answer()
    ensures apart { law.ExcludesRecords }
    ensures first { law.HasOneFirst }
    ensures one { law.HasOneRecord }
    ensures verdict { law.HasOneVerdict }
    ensures record { law.HasSomeRecord }
    ensures some { law.HasSomeVerdict }
{}

/// The numbers of names show which names are printed alike.
pub fn numbers_tell_names()
    ensures { law.NumbersTellNames }
{}

/// What a yes says of the race that a text describes.
pub fn yes_is_sound()
    ensures { law.YesIsSound }
{}
