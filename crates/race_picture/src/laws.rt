//! What follows from the definition of pictures.

ghost use Rattle.race_picture.specs.Laws as law;

/// A picture is well-formed XML, whatever labels and other words the text has.
pub fn well_formed()
    ensures { law.IsWellFormed }
{}

/// Each life has one bar, and each packet and each list one mark; nothing else has any.
pub fn one_shape_each()
    ensures bars { law.HasOneBar }
    ensures marks { law.HasOneMark }
{}
