//! What the grammar implies of every text.

ghost use Rattle.std.specs.Prelude.{◌≡◌, [], ◌∷◌};
ghost use Rattle.capture_reader.specs.Grammar as law;
ghost use Rattle.capture_reader.specs.Flaws.{IsOneFlaw};
ghost use Rattle.capture_reader.specs.Rows.{RowsHold, flawed, found, judged};

use crate::flaw::HeadFlaw;
use crate::packet::Item;

/// A text is one capture at most, for one device.
pub fn one_capture()
    ensures { law.IsOneCapture }
{}

/// A text is a capture exactly where it has no bytes or begins with a header.
pub fn some_capture()
    ensures each { law.TakesEach }
    ensures no_other { law.TakesNoOther }
{}

/// The definition of items gives the worked examples.
pub fn item_rows()
    ensures { judged ≡ found ∷ found ∷ found ∷ Item.Skip ∷ Item.Skip ∷ Item.Short ∷ [] }
{}

/// The definition of captures gives the worked examples, in either format, whole and cut.
pub fn capture_rows()
    ensures { RowsHold }
{}

/// One flaw at most is what is wrong with a text's first bytes.
pub fn one_flaw()
    ensures { IsOneFlaw }
{}

/// The definition of flaws gives the worked examples, one of each.
pub fn flaw_rows()
    ensures { flawed ≡ HeadFlaw.Short ∷ HeadFlaw.BlankLine ∷ HeadFlaw.Compressed ∷ HeadFlaw.Variant ∷ HeadFlaw.Magic
        ∷ HeadFlaw.CutHeader ∷ HeadFlaw.Version 2 3 ∷ HeadFlaw.LinkType 113 ∷ HeadFlaw.CutSection ∷ HeadFlaw.Mark
        ∷ HeadFlaw.SectionVersion 2 ∷ HeadFlaw.SectionLength 32 ∷ [] }
{}
