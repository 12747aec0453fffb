//! The texts of worked records.

ghost use Rattle.std.specs.Prelude.{◌≡◌};
ghost use Rattle.race_record.specs.Refused.{refused_race};
ghost use Rattle.race_record.specs.Worked.{dump_race, first_race, handshake_race, second_race};
ghost use Rattle.race_text.specs.Render.{LawfulText, render};
ghost use Rattle.race_text.specs.Texts.{dump_text, first_text, handshake_text, refused_text, second_text};

/// The worked records of `race_record` have these texts.
pub fn worked_texts()
    ensures one { render first_race ≡ first_text }
    ensures dump { render dump_race ≡ dump_text }
    ensures two { render second_race ≡ second_text }
    ensures handshake { render handshake_race ≡ handshake_text }
    ensures refused { render refused_race ≡ refused_text }
{}

/// What is written of a script's commands and of a lawful race is the race's text.
pub fn lawful_texts()
    ensures { LawfulText }
{}
