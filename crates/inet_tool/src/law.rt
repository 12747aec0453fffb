//! What the definition of words implies.
ghost use Rattle.std.specs.Prelude.{◌≡◌, true, [], ◌∷◌, codes};
ghost use Rattle.clap.specs.declared.error.kind.ErrorKind.TheVariants as kinds;
ghost use Rattle.clap.specs.Words.{is_simple_and_free};
ghost use Rattle.inet_tool.specs.WordRows.{faults};
ghost use Rattle.inet_tool.specs.Words as law;

/// The accepted forms: `run`, `make` with a seed and a count in range, `race` with lookers and passes in range, and
/// `audit`, ask for just these, and no words ask for numbers beyond them. The program's command is of the kind that
/// clap's own statement of faults speaks of.
pub fn forms_ask()
    ensures simple { is_simple_and_free law.inet_app ≡ true }
    ensures run { law.RunAsks }
    ensures make { law.MakeAsks }
    ensures race { law.RaceAsks }
    ensures audit { law.AuditAsks }
    ensures range { law.MakesInRange }
    ensures race_range { law.RacesInRange }
{}

/// Words that clap refuses, each with its faults.
pub fn refused_words()
    ensures none { faults [] ≡ kinds.MissingSubcommand ∷ [] }
    ensures unknown { faults (codes "walk" ∷ []) ≡ kinds.UnknownArgument ∷ kinds.InvalidSubcommand ∷ [] }
    ensures help { faults (codes "help" ∷ []) ≡ kinds.UnknownArgument ∷ kinds.InvalidSubcommand ∷ [] }
    ensures long_help { faults (codes "--help" ∷ []) ≡ kinds.UnknownArgument ∷ [] }
    ensures more { faults (codes "run" ∷ codes "x" ∷ []) ≡ kinds.UnknownArgument ∷ [] }
    ensures audit { faults (codes "audit" ∷ codes "x" ∷ []) ≡ kinds.UnknownArgument ∷ [] }
    ensures one { faults (codes "make" ∷ codes "1" ∷ []) ≡ kinds.MissingRequiredArgument ∷ [] }
    ensures seed { faults (codes "make" ∷ codes "4294967296" ∷ codes "1" ∷ []) ≡ kinds.ValueValidation ∷ [] }
    ensures count { faults (codes "make" ∷ codes "1" ∷ codes "100001" ∷ []) ≡ kinds.ValueValidation ∷ [] }
    ensures race { faults (codes "race" ∷ codes "--lookers" ∷ codes "1" ∷ []) ≡ kinds.MissingRequiredArgument ∷ [] }
    ensures no_lookers { faults (codes "race" ∷ codes "--lookers" ∷ codes "0" ∷ codes "--passes" ∷ codes "1" ∷ [])
        ≡ kinds.ValueValidation ∷ [] }
    ensures lookers { faults (codes "race" ∷ codes "--lookers" ∷ codes "17" ∷ codes "--passes" ∷ codes "1" ∷ [])
        ≡ kinds.ValueValidation ∷ [] }
    ensures passes { faults (codes "race" ∷ codes "--lookers" ∷ codes "1" ∷ codes "--passes" ∷ codes "65" ∷ [])
        ≡ kinds.ValueValidation ∷ [] }
{}
