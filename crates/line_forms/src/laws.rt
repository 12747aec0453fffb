//! What follows from the definition of misfits.

ghost use Rattle.line_forms.specs.Laws.{FitsHaveNone};

/// Words that are as they are wanted have no misfit.
pub fn misfits_exclude_fits()
    ensures { FitsHaveNone }
{}
