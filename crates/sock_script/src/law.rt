//! What the grammar implies of every text, and the output's definition of every script.

ghost use Rattle.sock_script.specs.Grammar as law;
ghost use Rattle.sock_script.specs.Fits.{ScriptsFit};
ghost use Rattle.sock_script.specs.MadeRows.{IsSixteenSteps};
ghost use Rattle.sock_script.specs.Make.{TextsAreScripts};
ghost use Rattle.sock_script.specs.Output.{ListsSound, TextsSound};
ghost use Rattle.sock_script.specs.ShownAlike.{CountsAlike, TextsAlike};

/// A text is one script at most.
pub fn one_script()
    ensures { law.IsOneScript }
{}

/// Lines have one first line outside the grammar at most, and where they have one they are no script,
/// however they go on.
pub fn one_bad_line()
    ensures no_script { law.ExcludesScripts }
    ensures one { law.HasOneFirst }
{}

/// Tables can be made of the header of each script that a text is.
pub fn headers_fit()
    ensures { ScriptsFit }
{}

/// Each list between a script's commands is sound: no two bound sockets of different origin conflict,
/// but for those whose ports `connect` chose, no two of one namespace that are full, in TIME_WAIT or requests have one
/// four-tuple, and no two sockets have one name.
pub fn sound_lists()
    ensures scripts { ListsSound }
    ensures texts { TextsSound }
{}

/// Each generated text is a script; the text of a worked example is computed.
pub fn made_scripts()
    ensures scripts { TextsAreScripts }
    ensures row { IsSixteenSteps }
{}

/// What is written of replies, and counted of them, is what is written and counted of what is shown of them.
pub fn shown_alike()
    ensures texts { TextsAlike }
    ensures counts { CountsAlike }
{}
