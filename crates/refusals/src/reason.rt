//! Why words are no line that can stand where it does.
ghost use Rattle.std.specs.Prelude.{◌≡◌, ◌∷◌, [], ℕ, List, ◌↔◌, ◌||◌, is_some, IsTrue, IfOk, IfSome, IfNone};
ghost use Rattle.std.specs.List.{list_any};
ghost use Rattle.sock_script.specs.Seen.{texts};
ghost use Rattle.sock_script.specs.declared.parse.Mode.{Mode as AnyMode};
ghost use Rattle.line_forms.specs.Kinds.{parts_of, verb_text};
ghost use Rattle.line_forms.specs.Wants.{IsMisfit, wants};
ghost use Rattle.refusals.specs.Ports.{IsForm};
ghost use Rattle.refusals.specs.Reasons as spec;
ghost use Rattle.refusals.specs.Reasons.{HasReason};

use crate::before::{before_of, given};
use crate::option::untimely;
use crate::place::{Misplace, misplace_of};
use crate::ports::{PortsFault, range_fault, reserved_fault};
use flat_list::KeptCommand;
use line_forms::{Misfit, Verb, check, verb_of};
use sock_script::form::{command_of, other_of};
use sock_script::{Line, Mode};
use std::alloc::{AllocError, Global};

/// Why a line is refused.
#[derive(Clone, Copy)]
pub enum Reason {
    /// No line begins with its first word.
    NoVerb,
    /// Nor with any word that has such bytes as its first.
    Strange,
    /// The words behind its first leave the form of that.
    Misfit { verb: Verb, misfit: Misfit },
    /// The word at that place names an option that may stand there no more.
    Untimely { verb: Verb, place: usize },
    /// The words behind `range` or `reserved` aren't such ports as they must be.
    Ports { verb: Verb, fault: PortsFault },
    /// It has a form, and can't stand where it does.
    Place { verb: Verb, misplace: Misplace },
}

/// Whether one of the two was read.
fn is_read(command: &Option<KeptCommand>, other: &Option<Line>) -> bool
    ensures { result ≡ (is_some command.now || is_some other.now) }
{
    command.is_some() || other.is_some()
}

/// Whether the words have a form.
fn has_form(alloc: Global, words: &[&[u8]]) -> Result<bool, AllocError>
    ensures { IfOk result (λ b. IsTrue b ↔ IsForm (texts words.now)) }
{
    let command = command_of(alloc, words)?;
    let other = other_of(words);
    Ok(is_read(&command, &other))
}

/// The first word, and the words behind it.
fn first_of<'a>(words: &'a [&'a [u8]]) -> Option<(&'a [u8], &'a [&'a [u8]])>
    ensures some { IfSome result (λ r. texts words.now ≡ r.0.now ∷ texts r.1.now) }
    ensures none { IfNone result (texts words.now ≡ []) }
{
    let (word, rest) = words.split_first()?;
    Some((word, rest))
}

/// Whether a byte is none that a word of a line may have.
fn is_strange(b: u8) -> bool
    ensures { result ≡ spec.is_strange b }
{
    b < 33 || 126 < b
}

/// Whether a byte of the word is such.
fn has_strange(word: &[u8]) -> bool
    ensures { result ≡ list_any spec.is_strange word.now }
{
    word.iter().any(|b| is_strange(*b))
}

/// Why no line begins with that word.
fn no_verb(word: &[u8]) -> Reason
    ensures { result ≡ spec.no_verb word.now }
{
    if has_strange(word) {
        return Reason::Strange;
    }
    Reason::NoVerb
}

/// Why words that leave the form of the verb so have none.
fn misfit_reason<'a>(verb: Verb, rest: &'a [&'a [u8]], misfit: Misfit) -> Reason
    requires misfit { IsMisfit (wants (parts_of verb) (texts rest.now)) (texts rest.now) misfit }
    requires formless { ¬ (IsForm (verb_text verb ∷ texts rest.now)) }
    ensures { (mode : AnyMode) (lines : List (List ℕ)) → HasReason mode lines (verb_text verb ∷ texts rest.now) result }
{
    match untimely(verb, rest, misfit) {
        Some(place) => Reason::Untimely { verb, place },
        None => Reason::Misfit { verb, misfit },
    }
}

/// Why words that begin with that verb, whose form has parts, and have no form, have none.
fn parts_reason<'a>(verb: Verb, rest: &'a [&'a [u8]]) -> Reason
    requires parts { ¬ (verb ≡ Verb.Reserved) }
    requires formless { ¬ (IsForm (verb_text verb ∷ texts rest.now)) }
    ensures { (mode : AnyMode) (lines : List (List ℕ)) → HasReason mode lines (verb_text verb ∷ texts rest.now) result }
{
    match check(verb.parts(), rest) {
        Err(misfit) => misfit_reason(verb, rest, misfit),
        Ok(()) => Reason::Ports {
            verb: Verb::Range,
            fault: range_fault(rest),
        },
    }
}

/// Why words that begin with that verb, and have no form, have none.
fn form_reason<'a>(verb: Verb, rest: &'a [&'a [u8]]) -> Reason
    requires { ¬ (IsForm (verb_text verb ∷ texts rest.now)) }
    ensures { (mode : AnyMode) (lines : List (List ℕ)) → HasReason mode lines (verb_text verb ∷ texts rest.now) result }
{
    match verb {
        // What each port behind it must be depends on the one before, so its form has no parts.
        Verb::Reserved => Reason::Ports {
            verb,
            fault: reserved_fault(rest),
        },
        _ => parts_reason(verb, rest),
    }
}

/// Why a line of these words is refused, where it is the first that is, and those lines stand before it.
///
/// Takes memory for the words of a line at a time, and time for the bytes of all of them.
pub fn reason_of<'a>(
    alloc: Global,
    mode: Mode,
    lines: &[&[u8]],
    words: &'a [&'a [u8]],
) -> Result<Reason, AllocError>
    ensures { IfOk result (HasReason mode (texts lines.now) (texts words.now)) }
{
    let Some((first, rest)) = first_of(words) else {
        return Ok(Reason::NoVerb);
    };
    let Some(verb) = verb_of(first) else {
        return Ok(no_verb(first));
    };
    if has_form(alloc, words)? {
        let before = before_of(alloc, verb, given(words), lines)?;
        return Ok(Reason::Place {
            verb,
            misplace: misplace_of(mode, verb, before),
        });
    }
    Ok(form_reason(verb, rest))
}
