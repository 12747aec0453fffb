//! Where the words behind a line's first leave the form.
ghost use Rattle.std.specs.Prelude.{◌≡◌, ◌+◌, ◌≤◌, ◌∷◌, [], ℕ, length, IfSome, IfNone, IfOk, IfErr, OnOk};
ghost use Rattle.line_forms.specs.Seen.{texts};
ghost use Rattle.line_forms.specs.Wants as spec;
ghost use Rattle.line_forms.specs.Wants.{Fit, IsMisfit, wants};
ghost use Rattle.line_forms.specs.Stands.{PassesPart, FailsPart, FitsParts, FailsParts};

use crate::kind::{Keyword, Kind};
use crate::verb::Part;

/// What is wrong with words, and at which word of the line, from 1.
#[derive(Clone, Copy)]
pub enum Misfit {
    /// The word there isn't of that kind, which is wanted.
    Unfit { place: usize, kind: Kind },
    /// The line ends before it, and a word of that kind is wanted.
    Missing { place: usize, kind: Kind },
    /// The word stands behind all that are wanted.
    Surplus { place: usize },
}

/// Whether that word comes next.
fn begins(keyword: Keyword, words: &[&[u8]]) -> bool
    ensures { result ≡ spec.begins keyword (texts words.now) }
{
    match words {
        [] => false,
        [word, ..] => *word == keyword.text(),
    }
}

/// The first word, and the words behind it.
fn first_of<'a>(words: &'a [&'a [u8]]) -> Option<(&'a [u8], &'a [&'a [u8]])>
    ensures some { IfSome result (λ r. texts words.now ≡ r.0.now ∷ texts r.1.now) }
    ensures one { IfSome result (λ r. length words.now ≡ length r.1.now + 1) }
    ensures none { IfNone result (texts words.now ≡ []) }
{
    let (word, rest) = words.split_first()?;
    Some((word, rest))
}

/// Goes past a word of that kind.
fn take<'a>(kind: Kind, place: usize, words: &'a [&'a [u8]]) -> Result<&'a [&'a [u8]], Misfit>
    ensures ok { IfOk result (λ rest. PassesPart (Part.Must kind) (texts words.now) (texts rest.now)) }
    ensures less { IfOk result (λ rest. length words.now ≡ length rest.now + 1) }
    ensures err { IfErr result (FailsPart (Part.Must kind) place (texts words.now)) }
{
    let Some((word, rest)) = first_of(words) else {
        return Err(Misfit::Missing { place, kind });
    };
    if !kind.has(word) {
        return Err(Misfit::Unfit { place, kind });
    }
    Ok(rest)
}

/// Goes past that word and one of that kind, where the word comes next.
fn take_option<'a>(
    keyword: Keyword,
    kind: Kind,
    place: usize,
    words: &'a [&'a [u8]],
) -> Result<&'a [&'a [u8]], Misfit>
    requires { place + length words.now ≤ usize.MAX }
    ensures ok { IfOk result (λ rest. PassesPart (Part.May keyword kind) (texts words.now) (texts rest.now)) }
    ensures less { IfOk result (λ rest. length rest.now ≤ length words.now) }
    ensures err { IfErr result (FailsPart (Part.May keyword kind) place (texts words.now)) }
{
    if !begins(keyword, words) {
        return Ok(words);
    }
    match take(Kind::Word(keyword), place, words) {
        Ok(rest) => take(kind, place + 1, rest),
        Err(misfit) => Err(misfit),
    }
}

/// Goes past that word, where it comes next.
fn take_flag<'a>(
    keyword: Keyword,
    place: usize,
    words: &'a [&'a [u8]],
) -> Result<&'a [&'a [u8]], Misfit>
    ensures ok { IfOk result (λ rest. PassesPart (Part.Flag keyword) (texts words.now) (texts rest.now)) }
    ensures less { IfOk result (λ rest. length rest.now ≤ length words.now) }
    ensures err { IfErr result (FailsPart (Part.Flag keyword) place (texts words.now)) }
{
    if !begins(keyword, words) {
        return Ok(words);
    }
    take(Kind::Word(keyword), place, words)
}

/// Goes past a part.
fn pass<'a>(part: Part, place: usize, words: &'a [&'a [u8]]) -> Result<&'a [&'a [u8]], Misfit>
    requires { place + length words.now ≤ usize.MAX }
    ensures ok { IfOk result (λ rest. PassesPart part (texts words.now) (texts rest.now)) }
    ensures less { IfOk result (λ rest. length rest.now ≤ length words.now) }
    ensures err { IfErr result (FailsPart part place (texts words.now)) }
{
    match part {
        Part::Must(kind) => take(kind, place, words),
        Part::May(keyword, kind) => take_option(keyword, kind, place, words),
        Part::Flag(keyword) => take_flag(keyword, place, words),
    }
}

/// The first part, and those behind it.
fn first_part(parts: &[Part]) -> Option<(Part, &[Part])>
    ensures some { IfSome result (λ r. parts.now ≡ r.0 ∷ r.1.now) }
    ensures none { IfNone result (parts.now ≡ []) }
{
    let (part, behind) = parts.split_first()?;
    Some((*part, behind))
}

/// Whether no word is left.
fn end<'a>(place: usize, words: &'a [&'a [u8]]) -> Result<(), Misfit>
    ensures ok { OnOk result (FitsParts [] (texts words.now)) }
    ensures err { IfErr result (FailsParts [] place (texts words.now)) }
{
    if words.is_empty() {
        return Ok(());
    }
    Err(Misfit::Surplus { place })
}

/// Whether the words, of which the first has that place, are those of these parts, or else where they first leave them.
fn check_from<'a>(parts: &[Part], place: usize, words: &'a [&'a [u8]]) -> Result<(), Misfit>
    requires { place + length words.now ≤ usize.MAX }
    ensures ok { OnOk result (FitsParts parts.now (texts words.now)) }
    ensures err { IfErr result (FailsParts parts.now place (texts words.now)) }
{
    let Some((part, behind)) = first_part(parts) else {
        return end(place, words);
    };
    match pass(part, place, words) {
        Ok(rest) => check_from(behind, place + (words.len() - rest.len()), rest),
        Err(misfit) => Err(misfit),
    }
}

/// Whether the words are those of a form with these parts, or else where they first leave it.
///
/// Takes no memory, and time for the bytes of the words.
pub fn check<'a>(parts: &[Part], words: &'a [&'a [u8]]) -> Result<(), Misfit>
    ensures ok { OnOk result (Fit (wants parts.now (texts words.now)) (texts words.now)) }
    ensures err { IfErr result (IsMisfit (wants parts.now (texts words.now)) (texts words.now)) }
{
    check_from(parts, 2, words)
}
