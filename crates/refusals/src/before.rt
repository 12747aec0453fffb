//! What the lines before a line say of it.
ghost use Rattle.std.specs.Prelude.{◌≡◌, IfOk};
ghost use Rattle.sock_script.specs.Seen.{texts};
ghost use Rattle.refusals.specs.Before as spec;

use crate::lines::words_of;
use line_forms::Verb;
use std::alloc::{AllocError, Global};

/// What lines say of one that stands behind them, by their numbers, from 1.
#[derive(Clone, Copy)]
pub struct Before {
    /// The last that begins a section.
    pub section: Option<u64>,
    /// The first that begins with the same word.
    pub alike: Option<u64>,
    /// The first of the last section that gives the same label.
    pub giver: Option<u64>,
}

const NOTHING: Before = Before {
    section: None,
    alike: None,
    giver: None,
};

/// Whether the first of a line's words is that verb.
fn begins<'a>(verb: Verb, words: &'a [&'a [u8]]) -> bool
    ensures { result ≡ spec.begins verb (texts words.now) }
{
    match words {
        [] => false,
        [word, ..] => *word == verb.text(),
    }
}

fn second<'a>(words: &'a [&'a [u8]]) -> &'a [u8]
    ensures { result.now ≡ spec.second (texts words.now) }
{
    match words {
        [_, word, ..] => word,
        _ => &[],
    }
}

fn third<'a>(words: &'a [&'a [u8]]) -> &'a [u8]
    ensures { result.now ≡ spec.third (texts words.now) }
{
    match words {
        [_, _, word, ..] => word,
        _ => &[],
    }
}

/// The label that a line gives to a new socket; nothing, where it gives none.
pub fn given<'a>(words: &'a [&'a [u8]]) -> &'a [u8]
    ensures { result.now ≡ spec.given (texts words.now) }
{
    if begins(Verb::Socket, words) {
        second(words)
    } else if begins(Verb::Accept, words) || begins(Verb::Syn, words) || begins(Verb::Ack, words) {
        third(words)
    } else {
        &[]
    }
}

fn first_so(first: Option<u64>, so: bool, number: u64) -> Option<u64>
    ensures { result ≡ spec.first_so first so number }
{
    match (first, so) {
        (Some(line), _) => Some(line),
        (None, true) => Some(number),
        (None, false) => None,
    }
}

/// What is said where a line of that number and these words stands there too.
#[tactic(auto, unfolding(crate::specs::Before::noted))]
fn noted<'a>(verb: Verb, label: &[u8], number: u64, words: &'a [&'a [u8]], before: Before) -> Before
    ensures { result ≡ spec.noted verb label.now number (texts words.now) before }
{
    let alike = first_so(before.alike, begins(verb, words), number);
    if begins(Verb::Script, words) {
        return Before {
            section: Some(number),
            alike,
            giver: None,
        };
    }
    Before {
        section: before.section,
        alike,
        giver: first_so(before.giver, given(words) == label, number),
    }
}

/// What these lines say of one behind them that begins with that verb and gives that label.
///
/// Takes memory for the words of a line at a time.
pub fn before_of(
    alloc: Global,
    verb: Verb,
    label: &[u8],
    lines: &[&[u8]],
) -> Result<Before, AllocError>
    ensures { IfOk result (λ before. before ≡ spec.before_of verb label.now (texts lines.now)) }
{
    let mut before = NOTHING;
    for i in 0..lines.len() {
        let words = words_of(alloc, lines[i])?;
        before = noted(verb, label, i as u64 + 1, &words, before);
    }
    Ok(before)
}
