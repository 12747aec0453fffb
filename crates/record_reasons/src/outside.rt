//! Why a line keeps a text from being a record.

ghost use Rattle.std.specs.Prelude.{◌≡◌, ◌≤◌, ◌-◌, ◌↔◌, IsTrue, IfOk, false, length};
ghost use Rattle.record_reader.specs.Words.{texts, words_of};
ghost use Rattle.record_reader.specs.declared.line.Line.{Line as AnyLine};
ghost use Rattle.record_reader.specs.Forms.{HasForm};
ghost use Rattle.record_reader.specs.Record.{IsFirstOutside};
ghost use Rattle.record_reasons.specs.Lines.{IsBefore, text_at};
ghost use Rattle.record_reasons.specs.Outside as spec;
ghost use Rattle.record_reasons.specs.Outside.{EndReason, IsOutside, LineReason};

use crate::lines::{pieces_of, text_at, words_of};
use record_reader::form::line_of;
use record_reader::line::Line;
use std::alloc::{AllocError, Global};

/// The kind of line that begins with a word.
#[derive(Clone, Copy, Debug, PartialEq, Eq)]
pub enum Head {
    Race,
    Shape,
    /// The line of a command, which begins with its section's number.
    Command,
    Journal,
    Life,
    Packet,
    Cut,
    Clock,
    /// None.
    Other,
}

/// Why a line is the first that keeps a text from being a record.
#[derive(Clone, Copy, Debug, PartialEq, Eq)]
pub enum Outside {
    /// The text ends before it, and the last line isn't that of the clock.
    Missing,
    /// No line feed stands behind it.
    Unended,
    /// Its words aren't of the form of the line that begins so.
    NoForm(Head),
    /// It is this line, which may not stand behind the one before it.
    NoPlace(Line),
}

fn is_section(word: &[u8]) -> bool
    ensures { result ≡ spec.is_section word.now }
{
    match word {
        [] => false,
        [b, ..] => 48 <= *b && *b <= 57,
    }
}

fn head_named(word: &[u8]) -> Head
    ensures { result ≡ spec.head_named word.now }
{
    if word == b"life".as_slice() {
        Head::Life
    } else if word == b"packet".as_slice() {
        Head::Packet
    } else if word == b"journal".as_slice() {
        Head::Journal
    } else if word == b"race".as_slice() {
        Head::Race
    } else if word == b"shape".as_slice() {
        Head::Shape
    } else if word == b"cut".as_slice() {
        Head::Cut
    } else if word == b"clock".as_slice() {
        Head::Clock
    } else if is_section(word) {
        Head::Command
    } else {
        Head::Other
    }
}

/// The kind of line that the words begin as.
pub fn head_of(words: &[&[u8]]) -> Head
    ensures { result ≡ spec.head_of (texts words.now) }
{
    match words {
        [] => Head::Other,
        [word, ..] => head_named(word),
    }
}

/// The line before the one of that number, from 1.
fn line_before(alloc: Global, pieces: &[&[u8]], number: u64) -> Result<Option<Line>, AllocError>
    requires within { 1 ≤ number }
    requires before { 2 ≤ number → (it : AnyLine) × HasForm (words_of (text_at (texts pieces.now) (number - 2))) it }
    ensures { IfOk result (IsBefore (texts pieces.now) number) }
{
    if number == 1 {
        return Ok(None);
    }
    let words = words_of(alloc, text_at(pieces, (number - 2) as usize))?;
    Ok(line_of(&words))
}

/// Why what stands behind the last line feed is no end of a record.
fn end_reason(line: &[u8]) -> Outside
    ensures { EndReason line.now result }
{
    if line.is_empty() {
        return Outside::Missing;
    }
    Outside::Unended
}

/// Why a line is refused, where it is the first that is: it is what stands behind the last line feed, or it isn't.
fn reason_of(alloc: Global, line: &[u8], is_last: bool) -> Result<Outside, AllocError>
    ensures at_end { IfOk result (λ r. IsTrue is_last → EndReason line.now r) }
    ensures within { IfOk result (λ r. is_last ≡ false → LineReason line.now r) }
{
    if is_last {
        return Ok(end_reason(line));
    }
    let words = words_of(alloc, line)?;
    match line_of(&words) {
        Some(line) => Ok(Outside::NoPlace(line)),
        None => Ok(Outside::NoForm(head_of(&words))),
    }
}

/// Whether the line of that number, from 1, is the last piece.
fn is_last(number: u64, pieces: &[&[u8]]) -> bool
    ensures { IsTrue result ↔ (number ≡ length pieces.now) }
{
    number == pieces.len() as u64
}

/// A line that keeps a text from being a record, what stands before it, and why it is refused.
#[derive(Drop)]
pub struct Refused {
    pub line: Vec<u8>,
    pub before: Option<Line>,
    pub reason: Outside,
}

/// Why the line of that number, which is the first outside, is refused.
pub fn refused_at(alloc: Global, text: &[u8], number: u64) -> Result<Refused, AllocError>
    requires { IsFirstOutside text.now number }
    ensures { IfOk result (λ r. IsOutside text.now number r.line.items r.before r.reason) }
{
    let pieces = pieces_of(alloc, text)?;
    let line = pieces[(number - 1) as usize];
    let before = line_before(alloc, &pieces, number)?;
    let reason = reason_of(alloc, line, is_last(number, &pieces))?;
    Ok(Refused {
        line: line.to_vec(alloc)?,
        before,
        reason,
    })
}
