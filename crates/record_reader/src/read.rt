//! Reads a text as a record.

ghost use Rattle.std.specs.Prelude.{◌≡◌, ◌↔◌, ◌+◌, [], ℕ, Err, length, IsTrue, IfOk, IfErr};
ghost use Rattle.record_reader.specs.Words.{texts};
ghost use Rattle.chain_book.specs.Shapes.{ShapeFits};
ghost use Rattle.record_reader.specs.Record.{IsFirstOutside, IsRecord};
ghost use Rattle.record_reader.specs.Steps.{EndAnswer, EndsWell, Turns};
ghost use Rattle.record_reader.specs.Verdicts.{Reads};

use crate::form;
use crate::line::Line;
use crate::order::may_follow;
use crate::tell::tell;
use crate::word::{line_first, read_words};
use book_audit::Printed;
use std::alloc::{AllocError, Global};

/// Why a text is no record.
#[derive(Clone, Copy, Debug, PartialEq, Eq)]
pub enum ReadEnd {
    /// The line of that number, from 1, is the first outside; one that is missing is the one behind the last.
    BadLine(u64),
    /// There is no memory for what the text says.
    Memory,
}

impl From<AllocError> for ReadEnd {
    ghost use Rattle.std.specs.Prelude.{◌≡◌};
    ghost use Rattle.record_reader.specs.declared.read.ReadEnd.TheVariants.{Memory};

    ghost from_gives = { λ _ e. e ≡ Memory };

    fn from(_: AllocError) -> Self {
        ReadEnd::Memory
    }
}

/// The lines of a record, and the race that they describe.
#[derive(Drop)]
pub struct Record {
    pub lines: Vec<Line>,
    pub printed: Printed,
}

/// Adds the line that the words are, where it may follow, and says whether.
fn push_line(lines: &mut Vec<Line>, words: &[&[u8]]) -> Result<bool, AllocError>
    ensures { IfOk result (Turns lines.old.items (texts words.now) lines.new.items) }
{
    let Some(line) = form::line_of(words) else {
        return Ok(false);
    };
    if !may_follow(lines.last(), &line) {
        return Ok(false);
    }
    lines.push(line)?;
    Ok(true)
}

/// Whether the last line is that of the clock.
fn is_ended(lines: &[Line]) -> bool
    ensures { IsTrue result ↔ EndsWell lines.now }
{
    matches!(lines.last(), Some(Line::Clock(_)))
}

/// Whether a text ends as a record does: with the line of the clock, and nothing behind its line feed.
fn is_whole(rest: &[u8], lines: &[Line]) -> bool
    ensures { IsTrue result ↔ ((rest.now ≡ []) × EndsWell lines.now) }
{
    rest.is_empty() && is_ended(lines)
}

/// The number of the line that comes next.
fn next_number(lines: &[Line]) -> u64
    ensures { result ≡ length lines.now + 1 }
{
    lines.len() as u64 + 1
}

/// Reads the lines of a record.
fn read_lines(alloc: Global, text: &[u8]) -> Result<Vec<Line>, ReadEnd>
    ensures record { IfOk result (λ lines. IsRecord text.now lines.items) }
    ensures bad { IfErr result (EndAnswer text.now) }
{
    let mut lines = Vec::new(alloc);
    let mut words = Vec::new(alloc);
    let mut rest = text;
    while let Some((line, after)) = line_first(rest) {
        read_words(line, &mut words)?;
        if !push_line(&mut lines, &words)? {
            return Err(ReadEnd::BadLine(next_number(&lines)));
        }
        rest = after;
    }
    if !is_whole(rest, &lines) {
        return Err(ReadEnd::BadLine(next_number(&lines)));
    }
    Ok(lines)
}

/// Reads a text as the record of a race: a grammar of our own, which `specs/` spells out.
///
/// Each byte is looked at a few times. Names are found among the others by an ordered index, so that takes time for
/// each in proportion to the logarithm of their number. Takes memory for the lines and for what they say. A record
/// may have `u32::MAX` lines with names; for more there is no memory.
pub fn read(alloc: Global, text: &[u8]) -> Result<Record, ReadEnd>
    ensures record { IfOk result (λ r. Reads text.now r.lines.items r.printed) }
    ensures shape { IfOk result (λ r. ShapeFits r.printed.shape) }
    ensures bad { (n : ℕ) → result ≡ Err (ReadEnd.BadLine n) → IsFirstOutside text.now n }
{
    let lines = read_lines(alloc, text)?;
    let printed = tell(alloc, &lines)?;
    Ok(Record { lines, printed })
}
