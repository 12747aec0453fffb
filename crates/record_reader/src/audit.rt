//! The verdict on a text.

ghost use Rattle.std.specs.Prelude.{◌≡◌, ◌<◌, ℕ, Err, IfOk, count_by, length};
ghost use Rattle.record_reader.specs.Record.{IsFirstOutside};
ghost use Rattle.record_reader.specs.Verdicts as spec;
ghost use Rattle.record_reader.specs.Verdicts.{IsLineOf, IsVerdict};

use crate::line::Line;
use crate::read::{ReadEnd, read};
use book_audit::judge::judge;
use book_audit::{Finding, Printed, Why};
use std::alloc::Global;

/// Why there is no verdict: the text is no record, or there is no memory.
pub type AuditEnd = ReadEnd;

/// What is found of a race by its text.
#[derive(Clone, Copy, Debug, PartialEq, Eq)]
pub enum Verdict {
    /// It passes each test: how many lives and packets it has, and what its clock came to.
    Yes {
        lives: u64,
        packets: u64,
        clock: u64,
    },
    /// The first test that it fails, and the first line, from 1, at which it does; for `Count` that is the clock's.
    No {
        line: u64,
        why: Why,
    },
}

/// Whether that test is of a line.
fn is_tried(why: Why, line: &Line) -> bool
    ensures { result ≡ spec.is_tried why line.now }
{
    match why {
        Why::Receipt => matches!(line, Line::Packet { .. }),
        Why::Count => matches!(line, Line::Clock(_)),
        Why::Stamp | Why::Home | Why::Overlap | Why::Slot | Why::Twin => {
            matches!(line, Line::Life(_))
        }
    }
}

/// The number of a line, from 1, of those that a test is of.
fn line_of(why: Why, lines: &[Line], at: usize) -> u64
    requires { at < count_by (spec.is_tried why) lines.now }
    ensures { IsLineOf why lines.now at result }
{
    let mut before = 0;
    for (place, line) in lines.iter().enumerate() {
        if is_tried(why, line) {
            if before == at {
                return place as u64 + 1;
            }
            before += 1;
        }
    }
    unreachable!()
}

/// What is said of a race that passes each test.
fn yes(printed: &Printed) -> Verdict
    ensures { result ≡ Verdict.Yes (length printed.now.lives.items)
        (length printed.now.packets.items) printed.now.clock }
{
    let lives = printed.lives.as_slice();
    let packets = printed.packets.as_slice();
    Verdict::Yes {
        lives: lives.len() as u64,
        packets: packets.len() as u64,
        clock: printed.clock,
    }
}

/// Reads a text as the record of a race, and judges it.
///
/// It is judged by what it says alone, whoever wrote it. Takes memory for its lines, and time as
/// [`read`](crate::read::read) and [`judge`](book_audit::judge::judge).
pub fn audit(alloc: Global, text: &[u8]) -> Result<Verdict, AuditEnd>
    ensures verdict { IfOk result (IsVerdict text.now) }
    ensures bad { (n : ℕ) → result ≡ Err (ReadEnd.BadLine n) → IsFirstOutside text.now n }
{
    let record = read(alloc, text)?;
    let printed = &record.printed;
    match judge(alloc, printed)? {
        Finding::Sound => Ok(yes(printed)),
        Finding::Wrong { why, at } => Ok(Verdict::No {
            line: line_of(why, &record.lines, at),
            why,
        }),
    }
}
