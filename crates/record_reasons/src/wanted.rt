//! What is written of a line that keeps a text from being a record.

ghost use Rattle.std.specs.Prelude.{◌≡◌, ◌++◌, OnOk};
ghost use Rattle.record_reader.specs.Record as grammar;
ghost use Rattle.record_reasons.specs.Wanted as spec;

use crate::outside::{Head, Outside, Refused};
use crate::put::{put, put_numbered};
use record_reader::line::Line;
use std::alloc::AllocError;

/// The form of the lines that begin so.
#[tactic(auto, unfolding(crate::specs::Wanted::form_text))]
fn form_text(head: Head) -> &'static [u8]
    ensures { result.now ≡ spec.form_text head }
{
    match head {
        Head::Race => b"it isn't of the form: race lookers N passes P",
        Head::Shape => b"it isn't of the form: shape SLOTS BIND HASH LISTEN seed N",
        Head::Command =>
            b"it isn't of the form: N COMMAND WORD REPLY, of a command of section N, 1 to 64",
        Head::Journal => b"it isn't of the form: journal BUCKET COUNT",
        Head::Life =>
            b"it isn't of the form: life CHAIN SLOT KIND n.S A:P B:Q dev D [net N] hash B0 E0 unhash B1 E1, or unhash -",
        Head::Packet =>
            b"it isn't of the form: packet K ANSWER t0 N0 t1 N1 from B:Q to A:P dev D [net N], or packet K skip, or \
              packet K short",
        Head::Cut => b"it isn't of the form: cut",
        Head::Clock => b"it isn't of the form: clock C",
        Head::Other => b"no line begins with its first word; words are separated by one space",
    }
}

/// Why a line can't stand behind one of its kind.
#[tactic(auto, unfolding(crate::specs::Wanted::same_kind_text))]
fn same_kind_text(line: &Line) -> &'static [u8]
    ensures { result.now ≡ spec.same_kind_text line.now }
{
    match line {
        Line::Journal { .. } => b"its bucket isn't above that of the line before",
        Line::Life(_) => b"its hash begins below that of the line before",
        Line::Packet { .. } => b"its number isn't the next",
        _ => b"there is one line of its kind",
    }
}

/// Why a line comes too early behind that one.
#[tactic(auto, unfolding(crate::specs::Wanted::early_text))]
fn early_text(before: &Line) -> &'static [u8]
    ensures { result.now ≡ spec.early_text before.now }
{
    match before {
        Line::Race { .. } => b"behind the line race stands the line shape",
        _ => b"the first packet has the number 1",
    }
}

fn rank(line: &Line) -> u8
    ensures { result ≡ grammar.rank line.now }
{
    match line {
        Line::Race { .. } => 0,
        Line::Shape { .. } => 1,
        Line::Reply { .. } => 2,
        Line::Journal { .. } => 3,
        Line::Life(_) => 4,
        Line::Packet { .. } => 5,
        Line::Cut => 6,
        Line::Clock(_) => 7,
    }
}

/// Why a line can't stand behind that one.
fn order_text(before: Option<Line>, line: &Line) -> &'static [u8]
    ensures { result.now ≡ spec.order_text before line.now }
{
    let Some(before) = before else {
        return b"the first line is race";
    };
    let from = rank(&before);
    let to = rank(line);
    if from == to {
        same_kind_text(line)
    } else if to < from {
        b"lines of its kind stand above the line before"
    } else {
        early_text(&before)
    }
}

fn reason_text(before: Option<Line>, reason: &Outside) -> &'static [u8]
    ensures { result.now ≡ spec.reason_text before reason.now }
{
    match reason {
        Outside::Missing => b"the text ends without the line clock",
        Outside::Unended => b"no line feed stands behind it",
        Outside::NoForm(head) => form_text(*head),
        Outside::NoPlace(line) => order_text(before, line),
    }
}

/// Appends which lines may stand behind that one.
#[tactic(auto, unfolding(crate::specs::Wanted::wanted_text))]
fn put_wanted(out: &mut Vec<u8>, before: Option<Line>) -> Result<(), AllocError>
    ensures { OnOk result (out.new.items ≡ out.old.items ++ spec.wanted_text before) }
{
    match before {
        None => put(out, b"race"),
        Some(Line::Race { .. }) => put(out, b"shape"),
        Some(Line::Shape { .. } | Line::Reply { .. }) => put(
            out,
            b"a command's line, journal, life, packet 1, cut or clock",
        ),
        Some(Line::Journal { bucket, .. }) => put_numbered(
            out,
            b"journal with a bucket above ",
            bucket,
            b", life, packet 1, cut or clock",
        ),
        Some(Line::Life(life)) => put_numbered(
            out,
            b"life whose hash begins at ",
            life.hash.begin,
            b" or above, packet 1, cut or clock",
        ),
        Some(Line::Packet { number, .. }) => put_numbered(
            out,
            b"the packet that comes next after ",
            number,
            b", cut or clock",
        ),
        Some(Line::Cut) => put(out, b"clock"),
        Some(Line::Clock(_)) => put(out, b"nothing: the line clock is the last"),
    }
}

/// Appends the line's number and its text.
#[tactic(auto, unfolding(crate::specs::Wanted::bad_line))]
fn put_bad_line(out: &mut Vec<u8>, number: u64, line: &[u8]) -> Result<(), AllocError>
    ensures { OnOk result (out.new.items ≡ out.old.items ++ spec.bad_line number line.now) }
{
    put_numbered(out, b"bad record line ", number, b": ")?;
    put(out, line)?;
    put(out, b"\n")
}

#[tactic(auto, unfolding(crate::specs::Wanted::wanted_line))]
fn put_wanted_line(out: &mut Vec<u8>, before: Option<Line>) -> Result<(), AllocError>
    ensures { OnOk result (out.new.items ≡ out.old.items ++ spec.wanted_line before) }
{
    put(out, b"there may stand: ")?;
    put_wanted(out, before)?;
    put(out, b"\n")
}

/// Appends what is written of a line that is refused: its number and its text, the reason, and what may stand there.
pub fn put_outside(out: &mut Vec<u8>, number: u64, refused: &Refused) -> Result<(), AllocError>
    ensures { OnOk result (out.new.items ≡ out.old.items
        ++ spec.outside_text number refused.now.line.items refused.now.before refused.now.reason) }
{
    put_bad_line(out, number, &refused.line)?;
    put(out, reason_text(refused.before, &refused.reason))?;
    put(out, b"\n")?;
    put_wanted_line(out, refused.before)
}
