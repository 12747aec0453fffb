//! What is written of a record that an audit refutes.

ghost use Rattle.std.specs.Prelude.{◌≡◌, ◌≤◌, ◌<◌, ◌++◌, OnOk, length, take};
ghost use Rattle.chain_book.specs.Shapes.{ShapeFits};
ghost use Rattle.record_reader.specs.Words.{texts};
ghost use Rattle.record_reasons.specs.Texts as spec;

use crate::cause::{Cause, cause_at};
use crate::lines::text_at;
use crate::parts::has_part;
use crate::put::{put, put_number, put_numbered};
use book_audit::Why;
use record_reader::Record;
use record_reader::line::Line;
use std::alloc::AllocError;

/// The word for a test.
fn why_word(why: Why) -> &'static [u8]
    ensures { result.now ≡ spec.why_word why }
{
    match why {
        Why::Stamp => b"stamp",
        Why::Home => b"home",
        Why::Overlap => b"overlap",
        Why::Slot => b"slot",
        Why::Twin => b"twin",
        Why::Receipt => b"receipt",
        Why::Count => b"count",
    }
}

/// What a test asks.
#[tactic(auto, unfolding(crate::specs::Texts::test_text))]
fn test_text(why: Why) -> &'static [u8]
    ensures { result.now ≡ spec.test_text why }
{
    match why {
        Why::Stamp =>
            b"the numbers of a life ascend and are below the clock, and no two lives have one number",
        Why::Home =>
            b"a life stands in the chain in which its socket belongs by the tables' shape and the seed",
        Why::Overlap => b"of two changes in one chain the one ends before the other begins",
        Why::Slot => b"of two lives in one slot the one is on its way out before the other is in",
        Why::Twin =>
            b"of two connected sockets of one four-tuple the one is on its way out before the other is hashed",
        Why::Receipt =>
            b"what a packet found is explained by the lives that stood as it was looked up",
        Why::Count =>
            b"the clock is twice the changes, and one more for each command that found no slot",
    }
}

/// What keeps a line from passing, but for those with numbers.
#[tactic(auto, unfolding(crate::specs::Texts::plain_text))]
fn plain_text(cause: &Cause) -> &'static [u8]
    ensures { result.now ≡ spec.plain_text cause.now }
{
    match cause {
        Cause::Descends => b"its numbers don't ascend in the order in which they stand",
        Cause::SharesNumber { .. } => b"one of its numbers is a number of:",
        Cause::Overlaps { .. } => b"a change of it was under way at once with one of:",
        Cause::SharesSlot { .. } => b"its slot had at once with it:",
        Cause::IsTwin { .. } => b"its four-tuple had at once with it:",
        Cause::Unknown => b"no life has that kind and name",
        Cause::Absent(_) =>
            b"no life of that kind and name was there during the lookup, but before or after it:",
        Cause::Unlike(_) => b"the packet isn't for what has that kind and name:",
        Cause::Beaten(_) =>
            b"what has that kind and name, and what matches better and was there throughout:",
        Cause::Missed { .. } => b"the packet matches what was there throughout:",
        Cause::OwnChain => b"a walk is led astray into another chain, not into its own",
        Cause::NoneInto { .. } => b"no life was hashed into that chain during the lookup; it had:",
        Cause::NoneIn { .. } =>
            b"no life came into that slot or left it during the lookup; it had:",
        Cause::NoneHashed => b"no life was hashed during the lookup",
        _ => b"",
    }
}

#[tactic(auto, unfolding(crate::specs::Texts::chains_text))]
fn put_chains(
    out: &mut Vec<u8>,
    connected: u64,
    listening: u64,
    anywhere: u64,
) -> Result<(), AllocError>
    ensures { OnOk result (out.new.items ≡ out.old.items ++ spec.chains_text connected listening anywhere) }
{
    put_numbered(out, b"the packet's chains are ", connected, b", ")?;
    put_number(out, listening)?;
    put(out, b" and ")?;
    put_number(out, anywhere)
}

#[tactic(auto, unfolding(crate::specs::Texts::count_text))]
fn put_count(out: &mut Vec<u8>, changes: u64, vain: u64, clock: u64) -> Result<(), AllocError>
    ensures { OnOk result (out.new.items ≡ out.old.items ++ spec.count_text changes vain clock) }
{
    put_numbered(
        out,
        b"the changes are ",
        changes,
        b", the commands that found no slot ",
    )?;
    put_number(out, vain)?;
    put(out, b": the clock should be ")?;
    put_number(out, clock)
}

/// Appends what keeps a line from passing.
fn put_cause(out: &mut Vec<u8>, cause: &Cause) -> Result<(), AllocError>
    ensures { OnOk result (out.new.items ≡ out.old.items ++ spec.cause_text cause.now) }
{
    match cause {
        Cause::BeyondClock { clock } => put_numbered(
            out,
            b"one of its numbers isn't below the clock, ",
            *clock,
            b"",
        ),
        Cause::Stray { home } => put_numbered(
            out,
            b"its socket belongs in chain ",
            u64::from(*home),
            b"",
        ),
        Cause::OtherChain {
            connected,
            listening,
            anywhere,
        } => put_chains(
            out,
            u64::from(*connected),
            u64::from(*listening),
            u64::from(*anywhere),
        ),
        Cause::OtherLength { links } => put_numbered(
            out,
            b"a walk is given up after ",
            *links,
            b" links, one more than there are slots",
        ),
        Cause::Uncounted {
            changes,
            vain,
            clock,
        } => put_count(out, *changes, *vain, *clock),
        _ => put(out, plain_text(cause)),
    }
}

/// Appends a line's number and its text.
#[tactic(auto, unfolding(crate::specs::Texts::numbered))]
fn put_line(out: &mut Vec<u8>, number: u64, line: &[u8]) -> Result<(), AllocError>
    ensures { OnOk result (out.new.items ≡ out.old.items ++ spec.numbered number line.now) }
{
    put_numbered(out, b"line ", number, b": ")?;
    put(out, line)?;
    put(out, b"\n")
}

/// Appends a line where it has a part in a refutation.
fn put_part(
    out: &mut Vec<u8>,
    pieces: &[&[u8]],
    lines: &[Line],
    cause: &Cause,
    at: usize,
    line: &Line,
) -> Result<(), AllocError>
    requires { at < length lines.now }
    ensures { OnOk result (out.new.items
        ≡ out.old.items ++ spec.part (texts pieces.now) lines.now cause.now at line.now) }
{
    if !has_part(lines, cause, line) {
        return Ok(());
    }
    put_line(out, at as u64 + 1, text_at(pieces, at))
}

/// Appends those of the first lines, so many, that have a part in a refutation.
fn put_parts(
    out: &mut Vec<u8>,
    pieces: &[&[u8]],
    lines: &[Line],
    cause: &Cause,
    count: usize,
) -> Result<(), AllocError>
    requires { count ≤ length lines.now }
    ensures { OnOk result (out.new.items
        ≡ out.old.items ++ spec.parts_from (texts pieces.now) lines.now cause.now 0 (take count lines.now)) }
{
    for (at, line) in lines[..count].iter().enumerate() {
        put_part(out, pieces, lines, cause, at, line)?;
    }
    Ok(())
}

/// Appends what keeps a line from passing, with the lines above it that have a part in it.
fn put_told(
    out: &mut Vec<u8>,
    pieces: &[&[u8]],
    lines: &[Line],
    number: u64,
    cause: &Option<Cause>,
) -> Result<(), AllocError>
    requires within { 1 ≤ number }
    requires there { number ≤ length lines.now }
    ensures { OnOk result (out.new.items
        ≡ out.old.items ++ spec.told (texts pieces.now) lines.now number cause.now) }
{
    let Some(cause) = cause else {
        return Ok(());
    };
    put_cause(out, cause)?;
    put(out, b"\n")?;
    put_parts(out, pieces, lines, cause, (number - 1) as usize)
}

/// Appends the line of the verdict, and the word for its test.
#[tactic(auto, unfolding(crate::specs::Texts::verdict_line))]
fn put_verdict(out: &mut Vec<u8>, number: u64, why: Why, line: &[u8]) -> Result<(), AllocError>
    ensures { OnOk result (out.new.items ≡ out.old.items ++ spec.verdict_line number why line.now) }
{
    put_numbered(out, b"no line ", number, b" ")?;
    put(out, why_word(why))?;
    put(out, b": ")?;
    put(out, line)
}

#[tactic(auto, unfolding(crate::specs::Texts::test_line))]
fn put_test(out: &mut Vec<u8>, why: Why) -> Result<(), AllocError>
    ensures { OnOk result (out.new.items ≡ out.old.items ++ spec.test_line why) }
{
    put(out, b"\nasked: ")?;
    put(out, test_text(why))?;
    put(out, b"\n")
}

/// Appends what is written of a record that fails that test at the line of that number, from 1.
pub fn put_refuted(
    out: &mut Vec<u8>,
    pieces: &[&[u8]],
    race: &Record,
    number: u64,
    why: Why,
) -> Result<(), AllocError>
    requires fits { ShapeFits race.now.printed.shape }
    requires within { 1 ≤ number }
    requires there { number ≤ length race.now.lines.items }
    ensures { OnOk result (out.new.items ≡ out.old.items
        ++ spec.refuted_text (texts pieces.now) race.now.printed race.now.lines.items number why) }
{
    let cause = cause_at(race, why, number)?;
    put_verdict(out, number, why, text_at(pieces, (number - 1) as usize))?;
    put_test(out, why)?;
    put_told(out, pieces, &race.lines, number, &cause)
}
