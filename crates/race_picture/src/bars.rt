//! How a life is drawn.

ghost use Rattle.std.specs.Prelude.{◌≡◌, ◌≤◌, ◌<◌, ◌+◌, ◌^◌, ◌++◌, OnOk, is_some};
ghost use Rattle.std.specs.List.{flat_map};
ghost use Rattle.std.specs.Option.{option_copied};
ghost use Rattle.record_reader.specs.Words.{texts};
ghost use Rattle.race_picture.specs.Bars as spec;

use crate::lanes::Bar;
use crate::rows::text_at;
use crate::shapes::{
    Point, area_of, kind_word, put_line, put_rect, put_text_end, put_text_tag, put_title,
};
use crate::sheet::Sheet;
use crate::xml::{put, put_escaped, put_number};
use book_audit::{Span, Why};
use record_reader::Verdict;
use record_reader::line::{LifeLine, Line};
use record_reader::word::read_words;
use sock_card::Kind;
use std::alloc::{AllocError, Global};

/// The word by which an audit names a test.
pub fn why_word(why: Why) -> &'static [u8]
    ensures { result.now ≡ spec.why_word why }
{
    match why {
        Why::Stamp => b"stamp",
        Why::Home => b"home",
        Why::Overlap => b"overlap",
        Why::Slot => b"slot",
        Why::Twin => b"twin",
        Why::Receipt => b"receipt",
        Why::Count => b"count",
    }
}

/// The test that a line fails, if it is the one that the verdict names. Lines are counted from 0 here.
pub fn why_at(verdict: &Verdict, at: usize) -> Option<Why>
    ensures { result ≡ spec.why_at verdict.now at }
{
    match verdict {
        Verdict::Yes { .. } => None,
        Verdict::No { line, why } => {
            if *line > 0 && *line - 1 == at as u64 {
                Some(*why)
            } else {
                None
            }
        }
    }
}

/// Appends what stands behind a name in a line that fails a test.
pub fn put_why(out: &mut Vec<u8>, why: Option<Why>) -> Result<(), AllocError>
    ensures { OnOk result (out.new.items ≡ out.old.items ++ spec.why_text why) }
{
    let Some(why) = why else {
        return Ok(());
    };
    put(out, b": ")?;
    put(out, why_word(why))
}

/// Whether a name is drawn.
pub fn is_named(sheet: &Sheet, why: Option<Why>) -> bool
    ensures { result ≡ spec.is_named sheet.now why }
{
    !sheet.large || why.is_some()
}

fn end_of(sheet: &Sheet, unhash: &Option<Span>) -> u64
    ensures { result ≡ spec.end_of sheet.now unhash.now }
{
    match unhash {
        None => sheet.clock,
        Some(span) => span.end,
    }
}

/// Appends the hatching of a change.
fn put_change(
    out: &mut Vec<u8>,
    sheet: &Sheet,
    kind: Kind,
    y: u64,
    span: &Span,
) -> Result<(), AllocError>
    requires { y < 2 ^ 50 }
    ensures { OnOk result (out.new.items ≡ out.old.items ++ spec.change sheet.now kind y span.now) }
{
    let at = Point {
        x: sheet.x_of(span.begin),
        y,
    };
    let width = sheet.across(span.begin, span.end) + 1;
    put_rect(
        out,
        b"changing",
        false,
        &area_of(kind, at, width, sheet.bar_height()),
    )
}

/// Appends the hatching of an unhash, if there was one.
fn put_last_change(
    out: &mut Vec<u8>,
    sheet: &Sheet,
    kind: Kind,
    y: u64,
    unhash: &Option<Span>,
) -> Result<(), AllocError>
    requires { y < 2 ^ 50 }
    ensures { OnOk result (out.new.items ≡ out.old.items ++ spec.last_change sheet.now kind y unhash.now) }
{
    match unhash {
        None => Ok(()),
        Some(span) => put_change(out, sheet, kind, y, span),
    }
}

/// Appends the bar of a life.
fn put_stay(
    out: &mut Vec<u8>,
    sheet: &Sheet,
    wrong: bool,
    y: u64,
    life: &LifeLine,
) -> Result<(), AllocError>
    requires { y < 2 ^ 50 }
    ensures { OnOk result (out.new.items ≡ out.old.items ++ spec.stay sheet.now wrong y life.now) }
{
    let kind = life.card.kind;
    let at = Point {
        x: sheet.x_of(life.hash.begin),
        y,
    };
    let width = sheet.across(life.hash.begin, end_of(sheet, &life.unhash)) + 1;
    put_rect(
        out,
        kind_word(kind),
        wrong,
        &area_of(kind, at, width, sheet.bar_height()),
    )?;
    put_change(out, sheet, kind, y, &life.hash)?;
    put_last_change(out, sheet, kind, y, &life.unhash)
}

fn put_name_text(out: &mut Vec<u8>, words: &[&[u8]], why: Option<Why>) -> Result<(), AllocError>
    ensures { OnOk result (out.new.items ≡ out.old.items ++ spec.name_text (texts words.now) why) }
{
    put_escaped(out, text_at(words, 3))?;
    put(out, b" ")?;
    put_escaped(out, text_at(words, 4))?;
    put_why(out, why)
}

/// Appends the kind and the name of a life, as its line has them, where they are drawn.
fn put_name(
    out: &mut Vec<u8>,
    alloc: Global,
    named: bool,
    text: &[u8],
    why: Option<Why>,
    at: Point,
) -> Result<(), AllocError>
    ensures { OnOk result (out.new.items ≡ out.old.items ++ spec.name named text.now why at) }
{
    if !named {
        return Ok(());
    }
    let mut words = Vec::new(alloc);
    read_words(text, &mut words)?;
    put_text_tag(out, b"name", why.is_some(), at)?;
    put_name_text(out, &words, why)?;
    put_text_end(out)
}

fn bar_top(sheet: &Sheet, bar: &Bar) -> u64
    ensures value { result ≡ spec.bar_top sheet.now bar.now }
    ensures bound { result < 2 ^ 41 }
{
    sheet.lane_top(bar.lane) + sheet.bar_drop()
}

/// Appends the group of what stands for a life.
#[tactic(auto, unfolding(crate::specs::Bars::group))]
fn put_group(
    out: &mut Vec<u8>,
    alloc: Global,
    sheet: &Sheet,
    text: &[u8],
    why: Option<Why>,
    bar: &Bar,
    life: &LifeLine,
) -> Result<(), AllocError>
    ensures { OnOk result (out.new.items ≡ out.old.items ++ spec.group sheet.now text.now why bar.now life.now) }
{
    let at = Point {
        x: sheet.x_of(life.hash.begin),
        y: sheet.lane_top(bar.lane) + 11,
    };
    put(out, b"<g>")?;
    put_title(out, text)?;
    put_stay(out, sheet, why.is_some(), bar_top(sheet, bar), life)?;
    put_name(out, alloc, is_named(sheet, why), text, why, at)?;
    put(out, b"</g>\n")
}

/// Appends what stands before the first lane of a chain.
fn put_chain_head(
    out: &mut Vec<u8>,
    right: u64,
    bar: &Bar,
    life: &LifeLine,
    y: u64,
) -> Result<(), AllocError>
    requires { y < 2 ^ 50 }
    ensures { OnOk result (out.new.items ≡ out.old.items ++ spec.chain_head right bar.now life.now y) }
{
    if !bar.heads_chain {
        return Ok(());
    }
    put_line(
        out,
        b"grid",
        false,
        Point { x: 20, y },
        Point { x: right, y },
    )?;
    put_text_tag(out, b"name", false, Point { x: 20, y: y + 24 })?;
    put(out, b"chain ")?;
    put_number(out, life.bucket)?;
    put_text_end(out)
}

fn put_slot_head(out: &mut Vec<u8>, life: &LifeLine, y: u64) -> Result<(), AllocError>
    requires { y < 2 ^ 50 }
    ensures { OnOk result (out.new.items ≡ out.old.items ++ spec.slot_head life.now y) }
{
    put_text_tag(out, b"end", false, Point { x: 130, y: y + 24 })?;
    put(out, b"slot ")?;
    put_number(out, life.slot)?;
    put_text_end(out)?;
    put(out, b"\n")
}

/// Appends what stands before the lane of the first life in its slot.
#[tactic(auto, unfolding(crate::specs::Bars::head))]
fn put_head(out: &mut Vec<u8>, sheet: &Sheet, bar: &Bar, life: &LifeLine) -> Result<(), AllocError>
    ensures { OnOk result (out.new.items ≡ out.old.items ++ spec.head sheet.now bar.now life.now) }
{
    if !bar.heads_lane || sheet.large {
        return Ok(());
    }
    let y = sheet.lane_top(bar.lane);
    put_chain_head(out, 150 + sheet.plot(), bar, life, y)?;
    put_slot_head(out, life, y)
}

/// Appends what stands for the life of a line.
fn put_bar_in(
    out: &mut Vec<u8>,
    alloc: Global,
    sheet: &Sheet,
    text: &[u8],
    why: Option<Why>,
    bar: &Bar,
    line: Option<&Line>,
) -> Result<(), AllocError>
    ensures { OnOk result (out.new.items
        ≡ out.old.items ++ spec.bar_in sheet.now text.now why bar.now (option_copied line.entry)) }
{
    match line {
        Some(Line::Life(life)) => {
            put_head(out, sheet, bar, life)?;
            put_group(out, alloc, sheet, text, why, bar, life)
        }
        _ => Ok(()),
    }
}

/// Appends what stands for a life.
#[tactic(auto, unfolding(crate::specs::Bars::bar))]
fn put_bar(
    out: &mut Vec<u8>,
    alloc: Global,
    sheet: &Sheet,
    pieces: &[&[u8]],
    lines: &[Line],
    verdict: &Verdict,
    bar: &Bar,
) -> Result<(), AllocError>
    ensures { OnOk result (out.new.items ≡ out.old.items
        ++ spec.bar sheet.now (texts pieces.now) lines.now verdict.now bar.now) }
{
    let text = text_at(pieces, bar.line);
    let why = why_at(verdict, bar.line);
    put_bar_in(out, alloc, sheet, text, why, bar, lines.get(bar.line))
}

/// Appends the bars of all lives.
pub fn put_bars(
    out: &mut Vec<u8>,
    alloc: Global,
    sheet: &Sheet,
    pieces: &[&[u8]],
    lines: &[Line],
    verdict: &Verdict,
    bars: &[Bar],
) -> Result<(), AllocError>
    ensures { OnOk result (out.new.items ≡ out.old.items
        ++ flat_map (spec.bar sheet.now (texts pieces.now) lines.now verdict.now) bars.now) }
{
    for bar in bars {
        put_bar(out, alloc, sheet, pieces, lines, verdict, bar)?;
    }
    Ok(())
}
