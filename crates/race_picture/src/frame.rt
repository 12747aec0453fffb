//! What stands round the bars and marks: colours, title, clock, commands and legend.

ghost use Rattle.std.specs.Prelude.{◌≡◌, ◌≤◌, ◌<◌, ◌+◌, ◌*◌, ◌/◌, ◌-◌, ◌^◌, ◌++◌, OnOk, length, slice_get};
ghost use Rattle.std.specs.Option.{option_copied};
ghost use Rattle.record_reader.specs.Words.{texts};
ghost use Rattle.race_picture.specs.Xml.{attribute_text};
ghost use Rattle.race_picture.specs.Frame as spec;

use crate::bars::{put_why, why_at, why_word};
use crate::rows::text_at;
use crate::shapes::{Area, Point, area_of, put_line, put_rect, put_text_end, put_text_tag};
use crate::sheet::{Sheet, side_line};
use crate::xml::{put, put_count, put_escaped, put_number};
use book_audit::Why;
use record_reader::Verdict;
use record_reader::line::Line;
use sock_card::Kind;
use std::alloc::AllocError;

/// What the title tells: how many lives and packets there are, and what the clock came to.
#[derive(Clone, Copy, Debug, PartialEq, Eq)]
pub struct Counts {
    pub lives: u64,
    pub packets: u64,
    pub clock: u64,
}

#[tactic(auto, unfolding(crate::specs::Frame::light))]
fn put_light(out: &mut Vec<u8>) -> Result<(), AllocError>
    ensures { OnOk result (out.new.items ≡ out.old.items ++ spec.light) }
{
    put(
        out,
        b"text{font:12px sans-serif;fill:#222}.head{font-size:16px}.mono{font:12px monospace}.end{text-anchor:end}\
          .tick{text-anchor:middle}.page{fill:#fff}.grid{stroke:#ddd}.full{fill:#0072b2}.time-wait{fill:#e69f00}\
          .listen{fill:#009e73}.request{fill:#cc79a7}.none,.passed{fill:none;stroke:#777;stroke-width:2}\
          .passed{stroke-dasharray:2 2}.again{fill:#000}.dump{fill:#56b4e9}.link{stroke:#777;stroke-dasharray:3 3}\
          .changing{fill:url(#changing)}.hatch{stroke:#fff;stroke-width:3}.wrong{fill:#d00;stroke:#d00}\
          text.wrong{font-weight:bold;stroke:none}",
    )
}

#[tactic(auto, unfolding(crate::specs::Frame::dark))]
fn put_dark(out: &mut Vec<u8>) -> Result<(), AllocError>
    ensures { OnOk result (out.new.items ≡ out.old.items ++ spec.dark) }
{
    put(
        out,
        b"@media(prefers-color-scheme:dark){text{fill:#ddd}.page{fill:#1c1c1c}.grid{stroke:#444}.again{fill:#fff}\
          .none,.passed,.link{stroke:#999}.hatch{stroke:#1c1c1c}.wrong,text.wrong{fill:#f66;stroke:#f66}\
          text.wrong{stroke:none}}",
    )
}

#[tactic(auto, unfolding(crate::specs::Frame::style))]
fn put_style(out: &mut Vec<u8>) -> Result<(), AllocError>
    ensures { OnOk result (out.new.items ≡ out.old.items ++ spec.style) }
{
    put(out, b"<style>")?;
    put_light(out)?;
    put_dark(out)?;
    put(out, b"</style>")
}

#[tactic(auto, unfolding(crate::specs::Frame::hatching, crate::specs::Xml::attribute_text))]
fn put_hatching(out: &mut Vec<u8>) -> Result<(), AllocError>
    ensures { OnOk result (out.new.items ≡ out.old.items ++ spec.hatching) }
{
    put(
        out,
        b"<pattern id=\"changing\" width=\"6\" height=\"6\" patternUnits=\"userSpaceOnUse\">\
          <path class=\"hatch\" d=\"M-1 1l2 -2M0 6l6 -6M5 7l2 -2\"/></pattern>",
    )
}

#[tactic(auto, unfolding(crate::specs::Xml::attribute_text))]
fn put_namespace(out: &mut Vec<u8>) -> Result<(), AllocError>
    ensures { OnOk result (out.new.items ≡ out.old.items ++ attribute_text spec.namespace) }
{
    put(out, b" xmlns=\"http://www.w3.org/2000/svg\"")
}

#[tactic(auto, unfolding(crate::specs::Frame::extent))]
fn put_extent(out: &mut Vec<u8>, across: u64, down: u64) -> Result<(), AllocError>
    ensures { OnOk result (out.new.items ≡ out.old.items ++ spec.extent across down) }
{
    put(out, b"0 0 ")?;
    put_number(out, across)?;
    put(out, b" ")?;
    put_number(out, down)
}

#[tactic(auto, unfolding(crate::specs::Xml::attribute_text))]
fn put_view_box(out: &mut Vec<u8>, across: u64, down: u64) -> Result<(), AllocError>
    ensures { OnOk result (out.new.items ≡ out.old.items ++ attribute_text (spec.view_box across down)) }
{
    put(out, b" viewBox=\"")?;
    put_extent(out, across, down)?;
    put(out, b"\"")
}

/// Appends the tag of the whole.
#[tactic(auto, unfolding(crate::specs::Frame::svg_tag))]
pub fn put_svg_tag(out: &mut Vec<u8>, sheet: &Sheet) -> Result<(), AllocError>
    ensures { OnOk result (out.new.items ≡ out.old.items ++ spec.svg_tag sheet.now) }
{
    let width = sheet.width();
    let height = sheet.height();
    put(out, b"<svg")?;
    put_namespace(out)?;
    put_count(out, b"width", width)?;
    put_count(out, b"height", height)?;
    put_view_box(out, width, height)?;
    put(out, b">")
}

#[tactic(auto, unfolding(crate::specs::Frame::page))]
fn put_page(out: &mut Vec<u8>, sheet: &Sheet) -> Result<(), AllocError>
    ensures { OnOk result (out.new.items ≡ out.old.items ++ spec.page sheet.now) }
{
    let whole = Area {
        x: 0,
        y: 0,
        width: sheet.width(),
        height: sheet.height(),
        radius: 0,
    };
    put_rect(out, b"page", false, &whole)
}

fn put_test(out: &mut Vec<u8>, why: Why) -> Result<(), AllocError>
    ensures { OnOk result (out.new.items ≡ out.old.items ++ spec.test_words why) }
{
    put(out, b", ")?;
    put(out, why_word(why))
}

#[tactic(auto, unfolding(crate::specs::Frame::refuted_at))]
fn put_refuted_at(out: &mut Vec<u8>) -> Result<(), AllocError>
    ensures { OnOk result (out.new.items ≡ out.old.items ++ spec.refuted_at) }
{
    put(out, b": refuted at line ")
}

fn put_refuted(out: &mut Vec<u8>, line: u64, why: Why) -> Result<(), AllocError>
    ensures { OnOk result (out.new.items ≡ out.old.items ++ spec.refuted_words line why) }
{
    put_refuted_at(out)?;
    put_number(out, line)?;
    put_test(out, why)
}

fn put_verdict(out: &mut Vec<u8>, verdict: &Verdict) -> Result<(), AllocError>
    ensures { OnOk result (out.new.items ≡ out.old.items ++ spec.verdict_words verdict.now) }
{
    match verdict {
        Verdict::Yes { .. } => put(out, b": passes the audit"),
        Verdict::No { line, why } => put_refuted(out, *line, *why),
    }
}

#[tactic(auto, unfolding(crate::specs::Frame::counted))]
fn put_counted(out: &mut Vec<u8>, words: &[u8], n: u64) -> Result<(), AllocError>
    ensures { OnOk result (out.new.items ≡ out.old.items ++ spec.counted words.now n) }
{
    put(out, words)?;
    put_number(out, n)
}

fn put_counts(out: &mut Vec<u8>, counts: &Counts) -> Result<(), AllocError>
    ensures { OnOk result (out.new.items ≡ out.old.items ++ spec.counts_words counts.now) }
{
    put_counted(out, b"Race: lives ", counts.lives)?;
    put_counted(out, b", packets ", counts.packets)?;
    put_counted(out, b", clock ", counts.clock)
}

#[tactic(auto, unfolding(crate::specs::Frame::heading))]
fn put_heading(out: &mut Vec<u8>, counts: &Counts, verdict: &Verdict) -> Result<(), AllocError>
    ensures { OnOk result (out.new.items ≡ out.old.items ++ spec.heading counts.now verdict.now) }
{
    put_counts(out, counts)?;
    put_verdict(out, verdict)
}

fn is_refuted(verdict: &Verdict) -> bool
    ensures { result ≡ spec.is_refuted verdict.now }
{
    match verdict {
        Verdict::Yes { .. } => false,
        Verdict::No { .. } => true,
    }
}

#[tactic(auto, unfolding(crate::specs::Frame::large_words))]
fn put_large_words(out: &mut Vec<u8>) -> Result<(), AllocError>
    ensures { OnOk result (out.new.items ≡ out.old.items ++ spec.large_words) }
{
    put(
        out,
        b"More than 400 lines or 100 packets: drawn close together, without names and commands. \
          A pointer on a shape shows its line.",
    )
}

#[tactic(auto, unfolding(crate::specs::Frame::large_note))]
fn put_large_note(out: &mut Vec<u8>, sheet: &Sheet) -> Result<(), AllocError>
    ensures { OnOk result (out.new.items ≡ out.old.items ++ spec.large_note sheet.now) }
{
    if !sheet.large {
        return Ok(());
    }
    put_text_tag(out, b"name", false, Point { x: 20, y: 62 })?;
    put_large_words(out)?;
    put_text_end(out)
}

#[tactic(auto, unfolding(crate::specs::Frame::window_title))]
fn put_window_title(out: &mut Vec<u8>, counts: &Counts, verdict: &Verdict) -> Result<(), AllocError>
    ensures { OnOk result (out.new.items ≡ out.old.items ++ spec.window_title counts.now verdict.now) }
{
    put(out, b"<title>")?;
    put_heading(out, counts, verdict)?;
    put(out, b"</title>")
}

#[tactic(auto, unfolding(crate::specs::Frame::page_title))]
fn put_page_title(out: &mut Vec<u8>, counts: &Counts, verdict: &Verdict) -> Result<(), AllocError>
    ensures { OnOk result (out.new.items ≡ out.old.items ++ spec.page_title counts.now verdict.now) }
{
    put_text_tag(out, b"head", is_refuted(verdict), Point { x: 20, y: 26 })?;
    put_heading(out, counts, verdict)?;
    put_text_end(out)
}

#[tactic(auto, unfolding(crate::specs::Frame::first_lines))]
fn put_first_lines(out: &mut Vec<u8>, pieces: &[&[u8]]) -> Result<(), AllocError>
    ensures { OnOk result (out.new.items ≡ out.old.items ++ spec.first_lines (texts pieces.now)) }
{
    put_text_tag(out, b"mono", false, Point { x: 20, y: 46 })?;
    put_escaped(out, text_at(pieces, 0))?;
    put(out, b"; ")?;
    put_escaped(out, text_at(pieces, 1))?;
    put_text_end(out)
}

/// Appends the title, for the window and on the page, and the record's first two lines.
#[tactic(auto, unfolding(crate::specs::Frame::header))]
pub fn put_header(
    out: &mut Vec<u8>,
    sheet: &Sheet,
    counts: &Counts,
    pieces: &[&[u8]],
    verdict: &Verdict,
) -> Result<(), AllocError>
    ensures { OnOk result (out.new.items
        ≡ out.old.items ++ spec.header sheet.now counts.now (texts pieces.now) verdict.now) }
{
    put_window_title(out, counts, verdict)?;
    put_style(out)?;
    put_hatching(out)?;
    put_page(out, sheet)?;
    put_page_title(out, counts, verdict)?;
    put_first_lines(out, pieces)?;
    put_large_note(out, sheet)?;
    put(out, b"\n")
}

/// One in how many numbers has a line.
fn unit(clock: u64) -> u64
    ensures { result ≡ clock / 20 + 1 }
{
    clock / 20 + 1
}

/// The number of a line that has so many before it.
fn tick_number(sheet: &Sheet, k: u64) -> u64
    requires { k ≤ sheet.now.clock / spec.unit sheet.now }
    ensures { result ≡ k * spec.unit sheet.now }
{
    k * unit(sheet.clock)
}

#[tactic(auto, unfolding(crate::specs::Frame::tick))]
fn put_tick(out: &mut Vec<u8>, sheet: &Sheet, n: u64) -> Result<(), AllocError>
    ensures { OnOk result (out.new.items ≡ out.old.items ++ spec.tick sheet.now n) }
{
    let x = sheet.x_of(n);
    let below = Point {
        x,
        y: sheet.bottom(),
    };
    put_line(out, b"grid", false, Point { x, y: 82 }, below)?;
    put_text_tag(out, b"tick", false, Point { x, y: 76 })?;
    put_number(out, n)?;
    put_text_end(out)
}

/// Appends so many lines of numbers, from the clock's beginning.
fn put_ticks(out: &mut Vec<u8>, sheet: &Sheet, count: u64) -> Result<(), AllocError>
    requires { count ≤ sheet.now.clock / spec.unit sheet.now + 1 }
    ensures { OnOk result (out.new.items ≡ out.old.items ++ spec.ticks sheet.now count) }
{
    for k in 0..count {
        put_tick(out, sheet, tick_number(sheet, k))?;
    }
    Ok(())
}

/// Appends the clock.
#[tactic(auto, unfolding(crate::specs::Frame::clock))]
pub fn put_clock(out: &mut Vec<u8>, sheet: &Sheet) -> Result<(), AllocError>
    ensures { OnOk result (out.new.items ≡ out.old.items ++ spec.clock sheet.now) }
{
    put_text_tag(out, b"end", false, Point { x: 130, y: 76 })?;
    put(out, b"clock")?;
    put_text_end(out)?;
    put_ticks(out, sheet, sheet.clock / unit(sheet.clock) + 1)?;
    put(out, b"\n")
}

/// Appends the line of a clock that fails that test.
#[tactic(auto, unfolding(crate::specs::Frame::wrong_clock))]
fn put_wrong_clock(out: &mut Vec<u8>, sheet: &Sheet, n: u64, why: Why) -> Result<(), AllocError>
    ensures { OnOk result (out.new.items ≡ out.old.items ++ spec.wrong_clock sheet.now n why) }
{
    let x = sheet.x_of(sheet.clock);
    let below = Point {
        x,
        y: sheet.bottom(),
    };
    put_line(out, b"wrong", true, Point { x, y: 82 }, below)?;
    put_text_tag(out, b"name", true, Point { x: x + 20, y: 76 })?;
    put(out, b"clock ")?;
    put_number(out, n)?;
    put_why(out, Some(why))?;
    put_text_end(out)?;
    put(out, b"\n")
}

fn put_clock_fault(
    out: &mut Vec<u8>,
    sheet: &Sheet,
    line: Option<&Line>,
    why: Option<Why>,
) -> Result<(), AllocError>
    ensures { OnOk result (out.new.items
        ≡ out.old.items ++ spec.clock_fault sheet.now (option_copied line.entry) why) }
{
    match (line, why) {
        (Some(Line::Clock(n)), Some(why)) => put_wrong_clock(out, sheet, *n, why),
        _ => Ok(()),
    }
}

/// Appends the line of the clock in red, where it fails the test.
#[tactic(auto, unfolding(crate::specs::Frame::last_fault))]
pub fn put_last_fault(
    out: &mut Vec<u8>,
    sheet: &Sheet,
    lines: &[Line],
    verdict: &Verdict,
) -> Result<(), AllocError>
    ensures { OnOk result (out.new.items ≡ out.old.items ++ spec.last_fault sheet.now lines.now verdict.now) }
{
    let last = lines.len().saturating_sub(1);
    put_clock_fault(out, sheet, lines.get(last), why_at(verdict, last))
}

fn put_command(
    out: &mut Vec<u8>,
    sheet: &Sheet,
    at: usize,
    text: &[u8],
    line: &Line,
) -> Result<(), AllocError>
    ensures { OnOk result (out.new.items ≡ out.old.items ++ spec.command sheet.now at text.now line.now) }
{
    let Line::Reply { .. } = line else {
        return Ok(());
    };
    let begin = Point {
        x: sheet.side(),
        y: side_line(at as u64),
    };
    put_text_tag(out, b"mono", false, begin)?;
    put_escaped(out, text)?;
    put_text_end(out)?;
    put(out, b"\n")
}

fn put_command_lines(
    out: &mut Vec<u8>,
    sheet: &Sheet,
    pieces: &[&[u8]],
    lines: &[Line],
) -> Result<(), AllocError>
    ensures { OnOk result (out.new.items
        ≡ out.old.items ++ spec.commands_from sheet.now (texts pieces.now) 0 lines.now) }
{
    for (at, line) in lines.iter().enumerate() {
        put_command(out, sheet, at, text_at(pieces, at), line)?;
    }
    Ok(())
}

/// Appends the commands with their replies, where they are drawn.
#[tactic(auto, unfolding(crate::specs::Frame::commands))]
pub fn put_commands(
    out: &mut Vec<u8>,
    sheet: &Sheet,
    pieces: &[&[u8]],
    lines: &[Line],
) -> Result<(), AllocError>
    ensures { OnOk result (out.new.items
        ≡ out.old.items ++ spec.commands sheet.now (texts pieces.now) lines.now) }
{
    if sheet.large {
        return Ok(());
    }
    let begin = Point {
        x: sheet.side(),
        y: side_line(1),
    };
    put_text_tag(out, b"name", false, begin)?;
    put(out, b"commands and replies")?;
    put_text_end(out)?;
    put(out, b"\n")?;
    put_command_lines(out, sheet, pieces, lines)
}

#[tactic(auto, unfolding(crate::specs::Frame::sample))]
fn put_sample(
    out: &mut Vec<u8>,
    sheet: &Sheet,
    x: u64,
    class: &[u8],
    kind: Kind,
    text: &[u8],
) -> Result<(), AllocError>
    requires { x < 1000 }
    ensures { OnOk result (out.new.items ≡ out.old.items ++ spec.sample sheet.now x class.now kind text.now) }
{
    let y = sheet.bottom() + 30;
    put_rect(out, class, false, &area_of(kind, Point { x, y }, 30, 12))?;
    put_text_tag(
        out,
        b"name",
        false,
        Point {
            x: x + 36,
            y: y + 10,
        },
    )?;
    put(out, text)?;
    put_text_end(out)
}

/// Appends the legend.
#[tactic(auto, unfolding(crate::specs::Frame::legend))]
pub fn put_legend(out: &mut Vec<u8>, sheet: &Sheet) -> Result<(), AllocError>
    ensures { OnOk result (out.new.items ≡ out.old.items ++ spec.legend sheet.now) }
{
    put_sample(out, sheet, 20, b"full", Kind::Full, b"connected")?;
    put_sample(out, sheet, 134, b"time-wait", Kind::TimeWait, b"TIME_WAIT")?;
    put_sample(out, sheet, 248, b"listen", Kind::Listen, b"listener")?;
    put_sample(out, sheet, 352, b"request", Kind::Request, b"request")?;
    put_sample(out, sheet, 456, b"none", Kind::Full, b"none found")?;
    put_sample(out, sheet, 576, b"again", Kind::Listen, b"given up")?;
    put_sample(out, sheet, 680, b"dump", Kind::Listen, b"list")?;
    let under = Point {
        x: 764,
        y: sheet.bottom() + 30,
    };
    put_rect(out, b"listen", false, &area_of(Kind::Listen, under, 30, 12))?;
    put_sample(out, sheet, 764, b"changing", Kind::Listen, b"change")?;
    put(out, b"\n")
}
