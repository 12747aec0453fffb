//! The picture of a race.

ghost use Rattle.std.specs.Prelude.{◌≡◌, ◌++◌, ℕ, Err, IfOk, OnOk};
ghost use Rattle.std.specs.Option.{option_copied};
ghost use Rattle.record_reader.specs.Record.{IsFirstOutside};
ghost use Rattle.record_reader.specs.Words as words;
ghost use Rattle.record_reader.specs.Words.{texts};
ghost use Rattle.race_picture.specs.Picture as spec;
ghost use Rattle.race_picture.specs.Picture.{IsPictureOf};

use crate::bars::put_bars;
use crate::frame::{
    Counts, put_clock, put_commands, put_header, put_last_fault, put_legend, put_svg_tag,
};
use crate::lanes::{Bar, Place, arranged, bars_of, lane_count};
use crate::marks::{put_links, put_marks};
use crate::rows::{Mark, marks_of, row_count};
use crate::sheet::Sheet;
use crate::xml::put;
use record_reader::audit::audit;
use record_reader::line::Line;
use record_reader::read::read;
use record_reader::{AuditEnd, ReadEnd, Verdict};
use std::alloc::{AllocError, Global};

/// The picture of a race, as the text of an SVG, and what an audit says of the race.
#[derive(Drop)]
pub struct Picture {
    pub verdict: Verdict,
    pub svg: Vec<u8>,
}

fn is_line_feed(b: u8) -> bool
    ensures { result ≡ words.is_line_feed b }
{
    b == b'\n'
}

/// Reads the lines of a text into the vector, in place of what it holds.
fn read_pieces<'a>(text: &'a [u8], pieces: &mut Vec<&'a [u8]>) -> Result<(), AllocError>
    ensures { OnOk result (texts pieces.new.items ≡ words.pieces_of text.now) }
{
    pieces.clear();
    pieces.extend(text.split(|b| is_line_feed(*b)))
}

/// The lines of a text.
fn pieces_of(alloc: Global, text: &[u8]) -> Result<Vec<&[u8]>, AllocError>
    ensures { IfOk result (λ pieces. texts pieces.items ≡ words.pieces_of text.now) }
{
    let mut pieces = Vec::new(alloc);
    read_pieces(text, &mut pieces)?;
    Ok(pieces)
}

fn is_life(line: &Line) -> bool
    ensures { result ≡ spec.is_life line.now }
{
    matches!(line, Line::Life(_))
}

fn is_packet(line: &Line) -> bool
    ensures { result ≡ spec.is_packet line.now }
{
    matches!(line, Line::Packet { .. })
}

fn is_command(line: &Line) -> bool
    ensures { result ≡ spec.is_command line.now }
{
    matches!(line, Line::Reply { .. })
}

/// What the clock came to.
fn clock_of(lines: &[Line]) -> u64
    ensures { result ≡ spec.clock_of lines.now }
{
    match lines.last() {
        Some(Line::Clock(n)) => *n,
        _ => 0,
    }
}

fn counts_of(lines: &[Line]) -> Counts
    ensures { result ≡ spec.counts_of lines.now }
{
    Counts {
        lives: lines.iter().filter(|line| is_life(line)).count() as u64,
        packets: lines.iter().filter(|line| is_packet(line)).count() as u64,
        clock: clock_of(lines),
    }
}

/// Whether a record is drawn close together and without names.
fn is_large(lines: &[Line]) -> bool
    ensures { result ≡ spec.is_large lines.now }
{
    lines.len() > 400 || lines.iter().filter(|line| is_packet(line)).count() > 100
}

fn sheet_of(lines: &[Line], bars: &[Bar], marks: &[Mark]) -> Result<Sheet, AllocError>
    ensures { IfOk result (λ s. s ≡ spec.sheet_of lines.now bars.now marks.now) }
{
    let commands = lines.iter().filter(|line| is_command(line)).count();
    Ok(Sheet {
        clock: clock_of(lines),
        lanes: lane_count(bars)?,
        rows: row_count(marks)?,
        commands: u32::try_from(commands).map_err(|_| AllocError)?,
        large: is_large(lines),
    })
}

/// Appends what stands above the bars.
#[tactic(auto, unfolding(crate::specs::Picture::front))]
fn put_front(
    out: &mut Vec<u8>,
    sheet: &Sheet,
    pieces: &[&[u8]],
    lines: &[Line],
    verdict: &Verdict,
) -> Result<(), AllocError>
    ensures { OnOk result (out.new.items
        ≡ out.old.items ++ spec.front sheet.now (texts pieces.now) lines.now verdict.now) }
{
    let counts = counts_of(lines);
    put_header(out, sheet, &counts, pieces, verdict)?;
    put_clock(out, sheet)?;
    put_last_fault(out, sheet, lines, verdict)
}

/// Appends what stands beside the bars and below the marks.
#[tactic(auto, unfolding(crate::specs::Picture::back))]
fn put_back(
    out: &mut Vec<u8>,
    sheet: &Sheet,
    pieces: &[&[u8]],
    lines: &[Line],
) -> Result<(), AllocError>
    ensures { OnOk result (out.new.items
        ≡ out.old.items ++ spec.back sheet.now (texts pieces.now) lines.now) }
{
    put_commands(out, sheet, pieces, lines)?;
    put_legend(out, sheet)
}

/// All that is drawn, where its places are known.
#[tactic(auto, unfolding(crate::specs::Picture::drawing_on))]
fn drawing_on(
    alloc: Global,
    sheet: &Sheet,
    pieces: &[&[u8]],
    lines: &[Line],
    verdict: &Verdict,
    bars: &[Bar],
    marks: &[Mark],
) -> Result<Vec<u8>, AllocError>
    ensures { IfOk result (λ svg. svg.items
        ≡ spec.drawing_on sheet.now (texts pieces.now) lines.now verdict.now bars.now marks.now) }
{
    let mut out = Vec::new(alloc);
    put_svg_tag(&mut out, sheet)?;
    put_front(&mut out, sheet, pieces, lines, verdict)?;
    put_links(&mut out, sheet, lines, bars, marks)?;
    put_bars(&mut out, alloc, sheet, pieces, lines, verdict, bars)?;
    put_marks(&mut out, alloc, sheet, pieces, lines, verdict, marks)?;
    put_back(&mut out, sheet, pieces, lines)?;
    put(&mut out, b"</svg>\n")?;
    Ok(out)
}

/// The drawing of a record's lines, by their texts, the verdict on it, and the places of its lives in their order.
#[tactic(auto, unfolding(crate::specs::Picture::drawing))]
fn drawing(
    alloc: Global,
    pieces: &[&[u8]],
    lines: &[Line],
    verdict: &Verdict,
    places: &[Place],
) -> Result<Vec<u8>, AllocError>
    ensures { IfOk result (λ svg. svg.items
        ≡ spec.drawing (texts pieces.now) lines.now verdict.now places.now) }
{
    let bars = bars_of(alloc, places)?;
    let window = if is_large(lines) { 64 } else { 0 };
    let marks = marks_of(alloc, window, pieces, lines)?;
    let sheet = sheet_of(lines, &bars, &marks)?;
    drawing_on(alloc, &sheet, pieces, lines, verdict, &bars, &marks)
}

/// Draws the picture of the race that a text records, or names the first line that keeps it from being a record.
///
/// It shows what the text says, whoever wrote it: where an audit refutes it, the line that the audit names is red.
/// Takes time and memory about in proportion to the text, and once more what an audit takes. There is no memory for
/// more than `u32::MAX` lanes or rows.
pub fn draw(alloc: Global, text: &[u8]) -> Result<Picture, AuditEnd>
    ensures drawn { IfOk result (λ p. IsPictureOf text.now p.verdict p.svg.items) }
    ensures bad { (n : ℕ) → result ≡ Err (ReadEnd.BadLine n) → IsFirstOutside text.now n }
{
    let told = read(alloc, text)?;
    let verdict = audit(alloc, text)?;
    let pieces = pieces_of(alloc, text)?;
    let places = arranged(alloc, &told.lines)?;
    let svg = drawing(alloc, &pieces, &told.lines, &verdict, &places)?;
    Ok(Picture { verdict, svg })
}
