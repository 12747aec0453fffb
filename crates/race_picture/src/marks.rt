//! How a packet is drawn, and the list of a `dump`.

ghost use Rattle.std.specs.Prelude.{◌≡◌, ◌≤◌, ◌<◌, ◌+◌, ◌^◌, ◌++◌, OnOk, position};
ghost use Rattle.std.specs.List.{flat_map};
ghost use Rattle.std.specs.Option.{option_copied};
ghost use Rattle.sock_card.specs.Kinds as kinds;
ghost use Rattle.record_reader.specs.Names.{same_name as are_same};
ghost use Rattle.record_reader.specs.Words.{texts};
ghost use Rattle.race_picture.specs.Marks as spec;

use crate::bars::{is_named, put_why, why_at};
use crate::lanes::Bar;
use crate::rows::{Mark, list_span, text_at};
use crate::shapes::{
    Area, Point, area_of, kind_word, put_line, put_rect, put_text_end, put_text_tag, put_title,
};
use crate::sheet::Sheet;
use crate::xml::{put, put_escaped};
use book_audit::{Span, Why};
use record_reader::Verdict;
use record_reader::line::{Answer, ItemLine, Line, LookLine, Name};
use record_reader::word::read_words;
use sock_card::Kind;
use std::alloc::{AllocError, Global};

/// The life that a packet found: its lane, and when its hash began.
#[derive(Clone, Copy, Debug, PartialEq, Eq)]
pub struct Found {
    pub lane: u32,
    pub begin: u64,
}

fn answer_word(answer: &Answer) -> &'static [u8]
    ensures { result.now ≡ spec.answer_word answer.now }
{
    match answer {
        Answer::Found(kind, _) => kind_word(*kind),
        Answer::None => b"none",
        Answer::Again(..) => b"again",
    }
}

fn answer_kind(answer: &Answer) -> Kind
    ensures { result ≡ spec.answer_kind answer.now }
{
    match answer {
        Answer::Found(kind, _) => *kind,
        Answer::None => Kind::Full,
        Answer::Again(..) => Kind::Listen,
    }
}

fn same_kind(a: Kind, b: Kind) -> bool
    ensures { result ≡ kinds.same_kind a b }
{
    matches!(
        (a, b),
        (Kind::Full, Kind::Full)
            | (Kind::TimeWait, Kind::TimeWait)
            | (Kind::Listen, Kind::Listen)
            | (Kind::Request, Kind::Request)
    )
}

fn same_name(a: &Name, b: &Name) -> bool
    ensures { result ≡ are_same a.now b.now }
{
    a.section == b.section && a.high == b.high && a.low == b.low && a.length == b.length
}

fn is_found(kind: Kind, name: &Name, line: Option<&Line>) -> bool
    ensures { result ≡ spec.is_found kind name.now (option_copied line.entry) }
{
    match line {
        Some(Line::Life(life)) => same_kind(kind, life.card.kind) && same_name(name, &life.name),
        _ => false,
    }
}

fn is_bar_found(kind: Kind, name: &Name, lines: &[Line], bar: &Bar) -> bool
    ensures { result ≡ spec.is_bar_found kind name.now lines.now bar.now }
{
    is_found(kind, name, lines.get(bar.line))
}

/// The place of the first bar of a life of that kind and name.
fn place_found(kind: Kind, name: &Name, lines: &[Line], bars: &[Bar]) -> Option<usize>
    ensures { result ≡ position (spec.is_bar_found kind name.now lines.now) bars.now }
{
    bars.iter()
        .position(|bar| is_bar_found(kind, name, lines, bar))
}

/// When the hash of a life began.
fn begin_of(line: Option<&Line>) -> u64
    ensures { result ≡ spec.begin_of (option_copied line.entry) }
{
    match line {
        Some(Line::Life(life)) => life.hash.begin,
        _ => 0,
    }
}

fn found_of(lines: &[Line], bar: Option<&Bar>) -> Option<Found>
    ensures { result ≡ spec.found_of lines.now (option_copied bar.entry) }
{
    match bar {
        None => None,
        Some(bar) => Some(Found {
            lane: bar.lane,
            begin: begin_of(lines.get(bar.line)),
        }),
    }
}

fn found_at(lines: &[Line], bars: &[Bar], place: Option<usize>) -> Option<Found>
    ensures { result ≡ spec.found_at lines.now bars.now place }
{
    match place {
        None => None,
        Some(place) => found_of(lines, bars.get(place)),
    }
}

/// What is known of the first bar of a life of that kind and name.
fn found_among(kind: Kind, name: &Name, lines: &[Line], bars: &[Bar]) -> Option<Found>
    ensures { result ≡ spec.found_among kind name.now lines.now bars.now }
{
    found_at(lines, bars, place_found(kind, name, lines, bars))
}

/// The life that an answer names, if it names one.
fn found_by(answer: &Answer, lines: &[Line], bars: &[Bar]) -> Option<Found>
    ensures { result ≡ spec.found_by answer.now lines.now bars.now }
{
    match answer {
        Answer::Found(kind, name) => found_among(*kind, name, lines, bars),
        _ => None,
    }
}

/// Where a mark begins to be drawn that begins at that number.
fn mark_at(sheet: &Sheet, mark: &Mark, n: u64) -> Point
    ensures value { result ≡ spec.mark_at sheet.now mark.now n }
    ensures across { result.x ≤ 9750 }
    ensures down { result.y < 2 ^ 42 }
{
    Point {
        x: sheet.x_of(n),
        y: sheet.row_top(mark.row) + sheet.mark_drop(),
    }
}

/// Appends the line from the mark of a lookup that began then to the life that it found, if it found one.
fn put_link_to(
    out: &mut Vec<u8>,
    sheet: &Sheet,
    mark: &Mark,
    t0: u64,
    found: Option<Found>,
) -> Result<(), AllocError>
    ensures { OnOk result (out.new.items ≡ out.old.items ++ spec.link_to sheet.now mark.now t0 found) }
{
    let Some(found) = found else {
        return Ok(());
    };
    let x = sheet.x_of(t0.max(found.begin)) + 2 + 2 * u64::from(mark.row % 4);
    let from = Point {
        x,
        y: sheet.row_top(mark.row) + sheet.mark_drop(),
    };
    let to = Point {
        x,
        y: sheet.lane_top(found.lane) + 26,
    };
    put_line(out, b"link", false, from, to)?;
    put(out, b"\n")
}

/// Appends the line from a packet to the life that it found.
fn put_link(
    out: &mut Vec<u8>,
    sheet: &Sheet,
    mark: &Mark,
    lines: &[Line],
    bars: &[Bar],
) -> Result<(), AllocError>
    ensures { OnOk result (out.new.items ≡ out.old.items ++ spec.link sheet.now lines.now bars.now mark.now) }
{
    match lines.get(mark.line) {
        Some(
            Line::Packet {
                item: ItemLine::Looked(look),
                ..
            },
        ) => {
            let found = found_by(&look.answer, lines, bars);
            put_link_to(out, sheet, mark, look.t0, found)
        }
        _ => Ok(()),
    }
}

/// Appends the lines from packets to the lives that they found, where names are drawn.
#[tactic(auto, unfolding(crate::specs::Marks::links))]
pub fn put_links(
    out: &mut Vec<u8>,
    sheet: &Sheet,
    lines: &[Line],
    bars: &[Bar],
    marks: &[Mark],
) -> Result<(), AllocError>
    ensures { OnOk result (out.new.items ≡ out.old.items ++ spec.links sheet.now lines.now bars.now marks.now) }
{
    if sheet.large {
        return Ok(());
    }
    for mark in marks {
        put_link(out, sheet, mark, lines, bars)?;
    }
    Ok(())
}

fn put_word(out: &mut Vec<u8>, words: &[&[u8]], n: usize) -> Result<(), AllocError>
    ensures { OnOk result (out.new.items ≡ out.old.items ++ spec.word (texts words.now) n) }
{
    put(out, b" ")?;
    put_escaped(out, text_at(words, n))
}

/// Appends the words of an answer behind the first one.
fn put_more_of(out: &mut Vec<u8>, words: &[&[u8]], answer: &Answer) -> Result<(), AllocError>
    ensures { OnOk result (out.new.items ≡ out.old.items ++ spec.more_of (texts words.now) answer.now) }
{
    match answer {
        Answer::Found(..) => put_word(out, words, 3),
        Answer::None => Ok(()),
        Answer::Again(..) => {
            put_word(out, words, 3)?;
            put_word(out, words, 4)
        }
    }
}

/// Appends what a packet's line says of it: which it is, and what came of it.
fn put_item_words(out: &mut Vec<u8>, words: &[&[u8]], item: &ItemLine) -> Result<(), AllocError>
    ensures { OnOk result (out.new.items ≡ out.old.items ++ spec.item_words (texts words.now) item.now) }
{
    put_word(out, words, 0)?;
    put_word(out, words, 1)?;
    put_word(out, words, 2)?;
    match item {
        ItemLine::Looked(look) => put_more_of(out, words, &look.answer),
        _ => Ok(()),
    }
}

/// Appends these words of a packet's line, where they are drawn.
fn put_label(
    out: &mut Vec<u8>,
    alloc: Global,
    named: bool,
    text: &[u8],
    why: Option<Why>,
    item: &ItemLine,
    at: Point,
) -> Result<(), AllocError>
    ensures { OnOk result (out.new.items ≡ out.old.items ++ spec.label named text.now why item.now at) }
{
    if !named {
        return Ok(());
    }
    let mut words = Vec::new(alloc);
    read_words(text, &mut words)?;
    put_text_tag(out, b"name", why.is_some(), at)?;
    put_item_words(out, &words, item)?;
    put_why(out, why)?;
    put_text_end(out)
}

fn passed_area(sheet: &Sheet, mark: &Mark) -> Area
    ensures { result ≡ spec.passed_area sheet.now mark.now }
{
    let at = Point {
        x: 110,
        y: sheet.row_top(mark.row) + sheet.mark_drop(),
    };
    area_of(Kind::Listen, at, sheet.mark_height(), sheet.mark_height())
}

fn looked_area(sheet: &Sheet, mark: &Mark, look: &LookLine) -> Area
    ensures { result ≡ spec.looked_area sheet.now mark.now look.now }
{
    let width = sheet.across(look.t0, look.t1) + sheet.mark_height();
    let at = mark_at(sheet, mark, look.t0);
    area_of(answer_kind(&look.answer), at, width, sheet.mark_height())
}

/// Appends the mark of a packet.
fn put_shape(
    out: &mut Vec<u8>,
    sheet: &Sheet,
    wrong: bool,
    mark: &Mark,
    item: &ItemLine,
) -> Result<(), AllocError>
    ensures { OnOk result (out.new.items ≡ out.old.items ++ spec.shape sheet.now wrong mark.now item.now) }
{
    match item {
        ItemLine::Looked(look) => put_rect(
            out,
            answer_word(&look.answer),
            wrong,
            &looked_area(sheet, mark, look),
        ),
        ItemLine::Skip | ItemLine::Short => {
            put_rect(out, b"passed", wrong, &passed_area(sheet, mark))
        }
    }
}

/// Where the words of a packet begin.
fn label_at(sheet: &Sheet, mark: &Mark, item: &ItemLine) -> Point
    ensures { result ≡ spec.label_at sheet.now mark.now item.now }
{
    let y = sheet.row_top(mark.row) + 13;
    match item {
        ItemLine::Looked(look) => Point {
            x: sheet.x_of(look.t0) + sheet.across(look.t0, look.t1) + sheet.mark_height() + 6,
            y,
        },
        ItemLine::Skip | ItemLine::Short => Point {
            x: 110 + sheet.mark_height() + 6,
            y,
        },
    }
}

/// Appends the group of what stands for a packet.
#[tactic(auto, unfolding(crate::specs::Marks::packet))]
fn put_packet(
    out: &mut Vec<u8>,
    alloc: Global,
    sheet: &Sheet,
    text: &[u8],
    why: Option<Why>,
    mark: &Mark,
    item: &ItemLine,
) -> Result<(), AllocError>
    ensures { OnOk result (out.new.items ≡ out.old.items ++ spec.packet sheet.now text.now why mark.now item.now) }
{
    put(out, b"<g>")?;
    put_title(out, text)?;
    put_shape(out, sheet, why.is_some(), mark, item)?;
    let named = is_named(sheet, why);
    put_label(
        out,
        alloc,
        named,
        text,
        why,
        item,
        label_at(sheet, mark, item),
    )?;
    put(out, b"</g>\n")
}

/// Appends the section and the verb of a list, where names are drawn.
fn put_list_name(
    out: &mut Vec<u8>,
    alloc: Global,
    sheet: &Sheet,
    text: &[u8],
    mark: &Mark,
) -> Result<(), AllocError>
    ensures { OnOk result (out.new.items ≡ out.old.items ++ spec.list_name sheet.now text.now mark.now) }
{
    if sheet.large {
        return Ok(());
    }
    let mut words = Vec::new(alloc);
    read_words(text, &mut words)?;
    let y = sheet.row_top(mark.row) + 13;
    put_text_tag(out, b"end", false, Point { x: 130, y })?;
    put_word(out, &words, 0)?;
    put_word(out, &words, 1)?;
    put_text_end(out)
}

/// Appends the group of what stands for the list of a `dump`, if the line has one.
#[tactic(auto, unfolding(crate::specs::Marks::list_group))]
fn put_list(
    out: &mut Vec<u8>,
    alloc: Global,
    sheet: &Sheet,
    text: &[u8],
    mark: &Mark,
    span: &Span,
) -> Result<(), AllocError>
    ensures { OnOk result (out.new.items ≡ out.old.items ++ spec.list_group sheet.now text.now mark.now span.now) }
{
    let width = sheet.across(span.begin, span.end) + sheet.mark_height();
    let at = mark_at(sheet, mark, span.begin);
    put(out, b"<g>")?;
    put_title(out, text)?;
    put_rect(
        out,
        b"dump",
        false,
        &area_of(Kind::Listen, at, width, sheet.mark_height()),
    )?;
    put_list_name(out, alloc, sheet, text, mark)?;
    put(out, b"</g>\n")
}

fn put_list_of(
    out: &mut Vec<u8>,
    alloc: Global,
    sheet: &Sheet,
    text: &[u8],
    mark: &Mark,
) -> Result<(), AllocError>
    ensures { OnOk result (out.new.items ≡ out.old.items ++ spec.list_of sheet.now text.now mark.now) }
{
    match list_span(alloc, text)? {
        None => Ok(()),
        Some(span) => put_list(out, alloc, sheet, text, mark, &span),
    }
}

/// Appends what stands for the packet or the list of a line.
fn put_mark_of(
    out: &mut Vec<u8>,
    alloc: Global,
    sheet: &Sheet,
    text: &[u8],
    why: Option<Why>,
    mark: &Mark,
    line: Option<&Line>,
) -> Result<(), AllocError>
    ensures { OnOk result (out.new.items
        ≡ out.old.items ++ spec.mark_of sheet.now text.now why mark.now (option_copied line.entry)) }
{
    match line {
        Some(Line::Packet { item, .. }) => put_packet(out, alloc, sheet, text, why, mark, item),
        Some(Line::Reply { .. }) => put_list_of(out, alloc, sheet, text, mark),
        _ => Ok(()),
    }
}

/// Appends what stands for a packet or a list.
#[tactic(auto, unfolding(crate::specs::Marks::mark))]
fn put_mark(
    out: &mut Vec<u8>,
    alloc: Global,
    sheet: &Sheet,
    pieces: &[&[u8]],
    lines: &[Line],
    verdict: &Verdict,
    mark: &Mark,
) -> Result<(), AllocError>
    ensures { OnOk result (out.new.items ≡ out.old.items
        ++ spec.mark sheet.now (texts pieces.now) lines.now verdict.now mark.now) }
{
    let text = text_at(pieces, mark.line);
    let why = why_at(verdict, mark.line);
    put_mark_of(out, alloc, sheet, text, why, mark, lines.get(mark.line))
}

/// Appends the marks of all packets and lists.
pub fn put_marks(
    out: &mut Vec<u8>,
    alloc: Global,
    sheet: &Sheet,
    pieces: &[&[u8]],
    lines: &[Line],
    verdict: &Verdict,
    marks: &[Mark],
) -> Result<(), AllocError>
    ensures { OnOk result (out.new.items ≡ out.old.items
        ++ flat_map (spec.mark sheet.now (texts pieces.now) lines.now verdict.now) marks.now) }
{
    for mark in marks {
        put_mark(out, alloc, sheet, pieces, lines, verdict, mark)?;
    }
    Ok(())
}
