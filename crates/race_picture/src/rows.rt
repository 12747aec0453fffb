//! The rows of marks: of packets, and of the lists of sockets that a `dump` gave.

ghost use Rattle.std.specs.Prelude.{◌≡◌, ◌≤◌, ◌<◌, ◌++◌, [], IfOk, IfSome, OnOk, length, nat_lt, position};
ghost use Rattle.std.specs.Option.{option_to_list};
ghost use Rattle.record_reader.specs.Words.{texts};
ghost use Rattle.race_picture.specs.Texts.{text_at};
ghost use Rattle.race_picture.specs.Rows as spec;

use book_audit::Span;
use record_reader::line::{ItemLine, Line};
use record_reader::word::{number_of, read_words};
use std::alloc::{AllocError, Global};

/// In which row the packet or the list of a line is drawn, and whether it is the first of that row.
#[derive(Clone, Copy, Debug, PartialEq, Eq)]
pub struct Mark {
    pub line: usize,
    pub row: u32,
    pub heads_row: bool,
}

/// The text of that number, from 0.
pub fn text_at<'a>(all: &[&'a [u8]], n: usize) -> &'a [u8]
    ensures { result.now ≡ text_at (texts all.now) n }
{
    match all.get(n) {
        Some(text) => text,
        None => &[],
    }
}

fn count_in(word: &[u8]) -> Option<u64>
    ensures { result ≡ spec.count_in word.now }
{
    number_of(word, 0, u64::MAX)
}

fn span_of(begin: Option<u64>, end: Option<u64>) -> Option<Span>
    ensures { result ≡ spec.span_of begin end }
{
    match (begin, end) {
        (Some(begin), Some(end)) => Some(Span { begin, end }),
        _ => None,
    }
}

fn is_dump(words: &[&[u8]]) -> bool
    ensures { result ≡ spec.is_dump (texts words.now) }
{
    words.len() == 7
        && text_at(words, 1) == b"dump".as_slice()
        && text_at(words, 3) == b"t0".as_slice()
        && text_at(words, 5) == b"t1".as_slice()
}

/// Between which loads of the clock a `dump` listed sockets, if the words say so.
fn dump_span(words: &[&[u8]]) -> Option<Span>
    ensures { result ≡ spec.dump_span (texts words.now) }
{
    if !is_dump(words) {
        return None;
    }
    span_of(count_in(text_at(words, 4)), count_in(text_at(words, 6)))
}

fn item_span(item: &ItemLine) -> Span
    ensures { result ≡ spec.item_span item.now }
{
    match item {
        ItemLine::Looked(look) => Span {
            begin: look.t0,
            end: look.t1,
        },
        _ => Span { begin: 0, end: 0 },
    }
}

/// From when until when the list lasted that a command's line says, if it says one.
#[tactic(auto, unfolding(crate::specs::Rows::list_span))]
pub fn list_span(alloc: Global, text: &[u8]) -> Result<Option<Span>, AllocError>
    ensures { IfOk result (λ span. span ≡ spec.list_span text.now) }
{
    let mut words = Vec::new(alloc);
    read_words(text, &mut words)?;
    Ok(dump_span(&words))
}

/// From when until when the packet or the list of a line lasted, if the line has one.
fn span_in(alloc: Global, text: &[u8], line: &Line) -> Result<Option<Span>, AllocError>
    ensures { IfOk result (λ span. span ≡ spec.span_in text.now line.now) }
{
    match line {
        Line::Packet { item, .. } => Ok(Some(item_span(item))),
        Line::Reply { .. } => list_span(alloc, text),
        _ => Ok(None),
    }
}

fn is_over(end: u64, begin: u64) -> bool
    ensures { result ≡ nat_lt end begin }
{
    end < begin
}

/// The place of the first row, each given by its last end, that ended before that.
fn place_open(ends: &[u64], begin: u64) -> Option<usize>
    ensures place { result ≡ position (λ end. nat_lt end begin) ends.now }
    ensures bound { IfSome result (λ place. place < length ends.now) }
{
    ends.iter().position(|end| is_over(*end, begin))
}

/// That row, else one below all.
fn first_open(ends: &[u64], begin: u64) -> usize
    ensures value { result ≡ spec.first_open ends.now begin }
    ensures bound { result ≤ length ends.now }
{
    match place_open(ends, begin) {
        Some(place) => place,
        None => ends.len(),
    }
}

/// The row for what begins then, where each row is given by its last end: one of the last `window` rows, or a new one.
fn row_for(window: usize, ends: &[u64], begin: u64) -> usize
    ensures value { result ≡ spec.row_for window ends.now begin }
    ensures bound { result ≤ length ends.now }
{
    let skipped = ends.len().saturating_sub(window);
    skipped + first_open(&ends[skipped..], begin)
}

/// Notes what ends then as the last of that row.
fn note_end(ends: &mut Vec<u64>, row: usize, end: u64) -> Result<(), AllocError>
    requires { row ≤ length ends.old.items }
    ensures { OnOk result (ends.new.items ≡ spec.ends_with ends.old.items row end) }
{
    if row < ends.len() {
        ends[row] = end;
    } else {
        ends.push(end)?;
    }
    Ok(())
}

/// Adds the mark of a line that lasts so long, if it does. There is no memory for more than `u32::MAX` rows.
fn take_mark(
    window: usize,
    at: usize,
    span: Option<Span>,
    ends: &mut Vec<u64>,
    marks: &mut Vec<Mark>,
) -> Result<(), AllocError>
    ensures marks { OnOk result (marks.new.items ≡ marks.old.items
        ++ option_to_list (spec.mark_in window at ends.old.items span)) }
    ensures ends { OnOk result (ends.new.items ≡ spec.ends_after window ends.old.items span) }
{
    let Some(span) = span else {
        return Ok(());
    };
    let row = row_for(window, ends, span.begin);
    let heads_row = row == ends.len();
    let number = u32::try_from(row).map_err(|_| AllocError)?;
    note_end(ends, row, span.end)?;
    marks.push(Mark {
        line: at,
        row: number,
        heads_row,
    })?;
    Ok(())
}

/// A mark for each packet and each list, line by line. A row is taken again where it is one of the last `window` rows.
pub fn marks_of(
    alloc: Global,
    window: usize,
    pieces: &[&[u8]],
    lines: &[Line],
) -> Result<Vec<Mark>, AllocError>
    ensures { IfOk result (λ marks. marks.items ≡ spec.marks_from window 0 [] (texts pieces.now) lines.now) }
{
    let mut marks = Vec::new(alloc);
    let mut ends = Vec::new(alloc);
    for (at, line) in lines.iter().enumerate() {
        let span = span_in(alloc, text_at(pieces, at), line)?;
        take_mark(window, at, span, &mut ends, &mut marks)?;
    }
    Ok(marks)
}

/// How many rows there are. There is no memory for more than `u32::MAX` of them.
pub fn row_count(marks: &[Mark]) -> Result<u32, AllocError>
    ensures { IfOk result (λ n. n ≡ spec.row_count marks.now) }
{
    let count = marks.iter().filter(|mark| mark.heads_row).count();
    u32::try_from(count).map_err(|_| AllocError)
}
