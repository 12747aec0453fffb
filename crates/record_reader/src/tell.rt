//! The race that the lines of a record describe.

ghost use Rattle.std.specs.Prelude.{◌≡◌, ◌-◌, IfOk, OnOk, slice_get, length, count_by, None, Some};
ghost use Rattle.std.specs.List.{filter_map};
ghost use Rattle.record_reader.specs.Told as spec;
ghost use Rattle.record_reader.specs.Told.{Tells, names_of};
ghost use Rattle.record_reader.specs.Numbers.{IsIndexOf, NotesLine, NotesPlace, number_by};
ghost use Rattle.record_reader.specs.Record.{AreInOrder};
ghost use Rattle.record_reader.specs.Steps.{EndsWell, TellsShape};

use crate::line::{Answer, ItemLine, LifeLine, Line, LookLine, Name};
use book_audit::{Printed, PrintedAnswer, PrintedLife, PrintedLook, PrintedPacket};
use chain_book::Shape;
use sock_card::Card;
use std::alloc::{AllocError, Global};
use std::collections::BTreeMap;

fn answer_name(answer: &Answer) -> Option<Name>
    ensures { result ≡ spec.answer_name answer.now }
{
    match answer {
        Answer::Found(_, name) => Some(*name),
        Answer::None | Answer::Again(..) => None,
    }
}

/// The name that a line contains.
fn name_in(line: &Line) -> Option<Name>
    ensures { result ≡ spec.name_in line.now }
{
    match line {
        Line::Life(life) => Some(life.name),
        Line::Packet {
            item: ItemLine::Looked(look),
            ..
        } => answer_name(&look.answer),
        _ => None,
    }
}

/// Notes where a name stands, unless it stood before.
fn note_place(index: &mut BTreeMap<Name, u32>, name: Name, place: u32) -> Result<(), AllocError>
    ensures { OnOk result (NotesPlace index.old name place index.new) }
{
    if let None = index.get(&name) {
        index.insert(name, place)?;
    }
    Ok(())
}

/// Notes where the name of a line stands, if it contains one, and gives the place of the next name.
fn note_line(index: &mut BTreeMap<Name, u32>, line: &Line, place: u32) -> Result<u32, AllocError>
    ensures { IfOk result (NotesLine index.old line.now place index.new) }
{
    let Some(name) = name_in(line) else {
        return Ok(place);
    };
    note_place(index, name, place)?;
    place.checked_add(1).ok_or(AllocError)
}

/// Where each name of the lines stands first among them.
fn index_of(alloc: Global, lines: &[Line]) -> Result<BTreeMap<Name, u32>, AllocError>
    ensures { IfOk result (λ index. IsIndexOf index (names_of lines.now)) }
{
    let mut index = BTreeMap::new(alloc);
    let mut place = 0u32;
    for line in lines {
        place = note_line(&mut index, line, place)?;
    }
    Ok(index)
}

fn number_of(index: &BTreeMap<Name, u32>, name: &Name) -> u64
    ensures { result ≡ number_by index.now name.now }
{
    u64::from(index.get(name).copied().unwrap_or(0))
}

fn life_told(index: &BTreeMap<Name, u32>, life: &LifeLine) -> PrintedLife
    ensures { result ≡ spec.life_told (number_by index.now) life.now }
{
    PrintedLife {
        bucket: life.bucket,
        slot: life.slot,
        card: Card {
            name: number_of(index, &life.name),
            ..life.card
        },
        hash: life.hash,
        unhash: life.unhash,
    }
}

fn answer_told(index: &BTreeMap<Name, u32>, answer: &Answer) -> PrintedAnswer
    ensures { result ≡ spec.answer_told (number_by index.now) answer.now }
{
    match answer {
        Answer::Found(kind, name) => PrintedAnswer::Found(*kind, number_of(index, name)),
        Answer::None => PrintedAnswer::None,
        Answer::Again(bucket, end) => PrintedAnswer::Again(*bucket, *end),
    }
}

fn look_told(index: &BTreeMap<Name, u32>, look: &LookLine) -> PrintedLook
    ensures { result ≡ spec.look_told (number_by index.now) look.now }
{
    PrintedLook {
        packet: look.packet,
        answer: answer_told(index, &look.answer),
        t0: look.t0,
        t1: look.t1,
    }
}

/// The life that a line describes, if it describes one.
fn life_in(index: &BTreeMap<Name, u32>, line: &Line) -> Option<PrintedLife>
    ensures { result ≡ spec.life_in (number_by index.now) line.now }
{
    match line {
        Line::Life(life) => Some(life_told(index, life)),
        _ => None,
    }
}

/// The packet that a line describes, if it describes one.
fn packet_in(index: &BTreeMap<Name, u32>, line: &Line) -> Option<PrintedPacket>
    ensures { result ≡ spec.packet_in (number_by index.now) line.now }
{
    match line {
        Line::Packet {
            item: ItemLine::Looked(look),
            ..
        } => Some(PrintedPacket::Looked(look_told(index, look))),
        Line::Packet { .. } => Some(PrintedPacket::Passed),
        _ => None,
    }
}

fn lives_of(
    alloc: Global,
    index: &BTreeMap<Name, u32>,
    lines: &[Line],
) -> Result<Vec<PrintedLife>, AllocError>
    ensures { IfOk result (λ lives. lives.items ≡ filter_map (spec.life_in (number_by index.now)) lines.now) }
{
    lines
        .iter()
        .filter_map(|line| life_in(index, line))
        .collect(alloc)
}

fn packets_of(
    alloc: Global,
    index: &BTreeMap<Name, u32>,
    lines: &[Line],
) -> Result<Vec<PrintedPacket>, AllocError>
    ensures { IfOk result (λ packets. packets.items ≡ filter_map (spec.packet_in (number_by index.now)) lines.now) }
{
    lines
        .iter()
        .filter_map(|line| packet_in(index, line))
        .collect(alloc)
}

fn is_vain(line: &Line) -> bool
    ensures { result ≡ spec.is_vain line.now }
{
    matches!(line, Line::Reply { vain: true })
}

/// How many replies say that a slot was sought in vain.
fn vain_in(lines: &[Line]) -> u64
    ensures { result ≡ count_by spec.is_vain lines.now }
{
    lines.iter().filter(|line| is_vain(line)).count() as u64
}

/// The shape of the tables and the seed of their hashes, which the second line gives.
fn shape_in(lines: &[Line]) -> (Shape, u32)
    requires { TellsShape lines.now }
    ensures { slice_get lines.now 1 ≡ Some (Line.Shape result.0 result.1) }
{
    match lines.get(1) {
        Some(Line::Shape { shape, seed }) => (*shape, *seed),
        _ => unreachable!(),
    }
}

/// What the clock came to, which the last line gives.
fn clock_in(lines: &[Line]) -> u64
    requires { EndsWell lines.now }
    ensures { slice_get lines.now (length lines.now - 1) ≡ Some (Line.Clock result) }
{
    match lines.last() {
        Some(Line::Clock(clock)) => *clock,
        _ => unreachable!(),
    }
}

/// The race that the lines of a record describe.
pub fn tell(alloc: Global, lines: &[Line]) -> Result<Printed, AllocError>
    requires order { AreInOrder None lines.now }
    requires ends { EndsWell lines.now }
    ensures { IfOk result (Tells lines.now) }
{
    let index = index_of(alloc, lines)?;
    let (shape, seed) = shape_in(lines);
    Ok(Printed {
        shape,
        seed,
        lives: lives_of(alloc, &index, lines)?,
        packets: packets_of(alloc, &index, lines)?,
        vain: vain_in(lines),
        clock: clock_in(lines),
    })
}
