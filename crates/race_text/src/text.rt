//! The lines of a record.

ghost use Rattle.std.specs.Prelude.{◌≡◌, ◌++◌, OnOk};
ghost use Rattle.std.specs.List.{flat_map};
ghost use Rattle.sock_script.specs.Output.{cut_text};
ghost use Rattle.race_text.specs.Render as spec;
ghost use Rattle.race_text.specs.Labelled.{label_of};

use chain_book::{Change, PacketAnswer, PassEnd, Shape};
use flat_list::End;
use race_book::Life;
use race_record::Looked;
use sock_card::{Card, Packet};
use sock_script::label::Labels;
use sock_script::output::{put, put_answer, put_dev, put_end, put_number, put_whole_card};
use std::alloc::AllocError;

/// Appends the first line.
pub fn put_race(out: &mut Vec<u8>, lookers: u32, passes: u32) -> Result<(), AllocError>
    ensures { OnOk result (out.new.items ≡ out.old.items ++ spec.race_line lookers passes) }
{
    put(out, b"race lookers ")?;
    put_number(out, u64::from(lookers))?;
    put(out, b" passes ")?;
    put_number(out, u64::from(passes))?;
    put(out, b"\n")
}

/// Appends the line of the tables' shape and of the seed of their hashes.
pub fn put_shape(out: &mut Vec<u8>, shape: &Shape, seed: u32) -> Result<(), AllocError>
    ensures { OnOk result (out.new.items ≡ out.old.items ++ spec.shape_line shape.now seed) }
{
    put(out, b"shape ")?;
    put_number(out, u64::from(shape.slots))?;
    put(out, b" ")?;
    put_number(out, u64::from(shape.bind))?;
    put(out, b" ")?;
    put_number(out, u64::from(shape.hash))?;
    put(out, b" ")?;
    put_number(out, u64::from(shape.listen))?;
    put(out, b" seed ")?;
    put_number(out, u64::from(seed))?;
    put(out, b"\n")
}

/// Appends the last line.
pub fn put_clock(out: &mut Vec<u8>, clock: u64) -> Result<(), AllocError>
    ensures { OnOk result (out.new.items ≡ out.old.items ++ spec.clock_line clock) }
{
    put(out, b"clock ")?;
    put_number(out, clock)?;
    put(out, b"\n")
}

/// Appends the line of the journal of that bucket, if it has an entry.
fn put_journal(out: &mut Vec<u8>, bucket: u64, count: u64) -> Result<(), AllocError>
    ensures { OnOk result (out.new.items ≡ out.old.items ++ spec.journal_line bucket count) }
{
    if count == 0 {
        return Ok(());
    }
    put(out, b"journal ")?;
    put_number(out, bucket)?;
    put(out, b" ")?;
    put_number(out, count)?;
    put(out, b"\n")
}

/// Appends the lines of all journals.
pub fn put_journals(out: &mut Vec<u8>, counts: &[u64]) -> Result<(), AllocError>
    ensures { OnOk result (out.new.items ≡ out.old.items ++ spec.journal_lines 0 counts.now) }
{
    for (bucket, count) in counts.iter().enumerate() {
        put_journal(out, bucket as u64, *count)?;
    }
    Ok(())
}

/// Appends a card's kind, and the section and label of its name.
fn put_card(out: &mut Vec<u8>, labels: &Labels<'_>, card: &Card) -> Result<(), AllocError>
    ensures { OnOk result (out.new.items ≡ out.old.items ++ spec.card_text (label_of labels.now) card.now) }
{
    put_answer(out, Some(*card), labels.of_name(card.name))
}

/// Appends the end of a life's line.
fn put_unhash(out: &mut Vec<u8>, unhash: &Option<Change>) -> Result<(), AllocError>
    ensures { OnOk result (out.new.items ≡ out.old.items ++ spec.unhash_text unhash.now) }
{
    let Some(change) = unhash else {
        return put(out, b"unhash -");
    };
    put(out, b"unhash ")?;
    put_number(out, change.begin)?;
    put(out, b" ")?;
    put_number(out, change.end)
}

/// Appends the stamps of a life.
fn put_span(out: &mut Vec<u8>, life: &Life) -> Result<(), AllocError>
    ensures { OnOk result (out.new.items ≡ out.old.items ++ spec.span_text life.now) }
{
    put(out, b"hash ")?;
    put_number(out, life.hash.begin)?;
    put(out, b" ")?;
    put_number(out, life.hash.end)?;
    put(out, b" ")?;
    put_unhash(out, &life.unhash)
}

/// Appends the line of a life.
fn put_life(out: &mut Vec<u8>, labels: &Labels<'_>, life: &Life) -> Result<(), AllocError>
    ensures { OnOk result (out.new.items ≡ out.old.items ++ spec.life_line (label_of labels.now) life.now) }
{
    put(out, b"life ")?;
    put_number(out, u64::from(life.hash.bucket))?;
    put(out, b" ")?;
    put_number(out, u64::from(life.hash.slot))?;
    put(out, b" ")?;
    let card = &life.hash.card;
    put_whole_card(out, card, labels.of_name(card.name))?;
    put(out, b" ")?;
    put_span(out, life)?;
    put(out, b"\n")
}

/// Appends the lines of lives.
pub fn put_lives(out: &mut Vec<u8>, labels: &Labels<'_>, lives: &[Life]) -> Result<(), AllocError>
    ensures { OnOk result (out.new.items ≡ out.old.items ++ flat_map (spec.life_line (label_of labels.now)) lives.now) }
{
    for life in lives {
        put_life(out, labels, life)?;
    }
    Ok(())
}

/// Appends how a pass ended that gave no answer.
fn put_pass_end(out: &mut Vec<u8>, end: &PassEnd) -> Result<(), AllocError>
    ensures { OnOk result (out.new.items ≡ out.old.items ++ spec.pass_end_text end.now) }
{
    match end {
        PassEnd::Foreign(bucket) => {
            put(out, b"foreign ")?;
            put_number(out, u64::from(*bucket))
        }
        PassEnd::Dead(slot) => {
            put(out, b"dead ")?;
            put_number(out, u64::from(*slot))
        }
        PassEnd::Changed(slot) => {
            put(out, b"changed ")?;
            put_number(out, u64::from(*slot))
        }
        PassEnd::Long(count) => {
            put(out, b"long ")?;
            put_number(out, u64::from(*count))
        }
    }
}

/// Appends the answer of a packet's lookup.
fn put_packet_answer(
    out: &mut Vec<u8>,
    labels: &Labels<'_>,
    answer: &PacketAnswer,
) -> Result<(), AllocError>
    ensures { OnOk result (out.new.items ≡ out.old.items ++ spec.answer_text (label_of labels.now) answer.now) }
{
    match answer {
        PacketAnswer::Found(card) => put_card(out, labels, card),
        PacketAnswer::None => put(out, b"none"),
        PacketAnswer::Again(bucket, end) => {
            put(out, b"again ")?;
            put_pass_end(out, end)?;
            put(out, b" in ")?;
            put_number(out, u64::from(*bucket))
        }
    }
}

/// Appends a packet's ends, the device by which it came, and the namespace.
fn put_packet(out: &mut Vec<u8>, packet: &Packet) -> Result<(), AllocError>
    ensures { OnOk result (out.new.items ≡ out.old.items ++ spec.packet_text packet.now) }
{
    put(out, b"from ")?;
    put_end(
        out,
        End {
            addr: packet.src,
            port: packet.sport,
        },
    )?;
    put(out, b" to ")?;
    put_end(
        out,
        End {
            addr: packet.dst,
            port: packet.dport,
        },
    )?;
    put_dev(out, packet.dev, packet.net)
}

/// Appends what came of an item.
fn put_looked(out: &mut Vec<u8>, labels: &Labels<'_>, looked: &Looked) -> Result<(), AllocError>
    ensures { OnOk result (out.new.items ≡ out.old.items ++ spec.looked_text (label_of labels.now) looked.now) }
{
    match looked {
        Looked::Answered(receipt) => {
            put_packet_answer(out, labels, &receipt.answer)?;
            put(out, b" t0 ")?;
            put_number(out, receipt.t0)?;
            put(out, b" t1 ")?;
            put_number(out, receipt.t1)?;
            put(out, b" ")?;
            put_packet(out, &receipt.packet)
        }
        Looked::Skip => put(out, b"skip"),
        Looked::Short => put(out, b"short"),
    }
}

/// Appends the line of the item of that number.
fn put_looked_line(
    out: &mut Vec<u8>,
    labels: &Labels<'_>,
    number: u64,
    looked: &Looked,
) -> Result<(), AllocError>
    ensures { OnOk result (out.new.items ≡ out.old.items ++ spec.looked_line (label_of labels.now) number looked.now) }
{
    put(out, b"packet ")?;
    put_number(out, number)?;
    put(out, b" ")?;
    put_looked(out, labels, looked)?;
    put(out, b"\n")
}

/// Appends the lines of all items.
pub fn put_looked_lines(
    out: &mut Vec<u8>,
    labels: &Labels<'_>,
    looked: &[Looked],
) -> Result<(), AllocError>
    ensures { OnOk result (out.new.items ≡ out.old.items ++ spec.looked_lines (label_of labels.now) 1 looked.now) }
{
    for (i, one) in looked.iter().enumerate() {
        put_looked_line(out, labels, i as u64 + 1, one)?;
    }
    Ok(())
}

/// Appends the line of a capture that ends in the middle of a record.
pub fn put_cut(out: &mut Vec<u8>, is_cut: bool) -> Result<(), AllocError>
    ensures { OnOk result (out.new.items ≡ out.old.items ++ cut_text is_cut) }
{
    if is_cut {
        put(out, b"cut\n")?;
    }
    Ok(())
}
