//! Records of one listener, written.

ghost use Rattle.std.specs.Prelude.{◌≡◌, IfOk};
ghost use Rattle.race_book.specs.Listed.{StampsDiffer, FitSlots};

use chain_book::{Act, Change, PacketAnswer, PassEnd, Receipt, Shape};
use flat_list::Reply;
use label_index::LabelSeed;
use race_record::Looked;
use race_text::Record;
use race_text::render::render;
use sock_card::{Card, Kind, Packet};
use sock_script::parse::{Mode, ScriptEnd, parse};
use socket_list::{Listing, Span};
use std::alloc::{AllocError, Global};
use std::process::Abort;

const SCRIPT: &[u8] = b"table slots 2 bind 1 hash 1 listen 1
script 1
socket a
bind a 10.0.0.1:80
listen a
";

/// The same, and then a dump.
const DUMP_SCRIPT: &[u8] = b"table slots 2 bind 1 hash 1 listen 1
script 1
socket a
bind a 10.0.0.1:80
listen a
dump
";

const SHAPE: Shape = Shape {
    slots: 2,
    bind: 1,
    hash: 1,
    listen: 1,
};

/// The listener in that namespace.
fn listener(net: u8) -> Card {
    Card {
        local: 0x0A00_0001,
        lport: 80,
        remote: 0,
        rport: 0,
        dev: 0,
        net,
        kind: Kind::Listen,
        name: 0x0100_0000_0000_0001,
        extra: 0,
        mark: 0,
    }
}

/// A packet to it that met it on its way in.
const LOOKED: Looked = Looked::Answered(Receipt {
    packet: Packet {
        src: 0x0A00_0002,
        sport: 1000,
        dst: 0x0A00_0001,
        dport: 80,
        dev: 0,
        net: 3,
    },
    seed: 0,
    answer: PacketAnswer::Again(1, PassEnd::Dead(0)),
    t0: 0,
    t1: 1,
});

/// The listener is hashed, and stays.
fn book(alloc: Global, net: u8) -> Result<Vec<Change>, AllocError>
    ensures slots { IfOk result (λ book. FitSlots 2 book.items) }
    ensures stamps { IfOk result (λ book. StampsDiffer book.items) }
{
    let hash = Change {
        bucket: 1,
        slot: 0,
        card: listener(net),
        act: Act::Hash,
        begin: 0,
        end: 1,
    };
    let mut book = Vec::new(alloc);
    book.push(hash)?;
    Ok(book)
}

/// What is written of that race.
fn told(alloc: Global, net: u8, looked: Vec<Looked>) -> Result<Record, AllocError>
    ensures slots { IfOk result (λ told. FitSlots told.shape.slots told.book) }
    ensures stamps { IfOk result (λ told. StampsDiffer told.book) }
{
    let book = book(alloc, net)?;
    let mut replies = Vec::new(alloc);
    replies.push(Reply::Ok)?;
    replies.push(Reply::Port(80))?;
    replies.push(Reply::Port(80))?;
    let mut journals = Vec::new(alloc);
    journals.push(3)?;
    Ok(Record {
        lookers: 1,
        passes: 1,
        shape: SHAPE,
        seed: 0,
        replies,
        listings: Vec::new(alloc),
        journals,
        book,
        looked,
        cut: false,
        clock: 2,
    })
}

/// The text of the race in that namespace, with what came of these items.
fn text_of(alloc: Global, net: u8, looked: Vec<Looked>) -> Result<Vec<u8>, ScriptEnd> {
    let script = parse(alloc, LabelSeed::fixed(), SCRIPT, Mode::Race)?;
    let told = told(alloc, net, looked)?;
    Ok(render(alloc, &script, &told)?)
}

/// Asserts what is written of a race.
fn check_text(rt: &impl Abort, text: &[u8], wanted: &[u8]) {
    assert!(rt; text == wanted);
}

/// Adds the reply to a dump, and what it lists: the listener in the namespace 3.
fn add_dump(alloc: Global, told: &mut Record) -> Result<(), AllocError>
    ensures shape { told.new.shape ≡ told.old.shape }
    ensures book { told.new.book ≡ told.old.book }
{
    told.replies.push(Reply::Ok)?;
    let mut cards = Vec::new(alloc);
    cards.push(listener(3))?;
    told.listings.push(Listing {
        cards,
        span: Some(Span { t0: 2, t1: 2 }),
    })?;
    Ok(())
}

/// The text of the race in the namespace 3, with a dump of its listener.
fn dump_text(alloc: Global) -> Result<Vec<u8>, ScriptEnd> {
    let script = parse(alloc, LabelSeed::fixed(), DUMP_SCRIPT, Mode::Race)?;
    let mut told = told(alloc, 3, Vec::new(alloc))?;
    add_dump(alloc, &mut told)?;
    Ok(render(alloc, &script, &told)?)
}

/// One packet that met the listener on its way in.
fn looked(alloc: Global) -> Result<Vec<Looked>, AllocError> {
    let mut looked = Vec::new(alloc);
    looked.push(LOOKED)?;
    Ok(looked)
}

#[test]
fn one_listener(rt: HostRuntime) -> Result<(), ScriptEnd> {
    let text = text_of(rt.alloc(), 0, Vec::new(rt.alloc()))?;
    check_text(
        &rt,
        &text,
        b"race lookers 1 passes 1
shape 2 1 1 1 seed 0
1 socket a ok
1 bind a ok 80
1 listen a ok 80
journal 0 3
life 1 0 listen 1.a 10.0.0.1:80 0.0.0.0:0 dev 0 hash 0 1 unhash -
clock 2
",
    );
    Ok(())
}

#[test]
fn a_namespace(rt: HostRuntime) -> Result<(), ScriptEnd> {
    let text = text_of(rt.alloc(), 3, looked(rt.alloc())?)?;
    check_text(
        &rt,
        &text,
        b"race lookers 1 passes 1
shape 2 1 1 1 seed 0
1 socket a ok
1 bind a ok 80
1 listen a ok 80
journal 0 3
life 1 0 listen 1.a 10.0.0.1:80 0.0.0.0:0 dev 0 net 3 hash 0 1 unhash -
packet 1 again dead 0 in 1 t0 0 t1 1 from 10.0.0.2:1000 to 10.0.0.1:80 dev 0 net 3
clock 2
",
    );
    Ok(())
}

#[test]
fn a_dump(rt: HostRuntime) -> Result<(), ScriptEnd> {
    let text = dump_text(rt.alloc())?;
    check_text(
        &rt,
        &text,
        b"race lookers 1 passes 1
shape 2 1 1 1 seed 0
1 socket a ok
1 bind a ok 80
1 listen a ok 80
1 dump 1 t0 2 t1 2
1 item listen 1.a 10.0.0.1:80 0.0.0.0:0 dev 0 net 3
journal 0 3
life 1 0 listen 1.a 10.0.0.1:80 0.0.0.0:0 dev 0 net 3 hash 0 1 unhash -
clock 2
",
    );
    Ok(())
}
