//! A script of lookups alone, which needs no machine, and one that lists a listener.

ghost use Rattle.std.specs.Prelude.{◌≡◌, length, IfOk};

use capture_reader::Capture;
use flat_list::{
    Command, End, Header, KeptCommand, Label, NONE_RESERVED, Options, Query, Range, Script, Shape,
};
use label_index::LabelSeed;
use race_run::run;
use sock_card::{Card, Kind};
use sock_script::output::text;
use std::alloc::{AllocError, Global};
use std::test::Fail;

const HEADER: Header = Header {
    shape: Shape {
        slots: 4,
        bind: 2,
        hash: 4,
        listen: 2,
    },
    range: Range {
        low: 40000,
        high: 40003,
        reserved: NONE_RESERVED,
    },
    seed: 7,
    offset: None,
    twreuse: false,
};

const HERE: End = End {
    addr: 0x0A00_0001,
    port: 80,
};

const THERE: End = End {
    addr: 0x0A00_0002,
    port: 1000,
};

/// A section with one lookup.
fn looking(alloc: Global) -> Result<Vec<KeptCommand>, AllocError>
    ensures { IfOk result (λ section. length section.items ≡ 1) }
{
    let query = Query {
        from: THERE,
        to: HERE,
        dev: None,
        net: None,
    };
    let look = Command::Look { query };
    let mut section = Vec::new(alloc);
    section.push(KeptCommand::of(alloc, &look)?)?;
    Ok(section)
}

/// A section in which a socket listens, and all are listed.
fn listening(alloc: Global) -> Result<Vec<KeptCommand>, AllocError>
    ensures { IfOk result (λ section. length section.items ≡ 4) }
{
    let label = Label::from_bytes(b"a").unwrap();
    let options = Options {
        net: None,
        uid: None,
        dev: None,
        reuseaddr: false,
        reuseport: false,
        noport: false,
    };
    let mut section = Vec::new(alloc);
    section.push(KeptCommand::of(alloc, &Command::Socket { label, options })?)?;
    section.push(KeptCommand::of(alloc, &Command::Bind { label, end: HERE })?)?;
    section.push(KeptCommand::of(alloc, &Command::Listen { label })?)?;
    section.push(KeptCommand::of(alloc, &Command::Dump)?)?;
    Ok(section)
}

#[test]
fn nothing_is_found_in_new_tables(rt: HostRuntime) -> Result<(), Fail> {
    let alloc = rt.alloc();
    let mut sections = Vec::new(alloc);
    sections.push(looking(alloc)?)?;
    let script = Script::new(HEADER, sections, None);
    let capture = Capture::new(alloc);
    let replies = run(&rt, alloc, LabelSeed::fixed(), &script, &capture)?;
    let lines = text(alloc, &script, &capture, &replies.each, &replies.listings)?;
    assert!(rt; lines.as_slice() == b"1 look none\n".as_slice());
    Ok(())
}

#[test]
fn a_listener_is_listed(rt: HostRuntime) -> Result<(), Fail> {
    let alloc = rt.alloc();
    let mut sections = Vec::new(alloc);
    sections.push(listening(alloc)?)?;
    let script = Script::new(HEADER, sections, None);
    let capture = Capture::new(alloc);
    let replies = run(&rt, alloc, LabelSeed::fixed(), &script, &capture)?;
    let card = Card {
        local: HERE.addr,
        lport: HERE.port,
        remote: 0,
        rport: 0,
        dev: 0,
        net: 0,
        kind: Kind::Listen,
        name: 0x0100_0000_0000_0001,
        extra: 0,
        mark: 0,
    };
    let told = replies
        .listings
        .first()
        .map(|l| (l.cards.len(), l.cards.first().copied(), l.span));
    assert_eq!(rt; told, Some((1, Some(card), None)));
    let lines = text(alloc, &script, &capture, &replies.each, &replies.listings)?;
    let wanted = b"1 socket a ok\n1 bind a ok 80\n1 listen a ok 80\n1 dump 1\n\
          1 item listen 1.a 10.0.0.1:80 0.0.0.0:0 dev 0\n";
    assert!(rt; lines.as_slice() == wanted.as_slice());
    Ok(())
}
