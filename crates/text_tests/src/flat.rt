//! The flat list by its own calls.
ghost use Rattle.std.specs.Prelude.{◌≡◌, ◌≤◌, ℕ, [], length};
ghost use Rattle.flat_list.specs.Sections as sections_spec;

use flat_list::owned::packet_of;
use flat_list::{
    Command, End, Flat, Header, Label, NONE_RESERVED, Options, Query, Range, Reply, Shape,
};
use sock_card::Kind;
use std::alloc::{AllocError, Global};
use std::process::Abort;

const PLAIN: Options = Options {
    net: None,
    uid: None,
    dev: None,
    reuseaddr: false,
    reuseport: false,
    noport: false,
};

const SHAPE: Shape = Shape {
    slots: 3,
    bind: 1,
    hash: 1,
    listen: 1,
};

const HEADER: Header = Header {
    shape: SHAPE,
    range: Range {
        low: 32768,
        high: 60999,
        reserved: NONE_RESERVED,
    },
    seed: 0,
    offset: None,
    twreuse: false,
};

const HERE: End = End {
    addr: 0x0A00_0001,
    port: 80,
};

const THERE: End = End {
    addr: 0x0A00_0002,
    port: 5,
};

/// From there to here.
const QUERY: Query = Query {
    from: THERE,
    to: HERE,
    dev: None,
    net: None,
};

fn label(text: &[u8]) -> Label
    requires { length text.now ≤ 16 }
{
    Label::from_bytes(text).unwrap()
}

/// Lets a socket of that section listen.
fn listen_here(flat: &mut Flat, section: u32) -> Result<Reply, AllocError>
    requires number { section ≤ 64 }
    requires fresh { flat.old.sections ≡ [] }
    ensures { (m : ℕ) → length (sections_spec.labels_of m flat.new.sections) ≤ 3 }
{
    let socket = Command::Socket {
        label: label(b"a"),
        options: PLAIN,
    };
    flat.apply(section, &socket)?;
    let bind = Command::Bind {
        label: label(b"a"),
        end: HERE,
    };
    flat.apply(section, &bind)?;
    let listen = Command::Listen { label: label(b"a") };
    flat.apply(section, &listen)
}

/// Closes section 1's socket c, and reaps a minute later.
fn close_and_reap(flat: &mut Flat) -> Result<(Reply, Reply), AllocError>
    requires { (m : ℕ) → length (sections_spec.labels_of m flat.old.sections) ≤ 4 }
    ensures { (m : ℕ) → length (sections_spec.labels_of m flat.new.sections) ≤ 7 }
{
    let close = Command::Close { label: label(b"c") };
    let closed = flat.apply(1, &close)?;
    flat.apply(1, &Command::At { moment: 60 })?;
    let reaped = flat.apply(1, &Command::Reap)?;
    Ok((closed, reaped))
}

/// Section 1's listener a accepts a socket c.
fn accept_here(flat: &mut Flat) -> Result<Reply, AllocError>
    requires { (m : ℕ) → length (sections_spec.labels_of m flat.old.sections) ≤ 3 }
    ensures { (m : ℕ) → length (sections_spec.labels_of m flat.new.sections) ≤ 4 }
{
    let accept = Command::Accept {
        listener: label(b"a"),
        label: label(b"c"),
        from: THERE,
        at: HERE,
    };
    flat.apply(1, &accept)
}

/// What kind of socket a packet from there finds here.
fn kind_found(flat: &Flat) -> Option<Kind> {
    let packet = packet_of(QUERY);
    Some(flat.look(&packet)?.kind)
}

fn check_kind(rt: &impl Abort, flat: &Flat, kind: Kind) {
    assert!(rt; kind_found(flat) == Some(kind));
}

/// Whether the socket that such a packet finds has that label.
fn finds_label(flat: &Flat, label: &[u8]) -> bool {
    let packet = packet_of(QUERY);
    match flat.look(&packet) {
        Some(card) => flat.label_of(card.name) == label,
        None => false,
    }
}

fn check_label(rt: &impl Abort, flat: &Flat, label: &[u8]) {
    assert!(rt; finds_label(flat, label));
}

fn check_reply(rt: &impl Abort, reply: Reply, expected: Reply) {
    assert!(rt; reply == expected);
}

#[test]
fn an_accepted_socket_is_found_closed_and_reaped(rt: HostRuntime) -> Result<(), AllocError> {
    let mut flat = Flat::new(rt.alloc(), &HEADER);
    check_reply(&rt, listen_here(&mut flat, 1)?, Reply::Port(80));
    check_reply(&rt, accept_here(&mut flat)?, Reply::Ok);
    check_kind(&rt, &flat, Kind::Full);
    check_label(&rt, &flat, b"c");
    let (closed, reaped) = close_and_reap(&mut flat)?;
    check_reply(&rt, closed, Reply::TimeWait);
    check_reply(&rt, reaped, Reply::Count(1));
    check_kind(&rt, &flat, Kind::Listen);
    Ok(())
}

/// Closes section 2's socket c, which a has accepted, and connects section 1's socket b to a.
fn close_and_connect(flat: &mut Flat) -> Result<(Reply, Reply), AllocError>
    requires { (m : ℕ) → length (sections_spec.labels_of m flat.old.sections) ≤ 3 }
{
    let accept = Command::Accept {
        listener: label(b"a"),
        label: label(b"c"),
        from: THERE,
        at: HERE,
    };
    flat.apply(2, &accept)?;
    let closed = flat.apply(2, &Command::Close { label: label(b"c") })?;
    let socket = Command::Socket {
        label: label(b"b"),
        options: PLAIN,
    };
    flat.apply(1, &socket)?;
    let connect = Command::Connect {
        label: label(b"b"),
        from: Some(THERE.addr),
        to: HERE,
    };
    Ok((closed, flat.apply(1, &connect)?))
}

/// All sockets that are listed, by name and kind.
fn listed(flat: &Flat, alloc: Global) -> Result<Vec<(u64, Kind)>, AllocError> {
    flat.list()?.iter().map(|c| (c.name, c.kind)).collect(alloc)
}

fn check_listed(rt: &impl Abort, listed: &[(u64, Kind)], expected: &[(u64, Kind)]) {
    assert!(rt; listed == expected);
}

#[test]
fn all_hashed_sockets_are_listed_by_name(rt: HostRuntime) -> Result<(), AllocError> {
    let mut flat = Flat::new(rt.alloc(), &HEADER);
    check_listed(&rt, &listed(&flat, rt.alloc())?, &[]);
    listen_here(&mut flat, 2)?;
    close_and_connect(&mut flat)?;
    let wanted = [
        (0x0100_0000_0000_0001, Kind::Full),
        (0x0200_0000_0000_0001, Kind::Listen),
        (0x0200_0000_0000_0002, Kind::TimeWait),
    ];
    check_listed(&rt, &listed(&flat, rt.alloc())?, &wanted);
    Ok(())
}
