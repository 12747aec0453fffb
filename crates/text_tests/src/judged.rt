//! Races that break each rule, and some that break none.

ghost use Rattle.std.specs.Prelude.{◌≡◌, IfOk};

use book_audit::judge::judge;
use book_audit::printed::{
    Finding, Printed, PrintedAnswer, PrintedEnd, PrintedLife, PrintedLook, PrintedPacket, Span, Why,
};
use chain_book::Shape;
use sock_card::{Card, Kind, Packet};
use std::alloc::{AllocError, Global};
use std::process::Abort;

/// Bucket 0 is the only one of connected sockets, and bucket 1 the only one of listeners.
const SHAPE: Shape = Shape {
    slots: 2,
    bind: 1,
    hash: 1,
    listen: 1,
};

/// A listener at 10.0.0.1:80.
const LISTENER: Card = Card {
    local: 0x0A00_0001,
    lport: 80,
    remote: 0,
    rport: 0,
    dev: 0,
    net: 0,
    kind: Kind::Listen,
    name: 0x0100_0000_0000_0001,
    extra: 0,
    mark: 0,
};

/// A connection from 10.0.0.2:1000 to it.
const CONNECTION: Card = Card {
    local: 0x0A00_0001,
    lport: 80,
    remote: 0x0A00_0002,
    rport: 1000,
    dev: 0,
    net: 0,
    kind: Kind::Full,
    name: 0x0100_0000_0000_0002,
    extra: 0,
    mark: 0,
};

/// The name of the request by which it comes.
const REQUEST: u64 = 0x0100_0000_0000_0003;

/// A packet of that connection.
const PACKET: Packet = Packet {
    src: 0x0A00_0002,
    sport: 1000,
    dst: 0x0A00_0001,
    dport: 80,
    dev: 0,
    net: 0,
};

/// A lookup's answer, the clock as it began and as it ended, and whether the lives explain it.
type Looked = (PrintedAnswer, u64, u64, bool);

const LISTENING: PrintedAnswer = PrintedAnswer::Found(Kind::Listen, LISTENER.name);

const CONNECTED: PrintedAnswer = PrintedAnswer::Found(Kind::Full, CONNECTION.name);

const REQUESTED: PrintedAnswer = PrintedAnswer::Found(Kind::Request, REQUEST);

/// Lookups beside a listener that is hashed from 0 to 1, and a connection that is hashed from 2 to 3 and unhashed from
/// 4 to 5.
const LOOKS: [Looked; 18] = [
    (LISTENING, 2, 4, true),
    (CONNECTED, 2, 4, true),
    // the connection was there throughout
    (LISTENING, 4, 4, false),
    // it was hashed later, or gone before
    (CONNECTED, 1, 2, false),
    (CONNECTED, 6, 6, false),
    // no card of that name is of that kind
    (
        PrintedAnswer::Found(Kind::TimeWait, CONNECTION.name),
        2,
        4,
        false,
    ),
    // nothing is found
    (PrintedAnswer::None, 1, 2, true),
    (PrintedAnswer::None, 2, 3, false),
    // lookups that were given up
    (PrintedAnswer::Again(1, PrintedEnd::Foreign(0)), 2, 3, true),
    (PrintedAnswer::Again(0, PrintedEnd::Foreign(0)), 2, 3, false),
    (PrintedAnswer::Again(1, PrintedEnd::Foreign(2)), 2, 3, false),
    (PrintedAnswer::Again(2, PrintedEnd::Foreign(0)), 2, 3, false),
    (PrintedAnswer::Again(1, PrintedEnd::Dead(1)), 2, 3, true),
    (PrintedAnswer::Again(1, PrintedEnd::Dead(0)), 2, 3, false),
    (PrintedAnswer::Again(0, PrintedEnd::Changed(1)), 2, 3, true),
    (PrintedAnswer::Again(2, PrintedEnd::Changed(1)), 2, 3, false),
    (PrintedAnswer::Again(1, PrintedEnd::Long(3)), 2, 3, true),
    (PrintedAnswer::Again(1, PrintedEnd::Long(2)), 2, 3, false),
];

/// Lookups beside a listener, a request that is hashed from 2 to 3 and unhashed from 6 to 7, and its child, which is
/// hashed from 4 to 5.
const LOOKS_OF_A_HANDSHAKE: [Looked; 7] = [
    (LISTENING, 2, 3, true),
    (REQUESTED, 2, 3, true),
    (REQUESTED, 4, 4, true),
    // the request was there throughout, or gone before
    (LISTENING, 4, 4, false),
    (REQUESTED, 8, 8, false),
    // and it isn't reported as a full socket
    (PrintedAnswer::Found(Kind::Full, REQUEST), 4, 4, false),
    (CONNECTED, 8, 8, true),
];

fn listener(slot: u64, begin: u64, end: u64) -> PrintedLife {
    PrintedLife {
        bucket: 1,
        slot,
        card: LISTENER,
        hash: Span { begin, end },
        unhash: None,
    }
}

fn connection(slot: u64, begin: u64, end: u64) -> PrintedLife {
    PrintedLife {
        bucket: 0,
        slot,
        card: CONNECTION,
        hash: Span { begin, end },
        unhash: None,
    }
}

/// The request by which the connection comes, hashed from 2 to 3, and unhashed from 6 to 7.
fn request(slot: u64) -> PrintedLife {
    let request = Card {
        kind: Kind::Request,
        name: REQUEST,
        ..CONNECTION
    };
    let life = PrintedLife {
        card: request,
        ..connection(slot, 2, 3)
    };
    gone(life, 6, 7)
}

/// A life that was unhashed.
fn gone(life: PrintedLife, begin: u64, end: u64) -> PrintedLife {
    PrintedLife {
        unhash: Some(Span { begin, end }),
        ..life
    }
}

fn look(answer: PrintedAnswer, t0: u64, t1: u64) -> PrintedPacket {
    PrintedPacket::Looked(PrintedLook {
        packet: PACKET,
        answer,
        t0,
        t1,
    })
}

fn printed(
    alloc: Global,
    lives: &[PrintedLife],
    packets: &[PrintedPacket],
    clock: u64,
) -> Result<Printed, AllocError>
    ensures { IfOk result (λ p. p.shape ≡ SHAPE) }
{
    Ok(Printed {
        shape: SHAPE,
        seed: 0,
        lives: Vec::from_slice(alloc, lives)?,
        packets: Vec::from_slice(alloc, packets)?,
        vain: 0,
        clock,
    })
}

fn found(
    alloc: Global,
    lives: &[PrintedLife],
    packets: &[PrintedPacket],
    clock: u64,
) -> Result<Finding, AllocError> {
    let printed = printed(alloc, lives, packets, clock)?;
    judge(alloc, &printed)
}

fn wrong(why: Why, at: usize) -> Finding {
    Finding::Wrong { why, at }
}

/// Asserts what is found of lives alone.
fn check_lives(
    rt: &impl Abort,
    alloc: Global,
    case: &str,
    lives: &[PrintedLife],
    clock: u64,
    expected: Finding,
) {
    let found = found(alloc, lives, &[], clock).ok();
    assert!(rt; found == Some(expected), "{case}");
}

/// What is found of these packets' last, if the lives explain it, and if not.
fn explained(packets: &[PrintedPacket], is_explained: bool) -> Finding {
    if is_explained {
        Finding::Sound
    } else {
        wrong(Why::Receipt, packets.len().saturating_sub(1))
    }
}

/// Asserts of each lookup whether these lives explain it, behind that many packets that weren't looked up.
fn check_looks(
    rt: &impl Abort,
    alloc: Global,
    lives: &[PrintedLife],
    passed: usize,
    clock: u64,
    looks: &[Looked],
) {
    for (place, (answer, t0, t1, is_explained)) in looks.iter().enumerate() {
        let packets = [PrintedPacket::Passed, look(*answer, *t0, *t1)];
        let packets = &packets[1 - passed.min(1)..];
        let found = found(alloc, lives, packets, clock).ok();
        let expected = explained(packets, *is_explained);
        assert!(rt; found == Some(expected), "lookup {place} behind {passed}");
    }
}

#[test]
fn numbers_of_the_clock(rt: HostRuntime) {
    let alloc = rt.alloc();
    let lives = [listener(0, 0, 1)];
    check_lives(&rt, alloc, "one listener", &lives, 2, Finding::Sound);
    check_lives(
        &rt,
        alloc,
        "the clock is one too many",
        &lives,
        3,
        wrong(Why::Count, 0),
    );
    let lives = [listener(0, 1, 1)];
    check_lives(
        &rt,
        alloc,
        "a hash ends as it begins",
        &lives,
        2,
        wrong(Why::Stamp, 0),
    );
    let lives = [gone(listener(0, 0, 2), 1, 3)];
    check_lives(
        &rt,
        alloc,
        "an unhash begins before the hash ends",
        &lives,
        4,
        wrong(Why::Stamp, 0),
    );
    let lives = [listener(0, 0, 1), listener(1, 2, 4)];
    check_lives(
        &rt,
        alloc,
        "a number isn't below the clock",
        &lives,
        4,
        wrong(Why::Stamp, 1),
    );
    let lives = [
        listener(0, 0, 1),
        gone(listener(1, 2, 3), 4, 5),
        listener(1, 5, 6),
        listener(1, 6, 7),
    ];
    check_lives(
        &rt,
        alloc,
        "numbers of an earlier life: of two lines that have some, the first",
        &lives,
        8,
        wrong(Why::Stamp, 2),
    );
}

#[test]
fn a_number_drawn_in_vain(rt: HostRuntime) -> Result<(), AllocError> {
    let alloc = rt.alloc();
    let mut printed = printed(alloc, &[listener(0, 0, 1)], &[], 3)?;
    printed.vain = 1;
    let found = judge(alloc, &printed)?;
    assert!(rt; found == Finding::Sound);
    Ok(())
}

#[test]
fn buckets_and_changes(rt: HostRuntime) {
    let alloc = rt.alloc();
    let stray = PrintedLife {
        bucket: 0,
        ..listener(1, 2, 3)
    };
    let lives = [listener(0, 0, 1), stray];
    check_lives(
        &rt,
        alloc,
        "a strange bucket",
        &lives,
        4,
        wrong(Why::Home, 1),
    );
    let lives = [listener(0, 0, 2), listener(1, 1, 3)];
    check_lives(
        &rt,
        alloc,
        "two hashes meet",
        &lives,
        4,
        wrong(Why::Overlap, 1),
    );
    let lives = [
        gone(listener(0, 0, 1), 2, 7),
        connection(1, 3, 4),
        listener(2, 5, 6),
    ];
    check_lives(
        &rt,
        alloc,
        "a hash within the first life's unhash, behind one that meets nothing",
        &lives,
        8,
        wrong(Why::Overlap, 2),
    );
    // the third life shares a slot with the first, and the second is in a strange bucket
    let lives = [listener(0, 0, 1), stray, connection(0, 4, 5)];
    check_lives(
        &rt,
        alloc,
        "the first test decides",
        &lives,
        9,
        wrong(Why::Home, 1),
    );
}

#[test]
fn slots_and_four_tuples(rt: HostRuntime) {
    let alloc = rt.alloc();
    let lives = [listener(0, 0, 1), connection(0, 2, 3)];
    check_lives(&rt, alloc, "one slot", &lives, 4, wrong(Why::Slot, 1));
    let lives = [gone(listener(0, 0, 1), 2, 3), connection(0, 4, 5)];
    check_lives(
        &rt,
        alloc,
        "a slot that was freed",
        &lives,
        6,
        Finding::Sound,
    );
    let lives = [listener(0, 0, 1), connection(1, 2, 3), connection(2, 4, 5)];
    check_lives(&rt, alloc, "one four-tuple", &lives, 6, wrong(Why::Twin, 2));
    let lives = [
        listener(0, 0, 1),
        gone(connection(1, 2, 3), 4, 5),
        connection(2, 6, 7),
    ];
    check_lives(
        &rt,
        alloc,
        "the first is on its way out before the second is hashed",
        &lives,
        8,
        Finding::Sound,
    );
}

#[test]
fn lookups(rt: HostRuntime) {
    let alloc = rt.alloc();
    let lives = [listener(0, 0, 1), gone(connection(1, 2, 3), 4, 5)];
    check_looks(&rt, alloc, &lives, 1, 6, &LOOKS);
    let lives = [listener(0, 0, 1), request(1), connection(2, 4, 5)];
    check_looks(&rt, alloc, &lives, 0, 8, &LOOKS_OF_A_HANDSHAKE);
}
