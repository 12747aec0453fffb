//! Races of one section, whose replies are those that it gets alone; and lists of all sockets.

ghost use Rattle.std.specs.Prelude.{◌≤◌, ◌^◌, length};

use capture_reader::Capture;
use flat_list::{End, Reply};
use inet_io::Open;
use label_index::LabelSeed;
use race_run::laws::for_race;
use race_run::race;
use race_run::start::start;
use race_run::tell::tell;
use race_text::Record;
use sock_card::{Card, Kind};
use sock_script::parse::{Mode, ScriptEnd, parse};
use socket_list::{Listing, Span};
use std::alloc::Global;
use std::sync::Wait;
use std::test::Fail;
use std::thread::Threads;

/// Two ports for five searches; the range is walked from its second port on, and then from its first.
const SEARCHES: &[u8] = b"range 40000 40003
offset 0
script 1
socket a
socket b
socket c
bind a 0.0.0.0:0
bind b 0.0.0.0:0
listen c
socket d
connect d from 10.0.0.1 to 10.0.0.2:80
";

/// A TIME_WAIT is replaced once a second has passed; another one is reaped after its minute.
const WAITS: &[u8] = b"twreuse 1
script 1
socket a reuseaddr
bind a 10.0.0.1:5000
connect a to 10.0.0.2:80
close a
socket b reuseaddr
bind b 10.0.0.1:5000
connect b to 10.0.0.2:80
at 1
connect b to 10.0.0.2:80
close b
at 60
reap
at 61
reap
";

/// The one slot is a listener's.
const ONE_SLOT: &[u8] = b"table slots 1 bind 1 hash 1 listen 1
script 1
socket l
bind l 10.0.0.1:80
listen l
accept l c from 10.0.0.2:1000 at 10.0.0.1:80
drop l
socket k
bind k 10.0.0.1:90
connect k to 10.0.0.2:80
close k
";

/// A listener's children, one of them refused.
const CHILDREN: &[u8] = b"script 1
socket a
bind a 10.0.0.1:80
listen a
accept a c from 10.0.0.2:1000 at 10.0.0.1:80
accept a d from 10.0.0.2:1000 at 10.0.0.1:80
close a
drop c
drop d
";

/// A listener, and a list of all sockets.
const ONE_DUMP: &[u8] = b"script 1
socket a
bind a 10.0.0.1:80
listen a
dump
";

/// Two sections whose sockets come and go, and one that lists all sockets meanwhile, its own among them.
const MANY_DUMPS: &[u8] = b"script 1
socket a
bind a 10.0.0.2:80
listen a
drop a
script 2
socket b
bind b 10.0.0.3:80
connect b to 10.0.0.4:80
close b
script 3
socket k
bind k 10.0.0.1:80
listen k
dump
dump
dump
";

/// A race of the text with one looker.
fn raced<R: Threads + Wait + Sync>(rt: &R, alloc: Global, text: &[u8]) -> Result<Record, ScriptEnd>
    requires { length text.now ≤ 2 ^ 24 }
{
    for_race();
    let seed = LabelSeed::fixed();
    let script = parse(alloc, seed, text, Mode::Race)?;
    let capture = Capture::new(alloc);
    let (tables, first) = start(alloc, &script)?;
    let ended = race(
        rt, alloc, seed, tables, first, &script, &capture, 1, 1, &Open,
    )?;
    let record = tell(alloc, &script, &capture, 1, 1, ended)?;
    Ok(record)
}

/// Whether a race of the text with one looker gets these replies.
fn gets<R: Threads + Wait + Sync>(
    rt: &R,
    alloc: Global,
    text: &[u8],
    wanted: &[Reply],
) -> Result<bool, ScriptEnd>
    requires { length text.now ≤ 2 ^ 24 }
{
    let record = raced(rt, alloc, text)?;
    Ok(record.replies.as_slice() == wanted)
}

/// The listener at 10.0.0.1:80, where its section has that number.
const fn listener(section: u32) -> Card
    requires { section ≤ 64 }
{
    Card {
        local: 0x0A00_0001,
        lport: 80,
        remote: 0,
        rport: 0,
        dev: 0,
        net: 0,
        kind: Kind::Listen,
        name: section as u64 * 0x0100_0000_0000_0000 + 1,
        extra: 0,
        mark: 0,
    }
}

/// Whether each list has that socket.
fn all_have(listings: &[Listing], card: &Card) -> bool {
    for listing in listings {
        if !listing.cards.as_slice().contains(card) {
            return false;
        }
    }
    true
}

/// The reply that names an end of 10.0.0.1.
const fn from_port(port: u16) -> Reply {
    Reply::End(End {
        addr: 0x0A00_0001,
        port,
    })
}

#[test]
fn searches_walk_the_range(rt: HostRuntime) -> Result<(), Fail> {
    let wanted = [
        Reply::Ok,
        Reply::Ok,
        Reply::Ok,
        Reply::Port(40001),
        Reply::Port(40003),
        Reply::Port(40000),
        Reply::Ok,
        from_port(40002),
    ];
    assert!(rt; gets(&rt, rt.alloc(), SEARCHES, &wanted)?);
    Ok(())
}

#[test]
fn waits_are_replaced_and_reaped(rt: HostRuntime) -> Result<(), Fail> {
    let wanted = [
        Reply::Ok,
        Reply::Port(5000),
        from_port(5000),
        Reply::TimeWait,
        Reply::Ok,
        Reply::Port(5000),
        Reply::Eaddrnotavail,
        Reply::Ok,
        from_port(5000),
        Reply::TimeWait,
        Reply::Ok,
        Reply::Count(0),
        Reply::Ok,
        Reply::Count(1),
    ];
    assert!(rt; gets(&rt, rt.alloc(), WAITS, &wanted)?);
    Ok(())
}

#[test]
fn no_slot_is_left(rt: HostRuntime) -> Result<(), Fail> {
    let wanted = [
        Reply::Ok,
        Reply::Port(80),
        Reply::Port(80),
        Reply::Enfile { owned: 1, held: 0 },
        Reply::Ok,
        Reply::Ok,
        Reply::Port(90),
        from_port(90),
        Reply::NoSlot { owned: 1, held: 0 },
    ];
    assert!(rt; gets(&rt, rt.alloc(), ONE_SLOT, &wanted)?);
    Ok(())
}

#[test]
fn children_outlive_their_listener(rt: HostRuntime) -> Result<(), Fail> {
    let wanted = [
        Reply::Ok,
        Reply::Port(80),
        Reply::Port(80),
        Reply::Ok,
        Reply::Eaddrnotavail,
        Reply::Ok,
        Reply::Ok,
        Reply::Ebadf,
    ];
    assert!(rt; gets(&rt, rt.alloc(), CHILDREN, &wanted)?);
    Ok(())
}

#[test]
fn a_dump_lists_the_listener(rt: HostRuntime) -> Result<(), Fail> {
    let record = raced(&rt, rt.alloc(), ONE_DUMP)?;
    let [listing] = record.listings.as_slice() else {
        return Err("not one list".into());
    };
    assert_eq!(rt; listing.cards.as_slice(), [listener(1)].as_slice());
    assert_eq!(rt; listing.span, Some(Span { t0: 2, t1: 2 }));
    assert_eq!(rt; record.clock, 2);
    Ok(())
}

#[test]
fn dumps_list_what_stays(rt: HostRuntime) -> Result<(), Fail> {
    let record = raced(&rt, rt.alloc(), MANY_DUMPS)?;
    let wanted = [
        Reply::Ok,
        Reply::Port(80),
        Reply::Port(80),
        Reply::Ok,
        Reply::Ok,
        Reply::Port(80),
        Reply::End(End {
            addr: 0x0A00_0003,
            port: 80,
        }),
        Reply::TimeWait,
        Reply::Ok,
        Reply::Port(80),
        Reply::Port(80),
        Reply::Ok,
        Reply::Ok,
        Reply::Ok,
    ];
    assert!(rt; record.replies.as_slice() == wanted.as_slice());
    assert_eq!(rt; record.listings.len(), 3);
    assert!(rt; all_have(record.listings.as_slice(), &listener(3)));
    Ok(())
}
