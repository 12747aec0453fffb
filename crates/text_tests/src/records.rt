//! Texts that are records, and some that aren't.

use book_audit::Why;
use record_reader::audit::{Verdict, audit};
use record_reader::read::ReadEnd;
use std::alloc::{AllocError, Global};
use std::process::Abort;

/// One listener by itself.
const ONE: [&str; 8] = [
    "race lookers 1 passes 1",
    "shape 2 1 1 1 seed 0",
    "1 socket a ok",
    "1 bind a ok 80",
    "1 listen a ok 80",
    "journal 0 3",
    "life 1 0 listen 1.a 10.0.0.1:80 0.0.0.0:0 dev 0 hash 0 1 unhash -",
    "clock 2",
];

/// Two listeners, a connection that is closed and leaves a TIME_WAIT, which the next one replaces, and three packets.
const TWO: [&str; 25] = [
    "race lookers 2 passes 1",
    "shape 4 1 1 1 seed 0",
    "1 socket a ok",
    "1 bind a ok 80",
    "1 listen a ok 80",
    "1 accept b ok",
    "1 close b ok time-wait",
    "1 accept d ok",
    "1 at 60 ok",
    "1 reap ok 0",
    "2 socket e ok",
    "2 bind e ok 90",
    "2 listen e ok 90",
    "journal 0 10",
    "life 1 0 listen 1.a 10.0.0.1:80 0.0.0.0:0 dev 0 hash 0 1 unhash -",
    "life 0 1 full 1.b 10.0.0.1:80 10.0.0.2:1000 dev 0 hash 2 4 unhash 8 9",
    "life 1 2 listen 2.e 0.0.0.0:90 0.0.0.0:0 dev 0 hash 3 5 unhash -",
    "life 0 3 time-wait 1.b 10.0.0.1:80 10.0.0.2:1000 dev 0 hash 6 7 unhash 12 13",
    "life 0 1 full 1.d 10.0.0.1:80 10.0.0.2:1000 dev 0 hash 10 11 unhash -",
    "packet 1 full 1.d t0 9 t1 11 from 10.0.0.2:1000 to 10.0.0.1:80 dev 0",
    "packet 2 none t0 4 t1 6 from 10.0.0.2:1000 to 10.0.0.9:90 dev 0",
    "packet 3 again dead 3 in 0 t0 12 t1 13 from 10.0.0.2:1000 to 10.0.0.1:80 dev 0",
    "packet 4 skip",
    "cut",
    "clock 14",
];

/// Two listeners, and a third that found no slot.
const FULL: [&str; 15] = [
    "race lookers 1 passes 1",
    "shape 2 1 1 1 seed 0",
    "1 socket a ok",
    "1 bind a ok 80",
    "1 listen a ok 80",
    "1 socket b ok",
    "1 bind b ok 81",
    "1 listen b ok 81",
    "1 socket c ok",
    "1 bind c ok 82",
    "1 listen c ENFILE 2 0",
    "journal 0 9",
    "life 1 0 listen 1.a 10.0.0.1:80 0.0.0.0:0 dev 0 hash 0 1 unhash -",
    "life 1 1 listen 1.b 10.0.0.1:81 0.0.0.0:0 dev 0 hash 2 3 unhash -",
    "clock 5",
];

/// A listener and a connection that is closed, listed before and after.
const LISTED: [&str; 18] = [
    "race lookers 1 passes 1",
    "shape 4 1 1 1 seed 0",
    "1 socket a ok",
    "1 bind a ok 80",
    "1 listen a ok 80",
    "1 accept b ok",
    "1 dump 2 t0 4 t1 4",
    "1 item listen 1.a 10.0.0.1:80 0.0.0.0:0 dev 0",
    "1 item full 1.b 10.0.0.1:80 10.0.0.2:1000 dev 0",
    "1 close b ok time-wait",
    "1 dump 2 t0 8 t1 8",
    "1 item listen 1.a 10.0.0.1:80 0.0.0.0:0 dev 0",
    "1 item time-wait 1.b 10.0.0.1:80 10.0.0.2:1000 dev 0",
    "journal 0 5",
    "life 1 0 listen 1.a 10.0.0.1:80 0.0.0.0:0 dev 0 hash 0 1 unhash -",
    "life 0 1 full 1.b 10.0.0.1:80 10.0.0.2:1000 dev 0 hash 2 3 unhash 6 7",
    "life 0 2 time-wait 1.b 10.0.0.1:80 10.0.0.2:1000 dev 0 hash 4 5 unhash -",
    "clock 8",
];

/// A handshake: the request goes as its child comes, and packets find both.
const HANDSHAKE: [&str; 14] = [
    "race lookers 1 passes 1",
    "shape 4 1 1 1 seed 0",
    "1 socket a ok",
    "1 bind a ok 80",
    "1 listen a ok 80",
    "1 syn r ok",
    "1 ack b ok",
    "journal 0 3",
    "life 1 0 listen 1.a 10.0.0.1:80 0.0.0.0:0 dev 0 hash 0 1 unhash -",
    "life 0 1 request 1.r 10.0.0.1:80 10.0.0.2:1000 dev 0 hash 2 3 unhash 6 7",
    "life 0 2 full 1.b 10.0.0.1:80 10.0.0.2:1000 dev 0 hash 4 5 unhash -",
    "packet 1 request 1.r t0 4 t1 4 from 10.0.0.2:1000 to 10.0.0.1:80 dev 0",
    "packet 2 full 1.b t0 8 t1 8 from 10.0.0.2:1000 to 10.0.0.1:80 dev 0",
    "clock 8",
];

/// The least record there is.
const LEAST: [&str; 3] = ["race lookers 1 passes 1", "shape 2 1 1 1 seed 0", "clock 0"];

/// The lines, each with a line feed, where that one (from 1) is another.
fn text_with(
    alloc: Global,
    lines: &[&str],
    place: usize,
    other: &str,
) -> Result<String, AllocError> {
    let mut text = String::new(alloc);
    for (at, line) in lines.iter().enumerate() {
        text.push_str(if at + 1 == place { other } else { line })?;
        text.push('\n')?;
    }
    Ok(text)
}

fn verdict_with(
    alloc: Global,
    lines: &[&str],
    place: usize,
    other: &str,
) -> Result<Verdict, ReadEnd> {
    let text = text_with(alloc, lines, place, other)?;
    audit(alloc, text.as_bytes())
}

/// Asserts what is found of the lines where one of them is another.
fn check_line(
    rt: &impl Abort,
    alloc: Global,
    lines: &[&str],
    place: usize,
    other: &str,
    expected: Result<Verdict, ReadEnd>,
) {
    let verdict = verdict_with(alloc, lines, place, other);
    assert!(rt; verdict == expected, "{other}");
}

/// Asserts of each of these lines, in their places of the second record, where it is found wrong.
fn check_wrong(rt: &impl Abort, alloc: Global, rows: &[(usize, &str, u64, Why)]) {
    for (place, other, line, why) in rows {
        check_line(rt, alloc, &TWO, *place, other, no(*line, *why));
    }
}

/// Asserts that each of these lines is outside, in its place of the second record.
fn check_outside(rt: &impl Abort, alloc: Global, rows: &[(usize, &str)]) {
    for (place, other) in rows {
        let bad = Err(ReadEnd::BadLine(*place as u64));
        check_line(rt, alloc, &TWO, *place, other, bad);
    }
}

/// Asserts which line of each text is the first outside.
fn check_texts(rt: &impl Abort, alloc: Global, rows: &[(&str, u64)]) {
    for (text, line) in rows {
        let verdict = audit(alloc, text.as_bytes());
        assert!(rt; verdict == Err(ReadEnd::BadLine(*line)), "{text}");
    }
}

fn no(line: u64, why: Why) -> Result<Verdict, ReadEnd> {
    Ok(Verdict::No { line, why })
}

fn yes(lives: u64, packets: u64, clock: u64) -> Result<Verdict, ReadEnd> {
    Ok(Verdict::Yes {
        lives,
        packets,
        clock,
    })
}

/// Lines that make the second record wrong, each with its place, where the record is found wrong, and why.
const WRONG: [(usize, &str, u64, Why); 13] = [
    // a number that isn't below the clock, a hash that doesn't end later, a number of an earlier line
    (25, "clock 13", 18, Why::Stamp),
    (
        17,
        "life 1 2 listen 2.e 0.0.0.0:90 0.0.0.0:0 dev 0 hash 3 3 unhash -",
        17,
        Why::Stamp,
    ),
    (
        17,
        "life 1 2 listen 2.e 0.0.0.0:90 0.0.0.0:0 dev 0 hash 2 5 unhash -",
        17,
        Why::Stamp,
    ),
    // a strange chain
    (
        17,
        "life 0 2 listen 2.e 0.0.0.0:90 0.0.0.0:0 dev 0 hash 3 5 unhash -",
        17,
        Why::Home,
    ),
    // one slot, one four-tuple
    (
        18,
        "life 0 1 time-wait 1.b 10.0.0.1:80 10.0.0.2:1000 dev 0 hash 6 7 unhash 12 13",
        18,
        Why::Slot,
    ),
    (
        18,
        "life 0 3 full 1.b 10.0.0.1:80 10.0.0.2:1000 dev 0 hash 6 7 unhash 12 13",
        18,
        Why::Twin,
    ),
    // a packet that found what had gone, one that missed a listener, one that walked another chain
    (
        20,
        "packet 1 full 1.b t0 10 t1 11 from 10.0.0.2:1000 to 10.0.0.1:80 dev 0",
        20,
        Why::Receipt,
    ),
    (
        21,
        "packet 2 none t0 6 t1 6 from 10.0.0.2:1000 to 10.0.0.9:90 dev 0",
        21,
        Why::Receipt,
    ),
    // a number of the clock for nothing
    (25, "clock 15", 25, Why::Count),
    // names that are told apart: another label of the section, the label of another section, and labels that begin
    // with it
    (
        20,
        "packet 1 full 1.a t0 9 t1 11 from 10.0.0.2:1000 to 10.0.0.1:80 dev 0",
        20,
        Why::Receipt,
    ),
    (
        20,
        "packet 1 full 2.d t0 9 t1 11 from 10.0.0.2:1000 to 10.0.0.1:80 dev 0",
        20,
        Why::Receipt,
    ),
    (
        20,
        "packet 1 full 1.dd t0 9 t1 11 from 10.0.0.2:1000 to 10.0.0.1:80 dev 0",
        20,
        Why::Receipt,
    ),
    (
        20,
        "packet 1 full 1.dddddddddddddddd t0 9 t1 11 from 10.0.0.2:1000 to 10.0.0.1:80 dev 0",
        20,
        Why::Receipt,
    ),
];

/// Lines that no record has in those places.
const OUTSIDE: [(usize, &str); 26] = [
    (1, "race lookers 01 passes 1"),
    (1, "race lookers 1 passes 18446744073709551616"),
    (2, "shape 2 1 1 1"),
    (2, "shape 2 1 3 1 seed 0"),
    (2, "shape 2 1 1 1 seed 4294967296"),
    (2, "1 socket a ok"),
    (3, "race lookers 1 passes 1"),
    (4, "0 socket a ok"),
    (4, "65 socket a ok"),
    (4, "1 sockets a ok"),
    (4, "1 socket"),
    (4, "1 socket  ok"),
    (4, "1 socket a ok "),
    (4, "1 socket a\tok"),
    (14, "journal 0"),
    (
        15,
        "life 1 0 listen 0.a 10.0.0.1:80 0.0.0.0:0 dev 0 hash 0 1 unhash -",
    ),
    (
        15,
        "life 1 0 listen 1.abcdefghijklmnopq 10.0.0.1:80 0.0.0.0:0 dev 0 hash 0 1 unhash -",
    ),
    (
        15,
        "life 1 0 listen 1.a 10.0.0.1:65536 0.0.0.0:0 dev 0 hash 0 1 unhash -",
    ),
    (
        15,
        "life 1 0 listen 1.a 10.0.0.1:80 0.0.0.0:0 dev 0 net 0 hash 0 1 unhash -",
    ),
    (
        15,
        "life 1 0 listen 1.a 10.0.0.1:80 0.0.0.0:0 dev 0 net 16 hash 0 1 unhash -",
    ),
    (16, "journal 1 1"),
    (21, "packet 1 skip"),
    (21, "packet 2 skips"),
    (
        21,
        "life 0 1 full 1.d 10.0.0.1:80 10.0.0.2:1000 dev 0 hash 10 11 unhash -",
    ),
    (25, "cut"),
    (25, "clock"),
];

/// Texts that are no records, each with its first line outside.
const ENDS: [(&str, u64); 6] = [
    ("", 1),
    ("\n", 1),
    ("race lookers 1 passes 1", 1),
    ("race lookers 1 passes 1\n", 2),
    ("race lookers 1 passes 1\nshape 2 1 1 1 seed 0\nclock 0", 3),
    (
        "race lookers 1 passes 1\nshape 2 1 1 1 seed 0\nclock 0\n\n",
        4,
    ),
];

#[test]
fn records_are_judged(rt: HostRuntime) {
    let alloc = rt.alloc();
    check_line(&rt, alloc, &ONE, 0, "", yes(1, 0, 2));
    check_line(&rt, alloc, &TWO, 0, "", yes(5, 4, 14));
    check_line(&rt, alloc, &LISTED, 0, "", yes(3, 0, 8));
    check_line(&rt, alloc, &HANDSHAKE, 0, "", yes(3, 2, 8));
    check_line(&rt, alloc, &FULL, 0, "", yes(2, 0, 5));
    check_wrong(&rt, alloc, &WRONG);
    // changes of one chain at once
    let long = "life 1 0 listen 1.a 10.0.0.1:80 0.0.0.0:0 dev 0 hash 0 4 unhash -";
    check_line(&rt, alloc, &FULL, 13, long, no(14, Why::Overlap));
}

#[test]
fn slots_sought_in_vain_are_counted(rt: HostRuntime) {
    let alloc = rt.alloc();
    check_line(
        &rt,
        alloc,
        &ONE,
        5,
        "1 connect b ENFILE 1 1",
        no(8, Why::Count),
    );
    check_line(
        &rt,
        alloc,
        &ONE,
        5,
        "1 close b ok no-slot 1 1",
        no(8, Why::Count),
    );
    check_line(
        &rt,
        alloc,
        &ONE,
        5,
        "1 ENFILE b ok",
        Err(ReadEnd::BadLine(5)),
    );
    check_line(&rt, alloc, &ONE, 5, "1 at 60 ok", yes(1, 0, 2));
    check_line(
        &rt,
        alloc,
        &ONE,
        5,
        "1 item listen 1.a 10.0.0.1:80",
        yes(1, 0, 2),
    );
}

#[test]
fn the_first_line_outside(rt: HostRuntime) {
    let alloc = rt.alloc();
    check_outside(&rt, alloc, &OUTSIDE);
    // the second life begins before the first
    let early = "life 1 0 listen 1.a 10.0.0.1:80 0.0.0.0:0 dev 0 hash 3 4 unhash -";
    check_line(&rt, alloc, &TWO, 15, early, Err(ReadEnd::BadLine(16)));
}

#[test]
fn the_ends_of_texts(rt: HostRuntime) {
    let alloc = rt.alloc();
    check_texts(&rt, alloc, &ENDS);
    check_line(&rt, alloc, &LEAST, 0, "", yes(0, 0, 0));
    let net = "life 1 0 listen 1.a 10.0.0.1:80 0.0.0.0:0 dev 65535 net 15 hash 0 1 unhash -";
    check_line(&rt, alloc, &ONE, 7, net, yes(1, 0, 2));
}
