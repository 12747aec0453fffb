//! Races of sections that want the same few slots or ports. What each section gets hangs on the schedule; what is
//! judged here doesn't.

use crate::captures::{HEADER, RECORDS, input_of};
use crate::tests::{PLAIN, call};
use inet_tool::Status;
use std::alloc::{AllocError, Global};
use std::random::RandomSource;
use std::str::from_utf8;
use std::sync::Wait;
use std::test::Fail;
use std::thread::Threads;

const WORDS: [&str; 6] = ["inet", "race", "--lookers", "2", "--passes", "2"];

/// A table of one slot,
const SLOT: &str = "table slots 1 bind 1 hash 1 listen 1\n";

/// and a section that wants it for a listener, its child, a connection and a TIME_WAIT.
const SLOT_SECTION: &str =
    "socket l\nbind l 10.0.0.1:80\nlisten l\naccept l c from 10.0.0.2:1000 at 10.0.0.1:80\n\
    drop l\naccept l d from 10.0.0.2:1000 at 10.0.0.1:80\nsocket k\nbind k 10.0.0.1:90\nconnect k to 10.0.0.2:80\n\
    close k\n";

/// A range of two ports,
const PORTS: &str = "range 40000 40001\n";

/// and sections that search it, each with how its lines end where it gets the one port, the other, or none.
const PORT_SECTIONS: [(&str, [&str; 3]); 3] = [
    (
        "socket a\nbind a 0.0.0.0:0\n",
        [" bind a ok 40000", " bind a ok 40001", " bind a EADDRINUSE"],
    ),
    (
        "socket a\nlisten a\n",
        [
            " listen a ok 40000",
            " listen a ok 40001",
            " listen a EADDRINUSE",
        ],
    ),
    (
        "socket a\nconnect a from 10.0.0.1 to 10.0.0.2:80\n",
        [
            " connect a ok 10.0.0.1:40000",
            " connect a ok 10.0.0.1:40001",
            " connect a EADDRNOTAVAIL",
        ],
    ),
];

/// A script of so many sections that are alike, with a capture of four packets.
fn crowd(alloc: Global, header: &str, section: &str, count: u32) -> Result<Vec<u8>, Fail> {
    let mut text = String::from_str(alloc, header)?;
    for number in 1..=count {
        write!(text, "script {number}\n{section}")?;
    }
    text.push_str("capture\n")?;
    input_of(alloc, text.as_str(), &[HEADER, RECORDS])
}

/// What a line's command or socket drew from the clock: two numbers a change, and one where no slot was free.
fn drawn(line: &str) -> u64 {
    if line.starts_with("life ") {
        if line.ends_with(" unhash -") { 2 } else { 4 }
    } else if line.contains(" ENFILE ") || line.contains(" ok no-slot ") {
        1
    } else {
        0
    }
}

/// Whether the clock in the last line counts what the lines of the race report.
fn is_counted(alloc: Global, text: &str) -> Result<bool, AllocError> {
    let mut clock = 0u64;
    for line in text.lines() {
        clock = clock.saturating_add(drawn(line));
    }
    let last = format!(in alloc; "cut\nclock {clock}\n")?;
    Ok(text.ends_with(last.as_str()))
}

/// How many lines end so.
fn ending(text: &str, end: &str) -> u32 {
    let mut count = 0u32;
    for line in text.lines() {
        if line.ends_with(end) {
            count = count.saturating_add(1);
        }
    }
    count
}

/// What is written of a race, if it is one.
fn race(
    rt: &(impl Threads + Wait + Sync + RandomSource + AllocGlobal),
    input: Vec<u8>,
) -> Result<Option<String>, AllocError> {
    let (status, written) = call(rt, &WORDS, input, PLAIN)?;
    match (status, from_utf8(written.as_slice())) {
        (Status::Done, Ok(text)) => Ok(Some(String::from_str(rt.alloc(), text)?)),
        _ => Ok(None),
    }
}

/// Whether an audit of what a race wrote says yes.
fn passes(
    rt: &(impl Threads + Wait + Sync + RandomSource + AllocGlobal),
    text: &str,
) -> Result<bool, AllocError> {
    let text = text.as_bytes().to_vec(rt.alloc())?;
    let (status, written) = call(rt, &["inet", "audit"], text, PLAIN)?;
    Ok(status == Status::Done && written.starts_with(b"yes lives "))
}

#[test]
fn sections_want_one_slot(rt: HostRuntime) -> Result<(), Fail> {
    for round in 0..40u32 {
        let count = 2 + round % 3;
        let input = crowd(rt.alloc(), SLOT, SLOT_SECTION, count)?;
        let text = race(&rt, input)?.ok_or("no race")?;
        // Whoever comes into the slot leaves it again.
        let stays = ending(text.as_str(), " unhash -");
        let counts = is_counted(rt.alloc(), text.as_str())?;
        assert!(rt; counts && stays == 0, "{text}");
        assert!(rt; passes(&rt, text.as_str())?, "{text}");
    }
    Ok(())
}

#[test]
fn sixty_four_sections_search_two_ports(rt: HostRuntime) -> Result<(), Fail> {
    for (section, [one, other, refused]) in PORT_SECTIONS {
        let input = crowd(rt.alloc(), PORTS, section, 64)?;
        let text = race(&rt, input)?.ok_or("no race")?;
        let text = text.as_str();
        let got = [
            ending(text, one),
            ending(text, other),
            ending(text, refused),
        ];
        assert_eq!(rt; got, [1, 1, 62]);
        assert!(rt; is_counted(rt.alloc(), text)? && passes(&rt, text)?);
    }
    Ok(())
}
