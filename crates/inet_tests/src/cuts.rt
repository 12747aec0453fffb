//! Ends in memory that fail at each of their calls, and inputs that are cut at each of their bytes.

use crate::captures::{BLOCKS, HEADER, LISTENER, LISTENING, RECORDS, input_of};
use crate::tests::{Ends, OUTPUT, PLAIN, SCRIPT, call, run};
use inet_tool::Status;
use std::alloc::{AllocError, Global};
use std::random::RandomSource;
use std::sync::Wait;
use std::test::Fail;
use std::thread::Threads;

/// An input up to a length at which nothing of it is cut off in its middle, and what is written for it.
type Whole = (usize, &'static str);

/// The script of two sockets, where its last line is whole, with its line feed or without, or names another port
/// without its last digit.
const SCRIPTS: [Whole; 13] = [
    (0, ""),
    (8, ""),
    (9, ""),
    (17, "1 socket a ok\n"),
    (18, "1 socket a ok\n"),
    (26, "1 socket a ok\n1 socket b ok\n"),
    (27, "1 socket a ok\n1 socket b ok\n"),
    (43, "1 socket a ok\n1 socket b ok\n1 bind a ok 8\n"),
    (44, "1 socket a ok\n1 socket b ok\n1 bind a ok 80\n"),
    (45, "1 socket a ok\n1 socket b ok\n1 bind a ok 80\n"),
    (
        62,
        "1 socket a ok\n1 socket b ok\n1 bind a ok 80\n1 bind b ok 8\n",
    ),
    (63, OUTPUT),
    (64, OUTPUT),
];

/// A capture of libpcap, where its header or a record of it ends.
const RECORDED: [Whole; 6] = [
    (0, ""),
    (24, ""),
    (78, "packet 1 listen 1.a\n"),
    (108, "packet 1 listen 1.a\npacket 2 skip\n"),
    (
        166,
        "packet 1 listen 1.a\npacket 2 skip\npacket 3 listen 1.a\n",
    ),
    (
        220,
        "packet 1 listen 1.a\npacket 2 skip\npacket 3 listen 1.a\npacket 4 skip\n",
    ),
];

/// A capture of pcapng, where a block of it ends.
const BLOCKED: [Whole; 4] = [(0, ""), (28, ""), (48, ""), (120, "packet 1 listen 1.a\n")];

/// The longest of these that is no longer than this.
fn last_whole(wholes: &[Whole], len: usize) -> Whole {
    let mut last = (0, "");
    for whole in wholes {
        if whole.0 <= len {
            last = *whole;
        }
    }
    last
}

/// What `inet run` answers to the first bytes of an input.
fn run_cut(
    rt: &(impl Threads + Wait + Sync + RandomSource + AllocGlobal),
    input: &[u8],
    len: usize,
) -> Result<(Status, Vec<u8>), AllocError> {
    let cut = &input[..len.min(input.len())];
    call(rt, &["inet", "run"], cut.to_vec(rt.alloc())?, PLAIN)
}

/// What is to be answered to a script that is cut to this length.
fn told_of_script(alloc: Global, len: usize) -> Result<(Status, String), AllocError> {
    let (at, written) = last_whole(&SCRIPTS, len);
    if at == len {
        return Ok((Status::Done, String::from_str(alloc, written)?));
    }
    let mut line = 1u64;
    for byte in SCRIPT.bytes().take(len) {
        if byte == b'\n' {
            line = line.saturating_add(1);
        }
    }
    let written = format!(in alloc; "bad script line {line}\n")?;
    Ok((Status::BadScript(line), written))
}

/// What is to be answered to a listener with a capture that is cut to this length.
fn told_of_capture(
    alloc: Global,
    wholes: &[Whole],
    len: usize,
) -> Result<(Status, String), AllocError> {
    let (at, items) = last_whole(wholes, len);
    if at == 0 && len > 0 {
        return Ok((
            Status::BadCapture,
            String::from_str(alloc, "bad capture\n")?,
        ));
    }
    let cut = if at < len { "cut\n" } else { "" };
    let written = format!(in alloc; "{LISTENING}{items}{cut}")?;
    Ok((Status::Done, written))
}

#[test]
fn a_script_is_cut_at_each_byte(rt: HostRuntime) -> Result<(), Fail> {
    for len in 0..=SCRIPT.len() {
        let (status, written) = run_cut(&rt, SCRIPT.as_bytes(), len)?;
        let told = told_of_script(rt.alloc(), len)?;
        assert!(rt;
            status == told.0 && written.as_slice() == told.1.as_bytes(),
            "cut to {len} bytes"
        );
    }
    Ok(())
}

#[test]
fn a_capture_is_cut_at_each_byte(rt: HostRuntime) -> Result<(), Fail> {
    let recorded: (&[&str], &[Whole]) = (&[HEADER, RECORDS], &RECORDED);
    let blocked: (&[&str], &[Whole]) = (&[BLOCKS, "48000000"], &BLOCKED);
    for (parts, wholes) in [recorded, blocked] {
        let input = input_of(rt.alloc(), LISTENER, parts)?;
        for len in LISTENER.len()..=input.len() {
            let (status, written) = run_cut(&rt, input.as_slice(), len)?;
            let told = told_of_capture(rt.alloc(), wholes, len - LISTENER.len())?;
            assert!(rt;
                status == told.0 && written.as_slice() == told.1.as_bytes(),
                "cut to {len} bytes"
            );
        }
    }
    Ok(())
}

#[test]
fn a_read_that_fails_leaves_nothing_written(rt: HostRuntime) -> Result<(), Fail> {
    // The bytes one by one, and then the read that finds the end.
    let reads = SCRIPT.len() as u64 + 1;
    for k in 1..=reads {
        let ends = Ends {
            most_read: 1,
            failing_reads: &[k],
            ..PLAIN
        };
        let (status, written) = run(&rt, SCRIPT, ends)?;
        assert!(rt;
            status == Status::ReadFault && written.is_empty(),
            "read {k}"
        );
    }
    let ends = Ends {
        most_read: 1,
        failing_reads: &[reads + 1],
        ..PLAIN
    };
    let (status, written) = run(&rt, SCRIPT, ends)?;
    assert!(rt; status == Status::Done && written.as_slice() == OUTPUT.as_bytes());
    Ok(())
}

#[test]
fn a_write_that_fails_leaves_what_was_taken(rt: HostRuntime) -> Result<(), Fail> {
    for (input, whole) in [
        (SCRIPT, OUTPUT),
        ("socket", "bad script line 1\n"),
        ("capture\nabc", "bad capture\n"),
    ] {
        for taken in 0..whole.len() {
            let ends = Ends {
                most_written: 1,
                failing_writes: &[taken as u64 + 1],
                ..PLAIN
            };
            let (status, written) = run(&rt, input, ends)?;
            assert!(rt;
                status == Status::WriteFault && written.as_slice() == &whole.as_bytes()[..taken],
                "{taken} bytes of {whole}"
            );
        }
        let ends = Ends {
            most_written: 1,
            failing_writes: &[whole.len() as u64 + 1],
            ..PLAIN
        };
        let (_, written) = run(&rt, input, ends)?;
        assert!(rt; written.as_slice() == whole.as_bytes(), "all of {whole}");
    }
    Ok(())
}

#[test]
fn a_write_of_several_bytes_fails(rt: HostRuntime) -> Result<(), Fail> {
    for most in 2..=3usize {
        for k in 1..=4u64 {
            let ends = Ends {
                most_written: most,
                failing_writes: &[k],
                ..PLAIN
            };
            let (status, written) = run(&rt, SCRIPT, ends)?;
            let taken = most.saturating_mul(k as usize - 1).min(OUTPUT.len());
            assert!(rt;
                status == Status::WriteFault && written.as_slice() == &OUTPUT.as_bytes()[..taken],
                "most {most}, write {k}"
            );
        }
    }
    Ok(())
}
