//! Scripts with captures, in each order of bytes, resolution and link type, whole, cut and bad.

use crate::tests::{PLAIN, call};
use inet_tool::Status;
use std::alloc::Global;
use std::random::RandomSource;
use std::sync::Wait;
use std::test::Fail;
use std::thread::Threads;

/// A listener, and a capture behind it.
pub const LISTENER: &str = "script 1\nsocket a\nbind a 0.0.0.0:80\nlisten a\ncapture\n";

/// What is written for the listener's commands.
pub const LISTENING: &str = "1 socket a ok\n1 bind a ok 80\n1 listen a ok 80\n";

/// A header of an Ethernet capture from a machine with the lowest byte first.
pub const HEADER: &str = "d4c3b2a1 0200 0400 00000000 00000000 ffff0000 01000000";

/// From 10.0.0.2:1000 to 10.0.0.1:80, as IP has it.
const PACKET: &str = "45000028 00000000 40060000 0a000002 0a000001 03e80050";

/// Four records: a packet, a frame of ARP, a packet beneath a tag, and a fragment; then half a record.
pub const RECORDS: &str = "
    00000000 00000000 26000000 36000000
    000000000000 000000000000 0800 45000028 00000000 40060000 0a000002 0a000001 03e80050
    00000000 00000000 0e000000 0e000000
    000000000000 000000000000 0806
    00000000 00000000 2a000000 3a000000
    000000000000 000000000000 8100 0005 0800 45000028 00000000 40060000 0a000002 0a000001 03e80050
    00000000 00000000 26000000 36000000
    000000000000 000000000000 0800 45000028 00000001 40060000 0a000002 0a000001 03e80050
    00000000 00000000";

/// A section of pcapng with an Ethernet interface and a packet, but for its last four bytes.
pub const BLOCKS: &str = "
    0a0d0d0a 1c000000 4d3c2b1a 0100 0000 ffffffffffffffff 1c000000
    01000000 14000000 0100 0000 00000000 14000000
    06000000 48000000 00000000 00000000 00000000 26000000 26000000
    000000000000 000000000000 0800 45000028 00000000 40060000 0a000002 0a000001 03e80050 0000";

/// Adds bytes written in hexadecimal, with blanks between some of them.
fn add_hex(bytes: &mut Vec<u8>, alloc: Global, text: &str) -> Result<(), Fail> {
    for word in text.split_ascii_whitespace() {
        let part = hex::decode(alloc, word)?;
        bytes.extend_from_slice(part.as_slice())?;
    }
    Ok(())
}

/// A text, and the bytes of some parts in hexadecimal behind it.
pub fn input_of(alloc: Global, text: &str, parts: &[&str]) -> Result<Vec<u8>, Fail> {
    let mut bytes = text.as_bytes().to_vec(alloc)?;
    for part in parts {
        add_hex(&mut bytes, alloc, part)?;
    }
    Ok(bytes)
}

/// Whether `inet run` ends well on a text and the parts of a capture, and writes those two texts.
fn writes(
    rt: &(impl Threads + Wait + Sync + RandomSource + AllocGlobal),
    text: &str,
    parts: &[&str],
    wanted: [&str; 2],
) -> Result<bool, Fail> {
    let input = input_of(rt.alloc(), text, parts)?;
    let (status, written) = call(rt, &["inet", "run"], input, PLAIN)?;
    let mut out = wanted[0].as_bytes().to_vec(rt.alloc())?;
    out.extend_from_slice(wanted[1].as_bytes())?;
    Ok(status == Status::Done && written.as_slice() == out.as_slice())
}

#[test]
fn each_item_has_its_line_and_a_cut_is_told(rt: HostRuntime) -> Result<(), Fail> {
    let wanted = "packet 1 listen 1.a\npacket 2 skip\npacket 3 listen 1.a\npacket 4 skip\ncut\n";
    assert!(rt; writes(&rt, LISTENER, &[HEADER, RECORDS], [LISTENING, wanted])?);
    Ok(())
}

#[test]
fn each_order_resolution_and_link_type_is_read(rt: HostRuntime) -> Result<(), Fail> {
    let little = "00000000 00000000 18000000 18000000";
    let big = "00000000 00000000 00000018 00000018";
    let frame = "00000000 00000000 26000000 26000000 000000000000 000000000000 0800";
    let cases: [[&str; 2]; 7] = [
        [
            "d4c3b2a1 0200 0400 00000000 00000000 ffff0000 65000000",
            little,
        ],
        [
            "4d3cb2a1 0200 0400 00000000 00000000 ffff0000 65000000",
            little,
        ],
        [
            "a1b2c3d4 0002 0004 00000000 00000000 0000ffff 00000065",
            big,
        ],
        [
            "a1b23c4d 0002 0004 00000000 00000000 0000ffff 00000065",
            big,
        ],
        [
            "a1b2c3d4 0002 0004 00000000 00000000 0000ffff 000000e4",
            big,
        ],
        [
            "4d3cb2a1 0200 0400 00000000 00000000 ffff0000 e4000000",
            little,
        ],
        [HEADER, frame],
    ];
    for [header, record] in cases {
        let parts = [header, record, PACKET];
        assert!(rt; writes(&rt, LISTENER, &parts, [LISTENING, "packet 1 listen 1.a\n"])?);
    }
    Ok(())
}

#[test]
fn packets_are_looked_up_where_the_script_asks(rt: HostRuntime) -> Result<(), Fail> {
    let cases: [[&str; 2]; 3] = [
        [
            "script 1\nsocket a\nbind a 0.0.0.0:80\npackets 1\nlisten a\npackets 0\npackets 2\n\
             drop a\nscript 2\ncapture\n",
            "1 socket a ok\n1 bind a ok 80\npacket 1 none\n1 listen a ok 80\npacket 2 skip\n\
             packet 3 listen 1.a\n1 drop a ok\npacket 4 skip\ncut\n",
        ],
        [
            "script 1\nsocket a\nbind a 0.0.0.0:80\nlisten a\npackets 1\ndrop a\ncapture\n",
            "1 socket a ok\n1 bind a ok 80\n1 listen a ok 80\npacket 1 listen 1.a\n1 drop a ok\n\
             packet 2 skip\npacket 3 none\npacket 4 skip\ncut\n",
        ],
        [
            "script 1\npackets 1000000\nsocket a\npackets 1\ncapture\n",
            "packet 1 none\npacket 2 skip\npacket 3 none\npacket 4 skip\n1 socket a ok\ncut\n",
        ],
    ];
    for [text, wanted] in cases {
        assert!(rt;
            writes(&rt, text, &[HEADER, RECORDS], [wanted, ""])?,
            "for {text}"
        );
    }
    Ok(())
}

#[test]
fn packets_come_in_by_the_captures_device(rt: HostRuntime) -> Result<(), Fail> {
    let text = "script 1\nsocket a dev 3\nbind a 0.0.0.0:80\nlisten a\n";
    let record = "00000000 00000000 18000000 18000000";
    let header = "d4c3b2a1 0200 0400 00000000 00000000 ffff0000 65000000";
    let cases = [
        ("capture dev 3\n", "packet 1 listen 1.a\n"),
        ("capture dev 4\n", "packet 1 none\n"),
        ("capture\n", "packet 1 none\n"),
    ];
    for (last, found) in cases {
        let mut whole = String::from_str(rt.alloc(), text)?;
        whole.push_str(last)?;
        let parts = [header, record, PACKET];
        assert!(rt; writes(&rt, whole.as_str(), &parts, [LISTENING, found])?);
    }
    Ok(())
}

#[test]
fn what_is_short_or_of_another_kind_is_told(rt: HostRuntime) -> Result<(), Fail> {
    let header = "d4c3b2a1 0200 0400 00000000 00000000 ffff0000 65000000";
    let cases = [
        // Options before the ports, and too few bytes for them.
        (
            "1c000000",
            "46000028 00000000 40060000 0a000002 0a000001 00000000 03e80050",
            "listen 1.a",
        ),
        (
            "18000000",
            "46000028 00000000 40060000 0a000002 0a000001 03e80050",
            "short",
        ),
        // Nineteen bytes, IPv6, a header of four words, UDP, and a later fragment.
        (
            "13000000",
            "45000028 00000000 40060000 0a000002 0a0000",
            "short",
        ),
        (
            "18000000",
            "60000028 00000000 40060000 0a000002 0a000001 03e80050",
            "skip",
        ),
        (
            "18000000",
            "44000028 00000000 40060000 0a000002 0a000001 03e80050",
            "skip",
        ),
        (
            "18000000",
            "45000028 00000000 40110000 0a000002 0a000001 03e80050",
            "skip",
        ),
        (
            "18000000",
            "45000028 00000001 40060000 0a000002 0a000001 03e80050",
            "skip",
        ),
        // The first of several fragments has the ports.
        (
            "18000000",
            "45000028 00002000 40060000 0a000002 0a000001 03e80050",
            "listen 1.a",
        ),
        ("00000000", "", "short"),
    ];
    for (stored, packet, found) in cases {
        let mut line = String::from_str(rt.alloc(), "packet 1 ")?;
        line.push_str(found)?;
        line.push_str("\n")?;
        let parts = [header, "00000000 00000000", stored, "00000000", packet];
        assert!(rt; writes(&rt, LISTENER, &parts, [LISTENING, line.as_str()])?);
    }
    Ok(())
}

#[test]
fn a_capture_ends_with_a_whole_record_or_is_cut(rt: HostRuntime) -> Result<(), Fail> {
    let header = "d4c3b2a1 0200 0400 00000000 00000000 ffff0000 65000000";
    let record = "00000000 00000000 18000000 18000000";
    let cases: [(&[&str], &str); 6] = [
        (&[], ""),
        (&[header], ""),
        (&[header, record, PACKET], "packet 1 listen 1.a\n"),
        (&[header, "00"], "cut\n"),
        (&[header, record], "cut\n"),
        (
            &[header, record, PACKET, record, "45"],
            "packet 1 listen 1.a\ncut\n",
        ),
    ];
    for (parts, wanted) in cases {
        assert!(rt; writes(&rt, LISTENER, parts, [LISTENING, wanted])?);
    }
    Ok(())
}

#[test]
fn blocks_of_pcapng_are_read_to_the_first_that_is_not_valid(rt: HostRuntime) -> Result<(), Fail> {
    let cases: [(&[&str], &str); 4] = [
        (&[BLOCKS, "48000000"], "packet 1 listen 1.a\n"),
        (&[BLOCKS], "cut\n"),
        // Another section, which has no interface.
        (
            &[BLOCKS, "48000000", BLOCKS, "48000000"],
            "packet 1 listen 1.a\npacket 2 listen 1.a\n",
        ),
        (
            &[
                BLOCKS,
                "48000000 0a0d0d0a 1c000000 4d3c2b1a 0100 0000 ffffffffffffffff 1c000000",
                "06000000 20000000 00000000 00000000 00000000 00000000 00000000 20000000",
            ],
            "packet 1 listen 1.a\ncut\n",
        ),
    ];
    for (parts, wanted) in cases {
        assert!(rt; writes(&rt, LISTENER, parts, [LISTENING, wanted])?);
    }
    Ok(())
}

#[test]
fn bytes_that_are_no_capture_are_refused(rt: HostRuntime) -> Result<(), Fail> {
    let cases = [
        "616263",
        // Too short; another magic number; a section of pcapng without its end; version 2.3; Linux cooked capture.
        "d4c3b2a1 0200 0400 00000000 00000000 ffff0000 010000",
        "34cdb2a1 0200 0400 00000000 00000000 ffff0000 01000000",
        "0a0d0d0a 1c000000 4d3c2b1a 01000000 ffffffff ffffffff 1c0000",
        "d4c3b2a1 0200 0300 00000000 00000000 ffff0000 01000000",
        "d4c3b2a1 0200 0400 00000000 00000000 ffff0000 71000000",
    ];
    for bytes in cases {
        let input = input_of(rt.alloc(), LISTENER, &[bytes])?;
        let (status, written) = call(&rt, &["inet", "run"], input, PLAIN)?;
        assert!(rt; status == Status::BadCapture, "{bytes}");
        assert_eq!(rt; written.as_slice(), b"bad capture\n".as_slice());
    }
    // A bad line comes first.
    let input = input_of(rt.alloc(), "socket a\ncapture\n", &["616263"])?;
    let (status, written) = call(&rt, &["inet", "run"], input, PLAIN)?;
    assert!(rt; status == Status::BadScript(1));
    assert_eq!(rt; written.as_slice(), b"bad script line 1\n".as_slice());
    Ok(())
}
