//! Captures, written in hexadecimal, and the items that are read of them.

use capture_reader::{CaptureEnd, Item, packets};
use sock_card::Packet;
use std::alloc::Global;
use std::process::Abort;

/// A header of an Ethernet capture from a machine with the lowest byte first.
const HEADER: &str = "d4c3b2a1 0200 0400 00000000 00000000 ffff0000 01000000";

/// Four records: a packet, a frame of ARP, a packet beneath a tag, and a fragment; then half a record.
const RECORDS: &str = "
    00000000 00000000 26000000 36000000
    000000000000 000000000000 0800 45000028 00000000 40060000 0a000002 0a000001 03e80050
    00000000 00000000 0e000000 0e000000
    000000000000 000000000000 0806
    00000000 00000000 2a000000 3a000000
    000000000000 000000000000 8100 0005 0800 45000028 00000000 40060000 0a000002 0a000001 03e80050
    00000000 00000000 26000000 36000000
    000000000000 000000000000 0800 45000028 00000001 40060000 0a000002 0a000001 03e80050
    00000000 00000000";

/// A section whose numbers have the lowest byte first, an Ethernet interface and one of another link type, a simple
/// packet, and a packet of each interface.
const BLOCKS: &str = "
    0a0d0d0a 1c000000 4d3c2b1a 0100 0000 ffffffff ffffffff 1c000000
    01000000 14000000 0100 0000 00000000 14000000
    01000000 14000000 7100 0000 00000000 14000000
    03000000 10000000 00000000 10000000
    06000000 48000000 00000000 00000000 00000000 26000000 36000000
    000000000000 000000000000 0800 45000028 00000000 40060000 0a000002 0a000001 03e80050 0000 48000000
    06000000 20000000 01000000 00000000 00000000 00000000 36000000 20000000";

/// A section whose numbers have the highest byte first, with an option, an interface of raw IP, and a packet of it
/// with an option behind its bytes.
const BIG_BLOCKS: &str = "
    0a0d0d0a 00000024 1a2b3c4d 0001 0000 ffffffff ffffffff 0004 0003 61626300 00000024
    00000001 00000014 0065 0000 00000000 00000014
    00000006 00000040 00000000 00000000 00000000 00000018 00000028
    45000028 00000000 40060000 0a000002 0a000001 03e80050 0001 0002 61620000 00000040";

/// What `dumpcap -P -i lo -s 58` wrote of a connection, a datagram of UDP and a refused connection, as `editcap -F
/// pcapng` made it a capture in blocks: examples/loopback.pcapng.
const LOOPBACK: &str = "
    0a0d0d0a6c0000004d3c2b1a01000000ffffffffffffffff0400450045646974636170202857697265736861726b2920342e302e
    313720284769742076342e302e3137207061636b6167656420617320342e302e31372d302b646562313275332900000000000000
    6c0000000100000014000000010000003a00000014000000060000005c0000000000000044610600a208c3e73a0000004a000000
    00000000000000000000000008004500003c2c2d40004006108d7f0000017f0000019c411f90e6d6bee600000000a002ffd7fe30
    00000204ffd700005c000000060000005c0000000000000044610600ac08c3e73a0000004a000000000000000000000000000000
    08004500003c0000400040063cba7f0000017f0000011f909c41aa79d9d5e6d6bee7a012ffcbfe3000000204ffd700005c000000
    060000005c0000000000000044610600b608c3e73a000000420000000000000000000000000000000800450000342c2e40004006
    10947f0000017f0000019c411f90e6d6bee7aa79d9d680100040fe2800000101080a00005c000000060000004c00000000000000
    44610600ee08c3e72b0000002b00000000000000000000000000000008004500001dbb374000401181967f0000017f0000019c43
    270f0009fe1c78004c000000060000005c0000000000000044610600fc08c3e73a0000004a000000000000000000000000000000
    08004500003c14f44000400627c67f0000017f0000019c441f91c5802ccc00000000a002ffd7fe3000000204ffd700005c000000
    060000005800000000000000446106000009c3e73600000036000000000000000000000000000000080045000028000040004006
    3cce7f0000017f0000011f919c4400000000c5802ccd5014000003ab0000000058000000060000005c0000000000000044610600
    4909c3e73a000000420000000000000000000000000000000800450000342c2f4000400610937f0000017f0000019c411f90e6d6
    bee7aa79d9d680110040fe2800000101080a00005c000000060000005c00000000000000446106005609c3e73a00000042000000
    000000000000000000000000080045000034719940004006cb287f0000017f0000011f909c41aa79d9d6e6d6bee880110040fe28
    00000101080a00005c000000060000005c00000000000000446106005e09c3e73a00000042000000000000000000000000000000
    0800450000342c304000400610927f0000017f0000019c411f90e6d6bee8aa79d9d780100040fe2800000101080a00005c000000";

/// The packet that the captures hold, from 10.0.0.2:1000 to 10.0.0.1:80, as it comes in by that device of that
/// namespace.
fn packet(dev: u16, net: u8) -> Packet {
    Packet {
        src: 0x0a00_0002,
        sport: 1000,
        dst: 0x0a00_0001,
        dport: 80,
        dev,
        net,
    }
}

/// The same by no device, in the first namespace.
const FOUND: Item = Item::Packet(Packet {
    src: 0x0a00_0002,
    sport: 1000,
    dst: 0x0a00_0001,
    dport: 80,
    dev: 0,
    net: 0,
});

/// A record of that packet in a capture of raw IP, its numbers with the lowest byte first or with the highest.
const LITTLE: &str = "00000000 00000000 18000000 18000000
    45000028 00000000 40060000 0a000002 0a000001 03e80050";

const BIG: &str = "00000000 00000000 00000018 00000018
    45000028 00000000 40060000 0a000002 0a000001 03e80050";

/// Each header of raw IP that is read, with a record in its order.
const HEADERS: [(&str, &str); 4] = [
    (
        "d4c3b2a1 0200 0400 00000000 00000000 ffff0000 65000000",
        LITTLE,
    ),
    (
        "4d3cb2a1 0200 0400 01000000 02000000 00000000 e4000000",
        LITTLE,
    ),
    (
        "a1b2c3d4 0002 0004 00000000 00000000 0000ffff 00000065",
        BIG,
    ),
    (
        "a1b23c4d 0002 0004 00000001 00000002 00000000 000000e4",
        BIG,
    ),
];

/// Headers that are refused.
const REFUSED: [&str; 9] = [
    "d4c3b2a1 0200 0400 00000000 00000000 ffff0000 010000",
    "34cdb2a1 0200 0400 00000000 00000000 ffff0000 01000000",
    "0a0d0d0a 1c000000 4d3c2b1a 01000000 ffffffff ffffffff",
    "d4c3b2a1 0100 0400 00000000 00000000 ffff0000 01000000",
    "d4c3b2a1 0200 0300 00000000 00000000 ffff0000 01000000",
    "d4c3b2a1 0002 0004 00000000 00000000 ffff0000 01000000",
    "d4c3b2a1 0200 0400 00000000 00000000 ffff0000 00000001",
    "d4c3b2a1 0200 0400 00000000 00000000 ffff0000 71000000",
    "d4c3b2a1 0200 0400 00000000 00000000 ffff0000 65000100",
];

/// Records behind their times, each with its item: each test of a stored packet.
const STORED: [(&str, Item); 14] = [
    // A frame without a whole EtherType, and one without what stands after its tag.
    (
        "0d000000 0d000000 000000000000 000000000000 08",
        Item::Short,
    ),
    (
        "11000000 11000000 000000000000 000000000000 8100 0005 08",
        Item::Short,
    ),
    // IPv6, and two tags.
    (
        "0e000000 0e000000 000000000000 000000000000 86dd",
        Item::Skip,
    ),
    (
        "12000000 12000000 000000000000 000000000000 8100 0005 8100",
        Item::Skip,
    ),
    // An IP header that isn't whole.
    (
        "21000000 21000000 000000000000 000000000000 0800
        45000028 00000000 40060000 0a000002 0a0000",
        Item::Short,
    ),
    // Version 6, and a header of four words.
    (
        "22000000 22000000 000000000000 000000000000 0800
        65000028 00000000 40060000 0a000002 0a000001",
        Item::Skip,
    ),
    (
        "26000000 26000000 000000000000 000000000000 0800
        44000028 00000000 40060000 0a000002 0a000001 03e80050",
        Item::Skip,
    ),
    // UDP, and a later fragment: neither needs its ports.
    (
        "22000000 22000000 000000000000 000000000000 0800
        45000028 00000000 40110000 0a000002 0a000001",
        Item::Skip,
    ),
    (
        "22000000 22000000 000000000000 000000000000 0800
        45000028 00001000 40060000 0a000002 0a000001",
        Item::Skip,
    ),
    // The first fragment of several, one that may not be cut into fragments, and one with options.
    (
        "26000000 26000000 000000000000 000000000000 0800
        45000028 00002000 40060000 0a000002 0a000001 03e80050",
        FOUND,
    ),
    (
        "26000000 26000000 000000000000 000000000000 0800
        45000028 00004000 40060000 0a000002 0a000001 03e80050",
        FOUND,
    ),
    (
        "2a000000 2a000000 000000000000 000000000000 0800
        4600002c 00000000 40060000 0a000002 0a000001 01010100 03e80050",
        FOUND,
    ),
    // Ports that aren't whole, with options and without.
    (
        "25000000 25000000 000000000000 000000000000 0800
        45000028 00000000 40060000 0a000002 0a000001 03e800",
        Item::Short,
    ),
    (
        "26000000 26000000 000000000000 000000000000 0800
        4600002c 00000000 40060000 0a000002 0a000001 01010100",
        Item::Short,
    ),
];

/// Blocks that are not valid, and so end a capture.
const INVALID: [&str; 10] = [
    // Lengths: not a multiple of four, too small, greater than what is left, and two that differ.
    "05000000 0d000000 00 0d000000",
    "05000000 08000000 08000000",
    "05000000 10000000 10000000",
    "05000000 0c000000 10000000",
    // A section of another mark, one of another major version, and one that is too short.
    "0a0d0d0a 1c000000 4e3c2b1a 0100 0000 ffffffff ffffffff 1c000000",
    "0a0d0d0a 1c000000 4d3c2b1a 0200 0000 ffffffff ffffffff 1c000000",
    "0a0d0d0a 18000000 4d3c2b1a 0100 0000 ffffffff 18000000",
    // An interface that is too short; a packet of an interface that isn't there,
    // and of more bytes than there are.
    "01000000 10000000 0100 0000 10000000",
    "06000000 20000000 02000000 00000000 00000000 00000000 00000000 20000000",
    "06000000 24000000 00000000 00000000 00000000 05000000 05000000 0a0b0c0d 24000000",
];

/// The bytes of these parts, which are written in hexadecimal, with blanks between some of them.
fn bytes_of(alloc: Global, parts: &[&str]) -> Option<Vec<u8>> {
    let mut bytes = Vec::new(alloc);
    for part in parts {
        for word in part.split_ascii_whitespace() {
            let some = hex::decode(alloc, word).ok()?;
            bytes.extend_from_slice(some.as_slice()).ok()?;
        }
    }
    Some(bytes)
}

/// Whether a capture has these items, and whether it is cut as stated.
fn reads(alloc: Global, bytes: &[u8], dev: u16, net: u8, items: &[Item], cut: bool) -> bool {
    match packets(alloc, bytes, dev, net) {
        Ok(capture) => capture.items() == items && capture.is_cut() == cut,
        Err(_) => false,
    }
}

/// Asserts that a capture of these parts has these items, and is cut as stated.
fn check_items(rt: &impl Abort, alloc: Global, parts: &[&str], items: &[Item], cut: bool) {
    let right = bytes_of(alloc, parts).map(|bytes| reads(alloc, &bytes, 0, 0, items, cut));
    let last = parts.last().copied().unwrap_or("");
    assert!(rt; right == Some(true), "{last}");
}

/// Whether a capture of these bytes has an item for each record that is whole, and is cut unless it ends where a part
/// of it does; or whether it is refused, if its head isn't whole.
fn is_cut_right(
    alloc: Global,
    bytes: &[u8],
    head: usize,
    records: &[usize],
    ends: &[usize],
) -> bool {
    let len = bytes.len();
    let capture = packets(alloc, bytes, 0, 0);
    if 0 < len && len < head {
        return matches!(capture, Err(CaptureEnd::BadHead));
    }
    let whole = records.iter().filter(|end| **end <= len).count();
    match capture {
        Ok(capture) => capture.items().len() == whole && capture.is_cut() != ends.contains(&len),
        Err(_) => false,
    }
}

/// Asserts that of the first bytes of a capture, however many they are.
fn check_cuts(
    rt: &impl Abort,
    alloc: Global,
    bytes: &[u8],
    head: usize,
    records: &[usize],
    ends: &[usize],
) {
    for len in 0..=bytes.len() {
        let right = is_cut_right(alloc, &bytes[..len], head, records, ends);
        assert!(rt; right, "at {len}");
    }
}

/// Asserts of each header, with its record, that the packet is found.
fn check_headers(rt: &impl Abort, alloc: Global, rows: &[(&str, &str)]) {
    for (header, record) in rows {
        check_items(rt, alloc, &[header, record], &[FOUND], false);
    }
}

/// Whether a capture that begins with this header is refused.
fn is_refused(alloc: Global, header: &str) -> bool {
    match bytes_of(alloc, &[header]) {
        Some(bytes) => matches!(packets(alloc, &bytes, 0, 0), Err(CaptureEnd::BadHead)),
        None => false,
    }
}

fn check_refused(rt: &impl Abort, alloc: Global, headers: &[&str]) {
    for header in headers {
        assert!(rt; is_refused(alloc, header), "{header}");
    }
}

/// Asserts of each record, behind its times, which item it is.
fn check_stored(rt: &impl Abort, alloc: Global, rows: &[(&str, Item)]) {
    for (record, item) in rows {
        let parts = [HEADER, "00000000 00000000", record];
        check_items(rt, alloc, &parts, &[*item], false);
    }
}

/// Asserts of each block that it ends the capture behind whose blocks it stands.
fn check_invalid(rt: &impl Abort, alloc: Global, blocks: &[&str]) {
    for block in blocks {
        check_items(rt, alloc, &[BLOCKS, block], &[FOUND, Item::Skip], true);
    }
}

/// Whether the four records are read as they are to be, of a device in a namespace.
fn reads_records(alloc: Global, bytes: &[u8]) -> bool {
    let found = Item::Packet(packet(7, 15));
    let items = [found, Item::Skip, found, Item::Skip];
    bytes.len() == 228 && reads(alloc, bytes, 7, 15, &items, true)
}

#[test]
fn packets_are_found_with_a_tag_and_without(rt: HostRuntime) {
    let bytes = bytes_of(rt.alloc(), &[HEADER, RECORDS]).expect(&rt, "no bytes");
    assert!(rt; reads_records(rt.alloc(), &bytes));
}

#[test]
fn a_capture_may_be_cut_anywhere(rt: HostRuntime) {
    let records = bytes_of(rt.alloc(), &[HEADER, RECORDS]).expect(&rt, "no bytes");
    check_cuts(
        &rt,
        rt.alloc(),
        &records,
        24,
        &[78, 108, 166, 220],
        &[0, 24, 78, 108, 166, 220],
    );
    let blocks = bytes_of(rt.alloc(), &[BLOCKS, BIG_BLOCKS]).expect(&rt, "no bytes");
    check_cuts(
        &rt,
        rt.alloc(),
        &blocks,
        28,
        &[156, 188, 308],
        &[0, 28, 48, 68, 84, 156, 188, 224, 244, 308],
    );
}

#[test]
fn each_header_and_each_test_of_a_stored_packet(rt: HostRuntime) {
    check_headers(&rt, rt.alloc(), &HEADERS);
    check_refused(&rt, rt.alloc(), &REFUSED);
    check_stored(&rt, rt.alloc(), &STORED);
}

#[test]
fn blocks_in_either_order(rt: HostRuntime) {
    let alloc = rt.alloc();
    check_items(&rt, alloc, &[BLOCKS], &[FOUND, Item::Skip], false);
    check_items(&rt, alloc, &[BIG_BLOCKS], &[FOUND], false);
    check_items(
        &rt,
        alloc,
        &[BLOCKS, BIG_BLOCKS],
        &[FOUND, Item::Skip, FOUND],
        false,
    );
    check_items(
        &rt,
        alloc,
        &[BIG_BLOCKS, BLOCKS],
        &[FOUND, FOUND, Item::Skip],
        false,
    );
}

#[test]
fn what_is_not_valid_ends_a_capture(rt: HostRuntime) {
    check_invalid(&rt, rt.alloc(), &INVALID);
    // The interfaces of a section are its own.
    let section = "0a0d0d0a 1c000000 4d3c2b1a 0100 0000 ffffffff ffffffff 1c000000";
    let packet = "06000000 20000000 00000000 00000000 00000000 00000000 00000000 20000000";
    check_items(&rt, rt.alloc(), &[section, packet], &[], true);
    // No stored length is refused.
    let record = "00000000 00000000 ffffffff ffffffff 00";
    check_items(&rt, rt.alloc(), &[HEADER, record], &[], true);
}

/// A packet between those ports of 127.0.0.1.
fn local(sport: u16, dport: u16) -> Item {
    Item::Packet(Packet {
        src: 0x7f00_0001,
        sport,
        dst: 0x7f00_0001,
        dport,
        dev: 0,
        net: 0,
    })
}

#[test]
fn a_capture_that_a_tool_wrote(rt: HostRuntime) {
    let (there, back) = (local(40001, 8080), local(8080, 40001));
    let items = [
        there,
        back,
        there,
        Item::Skip,
        local(40004, 8081),
        local(8081, 40004),
        there,
        back,
        there,
    ];
    check_items(&rt, rt.alloc(), &[LOOPBACK], &items, false);
}
