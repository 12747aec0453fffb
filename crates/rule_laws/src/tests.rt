use label_index::LabelSeed;
use sock_script::parse::{Mode, ScriptEnd, parse};
use std::alloc::Global;
use std::test::Fail;

/// Texts whose last line is at the end of a range, each with one whose last line is just past it.
const LIMITS: [(&str, &str); 24] = [
    (
        "table slots 65536 bind 1 hash 1 listen 1",
        "table slots 65537 bind 1 hash 1 listen 1",
    ),
    (
        "table slots 1 bind 1 hash 1 listen 1",
        "table slots 0 bind 1 hash 1 listen 1",
    ),
    (
        "table slots 1 bind 256 hash 1 listen 1",
        "table slots 1 bind 512 hash 1 listen 1",
    ),
    (
        "table slots 1 bind 2 hash 1 listen 1",
        "table slots 1 bind 3 hash 1 listen 1",
    ),
    (
        "table slots 1 bind 1 hash 65536 listen 1",
        "table slots 1 bind 1 hash 131072 listen 1",
    ),
    (
        "table slots 1 bind 1 hash 4 listen 1",
        "table slots 1 bind 1 hash 6 listen 1",
    ),
    (
        "table slots 1 bind 1 hash 1 listen 4096",
        "table slots 1 bind 1 hash 1 listen 8192",
    ),
    (
        "table slots 1 bind 1 hash 1 listen 8",
        "table slots 1 bind 1 hash 1 listen 9",
    ),
    ("range 65534 65535", "range 65535 65536"),
    ("range 1 2", "range 0 1"),
    ("range 7 8", "range 7 7"),
    ("range 7 10", "range 7 9"),
    ("seed 4294967295", "seed 4294967296"),
    ("offset 65535", "offset 65536"),
    ("twreuse 1", "twreuse 2"),
    ("script 1\nsocket a net 15", "script 1\nsocket a net 16"),
    (
        "script 1\nsocket a uid 4294967295",
        "script 1\nsocket a uid 4294967296",
    ),
    (
        "script 1\nsocket a dev 65535",
        "script 1\nsocket a dev 65536",
    ),
    ("script 1\nsocket a dev 1", "script 1\nsocket a dev 0"),
    (
        "script 1\nsocket abcdefghijklmnop",
        "script 1\nsocket abcdefghijklmnopq",
    ),
    ("script 1\nsocket a-_Z", "script 1\nsocket a.Z"),
    (
        "script 1\nbind a 255.255.255.255:65535",
        "script 1\nbind a 255.255.255.255:65536",
    ),
    (
        "script 1\nbind a 1.2.3.255:1",
        "script 1\nbind a 1.2.3.256:1",
    ),
    ("script 1\nat 4294967295", "script 1\nat 4294967296"),
];

/// The first bad line, 0 for want of memory, and none where the text is a script.
fn bad_line(alloc: Global, text: &str) -> Option<u64> {
    match parse(alloc, LabelSeed::fixed(), text.as_bytes(), Mode::Run) {
        Ok(_) => None,
        Err(ScriptEnd::BadLine(n)) => Some(n),
        Err(ScriptEnd::Memory) => Some(0),
    }
}

#[test]
fn ranges_have_both_ends(rt: HostRuntime) -> Result<(), Fail> {
    for (within, past) in LIMITS {
        let last = if past.starts_with("script") { 2 } else { 1 };
        assert_eq!(rt; bad_line(rt.alloc(), within), None);
        assert_eq!(rt; bad_line(rt.alloc(), past), Some(last));
    }
    Ok(())
}
