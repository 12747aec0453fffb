//! A line of each form, and one of a million words.

use sock_script::form::{command_of, other_of};
use std::alloc::{AllocError, Global};
use std::process::Abort;

const LINES: [&[&[u8]]; 26] = [
    &[b"#socket"],
    &[
        b"table", b"slots", b"65536", b"bind", b"256", b"hash", b"1", b"listen", b"4096",
    ],
    &[b"range", b"32768", b"60999"],
    &[b"reserved", b"1", b"65535"],
    &[b"seed", b"0"],
    &[b"offset", b"0"],
    &[b"twreuse", b"1"],
    &[b"script", b"64"],
    &[
        b"socket",
        b"a-1",
        b"net",
        b"15",
        b"uid",
        b"4294967295",
        b"dev",
        b"7",
        b"reuseaddr",
        b"reuseport",
        b"noport",
    ],
    &[b"bind", b"a-1", b"10.0.0.1:80"],
    &[b"listen", b"a-1"],
    &[
        b"connect",
        b"b",
        b"from",
        b"10.0.0.2",
        b"to",
        b"10.0.0.1:80",
    ],
    &[
        b"accept",
        b"a-1",
        b"c",
        b"from",
        b"10.0.0.2:0",
        b"at",
        b"10.0.0.1:80",
    ],
    &[
        b"syn",
        b"a-1",
        b"r",
        b"from",
        b"10.0.0.2:1",
        b"at",
        b"10.0.0.1:80",
    ],
    &[b"ack", b"r", b"s"],
    &[b"close", b"c"],
    &[b"drop", b"b"],
    &[b"at", b"4294967295"],
    &[b"reap"],
    &[b"look", b"10.0.0.2:0", b"10.0.0.1:80", b"net", b"0"],
    &[
        b"look",
        b"10.0.0.2:0",
        b"10.0.0.1:80",
        b"dev",
        b"65535",
        b"net",
        b"15",
    ],
    &[b"packets", b"1000000"],
    &[b"dump"],
    &[b"capture"],
    &[b"capture", b"net", b"15"],
    &[b"capture", b"dev", b"65535", b"net", b"0"],
];

/// Whether a line of these words is of some form.
fn has_form(alloc: Global, words: &[&[u8]]) -> Result<bool, AllocError> {
    Ok(command_of(alloc, words)?.is_some() || other_of(words).is_some())
}

fn check_form(rt: &impl Abort, alloc: Global, words: &[&[u8]], expected: bool) {
    let found = has_form(alloc, words);
    assert!(rt; matches!(found, Ok(has) if has == expected));
}

/// Asserts that each line is of some form.
fn check_forms(rt: &impl Abort, alloc: Global, lines: &[&[&[u8]]]) {
    for words in lines {
        check_form(rt, alloc, words, true);
    }
}

#[test]
fn a_line_of_each_form_is_read(rt: HostRuntime) {
    check_forms(&rt, rt.alloc(), &LINES);
}

#[test]
fn a_line_of_a_million_words_is_refused(rt: HostRuntime) -> Result<(), AllocError> {
    let mut words: Vec<&[u8]> = Vec::new(rt.alloc());
    words.push(b"socket")?;
    words.push(b"a")?;
    for _ in 0..1_000_000 {
        words.push(b"reuseaddr")?;
    }
    check_form(&rt, rt.alloc(), &words, false);
    Ok(())
}
