//! Which lines scripts may have, and what is written for a script.

use capture_reader::Capture;
use flat_list::Reply;
use label_index::LabelSeed;
use sock_script::parse::{Mode, ScriptEnd, parse};
use sock_script::{Shown, capture, output, run};
use std::alloc::{AllocError, Global};
use std::process::Abort;

/// A text, and its first line that is outside the grammar, if one is.
type Text = (&'static [u8], Option<u64>);

/// A script, and what is written for it.
type Served = (&'static [u8], &'static [u8]);

/// Bytes and line ends.
const BYTES: [Text; 8] = [
    (b"", None),
    (b"#\0\xff\n \t\nscript 1\r\n\tsocket  a \r\n#", None),
    (b"script 1\nsocket a\0\n", Some(2)),
    (b"script 1\nsocket \xc3\xa4\n", Some(2)),
    (b"script 1\r\r\n", Some(1)),
    (b"script 1\n\rsocket a\n", Some(2)),
    (b"script 1\nsocket a", None),
    (b"script 1\nsocket", Some(2)),
];

/// Rules over earlier lines.
const EARLIER: [Text; 9] = [
    (b"bind a 1.2.3.4:5", Some(1)),
    (
        b"table slots 2 bind 1 hash 1 listen 1\nscript 1\nscript 2\n",
        None,
    ),
    (b"script 1\ntable slots 2 bind 1 hash 1 listen 1\n", Some(2)),
    (
        b"table slots 2 bind 1 hash 1 listen 1\ntable slots 2 bind 1 hash 1 listen 1\n",
        Some(2),
    ),
    (b"script 2\n", Some(1)),
    (b"script 1\nsocket a\n# two\nscript 3\n", Some(4)),
    (b"script 1\nsocket a\nsocket b\n\nsocket a\n", Some(5)),
    (b"script 1\nsocket a\nscript 2\nsocket a\n", None),
    (
        b"script 1\naccept a b from 1.2.3.4:5 at 1.2.3.4:6\nsocket b\n",
        Some(3),
    ),
];

/// Header lines come once and first.
const HEADERS: [Text; 5] = [
    (
        b"seed 4294967295\noffset 65535\n# any order\nrange 1 65534\ntable slots 2 bind 1 hash 1 listen 1\nscript 1\n",
        None,
    ),
    (b"offset 7\nrange 1000 2000\nscript 1\n", Some(2)),
    (b"range 1001 1000\nscript 1\n", Some(1)),
    (b"seed 1\noffset 2\nseed 1\n", Some(3)),
    (b"seed 1\nscript 1\noffset 2\n", Some(3)),
];

/// Reserved ports ascend.
const RESERVED: [Text; 13] = [
    (b"reserved 65535\nscript 1\n", None),
    (b"reserved 1 2 65535\nrange 1 2\nscript 1\n", None),
    (b"reserved\n", Some(1)),
    (b"reserved 0\n", Some(1)),
    (b"reserved 65536\n", Some(1)),
    (b"reserved 65535 65536\n", Some(1)),
    (b"reserved 80 80\n", Some(1)),
    (b"reserved 79 81 80\n", Some(1)),
    (b"reserved 080\n", Some(1)),
    (b"reserved 80 http\n", Some(1)),
    (b"reserved 80\nseed 1\nreserved 81\n", Some(3)),
    (b"script 1\nreserved 80\n", Some(2)),
    (b"Reserved 80\n", Some(1)),
];

/// The last option is noport.
const NOPORT: [Text; 7] = [
    (b"script 1\nsocket a noport\n", None),
    (
        b"script 1\nsocket a net 1 uid 2 dev 3 reuseaddr reuseport noport\n",
        None,
    ),
    (b"script 1\nsocket noport noport\n", None),
    (b"script 1\nsocket a noport noport\n", Some(2)),
    (b"script 1\nsocket a noport reuseport\n", Some(2)),
    (b"script 1\nsocket a noport reuseaddr\n", Some(2)),
    (b"script 1\nsocket a noport dev 1\n", Some(2)),
];

/// A capture ends the script.
const CAPTURES: [Text; 7] = [
    (b"capture", None),
    (b"capture dev 65535\nno line\n\0", None),
    (
        b"script 1\nsocket a\npackets 1000000\ncapture\nsocket a\n",
        None,
    ),
    (b"capture dev 0\n", Some(1)),
    (b"capture dev\n", Some(1)),
    (b"capture 1\n", Some(1)),
    (b"script 1\npackets 1000001\n", Some(2)),
];

/// Namespaces are sixteen, and in their place.
const NAMESPACES: [Text; 13] = [
    (b"script 1\nsocket a net 0 uid 1 dev 2 reuseaddr\n", None),
    (b"script 1\nsocket a net 16\n", Some(2)),
    (b"script 1\nsocket a net 07\n", Some(2)),
    (b"script 1\nsocket a net\n", Some(2)),
    (b"script 1\nsocket a net 1 net 1\n", Some(2)),
    (b"script 1\nsocket a uid 1 net 1\n", Some(2)),
    (
        b"script 1\nlook 10.0.0.2:5 10.0.0.1:80 dev 1 net 15\n",
        None,
    ),
    (
        b"script 1\nlook 10.0.0.2:5 10.0.0.1:80 net 1 dev 1\n",
        Some(2),
    ),
    (b"script 1\nlook 10.0.0.2:5 10.0.0.1:80 net 16\n", Some(2)),
    (b"capture net 15\nno line\n", None),
    (b"capture dev 1 net 0\nno line\n", None),
    (b"capture net 1 dev 1\n", Some(1)),
    (b"capture net 1 net 1\n", Some(1)),
];

/// Lines that a run's script and a race's have alike: handshakes, in which a label is given once, by whichever command,
/// and dumps, which have no words.
const ALIKE: [Text; 11] = [
    (
        b"script 1\nsyn a r from 10.0.0.2:1000 at 10.0.0.1:80\nack r c\n",
        None,
    ),
    (
        b"script 1\nsyn a r from 10.0.0.2:1 at 10.0.0.1:80\nsocket r\n",
        Some(3),
    ),
    (b"script 1\nsocket c\nack r c\n", Some(3)),
    (
        b"script 1\nsyn a r at 10.0.0.1:80 from 10.0.0.2:1\n",
        Some(2),
    ),
    (b"script 1\nsyn a r from 10.0.0.2:1\n", Some(2)),
    (b"script 1\nack r\n", Some(2)),
    (b"script 1\nack r c d\n", Some(2)),
    (b"script 1\ndump\n", None),
    (b"script 1\n dump\t\r\ndump\n", None),
    (b"script 1\ndump all\n", Some(2)),
    (b"dump\nscript 1\n", Some(1)),
];

/// Lookups and packets, which a run's script may have.
const LOOKS: [Text; 2] = [
    (b"script 1\nsocket a\nlook 10.0.0.2:5 10.0.0.1:80\n", None),
    (b"script 1\npackets 1\n", None),
];

/// The same, which a race's script may not have.
const LOOKS_OF_RACES: [Text; 2] = [
    (
        b"script 1\nsocket a\nlook 10.0.0.2:5 10.0.0.1:80\n",
        Some(3),
    ),
    (b"script 1\npackets 1\n", Some(2)),
];

/// Each command has its line; connected sockets have theirs.
const COMMANDS: [Served; 2] = [
    (
        b"script 1\nsocket a\nsocket b\nbind a 0.0.0.0:80\nbind b 10.0.0.1:80\n",
        b"1 socket a ok\n1 socket b ok\n1 bind a ok 80\n1 bind b EADDRINUSE\n",
    ),
    (
        b"table slots 3 bind 1 hash 1 listen 1
script 1
socket a
bind a 10.0.0.1:80
listen a
accept a c from 10.0.0.2:1000 at 10.0.0.1:80
accept a d from 10.0.0.2:1000 at 10.0.0.1:80
script 2
socket k
connect k to 10.0.0.2:80
bind k 10.0.0.1:90
connect k to 10.0.0.2:80
connect k to 10.0.0.2:81
look 10.0.0.2:80 10.0.0.1:90
look 10.0.0.2:80 10.0.0.1:80
look 10.0.0.2:80 10.0.0.1:91
socket l
bind l 255.0.0.1:65535
connect l from 255.0.0.1 to 10.0.0.3:80
drop k
drop k
",
        b"1 socket a ok
1 bind a ok 80
1 listen a ok 80
1 accept c ok
1 accept d EADDRNOTAVAIL
2 socket k ok
2 connect k EINVAL
2 bind k ok 90
2 connect k ok 10.0.0.1:90
2 connect k EISCONN
2 look full 2.k
2 look listen 1.a
2 look none
2 socket l ok
2 bind l ok 65535
2 connect l ENFILE 3 0
2 drop k ok
2 drop k EBADF
",
    ),
];

/// Handshakes have their lines.
const HANDSHAKES: [Served; 1] = [(
    b"script 1
socket a
bind a 10.0.0.1:80
listen a
syn a r from 10.0.0.2:1000 at 10.0.0.1:80
syn a s from 10.0.0.2:1000 at 10.0.0.1:80
syn s t from 10.0.0.2:1001 at 10.0.0.1:80
look 10.0.0.2:1000 10.0.0.1:80
dump
ack a c
ack r d
look 10.0.0.2:1000 10.0.0.1:80
ack r e
close d
syn a f from 10.0.0.2:1000 at 10.0.0.1:80
dump
drop f
look 10.0.0.2:1000 10.0.0.1:80
",
    b"1 socket a ok
1 bind a ok 80
1 listen a ok 80
1 syn r ok
1 syn s EADDRNOTAVAIL
1 syn t EBADF
1 look request 1.r
1 dump 2
1 item listen 1.a 10.0.0.1:80 0.0.0.0:0 dev 0
1 item request 1.r 10.0.0.1:80 10.0.0.2:1000 dev 0
1 ack c EINVAL
1 ack d ok
1 look full 1.d
1 ack e EBADF
1 close d ok time-wait
1 syn f ok
1 dump 2
1 item listen 1.a 10.0.0.1:80 0.0.0.0:0 dev 0
1 item request 1.f 10.0.0.1:80 10.0.0.2:1000 dev 0
1 drop f ok
1 look listen 1.a
",
)];

/// Ports are searched as the header says; a search passes reserved ports by; late ports are taken by connect and
/// listen.
const SEARCHES: [Served; 3] = [
    (
        b"offset 5
range 1000 1003
script 1
socket a
bind a 0.0.0.0:0
socket b
bind b 10.0.0.1:0
socket c
listen c
socket d
connect d from 10.0.0.1 to 10.0.0.2:80
socket e
bind e 10.0.0.1:0
",
        b"1 socket a ok
1 bind a ok 1001
1 socket b ok
1 bind b ok 1003
1 socket c ok
1 listen c ok 1000
1 socket d ok
1 connect d ok 10.0.0.1:1002
1 socket e ok
1 bind e EADDRINUSE
",
    ),
    (
        b"range 40000 40003
offset 0
reserved 40001 40003
script 1
socket a
bind a 0.0.0.0:0
socket b
bind b 0.0.0.0:0
socket c
bind c 0.0.0.0:0
socket d
bind d 0.0.0.0:40001
",
        b"1 socket a ok
1 bind a ok 40000
1 socket b ok
1 bind b ok 40002
1 socket c ok
1 bind c EADDRINUSE
1 socket d ok
1 bind d ok 40001
",
    ),
    (
        b"range 40000 40001
script 1
socket a noport
bind a 10.0.0.1:0
socket b noport
bind b 10.0.0.1:0
connect a to 10.0.0.2:80
connect b to 10.0.0.2:81
socket c noport
bind c 10.0.0.9:0
listen c
look 10.0.0.2:5 10.0.0.9:40001
look 10.0.0.2:5 10.0.0.7:40001
",
        b"1 socket a ok
1 bind a ok 0
1 socket b ok
1 bind b ok 0
1 connect a ok 10.0.0.1:40000
1 connect b ok 10.0.0.1:40000
1 socket c ok
1 bind c ok 0
1 listen c ok 40001
1 look listen 1.c
1 look none
",
    ),
];

/// Two tenants have one end.
const TENANTS: [Served; 1] = [(
    b"script 1
socket a
bind a 10.0.0.1:80
listen a
socket b net 1
bind b 10.0.0.1:80
listen b
look 10.0.0.2:5 10.0.0.1:80
look 10.0.0.2:5 10.0.0.1:80 net 1
look 10.0.0.2:5 10.0.0.1:80 net 2
socket c
bind c 10.0.0.1:90
socket d net 1
bind d 10.0.0.1:90
connect c to 10.0.0.2:80
connect d to 10.0.0.2:80
",
    b"1 socket a ok
1 bind a ok 80
1 listen a ok 80
1 socket b ok
1 bind b ok 80
1 listen b ok 80
1 look listen 1.a
1 look listen 1.b
1 look none
1 socket c ok
1 bind c ok 90
1 socket d ok
1 bind d ok 90
1 connect c ok 10.0.0.1:90
1 connect d ok 10.0.0.1:90
",
)];

/// A dump has a line for each socket, of all sections and namespaces, and of waits.
const DUMPS: [Served; 3] = [
    (b"script 1\ndump\n", b"1 dump 0\n"),
    (
        b"script 1\nsocket a\nbind a 10.0.0.1:80\nlisten a\ndump\n",
        b"1 socket a ok
1 bind a ok 80
1 listen a ok 80
1 dump 1
1 item listen 1.a 10.0.0.1:80 0.0.0.0:0 dev 0
",
    ),
    (
        b"script 1
socket late
socket a
bind a 10.0.0.1:80
listen a
accept a c from 10.0.0.2:1000 at 10.0.0.1:80
dump
script 2
socket b net 15 dev 3
bind b 0.0.0.0:80
dump
listen b
dump
script 3
socket k
bind k 10.0.0.3:90
connect k to 10.0.0.2:80
close k
bind k 10.0.0.3:90
drop k
dump
",
        b"1 socket late ok
1 socket a ok
1 bind a ok 80
1 listen a ok 80
1 accept c ok
1 dump 2
1 item listen 1.a 10.0.0.1:80 0.0.0.0:0 dev 0
1 item full 1.c 10.0.0.1:80 10.0.0.2:1000 dev 0
2 socket b ok
2 bind b ok 80
2 dump 2
2 item listen 1.a 10.0.0.1:80 0.0.0.0:0 dev 0
2 item full 1.c 10.0.0.1:80 10.0.0.2:1000 dev 0
2 listen b ok 80
2 dump 3
2 item listen 1.a 10.0.0.1:80 0.0.0.0:0 dev 0
2 item full 1.c 10.0.0.1:80 10.0.0.2:1000 dev 0
2 item listen 2.b 0.0.0.0:80 0.0.0.0:0 dev 3 net 15
3 socket k ok
3 bind k ok 90
3 connect k ok 10.0.0.3:90
3 close k ok time-wait
3 bind k EBADF
3 drop k EBADF
3 dump 4
3 item listen 1.a 10.0.0.1:80 0.0.0.0:0 dev 0
3 item full 1.c 10.0.0.1:80 10.0.0.2:1000 dev 0
3 item listen 2.b 0.0.0.0:80 0.0.0.0:0 dev 3 net 15
3 item time-wait 3.k 10.0.0.3:90 10.0.0.2:80 dev 0
",
    ),
];

/// The first bad line, 0 for want of memory, and none where the text is a script.
fn bad_line(alloc: Global, text: &[u8], mode: Mode) -> Option<u64> {
    match parse(alloc, LabelSeed::fixed(), text, mode) {
        Ok(_) => None,
        Err(ScriptEnd::BadLine(n)) => Some(n),
        Err(ScriptEnd::Memory) => Some(0),
    }
}

/// Asserts of each text which of its lines is the first outside the grammar.
fn check_lines(rt: &impl Abort, alloc: Global, mode: Mode, about: &str, texts: &[Text]) {
    for (place, (text, line)) in texts.iter().enumerate() {
        let found = bad_line(alloc, text, mode);
        assert!(rt; found == *line, "text {place} of {about}");
    }
}

/// What is written for a text that is a script.
fn output_of(alloc: Global, text: &[u8]) -> Result<Vec<u8>, ScriptEnd> {
    let script = parse(alloc, LabelSeed::fixed(), text, Mode::Run)?;
    if text.len() > 1 << 24 {
        return Err(ScriptEnd::Memory);
    }
    let capture = capture::read(alloc, &script, text).map_err(|_| ScriptEnd::Memory)?;
    let replies = run::replies(alloc, &script, capture.items())?;
    Ok(output::text(alloc, &script, &capture, &replies.each, &replies.listings)?)
}

/// Whether this is written for a text that is a script.
fn is_written(alloc: Global, text: &[u8], wanted: &[u8]) -> Result<bool, ScriptEnd> {
    Ok(output_of(alloc, text)?.as_slice() == wanted)
}

/// Asserts of each script what is written for it.
fn check_outputs(rt: &impl Abort, alloc: Global, about: &str, scripts: &[Served]) {
    for (place, (text, wanted)) in scripts.iter().enumerate() {
        let written = is_written(alloc, text, wanted);
        assert!(rt; matches!(written, Ok(true)), "script {place} of {about}");
    }
}

/// So many section lines.
fn sections(alloc: Global, count: u32) -> Result<String, AllocError> {
    let mut text = String::new(alloc);
    for i in 0..count {
        write!(text, "script {}\n", i.wrapping_add(1))?;
    }
    Ok(text)
}

/// A line of so many reserved ports, from 1 on.
fn reserved(alloc: Global, count: u32) -> Result<String, AllocError> {
    let mut text = String::from_str(alloc, "reserved")?;
    for i in 0..count {
        write!(text, " {}", i.wrapping_add(1))?;
    }
    Ok(text)
}

fn check_line(rt: &impl Abort, alloc: Global, text: &str, line: Option<u64>) {
    assert!(rt; bad_line(alloc, text.as_bytes(), Mode::Run) == line);
}

#[test]
fn lines_of_runs_and_races(rt: HostRuntime) {
    let alloc = rt.alloc();
    check_lines(&rt, alloc, Mode::Run, "bytes", &BYTES);
    check_lines(&rt, alloc, Mode::Run, "rules over earlier lines", &EARLIER);
    check_lines(&rt, alloc, Mode::Run, "headers", &HEADERS);
    check_lines(&rt, alloc, Mode::Run, "reserved ports", &RESERVED);
    check_lines(&rt, alloc, Mode::Run, "noport", &NOPORT);
    check_lines(&rt, alloc, Mode::Run, "captures", &CAPTURES);
    check_lines(&rt, alloc, Mode::Run, "namespaces", &NAMESPACES);
    check_lines(&rt, alloc, Mode::Run, "handshakes and dumps", &ALIKE);
    check_lines(&rt, alloc, Mode::Race, "handshakes and dumps", &ALIKE);
    check_lines(&rt, alloc, Mode::Run, "lookups of a run", &LOOKS);
    check_lines(&rt, alloc, Mode::Race, "lookups of a race", &LOOKS_OF_RACES);
}

#[test]
fn sections_and_reserved_ports_are_sixty_four_at_most(rt: HostRuntime) -> Result<(), AllocError> {
    let alloc = rt.alloc();
    check_line(&rt, alloc, sections(alloc, 64)?.as_str(), None);
    check_line(&rt, alloc, sections(alloc, 65)?.as_str(), Some(65));
    check_line(&rt, alloc, reserved(alloc, 64)?.as_str(), None);
    check_line(&rt, alloc, reserved(alloc, 65)?.as_str(), Some(1));
    Ok(())
}

#[test]
fn outputs_of_scripts(rt: HostRuntime) {
    let alloc = rt.alloc();
    check_outputs(&rt, alloc, "commands", &COMMANDS);
    check_outputs(&rt, alloc, "handshakes", &HANDSHAKES);
    check_outputs(&rt, alloc, "searches", &SEARCHES);
    check_outputs(&rt, alloc, "tenants", &TENANTS);
    check_outputs(&rt, alloc, "dumps", &DUMPS);
}

/// What is written for a dump without a listing, and what stands behind it.
fn output_without_a_listing(alloc: Global) -> Result<Vec<u8>, ScriptEnd> {
    let text = b"script 1\ndump\nreap\n";
    let script = parse(alloc, LabelSeed::fixed(), text, Mode::Run)?;
    let capture = Capture::new(alloc);
    let replies = Shown::of_each(alloc, &[Reply::Ok, Reply::Count(0)])?;
    Ok(output::text(alloc, &script, &capture, &replies, &[])?)
}

#[test]
fn a_dump_without_a_listing_has_no_line(rt: HostRuntime) -> Result<(), ScriptEnd> {
    let out = output_without_a_listing(rt.alloc())?;
    assert!(rt; out.as_slice() == b"1 reap ok 0\n".as_slice());
    Ok(())
}
