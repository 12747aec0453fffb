//! Audits: of texts that differ in one number, of what races wrote, and over ends that fail.

use crate::captures::{HEADER, RECORDS, input_of};
use crate::tests::{Ends, PLAIN, call};
use inet_tool::Status;
use std::test::Fail;

const AUDIT: [&str; 2] = ["inet", "audit"];

const RACE: [&str; 6] = ["inet", "race", "--lookers", "2", "--passes", "1"];

/// One listener.
const SCRIPT: &str =
    "table slots 2 bind 1 hash 1 listen 1\nscript 1\nsocket a\nbind a 10.0.0.1:80\nlisten a\n";

/// The text of a race of it, up to its life's numbers.
const FRONT: &str =
    "race lookers 1 passes 1\nshape 2 1 1 1 seed 0\n1 socket a ok\n1 bind a ok 80\n1 listen a ok 80\n\
    journal 0 3\nlife 1 0 listen 1.a 10.0.0.1:80 0.0.0.0:0 dev 0 ";

/// How that text may end, with what is written for it, and the status.
const ROWS: [(&str, &str, Status); 7] = [
    (
        "hash 0 1 unhash -\nclock 2\n",
        "yes lives 1 packets 0 clock 2\n",
        Status::Done,
    ),
    (
        "hash 0 1 unhash -\nclock 3\n",
        "no line 8 count\n",
        Status::Refuted(8),
    ),
    (
        "hash 1 1 unhash -\nclock 2\n",
        "no line 7 stamp\n",
        Status::Refuted(7),
    ),
    (
        "hash 0 1 unhash -\npacket 1 none t0 2 t1 2 from 10.0.0.2:1000 to 10.0.0.1:80 dev 0\nclock 2\n",
        "no line 8 receipt\n",
        Status::Refuted(8),
    ),
    (
        "hash 0 1 unhash -\n",
        "bad record line 8\n",
        Status::BadRecord(8),
    ),
    (
        "hash 0 1 unhash -\nclock 2",
        "bad record line 8\n",
        Status::BadRecord(8),
    ),
    (
        "hash 0 01 unhash -\nclock 2\n",
        "bad record line 7\n",
        Status::BadRecord(7),
    ),
];

#[test]
fn texts_that_differ_in_one_number(rt: HostRuntime) -> Result<(), Fail> {
    let alloc = rt.alloc();
    for (end, written, status) in ROWS {
        let text = format!(in alloc; "{FRONT}{end}")?;
        let answer = call(&rt, &AUDIT, text.into_bytes(), PLAIN)?;
        assert!(rt; answer.0 == status, "status of {end}");
        assert_eq!(rt; answer.1.as_slice(), written.as_bytes());
    }
    let nothing = call(&rt, &AUDIT, Vec::new(alloc), PLAIN)?;
    assert!(rt; nothing.0 == Status::BadRecord(1));
    assert_eq!(rt; nothing.1.as_slice(), b"bad record line 1\n".as_slice());
    Ok(())
}

#[test]
fn what_a_race_with_packets_wrote(rt: HostRuntime) -> Result<(), Fail> {
    let alloc = rt.alloc();
    let script = format!(in alloc; "{SCRIPT}capture\n")?;
    let input = input_of(alloc, script.as_str(), &[HEADER, RECORDS])?;
    let (status, text) = call(&rt, &RACE, input, PLAIN)?;
    assert!(rt; status == Status::Done);
    let (status, written) = call(&rt, &AUDIT, text, PLAIN)?;
    assert!(rt; status == Status::Done);
    assert_eq!(rt;
        written.as_slice(),
        b"yes lives 1 packets 4 clock 2\n".as_slice()
    );
    Ok(())
}

#[test]
fn ends_that_fail(rt: HostRuntime) -> Result<(), Fail> {
    let alloc = rt.alloc();
    for (end, _, _) in ROWS {
        let text = format!(in alloc; "{FRONT}{end}")?;
        let unread = Ends {
            failing_reads: &[1],
            ..PLAIN
        };
        let answer = call(&rt, &AUDIT, text.as_bytes().to_vec(alloc)?, unread)?;
        assert!(rt; answer.0 == Status::ReadFault && answer.1.is_empty());
        let unwritten = Ends {
            most_written: 3,
            failing_writes: &[2],
            ..PLAIN
        };
        let answer = call(&rt, &AUDIT, text.into_bytes(), unwritten)?;
        assert!(rt; answer.0 == Status::WriteFault && answer.1.len() == 3);
    }
    Ok(())
}
