//! Races: of one section, whose text is the same whatever the schedule, and what a race refuses.

use crate::tests::{PLAIN, call};
use inet_tool::Status;
use std::test::Fail;

/// The words that ask for a race with one looker, whose lookups have one pass.
const WORDS: [&str; 6] = ["inet", "race", "--lookers", "1", "--passes", "1"];

/// Scripts for a race, each with what is written for it: no section, one listener, one in a network namespace, a
/// refusal, and a connection that is closed.
const ROWS: [(&str, &str); 5] = [
    (
        "",
        "race lookers 1 passes 1\nshape 1024 16 256 32 seed 0\nclock 0\n",
    ),
    (
        "table slots 2 bind 1 hash 1 listen 1\nscript 1\nsocket a\nbind a 10.0.0.1:80\nlisten a\n",
        "race lookers 1 passes 1\nshape 2 1 1 1 seed 0\n1 socket a ok\n1 bind a ok 80\n1 listen a ok 80\n\
         journal 0 3\nlife 1 0 listen 1.a 10.0.0.1:80 0.0.0.0:0 dev 0 hash 0 1 unhash -\nclock 2\n",
    ),
    (
        "table slots 2 bind 1 hash 1 listen 1\nscript 1\nsocket a net 3\nbind a 10.0.0.1:80\nlisten a\n",
        "race lookers 1 passes 1\nshape 2 1 1 1 seed 0\n1 socket a ok\n1 bind a ok 80\n1 listen a ok 80\n\
         journal 0 3\nlife 1 0 listen 1.a 10.0.0.1:80 0.0.0.0:0 dev 0 net 3 hash 0 1 unhash -\nclock 2\n",
    ),
    (
        "table slots 2 bind 1 hash 1 listen 1\nscript 1\nsocket a\nbind a 10.0.0.1:80\nbind a 10.0.0.1:81\n\
         listen b\n",
        "race lookers 1 passes 1\nshape 2 1 1 1 seed 0\n1 socket a ok\n1 bind a ok 80\n1 bind a EINVAL\n\
         1 listen b EBADF\njournal 0 1\nclock 0\n",
    ),
    (
        "table slots 2 bind 1 hash 1 listen 1\nscript 1\nsocket a\nbind a 10.0.0.1:90\n\
         connect a to 10.0.0.2:80\ndrop a\n",
        "race lookers 1 passes 1\nshape 2 1 1 1 seed 0\n1 socket a ok\n1 bind a ok 90\n\
         1 connect a ok 10.0.0.1:90\n1 drop a ok\njournal 0 3\n\
         life 0 0 full 1.a 10.0.0.1:90 10.0.0.2:80 dev 0 hash 0 1 unhash 2 3\nclock 4\n",
    ),
];

#[test]
fn one_section_races_alone(rt: HostRuntime) -> Result<(), Fail> {
    for (input, written) in ROWS {
        let answer = call(&rt, &WORDS, input.as_bytes().to_vec(rt.alloc())?, PLAIN)?;
        assert!(rt; answer.0 == Status::Done, "status of {input}");
        assert_eq!(rt; answer.1.as_slice(), written.as_bytes());
    }
    Ok(())
}

#[test]
fn a_race_asks_for_no_lookup(rt: HostRuntime) -> Result<(), Fail> {
    let rows: [(&str, Status, &str); 4] = [
        (
            "script 1\nlook 10.0.0.2:5 10.0.0.1:80\n",
            Status::BadScript(2),
            "bad script line 2\n",
        ),
        (
            "script 1\nsocket a\npackets 1\ncapture\n",
            Status::BadScript(3),
            "bad script line 3\n",
        ),
        (
            "bind a 1.2.3.4:5",
            Status::BadScript(1),
            "bad script line 1\n",
        ),
        ("capture\nabc", Status::BadCapture, "bad capture\n"),
    ];
    for (input, status, written) in rows {
        let answer = call(&rt, &WORDS, input.as_bytes().to_vec(rt.alloc())?, PLAIN)?;
        assert!(rt; answer.0 == status, "status of {input}");
        assert_eq!(rt; answer.1.as_slice(), written.as_bytes());
    }
    Ok(())
}
