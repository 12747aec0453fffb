//! Dumps: of the tables by one worker, and of a race.

use crate::tests::{PLAIN, call, run};
use inet_tool::Status;
use std::test::Fail;

const RACE: [&str; 6] = ["inet", "race", "--lookers", "1", "--passes", "1"];

/// One listener, listed.
const LISTED: &str =
    "table slots 2 bind 1 hash 1 listen 1\nscript 1\nsocket a\nbind a 10.0.0.1:80\nlisten a\ndump\n";

/// Scripts with dumps, each with what is written for it.
const ROWS: [(&str, &str); 3] = [
    (
        LISTED,
        "1 socket a ok\n1 bind a ok 80\n1 listen a ok 80\n1 dump 1\n\
         1 item listen 1.a 10.0.0.1:80 0.0.0.0:0 dev 0\n",
    ),
    (
        "table slots 3 bind 1 hash 1 listen 1\nscript 1\nsocket a\nbind a 10.0.0.1:80\nsocket k\nlisten a\n\
         accept a c from 10.0.0.2:1000 at 10.0.0.1:80\nbind k 10.0.0.1:90\ndump\nclose c\ndump\nat 60\nreap\n\
         dump\nclose a\ndump\n",
        "1 socket a ok\n1 bind a ok 80\n1 socket k ok\n1 listen a ok 80\n1 accept c ok\n1 bind k ok 90\n1 dump 2\n\
         1 item listen 1.a 10.0.0.1:80 0.0.0.0:0 dev 0\n\
         1 item full 1.c 10.0.0.1:80 10.0.0.2:1000 dev 0\n1 close c ok time-wait\n1 dump 2\n\
         1 item listen 1.a 10.0.0.1:80 0.0.0.0:0 dev 0\n\
         1 item time-wait 1.c 10.0.0.1:80 10.0.0.2:1000 dev 0\n1 at 60 ok\n1 reap ok 1\n1 dump 1\n\
         1 item listen 1.a 10.0.0.1:80 0.0.0.0:0 dev 0\n1 close a ok\n1 dump 0\n",
    ),
    (
        "script 1\nsocket b\nsocket a net 2\nbind a 10.0.0.1:80\nlisten a\nscript 2\nsocket c net 1 dev 7\n\
         bind c 10.0.0.1:80\nlisten c\nsocket d\nbind d 10.0.0.3:90\nconnect d to 10.0.0.2:80\ndump\n\
         packets 1\n",
        "1 socket b ok\n1 socket a ok\n1 bind a ok 80\n1 listen a ok 80\n2 socket c ok\n2 bind c ok 80\n\
         2 listen c ok 80\n2 socket d ok\n2 bind d ok 90\n2 connect d ok 10.0.0.3:90\n2 dump 3\n\
         2 item listen 1.a 10.0.0.1:80 0.0.0.0:0 dev 0 net 2\n\
         2 item listen 2.c 10.0.0.1:80 0.0.0.0:0 dev 7 net 1\n\
         2 item full 2.d 10.0.0.3:90 10.0.0.2:80 dev 0\n",
    ),
];

/// What a race with that listener writes.
const RACED: &str =
    "race lookers 1 passes 1\nshape 2 1 1 1 seed 0\n1 socket a ok\n1 bind a ok 80\n1 listen a ok 80\n\
    1 dump 1 t0 2 t1 2\n1 item listen 1.a 10.0.0.1:80 0.0.0.0:0 dev 0\njournal 0 3\n\
    life 1 0 listen 1.a 10.0.0.1:80 0.0.0.0:0 dev 0 hash 0 1 unhash -\nclock 2\n";

#[test]
fn a_dump_is_listed_by_the_tables(rt: HostRuntime) -> Result<(), Fail> {
    for (input, written) in ROWS {
        let answer = run(&rt, input, PLAIN)?;
        assert!(rt; answer.0 == Status::Done, "status of {input}");
        assert_eq!(rt; answer.1.as_slice(), written.as_bytes());
    }
    Ok(())
}

#[test]
fn a_race_lists_between_two_loads_of_the_clock(rt: HostRuntime) -> Result<(), Fail> {
    let alloc = rt.alloc();
    let (status, text) = call(&rt, &RACE, LISTED.as_bytes().to_vec(alloc)?, PLAIN)?;
    assert!(rt; status == Status::Done);
    assert_eq!(rt; text.as_slice(), RACED.as_bytes());
    let (status, written) = call(&rt, &["inet", "audit"], text, PLAIN)?;
    assert!(rt; status == Status::Done);
    assert_eq!(rt;
        written.as_slice(),
        b"yes lives 1 packets 0 clock 2\n".as_slice()
    );
    Ok(())
}
