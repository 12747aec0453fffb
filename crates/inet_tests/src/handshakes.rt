//! Handshakes: requests, in a run and in a race.

use crate::tests::{PLAIN, call, run};
use inet_tool::Status;
use std::test::Fail;

const RACE: [&str; 6] = ["inet", "race", "--lookers", "1", "--passes", "1"];

/// Scripts with requests, each with what is written for it.
const ROWS: [(&str, &str); 4] = [
    (
        "script 1\nsocket a\nbind a 10.0.0.1:80\nlisten a\nsyn a r from 10.0.0.2:1000 at 10.0.0.1:80\n\
         look 10.0.0.2:1000 10.0.0.1:80\nsyn a q from 10.0.0.2:1000 at 10.0.0.1:80\n\
         accept a b from 10.0.0.2:1000 at 10.0.0.1:80\nack r c\nlook 10.0.0.2:1000 10.0.0.1:80\nack r d\n",
        "1 socket a ok\n1 bind a ok 80\n1 listen a ok 80\n1 syn r ok\n1 look request 1.r\n\
         1 syn q EADDRNOTAVAIL\n1 accept b EADDRNOTAVAIL\n1 ack c ok\n1 look full 1.c\n1 ack d EBADF\n",
    ),
    (
        "table slots 2 bind 1 hash 1 listen 1\nscript 1\nsocket a\nbind a 10.0.0.1:80\nlisten a\n\
         syn a r from 10.0.0.2:1000 at 10.0.0.1:80\nack r c\nlook 10.0.0.2:1000 10.0.0.1:80\ndrop a\nack r d\n",
        "1 socket a ok\n1 bind a ok 80\n1 listen a ok 80\n1 syn r ok\n1 ack c ENFILE 2 0\n1 look request 1.r\n\
         1 drop a ok\n1 ack d EINVAL\n",
    ),
    // A request's label serves nothing but its end, and the child that came is bound to its listener's port.
    (
        "script 1\nsocket a\nbind a 10.0.0.1:80\nlisten a\nsyn a r from 10.0.0.2:1000 at 10.0.0.1:80\n\
         bind r 10.0.0.1:81\nlisten r\nconnect r to 10.0.0.2:7\naccept r b from 10.0.0.2:1001 at 10.0.0.1:80\n\
         ack a c\nack r r2\nclose a\nsocket z\nbind z 10.0.0.1:80\nclose r2\nat 60\nreap\nbind z 10.0.0.1:80\n",
        "1 socket a ok\n1 bind a ok 80\n1 listen a ok 80\n1 syn r ok\n1 bind r EINVAL\n1 listen r EINVAL\n\
         1 connect r EINVAL\n1 accept b EINVAL\n1 ack c EINVAL\n1 ack r2 ok\n1 close a ok\n1 socket z ok\n\
         1 bind z EADDRINUSE\n1 close r2 ok time-wait\n1 at 60 ok\n1 reap ok 1\n1 bind z ok 80\n",
    ),
    // A request takes the place of a TIME_WAIT, and keeps nobody from its port.
    (
        "script 1\nsocket a net 3\nbind a 10.0.0.1:80\nlisten a\naccept a b from 10.0.0.2:1000 at 10.0.0.1:80\n\
         close b\nsyn a r from 10.0.0.2:1000 at 10.0.0.1:80\ndump\nclose a\nsocket z net 3\nbind z 10.0.0.1:80\n\
         listen z\nclose r\nclose r\ndump\n",
        "1 socket a ok\n1 bind a ok 80\n1 listen a ok 80\n1 accept b ok\n1 close b ok time-wait\n1 syn r ok\n\
         1 dump 2\n1 item listen 1.a 10.0.0.1:80 0.0.0.0:0 dev 0 net 3\n\
         1 item request 1.r 10.0.0.1:80 10.0.0.2:1000 dev 0 net 3\n1 close a ok\n1 socket z ok\n\
         1 bind z ok 80\n1 listen z ok 80\n1 close r ok\n1 close r EBADF\n1 dump 1\n\
         1 item listen 1.z 10.0.0.1:80 0.0.0.0:0 dev 0 net 3\n",
    ),
];

/// A handshake, and then the end of its connection and of a request that nobody answered.
const RACED: &str =
    "table slots 4 bind 1 hash 1 listen 1\nscript 1\nsocket a\nbind a 10.0.0.1:80\nlisten a\n\
    syn a r from 10.0.0.2:1000 at 10.0.0.1:80\nack r c\nsyn a q from 10.0.0.2:1001 at 10.0.0.1:80\ndump\n\
    drop q\nclose c\n";

/// What a race of it writes: the child's life begins before that of its request ends.
const RECORD: &str =
    "race lookers 1 passes 1\nshape 4 1 1 1 seed 0\n1 socket a ok\n1 bind a ok 80\n1 listen a ok 80\n\
    1 syn r ok\n1 ack c ok\n1 syn q ok\n1 dump 3 t0 10 t1 10\n1 item listen 1.a 10.0.0.1:80 0.0.0.0:0 dev 0\n\
    1 item full 1.c 10.0.0.1:80 10.0.0.2:1000 dev 0\n1 item request 1.q 10.0.0.1:80 10.0.0.2:1001 dev 0\n\
    1 drop q ok\n1 close c ok time-wait\njournal 0 5\n\
    life 1 0 listen 1.a 10.0.0.1:80 0.0.0.0:0 dev 0 hash 0 1 unhash -\n\
    life 0 1 request 1.r 10.0.0.1:80 10.0.0.2:1000 dev 0 hash 2 3 unhash 6 7\n\
    life 0 2 full 1.c 10.0.0.1:80 10.0.0.2:1000 dev 0 hash 4 5 unhash 14 15\n\
    life 0 3 request 1.q 10.0.0.1:80 10.0.0.2:1001 dev 0 hash 8 9 unhash 10 11\n\
    life 0 1 time-wait 1.c 10.0.0.1:80 10.0.0.2:1000 dev 0 hash 12 13 unhash -\nclock 16\n";

#[test]
fn a_request_stands_until_its_connection_comes(rt: HostRuntime) -> Result<(), Fail> {
    for (input, written) in ROWS {
        let answer = run(&rt, input, PLAIN)?;
        assert!(rt; answer.0 == Status::Done, "status of {input}");
        assert_eq!(rt; answer.1.as_slice(), written.as_bytes());
    }
    Ok(())
}

#[test]
fn a_race_records_the_handover(rt: HostRuntime) -> Result<(), Fail> {
    let alloc = rt.alloc();
    let (status, text) = call(&rt, &RACE, RACED.as_bytes().to_vec(alloc)?, PLAIN)?;
    assert!(rt; status == Status::Done);
    assert_eq!(rt; text.as_slice(), RECORD.as_bytes());
    let (status, written) = call(&rt, &["inet", "audit"], text, PLAIN)?;
    assert!(rt; status == Status::Done);
    assert_eq!(rt;
        written.as_slice(),
        b"yes lives 5 packets 0 clock 16\n".as_slice()
    );
    Ok(())
}
