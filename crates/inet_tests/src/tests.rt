ghost use Rattle.std.specs.Prelude.{◌<◌};

use inet_io::{MemSink, MemSource, Open, StdSink, StdSource};
use inet_tool::{LIMIT, Status, inet};
use std::alloc::{AllocError, Global};
use std::random::RandomSource;
use std::sync::Wait;
use std::test::Fail;
use std::thread::Threads;

/// Two sockets that want one port, of which the second is refused.
pub const SCRIPT: &str = "script 1\nsocket a\nsocket b\nbind a 0.0.0.0:80\nbind b 10.0.0.1:80\n";

/// What is written for that script.
pub const OUTPUT: &str = "1 socket a ok\n1 socket b ok\n1 bind a ok 80\n1 bind b EADDRINUSE\n";

/// How many bytes a call of each end moves at most, and which calls fail.
#[derive(Clone, Copy)]
pub struct Ends<'a> {
    pub most_read: usize,
    pub failing_reads: &'a [u64],
    pub most_written: usize,
    pub failing_writes: &'a [u64],
}

/// Ends that never fail.
pub const PLAIN: Ends<'static> = Ends {
    most_read: 4096,
    failing_reads: &[],
    most_written: 4096,
    failing_writes: &[],
};

/// Scripts of searches for a port, each with what is written for it.
const SEARCHES: [(&str, &str); 5] = [
    (
        "range 40000 40003\noffset 0\nscript 1\nsocket a\nsocket b\nsocket c\nsocket d\n\
         socket e\nsocket f\nbind a 0.0.0.0:0\nbind b 0.0.0.0:0\nbind c 0.0.0.0:0\n\
         bind d 0.0.0.0:0\nbind e 0.0.0.0:0\nconnect f from 10.0.0.1 to 10.0.0.2:80\n",
        "1 socket a ok\n1 socket b ok\n1 socket c ok\n1 socket d ok\n1 socket e ok\n\
         1 socket f ok\n1 bind a ok 40001\n1 bind b ok 40003\n1 bind c ok 40000\n\
         1 bind d ok 40002\n1 bind e EADDRINUSE\n1 connect f EADDRNOTAVAIL\n",
    ),
    (
        "range 40000 40001\nscript 1\nsocket a\nsocket b\nsocket c\nsocket d\n\
         connect a from 10.0.0.1 to 10.0.0.2:80\nconnect b from 10.0.0.1 to 10.0.0.2:80\n\
         connect c from 10.0.0.1 to 10.0.0.2:80\nconnect d from 10.0.0.1 to 10.0.0.2:81\n",
        "1 socket a ok\n1 socket b ok\n1 socket c ok\n1 socket d ok\n\
         1 connect a ok 10.0.0.1:40000\n1 connect b ok 10.0.0.1:40001\n\
         1 connect c EADDRNOTAVAIL\n1 connect d ok 10.0.0.1:40000\n",
    ),
    (
        "range 40000 40001\nscript 1\nsocket a\nlisten a\nlook 10.0.0.2:5 10.0.0.7:40001\n",
        "1 socket a ok\n1 listen a ok 40001\n1 look listen 1.a\n",
    ),
    (
        "range 40000 40003\noffset 2\nscript 1\nsocket a\nsocket b\nsocket c\nsocket d\n\
         bind a 0.0.0.0:0\nbind b 0.0.0.0:0\nbind c 0.0.0.0:0\nbind d 0.0.0.0:0\n",
        "1 socket a ok\n1 socket b ok\n1 socket c ok\n1 socket d ok\n1 bind a ok 40003\n\
         1 bind b ok 40001\n1 bind c ok 40002\n1 bind d ok 40000\n",
    ),
    (
        "range 40000 40003\noffset 2\nscript 1\nsocket a\nsocket b\nsocket c\nsocket d\n\
         connect a from 10.0.0.1 to 10.0.0.2:80\nconnect b from 10.0.0.1 to 10.0.0.2:80\n\
         connect c from 10.0.0.1 to 10.0.0.2:80\nconnect d from 10.0.0.1 to 10.0.0.2:80\n",
        "1 socket a ok\n1 socket b ok\n1 socket c ok\n1 socket d ok\n\
         1 connect a ok 10.0.0.1:40002\n1 connect b ok 10.0.0.1:40000\n\
         1 connect c ok 10.0.0.1:40003\n1 connect d ok 10.0.0.1:40001\n",
    ),
];

/// Scripts of sockets that were closed, that share an end, or whose commands are refused, each with
/// what is written for it.
const ROWS: [(&str, &str); 12] = [
    (
        "script 1\nsocket a\nbind a 10.0.0.1:80\nlisten a\n\
         accept a c from 10.0.0.2:1000 at 10.0.0.1:80\n\
         accept a d from 10.0.0.2:1000 at 10.0.0.1:80\nlook 10.0.0.2:1000 10.0.0.1:80\n\
         drop c\nlook 10.0.0.2:1000 10.0.0.1:80\n",
        "1 socket a ok\n1 bind a ok 80\n1 listen a ok 80\n1 accept c ok\n\
         1 accept d EADDRNOTAVAIL\n1 look full 1.c\n1 drop c ok\n1 look listen 1.a\n",
    ),
    (
        "script 1\nsocket a reuseaddr\nsocket b reuseaddr\nbind a 10.0.0.1:90\n\
         bind b 10.0.0.1:90\nconnect a to 10.0.0.2:80\nconnect b to 10.0.0.2:80\n",
        "1 socket a ok\n1 socket b ok\n1 bind a ok 90\n1 bind b ok 90\n\
         1 connect a ok 10.0.0.1:90\n1 connect b EADDRNOTAVAIL\n",
    ),
    (
        "range 40000 40001\noffset 0\nscript 1\nsocket a\nsocket b\nsocket c\nbind a 0.0.0.0:0\n\
         listen b\nbind c 0.0.0.0:0\nlisten c\nconnect c from 10.0.0.1 to 10.0.0.2:80\n",
        "1 socket a ok\n1 socket b ok\n1 socket c ok\n1 bind a ok 40001\n1 listen b ok 40000\n\
         1 bind c EADDRINUSE\n1 listen c EADDRINUSE\n1 connect c EADDRNOTAVAIL\n",
    ),
    (
        "script 1\nsocket a\nbind a 10.0.0.1:80\nlisten a\n\
         accept a c from 10.0.0.2:1000 at 10.0.0.1:80\nclose a\nsocket d\n\
         bind d 10.0.0.1:80\n",
        "1 socket a ok\n1 bind a ok 80\n1 listen a ok 80\n1 accept c ok\n1 close a ok\n\
         1 socket d ok\n1 bind d EADDRINUSE\n",
    ),
    (
        "script 1\nsocket a reuseaddr\nbind a 10.0.0.1:80\nlisten a\n\
         accept a c from 10.0.0.2:1000 at 10.0.0.1:80\nclose a\nsocket d reuseaddr\n\
         bind d 10.0.0.1:80\nlisten d\n",
        "1 socket a ok\n1 bind a ok 80\n1 listen a ok 80\n1 accept c ok\n1 close a ok\n\
         1 socket d ok\n1 bind d ok 80\n1 listen d ok 80\n",
    ),
    (
        "script 1\nsocket a uid 1 reuseport\nsocket b uid 2 reuseport\n\
         socket c uid 1 reuseport\nbind a 10.0.0.1:80\nbind b 10.0.0.1:80\n\
         bind c 10.0.0.1:80\n",
        "1 socket a ok\n1 socket b ok\n1 socket c ok\n1 bind a ok 80\n\
         1 bind b EADDRINUSE\n1 bind c ok 80\n",
    ),
    (
        "twreuse 1\nscript 1\nsocket a reuseaddr\nbind a 10.0.0.1:5000\n\
         connect a to 10.0.0.2:80\nclose a\nsocket b reuseaddr\nbind b 10.0.0.1:5000\n\
         connect b to 10.0.0.2:80\nat 1\nconnect b to 10.0.0.2:80\n\
         look 10.0.0.2:80 10.0.0.1:5000\nat 59\nreap\nat 60\nreap\n",
        "1 socket a ok\n1 bind a ok 5000\n1 connect a ok 10.0.0.1:5000\n\
         1 close a ok time-wait\n1 socket b ok\n1 bind b ok 5000\n\
         1 connect b EADDRNOTAVAIL\n1 at 1 ok\n1 connect b ok 10.0.0.1:5000\n\
         1 look full 1.b\n1 at 59 ok\n1 reap ok 0\n1 at 60 ok\n1 reap ok 0\n",
    ),
    (
        "twreuse 0\nscript 1\nsocket a reuseaddr\nbind a 10.0.0.1:5000\n\
         connect a to 10.0.0.2:80\nclose a\nsocket b reuseaddr\nbind b 10.0.0.1:5000\n\
         connect b to 10.0.0.2:80\nat 1\nconnect b to 10.0.0.2:80\n\
         look 10.0.0.2:80 10.0.0.1:5000\nat 59\nreap\nat 60\nreap\n",
        "1 socket a ok\n1 bind a ok 5000\n1 connect a ok 10.0.0.1:5000\n\
         1 close a ok time-wait\n1 socket b ok\n1 bind b ok 5000\n\
         1 connect b EADDRNOTAVAIL\n1 at 1 ok\n1 connect b EADDRNOTAVAIL\n\
         1 look time-wait 1.a\n1 at 59 ok\n1 reap ok 0\n1 at 60 ok\n1 reap ok 1\n",
    ),
    (
        "script 1\nsocket w reuseport\nbind w 0.0.0.0:80\nlisten w\n\
         socket x reuseport\nbind x 10.0.0.1:80\nlisten x\nsocket y dev 3 reuseport\n\
         bind y 10.0.0.1:80\nlisten y\naccept x e from 10.0.0.2:1000 at 10.0.0.1:80\n\
         look 10.0.0.2:1000 10.0.0.1:80\nlook 10.0.0.2:1001 10.0.0.1:80\n\
         look 10.0.0.2:1001 10.0.0.1:80 dev 3\nlook 10.0.0.2:1001 10.0.0.1:80 dev 4\n\
         look 10.0.0.2:1001 10.0.0.9:80\nlook 10.0.0.2:1001 10.0.0.9:81\ndrop x\n\
         look 10.0.0.2:1001 10.0.0.1:80 dev 4\n",
        "1 socket w ok\n1 bind w ok 80\n1 listen w ok 80\n1 socket x ok\n\
         1 bind x ok 80\n1 listen x ok 80\n1 socket y ok\n1 bind y ok 80\n\
         1 listen y ok 80\n1 accept e ok\n1 look full 1.e\n1 look listen 1.x\n\
         1 look listen 1.y\n1 look listen 1.x\n1 look listen 1.w\n1 look none\n\
         1 drop x ok\n1 look listen 1.w\n",
    ),
    (
        "seed 559038725\nscript 1\nsocket a reuseport\nsocket b reuseport\n\
         socket c reuseport\nbind a 10.0.0.1:80\nbind b 10.0.0.1:80\n\
         bind c 10.0.0.1:80\nlisten a\nlisten b\nlisten c\n\
         look 10.0.0.2:1002 10.0.0.1:80\nlook 10.0.0.2:1000 10.0.0.1:80\n\
         look 10.0.0.2:1001 10.0.0.1:80\ndrop a\nlook 10.0.0.2:1002 10.0.0.1:80\n\
         look 10.0.0.2:1000 10.0.0.1:80\n",
        "1 socket a ok\n1 socket b ok\n1 socket c ok\n1 bind a ok 80\n1 bind b ok 80\n\
         1 bind c ok 80\n1 listen a ok 80\n1 listen b ok 80\n1 listen c ok 80\n\
         1 look listen 1.a\n1 look listen 1.c\n1 look listen 1.c\n1 drop a ok\n\
         1 look listen 1.c\n1 look listen 1.b\n",
    ),
    (
        "table slots 1 bind 1 hash 1 listen 1\nscript 1\nsocket l\nbind l 10.0.0.1:80\n\
         listen l\naccept l c from 10.0.0.2:1000 at 10.0.0.1:80\ndrop l\n\
         accept l d from 10.0.0.2:1000 at 10.0.0.1:80\nsocket k\nbind k 10.0.0.1:90\n\
         connect k to 10.0.0.2:80\nclose k\nlook 10.0.0.2:80 10.0.0.1:90\n",
        "1 socket l ok\n1 bind l ok 80\n1 listen l ok 80\n1 accept c ENFILE 1 0\n\
         1 drop l ok\n1 accept d EBADF\n1 socket k ok\n1 bind k ok 90\n\
         1 connect k ok 10.0.0.1:90\n1 close k ok no-slot 1 0\n1 look none\n",
    ),
    (
        "script 1\nsocket a\nconnect a to 10.0.0.2:80\nbind a 10.0.0.1:90\n\
         bind a 10.0.0.1:91\nconnect a from 10.0.0.3 to 10.0.0.2:80\n\
         connect a to 10.0.0.2:80\nlisten a\nconnect a to 10.0.0.2:81\n\
         accept a b from 10.0.0.2:81 at 10.0.0.1:90\ndrop a\ndrop a\nclose b\nat 5\n\
         at 4\n",
        "1 socket a ok\n1 connect a EINVAL\n1 bind a ok 90\n1 bind a EINVAL\n\
         1 connect a EINVAL\n1 connect a ok 10.0.0.1:90\n1 listen a EINVAL\n\
         1 connect a EISCONN\n1 accept b EINVAL\n1 drop a ok\n1 drop a EBADF\n\
         1 close b EBADF\n1 at 5 ok\n1 at 4 EINVAL\n",
    ),
];

pub fn words_of(alloc: Global, words: &[&str]) -> Result<Vec<String>, AllocError> {
    let mut texts: Vec<String> = Vec::new(alloc);
    for word in words {
        texts.push(String::from_str(alloc, *word)?)?;
    }
    Ok(texts)
}

/// The status of a call over ends in memory, and what was written.
pub fn call(
    rt: &(impl Threads + Wait + Sync + RandomSource + AllocGlobal),
    words: &[&str],
    input: Vec<u8>,
    ends: Ends<'_>,
) -> Result<(Status, Vec<u8>), AllocError> {
    let alloc = rt.alloc();
    let words = words_of(alloc, words)?;
    let failing_reads = ends.failing_reads.to_vec(alloc)?;
    let failing_writes = ends.failing_writes.to_vec(alloc)?;
    let mut source = MemSource::new(input, ends.most_read.max(1), failing_reads);
    let mut sink = MemSink::new(alloc, ends.most_written.max(1), failing_writes);
    let status = inet(rt, alloc, &words, &mut source, &mut sink, &Open);
    Ok((status, sink.bytes().to_vec(alloc)?))
}

/// The same for `inet run`.
pub fn run(
    rt: &(impl Threads + Wait + Sync + RandomSource + AllocGlobal),
    input: &str,
    ends: Ends<'_>,
) -> Result<(Status, Vec<u8>), AllocError> {
    call(
        rt,
        &["inet", "run"],
        input.as_bytes().to_vec(rt.alloc())?,
        ends,
    )
}

#[test]
fn answers_worked_scripts(rt: HostRuntime) -> Result<(), Fail> {
    let rows: [(&str, Status, &str); 8] = [
        ("", Status::Done, ""),
        (SCRIPT, Status::Done, OUTPUT),
        (
            "script 1\nsocket a reuseaddr\nsocket b reuseaddr\nsocket c reuseaddr\n\
             bind a 10.0.0.1:80\nbind b 10.0.0.1:80\nlisten a\nlisten b\nbind c 10.0.0.1:80\nlisten a\n",
            Status::Done,
            "1 socket a ok\n1 socket b ok\n1 socket c ok\n\
             1 bind a ok 80\n1 bind b ok 80\n1 listen a ok 80\n1 listen b EADDRINUSE\n\
             1 bind c EADDRINUSE\n1 listen a ok 80\n",
        ),
        (
            "script 1\nsocket a dev 1\nsocket b dev 2\nsocket c\n\
             bind a 10.0.0.1:80\nbind b 10.0.0.1:80\nbind c 10.0.0.1:80\n",
            Status::Done,
            "1 socket a ok\n1 socket b ok\n1 socket c ok\n\
             1 bind a ok 80\n1 bind b ok 80\n1 bind c EADDRINUSE\n",
        ),
        (
            "table slots 1 bind 1 hash 1 listen 1\nscript 1\nsocket a\nsocket b\n\
             bind a 10.0.0.1:80\nbind b 10.0.0.1:81\nlisten a\nlisten b\nlook 10.0.0.2:5 10.0.0.1:80\n",
            Status::Done,
            "1 socket a ok\n1 socket b ok\n1 bind a ok 80\n1 bind b ok 81\n\
             1 listen a ok 80\n1 listen b ENFILE 1 0\n1 look listen 1.a\n",
        ),
        (
            "script 1\nsocket a\nsocket a\n",
            Status::BadScript(3),
            "bad script line 3\n",
        ),
        (
            "bind a 1.2.3.4:5",
            Status::BadScript(1),
            "bad script line 1\n",
        ),
        ("capture\nabc", Status::BadCapture, "bad capture\n"),
    ];
    for (input, status, written) in rows {
        let answer = run(&rt, input, PLAIN)?;
        assert!(rt; answer.0 == status, "status of {input}");
        assert_eq!(rt; answer.1.as_slice(), written.as_bytes());
    }
    Ok(())
}

#[test]
fn answers_searches_and_what_becomes_of_closed_and_shared_sockets(
    rt: HostRuntime,
) -> Result<(), Fail> {
    for (input, written) in SEARCHES.into_iter().chain(ROWS) {
        let answer = run(&rt, input, PLAIN)?;
        assert!(rt; answer.0 == Status::Done, "status of {input}");
        assert_eq!(rt; answer.1.as_slice(), written.as_bytes());
    }
    Ok(())
}

/// A line of each of so many sockets that share an end.
fn put_each(text: &mut String, count: u32, before: &str, after: &str) -> Result<(), AllocError> {
    for i in 0..count {
        write!(text, "{before} s{i}{after}\n")?;
    }
    Ok(())
}

/// A script in which so many sockets of one end listen, and what is written where all may.
fn sharing(alloc: Global, count: u32) -> Result<(String, String), AllocError> {
    let mut input = String::from_str(alloc, "script 1\n")?;
    put_each(&mut input, count, "socket", " reuseport")?;
    put_each(&mut input, count, "bind", " 10.0.0.1:80")?;
    put_each(&mut input, count, "listen", "")?;
    let mut output = String::new(alloc);
    put_each(&mut output, count, "1 socket", " ok")?;
    put_each(&mut output, count, "1 bind", " ok 80")?;
    put_each(&mut output, count, "1 listen", " ok 80")?;
    Ok((input, output))
}

#[test]
fn a_group_has_sixty_four_members(rt: HostRuntime) -> Result<(), Fail> {
    let (input, output) = sharing(rt.alloc(), 64)?;
    let answer = run(&rt, input.as_str(), PLAIN)?;
    assert!(rt; answer.0 == Status::Done);
    assert_eq!(rt; answer.1.as_slice(), output.as_bytes());
    let (input, output) = sharing(rt.alloc(), 65)?;
    let answer = run(&rt, input.as_str(), PLAIN)?;
    assert!(rt; answer.0 == Status::Done);
    let granted = output
        .as_bytes()
        .strip_suffix(b"ok 80\n")
        .ok_or("no last line")?;
    let written = answer
        .1
        .as_slice()
        .strip_suffix(b"EMFILE\n")
        .ok_or("no EMFILE")?;
    assert_eq!(rt; written, granted);
    Ok(())
}

#[test]
fn sixty_four_sections_run(rt: HostRuntime) -> Result<(), Fail> {
    let mut input = String::new(rt.alloc());
    let mut output = String::new(rt.alloc());
    for n in 1..=64u32 {
        write!(input, "script {n}\nsocket a\n")?;
        write!(output, "{n} socket a ok\n")?;
    }
    let answer = run(&rt, input.as_str(), PLAIN)?;
    assert!(rt; answer.0 == Status::Done);
    assert_eq!(rt; answer.1.as_slice(), output.as_bytes());
    Ok(())
}

#[test]
fn refuses_other_words(rt: HostRuntime) -> Result<(), Fail> {
    let rows: [&[&str]; 22] = [
        &[],
        &["run"],
        &["inet"],
        &["inet", ""],
        &["inet", "runs"],
        &["inet", "run", "run"],
        &["inet", "run", "--help"],
        &["inet", "--help"],
        &["inet", "help"],
        &["inet", "make"],
        &["inet", "make", "1"],
        &["inet", "make", "1", "2", "3"],
        &["inet", "make", "4294967296", "1"],
        &["inet", "make", "1", "100001"],
        &["inet", "make", "-1", "1"],
        &["inet", "make", "one", "1"],
        &["inet", "make", "--help", "1"],
        &["inet", "race"],
        &["inet", "race", "--lookers", "1"],
        &["inet", "race", "--lookers", "0", "--passes", "1"],
        &["inet", "race", "--lookers", "17", "--passes", "1"],
        &["inet", "race", "--lookers", "1", "--passes", "65"],
    ];
    for words in rows {
        let answer = call(&rt, words, SCRIPT.as_bytes().to_vec(rt.alloc())?, PLAIN)?;
        assert!(rt; answer.0 == Status::Usage, "status of {words:?}");
        assert!(rt; answer.1.is_empty());
    }
    Ok(())
}

#[test]
fn made_scripts_are_counted(rt: HostRuntime) -> Result<(), Fail> {
    // The second is made twice, and so are its counts.
    let rows: [(&str, &str, [u32; 5]); 3] = [
        ("1", "0", [0, 0, 0, 0, 0]),
        ("7", "20000", [35033, 25869, 9164, 822, 1732]),
        ("7", "20000", [35033, 25869, 9164, 822, 1732]),
    ];
    for (seed, count, [commands, ok, refused, found, none]) in rows {
        assert_eq!(rt; commands, ok.saturating_add(refused));
        // `make` reads nothing, so what the source holds is no matter, nor that its reads fail.
        let ends = Ends {
            failing_reads: &[1],
            ..PLAIN
        };
        let words = ["inet", "make", seed, count];
        let (status, written) = call(&rt, &words, b"no script".to_vec(rt.alloc())?, ends)?;
        assert!(rt; status == Status::Done, "status of {words:?}");
        let wanted = format!(in rt.alloc();
            "commands {commands}\nok {ok}\nrefused {refused}\nfound {found}\nnone {none}\n"
        )?;
        assert_eq!(rt; written.as_slice(), wanted.as_bytes());
    }
    Ok(())
}

#[test]
fn counts_that_cant_be_written_are_told(rt: HostRuntime) -> Result<(), Fail> {
    let ends = Ends {
        most_written: 4,
        failing_writes: &[2],
        ..PLAIN
    };
    let (status, written) = call(&rt, &["inet", "make", "1", "0"], Vec::new(rt.alloc()), ends)?;
    assert!(rt; status == Status::WriteFault);
    assert_eq!(rt; written.as_slice(), b"comm".as_slice());
    Ok(())
}

#[test]
fn reads_up_to_the_limit(rt: HostRuntime) -> Result<(), Fail> {
    for (len, status) in [(LIMIT, Status::Done), (LIMIT + 1, Status::TooLong)] {
        let input = vec![in rt.alloc(); b'#'; len]?;
        let answer = call(&rt, &["inet", "run"], input, PLAIN)?;
        assert!(rt; answer.0 == status, "{len} bytes");
        assert!(rt; answer.1.is_empty());
    }
    Ok(())
}

#[test]
fn serves_the_ends_of_std(rt: HostRuntime) -> Result<(), Fail> {
    let words = words_of(rt.alloc(), &["inet", "run"])?;
    let mut source = StdSource::new(SCRIPT.as_bytes());
    let mut written = Vec::new(rt.alloc());
    let mut sink = StdSink::new(&mut written);
    let status = inet(&rt, rt.alloc(), &words, &mut source, &mut sink, &Open);
    assert!(rt; status == Status::Done);
    assert_eq!(rt; written.as_slice(), OUTPUT.as_bytes());
    Ok(())
}
