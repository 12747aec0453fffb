//! A generated script, and its replies.

use capture_reader::Capture;
use sock_script::make::script;
use sock_script::{output, run};
use std::alloc::{AllocError, Global};
use std::process::Abort;

/// What is written for a generated script of 16 steps.
fn written(alloc: Global) -> Result<Vec<u8>, AllocError> {
    let script = script(alloc, 7, 16)?;
    let capture = Capture::new(alloc);
    let replies = run::replies(alloc, &script, &[])?;
    output::text(alloc, &script, &capture, &replies.each, &replies.listings)
}

fn check_text(rt: &impl Abort, text: &[u8], wanted: &[u8]) {
    assert!(rt; text == wanted);
}

#[test]
fn sixteen_steps_are_answered(rt: HostRuntime) -> Result<(), AllocError> {
    let text = written(rt.alloc())?;
    check_text(
        &rt,
        &text,
        b"1 socket s1 ok
1 bind s1 ok 38651
1 listen s1 ok 38651
1 close s2 EBADF
1 at 3 ok
1 reap ok 0
1 at 4 ok
1 reap ok 0
1 look none
1 look none
1 close s3 EBADF
1 socket s8 ok
1 bind s8 ok 8004
1 listen s8 ok 8004
1 socket s9 ok
1 connect s9 ok 10.0.0.2:45926
1 socket s10 ok
1 bind s10 ok 8055
1 listen s10 ok 8055
1 socket s11 ok
1 bind s11 ok 8008
1 listen s11 ok 8008
1 accept s12 EINVAL
1 accept s13 EBADF
1 socket s14 ok
1 bind s14 ok 8045
1 close s11 ok
1 socket s16 ok
1 bind s16 ok 8052
1 listen s16 ok 8052
",
    );
    Ok(())
}
