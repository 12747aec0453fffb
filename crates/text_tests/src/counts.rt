//! What generated scripts count.
ghost use Rattle.std.specs.Prelude.{◌≤◌};

use sock_script::{Counts, make, run};
use std::alloc::{AllocError, Global};

/// The lines of the counts of a generated script.
fn lines_of(alloc: Global, seed: u32, count: u32) -> Result<Vec<u8>, AllocError>
    requires { count ≤ 100000 }
{
    let script = make::script(alloc, seed, count)?;
    let replies = run::replies(alloc, &script, &[])?;
    Counts::of(&script, &replies.each).text(alloc)
}

/// Whether these are the lines of the counts.
fn counts(alloc: Global, seed: u32, count: u32, wanted: &[u8]) -> Result<bool, AllocError>
    requires { count ≤ 100000 }
{
    Ok(lines_of(alloc, seed, count)?.as_slice() == wanted)
}

#[test]
fn generated_steps_are_counted(rt: HostRuntime) -> Result<(), AllocError> {
    let alloc = rt.alloc();
    let none = counts(
        alloc,
        1,
        0,
        b"commands 0\nok 0\nrefused 0\nfound 0\nnone 0\n",
    )?;
    let many = counts(
        alloc,
        7,
        2000,
        b"commands 3445\nok 2769\nrefused 676\nfound 55\nnone 208\n",
    )?;
    assert!(rt; none && many, "none: {none}, two thousand: {many}");
    Ok(())
}
