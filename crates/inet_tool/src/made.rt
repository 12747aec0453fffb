//! What is written for a generated script.
ghost use Rattle.std.specs.Prelude.{◌≤◌, IfOk};
ghost use Rattle.inet_tool.specs.Table.{CountsMade};

use capture_reader::Capture;
use label_index::LabelSeed;
use race_run::run;
use sock_script::{Counts, make};
use std::alloc::{AllocError, Global};
use std::sync::Wait;

/// The counts of the script that a seed and so many steps make, when it is run.
pub fn counts_text<R: Wait>(
    rt: &R,
    alloc: Global,
    label_seed: LabelSeed,
    seed: u32,
    count: u32,
) -> Result<Vec<u8>, AllocError>
    requires { count ≤ 100000 }
    ensures { IfOk result (λ text. CountsMade seed count text.items) }
{
    let script = make::script(alloc, seed, count)?;
    let replies = run(rt, alloc, label_seed, &script, &Capture::new(alloc))?;
    Counts::of(&script, &replies.each).text(alloc)
}
