//! The race of a script.

ghost use Rattle.std.specs.Prelude.{◌≤◌, IfOk};
ghost use Rattle.race_run.specs.Finished.{HasFinished, IsLeftAt};
ghost use Rattle.race_run.specs.Scripts.{IsForRace};
ghost use Rattle.race_run.specs.Workers.{AreTables, IsFirst};

use crate::finish::{Ended, finish};
use crate::jobs::deal;
use crate::share::issue;
use crate::threads::run_all;
use capture_reader::Capture;
use flat_list::Script;
use inet_io::Gate;
use label_index::LabelSeed;
use sock_ops::{Tables, Worker};
use std::alloc::{AllocError, Global};
use std::sync::Wait;
use std::thread::Threads;

/// Runs each section of the script on a thread of its own, and looks the capture's packets up on so many more, with
/// so many passes a lookup at most: one race, at tables and by a first worker that have done nothing yet. Each looker
/// takes the next packet that none has taken yet. The hashes of labels begin with the seed.
///
/// # Errors
///
/// Memory ran out. That is said too of a capture of 2^32 packets or more, which takes more of it than 64 GiB.
pub fn race<R: Threads + Wait + Sync, G: Gate>(
    rt: &R,
    alloc: Global,
    seed: LabelSeed,
    tables: Tables,
    mut first: Worker,
    script: &Script,
    capture: &Capture,
    lookers: u32,
    passes: u32,
    gate: &G,
) -> Result<Ended, AllocError>
    requires tables { AreTables script.now.header tables }
    requires first { IsFirst tables 0 first }
    requires script { IsForRace script.now }
    requires some { 1 ≤ lookers }
    requires few { lookers ≤ 16 }
    requires passes { 1 ≤ passes }
    ensures finished { IfOk result (HasFinished script.now passes capture.now.items lookers) }
    ensures left { IfOk result (IsLeftAt tables) }
{
    let (tickets, mut draws) = issue(alloc, capture.items())?;
    let count = script.sections().len() + lookers as usize;
    let jobs = deal(alloc, &tables, &tickets, &mut first, &mut draws, count)?;
    let done = run_all(
        rt, alloc, seed, &tables, &tickets, script, capture, passes, gate, jobs,
    )?;
    finish(
        alloc,
        tables,
        &tickets,
        first,
        draws,
        script,
        capture,
        lookers as usize,
        done,
    )
}
