//! All jobs of a race, on threads beside each other.

ghost use Rattle.std.specs.Prelude.{◌≡◌, ◌^◌, ◌<◌, length, IfOk};
ghost use Rattle.race_run.specs.Jobs.{AllReady, IsReady};
ghost use Rattle.race_run.specs.Scripts.{IsForRace};
ghost use Rattle.race_run.specs.Workers.{AreTables};
ghost use Rattle.race_run.specs.Works.{AllWorked, IsWorked};
ghost use Rattle.tickets.specs.Passes.{tickets as tickets_of};

use crate::jobs::{Job, backwards};
use crate::work::work;
use capture_reader::Capture;
use flat_list::Script;
use inet_io::Gate;
use label_index::LabelSeed;
use sock_ops::Tables;
use std::alloc::{AllocError, Global};
use std::sync::Wait;
use std::thread::{Threads, map_vec};
use tickets::Tickets;

/// Does all jobs beside each other, or one after the other where no thread can be had.
///
/// They are handed out from the last to the first: `map_vec` starts threads for its first jobs, and does the last one
/// on this thread at once. So it is a section that begins first, and the lookers begin once their threads do.
///
/// # Errors
///
/// Memory ran out.
pub fn run_all<R: Threads + Wait + Sync, G: Gate>(
    rt: &R,
    alloc: Global,
    seed: LabelSeed,
    tables: &Tables,
    tickets: &Tickets,
    script: &Script,
    capture: &Capture,
    passes: u32,
    gate: &G,
    jobs: Vec<Job>,
) -> Result<Vec<Result<Job, AllocError>>, AllocError>
    requires tables { AreTables script.now.header tables.now }
    requires script { IsForRace script.now }
    requires tickets { tickets_of tickets.now ≡ length capture.now.items }
    requires ready { AllReady script.now.header tables.now tickets.now jobs.items }
    requires few { length jobs.items < 2 ^ 13 }
    requires passes { 0 < passes }
    ensures count { IfOk result (λ done. length done.items ≡ length jobs.items) }
    ensures worked { IfOk result
        (λ done. AllWorked script.now passes capture.now.items tables.now tickets.now (length jobs.items) done.items) }
{
    let run = |job: Job| -> Result<Job, AllocError>
        requires { AreTables script.now.header tables.now × IsForRace script.now
            × (tickets_of tickets.now ≡ length capture.now.items)
            × IsReady script.now.header tables.now tickets.now job.number job
            × (job.number < 2 ^ 13) × (0 < passes) }
        ensures { IfOk result
            (IsWorked script.entry.now passes capture.entry.now.items tables.entry.now tickets.entry.now job.number) }
    {
        work(
            rt, alloc, seed, tables, tickets, script, capture, passes, gate, job,
        )
    };
    let done = map_vec(rt, backwards(jobs), &run)?;
    Ok(backwards(done))
}
