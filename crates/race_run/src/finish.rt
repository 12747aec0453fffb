//! The end of a race: all workers and passes are joined, the clock and the count of tickets are loaded, and the bind
//! buckets are taken.

ghost use Rattle.std.specs.Prelude.{◌≡◌, ℕ, ◌+◌, ◌^◌, ◌<◌, length, IfOk};
ghost use Rattle.race_run.specs.Finished.{HasFinished, IsLeftAt};
ghost use Rattle.race_run.specs.Scripts.{IsForRace};
ghost use Rattle.race_run.specs.Shares.{IsFirstPass};
ghost use Rattle.race_run.specs.Workers.{AreTables, IsFirst};
ghost use Rattle.race_run.specs.Works.{AllWorked};
ghost use Rattle.tickets.specs.Passes.{tickets as tickets_of};

use crate::jobs::{Job, Outcome, gather};
use bind_buckets::{Bucket, turning};
use capture_reader::Capture;
use flat_list::Script;
use sock_ops::{ChainPass, Tables, Worker};
use std::alloc::{AllocError, Global};
use tickets::{TicketPass, Tickets};

/// What a race leaves: the chain pass into which all others were joined, the bind buckets, the clock, and what came
/// of each job, the sections first.
#[derive(Drop)]
pub struct Ended {
    pub chain: ChainPass,
    pub buckets: Vec<Box<Bucket>>,
    pub clock: u64,
    pub outcomes: Vec<Outcome>,
}

/// Ends a race of which all jobs are done.
///
/// # Errors
///
/// Memory ran out, or had run out for a job.
pub fn finish(
    alloc: Global,
    tables: Tables,
    tickets: &Tickets,
    mut first: Worker,
    mut draws: TicketPass,
    script: &Script,
    capture: &Capture,
    lookers: usize,
    done: Vec<Result<Job, AllocError>>,
) -> Result<Ended, AllocError>
    requires script { IsForRace script.now }
    requires tables { AreTables script.now.header tables }
    requires tickets { tickets_of tickets.now ≡ length capture.now.items }
    requires some { 0 < lookers }
    requires few { lookers < 2 ^ 12 }
    requires count { length done.items ≡ length script.now.sections + lookers }
    requires first { IsFirst tables (length done.items) first }
    requires draws { IsFirstPass tickets.now (length done.items) draws }
    requires worked { (passes : ℕ)
        × AllWorked script.now passes capture.now.items tables tickets.now (length done.items) done.items }
    ensures finished { IfOk result
        (λ ended. (passes : ℕ)
        → AllWorked script.now passes capture.now.items tables tickets.now (length done.items) done.items
        → HasFinished script.now passes capture.now.items lookers ended) }
    ensures left { IfOk result (IsLeftAt tables) }
{
    let outcomes = gather(alloc, &tables, tickets, &mut first, &mut draws, done)?;
    let _count = tickets.count(&mut draws);
    let Tables {
        buckets,
        chains,
        ..
    } = tables;
    let Worker {
        turns,
        mut chain,
        ..
    } = first;
    let clock = chains.now(&mut chain);
    let buckets = turning::into_buckets(buckets, alloc, turns)?;
    Ok(Ended {
        chain,
        buckets,
        clock,
        outcomes,
    })
}
