//! The jobs of a race: a worker for each section and each looker.

ghost use Rattle.std.specs.Prelude.{◌≡◌, ◌^◌, ◌<◌, length, reverse, IfOk, OnOk};
ghost use Rattle.flat_list.specs.declared.header.Header.{Header};
ghost use Rattle.race_run.specs.Jobs.{AllOver, AllReady, HasAllParts, IsGathered, outcomes_in, part_in};
ghost use Rattle.race_run.specs.Joins.{Part};
ghost use Rattle.race_run.specs.Shares.{HasDrawnAll, IsFirstPass};
ghost use Rattle.race_run.specs.Workers.{AreTables, IsFirst, part_of};
ghost use Rattle.sock_ops.specs.Tables.{IsAtRest};

use crate::looker::Look;
use crate::worker::split;
use flat_list::Reply;
use sock_ops::{Tables, Worker};
use socket_list::Listing;
use std::alloc::{AllocError, Global};
use tickets::{TicketPass, Tickets};

/// A worker's part of a race: the section or the looker of its number, the sections first, and what came of it.
/// Only a looker draws items.
#[derive(Drop)]
pub struct Job {
    pub worker: Worker,
    pub draws: TicketPass,
    pub number: usize,
    pub replies: Vec<Reply>,
    pub listings: Vec<Listing>,
    pub told: Vec<Look>,
}

/// A job for each section and each looker, with a worker and a pass of tickets that are split off the first ones.
///
/// # Errors
///
/// Memory ran out.
pub fn deal(
    alloc: Global,
    tables: &Tables,
    tickets: &Tickets,
    first: &mut Worker,
    draws: &mut TicketPass,
    count: usize,
) -> Result<Vec<Job>, AllocError>
    requires count { count < 2 ^ 13 }
    requires tables { (header : Header) × AreTables header tables.now }
    requires first { IsFirst tables.now 0 first.old }
    requires draws { IsFirstPass tickets.now 0 draws.old }
    ensures count { IfOk result (λ jobs. length jobs.items ≡ count) }
    ensures jobs { IfOk result
        (λ jobs. (header : Header) → AreTables header tables.now → AllReady header tables.now tickets.now jobs.items) }
    ensures first { OnOk result (IsFirst tables.now count first.new) }
    ensures draws { OnOk result (IsFirstPass tickets.now count draws.new) }
{
    let mut jobs = Vec::with_capacity(alloc, count)?;
    for number in 0..count {
        jobs.push_reserved(Job {
            worker: split(alloc, tables, first),
            draws: draws.split(tickets),
            number,
            replies: Vec::new(alloc),
            listings: Vec::new(alloc),
            told: Vec::new(alloc),
        });
    }
    Ok(jobs)
}

/// What came of a job: of a section its replies and what it listed, and of a looker what it reports.
#[derive(Drop)]
pub struct Outcome {
    pub replies: Vec<Reply>,
    pub listings: Vec<Listing>,
    pub told: Vec<Look>,
}

/// Takes the workers and the passes of all jobs in, and hands on what came of each.
///
/// # Errors
///
/// Memory ran out, or had run out for a job.
pub fn gather(
    alloc: Global,
    tables: &Tables,
    tickets: &Tickets,
    first: &mut Worker,
    draws: &mut TicketPass,
    done: Vec<Result<Job, AllocError>>,
) -> Result<Vec<Outcome>, AllocError>
    requires few { length done.items < 2 ^ 13 }
    requires done { AllOver tables.now tickets.now done.items }
    requires first { IsFirst tables.now (length done.items) first.old }
    requires draws { IsFirstPass tickets.now (length done.items) draws.old }
    ensures rest { IfOk result (λ given. IsAtRest tables.now first.new) }
    ensures parts { IfOk result (λ given. HasAllParts first.new) }
    ensures joined { IfOk result
        (λ given. (other : Part) → IsGathered (part_in other done.items) 0 (length done.items) (part_of first.new)) }
    ensures draws { IfOk result (λ given. HasDrawnAll tickets.now done.items given.items draws.new) }
    ensures outcomes { IfOk result (λ given. given.items ≡ outcomes_in done.items) }
    ensures count { IfOk result (λ given. length given.items ≡ length done.items) }
{
    let mut given = Vec::with_capacity(alloc, done.len())?;
    let mut left = done;
    while let Some(result) = left.pop() {
        let Job {
            worker,
            draws: drawn,
            replies,
            listings,
            told,
            ..
        } = result?;
        first.join(tables, worker)?;
        draws.join(tickets, drawn);
        given.push(Outcome {
            replies,
            listings,
            told,
        })?;
    }
    Ok(backwards(given))
}

/// The same from the last to the first.
pub(crate) fn backwards<T>(mut all: Vec<T>) -> Vec<T>
    ensures { result.items ≡ reverse all.items }
{
    all.as_mut_slice().reverse();
    all
}
