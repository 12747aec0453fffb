//! How workers and lookers are given back to their shared tables.

ghost use Rattle.std.specs.Prelude.{◌≡◌, Some};
ghost use Rattle.inet_c.specs.Owned.{held};
ghost use Rattle.inet_c.specs.Returned as spec;
ghost use Rattle.inet_c.specs.Returned.{LookerReturns, WorkerReturns};

use crate::errno::{EBADF, EINVAL};
use crate::kinds::{InetLooker, InetTables, InetWorker};
use shared_calls::SharedTables;
use std::alloc::Global;

/// What came of it.
#[derive(Clone, Copy, Debug, PartialEq, Eq)]
pub enum Returning {
    /// The tables have it.
    Back,
    /// A handle holds nothing.
    NoTables,
    /// It is no worker or looker of these tables.
    Strange,
}

/// The number of errno(3) by which Linux reports it.
pub fn errno_of(returning: Returning) -> i32
    ensures { result ≡ spec.errno_of returning }
{
    match returning {
        Returning::Back => 0,
        Returning::NoTables => EBADF,
        Returning::Strange => EINVAL,
    }
}

fn take_worker(tables: &mut SharedTables, alloc: Global, worker: &mut InetWorker) -> Returning
    ensures { WorkerReturns (Some tables.old) (Some tables.new) (held worker.old.boxed) (held worker.new.boxed)
        result }
{
    let Some(back) = worker.take(alloc) else {
        return Returning::NoTables;
    };
    if !tables.may_come_back(&back.caller) {
        *worker = InetWorker::of(back);
        return Returning::Strange;
    }
    tables.take_back(Box::into_inner(back).into_inner().caller);
    Returning::Back
}

fn take_looker(tables: &mut SharedTables, alloc: Global, looker: &mut InetLooker) -> Returning
    ensures { LookerReturns (Some tables.old) (Some tables.new) (held looker.old.boxed) (held looker.new.boxed)
        result }
{
    let Some(back) = looker.take(alloc) else {
        return Returning::NoTables;
    };
    if !tables.looker_may_come_back(&back) {
        *looker = InetLooker::of(back);
        return Returning::Strange;
    }
    tables.take_looker_back(Box::into_inner(back).into_inner());
    Returning::Back
}

/// Gives a worker back to shared tables, for the next who wants one. Its handle holds nothing then. It takes no memory.
pub fn give_worker_back(
    worker: &mut InetWorker,
    alloc: Global,
    tables: &mut InetTables,
) -> Returning
    ensures { WorkerReturns (held tables.old.boxed) (held tables.new.boxed) (held worker.old.boxed)
        (held worker.new.boxed) result }
{
    match tables.take(alloc) {
        None => Returning::NoTables,
        Some(mut shared) => {
            let returning = take_worker(&mut shared, alloc, worker);
            *tables = InetTables::of(shared);
            returning
        }
    }
}

/// Gives a looker back to shared tables, as a worker is given back.
pub fn give_looker_back(
    looker: &mut InetLooker,
    alloc: Global,
    tables: &mut InetTables,
) -> Returning
    ensures { LookerReturns (held tables.old.boxed) (held tables.new.boxed) (held looker.old.boxed)
        (held looker.new.boxed) result }
{
    match tables.take(alloc) {
        None => Returning::NoTables,
        Some(mut shared) => {
            let returning = take_looker(&mut shared, alloc, looker);
            *tables = InetTables::of(shared);
            returning
        }
    }
}
