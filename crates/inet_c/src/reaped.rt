//! The reaping of so many of a worker's TIME_WAITs at most.

ghost use Rattle.std.specs.Prelude.{◌≡◌, pos};
ghost use Rattle.inet_c.specs.Owned.{held};
ghost use Rattle.inet_c.specs.Reaped as spec;
ghost use Rattle.inet_c.specs.Reaped.{WorkerReaps};

use crate::kinds::InetWorker;
use flat_calls::{Outcome, outcome};
use section_machine::Gone;
use std::alloc::Global;

/// Reaps so many of the worker's TIME_WAITs at most.
pub fn reap_most(worker: &mut InetWorker, alloc: Global, most: u64) -> Result<Gone, Outcome>
    ensures { WorkerReaps (held worker.old.boxed) (held worker.new.boxed) most result }
{
    match worker.take(alloc) {
        None => Err(Outcome::NoTables),
        Some(mut limited) => {
            let reaped = limited.reap_most(most);
            *worker = InetWorker::of(limited);
            reaped
        }
    }
}

/// How many were still there.
pub fn count_of(reaped: Result<Gone, Outcome>) -> u64
    ensures { result ≡ spec.count_of reaped }
{
    match reaped {
        Ok(Gone::All(count) | Gone::More(count)) => count,
        Err(_) => 0,
    }
}

/// More have lasted their minute.
pub fn has_more(reaped: Result<Gone, Outcome>) -> bool
    ensures { result ≡ spec.has_more reaped }
{
    matches!(reaped, Ok(Gone::More(_)))
}

/// The number of errno(3), or 0.
pub fn errno_of(reaped: Result<Gone, Outcome>) -> i32
    ensures { result ≡ pos (spec.errno_of reaped) }
{
    match reaped {
        Ok(_) => 0,
        Err(end) => outcome::errno_of(end),
    }
}
