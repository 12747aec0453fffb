//! How workers and lookers are handed out of shared tables, each into a handle of its own.

ghost use Rattle.std.specs.Prelude.{◌≡◌, None, Some};
ghost use Rattle.inet_c.specs.Handed.{Hands, IsWorker, NumberedIf};
ghost use Rattle.inet_c.specs.Owned.{held};
ghost use Rattle.shared_calls.specs.Sharings.{GivesLooker, HasNoCaller, HasNoLooker};

use crate::handle::boxed;
use crate::kinds::{InetLooker, InetTables, InetWorker};
use crate::making::Making;
use shared_calls::{Limited, Limits, Refused, SharedTables};
use std::alloc::Global;

fn give_worker(
    tables: &mut SharedTables,
    alloc: Global,
    limits: Limits,
    worker: &mut InetWorker,
    number: &mut u32,
) -> Making
    requires none { held worker.old.boxed ≡ None }
    requires zero { number.old ≡ 0 }
    ensures hands { Hands (IsWorker limits number.new) HasNoCaller (Some tables.old) (Some tables.new)
        (held worker.old.boxed) (held worker.new.boxed) result }
    ensures number { NumberedIf result number.new }
{
    match tables.caller(alloc) {
        Ok(caller) => {
            let given = caller.number();
            match boxed(alloc, Limited::new(caller, limits)) {
                Ok(made) => {
                    *worker = InetWorker::of(made);
                    *number = given;
                    Making::Made
                }
                Err(limited) => {
                    tables.take_back(limited.caller);
                    Making::NoMemory
                }
            }
        }
        Err(Refused::AllOut) => Making::AllOut,
        Err(Refused::Memory) => Making::NoMemory,
    }
}

fn give_looker(tables: &mut SharedTables, alloc: Global, looker: &mut InetLooker) -> Making
    requires { held looker.old.boxed ≡ None }
    ensures { Hands GivesLooker HasNoLooker (Some tables.old) (Some tables.new) (held looker.old.boxed)
        (held looker.new.boxed) result }
{
    match tables.looker(alloc) {
        Ok(given) => match boxed(alloc, given) {
            Ok(made) => {
                *looker = InetLooker::of(made);
                Making::Made
            }
            Err(given) => {
                tables.take_looker_back(given);
                Making::NoMemory
            }
        },
        Err(Refused::AllOut) => Making::AllOut,
        Err(Refused::Memory) => Making::NoMemory,
    }
}

/// A worker of shared tables, into a handle that holds nothing, and its number, or 0: the one that was given back last,
/// or the next. It is under these limits.
pub fn hand_worker(
    tables: &mut InetTables,
    alloc: Global,
    limits: Limits,
    worker: &mut InetWorker,
    number: &mut u32,
) -> Making
    ensures hands { Hands (IsWorker limits number.new) HasNoCaller (held tables.old.boxed) (held tables.new.boxed)
        (held worker.old.boxed) (held worker.new.boxed) result }
    ensures number { NumberedIf result number.new }
{
    *number = 0;
    if worker.is_held(alloc) {
        return Making::There;
    }
    match tables.take(alloc) {
        None => Making::NoTables,
        Some(mut shared) => {
            let making = give_worker(&mut shared, alloc, limits, worker, number);
            *tables = InetTables::of(shared);
            making
        }
    }
}

/// A looker in shared tables, into a handle that holds nothing.
pub fn hand_looker(tables: &mut InetTables, alloc: Global, looker: &mut InetLooker) -> Making
    ensures { Hands GivesLooker HasNoLooker (held tables.old.boxed) (held tables.new.boxed) (held looker.old.boxed)
        (held looker.new.boxed) result }
{
    if looker.is_held(alloc) {
        return Making::There;
    }
    match tables.take(alloc) {
        None => Making::NoTables,
        Some(mut shared) => {
            let making = give_looker(&mut shared, alloc, looker);
            *tables = InetTables::of(shared);
            making
        }
    }
}
