//! Calls through a handle.

ghost use Rattle.std.specs.Prelude.{◌≡◌, false};
ghost use Rattle.table_model.specs.Means.{is_lookup};
ghost use Rattle.shared_calls.specs.Numbers.{IsNext};
ghost use Rattle.inet_c.specs.Calls as spec;
ghost use Rattle.inet_c.specs.Calls.{ListCalled, WorkerCalled, WorkerMakes};
ghost use Rattle.inet_c.specs.Owned.{held};

use crate::kinds::{InetList, InetWorker};
use flat_calls::Outcome;
use flat_list::Command;
use std::alloc::Global;

/// The number that the list's next socket gets; 0 where there is no list.
pub fn next_of_list(list: &mut InetList, alloc: Global) -> u64
    ensures number { result ≡ spec.next_of_list (held list.old.boxed) }
    ensures same { list.new.boxed ≡ list.old.boxed }
{
    match list.take(alloc) {
        None => 0,
        Some(tables) => {
            let number = tables.next_number();
            *list = InetList::of(tables);
            number
        }
    }
}

/// The number that the worker's next socket gets; 0 where there is no worker.
pub fn next_of_worker(worker: &mut InetWorker, alloc: Global) -> u64
    ensures number { result ≡ spec.next_of_worker (held worker.old.boxed) }
    ensures same { worker.new.boxed ≡ worker.old.boxed }
{
    match worker.take(alloc) {
        None => 0,
        Some(limited) => {
            let number = limited.caller.next_number();
            *worker = InetWorker::of(limited);
            number
        }
    }
}

/// Carries out a command of a list's worker. One that makes a socket has the next number's label for it.
pub fn call_list(list: &mut InetList, alloc: Global, worker: u32, command: &Command) -> Outcome
    ensures { ListCalled (held list.old.boxed) (held list.new.boxed) worker command.now result }
{
    match list.take(alloc) {
        None => Outcome::NoTables,
        Some(mut tables) => {
            let outcome = tables.call(worker, command);
            *list = InetList::of(tables);
            outcome
        }
    }
}

/// Carries out a worker's command. One that makes a socket has the next number's label for it.
pub fn call_worker(worker: &mut InetWorker, alloc: Global, command: &Command) -> Outcome
    requires look { is_lookup command.now ≡ false }
    requires next { IsNext (spec.next_of_worker (held worker.old.boxed)) command.now }
    ensures { WorkerCalled (held worker.old.boxed) (held worker.new.boxed) command.now result }
{
    match worker.take(alloc) {
        None => Outcome::NoTables,
        Some(mut limited) => {
            let outcome = limited.call(command);
            *worker = InetWorker::of(limited);
            outcome
        }
    }
}

/// [`call_worker`] of a command that makes a socket, which gets that mark.
pub fn make(worker: &mut InetWorker, alloc: Global, mark: u32, command: &Command) -> Outcome
    requires look { is_lookup command.now ≡ false }
    requires next { IsNext (spec.next_of_worker (held worker.old.boxed)) command.now }
    ensures { WorkerMakes (held worker.old.boxed) (held worker.new.boxed) mark command.now result }
{
    match worker.take(alloc) {
        None => Outcome::NoTables,
        Some(mut limited) => {
            limited.caller.set_mark(mark);
            let made = limited.call(command);
            *worker = InetWorker::of(limited);
            made
        }
    }
}
