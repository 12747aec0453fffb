//! The open sockets of a worker, one after the other.

ghost use Rattle.std.specs.Prelude.{◌≡◌};
ghost use Rattle.inet_c.specs.Opened.{IsNextOr0, TellsOpen};
ghost use Rattle.inet_c.specs.Owned.{held};

use crate::errno::EBADF;
use crate::kinds::InetWorker;
use shared_calls::Caller;
use std::alloc::Global;

/// The caller's next open socket, or 0.
fn next_or_0(caller: &Caller, after: u64) -> u64
    ensures { IsNextOr0 caller.now after result }
{
    match caller.next_open(after) {
        Some(number) => number,
        None => 0,
    }
}

/// Writes the lowest number above that one which names an open socket of the worker, or 0, and answers 0, or EBADF
/// where there is no worker.
pub fn next_open(worker: &mut InetWorker, alloc: Global, after: u64, next: &mut u64) -> i32
    ensures same { worker.new.boxed ≡ worker.old.boxed }
    ensures tells { TellsOpen (held worker.old.boxed) after next.new result }
{
    match worker.take(alloc) {
        None => {
            *next = 0;
            EBADF
        }
        Some(limited) => {
            *next = next_or_0(&limited.caller, after);
            *worker = InetWorker::of(limited);
            0
        }
    }
}
