//! What a worker tells of itself and of its sockets, and a looker of many packets.

ghost use Rattle.std.specs.Prelude.{◌≡◌};
ghost use Rattle.inet_c.specs.Asked.{IsNextOverOrNever, LooksAll, TellsClock, TellsItem, TellsLeft, TellsNextOver, TellsSocket};
ghost use Rattle.inet_c.specs.Owned.{held};

use crate::errno::{EBADF, EINVAL};
use crate::kinds::{InetLooker, InetWorker};
use crate::seen::PASSES;
use flat_calls::Item;
use shared_calls::{Asking, Caller, Left, Sighting};
use std::alloc::Global;

/// No socket.
const NO_ITEM: Item = Item {
    kind: 0,
    worker: 0,
    socket: 0,
    addr: 0,
    peer_addr: 0,
    port: 0,
    peer_port: 0,
    dev: 0,
    net: 0,
};

/// Nothing is left.
const NOTHING_LEFT: Left = Left {
    sockets: 0,
    entries: 0,
    stamps: 0,
    waits: 0,
};

/// Writes what was found, or that nothing was.
fn tell_item(found: Option<Item>, item: &mut Item) -> i32
    ensures { TellsItem found item.new result }
{
    match found {
        None => {
            *item = NO_ITEM;
            EBADF
        }
        Some(found) => {
            *item = found;
            0
        }
    }
}

/// Writes what the worker's open socket of that number is.
pub fn socket(worker: &mut InetWorker, alloc: Global, number: u64, item: &mut Item) -> i32
    ensures same { worker.new.boxed ≡ worker.old.boxed }
    ensures tells { TellsSocket (held worker.old.boxed) number item.new result }
{
    match worker.take(alloc) {
        None => tell_item(None, item),
        Some(limited) => {
            let errno = tell_item(limited.caller.socket(number), item);
            *worker = InetWorker::of(limited);
            errno
        }
    }
}

/// Writes what is left to the worker.
pub fn left(worker: &mut InetWorker, alloc: Global, left: &mut Left) -> i32
    ensures same { worker.new.boxed ≡ worker.old.boxed }
    ensures tells { TellsLeft (held worker.old.boxed) left.new result }
{
    match worker.take(alloc) {
        None => {
            *left = NOTHING_LEFT;
            EBADF
        }
        Some(limited) => {
            *left = limited.caller.left();
            *worker = InetWorker::of(limited);
            0
        }
    }
}

fn next_over_or_never(caller: &Caller) -> u64
    ensures { IsNextOverOrNever caller.now result }
{
    match caller.next_over() {
        Some(moment) => u64::from(moment),
        None => u64::MAX,
    }
}

/// Writes when the next of the worker's TIME_WAITs has lasted its minute.
pub fn next_over(worker: &mut InetWorker, alloc: Global, moment: &mut u64) -> i32
    ensures same { worker.new.boxed ≡ worker.old.boxed }
    ensures tells { TellsNextOver (held worker.old.boxed) moment.new result }
{
    match worker.take(alloc) {
        None => {
            *moment = u64::MAX;
            EBADF
        }
        Some(limited) => {
            *moment = next_over_or_never(&limited.caller);
            *worker = InetWorker::of(limited);
            0
        }
    }
}

/// Writes the clock as the worker's last call left it.
pub fn now(worker: &mut InetWorker, alloc: Global, clock: &mut u64) -> i32
    ensures same { worker.new.boxed ≡ worker.old.boxed }
    ensures tells { TellsClock (held worker.old.boxed) clock.new result }
{
    match worker.take(alloc) {
        None => {
            *clock = 0;
            EBADF
        }
        Some(limited) => {
            *clock = limited.caller.now();
            *worker = InetWorker::of(limited);
            0
        }
    }
}

/// Looks each packet up, and writes at its place what it finds.
pub fn look_all(
    looker: &mut InetLooker,
    alloc: Global,
    packets: &[Asking],
    after: u64,
    sights: &mut [Sighting],
) -> i32
    ensures { LooksAll (held looker.old.boxed) (held looker.new.boxed) packets.now after sights.old sights.new result }
{
    match looker.take(alloc) {
        None => EBADF,
        Some(mut held) => {
            let fits = packets.len() == sights.len();
            if fits {
                held.sight_all(packets, PASSES, after, sights);
            }
            *looker = InetLooker::of(held);
            if fits { 0 } else { EINVAL }
        }
    }
}
