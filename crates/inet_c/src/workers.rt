//! Workers of shared tables, as C calls them.
//!
//! Each call answers 0 or a number of errno(3), and writes what else it reports through its last references. `alloc`
//! takes no place among the arguments in C.

ghost use Rattle.std.specs.Prelude.{◌≡◌, None, Result, pos};
ghost use Rattle.flat_calls.specs.Commands as commands;
ghost use Rattle.flat_calls.specs.Errnos as told;
ghost use Rattle.flat_calls.specs.declared.outcome.Outcome.{Outcome};
ghost use Rattle.inet_c.specs.Asked.{TellsClock, TellsLeft, TellsNextOver, TellsSocket};
ghost use Rattle.inet_c.specs.Calls.{WorkerCalled, WorkerMakes, next_of_worker};
ghost use Rattle.inet_c.specs.Opened.{TellsOpen};
ghost use Rattle.inet_c.specs.Owned.{held};
ghost use Rattle.inet_c.specs.Reaped as reapings;
ghost use Rattle.inet_c.specs.Reaped.{WorkerReaps};
ghost use Rattle.inet_c.specs.Returned as returned;
ghost use Rattle.inet_c.specs.Returned.{WorkerReturns};
ghost use Rattle.inet_c.specs.Words as words;
ghost use Rattle.inet_c.specs.Words.{AreOptions};
ghost use Rattle.inet_c.specs.declared.errno.TheConstants.{EINVAL};
ghost use Rattle.inet_c.specs.declared.returning.Returning.{Returning};
ghost use Rattle.section_machine.specs.declared.reaping.Gone.{Gone};

use crate::errno::EINVAL;
use crate::kinds::{InetTables, InetWorker};
use crate::{asked, calls, opened, reaped, returning, words};
use flat_calls::outcome::{count_of, end_of, errno_of, leaves_time_wait};
use flat_calls::{Item, commands};
use flat_list::{Command, End};
use shared_calls::Left;
use std::alloc::Global;

/// Gives a worker back to its shared tables, for the next who wants one. Its handle holds nothing then. It keeps its
/// sockets, its TIME_WAITs and its moment.
#[unsafe(no_mangle)]
pub extern "C" fn inet_worker_give_back(
    worker: &mut InetWorker,
    alloc: Global,
    tables: &mut InetTables,
) -> i32
    ensures { (returning : Returning) × WorkerReturns (held tables.old.boxed) (held tables.new.boxed)
        (held worker.old.boxed) (held worker.new.boxed) returning × (result ≡ returned.errno_of returning) }
{
    returning::errno_of(returning::give_worker_back(worker, alloc, tables))
}

/// Gives up the worker that a handle holds, which holds nothing then. It is lost to its tables.
#[unsafe(no_mangle)]
pub extern "C" fn inet_worker_free(worker: &mut InetWorker, alloc: Global)
    ensures { worker.new.boxed ≡ None }
{
    drop(worker.take(alloc));
}

/// Makes a socket, in network namespace `net`, of user `uid`, on device `dev` or on none (0).
/// `flags` add up 1 for SO_REUSEADDR, 2 for SO_REUSEPORT and 4 for IP_BIND_ADDRESS_NO_PORT. A lookup answers the mark
/// beside the socket's number. `socket` is its number.
#[unsafe(no_mangle)]
pub extern "C" fn inet_worker_socket(
    worker: &mut InetWorker,
    alloc: Global,
    net: u8,
    uid: u32,
    dev: u16,
    flags: u32,
    mark: u32,
    socket: &mut u64,
) -> i32
    ensures unfit { (AreOptions net flags → ⊥)
        → (result ≡ EINVAL) × (socket.new ≡ 0) × (worker.new.boxed ≡ worker.old.boxed) }
    ensures number { AreOptions net flags → socket.new ≡ next_of_worker (held worker.old.boxed) }
    ensures called { AreOptions net flags → (outcome : Outcome)
        × WorkerMakes (held worker.old.boxed) (held worker.new.boxed) mark
        (commands.socket socket.new (words.options net uid dev flags)) outcome
        × (result ≡ pos (told.errno_of outcome)) }
{
    if !words::are_options(net, flags) {
        *socket = 0;
        return EINVAL;
    }
    let number = calls::next_of_worker(worker, alloc);
    *socket = number;
    let command = commands::socket(number, words::options(net, uid, dev, flags));
    errno_of(calls::make(worker, alloc, mark, &command))
}

/// Binds a socket to an address, 0 for any, and a port; at port 0 to one that is searched for. `bound` is its port.
#[unsafe(no_mangle)]
pub extern "C" fn inet_worker_bind(
    worker: &mut InetWorker,
    alloc: Global,
    socket: u64,
    addr: u32,
    port: u16,
    bound: &mut u16,
) -> i32
    ensures { (outcome : Outcome) × WorkerCalled (held worker.old.boxed) (held worker.new.boxed)
        (commands.bind socket (record { addr = addr; port = port })) outcome
        × (result ≡ pos (told.errno_of outcome)) × (bound.new ≡ (told.end_of outcome).port) }
{
    let command = commands::bind(socket, End { addr, port });
    let outcome = calls::call_worker(worker, alloc, &command);
    *bound = end_of(outcome).port;
    errno_of(outcome)
}

/// Lets a socket listen; one without a port gets one that is searched for. `bound` is its port.
#[unsafe(no_mangle)]
pub extern "C" fn inet_worker_listen(
    worker: &mut InetWorker,
    alloc: Global,
    socket: u64,
    bound: &mut u16,
) -> i32
    ensures { (outcome : Outcome) × WorkerCalled (held worker.old.boxed) (held worker.new.boxed) (commands.listen socket) outcome
        × (result ≡ pos (told.errno_of outcome)) × (bound.new ≡ (told.end_of outcome).port) }
{
    let outcome = calls::call_worker(worker, alloc, &commands::listen(socket));
    *bound = end_of(outcome).port;
    errno_of(outcome)
}

/// Connects a socket to an address and a port. `from` names its own address, and is 0 where `bind` has named it; a port
/// that it lacks is searched for. `addr` and `port` are its own end.
#[unsafe(no_mangle)]
pub extern "C" fn inet_worker_connect(
    worker: &mut InetWorker,
    alloc: Global,
    socket: u64,
    from: u32,
    to_addr: u32,
    to_port: u16,
    addr: &mut u32,
    port: &mut u16,
) -> i32
    ensures { (outcome : Outcome) × WorkerCalled (held worker.old.boxed) (held worker.new.boxed)
        (commands.connect socket (words.source from) (record { addr = to_addr; port = to_port })) outcome
        × (result ≡ pos (told.errno_of outcome)) × (told.end_of outcome ≡ record { addr = addr.new; port = port.new }) }
{
    let to = End {
        addr: to_addr,
        port: to_port,
    };
    let command = commands::connect(socket, words::source(from), to);
    let outcome = calls::call_worker(worker, alloc, &command);
    let end = end_of(outcome);
    *addr = end.addr;
    *port = end.port;
    errno_of(outcome)
}

/// A listener takes a connection from one end at another. `mark` is the connected socket's, and `socket` its number.
#[unsafe(no_mangle)]
pub extern "C" fn inet_worker_accept(
    worker: &mut InetWorker,
    alloc: Global,
    listener: u64,
    from_addr: u32,
    from_port: u16,
    at_addr: u32,
    at_port: u16,
    mark: u32,
    socket: &mut u64,
) -> i32
    ensures number { socket.new ≡ next_of_worker (held worker.old.boxed) }
    ensures called { (outcome : Outcome) × WorkerMakes (held worker.old.boxed) (held worker.new.boxed) mark
        (commands.accept listener socket.new (record { addr = from_addr; port = from_port })
        (record { addr = at_addr; port = at_port })) outcome
        × (result ≡ pos (told.errno_of outcome)) }
{
    let number = calls::next_of_worker(worker, alloc);
    *socket = number;
    let from = End {
        addr: from_addr,
        port: from_port,
    };
    let at = End {
        addr: at_addr,
        port: at_port,
    };
    let command = commands::accept(listener, number, from, at);
    errno_of(calls::make(worker, alloc, mark, &command))
}

/// A handshake with a listener begins, from one end at another. `mark` is its request's, and `request` its number.
#[unsafe(no_mangle)]
pub extern "C" fn inet_worker_syn(
    worker: &mut InetWorker,
    alloc: Global,
    listener: u64,
    from_addr: u32,
    from_port: u16,
    at_addr: u32,
    at_port: u16,
    mark: u32,
    request: &mut u64,
) -> i32
    ensures number { request.new ≡ next_of_worker (held worker.old.boxed) }
    ensures called { (outcome : Outcome) × WorkerMakes (held worker.old.boxed) (held worker.new.boxed) mark
        (commands.syn listener request.new (record { addr = from_addr; port = from_port })
        (record { addr = at_addr; port = at_port })) outcome
        × (result ≡ pos (told.errno_of outcome)) }
{
    let number = calls::next_of_worker(worker, alloc);
    *request = number;
    let from = End {
        addr: from_addr,
        port: from_port,
    };
    let at = End {
        addr: at_addr,
        port: at_port,
    };
    let command = commands::syn(listener, number, from, at);
    errno_of(calls::make(worker, alloc, mark, &command))
}

/// A request's handshake is over, and its listener takes the connection. `mark` is the connected socket's, and `socket`
/// its number.
#[unsafe(no_mangle)]
pub extern "C" fn inet_worker_ack(
    worker: &mut InetWorker,
    alloc: Global,
    request: u64,
    mark: u32,
    socket: &mut u64,
) -> i32
    ensures number { socket.new ≡ next_of_worker (held worker.old.boxed) }
    ensures called { (outcome : Outcome) × WorkerMakes (held worker.old.boxed) (held worker.new.boxed) mark
        (commands.ack request socket.new) outcome × (result ≡ pos (told.errno_of outcome)) }
{
    let number = calls::next_of_worker(worker, alloc);
    *socket = number;
    let command = commands::ack(request, number);
    errno_of(calls::make(worker, alloc, mark, &command))
}

/// Closes a socket. `waits` says whether a TIME_WAIT stays: a connected socket leaves one, where a slot is free for
/// it.
#[unsafe(no_mangle)]
pub extern "C" fn inet_worker_close(
    worker: &mut InetWorker,
    alloc: Global,
    socket: u64,
    waits: &mut bool,
) -> i32
    ensures { (outcome : Outcome) × WorkerCalled (held worker.old.boxed) (held worker.new.boxed) (commands.close socket) outcome
        × (result ≡ pos (told.errno_of outcome)) × (waits.new ≡ told.leaves_time_wait outcome) }
{
    let outcome = calls::call_worker(worker, alloc, &commands::close(socket));
    *waits = leaves_time_wait(outcome);
    errno_of(outcome)
}

/// Closes a socket without a trace.
#[unsafe(no_mangle)]
pub extern "C" fn inet_worker_drop(worker: &mut InetWorker, alloc: Global, socket: u64) -> i32
    ensures { (outcome : Outcome)
        × WorkerCalled (held worker.old.boxed) (held worker.new.boxed) (commands.drop_socket socket) outcome
        × (result ≡ pos (told.errno_of outcome)) }
{
    let command = commands::drop_socket(socket);
    errno_of(calls::call_worker(worker, alloc, &command))
}

/// The lowest number above `after` which names an open socket of the worker, or 0.
#[unsafe(no_mangle)]
pub extern "C" fn inet_worker_next_open(
    worker: &mut InetWorker,
    alloc: Global,
    after: u64,
    socket: &mut u64,
) -> i32
    ensures same { worker.new.boxed ≡ worker.old.boxed }
    ensures tells { TellsOpen (held worker.old.boxed) after socket.new result }
{
    opened::next_open(worker, alloc, after, socket)
}

/// What the worker's open socket of that number is, with its ends: kinds as a lookup has them, 5 for a bound socket, and
/// 6 for one without a port.
#[unsafe(no_mangle)]
pub extern "C" fn inet_worker_ask(
    worker: &mut InetWorker,
    alloc: Global,
    socket: u64,
    item: &mut Item,
) -> i32
    ensures same { worker.new.boxed ≡ worker.old.boxed }
    ensures tells { TellsSocket (held worker.old.boxed) socket item.new result }
{
    asked::socket(worker, alloc, socket, item)
}

/// What is left to the worker: sockets to make, entries of bind buckets, numbers of the clock; and its TIME_WAITs.
#[unsafe(no_mangle)]
pub extern "C" fn inet_worker_left(worker: &mut InetWorker, alloc: Global, left: &mut Left) -> i32
    ensures same { worker.new.boxed ≡ worker.old.boxed }
    ensures tells { TellsLeft (held worker.old.boxed) left.new result }
{
    asked::left(worker, alloc, left)
}

/// The least moment at which one of the worker's TIME_WAITs has lasted its minute; 2^64 - 1 where none does.
#[unsafe(no_mangle)]
pub extern "C" fn inet_worker_next_over(
    worker: &mut InetWorker,
    alloc: Global,
    moment: &mut u64,
) -> i32
    ensures same { worker.new.boxed ≡ worker.old.boxed }
    ensures tells { TellsNextOver (held worker.old.boxed) moment.new result }
{
    asked::next_over(worker, alloc, moment)
}

/// The clock as the worker's last call left it: each change that its calls made has ended below that number.
#[unsafe(no_mangle)]
pub extern "C" fn inet_worker_now(worker: &mut InetWorker, alloc: Global, clock: &mut u64) -> i32
    ensures same { worker.new.boxed ≡ worker.old.boxed }
    ensures tells { TellsClock (held worker.old.boxed) clock.new result }
{
    asked::now(worker, alloc, clock)
}

/// Sets the worker's moment, in seconds, which never goes back.
#[unsafe(no_mangle)]
pub extern "C" fn inet_worker_at(worker: &mut InetWorker, alloc: Global, moment: u32) -> i32
    ensures { (outcome : Outcome) × WorkerCalled (held worker.old.boxed) (held worker.new.boxed) (commands.at moment) outcome
        × (result ≡ pos (told.errno_of outcome)) }
{
    errno_of(calls::call_worker(worker, alloc, &Command::At { moment }))
}

/// Removes those of the worker's TIME_WAITs that have lasted 60 seconds. `count` is how many.
#[unsafe(no_mangle)]
pub extern "C" fn inet_worker_reap(worker: &mut InetWorker, alloc: Global, count: &mut u64) -> i32
    ensures { (outcome : Outcome) × WorkerCalled (held worker.old.boxed) (held worker.new.boxed) commands.reap outcome
        × (result ≡ pos (told.errno_of outcome)) × (count.new ≡ told.count_of outcome) }
{
    let outcome = calls::call_worker(worker, alloc, &Command::Reap);
    *count = count_of(outcome);
    errno_of(outcome)
}

/// [`inet_worker_reap`] of `most` TIME_WAITs at most. `more` says whether more of them have lasted 60 seconds.
#[unsafe(no_mangle)]
pub extern "C" fn inet_worker_reap_most(
    worker: &mut InetWorker,
    alloc: Global,
    most: u64,
    count: &mut u64,
    more: &mut bool,
) -> i32
    ensures { (reaping : Result Gone Outcome)
        × WorkerReaps (held worker.old.boxed) (held worker.new.boxed) most reaping
        × (result ≡ pos (reapings.errno_of reaping)) × (count.new ≡ reapings.count_of reaping)
        × (more.new ≡ reapings.has_more reaping) }
{
    let reaping = reaped::reap_most(worker, alloc, most);
    *count = reaped::count_of(reaping);
    *more = reaped::has_more(reaping);
    reaped::errno_of(reaping)
}
