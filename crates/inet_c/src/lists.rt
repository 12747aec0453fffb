//! Lists, as C makes them and calls them.
//!
//! Each call answers 0 or a number of errno(3), and writes what else it reports through its last references. `alloc`
//! takes no place among the arguments in C. A list's workers are 1 to 64.

ghost use Rattle.std.specs.Prelude.{◌≡◌, None, pos};
ghost use Rattle.flat_calls.specs.Commands as commands;
ghost use Rattle.flat_calls.specs.Errnos as told;
ghost use Rattle.flat_calls.specs.declared.outcome.Outcome.{Outcome};
ghost use Rattle.inet_c.specs.Calls.{ListCalled, next_of_list};
ghost use Rattle.inet_c.specs.Listed as listed;
ghost use Rattle.inet_c.specs.Listed.{Tells};
ghost use Rattle.inet_c.specs.Made as made;
ghost use Rattle.inet_c.specs.Made.{IsList, Makes};
ghost use Rattle.inet_c.specs.Owned.{held};
ghost use Rattle.inet_c.specs.Seen.{ListLooks, nobody};
ghost use Rattle.inet_c.specs.Words as words;
ghost use Rattle.inet_c.specs.Words.{AreOptions, IsNamespace};
ghost use Rattle.inet_c.specs.declared.errno.TheConstants.{EINVAL};
ghost use Rattle.inet_c.specs.declared.listing.Telling.{Telling};
ghost use Rattle.inet_c.specs.declared.making.Making.{Making};

use crate::errno::EINVAL;
use crate::kinds::InetList;
use crate::seen::{InetSight, NOBODY, look_in_list};
use crate::sizes::InetSizes;
use crate::{calls, listing, making, words};
use flat_calls::outcome::{count_of, end_of, errno_of, leaves_time_wait};
use flat_calls::{Item, commands};
use flat_list::{Command, End};
use sock_card::Packet;
use std::alloc::Global;

/// Makes a list in a handle that holds nothing.
#[unsafe(no_mangle)]
pub extern "C" fn inet_list_new(list: &mut InetList, alloc: Global, sizes: &InetSizes) -> i32
    ensures { (making : Making) × Makes IsList sizes.now (held list.old.boxed) (held list.new.boxed) making
        × (result ≡ made.errno_of making) }
{
    making::errno_of(making::make(list, alloc, sizes))
}

/// Gives up the list that a handle holds, which holds nothing then.
#[unsafe(no_mangle)]
pub extern "C" fn inet_list_free(list: &mut InetList, alloc: Global)
    ensures { list.new.boxed ≡ None }
{
    drop(list.take(alloc));
}

/// Makes a socket of that worker, in network namespace `net`, of user `uid`, on device `dev` or on none (0).
/// `flags` add up 1 for SO_REUSEADDR, 2 for SO_REUSEPORT and 4 for IP_BIND_ADDRESS_NO_PORT. `socket` is its number.
#[unsafe(no_mangle)]
pub extern "C" fn inet_list_socket(
    list: &mut InetList,
    alloc: Global,
    worker: u32,
    net: u8,
    uid: u32,
    dev: u16,
    flags: u32,
    socket: &mut u64,
) -> i32
    ensures unfit { (AreOptions net flags → ⊥)
        → (result ≡ EINVAL) × (socket.new ≡ 0) × (list.new.boxed ≡ list.old.boxed) }
    ensures number { AreOptions net flags → socket.new ≡ next_of_list (held list.old.boxed) }
    ensures called { AreOptions net flags → (outcome : Outcome)
        × ListCalled (held list.old.boxed) (held list.new.boxed) worker
        (commands.socket socket.new (words.options net uid dev flags)) outcome
        × (result ≡ pos (told.errno_of outcome)) }
{
    if !words::are_options(net, flags) {
        *socket = 0;
        return EINVAL;
    }
    let number = calls::next_of_list(list, alloc);
    *socket = number;
    let command = commands::socket(number, words::options(net, uid, dev, flags));
    errno_of(calls::call_list(list, alloc, worker, &command))
}

/// Binds a socket to an address, 0 for any, and a port; at port 0 to one that is searched for. `bound` is its port.
#[unsafe(no_mangle)]
pub extern "C" fn inet_list_bind(
    list: &mut InetList,
    alloc: Global,
    worker: u32,
    socket: u64,
    addr: u32,
    port: u16,
    bound: &mut u16,
) -> i32
    ensures { (outcome : Outcome) × ListCalled (held list.old.boxed) (held list.new.boxed) worker
        (commands.bind socket (record { addr = addr; port = port })) outcome
        × (result ≡ pos (told.errno_of outcome)) × (bound.new ≡ (told.end_of outcome).port) }
{
    let command = commands::bind(socket, End { addr, port });
    let outcome = calls::call_list(list, alloc, worker, &command);
    *bound = end_of(outcome).port;
    errno_of(outcome)
}

/// Lets a socket listen; one without a port gets one that is searched for. `bound` is its port.
#[unsafe(no_mangle)]
pub extern "C" fn inet_list_listen(
    list: &mut InetList,
    alloc: Global,
    worker: u32,
    socket: u64,
    bound: &mut u16,
) -> i32
    ensures { (outcome : Outcome) × ListCalled (held list.old.boxed) (held list.new.boxed) worker (commands.listen socket) outcome
        × (result ≡ pos (told.errno_of outcome)) × (bound.new ≡ (told.end_of outcome).port) }
{
    let outcome = calls::call_list(list, alloc, worker, &commands::listen(socket));
    *bound = end_of(outcome).port;
    errno_of(outcome)
}

/// Connects a socket to an address and a port. `from` names its own address, and is 0 where `bind` has named it; a port
/// that it lacks is searched for. `addr` and `port` are its own end.
#[unsafe(no_mangle)]
pub extern "C" fn inet_list_connect(
    list: &mut InetList,
    alloc: Global,
    worker: u32,
    socket: u64,
    from: u32,
    to_addr: u32,
    to_port: u16,
    addr: &mut u32,
    port: &mut u16,
) -> i32
    ensures { (outcome : Outcome) × ListCalled (held list.old.boxed) (held list.new.boxed) worker
        (commands.connect socket (words.source from) (record { addr = to_addr; port = to_port })) outcome
        × (result ≡ pos (told.errno_of outcome)) × (told.end_of outcome ≡ record { addr = addr.new; port = port.new }) }
{
    let to = End {
        addr: to_addr,
        port: to_port,
    };
    let command = commands::connect(socket, words::source(from), to);
    let outcome = calls::call_list(list, alloc, worker, &command);
    let end = end_of(outcome);
    *addr = end.addr;
    *port = end.port;
    errno_of(outcome)
}

/// A listener takes a connection from one end at another. `socket` is the number of the connected socket.
#[unsafe(no_mangle)]
pub extern "C" fn inet_list_accept(
    list: &mut InetList,
    alloc: Global,
    worker: u32,
    listener: u64,
    from_addr: u32,
    from_port: u16,
    at_addr: u32,
    at_port: u16,
    socket: &mut u64,
) -> i32
    ensures number { socket.new ≡ next_of_list (held list.old.boxed) }
    ensures called { (outcome : Outcome) × ListCalled (held list.old.boxed) (held list.new.boxed) worker
        (commands.accept listener socket.new (record { addr = from_addr; port = from_port })
        (record { addr = at_addr; port = at_port })) outcome
        × (result ≡ pos (told.errno_of outcome)) }
{
    let number = calls::next_of_list(list, alloc);
    *socket = number;
    let from = End {
        addr: from_addr,
        port: from_port,
    };
    let at = End {
        addr: at_addr,
        port: at_port,
    };
    let command = commands::accept(listener, number, from, at);
    errno_of(calls::call_list(list, alloc, worker, &command))
}

/// A handshake with a listener begins, from one end at another. `request` is the number of its request.
#[unsafe(no_mangle)]
pub extern "C" fn inet_list_syn(
    list: &mut InetList,
    alloc: Global,
    worker: u32,
    listener: u64,
    from_addr: u32,
    from_port: u16,
    at_addr: u32,
    at_port: u16,
    request: &mut u64,
) -> i32
    ensures number { request.new ≡ next_of_list (held list.old.boxed) }
    ensures called { (outcome : Outcome) × ListCalled (held list.old.boxed) (held list.new.boxed) worker
        (commands.syn listener request.new (record { addr = from_addr; port = from_port })
        (record { addr = at_addr; port = at_port })) outcome
        × (result ≡ pos (told.errno_of outcome)) }
{
    let number = calls::next_of_list(list, alloc);
    *request = number;
    let from = End {
        addr: from_addr,
        port: from_port,
    };
    let at = End {
        addr: at_addr,
        port: at_port,
    };
    let command = commands::syn(listener, number, from, at);
    errno_of(calls::call_list(list, alloc, worker, &command))
}

/// A request's handshake is over, and its listener takes the connection. `socket` is the number of the connected
/// socket.
#[unsafe(no_mangle)]
pub extern "C" fn inet_list_ack(
    list: &mut InetList,
    alloc: Global,
    worker: u32,
    request: u64,
    socket: &mut u64,
) -> i32
    ensures number { socket.new ≡ next_of_list (held list.old.boxed) }
    ensures called { (outcome : Outcome) × ListCalled (held list.old.boxed) (held list.new.boxed) worker
        (commands.ack request socket.new) outcome × (result ≡ pos (told.errno_of outcome)) }
{
    let number = calls::next_of_list(list, alloc);
    *socket = number;
    let command = commands::ack(request, number);
    errno_of(calls::call_list(list, alloc, worker, &command))
}

/// Closes a socket. `waits` says whether a TIME_WAIT stays: a connected socket leaves one, where a slot is free for
/// it.
#[unsafe(no_mangle)]
pub extern "C" fn inet_list_close(
    list: &mut InetList,
    alloc: Global,
    worker: u32,
    socket: u64,
    waits: &mut bool,
) -> i32
    ensures { (outcome : Outcome) × ListCalled (held list.old.boxed) (held list.new.boxed) worker (commands.close socket) outcome
        × (result ≡ pos (told.errno_of outcome)) × (waits.new ≡ told.leaves_time_wait outcome) }
{
    let outcome = calls::call_list(list, alloc, worker, &commands::close(socket));
    *waits = leaves_time_wait(outcome);
    errno_of(outcome)
}

/// Closes a socket without a trace.
#[unsafe(no_mangle)]
pub extern "C" fn inet_list_drop(
    list: &mut InetList,
    alloc: Global,
    worker: u32,
    socket: u64,
) -> i32
    ensures { (outcome : Outcome)
        × ListCalled (held list.old.boxed) (held list.new.boxed) worker (commands.drop_socket socket) outcome
        × (result ≡ pos (told.errno_of outcome)) }
{
    let command = commands::drop_socket(socket);
    errno_of(calls::call_list(list, alloc, worker, &command))
}

/// Sets the worker's moment, in seconds, which never goes back.
#[unsafe(no_mangle)]
pub extern "C" fn inet_list_at(list: &mut InetList, alloc: Global, worker: u32, moment: u32) -> i32
    ensures { (outcome : Outcome) × ListCalled (held list.old.boxed) (held list.new.boxed) worker (commands.at moment) outcome
        × (result ≡ pos (told.errno_of outcome)) }
{
    errno_of(calls::call_list(list, alloc, worker, &Command::At { moment }))
}

/// Removes those of the worker's TIME_WAITs that have lasted 60 seconds. `count` is how many.
#[unsafe(no_mangle)]
pub extern "C" fn inet_list_reap(
    list: &mut InetList,
    alloc: Global,
    worker: u32,
    count: &mut u64,
) -> i32
    ensures { (outcome : Outcome) × ListCalled (held list.old.boxed) (held list.new.boxed) worker commands.reap outcome
        × (result ≡ pos (told.errno_of outcome)) × (count.new ≡ told.count_of outcome) }
{
    let outcome = calls::call_list(list, alloc, worker, &Command::Reap);
    *count = count_of(outcome);
    errno_of(outcome)
}

/// Which socket takes a packet from `src` and `sport` to `dst` and `dport` that came in at device `dev` in network
/// namespace `net`.
#[unsafe(no_mangle)]
pub extern "C" fn inet_list_look(
    list: &mut InetList,
    alloc: Global,
    src: u32,
    sport: u16,
    dst: u32,
    dport: u16,
    dev: u16,
    net: u8,
    sight: &mut InetSight,
) -> i32
    ensures unfit { (IsNamespace net → ⊥)
        → (result ≡ EINVAL) × (sight.new ≡ nobody) × (list.new.boxed ≡ list.old.boxed) }
    ensures same { list.new.boxed ≡ list.old.boxed }
    ensures looks { IsNamespace net → ListLooks (held list.old.boxed)
        (record { src = src; sport = sport; dst = dst; dport = dport; dev = dev; net = net }) sight.new result }
{
    if !words::is_namespace(net) {
        *sight = NOBODY;
        return EINVAL;
    }
    let packet = Packet {
        src,
        sport,
        dst,
        dport,
        dev,
        net,
    };
    look_in_list(list, alloc, &packet, sight)
}

/// All sockets of a list that packets can find, by their workers, and those of one in the order in which they were
/// made: the first of them in `items`, as many as fit. `count` is how many there are.
#[unsafe(no_mangle)]
pub extern "C" fn inet_list_items(
    list: &mut InetList,
    alloc: Global,
    items: &mut [Item],
    count: &mut u64,
) -> i32
    ensures same { list.new.boxed ≡ list.old.boxed }
    ensures tells { (telling : Telling) × Tells (held list.old.boxed) items.old items.new count.new telling
        × (result ≡ listed.errno_of telling) }
{
    listing::errno_of(listing::list_items(list, alloc, items, count))
}
