//! Listeners, connected sockets and requests come and go.

ghost use Rattle.std.specs.Prelude.{◌≡◌, ◌+◌, ◌<◌, ◌≤◌, ◌^◌, ℕ, [], length, IfOk};
ghost use Rattle.turn_table.specs.Passes as words;
ghost use Rattle.sock_ops.specs.Socks.{mine_of};
ghost use Rattle.sock_ops.specs.Stands.{HasGroups, IsAway, IsReady, MayDraw, MayEnter, StandsAs, buckets_of, chained, turned};

use bind_buckets::Sharing;
use chain_book::{Replace, Shape};
use flat_list::{End, First, NONE_RESERVED, Options, Range};
use patience::Waits;
use port_search::Ports;
use reuseport_group::{GroupPasses, name_of};
use sock_ops::binding::bind;
use sock_ops::connecting::connect;
use sock_ops::handshaking::ack;
use sock_ops::leaving::{Closed, Waiting, close, drop_sock};
use sock_ops::listening::listen;
use sock_ops::reaping::reap_one;
use sock_ops::requesting::syn;
use sock_ops::sock::{Newcomer, Sock, Unbound};
use sock_ops::tables::{Changes, Tables, Worker};
use std::alloc::{AllocError, Global};
use std::sync::Wait;
use std::test::Fail;
use table_model::OpEnd;

const PLAIN: Options = Options {
    net: None,
    uid: None,
    dev: None,
    reuseaddr: false,
    reuseport: false,
    noport: false,
};

const REUSING: Options = Options {
    reuseaddr: true,
    ..PLAIN
};

const WEB: End = End {
    addr: 0x0A00_0002,
    port: 80,
};

const CLIENT: End = End {
    addr: 0x0A00_0003,
    port: 1000,
};

const FIRST: Newcomer = Newcomer { name: 1, mark: 0 };

const SECOND: Newcomer = Newcomer { name: 2, mark: 0 };

const THIRD: Newcomer = Newcomer { name: 3, mark: 0 };

/// Empty tables with so many slots, and a worker that is alone at them.
fn empty(alloc: Global, slots: u32) -> Result<(Tables, Worker), AllocError>
    requires { slots < 16 }
    ensures ready { IfOk result (λ t. IsReady t.0 t.1) }
    ensures first { IfOk result (λ t. words.caller t.1.turns ≡ 0) }
    ensures away { IfOk result (λ t. (name : ℕ) → IsAway name (turned t.1)) }
    ensures untold { IfOk result (λ t. (turned t.1).mine ≡ []) }
    ensures enters { IfOk result (λ t. MayEnter 100 t.1) }
    ensures draws { IfOk result (λ t. MayDraw 100 t.1) }
{
    let shape = Shape {
        slots,
        bind: 2,
        hash: 2,
        listen: 1,
    };
    let (tables, worker) = Tables::new(alloc, shape, 7, Sharing::Alone, Changes::Kept)?;
    Ok((tables, worker))
}

/// The ports from 40000 to 40003.
fn ports() -> Ports
    ensures { length result ≡ 4 }
{
    let range = Range {
        low: 40000,
        high: 40003,
        reserved: NONE_RESERVED,
    };
    Ports::new(range, 0, First::Even)
}

/// What became of a socket.
#[derive(Clone, Copy, Debug, PartialEq, Eq)]
enum Went {
    /// It listened at that port, and is gone.
    From(u16),
    /// It waits.
    Waits,
    /// It waited for its minute, and was reaped, once.
    Reaped,
    /// It is gone without a wait: so many slots were owned, and so many only held.
    NoSlot(u32, u32),
    /// The socket of that name kept its four-tuple from it.
    Taken(u64),
    /// A request came in its place.
    Replaced,
    /// It never came, or never went.
    Never,
}

fn listen_and_close<R: Wait>(rt: &R, tables: &Tables, worker: &mut Worker, socket: Sock) -> Went
    requires ready { IsReady tables.now worker.old }
    requires first { words.caller worker.old.turns ≡ 0 }
    requires enters { MayEnter 100 worker.old }
    requires draws { MayDraw 100 worker.old }
    requires stands { StandsAs tables.now socket (turned worker.old) (chained tables.now worker.old) }
{
    let waits = Waits::by(rt);
    match listen(&waits, tables, worker, socket, ports()) {
        Ok((listener, port)) => match close(&waits, tables, worker, listener, 5) {
            Ok(Closed::Plain) => Went::From(port),
            _ => Went::Never,
        },
        Err(_) => Went::Never,
    }
}

fn listen_and_drop<R: Wait>(rt: &R, tables: &Tables, worker: &mut Worker, socket: Sock) -> Went
    requires ready { IsReady tables.now worker.old }
    requires first { words.caller worker.old.turns ≡ 0 }
    requires enters { MayEnter 100 worker.old }
    requires draws { MayDraw 100 worker.old }
    requires stands { StandsAs tables.now socket (turned worker.old) (chained tables.now worker.old) }
{
    let waits = Waits::by(rt);
    match listen(&waits, tables, worker, socket, ports()) {
        Ok((listener, port)) => match drop_sock(&waits, tables, worker, listener) {
            Ok(()) => Went::From(port),
            Err(_) => Went::Never,
        },
        Err(_) => Went::Never,
    }
}

/// The name that the first group's hash chooses.
fn chosen(tables: &Tables, passes: &mut GroupPasses) -> Option<u32>
    requires groups { HasGroups tables.now passes.old }
    requires some { 1 ≤ buckets_of tables.now }
    ensures { HasGroups tables.now passes.new }
{
    let choice = tables.groups.choose(passes, 0, 77)?;
    Some(name_of(choice.member))
}

/// Who is chosen while the socket listens, and who after it is gone.
fn choose_around<R: Wait>(
    rt: &R,
    tables: &Tables,
    worker: &mut Worker,
    socket: Sock,
) -> (Option<u32>, Option<u32>)
    requires ready { IsReady tables.now worker.old }
    requires first { words.caller worker.old.turns ≡ 0 }
    requires enters { MayEnter 100 worker.old }
    requires draws { MayDraw 100 worker.old }
    requires stands { StandsAs tables.now socket (turned worker.old) (chained tables.now worker.old) }
{
    let waits = Waits::by(rt);
    match listen(&waits, tables, worker, socket, ports()) {
        Ok((listener, _)) => {
            let before = chosen(tables, &mut worker.groups);
            match drop_sock(&waits, tables, worker, listener) {
                Ok(()) => (before, chosen(tables, &mut worker.groups)),
                Err(_) => (None, None),
            }
        }
        Err(_) => (None, None),
    }
}

fn connect_and_close<R: Wait>(rt: &R, tables: &Tables, worker: &mut Worker, socket: Sock) -> Went
    requires ready { IsReady tables.now worker.old }
    requires first { words.caller worker.old.turns ≡ 0 }
    requires enters { MayEnter 100 worker.old }
    requires draws { MayDraw 100 worker.old }
    requires stands { StandsAs tables.now socket (turned worker.old) (chained tables.now worker.old) }
{
    let waits = Waits::by(rt);
    match connect(
        &waits,
        tables,
        worker,
        socket,
        Some(0x0A00_0001),
        WEB,
        3,
        Replace::Never,
        ports(),
    ) {
        Ok((full, _)) => match close(&waits, tables, worker, full, 5) {
            Ok(Closed::TimeWait(_)) => Went::Waits,
            Ok(Closed::NoSlot { owned, held }) => Went::NoSlot(owned, held),
            _ => Went::Never,
        },
        Err(_) => Went::Never,
    }
}

fn reap_twice<R: Wait>(rt: &R, tables: &Tables, worker: &mut Worker, waiting: &Waiting) -> Went
    requires ready { IsReady tables.now worker.old }
    requires enters { MayEnter 2 worker.old }
    requires draws { MayDraw 4 worker.old }
{
    let waits = Waits::by(rt);
    let was_over = waiting.is_over(64);
    let first = reap_one(&waits, tables, worker, waiting);
    let second = reap_one(&waits, tables, worker, waiting);
    match (was_over, waiting.is_over(65), first, second) {
        (false, true, Ok(true), Ok(false)) => Went::Reaped,
        _ => Went::Never,
    }
}

fn connect_and_reap<R: Wait>(rt: &R, tables: &Tables, worker: &mut Worker, socket: Sock) -> Went
    requires ready { IsReady tables.now worker.old }
    requires first { words.caller worker.old.turns ≡ 0 }
    requires enters { MayEnter 100 worker.old }
    requires draws { MayDraw 100 worker.old }
    requires stands { StandsAs tables.now socket (turned worker.old) (chained tables.now worker.old) }
{
    let waits = Waits::by(rt);
    match connect(
        &waits,
        tables,
        worker,
        socket,
        Some(0x0A00_0001),
        WEB,
        3,
        Replace::Never,
        ports(),
    ) {
        Ok((full, _)) => match close(&waits, tables, worker, full, 5) {
            Ok(Closed::TimeWait(waiting)) => reap_twice(rt, tables, worker, &waiting),
            _ => Went::Never,
        },
        Err(_) => Went::Never,
    }
}

/// A listener shakes hands with a client, and the child is closed; or no slot is free for it, and the request goes.
fn shake_hands<R: Wait>(rt: &R, tables: &Tables, worker: &mut Worker, socket: Sock) -> Went
    requires ready { IsReady tables.now worker.old }
    requires first { words.caller worker.old.turns ≡ 0 }
    requires untold { (turned worker.old).mine ≡ [] }
    requires enters { MayEnter 100 worker.old }
    requires draws { MayDraw 100 worker.old }
    requires name { (mine_of socket).owner.name ≡ 1 }
    requires stands { StandsAs tables.now socket (turned worker.old) (chained tables.now worker.old) }
{
    let waits = Waits::by(rt);
    let Ok((listener, port)) = listen(&waits, tables, worker, socket, ports()) else {
        return Went::Never;
    };
    let at = End {
        addr: WEB.addr,
        port,
    };
    let Ok(request) = syn(&waits, tables, worker, &listener, SECOND, CLIENT, at) else {
        return Went::Never;
    };
    match ack(&waits, tables, worker, request, Some(&listener), THIRD) {
        Ok(child) => match close(&waits, tables, worker, child, 5) {
            Ok(Closed::TimeWait(_)) => Went::Waits,
            _ => Went::Never,
        },
        Err((request, end)) => match (drop_sock(&waits, tables, worker, request), end) {
            (Ok(()), OpEnd::Full { owned, held }) => Went::NoSlot(owned, held),
            _ => Went::Never,
        },
    }
}

/// A listener goes whose request stands, and a socket at its port would connect to the client.
fn outlive_listener<R: Wait>(rt: &R, tables: &Tables, worker: &mut Worker, socket: Sock) -> Went
    requires ready { IsReady tables.now worker.old }
    requires first { words.caller worker.old.turns ≡ 0 }
    requires untold { (turned worker.old).mine ≡ [] }
    requires enters { MayEnter 100 worker.old }
    requires draws { MayDraw 100 worker.old }
    requires name { (mine_of socket).owner.name ≡ 1 }
    requires stands { StandsAs tables.now socket (turned worker.old) (chained tables.now worker.old) }
{
    let waits = Waits::by(rt);
    let Ok((listener, port)) = listen(&waits, tables, worker, socket, ports()) else {
        return Went::Never;
    };
    let at = End {
        addr: WEB.addr,
        port,
    };
    let Ok(_request) = syn(&waits, tables, worker, &listener, SECOND, CLIENT, at) else {
        return Went::Never;
    };
    if listener.owner().name != 1 {
        return Went::Never;
    }
    let Ok(()) = drop_sock(&waits, tables, worker, listener) else {
        return Went::Never;
    };
    let other = Sock::Unbound(Unbound::new(THIRD, PLAIN));
    let Ok((bound, _)) = bind(&waits, tables, worker, other, at, ports()) else {
        return Went::Never;
    };
    if bound.owner().name != 3 {
        return Went::Never;
    }
    match connect(
        &waits,
        tables,
        worker,
        bound,
        None,
        CLIENT,
        3,
        Replace::Always,
        ports(),
    ) {
        Err((_, OpEnd::Taken(name))) => Went::Taken(name),
        _ => Went::Never,
    }
}

/// A socket waits, and then a listener at its port has a request from the end to which it was connected.
fn call_again<R: Wait>(rt: &R, tables: &Tables, worker: &mut Worker, socket: Sock) -> Went
    requires ready { IsReady tables.now worker.old }
    requires first { words.caller worker.old.turns ≡ 0 }
    requires untold { (turned worker.old).mine ≡ [] }
    requires enters { MayEnter 100 worker.old }
    requires draws { MayDraw 100 worker.old }
    requires name { (mine_of socket).owner.name ≡ 1 }
    requires stands { StandsAs tables.now socket (turned worker.old) (chained tables.now worker.old) }
{
    let waits = Waits::by(rt);
    let connected = connect(
        &waits,
        tables,
        worker,
        socket,
        Some(WEB.addr),
        CLIENT,
        3,
        Replace::Never,
        ports(),
    );
    let Ok((full, at)) = connected else {
        return Went::Never;
    };
    if full.owner().name != 1 {
        return Went::Never;
    }
    let Ok(Closed::TimeWait(waiting)) = close(&waits, tables, worker, full, 5) else {
        return Went::Never;
    };
    let other = Sock::Unbound(Unbound::new(SECOND, REUSING));
    let Ok((bound, _)) = bind(&waits, tables, worker, other, at, ports()) else {
        return Went::Never;
    };
    if bound.owner().name != 2 {
        return Went::Never;
    }
    let Ok((listener, _)) = listen(&waits, tables, worker, bound, ports()) else {
        return Went::Never;
    };
    let request = syn(&waits, tables, worker, &listener, THIRD, CLIENT, at);
    match (request, reap_one(&waits, tables, worker, &waiting)) {
        (Ok(_), Ok(false)) => Went::Replaced,
        _ => Went::Never,
    }
}

#[test]
fn a_listener_comes_and_goes(rt: HostRuntime) -> Result<(), Fail> {
    let (tables, mut worker) = empty(rt.alloc(), 4)?;
    let socket = Sock::Unbound(Unbound::new(FIRST, PLAIN));
    let went = listen_and_close(&rt, &tables, &mut worker, socket);
    assert_eq!(rt; went, Went::From(40000));
    Ok(())
}

#[test]
fn a_listener_is_dropped(rt: HostRuntime) -> Result<(), Fail> {
    let (tables, mut worker) = empty(rt.alloc(), 4)?;
    let socket = Sock::Unbound(Unbound::new(FIRST, PLAIN));
    let went = listen_and_drop(&rt, &tables, &mut worker, socket);
    assert_eq!(rt; went, Went::From(40000));
    Ok(())
}

#[test]
fn a_member_is_chosen_until_it_goes(rt: HostRuntime) -> Result<(), Fail> {
    let (tables, mut worker) = empty(rt.alloc(), 4)?;
    let options = Options {
        reuseport: true,
        ..PLAIN
    };
    let socket = Sock::Unbound(Unbound::new(FIRST, options));
    let (before, after) = choose_around(&rt, &tables, &mut worker, socket);
    assert_eq!(rt; before, Some(1));
    assert_eq!(rt; after, None);
    Ok(())
}

#[test]
fn a_connection_waits_in_the_end(rt: HostRuntime) -> Result<(), Fail> {
    let (tables, mut worker) = empty(rt.alloc(), 4)?;
    let socket = Sock::Unbound(Unbound::new(FIRST, PLAIN));
    let went = connect_and_close(&rt, &tables, &mut worker, socket);
    assert_eq!(rt; went, Went::Waits);
    Ok(())
}

#[test]
fn a_connection_goes_where_no_slot_is_free(rt: HostRuntime) -> Result<(), Fail> {
    let (tables, mut worker) = empty(rt.alloc(), 1)?;
    let socket = Sock::Unbound(Unbound::new(FIRST, PLAIN));
    let went = connect_and_close(&rt, &tables, &mut worker, socket);
    assert_eq!(rt; went, Went::NoSlot(1, 0));
    Ok(())
}

#[test]
fn a_wait_is_reaped_once(rt: HostRuntime) -> Result<(), Fail> {
    let (tables, mut worker) = empty(rt.alloc(), 4)?;
    let socket = Sock::Unbound(Unbound::new(FIRST, PLAIN));
    let went = connect_and_reap(&rt, &tables, &mut worker, socket);
    assert_eq!(rt; went, Went::Reaped);
    Ok(())
}

#[test]
fn a_child_comes_in_its_requests_place(rt: HostRuntime) -> Result<(), Fail> {
    let (tables, mut worker) = empty(rt.alloc(), 4)?;
    let socket = Sock::Unbound(Unbound::new(FIRST, PLAIN));
    let went = shake_hands(&rt, &tables, &mut worker, socket);
    assert_eq!(rt; went, Went::Waits);
    Ok(())
}

#[test]
fn a_request_stands_where_no_slot_is_free_for_its_child(rt: HostRuntime) -> Result<(), Fail> {
    let (tables, mut worker) = empty(rt.alloc(), 2)?;
    let socket = Sock::Unbound(Unbound::new(FIRST, PLAIN));
    let went = shake_hands(&rt, &tables, &mut worker, socket);
    assert_eq!(rt; went, Went::NoSlot(2, 0));
    Ok(())
}

#[test]
fn a_request_keeps_its_four_tuple(rt: HostRuntime) -> Result<(), Fail> {
    let (tables, mut worker) = empty(rt.alloc(), 4)?;
    let socket = Sock::Unbound(Unbound::new(FIRST, PLAIN));
    let went = outlive_listener(&rt, &tables, &mut worker, socket);
    assert_eq!(rt; went, Went::Taken(2));
    Ok(())
}

#[test]
fn a_time_wait_gives_way_to_a_request(rt: HostRuntime) -> Result<(), Fail> {
    let (tables, mut worker) = empty(rt.alloc(), 4)?;
    let socket = Sock::Unbound(Unbound::new(FIRST, REUSING));
    let went = call_again(&rt, &tables, &mut worker, socket);
    assert_eq!(rt; went, Went::Replaced);
    Ok(())
}
