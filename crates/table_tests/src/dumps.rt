//! What a worker lists of empty tables, and beside a listener.

ghost use Rattle.std.specs.Prelude.{◌≡◌, ◌+◌, ◌<◌, ◌≤◌, ◌^◌, ℕ, length, IfOk};
ghost use Rattle.sock_ops.specs.Stands.{IsAway, IsReady, MayDraw, MayEnter, StandsAs, chained, turned};
ghost use Rattle.turn_table.specs.Passes as words;

use bind_buckets::Sharing;
use chain_book::Shape;
use flat_list::{First, NONE_RESERVED, Options, Range};
use patience::Waits;
use port_search::Ports;
use race_run::dump;
use sock_ops::{Changes, Newcomer, Sock, Tables, Unbound, Worker, listen};
use socket_list::{Listing, Span};
use std::alloc::{AllocError, Global};
use std::sync::Wait;
use std::test::Fail;

const PLAIN: Options = Options {
    net: None,
    uid: None,
    dev: None,
    reuseaddr: false,
    reuseport: false,
    noport: false,
};

const SHAPE: Shape = Shape {
    slots: 4,
    bind: 2,
    hash: 2,
    listen: 1,
};

/// Empty tables, and a worker that is alone at them.
fn empty(alloc: Global) -> Result<(Tables, Worker), AllocError>
    ensures ready { IfOk result (λ t. IsReady t.0 t.1) }
    ensures first { IfOk result (λ t. words.caller t.1.turns ≡ 0) }
    ensures away { IfOk result (λ t. (name : ℕ) → IsAway name (turned t.1)) }
    ensures enters { IfOk result (λ t. MayEnter 100 t.1) }
    ensures draws { IfOk result (λ t. MayDraw 100 t.1) }
{
    let (tables, worker) = Tables::new(alloc, SHAPE, 7, Sharing::Alone, Changes::Kept)?;
    Ok((tables, worker))
}

/// The ports from 40000 to 40003.
fn ports() -> Ports
    ensures { length result ≡ 4 }
{
    let range = Range {
        low: 40000,
        high: 40003,
        reserved: NONE_RESERVED,
    };
    Ports::new(range, 0, First::Even)
}

/// Lets the socket listen, and lists what is there then.
fn listen_and_dump<R: Wait>(
    rt: &R,
    alloc: Global,
    tables: &Tables,
    worker: &mut Worker,
    socket: Sock,
) -> Result<Option<Listing>, AllocError>
    requires ready { IsReady tables.now worker.old }
    requires first { words.caller worker.old.turns ≡ 0 }
    requires enters { MayEnter 100 worker.old }
    requires draws { MayDraw 100 worker.old }
    requires stands { StandsAs tables.now socket (turned worker.old) (chained tables.now worker.old) }
{
    match listen(&Waits::by(rt), tables, worker, socket, ports()) {
        Ok(_) => Ok(Some(dump(rt, alloc, tables, worker)?)),
        Err(_) => Ok(None),
    }
}

#[test]
fn empty_tables_have_no_sockets(rt: HostRuntime) -> Result<(), Fail> {
    let alloc = rt.alloc();
    let (tables, mut worker) = empty(alloc)?;
    let listing = dump(&rt, alloc, &tables, &mut worker)?;
    assert_eq!(rt; listing.cards.len(), 0);
    assert_eq!(rt; listing.span, Some(Span { t0: 0, t1: 0 }));
    Ok(())
}

#[test]
fn a_listener_is_listed(rt: HostRuntime) -> Result<(), Fail> {
    let alloc = rt.alloc();
    let (tables, mut worker) = empty(alloc)?;
    let socket = Sock::Unbound(Unbound::new(Newcomer { name: 1, mark: 0 }, PLAIN));
    let listing = listen_and_dump(&rt, alloc, &tables, &mut worker, socket)?;
    let told = listing.map(|l| (l.cards.len(), l.span));
    assert_eq!(rt; told, Some((1, Some(Span { t0: 2, t1: 2 }))));
    Ok(())
}
