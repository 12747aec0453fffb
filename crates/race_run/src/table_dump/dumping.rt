//! The dump of a worker.

ghost use Rattle.std.specs.Prelude.{◌≡◌, IfOk};
ghost use Rattle.race_run.specs.Dumps.{cards_from};
ghost use Rattle.sock_ops.specs.Spends.{Draws};
ghost use Rattle.sock_ops.specs.Stands.{IsReady, chained};
ghost use Rattle.socket_list.specs.Order.{ascending};
ghost use Rattle.race_run.specs.Listings.{IsListing, KeepsAll};
ghost use Rattle.table_rule.specs.Sole.{IsSole};

use crate::chain_dump::dump_sockets;
use sock_ops::{Tables, Worker};
use socket_list::{Listing, Span, in_order};
use std::alloc::{AllocError, Global};
use std::sync::Wait;

/// Lists all hashed sockets of the tables, ascending by name and then by kind, between two loads of the clock.
///
/// Each is listed once. A socket that was there throughout is listed, and none that wasn't there at some time of the
/// call. It takes memory for the cards, and for as many more as there are slots, but none under a lock,
/// of which it holds one at a time.
///
/// As `inet_diag_dump_icsk` of net/ipv4/inet_diag.c, which makes no promise of this kind and has no order.
///
/// # Errors
///
/// Memory ran out. Nothing has changed but what the worker has seen.
pub fn dump<R: Wait>(
    rt: &R,
    alloc: Global,
    tables: &Tables,
    worker: &mut Worker,
) -> Result<Listing, AllocError>
    requires ready { IsReady tables.now worker.old }
    ensures ready { IsReady tables.now worker.new }
    ensures keeps { KeepsAll tables.now worker.old worker.new }
    ensures draws { Draws 0 worker.old worker.new }
    ensures lists { IfOk result (λ listing. IsListing tables.now listing worker.old worker.new) }
    ensures alone { IfOk result (λ listing. IsSole (chained tables.now worker.old).view
        → listing.cards ≡ ascending (cards_from tables.now.chains.layout
        (chained tables.now worker.old).view.book.closed)) }
{
    let table = &tables.chains;
    let dump = dump_sockets(
        &table.chains,
        &table.layout.shape,
        rt,
        alloc,
        &mut worker.chain.pass,
    )?;
    let span = Span {
        t0: dump.t0,
        t1: dump.t1,
    };
    let cards = in_order(dump.items)?;
    Ok(Listing {
        cards,
        span: Some(span),
    })
}
