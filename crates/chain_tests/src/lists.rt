//! What is listed of an empty table, and of one with a listener.

ghost use Rattle.std.specs.Prelude.{◌≡◌, ◌<◌, [], true};
ghost use Rattle.bucket_locks.specs.Locks.{IsAt};
ghost use Rattle.chain_book.specs.Homes.{home};
ghost use Rattle.sock_card.specs.declared.card.Kind.TheVariants as kinds;
ghost use Rattle.table_rule.specs.Changes.{len_of, capacity_of};
ghost use Rattle.table_rule.specs.Calls.{HasShares, IsIdle, layout_of};
ghost use Rattle.table_rule.specs.Passes.{IsPassOf, known};
ghost use Rattle.table_rule.specs.Words.{bucket_count};

use bucket_locks::{Locked, lock, unlock};
use chain_book::{Shape, home};
use nulls_chain::{hash, walk};
use patience::Waits;
use race_run::chain_dump::dump_sockets;
use sock_card::{Card, Kind};
use std::process::Abort;
use std::sync::Wait;
use std::test::Fail;
use table_rule::{Chains, Pass};

const SHAPE: Shape = Shape {
    slots: 2,
    bind: 1,
    hash: 2,
    listen: 2,
};

const CARD: Card = Card {
    local: 0x0a00_0001,
    lport: 80,
    remote: 0,
    rport: 0,
    dev: 0,
    net: 0,
    kind: Kind::Listen,
    name: 1,
    extra: 0,
    mark: 0,
};

// Hashes the card into the chain, which is empty: whether a slot was free.
fn come_alone(chains: &Chains, pass: &mut Pass, locked: &Locked, card: &Card) -> bool
    requires table { IsPassOf chains.now pass.old }
    requires at { IsAt (layout_of chains.now) locked.now (known pass.old) × (locked.now.started ≡ true) }
    requires empty { ((known pass.old).chain.walked ≡ []) × ((known pass.old).chain.met ≡ 1)
        × ((known pass.old).chain.ahead ≡ []) }
    requires idle { IsIdle (known pass.old).slot × ((known pass.old).book.opened ≡ []) }
    requires home { home (layout_of chains.now).shape (layout_of chains.now).seed card.now ≡ locked.now.bucket }
    requires share { HasShares 2 (known pass.old) }
    requires listens { card.now.kind ≡ kinds.Listen }
    requires room { len_of pass.old.changes < capacity_of pass.old.changes }
    ensures table { IsPassOf chains.now pass.new }
    ensures idle { IsIdle (known pass.new).slot × ((known pass.new).book.opened ≡ []) }
    ensures at { IsAt (layout_of chains.now) locked.now (known pass.new) }
    ensures twice { (known pass.new).twice ≡ (known pass.old).twice }
{
    match hash(chains, pass, locked, 0, card) {
        Ok(_) => true,
        Err(_) => false,
    }
}

// The same under the lock of its bucket: false where the chain isn't empty, too.
fn come<R: Wait>(chains: &Chains, rt: &R, pass: &mut Pass, bucket: u32, card: &Card) -> bool
    requires table { IsPassOf chains.now pass.old }
    requires bucket { bucket < bucket_count (layout_of chains.now) }
    requires home { home (layout_of chains.now).shape (layout_of chains.now).seed card.now ≡ bucket }
    requires idle { IsIdle (known pass.old).slot × ((known pass.old).book.opened ≡ []) }
    requires free { (known pass.old).chain.locked ≡ [] }
    requires share { HasShares 2 (known pass.old) }
    requires listens { card.now.kind ≡ kinds.Listen }
    requires room { len_of pass.old.changes < capacity_of pass.old.changes }
    ensures table { IsPassOf chains.now pass.new }
    ensures idle { IsIdle (known pass.new).slot × ((known pass.new).book.opened ≡ []) }
    ensures free { (known pass.new).chain.locked ≡ [] }
{
    let mut locked = lock(chains, &Waits::by(rt), &mut pass.steps, bucket).unwrap();
    let came = match walk(chains, &mut pass.steps, &mut locked) {
        Some(_) => false,
        None => come_alone(chains, pass, &locked, card),
    };
    unlock(chains, &mut pass.steps, locked);
    came
}

#[test]
fn an_empty_table_has_no_items(rt: HostRuntime) -> Result<(), Fail> {
    let (chains, mut pass) = Chains::new(rt.alloc(), SHAPE, 7)?;
    let dump = dump_sockets(&chains, &SHAPE, &rt, rt.alloc(), &mut pass)?;
    assert_eq!(rt; (dump.items.len(), dump.t0, dump.t1), (0, 0, 0));
    Ok(())
}

#[test]
fn a_listener_is_listed(rt: HostRuntime) -> Result<(), Fail> {
    let (chains, mut pass) = Chains::new(rt.alloc(), SHAPE, 7)?;
    pass.reserve(1)?;
    let bucket = home(&SHAPE, 7, &CARD);
    let came = come(&chains, &rt, &mut pass, bucket, &CARD);
    let dump = dump_sockets(&chains, &SHAPE, &rt, rt.alloc(), &mut pass)?;
    assert_eq!(rt; (came, dump.items.len(), dump.t0, dump.t1), (true, 1, 2, 2));
    Ok(())
}
