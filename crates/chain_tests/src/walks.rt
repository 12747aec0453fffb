//! A socket's card in a chain, and out of it again.

ghost use Rattle.std.specs.Prelude.{◌≡◌, ◌+◌, ◌<◌, ◌≤◌, [], true};
ghost use Rattle.chain_book.specs.Homes.{home};
ghost use Rattle.sock_card.specs.declared.card.Kind.TheVariants as kinds;
ghost use Rattle.table_rule.specs.Changes.{len_of, capacity_of};
ghost use Rattle.table_rule.specs.Calls.{HasShares, IsIdle, layout_of};
ghost use Rattle.table_rule.specs.Passes.{IsPassOf, known};
ghost use Rattle.bucket_locks.specs.Locks.{IsAt, WalkKnown};
ghost use Rattle.table_rule.specs.Words.{bucket_count};

use bucket_locks::{Locked, lock, unlock};
use chain_book::{Shape, home};
use nulls_chain::{hash, unhash, walk};
use patience::Waits;
use sock_card::{Card, Kind};
use std::process::Abort;
use std::sync::Wait;
use std::test::Fail;
use table_rule::{Chains, Pass};

const SHAPE: Shape = Shape {
    slots: 2,
    bind: 1,
    hash: 1,
    listen: 1,
};

const CARD: Card = Card {
    local: 0x0a00_0001,
    lport: 80,
    remote: 0,
    rport: 0,
    dev: 0,
    net: 0,
    kind: Kind::Listen,
    name: 1,
    extra: 0,
    mark: 0,
};

// Hashes the card into the chain, which is empty, and unhashes it: the slot that it had.
fn come_and_go(chains: &Chains, pass: &mut Pass, locked: &mut Locked, card: &Card) -> Option<u32>
    requires table { IsPassOf chains.now pass.old }
    requires at { IsAt (layout_of chains.now) locked.old (known pass.old) × (locked.old.started ≡ true) }
    requires empty { ((known pass.old).chain.walked ≡ []) × ((known pass.old).chain.met ≡ 1)
        × ((known pass.old).chain.ahead ≡ []) }
    requires walked { WalkKnown (layout_of chains.now) (known pass.old) }
    requires idle { IsIdle (known pass.old).slot × ((known pass.old).book.opened ≡ []) }
    requires home { home (layout_of chains.now).shape (layout_of chains.now).seed card.now ≡ locked.old.bucket }
    requires share { HasShares 4 (known pass.old) }
    requires listens { card.now.kind ≡ kinds.Listen }
    requires room { len_of pass.old.changes + 2 ≤ capacity_of pass.old.changes }
    ensures table { IsPassOf chains.now pass.new }
    ensures idle { IsIdle (known pass.new).slot × ((known pass.new).book.opened ≡ []) }
    ensures at { IsAt (layout_of chains.now) locked.new (known pass.new) }
    ensures twice { (known pass.new).twice ≡ (known pass.old).twice }
{
    match hash(chains, pass, locked, 0, card) {
        Ok(place) => {
            let slot = place.slot;
            unhash(chains, pass, locked, place);
            Some(slot)
        }
        Err(_) => None,
    }
}

// The same under the lock of a bucket of a new table.
fn come_and_go_in<R: Wait>(
    chains: &Chains,
    rt: &R,
    pass: &mut Pass,
    bucket: u32,
    card: &Card,
) -> Option<u32>
    requires table { IsPassOf chains.now pass.old }
    requires bucket { bucket < bucket_count (layout_of chains.now) }
    requires home { home (layout_of chains.now).shape (layout_of chains.now).seed card.now ≡ bucket }
    requires idle { IsIdle (known pass.old).slot × ((known pass.old).book.opened ≡ []) }
    requires free { (known pass.old).chain.locked ≡ [] }
    requires share { HasShares 4 (known pass.old) }
    requires listens { card.now.kind ≡ kinds.Listen }
    requires room { len_of pass.old.changes + 2 ≤ capacity_of pass.old.changes }
{
    let mut locked = lock(chains, &Waits::by(rt), &mut pass.steps, bucket).unwrap();
    let slot = match walk(chains, &mut pass.steps, &mut locked) {
        Some(_) => None,
        None => come_and_go(chains, pass, &mut locked, card),
    };
    unlock(chains, &mut pass.steps, locked);
    slot
}

#[test]
fn a_card_comes_and_goes(rt: HostRuntime) -> Result<(), Fail> {
    let (chains, mut pass) = Chains::new(rt.alloc(), SHAPE, 7)?;
    pass.reserve(2)?;
    let bucket = home(&SHAPE, 7, &CARD);
    let slot = come_and_go_in(&chains, &rt, &mut pass, bucket, &CARD);
    assert_eq!(rt; (slot, pass.changes().len()), (Some(0), 2));
    Ok(())
}
