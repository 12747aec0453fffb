//! A connected socket comes into a shared chain, keeps its twin out, and leaves a TIME_WAIT that gives way to it; a
//! request hands over to its socket; and one whose patience ends comes once the lock was given back.

ghost use Rattle.std.specs.Prelude.{◌≡◌, ◌+◌, ◌≤◌, ◌<◌, [], true};
ghost use Rattle.chain_book.specs.Homes.{home};
ghost use Rattle.chain_book.specs.Tuples.{claims_tuple, same_cards};
ghost use Rattle.nulls_chain.specs.Changes.{IsPlaced};
ghost use Rattle.sock_card.specs.declared.card.Kind.TheVariants as kinds;
ghost use Rattle.table_rule.specs.Changes.{len_of, capacity_of};
ghost use Rattle.table_rule.specs.Calls.{HasShares, IsIdle, layout_of};
ghost use Rattle.table_rule.specs.Passes.{IsPassOf, known};
ghost use Rattle.table_rule.specs.Words.{bucket_count};

use bucket_locks::{lock, unlock};
use chain_book::{Replace, Shape, home};
use established::{InsertEnd, Newcomer, hand_over, insert, remove, time_wait};
use nulls_chain::Place;
use patience::{Tries, Waits};
use sock_card::{Card, Kind};
use std::alloc::Global;
use std::process::Abort;
use std::sync::Wait;
use std::test::Fail;
use table_rule::{Chains, Pass};

const SHAPE: Shape = Shape {
    slots: 3,
    bind: 1,
    hash: 1,
    listen: 1,
};

const FULL: Card = Card {
    local: 0x0a00_0001,
    lport: 80,
    remote: 0x0a00_0002,
    rport: 1000,
    dev: 0,
    net: 0,
    kind: Kind::Full,
    name: 1,
    extra: 0,
    mark: 0,
};

const WAITING: Card = Card {
    local: 0x0a00_0001,
    lport: 80,
    remote: 0x0a00_0002,
    rport: 1000,
    dev: 0,
    net: 0,
    kind: Kind::TimeWait,
    name: 1,
    extra: 5,
    mark: 0,
};

const REQUEST: Card = Card {
    local: 0x0a00_0001,
    lport: 80,
    remote: 0x0a00_0002,
    rport: 1000,
    dev: 0,
    net: 0,
    kind: Kind::Request,
    name: 2,
    extra: 0,
    mark: 0,
};

/// What became of a newcomer: 0 where its four-tuple is kept from it, 1 where it came, 2 where a TIME_WAIT gave way to
/// it, 3 where no slot was free.
fn come<R: Wait>(chains: &Chains, rt: &R, pass: &mut Pass, bucket: u32, new: &Newcomer) -> u32
    requires table { IsPassOf chains.now pass.old }
    requires bucket { bucket < bucket_count (layout_of chains.now) }
    requires home { home (layout_of chains.now).shape (layout_of chains.now).seed new.now.card ≡ bucket }
    requires claims { claims_tuple new.now.card.kind ≡ true }
    requires idle { IsIdle (known pass.old).slot × ((known pass.old).book.opened ≡ []) }
    requires free { (known pass.old).chain.locked ≡ [] }
    requires share { HasShares 4 (known pass.old) }
    requires room { len_of pass.old.changes + 2 ≤ capacity_of pass.old.changes }
{
    match insert(chains, &Waits::by(rt), pass, bucket, 0, new).unwrap() {
        Ok(inserted) if inserted.replaced.is_some() => 2,
        Ok(_) => 1,
        Err(InsertEnd::Taken(_)) => 0,
        Err(InsertEnd::Full(_)) => 3,
    }
}

/// The first comes and waits, and then the second comes: 4 where the first left no TIME_WAIT, 5 where it didn't come.
fn come_after<R: Wait>(
    chains: &Chains,
    rt: &R,
    pass: &mut Pass,
    bucket: u32,
    new: &Newcomer,
    waiting: &Card,
) -> u32
    requires table { IsPassOf chains.now pass.old }
    requires bucket { bucket < bucket_count (layout_of chains.now) }
    requires home { home (layout_of chains.now).shape (layout_of chains.now).seed new.now.card ≡ bucket }
    requires waits { (home (layout_of chains.now).shape (layout_of chains.now).seed waiting.now ≡ bucket)
        × (waiting.now.kind ≡ kinds.TimeWait) }
    requires claims { claims_tuple new.now.card.kind ≡ true }
    requires idle { IsIdle (known pass.old).slot × ((known pass.old).book.opened ≡ []) }
    requires free { (known pass.old).chain.locked ≡ [] }
    requires share { HasShares 12 (known pass.old) }
    requires room { len_of pass.old.changes + 6 ≤ capacity_of pass.old.changes }
{
    match insert(chains, &Waits::by(rt), pass, bucket, 0, new).unwrap() {
        Ok(inserted) => match time_wait(
            chains,
            &Waits::by(rt),
            pass,
            inserted.place,
            0,
            waiting,
        ).unwrap()
        {
            Ok(_) => come(chains, rt, pass, bucket, new),
            Err(_) => 4,
        },
        Err(_) => 5,
    }
}

/// The socket at that place goes, under its bucket's lock.
fn take_out<R: Wait>(chains: &Chains, rt: &R, pass: &mut Pass, place: Place)
    requires table { IsPassOf chains.now pass.old }
    requires bucket { place.bucket < bucket_count (layout_of chains.now) }
    requires place { IsPlaced place (known pass.old).book }
    requires idle { IsIdle (known pass.old).slot × ((known pass.old).book.opened ≡ []) }
    requires free { (known pass.old).chain.locked ≡ [] }
    requires room { len_of pass.old.changes < capacity_of pass.old.changes }
    requires share { HasShares 2 (known pass.old) }
{
    let locked = lock(chains, &Waits::by(rt), &mut pass.steps, place.bucket).unwrap();
    remove(chains, pass, locked, place);
}

/// A request comes, and then its socket in its stead, and then that socket's twin: 4 where no slot was free for the
/// socket, and the request went after all, 5 where the request didn't come.
fn shake_hands<R: Wait>(
    chains: &Chains,
    rt: &R,
    pass: &mut Pass,
    bucket: u32,
    request: &Newcomer,
    full: &Newcomer,
) -> u32
    requires table { IsPassOf chains.now pass.old }
    requires bucket { bucket < bucket_count (layout_of chains.now) }
    requires home { home (layout_of chains.now).shape (layout_of chains.now).seed request.now.card ≡ bucket }
    requires child { home (layout_of chains.now).shape (layout_of chains.now).seed full.now.card ≡ bucket }
    requires kinds { (request.now.card.kind ≡ kinds.Request) × (full.now.card.kind ≡ kinds.Full) }
    requires tuple { same_cards full.now.card request.now.card ≡ true }
    requires idle { IsIdle (known pass.old).slot × ((known pass.old).book.opened ≡ []) }
    requires free { (known pass.old).chain.locked ≡ [] }
    requires share { HasShares 12 (known pass.old) }
    requires room { len_of pass.old.changes + 6 ≤ capacity_of pass.old.changes }
{
    let Ok(inserted) = insert(chains, &Waits::by(rt), pass, bucket, 0, request).unwrap() else {
        return 5;
    };
    match hand_over(chains, &Waits::by(rt), pass, inserted.place, 0, &full.card).unwrap() {
        Ok(_) => come(chains, rt, pass, bucket, full),
        Err((place, _)) => {
            take_out(chains, rt, pass, place);
            4
        }
    }
}

/// It tries for a while to come, as the first pass has the lock, and again once that is given back: how many changes
/// it had made before, and whether it came then. None: the lock was taken twice.
fn come_late(
    chains: &Chains,
    first: &mut Pass,
    second: &mut Pass,
    bucket: u32,
    new: &Newcomer,
) -> Option<(usize, bool)>
    requires table { IsPassOf chains.now first.old × IsPassOf chains.now second.old }
    requires bucket { bucket < bucket_count (layout_of chains.now) }
    requires home { home (layout_of chains.now).shape (layout_of chains.now).seed new.now.card ≡ bucket }
    requires claims { claims_tuple new.now.card.kind ≡ true }
    requires first { IsIdle (known first.old).slot × ((known first.old).book.opened ≡ [])
        × ((known first.old).chain.locked ≡ []) }
    requires second { IsIdle (known second.old).slot × ((known second.old).book.opened ≡ [])
        × ((known second.old).chain.locked ≡ []) }
    requires share { HasShares 4 (known second.old) }
    requires room { len_of second.old.changes + 2 ≤ capacity_of second.old.changes }
{
    let locked = lock(chains, &Tries(0), &mut first.steps, bucket)?;
    let early = insert(chains, &Tries(3), second, bucket, 0, new);
    unlock(chains, &mut first.steps, locked);
    match early {
        Some(_) => None,
        None => {
            let changes = second.changes().len();
            let late = insert(chains, &Tries(0), second, bucket, 0, new)?;
            Some((changes, late.is_ok()))
        }
    }
}

#[test]
fn nothing_changes_where_patience_ends(rt: HostRuntime) -> Result<(), Fail> {
    let (chains, mut first) = Chains::new(rt.alloc(), SHAPE, 7)?;
    let mut second = chains.split(rt.alloc(), &mut first);
    second.reserve(2)?;
    let new = Newcomer {
        card: FULL,
        moment: 6,
        replace: Replace::Never,
    };
    let bucket = home(&SHAPE, 7, &FULL);
    let came = come_late(&chains, &mut first, &mut second, bucket, &new);
    assert_eq!(rt; came, Some((0, true)));
    assert_eq!(rt; second.changes().len(), 1);
    Ok(())
}

#[test]
fn a_time_wait_gives_way(rt: HostRuntime) -> Result<(), Fail> {
    let (chains, mut pass) = Chains::new(rt.alloc(), SHAPE, 7)?;
    pass.reserve(6)?;
    let new = Newcomer {
        card: FULL,
        moment: 6,
        replace: Replace::After,
    };
    let bucket = home(&SHAPE, 7, &FULL);
    assert!(rt; home(&SHAPE, 7, &WAITING) == bucket);
    assert_eq!(rt;
        come_after(&chains, &rt, &mut pass, bucket, &new, &WAITING),
        2
    );
    Ok(())
}

// How a request hands over in a table of so many slots, and how many changes that made.
fn shake_hands_in<R: Abort + Wait>(rt: &R, alloc: Global, slots: u32) -> Result<(u32, usize), Fail>
    requires { slots < 4 }
{
    let shape = Shape { slots, ..SHAPE };
    let (chains, mut pass) = Chains::new(alloc, shape, 7)?;
    pass.reserve(6)?;
    let request = Newcomer {
        card: REQUEST,
        moment: 6,
        replace: Replace::Always,
    };
    let full = Newcomer {
        card: FULL,
        ..request
    };
    let bucket = home(&shape, 7, &REQUEST);
    assert!(rt; home(&shape, 7, &FULL) == bucket);
    let end = shake_hands(&chains, rt, &mut pass, bucket, &request, &full);
    Ok((end, pass.changes().len()))
}

#[test]
fn a_request_hands_over(rt: HostRuntime) -> Result<(), Fail> {
    assert_eq!(rt; shake_hands_in(&rt, rt.alloc(), 3)?, (0, 3));
    Ok(())
}

#[test]
fn a_request_stands_where_no_slot_is_free(rt: HostRuntime) -> Result<(), Fail> {
    assert_eq!(rt; shake_hands_in(&rt, rt.alloc(), 1)?, (4, 2));
    Ok(())
}
