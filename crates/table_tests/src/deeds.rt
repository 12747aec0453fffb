//! Sockets come into a shared table and leave it, by one pass and by two.

ghost use Rattle.std.specs.Prelude.{◌≡◌};
ghost use Rattle.sock_ops.specs.Sides.{HasRoom, HoldsNothing, IsResting};
ghost use Rattle.chain_book.specs.Homes.{home};
ghost use Rattle.table_rule.specs.Calls.{HasShares};
ghost use Rattle.table_rule.specs.Passes.{known};

use chain_book::{Replace, Shape};
use established::InsertEnd;
use patience::Waits;
use sock_card::{Card, Kind};
use sock_ops::chains::{
    ChainPass, ChainTable, add, hand_over, insert, lock_chain_of, remove, time_wait,
};
use std::alloc::AllocError;
use std::sync::Wait;
use std::test::Fail;

const SHAPE: Shape = Shape {
    slots: 3,
    bind: 1,
    hash: 1,
    listen: 1,
};

const FULL: Card = Card {
    local: 0x0a00_0001,
    lport: 80,
    remote: 0x0a00_0002,
    rport: 1000,
    dev: 0,
    net: 0,
    kind: Kind::Full,
    name: 1,
    extra: 0,
    mark: 0,
};

const WAITING: Card = Card {
    local: 0x0a00_0001,
    lport: 80,
    remote: 0x0a00_0002,
    rport: 1000,
    dev: 0,
    net: 0,
    kind: Kind::TimeWait,
    name: 1,
    extra: 5,
    mark: 0,
};

const REQUEST: Card = Card {
    local: 0x0a00_0001,
    lport: 80,
    remote: 0x0a00_0002,
    rport: 1000,
    dev: 0,
    net: 0,
    kind: Kind::Request,
    name: 3,
    extra: 0,
    mark: 0,
};

const LISTENER: Card = Card {
    local: 0,
    lport: 80,
    remote: 0,
    rport: 0,
    dev: 0,
    net: 0,
    kind: Kind::Listen,
    name: 2,
    extra: 0,
    mark: 0,
};

/// What became of a newcomer.
#[derive(Clone, Copy, Debug, PartialEq, Eq)]
enum Came {
    /// It stands in that slot.
    At(u32),
    /// It stands in that slot, and the TIME_WAIT of that name is gone.
    For(u32, u64),
    /// The socket of that name has its four-tuple.
    Taken(u64),
    /// So many slots are used.
    Full(u32),
    /// The one that was to come before it didn't.
    Never,
}

fn come<R: Wait>(table: &ChainTable, rt: &R, pass: &mut ChainPass, rule: Replace) -> Came
    requires rests { IsResting table.now pass.old }
    requires room { HasRoom 2 pass.old }
    requires share { HasShares 4 (known pass.old.pass) }
    ensures rests { IsResting table.now pass.new }
    ensures nothing { HoldsNothing (known pass.old.pass) → HoldsNothing (known pass.new.pass) }
{
    match insert(table, &Waits::by(rt), pass, &FULL, 6, rule).unwrap() {
        Ok(inserted) => match inserted.replaced {
            Some(name) => Came::For(inserted.place.slot, name),
            None => Came::At(inserted.place.slot),
        },
        Err(InsertEnd::Taken(name)) => Came::Taken(name),
        Err(InsertEnd::Full(full)) => Came::Full(full.owned),
    }
}

/// It comes and waits, and then comes again.
fn come_again<R: Wait>(table: &ChainTable, rt: &R, pass: &mut ChainPass, rule: Replace) -> Came
    requires rests { IsResting table.now pass.old }
    requires chain { home table.now.layout.shape table.now.layout.seed WAITING
        ≡ home table.now.layout.shape table.now.layout.seed FULL }
    requires room { HasRoom 6 pass.old }
    requires share { HasShares 12 (known pass.old.pass) }
{
    let waits = Waits::by(rt);
    match insert(table, &waits, pass, &FULL, 6, rule).unwrap() {
        Ok(inserted) => match time_wait(table, &waits, pass, inserted.place, &WAITING).unwrap() {
            Ok(_) => come(table, rt, pass, rule),
            Err(full) => Came::Full(full.owned),
        },
        Err(_) => Came::Never,
    }
}

/// A request comes and hands over to its socket, which is then to come again. Where no slot is free for that, it comes
/// once the request has gone.
fn shake_hands<R: Wait>(table: &ChainTable, rt: &R, pass: &mut ChainPass) -> (Came, Came)
    requires rests { IsResting table.now pass.old }
    requires room { HasRoom 6 pass.old }
    requires share { HasShares 14 (known pass.old.pass) }
{
    let waits = Waits::by(rt);
    let Ok(inserted) = insert(table, &waits, pass, &REQUEST, 0, Replace::Always).unwrap() else {
        return (Came::Never, Came::Never);
    };
    match hand_over(table, &waits, pass, inserted.place, &FULL).unwrap() {
        Ok(child) => (Came::At(child.slot), come(table, rt, pass, Replace::Never)),
        Err((request, full)) => {
            let locked = lock_chain_of(table, &waits, pass, &request).unwrap();
            remove(table, pass, locked, request);
            (
                Came::Full(full.owned),
                come(table, rt, pass, Replace::Never),
            )
        }
    }
}

fn listen<R: Wait>(table: &ChainTable, rt: &R, pass: &mut ChainPass) -> Came
    requires rests { IsResting table.now pass.old }
    requires room { HasRoom 1 pass.old }
    requires share { HasShares 2 (known pass.old.pass) }
{
    match add(table, &Waits::by(rt), pass, &LISTENER).unwrap() {
        Ok(place) => Came::At(place.slot),
        Err(full) => Came::Full(full.owned),
    }
}

/// It comes and goes, and comes again.
fn listen_again<R: Wait>(table: &ChainTable, rt: &R, pass: &mut ChainPass) -> Came
    requires rests { IsResting table.now pass.old }
    requires room { HasRoom 3 pass.old }
    requires share { HasShares 6 (known pass.old.pass) }
{
    let waits = Waits::by(rt);
    match add(table, &waits, pass, &LISTENER).unwrap() {
        Ok(place) => {
            let locked = lock_chain_of(table, &waits, pass, &place).unwrap();
            remove(table, pass, locked, place);
            listen(table, rt, pass)
        }
        Err(_) => Came::Never,
    }
}

/// A socket comes by another pass, which is then taken in: how many changes there are, and how many of them are kept.
fn come_and_join<R: Wait>(
    table: &ChainTable,
    rt: &R,
    pass: &mut ChainPass,
    mut other: ChainPass,
) -> Result<(usize, usize), AllocError>
    requires rests { IsResting table.now pass.old }
    requires other { IsResting table.now other }
    requires nothing { HoldsNothing (known other.pass) }
    requires room { HasRoom 2 other }
    requires share { HasShares 4 (known other.pass) }
{
    come(table, rt, &mut other, Replace::Never);
    pass.reserve(table, other.pass.changes.len())?;
    table.join(pass, other);
    Ok((pass.pass.changes.len(), pass.pass.changes().len()))
}

#[test]
fn a_time_wait_gives_way(rt: HostRuntime) -> Result<(), Fail> {
    let (table, mut pass) = ChainTable::new(rt.alloc(), SHAPE, 7)?;
    pass.reserve(&table, 6)?;
    assert!(rt; table.bucket_of(&WAITING) == table.bucket_of(&FULL));
    let came = come_again(&table, &rt, &mut pass, Replace::After);
    assert_eq!(rt; came, Came::For(2, 1));
    Ok(())
}

#[test]
fn a_time_wait_stays(rt: HostRuntime) -> Result<(), Fail> {
    let (table, mut pass) = ChainTable::new(rt.alloc(), SHAPE, 7)?;
    pass.reserve(&table, 6)?;
    assert!(rt; table.bucket_of(&WAITING) == table.bucket_of(&FULL));
    let came = come_again(&table, &rt, &mut pass, Replace::Never);
    assert_eq!(rt; came, Came::Taken(1));
    Ok(())
}

#[test]
fn a_request_hands_over(rt: HostRuntime) -> Result<(), Fail> {
    let (table, mut pass) = ChainTable::new(rt.alloc(), SHAPE, 7)?;
    pass.reserve(&table, 6)?;
    let came = shake_hands(&table, &rt, &mut pass);
    assert_eq!(rt; came, (Came::At(1), Came::Taken(1)));
    assert_eq!(rt; pass.pass.changes().len(), 3);
    Ok(())
}

#[test]
fn a_request_stands_where_no_slot_is_free(rt: HostRuntime) -> Result<(), Fail> {
    let shape = Shape { slots: 1, ..SHAPE };
    let (table, mut pass) = ChainTable::new(rt.alloc(), shape, 7)?;
    pass.reserve(&table, 6)?;
    let came = shake_hands(&table, &rt, &mut pass);
    assert_eq!(rt; came, (Came::Full(1), Came::At(0)));
    Ok(())
}

#[test]
fn the_next_slot_is_sought_first(rt: HostRuntime) -> Result<(), Fail> {
    let (table, mut pass) = ChainTable::new(rt.alloc(), SHAPE, 7)?;
    pass.reserve(&table, 3)?;
    assert_eq!(rt; listen_again(&table, &rt, &mut pass), Came::At(1));
    Ok(())
}

#[test]
fn two_passes_change_one_table(rt: HostRuntime) -> Result<(), Fail> {
    let (table, mut pass) = ChainTable::new(rt.alloc(), SHAPE, 7)?;
    let mut other = table.split(rt.alloc(), &mut pass);
    pass.reserve(&table, 2)?;
    other.reserve(&table, 2)?;
    let first = come(&table, &rt, &mut other, Replace::Never);
    let second = come(&table, &rt, &mut pass, Replace::Never);
    let now = table.now(&mut pass);
    assert_eq!(rt; (first, second, now), (Came::At(0), Came::Taken(1), 2));
    Ok(())
}

#[test]
fn a_second_pass_is_taken_in(rt: HostRuntime) -> Result<(), Fail> {
    let (table, mut pass) = ChainTable::new(rt.alloc(), SHAPE, 7)?;
    let mut other = table.split(rt.alloc(), &mut pass);
    other.reserve(&table, 2)?;
    assert_eq!(rt; come_and_join(&table, &rt, &mut pass, other)?, (1, 1));
    Ok(())
}

#[test]
fn a_table_counts_its_changes(rt: HostRuntime) -> Result<(), Fail> {
    let (table, mut pass) = ChainTable::counting(rt.alloc(), SHAPE, 7)?;
    let mut other = table.split(rt.alloc(), &mut pass);
    other.reserve(&table, 2)?;
    assert_eq!(rt; come_and_join(&table, &rt, &mut pass, other)?, (1, 0));
    Ok(())
}
