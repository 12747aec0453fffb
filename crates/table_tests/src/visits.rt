//! Calls on buckets under turns, by one pass that is alone.

ghost use Rattle.std.specs.Prelude.{◌≡◌, ◌+◌, ◌^◌, ◌≤◌, length};
ghost use Rattle.turn_table.specs.Passes as words;
ghost use Rattle.bind_buckets.specs.Turned.{IsIdle, IsOut};

use bind_buckets::{Bucket, InUse, ListenEnd, Sharing, Strange, turning};
use patience::Waits;
use sock_card::{Owner, State, bind_key};
use std::alloc::{AllocError, Global};
use std::process::Abort;
use std::sync::Wait;
use turn_table::{Turn, TurnPass, Turns};

/// A socket with `reuseport` of that user, at 10.0.0.1 in the namespace 0.
fn socket(name: u64, port: u16, uid: u32) -> Owner {
    Owner {
        name,
        origin: name,
        addr: 0x0A00_0001,
        port,
        remote: 0,
        rport: 0,
        dev: 0,
        net: 0,
        uid,
        mark: 0,
        reuseaddr: false,
        reuseport: true,
        noport: false,
        state: State::Bound,
        by_connect: false,
    }
}

/// What is done in one turn: a socket is bound; it is bound and then listens; that of a name leaves the
/// bucket of a key.
#[derive(Clone, Copy)]
enum Visit {
    Bind(Owner),
    Listen(Owner),
    Remove(u32, u64),
}

/// The group that a visit gives, or its refusal; None where memory ran out.
type Told = Option<Result<Option<u32>, ListenEnd>>;

/// Lets the socket of that name listen, and gives the bucket back.
fn listen_and_give(
    turns: &Turns<Box<Bucket>>,
    pass: &mut TurnPass<Box<Bucket>>,
    turn: Turn<Box<Bucket>>,
    name: u64,
) -> Told
    requires out { IsOut turns.now pass.old turn }
    requires caller { words.caller pass.old ≡ 0 }
    requires few { words.draws pass.old + 2 ≤ 2 ^ 48 }
    requires entries { 2 ≤ turn.value.value.entries }
    ensures pass { IsIdle turns.now pass.new × (words.caller pass.new ≡ 0) }
    ensures draws { words.draws pass.new ≤ words.draws pass.old + 2 }
{
    let mut turn = turn;
    match turning::may_listen(turns, pass, &mut turn, name) {
        Ok(group) => {
            turning::listen(turns, pass, &mut turn, name, 7);
            turning::give(turns, pass, turn);
            Some(Ok(group))
        }
        Err(end) => {
            turning::give(turns, pass, turn);
            Some(Err(end))
        }
    }
}

/// Binds a socket, which may then listen.
fn bind<R: Wait>(
    rt: &R,
    turns: &Turns<Box<Bucket>>,
    pass: &mut TurnPass<Box<Bucket>>,
    owner: Owner,
    listens: bool,
) -> Told
    requires pass { IsIdle turns.now pass.old × (words.caller pass.old ≡ 0) }
    requires few { words.draws pass.old + 3 ≤ 2 ^ 48 }
    ensures pass { IsIdle turns.now pass.new × (words.caller pass.new ≡ 0) }
    ensures draws { words.draws pass.new ≤ words.draws pass.old + 3 }
{
    let mut turn = turning::take(
        &Waits::by(rt),
        turns,
        pass,
        bind_key(owner.port, owner.net),
    ).unwrap();
    match turning::reserve(turns, pass, &mut turn) {
        Ok(()) => match turning::bind(turns, pass, &mut turn, owner) {
            Ok(()) => {
                if listens {
                    listen_and_give(turns, pass, turn, owner.name)
                } else {
                    turning::give(turns, pass, turn);
                    Some(Ok(None))
                }
            }
            Err(InUse(name)) => {
                turning::give(turns, pass, turn);
                Some(Err(ListenEnd::InUse(name)))
            }
        },
        Err(_) => {
            turning::give(turns, pass, turn);
            None
        }
    }
}

/// The socket of that name leaves its port, in the bucket of that key.
fn remove<R: Wait>(
    rt: &R,
    turns: &Turns<Box<Bucket>>,
    pass: &mut TurnPass<Box<Bucket>>,
    key: u32,
    name: u64,
) -> Told
    requires pass { IsIdle turns.now pass.old × (words.caller pass.old ≡ 0) }
    requires few { words.draws pass.old + 3 ≤ 2 ^ 48 }
    ensures pass { IsIdle turns.now pass.new × (words.caller pass.new ≡ 0) }
    ensures draws { words.draws pass.new ≤ words.draws pass.old + 3 }
{
    let mut turn = turning::take(&Waits::by(rt), turns, pass, key).unwrap();
    match turning::reserve(turns, pass, &mut turn) {
        Ok(()) => {
            let removed = turning::remove(turns, pass, &mut turn, name);
            turning::give(turns, pass, turn);
            match removed {
                Ok(()) => Some(Ok(None)),
                Err(Strange(name)) => Some(Err(ListenEnd::Strange(name))),
            }
        }
        Err(_) => {
            turning::give(turns, pass, turn);
            None
        }
    }
}

/// Pays one visit.
fn pay<R: Wait>(
    rt: &R,
    turns: &Turns<Box<Bucket>>,
    pass: &mut TurnPass<Box<Bucket>>,
    next: Visit,
) -> Told
    requires pass { IsIdle turns.now pass.old × (words.caller pass.old ≡ 0) }
    requires few { words.draws pass.old + 3 ≤ 2 ^ 48 }
    ensures pass { IsIdle turns.now pass.new × (words.caller pass.new ≡ 0) }
    ensures draws { words.draws pass.new ≤ words.draws pass.old + 3 }
{
    match next {
        Visit::Bind(owner) => bind(rt, turns, pass, owner, false),
        Visit::Listen(owner) => bind(rt, turns, pass, owner, true),
        Visit::Remove(key, name) => remove(rt, turns, pass, key, name),
    }
}

/// What these visits of one bucket give, one after the other.
fn visit_all<R: Wait>(rt: &R, alloc: Global, visits: &[Visit]) -> Result<Vec<Told>, AllocError>
    requires { length visits.now ≤ 100 }
{
    let (turns, mut pass) = turning::with_buckets(alloc, 1, Sharing::Alone)?;
    let mut told = Vec::new(alloc);
    for next in visits {
        told.push(pay(rt, &turns, &mut pass, *next))?;
    }
    Ok(told)
}

fn check<R: Wait + Abort>(
    rt: &R,
    alloc: Global,
    visits: &[Visit],
    expected: &[Told],
) -> Result<(), AllocError>
    requires { length visits.now ≤ 100 }
{
    let told = visit_all(rt, alloc, visits)?;
    assert_eq!(rt; told.as_slice(), expected);
    Ok(())
}

#[test]
fn users_keep_each_other_from_a_port(rt: HostRuntime) -> Result<(), AllocError> {
    let visits = [
        Visit::Bind(socket(1, 80, 1)),
        Visit::Bind(socket(2, 80, 2)),
        Visit::Bind(socket(3, 80, 1)),
        Visit::Remove(80, 9),
        Visit::Remove(80, 1),
    ];
    let done: Told = Some(Ok(None));
    let in_use: Told = Some(Err(ListenEnd::InUse(1)));
    let strange: Told = Some(Err(ListenEnd::Strange(9)));
    check(
        &rt,
        rt.alloc(),
        &visits,
        &[done, in_use, done, strange, done],
    )
}

#[test]
fn namespaces_keep_apart(rt: HostRuntime) -> Result<(), AllocError> {
    let other = Owner {
        net: 1,
        ..socket(2, 80, 2)
    };
    let visits = [
        Visit::Listen(socket(1, 80, 1)),
        Visit::Bind(socket(3, 80, 2)),
        Visit::Listen(other),
        Visit::Bind(Owner { name: 4, ..other }),
        Visit::Bind(Owner { uid: 1, ..other }),
    ];
    let group = |place| Some(Ok(Some(place)));
    let in_use = |name| Some(Err(ListenEnd::InUse(name)));
    check(
        &rt,
        rt.alloc(),
        &visits,
        &[group(0), in_use(1), group(1), Some(Ok(None)), in_use(2)],
    )
}

/// One listener of port 80 more than a group has room for, and one of each of the eight ports from 81 on.
fn listeners(alloc: Global) -> Result<Vec<Visit>, AllocError> {
    let mut visits = Vec::new(alloc);
    for name in 0..65u64 {
        visits.push(Visit::Listen(socket(name, 80, 1)))?;
    }
    for place in 1..9u16 {
        visits.push(Visit::Listen(socket(70 + u64::from(place), 80 + place, 1)))?;
    }
    Ok(visits)
}

/// Sixty-four join the group 0, and then seven begin groups of their own.
fn limits(alloc: Global) -> Result<Vec<Told>, AllocError> {
    let mut told = Vec::new(alloc);
    for _ in 0..64u32 {
        told.push(Some(Ok(Some(0))))?;
    }
    told.push(Some(Err(ListenEnd::GroupFull)))?;
    for place in 1..8u32 {
        told.push(Some(Ok(Some(place))))?;
    }
    told.push(Some(Err(ListenEnd::GroupsFull)))?;
    Ok(told)
}

#[test]
fn groups_have_their_limits(rt: HostRuntime) -> Result<(), AllocError> {
    let visits = listeners(rt.alloc())?;
    let told = limits(rt.alloc())?;
    if visits.len() <= 100 {
        check(&rt, rt.alloc(), visits.as_slice(), told.as_slice())?;
    }
    assert_eq!(rt; visits.len(), 73);
    Ok(())
}
