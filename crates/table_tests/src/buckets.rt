//! Runs of calls on one bucket.

use bind_buckets::Bucket;
use bind_buckets::request::{Answer, InUse, ListenEnd, NotFree, Strange};
use sock_card::{GROUP_ROOM, Owner, State, bind_key};
use std::alloc::{AllocError, Global};
use std::process::Abort;

const HERE: u32 = 0x0A00_0001;

const THERE: u32 = 0x0A00_0002;

/// A socket that is bound to 10.0.0.1 and a port.
fn socket(name: u64, port: u16) -> Owner {
    Owner {
        name,
        origin: name,
        addr: HERE,
        port,
        remote: 0,
        rport: 0,
        dev: 0,
        net: 0,
        uid: 1,
        mark: 0,
        reuseaddr: false,
        reuseport: false,
        noport: false,
        state: State::Bound,
        by_connect: false,
    }
}

fn sharing(name: u64, port: u16) -> Owner {
    Owner {
        reuseport: true,
        ..socket(name, port)
    }
}

fn reusing(name: u64, addr: u32) -> Owner {
    Owner {
        addr,
        reuseaddr: true,
        ..socket(name, 80)
    }
}

/// A socket for which `connect` chose a port.
fn connecting(name: u64, port: u16) -> Owner {
    Owner {
        remote: THERE,
        rport: 1000,
        state: State::Full,
        by_connect: true,
        ..socket(name, port)
    }
}

fn answer_of_bind(bound: Result<(), InUse>) -> Answer {
    match bound {
        Ok(()) => Answer::Done,
        Err(InUse(name)) => Answer::InUse(name),
    }
}

fn answer_of_name(known: Result<(), Strange>) -> Answer {
    match known {
        Ok(()) => Answer::Done,
        Err(Strange(name)) => Answer::Strange(name),
    }
}

fn bind(bucket: &mut Bucket, owner: Owner) -> Result<Answer, AllocError> {
    bucket.reserve()?;
    if !bucket.has_key(bind_key(owner.port, owner.net)) {
        return Ok(Answer::InUse(0));
    }
    Ok(answer_of_bind(bucket.bind(owner)))
}

fn bind_auto(bucket: &mut Bucket, owner: Owner) -> Result<Answer, AllocError> {
    bucket.reserve()?;
    if !bucket.has_key(bind_key(owner.port, owner.net)) {
        return Ok(Answer::InUse(0));
    }
    Ok(answer_of_bind(bucket.bind_auto(owner)))
}

fn connect(bucket: &mut Bucket, owner: Owner) -> Result<Answer, AllocError> {
    bucket.reserve()?;
    if !bucket.has_key(bind_key(owner.port, owner.net)) || !owner.by_connect {
        return Ok(Answer::NotFree(0));
    }
    match bucket.free(owner.port, owner.net) {
        Ok(()) => {
            bucket.connect_auto(owner);
            Ok(Answer::Done)
        }
        Err(NotFree(name)) => Ok(Answer::NotFree(name)),
    }
}

fn listen(bucket: &mut Bucket, name: u64, slot: u32) -> Result<Answer, AllocError> {
    bucket.reserve()?;
    match bucket.may_listen(name) {
        Ok(group) => {
            bucket.listen(name, slot);
            Ok(Answer::Group(group))
        }
        Err(ListenEnd::InUse(other)) => Ok(Answer::InUse(other)),
        Err(ListenEnd::GroupFull) => Ok(Answer::GroupFull),
        Err(ListenEnd::GroupsFull) => Ok(Answer::GroupsFull),
        Err(ListenEnd::Strange(other)) => Ok(Answer::Strange(other)),
    }
}

fn accept(bucket: &mut Bucket, parent: u64, name: u64) -> Result<Answer, AllocError> {
    bucket.reserve()?;
    match bucket.owner(parent).copied() {
        Some(listener) if matches!(listener.state, State::Listening) && listener.addr == HERE => {
            Ok(answer_of_name(bucket.inherit(parent, name, 0, HERE, THERE, 1000)))
        }
        _ => Ok(Answer::Strange(parent)),
    }
}

fn remove(bucket: &mut Bucket, name: u64) -> Result<Answer, AllocError> {
    bucket.reserve()?;
    Ok(answer_of_name(bucket.remove(name)))
}

fn close(bucket: &mut Bucket, name: u64) -> Result<Answer, AllocError> {
    bucket.reserve()?;
    Ok(answer_of_name(bucket.to_time_wait(name)))
}

fn reap(bucket: &mut Bucket, name: u64) -> Result<Answer, AllocError> {
    bucket.reserve()?;
    Ok(answer_of_name(bucket.remove_waiting(name)))
}

/// A call on a bucket, or two that belong together.
#[derive(Clone, Copy)]
enum Call {
    Bind(Owner),
    BindAuto(Owner),
    /// Whether the port is free, and if so, the socket is connected.
    Connect(Owner),
    /// Whether the socket of that name may listen, and if so, it listens, with that slot.
    Listen(u64, u32),
    /// The listener of the first name accepts a socket of the second.
    Accept(u64, u64),
    Remove(u64),
    Close(u64),
    Reap(u64),
}

fn carry_out(bucket: &mut Bucket, call: Call) -> Result<Answer, AllocError> {
    match call {
        Call::Bind(owner) => bind(bucket, owner),
        Call::BindAuto(owner) => bind_auto(bucket, owner),
        Call::Connect(owner) => connect(bucket, owner),
        Call::Listen(name, slot) => listen(bucket, name, slot),
        Call::Accept(parent, name) => accept(bucket, parent, name),
        Call::Remove(name) => remove(bucket, name),
        Call::Close(name) => close(bucket, name),
        Call::Reap(name) => reap(bucket, name),
    }
}

/// Makes the calls, and asserts that each is answered as expected.
fn run(rt: &impl Abort, bucket: &mut Bucket, calls: &[(Call, Answer)]) -> Result<(), AllocError> {
    for (place, (call, expected)) in calls.iter().enumerate() {
        let answer = carry_out(bucket, *call)?;
        assert_eq!(rt; answer, *expected, "call {place}");
    }
    Ok(())
}

/// The same on a bucket of its own.
fn check(rt: &impl Abort, alloc: Global, calls: &[(Call, Answer)]) -> Result<(), AllocError> {
    let mut bucket = Bucket::new(alloc, 0, 1);
    run(rt, &mut bucket, calls)
}

fn check_owner(rt: &impl Abort, bucket: &Bucket, name: u64, expected: Option<Owner>) {
    assert_eq!(rt; bucket.owner(name).copied(), expected, "of {name}");
}

fn check_members(rt: &impl Abort, bucket: &Bucket, group: u32, expected: &[u128]) {
    assert_eq!(rt; bucket.members(group), expected, "in {group}");
}

#[test]
fn a_port_is_shared_by_one_user(rt: HostRuntime) -> Result<(), AllocError> {
    let other = Owner {
        uid: 2,
        ..sharing(2, 80)
    };
    let calls = [
        (Call::Bind(sharing(1, 80)), Answer::Done),
        (Call::Bind(other), Answer::InUse(1)),
        (Call::Bind(sharing(3, 80)), Answer::Done),
    ];
    check(&rt, rt.alloc(), &calls)
}

#[test]
fn connect_shares_its_own_ports_alone(rt: HostRuntime) -> Result<(), AllocError> {
    let mut bucket = Bucket::new(rt.alloc(), 0, 1);
    let calls = [
        (Call::Connect(connecting(1, 80)), Answer::Done),
        (Call::Connect(connecting(2, 80)), Answer::Done),
        (Call::Bind(socket(3, 81)), Answer::Done),
        (Call::Connect(connecting(4, 81)), Answer::NotFree(3)),
    ];
    run(&rt, &mut bucket, &calls)?;
    check_owner(&rt, &bucket, 2, Some(connecting(2, 80)));
    Ok(())
}

#[test]
fn a_search_honours_no_option(rt: HostRuntime) -> Result<(), AllocError> {
    let calls = [
        (Call::Bind(sharing(1, 80)), Answer::Done),
        (Call::BindAuto(sharing(2, 80)), Answer::InUse(1)),
        (Call::BindAuto(sharing(2, 81)), Answer::Done),
    ];
    check(&rt, rt.alloc(), &calls)
}

#[test]
fn many_owners_at_one_end_refuse_none_at_another(rt: HostRuntime) -> Result<(), AllocError> {
    let mut bucket = Bucket::new(rt.alloc(), 0, 1);
    let apart = Owner {
        addr: THERE,
        ..socket(100, 80)
    };
    run(&rt, &mut bucket, &[(Call::Bind(apart), Answer::Done)])?;
    for name in 1..71 {
        run(
            &rt,
            &mut bucket,
            &[(Call::Bind(reusing(name, HERE)), Answer::Done)],
        )?;
    }
    let calls = [
        (Call::Bind(socket(71, 80)), Answer::InUse(1)),
        (Call::Bind(reusing(72, 0)), Answer::InUse(100)),
        (Call::Remove(100), Answer::Done),
        (Call::Bind(reusing(72, 0)), Answer::Done),
    ];
    run(&rt, &mut bucket, &calls)
}

/// A socket is bound to the port that it shares, and wants to listen there.
fn listening(name: u64, port: u16, slot: u32, answer: Answer) -> [(Call, Answer); 2] {
    [
        (Call::Bind(sharing(name, port)), Answer::Done),
        (Call::Listen(name, slot), answer),
    ]
}

#[test]
fn a_group_has_sixty_four_members(rt: HostRuntime) -> Result<(), AllocError> {
    let mut bucket = Bucket::new(rt.alloc(), 1, 2);
    for name in 1..65u32 {
        let calls = listening(u64::from(name), 81, name + 100, Answer::Group(Some(8)));
        run(&rt, &mut bucket, &calls)?;
    }
    let calls = listening(65, 81, 165, Answer::GroupFull);
    run(&rt, &mut bucket, &calls)?;
    assert_eq!(rt; bucket.members(8).len(), GROUP_ROOM);
    Ok(())
}

#[test]
fn a_bucket_has_eight_groups(rt: HostRuntime) -> Result<(), AllocError> {
    let mut bucket = Bucket::new(rt.alloc(), 0, 1);
    for name in 1..9u32 {
        let calls = listening(
            u64::from(name),
            name as u16,
            name,
            Answer::Group(Some(name - 1)),
        );
        run(&rt, &mut bucket, &calls)?;
    }
    let calls = listening(9, 9, 9, Answer::GroupsFull);
    run(&rt, &mut bucket, &calls)
}

/// A listener has accepted a socket, and is closed; a newcomer wants its port.
fn beside_child(reuseaddr: bool, answer: Answer) -> [(Call, Answer); 5] {
    let listener = Owner {
        reuseaddr,
        ..socket(1, 80)
    };
    let newcomer = Owner {
        reuseaddr,
        ..socket(3, 80)
    };
    [
        (Call::Bind(listener), Answer::Done),
        (Call::Listen(1, 7), Answer::Group(None)),
        (Call::Accept(1, 2), Answer::Done),
        (Call::Remove(1), Answer::Done),
        (Call::Bind(newcomer), answer),
    ]
}

#[test]
fn a_child_keeps_its_port(rt: HostRuntime) -> Result<(), AllocError> {
    let calls = beside_child(false, Answer::InUse(2));
    check(&rt, rt.alloc(), &calls)
}

#[test]
fn a_child_shares_its_address(rt: HostRuntime) -> Result<(), AllocError> {
    let mut bucket = Bucket::new(rt.alloc(), 0, 1);
    run(&rt, &mut bucket, &beside_child(true, Answer::Done))?;
    let calls = [(Call::Listen(3, 8), Answer::Group(None))];
    run(&rt, &mut bucket, &calls)
}

#[test]
fn a_waiting_socket_keeps_its_port(rt: HostRuntime) -> Result<(), AllocError> {
    let calls = [
        (Call::Connect(connecting(1, 80)), Answer::Done),
        (Call::Reap(1), Answer::Strange(1)),
        (Call::Close(2), Answer::Strange(2)),
        (Call::Close(1), Answer::Done),
        (Call::Bind(socket(2, 80)), Answer::InUse(1)),
        (Call::Reap(1), Answer::Done),
        (Call::Bind(socket(2, 80)), Answer::Done),
    ];
    check(&rt, rt.alloc(), &calls)
}

#[test]
fn another_socket_of_a_waiting_ones_name_stays(rt: HostRuntime) -> Result<(), AllocError> {
    let mut bucket = Bucket::new(rt.alloc(), 0, 1);
    let calls = [
        (Call::Connect(connecting(1, 80)), Answer::Done),
        (Call::Connect(connecting(1, 80)), Answer::Done),
        (Call::Close(1), Answer::Done),
        (Call::Reap(1), Answer::Done),
        (Call::Reap(1), Answer::Strange(1)),
    ];
    run(&rt, &mut bucket, &calls)?;
    check_owner(&rt, &bucket, 1, Some(connecting(1, 80)));
    Ok(())
}

#[test]
fn the_last_member_takes_the_leavers_place(rt: HostRuntime) -> Result<(), AllocError> {
    let mut bucket = Bucket::new(rt.alloc(), 0, 1);
    let joined = Answer::Group(Some(0));
    let calls = [
        (Call::Bind(sharing(1, 80)), Answer::Done),
        (Call::Listen(1, 11), joined),
        (Call::Bind(sharing(2, 80)), Answer::Done),
        (Call::Listen(2, 12), joined),
        (Call::Bind(sharing(3, 80)), Answer::Done),
        (Call::Listen(3, 13), joined),
        (Call::Bind(sharing(4, 80)), Answer::Done),
        (Call::Listen(4, 14), joined),
        (Call::Remove(2), Answer::Done),
    ];
    run(&rt, &mut bucket, &calls)?;
    let expected = [
        0xB_0000_0000_0000_0001,
        0xE_0000_0000_0000_0004,
        0xD_0000_0000_0000_0003,
    ];
    check_members(&rt, &bucket, 0, &expected);
    Ok(())
}

/// How many notes a bucket has after these calls.
fn count_after(
    rt: &impl Abort,
    alloc: Global,
    calls: &[(Call, Answer)],
) -> Result<usize, AllocError> {
    let mut bucket = Bucket::new(alloc, 0, 1);
    run(rt, &mut bucket, calls)?;
    Ok(bucket.count())
}

#[test]
fn a_refused_call_is_entered_too(rt: HostRuntime) -> Result<(), AllocError> {
    let calls = [
        (Call::Remove(9), Answer::Strange(9)),
        (Call::Remove(8), Answer::Strange(8)),
    ];
    assert_eq!(rt; count_after(&rt, rt.alloc(), &[])?, 0);
    assert_eq!(rt; count_after(&rt, rt.alloc(), &calls)?, 2);
    Ok(())
}

/// A hundred owners of one port and one of another come, which has one of their names; then ninety names leave.
fn many_leave(rt: &impl Abort, bucket: &mut Bucket) -> Result<(), AllocError> {
    for name in 0..100 {
        run(
            rt,
            bucket,
            &[(Call::Bind(reusing(name, HERE)), Answer::Done)],
        )?;
    }
    run(rt, bucket, &[(Call::Bind(socket(7, 81)), Answer::Done)])?;
    for name in 0..90 {
        run(rt, bucket, &[(Call::Remove(name), Answer::Done)])?;
    }
    Ok(())
}

#[test]
fn many_owners_leave(rt: HostRuntime) -> Result<(), AllocError> {
    let mut bucket = Bucket::new(rt.alloc(), 0, 1);
    many_leave(&rt, &mut bucket)?;
    check_owner(&rt, &bucket, 7, Some(socket(7, 81)));
    check_owner(&rt, &bucket, 8, None);
    check_owner(&rt, &bucket, 95, Some(reusing(95, HERE)));
    Ok(())
}
