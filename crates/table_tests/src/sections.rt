//! Commands that are left off while another has the turn of their bucket, and are carried out once it gave that back.

ghost use Rattle.std.specs.Prelude.{◌≡◌, ◌+◌, ◌*◌, ◌<◌, ◌≤◌, ◌^◌, [], false, length, IfOk};
ghost use Rattle.bind_buckets.specs.Turned.{IsIdle};
ghost use Rattle.sock_ops.specs.Stands.{MayDraw, MayEnter};
ghost use Rattle.section_machine.specs.Standing.{IsSection};
ghost use Rattle.table_model.specs.Means.{is_lookup};
ghost use Rattle.list_words.specs.Lists.{Each};

use bind_buckets::{Bucket, Sharing, turning};
use chain_book::Shape;
use flat_calls::commands;
use flat_list::{Command, End, Header, NONE_RESERVED, Options, Range, Reply};
use label_index::LabelSeed;
use patience::Tries;
use reuseport_group::Groups;
use section_machine::{Machine, laws};
use sock_ops::{Cause, ChainTable, Tables, Worker};
use std::alloc::{AllocError, Global};
use std::process::Abort;
use std::test::Fail;
use turn_table::TurnPass;

const HEADER: Header = Header {
    shape: Shape {
        slots: 4,
        bind: 1,
        hash: 2,
        listen: 1,
    },
    range: Range {
        low: 40000,
        high: 40003,
        reserved: NONE_RESERVED,
    },
    seed: 7,
    offset: None,
    twreuse: false,
};

const PLAIN: Options = Options {
    net: None,
    uid: None,
    dev: None,
    reuseaddr: false,
    reuseport: false,
    noport: false,
};

const HERE: End = End {
    addr: 0x0A00_0002,
    port: 80,
};

const THERE: End = End {
    addr: 0x0A00_0003,
    port: 1000,
};

/// Tables with one bucket, a section and its worker, and a pass that asks the bucket beside it.
struct Stage {
    tables: Tables,
    worker: Worker,
    machine: Machine,
    other: TurnPass<Box<Bucket>>,
}

/// Empty tables, and a section that has no label yet.
fn begin(alloc: Global) -> Result<Stage, AllocError>
    ensures section { IfOk result (λ s. IsSection s.tables s.machine s.worker) }
    ensures labels { IfOk result (λ s. s.machine.own.labels ≡ []) }
    ensures waits { IfOk result (λ s. s.machine.own.waits ≡ []) }
    ensures enters { IfOk result (λ s. MayEnter 400000 s.worker) }
    ensures draws { IfOk result (λ s. MayDraw 100 s.worker) }
    ensures other { IfOk result (λ s. IsIdle s.tables.buckets s.other) }
{
    let shape = HEADER.shape;
    let (buckets, mut first) = turning::with_buckets(alloc, shape.bind, Sharing::Shared)?;
    let (chains, chain) = ChainTable::new(alloc, shape, HEADER.seed)?;
    let (groups, passes) = Groups::new(alloc, 8 * shape.bind)?;
    let turns = turning::split(&buckets, &mut first);
    let other = turning::split(&buckets, &mut first);
    laws::section_begins();
    Ok(Stage {
        tables: Tables {
            buckets,
            chains,
            groups,
        },
        worker: Worker {
            turns,
            chain,
            groups: passes,
        },
        machine: Machine::new(alloc, LabelSeed::fixed(), &HEADER, 1),
        other,
    })
}

/// What a command comes to while the other has the bucket's turn, and once it has given it back.
fn try_twice(
    tables: &Tables,
    worker: &mut Worker,
    machine: &mut Machine,
    other: &mut TurnPass<Box<Bucket>>,
    command: &Command,
) -> (Result<Reply, Cause>, Result<Reply, Cause>)
    requires section { IsSection tables.now machine.old worker.old }
    requires look { is_lookup command.now ≡ false }
    requires room { length machine.old.own.labels + 2 < 2 ^ 56 }
    requires enters { MayEnter (2 * 65540 + length machine.old.own.waits) worker.old }
    requires draws { MayDraw (2 * 6 + 2 * length machine.old.own.waits) worker.old }
    requires other { IsIdle tables.now.buckets other.old }
    ensures section { IsSection tables.now machine.new worker.new }
    ensures other { IsIdle tables.now.buckets other.new }
{
    let held = turning::take(&Tries(0), &tables.buckets, other, 80);
    let early = machine.try_step(&Tries(2), tables, worker, command);
    if let Some(turn) = held {
        turning::give(&tables.buckets, other, turn);
    }
    let late = machine.try_step(&Tries(0), tables, worker, command);
    (early, late)
}

/// A section's tables and worker after its first commands.
fn stage_after(alloc: Global, commands: &[Command]) -> Result<Stage, AllocError>
    requires few { length commands.now ≤ 4 }
    requires looks { Each (λ c. is_lookup c ≡ false) commands.now }
    ensures section { IfOk result (λ s. IsSection s.tables s.machine s.worker) }
    ensures labels { IfOk result (λ s. length s.machine.own.labels ≤ 4) }
    ensures enters { IfOk result (λ s. MayEnter (2 * 65540 + length s.machine.own.waits) s.worker) }
    ensures draws { IfOk result (λ s. MayDraw (2 * 6 + 2 * length s.machine.own.waits) s.worker) }
    ensures other { IfOk result (λ s. IsIdle s.tables.buckets s.other) }
{
    let Stage {
        tables,
        mut worker,
        mut machine,
        other,
    } = begin(alloc)?;
    for command in commands {
        let _done = machine.try_step(&Tries(0), &tables, &mut worker, command);
    }
    Ok(Stage {
        tables,
        worker,
        machine,
        other,
    })
}

/// After the first commands the next one is left off while another has the turn, and then it is replied to so.
fn check(
    rt: &impl Abort,
    alloc: Global,
    first: &[Command],
    next: &Command,
    reply: Reply,
) -> Result<(), AllocError>
    requires few { length first.now ≤ 4 }
    requires looks { Each (λ c. is_lookup c ≡ false) first.now }
    requires look { is_lookup next.now ≡ false }
{
    let Stage {
        tables,
        mut worker,
        mut machine,
        mut other,
    } = stage_after(alloc, first)?;
    let (early, late) = try_twice(&tables, &mut worker, &mut machine, &mut other, next);
    assert_eq!(rt; early, Err(Cause::Busy));
    assert_eq!(rt; late, Ok(reply));
    Ok(())
}

/// A socket is made, bound and listens.
fn listening() -> [Command; 3]
    ensures { Each (λ c. is_lookup c ≡ false) result }
{
    [
        commands::socket(1, PLAIN),
        commands::bind(1, HERE),
        commands::listen(1),
    ]
}

/// A socket is made and connected.
fn connected() -> [Command; 2]
    ensures { Each (λ c. is_lookup c ≡ false) result }
{
    [
        commands::socket(1, PLAIN),
        commands::connect(1, Some(HERE.addr), THERE),
    ]
}

#[test]
fn a_bind_is_left_off(rt: HostRuntime) -> Result<(), Fail> {
    let first = [commands::socket(1, PLAIN)];
    check(
        &rt,
        rt.alloc(),
        &first,
        &commands::bind(1, HERE),
        Reply::Port(80),
    )?;
    Ok(())
}

#[test]
fn a_listen_is_left_off(rt: HostRuntime) -> Result<(), Fail> {
    let first = [commands::socket(1, PLAIN), commands::bind(1, HERE)];
    check(
        &rt,
        rt.alloc(),
        &first,
        &commands::listen(1),
        Reply::Port(80),
    )?;
    Ok(())
}

#[test]
fn a_connect_is_left_off(rt: HostRuntime) -> Result<(), Fail> {
    let first = [commands::socket(1, PLAIN), commands::bind(1, HERE)];
    let connect = commands::connect(1, None, THERE);
    check(&rt, rt.alloc(), &first, &connect, Reply::End(HERE))?;
    Ok(())
}

#[test]
fn an_accept_is_left_off(rt: HostRuntime) -> Result<(), Fail> {
    let accept = commands::accept(1, 2, THERE, HERE);
    check(&rt, rt.alloc(), &listening(), &accept, Reply::Ok)?;
    Ok(())
}

#[test]
fn a_syn_is_left_off(rt: HostRuntime) -> Result<(), Fail> {
    let syn = commands::syn(1, 2, THERE, HERE);
    check(&rt, rt.alloc(), &listening(), &syn, Reply::Ok)?;
    Ok(())
}

#[test]
fn an_ack_is_left_off(rt: HostRuntime) -> Result<(), Fail> {
    let [socket, bind, listen] = listening();
    let first = [socket, bind, listen, commands::syn(1, 2, THERE, HERE)];
    check(&rt, rt.alloc(), &first, &commands::ack(2, 3), Reply::Ok)?;
    Ok(())
}

#[test]
fn a_close_of_a_listener_is_left_off(rt: HostRuntime) -> Result<(), Fail> {
    check(
        &rt,
        rt.alloc(),
        &listening(),
        &commands::close(1),
        Reply::Ok,
    )?;
    Ok(())
}

#[test]
fn a_close_of_a_connected_socket_is_left_off(rt: HostRuntime) -> Result<(), Fail> {
    check(
        &rt,
        rt.alloc(),
        &connected(),
        &commands::close(1),
        Reply::TimeWait,
    )?;
    Ok(())
}

#[test]
fn a_drop_is_left_off(rt: HostRuntime) -> Result<(), Fail> {
    check(
        &rt,
        rt.alloc(),
        &listening(),
        &commands::drop_socket(1),
        Reply::Ok,
    )?;
    Ok(())
}

#[test]
fn a_reap_is_left_off(rt: HostRuntime) -> Result<(), Fail> {
    let [socket, connect] = connected();
    let first = [
        socket,
        connect,
        commands::close(1),
        Command::At { moment: 60 },
    ];
    check(&rt, rt.alloc(), &first, &Command::Reap, Reply::Count(1))?;
    Ok(())
}
