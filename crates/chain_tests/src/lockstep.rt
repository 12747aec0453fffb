//! A listener that another thread takes out while a lookup stands between two of its steps.

ghost use Rattle.std.specs.Prelude.{◌≡◌, ◌+◌, false, IfSome};
ghost use Rattle.sock_card.specs.Words.{packed};
ghost use Rattle.table_rule.specs.Calls.{IsOf, view, layout_of};
ghost use Rattle.table_rule.specs.CardsOk.{has_tuple};
ghost use Rattle.table_rule.specs.Owners.{time_waits};
ghost use Rattle.table_rule.specs.Words.{words_of};
ghost use Rattle.chain_tests.specs.Ready.{IsReady, CanLook, CanUnhash};

use crate::calls::{Answer, Plan, hash_in, look_in, unhash_in};
use chain_book::Shape;
use null_reader::{Pace, Point};
use nulls_chain::{Place, Unhalted};
use sock_card::{Card, Kind, Packet};
use std::process::Abort;
use std::sync::Wait;
use std::sync::atomic::{AtomicU64, Ordering};
use std::test::Fail;
use std::thread;
use std::thread::Threads;
use table_rule::{Chains, Pass, Steps};

const PLAN: Plan = Plan {
    shape: Shape {
        slots: 2,
        bind: 1,
        hash: 1,
        listen: 1,
    },
    seed: 7,
};

/// The bucket of all listeners.
const BUCKET: u32 = 1;

/// The device by which the packet comes in.
const DEVICE: u16 = 3;

const PACKET: Packet = Packet {
    src: 0x0a00_0002,
    sport: 1000,
    dst: 0x0a00_0001,
    dport: 80,
    dev: DEVICE,
    net: 0,
};

/// How often a thread asks for the other's stage.
const TURNS: u32 = 100_000_000;

fn wait_for(stage: &AtomicU64, number: u64) {
    for _ in 0..TURNS {
        if stage.load(Ordering::SeqCst) >= number {
            return;
        }
    }
}

/// Stands before the first load of the second slot's link until the change was made.
#[derive(Drop)]
struct Waiter<'a> {
    stage: &'a AtomicU64,
}

impl<'a> Pace for Waiter<'a> {
    fn step(&mut self, at: Point) {
        if let Point::Link(1) = at {
            self.stage.fetch_max(2, Ordering::SeqCst);
            wait_for(self.stage, 3);
        }
    }
}

fn listener(lport: u16, dev: u16, name: u64) -> Card
    ensures kind { has_tuple (packed result).ports ≡ false }
    ensures place { time_waits (words_of (packed result)) ≡ 0 }
{
    Card {
        local: 0x0a00_0001,
        lport,
        remote: 0,
        rport: 0,
        dev,
        net: 0,
        kind: Kind::Listen,
        name,
        extra: 0,
        mark: 0,
    }
}

/// What is changed before the link of the chain's first slot, which the lookup holds, is loaded.
#[derive(Clone, Copy)]
enum Row {
    /// That slot's listener goes, and a hash is refused.
    First,
    /// The better listener behind it goes.
    Better,
}

/// Two listeners come, of which the packet matches the last one; that goes, and a third comes once the lookup has put
/// its count. How full the slots were as it was tried before that.
fn change_first<R: Wait>(
    rt: &R,
    chains: &Chains,
    pass: &mut Pass,
    stage: &AtomicU64,
) -> Option<(u32, u32)>
    requires layout { layout_of chains.now
        ≡ record { shape = record { slots = 2; bind = 1; hash = 1; listen = 1 }; seed = 7 } }
    requires ready { IsReady chains.now pass.old 5 }
{
    hash_in(
        chains,
        rt,
        pass,
        &PLAN,
        &listener(90, 0, 1),
        4,
        &mut Unhalted,
    )
    .ok()?;
    let place = hash_in(
        chains,
        rt,
        pass,
        &PLAN,
        &listener(80, 0, 2),
        3,
        &mut Unhalted,
    )
    .ok()?;
    stage.store(1, Ordering::SeqCst);
    wait_for(stage, 2);
    unhash_in(chains, rt, pass, place, 2, &mut Unhalted);
    let third = listener(90, 0, 3);
    let full = hash_in(chains, rt, pass, &PLAN, &third, 1, &mut Unhalted).err()?;
    stage.store(3, Ordering::SeqCst);
    wait_for(stage, 4);
    hash_in(chains, rt, pass, &PLAN, &third, 0, &mut Unhalted).ok()?;
    Some((full.owned, full.held))
}

/// A listener comes beside one that may be taken out.
fn hash_beside<R: Wait>(
    rt: &R,
    chains: &Chains,
    pass: &mut Pass,
    place: Place,
    card: &Card,
    rest: u32,
) -> Option<Place>
    requires layout { layout_of chains.now
        ≡ record { shape = record { slots = 2; bind = 1; hash = 1; listen = 1 }; seed = 7 } }
    requires kind { has_tuple (packed card.now).ports ≡ false }
    requires place { CanUnhash chains.now pass.old place }
    requires ready { IsReady chains.now pass.old (rest + 1) }
    ensures ready { IsReady chains.now pass.new rest }
    ensures place { IfSome result (λ place. CanUnhash chains.now pass.new place) }
{
    match hash_in(chains, rt, pass, &PLAN, card, rest, &mut Unhalted) {
        Ok(_) => Some(place),
        Err(_) => None,
    }
}

/// Two listeners come that the packet matches, the better one first, and that goes.
fn change_better<R: Wait>(
    rt: &R,
    chains: &Chains,
    pass: &mut Pass,
    stage: &AtomicU64,
) -> Option<(u32, u32)>
    requires layout { layout_of chains.now
        ≡ record { shape = record { slots = 2; bind = 1; hash = 1; listen = 1 }; seed = 7 } }
    requires ready { IsReady chains.now pass.old 5 }
{
    let better = listener(80, DEVICE, 1);
    let first = hash_in(chains, rt, pass, &PLAN, &better, 4, &mut Unhalted).ok()?;
    let place = hash_beside(rt, chains, pass, first, &listener(80, 0, 2), 3)?;
    stage.store(1, Ordering::SeqCst);
    wait_for(stage, 2);
    unhash_in(chains, rt, pass, place, 2, &mut Unhalted);
    stage.store(3, Ordering::SeqCst);
    None
}

fn change<R: Wait>(
    rt: &R,
    chains: &Chains,
    mut pass: Pass,
    stage: &AtomicU64,
    row: Row,
) -> Option<(u32, u32)>
    requires layout { layout_of chains.now
        ≡ record { shape = record { slots = 2; bind = 1; hash = 1; listen = 1 }; seed = 7 } }
    requires ready { IsReady chains.now pass 5 }
{
    match row {
        Row::First => change_first(rt, chains, &mut pass, stage),
        Row::Better => change_better(rt, chains, &mut pass, stage),
    }
}

/// Looks the packet up once the listeners have come.
fn look_there(chains: &Chains, mut steps: Steps, stage: &AtomicU64) -> Answer
    requires layout { layout_of chains.now
        ≡ record { shape = record { slots = 2; bind = 1; hash = 1; listen = 1 }; seed = 7 } }
    requires table { IsOf chains.now steps }
    requires ready { CanLook (view steps) }
{
    wait_for(stage, 1);
    let answer = look_in(
        chains,
        &mut steps,
        BUCKET,
        &PACKET,
        1,
        &mut Waiter { stage },
    );
    stage.store(4, Ordering::SeqCst);
    answer
}

/// What the lookup answers that meets the row's change on another thread, and how full the slots were for the hash
/// that was refused then and wasn't any more once the count was put.
fn met<R: Wait + Threads + Sync>(
    rt: &R,
    chains: &Chains,
    pass: Pass,
    steps: Steps,
    row: Row,
) -> (Answer, Option<(u32, u32)>)
    requires layout { layout_of chains.now
        ≡ record { shape = record { slots = 2; bind = 1; hash = 1; listen = 1 }; seed = 7 } }
    requires ready { IsReady chains.now pass 5 }
    requires table { IsOf chains.now steps }
    requires look { CanLook (view steps) }
{
    let stage = AtomicU64::new(0);
    thread::join(
        rt,
        || look_there(chains, steps, &stage),
        || change(rt, chains, pass, &stage, row),
    )
}

#[test]
fn a_listener_goes(rt: HostRuntime) -> Result<(), Fail> {
    for (row, expected, full) in [
        (Row::First, Answer::Found(2), Some((1, 1))),
        (Row::Better, Answer::Found(2), None),
    ] {
        let (chains, mut pass) = Chains::new(rt.alloc(), PLAN.shape, PLAN.seed)?;
        let mut changing = chains.split(rt.alloc(), &mut pass);
        changing.reserve(5)?;
        let Pass {
            steps: looking,
            changes: _,
        } = pass;
        let answer = met(&rt, &chains, changing, looking, row);
        assert_eq!(rt; answer, (expected, full));
    }
    Ok(())
}
