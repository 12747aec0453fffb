//! What a lookup reports as it goes: the points of one that finds a card, and of one that finds none.

ghost use Rattle.std.specs.Prelude.{◌≡◌, ◌<◌};
ghost use Rattle.table_rule.specs.Calls.{IsOf, view, layout_of};
ghost use Rattle.table_rule.specs.Words.{bucket_count};
ghost use Rattle.chain_tests.specs.Ready.{IsReady, CanLook};

use crate::calls::{Answer, Plan, hash_in, look_in};
use chain_book::Shape;
use null_reader::{Pace, Point};
use nulls_chain::Unhalted;
use sock_card::{Card, Kind, Packet};
use std::alloc::Global;
use std::process::Abort;
use std::sync::Wait;
use std::test::Fail;
use table_rule::{Chains, Pass, Steps};

const PLAN: Plan = Plan {
    shape: Shape {
        slots: 2,
        bind: 1,
        hash: 1,
        listen: 1,
    },
    seed: 7,
};

/// The listeners' bucket.
const BUCKET: u32 = 1;

/// A listener at the packet's own address, which comes first and takes slot 0.
const EXACT: Card = Card {
    local: 0x0a00_0001,
    lport: 80,
    remote: 0,
    rport: 0,
    dev: 0,
    net: 0,
    kind: Kind::Listen,
    name: 1,
    extra: 0,
    mark: 0,
};

/// One at any address, of a lower rank, which comes second and takes slot 1, so that a walk meets it first.
const ANY: Card = Card {
    local: 0,
    lport: 80,
    remote: 0,
    rport: 0,
    dev: 0,
    net: 0,
    kind: Kind::Listen,
    name: 2,
    extra: 0,
    mark: 0,
};

const PACKET: Packet = Packet {
    src: 0x0a00_0002,
    sport: 1000,
    dst: 0x0a00_0001,
    dport: 80,
    dev: 0,
    net: 0,
};

/// A packet to a port at which nobody listens.
const STRAY: Packet = Packet {
    src: 0x0a00_0002,
    sport: 1000,
    dst: 0x0a00_0001,
    dport: 81,
    dev: 0,
    net: 0,
};

/// Keeps what a lookup reports, and whether there was no memory for a point.
#[derive(Drop)]
struct Kept {
    points: Vec<Point>,
    lost: bool,
}

impl Pace for Kept {
    fn step(&mut self, at: Point) {
        if self.points.push(at).is_err() {
            self.lost = true;
        }
    }
}

fn is_same(one: &Point, other: &Point) -> bool {
    match (*one, *other) {
        (Point::Start, Point::Start) => true,
        (Point::Head, Point::Head) => true,
        (Point::Key(slot), Point::Key(at)) => slot == at,
        (Point::Take(slot), Point::Take(at)) => slot == at,
        (Point::Check(slot), Point::Check(at)) => slot == at,
        (Point::Link(slot), Point::Link(at)) => slot == at,
        (Point::Put(slot), Point::Put(at)) => slot == at,
        (Point::End, Point::End) => true,
        _ => false,
    }
}

/// Looks a packet up, in one pass, and compares its answer and its points.
fn check(
    rt: &impl Abort,
    alloc: Global,
    chains: &Chains,
    steps: &mut Steps,
    packet: &Packet,
    wanted: Answer,
    points: &[Point],
)
    requires table { IsOf chains.now steps.old }
    requires bucket { 1 < bucket_count (layout_of chains.now) }
    requires ready { CanLook (view steps.old) }
    ensures table { IsOf chains.now steps.new }
    ensures ready { CanLook (view steps.new) }
{
    let mut kept = Kept {
        points: Vec::new(alloc),
        lost: false,
    };
    let answer = look_in(chains, steps, BUCKET, packet, 1, &mut kept);
    assert!(rt; answer == wanted && !kept.lost && kept.points.len() == points.len());
    assert!(rt;
        kept.points
            .iter()
            .zip(points)
            .all(|(one, other)| is_same(one, other))
    );
}

/// Hashes both listeners.
fn hash_both<R: Wait>(rt: &R, chains: &Chains, pass: &mut Pass) -> bool
    requires layout { layout_of chains.now
        ≡ record { shape = record { slots = 2; bind = 1; hash = 1; listen = 1 }; seed = 7 } }
    requires ready { IsReady chains.now pass.old 2 }
{
    let exact = hash_in(chains, rt, pass, &PLAN, &EXACT, 1, &mut Unhalted).is_ok();
    let any = hash_in(chains, rt, pass, &PLAN, &ANY, 0, &mut Unhalted).is_ok();
    exact && any
}

// Each atomic step has its point, just before it, and no point stands for two steps: the clock's first load, the head,
// two words of a card that give its rank, the count, four words under the count, the next link, a count that is given
// back, and the clock's last load. A card that is no better than the best so far is passed over by its first two words.
// Where a better one was checked, the former best is put, before the next link is loaded; the answer's own count is put
// by whoever asked, without a point.
#[test]
fn each_step_has_its_point(rt: HostRuntime) -> Result<(), Fail> {
    let (chains, mut pass) = Chains::new(rt.alloc(), PLAN.shape, PLAN.seed)?;
    let mut changing = chains.split(rt.alloc(), &mut pass);
    changing.reserve(2)?;
    let Pass {
        steps: mut looking,
        changes: _,
    } = pass;
    assert!(rt; hash_both(&rt, &chains, &mut changing));
    let found = [
        Point::Start,
        Point::Head,
        Point::Key(1),
        Point::Key(1),
        Point::Take(1),
        Point::Check(1),
        Point::Check(1),
        Point::Check(1),
        Point::Check(1),
        Point::Link(1),
        Point::Key(0),
        Point::Key(0),
        Point::Take(0),
        Point::Check(0),
        Point::Check(0),
        Point::Check(0),
        Point::Check(0),
        Point::Put(1),
        Point::Link(0),
        Point::End,
    ];
    check(
        &rt,
        rt.alloc(),
        &chains,
        &mut looking,
        &PACKET,
        Answer::Found(1),
        &found,
    );
    let none = [
        Point::Start,
        Point::Head,
        Point::Key(1),
        Point::Key(1),
        Point::Link(1),
        Point::Key(0),
        Point::Key(0),
        Point::Link(0),
        Point::End,
    ];
    check(
        &rt,
        rt.alloc(),
        &chains,
        &mut looking,
        &STRAY,
        Answer::None,
        &none,
    );
    Ok(())
}
