//! A change that is stopped before each of its steps, and a lookup there.

ghost use Rattle.std.specs.Prelude.{◌≡◌, ◌<◌};
ghost use Rattle.table_rule.specs.Calls.{IsOf, view, layout_of};
ghost use Rattle.table_rule.specs.Words.{bucket_count};
ghost use Rattle.chain_tests.specs.Ready.{IsReady, CanLook};

use crate::calls::{Answer, Plan, hash_in, look_in, unhash_in};
use chain_book::Shape;
use null_reader::Still;
use nulls_chain::{Halt, Turning, Unhalted};
use sock_card::{Card, Kind, Packet};
use std::process::Abort;
use std::sync::Wait;
use std::test::Fail;
use table_rule::{Chains, Pass, Steps};

const PLAN: Plan = Plan {
    shape: Shape {
        slots: 1,
        bind: 1,
        hash: 1,
        listen: 1,
    },
    seed: 7,
};

/// A listener's, the only card of its bucket.
const CARD: Card = Card {
    local: 0x0a00_0001,
    lport: 80,
    remote: 0,
    rport: 0,
    dev: 0,
    net: 0,
    kind: Kind::Listen,
    name: 1,
    extra: 0,
    mark: 0,
};

const PACKET: Packet = Packet {
    src: 0x0a00_0002,
    sport: 1000,
    dst: 0x0a00_0001,
    dport: 80,
    dev: 0,
    net: 0,
};

/// The listeners' bucket.
const BUCKET: u32 = 1;

/// What a lookup answers before this step of the hash of the card that it seeks.
fn while_hashed(at: Turning) -> Answer {
    match at {
        Turning::Live => Answer::Dead(0),
        Turning::End => Answer::Found(1),
        _ => Answer::None,
    }
}

/// The same of its unhash.
fn while_unhashed(at: Turning) -> Answer {
    match at {
        Turning::Begin | Turning::Clear => Answer::Found(1),
        Turning::Past => Answer::Dead(0),
        _ => Answer::None,
    }
}

/// Looks for the card, in one turn through its bucket, at each stop of a change.
#[derive(Drop)]
struct Looker<'a> {
    chains: &'a Chains,
    steps: Steps,
    hashes: bool,
    stops: u32,
    wrong: u32,
    ghost bucket: { 1 < bucket_count (layout_of chains.now) },
    ghost table: { IsOf chains.now steps },
    ghost ready: { CanLook (view steps) },
}

impl<'a> Halt for Looker<'a> {
    fn step(&mut self, at: Turning) {
        let expected = if self.hashes {
            while_hashed(at)
        } else {
            while_unhashed(at)
        };
        let answer = look_in(self.chains, &mut self.steps, BUCKET, &PACKET, 1, &mut Still);
        self.stops = self.stops.saturating_add(1);
        if answer != expected {
            self.wrong = self.wrong.saturating_add(1);
        }
    }
}

/// Hashes and unhashes the card, with a lookup before each step: how many stops there were, and how many answers were
/// wrong.
fn stopped<R: Wait>(
    rt: &R,
    chains: &Chains,
    pass: &mut Pass,
    looking: Steps,
) -> Option<(u32, u32, u32)>
    requires layout { layout_of chains.now
        ≡ record { shape = record { slots = 1; bind = 1; hash = 1; listen = 1 }; seed = 7 } }
    requires ready { IsReady chains.now pass.old 2 }
    requires looking { IsOf chains.now looking × CanLook (view looking) }
{
    let mut looker = Looker {
        chains,
        steps: looking,
        hashes: true,
        stops: 0,
        wrong: 0,
    };
    let place = match hash_in(chains, rt, pass, &PLAN, &CARD, 1, &mut looker) {
        Ok(place) => place,
        Err(_) => return None,
    };
    let hashing = looker.stops;
    looker.hashes = false;
    unhash_in(chains, rt, pass, place, 0, &mut looker);
    Some((hashing, looker.stops, looker.wrong))
}

#[test]
fn a_change_is_met_at_each_step(rt: HostRuntime) -> Result<(), Fail> {
    let (chains, mut pass) = Chains::new(rt.alloc(), PLAN.shape, PLAN.seed)?;
    let mut changing = chains.split(rt.alloc(), &mut pass);
    changing.reserve(2)?;
    let Pass {
        steps: looking,
        changes: _,
    } = pass;
    let met = stopped(&rt, &chains, &mut changing, looking);
    assert_eq!(rt; met, Some((7, 12, 0)));
    Ok(())
}
