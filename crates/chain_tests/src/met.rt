//! A lookup that meets changes of others in its middle.

ghost use Rattle.std.specs.Prelude.{◌≡◌, ◌+◌, ◌<◌, false};
ghost use Rattle.sock_card.specs.Words.{packed};
ghost use Rattle.table_rule.specs.Calls.{IsOf, view, layout_of};
ghost use Rattle.table_rule.specs.CardsOk.{has_tuple};
ghost use Rattle.chain_tests.specs.Ready.{IsReady, CanLook};

use crate::calls::{Answer, Plan, fill_in, hash_in, look_in, unhash_wait_in};
use chain_book::Shape;
use null_reader::{Pace, Point};
use nulls_chain::Unhalted;
use sock_card::{Card, Kind, Packet};
use std::process::Abort;
use std::sync::Wait;
use std::test::Fail;
use table_rule::{Chains, Pass, Steps};

const PLAN: Plan = Plan {
    shape: Shape {
        slots: 2,
        bind: 1,
        hash: 1,
        listen: 1,
    },
    seed: 7,
};

/// The bucket of all TIME_WAITs; the listeners' is the other.
const BUCKET: u32 = 0;

const PACKET: Packet = Packet {
    src: 0x0a00_0002,
    sport: 1000,
    dst: 0x0a00_0001,
    dport: 80,
    dev: 0,
    net: 0,
};

/// The cards of the tests.
#[derive(Clone, Copy)]
enum Socket {
    /// A TIME_WAIT that the packet matches.
    Sought,
    /// A TIME_WAIT that it doesn't match, and another.
    Other,
    Further,
    /// A listener in the other bucket.
    Listener,
}

/// A TIME_WAIT's name.
const SOUGHT: u64 = 1;

const OTHER: u64 = 2;

const FURTHER: u64 = 3;

fn waiting(rport: u16, name: u64) -> Card
    ensures { has_tuple (packed result).ports ≡ false }
{
    Card {
        local: 0x0a00_0001,
        lport: 80,
        remote: 0x0a00_0002,
        rport,
        dev: 0,
        net: 0,
        kind: Kind::TimeWait,
        name,
        extra: 0,
        mark: 0,
    }
}

fn card_of(socket: Socket) -> Card
    ensures { has_tuple (packed result).ports ≡ false }
{
    match socket {
        Socket::Sought => waiting(1000, SOUGHT),
        Socket::Other => waiting(1001, OTHER),
        Socket::Further => waiting(1002, FURTHER),
        Socket::Listener => Card {
            local: 0,
            lport: 90,
            remote: 0,
            rport: 0,
            dev: 0,
            net: 0,
            kind: Kind::Listen,
            name: 4,
            extra: 0,
            mark: 0,
        },
    }
}

/// What is changed in the middle of a lookup of the packet: at which of its steps, and what.
#[derive(Clone, Copy)]
enum Row {
    /// Before the link of the first slot is loaded, its card goes, and a listener takes the slot.
    Elsewhere,
    /// The same, and a card of the same bucket takes the slot.
    AtHead,
    /// The same, and nothing takes the slot.
    Gone,
    /// Before the sought card's count is taken, the card goes.
    Dead,
    /// The same, and a listener takes the slot.
    Changed,
    /// Before the last slot's link is loaded, its card goes and comes back; then the first one's does.
    Round,
    /// Before the first slot's key is loaded, its card goes, and the sought one is written into the slot, but not
    /// linked.
    Filled,
}

/// Changes the chains at steps of a lookup, with a pass of its own.
#[derive(Drop)]
struct Meddler<'a, R: Wait> {
    rt: &'a R,
    chains: &'a Chains,
    pass: Pass,
    row: Row,
    stage: u32,
    left: u32,
    ghost layout: { layout_of chains.now
        ≡ record { shape = record { slots = 2; bind = 1; hash = 1; listen = 1 }; seed = 7 } },
    ghost ready: { 0 < left → IsReady chains.now pass left },
}

impl<'a, R: Wait> Meddler<'a, R> {
    fn drop_wait(&mut self, name: u64) {
        self.stage = self.stage.saturating_add(1);
        if self.left > 0 {
            let rest = self.left - 1;
            unhash_wait_in(self.chains, self.rt, &mut self.pass, BUCKET, name, rest);
            self.left = rest;
        }
    }

    fn add(&mut self, socket: Socket) {
        if self.left > 0 {
            let rest = self.left - 1;
            let card = card_of(socket);
            let _place = hash_in(
                self.chains,
                self.rt,
                &mut self.pass,
                &PLAN,
                &card,
                rest,
                &mut Unhalted,
            );
            self.left = rest;
        }
    }

    /// Writes a card into a slot, and changes nothing from then on.
    fn fill(&mut self, socket: Socket) {
        if self.left > 0 {
            let rest = self.left - 1;
            self.left = 0;
            fill_in(
                self.chains,
                self.rt,
                &mut self.pass,
                BUCKET,
                &card_of(socket),
                rest,
            );
        }
    }
}

impl<'a, R: Wait> Pace for Meddler<'a, R> {
    fn step(&mut self, at: Point) {
        match (self.row, self.stage, at) {
            (Row::Elsewhere, 0, Point::Link(1)) => {
                self.drop_wait(OTHER);
                self.add(Socket::Listener);
            }
            (Row::AtHead, 0, Point::Link(1)) => {
                self.drop_wait(OTHER);
                self.add(Socket::Further);
            }
            (Row::Gone, 0, Point::Link(1)) => self.drop_wait(OTHER),
            (Row::Dead, 0, Point::Take(0)) => self.drop_wait(SOUGHT),
            (Row::Changed, 0, Point::Take(0)) => {
                self.drop_wait(SOUGHT);
                self.add(Socket::Listener);
            }
            (Row::Round, 0, Point::Link(0)) => {
                self.drop_wait(FURTHER);
                self.add(Socket::Further);
            }
            (Row::Round, 1, Point::Link(1)) => {
                self.drop_wait(OTHER);
                self.add(Socket::Other);
            }
            (Row::Filled, 0, Point::Key(0)) => {
                self.drop_wait(FURTHER);
                self.fill(Socket::Sought);
            }
            _ => {}
        }
    }
}

/// What the lookup answers that meets the row's changes, in so many passes: of a new table with these sockets in one
/// chain, the last one first.
fn met<R: Wait>(
    rt: &R,
    chains: &Chains,
    pass: Pass,
    mut looking: Steps,
    row: Row,
    sockets: &[Socket],
    passes: u32,
) -> Answer
    requires layout { layout_of chains.now
        ≡ record { shape = record { slots = 2; bind = 1; hash = 1; listen = 1 }; seed = 7 } }
    requires ready { IsReady chains.now pass 8 }
    requires looking { IsOf chains.now looking × CanLook (view looking) }
    requires passes { 0 < passes }
{
    let mut meddler = Meddler {
        rt,
        chains,
        pass,
        row,
        stage: 0,
        left: 8,
    };
    for socket in sockets {
        meddler.add(*socket);
    }
    look_in(chains, &mut looking, BUCKET, &PACKET, passes, &mut meddler)
}

#[test]
fn a_lookup_meets_changes(rt: HostRuntime) -> Result<(), Fail> {
    let behind = [Socket::Sought, Socket::Other];
    let alone = [Socket::Sought];
    let neither = [Socket::Further, Socket::Other];
    let further = [Socket::Further];
    for (row, sockets, passes, expected) in [
        (Row::Elsewhere, &behind as &[Socket], 1, Answer::Foreign(1)),
        (Row::Elsewhere, &behind, 2, Answer::Found(SOUGHT)),
        (Row::AtHead, &behind, 1, Answer::Found(SOUGHT)),
        (Row::Gone, &behind, 1, Answer::Found(SOUGHT)),
        (Row::Dead, &alone, 1, Answer::Dead(0)),
        (Row::Dead, &alone, 2, Answer::None),
        (Row::Changed, &alone, 1, Answer::Changed(0)),
        (Row::Changed, &alone, 2, Answer::None),
        (Row::Round, &neither, 1, Answer::Long(3)),
        (Row::Filled, &further, 1, Answer::Dead(0)),
    ] {
        let (chains, mut pass) = Chains::new(rt.alloc(), PLAN.shape, PLAN.seed)?;
        let mut changing = chains.split(rt.alloc(), &mut pass);
        changing.reserve(8)?;
        let Pass {
            steps: looking,
            changes: _,
        } = pass;
        let answer = met(&rt, &chains, changing, looking, row, sockets, passes);
        assert_eq!(rt; answer, expected);
    }
    Ok(())
}
