//! A chain that is walked after each of its changes.

ghost use Rattle.std.specs.Prelude.{◌≡◌, ◌<◌};
ghost use Rattle.table_rule.specs.Calls.{layout_of};
ghost use Rattle.chain_tests.specs.Ready.{IsReady};

use crate::calls::{Names, Plan, hash_in, names_in, unhash_wait_in};
use chain_book::{Act, Change, Shape};
use nulls_chain::Unhalted;
use sock_card::{Card, Kind};
use std::process::Abort;
use std::sync::Wait;
use std::test::Fail;
use table_rule::{Chains, Pass};

const PLAN: Plan = Plan {
    shape: Shape {
        slots: 2,
        bind: 1,
        hash: 1,
        listen: 1,
    },
    seed: 7,
};

/// The bucket of all TIME_WAITs.
const BUCKET: u32 = 0;

/// A TIME_WAIT that comes first,
const EARLIER: Card = Card {
    local: 0x0a00_0001,
    lport: 80,
    remote: 0x0a00_0002,
    rport: 1000,
    dev: 0,
    net: 0,
    kind: Kind::TimeWait,
    name: 1,
    extra: 0,
    mark: 0,
};

/// and one that comes after it.
const LATER: Card = Card {
    local: 0x0a00_0001,
    lport: 80,
    remote: 0x0a00_0002,
    rport: 1001,
    dev: 0,
    net: 0,
    kind: Kind::TimeWait,
    name: 2,
    extra: 0,
    mark: 0,
};

/// Hashes the two cards, and takes the earlier one out: the names in the chain before that and after it.
fn walks<R: Wait>(rt: &R, chains: &Chains, pass: &mut Pass) -> Option<(Names, Names)>
    requires layout { layout_of chains.now
        ≡ record { shape = record { slots = 2; bind = 1; hash = 1; listen = 1 }; seed = 7 } }
    requires ready { IsReady chains.now pass.old 3 }
{
    hash_in(chains, rt, pass, &PLAN, &EARLIER, 2, &mut Unhalted).ok()?;
    hash_in(chains, rt, pass, &PLAN, &LATER, 1, &mut Unhalted).ok()?;
    let before = names_in(chains, rt, pass, BUCKET, 1);
    unhash_wait_in(chains, rt, pass, BUCKET, 1, 0)?;
    Some((before, names_in(chains, rt, pass, BUCKET, 0)))
}

fn change(card: Card, slot: u32, act: Act, begin: u64) -> Change
    requires { begin < 10 }
{
    Change {
        bucket: BUCKET,
        slot,
        card,
        act,
        begin,
        end: begin + 1,
    }
}

#[test]
fn a_chain_is_walked(rt: HostRuntime) -> Result<(), Fail> {
    let (chains, mut pass) = Chains::new(rt.alloc(), PLAN.shape, PLAN.seed)?;
    pass.reserve(3)?;
    let walks = walks(&rt, &chains, &mut pass);
    let both = (Some(2), Some(1), true);
    let alone = (Some(2), None, true);
    assert_eq!(rt; walks, Some((both, alone)));
    let changes = [
        change(EARLIER, 0, Act::Hash, 0),
        change(LATER, 1, Act::Hash, 2),
        change(EARLIER, 0, Act::Unhash, 4),
    ];
    assert!(rt; pass.changes() == changes.as_slice());
    Ok(())
}
