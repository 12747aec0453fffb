//! Lookups in a table in which nothing was hashed.

ghost use Rattle.std.specs.Prelude.{◌≡◌, ◌<◌, []};
ghost use Rattle.null_reader.specs.Looked.{HasTwo};
ghost use Rattle.table_rule.specs.Calls.{layout_of};
ghost use Rattle.table_rule.specs.Passes.{IsPassOf, known};
ghost use Rattle.table_rule.specs.Words.{bucket_count};

use chain_book::Shape;
use null_reader::answers::{Look, LookEnd, Still};
use null_reader::look;
use sock_card::Packet;
use sock_slots::put;
use std::process::Abort;
use std::test::Fail;
use table_rule::{Chains, Pass};

const SHAPE: Shape = Shape {
    slots: 2,
    bind: 1,
    hash: 1,
    listen: 1,
};

const PACKET: Packet = Packet {
    src: 0x0a00_0002,
    sport: 1000,
    dst: 0x0a00_0001,
    dport: 80,
    dev: 0,
    net: 0,
};

fn check_none(rt: &impl Abort, chains: &Chains, pass: &mut Pass, bucket: u32)
    requires table { IsPassOf chains.now pass.old }
    requires bucket { bucket < bucket_count (layout_of chains.now) }
    requires idle { (known pass.old).read.reader ≡ [] }
    requires room { HasTwo (known pass.old) }
{
    let Look { end, t0, t1 } = look(chains, &mut pass.steps, bucket, &PACKET, 1, 1, &mut Still);
    let found = match end {
        LookEnd::Found(held, _) => {
            put(chains, &mut pass.steps, held);
            2
        }
        LookEnd::None => 0,
        LookEnd::Again(_, _) => 1,
    };
    assert_eq!(rt; (found, t0, t1), (0, 0, 0));
}

#[test]
fn a_new_table_has_nothing(rt: HostRuntime) -> Result<(), Fail> {
    let (chains, mut pass) = Chains::new(rt.alloc(), SHAPE, 7)?;
    check_none(&rt, &chains, &mut pass, 0);
    Ok(())
}
