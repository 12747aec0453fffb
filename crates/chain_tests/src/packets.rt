//! A packet in tables in which nothing was hashed, step by step.

ghost use Rattle.std.specs.Prelude.{◌≡◌, ◌<◌, []};
ghost use Rattle.null_reader.specs.Looked.{HasTwo};
ghost use Rattle.reuseport_group.specs.Passes as group_words;
ghost use Rattle.established.specs.Homes.{IsLaidOut};
ghost use Rattle.table_rule.specs.Passes.{IsPassOf, known};

use chain_book::{PacketAnswer, PacketLook, Shape};
use demux::{Lookups, look_packet};
use null_reader::{Pace, Point};
use reuseport_group::{GroupPasses, Groups};
use sock_card::Packet;
use std::process::Abort;
use std::test::Fail;
use table_rule::{Chains, Layout, Pass};

const SHAPE: Shape = Shape {
    slots: 2,
    bind: 1,
    hash: 2,
    listen: 2,
};

const PACKET: Packet = Packet {
    src: 0x0a00_0002,
    sport: 1000,
    dst: 0x0a00_0001,
    dport: 80,
    dev: 0,
    net: 0,
};

/// How many steps were made.
#[derive(Drop)]
struct Count {
    steps: u8,
}

impl Pace for Count {
    fn step(&mut self, _at: Point) {
        self.steps = self.steps.wrapping_add(1);
    }
}

// Each of the three lookups loads the clock, a head and the clock; the last step is the whole lookup's own.
fn check_none(rt: &impl Abort, tables: &Lookups, pass: &mut Pass, group_passes: &mut GroupPasses)
    requires table { IsPassOf tables.now.chains.now pass.old }
    requires layout { IsLaidOut tables.now.layout tables.now.chains.now }
    requires idle { (known pass.old).read.reader ≡ [] }
    requires room { HasTwo (known pass.old) }
    requires groups { group_words.IsPassOf tables.now.groups.now group_passes.old }
{
    let mut pace = Count { steps: 0 };
    let look = look_packet(tables, &mut pass.steps, group_passes, &PACKET, 1, &mut pace);
    let nobody = PacketLook {
        end: PacketAnswer::None,
        t0: 0,
        t1: 0,
    };
    assert_eq!(rt; (look, pace.steps), (nobody, 10));
}

#[test]
fn new_tables_have_nobody(rt: HostRuntime) -> Result<(), Fail> {
    let (chains, mut pass) = Chains::new(rt.alloc(), SHAPE, 7)?;
    let (groups, mut group_passes) = Groups::new(rt.alloc(), 8)?;
    let tables = Lookups {
        chains: &chains,
        groups: &groups,
        layout: Layout {
            shape: SHAPE,
            seed: 7,
        },
    };
    check_none(&rt, &tables, &mut pass, &mut group_passes);
    Ok(())
}
