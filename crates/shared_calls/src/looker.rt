//! A looker: lookups in the shared tables, which lock nothing.

ghost use Rattle.std.specs.Prelude.{◌<◌};
ghost use Rattle.shared_calls.specs.Lookings.{Looks, LooksAfter};

use chain_book::PacketLook;
use demux::{Lookups, look_packet};
use null_reader::Still;
use reuseport_group::GroupPasses;
use sock_card::Packet;
use sock_ops::{ChainPass, Tables};
use std::marker::Model;
use std::sync::Arc;

/// A thread's part in the lookups of shared tables.
#[derive(Drop)]
pub struct Looker {
    pub(crate) tables: Arc<Tables>,
    pub(crate) chain: ChainPass,
    pub(crate) groups: GroupPasses,
    pub(crate) tag: u64,
}

impl Model for Looker {
    ghost use Rattle.std.specs.Arc.{arc_value};
    ghost use Rattle.shared_calls.specs.Lookings.{Looking, IsLooking, looking};

    ghost Value = { Looking };

    ghost view = { λ l. looking (arc_value l.tables) l.chain l.groups l.tag };

    ghost invariant = { λ l. IsLooking (looking (arc_value l.tables) l.chain l.groups l.tag) };
}

impl Looker {
    /// Which socket takes a packet, and between which two numbers of the clock that was so.
    ///
    /// It locks nothing, waits for nobody and takes no memory. Each of the three searches through chains makes at
    /// most so many passes: where others changed a chain at each of them, the answer is `Again`, and the caller may
    /// try anew.
    pub fn look(&mut self, packet: &Packet, passes: u32) -> PacketLook
        requires { 0 < passes }
        ensures { Looks self.old self.new packet.now passes result }
    {
        let tables: &Tables = &self.tables;
        let lookups = Lookups {
            chains: &tables.chains.chains,
            groups: &tables.groups,
            layout: tables.chains.layout,
        };
        look_packet(
            &lookups,
            &mut self.chain.pass.steps,
            &mut self.groups,
            packet,
            passes,
            &mut Still,
        )
    }

    /// [`Looker::look`] that began once the clock was at that number; one that began before says nothing. A number that
    /// somebody knows of the clock never lies behind it, so one that [`Caller::now`](crate::Caller::now) answered
    /// before this call is reached.
    pub fn look_after(&mut self, packet: &Packet, passes: u32, after: u64) -> Option<PacketLook>
        requires { 0 < passes }
        ensures { LooksAfter self.old self.new packet.now passes after result }
    {
        let look = self.look(packet, passes);
        if look.t0 < after { None } else { Some(look) }
    }
}
