//! Many lookups by one looker, one after the other.

ghost use Rattle.std.specs.Prelude.{◌≡◌, ◌<◌, length};
ghost use Rattle.shared_calls.specs.Batches as spec;
ghost use Rattle.shared_calls.specs.Batches.{LooksMany, Sees};

use crate::looker::Looker;
use chain_book::{PacketAnswer, PacketLook};
use flat_calls::sight::kind_of;
use sock_card::Packet;

/// A packet that is asked about: its ends, the device by which it came in and its network namespace.
#[repr(C)]
#[derive(Clone, Copy, Debug, PartialEq, Eq)]
pub struct Asking {
    pub src: u32,
    pub dst: u32,
    pub sport: u16,
    pub dport: u16,
    pub dev: u16,
    pub net: u8,
}

/// What a lookup of a batch says: the kind of socket (1 connected, 2 in TIME_WAIT, 3 a listener, 4 a request), its
/// worker, its number and its mark; all 0 where no socket takes the packet; and kind 7 where the lookup gave no answer, and can be
/// made again.
#[repr(C)]
#[derive(Clone, Copy, Debug, PartialEq, Eq)]
pub struct Sighting {
    pub kind: u32,
    pub worker: u32,
    pub socket: u64,
    pub mark: u32,
}

fn packet_of(asking: &Asking) -> Packet
    ensures { result ≡ spec.packet_of asking.now }
{
    Packet {
        src: asking.src,
        sport: asking.sport,
        dst: asking.dst,
        dport: asking.dport,
        dev: asking.dev,
        net: asking.net,
    }
}

fn told_by(answer: &PacketAnswer) -> Sighting
    ensures { result ≡ spec.told_by answer.now }
{
    match answer {
        PacketAnswer::Found(card) => Sighting {
            kind: kind_of(card.kind),
            worker: (card.name >> 56) as u32,
            socket: card.name & 0xFF_FFFF_FFFF_FFFF,
            mark: card.mark,
        },
        PacketAnswer::None => Sighting {
            kind: 0,
            worker: 0,
            socket: 0,
            mark: 0,
        },
        PacketAnswer::Again(..) => Sighting {
            kind: 7,
            worker: 0,
            socket: 0,
            mark: 0,
        },
    }
}

fn told_of(found: &Option<PacketLook>) -> Sighting
    ensures { result ≡ spec.told_of found.now }
{
    match found {
        Some(look) => told_by(&look.end),
        None => Sighting {
            kind: 7,
            worker: 0,
            socket: 0,
            mark: 0,
        },
    }
}

impl Looker {
    /// [`Looker::look_after`], as numbers.
    pub fn sight(&mut self, asking: &Asking, passes: u32, after: u64) -> Sighting
        requires { 0 < passes }
        ensures { Sees passes after self.old asking.now result self.new }
    {
        let found = self.look_after(&packet_of(asking), passes, after);
        told_of(&found)
    }

    /// A lookup for each of these packets, in their order: what it says stands at the packet's place. None of them
    /// keeps the others from an answer.
    pub fn sight_all(
        &mut self,
        packets: &[Asking],
        passes: u32,
        after: u64,
        sightings: &mut [Sighting],
    )
        requires passes { 0 < passes }
        requires room { length sightings.old ≡ length packets.now }
        ensures { LooksMany passes after self.old packets.now sightings.new self.new }
    {
        for i in 0..packets.len() {
            sightings[i] = self.sight(&packets[i], passes, after);
        }
    }
}
