//! Lookups through a handle.

ghost use Rattle.std.specs.Prelude.{◌≡◌};
ghost use Rattle.inet_c.specs.Owned.{held};
ghost use Rattle.inet_c.specs.Seen as spec;
ghost use Rattle.inet_c.specs.Seen.{ListLooks, LookerLooks};

use crate::errno::{EAGAIN, EBADF};
use crate::kinds::{InetList, InetLooker};
use chain_book::{PacketAnswer, PacketLook};
use flat_calls::Sight;
use flat_calls::sight::kind_of;
use sock_card::Packet;
use std::alloc::Global;

/// How many passes a looker makes through a chain at most, before it gives up.
pub const PASSES: u32 = 16;

/// What a lookup reports: the kind of socket (1 connected, 2 in TIME_WAIT, 3 a listener, 4 a request), its worker, its
/// number and its mark; all 0 where no socket takes the packet.
#[repr(C)]
#[derive(Clone, Copy, Debug, PartialEq, Eq)]
pub struct InetSight {
    pub kind: u32,
    pub worker: u32,
    pub socket: u64,
    pub mark: u32,
}

/// No socket.
pub const NOBODY: InetSight = InetSight {
    kind: 0,
    worker: 0,
    socket: 0,
    mark: 0,
};

fn told(found: Option<Sight>) -> InetSight
    ensures { result ≡ spec.told found }
{
    match found {
        None => NOBODY,
        Some(
            Sight {
                kind,
                worker,
                socket,
            },
        ) => InetSight {
            kind,
            worker,
            socket,
            mark: 0,
        },
    }
}

/// What a looker's answer says, and its number of errno(3).
fn told_by(answer: &PacketAnswer) -> (InetSight, i32)
    ensures sight { result.0 ≡ spec.told_by answer.now }
    ensures errno { result.1 ≡ spec.errno_by answer.now }
{
    match answer {
        PacketAnswer::Found(card) => {
            let sight = InetSight {
                kind: kind_of(card.kind),
                worker: (card.name >> 56) as u32,
                socket: card.name & 0xFF_FFFF_FFFF_FFFF,
                mark: card.mark,
            };
            (sight, 0)
        }
        PacketAnswer::None => (NOBODY, 0),
        PacketAnswer::Again(..) => (NOBODY, EAGAIN),
    }
}

/// What a looker's lookup says, or one that began too early.
fn told_of(found: &Option<PacketLook>) -> (InetSight, i32)
    ensures sight { result.0 ≡ spec.told_of found.now }
    ensures errno { result.1 ≡ spec.errno_of found.now }
{
    match found {
        Some(look) => told_by(&look.end),
        None => (NOBODY, EAGAIN),
    }
}

/// Looks a packet up in a list, and answers 0, or EBADF where there is none.
pub fn look_in_list(
    list: &mut InetList,
    alloc: Global,
    packet: &Packet,
    sight: &mut InetSight,
) -> i32
    ensures same { list.new.boxed ≡ list.old.boxed }
    ensures looks { ListLooks (held list.old.boxed) packet.now sight.new result }
{
    match list.take(alloc) {
        None => {
            *sight = NOBODY;
            EBADF
        }
        Some(tables) => {
            *sight = told(tables.look(packet));
            *list = InetList::of(tables);
            0
        }
    }
}

/// Looks a packet up by a looker, and answers 0, EAGAIN where others changed the chains each time or the lookup began
/// before the clock was at `after`, or EBADF where there is none.
pub fn look_by(
    looker: &mut InetLooker,
    alloc: Global,
    packet: &Packet,
    after: u64,
    sight: &mut InetSight,
) -> i32
    ensures { LookerLooks (held looker.old.boxed) (held looker.new.boxed) packet.now after sight.new result }
{
    match looker.take(alloc) {
        None => {
            *sight = NOBODY;
            EBADF
        }
        Some(mut held) => {
            let found = held.look_after(packet, PASSES, after);
            let (told, errno) = told_of(&found);
            *sight = told;
            *looker = InetLooker::of(held);
            errno
        }
    }
}
