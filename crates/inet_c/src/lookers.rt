//! Lookers in shared tables, as C calls them.

ghost use Rattle.std.specs.Prelude.{◌≡◌, None};
ghost use Rattle.inet_c.specs.Asked.{LooksAll};
ghost use Rattle.inet_c.specs.Owned.{held};
ghost use Rattle.inet_c.specs.Returned as returned;
ghost use Rattle.inet_c.specs.Returned.{LookerReturns};
ghost use Rattle.inet_c.specs.Seen.{LookerLooks, nobody};
ghost use Rattle.inet_c.specs.Words.{IsNamespace};
ghost use Rattle.inet_c.specs.declared.errno.TheConstants.{EINVAL};
ghost use Rattle.inet_c.specs.declared.returning.Returning.{Returning};

use crate::errno::EINVAL;
use crate::kinds::{InetLooker, InetTables};
use crate::seen::{InetSight, NOBODY, look_by};
use crate::{asked, returning, words};
use shared_calls::{Asking, Sighting};
use sock_card::Packet;
use std::alloc::Global;

/// Gives a looker back to its shared tables, for the next who wants one. Its handle holds nothing then.
#[unsafe(no_mangle)]
pub extern "C" fn inet_looker_give_back(
    looker: &mut InetLooker,
    alloc: Global,
    tables: &mut InetTables,
) -> i32
    ensures { (returning : Returning) × LookerReturns (held tables.old.boxed) (held tables.new.boxed)
        (held looker.old.boxed) (held looker.new.boxed) returning × (result ≡ returned.errno_of returning) }
{
    returning::errno_of(returning::give_looker_back(looker, alloc, tables))
}

/// Gives up the looker that a handle holds, which holds nothing then. It is lost to its tables.
#[unsafe(no_mangle)]
pub extern "C" fn inet_looker_free(looker: &mut InetLooker, alloc: Global)
    ensures { looker.new.boxed ≡ None }
{
    drop(looker.take(alloc));
}

/// Which socket takes a packet from `src` and `sport` to `dst` and `dport` that came in at device `dev` in network
/// namespace `net`. EAGAIN where others changed a chain at each pass, or where the lookup began before the clock was at
/// `after`.
#[unsafe(no_mangle)]
pub extern "C" fn inet_looker_look(
    looker: &mut InetLooker,
    alloc: Global,
    src: u32,
    sport: u16,
    dst: u32,
    dport: u16,
    dev: u16,
    net: u8,
    after: u64,
    sight: &mut InetSight,
) -> i32
    ensures unfit { (IsNamespace net → ⊥)
        → (result ≡ EINVAL) × (sight.new ≡ nobody) × (looker.new.boxed ≡ looker.old.boxed) }
    ensures looks { IsNamespace net → LookerLooks (held looker.old.boxed) (held looker.new.boxed)
        (record { src = src; sport = sport; dst = dst; dport = dport; dev = dev; net = net }) after sight.new result }
{
    if !words::is_namespace(net) {
        *sight = NOBODY;
        return EINVAL;
    }
    let packet = Packet {
        src,
        sport,
        dst,
        dport,
        dev,
        net,
    };
    look_by(looker, alloc, &packet, after, sight)
}

/// Which sockets take these packets, each as `inet_looker_look` has it, at the packet's place: kind 7 where that would be
/// EAGAIN, or where the lookup began before the clock was at `after`.
#[unsafe(no_mangle)]
pub extern "C" fn inet_looker_look_all(
    looker: &mut InetLooker,
    alloc: Global,
    packets: &[Asking],
    after: u64,
    sights: &mut [Sighting],
) -> i32
    ensures { LooksAll (held looker.old.boxed) (held looker.new.boxed) packets.now after sights.old sights.new result }
{
    asked::look_all(looker, alloc, packets, after, sights)
}
