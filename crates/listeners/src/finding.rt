//! The lookup of a listener.

ghost use Rattle.std.specs.Prelude.{◌≡◌, ◌<◌, ◌≤◌, []};
ghost use Rattle.table_rule.specs.Calls.{IsOf, view, me, layout_of};
ghost use Rattle.null_reader.specs.Looked.{HasTwo, IsWhole, IsInside, words_end};
ghost use Rattle.established.specs.Homes.{IsLaidOut};
ghost use Rattle.listeners.specs.Finds.{FindsListener, InOrder, FewInOrder, OwnInOrder, SoleListener, KnownListener};

use chain_book::listen_home;
use null_reader::answers::Look;
use null_reader::{LookEnd, Pace, look};
use sock_card::Packet;
use table_rule::{Chains, Layout, Steps};

/// Looks up the listener of a packet: at the packet's own address with ranks from 3, and where none is there at any
/// address, with ranks from 1.
///
/// Each of the two lookups makes at most so many passes, and the first one that doesn't answer None decides. What it
/// found is held, and must be put. It locks nothing, waits for nobody and takes no memory.
///
/// Where a slot of the chain is taken for another card meanwhile, what is found may be a connected socket's card: it
/// matched the packet, and no better one was there throughout.
pub fn find<P: Pace>(
    chains: &Chains,
    layout: &Layout,
    steps: &mut Steps,
    packet: &Packet,
    passes: u32,
    pace: &mut P,
) -> Look
    requires table { IsOf chains.now steps.old }
    requires layout { IsLaidOut layout.now chains.now }
    requires idle { (view steps.old).read.reader ≡ [] }
    requires room { HasTwo (view steps.old) }
    requires passes { 0 < passes }
    ensures table { IsOf chains.now steps.new }
    ensures fresh { (view steps.old).seen ≤ result.t0 }
    ensures span { result.t0 ≤ result.t1 }
    ensures order { InOrder layout.now packet.now passes (me steps.old) result.end result.t0 result.t1 (me steps.new) }
    ensures finds { FindsListener layout.now packet.now (me steps.old) result.end result.t0 (me steps.new) }
    ensures inside { IsInside (layout_of chains.now) (words_end result.end) }
    ensures sole { IsWhole (view steps.old) → SoleListener layout.now packet.now (view steps.old) result.end }
    ensures known { KnownListener layout.now packet.now (view steps.old) result.end result.t0 }
    ensures few { FewInOrder passes (me steps.old) result.end (me steps.new) }
    ensures own { OwnInOrder (me steps.old) result.end result.t1 (me steps.new) }
{
    let exact = listen_home(
        &layout.shape,
        layout.seed,
        packet.dst,
        packet.dport,
        packet.net,
    );
    let Look { end, t0, t1 } = look(chains, steps, exact, packet, 3, passes, pace);
    match end {
        LookEnd::None => {
            let any = listen_home(&layout.shape, layout.seed, 0, packet.dport, packet.net);
            let Look { end, t0: _, t1 } = look(chains, steps, any, packet, 1, passes, pace);
            Look { end, t0, t1 }
        }
        LookEnd::Found(held, card) => Look {
            end: LookEnd::Found(held, card),
            t0,
            t1,
        },
        LookEnd::Again(bucket, stop) => Look {
            end: LookEnd::Again(bucket, stop),
            t0,
            t1,
        },
    }
}
