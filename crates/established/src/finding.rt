//! The lookup of a connected socket.

ghost use Rattle.std.specs.Prelude.{◌≡◌, ◌<◌, ◌≤◌, []};
ghost use Rattle.table_rule.specs.Calls.{IsOf, view, me, layout_of};
ghost use Rattle.null_reader.specs.Looked.{HasTwo, LookedAs, IsWhole, SoleAs, KnownAs, HadEnded, IsInside, MadeFew, OwnAs, words_end};
ghost use Rattle.established.specs.Homes.{IsLaidOut, full_home};
ghost use Rattle.established.specs.Finds.{FindsFull};

use chain_book::packet_home;
use null_reader::answers::Look;
use null_reader::{Pace, look};
use sock_card::Packet;
use table_rule::{Chains, Layout, Steps};

/// Looks up the connected socket of a packet, its request or its TIME_WAIT: a card of rank 5, in the chain of the
/// packet's four-tuple, in at most so many passes.
///
/// It locks nothing, waits for nobody and takes no memory. What it found is held, and must be put.
pub fn find<P: Pace>(
    chains: &Chains,
    layout: &Layout,
    steps: &mut Steps,
    packet: &Packet,
    passes: u32,
    pace: &mut P,
) -> Look
    requires table { IsOf chains.now steps.old }
    requires layout { IsLaidOut layout.now chains.now }
    requires idle { (view steps.old).read.reader ≡ [] }
    requires room { HasTwo (view steps.old) }
    requires passes { 0 < passes }
    ensures table { IsOf chains.now steps.new }
    ensures fresh { (view steps.old).seen ≤ result.t0 }
    ensures span { result.t0 ≤ result.t1 }
    ensures looked { LookedAs (full_home layout.now packet.now) packet.now 5 passes (me steps.old)
        (words_end result.end) result.t0 result.t1 (me steps.new) }
    ensures finds { FindsFull layout.now packet.now (me steps.old) result.end result.t0 (me steps.new) }
    ensures inside { IsInside (layout_of chains.now) (words_end result.end) }
    ensures sole { IsWhole (view steps.old)
        → SoleAs (full_home layout.now packet.now) packet.now 5 (view steps.old) (words_end result.end) }
    ensures known { KnownAs (full_home layout.now packet.now) packet.now 5 (view steps.old)
        (words_end result.end) result.t0 }
    ensures before { HadEnded (view steps.old) result.t0 }
    ensures few { MadeFew passes (me steps.old) (words_end result.end) (me steps.new) }
    ensures own { OwnAs (view steps.old) result.t1 (view steps.new) }
{
    let bucket = packet_home(&layout.shape, layout.seed, packet);
    look(chains, steps, bucket, packet, 5, passes, pace)
}
