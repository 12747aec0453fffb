//! The lookup of a packet: connected sockets, then listeners, then the choice of a group.

ghost use Rattle.std.specs.Prelude.{◌≡◌, ◌^◌, ◌<◌, ◌≤◌, []};
ghost use Rattle.null_reader.specs.Looked.{HasTwo, IsWhole, IsStopInside};
ghost use Rattle.reuseport_group.specs.Passes as group_words;
ghost use Rattle.reuseport_group.specs.Passes.{IsPassOf};
ghost use Rattle.demux.specs.Chosen.{LeavesLists};
ghost use Rattle.demux.specs.Concludes as spec;
ghost use Rattle.demux.specs.Concludes.{Concluded, ByOrder, ByListener, whole_to, DrewAll};
ghost use Rattle.established.specs.Homes.{IsLaidOut, full_home};
ghost use Rattle.table_rule.specs.Alone.{mine, IsAlone, IsSoleWhole, IsKnownWhole};
ghost use Rattle.table_rule.specs.Calls.{IsOf, view, me, layout_of, Becomes};
ghost use Rattle.table_rule.specs.Explained.{IsWholeExplained};
ghost use Rattle.table_rule.specs.LookCalls.{place_of};
ghost use Rattle.table_rule.specs.Plays.{summing, with_kept, letting_go, drop_at};
ghost use Rattle.table_rule.specs.ReadersOk.{keeps_at};
ghost use Rattle.table_rule.specs.Words.{bucket_count};
ghost use Rattle.table_rule.specs.Wholes.{Clears, Follows, whole_of};

use super::group::by_group;
use chain_book::{PacketAnswer, PacketLook, PassEnd};
use null_reader::answers::Look;
use null_reader::{LookEnd, Pace, PassEnd as LookStop, Point};
use reuseport_group::{GroupPasses, Groups};
use sock_card::Packet;
use sock_slots::{Held, put};
use table_rule::{Chains, Layout, Steps};

/// The tables in which packets are looked up: the chains, the groups, and by which numbers of chains and which seed
/// sockets have their chains.
#[derive(Drop)]
pub struct Lookups<'a> {
    pub chains: &'a Chains,
    pub groups: &'a Groups,
    pub layout: Layout,
}

/// How a pass ended, in a record's words.
fn book_end(chains: &Chains, stop: LookStop) -> PassEnd
    requires inside { IsStopInside (layout_of chains.now) stop }
    requires few { bucket_count (layout_of chains.now) < 2 ^ 32 }
    ensures { result ≡ spec.book_end stop }
{
    chains.slots_are_few();
    match stop {
        LookStop::Foreign(bucket) => PassEnd::Foreign(bucket as u32),
        LookStop::Dead(slot) => PassEnd::Dead(slot),
        LookStop::Changed(slot) => PassEnd::Changed(slot),
        LookStop::Long(links) => PassEnd::Long(links as u32),
    }
}

/// Gives back the count of the best.
fn put_best<P: Pace>(chains: &Chains, steps: &mut Steps, held: Held, pace: &mut P)
    requires table { IsOf chains.now steps.old }
    requires slot { held.slot < (layout_of chains.now).shape.slots }
    requires held { 0 < keeps_at held.slot (view steps.old).read }
    ensures table { IsOf chains.now steps.new }
    ensures put { Becomes steps.old steps.new
        (with_kept (letting_go (view steps.old) held.slot)
        (drop_at (place_of held.slot (view steps.old).read.kept) (view steps.old).read.kept)) }
{
    pace.step(Point::Put(held.slot));
    put(chains, steps, held);
}

// The end of a whole lookup: its receipt is made.
fn finish<P: Pace>(
    tables: &Lookups,
    steps: &mut Steps,
    packet: &Packet,
    from: u64,
    end: PacketAnswer,
    pace: &mut P,
) -> PacketLook
    requires table { IsOf tables.now.chains.now steps.old }
    requires follows { Follows (view steps.old) (whole_of packet.now tables.now.layout.seed from end) }
    ensures table { IsOf tables.now.chains.now steps.new }
    ensures answer { (result.end ≡ end) × (result.t0 ≡ from) }
    ensures seen { (view steps.old).seen ≤ result.t1 }
    ensures view { Becomes steps.old steps.new
        (summing (view steps.old) (whole_to packet.now tables.now.layout.seed from result.t1 result.end)) }
    ensures sole { IsAlone (view steps.old) from
        → IsSoleWhole (view steps.old) (whole_to packet.now tables.now.layout.seed from result.t1 result.end) }
    ensures known { IsKnownWhole (view steps.old)
        (whole_to packet.now tables.now.layout.seed from result.t1 result.end) }
    ensures own { DrewAll (view steps.old) result.t1
        → IsWholeExplained (mine (view steps.old)) (view steps.old).layout
        (whole_to packet.now tables.now.layout.seed from result.t1 result.end) }
{
    pace.step(Point::End);
    let t1 = tables
        .chains
        .step_clock_whole(steps, *packet, tables.layout.seed, from, end);
    PacketLook { end, t0: from, t1 }
}

// The lookup of a packet for which no connected socket was found.
fn look_listener<P: Pace>(
    tables: &Lookups,
    steps: &mut Steps,
    group_passes: &mut GroupPasses,
    packet: &Packet,
    passes: u32,
    from: u64,
    pace: &mut P,
) -> PacketLook
    requires table { IsOf tables.now.chains.now steps.old }
    requires layout { IsLaidOut tables.now.layout tables.now.chains.now }
    requires idle { (view steps.old).read.reader ≡ [] }
    requires room { HasTwo (view steps.old) }
    requires passes { 0 < passes }
    requires groups { IsPassOf tables.now.groups.now group_passes.old }
    requires low { from ≤ (view steps.old).seen }
    requires cleared { Clears (view steps.old).read packet.now from (full_home tables.now.layout packet.now) 5 0 }
    ensures table { IsOf tables.now.chains.now steps.new }
    ensures groups { IsPassOf tables.now.groups.now group_passes.new }
    ensures lists { LeavesLists group_passes.old group_passes.new }
    ensures from { result.t0 ≡ from }
    ensures span { (view steps.old).seen ≤ result.t1 }
    ensures concluded { Concluded (me steps.old) (whole_to packet.now tables.now.layout.seed from result.t1 result.end)
        (me steps.new) }
    ensures order { ByListener (layout_of tables.now.chains.now).shape.slots
        (group_words.groups tables.now.groups.now) tables.now.layout packet.now passes
        (me steps.old) group_passes.old result.end group_passes.new
        (whole_to packet.now tables.now.layout.seed from result.t1 result.end) (me steps.new) }
    ensures sole { IsAlone (view steps.old) from
        → IsSoleWhole (view steps.old) (whole_to packet.now tables.now.layout.seed from result.t1 result.end) }
    ensures known { IsKnownWhole (view steps.old)
        (whole_to packet.now tables.now.layout.seed from result.t1 result.end) }
    ensures own { DrewAll (view steps.old) result.t1
        → IsWholeExplained (mine (view steps.old)) (view steps.old).layout
        (whole_to packet.now tables.now.layout.seed from result.t1 result.end) }
{
    let chains = tables.chains;
    let layout = tables.layout;
    let Look { end, t0: _, t1: _ } = listeners::find(chains, &layout, steps, packet, passes, pace);
    match end {
        LookEnd::Found(held, best) => {
            let groups = tables.groups;
            let seed = layout.seed;
            let card = by_group(
                chains,
                groups,
                seed,
                steps,
                group_passes,
                packet,
                &best,
                pace,
            );
            put_best(chains, steps, held, pace);
            finish(tables, steps, packet, from, PacketAnswer::Found(card), pace)
        }
        LookEnd::None => finish(tables, steps, packet, from, PacketAnswer::None, pace),
        LookEnd::Again(bucket, stop) => {
            let stop = book_end(chains, stop);
            finish(
                tables,
                steps,
                packet,
                from,
                PacketAnswer::Again(bucket, stop),
                pace,
            )
        }
    }
}

/// Looks up the socket that takes a packet: connected sockets, then listeners, then the choice of the best's group.
///
/// Each of the three lookups through chains makes at most so many passes. It locks nothing, waits for nobody and
/// takes no memory, and lets each count go before it answers. Where a pass through a chain ends without an answer
/// each time, as others change that chain, it answers Again, of that chain and how the last pass ended:
/// the caller may try anew.
///
/// The clock is loaded first and last: what was found stood at some time between,
/// and nothing better stood throughout.
pub fn look_packet<P: Pace>(
    tables: &Lookups,
    steps: &mut Steps,
    group_passes: &mut GroupPasses,
    packet: &Packet,
    passes: u32,
    pace: &mut P,
) -> PacketLook
    requires table { IsOf tables.now.chains.now steps.old }
    requires layout { IsLaidOut tables.now.layout tables.now.chains.now }
    requires idle { (view steps.old).read.reader ≡ [] }
    requires room { HasTwo (view steps.old) }
    requires passes { 0 < passes }
    requires groups { IsPassOf tables.now.groups.now group_passes.old }
    ensures table { IsOf tables.now.chains.now steps.new }
    ensures groups { IsPassOf tables.now.groups.now group_passes.new }
    ensures lists { LeavesLists group_passes.old group_passes.new }
    ensures fresh { (view steps.old).seen ≤ result.t0 }
    ensures span { result.t0 ≤ result.t1 }
    ensures concluded { Concluded (me steps.old)
        (whole_to packet.now tables.now.layout.seed result.t0 result.t1 result.end) (me steps.new) }
    ensures order { ByOrder (layout_of tables.now.chains.now).shape.slots
        (group_words.groups tables.now.groups.now) tables.now.layout packet.now passes
        (me steps.old) group_passes.old result.end group_passes.new result.t0
        (whole_to packet.now tables.now.layout.seed result.t0 result.t1 result.end) (me steps.new) }
    ensures sole { IsWhole (view steps.old)
        → IsSoleWhole (view steps.old) (whole_to packet.now tables.now.layout.seed result.t0 result.t1 result.end) }
    ensures known { IsKnownWhole (view steps.old)
        (whole_to packet.now tables.now.layout.seed result.t0 result.t1 result.end) }
    ensures own { DrewAll (view steps.old) result.t1
        → IsWholeExplained (mine (view steps.old)) (view steps.old).layout
        (whole_to packet.now tables.now.layout.seed result.t0 result.t1 result.end) }
{
    let layout = tables.layout;
    let Look { end, t0, t1: _ } = established::find(
        tables.chains,
        &layout,
        steps,
        packet,
        passes,
        pace,
    );
    match end {
        LookEnd::Found(held, card) => {
            put_best(tables.chains, steps, held, pace);
            finish(tables, steps, packet, t0, PacketAnswer::Found(card), pace)
        }
        LookEnd::None => look_listener(tables, steps, group_passes, packet, passes, t0, pace),
        LookEnd::Again(bucket, stop) => {
            let stop = book_end(tables.chains, stop);
            finish(
                tables,
                steps,
                packet,
                t0,
                PacketAnswer::Again(bucket, stop),
                pace,
            )
        }
    }
}
