//! Lookers: each looks the items of a capture up whose tickets it draws, beside the sections. They lock nothing.

ghost use Rattle.std.specs.Prelude.{◌≡◌, ◌<◌, length, IfOk};
ghost use Rattle.race_run.specs.Lookers.{IsTold};
ghost use Rattle.race_run.specs.Looking.{MayLook, LooksUp, TakesItem, TakesAll};
ghost use Rattle.race_run.specs.Shares.{HasDrawnNothing, HasTold};
ghost use Rattle.reuseport_group.specs.Passes.{IsPassOf};
ghost use Rattle.table_rule.specs.Calls.{me};
ghost use Rattle.table_rule.specs.Passes.{known};
ghost use Rattle.tickets.specs.Passes.{HasMissed, tickets as tickets_of};

use capture_reader::Item;
use chain_book::{PacketAnswer, PacketLook, Receipt};
use demux::{Lookups, look_packet};
use inet_io::{Gate, Who};
use null_reader::Pace;
use race_record::Looked;
use reuseport_group::{GroupPasses, Groups};
use sock_card::{Packet, pack};
use sock_ops::{ChainPass, ChainTable};
use std::alloc::{AllocError, Global};
use tickets::{TicketPass, Tickets};

/// What a looker has of one item: its number in the capture, from 0, and what came of it.
#[derive(Clone, Copy, Debug, PartialEq, Eq)]
pub struct Look {
    pub item: u32,
    pub looked: Looked,
}

/// The card that was found is the one that its words say.
fn know_card(answer: &PacketAnswer)
    ensures { IsTold answer.now }
{
    if let PacketAnswer::Found(card) = answer {
        let _words = pack(card);
    }
}

/// Looks a packet up.
fn look_one<P: Pace>(
    table: &ChainTable,
    groups: &Groups,
    pass: &mut ChainPass,
    group_passes: &mut GroupPasses,
    packet: &Packet,
    passes: u32,
    pace: &mut P,
) -> Receipt
    requires looks { MayLook table.now pass.old }
    requires groups { IsPassOf groups.now group_passes.old }
    requires passes { 0 < passes }
    ensures looks { MayLook table.now pass.new }
    ensures groups { IsPassOf groups.now group_passes.new }
    ensures part { (known pass.new.pass).slot.parts ≡ (known pass.old.pass).slot.parts }
    ensures up { LooksUp table.now passes packet.now (me pass.old.pass.steps) (me pass.new.pass.steps) result }
{
    let tables = Lookups {
        chains: &table.chains,
        groups,
        layout: table.layout,
    };
    let PacketLook { end, t0, t1 } = look_packet(
        &tables,
        &mut pass.pass.steps,
        group_passes,
        packet,
        passes,
        pace,
    );
    know_card(&end);
    Receipt {
        packet: *packet,
        seed: table.layout.seed,
        answer: end,
        t0,
        t1,
    }
}

/// Looks an item up, if it is a packet.
fn look_item<P: Pace>(
    table: &ChainTable,
    groups: &Groups,
    pass: &mut ChainPass,
    group_passes: &mut GroupPasses,
    item: &Item,
    passes: u32,
    pace: &mut P,
) -> Looked
    requires looks { MayLook table.now pass.old }
    requires groups { IsPassOf groups.now group_passes.old }
    requires passes { 0 < passes }
    ensures looks { MayLook table.now pass.new }
    ensures groups { IsPassOf groups.now group_passes.new }
    ensures part { (known pass.new.pass).slot.parts ≡ (known pass.old.pass).slot.parts }
    ensures takes { TakesItem table.now passes item.now (me pass.old.pass.steps) (me pass.new.pass.steps) result }
{
    match item {
        Item::Packet(packet) => Looked::Answered(look_one(
            table,
            groups,
            pass,
            group_passes,
            packet,
            passes,
            pace,
        )),
        Item::Skip => Looked::Skip,
        Item::Short => Looked::Short,
    }
}

/// Looks the items up whose tickets it draws, one after the other, until none is left; each behind the gate of the
/// looker of that number.
///
/// # Errors
///
/// Memory ran out.
pub fn look_drawn<P: Pace, G: Gate>(
    alloc: Global,
    table: &ChainTable,
    groups: &Groups,
    pass: &mut ChainPass,
    group_passes: &mut GroupPasses,
    items: &[Item],
    tickets: &Tickets,
    draws: &mut TicketPass,
    passes: u32,
    pace: &mut P,
    looker: u32,
    gate: &G,
) -> Result<Vec<Look>, AllocError>
    requires looks { MayLook table.now pass.old }
    requires groups { IsPassOf groups.now group_passes.old }
    requires tickets { tickets_of tickets.now ≡ length items.now }
    requires draws { HasDrawnNothing tickets.now draws.old }
    requires passes { 0 < passes }
    ensures looks { IfOk result (λ told. MayLook table.now pass.new) }
    ensures groups { IfOk result (λ told. IsPassOf groups.now group_passes.new) }
    ensures part { IfOk result (λ told. (known pass.new.pass).slot.parts ≡ (known pass.old.pass).slot.parts) }
    ensures draws { IfOk result (λ told. HasTold tickets.now draws.new told.items) }
    ensures missed { IfOk result (λ told. HasMissed draws.new) }
    ensures takes { IfOk result
        (λ told. TakesAll table.now passes items.now (me pass.old.pass.steps) (me pass.new.pass.steps) told.items) }
{
    let mut told = Vec::new(alloc);
    while let Some(item) = tickets.next(draws) {
        gate.pass(Who::Looker(looker), u64::from(item) + 1);
        let found = &items[item as usize];
        let looked = look_item(table, groups, pass, group_passes, found, passes, pace);
        told.push(Look { item, looked })?;
    }
    Ok(told)
}
