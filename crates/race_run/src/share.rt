//! A looker's share of a capture: the items whose tickets it draws.

ghost use Rattle.std.specs.Prelude.{◌≡◌, ℕ, ◌<◌, length, IfOk};
ghost use Rattle.flat_list.specs.declared.header.Header.{Header};
ghost use Rattle.race_run.specs.Lookers.{HasLooked};
ghost use Rattle.race_run.specs.Shares.{HasDrawnNothing, HasTold, IsFirstPass};
ghost use Rattle.race_run.specs.Workers.{AreTables, IsFresh, part_of};
ghost use Rattle.sock_ops.specs.Tables.{IsAtRest};
ghost use Rattle.tickets.specs.Passes.{HasMissed, tickets as tickets_of};
ghost use Rattle.turn_table.specs.Passes as words;

use crate::looker::{Look, look_drawn};
use capture_reader::Item;
use inet_io::Gate;
use null_reader::Still;
use sock_ops::{Tables, Worker};
use std::alloc::{AllocError, Global};
use tickets::{TicketPass, Tickets};

/// A ticket for each item, and the pass by which all of them can be drawn.
///
/// # Errors
///
/// Memory ran out. That is said of 2^32 items and more too, whose numbers no ticket has.
pub fn issue(alloc: Global, items: &[Item]) -> Result<(Tickets, TicketPass), AllocError>
    ensures tickets { IfOk result (λ t. tickets_of t.0 ≡ length items.now) }
    ensures first { IfOk result (λ t. IsFirstPass t.0 0 t.1) }
{
    let Ok(count) = u32::try_from(items.len()) else {
        return Err(AllocError);
    };
    Tickets::new(alloc, count)
}

/// Looks up the items whose tickets the looker of that number draws, until none is left.
///
/// # Errors
///
/// Memory ran out.
pub fn look_share<G: Gate>(
    alloc: Global,
    tables: &Tables,
    worker: &mut Worker,
    items: &[Item],
    tickets: &Tickets,
    draws: &mut TicketPass,
    passes: u32,
    looker: u32,
    gate: &G,
) -> Result<Vec<Look>, AllocError>
    requires tables { (header : Header) × AreTables header tables.now
        × (m : ℕ) × IsFresh header tables.now m worker.old }
    requires tickets { tickets_of tickets.now ≡ length items.now }
    requires draws { HasDrawnNothing tickets.now draws.old }
    requires passes { 0 < passes }
    ensures rest { IfOk result (λ told. IsAtRest tables.now worker.new) }
    ensures turn_part { IfOk result (λ told. words.parts worker.new.turns ≡ 1) }
    ensures chain_part { IfOk result (λ told. (part_of worker.new).chain.slot.parts ≡ 1) }
    ensures draws { IfOk result (λ told. HasTold tickets.now draws.new told.items) }
    ensures missed { IfOk result (λ told. HasMissed draws.new) }
    ensures looked { IfOk result (λ told. (header : Header) → AreTables header tables.now
        → HasLooked header passes items.now (part_of worker.new) told.items) }
{
    let told = look_drawn(
        alloc,
        &tables.chains,
        &tables.groups,
        &mut worker.chain,
        &mut worker.groups,
        items,
        tickets,
        draws,
        passes,
        &mut Still,
        looker,
        gate,
    )?;
    Ok(told)
}
