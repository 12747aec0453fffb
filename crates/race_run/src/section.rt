//! A section, from its first command to its last.

ghost use Rattle.std.specs.Prelude.{◌≡◌, false, ◌≤◌, ◌<◌, ◌^◌, ◌%◌, length, IfOk, OnOk};
ghost use Rattle.flat_list.specs.Ports.{size};
ghost use Rattle.list_words.specs.Lists.{Each};
ghost use Rattle.sock_ops.specs.Spends.{Draws};
ghost use Rattle.sock_ops.specs.Stands.{IsReady, chained};
ghost use Rattle.race_run.specs.Listings.{KeepsAll};
ghost use Rattle.turn_table.specs.Passes as words;
ghost use Rattle.table_model.specs.Means.{is_lookup};
ghost use Rattle.race_run.specs.Dumped.{ListsMore};
ghost use Rattle.race_run.specs.Races.{SectionDone};
ghost use Rattle.race_run.specs.Said.{said_as};
ghost use Rattle.race_run.specs.Workers.{AreTables, IsFresh, part_of};
ghost use Rattle.sock_ops.specs.Tables.{IsAtRest};

use crate::table_dump::dump;
use flat_list::{Command, Header, KeptCommand, Reply};
use inet_io::{Gate, Who};
use label_index::LabelSeed;
use section_machine::{Machine, laws};
use sock_ops::{Tables, Worker};
use socket_list::Listing;
use std::alloc::{AllocError, Global};
use std::sync::Wait;

/// What a section said: its replies, and what it listed.
#[derive(Drop)]
pub struct Said {
    pub replies: Vec<Reply>,
    pub listings: Vec<Listing>,
}

/// Lists all sockets, if the command is a `dump`.
fn list_for<R: Wait>(
    rt: &R,
    alloc: Global,
    tables: &Tables,
    worker: &mut Worker,
    command: &Command,
    listings: &mut Vec<Listing>,
) -> Result<(), AllocError>
    requires ready { IsReady tables.now worker.old }
    ensures ready { IsReady tables.now worker.new }
    ensures keeps { KeepsAll tables.now worker.old worker.new }
    ensures draws { Draws 0 worker.old worker.new }
    ensures lists { OnOk result (ListsMore command.now (chained tables.now worker.old) (chained tables.now worker.new)
        listings.old.items listings.new.items) }
{
    let Command::Dump = command else {
        return Ok(());
    };
    let listing = dump(rt, alloc, tables, worker)?;
    listings.push(listing)?;
    Ok(())
}

/// Carries a section's commands out, beside whoever else is at the tables, and loads the clock behind each. For a
/// `dump` it lists all sockets, before that load.
///
/// # Errors
///
/// Memory ran out.
pub fn run_section<R: Wait, G: Gate>(
    rt: &R,
    alloc: Global,
    seed: LabelSeed,
    tables: &Tables,
    header: &Header,
    worker: &mut Worker,
    number: u32,
    commands: &[KeptCommand],
    gate: &G,
) -> Result<Said, AllocError>
    requires tables { AreTables header.now tables.now }
    requires worker { IsFresh header.now tables.now number worker.old }
    requires number { number ≤ 64 }
    requires range { header.now.range.low ≤ header.now.range.high }
    requires even { size header.now.range % 2 ≡ 0 }
    requires few { length commands.now < 2 ^ 24 }
    requires looks { Each (λ c. is_lookup c ≡ false) commands.now }
    ensures rest { IfOk result (λ said. IsAtRest tables.now worker.new) }
    ensures turn_part { IfOk result (λ said. words.parts worker.new.turns ≡ 1) }
    ensures chain_part { IfOk result (λ said. (part_of worker.new).chain.slot.parts ≡ 1) }
    ensures done { IfOk result
        (λ said. SectionDone header.now number commands.now (part_of worker.new)
        (said_as said.replies.items said.listings.items)) }
{
    laws::section_begins();
    let mut machine = Machine::new(alloc, seed, header, number);
    let mut replies = Vec::new(alloc);
    let mut listings = Vec::new(alloc);
    for at in 0..commands.len() {
        gate.pass(Who::Script(number), at as u64 + 1);
        let command = commands[at].plain();
        let reply = machine.step(rt, tables, worker, &command)?;
        list_for(rt, alloc, tables, worker, &command, &mut listings)?;
        let _clock = tables.chains.now(&mut worker.chain);
        replies.push(reply)?;
    }
    Ok(Said { replies, listings })
}
