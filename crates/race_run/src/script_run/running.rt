//! The run of a script: its sections one after the other, by one worker.

ghost use Rattle.std.specs.Prelude.{◌≡◌, ◌<◌, ◌+◌, ◌-◌, ◌≤◌, ◌^◌, [], false, length, map, IfOk, OnOk};
ghost use Rattle.flat_list.specs.Script.{IsSmall};
ghost use Rattle.flat_list.specs.Fits.{FitsTables};
ghost use Rattle.race_run.specs.Looks.{AnswersItem, Looked};
ghost use Rattle.race_run.specs.Sole.{IsSole, tables_of};
ghost use Rattle.race_run.specs.Steps.{AnswersAll, AreUnspoken, IsRunning, RefinesEach, RunsAs, RunsEach, commands_after};
ghost use Rattle.section_machine.specs.Carried.{HasEnough, MayCarry, Spends};
ghost use Rattle.section_machine.specs.Sections.{KeepsHeader};
ghost use Rattle.section_machine.specs.Standing.{AreOf};
ghost use Rattle.sock_script.specs.Output.{flat_listings, flat_replies};
ghost use Rattle.sock_script.specs.Shown.{shown};
ghost use Rattle.sock_script.specs.Steps.{takes_items};

use crate::script_run::listing::list;
use crate::script_run::look::look;
use crate::script_run::start::start;
use capture_reader::{Capture, Item};
use flat_list::kept::Form;
use flat_list::owned::packet_of;
use flat_list::{Header, KeptCommand, Reply, Script};
use label_index::LabelSeed;
use section_machine::{Machine, laws};
use sock_ops::{Tables, Worker};
use sock_script::label::gives_label;
use sock_script::{Replies, Shown};
use std::alloc::{AllocError, Global};
use std::sync::Wait;

/// What is replied to an item of a capture: what its packet finds, if it is one.
fn reply_to(tables: &Tables, worker: &mut Worker, item: &Item) -> Reply
    requires sole { IsSole tables.now worker.old }
    ensures sole { IsSole tables.now worker.new }
    ensures looked { Looked tables.now worker.old worker.new }
    ensures answers { AnswersItem (tables_of tables.now worker.old) item.now result }
{
    match item {
        Item::Packet(packet) => Reply::Found(look(tables, worker, packet)),
        Item::Skip => Reply::Skip,
        Item::Short => Reply::Short,
    }
}

/// Appends what is shown of the replies to some items.
fn look_up(
    tables: &Tables,
    worker: &mut Worker,
    replies: &mut Vec<Shown>,
    items: &[Item],
) -> Result<(), AllocError>
    requires sole { IsSole tables.now worker.old }
    ensures sole { OnOk result (IsSole tables.now worker.new) }
    ensures looked { OnOk result (Looked tables.now worker.old worker.new) }
    ensures answers { OnOk result (AnswersAll (tables_of tables.now worker.old)
        items.now replies.old.items replies.new.items) }
{
    for item in items {
        replies.push(Shown::of(&reply_to(tables, worker, item)))?;
    }
    Ok(())
}

/// Carries out one command of a machine's section, any but `packets`; a lookup needs the tables alone.
fn step<R: Wait>(
    rt: &R,
    tables: &Tables,
    worker: &mut Worker,
    machine: &mut Machine,
    command: &KeptCommand,
) -> Result<Reply, AllocError>
    requires one { takes_items command.now ≡ false }
    requires room { length machine.old.own.labels + 1 < 2 ^ 56 }
    requires running { IsRunning tables.now machine.old worker.old }
    requires enough { HasEnough machine.old worker.old }
    ensures running { OnOk result (IsRunning tables.now machine.new worker.new) }
    ensures kept { KeepsHeader machine.old machine.new }
    ensures spends { Spends machine.old machine.new worker.old worker.new }
    ensures refines { IfOk result (RefinesEach machine.old (tables_of tables.now worker.old) command.now
        (tables_of tables.now worker.new) machine.new.own) }
{
    match command.form() {
        Form::Look { query } => {
            let packet = packet_of(*query);
            Ok(Reply::Found(look(tables, worker, &packet)))
        }
        _ => machine.step(rt, tables, worker, &command.plain()),
    }
}

/// Runs one command of a machine's section, appends what is replied and listed, and returns the items that are left
/// then.
fn run_command<'a, R: Wait>(
    rt: &R,
    alloc: Global,
    tables: &Tables,
    worker: &mut Worker,
    machine: &mut Machine,
    replies: &mut Replies,
    command: &KeptCommand,
    items: &'a [Item],
) -> Result<&'a [Item], AllocError>
    requires room { length machine.old.own.labels + 1 < 2 ^ 56 }
    requires running { IsRunning tables.now machine.old worker.old }
    requires enough { HasEnough machine.old worker.old }
    ensures running { OnOk result (IsRunning tables.now machine.new worker.new) }
    ensures kept { KeepsHeader machine.old machine.new }
    ensures spends { OnOk result (Spends machine.old machine.new worker.old worker.new) }
    ensures runs { IfOk result (λ left. RunsEach machine.old (tables_of tables.now worker.old) command.now
        items.now left.now replies.old replies.new
        machine.new.own (tables_of tables.now worker.new)) }
{
    if let Form::Packets { count } = command.form() {
        let (next, left) = items.split_at((*count as usize).min(items.len()));
        look_up(tables, worker, &mut replies.each, next)?;
        return Ok(left);
    }
    list(rt, alloc, tables, worker, &mut replies.listings, command)?;
    let reply = step(rt, tables, worker, machine, command)?;
    replies.each.push(Shown::of(&reply))?;
    Ok(items)
}

/// How many of a section's commands give a label to a new socket.
fn label_count(commands: &[KeptCommand]) -> usize {
    let mut count: usize = 0;
    for command in commands {
        if gives_label(command) {
            count = count.saturating_add(1);
        }
    }
    count
}

/// Runs the commands of section `n` on a machine of its own, appends what is replied and listed, and returns the
/// items that are left then.
fn run_section<'a, R: Wait>(
    rt: &R,
    alloc: Global,
    seed: LabelSeed,
    header: &Header,
    tables: &Tables,
    worker: &mut Worker,
    replies: &mut Replies,
    n: u32,
    commands: &[KeptCommand],
    items: &'a [Item],
) -> Result<&'a [Item], AllocError>
    requires header { FitsTables header.now }
    requires tables { AreOf header.now tables.now }
    requires first { 1 ≤ n }
    requires number { n ≤ 64 }
    requires room { length commands.now < 2 ^ 24 }
    requires sole { IsSole tables.now worker.old }
    requires unspoken { AreUnspoken n worker.old }
    requires may { MayCarry (commands_after (n - 1)) worker.old }
    ensures sole { OnOk result (IsSole tables.now worker.new) }
    ensures unspoken { OnOk result (AreUnspoken (n + 1) worker.new) }
    ensures may { OnOk result (MayCarry (commands_after n) worker.new) }
    ensures runs { IfOk result (λ left. RunsAs header.now n
        (tables_of tables.now worker.old) (tables_of tables.now worker.new) commands.now
        items.now left.now replies.old replies.new) }
{
    laws::section_comes_next();
    let mut machine = Machine::new(alloc, seed, header, n);
    machine.reserve(label_count(commands))?;
    let mut left = items;
    for command in commands {
        left = run_command(
            rt,
            alloc,
            tables,
            worker,
            &mut machine,
            replies,
            command,
            left,
        )?;
    }
    Ok(left)
}

/// No replies yet, with room for one to each command and each item: what grows by doubling leaves its former blocks
/// behind, among those of the tables.
fn no_replies(alloc: Global, script: &Script, capture: &Capture) -> Result<Replies, AllocError>
    ensures { IfOk result (λ replies. replies ≡ record { each = []; listings = [] }) }
{
    let mut count = capture.items().len();
    for commands in script.sections() {
        count = count.saturating_add(commands.len());
    }
    Ok(Replies {
        each: Vec::with_capacity(alloc, count)?,
        listings: Vec::new(alloc),
    })
}

/// Runs a script's sections one after the other over new tables, looks up the packets of its capture that no
/// command took, and gives what is shown of the reply to each command and each item, and what each `dump` lists.
///
/// Takes memory for the tables, the sockets, the replies and the listings. The hashes of labels begin with the seed.
///
/// # Errors
///
/// Memory ran out.
pub fn run<R: Wait>(
    rt: &R,
    alloc: Global,
    seed: LabelSeed,
    script: &Script,
    capture: &Capture,
) -> Result<Replies, AllocError>
    requires small { IsSmall script.now }
    requires header { FitsTables script.now.header }
    ensures replied { IfOk result (λ replies. replies.each ≡ map shown (flat_replies script.now capture.now.items)) }
    ensures listed { IfOk result (λ replies. replies.listings ≡ flat_listings script.now capture.now.items) }
{
    let header = script.header();
    // What is kept longest is asked for first, where the text of the script lay.
    let mut replies = no_replies(alloc, script, capture)?;
    let (tables, mut worker) = start(alloc, header)?;
    let mut left = capture.items();
    for (i, commands) in script.sections().iter().enumerate() {
        left = run_section(
            rt,
            alloc,
            seed,
            header,
            &tables,
            &mut worker,
            &mut replies,
            i as u32 + 1,
            commands,
            left,
        )?;
    }
    look_up(&tables, &mut worker, &mut replies.each, left)?;
    Ok(replies)
}
