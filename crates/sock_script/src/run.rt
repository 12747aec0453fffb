ghost use Rattle.std.specs.Prelude.{◌≡◌, ◌+◌, ◌++◌, map, ◌<◌, ◌≤◌, ◌^◌, length, IfOk, OnOk};
ghost use Rattle.flat_list.specs.Sections.{labels_of, GivesOneAtMost, KeepsOthers};
ghost use Rattle.flat_list.specs.Script.{IsSmall};
ghost use Rattle.flat_list.specs.Sound.{IsSound};
ghost use Rattle.list_words.specs.Lists.{Each};
ghost use Rattle.sock_script.specs.Output.{flat_listings, flat_replies, item_reply, listings_at, lists_of};
ghost use Rattle.sock_script.specs.Shown.{shown};
ghost use Rattle.sock_script.specs.Steps.{item_shown, RunsCommand, RunsSection};

use crate::replies::Replies;
use crate::shown::Shown;
use capture_reader::Item;
use flat_list::{Command, Flat, KeptCommand, Reply, Script};
use socket_list::Listing;
use std::alloc::{AllocError, Global};

/// What is replied to an item of a capture: what its packet finds, if it is one.
fn reply_to(flat: &Flat, item: Item) -> Reply
    ensures { result ≡ item_reply flat.now item }
{
    match item {
        Item::Packet(packet) => Reply::Found(flat.look(&packet)),
        Item::Skip => Reply::Skip,
        Item::Short => Reply::Short,
    }
}

/// Appends what is shown of the replies to some items.
fn look_up(flat: &Flat, replies: &mut Vec<Shown>, items: &[Item]) -> Result<(), AllocError>
    ensures { OnOk result (replies.new.items
        ≡ replies.old.items ++ map (item_shown flat.now) items.now) }
{
    for item in items {
        replies.push(Shown::of(&reply_to(flat, *item)))?;
    }
    Ok(())
}

/// Appends what a command lists: a `dump` all hashed sockets, any other command nothing.
fn list(flat: &Flat, listings: &mut Vec<Listing>, command: &Command) -> Result<(), AllocError>
    ensures { OnOk result (listings.new.items ≡ listings.old.items ++ listings_at flat.now command.now) }
{
    if let Command::Dump = command {
        let cards = flat.list()?;
        listings.push(Listing { cards, span: None })?;
    }
    Ok(())
}

/// Runs one command of section `n`, appends what is replied and listed, and returns the items that are left then.
fn run_command<'a>(
    flat: &mut Flat,
    replies: &mut Replies,
    n: u32,
    command: &Command,
    items: &'a [Item],
) -> Result<&'a [Item], AllocError>
    requires number { n ≤ 64 }
    requires room { length (labels_of n flat.old.sections) + 1 < 2 ^ 56 }
    ensures runs { IfOk result (λ left.
        RunsCommand flat.old flat.new n command.now items.now left.now replies.old replies.new) }
    ensures labels { GivesOneAtMost flat.old.sections flat.new.sections }
    ensures others { KeepsOthers n flat.old.sections flat.new.sections }
{
    if let Command::Packets { count } = command {
        let (next, left) = items.split_at((*count as usize).min(items.len()));
        look_up(flat, &mut replies.each, next)?;
        return Ok(left);
    }
    list(flat, &mut replies.listings, command)?;
    let reply = flat.apply(n, command)?;
    replies.each.push(Shown::of(&reply))?;
    Ok(items)
}

/// Runs the commands of section `n`, appends what is replied and listed, and returns the items that are left then.
fn run_section<'a>(
    flat: &mut Flat,
    replies: &mut Replies,
    n: u32,
    commands: &[KeptCommand],
    items: &'a [Item],
) -> Result<&'a [Item], AllocError>
    requires number { n ≤ 64 }
    requires room { length (labels_of n flat.old.sections) + length commands.now < 2 ^ 56 }
    ensures { IfOk result (λ left.
        RunsSection flat.old flat.new n commands.now items.now left.now replies.old replies.new) }
{
    let mut left = items;
    for command in commands {
        left = run_command(flat, replies, n, &command.plain(), left)?;
    }
    Ok(left)
}

/// What is shown of the flat list's replies to a script whose capture has these items, and what it lists: the
/// sections are run one after the other on an empty list of sockets, and the items that no command took are looked up
/// last.
///
/// Takes memory for the sockets, the replies and the listings. What `parse` gives for a text of 16 MiB at most is
/// small enough to be run.
pub fn replies(alloc: Global, script: &Script, items: &[Item]) -> Result<Replies, AllocError>
    requires { IsSmall script.now }
    ensures replied { IfOk result (λ replies. replies.each ≡ map shown (flat_replies script.now items.now)) }
    ensures listed { IfOk result (λ replies. replies.listings ≡ flat_listings script.now items.now) }
    // Whatever list the script runs through is sound.
    ensures sound { Each IsSound (lists_of script.now) }
{
    let mut flat = Flat::new(alloc, script.header());
    let mut replies = Replies::new(alloc);
    let mut left = items;
    for (i, commands) in script.sections().iter().enumerate() {
        left = run_section(&mut flat, &mut replies, i as u32 + 1, commands, left)?;
    }
    look_up(&flat, &mut replies.each, left)?;
    Ok(replies)
}
