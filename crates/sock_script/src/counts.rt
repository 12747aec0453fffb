//! How many commands of a script were answered in which way.
ghost use Rattle.std.specs.Prelude.{◌≡◌, ◌+◌, ◌*◌, ◌<◌, ◌≤◌, ◌^◌, ◌++◌, List, ℕ, length, bytes_eq, codes, IfOk, OnOk};
ghost use Rattle.sock_script.specs.Counts as spec;
ghost use Rattle.sock_script.specs.Counts.{script_counts, counts_text};
ghost use Rattle.sock_script.specs.CountSteps.{one_more, weight, with_answered};
ghost use Rattle.sock_script.specs.Steps.{issue};
ghost use Rattle.flat_list.specs.declared.command.Command.{Command as AnyCommand};
ghost use Rattle.sock_script.specs.Output as output;
ghost use Rattle.sock_script.specs.Output.{reply_with};
ghost use Rattle.sock_script.specs.Shown.{kept_reply};

use crate::shown::{Brief, Shown};
use flat_list::{Command, KeptCommand, Script};
use inet_io::put_num;
use std::alloc::{AllocError, Global};

/// What is counted of a script and its replies.
#[derive(Clone, Copy, Debug, PartialEq, Eq)]
pub struct Counts {
    /// The commands other than `look` and `dump`.
    pub commands: u64,
    /// Those of them that were done.
    pub ok: u64,
    /// Those of them that were refused.
    pub refused: u64,
    /// The lookups that found a socket.
    pub found: u64,
    /// The lookups that found none.
    pub none: u64,
}

const NOTHING: Counts = Counts {
    commands: 0,
    ok: 0,
    refused: 0,
    found: 0,
    none: 0,
};

fn is_look(command: &Command) -> bool
    ensures { result ≡ spec.is_look command.now }
{
    matches!(command, Command::Look { .. })
}

fn is_dump(command: &Command) -> bool
    ensures { result ≡ output.is_dump command.now }
{
    matches!(command, Command::Dump)
}

/// Whether a command was done, by its reply.
fn is_done(reply: Brief) -> bool
    ensures { (label : List ℕ) → result ≡ spec.begins_with_ok (reply_with label (kept_reply reply)) }
{
    match reply {
        Brief::Ok
        | Brief::Port(_)
        | Brief::End(_)
        | Brief::TimeWait
        | Brief::NoSlot { .. }
        | Brief::Count { .. } => true,
        _ => false,
    }
}

/// Whether a lookup found no socket, by its reply.
fn is_none(reply: Brief) -> bool
    ensures { (label : List ℕ) → result ≡ bytes_eq (reply_with label (kept_reply reply)) (codes "none") }
{
    matches!(reply, Brief::None)
}

/// Appends a word, a number and a line feed.
fn put_line(out: &mut Vec<u8>, word: &[u8], n: u64) -> Result<(), AllocError>
    ensures { OnOk result (out.new.items ≡ out.old.items ++ spec.count_line word.now n) }
{
    let mut digits = [0; 20];
    let len = put_num(&mut digits, 0, n);
    out.extend_from_slice(word)?;
    out.extend_from_slice(b" ")?;
    out.extend_from_slice(&digits[..len])?;
    out.extend_from_slice(b"\n")
}

impl Counts {
    /// Counts one command more.
    fn add(&mut self, command: &KeptCommand, reply: &Shown)
        requires { weight self.old + 2 < 2 ^ 64 }
        ensures { (label : List ℕ) → self.new ≡ one_more self.old command.now (reply_with label reply.now) }
    {
        let plain = command.plain();
        if is_look(&plain) {
            if is_none(reply.brief()) {
                self.none += 1;
            } else {
                self.found += 1;
            }
        } else if !is_dump(&plain) {
            self.commands += 1;
            if is_done(reply.brief()) {
                self.ok += 1;
            } else {
                self.refused += 1;
            }
        }
    }

    /// Counts the commands of a section, as far as there are replies.
    fn add_section(&mut self, commands: &[KeptCommand], replies: &[Shown])
        requires { weight self.old + 2 * length replies.now < 2 ^ 64 }
        ensures counted { (sections : List (List AnyCommand)) (n : ℕ) →
            self.new ≡ with_answered self.old (spec.answered sections (issue n commands.now) replies.now) }
        ensures weight { weight self.new ≤ weight self.old + 2 * length replies.now }
    {
        for (command, reply) in commands.iter().zip(replies) {
            self.add(command, reply);
        }
    }

    /// What is counted of a script and its replies, one for each command in the order in which they are
    /// run: the script has no `packets`, whose items have replies too. A command without a reply isn't counted.
    pub fn of(script: &Script, replies: &[Shown]) -> Counts
        ensures counted { result ≡ script_counts script.now replies.now }
        ensures whole { result.commands ≡ result.ok + result.refused }
    {
        let mut counts = NOTHING;
        let mut rest = replies;
        for commands in script.sections() {
            let (here, later) = rest.split_at(commands.len().min(rest.len()));
            counts.add_section(commands, here);
            rest = later;
        }
        counts
    }

    /// The five lines of the counts.
    pub fn text(&self, alloc: Global) -> Result<Vec<u8>, AllocError>
        ensures { IfOk result (λ text. text.items ≡ counts_text self.now) }
    {
        let mut out = Vec::new(alloc);
        put_line(&mut out, b"commands", self.commands)?;
        put_line(&mut out, b"ok", self.ok)?;
        put_line(&mut out, b"refused", self.refused)?;
        put_line(&mut out, b"found", self.found)?;
        put_line(&mut out, b"none", self.none)?;
        Ok(out)
    }
}
