//! A caller: a section of the shared tables, by one command at a time.

ghost use Rattle.std.specs.Prelude.{◌≡◌, ◌↔◌, ◌+◌, ◌*◌, ◌≤◌, ◌^◌, nat_lt, true, false, length, IsTrue, MatchOption};
ghost use Rattle.table_model.specs.Means.{is_lookup};
ghost use Rattle.section_machine.specs.Opened.{IsNextOpen, NoneAbove};
ghost use Rattle.section_machine.specs.Sections.{given_by};
ghost use Rattle.shared_calls.specs.Callings as spec;
ghost use Rattle.shared_calls.specs.Callings.{Called, IsNoWait};
ghost use Rattle.shared_calls.specs.Numbers.{IsNext};
ghost use Rattle.table_rule.specs.Passes.{drawn_by};
ghost use Rattle.turn_table.specs.Passes.{IsPassOf};
ghost use Rattle.sock_ops.specs.Stands.{MayEnter};

use flat_calls::Outcome;
use flat_list::Command;
use patience::Patience;
use section_machine::Machine;
use sock_ops::{Cause, Tables, Worker};
use std::marker::Model;
use std::sync::Arc;

/// How many sockets a caller makes.
pub const SOCKETS: usize = 0xFF_FFFF_FFFF_FFFE;

/// How many of its last entries, and of its last numbers of the clock, a caller keeps for calls that end sockets: for
/// each of 2^24 slots more than a hundred.
pub const KEPT_BACK: u64 = 0x1_0000_0000;

/// A section of shared tables, with its worker.
#[derive(Drop)]
pub struct Caller {
    pub(crate) tables: Arc<Tables>,
    pub(crate) worker: Worker,
    pub(crate) machine: Machine,
    pub(crate) tag: u64,
}

impl Model for Caller {
    ghost use Rattle.std.specs.Arc.{arc_value};
    ghost use Rattle.shared_calls.specs.Callings.{Calling, IsCalling, calling};

    ghost Value = { Calling };

    ghost view = { λ c. calling (arc_value c.tables) c.machine c.worker c.tag };

    ghost invariant = { λ c. IsCalling (calling (arc_value c.tables) c.machine c.worker c.tag) };
}

/// The command makes a socket, and so gives a number.
fn gives_number(command: &Command) -> bool
    ensures { result ≡ nat_lt 0 (length (given_by command.now)) }
{
    matches!(
        command,
        Command::Socket { .. } | Command::Accept { .. } | Command::Syn { .. } | Command::Ack { .. }
    )
}

/// What the command leaves to those that end sockets.
fn kept_back(command: &Command) -> u64
    ensures { result ≡ spec.kept_back command.now }
{
    match command {
        Command::Close { .. } | Command::Drop { .. } | Command::At { .. } | Command::Reap => 0,
        _ => KEPT_BACK,
    }
}

/// The worker can make entries for a command, for the reaping of the section's TIME_WAITs, and so many more.
pub(crate) fn has_entries(tables: &Tables, worker: &Worker, machine: &Machine, more: u64) -> bool
    requires { IsPassOf tables.now.buckets worker.now.turns }
    ensures { IsTrue result ↔ MayEnter (65540 + length machine.now.own.waits + more) worker.now }
{
    let drawn = u128::from(worker.turns.drawn(&tables.buckets));
    let waiting = machine.waiting() as u128;
    drawn + 65_540 + waiting + u128::from(more) <= 0x1_0000_0000_0000
}

/// The worker has numbers of the clock for a command, for the reaping of the section's TIME_WAITs, and so many more.
pub(crate) fn has_stamps(worker: &Worker, machine: &Machine, more: u64) -> bool
    ensures { IsTrue result
        ↔ (drawn_by worker.now.chain.pass + 7 + 2 * length machine.now.own.waits + more ≤ 2 ^ 48) }
{
    let drawn = u128::from(worker.chain.pass.drawn());
    let waiting = machine.waiting() as u128;
    drawn + 7 + 2 * waiting + u128::from(more) <= 0x1_0000_0000_0000
}

impl Caller {
    /// Its number, from 1, which the names of its sockets have above their lower 56 bits.
    pub fn number(&self) -> u32
        ensures { result ≡ self.now.kept.own.number }
    {
        self.machine.number()
    }

    /// The number of its next socket: the lower 56 bits of the name that the socket will have.
    pub fn next_number(&self) -> u64
        ensures { result ≡ length self.now.kept.own.labels + 1 }
    {
        self.machine.given() as u64 + 1
    }

    /// The lowest number above that one which names an open socket. It costs no more for sockets that are gone.
    pub fn next_open(&self, after: u64) -> Option<u64>
        ensures { MatchOption result (NoneAbove self.now.kept.own after) (IsNextOpen self.now.kept.own after) }
    {
        Some(self.machine.next_open(after as usize)? as u64)
    }

    /// How many TIME_WAITs it left that it hasn't reaped.
    pub fn waiting(&self) -> u64
        ensures { result ≡ length self.now.kept.own.waits }
    {
        self.machine.waiting() as u64
    }

    /// Sets the mark that its sockets get from then on: 0 until it is set. A lookup answers a socket's mark beside its
    /// number.
    pub fn set_mark(&mut self, mark: u32)
        ensures { self.new ≡ spec.with_mark self.old mark }
    {
        self.machine.set_mark(mark);
    }

    /// Carries a command out, any but a lookup, whoever else is at the tables, and returns what comes of it. A command
    /// that makes a socket has the next number's label for it.
    ///
    /// It takes the turn of one bucket and the lock of one chain at a time, and tries for each as long as the patience
    /// lasts.
    ///
    /// # Errors
    ///
    /// `Busy`: another had a bucket or a chain for longer than the patience lasted. `NoMemory`: memory was wanting.
    /// The caller's sockets stand as they did, a number that the command gives is given, and of a `reap` a first part
    /// is done. `NoNumber`: of the 2^48 entries and numbers of the clock that a worker
    /// has, as many are drawn as the command leaves, or it has made as many sockets as it does; nothing has changed.
    /// The last 2^32 are kept for `close`, `drop`, `at` and `reap`.
    pub fn call<P: Patience>(&mut self, patience: &P, command: &Command) -> Outcome
        requires look { is_lookup command.now ≡ false }
        requires next { IsNext (length self.old.kept.own.labels + 1) command.now }
        ensures called { Called self.old self.new command.now result }
        ensures patient { P.endless ≡ true → IsNoWait result }
    {
        let more = kept_back(command);
        if !has_stamps(&self.worker, &self.machine, more) {
            return Outcome::NoNumber;
        }
        if !has_entries(&self.tables, &self.worker, &self.machine, more) {
            return Outcome::NoNumber;
        }
        if gives_number(command) && self.machine.given() >= SOCKETS {
            return Outcome::NoNumber;
        }
        let tables: &Tables = &self.tables;
        match self
            .machine
            .try_step(patience, tables, &mut self.worker, command)
        {
            Ok(reply) => Outcome::Replied(reply),
            Err(Cause::Memory) => Outcome::NoMemory,
            Err(Cause::Busy) => Outcome::Busy,
        }
    }
}
