//! The sockets in TIME_WAIT that a section left.

ghost use Rattle.std.specs.Prelude.{◌≡◌, true, ◌+◌, ◌^◌, ◌≤◌, [], length, IfOk, IfErr, OnOk, OnErr, MatchOption};
ghost use Rattle.std.specs.VecDeque.{deque_len, deque_capacity};
ghost use Rattle.turn_table.specs.Passes as words;
ghost use Rattle.bind_buckets.specs.Turned.{Gave};
ghost use Rattle.table_model.specs.Operations as plans;
ghost use Rattle.table_model.specs.declared.operation.Cause.TheVariants as causes;
ghost use Rattle.table_model.specs.declared.operation.OpEnd.TheVariants as errors;
ghost use Rattle.sock_ops.specs.Goes.{LeftOff};
ghost use Rattle.sock_ops.specs.Groups.{KeepsLists};
ghost use Rattle.sock_ops.specs.Socks.{mine_of};
ghost use Rattle.sock_ops.specs.Spends.{Draws};
ghost use Rattle.sock_ops.specs.Stands.{IsReady, MayDraw, MayEnter, MayTell, StandsAs, buckets_of, chained, turned};
ghost use Rattle.sock_ops.specs.Closes.{became};
ghost use Rattle.section_machine.specs.Carried.{Ends, close_answer, is_left_off, waits_by};
ghost use Rattle.section_machine.specs.Waits.{AreBefore, HasRoomFor, IsNextOver, NeverOver};

use flat_list::Reply;
use patience::Patience;
use sock_card::State;
use sock_ops::{Cause, Closed, OpEnd, Sock, Tables, Waiting, Worker, close};
use std::alloc::{AllocError, Global};
use std::collections::VecDeque;
use std::marker::Model;

/// The sockets in TIME_WAIT that a section left, in the order in which they were closed.
///
/// Stamps never fall along them.
#[derive(Drop)]
pub struct Waits {
    pub(crate) items: VecDeque<Waiting>,
}

impl Model for Waits {
    ghost use Rattle.std.specs.Prelude.{List};
    ghost use Rattle.table_model.specs.Own.{Mine};

    ghost Value = { List Mine };

    ghost use Rattle.section_machine.specs.Waits.{AreInOrder};

    ghost view = { λ w. w.items.items };

    ghost invariant = { λ w. AreInOrder w.items.items };
}

/// Why an operation was left off.
pub(crate) fn cause_of(end: OpEnd) -> Cause
    requires { is_left_off end ≡ true }
    ensures { end ≡ errors.LeftOff result }
{
    match end {
        OpEnd::LeftOff(cause) => cause,
        _ => unreachable!(),
    }
}

/// Makes room for the TIME_WAIT that a connected socket may leave; one in any other state leaves none, and takes no
/// memory. Where that is wanting nothing has changed.
fn make_room(items: &mut VecDeque<Waiting>, state: State) -> Result<(), AllocError>
    ensures same { items.new.items ≡ items.old.items }
    ensures room { OnOk result (state ≡ State.Full → deque_len items.new + 1 ≤ deque_capacity items.new) }
    ensures full { OnErr result (state ≡ State.Full) }
{
    match state {
        State::Full => items.reserve(1),
        _ => Ok(()),
    }
}

/// Keeps the TIME_WAIT of a socket that ended, if it left one, where there is room for it; and how that end is called.
fn keep(items: &mut VecDeque<Waiting>, closed: Closed) -> Reply
    requires { HasRoomFor (became closed) (deque_len items.old) (deque_capacity items.old) }
    ensures left { items.new.items ≡ waits_by items.old.items (became closed) }
    ensures called { result ≡ close_answer (became closed) }
{
    match closed {
        Closed::Plain => Reply::Ok,
        Closed::TimeWait(waiting) => {
            items.push_back_reserved(waiting);
            Reply::TimeWait
        }
        Closed::NoSlot { owned, held } => Reply::NoSlot { owned, held },
    }
}

/// The least moment at which a TIME_WAIT has lasted its minute. All that one says of itself is whether it has lasted at a
/// moment: so the moments are halved until one is left.
fn moment_of(waiting: &Waiting) -> Option<u32>
    ensures { MatchOption result (2 ^ 32 ≤ waiting.now.extra + 60) (λ moment. moment ≡ waiting.now.extra + 60) }
{
    if !waiting.is_over(u32::MAX) {
        return None;
    }
    let mut before = 0;
    let mut over = u32::MAX;
    while over - before > 1 {
        let middle = before + (over - before) / 2;
        if waiting.is_over(middle) {
            over = middle;
        } else {
            before = middle;
        }
    }
    Some(over)
}

impl Waits {
    /// None yet. It takes no memory.
    pub fn new(alloc: Global) -> Self
        ensures { result ≡ [] }
    {
        Waits {
            items: VecDeque::new(alloc),
        }
    }

    /// How many they are.
    pub fn len(&self) -> usize
        ensures { result ≡ length self.now }
    {
        self.items.len()
    }

    /// The least moment at which one of them has lasted its minute: the first of them is the first to have lasted.
    pub fn next_over(&self) -> Option<u32>
        ensures { MatchOption result (NeverOver self.now) (IsNextOver self.now) }
    {
        moment_of(self.items.front()?)
    }

    /// Closes a socket at that moment, and keeps the TIME_WAIT that it leaves. Where it is left off the socket comes
    /// back as it was, and nothing has changed.
    pub(crate) fn close<P: Patience>(
        &mut self,
        patience: &P,
        tables: &Tables,
        worker: &mut Worker,
        socket: Sock,
        moment: u32,
    ) -> Result<Reply, (Sock, Cause)>
        requires before { AreBefore moment self.old }
        requires ready { IsReady tables.now worker.old }
        requires enters { MayEnter 1 worker.old }
        requires draws { MayDraw 4 worker.old }
        requires may { MayTell worker.old (mine_of socket).owner.name }
        requires stands { StandsAs tables.now socket (turned worker.old) (chained tables.now worker.old) }
        ensures before { AreBefore moment self.new }
        ensures ready { IsReady tables.now worker.new }
        ensures caller { words.caller worker.new.turns ≡ words.caller worker.old.turns }
        ensures entered { words.draws worker.new.turns ≤ words.draws worker.old.turns + 1 }
        ensures drawn { Draws 4 worker.old worker.new }
        ensures more { length self.new ≤ length self.old + 1 }
        ensures listed { KeepsLists tables.now worker.old worker.new }
        ensures ends { IfOk result (Ends (buckets_of tables.now)
            (plans.close tables.now.chains.layout.shape tables.now.chains.layout.seed (mine_of socket) moment)
            (turned worker.old) (turned worker.new)
            (chained tables.now worker.old) (chained tables.now worker.new) self.old self.new) }
        ensures left { OnErr result (LeftOff (buckets_of tables.now) (mine_of socket).owner.name
            (plans.close tables.now.chains.layout.shape tables.now.chains.layout.seed (mine_of socket) moment)
            (turned worker.old) (turned worker.new)
            (chained tables.now worker.old) (chained tables.now worker.new)) }
        ensures same { OnErr result (self.new ≡ self.old) }
        ensures nothing { OnErr result (Gave (turned worker.old) (turned worker.new) []) }
        ensures side { OnErr result (chained tables.now worker.new ≡ chained tables.now worker.old) }
        ensures stands { OnErr result (StandsAs tables.now socket
            (turned worker.new) (chained tables.now worker.new)) }
        ensures back { IfErr result (λ kept. kept.0 ≡ socket) }
        ensures patient { P.endless ≡ true → IfErr result (λ kept. kept.1 ≡ causes.Memory) }
    {
        match make_room(&mut self.items, socket.owner().state) {
            Ok(()) => {}
            Err(_) => return Err((socket, Cause::Memory)),
        }
        match close(patience, tables, worker, socket, moment) {
            Ok(closed) => Ok(keep(&mut self.items, closed)),
            Err((socket, end)) => Err((socket, cause_of(end))),
        }
    }
}
