//! A section's `connect` and `accept`.

ghost use Rattle.std.specs.Prelude.{◌≡◌, ◌<◌, ◌+◌, ◌^◌, ◌&&◌, length, true, IfOk, IfErr, OnErr};
ghost use Rattle.turn_table.specs.Passes as words;
ghost use Rattle.flat_list.specs.declared.command.Command.TheVariants as variants;
ghost use Rattle.table_model.specs.Own as own;
ghost use Rattle.table_model.specs.Own.{open_socket};
ghost use Rattle.table_model.specs.Commands as commands;
ghost use Rattle.table_model.specs.declared.operation.Cause.TheVariants as causes;
ghost use Rattle.table_model.specs.Operations as plans;
ghost use Rattle.sock_ops.specs.Groups.{KeepsLists};
ghost use Rattle.sock_ops.specs.Socks.{mine_of};
ghost use Rattle.sock_ops.specs.Stands.{IsReady};
ghost use Rattle.section_machine.specs.Carried.{Carries, HasEnough, Spends};
ghost use Rattle.section_machine.specs.LeftOff.{IsLeftOff};
ghost use Rattle.section_machine.specs.Sections.{GivesLabels, KeepsHeader};
ghost use Rattle.section_machine.specs.Standing.{IsSection};

use crate::machine::{Machine, is_unbound, refusal};
use chain_book::Replace;
use flat_list::{End, First, Header, Label, Reply, owned};
use patience::Patience;
use sock_ops::{Cause, OpEnd, Sock, Tables, Worker, accept, connect};

/// How the refusal of `connect`, `accept`, `syn` or `ack` is called.
pub(crate) fn connect_error(end: OpEnd) -> Reply
    ensures { result ≡ commands.connect_error end }
{
    match end {
        OpEnd::Taken(_) | OpEnd::NoPort => Reply::Eaddrnotavail,
        OpEnd::IsConn => Reply::Eisconn,
        OpEnd::Full { owned, held } => Reply::Enfile { owned, held },
        _ => Reply::Einval,
    }
}

/// By which rule `connect` may replace a TIME_WAIT.
fn connect_rule(header: &Header) -> Replace
    ensures { result ≡ commands.connect_rule header.now }
{
    if header.twreuse {
        Replace::After
    } else {
        Replace::Never
    }
}

/// A search begins by `connect` of the socket from that address to that end.
fn searches_connect(socket: &Sock, from: Option<u32>, to: End) -> bool
    ensures { result ≡ (commands.is_unbound (mine_of socket.now).owner.state
        && commands.is_some (plans.source_to (mine_of socket.now).owner from to)) }
{
    let addr = socket.owner().addr;
    is_unbound(socket) && !owned::is_no_end(to) && owned::source_of(addr, from).is_some()
}

impl Machine {
    /// Connects the socket that a label names.
    pub(crate) fn connect<P: Patience>(
        &mut self,
        patience: &P,
        tables: &Tables,
        worker: &mut Worker,
        label: &Label,
        from: Option<u32>,
        to: End,
    ) -> Result<Reply, Cause>
        requires section { IsSection tables.now self.old worker.old }
        requires enough { HasEnough self.old worker.old }
        ensures carried { IfOk result (Carries tables.now self.old
            (commands.connect_command self.old.header self.old.own (open_socket self.old.own label.now) from to)
            self.new worker.old worker.new) }
        ensures ready { IsReady tables.now worker.new }
        ensures caller { words.caller worker.new.turns ≡ words.caller worker.old.turns }
        ensures spends { Spends self.old self.new worker.old worker.new }
        ensures listed { KeepsLists tables.now worker.old worker.new }
        ensures left { OnErr result (IsLeftOff tables.now self.old (variants.Connect label.now from to)
            self.new worker.old worker.new) }
        ensures err { OnErr result (self.new.own.sockets ≡ self.old.own.sockets) }
        ensures section { OnErr result (IsSection tables.now self.new worker.new) }
        ensures gives { GivesLabels (variants.Connect label.now from to)
            self.old.own.labels self.new.own.labels result }
        ensures patient { P.endless ≡ true → IfErr result (λ cause. cause ≡ causes.Memory) }
        ensures kept { KeepsHeader self.old self.new }
    {
        let Some((place, socket)) = self.labels.take(label) else {
            return Ok(Reply::Ebadf);
        };
        let begins = searches_connect(&socket, from, to);
        let ports = self.offsets.ports(begins, First::Even);
        let rule = connect_rule(&self.header);
        let moment = self.moment;
        match connect(
            patience, tables, worker, socket, from, to, moment, rule, ports,
        ) {
            Ok((socket, end)) => {
                self.labels.put(place, socket);
                Ok(Reply::End(end))
            }
            Err((socket, end)) => {
                self.labels.put(place, socket);
                Ok(connect_error(refusal(end)?))
            }
        }
    }

    /// Accepts a child of the listener that a label names, under a label of its own, which is given whatever comes of
    /// it.
    pub(crate) fn accept<P: Patience>(
        &mut self,
        patience: &P,
        tables: &Tables,
        worker: &mut Worker,
        listener: &Label,
        label: Label,
        from: End,
        at: End,
    ) -> Result<Reply, Cause>
        requires section { IsSection tables.now self.old worker.old }
        requires enough { HasEnough self.old worker.old }
        requires room { length self.old.own.labels + 1 < 2 ^ 56 }
        ensures carried { IfOk result (Carries tables.now self.old
            (commands.accept_command self.old.header (own.with_label self.old.own label) (own.next_name self.old.own)
            (open_socket self.old.own listener.now) from at) self.new worker.old worker.new) }
        ensures ready { IsReady tables.now worker.new }
        ensures caller { words.caller worker.new.turns ≡ words.caller worker.old.turns }
        ensures spends { Spends self.old self.new worker.old worker.new }
        ensures listed { KeepsLists tables.now worker.old worker.new }
        ensures left { OnErr result (IsLeftOff tables.now self.old
            (variants.Accept listener.now label from at) self.new worker.old worker.new) }
        ensures err { OnErr result (self.new.own.sockets ≡ self.old.own.sockets) }
        ensures section { OnErr result (IsSection tables.now self.new worker.new) }
        ensures gives { GivesLabels (variants.Accept listener.now label from at)
            self.old.own.labels self.new.own.labels result }
        ensures patient { P.endless ≡ true → IfErr result (λ cause. cause ≡ causes.Memory) }
        ensures kept { KeepsHeader self.old self.new }
    {
        let place = self.labels.len();
        let newcomer = self.labels.newcomer();
        let listener = self.labels.place_of(listener);
        self.labels.give(label)?;
        let Some(socket) = self.labels.at(listener) else {
            return Ok(Reply::Ebadf);
        };
        match accept(patience, tables, worker, socket, newcomer, from, at) {
            Ok(child) => {
                self.labels.put(place, child);
                Ok(Reply::Ok)
            }
            Err(end) => Ok(connect_error(refusal(end)?)),
        }
    }
}
