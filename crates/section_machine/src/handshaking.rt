//! A section's `syn` and `ack`: a handshake begins, and is over.

ghost use Rattle.std.specs.Prelude.{◌≡◌, ◌<◌, ◌+◌, ◌^◌, length, true, IfOk, IfErr, OnErr};
ghost use Rattle.turn_table.specs.Passes as words;
ghost use Rattle.flat_list.specs.declared.command.Command.TheVariants as variants;
ghost use Rattle.table_model.specs.Own as own;
ghost use Rattle.table_model.specs.Own.{open_socket};
ghost use Rattle.table_model.specs.Commands as commands;
ghost use Rattle.table_model.specs.declared.operation.Cause.TheVariants as causes;
ghost use Rattle.sock_ops.specs.Groups.{KeepsLists};
ghost use Rattle.sock_ops.specs.Stands.{IsReady};
ghost use Rattle.section_machine.specs.Carried.{Carries, HasEnough, Spends};
ghost use Rattle.section_machine.specs.LeftOff.{IsLeftOff};
ghost use Rattle.section_machine.specs.Sections.{GivesLabels, KeepsHeader};
ghost use Rattle.section_machine.specs.Standing.{IsSection};

use crate::machine::{Machine, refusal};
use crate::meeting::connect_error;
use flat_list::{End, Label, Reply};
use patience::Patience;
use sock_ops::{Cause, Tables, Worker, ack, syn};

impl Machine {
    /// Begins a handshake with the listener that a label names, by a request under a label of its own, which is given
    /// whatever comes of it.
    pub(crate) fn syn<P: Patience>(
        &mut self,
        patience: &P,
        tables: &Tables,
        worker: &mut Worker,
        listener: &Label,
        label: Label,
        from: End,
        at: End,
    ) -> Result<Reply, Cause>
        requires section { IsSection tables.now self.old worker.old }
        requires enough { HasEnough self.old worker.old }
        requires room { length self.old.own.labels + 1 < 2 ^ 56 }
        ensures carried { IfOk result (Carries tables.now self.old
            (commands.syn_command self.old.header (own.with_label self.old.own label) (own.next_name self.old.own)
            (open_socket self.old.own listener.now) from at) self.new worker.old worker.new) }
        ensures ready { IsReady tables.now worker.new }
        ensures caller { words.caller worker.new.turns ≡ words.caller worker.old.turns }
        ensures spends { Spends self.old self.new worker.old worker.new }
        ensures listed { KeepsLists tables.now worker.old worker.new }
        ensures left { OnErr result (IsLeftOff tables.now self.old
            (variants.Syn listener.now label from at) self.new worker.old worker.new) }
        ensures err { OnErr result (self.new.own.sockets ≡ self.old.own.sockets) }
        ensures section { OnErr result (IsSection tables.now self.new worker.new) }
        ensures gives { GivesLabels (variants.Syn listener.now label from at)
            self.old.own.labels self.new.own.labels result }
        ensures patient { P.endless ≡ true → IfErr result (λ cause. cause ≡ causes.Memory) }
        ensures kept { KeepsHeader self.old self.new }
    {
        let place = self.labels.len();
        let newcomer = self.labels.newcomer();
        let listener = self.labels.place_of(listener);
        self.labels.give(label)?;
        let Some(socket) = self.labels.at(listener) else {
            return Ok(Reply::Ebadf);
        };
        match syn(patience, tables, worker, socket, newcomer, from, at) {
            Ok(request) => {
                self.labels.put(place, request);
                Ok(Reply::Ok)
            }
            Err(end) => Ok(connect_error(refusal(end)?)),
        }
    }

    /// Ends the handshake of the request that a label names: the child comes under a label of its own, which is given
    /// whatever comes of it, and the request's label names nothing then. After a refusal the request stays.
    pub(crate) fn ack<P: Patience>(
        &mut self,
        patience: &P,
        tables: &Tables,
        worker: &mut Worker,
        request: &Label,
        label: Label,
    ) -> Result<Reply, Cause>
        requires section { IsSection tables.now self.old worker.old }
        requires enough { HasEnough self.old worker.old }
        requires room { length self.old.own.labels + 1 < 2 ^ 56 }
        ensures carried { IfOk result (Carries tables.now self.old
            (commands.ack_command self.old.header (own.with_label self.old.own label) (own.next_name self.old.own)
            (open_socket self.old.own request.now)) self.new worker.old worker.new) }
        ensures ready { IsReady tables.now worker.new }
        ensures caller { words.caller worker.new.turns ≡ words.caller worker.old.turns }
        ensures spends { Spends self.old self.new worker.old worker.new }
        ensures listed { KeepsLists tables.now worker.old worker.new }
        ensures left { OnErr result (IsLeftOff tables.now self.old
            (variants.Ack request.now label) self.new worker.old worker.new) }
        ensures err { OnErr result (self.new.own.sockets ≡ self.old.own.sockets) }
        ensures section { OnErr result (IsSection tables.now self.new worker.new) }
        ensures gives { GivesLabels (variants.Ack request.now label) self.old.own.labels self.new.own.labels result }
        ensures patient { P.endless ≡ true → IfErr result (λ cause. cause ≡ causes.Memory) }
        ensures kept { KeepsHeader self.old self.new }
    {
        let child_place = self.labels.len();
        let newcomer = self.labels.newcomer();
        self.labels.give(label)?;
        let Some((place, socket)) = self.labels.take(request) else {
            return Ok(Reply::Ebadf);
        };
        let listener = self.labels.named(socket.owner().origin);
        match ack(patience, tables, worker, socket, listener, newcomer) {
            Ok(child) => {
                self.labels.put(child_place, child);
                Ok(Reply::Ok)
            }
            Err((socket, end)) => {
                self.labels.put(place, socket);
                Ok(connect_error(refusal(end)?))
            }
        }
    }
}
