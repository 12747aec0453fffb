//! The commands by which sockets of a section end: `close`, `drop` and `reap`.

ghost use Rattle.std.specs.Prelude.{◌≡◌, ◌+◌, ◌≤◌, true, length, IfOk, IfErr, OnErr};
ghost use Rattle.turn_table.specs.Passes as words;
ghost use Rattle.flat_list.specs.declared.command.Command.TheVariants as variants;
ghost use Rattle.table_model.specs.Own.{open_socket};
ghost use Rattle.table_model.specs.Commands as commands;
ghost use Rattle.table_model.specs.declared.operation.Cause.TheVariants as causes;
ghost use Rattle.sock_ops.specs.Groups.{KeepsLists};
ghost use Rattle.sock_ops.specs.Stands.{IsReady, chained, turned};
ghost use Rattle.section_machine.specs.Carried.{Carries, HasEnough, Spends};
ghost use Rattle.section_machine.specs.LeftOff.{IsLeftOff, LeftOff};
ghost use Rattle.section_machine.specs.Reaping.{ReapsMost};
ghost use Rattle.section_machine.specs.Sections.{GivesLabels, KeepsHeader};
ghost use Rattle.section_machine.specs.Standing.{IsSection};

use crate::machine::Machine;
use crate::reaping::Gone;
use crate::waits::cause_of;
use flat_list::{Label, Reply};
use patience::Patience;
use sock_ops::{Cause, Tables, Worker, drop_sock};

impl Machine {
    /// Closes the socket that a label names. Where it is left off the socket stays.
    pub(crate) fn close<P: Patience>(
        &mut self,
        patience: &P,
        tables: &Tables,
        worker: &mut Worker,
        label: &Label,
    ) -> Result<Reply, Cause>
        requires section { IsSection tables.now self.old worker.old }
        requires enough { HasEnough self.old worker.old }
        ensures carried { IfOk result (Carries tables.now self.old
            (commands.close_command self.old.header self.old.own (open_socket self.old.own label.now))
            self.new worker.old worker.new) }
        ensures ready { IsReady tables.now worker.new }
        ensures caller { words.caller worker.new.turns ≡ words.caller worker.old.turns }
        ensures spends { Spends self.old self.new worker.old worker.new }
        ensures listed { KeepsLists tables.now worker.old worker.new }
        ensures left { OnErr result (IsLeftOff tables.now self.old (variants.Close label.now)
            self.new worker.old worker.new) }
        ensures err { OnErr result (self.new.own.sockets ≡ self.old.own.sockets) }
        ensures section { OnErr result (IsSection tables.now self.new worker.new) }
        ensures gives { GivesLabels (variants.Close label.now) self.old.own.labels self.new.own.labels result }
        ensures patient { P.endless ≡ true → IfErr result (λ cause. cause ≡ causes.Memory) }
        ensures kept { KeepsHeader self.old self.new }
    {
        let Some((place, socket)) = self.labels.take(label) else {
            return Ok(Reply::Ebadf);
        };
        match self
            .waits
            .close(patience, tables, worker, socket, self.moment)
        {
            Ok(reply) => Ok(reply),
            Err((socket, cause)) => {
                self.labels.put(place, socket);
                Err(cause)
            }
        }
    }

    /// Lets the socket that a label names go. Where it is left off the socket stays.
    pub(crate) fn drop_labelled<P: Patience>(
        &mut self,
        patience: &P,
        tables: &Tables,
        worker: &mut Worker,
        label: &Label,
    ) -> Result<Reply, Cause>
        requires section { IsSection tables.now self.old worker.old }
        requires enough { HasEnough self.old worker.old }
        ensures carried { IfOk result (Carries tables.now self.old
            (commands.drop_command self.old.own (open_socket self.old.own label.now))
            self.new worker.old worker.new) }
        ensures ready { IsReady tables.now worker.new }
        ensures caller { words.caller worker.new.turns ≡ words.caller worker.old.turns }
        ensures spends { Spends self.old self.new worker.old worker.new }
        ensures listed { KeepsLists tables.now worker.old worker.new }
        ensures left { OnErr result (IsLeftOff tables.now self.old (variants.Drop label.now)
            self.new worker.old worker.new) }
        ensures err { OnErr result (self.new.own.sockets ≡ self.old.own.sockets) }
        ensures section { OnErr result (IsSection tables.now self.new worker.new) }
        ensures gives { GivesLabels (variants.Drop label.now) self.old.own.labels self.new.own.labels result }
        ensures patient { P.endless ≡ true → IfErr result (λ cause. cause ≡ causes.Memory) }
        ensures kept { KeepsHeader self.old self.new }
    {
        let Some((place, socket)) = self.labels.take(label) else {
            return Ok(Reply::Ebadf);
        };
        match drop_sock(patience, tables, worker, socket) {
            Ok(()) => Ok(Reply::Ok),
            Err((socket, end)) => {
                self.labels.put(place, socket);
                Err(cause_of(end))
            }
        }
    }

    /// Lets those of the section's sockets in TIME_WAIT go that have lasted their minute, and counts those that were
    /// still there. Where it is left off a first part of them is gone, and the others are left for the next
    /// call.
    pub(crate) fn reap<P: Patience>(
        &mut self,
        patience: &P,
        tables: &Tables,
        worker: &mut Worker,
    ) -> Result<Reply, Cause>
        requires section { IsSection tables.now self.old worker.old }
        requires enough { HasEnough self.old worker.old }
        ensures carried { IfOk result (Carries tables.now self.old
            (commands.reap_command self.old.own) self.new worker.old worker.new) }
        ensures ready { IsReady tables.now worker.new }
        ensures caller { words.caller worker.new.turns ≡ words.caller worker.old.turns }
        ensures spends { Spends self.old self.new worker.old worker.new }
        ensures listed { KeepsLists tables.now worker.old worker.new }
        ensures left { OnErr result (IsLeftOff tables.now self.old variants.Reap self.new worker.old worker.new) }
        ensures err { OnErr result (self.new.own.sockets ≡ self.old.own.sockets) }
        ensures section { OnErr result (IsSection tables.now self.new worker.new) }
        ensures gives { GivesLabels variants.Reap self.old.own.labels self.new.own.labels result }
        ensures patient { P.endless ≡ true → IfErr result (λ cause. cause ≡ causes.Memory) }
        ensures kept { KeepsHeader self.old self.new }
    {
        let count = self.waits.reap(patience, tables, worker, self.moment)?;
        Ok(Reply::Count(count))
    }

    /// [`Machine::try_step`] of `reap`, which looks for so many TIME_WAITs at most.
    ///
    /// # Errors
    ///
    /// As there.
    pub fn reap_most<P: Patience>(
        &mut self,
        patience: &P,
        tables: &Tables,
        worker: &mut Worker,
        most: u64,
    ) -> Result<Gone, Cause>
        requires section { IsSection tables.now self.old worker.old }
        requires enough { HasEnough self.old worker.old }
        ensures section { IsSection tables.now self.new worker.new }
        ensures reaps { IfOk result (ReapsMost self.old.header self.old.own most (turned worker.old) (turned worker.new)
            (chained tables.now worker.old) (chained tables.now worker.new) self.new.own) }
        ensures most { length self.old.own.waits ≤ length self.new.own.waits + most }
        ensures left { OnErr result (LeftOff self.old.header self.old.own variants.Reap (turned worker.old)
            (turned worker.new) (chained tables.now worker.old) (chained tables.now worker.new) self.new.own) }
        ensures ready { IsReady tables.now worker.new }
        ensures caller { words.caller worker.new.turns ≡ words.caller worker.old.turns }
        ensures spends { Spends self.old self.new worker.old worker.new }
        ensures listed { KeepsLists tables.now worker.old worker.new }
        ensures kept { KeepsHeader self.old self.new }
        ensures labels { self.new.own.labels ≡ self.old.own.labels }
        ensures patient { P.endless ≡ true → IfErr result (λ cause. cause ≡ causes.Memory) }
    {
        self.waits
            .reap_most(patience, tables, worker, self.moment, most)
    }
}
