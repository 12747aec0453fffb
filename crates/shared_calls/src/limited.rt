//! A caller under limits: how often it tries, how many TIME_WAITs it leaves, and how long it doesn't look for a slot.

ghost use Rattle.std.specs.Prelude.{◌≡◌, ◌+◌, false, length};
ghost use Rattle.table_model.specs.Means.{is_lookup};
ghost use Rattle.shared_calls.specs.Callings as callings;
ghost use Rattle.shared_calls.specs.Limits as spec;
ghost use Rattle.shared_calls.specs.Limits.{Called, carried_as};
ghost use Rattle.shared_calls.specs.Numbers.{IsNext};

use crate::caller::Caller;
use flat_calls::Outcome;
use flat_list::{Command, Reply};
use patience::Tries;

/// The limits of a caller. Where all are 0, each call tries once, and there is no other limit.
#[repr(C)]
#[derive(Clone, Copy, Debug, PartialEq, Eq)]
pub struct Limits {
    /// How often a call tries again for what another caller has.
    pub tries: u64,
    /// With so many TIME_WAITs that it hasn't reaped, `close` leaves none; 0 is no limit.
    pub most_waits: u64,
    /// For so many calls after one that found no slot free, none looks for a slot; at 0 each looks.
    pub full_for: u64,
}

/// A caller, its limits, and for how many calls more none looks for a slot.
#[derive(Drop)]
pub struct Limited {
    pub caller: Caller,
    pub limits: Limits,
    pub full: u64,
}

/// The command takes a slot, and is refused where none is free.
fn takes_slot(command: &Command) -> bool
    ensures { result ≡ spec.takes_slot command.now }
{
    matches!(
        command,
        Command::Listen { .. }
            | Command::Connect { .. }
            | Command::Accept { .. }
            | Command::Syn { .. }
            | Command::Ack { .. }
    )
}

impl Limited {
    /// The caller under these limits, the first of whose calls looks for a slot.
    pub fn new(caller: Caller, limits: Limits) -> Self
        ensures { result ≡ spec.limited caller limits }
    {
        Limited {
            caller,
            limits,
            full: 0,
        }
    }

    /// It has as many TIME_WAITs as it may have.
    fn has_most_waits(&self) -> bool
        ensures { result ≡ spec.has_most_waits self.now }
    {
        self.limits.most_waits > 0 && self.caller.waiting() >= self.limits.most_waits
    }

    fn carry(&mut self, command: &Command) -> Outcome
        requires look { is_lookup command.now ≡ false }
        requires next { IsNext (length self.old.caller.kept.own.labels + 1) command.now }
        ensures called { callings.Called self.old.caller self.new.caller (carried_as self.old command.now) result }
        ensures limits { self.new.limits ≡ self.old.limits }
        ensures full { self.new.full ≡ self.old.full }
    {
        let patience = Tries(self.limits.tries);
        match command {
            Command::Close { label } if self.has_most_waits() => {
                self.caller
                    .call(&patience, &Command::Drop { label: *label })
            }
            _ => self.caller.call(&patience, command),
        }
    }

    /// [`Caller::call`] under the limits.
    ///
    /// A `close` is a `drop` while the caller has `most_waits` TIME_WAITs or more that it hasn't reaped: the socket is
    /// gone, as where no slot is free for its TIME_WAIT.
    ///
    /// # Errors
    ///
    /// `FullLately`: a call found no slot free, and less than `full_for` calls were made since. Nothing was looked for
    /// or tested, and nothing has changed, but that one call more was made.
    pub fn call(&mut self, command: &Command) -> Outcome
        requires look { is_lookup command.now ≡ false }
        requires next { IsNext (length self.old.caller.kept.own.labels + 1) command.now }
        ensures { Called self.old self.new command.now result }
    {
        let full = self.full;
        self.full = full.saturating_sub(1);
        if full > 0 && takes_slot(command) {
            return Outcome::FullLately;
        }
        let outcome = self.carry(command);
        if let Outcome::Replied(Reply::Enfile { .. }) = outcome {
            self.full = self.limits.full_for;
        }
        outcome
    }
}
