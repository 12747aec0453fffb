//! The reaping of so many TIME_WAITs at most.

ghost use Rattle.std.specs.Prelude.{◌≡◌, true, IfErr};
ghost use Rattle.shared_calls.specs.Callings.{IsNoWait};
ghost use Rattle.shared_calls.specs.Reapings.{GoAtMost, Reaps, ReapsUnder};

use crate::caller::{Caller, has_entries, has_stamps};
use crate::limited::Limited;
use flat_calls::Outcome;
use patience::{Patience, Tries};
use section_machine::Gone;
use sock_ops::{Cause, Tables};

impl Caller {
    /// `reap` by [`Caller::call`], but that it looks for so many TIME_WAITs at most, and says whether more of them have
    /// lasted their minute.
    ///
    /// # Errors
    ///
    /// Those of a call.
    pub fn reap_most<P: Patience>(&mut self, patience: &P, most: u64) -> Result<Gone, Outcome>
        ensures reaps { Reaps self.old self.new most result }
        ensures most { GoAtMost self.old self.new most }
        ensures patient { P.endless ≡ true → IfErr result IsNoWait }
    {
        if !has_stamps(&self.worker, &self.machine, 0) {
            return Err(Outcome::NoNumber);
        }
        if !has_entries(&self.tables, &self.worker, &self.machine, 0) {
            return Err(Outcome::NoNumber);
        }
        let tables: &Tables = &self.tables;
        match self
            .machine
            .reap_most(patience, tables, &mut self.worker, most)
        {
            Ok(reaped) => Ok(reaped),
            Err(Cause::Memory) => Err(Outcome::NoMemory),
            Err(Cause::Busy) => Err(Outcome::Busy),
        }
    }
}

impl Limited {
    /// [`Caller::reap_most`] under the limits.
    pub fn reap_most(&mut self, most: u64) -> Result<Gone, Outcome>
        ensures { ReapsUnder self.old self.new most result }
    {
        self.full = self.full.saturating_sub(1);
        self.caller.reap_most(&Tries(self.limits.tries), most)
    }
}
