//! The TIME_WAITs of a section that have lasted, one after the other.

ghost use Rattle.std.specs.Prelude.{◌≡◌, true, ℕ, ◌+◌, ◌*◌, ◌^◌, ◌<◌, ◌≤◌, length, IfOk, IfErr, OnOk, OnErr};
ghost use Rattle.std.specs.Option.{option_copied};
ghost use Rattle.turn_table.specs.Passes as words;
ghost use Rattle.table_model.specs.Asking.{ends};
ghost use Rattle.table_model.specs.Operations as plans;
ghost use Rattle.table_model.specs.declared.operation.Cause.TheVariants as causes;
ghost use Rattle.sock_ops.specs.Goes.{Went};
ghost use Rattle.sock_ops.specs.Groups.{KeepsLists};
ghost use Rattle.sock_ops.specs.Reaping as spec;
ghost use Rattle.sock_ops.specs.Stands.{IsReady, MayDraw, MayEnter, buckets_of, chained, turned};
ghost use Rattle.section_machine.specs.LeftOff.{StopsReaping};
ghost use Rattle.section_machine.specs.Reaping.{ReapsFirst};
ghost use Rattle.section_machine.specs.Waits as waits_spec;
ghost use Rattle.section_machine.specs.Waits.{AreBefore, AreInOrder};

use crate::waits::Waits;
use patience::Patience;
use sock_ops::{Cause, Tables, Waiting, Worker, reap_one};
use std::collections::VecDeque;

/// What came of the reaping of so many TIME_WAITs at most, with how many of them were still there.
#[derive(Clone, Copy, Debug, PartialEq, Eq)]
pub enum Gone {
    /// None that is left has lasted its minute.
    All(u64),
    /// One that is left has, and as many were looked for as there were to be.
    More(u64),
}

/// The first TIME_WAIT, if it has lasted its minute at that moment.
fn first_over(items: &VecDeque<Waiting>, moment: u32) -> Option<&Waiting>
    ensures { option_copied result ≡ waits_spec.first_over moment items.now.items }
{
    let waiting = items.front()?;
    if waiting.is_over(moment) {
        Some(waiting)
    } else {
        None
    }
}

/// How many were there, with this one.
fn counted(count: u64, found: bool) -> u64
    requires { count + 1 < 2 ^ 64 }
    ensures { result ≡ spec.counted count found }
{
    if found { count + 1 } else { count }
}

/// Reaps the first TIME_WAITs that are over at that moment, so many at most.
fn reap_first<P: Patience>(
    patience: &P,
    tables: &Tables,
    worker: &mut Worker,
    items: &mut VecDeque<Waiting>,
    moment: u32,
    most: u64,
) -> Result<Gone, Cause>
    requires order { AreInOrder items.old.items }
    requires before { AreBefore moment items.old.items }
    requires ready { IsReady tables.now worker.old }
    requires enters { MayEnter (length items.old.items) worker.old }
    requires draws { MayDraw (2 * length items.old.items) worker.old }
    ensures order { AreInOrder items.new.items }
    ensures before { AreBefore moment items.new.items }
    ensures ready { IsReady tables.now worker.new }
    ensures caller { words.caller worker.new.turns ≡ words.caller worker.old.turns }
    ensures entered { words.draws worker.new.turns + length items.new.items
        ≤ words.draws worker.old.turns + length items.old.items }
    ensures drawn { (more : ℕ) → MayDraw (more + 2 * length items.old.items) worker.old
        → MayDraw (more + 2 * length items.new.items) worker.new }
    ensures listed { KeepsLists tables.now worker.old worker.new }
    ensures most { length items.old.items ≤ length items.new.items + most }
    ensures reaps { IfOk result (ReapsFirst (buckets_of tables.now) items.old.items moment
        (turned worker.old) (turned worker.new)
        (chained tables.now worker.old) (chained tables.now worker.new) items.new.items most) }
    ensures stops { OnErr result (StopsReaping (buckets_of tables.now) items.old.items moment
        (turned worker.old) (turned worker.new)
        (chained tables.now worker.old) (chained tables.now worker.new) items.new.items) }
    ensures patient { P.endless ≡ true → IfErr result (λ cause. cause ≡ causes.Memory) }
{
    let mut count = 0;
    let mut left = most;
    while let Some(waiting) = first_over(items, moment) {
        if left == 0 {
            return Ok(Gone::More(count));
        }
        let found = match reap_one(patience, tables, worker, waiting) {
            Ok(found) => found,
            Err(cause) => return Err(cause),
        };
        count = counted(count, found);
        let _reaped = items.pop_front();
        left -= 1;
    }
    Ok(Gone::All(count))
}

impl Waits {
    /// Lets those go that are over at that moment, and counts those that were still there.
    ///
    /// Where it is left off a first part of them is gone, and the others are left for the next call.
    pub(crate) fn reap<P: Patience>(
        &mut self,
        patience: &P,
        tables: &Tables,
        worker: &mut Worker,
        moment: u32,
    ) -> Result<u64, Cause>
        requires before { AreBefore moment self.old }
        requires ready { IsReady tables.now worker.old }
        requires enters { MayEnter (length self.old) worker.old }
        requires draws { MayDraw (2 * length self.old) worker.old }
        ensures before { AreBefore moment self.new }
        ensures ready { IsReady tables.now worker.new }
        ensures caller { words.caller worker.new.turns ≡ words.caller worker.old.turns }
        ensures entered { words.draws worker.new.turns + length self.new ≤ words.draws worker.old.turns
            + length self.old }
        ensures drawn { (more : ℕ) → MayDraw (more + 2 * length self.old) worker.old
            → MayDraw (more + 2 * length self.new) worker.new }
        ensures listed { KeepsLists tables.now worker.old worker.new }
        ensures reaps { IfOk result (λ count. Went (buckets_of tables.now) (plans.reap self.old moment)
            (turned worker.old) (turned worker.new)
            (chained tables.now worker.old) (chained tables.now worker.new) (ends count)) }
        ensures kept { OnOk result (self.new ≡ plans.kept_waits self.old moment) }
        ensures stops { OnErr result (StopsReaping (buckets_of tables.now) self.old moment
            (turned worker.old) (turned worker.new)
            (chained tables.now worker.old) (chained tables.now worker.new) self.new) }
        ensures patient { P.endless ≡ true → IfErr result (λ cause. cause ≡ causes.Memory) }
    {
        match reap_first(patience, tables, worker, &mut self.items, moment, u64::MAX) {
            Ok(Gone::All(count)) => Ok(count),
            // There are fewer of them.
            Ok(Gone::More(_)) => unreachable!(),
            Err(cause) => Err(cause),
        }
    }

    /// [`Waits::reap`] of so many at most.
    pub(crate) fn reap_most<P: Patience>(
        &mut self,
        patience: &P,
        tables: &Tables,
        worker: &mut Worker,
        moment: u32,
        most: u64,
    ) -> Result<Gone, Cause>
        requires before { AreBefore moment self.old }
        requires ready { IsReady tables.now worker.old }
        requires enters { MayEnter (length self.old) worker.old }
        requires draws { MayDraw (2 * length self.old) worker.old }
        ensures before { AreBefore moment self.new }
        ensures ready { IsReady tables.now worker.new }
        ensures caller { words.caller worker.new.turns ≡ words.caller worker.old.turns }
        ensures entered { words.draws worker.new.turns + length self.new ≤ words.draws worker.old.turns
            + length self.old }
        ensures drawn { (more : ℕ) → MayDraw (more + 2 * length self.old) worker.old
            → MayDraw (more + 2 * length self.new) worker.new }
        ensures listed { KeepsLists tables.now worker.old worker.new }
        ensures most { length self.old ≤ length self.new + most }
        ensures reaps { IfOk result (ReapsFirst (buckets_of tables.now) self.old moment
            (turned worker.old) (turned worker.new)
            (chained tables.now worker.old) (chained tables.now worker.new) self.new most) }
        ensures stops { OnErr result (StopsReaping (buckets_of tables.now) self.old moment
            (turned worker.old) (turned worker.new)
            (chained tables.now worker.old) (chained tables.now worker.new) self.new) }
        ensures patient { P.endless ≡ true → IfErr result (λ cause. cause ≡ causes.Memory) }
    {
        reap_first(patience, tables, worker, &mut self.items, moment, most)
    }
}
