ghost use Rattle.std.specs.Prelude.{◌≡◌, ◌+◌, ◌≤◌, ◌<◌, ◌^◌, [], map, true, false, OnOk, OnErr, IfOk};
ghost use Rattle.table_rule.specs.Changes.{are_kept, list_of, len_of, capacity_of};
ghost use Rattle.table_rule.specs.Closes.{change_of};
ghost use Rattle.table_rule.specs.Calls.{view};
ghost use Rattle.table_rule.specs.Rule.{first};
ghost use Rattle.table_rule.specs.Passes.{known, seen_by, drawn_by, changed_by, room_of, IsPassOf, HasShareLeft, cut_of, new_of, joined_of};
ghost use Rattle.table_rule.specs.Plays.{IsFree};

use super::changes::Changes;
use super::pass::Pass;
use super::table::Chains;
use chain_book::{Change, Shape};
use std::alloc::{AllocError, Global};

impl Pass {
    /// All changes that it closed, and those of the passes that it joined: none where it only counts them.
    pub fn changes(&self) -> &[Change]
        ensures list { result.now ≡ list_of self.now.changes }
        ensures all { are_kept self.now.changes ≡ true → map change_of result.now ≡ changed_by self.now }
    {
        self.changes.as_slice()
    }

    /// Makes room for so many changes more, which takes memory where they are kept and that room is not there yet.
    ///
    /// Where memory is wanting nothing has changed.
    pub fn reserve(&mut self, count: usize) -> Result<(), AllocError>
        ensures steps { self.new.steps ≡ self.old.steps }
        ensures kept { are_kept self.new.changes ≡ are_kept self.old.changes }
        ensures list { list_of self.new.changes ≡ list_of self.old.changes }
        ensures len { len_of self.new.changes ≡ len_of self.old.changes }
        ensures room { OnOk result (len_of self.old.changes + count ≤ capacity_of self.new.changes) }
        ensures more { capacity_of self.old.changes ≤ capacity_of self.new.changes }
        ensures full { OnErr result (capacity_of self.old.changes < len_of self.old.changes + count) }
    {
        self.changes.reserve(count)
    }

    /// From now on it counts its changes and keeps none. Those that it kept so far are let go.
    pub fn count_only(&mut self)
        ensures steps { self.new.steps ≡ self.old.steps }
        ensures kept { are_kept self.new.changes ≡ false }
    {
        self.changes.count_only();
    }

    /// How many changes there can still be without growth.
    pub fn room(&self) -> usize
        ensures { result ≡ room_of self.now }
    {
        self.changes.room()
    }

    /// The greatest value of the clock that it knows.
    ///
    /// It is above each number that it drew, and no less than each value that it loaded; so it is with what a pass
    /// knew from which it was split, and with what those know that it joined.
    pub fn seen(&self) -> u64
        ensures { result ≡ seen_by self.now }
    {
        self.steps.seen
    }

    /// How many numbers of the clock it drew, with those of the passes that it joined.
    ///
    /// Two for each change, and one for each beginning for which no slot was free.
    pub fn drawn(&self) -> u64
        ensures { result ≡ drawn_by self.now }
    {
        self.steps.drawn
    }
}

impl Chains {
    /// A table in which all slots are free and all chains empty, and its first pass, which keeps its changes.
    ///
    /// The seed is that of the hashes by which cards have their buckets. It takes memory for eight bytes a word, and
    /// as much again while it is made.
    pub fn new(alloc: Global, shape: Shape, seed: u32) -> Result<(Chains, Pass), AllocError>
        requires small { shape.slots + 1 < 2 ^ 32 }
        ensures pass { IfOk result (λ t. IsPassOf t.0 t.1) }
        ensures layout { IfOk result (λ t. t.0.layout ≡ record { shape = shape; seed = seed }) }
        ensures first { IfOk result (λ t. t.1.steps.seat.me ≡ (first t.0.layout, [])) }
        ensures kept { IfOk result (λ t. are_kept t.1.changes ≡ true) }
    {
        let (chains, steps) = Chains::of_shape(alloc, shape, seed)?;
        let changes = Changes::new(alloc);
        Ok((chains, Pass { steps, changes }))
    }

    /// A second pass, with one part of the first one's right to know the whole table.
    ///
    /// It has seen what the first has seen, has no changes, and keeps those to come where the first does. It takes no
    /// memory.
    pub fn split(&self, alloc: Global, pass: &mut Pass) -> Pass
        requires table { IsPassOf self.now pass.old }
        requires parts { 1 < (known pass.old).slot.parts }
        requires share { HasShareLeft (known pass.old) }
        ensures table { IsPassOf self.now pass.new × IsPassOf self.now result }
        ensures old { pass.new.steps.seat.me ≡ cut_of pass.old }
        ensures new { result.steps.seat.me ≡ new_of pass.old }
        ensures changes { pass.new.changes ≡ pass.old.changes }
        ensures kept { are_kept result.changes ≡ are_kept pass.old.changes }
    {
        Pass {
            steps: self.split_steps(&mut pass.steps),
            changes: pass.changes.none_yet(alloc),
        }
    }

    /// Takes in a pass that holds nothing, with its changes, into the room that was reserved for them.
    ///
    /// It takes no memory.
    pub fn join(&self, pass: &mut Pass, other: Pass)
        requires table { IsPassOf self.now pass.old }
        requires other { IsPassOf self.now other × (other.steps.seat.me.1 ≡ []) × IsFree (known other) }
        requires kept { are_kept other.changes ≡ are_kept pass.old.changes }
        requires room { len_of pass.old.changes + len_of other.changes ≤ capacity_of pass.old.changes }
        ensures table { IsPassOf self.now pass.new }
        ensures view { pass.new.steps.seat.me ≡ joined_of pass.old other }
        ensures kept { are_kept pass.new.changes ≡ are_kept pass.old.changes }
        ensures len { len_of pass.new.changes ≡ len_of pass.old.changes + len_of other.changes }
        ensures room { capacity_of pass.new.changes ≡ capacity_of pass.old.changes }
    {
        let Pass { steps, changes } = other;
        pass.changes.append(changes);
        self.join_steps(&mut pass.steps, steps);
    }
}
