//! The chain table with its layout, and a thread's part in it.

ghost use Rattle.std.specs.Prelude.{◌≡◌, ◌+◌, ◌^◌, ◌<◌, IfOk, OnOk};
ghost use Rattle.sock_ops.specs.Sizes.{IsSized};
ghost use Rattle.table_rule.specs.Calls.{layout_of};

use chain_book::{Shape, home};
use sock_card::Card;
use std::alloc::{AllocError, Global};
use table_rule::{Chains, Layout, Pass};

/// The chain table, what it is laid out for, which is its sizes and the seed by which cards have their chains, and
/// whether its passes keep their changes or count them.
#[derive(Drop)]
pub struct ChainTable {
    pub chains: Chains,
    pub layout: Layout,
    pub keeps_changes: bool,
    ghost laid: { layout ≡ layout_of chains },
    ghost sized: { IsSized layout.shape },
}

/// A thread's part in the chain table, and the slot from which it seeks the next free one.
#[derive(Drop)]
pub struct ChainPass {
    pub pass: Pass,
    pub next: u32,
}

impl ChainTable {
    ghost use Rattle.std.specs.Prelude.{◌≤◌, true, false};
    ghost use Rattle.chain_book.specs.Homes.{chain_count};
    ghost use Rattle.chain_book.specs.Homes as homes;
    ghost use Rattle.sock_ops.specs.Sides.{IsResting, HasRoom, HoldsNothing};
    ghost use Rattle.table_rule.specs.Changes.{len_of, capacity_of};
    ghost use Rattle.table_rule.specs.Passes.{known, HasShareLeft};
    ghost use Rattle.table_rule.specs.Plays.{both, cut, newcomer, seeing};
    ghost use Rattle.table_rule.specs.Rule.{first, drawn};
    ghost use Rattle.table_rule.specs.Sole.{WholeBook, AllSettled};

    /// A table in which all chains are empty, and its first pass. Its passes keep their changes.
    ///
    /// It takes memory for eight bytes a word, six words a slot, and as much again while it is made.
    ///
    /// # Errors
    ///
    /// Memory ran out.
    pub fn new(
        alloc: Global,
        shape: Shape,
        seed: u32,
    ) -> Result<(ChainTable, ChainPass), AllocError>
        requires sized { IsSized shape }
        requires small { shape.slots + 1 < 2 ^ 32 }
        ensures layout { IfOk result (λ t. t.0.layout ≡ record { shape = shape; seed = seed }) }
        ensures rests { IfOk result (λ t. IsResting t.0 t.1) }
        ensures first { IfOk result (λ t. known t.1.pass ≡ first t.0.layout) }
        ensures next { IfOk result (λ t. t.1.next ≡ 0) }
        ensures keeps { IfOk result (λ t. t.0.keeps_changes ≡ true) }
    {
        let (chains, pass) = Chains::new(alloc, shape, seed)?;
        let layout = Layout { shape, seed };
        let table = ChainTable {
            chains,
            layout,
            keeps_changes: true,
        };
        Ok((table, ChainPass { pass, next: 0 }))
    }

    /// Such a table whose passes count their changes, and keep none.
    ///
    /// # Errors
    ///
    /// Memory ran out.
    pub fn counting(
        alloc: Global,
        shape: Shape,
        seed: u32,
    ) -> Result<(ChainTable, ChainPass), AllocError>
        requires sized { IsSized shape }
        requires small { shape.slots + 1 < 2 ^ 32 }
        ensures layout { IfOk result (λ t. t.0.layout ≡ record { shape = shape; seed = seed }) }
        ensures rests { IfOk result (λ t. IsResting t.0 t.1) }
        ensures first { IfOk result (λ t. known t.1.pass ≡ first t.0.layout) }
        ensures next { IfOk result (λ t. t.1.next ≡ 0) }
        ensures counts { IfOk result (λ t. t.0.keeps_changes ≡ false) }
    {
        let (mut table, mut pass) = ChainTable::new(alloc, shape, seed)?;
        table.keeps_changes = false;
        pass.pass.count_only();
        Ok((table, pass))
    }

    /// The chain in which a card belongs.
    pub fn bucket_of(&self, card: &Card) -> u32
        ensures home { result ≡ homes.home self.now.layout.shape self.now.layout.seed card.now }
        ensures below { result < chain_count self.now.layout.shape }
    {
        home(&self.layout.shape, self.layout.seed, card)
    }

    /// A second pass, with one part of the first one's right to know the whole table.
    ///
    /// It has seen what the first has seen, has no changes, and seeks its first slot where the first would. It takes no
    /// memory.
    pub fn split(&self, alloc: Global, pass: &mut ChainPass) -> ChainPass
        requires rests { IsResting self.now pass.old }
        requires parts { 1 < (known pass.old.pass).slot.parts }
        requires share { HasShareLeft (known pass.old.pass) }
        ensures rests { IsResting self.now pass.new }
        ensures other { IsResting self.now result }
        ensures cut { known pass.new.pass ≡ cut (known pass.old.pass) }
        ensures new { known result.pass ≡ newcomer (known pass.old.pass) }
        ensures next { pass.new.next ≡ pass.old.next }
        ensures begin { result.next ≡ pass.old.next }
        ensures room { pass.new.pass.changes ≡ pass.old.pass.changes }
    {
        ChainPass {
            pass: self.chains.split(alloc, &mut pass.pass),
            next: pass.next,
        }
    }

    /// Takes in a pass that rests and holds nothing, with its changes, into the room that was made for them.
    ///
    /// The slot from which the first seeks its next one stays as it was. It takes no memory.
    pub fn join(&self, pass: &mut ChainPass, other: ChainPass)
        requires rests { IsResting self.now pass.old }
        requires other { IsResting self.now other }
        requires nothing { HoldsNothing (known other.pass) }
        requires room { HasRoom (len_of other.pass.changes) pass.old }
        ensures rests { IsResting self.now pass.new }
        ensures both { known pass.new.pass ≡ both (known pass.old.pass) (known other.pass) }
        ensures next { pass.new.next ≡ pass.old.next }
        ensures len { len_of pass.new.pass.changes ≡ len_of pass.old.pass.changes + len_of other.pass.changes }
        ensures room { capacity_of pass.new.pass.changes ≡ capacity_of pass.old.pass.changes }
    {
        self.chains.join(&mut pass.pass, other.pass);
    }

    /// Loads the clock: what the pass drew before is below it, and what it saw before was true before.
    pub fn now(&self, pass: &mut ChainPass) -> u64
        requires rests { IsResting self.now pass.old }
        ensures rests { IsResting self.now pass.new }
        ensures later { (known pass.old.pass).seen ≤ result }
        ensures drawn { drawn (known pass.old.pass) ≤ result }
        ensures sees { known pass.new.pass ≡ seeing (known pass.old.pass) result }
        ensures whole { WholeBook (known pass.new.pass) result }
        ensures settled { AllSettled (known pass.new.pass) result }
        ensures next { pass.new.next ≡ pass.old.next }
        ensures room { pass.new.pass.changes ≡ pass.old.pass.changes }
    {
        self.chains.step_clock(&mut pass.pass.steps)
    }
}

impl ChainPass {
    ghost use Rattle.std.specs.Prelude.{OnErr};
    ghost use Rattle.sock_ops.specs.Sides.{IsResting, HasRoom, side_of};
    ghost use Rattle.table_rule.specs.Changes.{len_of, capacity_of};

    /// Makes room for so many changes more. Where memory is wanting that room was not there, and nothing has changed.
    pub fn reserve(&mut self, table: &ChainTable, count: usize) -> Result<(), AllocError>
        requires rests { IsResting table.now self.old }
        ensures rests { IsResting table.now self.new }
        ensures same { side_of table.now self.new ≡ side_of table.now self.old }
        ensures room { OnOk result (HasRoom count self.new) }
        ensures full { OnErr result (capacity_of self.old.pass.changes < len_of self.old.pass.changes + count) }
    {
        self.pass.reserve(count)
    }
}
