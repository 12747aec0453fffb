//! The tables that threads share, and a thread's part in them.

ghost use Rattle.std.specs.Prelude.{◌≡◌, ◌+◌, ◌-◌, ◌^◌, ◌<◌, ◌≤◌, IfOk, OnOk};
ghost use Rattle.bind_buckets.specs.Turned.{IsIdle};
ghost use Rattle.bind_buckets.specs.declared.request.Sharing.TheVariants as sharings;
ghost use Rattle.reuseport_group.specs.Passes as lists;
ghost use Rattle.reuseport_group.specs.Views as list_views;
ghost use Rattle.sock_ops.specs.Sides.{IsResting};
ghost use Rattle.sock_ops.specs.Sizes.{IsSized};
ghost use Rattle.sock_ops.specs.Stands.{HasGroups, buckets_of, turned};
ghost use Rattle.sock_ops.specs.Tables.{AreNew, IsAtRest, keeps};
ghost use Rattle.table_rule.specs.Passes as chain_words;
ghost use Rattle.table_rule.specs.Passes.{HasShareLeft};
ghost use Rattle.table_rule.specs.Plays as chain_views;
ghost use Rattle.table_rule.specs.Rule.{first};
ghost use Rattle.turn_table.specs.Passes as words;
ghost use Rattle.turn_table.specs.Views as turn_views;

use crate::chains::{ChainPass, ChainTable};
use bind_buckets::{Bucket, Sharing, turning};
use chain_book::Shape;
use reuseport_group::{GroupPasses, Groups};
use std::alloc::{AllocError, Global};
use turn_table::{TurnPass, Turns};

/// How many groups of listeners a bind bucket has.
const GROUPS: u32 = 8;

/// What becomes of the changes that a worker makes at the chains.
#[derive(Clone, Copy, Debug, PartialEq, Eq)]
pub enum Changes {
    /// It keeps them, so that a record can be made of them.
    Kept,
    /// It counts them, so that it never grows.
    Counted,
}

/// The bind buckets, each under its turn, the chains, and the lists of the groups of listeners: eight groups for each
/// bind bucket, the first of which has eight times the bucket's number.
#[derive(Drop)]
pub struct Tables {
    pub buckets: Turns<Box<Bucket>>,
    pub chains: ChainTable,
    pub groups: Groups,
}

/// A thread's part in the tables.
#[derive(Drop)]
pub struct Worker {
    pub turns: TurnPass<Box<Bucket>>,
    pub chain: ChainPass,
    pub groups: GroupPasses,
}

/// Empty chains, and their first pass.
fn empty_chains(
    alloc: Global,
    shape: Shape,
    seed: u32,
    changes: Changes,
) -> Result<(ChainTable, ChainPass), AllocError>
    requires sized { IsSized shape }
    requires small { shape.slots + 1 < 2 ^ 32 }
    ensures layout { IfOk result (λ t. t.0.layout ≡ record { shape = shape; seed = seed }) }
    ensures rests { IfOk result (λ t. IsResting t.0 t.1) }
    ensures first { IfOk result (λ t. chain_words.known t.1.pass ≡ first t.0.layout) }
    ensures next { IfOk result (λ t. t.1.next ≡ 0) }
    ensures keeps { IfOk result (λ t. t.0.keeps_changes ≡ keeps changes) }
{
    match changes {
        Changes::Kept => ChainTable::new(alloc, shape, seed),
        Changes::Counted => ChainTable::counting(alloc, shape, seed),
    }
}

impl Tables {
    /// Empty tables, and their first worker, which has all parts of the right to know them.
    ///
    /// # Errors
    ///
    /// Memory ran out.
    pub fn new(
        alloc: Global,
        shape: Shape,
        seed: u32,
        sharing: Sharing,
        changes: Changes,
    ) -> Result<(Tables, Worker), AllocError>
        requires sized { IsSized shape }
        requires some { 1 ≤ shape.bind }
        requires most { shape.bind ≤ 256 }
        requires small { shape.slots + 1 < 2 ^ 32 }
        ensures { IfOk result (λ t. AreNew shape seed sharing changes t.0 t.1) }
    {
        let (buckets, turns) = turning::with_buckets(alloc, shape.bind, sharing)?;
        let (chains, chain) = empty_chains(alloc, shape, seed, changes)?;
        let (groups, passes) = Groups::new(alloc, GROUPS * shape.bind)?;
        let tables = Tables {
            buckets,
            chains,
            groups,
        };
        let worker = Worker {
            turns,
            chain,
            groups: passes,
        };
        Ok((tables, worker))
    }
}

impl Worker {
    /// Splits a worker off the first one, as the next caller, with one part of its right to know the tables. It takes no
    /// memory.
    pub fn split(&mut self, alloc: Global, tables: &Tables) -> Worker
        requires turns { words.IsPassOf tables.now.buckets self.old.turns }
        requires first { (words.caller self.old.turns ≡ 0) × (0 < words.parts self.old.turns) }
        requires few { words.splits self.old.turns < 2 ^ 14 - 2 }
        requires some { 1 ≤ buckets_of tables.now }
        requires shared { words.home tables.now.buckets ≡ sharings.Shared }
        requires rests { IsResting tables.now.chains self.old.chain }
        requires parts { 1 < (chain_words.known self.old.chain.pass).slot.parts }
        requires share { HasShareLeft (chain_words.known self.old.chain.pass) }
        requires groups { HasGroups tables.now self.old.groups }
        requires more { 1 < lists.parts self.old.groups }
        ensures turns { words.IsPassOf tables.now.buckets self.new.turns }
        ensures hand { words.hand self.new.turns ≡ words.hand self.old.turns }
        ensures cut { turned self.new ≡ turn_views.cut (turned self.old) }
        ensures turned { turned result ≡ turn_views.newcomer (words.about self.old.turns)
            (words.splits self.old.turns + 1) (words.seen self.old.turns) }
        ensures idle { IsIdle tables.now.buckets result.turns }
        ensures rests { IsResting tables.now.chains self.new.chain }
        ensures other { IsResting tables.now.chains result.chain }
        ensures chain { chain_words.known self.new.chain.pass ≡ chain_views.cut (chain_words.known self.old.chain.pass) }
        ensures chained { chain_words.known result.chain.pass
            ≡ chain_views.newcomer (chain_words.known self.old.chain.pass) }
        ensures next { self.new.chain.next ≡ self.old.chain.next }
        ensures begin { result.chain.next ≡ self.old.chain.next }
        ensures room { self.new.chain.pass.changes ≡ self.old.chain.pass.changes }
        ensures groups { HasGroups tables.now self.new.groups × HasGroups tables.now result.groups }
        ensures listed { lists.known self.new.groups ≡ list_views.cut (lists.known self.old.groups) }
        ensures published { lists.known result.groups ≡ list_views.newcomer (lists.moments self.old.groups) }
    {
        Worker {
            turns: turning::split(&tables.buckets, &mut self.turns),
            chain: tables.chains.split(alloc, &mut self.chain),
            groups: self.groups.split(&tables.groups),
        }
    }

    /// Takes in what another worker did.
    ///
    /// # Errors
    ///
    /// Memory ran out.
    pub fn join(&mut self, tables: &Tables, other: Worker) -> Result<(), AllocError>
        requires rest { IsAtRest tables.now self.old }
        requires part { 0 < words.parts self.old.turns }
        requires other { IsAtRest tables.now other }
        ensures rest { OnOk result (IsAtRest tables.now self.new) }
        ensures turns { OnOk result (turned self.new ≡ turn_views.joined (turned self.old) (turned other)) }
        ensures chain { OnOk result (chain_words.known self.new.chain.pass
            ≡ chain_views.both (chain_words.known self.old.chain.pass) (chain_words.known other.chain.pass)) }
        ensures groups { OnOk result
            (lists.known self.new.groups ≡ list_views.joined (lists.known self.old.groups) (lists.known other.groups)) }
    {
        let Worker {
            turns,
            chain,
            groups,
        } = other;
        self.chain
            .reserve(&tables.chains, chain.pass.changes.len())?;
        tables.chains.join(&mut self.chain, chain);
        self.turns.join(&tables.buckets, turns);
        self.groups.join(&tables.groups, groups);
        Ok(())
    }
}
