//! A change under its own lock, and a lookup whose count is put: what the tests are made of.

ghost use Rattle.std.specs.Prelude.{◌≡◌, ◌+◌, ◌^◌, ◌<◌, [], IfOk, false};
ghost use Rattle.sock_card.specs.Words.{packed};
ghost use Rattle.table_rule.specs.Calls.{IsOf, Becomes, view, layout_of};
ghost use Rattle.table_rule.specs.CardsOk.{has_tuple};
ghost use Rattle.table_rule.specs.Owners.{time_waits};
ghost use Rattle.table_rule.specs.Words.{bucket_count, words_of};
ghost use Rattle.bucket_locks.specs.Locks.{IsAt};
ghost use Rattle.chain_tests.specs.Ready.{IsReady, CanUnhash, CanLook};

use bucket_locks::{Locked, lock, unlock};
use chain_book::{Shape, home};
use null_reader::answers::Look;
use null_reader::{LookEnd, Pace, PassEnd, look};
use nulls_chain::{Halt, Place, hash_with, unhash_tw, unhash_with, walk, walk_to_end};
use patience::Waits;
use sock_card::{Card, Packet, pack};
use sock_slots::{Full, claim, put, write_card};
use std::sync::Wait;
use table_rule::{Chains, Pass, Steps};

/// A table's shape, and the seed of its hashes.
#[derive(Clone, Copy)]
pub struct Plan {
    pub shape: Shape,
    pub seed: u32,
}

/// Hashes a card that is no full socket's and no request's, under its bucket's lock.
pub fn hash_in<R: Wait, H: Halt>(
    chains: &Chains,
    rt: &R,
    pass: &mut Pass,
    plan: &Plan,
    card: &Card,
    rest: u32,
    halt: &mut H,
) -> Result<Place, Full>
    requires layout { layout_of chains.now ≡ record { shape = plan.now.shape; seed = plan.now.seed } }
    requires shape { (0 < plan.now.shape.hash) × (0 < plan.now.shape.listen)
        × (plan.now.shape.hash + plan.now.shape.listen < 2 ^ 32) }
    requires kind { has_tuple (packed card.now).ports ≡ false }
    requires ready { IsReady chains.now pass.old (rest + 1) }
    ensures ready { IsReady chains.now pass.new rest }
    ensures place { IfOk result (λ place. time_waits (words_of (packed card.now)) ≡ 0
        → CanUnhash chains.now pass.new place) }
    ensures others { (place : Place) → CanUnhash chains.now pass.old place → CanUnhash chains.now pass.new place }
{
    let bucket = home(&plan.shape, plan.seed, card);
    let mut locked = lock(chains, &Waits::by(rt), &mut pass.steps, bucket).unwrap();
    walk_to_end(chains, &mut pass.steps, &mut locked);
    let answer = hash_with(chains, pass, &locked, 0, card, halt);
    unlock(chains, &mut pass.steps, locked);
    answer
}

/// Unhashes a place of the pass, under its bucket's lock.
pub fn unhash_in<R: Wait, H: Halt>(
    chains: &Chains,
    rt: &R,
    pass: &mut Pass,
    place: Place,
    rest: u32,
    halt: &mut H,
)
    requires place { CanUnhash chains.now pass.old place }
    requires ready { IsReady chains.now pass.old (rest + 1) }
    ensures ready { IsReady chains.now pass.new rest }
{
    let mut locked = lock(chains, &Waits::by(rt), &mut pass.steps, place.bucket).unwrap();
    unhash_with(chains, pass, &mut locked, place, halt);
    unlock(chains, &mut pass.steps, locked);
}

/// Unhashes the first TIME_WAIT of this name in a bucket, under its lock.
pub fn unhash_wait_in<R: Wait>(
    chains: &Chains,
    rt: &R,
    pass: &mut Pass,
    bucket: u32,
    name: u64,
    rest: u32,
) -> Option<u32>
    requires bucket { bucket < bucket_count (layout_of chains.now) }
    requires ready { IsReady chains.now pass.old (rest + 1) }
    ensures ready { IsReady chains.now pass.new rest }
{
    let mut locked = lock(chains, &Waits::by(rt), &mut pass.steps, bucket).unwrap();
    let slot = unhash_tw(chains, pass, &mut locked, name);
    unlock(chains, &mut pass.steps, locked);
    slot
}

/// Claims a slot under a bucket's lock and writes a card into it, and goes no further: the bucket stays locked.
pub fn fill_in<R: Wait>(
    chains: &Chains,
    rt: &R,
    pass: &mut Pass,
    bucket: u32,
    card: &Card,
    rest: u32,
) -> Option<u32>
    requires bucket { bucket < bucket_count (layout_of chains.now) }
    requires ready { IsReady chains.now pass.old (rest + 1) }
{
    let _locked = lock(chains, &Waits::by(rt), &mut pass.steps, bucket).unwrap();
    chains.step_begin_hash(&mut pass.steps);
    let slot = claim(chains, &mut pass.steps, 0).ok()?;
    write_card(chains, &mut pass.steps, slot, &pack(card));
    Some(slot)
}

/// The names of the first two cards of a chain, and whether it has no more.
pub type Names = (Option<u64>, Option<u64>, bool);

fn walked_names(chains: &Chains, steps: &mut Steps, locked: &mut Locked) -> Names
    requires table { IsOf chains.now steps.old }
    requires at { IsAt (layout_of chains.now) locked.old (view steps.old) }
    requires fresh { locked.old.started ≡ false }
    ensures table { IsOf chains.now steps.new }
    ensures at { IsAt (layout_of chains.now) locked.new (view steps.new) }
    ensures locked { locked.new.bucket ≡ locked.old.bucket }
    ensures kept { Becomes steps.old steps.new (record (view steps.old) { chain = (view steps.new).chain }) }
{
    let Some((_, first)) = walk(chains, steps, locked) else {
        return (None, None, true);
    };
    let Some((_, second)) = walk(chains, steps, locked) else {
        return (Some(first.name), None, true);
    };
    let ends = walk(chains, steps, locked).is_none();
    (Some(first.name), Some(second.name), ends)
}

/// The names of a bucket's cards, walked under its lock.
pub fn names_in<R: Wait>(chains: &Chains, rt: &R, pass: &mut Pass, bucket: u32, rest: u32) -> Names
    requires bucket { bucket < bucket_count (layout_of chains.now) }
    requires ready { IsReady chains.now pass.old rest }
    ensures ready { IsReady chains.now pass.new rest }
{
    let mut locked = lock(chains, &Waits::by(rt), &mut pass.steps, bucket).unwrap();
    let names = walked_names(chains, &mut pass.steps, &mut locked);
    unlock(chains, &mut pass.steps, locked);
    names
}

/// What a lookup answers, a card by its name.
#[derive(Clone, Copy, Debug, PartialEq, Eq)]
pub enum Answer {
    Found(u64),
    None,
    Foreign(u64),
    Dead(u32),
    Changed(u32),
    Long(u64),
}

/// Looks up a packet in a bucket, and puts what was found.
pub fn look_in<P: Pace>(
    chains: &Chains,
    steps: &mut Steps,
    bucket: u32,
    packet: &Packet,
    passes: u32,
    pace: &mut P,
) -> Answer
    requires table { IsOf chains.now steps.old }
    requires bucket { bucket < bucket_count (layout_of chains.now) }
    requires ready { CanLook (view steps.old) }
    requires passes { 0 < passes }
    ensures table { IsOf chains.now steps.new }
    ensures ready { CanLook (view steps.new) }
{
    let Look { end, t0: _, t1: _ } = look(chains, steps, bucket, packet, 1, passes, pace);
    match end {
        LookEnd::Found(held, card) => {
            put(chains, steps, held);
            Answer::Found(card.name)
        }
        LookEnd::None => Answer::None,
        LookEnd::Again(_, PassEnd::Foreign(end)) => Answer::Foreign(end),
        LookEnd::Again(_, PassEnd::Dead(slot)) => Answer::Dead(slot),
        LookEnd::Again(_, PassEnd::Changed(slot)) => Answer::Changed(slot),
        LookEnd::Again(_, PassEnd::Long(links)) => Answer::Long(links),
    }
}
