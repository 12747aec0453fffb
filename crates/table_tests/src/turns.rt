//! Tests over values that count their calls.

ghost use Rattle.std.specs.Prelude.{◌≡◌, ℕ, ◌+◌, ◌-◌, ◌^◌, ◌<◌, ◌≤◌, [], ◌∷◌, ◌++◌, length, IfOk, OnOk, vec_len, vec_capacity};
ghost use Rattle.turn_table.specs.Views.{first};
ghost use Rattle.turn_table.specs.Passes as words;
ghost use Rattle.turn_table.specs.Passes.{IsPassOf, IsFree};

use patience::Waits;
use std::alloc::{AllocError, Global};
use std::sync::Wait;
use std::test::Fail;
use std::thread::{Threads, join};
use turn_table::{Journaled, Note, TurnPass, Turns};

/// A value that counts its calls. An entry is the number of its caller.
#[derive(Drop)]
struct Tally {
    place: u64,
    places: u64,
    calls: u64,
    journal: Vec<Note<u64>>,
}

impl Journaled for Tally {
    ghost use Rattle.std.specs.Prelude.{◌≡◌, length};

    type Entry = u64;

    type Home = ();

    ghost notes = { λ t. t.journal.items };

    ghost is_replay = { λ t. t.calls ≡ length t.journal.items };

    ghost made_for = { λ home i n t. (t.place ≡ i) × (t.places ≡ n) };

    ghost may_make = { λ caller entry. entry ≡ caller };
}

impl Tally {
    fn new(alloc: Global, place: u64, places: u64) -> Tally
        ensures { (result.place ≡ place) × (result.places ≡ places) × (result.calls ≡ 0) × (result.journal.items ≡ []) }
    {
        Tally {
            place,
            places,
            calls: 0,
            journal: Vec::new(alloc),
        }
    }

    fn reserve(&mut self) -> Result<(), AllocError>
        ensures same { (self.new.place ≡ self.old.place) × (self.new.places ≡ self.old.places)
            × (self.new.calls ≡ self.old.calls) × (self.new.journal.items ≡ self.old.journal.items) }
        ensures room { OnOk result (vec_len self.new.journal < vec_capacity self.new.journal) }
    {
        self.journal.reserve(1)
    }

    fn call(&mut self, number: u64, caller: u32)
        requires { vec_len self.old.journal < vec_capacity self.old.journal }
        ensures same { (self.new.place ≡ self.old.place) × (self.new.places ≡ self.old.places) }
        ensures calls { self.new.calls ≡ length self.new.journal.items }
        ensures journal { self.new.journal.items ≡ self.old.journal.items
            ++ record { number = number; caller = caller; entry = caller } ∷ [] }
    {
        self.journal.push_reserved(Note {
            number,
            caller,
            entry: u64::from(caller),
        });
        self.calls = self.journal.len() as u64;
    }
}

/// One call on the value of a place, in its turn.
fn call_once<R: Wait>(
    rt: &R,
    turns: &Turns<Tally>,
    pass: &mut TurnPass<Tally>,
    caller: u32,
    place: usize,
) -> Result<(), AllocError>
    requires table { IsPassOf turns.now pass.old × IsFree pass.old }
    requires part { 0 < words.parts pass.old }
    requires place { place < words.places turns.now }
    requires caller { words.caller pass.old ≡ caller }
    requires few { words.draws pass.old < 2 ^ 48 }
    ensures table { IsPassOf turns.now pass.new × IsFree pass.new }
    ensures same { (words.parts pass.new ≡ words.parts pass.old) × (words.caller pass.new ≡ words.caller pass.old)
        × (words.splits pass.new ≡ words.splits pass.old) }
    ensures draws { words.draws pass.new ≤ words.draws pass.old + 1 }
{
    let mut turn = turns.take_turn(&Waits::by(rt), pass, place).unwrap();
    match turn.value.reserve() {
        Ok(()) => {
            let number = turns.draw(pass, &turn);
            turn.value.call(number, caller);
            turns.give(pass, turn);
            Ok(())
        }
        Err(refused) => {
            turns.give(pass, turn);
            Err(refused)
        }
    }
}

/// A worker's pass, and its number.
#[derive(Drop)]
struct Worker {
    pass: TurnPass<Tally>,
    caller: u32,
    ghost new: { (words.parts pass ≡ 1) × (words.caller pass ≡ caller) × (words.draws pass ≡ 0) × IsFree pass },
}

/// Three calls by one worker, on the values 0, 1 and 0.
fn work<R: Wait>(
    rt: &R,
    turns: &Turns<Tally>,
    worker: Worker,
) -> Result<TurnPass<Tally>, AllocError>
    requires table { IsPassOf turns.now worker.pass × (2 ≤ words.places turns.now) }
    ensures { IfOk result (λ p. IsPassOf turns.now p × IsFree p × (words.parts p ≡ 1)) }
{
    let Worker { mut pass, caller } = worker;
    call_once(rt, turns, &mut pass, caller, 0)?;
    call_once(rt, turns, &mut pass, caller, 1)?;
    call_once(rt, turns, &mut pass, caller, 0)?;
    Ok(pass)
}

/// Two workers beside each other.
fn work_both<R: Threads + Wait + Sync>(
    rt: &R,
    turns: &Turns<Tally>,
    one: Worker,
    two: Worker,
) -> Result<(TurnPass<Tally>, TurnPass<Tally>), AllocError>
    requires table { IsPassOf turns.now one.pass × IsPassOf turns.now two.pass × (2 ≤ words.places turns.now) }
    ensures one { IfOk result (λ p. IsPassOf turns.now p.0 × IsFree p.0 × (words.parts p.0 ≡ 1)) }
    ensures two { IfOk result (λ p. IsPassOf turns.now p.1 × IsFree p.1 × (words.parts p.1 ≡ 1)) }
{
    let (a, b) = join(
        rt,
        || -> Result<TurnPass<Tally>, AllocError>
            requires { IsPassOf turns.now one.pass × (2 ≤ words.places turns.now) }
            ensures { IfOk result (λ p. IsPassOf turns.entry.now p × IsFree p × (words.parts p ≡ 1)) }
        { work(rt, turns, one) },
        || -> Result<TurnPass<Tally>, AllocError>
            requires { IsPassOf turns.now two.pass × (2 ≤ words.places turns.now) }
            ensures { IfOk result (λ p. IsPassOf turns.entry.now p × IsFree p × (words.parts p ≡ 1)) }
        { work(rt, turns, two) },
    );
    Ok((a?, b?))
}

/// The pass of the next worker.
fn hire(turns: &Turns<Tally>, first: &mut TurnPass<Tally>, caller: u32) -> Worker
    requires first { IsPassOf turns.now first.old × IsFree first.old × (words.caller first.old ≡ 0)
        × (0 < words.parts first.old) }
    requires next { (words.splits first.old + 1 ≡ caller) × (caller < 2 ^ 14 - 2) }
    ensures first { IsPassOf turns.now first.new × IsFree first.new × (words.caller first.new ≡ 0)
        × (words.parts first.new + 1 ≡ words.parts first.old) × (words.splits first.new ≡ caller) }
    ensures worker { IsPassOf turns.now result.pass × (result.caller ≡ caller) }
{
    Worker {
        pass: first.split(turns),
        caller,
    }
}

/// Two values, and a pass with all parts once more, after four workers made three calls each.
fn work_all<R: Threads + Wait + Sync>(
    rt: &R,
    turns: Turns<Tally>,
    first: TurnPass<Tally>,
    alloc: Global,
) -> Result<Vec<Tally>, AllocError>
    requires table { IsPassOf turns first × IsFree first × (words.places turns ≡ 2) }
    requires first { (words.parts first ≡ 16384) × (words.caller first ≡ 0) × (words.splits first ≡ 0) }
{
    let mut first = first;
    let one = hire(&turns, &mut first, 1);
    let two = hire(&turns, &mut first, 2);
    let three = hire(&turns, &mut first, 3);
    let four = hire(&turns, &mut first, 4);
    let shared = &turns;
    let (low, high) = join(
        rt,
        || -> Result<(TurnPass<Tally>, TurnPass<Tally>), AllocError>
            requires { IsPassOf shared.now one.pass × IsPassOf shared.now two.pass × (2 ≤ words.places shared.now) }
            ensures { IfOk result (λ p. IsPassOf shared.entry.now p.0 × IsFree p.0 × (words.parts p.0 ≡ 1)
                × IsPassOf shared.entry.now p.1 × IsFree p.1 × (words.parts p.1 ≡ 1)) }
        { work_both(rt, shared, one, two) },
        || -> Result<(TurnPass<Tally>, TurnPass<Tally>), AllocError>
            requires { IsPassOf shared.now three.pass × IsPassOf shared.now four.pass × (2 ≤ words.places shared.now) }
            ensures { IfOk result (λ p. IsPassOf shared.entry.now p.0 × IsFree p.0 × (words.parts p.0 ≡ 1)
                × IsPassOf shared.entry.now p.1 × IsFree p.1 × (words.parts p.1 ≡ 1)) }
        { work_both(rt, shared, three, four) },
    );
    let (one, two) = low?;
    let (three, four) = high?;
    first.join(&turns, one);
    first.join(&turns, two);
    first.join(&turns, three);
    first.join(&turns, four);
    turns.into_values(alloc, first)
}

/// A table of two values.
fn two_turns(alloc: Global) -> Result<(Turns<Tally>, TurnPass<Tally>), AllocError>
    ensures places { IfOk result (λ t. words.places t.0 ≡ 2) }
    ensures pass { IfOk result (λ t. IsPassOf t.0 t.1 × IsFree t.1 × (words.known t.1 ≡ first tt)) }
{
    let mut values = Vec::new(alloc);
    values.push(Tally::new(alloc, 0, 2))?;
    values.push(Tally::new(alloc, 1, 2))?;
    Turns::new(alloc, values)
}

/// The numbers of all entries, in order.
fn numbers(alloc: Global, values: &[Tally]) -> Result<Vec<u64>, AllocError> {
    let mut all = Vec::new(alloc);
    for value in values {
        for note in value.journal.iter() {
            all.push(note.number)?;
        }
    }
    all.sort()?;
    Ok(all)
}

/// How often a caller stands in a journal.
fn calls_of(value: &Tally, caller: u32) -> usize {
    value
        .journal
        .iter()
        .filter(|note| note.caller == caller && note.entry == u64::from(caller))
        .count()
}

/// Whether the numbers of a journal ascend.
fn ascends(value: &Tally) -> bool {
    value
        .journal
        .as_slice()
        .windows(2)
        .all(|pair| pair[0].number < pair[1].number)
}

#[test]
fn four_threads_take_turns(rt: HostRuntime) -> Result<(), Fail> {
    let alloc = rt.alloc();
    let (turns, first) = two_turns(alloc)?;
    let values = work_all(&rt, turns, first, alloc)?;
    let [zero, one] = values.as_slice() else {
        panic!(rt; "two values")
    };
    assert_eq!(rt; (zero.calls, one.calls), (8, 4));
    assert_eq!(rt; (zero.journal.len(), one.journal.len()), (8, 4));
    assert!(rt; ascends(zero) && ascends(one));
    for caller in 1..5 {
        assert_eq!(rt; (calls_of(zero, caller), calls_of(one, caller)), (2, 1));
    }
    let all = numbers(alloc, values.as_slice())?;
    let count: Vec<u64> = (0..12u64).collect(alloc)?;
    assert_eq!(rt; all.as_slice(), count.as_slice());
    Ok(())
}

/// Whether nobody has the turn of a place. Where that is so, it is taken and given back.
fn is_free(turns: &Turns<Tally>, pass: &mut TurnPass<Tally>, place: usize) -> bool
    requires table { IsPassOf turns.now pass.old × IsFree pass.old }
    requires part { 0 < words.parts pass.old }
    requires place { place < words.places turns.now }
    ensures table { IsPassOf turns.now pass.new × IsFree pass.new }
    ensures part { words.parts pass.new ≡ words.parts pass.old }
{
    match turns.try_take_turn(pass, place) {
        None => false,
        Some(turn) => {
            turns.give(pass, turn);
            true
        }
    }
}

#[test]
fn a_turn_that_is_out_is_not_taken(rt: HostRuntime) -> Result<(), Fail> {
    let (turns, mut first) = two_turns(rt.alloc())?;
    let mut second = first.split(&turns);
    let Some(turn) = turns.try_take_turn(&mut first, 0) else {
        panic!(rt; "nobody has the turn")
    };
    let meanwhile = (
        is_free(&turns, &mut second, 0),
        is_free(&turns, &mut second, 1),
    );
    turns.give(&mut first, turn);
    let afterwards = is_free(&turns, &mut second, 0);
    assert_eq!(rt; (meanwhile, afterwards), ((false, true), true));
    Ok(())
}

#[test]
fn each_call_on_one_thread(rt: HostRuntime) -> Result<(), Fail> {
    let alloc = rt.alloc();
    let mut values = Vec::new(alloc);
    values.push(Tally::new(alloc, 0, 2))?;
    values.push(Tally::new(alloc, 1, 2))?;
    let (turns, mut first) = Turns::with_home(alloc, values, &())?;
    assert_eq!(rt; turns.places(), 2);
    let mut second = first.split(&turns);
    call_once(&rt, &turns, &mut first, 0, 1)?;
    assert_eq!(rt; second.now(&turns), 1);
    call_once(&rt, &turns, &mut second, 1, 0)?;
    call_once(&rt, &turns, &mut second, 1, 1)?;
    let note = second.note(&turns);
    first.join(&turns, note);
    assert_eq!(rt; first.now(&turns), 3);
    first.join(&turns, second);
    assert_eq!(rt; first.now(&turns), 3);
    let values = turns.into_values(alloc, first)?;
    let [zero, one] = values.as_slice() else {
        panic!(rt; "two values")
    };
    assert_eq!(rt; (zero.calls, one.calls), (1, 2));
    assert_eq!(rt; calls_of(zero, 1), 1);
    assert_eq!(rt; (calls_of(one, 0), calls_of(one, 1)), (1, 1));
    assert!(rt; ascends(one));
    let all = numbers(alloc, values.as_slice())?;
    assert_eq!(rt; all.as_slice(), [0, 1, 2].as_slice());
    Ok(())
}
