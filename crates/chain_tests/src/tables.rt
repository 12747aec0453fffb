//! A new table and its passes.

use chain_book::Shape;
use std::process::Abort;
use std::test::Fail;
use table_rule::{Chains, Pass};

const SHAPE: Shape = Shape {
    slots: 2,
    bind: 1,
    hash: 1,
    listen: 1,
};

fn check_new(rt: &impl Abort, pass: &Pass, now: u64) {
    let fits = pass.room() >= 2;
    assert_eq!(rt; (pass.changes().len(), fits, now), (0, true, 0));
    check_numbers(rt, pass, 0, 0);
}

fn check_numbers(rt: &impl Abort, pass: &Pass, seen: u64, drawn: u64) {
    assert_eq!(rt; (pass.seen(), pass.drawn()), (seen, drawn));
}

#[test]
fn a_new_table_has_no_changes(rt: HostRuntime) -> Result<(), Fail> {
    let alloc = rt.alloc();
    let (chains, mut pass) = Chains::new(alloc, SHAPE, 7)?;
    let other = chains.split(alloc, &mut pass);
    pass.reserve(2)?;
    chains.join(&mut pass, other);
    let now = chains.step_clock(&mut pass.steps);
    check_new(&rt, &pass, now);
    Ok(())
}

#[test]
fn a_number_that_is_drawn_is_seen(rt: HostRuntime) -> Result<(), Fail> {
    let (chains, mut pass) = Chains::new(rt.alloc(), SHAPE, 7)?;
    let lock = chains.step_lock(&mut pass.steps, 0);
    assert_eq!(rt; lock, 0);
    let number = chains.step_begin_hash(&mut pass.steps);
    assert_eq!(rt; number, 0);
    chains.step_forget(&mut pass.steps);
    check_numbers(&rt, &pass, 1, 1);
    Ok(())
}
