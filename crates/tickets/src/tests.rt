//! Numbers drawn by one pass, by two in a known order, and by four threads.

ghost use Rattle.std.specs.Prelude.{◌≡◌, [], ◌++◌, All, IfOk};
ghost use Rattle.list_words.specs.Lists.{SameItems};
ghost use Rattle.turn_table.specs.Journals.{numbers_below};
ghost use Rattle.tickets.specs.Views.{all_parts};
ghost use Rattle.tickets.specs.Draws.{Ascend};
ghost use Rattle.tickets.specs.Passes as words;
ghost use Rattle.tickets.specs.Passes.{IsPassOf, IsOpen, HasMissed};

use crate::pass::{TicketPass, Tickets};
use std::alloc::{AllocError, Global};
use std::process::Abort;
use std::test::Fail;
use std::thread;
use std::thread::Threads;

/// The next number is this one.
fn check_next(rt: &impl Abort, tickets: &Tickets, pass: &mut TicketPass, expected: u32)
    requires { IsPassOf tickets.now pass.old × IsOpen pass.old }
    ensures { IsPassOf tickets.now pass.new × IsOpen pass.new }
{
    let number = tickets.next(pass);
    assert!(rt; number.is_some(), "{expected} is left");
    assert_eq!(rt; number, Some(expected));
}

/// No number is left.
fn check_none(rt: &impl Abort, tickets: &Tickets, pass: &mut TicketPass)
    requires { IsPassOf tickets.now pass.old × IsOpen pass.old }
    ensures { IsPassOf tickets.now pass.new }
{
    assert_eq!(rt; tickets.next(pass), None);
}

#[test]
fn one_pass_draws_in_order(rt: HostRuntime) -> Result<(), Fail> {
    let (tickets, mut pass) = Tickets::new(rt.alloc(), 2)?;
    assert_eq!(rt; tickets.limit(), 2);
    check_next(&rt, &tickets, &mut pass, 0);
    assert_eq!(rt; tickets.count(&mut pass), 1);
    check_next(&rt, &tickets, &mut pass, 1);
    check_none(&rt, &tickets, &mut pass);
    assert_eq!(rt; tickets.count(&mut pass), 3);
    Ok(())
}

#[test]
fn two_passes_draw_of_one_count(rt: HostRuntime) -> Result<(), Fail> {
    let (tickets, mut first) = Tickets::new(rt.alloc(), 2)?;
    let mut second = first.split(&tickets);
    check_next(&rt, &tickets, &mut second, 0);
    check_next(&rt, &tickets, &mut first, 1);
    check_none(&rt, &tickets, &mut first);
    check_none(&rt, &tickets, &mut second);
    first.join(&tickets, second);
    assert_eq!(rt; tickets.count(&mut first), 4);
    Ok(())
}

#[test]
fn no_number_is_below_nothing(rt: HostRuntime) -> Result<(), Fail> {
    let (tickets, mut pass) = Tickets::new(rt.alloc(), 0)?;
    check_none(&rt, &tickets, &mut pass);
    Ok(())
}

/// Draws until no number is left.
fn draw_all(
    alloc: Global,
    tickets: &Tickets,
    pass: TicketPass,
) -> Result<(TicketPass, Vec<u32>), AllocError>
    requires pass { IsPassOf tickets.now pass × IsOpen pass }
    requires fresh { words.drawn pass ≡ [] }
    ensures pass { IfOk result (λ t. IsPassOf tickets.now t.0 × HasMissed t.0) }
    ensures parts { IfOk result (λ t. words.parts t.0 ≡ words.parts pass) }
    ensures drawn { IfOk result (λ t. words.drawn t.0 ≡ t.1.items) }
    ensures rising { IfOk result (λ t. Ascend t.1.items) }
{
    let mut pass = pass;
    let mut numbers = Vec::new(alloc);
    while let Some(number) = tickets.next(&mut pass) {
        numbers.push(number)?;
    }
    Ok((pass, numbers))
}

/// What one pass drew.
type Drawn = Result<(TicketPass, Vec<u32>), AllocError>;

/// Two passes, one after the other, draw each number once.
fn draw_by_two(
    alloc: Global,
    tickets: &Tickets,
    first: TicketPass,
) -> Result<(Vec<u32>, Vec<u32>), AllocError>
    requires pass { IsPassOf tickets.now first × IsOpen first }
    requires fresh { words.drawn first ≡ [] }
    requires all { words.parts first ≡ all_parts }
    ensures rising { IfOk result (λ t. Ascend t.0.items × Ascend t.1.items) }
    ensures once { IfOk result (λ t. SameItems (t.0.items ++ t.1.items) (numbers_below (words.tickets tickets.now))) }
{
    let mut first = first;
    let second = first.split(tickets);
    let (mut first, ours) = draw_all(alloc, tickets, first)?;
    let (second, theirs) = draw_all(alloc, tickets, second)?;
    first.join(tickets, second);
    tickets.count(&mut first);
    Ok((ours, theirs))
}

#[test]
fn a_caller_knows_that_each_was_drawn_once(rt: HostRuntime) -> Result<(), Fail> {
    let (tickets, pass) = Tickets::new(rt.alloc(), 3)?;
    let (ours, theirs) = draw_by_two(rt.alloc(), &tickets, pass)?;
    assert_eq!(rt; ours.as_slice(), [0, 1, 2].as_slice());
    assert!(rt; theirs.is_empty());
    Ok(())
}

/// Four passes for other threads.
fn split_four(
    alloc: Global,
    tickets: &Tickets,
    first: &mut TicketPass,
) -> Result<Vec<TicketPass>, AllocError>
    requires pass { IsPassOf tickets.now first.old × IsOpen first.old }
    requires all { words.parts first.old ≡ all_parts }
    ensures first { IsPassOf tickets.now first.new }
    ensures others { IfOk result (λ v. All (λ p. IsPassOf tickets.now p × IsOpen p × (words.drawn p ≡ [])) v.items) }
{
    let one = first.split(tickets);
    let two = first.split(tickets);
    let three = first.split(tickets);
    let four = first.split(tickets);
    Ok(vec![in alloc; one, two, three, four]?)
}

/// Draws by a thread for each pass.
fn draw_by_threads<R: Threads + Sync>(
    rt: &R,
    alloc: Global,
    tickets: &Tickets,
    passes: Vec<TicketPass>,
) -> Result<Vec<Drawn>, AllocError>
    requires { All (λ p. IsPassOf tickets.now p × IsOpen p × (words.drawn p ≡ [])) passes.items }
    ensures { IfOk result (λ v. All (λ r. IfOk r (λ t. IsPassOf tickets.now t.0)) v.items) }
{
    thread::map_vec(rt, passes, &|pass| draw_all(alloc, tickets, pass))
}

/// Joins the passes, and puts together what they drew.
fn join_all(
    alloc: Global,
    tickets: &Tickets,
    first: &mut TicketPass,
    drawn: Vec<Drawn>,
) -> Result<Vec<u32>, AllocError>
    requires first { IsPassOf tickets.now first.old }
    requires others { All (λ r. IfOk r (λ t. IsPassOf tickets.now t.0)) drawn.items }
    ensures { IsPassOf tickets.now first.new }
{
    let mut all = Vec::new(alloc);
    for told in drawn {
        let (pass, numbers) = told?;
        first.join(tickets, pass);
        for number in &numbers {
            all.push(*number)?;
        }
    }
    Ok(all)
}

#[test]
fn four_threads_draw_each_number_once(rt: HostRuntime) -> Result<(), Fail> {
    let (tickets, mut first) = Tickets::new(rt.alloc(), 1000)?;
    let passes = split_four(rt.alloc(), &tickets, &mut first)?;
    let drawn = draw_by_threads(&rt, rt.alloc(), &tickets, passes)?;
    let mut all = join_all(rt.alloc(), &tickets, &mut first, drawn)?;
    all.sort_unstable();
    assert_eq!(rt; all.len(), 1000);
    assert!(rt; all.iter().zip(0..1000u32).all(|(number, i)| *number == i));
    assert_eq!(rt; tickets.count(&mut first), 1004);
    Ok(())
}
