//! The first line of a life that clashes with an earlier one.

ghost use Rattle.std.specs.Prelude.{◌≡◌, ◌++◌, IsTrue, IfOk, OnOk, MatchOption};
ghost use Rattle.std.specs.List.{list_any};
ghost use Rattle.book_audit.specs.Lines.{NoTwo};
ghost use Rattle.book_audit.specs.Findings.{FailsAt};
ghost use Rattle.book_audit.specs.Stays as spec;
ghost use Rattle.book_audit.specs.Stays.{clash_of, stays_of};

use crate::lines::{are_twins, is_full, overlap, share_slot, shares_number};
use crate::printed::{PrintedLife, Span};
use crate::stays::{Stay, in_turn};
use sock_card::{Card, CardWords, Kind, pack};
use std::alloc::{AllocError, Global};

/// How two lives may clash.
#[derive(Clone, Copy, Debug, PartialEq, Eq)]
pub enum Clash {
    /// They have a number of the clock in common.
    Number,
    /// Changes of both meet in one bucket.
    Overlap,
    /// They are in one slot, and neither is on its way out before the other is in.
    Slot,
    /// They are full cards of one four-tuple, each hashed before the other is on its way out.
    Twin,
}

fn clashes(clash: Clash, life: &PrintedLife, other: &PrintedLife) -> bool
    ensures { result ≡ clash_of clash life.now other.now }
{
    match clash {
        Clash::Number => shares_number(life, other),
        Clash::Overlap => overlap(life, other),
        Clash::Slot => share_slot(life, other),
        Clash::Twin => are_twins(life, other),
    }
}

/// Whether one of the earlier lives clashes with this one.
pub fn clashes_with(clash: Clash, earlier: &[PrintedLife], life: &PrintedLife) -> bool
    ensures { result ≡ list_any (λ (l : PrintedLife). clash_of clash l life.now) earlier.now }
{
    earlier.iter().any(|other| clashes(clash, other, life))
}

/// The number at which an unhash begins.
pub fn begin_of(unhash: &Option<Span>) -> Option<u64>
    ensures { result ≡ spec.begin_of unhash.now }
{
    match unhash {
        None => None,
        Some(span) => Some(span.begin),
    }
}

/// A number, or a span of the clock, in a bucket.
fn put_span(
    clash: Clash,
    life: &PrintedLife,
    span: &Span,
    stays: &mut Vec<Stay>,
) -> Result<(), AllocError>
    ensures { OnOk result (stays.new.items ≡ stays.old.items ++ spec.span_stays clash life.now span.now) }
{
    match clash {
        Clash::Number => {
            stays.push(stay_at(span.begin))?;
            stays.push(stay_at(span.end))?;
        }
        Clash::Overlap | Clash::Slot | Clash::Twin => stays.push(stay_in(life.bucket, span))?,
    }
    Ok(())
}

fn stay_at(number: u64) -> Stay
    ensures { result ≡ spec.stay_at number }
{
    Stay {
        place: 0,
        part: 0,
        from: number,
        until: Some(number),
    }
}

fn stay_in(bucket: u64, span: &Span) -> Stay
    ensures { result ≡ spec.stay_in bucket span.now }
{
    Stay {
        place: bucket,
        part: 0,
        from: span.begin,
        until: Some(span.end),
    }
}

fn put_unhash(clash: Clash, life: &PrintedLife, stays: &mut Vec<Stay>) -> Result<(), AllocError>
    ensures { OnOk result (stays.new.items ≡ stays.old.items ++ spec.unhash_stays clash life.now life.now.unhash) }
{
    match &life.unhash {
        None => Ok(()),
        Some(span) => put_span(clash, life, span, stays),
    }
}

fn slot_stay(life: &PrintedLife) -> Stay
    ensures { result ≡ spec.slot_stay life.now }
{
    Stay {
        place: life.slot,
        part: 0,
        from: life.hash.end,
        until: begin_of(&life.unhash),
    }
}

/// The words that a card's four-tuple makes.
fn tuple_words(card: &Card) -> CardWords
    ensures { result ≡ spec.tuple_words card.now }
{
    pack(&Card {
        dev: 0,
        kind: Kind::Full,
        name: 0,
        extra: 0,
        mark: 0,
        ..*card
    })
}

fn tuple_stay(life: &PrintedLife) -> Stay
    ensures { result ≡ spec.tuple_stay life.now }
{
    let words = tuple_words(&life.card);
    Stay {
        place: words.ends,
        part: words.ports,
        from: life.hash.begin,
        until: begin_of(&life.unhash),
    }
}

/// Appends the stays that a life makes of its numbers, its changes, its slot or its four-tuple.
fn put_stays(clash: Clash, life: &PrintedLife, stays: &mut Vec<Stay>) -> Result<(), AllocError>
    ensures { OnOk result (stays.new.items ≡ stays.old.items ++ stays_of clash life.now) }
{
    match clash {
        Clash::Number | Clash::Overlap => {
            put_span(clash, life, &life.hash, stays)?;
            put_unhash(clash, life, stays)?;
        }
        Clash::Slot => stays.push(slot_stay(life))?,
        Clash::Twin => {
            if is_full(life) {
                stays.push(tuple_stay(life))?;
            }
        }
    }
    Ok(())
}

/// Whether an order shows that no two lives clash.
pub fn is_clear(alloc: Global, clash: Clash, lives: &[PrintedLife]) -> Result<bool, AllocError>
    ensures { IfOk result (λ clear. IsTrue clear → NoTwo (clash_of clash) lives.now) }
{
    let mut stays = Vec::new(alloc);
    for life in lives {
        put_stays(clash, life, &mut stays)?;
    }
    in_turn(stays)
}

/// The first life that clashes with an earlier one, by comparing each with all before it.
fn searched(clash: Clash, lives: &[PrintedLife]) -> Option<usize>
    ensures { MatchOption result (NoTwo (clash_of clash) lives.now) (FailsAt (NoTwo (clash_of clash)) lives.now) }
{
    for (at, life) in lives.iter().enumerate() {
        if clashes_with(clash, &lives[..at], life) {
            return Some(at);
        }
    }
    None
}

/// The first life that clashes with an earlier one.
///
/// Takes memory for the lives, and time in proportion to them and the logarithm of their number where none does;
/// where one does, each life up to it is compared with all before it.
pub fn first_clash(
    alloc: Global,
    clash: Clash,
    lives: &[PrintedLife],
) -> Result<Option<usize>, AllocError>
    ensures { IfOk result (λ first. MatchOption first (NoTwo (clash_of clash) lives.now)
        (FailsAt (NoTwo (clash_of clash)) lives.now)) }
{
    if is_clear(alloc, clash, lives)? {
        return Ok(None);
    }
    Ok(searched(clash, lives))
}
