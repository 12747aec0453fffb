//! The tests of one line, and of two.

ghost use Rattle.std.specs.Prelude.{◌≡◌, ◌<◌, ◌+◌, ◌^◌};
ghost use Rattle.chain_book.specs.Tuples.{is_full_kind};
ghost use Rattle.book_audit.specs.Lines as spec;

use crate::printed::{PrintedLife, Span};
use chain_book::{Shape, home};
use sock_card::{Kind, same_tuple, tuple_of};

fn is_span(clock: u64, span: &Span) -> bool
    ensures { result ≡ spec.is_span clock span.now }
{
    span.begin < span.end && span.end < clock
}

fn ends_after(hash: &Span, clock: u64, unhash: &Option<Span>) -> bool
    ensures { result ≡ spec.ends_after hash.now clock unhash.now }
{
    match unhash {
        None => true,
        Some(span) => hash.end < span.begin && is_span(clock, span),
    }
}

/// Whether the numbers of a life ascend and are below the clock.
pub fn ascends(clock: u64, life: &PrintedLife) -> bool
    ensures { result ≡ spec.ascends clock life.now }
{
    is_span(clock, &life.hash) && ends_after(&life.hash, clock, &life.unhash)
}

/// Whether a life is in its card's home.
pub fn is_home(shape: &Shape, seed: u32, life: &PrintedLife) -> bool
    requires hash { 0 < shape.now.hash }
    requires listen { 0 < shape.now.listen }
    requires fits { shape.now.hash + shape.now.listen < 2 ^ 32 }
    ensures { result ≡ spec.is_home shape.now seed life.now }
{
    life.bucket == u64::from(home(shape, seed, &life.card))
}

fn share(one: &Span, other: &Span) -> bool
    ensures { result ≡ spec.share one.now other.now }
{
    one.begin == other.begin
        || one.begin == other.end
        || one.end == other.begin
        || one.end == other.end
}

fn shares_with(span: &Span, life: &PrintedLife) -> bool
    ensures { result ≡ spec.some_span (spec.share span.now) life.now }
{
    share(span, &life.hash)
        || match &life.unhash {
            None => false,
            Some(unhash) => share(span, unhash),
        }
}

/// Whether two lives have a number of the clock in common.
pub fn shares_number(life: &PrintedLife, other: &PrintedLife) -> bool
    ensures { result ≡ spec.shares_number life.now other.now }
{
    shares_with(&life.hash, other)
        || match &life.unhash {
            None => false,
            Some(unhash) => shares_with(unhash, other),
        }
}

fn meet(one: &Span, other: &Span) -> bool
    ensures { result ≡ spec.meet one.now other.now }
{
    !(one.end < other.begin) && !(other.end < one.begin)
}

fn meets_with(span: &Span, life: &PrintedLife) -> bool
    ensures { result ≡ spec.some_span (spec.meet span.now) life.now }
{
    meet(span, &life.hash)
        || match &life.unhash {
            None => false,
            Some(unhash) => meet(span, unhash),
        }
}

fn changes_meet(life: &PrintedLife, other: &PrintedLife) -> bool
    ensures { result ≡ spec.some_span (λ s. spec.some_span (spec.meet s) other.now) life.now }
{
    meets_with(&life.hash, other)
        || match &life.unhash {
            None => false,
            Some(unhash) => meets_with(unhash, other),
        }
}

/// Whether changes of two lives meet in one bucket.
pub fn overlap(life: &PrintedLife, other: &PrintedLife) -> bool
    ensures { result ≡ spec.overlap life.now other.now }
{
    life.bucket == other.bucket && changes_meet(life, other)
}

/// Whether a life is on its way out before that number.
pub fn is_out(life: &PrintedLife, number: u64) -> bool
    ensures { result ≡ spec.is_out life.now number }
{
    match &life.unhash {
        None => false,
        Some(unhash) => unhash.begin < number,
    }
}

/// Whether neither of two lives in one slot is on its way out before the other is in.
pub fn share_slot(life: &PrintedLife, other: &PrintedLife) -> bool
    ensures { result ≡ spec.share_slot life.now other.now }
{
    life.slot == other.slot && !is_out(life, other.hash.end) && !is_out(other, life.hash.end)
}

fn comes_in_time(life: &PrintedLife, other: &PrintedLife) -> bool
    ensures { result ≡ spec.comes_in_time life.now other.now }
{
    match &other.unhash {
        None => true,
        Some(unhash) => life.hash.begin < unhash.begin,
    }
}

/// Whether a life's card is that of a full socket.
pub fn is_full(life: &PrintedLife) -> bool
    ensures { result ≡ is_full_kind life.now.card.kind }
{
    match life.card.kind {
        Kind::Full => true,
        Kind::TimeWait | Kind::Listen | Kind::Request => false,
    }
}

fn are_full(life: &PrintedLife, other: &PrintedLife) -> bool
    ensures { result ≡ spec.are_full life.now other.now }
{
    is_full(life) && is_full(other)
}

/// Whether two lives are full cards of one four-tuple, each hashed before the other is on its way out.
pub fn are_twins(life: &PrintedLife, other: &PrintedLife) -> bool
    ensures { result ≡ spec.are_twins life.now other.now }
{
    are_full(life, other)
        && same_tuple(&tuple_of(&life.card), &tuple_of(&other.card))
        && comes_in_time(life, other)
        && comes_in_time(other, life)
}
