//! Stays in places, of which no two may run into each other.

ghost use Rattle.std.specs.Prelude.{◌≡◌, IsTrue, IfOk};
ghost use Rattle.book_audit.specs.Stays as spec;
ghost use Rattle.book_audit.specs.Stays.{NoneRunsInto};

use std::alloc::AllocError;

/// A stay in a place, which two numbers identify, from one number of the clock until another, or for good.
#[derive(Clone, Copy, Debug, PartialEq, Eq)]
pub struct Stay {
    pub place: u64,
    pub part: u64,
    pub from: u64,
    pub until: Option<u64>,
}

/// Whether a stay that lasts until then, or for good, is over before that number.
pub fn is_below(until: Option<u64>, from: u64) -> bool
    ensures { result ≡ spec.is_below until from }
{
    match until {
        None => false,
        Some(number) => number < from,
    }
}

fn comes_first(one: &Stay, other: &Stay) -> bool
    ensures { result ≡ spec.comes_first one.now other.now }
{
    one.place < other.place
        || one.place == other.place
            && (one.part < other.part || one.part == other.part && is_below(one.until, other.from))
}

fn lasts(stay: &Stay) -> bool
    ensures { result ≡ spec.lasts stay.now }
{
    match stay.until {
        None => true,
        Some(until) => stay.from <= until,
    }
}

/// Whether each stay comes before the next one.
fn follow(stays: &[Stay]) -> bool
    ensures { IsTrue result → NoneRunsInto stays.now }
{
    for i in 1..stays.len() {
        if !comes_first(&stays[i - 1], &stays[i]) || !lasts(&stays[i - 1]) {
            return false;
        }
    }
    true
}

/// Whether the stays of each place, put into an order, are seen to follow one another: if so, no two run into each
/// other.
pub fn in_turn(mut stays: Vec<Stay>) -> Result<bool, AllocError>
    ensures { IfOk result (λ told. IsTrue told → NoneRunsInto stays.items) }
{
    stays.sort_by_key(|stay| (stay.place, stay.part, stay.from))?;
    Ok(follow(&stays))
}
