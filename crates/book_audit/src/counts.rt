//! What the clock comes to.

ghost use Rattle.std.specs.Prelude.{◌≡◌, ◌+◌, ◌*◌, IsTrue, ◌↔◌, count_by, is_some};
ghost use Rattle.book_audit.specs.declared.printed.PrintedLife.{PrintedLife};
ghost use Rattle.book_audit.specs.Findings.{CountsAll};

use crate::printed::{Printed, PrintedLife};

fn unhashed(lives: &[PrintedLife]) -> usize
    ensures { result ≡ count_by (λ (l : PrintedLife). is_some l.unhash) lives.now }
{
    lives.iter().filter(|life| life.unhash.is_some()).count()
}

/// Whether the clock is twice so many hashes and unhashes, and the numbers that were drawn in vain.
fn comes_to(clock: u64, hashed: u64, unhashed: u64, vain: u64) -> bool
    ensures { IsTrue result ↔ (clock ≡ 2 * (hashed + unhashed) + vain) }
{
    if clock < vain {
        return false;
    }
    let drawn = clock - vain;
    if drawn % 2 == 1 {
        return false;
    }
    let changes = drawn / 2;
    if changes < hashed {
        return false;
    }
    changes - hashed == unhashed
}

/// Whether the clock counts two numbers for each change, and one for each reply that drew one in vain.
pub fn counts_all(printed: &Printed) -> bool
    ensures { IsTrue result ↔ CountsAll printed.now }
{
    let lives = printed.lives.as_slice();
    comes_to(
        printed.clock,
        lives.len() as u64,
        unhashed(lives) as u64,
        printed.vain,
    )
}
