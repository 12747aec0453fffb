//! The first line of a life whose numbers of the clock are wrong.

ghost use Rattle.std.specs.Prelude.{◌≡◌, IfOk, MatchOption};
ghost use Rattle.std.specs.List.{list_all};
ghost use Rattle.book_audit.specs.Lines as spec;
ghost use Rattle.book_audit.specs.Lines.{AreStamped};
ghost use Rattle.book_audit.specs.Findings.{FailsAt};

use crate::clashes::{Clash, clashes_with, is_clear};
use crate::lines::ascends;
use crate::printed::PrintedLife;
use std::alloc::{AllocError, Global};

fn all_ascend(clock: u64, lives: &[PrintedLife]) -> bool
    ensures { result ≡ list_all (spec.ascends clock) lives.now }
{
    lives.iter().all(|life| ascends(clock, life))
}

/// The first such life, by comparing each with all before it.
fn searched(clock: u64, lives: &[PrintedLife]) -> Option<usize>
    ensures { MatchOption result (AreStamped clock lives.now) (FailsAt (AreStamped clock) lives.now) }
{
    for (at, life) in lives.iter().enumerate() {
        if !ascends(clock, life) || clashes_with(Clash::Number, &lives[..at], life) {
            return Some(at);
        }
    }
    None
}

/// The first life whose numbers don't ascend below the clock, or one of whose numbers an earlier life has.
///
/// Takes memory for the lives, and time as [`first_clash`](crate::clashes::first_clash).
pub fn first_unstamped(
    alloc: Global,
    clock: u64,
    lives: &[PrintedLife],
) -> Result<Option<usize>, AllocError>
    ensures { IfOk result (λ first. MatchOption first (AreStamped clock lives.now)
        (FailsAt (AreStamped clock) lives.now)) }
{
    if all_ascend(clock, lives) && is_clear(alloc, Clash::Number, lives)? {
        return Ok(None);
    }
    Ok(searched(clock, lives))
}
