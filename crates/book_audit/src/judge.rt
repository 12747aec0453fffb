//! The judge of a printed race.

ghost use Rattle.std.specs.Prelude.{◌<◌, ◌+◌, ◌^◌, IfOk};
ghost use Rattle.book_audit.specs.Findings.{IsFinding};

use crate::clashes::{Clash, first_clash};
use crate::counts::counts_all;
use crate::homes::first_stray;
use crate::printed::{Finding, Printed, Why};
use crate::receipts::first_unexplained;
use crate::stamps::first_unstamped;
use std::alloc::{AllocError, Global};

/// Finds the first test that a race fails, and the first line at which it does.
///
/// Takes memory for the lives.
pub fn judge(alloc: Global, printed: &Printed) -> Result<Finding, AllocError>
    requires hash { 0 < printed.now.shape.hash }
    requires listen { 0 < printed.now.shape.listen }
    requires fits { printed.now.shape.hash + printed.now.shape.listen < 2 ^ 32 }
    ensures { IfOk result (IsFinding printed.now) }
{
    let lives = printed.lives.as_slice();
    if let Some(at) = first_unstamped(alloc, printed.clock, lives)? {
        return Ok(Finding::Wrong {
            why: Why::Stamp,
            at,
        });
    }
    if let Some(at) = first_stray(&printed.shape, printed.seed, lives) {
        return Ok(Finding::Wrong { why: Why::Home, at });
    }
    if let Some(at) = first_clash(alloc, Clash::Overlap, lives)? {
        return Ok(Finding::Wrong {
            why: Why::Overlap,
            at,
        });
    }
    if let Some(at) = first_clash(alloc, Clash::Slot, lives)? {
        return Ok(Finding::Wrong { why: Why::Slot, at });
    }
    if let Some(at) = first_clash(alloc, Clash::Twin, lives)? {
        return Ok(Finding::Wrong { why: Why::Twin, at });
    }
    if let Some(at) = first_unexplained(alloc, printed)? {
        return Ok(Finding::Wrong {
            why: Why::Receipt,
            at,
        });
    }
    if !counts_all(printed) {
        return Ok(Finding::Wrong {
            why: Why::Count,
            at: 0,
        });
    }
    Ok(Finding::Sound)
}
