//! The first line of a packet that the lives don't explain.

ghost use Rattle.std.specs.Prelude.{◌<◌, ◌+◌, ◌^◌, MatchOption, IfOk};
ghost use Rattle.list_words.specs.Lists.{Each};
ghost use Rattle.book_audit.specs.Lines.{NoTwo, AreStamped, AreHoused, share_slot};
ghost use Rattle.book_audit.specs.Index.{IsIndex};
ghost use Rattle.book_audit.specs.Looks.{IsLineExplained};
ghost use Rattle.book_audit.specs.Findings.{FailsAt};

use crate::index::{Index, index_of};
use crate::looks::is_explained;
use crate::printed::Printed;
use std::alloc::{AllocError, Global};

/// The first such packet, by an index of the lives.
fn searched(printed: &Printed, index: &Index) -> Option<usize>
    requires hash { 0 < printed.now.shape.hash }
    requires listen { 0 < printed.now.shape.listen }
    requires fits { printed.now.shape.hash + printed.now.shape.listen < 2 ^ 32 }
    requires index { IsIndex index.now printed.now.lives.items }
    requires stamps { AreStamped printed.now.clock printed.now.lives.items }
    requires homes { AreHoused printed.now.shape printed.now.seed printed.now.lives.items }
    requires slots { NoTwo share_slot printed.now.lives.items }
    ensures { let Explained = Each (IsLineExplained printed.now.shape printed.now.seed printed.now.lives.items) in
        MatchOption result (Explained printed.now.packets.items) (FailsAt Explained printed.now.packets.items) }
{
    for (at, packet) in printed.packets.iter().enumerate() {
        if !is_explained(printed, index, packet) {
            return Some(at);
        }
    }
    None
}

/// The first packet whose line the lives don't explain, where these passed the tests of stamps, homes and slots.
///
/// Takes memory for an index of the lives.
pub fn first_unexplained(alloc: Global, printed: &Printed) -> Result<Option<usize>, AllocError>
    requires hash { 0 < printed.now.shape.hash }
    requires listen { 0 < printed.now.shape.listen }
    requires fits { printed.now.shape.hash + printed.now.shape.listen < 2 ^ 32 }
    requires stamps { AreStamped printed.now.clock printed.now.lives.items }
    requires homes { AreHoused printed.now.shape printed.now.seed printed.now.lives.items }
    requires slots { NoTwo share_slot printed.now.lives.items }
    ensures { let Explained = Each (IsLineExplained printed.now.shape printed.now.seed printed.now.lives.items) in
        IfOk result (λ first. MatchOption first (Explained printed.now.packets.items)
        (FailsAt Explained printed.now.packets.items)) }
{
    let index = index_of(alloc, &printed.lives)?;
    Ok(searched(printed, &index))
}
