//! The first line of a life that isn't in its card's home.

ghost use Rattle.std.specs.Prelude.{◌<◌, ◌+◌, ◌^◌, MatchOption};
ghost use Rattle.book_audit.specs.Lines.{AreHoused};
ghost use Rattle.book_audit.specs.Findings.{FailsAt};

use crate::lines::is_home;
use crate::printed::PrintedLife;
use chain_book::Shape;

/// The first life that isn't in its card's home by the tables' shape and the seed of their hashes.
pub fn first_stray(shape: &Shape, seed: u32, lives: &[PrintedLife]) -> Option<usize>
    requires hash { 0 < shape.now.hash }
    requires listen { 0 < shape.now.listen }
    requires fits { shape.now.hash + shape.now.listen < 2 ^ 32 }
    ensures { MatchOption result (AreHoused shape.now seed lives.now) (FailsAt (AreHoused shape.now seed) lives.now) }
{
    for (at, life) in lives.iter().enumerate() {
        if !is_home(shape, seed, life) {
            return Some(at);
        }
    }
    None
}
