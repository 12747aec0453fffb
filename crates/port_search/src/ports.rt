//! The ports of a range in the order of a search, one after the other.

ghost use Rattle.std.specs.Prelude.{◌≡◌, ◌≤◌, ◌%◌, ◌∷◌, [], ℕ, List, drop, IfSome, IfNone};
ghost use Rattle.std.specs.Iterator.{YieldsFirst, item_count};
ghost use Rattle.list_words.specs.Lists.{SameItems};
ghost use Rattle.flat_list.specs.Ports.{port_order, ports_of, size, unreserved, whole_order};
ghost use Rattle.flat_list.specs.Ports as order;

use flat_list::{First, Range, ports};
use std::marker::Model;

/// The first port that isn't reserved, of those from that number on in the order of a search, and the number after its.
fn first_unreserved(range: &Range, offset: u16, first: First, from: u32) -> Option<(u32, u16)>
    ensures some { IfSome result (λ found. unreserved range.now (drop from (whole_order range.now offset first))
        ≡ found.1 ∷ unreserved range.now (drop found.0 (whole_order range.now offset first))) }
    ensures none { IfNone result (unreserved range.now (drop from (whole_order range.now offset first)) ≡ []) }
{
    for number in from..ports::count(range) {
        let port = ports::port_at(range, offset, first, number);
        if !ports::is_reserved(range, port) {
            return Some((number + 1, port));
        }
    }
    None
}

/// The ports that a search has still to try, in their order.
///
/// It is an iterator that takes no memory; each port costs a few divisions, and a look at each reserved port.
#[derive(Drop)]
pub struct Ports {
    range: Range,
    offset: u16,
    first: First,
    tried: u32,
}

impl Model for Ports {
    ghost use Rattle.std.specs.Prelude.{ℕ, List, ◌≤◌};
    ghost use Rattle.port_search.specs.Ports.{left_of};

    ghost Value = { List ℕ };

    ghost view = { left_of };
}

impl Ports {
    /// All ports of a range of even size but the reserved ones: one half, from the offset round to it, then the other.
    ///
    /// The half of the ports at odd distances from the range's lowest, or that of those at even ones,
    /// is `first`.
    pub fn new(range: Range, offset: u16, first: First) -> Self
        requires range { range.low ≤ range.high }
        requires even { size range % 2 ≡ 0 }
        ensures order { result ≡ port_order range offset first }
        ensures each_once { SameItems result (ports_of range) }
    {
        Ports {
            range,
            offset,
            first,
            tried: 0,
        }
    }
}

impl Iterator for Ports {
    type Item = u16;

    ghost next_gives = { YieldsFirst (λ left. left) };

    ghost remaining = { item_count (λ left. left) };

    fn next(&mut self) -> Option<u16> {
        let (next, port) = first_unreserved(&self.range, self.offset, self.first, self.tried)?;
        self.tried = next;
        Some(port)
    }
}
