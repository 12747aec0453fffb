//! The order in which a search tries the ports of a range.

ghost use Rattle.std.specs.Prelude.{◌≡◌, ◌*◌, ◌/◌, ◌<◌, ◌≤◌, ◌^◌, ◌++◌, get_or};
ghost use Rattle.flat_list.specs.declared.header.Range.{Range};
ghost use Rattle.flat_list.specs.Ports as spec;

use crate::header::{First, Range};

/// Whether searches pass the port by. It costs a look at each reserved port.
pub fn is_reserved(range: &Range, port: u16) -> bool
    ensures { result ≡ spec.is_reserved range.now port }
{
    range
        .reserved
        .ports
        .iter()
        .take(usize::from(range.reserved.count))
        .any(|reserved| *reserved == port)
}

/// How many ports a range has.
pub fn size(range: &Range) -> u32
    ensures size { result ≡ spec.size range.now }
    ensures bound { result ≤ 2 ^ 16 }
{
    u32::from(range.high.saturating_sub(range.low)) + 1
}

/// How many ports a search goes through, those reserved among them: all of a range of even size.
pub fn count(range: &Range) -> u32
    ensures count { result ≡ spec.size range.now / 2 * 2 }
    ensures bound { result ≤ 2 ^ 16 }
{
    size(range) / 2 * 2
}

/// The port of that number, from 0, of the half of a range that begins at a distance from its lowest.
fn port_from(range: &Range, distance: u32, number: u32) -> u16
    requires number { number < spec.size range.now / 2 }
    requires distance { distance < 2 ^ 16 }
    ensures { result ≡ get_or (spec.half_from range.now distance) number range.now.low }
{
    range.low + ((distance + 2 * number) % size(range)) as u16
}

/// The distances from which the halves of a search's order begin, that of the first half first.
fn distances(offset: u16, first: First) -> (u32, u32)
    ensures order { (r : Range) → spec.whole_order r offset first
        ≡ spec.half_from r result.0 ++ spec.half_from r result.1 }
    ensures bound { (result.0 < 2 ^ 16) × (result.1 < 2 ^ 16) }
{
    let even = u32::from(offset) / 2 * 2;
    match first {
        First::Odd => (even + 1, even),
        First::Even => (even, even + 1),
    }
}

/// The port of that number, from 0, in the order of a search that begins at the offset, which passes the reserved
/// ones by.
///
/// There are [`count`] of them; beyond that it is the range's lowest.
pub fn port_at(range: &Range, offset: u16, first: First, number: u32) -> u16
    ensures { result ≡ get_or (spec.whole_order range.now offset first) number range.now.low }
{
    let half = size(range) / 2;
    let (start, rest) = distances(offset, first);
    if number < half {
        port_from(range, start, number)
    } else if number < 2 * half {
        port_from(range, rest, number - half)
    } else {
        range.low
    }
}
