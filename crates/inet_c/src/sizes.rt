//! The sizes of tables and the limits of workers, as C gives them.
//!
//! Each struct begins with its own size, by which a later version tells its callers from those of this one.

ghost use Rattle.std.specs.Prelude.{◌≡◌, ◌↔◌, IsTrue};
ghost use Rattle.chain_book.specs.Shapes.{IsPowerTo};
ghost use Rattle.flat_list.specs.Fits.{FitsTables};
ghost use Rattle.inet_c.specs.Made as spec;
ghost use Rattle.inet_c.specs.Made.{CallersShape, LimitsFit, PortsFit, SizesFit};

use flat_list::{Header, Range, Reserved, Shape};
use shared_calls::Limits;

/// The size of [`InetSizes`] in bytes.
const SIZES: u32 = 164;

/// The size of [`InetLimits`] in bytes.
const LIMITS: u32 = 32;

/// The sizes of tables: `size` is 164, `slots` 1 to 2^24; `bind`, `hash` and `listen` are powers of two to 256, 2^24 and
/// 2^20. `low` to `high` are the ports of searches, an even number of them, from 1 on. Searches begin at numbers that a
/// generator draws, started from `seed`, or with `has_offset` all at `offset`. `twreuse` lets `connect` take the place
/// of a TIME_WAIT of its four-tuple, closed earlier. The first `reserved_count` ports of `reserved`, 64 at most, are kept
/// from searches.
#[repr(C)]
#[derive(Clone, Copy, Debug, PartialEq, Eq)]
pub struct InetSizes {
    pub size: u32,
    pub slots: u32,
    pub bind: u32,
    pub hash: u32,
    pub listen: u32,
    pub seed: u32,
    pub low: u16,
    pub high: u16,
    pub twreuse: bool,
    pub has_offset: bool,
    pub offset: u16,
    pub reserved: [u16; 64],
    pub reserved_count: u8,
}

/// The limits of a worker, as [`Limits`] has them; `size` is 32.
#[repr(C)]
#[derive(Clone, Copy, Debug, PartialEq, Eq)]
pub struct InetLimits {
    pub size: u32,
    pub tries: u64,
    pub most_waits: u64,
    pub full_for: u64,
}

/// Where each search begins, if that is fixed.
fn offset_of(sizes: &InetSizes) -> Option<u16>
    ensures { result ≡ spec.offset_of sizes.now }
{
    if sizes.has_offset {
        Some(sizes.offset)
    } else {
        None
    }
}

/// The header of a script that names these sizes.
pub fn header_of(sizes: &InetSizes) -> Header
    ensures { result ≡ spec.header_of sizes.now }
{
    Header {
        shape: Shape {
            slots: sizes.slots,
            bind: sizes.bind,
            hash: sizes.hash,
            listen: sizes.listen,
        },
        range: Range {
            low: sizes.low,
            high: sizes.high,
            reserved: Reserved {
                ports: sizes.reserved,
                count: sizes.reserved_count,
            },
        },
        seed: sizes.seed,
        offset: offset_of(sizes),
        twreuse: sizes.twreuse,
    }
}

/// The limits without their size.
pub fn limits_of(limits: &InetLimits) -> Limits
    ensures { result ≡ spec.limits_of limits.now }
{
    Limits {
        tries: limits.tries,
        most_waits: limits.most_waits,
        full_for: limits.full_for,
    }
}

/// Whether a number of buckets is a power of two to that one.
fn is_count(count: u32, most: u32) -> bool
    ensures { IsTrue result ↔ IsPowerTo most count }
{
    count.is_power_of_two() && count <= most
}

fn is_shape(shape: &Shape) -> bool
    ensures { IsTrue result ↔ CallersShape shape.now }
{
    1 <= shape.slots
        && shape.slots <= 0x100_0000
        && is_count(shape.bind, 256)
        && is_count(shape.hash, 0x100_0000)
        && is_count(shape.listen, 0x10_0000)
}

/// Whether a range has an even number of ports, from 1 on.
fn is_range(range: &Range) -> bool
    ensures { IsTrue result ↔ PortsFit range.now }
{
    1 <= range.low && range.low < range.high && range.low % 2 != range.high % 2
}

/// Whether tables may be of that shape and that range.
fn is_header(header: &Header) -> bool
    ensures fit { IsTrue result ↔ CallersShape header.now.shape × PortsFit header.now.range }
    ensures fits { IsTrue result → FitsTables header.now }
{
    is_shape(&header.shape) && is_range(&header.range)
}

/// Whether tables may have those sizes.
pub fn are_sizes(sizes: &InetSizes) -> bool
    ensures sizes { IsTrue result ↔ SizesFit sizes.now }
    ensures fits { IsTrue result → FitsTables (spec.header_of sizes.now) }
{
    sizes.size == SIZES && sizes.reserved_count <= 64 && is_header(&header_of(sizes))
}

/// Whether the limits are those of this version.
pub fn are_limits(limits: &InetLimits) -> bool
    ensures { IsTrue result ↔ LimitsFit limits.now }
{
    limits.size == LIMITS
}
