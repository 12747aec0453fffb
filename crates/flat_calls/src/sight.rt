//! What a lookup reports about the socket that it finds.

ghost use Rattle.std.specs.Prelude.{◌≡◌, length};
ghost use Rattle.flat_calls.specs.Numbers as numbers;
ghost use Rattle.flat_calls.specs.Sights as spec;

use sock_card::Kind;

/// A socket that a packet finds: what it is (1 connected, 2 in TIME_WAIT, 3 a listener, 4 a request, whose handshake
/// isn't over), and by which numbers it goes.
#[derive(Clone, Copy, Debug, PartialEq, Eq)]
pub struct Sight {
    pub kind: u32,
    pub worker: u32,
    pub socket: u64,
}

/// What kind of socket it is, as a number.
pub fn kind_of(kind: Kind) -> u32
    ensures { result ≡ spec.kind_of kind }
{
    match kind {
        Kind::Full => 1,
        Kind::TimeWait => 2,
        Kind::Listen => 3,
        Kind::Request => 4,
    }
}

/// The number whose label that is; 0 where it is no number's.
pub fn number_of(label: &[u8]) -> u64
    ensures number { result ≡ numbers.number_of label.now }
    ensures label { length label.now ≡ 8 → numbers.label_of result ≡ label.now }
{
    match label {
        [a, b, c, d, e, f, g, h] => { u64::from_be_bytes([*a, *b, *c, *d, *e, *f, *g, *h]) },
        _ => 0,
    }
}
