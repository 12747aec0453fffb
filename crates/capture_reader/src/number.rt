ghost use Rattle.std.specs.Prelude.{◌≡◌, ◌≤◌, ◌+◌, length};
ghost use Rattle.capture_reader.specs.Numbers.{number};

use byteorder::{BigEndian, ByteOrder, LittleEndian};

/// In which order the bytes of a number stand.
#[derive(Clone, Copy, Debug, PartialEq, Eq)]
pub enum Order {
    /// The highest first.
    Big,
    /// The lowest first.
    Little,
}

/// The number in the two bytes from a place on.
#[tactic(auto, unfolding(crate::specs::Numbers::number))]
pub fn u16_at(order: Order, bytes: &[u8], place: usize) -> u16
    requires { place + 2 ≤ length bytes.now }
    ensures { result ≡ number order 2 place bytes.now }
{
    match order {
        Order::Big => BigEndian::read_u16(&bytes[place..]),
        Order::Little => LittleEndian::read_u16(&bytes[place..]),
    }
}

/// The number in the four bytes from a place on.
#[tactic(auto, unfolding(crate::specs::Numbers::number))]
pub fn u32_at(order: Order, bytes: &[u8], place: usize) -> u32
    requires { place + 4 ≤ length bytes.now }
    ensures { result ≡ number order 4 place bytes.now }
{
    match order {
        Order::Big => BigEndian::read_u32(&bytes[place..]),
        Order::Little => LittleEndian::read_u32(&bytes[place..]),
    }
}
