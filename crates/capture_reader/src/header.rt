ghost use Rattle.std.specs.Prelude.{◌≤◌, length, IsTrue, ◌↔◌, IfSome, IfNone};
ghost use Rattle.capture_reader.specs.Numbers.{number};
ghost use Rattle.capture_reader.specs.Header.{IsMagic, IsLinkNumber, BeginsWithHeader};

use crate::number::{Order, u16_at, u32_at};

/// How many bytes the header of libpcap's format has.
pub const FILE_HEADER: usize = 24;

/// What stands before the IP header of each packet.
#[derive(Clone, Copy, Debug, PartialEq, Eq)]
pub enum Link {
    /// The header of an Ethernet frame.
    Ethernet,
    /// Nothing: a packet is IPv4 or IPv6.
    Raw,
    /// Nothing: a packet is IPv4.
    Ipv4,
}

/// What the header of libpcap's format says of the records after it.
#[derive(Clone, Copy, Debug, PartialEq, Eq)]
pub struct Header {
    pub order: Order,
    pub link: Link,
}

fn is_magic(number: u32) -> bool
    ensures { IsTrue result ↔ IsMagic number }
{
    number == 0xa1b2_c3d4 || number == 0xa1b2_3c4d
}

/// In which order the magic number stands at the front.
fn order_of(bytes: &[u8]) -> Option<Order>
    requires { 4 ≤ length bytes.now }
    ensures some { IfSome result (λ order. IsMagic (number order 4 0 bytes.now)) }
    ensures none { IfNone result ((order : Order) → ¬ IsMagic (number order 4 0 bytes.now)) }
{
    [Order::Big, Order::Little]
        .into_iter()
        .find(|order| is_magic(u32_at(*order, bytes, 0)))
}

/// The link type of that number, of those that are read.
pub fn link_of(number: u32) -> Option<Link>
    ensures { IsLinkNumber result number }
{
    match number {
        1 => Some(Link::Ethernet),
        101 => Some(Link::Raw),
        228 => Some(Link::Ipv4),
        _ => None,
    }
}

/// The header of libpcap's format that the bytes begin with.
///
/// The largest stored length, which stands there too, isn't read. The link type is the whole number
/// of four bytes: where its upper bits state something else besides, the header is refused.
pub fn header_of(bytes: &[u8]) -> Option<Header>
    ensures some { IfSome result (BeginsWithHeader bytes.now) }
    ensures none { IfNone result ((header : Header) → ¬ (BeginsWithHeader bytes.now header)) }
{
    if bytes.len() < FILE_HEADER {
        return None;
    }
    let order = order_of(bytes)?;
    if u16_at(order, bytes, 4) != 2 || u16_at(order, bytes, 6) != 4 {
        return None;
    }
    let link = link_of(u32_at(order, bytes, 20))?;
    Some(Header { order, link })
}
