ghost use Rattle.std.specs.Prelude.{◌≡◌, ◌≢◌, ◌≤◌, ◌++◌, ℕ, Option, List, length, IsTrue, ◌↔◌, IfSome, IfNone};
ghost use Rattle.capture_reader.specs.Numbers.{number};
ghost use Rattle.capture_reader.specs.Header.{IsWhole, BeginsWithSection, section_type};
ghost use Rattle.capture_reader.specs.Blocks.{IsBlock, IsInterfaceBlock, IsPacketBlock, BeginsWithBlock, HasBlock, item_on};

use crate::header::{Link, link_of};
use crate::number::{Order, u16_at, u32_at};
use crate::packet::{Item, item_of};
use crate::section::Section;

/// What a block of pcapng says of a capture's packets.
#[derive(Clone, Copy, Debug, PartialEq, Eq)]
pub enum Block {
    /// A section begins, whose numbers stand in that order.
    Section(Order),
    /// The section has one more interface, of that link type, None of those whose packets aren't read.
    Interface(Option<Link>),
    /// A packet is stored.
    Packet(Item),
    /// Nothing.
    Other,
}

/// The fewest bytes of a block: its type, and its length twice.
const BLOCK: usize = 12;
/// The fewest bytes of a block that begins a section.
const SECTION: usize = 28;
/// The fewest bytes of a block that describes an interface.
const INTERFACE: usize = 20;
/// The fewest bytes of a block that stores a packet.
const PACKET: usize = 32;

/// The first block, if it is whole, and the bytes after it.
fn next_whole(order: Order, bytes: &[u8]) -> Option<(&[u8], &[u8])>
    ensures some { IfSome result (λ found. (bytes.now ≡ found.0.now ++ found.1.now) × IsWhole order found.0.now) }
    ensures none { IfNone result ((whole rest : List ℕ) → bytes.now ≡ whole ++ rest → ¬ IsWhole order whole) }
{
    if bytes.len() < BLOCK {
        return None;
    }
    let length = u32_at(order, bytes, 4) as usize;
    if length < BLOCK || length % 4 != 0 || bytes.len() < length {
        return None;
    }
    let (whole, rest) = bytes.split_at(length);
    if u32_at(order, whole, length - 4) as usize != length {
        return None;
    }
    Some((whole, rest))
}

/// Whether a block has the type of one that begins a section, which reads the same in either order.
fn is_section(bytes: &[u8]) -> bool
    requires { 4 ≤ length bytes.now }
    ensures { IsTrue result ↔ (number Order.Big 4 0 bytes.now ≡ section_type) }
{
    u32_at(Order::Big, bytes, 0) == 0x0a0d_0d0a
}

/// In which order a section's mark stands in its first block.
fn marked_order(bytes: &[u8]) -> Option<Order>
    requires { 12 ≤ length bytes.now }
    ensures some { IfSome result (λ order. number order 4 8 bytes.now ≡ 0x1a2b3c4d) }
    ensures none { IfNone result ((order : Order) → number order 4 8 bytes.now ≢ 0x1a2b3c4d) }
{
    [Order::Big, Order::Little]
        .into_iter()
        .find(|order| u32_at(*order, bytes, 8) == 0x1a2b_3c4d)
}

/// The order of the section that the bytes begin with, and the bytes after its first block.
pub fn next_section(bytes: &[u8]) -> Option<(Order, &[u8])>
    ensures some { IfSome result (λ found. BeginsWithSection bytes.now found.0 found.1.now) }
    ensures none { IfNone result ((order : Order) (rest : List ℕ) → ¬ (BeginsWithSection bytes.now order rest)) }
{
    if bytes.len() < BLOCK || !is_section(bytes) {
        return None;
    }
    let order = marked_order(bytes)?;
    let (block, rest) = next_whole(order, bytes)?;
    if block.len() < SECTION || u16_at(order, block, 12) != 1 {
        return None;
    }
    Some((order, rest))
}

/// The link type of the interface that a whole block of that type describes. None where it isn't valid.
fn interface_of(order: Order, block: &[u8]) -> Option<Option<Link>>
    requires whole { IsWhole order block.now }
    requires kind { number order 4 0 block.now ≡ 1 }
    ensures some { IfSome result (λ link. IsInterfaceBlock order block.now link) }
    ensures none { IfNone result ((link : Option Link) → ¬ (IsInterfaceBlock order block.now link)) }
{
    if block.len() < INTERFACE {
        return None;
    }
    Some(link_of(u32::from(u16_at(order, block, 8))))
}

/// What is stored of a packet that came in by an interface of that link type.
fn item_on(link: Option<Link>, dev: u16, net: u8, stored: &[u8]) -> Item
    ensures { result ≡ item_on link dev net stored.now }
{
    match link {
        Some(link) => item_of(link, dev, net, stored),
        None => Item::Skip,
    }
}

/// The bytes that a whole block of that type stores of a packet, and the link type of its interface. None where it
/// isn't valid.
fn packet_of<'a>(section: &Section, block: &'a [u8]) -> Option<(Option<Link>, &'a [u8])>
    requires whole { IsWhole section.now.order block.now }
    requires kind { number section.now.order 4 0 block.now ≡ 6 }
    ensures some { IfSome result (λ found. IsPacketBlock section.now block.now found.0 found.1.now) }
    ensures none { IfNone result ((link : Option Link) (stored : List ℕ)
        → ¬ (IsPacketBlock section.now block.now link stored)) }
{
    if block.len() < PACKET {
        return None;
    }
    let link = section.link(u32_at(section.order(), block, 8))?;
    let stored = u32_at(section.order(), block, 20) as usize;
    // The block's length is a multiple of four, so where the bytes fit their padding does.
    if block.len() - PACKET < stored {
        return None;
    }
    Some((link, &block[28..28 + stored]))
}

/// What a whole block says that begins no section. None where it isn't valid.
fn block_of(section: &Section, dev: u16, net: u8, block: &[u8]) -> Option<Block>
    requires whole { IsWhole section.now.order block.now }
    requires no_section { number Order.Big 4 0 block.now ≢ section_type }
    ensures some { IfSome result (λ found. IsBlock dev net section.now block.now found) }
    ensures none { IfNone result ((found : Block) → ¬ (IsBlock dev net section.now block.now found)) }
{
    match u32_at(section.order(), block, 0) {
        1 => Some(Block::Interface(interface_of(section.order(), block)?)),
        6 => {
            let (link, stored) = packet_of(section, block)?;
            Some(Block::Packet(item_on(link, dev, net, stored)))
        }
        _ => Some(Block::Other),
    }
}

/// What the first block says, if it is valid, of packets that came in by that device and in
/// that network namespace, and the bytes after it.
pub fn next_block<'a>(
    section: &Section,
    dev: u16,
    net: u8,
    bytes: &'a [u8],
) -> Option<(Block, &'a [u8])>
    ensures some { IfSome result (λ found. BeginsWithBlock dev net section.now bytes.now found.0 found.1.now) }
    ensures none { IfNone result (¬ (HasBlock dev net section.now bytes.now)) }
{
    if let Some((order, rest)) = next_section(bytes) {
        return Some((Block::Section(order), rest));
    }
    let (whole, rest) = next_whole(section.order(), bytes)?;
    if is_section(whole) {
        return None;
    }
    Some((block_of(section, dev, net, whole)?, rest))
}
