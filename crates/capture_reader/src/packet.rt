ghost use Rattle.std.specs.Prelude.{◌≡◌, ◌≤◌, ◌+◌, length};
ghost use Rattle.capture_reader.specs.Items as spec;

use crate::header::Link;
use crate::number::{Order, u16_at, u32_at};
use sock_card::Packet;

/// What a stored packet is for the socket tables.
#[derive(Clone, Copy, Debug, PartialEq, Eq)]
pub enum Item {
    /// A TCP packet over IPv4, whose socket can be looked up.
    Packet(Packet),
    /// Another kind of packet, or a fragment that has no TCP header.
    Skip,
    /// Too few bytes are stored to decide.
    Short,
}

/// The fewest bytes of an IP header.
const IP_HEADER: usize = 20;

/// The ends of a TCP packet over IPv4 that came in by that device and in that network namespace, whose ports stand at
/// that place.
fn packet_of(dev: u16, net: u8, ip: &[u8], ports: usize) -> Packet
    requires ports { ports ≡ spec.header_length ip.now }
    requires addresses { 20 ≤ length ip.now }
    requires stored { ports + 4 ≤ length ip.now }
    ensures { result ≡ spec.packet_of dev net ip.now }
{
    Packet {
        src: u32_at(Order::Big, ip, 12),
        sport: u16_at(Order::Big, ip, ports),
        dst: u32_at(Order::Big, ip, 16),
        dport: u16_at(Order::Big, ip, ports + 2),
        dev,
        net,
    }
}

/// Judges what begins with an IP header. Its total length and checksum aren't read.
#[tactic(auto, unfolding(crate::specs::Items::ip_item))]
fn ip_item(dev: u16, net: u8, ip: &[u8]) -> Item
    ensures { result ≡ spec.ip_item dev net ip.now }
{
    if ip.len() < IP_HEADER {
        return Item::Short;
    }
    let version = ip[0] >> 4;
    let header_length = 4 * usize::from(ip[0] & 0x0f);
    if version != 4 || header_length < IP_HEADER {
        return Item::Skip;
    }
    if ip[9] != 6 {
        return Item::Skip;
    }
    if u16_at(Order::Big, ip, 6) & 0x1fff != 0 {
        return Item::Skip;
    }
    if ip.len() < header_length + 4 {
        return Item::Short;
    }
    Item::Packet(packet_of(dev, net, ip, header_length))
}

/// Whether a frame has a tag of a VLAN before its EtherType.
fn is_tagged(frame: &[u8]) -> bool
    requires { 14 ≤ length frame.now }
    ensures { result ≡ spec.is_tagged frame.now }
{
    u16_at(Order::Big, frame, 12) == 0x8100
}

/// Judges what a frame carries from a place on, by the EtherType in the two bytes before.
fn carried_item(dev: u16, net: u8, frame: &[u8], place: usize) -> Item
    requires first { 2 ≤ place }
    requires last { place ≤ length frame.now }
    ensures { result ≡ spec.carried_item dev net place frame.now }
{
    if u16_at(Order::Big, frame, place - 2) == 0x0800 {
        ip_item(dev, net, &frame[place..])
    } else {
        Item::Skip
    }
}

/// Judges what begins with the header of an Ethernet frame.
#[tactic(auto, unfolding(crate::specs::Items::frame_item))]
fn frame_item(dev: u16, net: u8, frame: &[u8]) -> Item
    ensures { result ≡ spec.frame_item dev net frame.now }
{
    if frame.len() < 14 {
        return Item::Short;
    }
    if !is_tagged(frame) {
        return carried_item(dev, net, frame, 14);
    }
    if frame.len() < 18 {
        return Item::Short;
    }
    carried_item(dev, net, frame, 18)
}

/// Judges what is stored of a packet that came in by that device and in that network namespace.
pub fn item_of(link: Link, dev: u16, net: u8, stored: &[u8]) -> Item
    ensures { result ≡ spec.item_of link dev net stored.now }
{
    match link {
        Link::Ethernet => frame_item(dev, net, stored),
        Link::Raw | Link::Ipv4 => ip_item(dev, net, stored),
    }
}
