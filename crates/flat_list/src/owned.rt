//! What a command's words, and a socket's own state, make of its owner: no other socket counts here.

ghost use Rattle.std.specs.Prelude.{◌≡◌};
ghost use Rattle.flat_list.specs.Owned as spec;

use crate::command::{End, Query};
use sock_card::{Card, Kind, Owner, Packet, State, as_request, child, connected};

/// What `socket` says of a new socket: its network namespace, its user, SO_BINDTODEVICE, SO_REUSEADDR,
/// SO_REUSEPORT and IP_BIND_ADDRESS_NO_PORT.
#[derive(Clone, Copy, Debug, PartialEq, Eq)]
pub struct Options {
    pub net: Option<u8>,
    pub uid: Option<u32>,
    pub dev: Option<u16>,
    pub reuseaddr: bool,
    pub reuseport: bool,
    pub noport: bool,
}

/// The owner that `socket` makes, with that mark: without an end, and its origin its own name.
pub fn new_owner(name: u64, mark: u32, options: Options) -> Owner
    ensures { result ≡ spec.new_owner name mark options }
{
    Owner {
        name,
        origin: name,
        addr: 0,
        port: 0,
        remote: 0,
        rport: 0,
        dev: options.dev.unwrap_or(0),
        net: options.net.unwrap_or(0),
        uid: options.uid.unwrap_or(0),
        mark,
        reuseaddr: options.reuseaddr,
        reuseport: options.reuseport,
        noport: options.noport,
        state: State::Unbound,
        by_connect: false,
    }
}

/// The owner, bound to that address, with its port still to be taken.
pub fn addressed(owner: Owner, addr: u32) -> Owner
    ensures { result ≡ spec.addressed owner addr }
{
    Owner {
        addr,
        port: 0,
        state: State::Unbound,
        ..owner
    }
}

/// The owner, bound to that address and port.
pub fn bound_at(owner: Owner, addr: u32, port: u16) -> Owner
    ensures { result ≡ spec.bound_at owner addr port }
{
    Owner {
        addr,
        port,
        state: State::Bound,
        ..owner
    }
}

/// The owner, connected from that source to that end, and full.
pub fn connected_to(owner: Owner, source: u32, to: End) -> Owner
    ensures { result ≡ spec.connected_to owner source to }
{
    connected(owner, source, to.addr, to.port)
}

/// The owner, connected from that source and a port that `connect` chose to that end, and full.
pub fn connected_at(owner: Owner, source: u32, port: u16, to: End) -> Owner
    ensures { result ≡ spec.connected_at owner source port to }
{
    Owner {
        port,
        by_connect: true,
        ..connected_to(owner, source, to)
    }
}

/// The owner of that name, with that mark, which a listener accepts from one end at another.
///
/// It keeps the listener's port, origin, device, namespace, user and options.
pub fn child_owner(listener: Owner, name: u64, mark: u32, from: End, at: End) -> Owner
    ensures { result ≡ spec.child_owner listener name mark from at }
{
    child(listener, name, mark, at.addr, from.addr, from.port)
}

/// The request of that name, with that mark, for a handshake with a listener from one end at another: what the child
/// would be, but that it isn't full.
pub fn request_owner(listener: Owner, name: u64, mark: u32, from: End, at: End) -> Owner
    ensures { result ≡ spec.request_owner listener name mark from at }
{
    as_request(child_owner(listener, name, mark, from, at))
}

/// The source that `connect` takes for a socket bound to `addr`, 0.0.0.0 if it is bound to none, if it can take one.
///
/// A bound address is the source, and `from` may repeat it; where it is 0.0.0.0, `from` names one.
pub fn source_of(addr: u32, from: Option<u32>) -> Option<u32>
    ensures { result ≡ spec.source_of addr from }
{
    match from {
        None if addr != 0 => Some(addr),
        Some(from) if from != 0 && (addr == 0 || addr == from) => Some(from),
        _ => None,
    }
}

/// Whether an end has no address or no port, so that nothing can be connected to it.
pub fn is_no_end(end: End) -> bool
    ensures { result ≡ spec.is_no_end end }
{
    end.addr == 0 || end.port == 0
}

/// Whether this is no listener, or none that could accept from one end at the other.
pub fn is_no_accept(listener: &Owner, from: End, at: End) -> bool
    ensures { result ≡ spec.is_no_accept listener.now from at }
{
    let listens = matches!(listener.state, State::Listening);
    let is_there = at.port == listener.port
        && at.addr != 0
        && (listener.addr == 0 || listener.addr == at.addr);
    !listens || !is_there || is_no_end(from)
}

/// An owner's own end.
pub fn own_end(owner: &Owner) -> End
    ensures { result ≡ spec.own_end owner.now }
{
    End {
        addr: owner.addr,
        port: owner.port,
    }
}

/// The end that an owner is connected to.
pub fn other_end(owner: &Owner) -> End
    ensures { result ≡ spec.other_end owner.now }
{
    End {
        addr: owner.remote,
        port: owner.rport,
    }
}

/// The owner of that name, with that mark, which a listener accepts when the handshake of a request is over, at the
/// request's ends.
pub fn heir_owner(listener: Owner, name: u64, mark: u32, request: &Owner) -> Owner
    ensures { result ≡ spec.heir_owner listener name mark request.now }
{
    child_owner(listener, name, mark, other_end(request), own_end(request))
}

/// Whether this is no listener, or none that could accept at the request's ends in its namespace.
pub fn is_no_ack(listener: &Owner, request: &Owner) -> bool
    ensures { result ≡ spec.is_no_ack listener.now request.now }
{
    is_no_accept(listener, other_end(request), own_end(request)) || listener.net != request.net
}

/// The card of that kind under which lookups see the owner, with its mark.
///
/// `extra` is a listener's group and 1, the stamp of a TIME_WAIT, else 0.
pub fn card_as(kind: Kind, owner: &Owner, extra: u32) -> Card
    ensures { result ≡ spec.card_as kind owner.now extra }
{
    Card {
        local: owner.addr,
        lport: owner.port,
        remote: owner.remote,
        rport: owner.rport,
        dev: owner.dev,
        net: owner.net,
        kind,
        name: owner.name,
        extra,
        mark: owner.mark,
    }
}

/// The packet that a `look` asks for; a device or a namespace that isn't given is 0.
pub fn packet_of(query: Query) -> Packet
    ensures { result ≡ spec.packet_asked query }
{
    Packet {
        src: query.from.addr,
        sport: query.from.port,
        dst: query.to.addr,
        dport: query.to.port,
        dev: query.dev.unwrap_or(0),
        net: query.net.unwrap_or(0),
    }
}
