//! Questions about a list of sockets, each answered by a scan of the whole list.

ghost use Rattle.std.specs.Prelude.{◌≡◌, ◌≤◌, ◌==◌, ◌&&◌, not, filter, find, count_by, vec_len, vec_capacity, IfOk};
ghost use Rattle.std.specs.List.{list_any};
ghost use Rattle.sock_card.specs.TimeWait as time_wait;
ghost use Rattle.flat_list.specs.Sockets as spec;
ghost use Rattle.flat_list.specs.Look as spec_look;

use crate::group::{Group, group_of};
use crate::owned::card_as;
use crate::socket::Socket;
use chain_book::packet_hash;
use sock_card::{
    Card, Kind, Owner, Packet, State, Tuple, bind_conflict, holds, is_mate, rank, strict_conflict,
    tw_expired,
};
use std::alloc::{AllocError, Global};

/// Whether lookups find a socket of that state, and it takes a slot.
pub fn is_hashed(state: State) -> bool
    ensures { result ≡ spec.is_hashed state }
{
    matches!(
        state,
        State::Listening | State::Full | State::TimeWait | State::Request
    )
}

/// Whether a socket of that state is an owner: it has a port, and isn't a request.
pub fn is_owner(state: State) -> bool
    ensures { result ≡ spec.is_owner state }
{
    !matches!(state, State::Unbound | State::Request)
}

/// The open socket of that name.
pub fn open_named(name: u64, sockets: &[Socket]) -> Option<Socket>
    ensures { result ≡ spec.open_named name sockets.now }
{
    sockets
        .iter()
        .copied()
        .find(|s| s.owner.name == name && s.named)
}

/// The open socket of that name in that section.
pub fn open_in(section: u32, name: u64, sockets: &[Socket]) -> Option<Socket>
    ensures { result ≡ spec.open_in section name sockets.now }
{
    sockets.iter().copied().find(|s| s.owner.name == name
        && s.named
        && s.owner.name >> 56 == u64::from(section))
}

/// Whether another owner keeps this one from its port.
pub fn is_refused(owner: &Owner, sockets: &[Socket]) -> bool
    ensures { result ≡ spec.is_refused owner.now sockets.now }
{
    sockets.iter().any(|s| is_owner(s.owner.state)
        && s.owner.name != owner.name
        && bind_conflict(owner, &s.owner))
}

/// Whether another owner overlaps this one, whatever their options.
pub fn is_overlapped(owner: &Owner, sockets: &[Socket]) -> bool
    ensures { result ≡ spec.is_overlapped owner.now sockets.now }
{
    sockets.iter().any(|s| is_owner(s.owner.state)
        && s.owner.name != owner.name
        && strict_conflict(owner, &s.owner))
}

/// Whether some owner has the port of that namespace for whom `connect` didn't choose it.
pub fn is_claimed(port: u16, net: u8, sockets: &[Socket]) -> bool
    ensures { result ≡ spec.is_claimed port net sockets.now }
{
    sockets
        .iter()
        .any(|s| is_owner(s.owner.state) && holds(port, net, &s.owner))
}

fn tuple_of(owner: &Owner) -> Tuple
    ensures { result ≡ spec.owner_tuple owner.now }
{
    Tuple {
        net: owner.net,
        local: owner.addr,
        lport: owner.port,
        remote: owner.remote,
        rport: owner.rport,
    }
}

fn same_tuple(a: &Owner, b: &Owner) -> bool
    ensures { result ≡ spec.have_one_tuple a.now b.now }
{
    sock_card::same_tuple(&tuple_of(a), &tuple_of(b))
}

/// Whether a socket of that state has its four-tuple for itself.
fn claims_tuple(state: State) -> bool
    ensures { result ≡ spec.claims_tuple state }
{
    matches!(state, State::Full | State::Request)
}

/// Whether a full socket or a request has the owner's four-tuple.
pub fn has_twin(owner: &Owner, sockets: &[Socket]) -> bool
    ensures { result ≡ spec.has_twin owner.now sockets.now }
{
    sockets.iter().any(|s| claims_tuple(s.owner.state) && same_tuple(owner, &s.owner))
}

/// Whether the socket is a TIME_WAIT of the owner's four-tuple.
fn waits_at(owner: &Owner, socket: &Socket) -> bool
    ensures { result ≡ spec.waits_at owner.now socket.now }
{
    matches!(socket.owner.state, State::TimeWait) && same_tuple(owner, &socket.owner)
}

/// Whether `connect` may take the place of that TIME_WAIT at that moment.
fn gives_way(switch: bool, moment: u32, socket: &Socket) -> bool
    ensures { result ≡ time_wait.gives_way switch moment socket.now.stamp }
{
    switch && socket.stamp < moment
}

/// Whether a TIME_WAIT of the owner's four-tuple doesn't give way.
fn is_kept_waiting(switch: bool, moment: u32, owner: &Owner, sockets: &[Socket]) -> bool
    ensures { result ≡ list_any (λ s. spec.waits_at owner.now s
        && not (time_wait.gives_way switch moment s.stamp)) sockets.now }
{
    sockets
        .iter()
        .any(|s| waits_at(owner, s) && !gives_way(switch, moment, s))
}

/// Whether `connect` can't have the owner's four-tuple at that moment; `switch` lets it take the place
/// of a TIME_WAIT that was closed earlier.
pub fn is_taken(switch: bool, moment: u32, owner: &Owner, sockets: &[Socket]) -> bool
    ensures { result ≡ spec.is_taken switch moment owner.now sockets.now }
{
    has_twin(owner, sockets) || is_kept_waiting(switch, moment, owner, sockets)
}

/// Takes the TIME_WAITs of the owner's four-tuple out.
pub fn remove_waiting(owner: &Owner, sockets: &mut Vec<Socket>)
    ensures items { sockets.new.items ≡ spec.without_waiting owner.now sockets.old.items }
    ensures capacity { vec_capacity sockets.new ≡ vec_capacity sockets.old }
    ensures len { vec_len sockets.new ≤ vec_len sockets.old }
{
    sockets.retain(|s| !waits_at(owner, s));
}

/// The name of the first listener in whose group the owner would be.
pub fn mate_of(owner: &Owner, sockets: &[Socket]) -> Option<u64>
    ensures { result ≡ spec.mate_of owner.now sockets.now }
{
    sockets
        .iter()
        .find(|s| is_mate(owner, &s.owner))
        .map(|s| s.owner.name)
}

/// Whether the socket is a TIME_WAIT of that section that has lasted its minute at that moment.
fn is_expired(section: u32, moment: u32, socket: &Socket) -> bool
    ensures { result ≡ spec.is_expired section moment socket.now }
{
    matches!(socket.owner.state, State::TimeWait)
        && socket.owner.name >> 56 == u64::from(section)
        && tw_expired(socket.stamp, moment)
}

/// How many TIME_WAITs of that section have lasted their minute at that moment.
pub fn count_expired(section: u32, moment: u32, sockets: &[Socket]) -> usize
    ensures { result ≡ count_by (spec.is_expired section moment) sockets.now }
{
    sockets
        .iter()
        .filter(|s| is_expired(section, moment, s))
        .count()
}

/// Takes those TIME_WAITs out.
pub fn remove_expired(section: u32, moment: u32, sockets: &mut Vec<Socket>)
    ensures { sockets.new.items ≡ filter (λ s. not (spec.is_expired section moment s)) sockets.old.items }
{
    sockets.retain(|s| !is_expired(section, moment, s));
}

/// How many sockets take a slot.
pub fn slots_used(sockets: &[Socket]) -> usize
    ensures { result ≡ spec.slots_used sockets.now }
{
    sockets.iter().filter(|s| is_hashed(s.owner.state)).count()
}

fn replaced(new: Socket, old: Socket) -> Socket
    ensures { result ≡ spec.replaced new old }
{
    if old.owner.name == new.owner.name {
        new
    } else {
        old
    }
}

fn replace_each(new: Socket, sockets: &mut [Socket])
    ensures { sockets.new ≡ spec.put new sockets.old }
{
    for s in sockets.iter_mut() {
        *s = replaced(new, *s);
    }
}

/// Puts a socket in the place of the one of its name.
pub fn put(new: Socket, sockets: &mut Vec<Socket>)
    ensures { sockets.new.items ≡ spec.put new sockets.old.items }
{
    replace_each(new, sockets);
}

/// Takes the sockets of that name out.
pub fn remove(name: u64, sockets: &mut Vec<Socket>)
    ensures items { sockets.new.items ≡ spec.without name sockets.old.items }
    ensures capacity { vec_capacity sockets.new ≡ vec_capacity sockets.old }
    ensures len { vec_len sockets.new ≤ vec_len sockets.old }
{
    sockets.retain(|s| s.owner.name != name);
}

fn kind_of(state: State) -> Option<Kind>
    ensures { result ≡ spec.kind_of state }
{
    match state {
        State::Listening => Some(Kind::Listen),
        State::Full => Some(Kind::Full),
        State::TimeWait => Some(Kind::TimeWait),
        State::Request => Some(Kind::Request),
        State::Unbound | State::Bound => None,
    }
}

/// What a socket's card says besides: a listener's group and 1, the stamp of a TIME_WAIT, else 0.
fn extra_as(kind: Kind, groups: &[Group], socket: &Socket) -> u32
    ensures { result ≡ spec_look.extra_as kind groups.now socket.now }
{
    match kind {
        Kind::Listen => match group_of(socket.owner.name, groups) {
            None => 0,
            Some(group) => group.number() + 1,
        },
        Kind::TimeWait => socket.stamp,
        Kind::Full | Kind::Request => 0,
    }
}

/// The card under which a socket is looked up.
pub fn card_of(groups: &[Group], socket: &Socket) -> Option<Card>
    ensures { result ≡ spec_look.card_of groups.now socket.now }
{
    let kind = kind_of(socket.owner.state)?;
    Some(card_as(kind, &socket.owner, extra_as(kind, groups, socket)))
}

/// The cards of all hashed sockets.
pub fn cards_of(
    alloc: Global,
    groups: &[Group],
    sockets: &[Socket],
) -> Result<Vec<Card>, AllocError>
    ensures { IfOk result (λ cards. cards.items ≡ spec_look.cards_of groups.now sockets.now) }
{
    sockets
        .iter()
        .filter_map(|s| card_of(groups, s))
        .collect(alloc)
}

fn best_rank(packet: &Packet, groups: &[Group], sockets: &[Socket]) -> u8
    ensures { result ≡ spec_look.best_rank packet.now (spec_look.cards_of groups.now sockets.now) }
{
    sockets
        .iter()
        .filter_map(|s| card_of(groups, s))
        .map(|card| rank(&card, packet))
        .fold(0, |most, rank| most.max(rank))
}

/// The first card of greatest rank, where that isn't 0.
fn best(packet: &Packet, groups: &[Group], sockets: &[Socket]) -> Option<Card>
    ensures { result ≡ spec_look.best packet.now (spec_look.cards_of groups.now sockets.now) }
{
    let best = best_rank(packet, groups, sockets);
    sockets.iter().filter_map(|s| card_of(groups, s)).find(|card| 0 < rank(card, packet)
        && rank(card, packet) == best)
}

fn card_named(name: u64, groups: &[Group], sockets: &[Socket]) -> Option<Card>
    ensures { result ≡ find (λ c. c.name == name) (spec_look.cards_of groups.now sockets.now) }
{
    sockets
        .iter()
        .filter_map(|s| card_of(groups, s))
        .find(|card| card.name == name)
}

/// The card of greatest rank, where that isn't 0; in a group, that of the member which the hash of the
/// packet's four-tuple chooses.
pub fn look(packet: &Packet, seed: u32, sockets: &[Socket], groups: &[Group]) -> Option<Card>
    ensures { result ≡ spec_look.look packet.now seed sockets.now groups.now }
{
    let card = best(packet, groups, sockets)?;
    match group_of(card.name, groups) {
        None => Some(card),
        Some(group) => card_named(group.chosen(packet_hash(packet, seed)), groups, sockets),
    }
}
