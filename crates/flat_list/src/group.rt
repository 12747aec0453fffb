//! Groups of listeners that share an end, and who is in them.

ghost use Rattle.std.specs.Prelude.{ℕ, ◌≡◌, ◌∷◌, ◌≤◌, ◌<◌, ◌^◌, [], true, false, length, map, filter, is_some, Some, IfSome, vec_len, vec_capacity};
ghost use Rattle.std.specs.List.{list_any};
ghost use Rattle.std.specs.Option.{option_copied};
ghost use Rattle.sock_card.specs.Conflict.{owner_key};
ghost use Rattle.flat_list.specs.Groups as spec;
ghost use Rattle.flat_list.specs.Look as look_spec;
ghost use Rattle.flat_list.specs.Step as step_spec;

use crate::search::mate_of;
use crate::socket::Socket;
use arrayvec::ArrayVec;
use jhash_words::scale;
use sock_card::{GROUP_ROOM, Owner, bind_key};
use std::marker::Model;

/// A group of listeners: its number, which is 8 times its bind bucket's and its place there, and the
/// names of its members, at most [`GROUP_ROOM`].
#[derive(Drop)]
pub struct Group {
    number: u32,
    members: ArrayVec<u64, GROUP_ROOM>,
}

impl Model for Group {
    ghost use Rattle.std.specs.Prelude.{ℕ, ◌≤◌, ◌<◌, ◌^◌, length};
    ghost use Rattle.sock_card.specs.Limits.{group_room};
    ghost use Rattle.flat_list.specs.Groups.{Group as Kept};

    ghost Value = { Kept };

    ghost view = { λ g. record { number = g.number; members = g.members.items } };

    ghost invariant = { λ g. (g.number < 2 ^ 20) × (length g.members.items ≤ group_room) };
}

fn renamed(old: u64, new: u64, member: u64) -> u64
    ensures { result ≡ spec.renamed old new member }
{
    if member == old { new } else { member }
}

/// Writes `new` over each `old`.
fn replace(old: u64, new: u64, members: &mut [u64])
    ensures { members.new ≡ map (spec.renamed old new) members.old }
{
    for member in members.iter_mut() {
        *member = renamed(old, new, *member);
    }
}

impl Group {
    /// The group of that number, with one member.
    fn new(number: u32, name: u64) -> Self
        requires { number < 2 ^ 20 }
        ensures { result ≡ record { number = number; members = name ∷ [] } }
    {
        let mut members = ArrayVec::new();
        members.push(name);
        Group { number, members }
    }

    /// Its number.
    pub fn number(&self) -> u32
        ensures number { result ≡ self.now.number }
        ensures bound { result < 2 ^ 20 }
    {
        self.number
    }

    /// Whether the socket of that name is in it.
    pub fn has_member(&self, name: u64) -> bool
        ensures { result ≡ spec.has_member name self.now }
    {
        self.members.as_slice().iter().any(|member| *member == name)
    }

    fn has_members(&self) -> bool
        ensures { result ≡ spec.has_members self.now }
    {
        0 < self.members.len()
    }

    /// Whether it is the group of the socket of that name, and has all its members.
    fn is_full_group(&self, mate: u64) -> bool
        ensures { result ≡ spec.is_full_group mate self.now }
    {
        self.has_member(mate) && self.members.len() == GROUP_ROOM
    }

    /// The socket joins, where its mate is a member.
    fn join(&mut self, mate: u64, name: u64)
        requires { spec.is_full_group mate self.old ≡ false }
        ensures { self.new ≡ spec.join_group mate name self.old }
    {
        if self.has_member(mate) {
            self.members.push(name);
        }
    }

    /// The socket leaves, where it is a member; the last member takes its place.
    fn leave(&mut self, name: u64)
        ensures { self.new ≡ spec.leave_group name self.old }
    {
        if self.has_member(name) {
            if let Some(last) = self.members.pop() {
                replace(name, last, self.members.as_mut_slice());
            }
        }
    }

    /// The member that the hash of a packet's four-tuple chooses.
    pub fn chosen(&self, hash: u32) -> u64
        ensures { result ≡ look_spec.chosen hash self.now }
    {
        let members = self.members.as_slice();
        if members.is_empty() {
            return 0;
        }
        members[scale(hash, members.len() as u32) as usize]
    }
}

/// The group of the socket of that name, if it is in one.
pub fn group_of(name: u64, groups: &[Group]) -> Option<&Group>
    ensures { option_copied result ≡ look_spec.group_of name groups.now }
{
    groups.iter().find(|group| group.has_member(name))
}

/// The bind bucket of an owner, where there are so many.
fn bucket_of(owner: &Owner, buckets: u32) -> u32
    ensures bucket { result ≡ spec.bucket_of (owner_key owner.now) buckets }
    ensures bound { result < 2 ^ 17 }
{
    let key = bind_key(owner.port, owner.net);
    if buckets == 0 { key } else { key % buckets }
}

fn is_used(number: u32, groups: &[Group]) -> bool
    ensures { result ≡ spec.is_used groups.now number }
{
    groups.iter().any(|group| group.number() == number)
}

/// The lowest number of that bind bucket that no group has.
fn free_number(bucket: u32, groups: &[Group]) -> Option<u32>
    requires { bucket < 2 ^ 17 }
    ensures number { result ≡ spec.free_number bucket groups.now }
    ensures bound { IfSome result (λ number. number < 2 ^ 20) }
{
    (8 * bucket..8 * bucket + 8).find(|number| !is_used(*number, groups))
}

fn has_full(mate: u64, groups: &[Group]) -> bool
    ensures { result ≡ list_any (spec.is_full_group mate) groups.now }
{
    groups.iter().any(|group| group.is_full_group(mate))
}

/// Whether a listener finds a place: in its mate's group, or where it has no mate in a new one of that
/// bind bucket.
pub fn has_place(bucket: u32, mate: Option<u64>, groups: &[Group]) -> bool
    requires { bucket < 2 ^ 17 }
    ensures { (name : ℕ) → result ≡ is_some (spec.join bucket name mate groups.now) }
{
    match mate {
        Some(mate) => !has_full(mate, groups),
        None => free_number(bucket, groups).is_some(),
    }
}

fn join_mate(mate: u64, name: u64, groups: &mut [Group])
    requires { list_any (spec.is_full_group mate) groups.old ≡ false }
    ensures { groups.new ≡ map (spec.join_group mate name) groups.old }
{
    for group in groups.iter_mut() {
        group.join(mate, name);
    }
}

/// The listener joins its mate's group, or begins one. There is room for one more group.
pub fn join(bucket: u32, name: u64, mate: Option<u64>, groups: &mut Vec<Group>)
    requires bucket { bucket < 2 ^ 17 }
    requires place { is_some (spec.join bucket name mate groups.old.items) ≡ true }
    requires room { vec_len groups.old < vec_capacity groups.old }
    ensures { spec.join bucket name mate groups.old.items ≡ Some groups.new.items }
{
    match mate {
        Some(mate) => join_mate(mate, name, groups),
        None => {
            if let Some(number) = free_number(bucket, groups) {
                groups.push_reserved(Group::new(number, name));
            }
        }
    }
}

fn leave_each(name: u64, groups: &mut [Group])
    ensures { groups.new ≡ map (spec.leave_group name) groups.old }
{
    for group in groups.iter_mut() {
        group.leave(name);
    }
}

fn free_empty(groups: &mut Vec<Group>)
    ensures { groups.new.items ≡ filter spec.has_members groups.old.items }
{
    groups.retain(|group| group.has_members());
}

/// The socket of that name is gone from its group; a group without members is gone too.
pub fn leave(name: u64, groups: &mut Vec<Group>)
    ensures { groups.new.items ≡ spec.leave name groups.old.items }
{
    leave_each(name, groups);
    free_empty(groups);
}

/// Whether a socket may listen beside those sockets, as far as groups go.
pub fn can_enter(buckets: u32, socket: &Socket, sockets: &[Socket], groups: &[Group]) -> bool
    ensures { result ≡ is_some (step_spec.entered buckets socket.now sockets.now groups.now) }
{
    let owner = &socket.owner;
    !owner.reuseport || has_place(bucket_of(owner, buckets), mate_of(owner, sockets), groups)
}

/// The socket, which listens from then on, enters a group where it shares its end. There is room for one
/// more group.
pub fn enter(buckets: u32, socket: &Socket, sockets: &[Socket], groups: &mut Vec<Group>)
    requires place { is_some (step_spec.entered buckets socket.now sockets.now groups.old.items) ≡ true }
    requires room { vec_len groups.old < vec_capacity groups.old }
    ensures { step_spec.entered buckets socket.now sockets.now groups.old.items ≡ Some groups.new.items }
{
    let owner = &socket.owner;
    if owner.reuseport {
        let bucket = bucket_of(owner, buckets);
        join(bucket, owner.name, mate_of(owner, sockets), groups);
    }
}
