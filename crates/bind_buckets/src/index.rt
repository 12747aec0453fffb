//! Slots filed by name, by port, and by port and address.

ghost use Rattle.std.specs.Prelude.{◌≡◌, ◌+◌, ◌-◌, ◌≤◌, ◌<◌, ◌++◌, ◌∷◌, [], length, position, slice_index_or, max, IfSome, OnOk};
ghost use Rattle.bind_buckets.specs.Links.{place_after, IsFirstIn};
ghost use Rattle.bind_buckets.specs.declared.slot.Slot.{Slot};
ghost use Rattle.bind_buckets.specs.Slots as spec;
ghost use Rattle.bind_buckets.specs.Slots.{has, beside, end_key, is_other, AreFiled, HoldsAt};

use crate::links::Links;
use crate::slot::{Asked, Slot, Under};
use std::alloc::{AllocError, Global};
use std::marker::Model;

/// The slots of a list, filed by name, by port, and by port and address.
///
/// Linux has such buckets of ports, and since version 6.1 of ports and addresses, too
/// (`struct inet_bind2_bucket` in `include/net/inet_hashtables.h`).
#[derive(Drop)]
pub struct Index {
    names: Links,
    ports: Links,
    ends: Links,
    room: usize,
}

impl Model for Index {
    ghost use Rattle.bind_buckets.specs.Slots.{Filed, IsRoomy};

    ghost Value = { Filed };

    ghost view = { λ x. record { names = x.names.keys; ports = x.ports.keys; ends = x.ends.keys; room = x.room } };

    ghost invariant = { λ x. IsRoomy x.room x.names x.ports x.ends };
}

/// What a port and an address are filed under.
///
/// The keys of one address at any two ports lie 52,777 apart at least, so addresses nearer than that to
/// one another never share a key. Others may, which costs a look at a slot.
fn end_key(port: u16, addr: u32) -> u64
    ensures { result ≡ end_key port addr }
{
    ((addr as usize + port as usize * 0x9e37_79b9) % 0x1_0000_0000) as u64
}

/// The first place of that key, or the next one after a place of it; none without a key.
fn next_of(key: Option<u64>, after: Option<usize>, links: &Links) -> Option<usize>
    requires { spec.IsAfterOther key after links.now.keys }
    ensures { IsFirstIn (is_other key) links.now.keys (place_after after) (length links.now.keys) result }
{
    match key {
        Some(key) => links.next(key, after),
        None => None,
    }
}

/// The lesser of two places.
fn earlier(a: Option<usize>, b: Option<usize>) -> Option<usize>
    ensures { result ≡ spec.earlier a b }
{
    match (a, b) {
        (Some(a), Some(b)) => Some(a.min(b)),
        (Some(_), None) => a,
        (None, _) => b,
    }
}

/// The place, or the next one of that key where it is the one to be passed over.
fn step_over(place: usize, key: Option<u64>, at: Option<usize>, links: &Links) -> Option<usize>
    requires { spec.IsAfterOther key at links.now.keys }
    ensures { spec.IsStep place (is_other key) links.now.keys at result }
{
    if at == Some(place) {
        next_of(key, at, links)
    } else {
        at
    }
}

/// Whether that holds of the slot, if it isn't the one that is left out.
fn has_at(asked: &Asked, but: Option<usize>, place: usize, slots: &[Slot]) -> bool
    requires { place < length slots.now }
    ensures { (d : Slot) → result ≡ has asked.now (slice_index_or (beside but slots.now) place d) }
{
    but != Some(place) && slots[place].has(asked)
}

/// The first slot of which that holds, but for one, where it holds only under these keys.
#[inline(always)]
fn first_at(
    asked: &Asked,
    but: Option<usize>,
    one: u64,
    other: Option<u64>,
    links: &Links,
    slots: &[Slot],
) -> Option<usize>
    requires keys { length links.now.keys ≡ length slots.now }
    requires holds { HoldsAt asked.now one other links.now.keys slots.now }
    ensures place { result ≡ position (has asked.now) (beside but slots.now) }
    ensures within { IfSome result (λ place. place < length slots.now) }
{
    let one = Some(one);
    let mut near = next_of(one, None, links);
    let mut far = next_of(other, None, links);
    while let Some(place) = earlier(near, far) {
        if has_at(asked, but, place, slots) {
            return Some(place);
        }
        near = step_over(place, one, near, links);
        far = step_over(place, other, far, links);
    }
    None
}

impl Index {
    /// No slots, without room. It takes no memory.
    pub fn new(alloc: Global) -> Self
        ensures { result ≡ record { names = []; ports = []; ends = []; room = 0 } }
    {
        Index {
            names: Links::new(alloc),
            ports: Links::new(alloc),
            ends: Links::new(alloc),
            room: 0,
        }
    }

    /// How many more may come without memory.
    pub fn room(&self) -> usize
        ensures { result ≡ self.now.room }
    {
        self.room
    }

    /// Makes room for so many more. An `Err`, for want of memory, changes nothing.
    ///
    /// It costs nothing where that room is there.
    pub fn reserve(&mut self, more: usize) -> Result<(), AllocError>
        ensures filed { self.new ≡ record self.old { room = self.new.room } }
        ensures room { OnOk result (more ≤ self.new.room) }
        ensures kept { self.old.room ≤ self.new.room }
        ensures least { self.new.room ≤ max self.old.room more }
    {
        if self.room < more {
            self.names.reserve(more)?;
            self.ports.reserve(more)?;
            self.ends.reserve(more)?;
            self.room = more;
        }
        Ok(())
    }

    /// Forgets all slots, and keeps their room.
    pub fn clear(&mut self)
        ensures { self.new ≡ record {
          names = [];
          ports = [];
          ends = [];
          room = self.old.room + length self.old.names;
        } }
    {
        self.room += self.names.len();
        self.names.clear();
        self.ports.clear();
        self.ends.clear();
    }

    /// Files a slot more. Constant cost.
    #[inline(always)]
    pub fn push(&mut self, slot: &Slot)
        requires { 1 ≤ self.old.room }
        ensures { self.new ≡ record {
          names = self.old.names ++ slot.now.owner.name ∷ [];
          ports = self.old.ports ++ slot.now.owner.port ∷ [];
          ends = self.old.ends ++ end_key slot.now.owner.port slot.now.filed ∷ [];
          room = self.old.room - 1;
        } }
    {
        self.names.push(slot.owner.name);
        self.ports.push(u64::from(slot.owner.port));
        self.ends.push(end_key(slot.owner.port, slot.filed));
        self.room -= 1;
    }

    /// The first of these slots of which that holds, but for one.
    ///
    /// It looks at the slots that are filed under the same name, or the same port, or the same port and
    /// address or 0.0.0.0, up to the first of which it holds.
    #[inline(always)]
    pub fn first(&self, asked: &Asked, but: Option<usize>, slots: &[Slot]) -> Option<usize>
        requires { AreFiled slots.now self.now }
        ensures place { result ≡ position (has asked.now) (beside but slots.now) }
        ensures within { IfSome result (λ place. place < length slots.now) }
    {
        match asked.under() {
            Under::Name(name) => first_at(asked, but, name, None, &self.names, slots),
            Under::Port(port) => first_at(asked, but, u64::from(port), None, &self.ports, slots),
            Under::End(port, addr) => {
                let any = Some(end_key(port, 0));
                first_at(asked, but, end_key(port, addr), any, &self.ends, slots)
            }
        }
    }
}
