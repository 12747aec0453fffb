//! The owners of a bucket, each of which is found without a look at all.

ghost use Rattle.std.specs.Prelude.{◌≡◌, ◌^◌, ◌+◌, ◌≤◌, ◌<◌, ◌++◌, ◌∷◌, [], length, find, filter, vec_len, vec_capacity, OnOk};
ghost use Rattle.std.specs.Option.{option_copied};
ghost use Rattle.bind_buckets.specs.OwnerStep as spec;
ghost use Rattle.bind_buckets.specs.First.{change_first, drop_first};
ghost use Rattle.bind_buckets.specs.Slots.{owners_in, answers, beside, names_in, ports_in, ends_in, AreFiled};
ghost use Rattle.bind_buckets.specs.Change.{becomes, CanBecome};

use crate::change::Change;
use crate::index::Index;
use crate::room;
use crate::slot::{Asked, Slot};
use sock_card::Owner;
use std::alloc::{AllocError, Global};
use std::marker::Model;

/// Owners, oldest first, of which one is found, changed, or taken out without a look at all.
///
/// An owner that leaves keeps its slot until most slots are such, so that no other moves. A lookup
/// costs the slots that are filed under the same key, up to the one that it finds.
///
/// Only [`OwnerList::reserve`] takes memory.
#[derive(Drop)]
pub struct OwnerList {
    slots: Vec<Slot>,
    index: Index,
    gone: usize,
}

impl Model for OwnerList {
    ghost use Rattle.std.specs.Prelude.{vec_capacity};
    ghost use Rattle.bind_buckets.specs.Owners.{Listed};

    ghost Value = { Listed };

    ghost use Rattle.bind_buckets.specs.Slots.{owners_in, AreKept};

    ghost view = { λ f. record { owners = owners_in f.slots.items; room = f.index.room } };

    ghost invariant = { λ f. AreKept f.slots.items f.index f.gone (vec_capacity f.slots) };
}

/// Gives up the slots of owners that left.
fn give_up_left(slots: &mut Vec<Slot>)
    ensures items { slots.new.items ≡ filter (λ s. s.here) slots.old.items }
    ensures capacity { vec_capacity slots.new ≡ vec_capacity slots.old }
    ensures most { vec_len slots.new ≤ vec_len slots.old }
{
    slots.retain(|slot| slot.here);
}

/// Files these slots behind those that are filed.
fn file_all(slots: &[Slot], index: &mut Index)
    requires { length slots.now ≤ index.old.room }
    ensures names { index.new.names ≡ index.old.names ++ names_in slots.now }
    ensures ports { index.new.ports ≡ index.old.ports ++ ports_in slots.now }
    ensures ends { index.new.ends ≡ index.old.ends ++ ends_in slots.now }
    ensures room { index.new.room + length slots.now ≡ index.old.room }
{
    for slot in slots {
        index.push(slot);
    }
}

/// The first owner here of which that holds, but for the one in that slot.
fn owner_of(asked: Asked, but: Option<usize>, slots: &[Slot], index: &Index) -> Option<Owner>
    requires { AreFiled slots.now index.now }
    ensures { result ≡ find (answers asked) (owners_in (beside but slots.now)) }
{
    let place = index.first(&asked, but, slots)?;
    Some(slots[place].owner)
}

impl OwnerList {
    /// No owners, without room. It takes no memory.
    pub fn new(alloc: Global) -> Self
        ensures { result ≡ record { owners = []; room = 0 } }
    {
        OwnerList {
            slots: Vec::new(alloc),
            index: Index::new(alloc),
            gone: 0,
        }
    }

    /// How many owners there are. Constant cost.
    pub fn len(&self) -> usize
        ensures len { result ≡ length self.now.owners }
        ensures bound { result < 2 ^ 63 }
    {
        self.slots.len() - self.gone
    }

    /// The slots, of owners that are here and of those that left.
    pub fn slots(&self) -> &[Slot]
        ensures { owners_in result.now ≡ self.now.owners }
    {
        &self.slots
    }

    /// Whether most slots are of owners that left.
    fn is_sparse(&self) -> bool {
        self.slots.len() >= 16 && self.gone > self.slots.len() / 2
    }

    /// Gives up the slots of owners that left, and files the others anew.
    fn tidy(&mut self)
        ensures owners { self.new.owners ≡ self.old.owners }
        ensures kept { self.old.room ≤ self.new.room }
    {
        give_up_left(&mut self.slots);
        self.gone = 0;
        self.index.clear();
        file_all(&self.slots, &mut self.index);
    }

    /// Makes room for so many more owners. An `Err`, for want of memory, changes no owner.
    ///
    /// Mostly it costs nothing: the index takes room for a quarter of the slots more at once. A tidy
    /// goes through all slots, and comes after as many removals.
    pub fn reserve(&mut self, more: usize) -> Result<(), AllocError>
        ensures owners { self.new.owners ≡ self.old.owners }
        ensures room { OnOk result (more ≤ self.new.room) }
        ensures kept { self.old.room ≤ self.new.room }
    {
        if self.is_sparse() {
            self.tidy();
        }
        if more <= self.index.room() {
            return Ok(());
        }
        room::reserve(&mut self.slots, more)?;
        let spare = self.slots.capacity() - self.slots.len();
        self.index
            .reserve(spare.min(more.max(self.slots.len() / 4 + 4)))
    }

    /// The first owner of that name.
    pub fn named(&self, name: u64) -> Option<&Owner>
        ensures { option_copied result ≡ find (spec.has_name name) self.now.owners }
    {
        match self.index.first(&Asked::Named(name), None, &self.slots) {
            Some(place) => Some(&self.slots[place].owner),
            None => None,
        }
    }

    /// Appends an owner. Constant cost.
    pub fn push(&mut self, owner: Owner)
        requires { 1 ≤ self.old.room }
        ensures owners { self.new.owners ≡ self.old.owners ++ owner ∷ [] }
        ensures room { self.new.room + 1 ≡ self.old.room }
    {
        let slot = Slot {
            owner,
            here: true,
            filed: owner.addr,
        };
        self.index.push(&slot);
        self.slots.push_reserved(slot);
    }

    /// Changes the first owner of that name, and returns what it was.
    pub fn change(&mut self, name: u64, change: Change) -> Option<Owner>
        requires { CanBecome change (find (spec.has_name name) self.old.owners) }
        ensures was { result ≡ find (spec.has_name name) self.old.owners }
        ensures owners { self.new.owners ≡ change_first (spec.has_name name) (becomes change) self.old.owners }
        ensures room { self.new.room ≡ self.old.room }
    {
        let place = self.index.first(&Asked::Named(name), None, &self.slots)?;
        let was = self.slots[place].owner;
        self.slots[place].owner = change.of(was);
        Some(was)
    }

    /// Takes out the first owner of which that holds.
    pub fn take(&mut self, asked: Asked) -> Option<Owner>
        ensures gone { result ≡ find (answers asked) self.old.owners }
        ensures owners { self.new.owners ≡ drop_first (answers asked) self.old.owners }
        ensures room { self.new.room ≡ self.old.room }
    {
        let place = self.index.first(&asked, None, &self.slots)?;
        let gone = self.slots[place].owner;
        self.slots[place].here = false;
        self.gone += 1;
        Some(gone)
    }

    /// The first owner of which that holds.
    pub fn first(&self, asked: Asked) -> Option<Owner>
        ensures { result ≡ find (answers asked) self.now.owners }
    {
        owner_of(asked, None, &self.slots, &self.index)
    }

    /// The first of which it holds, but for the first owner of that name.
    pub fn first_other(&self, asked: Asked, name: u64) -> Option<Owner>
        ensures { result ≡ find (answers asked) (drop_first (spec.has_name name) self.now.owners) }
    {
        let but = self.index.first(&Asked::Named(name), None, &self.slots);
        owner_of(asked, but, &self.slots, &self.index)
    }
}
