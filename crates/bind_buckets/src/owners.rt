//! The owners of a bucket's ports, with what spares a look at each.

ghost use Rattle.std.specs.Prelude.{◌≡◌, ◌+◌, ◌≤◌, ◌<◌, ◌^◌, [], ◌∷◌, ◌++◌, Some, length, find, OnOk};
ghost use Rattle.std.specs.Option.{option_copied};
ghost use Rattle.sock_card.specs.Conflict as conflict_spec;
ghost use Rattle.bind_buckets.specs.OwnerStep as spec;
ghost use Rattle.bind_buckets.specs.First.{change_first, drop_first};
ghost use Rattle.bind_buckets.specs.Slots.{answers};
ghost use Rattle.bind_buckets.specs.Change.{becomes, CanBecome};

use crate::change::Change;
use crate::counts::OwnerCounts;
use crate::owner_list::OwnerList;
use crate::slot::Asked;
use sock_card::Owner;
use std::alloc::{AllocError, Global};
use std::marker::Model;

/// From how many owners on they are counted by port and address, too: before, a look at those of a port
/// costs less than the memory for such counts.
const MANY: usize = 64;

/// The owners of a bucket's ports, oldest first, and counts of them.
///
/// The counts answer most questions about a port. Where they don't, the list is asked, which looks at
/// the owners of the port alone, or of the port and address.
#[derive(Drop)]
pub struct Owners {
    list: OwnerList,
    counts: OwnerCounts,
}

impl Model for Owners {
    ghost use Rattle.bind_buckets.specs.Owners.{Listed, AreCounted};

    ghost Value = { Listed };

    ghost view = { λ o. o.list };

    ghost invariant = { λ o. AreCounted o.list o.counts };
}

impl Owners {
    /// No owners, without room. Ports that far apart are counted apart. It takes no memory.
    pub fn new(alloc: Global, stride: u32) -> Self
        requires { 1 ≤ stride }
        ensures { result ≡ record { owners = []; room = 0 } }
    {
        Owners {
            list: OwnerList::new(alloc),
            counts: OwnerCounts::new(alloc, stride),
        }
    }

    /// Makes room for so many more. An `Err`, for want of memory, leaves the owners as they are.
    pub fn reserve(&mut self, more: usize) -> Result<(), AllocError>
        ensures owners { self.new.owners ≡ self.old.owners }
        ensures room { OnOk result (more ≤ self.new.room) }
        ensures kept { self.old.room ≤ self.new.room }
    {
        self.counts.reserve()?;
        if self.list.len() >= MANY && !self.counts.has_ends() {
            self.counts.count_ends(self.list.slots())?;
        }
        self.list.reserve(more)
    }

    pub fn len(&self) -> usize
        ensures len { result ≡ length self.now.owners }
        ensures bound { result < 2 ^ 63 }
    {
        self.list.len()
    }

    /// The first owner of that name.
    pub fn named(&self, name: u64) -> Option<&Owner>
        ensures { option_copied result ≡ find (spec.has_name name) self.now.owners }
    {
        self.list.named(name)
    }

    /// Takes in an owner, as the last.
    pub fn push(&mut self, owner: Owner)
        requires { 1 ≤ self.old.room }
        ensures owners { self.new.owners ≡ self.old.owners ++ owner ∷ [] }
        ensures room { self.new.room + 1 ≡ self.old.room }
    {
        self.counts.come(&owner);
        self.list.push(owner);
    }

    /// Changes the first owner of that name, and returns what it was.
    #[inline(always)]
    pub fn change(&mut self, name: u64, change: Change) -> Option<Owner>
        requires { CanBecome change (find (spec.has_name name) self.old.owners) }
        ensures was { result ≡ find (spec.has_name name) self.old.owners }
        ensures owners { self.new.owners ≡ change_first (spec.has_name name) (becomes change) self.old.owners }
        ensures room { self.new.room ≡ self.old.room }
    {
        let was = self.list.change(name, change)?;
        self.counts.change(&was, &change.of(was));
        Some(was)
    }

    #[inline(always)]
    fn take(&mut self, asked: Asked) -> Option<Owner>
        ensures gone { result ≡ find (answers asked) self.old.owners }
        ensures owners { self.new.owners ≡ drop_first (answers asked) self.old.owners }
        ensures room { self.new.room ≡ self.old.room }
    {
        let gone = self.list.take(asked)?;
        self.counts.go(&gone);
        Some(gone)
    }

    /// Takes out the first owner of that name.
    pub fn remove(&mut self, name: u64) -> Option<Owner>
        ensures gone { result ≡ find (spec.has_name name) self.old.owners }
        ensures owners { self.new.owners ≡ drop_first (spec.has_name name) self.old.owners }
        ensures room { self.old.room ≤ self.new.room }
    {
        self.take(Asked::Named(name))
    }

    /// Takes out the first owner of that name that is in TIME_WAIT.
    pub fn remove_waiting(&mut self, name: u64) -> Option<Owner>
        ensures gone { result ≡ find (spec.waits_as name) self.old.owners }
        ensures owners { self.new.owners ≡ drop_first (spec.waits_as name) self.old.owners }
        ensures room { self.old.room ≤ self.new.room }
    {
        self.take(Asked::Waiting(name))
    }

    /// The first owner that keeps this one from its port.
    pub fn refusing(&self, owner: &Owner) -> Option<Owner>
        ensures { result ≡ find (conflict_spec.refuses owner.now) self.now.owners }
    {
        if self.counts.none_refuses(owner) {
            None
        } else {
            self.list.first(Asked::Refuses(*owner))
        }
    }

    /// The first that keeps the first owner of that name from its port, but for itself.
    pub fn refusing_other(&self, owner: &Owner, name: u64) -> Option<Owner>
        requires { find (spec.has_name name) self.now.owners ≡ Some owner.now }
        ensures { result
            ≡ find (conflict_spec.refuses owner.now) (drop_first (spec.has_name name) self.now.owners) }
    {
        if self.counts.no_other_refuses(owner) {
            None
        } else {
            self.list.first_other(Asked::Refuses(*owner), name)
        }
    }

    /// The first owner that wants what this one wants, options or not.
    pub fn overlapping(&self, owner: &Owner) -> Option<Owner>
        ensures { result ≡ find (conflict_spec.overlap owner.now) self.now.owners }
    {
        if self.counts.none_overlaps(owner) {
            None
        } else {
            self.list.first(Asked::Overlaps(*owner))
        }
    }

    /// The first owner of that port in that namespace that `connect` didn't choose.
    pub fn holder(&self, port: u16, net: u8) -> Option<Owner>
        ensures { result ≡ find (conflict_spec.holds port net) self.now.owners }
    {
        if self.counts.none_holds(port) {
            None
        } else {
            self.list.first(Asked::Holds(port, net))
        }
    }

    /// The first listener whose group this owner would join.
    pub fn mate(&self, owner: &Owner) -> Option<Owner>
        ensures { result ≡ find (conflict_spec.is_mate owner.now) self.now.owners }
    {
        if self.counts.no_mate(owner) {
            None
        } else {
            self.list.first(Asked::Groups(*owner))
        }
    }
}
