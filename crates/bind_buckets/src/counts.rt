//! Counts of a bucket's owners by port, and by port and address.
//!
//! Those by port answer most questions. Where many owners share a port at one address, and one at
//! another address shares it with none, those by address still show that none refuses a newcomer.

ghost use Rattle.std.specs.Prelude.{ℕ, ◌≡◌, ◌/◌, ◌==◌, ◌&&◌, ◌||◌, ◌<◌, ◌≤◌, Bool, true, List, [], ◌∷◌, ◌++◌, find, None, Some, OnOk, OnErr, IfOk};
ghost use Rattle.sock_card.specs.Conflict as conflict_spec;
ghost use Rattle.bind_buckets.specs.First.{change_first, drop_first};
ghost use Rattle.bind_buckets.specs.Slots.{owners_in};
ghost use Rattle.bind_buckets.specs.Tally as tally_spec;
ghost use Rattle.bind_buckets.specs.Tally.{AreMade, IsTallyOf};
ghost use Rattle.bind_buckets.specs.OwnerCounts as spec;
ghost use Rattle.bind_buckets.specs.OwnerCounts.{IsCountOf, HasMemory, port_tally, end_tally, place_by_end};

use crate::slot::Slot;
use crate::tally::{PLACES, Spot, Tallies, Tally};
use sock_card::{Owner, State};
use std::alloc::{AllocError, Global};
use std::marker::Model;

/// Counts of a bucket's owners, by port, and by port and address.
///
/// Of ports, as many in a row have one place as the stride says; after 256 places comes the first
/// again, and each address counts one place on. By port those are marked whose port `connect` didn't
/// choose, and by port and address those that listen with `reuseport`. By port and address they are
/// counted only from [`OwnerCounts::count_ends`] on. The counts are of a list of owners that the caller
/// keeps: [`OwnerCounts::come`], [`OwnerCounts::go`] and [`OwnerCounts::change`] follow its changes.
#[derive(Drop)]
pub struct OwnerCounts {
    by_port: Tallies,
    // Without memory until ends are counted, and then of all owners.
    by_end: Tallies,
    stride: u32,
    alloc: Global,
}

impl Model for OwnerCounts {
    ghost use Rattle.std.specs.Prelude.{ℕ, ◌≤◌};
    ghost use Rattle.bind_buckets.specs.OwnerCounts.{OwnerCounts as Shown};

    ghost Value = { Shown };

    ghost view = { λ c. record { by_port = c.by_port; by_end = c.by_end; stride = c.stride } };

    ghost invariant = { λ c. 1 ≤ c.stride };
}

fn is_held(owner: &Owner) -> bool
    ensures { result ≡ spec.is_held owner.now }
{
    !owner.by_connect
}

fn is_grouped(owner: &Owner) -> bool
    ensures { result ≡ spec.is_grouped owner.now }
{
    matches!(owner.state, State::Listening) && owner.reuseport
}

/// How many whole strides come before a port. With 256, the most buckets that a table has, it takes no division.
fn strides_before(port: u16, stride: u32) -> usize
    requires { 1 ≤ stride }
    ensures { result ≡ port / stride }
{
    if stride == 256 {
        (port / 256) as usize
    } else {
        (u32::from(port) / stride) as usize
    }
}

fn end_place(stride: u32, port: u16, addr: u32) -> usize
    requires { 1 ≤ stride }
    ensures place { result ≡ spec.end_place stride port addr }
    ensures within { result < 256 }
{
    (strides_before(port, stride) + addr as usize) % PLACES
}

fn end_spot(stride: u32, owner: &Owner) -> Spot
    requires { 1 ≤ stride }
    ensures spot { result ≡ spec.end_spot stride owner.now }
    ensures within { result.place < 256 }
{
    Spot {
        place: end_place(stride, owner.port, owner.addr),
        marked: is_grouped(owner),
    }
}

/// Tallies of the owners in these slots, by port and address.
fn tally_ends(alloc: Global, stride: u32, slots: &[Slot]) -> Result<Tallies, AllocError>
    requires { 1 ≤ stride }
    ensures made { IfOk result (λ ends. AreMade ends) }
    ensures counted { IfOk result (λ ends. IsTallyOf (place_by_end stride) spec.is_grouped ends (owners_in slots.now)) }
{
    let mut ends = Tallies::new(alloc);
    ends.reserve()?;
    for slot in slots {
        if slot.here {
            ends.come(end_spot(stride, &slot.owner), &slot.owner);
        }
    }
    Ok(ends)
}

impl OwnerCounts {
    /// Counts of no owners, with that stride. It takes no memory.
    pub fn new(alloc: Global, stride: u32) -> Self
        requires { 1 ≤ stride }
        ensures none { result ≡ spec.no_counts stride }
        ensures empty { IsCountOf result [] }
    {
        OwnerCounts {
            by_port: Tallies::new(alloc),
            by_end: Tallies::new(alloc),
            stride,
            alloc,
        }
    }

    /// Takes the memory for counts by port, at the first call; later calls cost nothing.
    ///
    /// An `Err`, for want of memory, leaves the counts as they are.
    pub fn reserve(&mut self) -> Result<(), AllocError>
        ensures made { OnOk result (HasMemory self.new) }
        ensures kept { HasMemory self.old → HasMemory self.new }
        ensures stays { (owners : List Owner) → IsCountOf self.old owners → IsCountOf self.new owners }
    {
        self.by_port.reserve()
    }

    /// Whether owners are counted by port and address, too.
    pub fn has_ends(&self) -> bool
        ensures { result ≡ spec.has_ends self.now }
    {
        self.by_end.is_made()
    }

    /// Counts the owners in these slots by port and address, too, from now on.
    ///
    /// It goes through all slots. An `Err`, for want of memory, changes nothing.
    pub fn count_ends(&mut self, slots: &[Slot]) -> Result<(), AllocError>
        ensures ends { OnOk result (spec.has_ends self.new ≡ true) }
        ensures made { HasMemory self.old → HasMemory self.new }
        ensures stays { IsCountOf self.old (owners_in slots.now) → IsCountOf self.new (owners_in slots.now) }
        ensures err { OnErr result (self.new ≡ self.old) }
    {
        self.by_end = tally_ends(self.alloc, self.stride, slots)?;
        Ok(())
    }

    fn port_place(&self, port: u16) -> usize
        ensures place { result ≡ spec.port_place self.now.stride port }
        ensures within { result < 256 }
    {
        strides_before(port, self.stride) % PLACES
    }

    fn port_spot(&self, owner: &Owner) -> Spot
        ensures spot { result ≡ spec.port_spot self.now.stride owner.now }
        ensures within { result.place < 256 }
    {
        Spot {
            place: self.port_place(owner.port),
            marked: is_held(owner),
        }
    }

    fn end_spot(&self, owner: &Owner) -> Spot
        ensures spot { result ≡ spec.end_spot self.now.stride owner.now }
        ensures within { result.place < 256 }
    {
        end_spot(self.stride, owner)
    }

    fn at_port(&self, port: u16) -> Tally
        ensures { result ≡ port_tally self.now port }
    {
        self.by_port.tally_at(self.port_place(port))
    }

    fn at_end(&self, port: u16, addr: u32) -> Tally
        ensures { result ≡ end_tally self.now port addr }
    {
        self.by_end.tally_at(end_place(self.stride, port, addr))
    }

    /// Counts one owner more, once [`OwnerCounts::reserve`] has answered `Ok`. Constant cost.
    pub fn come(&mut self, owner: &Owner)
        requires made { HasMemory self.old }
        ensures made { HasMemory self.new }
        ensures stays { (owners : List Owner) → IsCountOf self.old owners
            → IsCountOf self.new (owners ++ owner.now ∷ []) }
    {
        let port = self.port_spot(owner);
        let end = self.end_spot(owner);
        self.by_port.come(port, owner);
        self.by_end.come(end, owner);
    }

    /// Counts an owner no longer, which was counted. Constant cost.
    pub fn go(&mut self, owner: &Owner)
        ensures made { HasMemory self.old → HasMemory self.new }
        ensures stays { (is : Owner → Bool) (owners : List Owner) → find is owners ≡ Some owner.now
            → IsCountOf self.old owners → IsCountOf self.new (drop_first is owners) }
    {
        let port = self.port_spot(owner);
        let end = self.end_spot(owner);
        self.by_port.go(port, owner);
        self.by_end.go(end, owner);
    }

    /// Counts an owner as it is now, which was counted as it was. Constant cost, and mostly none: a
    /// tally is changed only where it counts the owner otherwise than before.
    pub fn change(&mut self, was: &Owner, owner: &Owner)
        ensures made { HasMemory self.old → HasMemory self.new }
        ensures stays { (is : Owner → Bool) (become : Owner → Owner) (owners : List Owner)
            → find is owners ≡ Some was.now → become was.now ≡ owner.now
            → IsCountOf self.old owners → IsCountOf self.new (change_first is become owners) }
    {
        let was_port = self.port_spot(was);
        let was_end = self.end_spot(was);
        let port = self.port_spot(owner);
        let end = self.end_spot(owner);
        self.by_port.change(was_port, was, port, owner);
        self.by_end.change(was_end, was, end, owner);
    }

    /// Whether that tally and the one of its port at 0.0.0.0 show that none of their owners keeps this
    /// one from its port, where it has an address.
    fn both_rule_out(&self, there: Tally, owner: &Owner) -> bool
        ensures { result ≡ (spec.has_ends self.now
            && spec.both_rule_out there (end_tally self.now owner.now.port 0) owner.now) }
    {
        if !self.has_ends() {
            return false;
        }
        owner.addr != 0
            && there.none_refuses(owner)
            && self.at_end(owner.port, 0).none_refuses(owner)
    }

    /// Whether the counts show that no owner keeps this one from its port. Constant cost.
    ///
    /// An owner that does has its port, and its address or 0.0.0.0, where it has an address itself.
    pub fn none_refuses(&self, owner: &Owner) -> bool
        ensures counts { result ≡ (tally_spec.rules_out (port_tally self.now owner.now.port) owner.now
            || (spec.has_ends self.now && spec.both_rule_out (end_tally self.now owner.now.port owner.now.addr)
            (end_tally self.now owner.now.port 0) owner.now)) }
        ensures none { result ≡ true → (owners : List Owner) → IsCountOf self.now owners
            → find (conflict_spec.refuses owner.now) owners ≡ None }
    {
        let there = self.at_end(owner.port, owner.addr);
        self.at_port(owner.port).none_refuses(owner) || self.both_rule_out(there, owner)
    }

    /// Whether the counts show that no other owner keeps this one from its port, where it is one
    /// itself. Constant cost.
    ///
    /// Where its address and 0.0.0.0 have one place, the tally there still counts it.
    pub fn no_other_refuses(&self, owner: &Owner) -> bool
        ensures alone { (port_tally self.now owner.now.port).owners ≡ 1 → result ≡ true }
        ensures alone_there { spec.has_ends self.now ≡ true
            → (end_tally self.now owner.now.port owner.now.addr).owners ≡ 1
            → (end_tally self.now owner.now.port 0).owners ≡ 0 → (owner.now.addr ≡ 0 → ⊥) → result ≡ true }
        ensures none { result ≡ true → (is : Owner → Bool) (owners : List Owner) → find is owners ≡ Some owner.now
            → IsCountOf self.now owners → find (conflict_spec.refuses owner.now) (drop_first is owners) ≡ None }
    {
        let there = self.at_end(owner.port, owner.addr);
        let others_there = there.without(is_grouped(owner), owner);
        let others = self.at_port(owner.port).without(is_held(owner), owner);
        others.none_refuses(owner) || self.both_rule_out(others_there, owner)
    }

    /// Whether the counts show that no owner wants what this one wants, options or not. Constant cost.
    pub fn none_overlaps(&self, owner: &Owner) -> bool
        ensures counts { result ≡ (port_tally self.now owner.now.port).owners == 0 }
        ensures none { result ≡ true → (owners : List Owner) → IsCountOf self.now owners
            → find (conflict_spec.overlap owner.now) owners ≡ None }
    {
        self.at_port(owner.port).owners == 0
    }

    /// Whether the counts show that `connect` chose the port of each owner that has that one, in whatever
    /// namespace. Constant cost.
    pub fn none_holds(&self, port: u16) -> bool
        ensures counts { result ≡ (port_tally self.now port).marked == 0 }
        ensures none { result ≡ true → (owners : List Owner) → IsCountOf self.now owners
            → (net : ℕ) → find (conflict_spec.holds port net) owners ≡ None }
    {
        self.at_port(port).marked == 0
    }

    /// Whether the counts show that no listener has a group that this owner would join. Constant cost.
    pub fn no_mate(&self, owner: &Owner) -> bool
        ensures counts { result ≡ (spec.has_ends self.now
            && ((end_tally self.now owner.now.port owner.now.addr).marked == 0)) }
        ensures none { result ≡ true → (owners : List Owner) → IsCountOf self.now owners
            → find (conflict_spec.is_mate owner.now) owners ≡ None }
    {
        self.has_ends() && self.at_end(owner.port, owner.addr).marked == 0
    }
}
