//! Counts of owners, by which most conflicts are ruled out without a scan.
//!
//! Linux spares such scans by `fastreuse` and `fastreuseport` of `struct inet_bind_bucket`
//! (`sk_reuseport_match` in `net/ipv4/inet_connection_sock.c`). Owners that have one place share a
//! tally, and a count that has reached 255 stays there: either may cost a scan, and never changes an
//! answer.

ghost use Rattle.std.specs.Prelude.{◌≡◌, ℕ, ◌<◌, Bool, true, List, [], ◌∷◌, ◌++◌, find, length, Some, OnOk, OnErr, slice_set, nat_eq, if◌then◌else◌};
ghost use Rattle.bind_buckets.specs.First.{change_first, drop_first};
ghost use Rattle.bind_buckets.specs.Tally as spec;
ghost use Rattle.bind_buckets.specs.Tally.{Counts, CountAlike, IsTallyOf, AreMade, spot_of};

use sock_card::{Owner, State};
use std::alloc::{AllocError, Global};
use std::marker::Model;

/// How many places there are.
pub const PLACES: usize = 256;

const EMPTY: Tally = Tally {
    owners: 0,
    exclusive: 0,
    unshared: 0,
    marked: 0,
    uid: 0,
};

/// Counts of the owners at one place.
///
/// `exclusive` are those that listen or lack `reuseaddr`, `unshared` those that lack `reuseport` or
/// aren't of the user `uid`, of whom the first owner was that came to the empty place, and `marked`
/// those that have the mark which these tallies count.
///
/// A count that has reached 255 stays there, since nobody knows any more when none is left. A tally
/// takes eight bytes.
#[derive(Clone, Copy, Debug)]
pub struct Tally {
    pub owners: u8,
    exclusive: u8,
    unshared: u8,
    pub marked: u8,
    uid: u32,
}

/// Where an owner is counted, and whether it has the mark that is counted there.
#[derive(Clone, Copy)]
pub struct Spot {
    pub place: usize,
    pub marked: bool,
}

fn is_same(a: Spot, b: Spot) -> bool
    ensures { result ≡ true → a ≡ b }
{
    a.place == b.place && a.marked == b.marked
}

fn is_exclusive(owner: &Owner) -> bool
    ensures { result ≡ spec.is_exclusive owner.now }
{
    !owner.reuseaddr || matches!(owner.state, State::Listening)
}

fn is_unshared(uid: u32, owner: &Owner) -> bool
    ensures { result ≡ spec.is_unshared uid owner.now }
{
    !(owner.reuseport && owner.uid == uid)
}

/// Whether both count alike at one place.
fn count_alike(a: &Owner, b: &Owner) -> bool
    ensures { result ≡ true → CountAlike a.now b.now }
{
    is_exclusive(a) == is_exclusive(b) && a.reuseport == b.reuseport && a.uid == b.uid
}

/// One more where the owner counts.
fn more(count: u8, counts: bool) -> u8
    ensures { result ≡ spec.more count counts }
{
    count.saturating_add(u8::from(counts))
}

/// One less where the owner counted.
fn less(count: u8, counted: bool) -> u8
    ensures { result ≡ spec.less count counted }
{
    if count < u8::MAX {
        count.saturating_sub(u8::from(counted))
    } else {
        count
    }
}

impl Tally {
    /// The user whom others share a port with, once that owner has come.
    fn user_with(self, owner: &Owner) -> u32
        ensures { result ≡ (if nat_eq self.owners 0 then owner.now.uid else self.uid) }
    {
        if self.owners == 0 {
            owner.uid
        } else {
            self.uid
        }
    }

    /// With one owner more, which is marked or isn't.
    fn with(self, marked: bool, owner: &Owner) -> Tally
        ensures { (at has_mark : Owner → Bool) (owners : List Owner) → at owner.now ≡ true
            → has_mark owner.now ≡ marked → Counts at has_mark self owners
            → Counts at has_mark result (owners ++ owner.now ∷ []) }
    {
        let uid = self.user_with(owner);
        Tally {
            owners: more(self.owners, true),
            exclusive: more(self.exclusive, is_exclusive(owner)),
            unshared: more(self.unshared, is_unshared(uid, owner)),
            marked: more(self.marked, marked),
            uid,
        }
    }

    /// Without one of its owners, which is marked or isn't.
    pub fn without(self, marked: bool, owner: &Owner) -> Tally
        ensures fewer { result.owners ≡ spec.less self.owners true }
        ensures counts { (at has_mark is : Owner → Bool) (owners : List Owner) → at owner.now ≡ true
            → has_mark owner.now ≡ marked → find is owners ≡ Some owner.now → Counts at has_mark self owners
            → Counts at has_mark result (drop_first is owners) }
    {
        Tally {
            owners: less(self.owners, true),
            exclusive: less(self.exclusive, is_exclusive(owner)),
            unshared: less(self.unshared, is_unshared(self.uid, owner)),
            marked: less(self.marked, marked),
            uid: self.uid,
        }
    }

    /// Whether the counts show that none of its owners keeps this one from its port.
    pub fn none_refuses(self, owner: &Owner) -> bool
        ensures { result ≡ spec.rules_out self owner.now }
    {
        self.owners == 0
            || owner.reuseaddr && self.exclusive == 0
            || owner.reuseport && owner.uid == self.uid && self.unshared == 0
    }
}

/// Tallies of owners, one for each of 256 places.
///
/// Where an owner's place is, and which owners are marked, the caller says, who keeps the list of
/// owners: [`Tallies::come`], [`Tallies::go`] and [`Tallies::change`] follow its changes.
#[derive(Drop)]
pub struct Tallies {
    tallies: Vec<Tally>,
}

impl Model for Tallies {
    ghost use Rattle.std.specs.Prelude.{List};
    ghost use Rattle.bind_buckets.specs.declared.tally.Tally.{Tally};

    ghost Value = { List Tally };

    ghost view = { λ t. t.tallies.items };
}

impl Tallies {
    /// Tallies of no owners. It takes no memory.
    pub fn new(alloc: Global) -> Self
        ensures none { result ≡ [] }
        ensures empty { (place_of : Owner → ℕ) (has_mark : Owner → Bool) → IsTallyOf place_of has_mark result [] }
    {
        Tallies {
            tallies: Vec::new(alloc),
        }
    }

    /// Takes the memory for all tallies, at the first call; later calls cost nothing.
    ///
    /// An `Err`, for want of memory, changes nothing.
    pub fn reserve(&mut self) -> Result<(), AllocError>
        ensures made { OnOk result (AreMade self.new) }
        ensures stays { OnOk result ((place_of : Owner → ℕ) (has_mark : Owner → Bool) (owners : List Owner)
            → IsTallyOf place_of has_mark self.old owners → IsTallyOf place_of has_mark self.new owners) }
        ensures err { OnErr result (self.new ≡ self.old) }
    {
        if self.tallies.len() < PLACES {
            self.tallies.resize(PLACES, EMPTY)?;
        }
        Ok(())
    }

    /// Whether the memory for all tallies is there.
    pub fn is_made(&self) -> bool
        ensures { result ≡ spec.is_made self.now }
    {
        self.tallies.len() >= PLACES
    }

    /// What is counted at that place.
    pub fn tally_at(&self, place: usize) -> Tally
        ensures { result ≡ spec.tally_at self.now place }
    {
        self.tallies.get(place).copied().unwrap_or(EMPTY)
    }

    fn put(&mut self, place: usize, tally: Tally)
        ensures { self.new ≡ slice_set self.old place tally }
    {
        if let Some(kept) = self.tallies.get_mut(place) {
            *kept = tally;
        }
    }

    /// Counts one owner more, once [`Tallies::reserve`] has answered `Ok`. Constant cost.
    pub fn come(&mut self, spot: Spot, owner: &Owner)
        requires place { spot.place < 256 }
        ensures len { length self.new ≡ length self.old }
        ensures stays { AreMade self.old → (place_of : Owner → ℕ) (has_mark : Owner → Bool) (owners : List Owner)
            → spot_of place_of has_mark owner.now ≡ spot → IsTallyOf place_of has_mark self.old owners
            → IsTallyOf place_of has_mark self.new (owners ++ owner.now ∷ []) }
    {
        let tally = self.tally_at(spot.place);
        self.put(spot.place, tally.with(spot.marked, owner));
    }

    /// Counts an owner no longer, which was counted there. Constant cost.
    pub fn go(&mut self, spot: Spot, owner: &Owner)
        requires place { spot.place < 256 }
        ensures len { length self.new ≡ length self.old }
        ensures stays { (place_of : Owner → ℕ) (has_mark is : Owner → Bool) (owners : List Owner)
            → spot_of place_of has_mark owner.now ≡ spot → find is owners ≡ Some owner.now
            → IsTallyOf place_of has_mark self.old owners
            → IsTallyOf place_of has_mark self.new (drop_first is owners) }
    {
        let tally = self.tally_at(spot.place);
        self.put(spot.place, tally.without(spot.marked, owner));
    }

    /// Counts an owner as it is now, which was counted as it was. Constant cost.
    pub fn change(&mut self, was_spot: Spot, was: &Owner, spot: Spot, owner: &Owner)
        requires was_place { was_spot.place < 256 }
        requires place { spot.place < 256 }
        ensures len { length self.new ≡ length self.old }
        ensures stays { (place_of : Owner → ℕ) (has_mark is : Owner → Bool) (become : Owner → Owner)
            (owners : List Owner) → spot_of place_of has_mark was.now ≡ was_spot
            → spot_of place_of has_mark owner.now ≡ spot → find is owners ≡ Some was.now
            → become was.now ≡ owner.now → IsTallyOf place_of has_mark self.old owners
            → IsTallyOf place_of has_mark self.new (change_first is become owners) }
    {
        if is_same(was_spot, spot) && count_alike(was, owner) {
            return;
        }
        let rest = self.tally_at(was_spot.place).without(was_spot.marked, was);
        self.put(was_spot.place, rest);
        let tally = self.tally_at(spot.place);
        self.put(spot.place, tally.with(spot.marked, owner));
    }
}
