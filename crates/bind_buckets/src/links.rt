//! Places of a list, found by their keys.

ghost use Rattle.std.specs.Prelude.{◌≡◌, ◌+◌, ◌*◌, ◌%◌, ◌^◌, ◌≤◌, ◌<◌, ◌++◌, ◌∷◌, [], length, vec_len, vec_capacity, IfSome, OnOk, slice_set};
ghost use Rattle.bind_buckets.specs.Links as spec;
ghost use Rattle.bind_buckets.specs.Links.{keys_in, newers_in, place_after, is_key, is_home, IsFirstIn, AreLinked, IsAfter};

use crate::maybe_place::{MOST_PLACES, MaybePlace};
use std::alloc::{AllocError, Global};
use std::marker::Model;

/// The key of a place, and the next place whose key has the same home.
#[derive(Clone, Copy)]
struct Place {
    key: u64,
    newer: MaybePlace,
}

/// The first place of a home, and the last.
#[derive(Clone, Copy)]
struct Ends {
    oldest: MaybePlace,
    newest: MaybePlace,
}

/// The keys of a list's places, of which those with one key are found in their order.
///
/// A key's home is what it leaves when divided by the number of homes, and the places of a home are
/// linked from the oldest to the newest. So a step to the next place of a key costs about two looks
/// at most, where keys spread evenly. The number of homes is odd, which spreads keys that are a power
/// of two apart; other keys that leave the same remainder fall together, and cost more. A place takes
/// eight bytes, and so does a home, of which there are one to two for each place: there are
/// 4,294,967,295 places at most.
///
/// Only [`Links::reserve`] takes memory.
#[derive(Drop)]
pub struct Links {
    places: Vec<Place>,
    homes: Vec<Ends>,
}

impl Model for Links {
    ghost use Rattle.std.specs.Prelude.{vec_len, vec_capacity};
    ghost use Rattle.bind_buckets.specs.Links.{Keyed, keys_in, room_in, AreInHomes};

    ghost Value = { Keyed };

    ghost view = { λ l. record {
      keys = keys_in l.places.items;
      room = room_in (vec_capacity l.places) (vec_len l.places);
    } };

    ghost invariant = { λ l. AreInHomes l.places.items l.homes.items (vec_capacity l.places) };
}

fn set_newer(place: usize, newer: MaybePlace, places: &mut [Place])
    requires { place < length places.old }
    ensures keys { keys_in places.new ≡ keys_in places.old }
    ensures newers { newers_in places.new ≡ slice_set (newers_in places.old) place newer }
{
    places[place].newer = newer;
}

fn no_ends() -> Ends
    ensures { result ≡ spec.no_ends }
{
    Ends {
        oldest: MaybePlace::none(),
        newest: MaybePlace::none(),
    }
}

/// The ends of a home, once that place is its last.
fn ends_with(ends: Ends, place: usize) -> Ends
    requires { place + 1 < 2 ^ 32 }
    ensures { result ≡ spec.ends_with ends place }
{
    Ends {
        oldest: MaybePlace::of(ends.oldest.get().unwrap_or(place)),
        newest: MaybePlace::of(place),
    }
}

/// Links a place behind those before it, which are linked.
fn link(place: usize, places: &mut [Place], homes: &mut [Ends])
    requires place { place < length places.old }
    requires fits { length places.old < 2 ^ 32 }
    requires homes { 0 < length homes.old }
    requires linked { AreLinked places.old homes.old place }
    ensures linked { AreLinked places.new homes.new (place + 1) }
    ensures keys { keys_in places.new ≡ keys_in places.old }
{
    let home = places[place].key as usize % homes.len();
    let ends = homes[home];
    set_newer(place, MaybePlace::none(), places);
    if let Some(newest) = ends.newest.get() {
        set_newer(newest, MaybePlace::of(place), places);
    }
    homes[home] = ends_with(ends, place);
}

/// Links all places anew.
fn link_all(places: &mut [Place], homes: &mut [Ends])
    requires homes { 0 < length homes.old }
    requires fits { length places.old < 2 ^ 32 }
    ensures linked { AreLinked places.new homes.new (length places.new) }
    ensures keys { keys_in places.new ≡ keys_in places.old }
{
    homes.fill(no_ends());
    for place in 0..places.len() {
        link(place, places, homes);
    }
}

/// The first place of that key's home, or the next one after a place of it.
fn start(key: u64, after: Option<usize>, places: &[Place], homes: &[Ends]) -> Option<usize>
    requires linked { AreLinked places.now homes.now (length places.now) }
    requires homes { 0 < length places.now → 0 < length homes.now }
    requires after { IsAfter key after (keys_in places.now) }
    ensures { IsFirstIn (is_home (length homes.now) (key % length homes.now)) (keys_in places.now)
        (place_after after) (length places.now) result }
{
    if let Some(place) = after {
        return places[place].newer.get();
    }
    if homes.is_empty() {
        return None;
    }
    homes[key as usize % homes.len()].oldest.get()
}

/// The first place of that key, or the next one after a place of it.
fn next_place(key: u64, after: Option<usize>, places: &[Place], homes: &[Ends]) -> Option<usize>
    requires linked { AreLinked places.now homes.now (length places.now) }
    requires homes { 0 < length places.now → 0 < length homes.now }
    requires after { IsAfter key after (keys_in places.now) }
    ensures { IsFirstIn (is_key key) (keys_in places.now) (place_after after) (length places.now) result }
{
    let mut next = start(key, after, places, homes);
    while let Some(place) = next {
        let there = places[place];
        if there.key == key {
            return next;
        }
        next = there.newer.get();
    }
    None
}

/// How many homes serve so many places.
fn homes_for(places: usize) -> Option<usize>
    ensures { IfSome result (λ homes. homes ≡ 2 * places + 1) }
{
    places.checked_mul(2)?.checked_add(1)
}

impl Links {
    /// No places, without room. It takes no memory.
    pub fn new(alloc: Global) -> Self
        ensures { result ≡ record { keys = []; room = 0 } }
    {
        Links {
            places: Vec::new(alloc),
            homes: Vec::new(alloc),
        }
    }

    /// How many places there are. Constant cost.
    pub fn len(&self) -> usize
        ensures len { result ≡ length self.now.keys }
        ensures bound { result + self.now.room < 2 ^ 64 }
    {
        self.places.len()
    }

    /// Makes room for so many more. An `Err`, for want of memory or of a number for a place, changes
    /// no key.
    ///
    /// Mostly it costs nothing. Where there are fewer homes than places, all are linked anew in twice
    /// as many.
    pub fn reserve(&mut self, more: usize) -> Result<(), AllocError>
        ensures keys { self.new.keys ≡ self.old.keys }
        ensures room { OnOk result (more ≤ self.new.room) }
        ensures kept { self.old.room ≤ self.new.room }
    {
        let wanted = self.places.len().checked_add(more).ok_or(AllocError)?;
        if wanted > MOST_PLACES {
            return Err(AllocError);
        }
        if self.homes.len() <= wanted {
            let homes = homes_for(wanted).ok_or(AllocError)?;
            self.homes.resize(homes, no_ends())?;
            link_all(&mut self.places, &mut self.homes);
        }
        self.places.reserve_exact(more)
    }

    /// Forgets all places, whose room stays.
    pub fn clear(&mut self)
        ensures { self.new ≡ record { keys = []; room = self.old.room + length self.old.keys } }
    {
        self.places.clear();
        self.homes.fill(no_ends());
    }

    /// Appends a place with that key. Constant cost.
    pub fn push(&mut self, key: u64)
        requires { 1 ≤ self.old.room }
        ensures keys { self.new.keys ≡ self.old.keys ++ key ∷ [] }
        ensures room { self.new.room + 1 ≡ self.old.room }
    {
        let place = self.places.len();
        self.places.push_reserved(Place {
            key,
            newer: MaybePlace::none(),
        });
        link(place, &mut self.places, &mut self.homes);
    }

    /// The first place of that key, or the next one after a place of it.
    pub fn next(&self, key: u64, after: Option<usize>) -> Option<usize>
        requires { IsAfter key after self.now.keys }
        ensures { IsFirstIn (is_key key) self.now.keys (place_after after) (length self.now.keys) result }
    {
        next_place(key, after, &self.places, &self.homes)
    }
}
