//! Places on pages.

ghost use Rattle.std.specs.Prelude.{◌≡◌, ◌≢◌, ◌<◌, ◌≤◌, ◌+◌, ◌*◌, ◌/◌, ◌^◌, ℕ, is_some, true, false, length, [], ◌∷◌, ◌++◌, None, Some, slice_set, MatchOption, IfSome, OnOk, OnErr};
ghost use Rattle.std.specs.List.{slice_index_or};
ghost use Rattle.std.specs.Option.{option_copied, option_flatten, option_map};
ghost use Rattle.std.specs.Ordering.{nat_cmp};
ghost use Rattle.std.specs.BTreeMap.{get};
ghost use Rattle.open_places.specs.Cells.{Places, AreEmpty, AreEmptyFrom, IsNextFull, one_more};
ghost use Rattle.open_places.specs.Pages as spec;

use crate::page::{PLACES, Page};
use std::alloc::{AllocError, Global};
use std::collections::BTreeMap;
use std::marker::Model;
use std::mem::replace;

/// The number of the last page that can be given.
const LAST_NUMBER: usize = usize::MAX / PLACES - 1;

/// Places, of which those that are kept take memory, by pages.
#[derive(Drop)]
pub(crate) struct Paged<T: Drop> {
    alloc: Global,
    /// The pages before the last one of which a place is kept, by their numbers.
    earlier: BTreeMap<usize, Page<T>>,
    /// The last page's number.
    number: usize,
    /// The last page.
    last: Page<T>,
}

impl<T: Drop> Model for Paged<T> {
    ghost use Rattle.open_places.specs.Cells.{Places};
    ghost use Rattle.open_places.specs.Pages.{places_on, ArePages};

    ghost Value = { Places T };

    ghost view = { λ p. places_on p.earlier p.number p.last };

    ghost invariant = { λ p. ArePages p.earlier p.number p.last };
}

/// Begins a page behind the last one, which is full: that one goes to the earlier ones, unless all its places were let
/// go. An `Err` changes nothing.
fn turn_page<T: Drop>(
    alloc: Global,
    earlier: &mut BTreeMap<usize, Page<T>>,
    number: usize,
    last: &mut Page<T>,
) -> Result<(), AllocError>
    requires { get nat_cmp earlier.old number ≡ None }
    ensures new { OnOk result (last.new ≡ []) }
    ensures turned { OnOk result (spec.Turns earlier.old number last.old earlier.new) }
    ensures err { OnErr result (last.new ≡ last.old) }
    ensures same { OnErr result ((n : ℕ) → get nat_cmp earlier.new n ≡ get nat_cmp earlier.old n) }
{
    let fresh = Page::with_room(alloc)?;
    let full = replace(last, fresh);
    if full.is_let_go() {
        return Ok(());
    }
    match earlier.insert(number, full) {
        Ok(_) => Ok(()),
        Err(refused) => {
            let (_, full) = refused.value;
            *last = full;
            Err(AllocError)
        }
    }
}

/// Takes a value out of its place on an earlier page.
fn take_earlier<T: Drop>(earlier: &mut BTreeMap<usize, Page<T>>, place: usize) -> Option<T>
    ensures value { result ≡ option_flatten (spec.earlier_cell earlier.old place) }
    ensures after { spec.Sets earlier.old place (option_map (λ _. None) (spec.earlier_cell earlier.old place))
        earlier.new }
{
    earlier.get_mut(&(place / PLACES))?.take(place % PLACES)
}

/// Puts a value to a place of an earlier page.
fn put_earlier<T: Drop>(earlier: &mut BTreeMap<usize, Page<T>>, place: usize, value: T)
    requires { is_some (spec.earlier_cell earlier.old place) ≡ true }
    ensures { spec.Sets earlier.old place (Some (Some value)) earlier.new }
{
    match earlier.get_mut(&(place / PLACES)) {
        Some(page) => page.put(place % PLACES, value),
        None => unreachable!(),
    }
}

/// Lets a place of an earlier page go, and the page with the last of its places.
fn let_go_earlier<T: Drop>(earlier: &mut BTreeMap<usize, Page<T>>, place: usize)
    ensures { spec.Sets earlier.old place None earlier.new }
{
    let number = place / PLACES;
    let Some(page) = earlier.get_mut(&number) else {
        return;
    };
    page.let_go(place % PLACES);
    if page.is_let_go() {
        earlier.remove(&number);
    }
}

/// The first place to be looked at on that page or a later one than the place's, from the place on.
fn first_on(number: usize, from: usize) -> usize
    requires { from / 32 ≤ number }
    ensures on { from ≤ number * 32 + result }
    ensures first { (i : ℕ) → from ≤ number * 32 + i → result ≤ i }
{
    if number == from / PLACES {
        from % PLACES
    } else {
        0
    }
}

impl<T: Drop> Paged<T> {
    /// None yet. It takes no memory.
    pub(crate) fn new(alloc: Global) -> Self
        ensures cells { result.cells ≡ [] }
        ensures kept { result.kept ≡ [] }
    {
        Paged {
            alloc,
            earlier: BTreeMap::new(alloc),
            number: 0,
            last: Page::new(alloc),
        }
    }

    /// How many were given.
    pub(crate) fn len(&self) -> usize
        ensures cells { result ≡ length self.now.cells }
        ensures kept { length self.now.kept ≡ length self.now.cells }
    {
        self.number * PLACES + self.last.len()
    }

    /// Gives a place more, which is empty and kept. An `Err` changes nothing.
    pub(crate) fn give(&mut self) -> Result<(), AllocError>
        ensures given { OnOk result (self.new ≡ one_more self.old) }
        ensures kept { OnOk result (slice_index_or self.new.kept (length self.old.cells) false ≡ true) }
        ensures err { OnErr result (self.new ≡ self.old) }
    {
        if self.last.len() < PLACES {
            self.last.give()?;
            return Ok(());
        }
        if self.number == LAST_NUMBER {
            return Err(AllocError);
        }
        turn_page(self.alloc, &mut self.earlier, self.number, &mut self.last)?;
        self.number += 1;
        self.last.give()?;
        Ok(())
    }

    /// Takes the last place back, as if it hadn't been given.
    pub(crate) fn take_back(&mut self)
        ensures { (before : Places T) → self.old ≡ one_more before → self.new ≡ before }
    {
        if self.last.len() > 0 {
            self.last.take_back();
            return;
        }
        let Some(number) = self.number.checked_sub(1) else {
            return;
        };
        if let Some(page) = self.earlier.remove(&number) {
            self.number = number;
            self.last = page;
            self.last.take_back();
        }
    }

    /// The value at a place.
    pub(crate) fn at(&self, place: usize) -> Option<&T>
        ensures { option_copied result ≡ slice_index_or self.now.cells place None }
    {
        if place / PLACES == self.number {
            return self.last.at(place % PLACES);
        }
        self.earlier.get(&(place / PLACES))?.at(place % PLACES)
    }

    /// The first page from that number on of which places may be kept, and its number.
    fn page_from(&self, from: usize) -> (usize, &Page<T>)
        requires { from * 32 < length self.now.cells }
        ensures from { from ≤ result.0 }
        ensures fits { result.0 * 32 + 32 < 2 ^ 64 }
        ensures short { length result.1.now ≤ 32 }
        ensures shows { spec.Shows self.now.cells result.0 result.1.now }
        ensures between { AreEmpty self.now.cells (from * 32) (result.0 * 32) }
    {
        match self.earlier.range(from..).next() {
            Some((number, page)) => (*number, page),
            None => (self.number, &self.last),
        }
    }

    /// The first place from that number on that has a value. It goes down the tree once for each page that it goes
    /// through, and pages of which each place was let go cost nothing.
    pub(crate) fn next_full(&self, first: usize) -> Option<usize>
        ensures { MatchOption result (AreEmptyFrom self.now.cells first) (IsNextFull self.now.cells first) }
    {
        let mut from = first;
        while from < self.len() {
            let (number, page) = self.page_from(from / PLACES);
            match page.next_full(first_on(number, from)) {
                Some(place) => return Some(number * PLACES + place),
                None => from = (number + 1) * PLACES,
            }
        }
        None
    }

    /// Takes the value out of its place, which stays kept.
    pub(crate) fn take(&mut self, place: usize) -> Option<T>
        ensures value { result ≡ slice_index_or self.old.cells place None }
        ensures after { self.new.cells ≡ slice_set self.old.cells place None }
        ensures kept { self.new.kept ≡ self.old.kept }
        ensures there { result ≢ None → slice_index_or self.old.kept place false ≡ true }
    {
        if place / PLACES == self.number {
            self.last.take(place % PLACES)
        } else {
            take_earlier(&mut self.earlier, place)
        }
    }

    /// Puts a value to a place that is kept. It takes no memory.
    pub(crate) fn put(&mut self, place: usize, value: T)
        requires kept { slice_index_or self.old.kept place false ≡ true }
        ensures put { self.new.cells ≡ slice_set self.old.cells place (Some value) }
        ensures kept { self.new.kept ≡ self.old.kept }
    {
        if place / PLACES == self.number {
            self.last.put(place % PLACES, value);
        } else {
            put_earlier(&mut self.earlier, place, value);
        }
    }

    /// Lets a place go that is empty for good.
    pub(crate) fn let_go(&mut self, place: usize)
        requires empty { slice_index_or self.old.cells place None ≡ None }
        ensures same { self.new.cells ≡ self.old.cells }
        ensures kept { self.new.kept ≡ slice_set self.old.kept place false }
    {
        if place / PLACES == self.number {
            self.last.let_go(place % PLACES);
        } else {
            let_go_earlier(&mut self.earlier, place);
        }
    }
}
