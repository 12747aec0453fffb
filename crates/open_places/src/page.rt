//! A page: the cells of places that follow each other. An array is one page of any length.

ghost use Rattle.std.specs.Prelude.{◌≡◌, ◌∷◌, ◌++◌, ◌-◌, ◌↔◌, true, IsTrue, length, [], None, Some, is_some, slice_set, take, MatchOption, IfOk, OnOk, OnErr};
ghost use Rattle.std.specs.Option.{option_copied, option_flatten, option_map};
ghost use Rattle.open_places.specs.Pages.{HasNoneFrom, IsFirstOn, cell_on, kept_on, one_if, value_on};

use std::alloc::{AllocError, Global};
use std::marker::Model;

/// How many places a page has that others follow.
pub(crate) const PLACES: usize = 32;

/// The cells of the places that were given of a page, or of an array.
#[derive(Drop)]
pub(crate) struct Page<T: Drop> {
    /// What each has: nothing once its place is let go, else its value or none.
    cells: Vec<Option<Option<T>>>,
    /// How many are kept.
    kept: usize,
}

impl<T: Drop> Model for Page<T> {
    ghost use Rattle.std.specs.Prelude.{◌≡◌, List, Option};
    ghost use Rattle.open_places.specs.Pages.{kept_on};

    ghost Value = { List (Option (Option T)) };

    ghost view = { λ p. p.cells.items };

    ghost invariant = { λ p. p.kept ≡ kept_on p.cells.items };
}

/// 1 of a place that is kept.
fn one_if_kept<T: Drop>(cell: &Option<Option<T>>) -> usize
    ensures { result ≡ one_if cell.now }
{
    match cell {
        Some(_) => 1,
        None => 0,
    }
}

/// Takes the value out of a cell.
fn take_out<T: Drop>(cell: &mut Option<Option<T>>) -> Option<T>
    ensures value { result ≡ option_flatten cell.old }
    ensures after { cell.new ≡ option_map (λ _. None) cell.old }
{
    match cell {
        Some(value) => value.take(),
        None => None,
    }
}

impl<T: Drop> Page<T> {
    /// Without a place so far. It takes no memory.
    pub(crate) fn new(alloc: Global) -> Self
        ensures { result ≡ [] }
    {
        Page {
            cells: Vec::new(alloc),
            kept: 0,
        }
    }

    /// Without a place so far, with memory for all that it can have.
    pub(crate) fn with_room(alloc: Global) -> Result<Self, AllocError>
        ensures { IfOk result (λ page. page ≡ []) }
    {
        Ok(Page {
            cells: Vec::with_capacity(alloc, PLACES)?,
            kept: 0,
        })
    }

    /// Makes room for so many places more.
    pub(crate) fn reserve(&mut self, more: usize) -> Result<(), AllocError>
        ensures { self.new ≡ self.old }
    {
        self.cells.reserve(more)
    }

    /// How many places it has so far.
    pub(crate) fn len(&self) -> usize
        ensures { result ≡ length self.now }
    {
        self.cells.len()
    }

    /// None of its places is kept.
    pub(crate) fn is_let_go(&self) -> bool
        ensures { IsTrue result ↔ (kept_on self.now ≡ 0) }
    {
        self.kept == 0
    }

    /// Gives a place more, which is empty and kept. An `Err` changes nothing.
    pub(crate) fn give(&mut self) -> Result<(), AllocError>
        ensures given { OnOk result (self.new ≡ self.old ++ Some None ∷ []) }
        ensures err { OnErr result (self.new ≡ self.old) }
    {
        self.cells.push(Some(None))?;
        self.kept += 1;
        Ok(())
    }

    /// Takes the last place back, if there is one.
    pub(crate) fn take_back(&mut self)
        ensures { self.new ≡ take (length self.old - 1) self.old }
    {
        if let Some(cell) = self.cells.pop() {
            self.kept -= one_if_kept(&cell);
        }
    }

    /// The value at a place.
    pub(crate) fn at(&self, place: usize) -> Option<&T>
        ensures { option_copied result ≡ value_on self.now place }
    {
        match self.cells.get(place)? {
            Some(cell) => cell.as_ref(),
            None => None,
        }
    }

    /// The first place from that one on that has a value.
    pub(crate) fn next_full(&self, first: usize) -> Option<usize>
        ensures { MatchOption result (HasNoneFrom self.now first) (IsFirstOn self.now first) }
    {
        for place in first..self.cells.len() {
            if self.at(place).is_some() {
                return Some(place);
            }
        }
        None
    }

    /// Takes the value out of its place, which stays kept.
    pub(crate) fn take(&mut self, place: usize) -> Option<T>
        ensures value { result ≡ value_on self.old place }
        ensures after { self.new ≡ slice_set self.old place
            (option_map (λ _. None) (cell_on self.old place)) }
    {
        take_out(self.cells.get_mut(place)?)
    }

    /// Puts a value to a place that is kept. It takes no memory.
    pub(crate) fn put(&mut self, place: usize, value: T)
        requires kept { is_some (cell_on self.old place) ≡ true }
        ensures { self.new ≡ slice_set self.old place (Some (Some value)) }
    {
        self.cells[place] = Some(Some(value));
    }

    /// Lets a place go.
    pub(crate) fn let_go(&mut self, place: usize)
        ensures { self.new ≡ slice_set self.old place None }
    {
        if let Some(cell) = self.cells.get_mut(place) {
            self.kept -= one_if_kept(cell);
            *cell = None;
        }
    }
}
