//! The places, in either form.

ghost use Rattle.std.specs.Prelude.{◌≡◌, ◌≢◌, true, false, length, [], None, Some, slice_set, MatchOption, OnOk, OnErr};
ghost use Rattle.std.specs.List.{slice_index_or};
ghost use Rattle.std.specs.Option.{option_copied};
ghost use Rattle.open_places.specs.Cells.{Places, AreEmptyFrom, IsNextFull, one_more};
ghost use Rattle.open_places.specs.Forms.{places_in};

use crate::page::Page;
use crate::paged::Paged;
use std::alloc::{AllocError, Global};
use std::marker::Model;

/// How places stand.
#[derive(Drop)]
pub(crate) enum Form<T: Drop> {
    /// One after the other, whether they are kept or not.
    Array(Page<T>),
    /// By pages, of which those go that have no place that is kept.
    Pages(Paged<T>),
}

impl<T: Drop> Form<T> {
    /// Gives a place more. An `Err` changes nothing.
    fn give(&mut self) -> Result<(), AllocError>
        ensures given { OnOk result (places_in self.new ≡ one_more (places_in self.old)) }
        ensures kept { OnOk result
            (slice_index_or (places_in self.new).kept (length (places_in self.old).cells) false ≡ true) }
        ensures err { OnErr result (places_in self.new ≡ places_in self.old) }
    {
        match self {
            Form::Array(array) => array.give(),
            Form::Pages(pages) => pages.give(),
        }
    }

    /// Takes the last place back.
    fn take_back(&mut self)
        ensures { (before : Places T) → places_in self.old ≡ one_more before → places_in self.new ≡ before }
    {
        match self {
            Form::Array(array) => array.take_back(),
            Form::Pages(pages) => pages.take_back(),
        }
    }

    /// Takes the value out of its place.
    fn take(&mut self, place: usize) -> Option<T>
        ensures value { result ≡ slice_index_or (places_in self.old).cells place None }
        ensures after { (places_in self.new).cells ≡ slice_set (places_in self.old).cells place None }
        ensures kept { (places_in self.new).kept ≡ (places_in self.old).kept }
        ensures there { result ≢ None → slice_index_or (places_in self.old).kept place false ≡ true }
    {
        match self {
            Form::Array(array) => array.take(place),
            Form::Pages(pages) => pages.take(place),
        }
    }

    /// Puts a value to a place that is kept.
    fn put(&mut self, place: usize, value: T)
        requires kept { slice_index_or (places_in self.old).kept place false ≡ true }
        ensures put { (places_in self.new).cells ≡ slice_set (places_in self.old).cells place (Some value) }
        ensures kept { (places_in self.new).kept ≡ (places_in self.old).kept }
    {
        match self {
            Form::Array(array) => array.put(place, value),
            Form::Pages(pages) => pages.put(place, value),
        }
    }

    /// Lets a place go that is empty for good.
    fn let_go(&mut self, place: usize)
        requires empty { slice_index_or (places_in self.old).cells place None ≡ None }
        ensures same { (places_in self.new).cells ≡ (places_in self.old).cells }
        ensures kept { (places_in self.new).kept ≡ slice_set (places_in self.old).kept place false }
    {
        match self {
            Form::Array(array) => array.let_go(place),
            Form::Pages(pages) => pages.let_go(place),
        }
    }
}

/// Places, each empty or with a value, in an array or on pages.
#[derive(Drop)]
pub struct OpenPlaces<T: Drop> {
    form: Form<T>,
}

impl<T: Drop> Model for OpenPlaces<T> {
    ghost use Rattle.open_places.specs.Cells.{Places};
    ghost use Rattle.open_places.specs.Forms.{places_in};

    ghost Value = { Places T };

    ghost view = { λ p. places_in p.form };
}

impl<T: Drop> OpenPlaces<T> {
    /// None yet, in an array: each place given takes memory to the end. It takes no memory so far.
    pub fn in_array(alloc: Global) -> Self
        ensures cells { result.cells ≡ [] }
        ensures kept { result.kept ≡ [] }
    {
        OpenPlaces {
            form: Form::Array(Page::new(alloc)),
        }
    }

    /// None yet, on pages: places that are kept take memory, and their neighbours. It takes no memory so far.
    pub fn on_pages(alloc: Global) -> Self
        ensures cells { result.cells ≡ [] }
        ensures kept { result.kept ≡ [] }
    {
        OpenPlaces {
            form: Form::Pages(Paged::new(alloc)),
        }
    }

    /// Makes room for so many places more, if they stand in an array.
    pub fn reserve(&mut self, more: usize) -> Result<(), AllocError>
        ensures { self.new ≡ self.old }
    {
        match &mut self.form {
            Form::Array(array) => array.reserve(more),
            Form::Pages(_) => Ok(()),
        }
    }

    /// Whether a place that is let go can give memory back.
    pub fn give_back(&self) -> bool {
        matches!(self.form, Form::Pages(_))
    }

    /// How many were given.
    pub fn len(&self) -> usize
        ensures cells { result ≡ length self.now.cells }
        ensures kept { length self.now.kept ≡ length self.now.cells }
    {
        match &self.form {
            Form::Array(array) => array.len(),
            Form::Pages(pages) => pages.len(),
        }
    }

    /// Gives a place more, which is empty and kept. An `Err` changes nothing.
    pub fn give(&mut self) -> Result<(), AllocError>
        ensures given { OnOk result (self.new ≡ one_more self.old) }
        ensures kept { OnOk result (slice_index_or self.new.kept (length self.old.cells) false ≡ true) }
        ensures err { OnErr result (self.new ≡ self.old) }
    {
        self.form.give()
    }

    /// Takes the last place back, as if it hadn't been given.
    pub fn take_back(&mut self)
        ensures { (before : Places T) → self.old ≡ one_more before → self.new ≡ before }
    {
        self.form.take_back();
    }

    /// The value at a place.
    pub fn at(&self, place: usize) -> Option<&T>
        ensures { option_copied result ≡ slice_index_or self.now.cells place None }
    {
        match &self.form {
            Form::Array(array) => array.at(place),
            Form::Pages(pages) => pages.at(place),
        }
    }

    /// The first place from that number on that has a value. An array is looked at place by place. On pages it goes
    /// down the tree once for each page that it goes through, and pages of which each place was let go cost nothing.
    pub fn next_full(&self, first: usize) -> Option<usize>
        ensures { MatchOption result (AreEmptyFrom self.now.cells first) (IsNextFull self.now.cells first) }
    {
        match &self.form {
            Form::Array(array) => array.next_full(first),
            Form::Pages(pages) => pages.next_full(first),
        }
    }

    /// Takes the value out of its place, which stays kept.
    pub fn take(&mut self, place: usize) -> Option<T>
        ensures value { result ≡ slice_index_or self.old.cells place None }
        ensures after { self.new.cells ≡ slice_set self.old.cells place None }
        ensures kept { self.new.kept ≡ self.old.kept }
        ensures there { result ≢ None → slice_index_or self.old.kept place false ≡ true }
    {
        self.form.take(place)
    }

    /// Puts a value to a place that is kept. It takes no memory.
    pub fn put(&mut self, place: usize, value: T)
        requires kept { slice_index_or self.old.kept place false ≡ true }
        ensures put { self.new.cells ≡ slice_set self.old.cells place (Some value) }
        ensures kept { self.new.kept ≡ self.old.kept }
    {
        self.form.put(place, value);
    }

    /// Lets a place go that is empty for good.
    pub fn let_go(&mut self, place: usize)
        requires empty { slice_index_or self.old.cells place None ≡ None }
        ensures same { self.new.cells ≡ self.old.cells }
        ensures kept { self.new.kept ≡ slice_set self.old.kept place false }
    {
        self.form.let_go(place);
    }
}
