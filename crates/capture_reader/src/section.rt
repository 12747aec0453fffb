ghost use Rattle.std.specs.Prelude.{◌≡◌, ◌++◌, [], ◌∷◌, slice_get, OnOk};
ghost use Rattle.capture_reader.specs.Sections.{BlockSection as State, begun};

use crate::header::Link;
use crate::number::Order;
use std::alloc::{AllocError, Global};
use std::marker::Model;

/// A section of a pcapng capture, as far as its blocks were read.
#[derive(Debug, Drop)]
pub struct Section {
    order: Order,
    links: Vec<Option<Link>>,
}

impl Model for Section {
    ghost use Rattle.capture_reader.specs.Sections.{BlockSection as State};

    ghost Value = { State };

    ghost view = { λ s. record { order = s.order; links = s.links.items } };
}

impl Section {
    /// A section without interfaces. Takes no memory.
    pub fn new(alloc: Global, order: Order) -> Self
        ensures { result ≡ begun order }
    {
        Section {
            order,
            links: Vec::new(alloc),
        }
    }

    /// The order of the bytes of its numbers.
    pub fn order(&self) -> Order
        ensures { result ≡ self.now.order }
    {
        self.order
    }

    /// The link type of an interface, by its number from 0: None of those whose packets aren't read.
    pub fn link(&self, interface: u32) -> Option<Option<Link>>
        ensures { result ≡ slice_get self.now.links interface }
    {
        self.links.get(interface as usize).copied()
    }

    /// Another section begins. Takes no memory.
    pub fn begin(&mut self, order: Order)
        ensures { self.new ≡ begun order }
    {
        self.order = order;
        self.links.clear();
    }

    /// The section has one more interface.
    pub fn add(&mut self, link: Option<Link>) -> Result<(), AllocError>
        ensures order { self.new.order ≡ self.old.order }
        ensures links { OnOk result (self.new.links ≡ self.old.links ++ link ∷ []) }
    {
        self.links.push(link)?;
        Ok(())
    }
}
