//! Where the searches of a section begin.

ghost use Rattle.std.specs.Prelude.{◌≡◌, ◌≤◌, ◌%◌, true, length};
ghost use Rattle.flat_list.specs.Ports.{size};
ghost use Rattle.table_model.specs.Own as spec;
ghost use Rattle.section_machine.specs.Searches.{after_search};

use flat_list::{First, Header, Range, ports};
use port_search::Ports;
use rand_core::utils::NextWord;
use rand_pcg::Lcg64Xsh32;
use std::marker::Model;

/// Where each search of a section begins: at the offset that the header names, or else at the next
/// word of the section's generator.
///
/// Its range has an even number of ports.
#[derive(Drop)]
pub struct Offsets {
    range: Range,
    offset: Option<u16>,
    generator: Lcg64Xsh32,
}

impl Model for Offsets {
    ghost use Rattle.std.specs.Prelude.{◌≡◌, ◌≤◌, ◌%◌};
    ghost use Rattle.flat_list.specs.Ports as order;
    ghost use Rattle.table_model.specs.Own.{Offsets as Kept};

    ghost Value = { Kept };

    ghost view = { λ o. record { range = o.range; offset = o.offset; generator = o.generator } };

    ghost invariant = { λ o. (o.range.low ≤ o.range.high) × (order.size o.range % 2 ≡ 0) };
}

impl Offsets {
    /// The offsets of the section of that number, of which no search has begun. It takes no memory.
    pub fn new(header: &Header, script: u32) -> Self
        requires range { header.now.range.low ≤ header.now.range.high }
        requires even { size header.now.range % 2 ≡ 0 }
        ensures { result ≡ spec.new_offsets header.now script }
    {
        Offsets {
            range: header.range,
            offset: header.offset,
            generator: Lcg64Xsh32::new(u64::from(header.seed), u64::from(script)),
        }
    }

    /// The range of ports that searches go through.
    pub fn range(&self) -> Range
        ensures { result ≡ self.now.range }
    {
        self.range
    }

    /// Where a search begins that begins now; without an offset in the header a word is drawn for it.
    pub fn draw(&mut self) -> u16
        ensures offset { result ≡ spec.offset_of self.old }
        ensures after { self.new ≡ spec.past_offset self.old }
    {
        let size = ports::size(&self.range);
        match self.offset {
            Some(offset) => (u32::from(offset) % size) as u16,
            None => (self.generator.next_word() % size) as u16,
        }
    }

    /// The ports of the range in the order of a search, which begins now if one does; only then is the order stated.
    pub fn ports(&mut self, begins: bool, first: First) -> Ports
        ensures ports { begins ≡ true → result ≡ spec.ports_of self.old first }
        ensures few { length result ≤ 65536 }
        ensures after { self.new ≡ after_search begins self.old }
    {
        let offset = if begins { self.draw() } else { 0 };
        let range = self.range;
        let _size = ports::size(&range);
        Ports::new(range, offset, first)
    }
}
