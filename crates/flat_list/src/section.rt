ghost use Rattle.std.specs.Prelude.{◌∷◌, ◌≡◌, ◌≢◌, ◌+◌, ◌<◌, ◌≤◌, ◌^◌, length, [], find, position, IfOk, OnErr, OnOk, IfSome, bytes_eq, unwrap_or, slice_get};
ghost use Rattle.std.specs.Option.{option_copied, option_map};
ghost use Rattle.rand_pcg.specs.Pcg.{pcg32};
ghost use Rattle.flat_list.specs.declared.header.Header.{Header};
ghost use Rattle.flat_list.specs.Sections as spec;

use crate::command::Label;
use crate::header::Header;
use rand_core::utils::NextWord;
use rand_pcg::Lcg64Xsh32;
use std::alloc::{AllocError, Global};
use std::marker::Model;

/// What a section keeps: its labels in the order in which they were given, its moment in seconds, and
/// the generator of the offsets at which its searches begin.
#[derive(Drop)]
pub struct Section {
    number: u32,
    labels: Vec<Label>,
    moment: u32,
    generator: Lcg64Xsh32,
}

impl Model for Section {
    ghost use Rattle.std.specs.Prelude.{◌≤◌, ◌<◌, ◌^◌, length};
    ghost use Rattle.flat_list.specs.Sections.{Section as Kept};

    ghost Value = { Kept };

    ghost view = { λ s. record {
      number = s.number;
      labels = s.labels.items;
      moment = s.moment;
      generator = s.generator;
    } };

    ghost invariant = { λ s. (s.number ≤ 64) × (length s.labels.items < 2 ^ 56) };
}

/// Where a label stands among those given.
fn place_of(label: &Label, labels: &[Label]) -> Option<usize>
    ensures place { result ≡ position (λ l. bytes_eq l label.now) labels.now }
    ensures bound { IfSome result (λ place. place < length labels.now) }
{
    labels.iter().position(|l| l.is(label))
}

impl Section {
    /// A section at its start: it has given no label and drawn no word.
    pub fn new(alloc: Global, header: &Header, number: u32) -> Self
        requires { number ≤ 64 }
        ensures { result ≡ spec.new_section header.now number }
    {
        Section {
            number,
            labels: Vec::new(alloc),
            moment: 0,
            generator: Lcg64Xsh32::new(u64::from(header.seed), u64::from(number)),
        }
    }

    /// Whether this is the section of that number.
    pub fn has_number(&self, number: u32) -> bool
        ensures { result ≡ spec.has_number number self.now }
    {
        self.number == number
    }

    /// The name of the socket that a label stands for.
    pub fn name_of(&self, label: &Label) -> Option<u64>
        ensures { result ≡ option_map (spec.name_at self.now.number)
            (position (λ l. bytes_eq l label.now) self.now.labels) }
    {
        let place = place_of(label, &self.labels)?;
        Some(u64::from(self.number) * 0x100_0000_0000_0000 + place as u64 + 1)
    }

    /// The label of that number, from 1, or none.
    pub fn label_at(&self, number: u64) -> &[u8]
        ensures { result.now ≡ unwrap_or (slice_get ([] ∷ self.now.labels) number) [] }
    {
        if number == 0 {
            return &[];
        }
        match self.labels.get(number as usize - 1) {
            None => &[],
            Some(label) => label.as_bytes(),
        }
    }

    /// The name that the next label will stand for.
    pub fn next_name(&self) -> u64
        ensures { result ≡ spec.name_at self.now.number (length self.now.labels) }
    {
        u64::from(self.number) * 0x100_0000_0000_0000 + self.labels.len() as u64 + 1
    }

    /// The section's moment, in seconds.
    pub fn moment(&self) -> u32
        ensures { result ≡ self.now.moment }
    {
        self.moment
    }

    /// Sets the section's moment.
    pub fn set_moment(&mut self, moment: u32)
        ensures { self.new ≡ spec.at_moment moment self.old }
    {
        self.moment = moment;
    }

    /// The next word of the section's generator.
    pub fn next_word(&mut self) -> u32
        ensures word { result ≡ (pcg32 self.old.generator).0 }
        ensures next { self.new ≡ spec.past_word self.old }
    {
        self.generator.next_word()
    }

    /// Gives a label. An `Err` changes nothing.
    pub fn give(&mut self, label: Label) -> Result<(), AllocError>
        requires { length self.old.labels + 1 < 2 ^ 56 }
        ensures given { OnOk result (self.new ≡ spec.with_label label self.old) }
        ensures err { OnErr result (self.new ≡ self.old) }
    {
        self.labels.push(label)?;
        Ok(())
    }
}

/// Where the section of that number stands.
fn place_of_number(number: u32, sections: &[Section]) -> Option<usize>
    ensures { result ≡ position (spec.has_number number) sections.now }
{
    sections.iter().position(|s| s.has_number(number))
}

/// The section of that number, if it is kept.
pub fn section_of(number: u32, sections: &[Section]) -> Option<&Section>
    ensures { option_copied result ≡ find (spec.has_number number) sections.now }
{
    sections.iter().find(|s| s.has_number(number))
}

/// The name that a label stands for in the section of that number.
pub fn name_in(number: u32, sections: &[Section], label: &Label) -> Option<u64>
    ensures { result ≡ spec.name_in number sections.now label.now }
{
    match section_of(number, sections) {
        None => None,
        Some(section) => section.name_of(label),
    }
}

/// Gives a label in the section of that number, and returns its socket's name. An `Err` changes nothing.
pub fn give_label(
    alloc: Global,
    header: &Header,
    sections: &mut Vec<Section>,
    number: u32,
    label: Label,
) -> Result<u64, AllocError>
    requires number { number ≤ 64 }
    requires room { length (spec.labels_of number sections.old.items) + 1 < 2 ^ 56 }
    ensures given { IfOk result (λ name.
        spec.GivesLabel header.now number label sections.old.items sections.new.items name) }
    ensures err { OnErr result (sections.new.items ≡ sections.old.items) }
{
    match place_of_number(number, sections) {
        Some(place) => {
            let section = &mut sections[place];
            let name = section.next_name();
            section.give(label)?;
            Ok(name)
        }
        None => {
            let mut section = Section::new(alloc, header, number);
            let name = section.next_name();
            section.give(label)?;
            sections.push(section)?;
            Ok(name)
        }
    }
}

/// The moment of the section of that number.
pub fn moment_of(number: u32, sections: &[Section]) -> u32
    ensures { (header : Header) → result ≡ spec.moment_of header number sections.now }
{
    match section_of(number, sections) {
        None => 0,
        Some(section) => section.moment(),
    }
}

/// Sets the moment of the section of that number. An `Err` changes nothing.
pub fn set_moment(
    alloc: Global,
    header: &Header,
    sections: &mut Vec<Section>,
    number: u32,
    moment: u32,
) -> Result<(), AllocError>
    requires { number ≤ 64 }
    ensures set { OnOk result (sections.new.items ≡ spec.with_moment header.now number moment sections.old.items) }
    ensures err { OnErr result (sections.new.items ≡ sections.old.items) }
{
    match place_of_number(number, sections) {
        Some(place) => sections[place].set_moment(moment),
        None => {
            let mut section = Section::new(alloc, header, number);
            section.set_moment(moment);
            sections.push(section)?;
        }
    }
    Ok(())
}

/// The next word of the generator of the section of that number, which has given a label.
pub fn draw_word(sections: &mut [Section], number: u32) -> u32
    requires { spec.labels_of number sections.old ≢ [] }
    ensures word { (header : Header) → result ≡ spec.word_of header number sections.old }
    ensures next { (header : Header) → sections.new ≡ spec.with_drawn header number sections.old }
{
    match place_of_number(number, sections) {
        None => 0,
        Some(place) => sections[place].next_word(),
    }
}
