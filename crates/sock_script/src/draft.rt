ghost use Rattle.std.specs.Prelude.{◌≡◌, ◌↔◌, ◌+◌, ◌<◌, ◌^◌, ◌++◌, ◌∷◌, [], IsTrue, true, is_some, length, map, IfOk, OnOk, OnErr};
ghost use Rattle.std.specs.Option.{option_to_list};
ghost use Rattle.sock_script.specs.declared.parse.Mode.{Mode as AnyMode};
ghost use Rattle.sock_script.specs.Grammar as law;
ghost use Rattle.sock_script.specs.Reading as spec;
ghost use Rattle.sock_script.specs.Steps.{Adds, is_new_among};

use crate::label::given_label;
use crate::line::Line;
use crate::parse::Mode;
use flat_list::kept::Form;
use flat_list::{CapturePlace, Header, KeptCommand, NONE_RESERVED, Range, Reserved, Script, Shape};
use label_index::{LabelIndex, LabelSeed};
use std::alloc::{AllocError, Global};
use std::marker::Model;
use std::mem;

/// Whether a script of that mode may ask for it.
fn is_allowed(mode: Mode, command: &KeptCommand) -> bool
    ensures { result ≡ law.is_allowed mode command.now }
{
    !(matches!(mode, Mode::Race)
        && matches!(command.form(), Form::Look { .. } | Form::Packets { .. }))
}

/// Puts the label that a command gives behind the others, and returns whether it is new: true where there is none.
fn note_label(labels: &mut LabelIndex, command: &KeptCommand) -> Result<bool, AllocError>
    ensures noted { OnOk result (labels.new ≡ labels.old ++ option_to_list (law.given_label command.now)) }
    ensures told { IfOk result (λ new. new ≡ is_new_among (law.given_label command.now) labels.old) }
    ensures err { OnErr result (labels.new ≡ labels.old) }
{
    match given_label(command) {
        None => Ok(true),
        Some(label) => labels.give_and_tell(&label),
    }
}

/// The section whose commands are being read.
#[derive(Drop)]
struct OpenSection {
    commands: Vec<KeptCommand>,
    /// The labels that the commands give, so that finding one again takes no scan.
    labels: LabelIndex,
}

impl Model for OpenSection {
    ghost use Rattle.std.specs.Prelude.{List};
    ghost use Rattle.flat_list.specs.declared.command.Command.{Command as AnyCommand};
    ghost use Rattle.sock_script.specs.Grammar.{given_labels};
    ghost use Rattle.std.specs.Prelude.{◌≡◌};

    ghost Value = { List AnyCommand };

    ghost view = { λ s. s.commands.items };

    ghost invariant = { λ s. s.labels ≡ given_labels s.commands.items };
}

impl OpenSection {
    /// No command yet, with room for so many.
    fn new(alloc: Global, seed: LabelSeed, room: usize) -> Result<Self, AllocError>
        ensures { IfOk result (λ section. section ≡ []) }
    {
        Ok(OpenSection {
            commands: Vec::with_capacity(alloc, room)?,
            labels: LabelIndex::new(alloc, seed),
        })
    }

    /// Adds a command, and says whether it may stand at the section's end; a section with one that may not is none of
    /// a script's. An `Err` changes nothing.
    fn add(&mut self, mode: Mode, command: KeptCommand) -> Result<bool, AllocError>
        ensures added { OnOk result (self.new ≡ self.old ++ command ∷ []) }
        ensures told { IfOk result (λ stands. stands ≡ spec.may_stand mode self.old command) }
        ensures err { OnErr result (self.new ≡ self.old) }
    {
        self.commands.reserve(1)?;
        let new = note_label(&mut self.labels, &command)?;
        let stands = is_allowed(mode, &command) && new;
        self.commands.push(command)?;
        Ok(stands)
    }

    fn into_commands(self) -> Vec<KeptCommand>
        ensures { result.items ≡ self }
    {
        self.commands
    }
}

/// The sections, where the last is still being read.
fn sections_of(
    finished: Vec<Vec<KeptCommand>>,
    last: Option<OpenSection>,
) -> Result<Vec<Vec<KeptCommand>>, AllocError>
    ensures { IfOk result (λ sections. map (λ v. v.items) sections.items ≡ map (λ v. v.items) finished.items
        ++ option_to_list last) }
{
    let mut sections = finished;
    if let Some(section) = last {
        sections.push(section.into_commands())?;
    }
    Ok(sections)
}

const DEFAULT_SHAPE: Shape = Shape {
    slots: 1024,
    bind: 16,
    hash: 256,
    listen: 32,
};

/// Which ports are searched where no line says it.
pub const DEFAULT_RANGE: Range = Range {
    low: 32768,
    high: 60999,
    reserved: NONE_RESERVED,
};

/// What the lines read so far have made.
#[derive(Drop)]
pub struct Draft {
    table: Option<Shape>,
    range: Option<Range>,
    reserved: Option<Reserved>,
    seed: Option<u32>,
    offset: Option<u16>,
    twreuse: Option<bool>,
    /// The sections before the last.
    finished: Vec<Vec<KeptCommand>>,
    /// The last section, once there is one.
    last: Option<OpenSection>,
    /// Where the capture begins, once it has.
    capture: Option<CapturePlace>,
    /// How many bytes the lines had, each with its line feed.
    bytes: usize,
    alloc: Global,
    /// For how many commands the first section has room from the start.
    room: usize,
    /// What the hashes of labels begin with.
    label_seed: LabelSeed,
}

impl Model for Draft {
    ghost use Rattle.std.specs.Prelude.{◌≡◌, ◌++◌, [], map, IfNone};
    ghost use Rattle.std.specs.Option.{option_to_list};
    ghost use Rattle.sock_script.specs.Reading.{Draft as Made};

    ghost Value = { Made };

    ghost view = { λ d. record {
      table = d.table;
      range = d.range;
      reserved = d.reserved;
      seed = d.seed;
      offset = d.offset;
      twreuse = d.twreuse;
      sections = map (λ v. v.items) d.finished.items ++ option_to_list d.last;
      capture = d.capture;
      bytes = d.bytes;
    } };

    ghost invariant = { λ d. IfNone d.last (d.finished.items ≡ []) };
}

impl Draft {
    /// Before the first line. Takes no memory; the first section takes room for so many commands as it begins.
    pub fn new(alloc: Global, label_seed: LabelSeed, room: usize) -> Self
        ensures { result ≡ spec.nothing_yet }
    {
        Draft {
            table: None,
            range: None,
            reserved: None,
            seed: None,
            offset: None,
            twreuse: None,
            finished: Vec::new(alloc),
            last: None,
            capture: None,
            bytes: 0,
            alloc,
            room,
            label_seed,
        }
    }

    /// Whether the capture has begun, so that no line follows.
    pub fn has_capture(&self) -> bool
        ensures { result ≡ is_some self.now.capture }
    {
        self.capture.is_some()
    }

    /// Goes past the bytes of one line more, and its line feed.
    pub fn pass(&mut self, line: &[u8])
        requires { self.old.bytes + length line.now + 1 < 2 ^ 64 }
        ensures { self.new ≡ spec.past self.old line.now }
    {
        self.bytes += line.len() + 1;
    }

    fn section_count(&self) -> usize
        ensures { result ≡ length self.now.sections }
    {
        match &self.last {
            None => self.finished.len(),
            Some(_) => self.finished.len() + 1,
        }
    }

    /// Whether a header line may come of whose kind one has said that, if any has.
    fn is_header_turn<T: Drop>(&self, said: Option<T>) -> bool
        ensures { IsTrue result ↔ spec.IsHeaderTurn said self.now }
    {
        said.is_none() && self.section_count() == 0
    }

    /// Adds a table line, where it may follow.
    fn add_table(&mut self, shape: Shape) -> bool
        ensures { (mode : AnyMode) → Adds mode self.old (Line.Table shape) self.new result }
    {
        let turn = self.is_header_turn(self.table);
        if turn {
            self.table = Some(shape);
        }
        turn
    }

    /// Adds a range line, where it may follow.
    fn add_range(&mut self, range: Range) -> bool
        ensures { (mode : AnyMode) → Adds mode self.old (Line.Range range) self.new result }
    {
        let turn = self.is_header_turn(self.range);
        if turn {
            self.range = Some(range);
        }
        turn
    }

    /// Adds a line of reserved ports, where it may follow.
    fn add_reserved(&mut self, reserved: Reserved) -> bool
        ensures { (mode : AnyMode) → Adds mode self.old (Line.Reserved reserved) self.new result }
    {
        let turn = self.is_header_turn(self.reserved);
        if turn {
            self.reserved = Some(reserved);
        }
        turn
    }

    /// Adds a seed line, where it may follow.
    fn add_seed(&mut self, seed: u32) -> bool
        ensures { (mode : AnyMode) → Adds mode self.old (Line.Seed seed) self.new result }
    {
        let turn = self.is_header_turn(self.seed);
        if turn {
            self.seed = Some(seed);
        }
        turn
    }

    /// Adds an offset line, where it may follow.
    fn add_offset(&mut self, offset: u16) -> bool
        ensures { (mode : AnyMode) → Adds mode self.old (Line.Offset offset) self.new result }
    {
        let turn = self.is_header_turn(self.offset);
        if turn {
            self.offset = Some(offset);
        }
        turn
    }

    /// Adds a line that says whether a TIME_WAIT may be replaced, where it may follow.
    fn add_twreuse(&mut self, reuse: bool) -> bool
        ensures { (mode : AnyMode) → Adds mode self.old (Line.TimeWaitReuse reuse) self.new result }
    {
        let turn = self.is_header_turn(self.twreuse);
        if turn {
            self.twreuse = Some(reuse);
        }
        turn
    }

    /// Begins a section, where its number is the next.
    fn begin_section(&mut self, number: u32) -> Result<bool, AllocError>
        ensures { IfOk result (λ follows. (mode : AnyMode)
            → Adds mode self.old (Line.Section number) self.new follows) }
    {
        if number as usize != self.section_count() + 1 {
            return Ok(false);
        }
        let room = mem::replace(&mut self.room, 0);
        let next = OpenSection::new(self.alloc, self.label_seed, room)?;
        if let Some(section) = mem::replace(&mut self.last, Some(next)) {
            self.finished.push(section.into_commands())?;
        }
        Ok(true)
    }

    /// Begins the capture, whose packets come from that device and that network namespace.
    fn begin_capture(&mut self, dev: Option<u16>, net: Option<u8>)
        ensures { (mode : AnyMode) → Adds mode self.old (Line.Capture dev net) self.new true }
    {
        self.capture = Some(CapturePlace {
            dev: dev.unwrap_or(0),
            net: net.unwrap_or(0),
            first: self.bytes,
        });
    }

    /// Adds a command to the last section, and says whether it may stand there. Where it may not, the lines are no
    /// script's, and the draft is of no more use.
    pub fn add_command(&mut self, mode: Mode, command: KeptCommand) -> Result<bool, AllocError>
        ensures { IfOk result (λ follows. Adds mode self.old (Line.Command command) self.new follows) }
    {
        let Some(section) = &mut self.last else {
            return Ok(false);
        };
        section.add(mode, command)
    }

    /// Adds a line, where it may follow, and says whether.
    pub fn add(&mut self, mode: Mode, line: Line) -> Result<bool, AllocError>
        ensures { IfOk result (λ follows. Adds mode self.old line self.new follows) }
    {
        match line {
            Line::PassedOver => Ok(true),
            Line::Table(shape) => Ok(self.add_table(shape)),
            Line::Range(range) => Ok(self.add_range(range)),
            Line::Reserved(reserved) => Ok(self.add_reserved(reserved)),
            Line::Seed(seed) => Ok(self.add_seed(seed)),
            Line::Offset(offset) => Ok(self.add_offset(offset)),
            Line::TimeWaitReuse(reuse) => Ok(self.add_twreuse(reuse)),
            Line::Section(number) => self.begin_section(number),
            Line::Capture { dev, net } => {
                self.begin_capture(dev, net);
                Ok(true)
            }
            Line::Command(command) => self.add_command(mode, command),
        }
    }

    /// Which ports are searched: those of the range but for the reserved ones.
    fn range(&self) -> Range
        ensures { result ≡ spec.range_of self.now }
    {
        Range {
            reserved: self.reserved.unwrap_or(NONE_RESERVED),
            ..self.range.unwrap_or(DEFAULT_RANGE)
        }
    }

    /// What the header lines have said, with the defaults for what none said.
    fn header(&self) -> Header
        ensures { result ≡ spec.header_of self.now }
    {
        Header {
            shape: self.table.unwrap_or(DEFAULT_SHAPE),
            range: self.range(),
            seed: self.seed.unwrap_or(0),
            offset: self.offset,
            twreuse: self.twreuse.unwrap_or(false),
        }
    }

    /// The script that the lines have made.
    pub fn into_script(self) -> Result<Script, AllocError>
        ensures { IfOk result (λ script. script ≡ spec.script_of self) }
    {
        let header = self.header();
        let capture = self.capture;
        let sections = sections_of(self.finished, self.last)?;
        Ok(Script::new(header, sections, capture))
    }
}
