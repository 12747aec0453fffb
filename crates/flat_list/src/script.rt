ghost use Rattle.std.specs.Prelude.{◌≡◌, map};

use crate::header::Header;
use crate::kept::KeptCommand;
use std::marker::Model;

/// Where a script has its capture: the device and the network namespace that all its packets come in by, 0 where none
/// is named, and the place of its first byte in the text. A place past the text's end is that of a capture without
/// bytes.
#[derive(Clone, Copy, Debug, PartialEq, Eq)]
pub struct CapturePlace {
    pub dev: u16,
    pub net: u8,
    pub first: usize,
}

/// A whole script: what it says of the tables, the commands of each section, from section 1 on, and where its capture
/// begins, if it has one.
#[derive(Debug, Drop)]
pub struct Script {
    header: Header,
    sections: Vec<Vec<KeptCommand>>,
    capture: Option<CapturePlace>,
}

impl Model for Script {
    ghost use Rattle.std.specs.Prelude.{map};
    ghost use Rattle.flat_list.specs.Script.{Script as Text};

    ghost Value = { Text };

    ghost view = { λ s. record {
      header = s.header;
      sections = map (λ v. v.items) s.sections.items;
      capture = s.capture;
    } };
}

impl Script {
    /// The script of these sections, with a capture there.
    pub fn new(
        header: Header,
        sections: Vec<Vec<KeptCommand>>,
        capture: Option<CapturePlace>,
    ) -> Self
        ensures { result ≡ record { header = header; sections = map (λ v. v.items) sections.items; capture = capture } }
    {
        Script {
            header,
            sections,
            capture,
        }
    }

    /// What is said before the first section, with the defaults for what isn't.
    pub fn header(&self) -> &Header
        ensures { result.now ≡ self.now.header }
    {
        &self.header
    }

    /// The sections' commands, those of section 1 first.
    pub fn sections(&self) -> &[Vec<KeptCommand>]
        ensures { map (λ v. v.items) result.now ≡ self.now.sections }
    {
        &self.sections
    }

    /// Where its capture begins, if it has one.
    pub fn capture(&self) -> Option<CapturePlace>
        ensures { result ≡ self.now.capture }
    {
        self.capture
    }
}
