//! The kinds of words that stand behind a line's first.
ghost use Rattle.std.specs.Prelude.{◌≡◌, ◌↔◌, IsTrue};
ghost use Rattle.line_forms.specs.Kinds as spec;
ghost use Rattle.line_forms.specs.Kinds.{IsOf};

use inet_io::{get_addr, get_end, get_num, is_label};

/// A word that stands behind the first and is always spelled so.
#[derive(Clone, Copy)]
pub enum Keyword {
    Slots,
    Bind,
    Hash,
    Listen,
    From,
    To,
    At,
    Net,
    Uid,
    Dev,
    ReuseAddr,
    ReusePort,
    NoPort,
}

impl Keyword {
    /// How it is spelled.
    pub fn text(self) -> &'static [u8]
        ensures { result.now ≡ spec.keyword_text self }
    {
        match self {
            Keyword::Slots => b"slots",
            Keyword::Bind => b"bind",
            Keyword::Hash => b"hash",
            Keyword::Listen => b"listen",
            Keyword::From => b"from",
            Keyword::To => b"to",
            Keyword::At => b"at",
            Keyword::Net => b"net",
            Keyword::Uid => b"uid",
            Keyword::Dev => b"dev",
            Keyword::ReuseAddr => b"reuseaddr",
            Keyword::ReusePort => b"reuseport",
            Keyword::NoPort => b"noport",
        }
    }
}

/// What a word has to be.
#[derive(Clone, Copy)]
pub enum Kind {
    /// 1 to 16 letters, digits, `_` and `-`.
    Label,
    /// A number in that range.
    Number { least: u32, most: u32 },
    /// A power of two, from 1 to that.
    Power { most: u32 },
    /// An address, a colon and a port.
    End,
    /// Four numbers to 255 with dots between them.
    Address,
    /// That word.
    Word(Keyword),
}

/// Whether it is a number in that range.
fn is_number(least: u32, most: u32, word: &[u8]) -> bool
    ensures { IsTrue result ↔ IsOf (Kind.Number least most) word.now }
{
    get_num(word, u64::from(least), u64::from(most)).is_some()
}

/// Whether it is a power of two to that.
fn is_power(most: u32, word: &[u8]) -> bool
    ensures { IsTrue result ↔ IsOf (Kind.Power most) word.now }
{
    match get_num(word, 1, u64::from(most)) {
        Some(n) => n.is_power_of_two(),
        None => false,
    }
}

impl Kind {
    /// Whether the word is of the kind.
    pub fn has(self, word: &[u8]) -> bool
        ensures { IsTrue result ↔ IsOf self word.now }
    {
        match self {
            Kind::Label => is_label(word),
            Kind::Number { least, most } => is_number(least, most, word),
            Kind::Power { most } => is_power(most, word),
            Kind::End => get_end(word, 0).is_some(),
            Kind::Address => get_addr(word).is_some(),
            Kind::Word(keyword) => word == keyword.text(),
        }
    }
}
