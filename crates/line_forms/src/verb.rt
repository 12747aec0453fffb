//! The first words of lines, and what stands behind each.
ghost use Rattle.std.specs.Prelude.{◌≡◌, ◌≢◌, IfSome, IfNone};
ghost use Rattle.line_forms.specs.Kinds as spec;
ghost use Rattle.line_forms.specs.Kinds.{verb_text};

use crate::kind::{Keyword, Kind};

/// A part of what stands behind a line's first word.
#[derive(Clone, Copy)]
pub enum Part {
    /// A word of that kind.
    Must(Kind),
    /// That word and one of that kind behind it, or neither.
    May(Keyword, Kind),
    /// That word, or none.
    Flag(Keyword),
}

/// The first word of a line.
#[derive(Clone, Copy)]
pub enum Verb {
    Table,
    Range,
    Reserved,
    Seed,
    Offset,
    TimeWaitReuse,
    Script,
    Capture,
    Socket,
    Bind,
    Listen,
    Connect,
    Accept,
    Syn,
    Ack,
    Close,
    Drop,
    At,
    Reap,
    Look,
    Packets,
    Dump,
}

const PORT: Kind = Kind::Number {
    least: 1,
    most: 65535,
};

const NAMESPACE: Kind = Kind::Number { least: 0, most: 15 };

const ANY_NUMBER: Kind = Kind::Number {
    least: 0,
    most: u32::MAX,
};

const NEWCOMER: &[Part] = &[
    Part::Must(Kind::Label),
    Part::Must(Kind::Label),
    Part::Must(Kind::Word(Keyword::From)),
    Part::Must(Kind::End),
    Part::Must(Kind::Word(Keyword::At)),
    Part::Must(Kind::End),
];

const SOCKET: &[Part] = &[
    Part::Must(Kind::Label),
    Part::May(Keyword::Net, NAMESPACE),
    Part::May(Keyword::Uid, ANY_NUMBER),
    Part::May(Keyword::Dev, PORT),
    Part::Flag(Keyword::ReuseAddr),
    Part::Flag(Keyword::ReusePort),
    Part::Flag(Keyword::NoPort),
];

const TABLE: &[Part] = &[
    Part::Must(Kind::Word(Keyword::Slots)),
    Part::Must(Kind::Number {
        least: 1,
        most: 65536,
    }),
    Part::Must(Kind::Word(Keyword::Bind)),
    Part::Must(Kind::Power { most: 256 }),
    Part::Must(Kind::Word(Keyword::Hash)),
    Part::Must(Kind::Power { most: 65536 }),
    Part::Must(Kind::Word(Keyword::Listen)),
    Part::Must(Kind::Power { most: 4096 }),
];

const LOOK: &[Part] = &[
    Part::Must(Kind::End),
    Part::Must(Kind::End),
    Part::May(Keyword::Dev, PORT),
    Part::May(Keyword::Net, NAMESPACE),
];

const CONNECT: &[Part] = &[
    Part::Must(Kind::Label),
    Part::May(Keyword::From, Kind::Address),
    Part::Must(Kind::Word(Keyword::To)),
    Part::Must(Kind::End),
];

const LABEL: &[Part] = &[Part::Must(Kind::Label)];

impl Verb {
    /// How it is spelled.
    pub fn text(self) -> &'static [u8]
        ensures { result.now ≡ verb_text self }
    {
        match self {
            Verb::Table => b"table",
            Verb::Range => b"range",
            Verb::Reserved => b"reserved",
            Verb::Seed => b"seed",
            Verb::Offset => b"offset",
            Verb::TimeWaitReuse => b"twreuse",
            Verb::Script => b"script",
            Verb::Capture => b"capture",
            Verb::Socket => b"socket",
            Verb::Bind => b"bind",
            Verb::Listen => b"listen",
            Verb::Connect => b"connect",
            Verb::Accept => b"accept",
            Verb::Syn => b"syn",
            Verb::Ack => b"ack",
            Verb::Close => b"close",
            Verb::Drop => b"drop",
            Verb::At => b"at",
            Verb::Reap => b"reap",
            Verb::Look => b"look",
            Verb::Packets => b"packets",
            Verb::Dump => b"dump",
        }
    }

    /// What stands behind it.
    pub fn parts(self) -> &'static [Part]
        ensures { result.now ≡ spec.parts_of self }
    {
        match self {
            Verb::Table => TABLE,
            Verb::Range => &[Part::Must(PORT), Part::Must(PORT)],
            Verb::Reserved | Verb::Reap | Verb::Dump => &[],
            Verb::Seed | Verb::At => &[Part::Must(ANY_NUMBER)],
            Verb::Offset => &[Part::Must(Kind::Number {
                least: 0,
                most: 65535,
            })],
            Verb::TimeWaitReuse => &[Part::Must(Kind::Number { least: 0, most: 1 })],
            Verb::Script => &[Part::Must(Kind::Number { least: 1, most: 64 })],
            Verb::Capture => &[
                Part::May(Keyword::Dev, PORT),
                Part::May(Keyword::Net, NAMESPACE),
            ],
            Verb::Socket => SOCKET,
            Verb::Bind => &[Part::Must(Kind::Label), Part::Must(Kind::End)],
            Verb::Listen | Verb::Close | Verb::Drop => LABEL,
            Verb::Connect => CONNECT,
            Verb::Accept | Verb::Syn => NEWCOMER,
            Verb::Ack => &[Part::Must(Kind::Label), Part::Must(Kind::Label)],
            Verb::Look => LOOK,
            Verb::Packets => &[Part::Must(Kind::Number {
                least: 0,
                most: 1_000_000,
            })],
        }
    }
}

/// All verbs.
pub const VERBS: [Verb; 22] = [
    Verb::Table,
    Verb::Range,
    Verb::Reserved,
    Verb::Seed,
    Verb::Offset,
    Verb::TimeWaitReuse,
    Verb::Script,
    Verb::Capture,
    Verb::Socket,
    Verb::Bind,
    Verb::Listen,
    Verb::Connect,
    Verb::Accept,
    Verb::Syn,
    Verb::Ack,
    Verb::Close,
    Verb::Drop,
    Verb::At,
    Verb::Reap,
    Verb::Look,
    Verb::Packets,
    Verb::Dump,
];

/// The verb that a word is.
pub fn verb_of(word: &[u8]) -> Option<Verb>
    ensures some { IfSome result (λ verb. word.now ≡ verb_text verb) }
    ensures none { IfNone result ((verb : Verb) → word.now ≢ verb_text verb) }
{
    for verb in VERBS.iter() {
        if word == verb.text() {
            return Some(*verb);
        }
    }
    None
}
