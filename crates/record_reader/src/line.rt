//! The lines of a record.

use book_audit::{PrintedEnd, Span};
use chain_book::Shape;
use sock_card::{Card, Kind, Packet};

/// The name of a socket: its section, and its label as numbers.
///
/// A label has 1 to 16 bytes. They are in a field of 16, with zeros behind them, of which `high` is the first half as
/// a number and `low` the other one, the first byte highest.
#[derive(Clone, Copy, Debug, PartialEq, Eq, PartialOrd, Ord)]
pub struct Name {
    pub section: u32,
    pub high: u64,
    pub low: u64,
    /// How many bytes the label has.
    pub length: usize,
}

/// What a lookup answered: a found card is given by its kind and name.
#[derive(Clone, Copy, Debug, PartialEq, Eq)]
pub enum Answer {
    Found(Kind, Name),
    /// No socket.
    None,
    /// Given up in that bucket.
    Again(u64, PrintedEnd),
}

/// A packet that was looked up between two numbers of the clock.
#[derive(Clone, Copy, Debug, PartialEq, Eq)]
pub struct LookLine {
    pub answer: Answer,
    pub t0: u64,
    pub t1: u64,
    pub packet: Packet,
}

/// What came of a packet: it was of another protocol, too short, or looked up.
#[derive(Clone, Copy, Debug, PartialEq, Eq)]
pub enum ItemLine {
    /// Of another protocol.
    Skip,
    /// Of too few bytes.
    Short,
    Looked(LookLine),
}

/// Where which card was hashed, from when until when that was done, and the same of its unhash, if it has one.
///
/// The card's own `name` and `extra` are 0: its name is apart.
#[derive(Clone, Copy, Debug, PartialEq, Eq)]
pub struct LifeLine {
    pub bucket: u64,
    pub slot: u64,
    pub name: Name,
    pub card: Card,
    pub hash: Span,
    pub unhash: Option<Span>,
}

/// A line of a record.
#[derive(Clone, Copy, Debug, PartialEq, Eq)]
pub enum Line {
    /// How many lookers there were, and how many passes each lookup had.
    Race { lookers: u64, passes: u64 },
    /// How large the tables were, and the seed of their hashes.
    Shape { shape: Shape, seed: u32 },
    /// What came of a command: whether it drew a number of the clock for a slot in vain. No more of it is kept.
    Reply { vain: bool },
    /// How many entries the journal of that bind bucket has.
    Journal { bucket: u64, count: u64 },
    /// Where and when a card was hashed, and when it was unhashed.
    Life(LifeLine),
    /// What came of the packet of that number, from 1.
    Packet { number: u64, item: ItemLine },
    /// The capture ended in the middle of a record.
    Cut,
    /// What the clock came to.
    Clock(u64),
}
