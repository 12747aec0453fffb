//! A race as its text describes it.

use chain_book::Shape;
use sock_card::{Card, Kind, Packet};

/// From which number of the clock until which a change was under way.
#[derive(Clone, Copy, Debug, PartialEq, Eq)]
pub struct Span {
    pub begin: u64,
    pub end: u64,
}

/// The line of a life: where which card was hashed, from when until when that was done,
/// and the same of its unhash, if it has one.
///
/// The text of a card gives only its ends, device, namespace, kind and name: its `extra` is 0.
#[derive(Clone, Copy, Debug, PartialEq, Eq)]
pub struct PrintedLife {
    pub bucket: u64,
    pub slot: u64,
    pub card: Card,
    pub hash: Span,
    pub unhash: Option<Span>,
}

/// How the last pass of a lookup ended that was given up.
#[derive(Clone, Copy, Debug, PartialEq, Eq)]
pub enum PrintedEnd {
    /// At the end of this bucket's chain, into which the way had led.
    Foreign(u64),
    /// At a slot that was no longer live when it was taken.
    Dead(u64),
    /// At a slot whose card was another once it was taken.
    Changed(u64),
    /// After so many links.
    Long(u64),
}

/// What a lookup answered: a found card is given by its kind and name.
#[derive(Clone, Copy, Debug, PartialEq, Eq)]
pub enum PrintedAnswer {
    Found(Kind, u64),
    /// No socket.
    None,
    /// Given up in that bucket.
    Again(u64, PrintedEnd),
}

/// A packet that was looked up between two numbers of the clock.
#[derive(Clone, Copy, Debug, PartialEq, Eq)]
pub struct PrintedLook {
    pub packet: Packet,
    pub answer: PrintedAnswer,
    pub t0: u64,
    pub t1: u64,
}

/// The line of a packet: it was skipped or too short, or it was looked up.
#[derive(Clone, Copy, Debug, PartialEq, Eq)]
pub enum PrintedPacket {
    /// Skipped, or too short.
    Passed,
    Looked(PrintedLook),
}

/// What the text of a race contains: the shape of its tables and the seed of their hashes, its lives and packets line
/// by line, how many of the replies drew a number of the clock in vain, and the clock after all.
#[derive(Drop)]
pub struct Printed {
    pub shape: Shape,
    pub seed: u32,
    pub lives: Vec<PrintedLife>,
    pub packets: Vec<PrintedPacket>,
    pub vain: u64,
    pub clock: u64,
}

/// Which test a race fails, in the order of testing.
#[derive(Clone, Copy, Debug, PartialEq, Eq)]
pub enum Why {
    /// The numbers of a life don't ascend, one isn't below the clock, or an earlier life has one of them.
    Stamp,
    /// A life isn't in its card's home.
    Home,
    /// A change of a life meets one of an earlier life in its bucket.
    Overlap,
    /// A life and an earlier one in its slot: neither was on its way out before the other was in.
    Slot,
    /// A life and an earlier one are full cards of one four-tuple, each hashed before the other was on its way out.
    Twin,
    /// The lives don't explain what came of a packet.
    Receipt,
    /// The clock isn't what the changes and the numbers that were drawn in vain come to.
    Count,
}

/// What the judge finds.
#[derive(Clone, Copy, Debug, PartialEq, Eq)]
pub enum Finding {
    /// Each test is passed.
    Sound,
    /// The first test that isn't passed, and the place of the first line that fails it: among the lives, among the
    /// packets for `Receipt`, and 0 for `Count`.
    Wrong { why: Why, at: usize },
}
