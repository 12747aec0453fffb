//! What a lookup reports as it goes, and what it answers.

use sock_card::{Card, CardWords};
use sock_slots::Held;

/// A step of a lookup that is to come, by the slot that it is on.
#[derive(Clone, Copy)]
pub enum Point {
    /// The first load of the clock.
    Start,
    /// The load of the bucket's head, as a pass begins.
    Head,
    /// A load of one of the two card words that determine a rank.
    Key(u32),
    /// The taking of a count.
    Take(u32),
    /// A load of a card word under the count.
    Check(u32),
    /// The load of the link to the next slot.
    Link(u32),
    /// The giving back of a count.
    Put(u32),
    /// The last load of the clock.
    End,
}

/// Called before each step of a lookup.
pub trait Pace {
    /// The step `at` is the next one.
    fn step(&mut self, at: Point);
}

/// A pace that does nothing.
#[derive(Clone, Copy)]
pub struct Still;

impl Pace for Still {
    fn step(&mut self, _at: Point) {}
}

/// How a pass of a lookup ended without an answer.
#[derive(Clone, Copy)]
pub enum PassEnd {
    /// At the end of this bucket's chain, into which the way had led.
    Foreign(u64),
    /// At a slot that was no longer live when its count was taken.
    Dead(u32),
    /// At a slot whose card was another once its count was taken.
    Changed(u32),
    /// After so many links, more than there are slots.
    Long(u64),
}

/// The best slot that a pass of a lookup holds.
#[derive(Clone, Copy)]
pub struct Best {
    pub slot: u32,
    /// Its card, as it was loaded under the count.
    pub card: CardWords,
    /// How well the card matches the packet, from 1 to 5.
    pub rank: u8,
}

/// Where a turn of a pass leads.
#[derive(Clone, Copy)]
pub enum Turn {
    /// The pass is over: a card has the highest rank, 5.
    Found(Best),
    /// To this link, with the best slot so far.
    On(Option<Best>, u64),
}

/// What a lookup found, the card by its words.
pub enum WordsEnd {
    /// The best card, whose slot is held: the count must be put.
    Found(Held, CardWords),
    /// Nothing in the bucket matches.
    None,
    /// Each pass through this bucket ended without an answer, the last of them so.
    Again(u32, PassEnd),
}

/// A lookup's answer, the card by its words, and its first and last load of the clock.
pub struct WordsLook {
    pub end: WordsEnd,
    pub from: u64,
    pub to: u64,
}

/// What a lookup found.
pub enum LookEnd {
    /// The best card, whose slot is held: the count must be put.
    Found(Held, Card),
    /// Nothing in the bucket matches.
    None,
    /// Each pass through this bucket ended without an answer, the last of them so.
    Again(u32, PassEnd),
}

/// A lookup's answer, and its first and last load of the clock.
pub struct Look {
    pub end: LookEnd,
    pub t0: u64,
    pub t1: u64,
}
