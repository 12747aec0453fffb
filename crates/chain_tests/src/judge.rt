//! Whether the changes of all passes explain what a lookup answered.

use chain_book::{Act, Change, PacketAnswer, PacketLook, PassEnd};
use sock_card::{Card, Packet, rank};
use std::alloc::{AllocError, Global};

/// A lookup in one bucket or in all, of cards from a rank on.
#[derive(Clone, Copy, Debug)]
pub struct Looked {
    pub packet: Packet,
    pub bucket: Option<u32>,
    pub least: u8,
    pub look: PacketLook,
}

/// The change takes out of the hash's slot what that put there, or what was put there later.
fn comes_after(hash: &Change, change: &Change) -> bool {
    change.act == Act::Unhash && change.slot == hash.slot && hash.end < change.begin
}

/// The first change that takes out what was hashed.
fn ending(book: &[Change], hash: &Change) -> Option<Change> {
    let mut first: Option<Change> = None;
    for change in book {
        if comes_after(hash, change) && first.is_none_or(|other| change.begin < other.begin) {
            first = Some(*change);
        }
    }
    first
}

impl Looked {
    fn meets(&self, change: &Change) -> bool {
        change.begin < self.look.t1 && self.look.t0 <= change.end
    }

    /// What was hashed is sought, at this rank or a better one, and was there from the lookup's begin to its end.
    fn had_throughout(&self, book: &[Change], hash: &Change, least: u8) -> bool {
        hash.act == Act::Hash
            && self.bucket.is_none_or(|bucket| bucket == hash.bucket)
            && least <= rank(&hash.card, &self.packet)
            && hash.end < self.look.t0
            && ending(book, hash).is_none_or(|unhash| self.look.t1 <= unhash.begin)
    }

    fn none_from(&self, book: &[Change], least: u8) -> bool {
        !book
            .iter()
            .any(|hash| self.had_throughout(book, hash, least))
    }

    /// The card was hashed, and stood there at some time of the lookup: in this bucket or in another, since a slot
    /// that is hashed elsewhere meanwhile leads a lookup there.
    fn stood(&self, book: &[Change], hash: &Change, card: &Card) -> bool {
        hash.act == Act::Hash
            && hash.card == *card
            && hash.begin < self.look.t1
            && ending(book, hash).is_none_or(|unhash| self.look.t0 <= unhash.end)
    }

    fn may_find(&self, book: &[Change], card: &Card) -> bool {
        let found = rank(card, &self.packet);
        self.least <= found
            && book.iter().any(|hash| self.stood(book, hash, card))
            && self.none_from(book, found.saturating_add(1))
    }

    fn may_end(&self, book: &[Change], slots: u32, bucket: u32, end: PassEnd) -> bool {
        let met_hash = |change: &Change| change.act == Act::Hash && self.meets(change);
        match end {
            PassEnd::Foreign(other) => {
                other != bucket
                    && book
                        .iter()
                        .any(|hash| met_hash(hash) && hash.bucket == other)
            }
            PassEnd::Dead(slot) | PassEnd::Changed(slot) => book
                .iter()
                .any(|change| change.slot == slot && self.meets(change)),
            PassEnd::Long(links) => links == slots.saturating_add(1) && book.iter().any(met_hash),
        }
    }

    /// The answer is one that these changes of so many slots let a lookup give.
    pub fn is_explained(&self, book: &[Change], slots: u32) -> bool {
        match self.look.end {
            PacketAnswer::Found(card) => self.may_find(book, &card),
            PacketAnswer::None => self.none_from(book, self.least),
            PacketAnswer::Again(bucket, end) => self.may_end(book, slots, bucket, end),
        }
    }
}

/// How many of the lookups are not explained.
pub fn unexplained(book: &[Change], slots: u32, looks: &[Looked]) -> usize {
    let mut count = 0usize;
    for looked in looks {
        if !looked.is_explained(book, slots) {
            count = count.saturating_add(1);
        }
    }
    count
}

/// What a thread did: its changes, and its lookups.
#[derive(Drop)]
pub struct Done {
    pub changes: Vec<Change>,
    pub looks: Vec<Looked>,
}

fn take_in(all: &mut Done, one: &Done) -> Result<(), AllocError> {
    for change in one.changes.as_slice() {
        all.changes.push(*change)?;
    }
    for looked in one.looks.as_slice() {
        all.looks.push(*looked)?;
    }
    Ok(())
}

/// What all threads did.
pub fn gather(alloc: Global, done: Vec<Result<Done, AllocError>>) -> Result<Done, AllocError> {
    let mut all = Done {
        changes: Vec::new(alloc),
        looks: Vec::new(alloc),
    };
    for one in done {
        take_in(&mut all, &one?)?;
    }
    Ok(all)
}
