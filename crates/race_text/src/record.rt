//! What is written of a race.

use chain_book::{Change, Shape};
use flat_list::Reply;
use race_record::Looked;
use socket_list::Listing;
use std::marker::Model;

/// What is written of a race, beside its script's commands.
#[derive(Debug, Drop)]
pub struct Record {
    pub lookers: u32,
    pub passes: u32,
    pub shape: Shape,
    /// The seed of the hashes.
    pub seed: u32,
    /// The replies of all sections, one section after the other.
    pub replies: Vec<Reply>,
    /// What they listed.
    pub listings: Vec<Listing>,
    /// How many entries the journal of each bind bucket has.
    pub journals: Vec<u64>,
    /// All changes of chains.
    pub book: Vec<Change>,
    /// What came of each item of the capture.
    pub looked: Vec<Looked>,
    /// Whether the capture ends in the middle of a record.
    pub cut: bool,
    pub clock: u64,
}

impl Model for Record {
    ghost use Rattle.race_text.specs.Render.{Told};

    ghost Value = { Told };

    ghost view = { λ r. record {
      lookers = r.lookers;
      passes = r.passes;
      shape = r.shape;
      seed = r.seed;
      replies = r.replies.items;
      listings = r.listings.items;
      journals = r.journals.items;
      book = r.book.items;
      looked = r.looked.items;
      cut = r.cut;
      clock = r.clock;
    } };
}
