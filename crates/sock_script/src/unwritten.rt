//! What isn't written yet of a run.

ghost use Rattle.std.specs.Prelude.{◌≡◌, ◌+◌, ◌<◌, ◌^◌, length, [], MatchOption};
ghost use Rattle.sock_script.specs.Steps.{NextListingOf, NextOf, TakenOf};

use crate::shown::Shown;
use capture_reader::Item;
use socket_list::Listing;
use std::marker::Model;

/// The number of the capture's next item, the items that are left, and the replies to what follows and what it lists.
#[derive(Drop)]
pub struct Unwritten<'a> {
    number: u64,
    items: &'a [Item],
    replies: &'a [Shown],
    listings: &'a [Listing],
}

impl<'a> Model for Unwritten<'a> {
    ghost use Rattle.sock_script.specs.Steps.{Unwritten as Left};

    ghost Value = { Left };

    ghost view = { λ u. record {
      number = u.number;
      items = u.items.now;
      replies = u.replies.now;
      listings = u.listings.now;
    } };
}

impl<'a> Unwritten<'a> {
    /// Before the first line.
    pub fn new(items: &'a [Item], replies: &'a [Shown], listings: &'a [Listing]) -> Self
        ensures { result ≡ record { number = 1; items = items.now; replies = replies.now; listings = listings.now } }
    {
        Unwritten {
            number: 1,
            items,
            replies,
            listings,
        }
    }

    /// The number of the next item.
    pub fn number(&self) -> u64
        ensures { result ≡ self.now.number }
    {
        self.number
    }

    /// How many items are left.
    pub fn item_count(&self) -> usize
        ensures { result ≡ length self.now.items }
    {
        self.items.len()
    }

    /// The next reply, and what is left after it.
    pub fn next(&self) -> Option<(&'a Shown, Self)>
        ensures { MatchOption result (self.now.replies ≡ []) (λ r. NextOf self.now r.0.now r.1) }
    {
        let (reply, replies) = self.replies.split_first()?;
        let left = Unwritten {
            number: self.number,
            items: self.items,
            replies,
            listings: self.listings,
        };
        Some((reply, left))
    }

    /// The next listing, and what is left after it.
    pub fn next_listing(&self) -> Option<(&'a Listing, Self)>
        ensures { MatchOption result (self.now.listings ≡ []) (λ r. NextListingOf self.now r.0.now r.1) }
    {
        let (listing, listings) = self.listings.split_first()?;
        let left = Unwritten {
            number: self.number,
            items: self.items,
            replies: self.replies,
            listings,
        };
        Some((listing, left))
    }

    /// The replies to the next items, as many as that or as are left, and what is left after them.
    pub fn take(&self, count: usize) -> (&'a [Shown], Self)
        requires { self.now.number + length self.now.items < 2 ^ 63 }
        ensures { TakenOf self.now count result.0.now result.1 }
    {
        let taken = count.min(self.items.len());
        let (replies, rest) = self.replies.split_at(taken.min(self.replies.len()));
        let left = Unwritten {
            number: self.number + taken as u64,
            items: &self.items[taken..],
            replies: rest,
            listings: self.listings,
        };
        (replies, left)
    }
}
