//! What a dump reports.

use sock_card::Card;
use std::marker::Model;

/// Two loads of the clock.
#[derive(Clone, Copy, Debug, PartialEq, Eq)]
pub struct Span {
    pub t0: u64,
    pub t1: u64,
}

/// What a dump reports: the cards of the sockets that it lists, ascending, and the loads of the clock between which it
/// did, where other threads might be at the tables meanwhile.
#[derive(Debug, Drop)]
pub struct Listing {
    pub cards: Vec<Card>,
    pub span: Option<Span>,
}

impl Model for Listing {
    ghost use Rattle.socket_list.specs.Listing.{Listing as Told};

    ghost Value = { Told };

    ghost view = { λ l. record { cards = l.cards.items; span = l.span } };
}
