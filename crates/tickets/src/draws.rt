//! The steps that passes make.

ghost use Rattle.std.specs.Prelude.{◌≡◌, ◌<◌, ◌≤◌, ◌++◌, length, IfOk, IfSome, MatchOption};
ghost use Rattle.list_words.specs.Lists.{SameItems};
ghost use Rattle.turn_table.specs.Journals.{numbers_below};
ghost use Rattle.tickets.specs.Views.{all_parts, first, newcomer, cut, joined};
ghost use Rattle.tickets.specs.Draws.{Drew, Missed};
ghost use Rattle.tickets.specs.Passes as words;
ghost use Rattle.tickets.specs.Passes.{IsPassOf, IsOpen, HasMissed, known};

use crate::pass::{TicketPass, Tickets};
use crate::rule::{Both, Cut, Draw, See};
use atomic_table::Table;
use std::alloc::{AllocError, Global};

impl Tickets {
    /// The numbers below `n`, and the pass that draws them. It takes 8 bytes; no other call takes memory.
    ///
    /// # Errors
    ///
    /// Memory ran out.
    pub fn new(alloc: Global, n: u32) -> Result<(Tickets, TicketPass), AllocError>
        ensures tickets { IfOk result (λ t. words.tickets t.0 ≡ n) }
        ensures pass { IfOk result (λ t. IsPassOf t.0 t.1 × (known t.1 ≡ first n)) }
    {
        let (table, seat) = Table::of_words(alloc, &[0], &n)?;
        Ok((Tickets { table, limit: n }, TicketPass { seat }))
    }

    /// How many tickets there are: each is below it.
    pub fn limit(&self) -> u32
        ensures { result ≡ words.tickets self.now }
    {
        self.limit
    }

    /// Draws the next number: Some where it is below the limit, and None exactly where it isn't. It is
    /// one atomic step, which takes no memory and waits for nothing.
    ///
    /// No two passes draw the same number, and what a pass draws is above all that it drew before. A pass
    /// that has met None, or has joined one that has, draws no more.
    pub fn next(&self, pass: &mut TicketPass) -> Option<u32>
        requires table { IsPassOf self.now pass.old }
        requires still { IsOpen pass.old }
        ensures table { IsPassOf self.now pass.new }
        ensures below { IfSome result (λ x. x < words.tickets self.now) }
        ensures draw { MatchOption result (Missed (known pass.old) (known pass.new))
            (λ x. Drew (known pass.old) (known pass.new) x) }

        // It may draw again as long as it doesn't meet None.
        ensures still { IfSome result (λ x. IsOpen pass.new) }

        // To a pass with all parts they come one after the other.
        ensures alone { words.parts pass.old ≡ all_parts
            → MatchOption result (length (words.drawn pass.old) ≡ words.limit pass.old)
            (λ x. x ≡ length (words.drawn pass.old)) }
    {
        let number = self.table.shared.fetch_add::<Draw>(&mut pass.seat, 0, 1);
        if number < u64::from(self.limit) {
            Some(number as u32)
        } else {
            None
        }
    }

    /// How many draws were made, those in vain too. It loads one word, takes no memory and waits for
    /// nothing.
    pub fn count(&self, pass: &mut TicketPass) -> u64
        requires table { IsPassOf self.now pass.old }
        ensures table { IsPassOf self.now pass.new }
        ensures view { known pass.new ≡ known pass.old }
        ensures later { words.seen pass.old ≤ result }
        ensures past { HasMissed pass.old → words.tickets self.now ≤ result }

        // A pass with all parts has, with those that it joined, drawn each number below the count, once.
        ensures all { words.parts pass.old ≡ all_parts
            → SameItems (words.drawn pass.old ++ words.vain pass.old) (numbers_below result) }

        // So once one of them met None, each number below the limit was drawn, once, and no other is a ticket.
        ensures once { words.parts pass.old ≡ all_parts → HasMissed pass.old
            → SameItems (words.drawn pass.old) (numbers_below (words.tickets self.now)) }
    {
        self.table.shared.load::<See>(&mut pass.seat, 0)
    }
}

impl TicketPass {
    /// Splits off a pass for another thread, which has drawn nothing. It loads one word, takes no memory
    /// and waits for nothing.
    ///
    /// One that is split off has one part, and so isn't split itself. The first pass has 16,384, and can
    /// split off 16,383 others.
    pub fn split(&mut self, tickets: &Tickets) -> TicketPass
        requires table { IsPassOf tickets.now self.old }
        requires more { 1 < words.parts self.old }
        ensures table { IsPassOf tickets.now self.new × IsPassOf tickets.now result }
        ensures old { known self.new ≡ cut (known self.old) }
        ensures new { known result ≡ newcomer (words.limit self.old) (words.seen self.old) }
    {
        TicketPass {
            seat: tickets.table.shared.split_seat::<Cut>(&mut self.seat),
        }
    }

    /// Joins another pass: this one then has the numbers that either drew. It loads one word, takes no
    /// memory and waits for nothing.
    pub fn join(&mut self, tickets: &Tickets, other: TicketPass)
        requires table { IsPassOf tickets.now self.old × IsPassOf tickets.now other }
        ensures table { IsPassOf tickets.now self.new }
        ensures view { known self.new ≡ joined (known self.old) (known other) }
    {
        let TicketPass { seat } = other;
        tickets.table.shared.join_seat::<Both>(&mut self.seat, seat);
    }
}
