//! The tables, whose sockets have numbers.

ghost use Rattle.std.specs.Prelude.{◌≡◌, ◌-◌, ◌<◌, ◌≤◌, ◌^◌, IfOk};
ghost use Rattle.flat_list.specs.Flat as flats;
ghost use Rattle.flat_calls.specs.Calls.{Called};
ghost use Rattle.flat_calls.specs.Items as told;
ghost use Rattle.flat_calls.specs.Sights.{Sees, Finds};

use crate::item::Item;
use crate::outcome::Outcome;
use crate::sight::{Sight, kind_of, number_of};
use flat_list::{Command, Flat, Header};
use sock_card::{Card, Packet};
use std::alloc::{AllocError, Global};
use std::marker::Model;

/// How many calls tables reply to.
pub const LAST_CALL: u64 = 0xFF_FFFF_FFFF_FFFE;

/// One list of sockets with numbers, and how many calls were replied to.
#[derive(Drop)]
pub struct Tables {
    flat: Flat,
    calls: u64,
}

impl Model for Tables {
    ghost use Rattle.flat_calls.specs.Calls.{Numbered, AreCounted};

    ghost Value = { Numbered };

    ghost view = { λ t. record { flat = t.flat; calls = t.calls } };

    ghost invariant = { λ t. AreCounted t.flat t.calls };
}

impl Tables {
    /// No sockets yet, and no memory taken.
    pub fn new(alloc: Global, header: &Header) -> Self
        ensures { result ≡ record { flat = flats.new_flat header.now; calls = 0 } }
    {
        Tables {
            flat: Flat::new(alloc, header),
            calls: 0,
        }
    }

    /// The number of the next socket: no socket had it before.
    pub fn next_number(&self) -> u64
        ensures { result ≡ self.now.calls }
    {
        self.calls
    }

    fn carry_out(&mut self, worker: u32, command: &Command) -> Outcome
        requires worker { (1 ≤ worker) × (worker ≤ 64) }
        requires left { self.old.calls < 2 ^ 56 - 2 }
        ensures { Called self.old self.new worker command.now result }
    {
        match self.flat.apply(worker, command) {
            Ok(reply) => {
                self.calls += 1;
                Outcome::Replied(reply)
            }
            Err(_) => Outcome::NoMemory,
        }
    }

    /// Carries out a command of the worker of that number, and returns what comes of it.
    ///
    /// It goes through the whole list, and a search for a port does so for each port that it tries.
    pub fn call(&mut self, worker: u32, command: &Command) -> Outcome
        ensures { Called self.old self.new worker command.now result }
    {
        if worker == 0 || worker > 64 {
            return Outcome::NoWorker;
        }
        if self.calls >= LAST_CALL {
            return Outcome::NoNumber;
        }
        self.carry_out(worker, command)
    }

    fn sight_of(&self, card: &Card) -> Sight
        ensures { Sees self.now card.now result }
    {
        Sight {
            kind: kind_of(card.kind),
            worker: (card.name >> 56) as u32,
            socket: number_of(self.flat.label_of(card.name)),
        }
    }

    /// Which socket takes a packet. It goes through the whole list, and takes no memory.
    pub fn look(&self, packet: &Packet) -> Option<Sight>
        ensures { Finds self.now packet.now result }
    {
        let card = self.flat.look(packet)?;
        Some(self.sight_of(&card))
    }

    fn item_of(&self, card: &Card) -> Item
        ensures { result ≡ told.item_of self.now card.now }
    {
        Item {
            kind: kind_of(card.kind),
            worker: (card.name >> 56) as u32,
            socket: number_of(self.flat.label_of(card.name)),
            addr: card.local,
            peer_addr: card.remote,
            port: card.lport,
            peer_port: card.rport,
            dev: card.dev,
            net: card.net,
        }
    }

    /// All sockets that lookups find, by their workers, and those of one in the order in which they were made.
    pub fn list(&self, alloc: Global) -> Result<Vec<Item>, AllocError>
        ensures { IfOk result (λ list. list.items ≡ told.items_of self.now) }
    {
        let cards = self.flat.list()?;
        cards.iter().map(|c| self.item_of(c)).collect(alloc)
    }
}
