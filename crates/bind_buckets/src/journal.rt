//! A bucket's journal, of which the program keeps the count alone.

ghost use Rattle.std.specs.Prelude.{◌≡◌, ◌+◌, ◌-◌, ◌≤◌, ◌^◌, ◌∷◌, [], ◌++◌, length, OnOk};

use crate::request::Entry;
use std::alloc::AllocError;
use std::marker::Model;
use std::mem;
use std::snapshot::Snapshot;
use turn_table::Note;

/// The notes so far. It exists in proofs alone.
#[derive(Drop)]
pub enum Log {
    Empty,
    After {
        note: Note<Entry>,
        before: Snapshot<Log>,
    },
}

/// The notes of a bucket, oldest first. The notes have no bytes: their count is what a program has.
#[derive(Drop)]
pub struct Journal {
    log: Snapshot<Log>,
    count: usize,
}

impl Model for Journal {
    ghost use Rattle.std.specs.Prelude.{◌≡◌, ◌-◌, ◌+◌, ◌^◌, length};
    ghost use Rattle.bind_buckets.specs.Runs.{Noted, lines};

    ghost Value = { Noted };

    ghost view = { λ j. record { notes = lines j.log.value; room = 2 ^ 64 - (j.count + 1) } };

    ghost invariant = { λ j. j.count ≡ length (lines j.log.value) };
}

impl Journal {
    /// An empty journal. It takes no memory.
    pub fn new() -> Self
        ensures { result ≡ record { notes = []; room = 2 ^ 64 - 1 } }
    {
        Journal {
            log: Snapshot::of(&Log::Empty),
            count: 0,
        }
    }

    /// How many notes there are. Constant cost.
    pub fn count(&self) -> usize
        ensures { result ≡ length self.now.notes }
    {
        self.count
    }

    /// Whether so many notes more can be counted, which is `Err` only near 2^64.
    pub fn reserve(&self, more: usize) -> Result<(), AllocError>
        ensures { OnOk result (more ≤ self.now.room) }
    {
        match self.count.checked_add(more) {
            Some(_) => Ok(()),
            None => Err(AllocError),
        }
    }

    /// Appends a note. Constant cost.
    pub fn push(&mut self, note: Note<Entry>)
        requires { 1 ≤ self.old.room }
        ensures notes { self.new.notes ≡ self.old.notes ++ note ∷ [] }
        ensures room { self.old.room ≤ self.new.room + 1 }
    {
        let before = mem::replace(&mut self.log, Snapshot::of(&Log::Empty));
        self.log = Snapshot::of(&Log::After { note, before });
        self.count += 1;
    }
}
