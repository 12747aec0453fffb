//! Labels by the places where they were given first.

ghost use Rattle.std.specs.Prelude.{◌≡◌, ◌<◌, ◌+◌, ◌++◌, ◌∷◌, [], length, not, is_some, IfOk, IfSome, IsTrue, OnOk, OnErr};
ghost use Rattle.flat_calls.specs.Numbers.{label_of, number_of};
ghost use Rattle.label_index.specs.Places.{place_in};
ghost use Rattle.label_index.specs.Numbers.{labels_to};
ghost use Rattle.label_index.specs.Firsts.{Note, NotesPlace, Stay, TellsNew};

use crate::seed::LabelSeed;
use flat_calls::sight::number_of;
use flat_list::{Label, LabelKey};
use std::alloc::{AllocError, Global};
use std::collections::HashMap;
use std::marker::Model;
use std::mem;
use std::snapshot::Snapshot;

/// The labels so far. It exists in proofs alone.
#[derive(Drop)]
pub(crate) enum Log {
    Empty,
    After { label: Label, before: Snapshot<Log> },
}

/// How the place is found where a label was given first.
#[derive(Drop)]
pub(crate) enum Firsts {
    /// By a hash of its key.
    Hashed(HashMap<LabelKey, usize, LabelSeed>),
    /// By its number: the labels are the numbers from 1 on.
    Numbered,
}

/// The labels given so far, in order, of which the program keeps the count, and where each was given first.
#[derive(Drop)]
pub struct LabelIndex {
    log: Snapshot<Log>,
    count: usize,
    firsts: Firsts,
}

impl Model for LabelIndex {
    ghost use Rattle.std.specs.Prelude.{List, ℕ};
    ghost use Rattle.label_index.specs.Firsts.{AreFirsts, labels_in};

    ghost Value = { List (List ℕ) };

    ghost view = { λ l. labels_in l.log.value };

    ghost invariant = { λ l. AreFirsts l.firsts l.count (labels_in l.log.value) };
}

/// Notes the place of a label, unless it was given before, and returns whether it is new.
fn note_hashed(
    places: &mut HashMap<LabelKey, usize, LabelSeed>,
    label: &Label,
    place: usize,
) -> Result<bool, AllocError>
    ensures noted { OnOk result (NotesPlace places.old label.now place places.new) }
    ensures told { IfOk result (TellsNew places.old label.now) }
    ensures err { OnErr result (places.new.entries ≡ places.old.entries) }
{
    let key = label.key();
    if let Some(first) = places.insert(key, place)? {
        places.insert(key, first)?;
        return Ok(false);
    }
    Ok(true)
}

/// Notes the place of a label, and returns whether it is new.
fn note_place(firsts: &mut Firsts, label: &Label, place: usize) -> Result<bool, AllocError>
    ensures noted { IfOk result (Note firsts.old label.now place firsts.new) }
    ensures err { OnErr result (Stay firsts.old firsts.new) }
{
    match firsts {
        Firsts::Hashed(places) => note_hashed(places, label, place),
        Firsts::Numbered if is_number(label, place) => Ok(true),
        Firsts::Numbered => Err(AllocError),
    }
}

/// Makes room for so many labels more.
fn make_room(firsts: &mut Firsts, more: usize) -> Result<(), AllocError>
    ensures { Stay firsts.old firsts.new }
{
    match firsts {
        Firsts::Hashed(places) => places.reserve(more),
        Firsts::Numbered => Ok(()),
    }
}

/// Whether the label is the number behind so many.
fn is_number(label: &Label, before: usize) -> bool
    ensures label { IsTrue result → label.now ≡ label_of (before + 1) }
    ensures number { IsTrue result → number_of label.now ≡ before + 1 }
{
    let number = number_of(label.as_bytes());
    number != 0 && number - 1 == before as u64
}

/// Where a label stands among so many numbers.
fn place_among(label: &Label, count: usize) -> Option<usize>
    ensures place { result ≡ place_in (labels_to count) label.now }
    ensures within { IfSome result (λ place. place < count) }
{
    let number = number_of(label.as_bytes());
    if number == 0 || number > count as u64 {
        return None;
    }
    Some(number as usize - 1)
}

impl LabelIndex {
    /// Of a section that has given none. It takes no memory.
    pub fn new(alloc: Global, seed: LabelSeed) -> Self
        ensures { result ≡ [] }
    {
        LabelIndex {
            log: Snapshot::of(&Log::Empty),
            count: 0,
            firsts: Firsts::Hashed(HashMap::with_hasher(alloc, seed)),
        }
    }

    /// Of a section that has given none, and whose labels are the numbers from 1 on. It takes no memory then either,
    /// and hashes nothing.
    pub fn numbered() -> Self
        ensures { result ≡ [] }
    {
        LabelIndex {
            log: Snapshot::of(&Log::Empty),
            count: 0,
            firsts: Firsts::Numbered,
        }
    }

    /// Makes room for so many labels more, so that giving them moves none of those that are there.
    pub fn reserve(&mut self, more: usize) -> Result<(), AllocError>
        ensures { self.new ≡ self.old }
    {
        make_room(&mut self.firsts, more)
    }

    /// How many labels were given, each as often as it was. Constant cost.
    pub fn len(&self) -> usize
        ensures { result ≡ length self.now }
    {
        self.count
    }

    /// Where a label was given first, counted from 0. One hash, and a probe that is short but where hashes collide; in
    /// an index of numbers a subtraction.
    pub fn place_of(&self, label: &Label) -> Option<usize>
        ensures place { result ≡ place_in self.now label.now }
        ensures within { IfSome result (λ place. place < length self.now) }
    {
        match &self.firsts {
            Firsts::Hashed(places) => places.get(&label.key()).copied(),
            Firsts::Numbered => place_among(label, self.count),
        }
    }

    /// Gives a label, one that was given before too. An `Err` changes nothing: memory is wanting, the labels would be
    /// 2^64, or another label than the next number's was given to an index of numbers. One hash for a label that is
    /// new.
    pub fn give(&mut self, label: &Label) -> Result<(), AllocError>
        ensures given { OnOk result (self.new ≡ self.old ++ label.now ∷ []) }
        ensures err { OnErr result (self.new ≡ self.old) }
    {
        self.give_and_tell(label)?;
        Ok(())
    }

    /// Gives a label as `give` does, and returns whether it is new, at the same cost.
    pub fn give_and_tell(&mut self, label: &Label) -> Result<bool, AllocError>
        ensures given { OnOk result (self.new ≡ self.old ++ label.now ∷ []) }
        ensures told { IfOk result (λ new. new ≡ not (is_some (place_in self.old label.now))) }
        ensures err { OnErr result (self.new ≡ self.old) }
    {
        let Some(count) = self.count.checked_add(1) else {
            return Err(AllocError);
        };
        let new = note_place(&mut self.firsts, label, self.count)?;
        let before = mem::replace(&mut self.log, Snapshot::of(&Log::Empty));
        self.log = Snapshot::of(&Log::After {
            label: *label,
            before,
        });
        self.count = count;
        Ok(new)
    }
}
