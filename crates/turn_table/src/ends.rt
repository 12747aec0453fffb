//! How a table begins and ends.

ghost use Rattle.std.specs.Prelude.{◌≡◌, ℕ, ◌+◌, ◌^◌, ◌<◌, ◌≤◌, [], length, map, replicate, IfOk, Some, false, slice_index_or, vec_len, vec_capacity};
ghost use Rattle.std.specs.Slots.{slots_items, slots_filled, slots_len, IsFull};
ghost use mathlib.Core.Option.{some};
ghost use lib.ListN.{get_elem?};
ghost use Rattle.turn_table.specs.Values.{Fits};
ghost use Rattle.turn_table.specs.Ends.{AllAscend, HoldsWhatWasGiven, IsInTheOrderOfEach, BeginsAsFound, NumbersAll};
ghost use Rattle.turn_table.specs.Values.{AllNew, AllFit};
ghost use Rattle.list_words.specs.Lists.{Each};
ghost use Rattle.turn_table.specs.Views.{first};
ghost use Rattle.turn_table.specs.Passes as words;
ghost use Rattle.turn_table.specs.Passes.{IsPassOf, IsFree, known};

use crate::journaled::Journaled;
use crate::pass::{TurnPass, Turns};
use atomic_table::{Closed, Refused, Table};
use std::alloc::{AllocError, Global};

fn wrapped<V: Drop>(alloc: Global, values: Vec<V>) -> Result<Vec<Option<V>>, AllocError>
    ensures { IfOk result (λ v. v.items ≡ map Some values.items) }
{
    Ok(values.into_iter().map(|x| Some(x)).collect(alloc)?)
}

fn zeros(alloc: Global, count: usize) -> Result<Vec<u64>, AllocError>
    ensures { IfOk result (λ v. v.items ≡ replicate count 0) }
{
    Ok(vec![in alloc; 0u64; count]?)
}

/// Each slot's value, in order.
fn take_all<V>(closed: &mut Closed<Option<V>, Global>, values: &mut Vec<V>)
    requires full { IsFull closed.old.slots }
    requires there { (k : ℕ) → k < slots_len closed.old.slots → (x : V)
        × (get_elem? (slots_items closed.old.slots) k ≡ some (Some x)) }
    requires room { vec_len values.old + slots_len closed.old.slots ≤ vec_capacity values.old }
    requires none { values.old.items ≡ [] }
    ensures values { map Some values.new.items ≡ slots_items closed.old.slots }
    ensures taken { (k : ℕ) → k < slots_len closed.new.slots
        → slice_index_or (slots_filled closed.new.slots) k false ≡ false }
{
    for i in 0..closed.slot_count() {
        let Some(x) = closed.take(i) else {
            unreachable!()
        };
        values.push_reserved(x);
    }
}

impl<V: Journaled<Home = ()>> Turns<V> {
    /// A table of values that have nothing in common, and its first pass. Each value stands for no
    /// entry yet.
    ///
    /// # Errors
    ///
    /// Memory ran out.
    pub fn new(alloc: Global, values: Vec<V>) -> Result<(Turns<V>, TurnPass<V>), AllocError>
        requires new { AllNew V.notes (Fits V.notes V.is_replay V.made_for V.may_make tt) 0
            (length values.items) values.items }
        requires few { length values.items < 2 ^ 32 }
        ensures places { IfOk result (λ t. words.places t.0 ≡ length values.items) }
        ensures pass { IfOk result (λ t. IsPassOf t.0 t.1 × IsFree t.1 × (known t.1 ≡ first tt)) }
    {
        Self::with_home(alloc, values, &())
    }
}

impl<V: Journaled> Turns<V> {
    /// A table of values that have `home` in common, and its first pass. Each value stands for no
    /// entry yet.
    ///
    /// # Errors
    ///
    /// Memory ran out.
    pub fn with_home(
        alloc: Global,
        values: Vec<V>,
        home: &V::Home,
    ) -> Result<(Turns<V>, TurnPass<V>), AllocError>
        requires new { AllNew V.notes (Fits V.notes V.is_replay V.made_for V.may_make home.now) 0
            (length values.items) values.items }
        requires few { length values.items < 2 ^ 32 }
        ensures places { IfOk result (λ t. words.places t.0 ≡ length values.items) }
        ensures home { IfOk result (λ t. words.home t.0 ≡ home.now) }
        ensures pass { IfOk result (λ t. IsPassOf t.0 t.1 × IsFree t.1 × (known t.1 ≡ first home.now)) }
    {
        let count = values.len();
        let words = zeros(alloc, 1 + count)?;
        let slots = wrapped(alloc, values)?;
        match Table::new(alloc, words.as_slice(), slots, home) {
            Ok((table, seat)) => Ok((
                Turns { table, count },
                TurnPass {
                    seat,
                    caller: 0,
                    splits: 0,
                    draws: 0,
                },
            )),
            Err(Refused { slots: _ }) => Err(AllocError),
        }
    }

    /// How many values there are.
    pub fn places(&self) -> usize
        ensures { result ≡ words.places self.now }
    {
        self.count
    }

    /// The values, by the pass to which each other one was joined, and with no turn out.
    ///
    /// # Errors
    ///
    /// Memory ran out.
    pub fn into_values(self, alloc: Global, pass: TurnPass<V>) -> Result<Vec<V>, AllocError>
        requires table { IsPassOf self pass }
        requires whole { words.parts pass ≡ 16384 }
        requires free { IsFree pass }
        ensures values { IfOk result (λ v. (length v.items ≡ words.places self)
            × AllFit (Fits V.notes V.is_replay V.made_for V.may_make (words.home self)) 0 (words.places self) v.items) }
        ensures given { IfOk result (λ v. HoldsWhatWasGiven V.notes (known pass) v.items) }
        ensures in_order { IfOk result (λ v. IsInTheOrderOfEach V.notes (known pass) v.items) }
        ensures found { IfOk result (λ v. BeginsAsFound V.notes (known pass) v.items) }
        ensures rising { IfOk result (λ v. AllAscend V.notes (length (words.given pass)) v.items) }
        ensures numbers { IfOk result (λ v. NumbersAll V.notes (length (words.given pass)) v.items) }
        ensures loads { IfOk result (λ v. Each (λ (x : ℕ). x ≤ length (words.given pass)) (words.loads pass)) }
    {
        let mut values = Vec::with_capacity(alloc, self.count)?;
        let Turns { table, count: _ } = self;
        let TurnPass { seat, .. } = pass;
        let mut closed = table.close_with(seat);
        take_all(&mut closed, &mut values);
        closed.free();
        Ok(values)
    }
}
