//! The steps that passes make.

ghost use Rattle.std.specs.Prelude.{◌≡◌, ◌+◌, ◌-◌, ◌^◌, ◌<◌, ◌≤◌, ◌++◌, length, map, true, IfSome, IfNone};
ghost use Rattle.list_words.specs.Lists.{Each};
ghost use Rattle.turn_table.specs.declared.note.Note.{Note};
ghost use Rattle.turn_table.specs.Values.{Fits};
ghost use Rattle.turn_table.specs.Journals.{Ascends, AsFound, HasAllAt, number, by_caller, notes_at};
ghost use Rattle.turn_table.specs.Views.{cut, newcomer, heard, joined, looked, taking, drawing, giving, added};
ghost use Rattle.turn_table.specs.Passes as words;
ghost use Rattle.turn_table.specs.Passes.{IsPassOf, IsFree, HasTurn, known};

use crate::journaled::Journaled;
use crate::pass::{Turn, TurnPass, Turns};
use crate::rule::{Both, Cut, Draw, Give, See, Take, Tell};
use patience::Patience;

impl<V: Journaled> Turns<V> {
    /// Takes the turn of a place where nobody has it, and its value out.
    ///
    /// It is one try: where another pass has the turn, the answer is None, and this pass is as it was. It takes no
    /// memory, and waits for nobody.
    pub fn try_take_turn(&self, pass: &mut TurnPass<V>, place: usize) -> Option<Turn<V>>
        requires table { IsPassOf self.now pass.old }
        requires place { place < words.places self.now }
        requires free { IsFree pass.old }
        requires part { 0 < words.parts pass.old }
        ensures table { IsPassOf self.now pass.new }
        ensures turn { IfSome result (λ turn. HasTurn pass.new place × (turn.place ≡ place)) }
        ensures value { IfSome result
            (λ turn. Fits V.notes V.is_replay V.made_for V.may_make (words.home self.now) place
            (words.places self.now) turn.value) }
        ensures view { IfSome result (λ turn. known pass.new
            ≡ taking (known pass.old) place (words.seen pass.new) (V.notes turn.value)) }
        ensures later { IfSome result (λ turn. words.seen pass.old ≤ words.seen pass.new) }
        ensures rising { IfSome result (λ turn. Ascends (words.seen pass.new) (map number (V.notes turn.value))) }
        ensures own { IfSome result (λ turn. by_caller (words.caller pass.old) (V.notes turn.value)
            ≡ by_caller (words.caller pass.old) (notes_at place (words.given pass.old))) }
        ensures sole { IfSome result (λ turn. words.caller pass.old ≡ 0 → words.splits pass.old ≡ 0
            → V.notes turn.value ≡ notes_at place (words.given pass.old)) }
        ensures before { IfSome result (λ turn. AsFound (words.finds pass.old) place (V.notes turn.value)) }
        ensures all { IfSome result (λ turn. HasAllAt place (words.given pass.old) (V.notes turn.value)) }
        ensures none { IfNone result (IsFree pass.new × (known pass.new ≡ known pass.old)) }
    {
        let shared = &self.table.shared;
        let found = shared.compare_exchange::<Take<V>>(&mut pass.seat, 1 + place, 0, 1);
        if found == 0 {
            let value = shared.exchange(&mut pass.seat, place, None).unwrap();
            Some(Turn { value, place })
        } else {
            None
        }
    }

    /// Takes the turn of a place, and its value out, and tries until nobody has it, as long as the caller's patience
    /// lasts.
    ///
    /// What the pass has seen afterwards is the count at that moment. None: another pass had the turn for so long, and
    /// this pass is as it was; with a [`Patience`] that is endless, this doesn't come. It takes no memory.
    pub fn take_turn<P: Patience>(
        &self,
        patience: &P,
        pass: &mut TurnPass<V>,
        place: usize,
    ) -> Option<Turn<V>>
        requires table { IsPassOf self.now pass.old }
        requires place { place < words.places self.now }
        requires free { IsFree pass.old }
        requires part { 0 < words.parts pass.old }
        ensures table { IsPassOf self.now pass.new }
        ensures turn { IfSome result (λ turn. HasTurn pass.new place × (turn.place ≡ place)) }
        ensures value { IfSome result
            (λ turn. Fits V.notes V.is_replay V.made_for V.may_make (words.home self.now) place
            (words.places self.now) turn.value) }
        ensures view { IfSome result (λ turn. known pass.new
            ≡ taking (known pass.old) place (words.seen pass.new) (V.notes turn.value)) }
        ensures later { IfSome result (λ turn. words.seen pass.old ≤ words.seen pass.new) }
        ensures rising { IfSome result (λ turn. Ascends (words.seen pass.new) (map number (V.notes turn.value))) }
        ensures own { IfSome result (λ turn. by_caller (words.caller pass.old) (V.notes turn.value)
            ≡ by_caller (words.caller pass.old) (notes_at place (words.given pass.old))) }
        ensures sole { IfSome result (λ turn. words.caller pass.old ≡ 0 → words.splits pass.old ≡ 0
            → V.notes turn.value ≡ notes_at place (words.given pass.old)) }
        ensures before { IfSome result (λ turn. AsFound (words.finds pass.old) place (V.notes turn.value)) }
        ensures all { IfSome result (λ turn. HasAllAt place (words.given pass.old) (V.notes turn.value)) }
        ensures none { IfNone result (IsFree pass.new × (known pass.new ≡ known pass.old)) }
        ensures had { P.endless ≡ true → IfNone result ⊥ }
    {
        for tries in 0..=u64::MAX {
            if let Some(turn) = self.try_take_turn(pass, place) {
                return Some(turn);
            }
            if !patience.lasts(tries) {
                return None;
            }
        }
        None
    }

    /// The number of the next entry of the value that is out. It takes no memory.
    pub fn draw(&self, pass: &mut TurnPass<V>, turn: &Turn<V>) -> u64
        requires table { IsPassOf self.now pass.old }
        requires turn { HasTurn pass.old turn.now.place }
        requires few { words.draws pass.old < 2 ^ 48 }
        ensures table { IsPassOf self.now pass.new }
        ensures turn { HasTurn pass.new turn.now.place }
        ensures later { words.seen pass.old ≤ result }
        ensures view { known pass.new ≡ drawing (known pass.old) result }
    {
        let _place = turn.place;
        pass.draws += 1;
        self.table.shared.fetch_add::<Draw<V>>(&mut pass.seat, 0, 1)
    }

    /// Gives a turn back. The value's new entries have the numbers that were drawn for them, in order,
    /// and this pass as their caller. It takes no memory.
    pub fn give(&self, pass: &mut TurnPass<V>, turn: Turn<V>)
        requires table { IsPassOf self.now pass.old }
        requires place { turn.place < words.places self.now }
        requires turn { HasTurn pass.old turn.place }
        requires value { Fits V.notes V.is_replay V.made_for V.may_make (words.home self.now) turn.place
            (words.places self.now) turn.value }
        requires grown { V.notes turn.value ≡ words.found pass.old ++ added (known pass.old) (V.notes turn.value) }
        requires numbered { map number (added (known pass.old) (V.notes turn.value)) ≡ words.drawn pass.old }
        requires caller { Each (λ (x : Note V.Entry). x.caller ≡ words.caller pass.old)
            (added (known pass.old) (V.notes turn.value)) }
        ensures table { IsPassOf self.now pass.new }
        ensures free { IsFree pass.new }
        ensures view { known pass.new
            ≡ giving (known pass.old) turn.place (added (known pass.old) (V.notes turn.value)) }
    {
        let Turn { value, place } = turn;
        let shared = &self.table.shared;
        drop(shared.exchange(&mut pass.seat, place, Some(value)));
        shared.store::<Give<V>>(&mut pass.seat, 1 + place, 0);
    }
}

impl<V: Journaled> TurnPass<V> {
    /// Its number as a caller, which its entries carry.
    pub fn caller(&self, turns: &Turns<V>) -> u32
        requires { IsPassOf turns.now self.now }
        ensures { result ≡ words.caller self.now }
    {
        let _places = turns.count;
        self.caller
    }

    /// How many numbers it drew itself.
    pub fn drawn(&self, turns: &Turns<V>) -> u64
        requires { IsPassOf turns.now self.now }
        ensures { result ≡ words.draws self.now }
    {
        let _places = turns.count;
        self.draws
    }

    /// How many numbers were drawn. Those that this pass drew or found are below it. It takes no memory.
    pub fn now(&mut self, turns: &Turns<V>) -> u64
        requires { IsPassOf turns.now self.old }
        ensures table { IsPassOf turns.now self.new }
        ensures hand { words.hand self.new ≡ words.hand self.old }
        ensures later { words.seen self.old ≤ result }
        ensures view { known self.new ≡ looked (known self.old) result }
        ensures whole { words.parts self.old ≡ 16384
            → result ≡ length (words.given self.old) + length (words.drawn self.old) }
    {
        turns.table.shared.load::<See<V>>(&mut self.seat, 0)
    }

    /// Splits off a pass for another thread, as the next caller. It takes no memory.
    pub fn split(&mut self, turns: &Turns<V>) -> TurnPass<V>
        requires table { IsPassOf turns.now self.old }
        requires first { (words.caller self.old ≡ 0) × (0 < words.parts self.old) }
        requires few { words.splits self.old < 2 ^ 14 - 2 }
        ensures table { IsPassOf turns.now self.new × IsPassOf turns.now result }
        ensures hand { (words.hand self.new ≡ words.hand self.old) × IsFree result }
        ensures old { known self.new ≡ cut (known self.old) }
        ensures new { known result ≡ newcomer (words.about self.old) (words.splits self.old + 1) (words.seen self.old) }
    {
        let seat = turns.table.shared.split_seat::<Cut>(&mut self.seat);
        self.splits += 1;
        TurnPass {
            seat,
            caller: self.splits,
            splits: 0,
            draws: 0,
        }
    }

    /// What this pass has seen, for another to join. It can do nothing else, and takes no memory.
    pub fn note(&mut self, turns: &Turns<V>) -> TurnPass<V>
        requires { IsPassOf turns.now self.old }
        ensures table { IsPassOf turns.now self.new × IsPassOf turns.now result }
        ensures hand { (words.hand self.new ≡ words.hand self.old) × IsFree result }
        ensures old { known self.new ≡ known self.old }
        ensures new { known result ≡ heard (words.about self.old) (words.seen self.old) }
    {
        TurnPass {
            seat: turns.table.shared.split_seat::<Tell>(&mut self.seat),
            caller: 0,
            splits: 0,
            draws: 0,
        }
    }

    /// Joins another pass: this one has then seen, found and given what either has. It takes no memory.
    pub fn join(&mut self, turns: &Turns<V>, other: TurnPass<V>)
        requires table { IsPassOf turns.now self.old × IsPassOf turns.now other }
        requires part { 0 < words.parts self.old }
        requires free { IsFree other }
        ensures table { IsPassOf turns.now self.new }
        ensures hand { words.hand self.new ≡ words.hand self.old }
        ensures view { known self.new ≡ joined (known self.old) (known other) }
    {
        let TurnPass { seat, .. } = other;
        turns.table.shared.join_seat::<Both>(&mut self.seat, seat);
    }
}
