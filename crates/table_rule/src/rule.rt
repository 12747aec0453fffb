//! The rule of the table, and what each kind of step shows of the view that makes it.

use super::view::{Layout, View};
use atomic_table::{Join, Play, Split, TableRule};
use std::marker::{Brand, PhantomData};

/// The rule of the table: what holds of all words and all passes between any two steps, and what the first pass knows
/// of a new table.
pub struct Rule;

impl TableRule<(), View, Layout> for Rule {
    ghost use Rattle.table_rule.specs.Rule.{Holds, first};

    ghost holds = { Holds };

    ghost first = { first };
}

pub struct Claim;

impl Play<(), View> for Claim {
    ghost use Rattle.table_rule.specs.Plays.{claimed};

    ghost then = { claimed };
}

pub struct Glimpse;

impl Play<(), View> for Glimpse {
    ghost use Rattle.table_rule.specs.Plays.{glimpsed};

    ghost then = { glimpsed };
}

pub struct Write;

impl Play<(), View> for Write {
    ghost use Rattle.table_rule.specs.Plays.{wrote};

    ghost then = { wrote };
}

pub struct Read;

impl Play<(), View> for Read {
    ghost use Rattle.table_rule.specs.Plays.{read};

    ghost then = { read };
}

pub struct Light;

impl Play<(), View> for Light {
    ghost use Rattle.table_rule.specs.Plays.{lit};

    ghost then = { lit };
}

pub struct Dim;

impl Play<(), View> for Dim {
    ghost use Rattle.table_rule.specs.Plays.{dimmed};

    ghost then = { dimmed };
}

pub struct Free;

impl Play<(), View> for Free {
    ghost use Rattle.table_rule.specs.Plays.{freed};

    ghost then = { freed };
}

pub struct Lock;

impl Play<(), View> for Lock {
    ghost use Rattle.table_rule.specs.Plays.{locked};

    ghost then = { locked };
}

pub struct Unlock;

impl Play<(), View> for Unlock {
    ghost use Rattle.table_rule.specs.Plays.{unlocked};

    ghost then = { unlocked };
}

pub struct Advance;

impl Play<(), View> for Advance {
    ghost use Rattle.table_rule.specs.Plays.{advanced};

    ghost then = { advanced };
}

pub struct Look;

impl Play<(), View> for Look {
    ghost use Rattle.table_rule.specs.Plays.{looked};

    ghost then = { looked };
}

pub struct Tie;

impl Play<(), View> for Tie {
    ghost use Rattle.table_rule.specs.Plays.{tied};

    ghost then = { tied };
}

pub struct Hang;

impl Play<(), View> for Hang {
    ghost use Rattle.table_rule.specs.Plays.{hung};

    ghost then = { hung };
}

pub struct Past;

impl Play<(), View> for Past {
    ghost use Rattle.table_rule.specs.Plays.{passed};

    ghost then = { passed };
}

/// What a step is given besides its operands.
pub trait Told {
    ghost use Rattle.std.specs.Prelude.{ℕ};

    /// A slot; or the place of a count among those that were taken with LIVE, 0 for the last one.
    ghost slot: { ℕ };
}

impl Told for Brand {
    ghost slot = { 0 };
}

pub struct BeginHash;

impl Play<(), View> for BeginHash {
    ghost use Rattle.table_rule.specs.Plays.{began};

    ghost then = { began };
}

pub struct BeginUnhash<T> {
    of: PhantomData<T>,
}

impl<T: Told> Play<(), View> for BeginUnhash<T> {
    ghost use Rattle.table_rule.specs.Plays.{left};

    ghost then = { left T.slot };
}

pub struct End;

impl Play<(), View> for End {
    ghost use Rattle.table_rule.specs.Plays.{ended};

    ghost then = { ended };
}

pub struct Count;

impl Play<(), View> for Count {
    ghost use Rattle.table_rule.specs.Plays.{counted};

    ghost then = { counted };
}

pub struct Forget;

impl Play<(), View> for Forget {
    ghost use Rattle.table_rule.specs.Plays.{forgot};

    ghost then = { forgot };
}

pub struct See;

impl Play<(), View> for See {
    ghost use Rattle.table_rule.specs.Plays.{saw};

    ghost then = { saw };
}

pub struct Half;

impl Split<View> for Half {
    ghost use Rattle.table_rule.specs.Plays.{left, cut, newcomer};

    ghost left = { cut };

    ghost right = { newcomer };
}

pub struct Both;

impl Join<View> for Both {
    ghost use Rattle.table_rule.specs.Plays.{both, spent};

    ghost both = { both };

    ghost spent = { spent };
}

/// What a lookup is given as it begins.
pub trait Asked {
    ghost use Rattle.std.specs.Prelude.{ℕ};
    ghost use Rattle.sock_card.specs.declared.card.Packet.{Packet};

    ghost bucket: { ℕ };

    ghost key: { Packet };

    ghost least: { ℕ };
}

impl Asked for Brand {
    ghost bucket = { 0 };

    ghost key = { record { src = 0; sport = 0; dst = 0; dport = 0; dev = 0; net = 0 } };

    ghost least = { 0 };
}

pub struct SetOut<T> {
    of: PhantomData<T>,
}

impl<T: Asked> Play<(), View> for SetOut<T> {
    ghost use Rattle.table_rule.specs.Plays.{set_out};

    ghost then = { set_out T.bucket T.key T.least };
}

pub struct PeekHead;

impl Play<(), View> for PeekHead {
    ghost use Rattle.table_rule.specs.Plays.{arrived, entering};

    ghost then = { arrived entering };
}

pub struct PeekLink;

impl Play<(), View> for PeekLink {
    ghost use Rattle.table_rule.specs.Plays.{arrived, following};

    ghost then = { arrived following };
}

pub struct Glance;

impl Play<(), View> for Glance {
    ghost use Rattle.table_rule.specs.Plays.{glanced};

    ghost then = { glanced };
}

pub struct Take;

impl Play<(), View> for Take {
    ghost use Rattle.table_rule.specs.Plays.{took};

    ghost then = { took };
}

pub struct Reach;

impl Play<(), View> for Reach {
    ghost use Rattle.table_rule.specs.Plays.{reached};

    ghost then = { reached };
}

pub struct LetGo<T> {
    of: PhantomData<T>,
}

impl<T: Told> Play<(), View> for LetGo<T> {
    ghost use Rattle.table_rule.specs.Plays.{let_go};

    ghost then = { let_go T.slot };
}

pub struct LetGoDead;

impl Play<(), View> for LetGoDead {
    ghost use Rattle.table_rule.specs.Plays.{let_go_dead};

    ghost then = { let_go_dead };
}

pub struct Learn;

impl Play<(), View> for Learn {
    ghost use Rattle.table_rule.specs.Plays.{learned};

    ghost then = { learned };
}

pub struct Judge;

impl Play<(), View> for Judge {
    ghost use Rattle.table_rule.specs.Plays.{judged};

    ghost then = { judged };
}

pub struct EndNone;

impl Play<(), View> for EndNone {
    ghost use Rattle.table_rule.specs.Plays.{ended_none};

    ghost then = { ended_none };
}

pub struct EndFound;

impl Play<(), View> for EndFound {
    ghost use Rattle.table_rule.specs.Plays.{ended_found};

    ghost then = { ended_found };
}

pub struct EndAgain;

impl Play<(), View> for EndAgain {
    ghost use Rattle.table_rule.specs.Plays.{ended_again};

    ghost then = { ended_again };
}

/// Of the counts that a pass took with LIVE and has not put, the last one.
pub struct First;

impl Told for First {
    ghost slot = { 0 };
}

/// The last but one of these counts.
pub struct Second;

impl Told for Second {
    ghost slot = { 1 };
}

pub struct LetSee<T> {
    of: PhantomData<T>,
}

impl<T: Told> Play<(), View> for LetSee<T> {
    ghost use Rattle.table_rule.specs.Plays.{let_see};

    ghost then = { let_see T.slot };
}

/// What the end of a whole lookup is given: its receipt, but for its end.
pub trait Summed {
    ghost use Rattle.table_rule.specs.declared.view.Whole.{Whole};

    ghost whole: { Whole };
}

impl Summed for Brand {
    ghost use Rattle.std.specs.Prelude.{[]};

    ghost whole = { record {
      key = record { src = 0; sport = 0; dst = 0; dport = 0; dev = 0; net = 0 };
      seed = 0;
      from = 0;
      to = 0;
      kind = 0;
      card = [];
      bucket = 0;
      stops = [];
    } };
}

pub struct Sum<T> {
    of: PhantomData<T>,
}

impl<T: Summed> Play<(), View> for Sum<T> {
    ghost use Rattle.table_rule.specs.Plays.{summed};

    ghost then = { summed T.whole };
}
