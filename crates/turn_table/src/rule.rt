//! The rule of the table's words, values and passes, and what each step shows.

use crate::journaled::Journaled;
use crate::view::TurnView;
use atomic_table::{Join, Play, Split, TableRule};
use std::marker::PhantomData;

pub struct TurnRule<V> {
    of: PhantomData<V>,
}

impl<V: Journaled> TableRule<Option<V>, TurnView<V::Entry, V::Home>, V::Home> for TurnRule<V> {
    ghost use Rattle.turn_table.specs.Views.{first};
    ghost use Rattle.turn_table.specs.Turning.{Orderly};
    ghost use Rattle.turn_table.specs.Values.{Fits};

    ghost holds = { λ key. Orderly V.notes (Fits V.notes V.is_replay V.made_for V.may_make key) key };

    ghost first = { first };
}

/// Takes a turn, where it is free.
pub struct Take<V> {
    of: PhantomData<V>,
}

impl<V: Journaled> Play<Option<V>, TurnView<V::Entry, V::Home>> for Take<V> {
    ghost use Rattle.turn_table.specs.Values.{Fits};
    ghost use Rattle.turn_table.specs.Plays.{took};

    ghost then = { took V.notes (Fits V.notes V.is_replay V.made_for V.may_make) };
}

/// Gives a turn back.
pub struct Give<V> {
    of: PhantomData<V>,
}

impl<V: Journaled> Play<Option<V>, TurnView<V::Entry, V::Home>> for Give<V> {
    ghost use Rattle.turn_table.specs.Plays.{gave};

    ghost then = { gave V.notes };
}

/// Draws a number.
pub struct Draw<V> {
    of: PhantomData<V>,
}

impl<V: Journaled> Play<Option<V>, TurnView<V::Entry, V::Home>> for Draw<V> {
    ghost use Rattle.turn_table.specs.Plays.{drew};

    ghost then = { drew V.notes };
}

/// Loads the count.
pub struct See<V> {
    of: PhantomData<V>,
}

impl<V: Journaled> Play<Option<V>, TurnView<V::Entry, V::Home>> for See<V> {
    ghost use Rattle.turn_table.specs.Plays.{saw};

    ghost then = { saw V.notes };
}

/// Splits a pass off.
pub struct Cut;

impl<E, H> Split<TurnView<E, H>> for Cut {
    ghost use Rattle.std.specs.Prelude.{◌+◌};
    ghost use Rattle.turn_table.specs.Views.{cut, newcomer};

    ghost left = { cut };

    ghost right = { λ v. newcomer v.home (v.splits + 1) v.seen };
}

/// Reports what a pass has seen.
pub struct Tell;

impl<E, H> Split<TurnView<E, H>> for Tell {
    ghost use Rattle.turn_table.specs.Views.{heard};

    ghost left = { λ v. v };

    ghost right = { λ v. heard v.home v.seen };
}

/// Joins a pass.
pub struct Both;

impl<E, H> Join<TurnView<E, H>> for Both {
    ghost use Rattle.turn_table.specs.Views.{joined, nobody};

    ghost both = { joined };

    ghost spent = { nobody };
}
