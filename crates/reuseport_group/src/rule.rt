//! The rule of the table's words and passes, and what each step shows. All of it exists in proofs alone.

use crate::view::GroupView;
use atomic_table::{Join, Play, Split, TableRule};
use std::marker::{Brand, PhantomData};

pub struct GroupRule;

impl TableRule<(), GroupView, u32> for GroupRule {
    ghost use Rattle.reuseport_group.specs.Views.{first};
    ghost use Rattle.reuseport_group.specs.Grouped.{Grouped};

    ghost holds = { Grouped };

    ghost first = { λ key. first };
}

/// The group and the list that a store is of, since the stored number doesn't determine them.
pub trait Told {
    ghost use Rattle.std.specs.Prelude.{ℕ, List};

    ghost group: { ℕ };

    ghost members: { List ℕ };
}

impl Told for Brand {
    ghost use Rattle.std.specs.Prelude.{[]};

    ghost group = { 0 };

    ghost members = { [] };
}

/// Stores a word of a list.
pub struct Store<T> {
    of: PhantomData<T>,
}

impl<T: Told> Play<(), GroupView> for Store<T> {
    ghost use Rattle.reuseport_group.specs.Plays.{wrote};

    ghost then = { wrote T.group T.members };
}

/// Loads a word; where that of a list stands there already, this is its store.
pub struct Keep<T> {
    of: PhantomData<T>,
}

impl<T: Told> Play<(), GroupView> for Keep<T> {
    ghost use Rattle.reuseport_group.specs.Plays.{kept};

    ghost then = { kept T.group T.members };
}

/// Loads a word.
pub struct Load;

impl Play<(), GroupView> for Load {
    ghost use Rattle.reuseport_group.specs.Plays.{Saw};

    ghost then = { Saw };
}

/// Splits a pass off.
pub struct Cut;

impl Split<GroupView> for Cut {
    ghost use Rattle.reuseport_group.specs.Views.{cut, newcomer};

    ghost left = { cut };

    ghost right = { λ v. newcomer v.moments };
}

/// Joins a pass.
pub struct Both;

impl Join<GroupView> for Both {
    ghost use Rattle.reuseport_group.specs.Views.{joined, nobody};

    ghost both = { joined };

    ghost spent = { nobody };
}
