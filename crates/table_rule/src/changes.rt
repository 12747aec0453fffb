//! The changes that a pass closed: each of them, or how many they are.

ghost use Rattle.std.specs.Prelude.{◌≡◌, ◌+◌, ◌-◌, ◌≤◌, ◌<◌, List, [], ◌∷◌, ◌++◌, length, true, false, OnOk, OnErr, vec_len, vec_capacity};
ghost use Rattle.table_rule.specs.Closes.{change_of};
ghost use Rattle.table_rule.specs.Changes.{are_kept, len_of, capacity_of, list_of, Tells};
ghost use Rattle.table_rule.specs.declared.view.Change.{Change as Closed};

use chain_book::Change;
use std::alloc::{AllocError, Global};

/// The changes that a pass closed, and those of the passes that it joined.
///
/// A pass whose changes nobody reads again counts them, and keeps none: what it closed stands in proofs all the same.
#[derive(Drop)]
pub enum Changes {
    /// All of them, oldest first.
    Kept(Vec<Change>),
    /// So many, of which none is kept.
    Counted(usize),
}

impl Changes {
    /// None so far, each to be kept.
    pub fn new(alloc: Global) -> Changes
        ensures kept { are_kept result ≡ true }
        ensures none { Tells result [] }
    {
        Changes::Kept(Vec::new(alloc))
    }

    /// None so far, to be kept where these are.
    pub fn none_yet(&self, alloc: Global) -> Changes
        ensures kept { are_kept result ≡ are_kept self.now }
        ensures none { Tells result [] }
    {
        match self {
            Changes::Kept(_) => Changes::Kept(Vec::new(alloc)),
            Changes::Counted(_) => Changes::Counted(0),
        }
    }

    /// From now on they are counted, and those that were kept so far are let go.
    pub fn count_only(&mut self)
        ensures kept { are_kept self.new ≡ false }
        ensures same { (closed : List Closed) → Tells self.old closed → Tells self.new closed }
    {
        *self = Changes::Counted(self.len());
    }

    /// How many they are.
    pub fn len(&self) -> usize
        ensures { result ≡ len_of self.now }
    {
        match self {
            Changes::Kept(list) => list.len(),
            Changes::Counted(count) => *count,
        }
    }

    /// Those that are kept: all, or none.
    pub fn as_slice(&self) -> &[Change]
        ensures { result.now ≡ list_of self.now }
    {
        match self {
            Changes::Kept(list) => list.as_slice(),
            Changes::Counted(_) => &[],
        }
    }

    /// Those that are kept: all, or none.
    pub fn into_list(self, alloc: Global) -> Vec<Change>
        ensures { result.items ≡ list_of self }
    {
        match self {
            Changes::Kept(list) => list,
            Changes::Counted(_) => Vec::new(alloc),
        }
    }

    /// How many more there can be without growth.
    pub fn room(&self) -> usize
        ensures { result ≡ capacity_of self.now - len_of self.now }
    {
        match self {
            Changes::Kept(list) => list.capacity() - list.len(),
            Changes::Counted(count) => usize::MAX - *count,
        }
    }

    /// Makes room for so many more. Where memory is wanting that room was not there, and nothing has changed.
    pub fn reserve(&mut self, count: usize) -> Result<(), AllocError>
        ensures same { (closed : List Closed) → Tells self.old closed → Tells self.new closed }
        ensures kept { are_kept self.new ≡ are_kept self.old }
        ensures list { list_of self.new ≡ list_of self.old }
        ensures len { len_of self.new ≡ len_of self.old }
        ensures room { OnOk result (len_of self.old + count ≤ capacity_of self.new) }
        ensures more { capacity_of self.old ≤ capacity_of self.new }
        ensures full { OnErr result (capacity_of self.old < len_of self.old + count) }
    {
        match self {
            Changes::Kept(list) => list.reserve(count),
            Changes::Counted(so_many) => match so_many.checked_add(count) {
                Some(_) => Ok(()),
                None => Err(AllocError),
            },
        }
    }

    /// One change more, into room that there is.
    pub fn push_reserved(&mut self, change: Change)
        requires room { len_of self.old < capacity_of self.old }
        ensures more { (closed : List Closed) → Tells self.old closed
            → Tells self.new (closed ++ change_of change ∷ []) }
        ensures kept { are_kept self.new ≡ are_kept self.old }
        ensures len { len_of self.new ≡ len_of self.old + 1 }
        ensures room { capacity_of self.new ≡ capacity_of self.old }
    {
        match self {
            Changes::Kept(list) => list.push_reserved(change),
            Changes::Counted(count) => *count += 1,
        }
    }

    /// These and behind them the others, into room that there is.
    pub fn append(&mut self, others: Changes)
        requires alike { are_kept others ≡ are_kept self.old }
        requires room { len_of self.old + len_of others ≤ capacity_of self.old }
        ensures both { (closed more : List Closed) → Tells self.old closed → Tells others more
            → Tells self.new (closed ++ more) }
        ensures kept { are_kept self.new ≡ are_kept self.old }
        ensures len { len_of self.new ≡ len_of self.old + len_of others }
        ensures room { capacity_of self.new ≡ capacity_of self.old }
    {
        match self {
            Changes::Kept(list) => append_reserved(list, others.as_slice()),
            Changes::Counted(count) => *count += others.len(),
        }
    }
}

fn append_reserved(all: &mut Vec<Change>, more: &[Change])
    requires { vec_len all.old + length more.now ≤ vec_capacity all.old }
    ensures items { all.new.items ≡ all.old.items ++ more.now }
    ensures len { vec_len all.new ≡ vec_len all.old + length more.now }
    ensures room { vec_capacity all.new ≡ vec_capacity all.old }
{
    for change in more {
        all.push_reserved(*change);
    }
}
