//! The lists of all groups, in words that passes load and store.

ghost use Rattle.std.specs.Prelude.{◌≡◌, ◌≢◌, ℕ, ◌+◌, ◌*◌, ◌<◌, ◌≤◌, false, [], ◌∷◌, length, replicate, IfOk, IfSome, slice_index};
ghost use Rattle.list_words.specs.Lists.{Each, SameItems};
ghost use Rattle.jhash_words.specs.Places.{scale};
ghost use Rattle.reuseport_group.specs.Words.{most, at, latest, list_at, members_stored, NotBefore, Follows, AllOccur, HasMembers};
ghost use Rattle.reuseport_group.specs.Views.{all_parts, first, newcomer, cut, joined, looking, storing, publishing};
ghost use Rattle.reuseport_group.specs.Pick.{pick};
ghost use Rattle.reuseport_group.specs.Member.{AreMembers};
ghost use Rattle.reuseport_group.specs.Plays.{Known};
ghost use Rattle.reuseport_group.specs.Choosing.{Chose, IsOfPublished, present};
ghost use Rattle.reuseport_group.specs.Passes as words;
ghost use Rattle.reuseport_group.specs.Passes.{IsPassOf, IsSole, known};

use crate::choice::Choice;
use crate::pass::{GroupPasses, Groups, MOST};
use crate::rule::{Both, Cut, Keep, Load, Store, Told};
use atomic_table::Table;
use jhash_words::scale;
use std::alloc::{AllocError, Global};
use std::marker::Brand;

fn zeros(alloc: Global, count: usize) -> Result<Vec<u64>, AllocError>
    ensures { IfOk result (λ v. v.items ≡ replicate count 0) }
{
    Ok(vec![in alloc; 0u64; count]?)
}

/// The member at a place, or 0 past the last.
fn member_at(members: &[u64], place: usize) -> u64
    ensures { result ≡ slice_index members.now place }
{
    members.get(place).copied().unwrap_or(0)
}

impl Groups {
    /// So many groups without members, and their first passes.
    ///
    /// It takes 8 bytes for each of the 65 words of a group, and as many again until it returns. No
    /// other call takes memory.
    ///
    /// # Errors
    ///
    /// Memory ran out.
    pub fn new(alloc: Global, n: u32) -> Result<(Groups, GroupPasses), AllocError>
        ensures groups { IfOk result (λ t. words.groups t.0 ≡ n) }
        ensures passes { IfOk result (λ t. IsPassOf t.0 t.1 × (known t.1 ≡ first)) }
    {
        let words = zeros(alloc, (1 + MOST) * n as usize + 1)?;
        let (table, seat) = Table::of_words(alloc, words.as_slice(), &n)?;
        Ok((Groups { table, count: n }, GroupPasses { seat }))
    }

    /// How many groups there are.
    pub fn count(&self) -> u32
        ensures { result ≡ words.groups self.now }
    {
        self.count
    }

    /// Where word j of a group stands: 0 is its count, and its members follow.
    fn word(&self, group: u32, j: usize) -> usize
        requires { (group < words.groups self.now) × (j ≤ most) }
        ensures is { result ≡ at group j }
        ensures inside { result < (1 + most) * words.groups self.now }
    {
        (1 + MOST) * group as usize + j
    }

    /// What stands in word j of a group.
    fn load(&self, passes: &mut GroupPasses, group: u32, j: usize) -> u64
        requires table { passes.old.seat.table_id ≡ self.now.table.shared.table_id }
        requires word { (group < words.groups self.now) × (j ≤ most) }
        ensures table { passes.new.seat.table_id ≡ passes.old.seat.table_id }
        ensures view { known passes.new ≡ looking (known passes.old) (words.now passes.new) }
        ensures value { result ≡ latest group j (words.now passes.new) }
        ensures known { Known (known passes.old) (words.now passes.new) }
    {
        let word = self.word(group, j);
        self.table.shared.load::<Load>(&mut passes.seat, word)
    }

    // The type of a store, `Store<T>`, says of which list the store is. The two halves of `publish` make that type
    // from their arguments, by a `Brand`.

    /// Stores the member at a place, or the zero there, where it doesn't stand there already.
    fn store_member_as<T: Told>(
        &self,
        passes: &mut GroupPasses,
        group: u32,
        members: &[u64],
        place: usize,
    )
        requires told { (group ≡ T.group) × (members.now ≡ T.members) }
        requires table { passes.old.seat.table_id ≡ self.now.table.shared.table_id }
        requires part { 0 < words.parts passes.old }
        requires group { group < words.groups self.now }
        requires few { length members.now ≤ most }
        requires place { place < most }
        ensures table { passes.new.seat.table_id ≡ passes.old.seat.table_id }
        ensures view { known passes.new ≡ storing (known passes.old) (words.moments passes.new)
            (record { group = group; at = 1 + place; members = members.now } ∷ []) }
        ensures later { Follows (words.moments passes.new) (words.moments passes.old) }
    {
        let member = member_at(members, place);
        let word = self.word(group, 1 + place);
        if self.table.shared.load::<Keep<T>>(&mut passes.seat, word) != member {
            self.table
                .shared
                .store::<Store<T>>(&mut passes.seat, word, member);
        }
    }

    fn store_members_as<T: Told>(&self, passes: &mut GroupPasses, group: u32, members: &[u64])
        requires told { (group ≡ T.group) × (members.now ≡ T.members) }
        requires table { passes.old.seat.table_id ≡ self.now.table.shared.table_id }
        requires part { 0 < words.parts passes.old }
        requires group { group < words.groups self.now }
        requires few { length members.now ≤ most }
        ensures table { passes.new.seat.table_id ≡ passes.old.seat.table_id }
        ensures view { known passes.new
            ≡ storing (known passes.old) (words.moments passes.new) (members_stored group members.now most) }
        ensures later { Follows (words.moments passes.new) (words.moments passes.old) }
    {
        for i in 0..MOST {
            self.store_member_as::<T>(passes, group, members, i);
        }
    }

    fn store_count_as<T: Told>(&self, passes: &mut GroupPasses, group: u32, members: &[u64])
        requires told { (group ≡ T.group) × (members.now ≡ T.members) }
        requires table { passes.old.seat.table_id ≡ self.now.table.shared.table_id }
        requires part { 0 < words.parts passes.old }
        requires group { group < words.groups self.now }
        requires few { length members.now ≤ most }
        requires members { HasMembers group members.now (words.stored passes.old) }
        ensures table { passes.new.seat.table_id ≡ passes.old.seat.table_id }
        ensures view { known passes.new
            ≡ storing (known passes.old) (words.now passes.new ∷ [])
            (record { group = group; at = 0; members = members.now } ∷ []) }
        ensures later { Each (NotBefore (words.now passes.new)) (words.moments passes.old) }
        ensures own { AllOccur (words.stored passes.new) (words.now passes.new) }
        ensures stands { list_at group (words.now passes.new) ≡ members.now }
    {
        let word = self.word(group, 0);
        self.table
            .shared
            .store::<Store<T>>(&mut passes.seat, word, members.len() as u64);
    }

    /// Stores the members of a list, and zeros after them.
    pub(crate) fn store_members(&self, passes: &mut GroupPasses, group: u32, members: &[u64])
        requires table { passes.old.seat.table_id ≡ self.now.table.shared.table_id }
        requires part { 0 < words.parts passes.old }
        requires group { group < words.groups self.now }
        requires few { length members.now ≤ most }
        ensures table { passes.new.seat.table_id ≡ passes.old.seat.table_id }
        ensures view { known passes.new
            ≡ storing (known passes.old) (words.moments passes.new) (members_stored group members.now most) }
        ensures later { Follows (words.moments passes.new) (words.moments passes.old) }
        ensures members { HasMembers group members.now (words.stored passes.new) }
        ensures apart { (known passes.old).sole ≡ false → IsPassOf self.now passes.new }
    {
        self.store_members_as::<Brand>(passes, group, members);
    }

    /// Stores the count of a list.
    pub(crate) fn store_count(&self, passes: &mut GroupPasses, group: u32, members: &[u64])
        requires table { passes.old.seat.table_id ≡ self.now.table.shared.table_id }
        requires part { 0 < words.parts passes.old }
        requires group { group < words.groups self.now }
        requires few { length members.now ≤ most }
        requires members { HasMembers group members.now (words.stored passes.old) }
        ensures table { passes.new.seat.table_id ≡ passes.old.seat.table_id }
        ensures view { known passes.new
            ≡ storing (known passes.old) (words.now passes.new ∷ [])
            (record { group = group; at = 0; members = members.now } ∷ []) }
        ensures later { Each (NotBefore (words.now passes.new)) (words.moments passes.old) }
        ensures own { AllOccur (words.stored passes.new) (words.now passes.new) }
        ensures stands { list_at group (words.now passes.new) ≡ members.now }
        ensures apart { (known passes.old).sole ≡ false → IsPassOf self.now passes.new }
    {
        self.store_count_as::<Brand>(passes, group, members);
    }

    /// Stores a list in a group: its members, zeros after them up to the 64th, and last its count.
    ///
    /// Each word is stored by itself, so other passes see a list come word by word. A member, or a zero,
    /// that stands there already is loaded, and that counts as its store: a short list costs 64 loads
    /// and a few stores. Until the count is stored, a choice may be by the old count and of a new member. Two passes that
    /// publish one group at once leave words of both lists there; who calls sees to it that they don't,
    /// as Linux does by `reuseport_lock` of `net/core/sock_reuseport.c`. It takes no memory and waits
    /// for nothing.
    ///
    /// A member of 0 is stored like any other, and is never chosen.
    pub fn publish(&self, passes: &mut GroupPasses, group: u32, members: &[u64])
        requires table { IsPassOf self.now passes.old }
        requires group { group < words.groups self.now }
        requires few { length members.now ≤ most }
        ensures table { IsPassOf self.now passes.new }
        ensures view { known passes.new ≡ publishing (known passes.old) (words.now passes.new) group members.now }

        // The count was stored no earlier than what these passes loaded and stored, and the list stood then.
        ensures later { Each (NotBefore (words.now passes.new)) (words.moments passes.old) }
        ensures own { AllOccur (words.stored passes.new) (words.now passes.new) }
        ensures stands { list_at group (words.now passes.new) ≡ members.now }

        ensures list { words.published passes.new group ≡ members.now }
        ensures others { (other : ℕ) → other ≢ group
            → words.published passes.new other ≡ words.published passes.old other }
    {
        self.store_members(passes, group, members);
        self.store_count(passes, group, members);
    }

    /// The member of a group that a hash chooses: it stands at the place to which the hash is scaled by
    /// the count.
    ///
    /// The count is loaded first and then the member, each in one atomic step. None comes exactly where
    /// one of the two is 0: the group is empty, or a list that was published since, or is being
    /// published, has no member at that place. A list may be torn: the member is of the list whose count
    /// was loaded, or of one that was stored at that place later, and never of an older one. It takes no
    /// memory and waits for nothing.
    pub fn choose(&self, passes: &mut GroupPasses, group: u32, hash: u32) -> Option<Choice>
        requires table { IsPassOf self.now passes.old }
        requires group { group < words.groups self.now }
        ensures table { IsPassOf self.now passes.new }
        ensures view { known passes.new ≡ looking (known passes.old) (words.now passes.new) }

        // Which two words were loaded, when, and what they come to.
        ensures loads { Chose passes.old passes.new group hash result }
        ensures place { IfSome result (λ c. (c.place ≡ scale hash c.count) × (c.place < c.count)) }
        ensures count { IfSome result (λ c. c.count ≤ most) }
        ensures member { IfSome result (λ c. 0 < c.member) }
        ensures published { IfSome result (IsOfPublished group (words.now passes.new)) }

        // Of passes that were never split it is the plain choice of the list that they published last.
        ensures sole { IsSole passes.old → result ≡ present (pick (words.published passes.old group) hash) }
        ensures pick { IsSole passes.old → AreMembers (words.published passes.old group)
            → result ≡ pick (words.published passes.old group) hash }

        // What passes with all parts stored is all that was stored.
        ensures whole { words.parts passes.old ≡ all_parts
            → SameItems (words.now passes.new) (words.stored passes.old) }
    {
        let count = self.load(passes, group, 0);
        if count == 0 {
            return None;
        }
        let count = count as u32;
        let place = scale(hash, count);
        let member = self.load(passes, group, 1 + place as usize);
        if member == 0 {
            return None;
        }
        Some(Choice {
            member,
            place,
            count,
        })
    }
}

impl GroupPasses {
    /// Splits off passes for another thread, which know what these have seen. It loads one word, takes
    /// no memory and waits for nothing.
    ///
    /// Those that are split off have one part, and so aren't split themselves. The first passes have
    /// 16,384, and can split off 16,383 others.
    pub fn split(&mut self, groups: &Groups) -> GroupPasses
        requires table { IsPassOf groups.now self.old }
        requires more { 1 < words.parts self.old }
        ensures table { IsPassOf groups.now self.new × IsPassOf groups.now result }
        ensures old { known self.new ≡ cut (known self.old) }
        ensures new { known result ≡ newcomer (words.moments self.old) }
    {
        GroupPasses {
            seat: groups.table.shared.split_seat::<Cut>(&mut self.seat),
        }
    }

    /// Joins other passes: these then know what either have seen, and have stored what either stored. It
    /// loads one word, takes no memory and waits for nothing.
    pub fn join(&mut self, groups: &Groups, other: GroupPasses)
        requires table { IsPassOf groups.now self.old × IsPassOf groups.now other }
        ensures table { IsPassOf groups.now self.new }
        ensures view { known self.new ≡ joined (known self.old) (known other) }
    {
        let GroupPasses { seat } = other;
        groups.table.shared.join_seat::<Both>(&mut self.seat, seat);
    }
}
