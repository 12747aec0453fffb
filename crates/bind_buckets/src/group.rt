//! The members of one group of listeners.

ghost use Rattle.std.specs.Prelude.{◌≡◌, ◌≤◌, ◌<◌, [], length, position, nat_lt, true};
ghost use Rattle.sock_card.specs.Limits.{group_room};
ghost use Rattle.bind_buckets.specs.Members as spec;
ghost use Rattle.bind_buckets.specs.OwnerStep as step_spec;

use arrayvec::ArrayVec;
use sock_card::GROUP_ROOM;
use std::marker::Model;

/// The members of a group, at most [`GROUP_ROOM`]: of each the slot of its card in the upper half of the
/// number, and its name in the lower.
#[derive(Drop)]
pub struct Group {
    members: ArrayVec<u128, GROUP_ROOM>,
}

impl Model for Group {
    ghost use Rattle.std.specs.Prelude.{ℕ, ◌≤◌, List, length};
    ghost use Rattle.sock_card.specs.Limits.{group_room};

    ghost Value = { List ℕ };

    ghost view = { λ g. g.members.items };

    ghost invariant = { λ g. length g.members.items ≤ group_room };
}

fn is_named(name: u64, member: u128) -> bool
    ensures { result ≡ spec.is_named name member }
{
    member % 0x1_0000_0000_0000_0000 == u128::from(name)
}

fn place_of(name: u64, members: &[u128]) -> Option<usize>
    ensures { result ≡ position (spec.is_named name) members.now }
{
    members.iter().position(|member| is_named(name, *member))
}

impl Group {
    pub fn new() -> Self
        ensures { result ≡ [] }
    {
        Group {
            members: ArrayVec::new(),
        }
    }

    pub fn members(&self) -> &[u128]
        ensures members { result.now ≡ self.now }
        ensures most { length result.now ≤ group_room }
    {
        self.members.as_slice()
    }

    pub fn is_free(&self) -> bool
        ensures { result ≡ step_spec.is_free self.now }
    {
        self.members.is_empty()
    }

    pub fn has_room(&self) -> bool
        ensures { result ≡ nat_lt (length self.now) group_room }
    {
        self.members.len() < GROUP_ROOM
    }

    pub fn has_member(&self, name: u64) -> bool
        ensures { result ≡ spec.has_member name self.now }
    {
        self.members
            .as_slice()
            .iter()
            .any(|member| is_named(name, *member))
    }

    /// Appends a member.
    pub fn join(&mut self, slot: u32, name: u64)
        requires { length self.old < group_room }
        ensures { self.new ≡ spec.joined_by (spec.member slot name) self.old }
    {
        self.members.push(u128::from(slot) * 0x1_0000_0000_0000_0000 + u128::from(name));
    }

    /// Takes out the member of that name, in whose place the last one stands then.
    pub fn leave(&mut self, name: u64)
        requires { spec.has_member name self.old ≡ true }
        ensures { self.new ≡ spec.without_member name self.old }
    {
        if let Some(place) = place_of(name, self.members.as_slice()) {
            self.members.swap_remove(place);
        }
    }
}
