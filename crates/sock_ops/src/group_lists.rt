//! The lists of groups of listeners, which are published under the turn of a group's bucket.

ghost use Rattle.std.specs.Prelude.{◌≡◌, ◌≢◌, ℕ, ◌/◌, ◌^◌, ◌<◌, ◌≤◌, Option, length, map};
ghost use Rattle.bind_buckets.specs.Bucket.{IsSound, answer_to};
ghost use Rattle.bind_buckets.specs.Members.{has_member};
ghost use Rattle.bind_buckets.specs.Callers.{MayName};
ghost use Rattle.bind_buckets.specs.Turned.{Asks, IsOut};
ghost use Rattle.turn_table.specs.Passes as words;
ghost use Rattle.bind_buckets.specs.declared.request.Request.TheVariants as requests;
ghost use Rattle.bind_buckets.specs.declared.request.Answer.TheVariants as answers;
ghost use Rattle.reuseport_group.specs.Passes as lists;
ghost use Rattle.reuseport_group.specs.Passes.{IsPassOf, published};
ghost use Rattle.reuseport_group.specs.Views.{publishing};
ghost use Rattle.sock_ops.specs.Groups.{Follows, IsGroupOf, members_in, words_in};
ghost use Rattle.sock_ops.specs.Groups as spec;
ghost use Rattle.sock_card.specs.Limits.{group_room};
ghost use Rattle.sock_ops.specs.Stands.{HasGroups, IsThere};

use crate::asking;
use crate::tables::Tables;
use arrayvec::ArrayVec;
use bind_buckets::{Bucket, turning};
use reuseport_group::{GroupPasses, Groups, member_of};
use sock_card::{GROUP_ROOM, Owner};
use turn_table::{Turn, TurnPass};

/// What lookers are shown of a member.
fn shown(member: u128) -> u64
    ensures { result ≡ spec.shown member }
{
    let slot = (member >> 64) as u64 % 0xffff_ffff;
    member_of(slot as u32, (member % 0x1_0000_0000) as u32)
}

/// What they are shown of these members.
fn shown_of(members: &[u128]) -> ArrayVec<u64, GROUP_ROOM>
    requires { length members.now ≤ group_room }
    ensures { result.items ≡ map spec.shown members.now }
{
    let mut words = ArrayVec::new();
    for member in members {
        words.push(shown(*member));
    }
    words
}

/// Publishes the list of a group of a bucket that is out, as the bucket stands.
pub(crate) fn publish(
    groups: &Groups,
    passes: &mut GroupPasses,
    turn: &Turn<Box<Bucket>>,
    group: u32,
)
    requires passes { IsPassOf groups.now passes.old }
    requires group { group < lists.groups groups.now }
    requires own { group / 8 ≡ turn.now.value.value.number }
    ensures passes { IsPassOf groups.now passes.new }
    ensures list { lists.known passes.new ≡ publishing (lists.known passes.old) (lists.now passes.new) group
        (words_in turn.now.value.value.held group) }
    ensures listed { published passes.new group ≡ words_in turn.now.value.value.held group }
    ensures kept { (other : ℕ) → other ≢ group → published passes.new other ≡ published passes.old other }
{
    turn.value.recall();
    let words = shown_of(turning::members(turn, group));
    groups.publish(passes, group, words.as_slice());
}

/// Whether the group has a member of that name.
fn has_name(turn: &Turn<Box<Bucket>>, group: u32, name: u64) -> bool
    requires { group / 8 ≡ turn.now.value.value.number }
    ensures { result ≡ has_member name (members_in turn.now.value.value.held group) }
{
    turning::members(turn, group).iter().any(|member| *member % 0x1_0000_0000_0000_0000
        == u128::from(name))
}

/// The group in which a bucket that is out has a member of that name: the first, if there is one.
fn group_of(turn: &Turn<Box<Bucket>>, name: u64) -> Option<u32>
    requires { turn.now.place ≡ turn.now.value.value.number }
    ensures { IsGroupOf turn.now.place turn.now.value.value.held name result }
{
    turn.value.recall();
    let first = 8 * turn.place as u32;
    for place in 0..8 {
        if has_name(turn, first + place, name) {
            return Some(first + place);
        }
    }
    None
}

/// An owner of the bucket that is out listens, with a card in that slot, in the group in which the bucket says that
/// it may. The group's list, if there is one, is published as the bucket has it then.
pub(crate) fn join(
    tables: &Tables,
    pass: &mut TurnPass<Box<Bucket>>,
    passes: &mut GroupPasses,
    turn: &mut Turn<Box<Bucket>>,
    owner: &Owner,
    slot: u32,
    group: Option<u32>,
)
    requires out { IsOut tables.now.buckets pass.old turn.old }
    requires few { words.draws pass.old < 2 ^ 48 }
    requires may { MayName (words.caller pass.old) owner.now.name }
    requires there { IsThere turn.old owner.now }
    requires says { answer_to turn.old.value.value (requests.MayListen owner.now.name) ≡ answers.Group group }
    requires entry { 1 ≤ turn.old.value.value.entries }
    requires groups { HasGroups tables.now passes.old }
    ensures asks { Asks tables.now.buckets pass.old turn.old pass.new turn.new
        (requests.Listen owner.now.name slot) answers.Done }
    ensures sound { IsSound turn.old.value.value × IsSound turn.new.value.value }
    ensures groups { HasGroups tables.now passes.new }
    ensures lists { Follows turn.old.place group turn.old.value.value.held turn.new.value.value.held
        passes.old passes.new }
{
    turn.value.recall();
    turning::listen(&tables.buckets, pass, turn, owner.name, slot);
    turn.value.recall();
    match group {
        Some(group) => publish(&tables.groups, passes, turn, group),
        None => {}
    }
}

/// An owner leaves the bucket that is out, which has it. The list of the group in which it was a member, if in any, is
/// published as the bucket has it then.
pub(crate) fn leave(
    tables: &Tables,
    pass: &mut TurnPass<Box<Bucket>>,
    passes: &mut GroupPasses,
    turn: &mut Turn<Box<Bucket>>,
    owner: &Owner,
)
    requires out { IsOut tables.now.buckets pass.old turn.old }
    requires few { words.draws pass.old < 2 ^ 48 }
    requires may { MayName (words.caller pass.old) owner.now.name }
    requires there { IsThere turn.old owner.now }
    requires groups { HasGroups tables.now passes.old }
    ensures asks { Asks tables.now.buckets pass.old turn.old pass.new turn.new
        (requests.Remove owner.now.name) answers.Done }
    ensures entries { turn.new.value.value.entries ≡ turn.old.value.value.entries }
    ensures sound { IsSound turn.old.value.value × IsSound turn.new.value.value }
    ensures groups { HasGroups tables.now passes.new }
    ensures lists { (group : Option ℕ) × Follows turn.old.place group turn.old.value.value.held
        turn.new.value.value.held passes.old passes.new }
{
    turn.value.recall();
    let group = group_of(turn, owner.name);
    asking::remove(&tables.buckets, pass, turn, owner);
    turn.value.recall();
    match group {
        Some(group) => publish(&tables.groups, passes, turn, group),
        None => {}
    }
}
