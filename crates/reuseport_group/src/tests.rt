//! Choices by known hashes, and of lists that passes published.

ghost use Rattle.std.specs.Prelude.{◌≡◌, ◌<◌, ◌≤◌, length};
ghost use Rattle.reuseport_group.specs.Member.{AreMembers};
ghost use Rattle.reuseport_group.specs.Words.{most};
ghost use Rattle.reuseport_group.specs.Pick.{pick as picked};
ghost use Rattle.reuseport_group.specs.Passes as words;
ghost use Rattle.reuseport_group.specs.Passes.{IsPassOf, IsSole};

use crate::choice::{Choice, member_of, name_of, pick, slot_of};
use crate::pass::{GroupPasses, Groups, MOST};
use std::process::Abort;
use std::test::Fail;
use std::thread::{Threads, join};

/// Hashes that are scaled to the first, the middle and the last of three places.
const LOW: u32 = 0x0CFF_64B4;

const MIDDLE: u32 = 0x5555_5556;

const HIGH: u32 = 0xFFFF_FFFF;

/// The lists that one thread publishes while another chooses.
const LISTS: [&[u64]; 3] = [&[21, 22, 23], &[31], &[41, 42]];

fn chosen(member: u64, place: u32, count: u32) -> Option<Choice> {
    Some(Choice {
        member,
        place,
        count,
    })
}

fn check_pick(rt: &impl Abort, members: &[u64], hash: u32, expected: Option<Choice>)
    requires { length members.now ≤ most }
{
    assert_eq!(rt; pick(members, hash), expected, "of {hash}");
}

fn check_choice(
    rt: &impl Abort,
    groups: &Groups,
    passes: &mut GroupPasses,
    group: u32,
    hash: u32,
    expected: Option<Choice>,
)
    requires { IsPassOf groups.now passes.old × (group < words.groups groups.now) }
    ensures { IsPassOf groups.now passes.new }
{
    assert_eq!(rt;
        groups.choose(passes, group, hash),
        expected,
        "of {group} by {hash}"
    );
}

fn check_member(rt: &impl Abort, member: u64, slot: u32, name: u32) {
    assert_eq!(rt; (slot_of(member), name_of(member)), (slot, name));
}

#[test]
fn a_hash_chooses_its_part(rt: HostRuntime) -> Result<(), Fail> {
    let group = [
        member_of(5, 0x0100_0001),
        member_of(6, 0x0100_0002),
        member_of(7, 0x0100_0003),
    ];
    check_pick(&rt, &group, 0x0CFF_64B4, chosen(group[0], 0, 3));
    check_pick(&rt, &group, 0xE1DC_2E8E, chosen(group[2], 2, 3));
    check_pick(&rt, &group, 0xFC3A_01B5, chosen(group[2], 2, 3));
    check_pick(&rt, &[], 7, None);
    check_member(&rt, group[2], 7, 0x0100_0003);
    Ok(())
}

#[test]
fn one_pass_chooses_of_the_last_list(rt: HostRuntime) -> Result<(), Fail> {
    let (groups, mut passes) = Groups::new(rt.alloc(), 2)?;
    assert_eq!(rt; groups.count(), 2);
    check_choice(&rt, &groups, &mut passes, 0, LOW, None);
    groups.publish(&mut passes, 1, &[11, 12, 13]);
    check_choice(&rt, &groups, &mut passes, 1, LOW, chosen(11, 0, 3));
    check_choice(&rt, &groups, &mut passes, 1, MIDDLE, chosen(12, 1, 3));
    check_choice(&rt, &groups, &mut passes, 1, HIGH, chosen(13, 2, 3));
    check_choice(&rt, &groups, &mut passes, 0, HIGH, None);
    // The last takes the place of the first that leaves.
    groups.publish(&mut passes, 1, &[13, 12]);
    check_choice(&rt, &groups, &mut passes, 1, LOW, chosen(13, 0, 2));
    check_choice(&rt, &groups, &mut passes, 1, HIGH, chosen(12, 1, 2));
    groups.publish(&mut passes, 1, &[]);
    check_choice(&rt, &groups, &mut passes, 1, HIGH, None);
    Ok(())
}

#[test]
fn a_full_list_has_its_last_member(rt: HostRuntime) -> Result<(), Fail> {
    let (groups, mut passes) = Groups::new(rt.alloc(), 2)?;
    groups.publish(&mut passes, 1, &[8; MOST]);
    groups.publish(&mut passes, 0, &[7; MOST]);
    check_choice(&rt, &groups, &mut passes, 0, HIGH, chosen(7, 63, 64));
    check_choice(&rt, &groups, &mut passes, 1, LOW, chosen(8, 3, 64));
    Ok(())
}

#[test]
fn two_passes_see_what_either_published(rt: HostRuntime) -> Result<(), Fail> {
    let (groups, mut first) = Groups::new(rt.alloc(), 1)?;
    let mut second = first.split(&groups);
    groups.publish(&mut first, 0, &[21, 22, 23]);
    check_choice(&rt, &groups, &mut second, 0, MIDDLE, chosen(22, 1, 3));
    groups.publish(&mut second, 0, &[31]);
    check_choice(&rt, &groups, &mut first, 0, HIGH, chosen(31, 0, 1));
    first.join(&groups, second);
    check_choice(&rt, &groups, &mut first, 0, LOW, chosen(31, 0, 1));
    Ok(())
}

#[test]
fn a_reader_may_come_before_the_count(rt: HostRuntime) -> Result<(), Fail> {
    let (groups, mut first) = Groups::new(rt.alloc(), 1)?;
    let mut second = first.split(&groups);
    groups.publish(&mut first, 0, &[21, 22, 23]);
    groups.store_members(&mut first, 0, &[31]);
    check_choice(&rt, &groups, &mut second, 0, LOW, chosen(31, 0, 3));
    check_choice(&rt, &groups, &mut second, 0, MIDDLE, None);
    check_choice(&rt, &groups, &mut second, 0, HIGH, None);
    groups.store_count(&mut first, 0, &[31]);
    check_choice(&rt, &groups, &mut second, 0, HIGH, chosen(31, 0, 1));
    Ok(())
}

#[test]
fn two_lists_at_once_leave_words_of_both(rt: HostRuntime) -> Result<(), Fail> {
    let (groups, mut first) = Groups::new(rt.alloc(), 1)?;
    let mut second = first.split(&groups);
    let mut third = first.split(&groups);
    groups.store_members(&mut first, 0, &[21, 22, 23]);
    groups.store_members(&mut second, 0, &[31, 32]);
    groups.store_count(&mut first, 0, &[21, 22, 23]);
    // The count is of the first list, and the members are of the second.
    check_choice(&rt, &groups, &mut third, 0, MIDDLE, chosen(32, 1, 3));
    check_choice(&rt, &groups, &mut third, 0, HIGH, None);
    groups.store_count(&mut second, 0, &[31, 32]);
    check_choice(&rt, &groups, &mut third, 0, HIGH, chosen(32, 1, 2));
    Ok(())
}

/// A caller with the only passes there are: of what it published last it chooses, whatever it published
/// to other groups since.
fn choose_after(
    groups: &Groups,
    passes: &mut GroupPasses,
    members: &[u64],
    others: &[u64],
    hash: u32,
) -> Option<Choice>
    requires table { IsPassOf groups.now passes.old × (2 ≤ words.groups groups.now) }
    requires sole { IsSole passes.old }
    requires few { (length members.now ≤ most) × (length others.now ≤ most) }
    requires some { AreMembers members.now }
    ensures table { IsPassOf groups.now passes.new × IsSole passes.new }
    ensures choice { result ≡ picked members.now hash }
{
    groups.publish(passes, 1, members);
    groups.publish(passes, 0, others);
    groups.choose(passes, 1, hash)
}

#[test]
fn a_caller_knows_its_own_list(rt: HostRuntime) -> Result<(), Fail> {
    let (groups, mut passes) = Groups::new(rt.alloc(), 2)?;
    let choice = choose_after(&groups, &mut passes, &[11, 12, 13], &[9], HIGH);
    assert_eq!(rt; choice, chosen(13, 2, 3));
    Ok(())
}

/// Publishes each of the lists in turn.
fn publish_often(groups: &Groups, passes: GroupPasses) -> GroupPasses
    requires { IsPassOf groups.now passes × (1 ≤ words.groups groups.now) }
    ensures { IsPassOf groups.now result }
{
    let mut passes = passes;
    for _ in 0..200 {
        groups.publish(&mut passes, 0, &[21, 22, 23]);
        groups.publish(&mut passes, 0, &[31]);
        groups.publish(&mut passes, 0, &[41, 42]);
    }
    passes
}

/// Whether some list has that member at that place, and some list that count.
fn is_published(choice: &Choice) -> bool {
    let member = LISTS.iter().any(|list| list.get(choice.place as usize) == Some(&choice.member));
    let count = LISTS.iter().any(|list| list.len() == choice.count as usize);
    member && count && choice.place < choice.count
}

/// Counts the choices that are of no list.
fn choose_often(groups: &Groups, passes: GroupPasses) -> (GroupPasses, u32)
    requires { IsPassOf groups.now passes × (1 ≤ words.groups groups.now) }
    ensures { IsPassOf groups.now result.0 }
{
    let mut passes = passes;
    let mut strange = 0u32;
    for i in 0..2000u32 {
        let hash = i * 2_147_483;
        if let Some(choice) = groups.choose(&mut passes, 0, hash)
            && !is_published(&choice)
        {
            strange = strange.saturating_add(1);
        }
    }
    (passes, strange)
}

fn both_often<R: Threads>(
    rt: &R,
    groups: &Groups,
    one: GroupPasses,
    two: GroupPasses,
) -> (GroupPasses, (GroupPasses, u32))
    requires { IsPassOf groups.now one × IsPassOf groups.now two × (1 ≤ words.groups groups.now) }
    ensures { IsPassOf groups.now result.0 × IsPassOf groups.now result.1.0 }
{
    join(
        rt,
        || -> GroupPasses
            requires { IsPassOf groups.now one × (1 ≤ words.groups groups.now) }
            ensures { IsPassOf groups.entry.now result }
        { publish_often(groups, one) },
        || -> (GroupPasses, u32)
            requires { IsPassOf groups.now two × (1 ≤ words.groups groups.now) }
            ensures { IsPassOf groups.entry.now result.0 }
        { choose_often(groups, two) },
    )
}

#[test]
fn each_choice_is_of_some_published_list(rt: HostRuntime) -> Result<(), Fail> {
    let (groups, mut first) = Groups::new(rt.alloc(), 1)?;
    let second = first.split(&groups);
    let (mut one, (two, strange)) = both_often(&rt, &groups, first, second);
    assert_eq!(rt; strange, 0);
    one.join(&groups, two);
    check_choice(&rt, &groups, &mut one, 0, HIGH, chosen(42, 1, 2));
    Ok(())
}
