//! Worked rows of the rules, by the calls on shared chains alone: one pass changes them, and another looks up.

ghost use Rattle.std.specs.Prelude.{◌≡◌, ◌+◌, ◌<◌, ◌≤◌, ◌^◌, ℕ, length, IfSome};
ghost use Rattle.chain_book.specs.Homes.{home};
ghost use Rattle.reuseport_group.specs.Passes as group_words;
ghost use Rattle.established.specs.Homes.{IsLaidOut};
ghost use Rattle.sock_card.specs.declared.card.Kind.TheVariants as kinds;
ghost use Rattle.table_rule.specs.Calls.{IsOf, view, layout_of};
ghost use Rattle.table_rule.specs.Words.{bucket_count};
ghost use Rattle.chain_tests.specs.Ready.{IsReady, CanLook, CanUnhash};

use crate::sockets::{close, shut};
use chain_book::{PacketAnswer, Replace, Shape, home};
use demux::{Lookups, look_packet};
use established::{InsertEnd, Newcomer, insert, remove_tw};
use listeners::add;
use null_reader::Still;
use nulls_chain::Place;
use patience::Waits;
use reuseport_group::{GroupPasses, Groups, member_of};
use sock_card::{Card, Kind, Packet};
use std::sync::Wait;
use std::test::Fail;
use table_rule::{Chains, Layout, Pass, Steps};

const SHAPE: Shape = Shape {
    slots: 8,
    bind: 1,
    hash: 2,
    listen: 2,
};

const SEED: u32 = 0x2152_4105;

/// The server's address.
const HERE: u32 = 0x0a00_0001;

/// Another of its addresses.
const ELSEWHERE: u32 = 0x0a00_0009;

/// The client's address.
const THERE: u32 = 0x0a00_0002;

/// A connection of the client's port to port 80 here.
fn connected(rport: u16, name: u64) -> Card
    ensures { result.kind ≡ kinds.Full }
{
    Card {
        local: HERE,
        lport: 80,
        remote: THERE,
        rport,
        dev: 0,
        net: 0,
        kind: Kind::Full,
        name,
        extra: 0,
        mark: 0,
    }
}

/// Its TIME_WAIT, since that moment.
fn waiting(rport: u16, name: u64, since: u32) -> Card
    ensures { result.kind ≡ kinds.TimeWait }
{
    Card {
        kind: Kind::TimeWait,
        extra: since,
        mark: 0,
        ..connected(rport, name)
    }
}

/// A listener at port 80 of an address, on a device or on none, in a group or in none.
fn listening(local: u32, dev: u16, name: u64, extra: u32) -> Card
    ensures { result.kind ≡ kinds.Listen }
{
    Card {
        local,
        lport: 80,
        remote: 0,
        rport: 0,
        dev,
        net: 0,
        kind: Kind::Listen,
        name,
        extra,
        mark: 0,
    }
}

/// A packet of the client's port.
fn packet(sport: u16, dst: u32, dport: u16, dev: u16) -> Packet {
    Packet {
        src: THERE,
        sport,
        dst,
        dport,
        dev,
        net: 0,
    }
}

/// What came of a socket that was to be hashed.
#[derive(Clone, Copy, Debug, PartialEq, Eq)]
enum Came {
    /// It came, and the TIME_WAIT of that name gave way, if one did.
    In(Option<u64>),
    /// The socket of that name has its four-tuple.
    Taken(u64),
    /// So many slots are owned, and so many held.
    Full(u32, u32),
}

/// A connected socket comes, and where to.
fn come<R: Wait>(
    rt: &R,
    chains: &Chains,
    pass: &mut Pass,
    bucket: u32,
    new: &Newcomer,
    rest: u32,
) -> (Came, Option<Place>)
    requires bucket { bucket < bucket_count (layout_of chains.now) }
    requires home { home (layout_of chains.now).shape (layout_of chains.now).seed new.now.card ≡ bucket }
    requires full { new.now.card.kind ≡ kinds.Full }
    requires ready { IsReady chains.now pass.old (rest + 2) }
    ensures ready { IsReady chains.now pass.new rest }
    ensures place { IfSome result.1 (λ place. CanUnhash chains.now pass.new place) }
    ensures others { (place : Place) → CanUnhash chains.now pass.old place → CanUnhash chains.now pass.new place }
{
    match insert(chains, &Waits::by(rt), pass, bucket, 0, new).unwrap() {
        Ok(inserted) => (Came::In(inserted.replaced), Some(inserted.place)),
        Err(InsertEnd::Taken(name)) => (Came::Taken(name), None),
        Err(InsertEnd::Full(full)) => (Came::Full(full.owned, full.held), None),
    }
}

/// A listener comes, if a slot is free.
fn open<R: Wait>(
    rt: &R,
    chains: &Chains,
    pass: &mut Pass,
    bucket: u32,
    card: &Card,
    rest: u32,
) -> Option<Place>
    requires bucket { bucket < bucket_count (layout_of chains.now) }
    requires home { home (layout_of chains.now).shape (layout_of chains.now).seed card.now ≡ bucket }
    requires listens { card.now.kind ≡ kinds.Listen }
    requires ready { IsReady chains.now pass.old (rest + 1) }
    ensures ready { IsReady chains.now pass.new rest }
    ensures place { IfSome result (λ place. CanUnhash chains.now pass.new place) }
    ensures others { (place : Place) → CanUnhash chains.now pass.old place → CanUnhash chains.now pass.new place }
{
    add(chains, &Waits::by(rt), pass, bucket, 0, card)
        .unwrap()
        .ok()
}

/// Looks packets up, and has the lists of groups.
#[derive(Drop)]
struct Looker<'a> {
    chains: &'a Chains,
    groups: &'a Groups,
    layout: Layout,
    steps: Steps,
    words: GroupPasses,
    ghost laid: { IsLaidOut layout chains.now },
    ghost table: { IsOf chains.now steps },
    ghost ready: { CanLook (view steps) },
    ghost listed: { group_words.IsPassOf groups.now words },
    ghost some: { 0 < group_words.groups groups.now },
}

impl<'a> Looker<'a> {
    /// The name of the socket that takes the packet.
    fn look(&mut self, packet: &Packet) -> Option<u64> {
        let tables = Lookups {
            chains: self.chains,
            groups: self.groups,
            layout: self.layout,
        };
        let look = look_packet(
            &tables,
            &mut self.steps,
            &mut self.words,
            packet,
            1,
            &mut Still,
        );
        match look.end {
            PacketAnswer::Found(card) => Some(card.name),
            _ => None,
        }
    }

    /// Publishes the first group's members.
    fn publish(&mut self, members: &[u64])
        requires { length members.now ≤ 64 }
    {
        self.groups.publish(&mut self.words, 0, members);
    }
}

/// What is left of a pass looks up, in tables of eight slots.
fn looker_of<'a>(
    chains: &'a Chains,
    groups: &'a Groups,
    pass: Pass,
    words: GroupPasses,
) -> Looker<'a>
    requires layout { layout_of chains.now
        ≡ record { shape = record { slots = 8; bind = 1; hash = 2; listen = 2 }; seed = 559038725 } }
    requires table { IsOf chains.now pass.steps }
    requires ready { CanLook (view pass.steps) }
    requires words { group_words.IsPassOf groups.now words × (0 < group_words.groups groups.now) }
{
    let Pass { steps, changes: _ } = pass;
    Looker {
        chains,
        groups,
        layout: Layout {
            shape: SHAPE,
            seed: SEED,
        },
        steps,
        words,
    }
}

/// A TIME_WAIT is over, and whether it was there.
fn reap<R: Wait>(
    rt: &R,
    chains: &Chains,
    pass: &mut Pass,
    bucket: u32,
    name: u64,
    rest: u32,
) -> bool
    requires bucket { bucket < bucket_count (layout_of chains.now) }
    requires ready { IsReady chains.now pass.old (rest + 1) }
    ensures ready { IsReady chains.now pass.new rest }
{
    remove_tw(chains, &Waits::by(rt), pass, bucket, name)
        .unwrap()
        .is_some()
}

/// What came of two newcomers, whom a packet found then, and whether a TIME_WAIT was left.
type Again = (Came, Came, Option<u64>, bool);

/// A socket closes at moment 0, and another one of its four-tuple would come at once, and one second later.
fn come_again<R: Wait>(
    rt: &R,
    chains: &Chains,
    pass: &mut Pass,
    looker: &mut Looker,
    replace: Replace,
) -> Option<Again>
    requires layout { layout_of chains.now
        ≡ record { shape = record { slots = 8; bind = 1; hash = 2; listen = 2 }; seed = 559038725 } }
    requires ready { IsReady chains.now pass.old 9 }
{
    let mut new = Newcomer {
        card: connected(5000, 1),
        moment: 0,
        replace,
    };
    let bucket = home(&SHAPE, SEED, &new.card);
    let (_, place) = come(rt, chains, pass, bucket, &new, 7);
    let place = place?;
    let wait = waiting(5000, 1, 0);
    if home(&SHAPE, SEED, &wait) != place.bucket {
        return None;
    }
    close(rt, chains, pass, place, &wait, 5);
    new.card = connected(5000, 2);
    let bucket = home(&SHAPE, SEED, &new.card);
    let (at_once, _) = come(rt, chains, pass, bucket, &new, 3);
    new.moment = 1;
    let (later, _) = come(rt, chains, pass, bucket, &new, 1);
    let found = looker.look(&packet(5000, HERE, 80, 0));
    let left = reap(rt, chains, pass, bucket, 1, 0);
    Some((at_once, later, found, left))
}

#[test]
fn a_time_wait_gives_way_as_the_newcomer_may(rt: HostRuntime) -> Result<(), Fail> {
    for (replace, expected) in [
        (
            Replace::After,
            (Came::Taken(1), Came::In(Some(1)), Some(2), false),
        ),
        (
            Replace::Never,
            (Came::Taken(1), Came::Taken(1), Some(1), true),
        ),
        (
            Replace::Always,
            (Came::In(Some(1)), Came::Taken(2), Some(2), false),
        ),
    ] {
        let (chains, mut pass) = Chains::new(rt.alloc(), SHAPE, SEED)?;
        let (groups, words) = Groups::new(rt.alloc(), 1)?;
        let mut changing = chains.split(rt.alloc(), &mut pass);
        changing.reserve(9)?;
        let mut looker = looker_of(&chains, &groups, pass, words);
        let answer = come_again(&rt, &chains, &mut changing, &mut looker, replace);
        assert_eq!(rt; answer, Some(expected));
    }
    Ok(())
}

/// Listeners of any address, of one, and of one on a device, and a connection; and whom packets find.
fn rank_all<R: Wait>(
    rt: &R,
    chains: &Chains,
    pass: &mut Pass,
    looker: &mut Looker,
) -> Option<[Option<u64>; 7]>
    requires layout { layout_of chains.now
        ≡ record { shape = record { slots = 8; bind = 1; hash = 2; listen = 2 }; seed = 559038725 } }
    requires ready { IsReady chains.now pass.old 6 }
{
    let any = listening(0, 0, 1, 0);
    open(rt, chains, pass, home(&SHAPE, SEED, &any), &any, 5)?;
    let exact = listening(HERE, 0, 2, 0);
    let place = open(rt, chains, pass, home(&SHAPE, SEED, &exact), &exact, 4)?;
    let near = listening(HERE, 3, 3, 0);
    open(rt, chains, pass, home(&SHAPE, SEED, &near), &near, 3)?;
    let new = Newcomer {
        card: connected(1000, 4),
        moment: 0,
        replace: Replace::Always,
    };
    come(rt, chains, pass, home(&SHAPE, SEED, &new.card), &new, 1);
    let child = looker.look(&packet(1000, HERE, 80, 0));
    let here = looker.look(&packet(1001, HERE, 80, 0));
    let device = looker.look(&packet(1001, HERE, 80, 3));
    let other_device = looker.look(&packet(1001, HERE, 80, 4));
    let elsewhere = looker.look(&packet(1001, ELSEWHERE, 80, 0));
    let other_port = looker.look(&packet(1001, ELSEWHERE, 81, 0));
    shut(rt, chains, pass, place, 0);
    let after = looker.look(&packet(1001, HERE, 80, 4));
    Some([
        child,
        here,
        device,
        other_device,
        elsewhere,
        other_port,
        after,
    ])
}

#[test]
fn the_better_listener_is_found(rt: HostRuntime) -> Result<(), Fail> {
    let (chains, mut pass) = Chains::new(rt.alloc(), SHAPE, SEED)?;
    let (groups, words) = Groups::new(rt.alloc(), 1)?;
    let mut changing = chains.split(rt.alloc(), &mut pass);
    changing.reserve(6)?;
    let mut looker = looker_of(&chains, &groups, pass, words);
    let answer = rank_all(&rt, &chains, &mut changing, &mut looker);
    let expected = [Some(4), Some(2), Some(3), Some(2), Some(1), None, Some(1)];
    assert_eq!(rt; answer, Some(expected));
    Ok(())
}

/// The member of that name, where the slot is one of the table's.
fn member_at(slot: u32, name: u32) -> Option<u64> {
    if slot < SHAPE.slots {
        Some(member_of(slot, name))
    } else {
        None
    }
}

/// Three listeners of one group, of which the first goes; and whom packets find before and after.
fn choose_all<R: Wait>(
    rt: &R,
    chains: &Chains,
    pass: &mut Pass,
    looker: &mut Looker,
) -> Option<[Option<u64>; 5]>
    requires layout { layout_of chains.now
        ≡ record { shape = record { slots = 8; bind = 1; hash = 2; listen = 2 }; seed = 559038725 } }
    requires ready { IsReady chains.now pass.old 4 }
{
    let first = listening(HERE, 0, 1, 1);
    let place = open(rt, chains, pass, home(&SHAPE, SEED, &first), &first, 3)?;
    let second = listening(HERE, 0, 2, 1);
    let second_place = open(rt, chains, pass, home(&SHAPE, SEED, &second), &second, 2)?;
    let third = listening(HERE, 0, 3, 1);
    let third_place = open(rt, chains, pass, home(&SHAPE, SEED, &third), &third, 1)?;
    let members = [
        member_at(place.slot, 1)?,
        member_at(second_place.slot, 2)?,
        member_at(third_place.slot, 3)?,
    ];
    looker.publish(&members);
    let by_1002 = looker.look(&packet(1002, HERE, 80, 0));
    let by_1000 = looker.look(&packet(1000, HERE, 80, 0));
    let by_1001 = looker.look(&packet(1001, HERE, 80, 0));
    looker.publish(&[members[2], members[1]]);
    shut(rt, chains, pass, place, 0);
    let then_1002 = looker.look(&packet(1002, HERE, 80, 0));
    let then_1000 = looker.look(&packet(1000, HERE, 80, 0));
    Some([by_1002, by_1000, by_1001, then_1002, then_1000])
}

#[test]
fn a_group_chooses_by_the_packets_hash(rt: HostRuntime) -> Result<(), Fail> {
    let (chains, mut pass) = Chains::new(rt.alloc(), SHAPE, SEED)?;
    let (groups, words) = Groups::new(rt.alloc(), 1)?;
    let mut changing = chains.split(rt.alloc(), &mut pass);
    changing.reserve(4)?;
    let mut looker = looker_of(&chains, &groups, pass, words);
    let answer = choose_all(&rt, &chains, &mut changing, &mut looker);
    let expected = [Some(1), Some(3), Some(3), Some(3), Some(2)];
    assert_eq!(rt; answer, Some(expected));
    Ok(())
}

const NARROW: Shape = Shape {
    slots: 1,
    bind: 1,
    hash: 1,
    listen: 1,
};

/// A connection beside a listener that has the only slot, then one without it, and whether its TIME_WAIT stays.
fn fill<R: Wait>(
    rt: &R,
    chains: &Chains,
    pass: &mut Pass,
    looker: &mut Looker,
) -> Option<(Came, Came, bool, Option<u64>)>
    requires layout { layout_of chains.now
        ≡ record { shape = record { slots = 1; bind = 1; hash = 1; listen = 1 }; seed = 559038725 } }
    requires ready { IsReady chains.now pass.old 8 }
{
    let listener = listening(HERE, 0, 1, 0);
    let place = open(
        rt,
        chains,
        pass,
        home(&NARROW, SEED, &listener),
        &listener,
        7,
    )?;
    let new = Newcomer {
        card: connected(1000, 2),
        moment: 0,
        replace: Replace::Always,
    };
    let bucket = home(&NARROW, SEED, &new.card);
    let (refused, _) = come(rt, chains, pass, bucket, &new, 5);
    shut(rt, chains, pass, place, 4);
    let (came, place) = come(rt, chains, pass, bucket, &new, 2);
    let place = place?;
    let wait = waiting(1000, 2, 0);
    if home(&NARROW, SEED, &wait) != place.bucket {
        return None;
    }
    let waits = close(rt, chains, pass, place, &wait, 0);
    let found = looker.look(&packet(1000, HERE, 80, 0));
    Some((refused, came, waits, found))
}

#[test]
fn a_full_table_says_how_full(rt: HostRuntime) -> Result<(), Fail> {
    let (chains, mut pass) = Chains::new(rt.alloc(), NARROW, SEED)?;
    let (groups, words) = Groups::new(rt.alloc(), 1)?;
    let mut changing = chains.split(rt.alloc(), &mut pass);
    changing.reserve(8)?;
    let Pass { steps, changes: _ } = pass;
    let mut looker = Looker {
        chains: &chains,
        groups: &groups,
        layout: Layout {
            shape: NARROW,
            seed: SEED,
        },
        steps,
        words,
    };
    let answer = fill(&rt, &chains, &mut changing, &mut looker);
    let expected = (Came::Full(1, 0), Came::In(None), false, None);
    assert_eq!(rt; answer, Some(expected));
    Ok(())
}
