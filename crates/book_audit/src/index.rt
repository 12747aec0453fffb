//! An index of lives by what lookups compare of their cards, and by their names.

ghost use Rattle.std.specs.Prelude.{◌≡◌, ◌<◌, ◌≤◌, ◌==◌, ◌&&◌, IsTrue, IfOk, List, false, length, take, drop, map};
ghost use Rattle.book_audit.specs.Tried.{is_beaten};
ghost use Rattle.book_audit.specs.Index as spec;
ghost use Rattle.sock_card.specs.Words.{packed};
ghost use Rattle.list_words.specs.Lists.{Each};
ghost use Rattle.book_audit.specs.declared.printed.PrintedLife.{PrintedLife};
ghost use Rattle.book_audit.specs.Index.{
  AreMarked,
  AreOrdered,
  GoneAt,
  IsIndex,
  IsMarked,
  NoneStays,
  RulesOut,
  StandsFor,
};

use crate::clashes::begin_of;
use crate::printed::{PrintedLife, PrintedLook};
use crate::stays::{Stay, is_below};
use sock_card::{Card, Kind, Packet, pack};
use std::alloc::{AllocError, Global};

/// A life's name, and its place among the lives.
#[derive(Clone, Copy, Debug, PartialEq, Eq)]
pub struct Named {
    pub name: u64,
    pub at: usize,
}

/// The bucket or slot of a life, the number at which its hash begins, and its place among the lives.
#[derive(Clone, Copy, Debug, PartialEq, Eq)]
pub struct Placed {
    pub place: u64,
    pub begin: u64,
    pub at: usize,
}

/// Marks of all lives, whether they are in order, and the lives by names, buckets and slots.
#[derive(Drop)]
pub struct Index {
    pub stays: Vec<Stay>,
    pub ordered: bool,
    pub names: Vec<Named>,
    pub buckets: Vec<Placed>,
    pub slots: Vec<Placed>,
}

fn face(card: &Card) -> Card
    ensures { result ≡ spec.face card.now }
{
    match card.kind {
        Kind::Listen => Card {
            remote: 0,
            rport: 0,
            name: 0,
            extra: 0,
            mark: 0,
            ..*card
        },
        Kind::Full | Kind::TimeWait | Kind::Request => Card {
            kind: Kind::Full,
            name: 0,
            extra: 0,
            mark: 0,
            ..*card
        },
    }
}

fn mark(life: &PrintedLife) -> Stay
    ensures { result ≡ spec.mark life.now }
{
    let words = pack(&face(&life.card));
    Stay {
        place: words.ends,
        part: words.ports,
        from: life.hash.end,
        until: begin_of(&life.unhash),
    }
}

fn outlasts(one: Option<u64>, other: Option<u64>) -> bool
    ensures { result ≡ spec.outlasts one other }
{
    match one {
        None => true,
        Some(last) => match other {
            None => false,
            Some(until) => until <= last,
        },
    }
}

fn goes_before(one: &Stay, other: &Stay) -> bool
    ensures { result ≡ spec.goes_before one.now other.now }
{
    one.place < other.place
        || one.place == other.place
            && (one.part < other.part
                || one.part == other.part
                    && one.from <= other.from
                    && outlasts(other.until, one.until))
}

/// Whether each stay goes before the next one.
fn are_ordered(stays: &[Stay]) -> bool
    ensures { IsTrue result → AreOrdered stays.now }
{
    for i in 1..stays.len() {
        if !goes_before(&stays[i - 1], &stays[i]) {
            return false;
        }
    }
    true
}

fn precedes(stay: &Stay, place: u64, part: u64, t0: u64) -> bool
    ensures { result ≡ spec.precedes stay.now place part t0 }
{
    stay.place < place
        || stay.place == place && (stay.part < part || stay.part == part && stay.from < t0)
}

fn is_over(stay: &Stay, place: u64, part: u64, t1: u64) -> bool
    ensures { result ≡ spec.is_over stay.now place part t1 }
{
    stay.place != place || stay.part != part || is_below(stay.until, t1)
}

/// Whether the stay there, if there is one, shows this of those from it on.
fn none_later(stays: &[Stay], at: usize, place: u64, part: u64, t0: u64, t1: u64) -> bool
    requires { at ≤ length stays.now }
    ensures { IsTrue result → AreOrdered stays.now → NoneStays (drop at stays.now) place part t0 t1 }
{
    if at == stays.len() {
        return true;
    }
    !precedes(&stays[at], place, part, t0)
}

/// Whether the stay before that, if there is one, shows this of those up to it.
fn none_earlier(stays: &[Stay], at: usize, place: u64, part: u64, t0: u64, t1: u64) -> bool
    requires { at ≤ length stays.now }
    ensures { IsTrue result → AreOrdered stays.now → NoneStays (take at stays.now) place part t0 t1 }
{
    if at == 0 {
        return true;
    }
    let last = &stays[at - 1];
    precedes(last, place, part, t0) && is_over(last, place, part, t1)
}

/// Whether the stays there show that no stay in a place began before `t0` and isn't over before `t1`.
fn is_told_at(stays: &[Stay], at: usize, place: u64, part: u64, t0: u64, t1: u64) -> bool
    requires { at ≤ length stays.now }
    ensures { IsTrue result → AreOrdered stays.now → NoneStays stays.now place part t0 t1 }
{
    none_later(stays, at, place, part, t0, t1) && none_earlier(stays, at, place, part, t0, t1)
}

/// Whether a search shows that no life whose card has that face was there throughout a call.
fn is_gone(stays: &[Stay], card: &Card, look: &PrintedLook) -> bool
    ensures { let words = packed card.now in
        IsTrue result → AreOrdered stays.now → NoneStays stays.now words.ends words.ports look.now.t0 look.now.t1 }
{
    let words = pack(card);
    let at = stays.partition_point(|stay| precedes(stay, words.ends, words.ports, look.t0));
    is_told_at(stays, at, words.ends, words.ports, look.t0, look.t1)
}

fn connected(packet: &Packet, dev: u16) -> Card
    ensures { result ≡ spec.connected_face packet.now dev }
{
    Card {
        local: packet.dst,
        lport: packet.dport,
        remote: packet.src,
        rport: packet.sport,
        dev,
        net: packet.net,
        kind: Kind::Full,
        name: 0,
        extra: 0,
        mark: 0,
    }
}

fn listening(packet: &Packet, local: u32, dev: u16) -> Card
    ensures { result ≡ spec.listening_face packet.now local dev }
{
    Card {
        local,
        lport: packet.dport,
        remote: 0,
        rport: 0,
        dev,
        net: packet.net,
        kind: Kind::Listen,
        name: 0,
        extra: 0,
        mark: 0,
    }
}

/// The same of a rank that may be too low to count.
fn is_gone_from(stays: &[Stay], look: &PrintedLook, least: u8, rank: u8, card: &Card) -> bool
    ensures { IsTrue result → AreOrdered stays.now → least ≤ rank → GoneAt stays.now look.now card.now }
{
    rank < least || is_gone(stays, card, look)
}

/// The same of a listener that names the packet's device. None does that where the packet came in at none.
fn is_gone_here(stays: &[Stay], look: &PrintedLook, least: u8, rank: u8, local: u32) -> bool
    ensures { let packet = look.now.packet in
        IsTrue result → AreOrdered stays.now → (packet.dev == 0) ≡ false → least ≤ rank
        → GoneAt stays.now look.now (spec.listening_face packet local packet.dev) }
{
    let packet = &look.packet;
    if packet.dev == 0 {
        return true;
    }
    let card = listening(packet, local, packet.dev);
    is_gone_from(stays, look, least, rank, &card)
}

/// Whether the stays show that no life whose card matches so well, or better, was there throughout the call.
fn rules_out(stays: &[Stay], look: &PrintedLook, least: u8) -> bool
    requires { 0 < least }
    ensures { IsTrue result → AreOrdered stays.now → RulesOut stays.now look.now least }
{
    let packet = &look.packet;
    let plain = is_gone_from(stays, look, least, 5, &connected(packet, 0));
    let here = is_gone_from(stays, look, least, 5, &connected(packet, packet.dev));
    let exact_here = is_gone_here(stays, look, least, 4, packet.dst);
    let exact = is_gone_from(stays, look, least, 3, &listening(packet, packet.dst, 0));
    let any_here = is_gone_here(stays, look, least, 2, 0);
    let any = is_gone_from(stays, look, least, 1, &listening(packet, 0, 0));
    all_six(plain, here, exact_here, exact, any_here, any)
}

fn all_six(a: bool, b: bool, c: bool, d: bool, e: bool, f: bool) -> bool
    ensures { result ≡ (a && b && c && d && e && f) }
{
    a && b && c && d && e && f
}

fn marks(alloc: Global, lives: &[PrintedLife]) -> Result<Vec<Stay>, AllocError>
    ensures { IfOk result (λ marks. marks.items ≡ map spec.mark lives.now) }
{
    lives.iter().map(mark).collect(alloc)
}

fn longer(one: Option<u64>, other: Option<u64>) -> Option<u64>
    ensures { IsTrue (spec.outlasts result other) }
{
    if outlasts(one, other) { one } else { other }
}

/// A stay that lasts at least as long as the last one, if that is in its place.
fn raise(last: &Option<Stay>, stay: &Stay) -> Stay
    ensures { StandsFor stay.now result }
{
    match last {
        Some(last) if last.place == stay.place && last.part == stay.part => Stay {
            until: longer(last.until, stay.until),
            ..*stay
        },
        _ => *stay,
    }
}

/// The stays, each lasting at least as long as those before it in its place.
fn raised(alloc: Global, stays: &[Stay]) -> Result<Vec<Stay>, AllocError>
    ensures { IfOk result (λ raised. Each (IsMarked raised.items) stays.now) }
{
    let mut raised = Vec::new(alloc);
    let mut last = None;
    for stay in stays {
        let next = raise(&last, stay);
        raised.push(next)?;
        last = Some(next);
    }
    Ok(raised)
}

fn marked(alloc: Global, lives: &[PrintedLife]) -> Result<Vec<Stay>, AllocError>
    ensures { IfOk result (λ stays. AreMarked stays.items lives.now) }
{
    let mut stays = marks(alloc, lives)?;
    stays.sort_by_key(|stay| (stay.place, stay.part, stay.from))?;
    raised(alloc, &stays)
}

/// The names of lives, in order.
fn names_of(alloc: Global, lives: &[PrintedLife]) -> Result<Vec<Named>, AllocError> {
    let mut names = Vec::new(alloc);
    for (at, life) in lives.iter().enumerate() {
        names.push(Named {
            name: life.card.name,
            at,
        })?;
    }
    names.sort_by_key(|named| named.name)?;
    Ok(names)
}

fn in_order(mut placed: Vec<Placed>) -> Result<Vec<Placed>, AllocError> {
    placed.sort_by_key(|placed| (placed.place, placed.begin))?;
    Ok(placed)
}

fn buckets_of(alloc: Global, lives: &[PrintedLife]) -> Result<Vec<Placed>, AllocError> {
    let mut buckets = Vec::new(alloc);
    for (at, life) in lives.iter().enumerate() {
        buckets.push(Placed {
            place: life.bucket,
            begin: life.hash.begin,
            at,
        })?;
    }
    in_order(buckets)
}

fn slots_of(alloc: Global, lives: &[PrintedLife]) -> Result<Vec<Placed>, AllocError> {
    let mut slots = Vec::new(alloc);
    for (at, life) in lives.iter().enumerate() {
        slots.push(Placed {
            place: life.slot,
            begin: life.hash.begin,
            at,
        })?;
    }
    in_order(slots)
}

/// How many of the last lives in a bucket or slot are tried first.
const NEAR: usize = 4;

/// Some of the last of those in a place whose hash begins before a number.
pub fn last_before(placed: &[Placed], place: u64, begin: u64) -> &[Placed] {
    let end = placed.partition_point(|p| p.place < place || p.place == place && p.begin < begin);
    &placed[end.saturating_sub(NEAR)..end]
}

/// Takes memory for a mark, a name, a bucket and a slot of each life.
pub fn index_of(alloc: Global, lives: &[PrintedLife]) -> Result<Index, AllocError>
    ensures { IfOk result (λ index. IsIndex index lives.now) }
{
    let stays = marked(alloc, lives)?;
    let names = names_of(alloc, lives)?;
    let buckets = buckets_of(alloc, lives)?;
    let slots = slots_of(alloc, lives)?;
    let ordered = are_ordered(&stays);
    Ok(Index {
        stays,
        ordered,
        names,
        buckets,
        slots,
    })
}

/// Whether the index shows that no life whose card matches so well, or better, was there throughout the call.
pub fn is_unbeaten(index: &Index, look: &PrintedLook, least: u8) -> bool
    requires { 0 < least }
    ensures { IsTrue result → (lives : List PrintedLife) → IsIndex index.now lives
        → is_beaten lives look.now least ≡ false }
{
    index.ordered && rules_out(&index.stays, look, least)
}
