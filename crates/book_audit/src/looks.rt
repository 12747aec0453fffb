//! Whether the lives explain what came of a packet.

ghost use Rattle.std.specs.Prelude.{◌≡◌, ◌<◌, ◌+◌, ◌^◌, IsTrue, true};
ghost use Rattle.std.specs.List.{list_any};
ghost use Rattle.sock_card.specs.Kinds as kinds;
ghost use Rattle.book_audit.specs.Lines.{some_span};
ghost use Rattle.book_audit.specs.Index.{IsIndex};
ghost use Rattle.book_audit.specs.Tried as spec;

use crate::index::{Index, Placed, is_unbeaten, last_before};
use crate::lines::is_out;
use crate::printed::{
    Printed, PrintedAnswer, PrintedEnd, PrintedLife, PrintedLook, PrintedPacket, Span,
};
use chain_book::{Shape, listen_home, packet_home};
use sock_card::{Kind, Packet, rank};

/// The kind and name that are printed for a found card.
#[derive(Clone, Copy, Debug, PartialEq, Eq)]
pub struct Told {
    pub kind: Kind,
    pub name: u64,
}

fn same_kind(one: Kind, other: Kind) -> bool
    ensures { result ≡ kinds.same_kind one other }
{
    match one {
        Kind::Full => matches!(other, Kind::Full),
        Kind::TimeWait => matches!(other, Kind::TimeWait),
        Kind::Listen => matches!(other, Kind::Listen),
        Kind::Request => matches!(other, Kind::Request),
    }
}

fn met(look: &PrintedLook, span: &Span) -> bool
    ensures { result ≡ spec.met look.now span.now }
{
    span.begin < look.t1 && look.t0 <= span.end
}

fn some_change_met(look: &PrintedLook, life: &PrintedLife) -> bool
    ensures { result ≡ some_span (spec.met look.now) life.now }
{
    met(look, &life.hash)
        || match &life.unhash {
            None => false,
            Some(unhash) => met(look, unhash),
        }
}

fn was_throughout(look: &PrintedLook, life: &PrintedLife) -> bool
    ensures { result ≡ spec.was_throughout look.now life.now }
{
    life.hash.end < look.t0 && !is_out(life, look.t1)
}

fn has_stood(look: &PrintedLook, life: &PrintedLife) -> bool
    ensures { result ≡ spec.has_stood look.now life.now }
{
    life.hash.begin < look.t1
        && !match &life.unhash {
            None => false,
            Some(unhash) => unhash.end < look.t0,
        }
}

fn beats(look: &PrintedLook, least: u8, life: &PrintedLife) -> bool
    ensures { result ≡ spec.beats look.now least life.now }
{
    least <= rank(&life.card, &look.packet) && was_throughout(look, life)
}

fn is_beaten_by_any(lives: &[PrintedLife], look: &PrintedLook, least: u8) -> bool
    ensures { result ≡ spec.is_beaten lives.now look.now least }
{
    lives.iter().any(|life| beats(look, least, life))
}

fn is_beaten(lives: &[PrintedLife], index: &Index, look: &PrintedLook, least: u8) -> bool
    requires index { IsIndex index.now lives.now }
    requires least { 0 < least }
    ensures { result ≡ spec.is_beaten lives.now look.now least }
{
    if is_unbeaten(index, look, least) {
        return false;
    }
    is_beaten_by_any(lives, look, least)
}

fn is_found(
    lives: &[PrintedLife],
    index: &Index,
    look: &PrintedLook,
    told: Told,
    life: &PrintedLife,
) -> bool
    requires { IsIndex index.now lives.now }
    ensures { result ≡ spec.is_found lives.now look.now told.kind told.name life.now }
{
    let own = rank(&life.card, &look.packet);
    same_kind(life.card.kind, told.kind)
        && life.card.name == told.name
        && has_stood(look, life)
        && 1 <= own
        && !is_beaten(lives, index, look, own + 1)
}

/// Whether a life of that name may be the one that was found.
fn is_found_by_name(lives: &[PrintedLife], index: &Index, look: &PrintedLook, told: Told) -> bool
    requires { IsIndex index.now lives.now }
    ensures { IsTrue result → list_any (spec.is_found lives.now look.now told.kind told.name) lives.now ≡ true }
{
    let first = index.names.partition_point(|named| named.name < told.name);
    for named in &index.names[first..] {
        if named.name != told.name {
            return false;
        }
        if named.at < lives.len() && is_found(lives, index, look, told, &lives[named.at]) {
            return true;
        }
    }
    false
}

fn is_found_of_any(lives: &[PrintedLife], index: &Index, look: &PrintedLook, told: Told) -> bool
    requires { IsIndex index.now lives.now }
    ensures { result ≡ list_any (spec.is_found lives.now look.now told.kind told.name) lives.now }
{
    lives
        .iter()
        .any(|life| is_found(lives, index, look, told, life))
}

fn any_found(lives: &[PrintedLife], index: &Index, look: &PrintedLook, told: Told) -> bool
    requires { IsIndex index.now lives.now }
    ensures { result ≡ list_any (spec.is_found lives.now look.now told.kind told.name) lives.now }
{
    if is_found_by_name(lives, index, look, told) {
        return true;
    }
    is_found_of_any(lives, index, look, told)
}

fn hashes_into(look: &PrintedLook, bucket: u64, life: &PrintedLife) -> bool
    ensures { result ≡ spec.hashes_into look.now bucket life.now }
{
    life.bucket == bucket && met(look, &life.hash)
}

/// Whether one of those was hashed into that bucket meanwhile.
fn is_hashed_near(lives: &[PrintedLife], near: &[Placed], look: &PrintedLook, bucket: u64) -> bool
    ensures { IsTrue result → list_any (spec.hashes_into look.now bucket) lives.now ≡ true }
{
    for placed in near {
        if placed.at < lives.len() && hashes_into(look, bucket, &lives[placed.at]) {
            return true;
        }
    }
    false
}

fn is_hashed_by_any(lives: &[PrintedLife], look: &PrintedLook, bucket: u64) -> bool
    ensures { result ≡ list_any (spec.hashes_into look.now bucket) lives.now }
{
    lives.iter().any(|life| hashes_into(look, bucket, life))
}

fn any_hashes_into(lives: &[PrintedLife], index: &Index, look: &PrintedLook, bucket: u64) -> bool
    ensures { result ≡ list_any (spec.hashes_into look.now bucket) lives.now }
{
    let near = last_before(&index.buckets, bucket, look.t1);
    if is_hashed_near(lives, near, look, bucket) {
        return true;
    }
    is_hashed_by_any(lives, look, bucket)
}

fn any_hashes(lives: &[PrintedLife], look: &PrintedLook) -> bool
    ensures { result ≡ list_any (spec.hashes look.now) lives.now }
{
    lives.iter().any(|life| met(look, &life.hash))
}

fn changes_in(look: &PrintedLook, slot: u64, life: &PrintedLife) -> bool
    ensures { result ≡ spec.changes_in look.now slot life.now }
{
    life.slot == slot && some_change_met(look, life)
}

/// Whether one of those changed in that slot meanwhile.
fn is_changed_near(lives: &[PrintedLife], near: &[Placed], look: &PrintedLook, slot: u64) -> bool
    ensures { IsTrue result → list_any (spec.changes_in look.now slot) lives.now ≡ true }
{
    for placed in near {
        if placed.at < lives.len() && changes_in(look, slot, &lives[placed.at]) {
            return true;
        }
    }
    false
}

fn is_changed_by_any(lives: &[PrintedLife], look: &PrintedLook, slot: u64) -> bool
    ensures { result ≡ list_any (spec.changes_in look.now slot) lives.now }
{
    lives.iter().any(|life| changes_in(look, slot, life))
}

fn any_changes_in(lives: &[PrintedLife], index: &Index, look: &PrintedLook, slot: u64) -> bool
    ensures { result ≡ list_any (spec.changes_in look.now slot) lives.now }
{
    let near = last_before(&index.slots, slot, look.t1);
    if is_changed_near(lives, near, look, slot) {
        return true;
    }
    is_changed_by_any(lives, look, slot)
}

fn may_end(
    slots: u32,
    lives: &[PrintedLife],
    index: &Index,
    look: &PrintedLook,
    bucket: u64,
    end: &PrintedEnd,
) -> bool
    ensures { result ≡ spec.may_end slots lives.now look.now bucket end.now }
{
    match *end {
        PrintedEnd::Foreign(other) => {
            other != bucket && any_hashes_into(lives, index, look, other)
        }
        PrintedEnd::Dead(slot) => any_changes_in(lives, index, look, slot),
        PrintedEnd::Changed(slot) => any_changes_in(lives, index, look, slot),
        PrintedEnd::Long(count) => { count == u64::from(slots) + 1 && any_hashes(lives, look) }
    }
}

fn is_bucket_of(shape: &Shape, seed: u32, packet: &Packet, bucket: u64) -> bool
    requires hash { 0 < shape.now.hash }
    requires listen { 0 < shape.now.listen }
    requires fits { shape.now.hash + shape.now.listen < 2 ^ 32 }
    ensures { result ≡ spec.is_bucket_of shape.now seed packet.now bucket }
{
    bucket == u64::from(packet_home(shape, seed, packet))
        || bucket == u64::from(listen_home(shape, seed, packet.dst, packet.dport, packet.net))
        || bucket == u64::from(listen_home(shape, seed, 0, packet.dport, packet.net))
}

fn explains(printed: &Printed, index: &Index, look: &PrintedLook) -> bool
    requires hash { 0 < printed.now.shape.hash }
    requires listen { 0 < printed.now.shape.listen }
    requires fits { printed.now.shape.hash + printed.now.shape.listen < 2 ^ 32 }
    requires index { IsIndex index.now printed.now.lives.items }
    ensures { result
        ≡ spec.explains printed.now.shape printed.now.seed printed.now.lives.items look.now look.now.answer }
{
    let lives = printed.lives.as_slice();
    match &look.answer {
        PrintedAnswer::Found(kind, name) => {
            let told = Told {
                kind: *kind,
                name: *name,
            };
            any_found(lives, index, look, told)
        }
        PrintedAnswer::None => !is_beaten(lives, index, look, 1),
        PrintedAnswer::Again(bucket, end) => {
            is_bucket_of(&printed.shape, printed.seed, &look.packet, *bucket)
                && may_end(printed.shape.slots, lives, index, look, *bucket, end)
        }
    }
}

/// Whether the lives explain the line of a packet.
///
/// Takes time in proportion to the logarithm of their number, and to how many of them have the name that was found,
/// where the index gives the answer; else it goes over all lives.
pub fn is_explained(printed: &Printed, index: &Index, packet: &PrintedPacket) -> bool
    requires hash { 0 < printed.now.shape.hash }
    requires listen { 0 < printed.now.shape.listen }
    requires fits { printed.now.shape.hash + printed.now.shape.listen < 2 ^ 32 }
    requires index { IsIndex index.now printed.now.lives.items }
    ensures { result ≡ spec.line_explained printed.now.shape printed.now.seed printed.now.lives.items packet.now }
{
    match packet {
        PrintedPacket::Passed => true,
        PrintedPacket::Looked(look) => explains(printed, index, look),
    }
}
