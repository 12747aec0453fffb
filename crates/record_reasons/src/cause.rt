//! What keeps a record from passing a test.

ghost use Rattle.std.specs.Prelude.{◌≡◌, ◌<◌, ◌+◌, ◌*◌, ◌^◌, ◌-◌, ◌≤◌, IfOk, count_by, is_some, length};
ghost use Rattle.std.specs.List.{list_any};
ghost use Rattle.chain_book.specs.Shapes.{ShapeFits};
ghost use Rattle.book_audit.specs.declared.printed.PrintedLife.{PrintedLife as AnyLife};
ghost use Rattle.book_audit.specs.Tried.{is_bucket_of};
ghost use Rattle.record_reasons.specs.Parts as parts;
ghost use Rattle.record_reasons.specs.Parts.{on_life};
ghost use Rattle.record_reasons.specs.Causes as spec;

use crate::parts::{has_matched, is_named, plain, was_there};
use book_audit::lines::ascends;
use book_audit::{Printed, PrintedEnd, PrintedLife, Span, Why};
use chain_book::{Shape, home, listen_home, packet_home};
use record_reader::Record;
use record_reader::line::{Answer, ItemLine, LifeLine, Line, LookLine, Name};
use sock_card::{Kind, Packet};
use std::alloc::AllocError;

/// A lookup, and the kind and name of what it found.
#[derive(Clone, Copy, Debug, PartialEq, Eq)]
pub struct Sought {
    pub look: LookLine,
    pub kind: Kind,
    pub name: Name,
}

/// What keeps the line of a verdict from passing its test.
#[derive(Clone, Copy, Debug, PartialEq, Eq)]
pub enum Cause {
    /// The numbers of the life don't ascend.
    Descends,
    /// One of them isn't below the clock.
    BeyondClock {
        clock: u64,
    },
    /// An earlier life has one of them.
    SharesNumber {
        life: LifeLine,
    },
    /// The life belongs in another chain, this one.
    Stray {
        home: u32,
    },
    /// A change of the life and one of an earlier life in its chain were under way at once.
    Overlaps {
        life: LifeLine,
    },
    /// The life and an earlier one had one slot at once.
    SharesSlot {
        life: LifeLine,
    },
    /// The life and an earlier one are connected sockets of one four-tuple that were there at once.
    IsTwin {
        life: LifeLine,
    },
    /// No life has the kind and name that were found.
    Unknown,
    /// No such life was there during the lookup.
    Absent(Sought),
    /// None of those that were there matches the packet.
    Unlike(Sought),
    /// One that matches better was there throughout.
    Beaten(Sought),
    /// Nothing was found, though a life that matches was there throughout.
    Missed {
        look: LookLine,
    },
    /// The chain isn't one of the three that the packet's lookup goes through: of connected sockets, of listeners at
    /// its address, and of listeners at any.
    OtherChain {
        connected: u32,
        listening: u32,
        anywhere: u32,
    },
    /// A walk was led astray into the very chain that it went through.
    OwnChain,
    /// No life was hashed into that chain during the lookup.
    NoneInto {
        bucket: u64,
    },
    /// No life came into that slot or left it during the lookup.
    NoneIn {
        slot: u64,
    },
    /// A walk that is given up follows so many links.
    OtherLength {
        links: u64,
    },
    /// No life was hashed during the lookup.
    NoneHashed,
    /// The lives have so many changes, so many commands found no slot, and the clock should be this.
    Uncounted {
        changes: u64,
        vain: u64,
        clock: u64,
    },
}

fn rises_from(number: u64, unhash: &Option<Span>) -> bool
    ensures { result ≡ spec.rises_from number unhash.now }
{
    match unhash {
        None => true,
        Some(span) => number < span.begin && span.begin < span.end,
    }
}

fn rises(life: &LifeLine) -> bool
    ensures { result ≡ spec.rises life.now }
{
    life.hash.begin < life.hash.end && rises_from(life.hash.end, &life.unhash)
}

fn stamp_cause(clock: u64, life: &LifeLine) -> Cause
    ensures { result ≡ spec.stamp_cause clock life.now }
{
    if !rises(life) {
        Cause::Descends
    } else if !ascends(clock, &plain(life)) {
        Cause::BeyondClock { clock }
    } else {
        Cause::SharesNumber { life: *life }
    }
}

fn is_named_on(sought: &Sought, line: &Line) -> bool
    ensures { result ≡ on_life (parts.is_named sought.now) line.now }
{
    match line {
        Line::Life(life) => is_named(sought, life),
        _ => false,
    }
}

fn was_there_on(sought: &Sought, line: &Line) -> bool
    ensures { result ≡ on_life (parts.was_there sought.now) line.now }
{
    match line {
        Line::Life(life) => was_there(sought, life),
        _ => false,
    }
}

fn has_matched_on(sought: &Sought, line: &Line) -> bool
    ensures { result ≡ on_life (parts.has_matched sought.now) line.now }
{
    match line {
        Line::Life(life) => has_matched(sought, life),
        _ => false,
    }
}

fn any_named(lines: &[Line], sought: &Sought) -> bool
    ensures { result ≡ list_any (on_life (parts.is_named sought.now)) lines.now }
{
    lines.iter().any(|line| is_named_on(sought, line))
}

fn any_there(lines: &[Line], sought: &Sought) -> bool
    ensures { result ≡ list_any (on_life (parts.was_there sought.now)) lines.now }
{
    lines.iter().any(|line| was_there_on(sought, line))
}

fn any_matched(lines: &[Line], sought: &Sought) -> bool
    ensures { result ≡ list_any (on_life (parts.has_matched sought.now)) lines.now }
{
    lines.iter().any(|line| has_matched_on(sought, line))
}

fn found_cause(lines: &[Line], sought: Sought) -> Cause
    ensures { result ≡ spec.found_cause lines.now sought }
{
    if !any_named(lines, &sought) {
        Cause::Unknown
    } else if !any_there(lines, &sought) {
        Cause::Absent(sought)
    } else if !any_matched(lines, &sought) {
        Cause::Unlike(sought)
    } else {
        Cause::Beaten(sought)
    }
}

fn end_cause(slots: u32, bucket: u64, end: PrintedEnd) -> Cause
    ensures { result ≡ spec.end_cause slots bucket end }
{
    let links = u64::from(slots) + 1;
    match end {
        PrintedEnd::Foreign(other) if other == bucket => Cause::OwnChain,
        PrintedEnd::Foreign(other) => Cause::NoneInto { bucket: other },
        PrintedEnd::Dead(slot) | PrintedEnd::Changed(slot) => Cause::NoneIn { slot },
        PrintedEnd::Long(count) if count == links => Cause::NoneHashed,
        PrintedEnd::Long(_) => Cause::OtherLength { links },
    }
}

/// Why the line of a lookup that was given up so, in that chain, isn't explained.
fn again_cause(shape: &Shape, seed: u32, packet: &Packet, bucket: u64, end: PrintedEnd) -> Cause
    requires { ShapeFits shape.now }
    ensures { result ≡ spec.again_cause shape.now seed packet.now bucket end }
{
    let connected = packet_home(shape, seed, packet);
    let listening = listen_home(shape, seed, packet.dst, packet.dport, packet.net);
    let anywhere = listen_home(shape, seed, 0, packet.dport, packet.net);
    let is_own = bucket == u64::from(connected)
        || bucket == u64::from(listening)
        || bucket == u64::from(anywhere);
    if is_own {
        return end_cause(shape.slots, bucket, end);
    }
    Cause::OtherChain {
        connected,
        listening,
        anywhere,
    }
}

fn receipt_cause(race: &Record, look: &LookLine) -> Cause
    requires { ShapeFits race.now.printed.shape }
    ensures { result ≡ spec.receipt_cause race.now.printed race.now.lines.items look.now look.now.answer }
{
    let printed = &race.printed;
    match look.answer {
        Answer::Found(kind, name) => found_cause(
            &race.lines,
            Sought {
                look: *look,
                kind,
                name,
            },
        ),
        Answer::None => Cause::Missed { look: *look },
        Answer::Again(bucket, end) => again_cause(
            &printed.shape,
            printed.seed,
            &look.packet,
            bucket,
            end,
        ),
    }
}

fn unhashed(lives: &[PrintedLife]) -> usize
    ensures { result ≡ count_by (λ (l : AnyLife). is_some l.unhash) lives.now }
{
    lives.iter().filter(|life| life.unhash.is_some()).count()
}

/// The sum. There is no memory for lives that make a greater one.
fn sum(a: u64, b: u64) -> Result<u64, AllocError>
    ensures { IfOk result (λ n. n ≡ a + b) }
{
    a.checked_add(b).ok_or(AllocError)
}

fn count_cause(printed: &Printed) -> Result<Cause, AllocError>
    ensures { IfOk result (λ c. c ≡ spec.count_cause printed.now) }
{
    let lives = printed.lives.as_slice();
    let changes = sum(lives.len() as u64, unhashed(lives) as u64)?;
    let numbers = sum(changes, changes)?;
    Ok(Cause::Uncounted {
        changes,
        vain: printed.vain,
        clock: sum(numbers, printed.vain)?,
    })
}

/// Why that line fails that test. None is told of a line that the test isn't of.
fn cause_of(race: &Record, why: Why, line: &Line) -> Result<Option<Cause>, AllocError>
    requires { ShapeFits race.now.printed.shape }
    ensures { IfOk result (λ c. c ≡ spec.cause_of race.now.printed race.now.lines.items why line.now) }
{
    let printed = &race.printed;
    Ok(match (why, line) {
        (Why::Stamp, Line::Life(life)) => Some(stamp_cause(printed.clock, life)),
        (Why::Home, Line::Life(life)) => Some(Cause::Stray {
            home: home(&printed.shape, printed.seed, &life.card),
        }),
        (Why::Overlap, Line::Life(life)) => Some(Cause::Overlaps { life: *life }),
        (Why::Slot, Line::Life(life)) => Some(Cause::SharesSlot { life: *life }),
        (Why::Twin, Line::Life(life)) => Some(Cause::IsTwin { life: *life }),
        (
            Why::Receipt,
            Line::Packet {
                item: ItemLine::Looked(look),
                ..
            },
        ) => Some(receipt_cause(race, look)),
        (Why::Count, Line::Clock(_)) => Some(count_cause(printed)?),
        _ => None,
    })
}

/// Why the line of that number, from 1, fails that test.
pub fn cause_at(race: &Record, why: Why, number: u64) -> Result<Option<Cause>, AllocError>
    requires fits { ShapeFits race.now.printed.shape }
    requires within { 1 ≤ number }
    ensures { IfOk result (λ c. c ≡ spec.cause_at race.now.printed race.now.lines.items why number) }
{
    match race.lines.as_slice().get((number - 1) as usize) {
        None => Ok(None),
        Some(line) => cause_of(race, why, line),
    }
}
