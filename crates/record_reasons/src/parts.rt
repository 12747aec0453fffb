//! The lines that have a part in a refutation.

ghost use Rattle.std.specs.Prelude.{◌≡◌, ◌+◌};
ghost use Rattle.std.specs.List.{list_any};
ghost use Rattle.sock_card.specs.Kinds as kinds;
ghost use Rattle.record_reader.specs.Names as names;
ghost use Rattle.book_audit.specs.Tried as tried;
ghost use Rattle.record_reasons.specs.Parts as spec;
ghost use Rattle.record_reasons.specs.Parts.{look_of, on_life, plain};

use crate::cause::{Cause, Sought};
use book_audit::PrintedLife;
use book_audit::lines::{are_twins, is_out, overlap, share_slot, shares_number};
use record_reader::line::{LifeLine, Line, LookLine, Name};
use sock_card::{Kind, rank};

/// The life of a line, as the tests take it.
pub fn plain(life: &LifeLine) -> PrintedLife
    ensures { result ≡ plain life.now }
{
    PrintedLife {
        bucket: life.bucket,
        slot: life.slot,
        card: life.card,
        hash: life.hash,
        unhash: life.unhash,
    }
}

fn same_kind(one: Kind, other: Kind) -> bool
    ensures { result ≡ kinds.same_kind one other }
{
    match one {
        Kind::Full => matches!(other, Kind::Full),
        Kind::TimeWait => matches!(other, Kind::TimeWait),
        Kind::Listen => matches!(other, Kind::Listen),
        Kind::Request => matches!(other, Kind::Request),
    }
}

fn same_name(one: &Name, other: &Name) -> bool
    ensures { result ≡ names.same_name one.now other.now }
{
    one.section == other.section
        && one.high == other.high
        && one.low == other.low
        && one.length == other.length
}

/// Whether a life has the kind and the name that were found.
pub fn is_named(sought: &Sought, life: &LifeLine) -> bool
    ensures { result ≡ spec.is_named sought.now life.now }
{
    same_kind(life.card.kind, sought.kind) && same_name(&life.name, &sought.name)
}

fn has_stood(look: &LookLine, life: &LifeLine) -> bool
    ensures { result ≡ tried.has_stood (look_of look.now) (plain life.now) }
{
    life.hash.begin < look.t1
        && !match &life.unhash {
            None => false,
            Some(unhash) => unhash.end < look.t0,
        }
}

fn was_throughout(look: &LookLine, life: &LifeLine) -> bool
    ensures { result ≡ tried.was_throughout (look_of look.now) (plain life.now) }
{
    life.hash.end < look.t0 && !is_out(&plain(life), look.t1)
}

fn beats(look: &LookLine, least: u8, life: &LifeLine) -> bool
    ensures { result ≡ tried.beats (look_of look.now) least (plain life.now) }
{
    least <= rank(&life.card, &look.packet) && was_throughout(look, life)
}

/// Whether a life of that kind and name was there at some time of the lookup.
pub fn was_there(sought: &Sought, life: &LifeLine) -> bool
    ensures { result ≡ spec.was_there sought.now life.now }
{
    is_named(sought, life) && has_stood(&sought.look, life)
}

/// Whether it matches the packet, too.
pub fn has_matched(sought: &Sought, life: &LifeLine) -> bool
    ensures { result ≡ spec.has_matched sought.now life.now }
{
    was_there(sought, life) && 1 <= rank(&life.card, &sought.look.packet)
}

fn beats_it(sought: &Sought, life: &LifeLine, other: &LifeLine) -> bool
    ensures { result ≡ spec.beats_it sought.now life.now other.now }
{
    let own = rank(&other.card, &sought.look.packet);
    has_matched(sought, other) && beats(&sought.look, own + 1, life)
}

fn beats_it_on(sought: &Sought, life: &LifeLine, line: &Line) -> bool
    ensures { result ≡ on_life (spec.beats_it sought.now life.now) line.now }
{
    match line {
        Line::Life(other) => beats_it(sought, life, other),
        _ => false,
    }
}

fn any_beaten(lines: &[Line], sought: &Sought, life: &LifeLine) -> bool
    ensures { result ≡ list_any (on_life (spec.beats_it sought.now life.now)) lines.now }
{
    lines.iter().any(|line| beats_it_on(sought, life, line))
}

fn beats_some(lines: &[Line], sought: &Sought, life: &LifeLine) -> bool
    ensures { result ≡ spec.beats_some lines.now sought.now life.now }
{
    beats(&sought.look, 2, life) && any_beaten(lines, sought, life)
}

/// Whether a life has a part in a refutation, by the lines of its record.
fn takes_part(lines: &[Line], cause: &Cause, life: &LifeLine) -> bool
    ensures { result ≡ spec.takes_part lines.now cause.now life.now }
{
    match cause {
        Cause::SharesNumber { life: other } => shares_number(&plain(life), &plain(other)),
        Cause::Overlaps { life: other } => overlap(&plain(life), &plain(other)),
        Cause::SharesSlot { life: other } => share_slot(&plain(life), &plain(other)),
        Cause::IsTwin { life: other } => are_twins(&plain(life), &plain(other)),
        Cause::Absent(sought) => is_named(sought, life),
        Cause::Unlike(sought) => was_there(sought, life),
        Cause::Beaten(sought) => has_matched(sought, life) || beats_some(lines, sought, life),
        Cause::Missed { look } => beats(look, 1, life),
        Cause::NoneInto { bucket } => life.bucket == *bucket,
        Cause::NoneIn { slot } => life.slot == *slot,
        _ => false,
    }
}

fn tells_shape(cause: &Cause) -> bool
    ensures { result ≡ spec.tells_shape cause.now }
{
    matches!(
        cause,
        Cause::Stray { .. } | Cause::OtherChain { .. } | Cause::OtherLength { .. }
    )
}

fn tells_vain(cause: &Cause) -> bool
    ensures { result ≡ spec.tells_vain cause.now }
{
    matches!(cause, Cause::Uncounted { .. })
}

/// Whether a line has a part in a refutation, by the lines of its record.
///
/// Where a better match refutes what was found, a life that was there throughout may be compared with each other one.
pub fn has_part(lines: &[Line], cause: &Cause, line: &Line) -> bool
    ensures { result ≡ spec.has_part lines.now cause.now line.now }
{
    match line {
        Line::Life(life) => takes_part(lines, cause, life),
        Line::Shape { .. } => tells_shape(cause),
        Line::Reply { vain } => *vain && tells_vain(cause),
        _ => false,
    }
}
