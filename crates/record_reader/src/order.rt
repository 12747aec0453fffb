//! Which line may follow which.

ghost use Rattle.std.specs.Prelude.{◌≡◌};
ghost use Rattle.std.specs.Option.{option_copied};
ghost use Rattle.record_reader.specs.Record as spec;

use crate::line::Line;

fn rank(line: &Line) -> u8
    ensures { result ≡ spec.rank line.now }
{
    match line {
        Line::Race { .. } => 0,
        Line::Shape { .. } => 1,
        Line::Reply { .. } => 2,
        Line::Journal { .. } => 3,
        Line::Life(_) => 4,
        Line::Packet { .. } => 5,
        Line::Cut => 6,
        Line::Clock(_) => 7,
    }
}

fn is_first(line: &Line) -> bool
    ensures { result ≡ spec.is_first line.now }
{
    match line {
        Line::Packet { number, .. } => *number == 1,
        _ => true,
    }
}

/// Whether it is a line of a later kind, and the first of that kind.
fn is_next_kind(before: &Line, line: &Line) -> bool
    ensures { result ≡ spec.is_next_kind before.now line.now }
{
    let from = rank(before);
    let to = rank(line);
    from < to && is_first(line) && (0 < from || to == 1)
}

/// Whether it is a line of the same kind, and in order.
fn is_same_kind(before: &Line, line: &Line) -> bool
    ensures { result ≡ spec.is_same_kind before.now line.now }
{
    match (before, line) {
        (Line::Reply { .. }, Line::Reply { .. }) => true,
        (Line::Journal { bucket, .. }, Line::Journal { bucket: next, .. }) => bucket < next,
        (Line::Life(life), Line::Life(next)) => life.hash.begin <= next.hash.begin,
        (Line::Packet { number, .. }, Line::Packet { number: next, .. }) => {
            *number < *next && *next - *number == 1
        }
        _ => false,
    }
}

/// Whether a line may follow that one; with none before it, whether it may be the first.
pub fn may_follow(before: Option<&Line>, line: &Line) -> bool
    ensures { result ≡ spec.may_follow (option_copied before.entry) line.now }
{
    match before {
        None => rank(line) == 0,
        Some(before) => is_same_kind(before, line) || is_next_kind(before, line),
    }
}
