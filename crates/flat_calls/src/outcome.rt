//! What comes of a call, and its number of errno(3).

ghost use Rattle.std.specs.Prelude.{◌≡◌, pos};
ghost use Rattle.flat_calls.specs.Errnos as spec;

use flat_list::{End, Reply};

/// What comes of a call.
#[derive(Clone, Copy, Debug, PartialEq, Eq)]
pub enum Outcome {
    /// The command was carried out or refused, as the reply says.
    Replied(Reply),
    /// There are no tables.
    NoTables,
    /// A worker's number is 1 to 64.
    NoWorker,
    /// The tables have replied to as many calls as they can.
    NoNumber,
    /// Memory ran out.
    NoMemory,
    /// Another had a part of the tables for longer than the caller tries.
    Busy,
    /// No slot was free lately, and none was looked for.
    FullLately,
}

fn errno_of_reply(reply: Reply) -> i32
    ensures { result ≡ pos (spec.errno_of_reply reply) }
{
    match reply {
        Reply::Ebadf => 9,
        Reply::Einval => 22,
        Reply::Enfile { .. } => 23,
        Reply::Emfile => 24,
        Reply::Eaddrinuse => 98,
        Reply::Eaddrnotavail => 99,
        Reply::Eisconn => 106,
        Reply::Ok
        | Reply::Port(_)
        | Reply::End(_)
        | Reply::TimeWait
        | Reply::NoSlot { .. }
        | Reply::Count(_)
        | Reply::Found(_)
        | Reply::Skip
        | Reply::Short => 0,
    }
}

/// The number of errno(3) by which Linux reports it; 0 where the command was carried out.
pub fn errno_of(outcome: Outcome) -> i32
    ensures { result ≡ pos (spec.errno_of outcome) }
{
    match outcome {
        Outcome::Replied(reply) => errno_of_reply(reply),
        Outcome::NoTables => 9,
        Outcome::Busy => 11,
        Outcome::NoMemory => 12,
        Outcome::NoWorker => 22,
        Outcome::NoNumber => 75,
        Outcome::FullLately => 105,
    }
}

/// The end that the socket has from then on, as far as the reply gives it, and else 0.
pub fn end_of(outcome: Outcome) -> End
    ensures { result ≡ spec.end_of outcome }
{
    match outcome {
        Outcome::Replied(Reply::End(end)) => end,
        Outcome::Replied(Reply::Port(port)) => End { addr: 0, port },
        _ => End { addr: 0, port: 0 },
    }
}

/// Whether a TIME_WAIT stays.
pub fn leaves_time_wait(outcome: Outcome) -> bool
    ensures { result ≡ spec.leaves_time_wait outcome }
{
    match outcome {
        Outcome::Replied(Reply::TimeWait) => true,
        _ => false,
    }
}

/// How many sockets it was done to.
pub fn count_of(outcome: Outcome) -> u64
    ensures { result ≡ spec.count_of outcome }
{
    match outcome {
        Outcome::Replied(Reply::Count(count)) => count,
        _ => 0,
    }
}
