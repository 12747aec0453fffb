//! What the output shows of replies, in less room than theirs.

ghost use Rattle.std.specs.Prelude.{◌≡◌, ◌+◌, ◌*◌, ◌^◌, map, IfOk, Some};
ghost use Rattle.flat_list.specs.declared.command.Reply.TheVariants as replies;
ghost use Rattle.sock_script.specs.Shown.{kept_reply, shown};

use flat_list::{End, Reply};
use sock_card::{Card, Kind};
use std::alloc::{AllocError, Global};
use std::marker::Model;

/// What the output shows of a reply: of a card that was found, its kind and its name. It takes 16 bytes.
///
/// A contract sees it as a reply whose card, if there is one, says nothing else.
#[derive(Debug, Drop)]
pub struct Shown {
    brief: Brief,
}

/// What is shown, by a variant for each of a reply's, and two for the answers of a lookup.
#[derive(Clone, Copy, Debug, PartialEq, Eq)]
pub enum Brief {
    Ok,
    Port(u16),
    End(End),
    TimeWait,
    NoSlot { owned: u32, held: u32 },
    /// So many sockets: `high` times 2^32 and `low`, which may lie at any fourth byte, as those of a name.
    Count { high: u32, low: u32 },
    /// A packet finds the socket of that name.
    Found { kind: Kind, high: u32, low: u32 },
    /// A packet finds none.
    None,
    Skip,
    Short,
    Ebadf,
    Einval,
    Eisconn,
    Eaddrinuse,
    Eaddrnotavail,
    Emfile,
    Enfile { owned: u32, held: u32 },
}

impl Model for Shown {
    ghost use Rattle.flat_list.specs.declared.command.Reply.{Reply};
    ghost use Rattle.sock_script.specs.Shown.{kept_reply};

    ghost Value = { Reply };

    ghost view = { λ s. kept_reply s.brief };
}

/// The two halves of a number: how often 2^32 is in it, and what is left.
fn halves(number: u64) -> (u32, u32)
    ensures { result.0 * 2 ^ 32 + result.1 ≡ number }
{
    let high = number / 0x1_0000_0000;
    let low = number % 0x1_0000_0000;
    (high as u32, low as u32)
}

/// How a count is kept.
fn count_of(number: u64) -> Brief
    ensures { kept_reply result ≡ replies.Count number }
{
    let (high, low) = halves(number);
    Brief::Count { high, low }
}

/// The number of those two halves.
pub(crate) fn whole(high: u32, low: u32) -> u64
    ensures { result ≡ high * 2 ^ 32 + low }
{
    u64::from(high) * 0x1_0000_0000 + u64::from(low)
}

/// How the card of a socket that was found is kept.
fn found_of(card: &Card) -> Brief
    ensures { kept_reply result ≡ shown (replies.Found (Some card.now)) }
{
    let (high, low) = halves(card.name);
    Brief::Found {
        kind: card.kind,
        high,
        low,
    }
}

/// What is shown of a reply.
fn brief_of(reply: &Reply) -> Brief
    ensures { kept_reply result ≡ shown reply.now }
{
    match reply {
        Reply::Ok => Brief::Ok,
        Reply::Port(port) => Brief::Port(*port),
        Reply::End(end) => Brief::End(*end),
        Reply::TimeWait => Brief::TimeWait,
        Reply::NoSlot { owned, held } => Brief::NoSlot {
            owned: *owned,
            held: *held,
        },
        Reply::Count(count) => count_of(*count),
        Reply::Found(Some(card)) => found_of(card),
        Reply::Found(None) => Brief::None,
        Reply::Skip => Brief::Skip,
        Reply::Short => Brief::Short,
        Reply::Ebadf => Brief::Ebadf,
        Reply::Einval => Brief::Einval,
        Reply::Eisconn => Brief::Eisconn,
        Reply::Eaddrinuse => Brief::Eaddrinuse,
        Reply::Eaddrnotavail => Brief::Eaddrnotavail,
        Reply::Emfile => Brief::Emfile,
        Reply::Enfile { owned, held } => Brief::Enfile {
            owned: *owned,
            held: *held,
        },
    }
}

impl Shown {
    /// What is shown of a reply.
    #[inline(always)]
    pub fn of(reply: &Reply) -> Self
        ensures { result ≡ shown reply.now }
    {
        Shown {
            brief: brief_of(reply),
        }
    }

    /// What is shown of each of some replies. Takes memory for that.
    pub fn of_each(alloc: Global, replies: &[Reply]) -> Result<Vec<Shown>, AllocError>
        ensures { IfOk result (λ each. each.items ≡ map shown replies.now) }
    {
        let mut each = Vec::with_capacity(alloc, replies.len())?;
        for reply in replies {
            each.push(Shown::of(reply))?;
        }
        Ok(each)
    }

    /// It as an enum, to be matched on.
    pub fn brief(&self) -> Brief
        ensures { self.now ≡ kept_reply result }
    {
        self.brief
    }
}
