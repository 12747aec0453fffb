ghost use Rattle.std.specs.Prelude.{◌≡◌, ◌<◌, ◌≤◌, []};
ghost use Rattle.null_reader.specs.Looked.{HasTwo, LookedAs, IsWhole, SoleAs, KnownAs, HadEnded, IsCardEnd, IsInside, MadeFew, OwnAs, words_end};
ghost use Rattle.table_rule.specs.Calls.{IsOf, view, me, layout_of};
ghost use Rattle.table_rule.specs.Words.{bucket_count};

use super::answers;
use super::answers::{LookEnd, Pace, WordsEnd, WordsLook};
use super::lookup::look_words;
use sock_card::Packet;
use table_rule::{Chains, Steps, known_card};

#[inline(always)]
fn as_card(end: WordsEnd) -> LookEnd
    requires card { IsCardEnd end }
    ensures { words_end result ≡ end }
{
    match end {
        WordsEnd::Found(held, words) => LookEnd::Found(held, known_card(&words)),
        WordsEnd::None => LookEnd::None,
        WordsEnd::Again(bucket, stop) => LookEnd::Again(bucket, stop),
    }
}

/// Looks up the card of a bucket that matches a packet best, with at least this rank, in at most so many passes.
///
/// It locks nothing, waits for nobody and takes no memory: each pass follows the bucket's links, at most one more
/// than there are slots, and takes a count of a slot before it trusts its card. Where others change the chain
/// meanwhile, a pass may end without an answer, and the next one begins anew. A rank of 5 ends a pass at once.
///
/// The algorithm is that of `__inet_lookup_established` of net/ipv4/inet_hashtables.c over hlist_nulls, which
/// Documentation/RCU/rculist_nulls.rst explains.
// Inlined, so that the least rank and the number of passes of a call are known within: from rank 5 on,
// a visit compares one four-tuple.
#[inline(always)]
pub fn look<P: Pace>(
    chains: &Chains,
    steps: &mut Steps,
    bucket: u32,
    packet: &Packet,
    least: u8,
    passes: u32,
    pace: &mut P,
) -> answers::Look
    requires table { IsOf chains.now steps.old }
    requires bucket { bucket < bucket_count (layout_of chains.now) }
    requires idle { (view steps.old).read.reader ≡ [] }
    requires room { HasTwo (view steps.old) }
    requires passes { 0 < passes }
    ensures table { IsOf chains.now steps.new }
    ensures fresh { (view steps.old).seen ≤ result.t0 }
    ensures span { result.t0 ≤ result.t1 }
    ensures looked { LookedAs bucket packet.now least passes (me steps.old) (words_end result.end) result.t0 result.t1
        (me steps.new) }
    ensures few { MadeFew passes (me steps.old) (words_end result.end) (me steps.new) }
    ensures inside { IsInside (layout_of chains.now) (words_end result.end) }
    ensures sole { IsWhole (view steps.old) → SoleAs bucket packet.now least (view steps.old) (words_end result.end) }
    ensures known { KnownAs bucket packet.now least (view steps.old) (words_end result.end) result.t0 }
    ensures before { HadEnded (view steps.old) result.t0 }
    ensures own { OwnAs (view steps.old) result.t1 (view steps.new) }
{
    let WordsLook { end, from, to } = look_words(
        chains, steps, bucket, *packet, least, passes, pace,
    );
    answers::Look {
        end: as_card(end),
        t0: from,
        t1: to,
    }
}
