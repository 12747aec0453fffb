ghost use Rattle.std.specs.Prelude.{◌≡◌, ◌<◌, ◌≤◌, List, [], ◌∷◌, ◌%◌, IfSome, IfNone, IfErr};
ghost use Rattle.table_rule.specs.declared.view.Reader.{Reader};
ghost use Rattle.table_rule.specs.declared.view.Kept.{Kept};
ghost use Rattle.sock_card.specs.Words.{word_rank as rank};
ghost use Rattle.table_rule.specs.Calls.{IsOf, view, me, Becomes, Stays, layout_of};
ghost use Rattle.table_rule.specs.LookCalls.{Looks, HasRoom, IsNth};
ghost use Rattle.null_reader.specs.Looked.{so_far, HasTwo, IsVisiting, IsChecking, Keyed, Checked, Visited, Walking, Turned, Passed, LookedAs, IsWhole, SoleAs, KnownAs, HadEnded, IsCardEnd, IsInside, IsStopInside, MadeFew, OwnAs};
ghost use Rattle.table_rule.specs.Plays.{Sat, with_kept, letting_go, drop_at};
ghost use Rattle.table_rule.specs.Words.{bucket_count};

use super::answers::{Best, Pace, PassEnd, Point, Turn, WordsEnd, WordsLook};
use sock_card::{CardWords, Packet, word_rank};
use sock_slots::Held;
use table_rule::{Chains, First, LEAST_LIVE, Second, Steps};

// How well the card that begins with these words fits a packet.
#[inline(always)]
fn rank(key: Packet, ends: u64, ports: u64) -> u8
    ensures { result ≡ rank key ends ports }
{
    word_rank(&key, ends, ports)
}

#[inline(always)]
fn rank_so_far(best: Option<Best>) -> u8
    ensures { result ≡ so_far best }
{
    match best {
        Some(held) => held.rank,
        None => 0,
    }
}

// Loads the two card words that give a rank, without a count.
#[inline(always)]
fn key_rank<P: Pace>(chains: &Chains, steps: &mut Steps, slot: u32, key: Packet, pace: &mut P) -> u8
    requires table { IsOf chains.now steps.old }
    requires slot { slot < (layout_of chains.now).shape.slots }
    requires at { IsVisiting slot key (view steps.old) }
    ensures table { IsOf chains.now steps.new }
    ensures keyed { (q : Reader) → Looks (view steps.old) q → Keyed slot key q (me steps.old) result (me steps.new) }
{
    pace.step(Point::Key(slot));
    let ends = chains.step_read_peeked(steps, slot, 0);
    pace.step(Point::Key(slot));
    let ports = chains.step_read_peeked(steps, slot, 1);
    rank(key, ends, ports)
}

// Loads the card under the count that was taken last. None where its rank is another.
#[inline(always)]
fn check<P: Pace>(
    chains: &Chains,
    steps: &mut Steps,
    slot: u32,
    key: Packet,
    rank_before: u8,
    pace: &mut P,
) -> Option<CardWords>
    requires table { IsOf chains.now steps.old }
    requires slot { slot < (layout_of chains.now).shape.slots }
    requires at { IsChecking slot key rank_before (view steps.old) }
    ensures table { IsOf chains.now steps.new }
    ensures checked { (q : Reader) (h : Kept) (hs : List Kept) → Looks (view steps.old) q
        → (view steps.old).read.kept ≡ h ∷ hs
        → Checked slot key rank_before q h hs (me steps.old) result (me steps.new) }
{
    pace.step(Point::Check(slot));
    let ends = chains.step_read_held(steps, slot, 0);
    pace.step(Point::Check(slot));
    let ports = chains.step_read_held(steps, slot, 1);
    pace.step(Point::Check(slot));
    let name = chains.step_read_held(steps, slot, 2);
    pace.step(Point::Check(slot));
    let extra = chains.step_read_last(steps, slot);
    if rank(key, ends, ports) == rank_before {
        Some(CardWords {
            ends,
            ports,
            name,
            extra,
        })
    } else {
        None
    }
}

// Visits the slot at the link: it is passed over, or is better than the best, or the pass ends.
#[inline(always)]
fn visit<P: Pace>(
    chains: &Chains,
    steps: &mut Steps,
    slot: u32,
    key: Packet,
    least: u8,
    best: u8,
    pace: &mut P,
) -> Result<Option<Best>, PassEnd>
    requires table { IsOf chains.now steps.old }
    requires slot { slot < (layout_of chains.now).shape.slots }
    requires room { HasRoom (view steps.old) }
    requires at { IsVisiting slot key (view steps.old) }
    requires best { (q : Reader) → Looks (view steps.old) q → q.best ≡ best }
    ensures table { IsOf chains.now steps.new }
    ensures inside { IfErr result (IsStopInside (layout_of chains.now)) }
    ensures visited { (q : Reader) → Looks (view steps.old) q
        → Visited slot key least best q (me steps.old) result (me steps.new) }
{
    let rank_before = key_rank(chains, steps, slot, key, pace);
    if rank_before < least || rank_before <= best {
        return Ok(None);
    }
    pace.step(Point::Take(slot));
    if chains.step_take_best(steps, slot) < LEAST_LIVE {
        pace.step(Point::Put(slot));
        chains.step_put_dead(steps, slot);
        return Err(PassEnd::Dead(slot));
    }
    match check(chains, steps, slot, key, rank_before, pace) {
        Some(card) => Ok(Some(Best {
            slot,
            card,
            rank: rank_before,
        })),
        None => {
            pace.step(Point::Put(slot));
            chains.step_put_nth::<First>(steps, slot);
            Err(PassEnd::Changed(slot))
        }
    }
}

// Puts what a pass holds.
#[inline(always)]
fn drop_best<P: Pace>(chains: &Chains, steps: &mut Steps, best: Option<Best>, pace: &mut P)
    requires table { IsOf chains.now steps.old }
    requires held { IfSome best (λ t. (t.slot < (layout_of chains.now).shape.slots) × IsNth 0 t.slot (view steps.old)) }
    ensures table { IsOf chains.now steps.new }
    ensures none { IfNone best (Stays steps.old steps.new) }
    ensures some { IfSome best (λ t. Becomes steps.old steps.new
        (with_kept (letting_go (view steps.old) t.slot) (drop_at 0 (view steps.old).read.kept))) }
{
    if let Some(held) = best {
        pace.step(Point::Put(held.slot));
        chains.step_put_nth::<First>(steps, held.slot);
    }
}

// Puts what a pass held before it took another.
#[inline(always)]
fn change_best<P: Pace>(chains: &Chains, steps: &mut Steps, best: Option<Best>, pace: &mut P)
    requires table { IsOf chains.now steps.old }
    requires held { IfSome best (λ t. (t.slot < (layout_of chains.now).shape.slots) × IsNth 1 t.slot (view steps.old)) }
    ensures table { IsOf chains.now steps.new }
    ensures none { IfNone best (Stays steps.old steps.new) }
    ensures some { IfSome best (λ t. Becomes steps.old steps.new
        (with_kept (letting_go (view steps.old) t.slot) (drop_at 1 (view steps.old).read.kept))) }
{
    if let Some(held) = best {
        pace.step(Point::Put(held.slot));
        chains.step_put_nth::<Second>(steps, held.slot);
    }
}

// Goes past the slot at the link.
#[inline(always)]
fn pass_by<P: Pace>(
    chains: &Chains,
    steps: &mut Steps,
    link: u64,
    followed: u64,
    key: Packet,
    least: u8,
    best: Option<Best>,
    pace: &mut P,
) -> Result<Turn, PassEnd>
    requires table { IsOf chains.now steps.old }
    requires even { (link % 2 ≡ 0) × (followed ≤ (layout_of chains.now).shape.slots) }
    requires room { HasRoom (view steps.old) }
    requires walking { (m : Sat) × (q : Reader) × (q.key ≡ key) × (q.least ≡ least) × (q.since ≤ m.0.seen)
        × Walking (layout_of chains.now) m q best link followed (me steps.old) }
    ensures table { IsOf chains.now steps.new }
    ensures inside { IfErr result (IsStopInside (layout_of chains.now)) }
    ensures turned { (m : Sat) (q : Reader) → Walking (layout_of chains.now) m q best link followed (me steps.old)
        → q.key ≡ key → q.least ≡ least → q.since ≤ m.0.seen
        → Turned (layout_of chains.now) m q followed result (me steps.new) }
{
    let slot = (link / 2) as u32;
    match visit(chains, steps, slot, key, least, rank_so_far(best), pace) {
        Ok(None) => {
            pace.step(Point::Link(slot));
            let next = chains.step_peek_link(steps, slot);
            Ok(Turn::On(best, next))
        }
        Ok(Some(better)) => {
            change_best(chains, steps, best, pace);
            if better.rank == 5 {
                return Ok(Turn::Found(better));
            }
            pace.step(Point::Link(slot));
            let next = chains.step_peek_link(steps, slot);
            Ok(Turn::On(Some(better), next))
        }
        Err(stop) => {
            drop_best(chains, steps, best, pace);
            Err(stop)
        }
    }
}

// One pass of a lookup: its best, or none, or how it stopped.
#[inline(always)]
fn one_pass<P: Pace>(
    chains: &Chains,
    steps: &mut Steps,
    bucket: u32,
    key: Packet,
    least: u8,
    pace: &mut P,
) -> Result<Option<Best>, PassEnd>
    requires table { IsOf chains.now steps.old }
    requires bucket { bucket < bucket_count (layout_of chains.now) }
    requires room { HasTwo (view steps.old) }
    requires looks { (q : Reader) × Looks (view steps.old) q × (q.bucket ≡ bucket) × (q.key ≡ key) × (q.least ≡ least)
        × (q.since ≤ (view steps.old).seen) × (q.walking ≡ 0) }
    ensures table { IsOf chains.now steps.new }
    ensures inside { IfErr result (IsStopInside (layout_of chains.now)) }
    ensures passed { (q : Reader) → Looks (view steps.old) q
        → Passed (layout_of chains.now) (me steps.old) q result (me steps.new) }
{
    pace.step(Point::Head);
    let mut link = chains.step_peek_head(steps, bucket);
    let mut best: Option<Best> = None;
    let slots = chains.slot_count() as u64;
    for followed in 0..slots + 2 {
        if link % 2 == 1 {
            if link == 2 * bucket as u64 + 1 {
                return Ok(best);
            }
            drop_best(chains, steps, best, pace);
            return Err(PassEnd::Foreign(link / 2));
        }
        if followed > slots {
            drop_best(chains, steps, best, pace);
            return Err(PassEnd::Long(followed));
        }
        match pass_by(chains, steps, link, followed, key, least, best, pace) {
            Ok(Turn::Found(found)) => return Ok(Some(found)),
            Ok(Turn::On(so_far, next)) => {
                best = so_far;
                link = next;
            }
            Err(stop) => return Err(stop),
        }
    }
    unreachable!()
}

// Looks up the best card of a bucket for a packet, in at most so many passes; of a card it answers the words.
#[inline(always)]
pub(crate) fn look_words<P: Pace>(
    chains: &Chains,
    steps: &mut Steps,
    bucket: u32,
    key: Packet,
    least: u8,
    passes: u32,
    pace: &mut P,
) -> WordsLook
    requires table { IsOf chains.now steps.old }
    requires bucket { bucket < bucket_count (layout_of chains.now) }
    requires idle { (view steps.old).read.reader ≡ [] }
    requires room { HasTwo (view steps.old) }
    requires passes { 0 < passes }
    ensures table { IsOf chains.now steps.new }
    ensures fresh { ((view steps.old).seen ≤ result.from) × (result.from ≤ result.to) }
    ensures looked { LookedAs bucket key least passes (me steps.old) result.end result.from result.to (me steps.new) }
    ensures few { MadeFew passes (me steps.old) result.end (me steps.new) }
    ensures card { IsCardEnd result.end }
    ensures inside { IsInside (layout_of chains.now) result.end }
    ensures sole { IsWhole (view steps.old) → SoleAs bucket key least (view steps.old) result.end }
    ensures known { KnownAs bucket key least (view steps.old) result.end result.from }
    ensures before { HadEnded (view steps.old) result.from }
    ensures own { OwnAs (view steps.old) result.to (view steps.new) }
{
    pace.step(Point::Start);
    let from = chains.step_clock_start(steps, bucket, key, least);
    let mut last = PassEnd::Dead(0);
    for done in 0..passes {
        match one_pass(chains, steps, bucket, key, least, pace) {
            Ok(Some(best)) => {
                pace.step(Point::End);
                let to = chains.step_clock_found(steps);
                return WordsLook {
                    end: WordsEnd::Found(Held { slot: best.slot }, best.card),
                    from,
                    to,
                };
            }
            Ok(None) => {
                pace.step(Point::End);
                let to = chains.step_clock_none(steps);
                return WordsLook {
                    end: WordsEnd::None,
                    from,
                    to,
                };
            }
            Err(stop) => last = stop,
        }
    }
    pace.step(Point::End);
    let to = chains.step_clock_again(steps);
    WordsLook {
        end: WordsEnd::Again(bucket, last),
        from,
        to,
    }
}
