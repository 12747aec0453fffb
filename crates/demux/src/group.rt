//! The choice of a listener's group, while the best listener is held.

ghost use Rattle.std.specs.Prelude.{◌≡◌, ◌<◌, ◌∷◌, List, IfSome, IfNone};
ghost use Rattle.chain_book.specs.Homes.{packet_hash};
ghost use Rattle.reuseport_group.specs.Passes.{IsPassOf};
ghost use Rattle.reuseport_group.specs.Passes as words;
ghost use Rattle.demux.specs.Chosen.{group_in, sighted_view, StandsThere, Chosen, ByGroup, LeavesLists};
ghost use Rattle.established.specs.Finds.{card_rank};
ghost use Rattle.sock_card.specs.Words.{packed};
ghost use Rattle.table_rule.specs.Alone.{IsGone};
ghost use Rattle.table_rule.specs.Calls.{IsOf, view, me, layout_of, Becomes};
ghost use Rattle.table_rule.specs.LookCalls.{HasRoom, IsTaken, with_words};
ghost use Rattle.table_rule.specs.Plays.{trying, with_kept};
ghost use Rattle.table_rule.specs.Words.{words_of};
ghost use Rattle.table_rule.specs.declared.view.Kept.{Kept};

use chain_book::packet_hash;
use null_reader::{Pace, Point};
use reuseport_group::{GroupPasses, Groups, name_of, slot_of};
use sock_card::{Card, CardWords, Kind, Packet, pack, word_rank};
use table_rule::{Chains, LEAST_LIVE, Steps, known_card};

/// The group that a listener's card names, if it is one of so many.
fn group_of(card: &Card, count: u32) -> Option<u32>
    ensures { result ≡ group_in card.now count }
{
    match card.kind {
        Kind::Listen => {
            if card.extra == 0 || count < card.extra {
                None
            } else {
                Some(card.extra - 1)
            }
        }
        Kind::Full | Kind::TimeWait | Kind::Request => None,
    }
}

/// How well a card matches a packet.
fn rank_of(packet: &Packet, card: &Card) -> u8
    ensures { result ≡ card_rank packet.now card.now }
{
    let CardWords { ends, ports, .. } = pack(card);
    word_rank(packet, ends, ports)
}

/// The card under the count that was taken last.
fn card_of<P: Pace>(chains: &Chains, steps: &mut Steps, slot: u32, pace: &mut P) -> Card
    requires table { IsOf chains.now steps.old }
    requires slot { slot < (layout_of chains.now).shape.slots }
    requires taken { IsTaken slot (view steps.old) }
    ensures table { IsOf chains.now steps.new }
    ensures card { (h : Kept) (hs : List Kept) → (view steps.old).read.kept ≡ h ∷ hs
        → Becomes steps.old steps.new (with_kept (view steps.old) (with_words h (words_of (packed result)) ∷ hs)) }
{
    pace.step(Point::Check(slot));
    let ends = chains.step_read_held(steps, slot, 0);
    pace.step(Point::Check(slot));
    let ports = chains.step_read_held(steps, slot, 1);
    pace.step(Point::Check(slot));
    let name = chains.step_read_held(steps, slot, 2);
    pace.step(Point::Check(slot));
    let extra = chains.step_read_held(steps, slot, 3);
    known_card(&CardWords {
        ends,
        ports,
        name,
        extra,
    })
}

/// The card of a slot, if it is live: a count is taken, the card loaded, and the count put.
fn sight<P: Pace>(chains: &Chains, steps: &mut Steps, slot: u32, pace: &mut P) -> Option<Card>
    requires table { IsOf chains.now steps.old }
    requires slot { slot < (layout_of chains.now).shape.slots }
    requires room { HasRoom (view steps.old) }
    ensures table { IsOf chains.now steps.new }
    ensures none { IfNone result (Becomes steps.old steps.new (trying (view steps.old))) }
    ensures gone { IfNone result (IsGone (view steps.old) slot) }
    ensures some { IfSome result (λ card. Becomes steps.old steps.new (sighted_view (view steps.old) card)) }
    ensures stands { IfSome result (λ card. StandsThere (view steps.old) slot card) }
{
    pace.step(Point::Take(slot));
    if chains.step_take(steps, slot) < LEAST_LIVE {
        pace.step(Point::Put(slot));
        chains.step_put_dead(steps, slot);
        return None;
    }
    let card = card_of(chains, steps, slot, pace);
    pace.step(Point::Put(slot));
    chains.step_put_seen(steps, slot);
    Some(card)
}

/// The member's card where its name ends as the member's number says and it has the best's rank, else the best.
fn member_or_best<P: Pace>(
    chains: &Chains,
    steps: &mut Steps,
    packet: &Packet,
    best: &Card,
    member: u64,
    pace: &mut P,
) -> Card
    requires table { IsOf chains.now steps.old }
    requires room { HasRoom (view steps.old) }
    ensures table { IsOf chains.now steps.new }
    ensures chosen { Chosen (layout_of chains.now).shape.slots packet.now (me steps.old) best.now member result
        (me steps.new) }
{
    let slot = slot_of(member);
    if slot >= chains.slot_count() {
        return *best;
    }
    match sight(chains, steps, slot, pace) {
        Some(card) => {
            if (card.name % 0x1_0000_0000) as u32 == name_of(member)
                && rank_of(packet, &card) == rank_of(packet, best)
            {
                card
            } else {
                *best
            }
        }
        None => *best,
    }
}

/// The choice of the best's group, if it names one.
pub(crate) fn by_group<P: Pace>(
    chains: &Chains,
    groups: &Groups,
    seed: u32,
    steps: &mut Steps,
    group_passes: &mut GroupPasses,
    packet: &Packet,
    best: &Card,
    pace: &mut P,
) -> Card
    requires table { IsOf chains.now steps.old }
    requires room { HasRoom (view steps.old) }
    requires groups { IsPassOf groups.now group_passes.old }
    ensures table { IsOf chains.now steps.new }
    ensures groups { IsPassOf groups.now group_passes.new }
    ensures chosen { ByGroup (layout_of chains.now).shape.slots (words.groups groups.now) packet.now
        (packet_hash packet.now seed) (me steps.old) best.now group_passes.old result (me steps.new) group_passes.new }
    ensures lists { LeavesLists group_passes.old group_passes.new }
{
    let Some(group) = group_of(best, groups.count()) else {
        return *best;
    };
    match groups.choose(group_passes, group, packet_hash(packet, seed)) {
        Some(choice) => member_or_best(chains, steps, packet, best, choice.member, pace),
        None => *best,
    }
}
