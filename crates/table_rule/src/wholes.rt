// The single steps that a whole lookup of a packet has besides those through its buckets: counts that are put,
// and its end.
ghost use Rattle.std.specs.Prelude.{◌≡◌, ◌<◌, ◌≤◌, ℕ};
ghost use mathlib.Core.Option.{some};
ghost use lib.ListN.{get_elem?};
ghost use Rattle.table_rule.specs.declared.view.Kept.{Kept};
ghost use Rattle.table_rule.specs.Rule.{drawn};
ghost use Rattle.table_rule.specs.Alone.{mine, IsAlone, IsSoleWhole, IsKnownWhole, SlotStands};
ghost use Rattle.table_rule.specs.Explained.{IsWholeExplained};
ghost use Rattle.table_rule.specs.Calls.{IsOf, view, Becomes};
ghost use Rattle.table_rule.specs.LookCalls.{place_of, IsLearnt};
ghost use Rattle.table_rule.specs.Plays.{sighting, summing};
ghost use Rattle.table_rule.specs.Wholes.{Follows, whole_of};

use super::rule::{LetSee, Sum, Summed, Told};
use super::table::{Chains, Steps};
use chain_book::PacketAnswer;
use sock_card::Packet;
use std::marker::Brand;

impl Chains {
    fn put_seen_as<T: Told>(&self, steps: &mut Steps, slot: u32)
        requires table { IsOf self.now steps.old }
        requires slot { slot < self.now.layout.shape.slots }
        requires learnt { IsLearnt T.slot slot (view steps.old) }
        ensures table { IsOf self.now steps.new }
        ensures view { Becomes steps.old steps.new (sighting T.slot (view steps.old) slot) }
        ensures stands { (from : ℕ) (h : Kept) → IsAlone (view steps.old) from
            → get_elem? (view steps.old).read.kept T.slot ≡ some h → from ≤ h.since
            → SlotStands (view steps.old) slot h.words }
    {
        let word = self.word_at(slot, 0);
        self.table
            .shared
            .fetch_sub::<LetSee<T>>(&mut steps.seat, word, 1);
    }

    /// Puts the first count on a slot that was taken with LIVE and under which the whole card was loaded. From then
    /// on the pass knows that the card stood.
    pub fn step_put_seen(&self, steps: &mut Steps, slot: u32)
        requires table { IsOf self.now steps.old }
        requires slot { slot < self.now.layout.shape.slots }
        requires learnt { IsLearnt (place_of slot (view steps.old).read.kept) slot (view steps.old) }
        ensures table { IsOf self.now steps.new }
        ensures put { Becomes steps.old steps.new
            (sighting (place_of slot (view steps.old).read.kept) (view steps.old) slot) }
        ensures stands { (from : ℕ) (h : Kept) → IsAlone (view steps.old) from
            → get_elem? (view steps.old).read.kept (place_of slot (view steps.old).read.kept) ≡ some h → from ≤ h.since
            → SlotStands (view steps.old) slot h.words }
    {
        self.put_seen_as::<Brand>(steps, slot);
    }

    // Its arguments are the receipt that it is given.
    fn clock_whole_as<T: Summed>(
        &self,
        steps: &mut Steps,
        packet: Packet,
        seed: u32,
        from: u64,
        answer: PacketAnswer,
    ) -> u64
        requires table { IsOf self.now steps.old }
        requires told { whole_of packet seed from answer ≡ T.whole }
        requires follows { Follows (view steps.old) T.whole }
        ensures table { IsOf self.now steps.new }
        ensures seen { (view steps.old).seen ≤ result }
        ensures view { Becomes steps.old steps.new (summing (view steps.old) (record T.whole { to = result })) }
        ensures sole { IsAlone (view steps.old) T.whole.from
            → IsSoleWhole (view steps.old) (record T.whole { to = result }) }
        ensures own { drawn (view steps.old) ≡ result
            → IsWholeExplained (mine (view steps.old)) (view steps.old).layout (record T.whole { to = result }) }
        ensures known { IsKnownWhole (view steps.old) (record T.whole { to = result }) }
    {
        let now = self.table.shared.load::<Sum<T>>(&mut steps.seat, 0);
        steps.seen = now;
        now
    }

    /// Loads the clock, as a whole lookup of a packet ends with an answer that follows from this pass's own receipts
    /// and from the cards that it put.
    pub fn step_clock_whole(
        &self,
        steps: &mut Steps,
        packet: Packet,
        seed: u32,
        from: u64,
        answer: PacketAnswer,
    ) -> u64
        requires table { IsOf self.now steps.old }
        requires follows { Follows (view steps.old) (whole_of packet seed from answer) }
        ensures table { IsOf self.now steps.new }
        ensures seen { (view steps.old).seen ≤ result }
        ensures view { Becomes steps.old steps.new
            (summing (view steps.old) (record (whole_of packet seed from answer) { to = result })) }
        ensures sole { IsAlone (view steps.old) from
            → IsSoleWhole (view steps.old) (record (whole_of packet seed from answer) { to = result }) }
        ensures own { drawn (view steps.old) ≡ result
            → IsWholeExplained (mine (view steps.old)) (view steps.old).layout
            (record (whole_of packet seed from answer) { to = result }) }
        ensures known { IsKnownWhole (view steps.old) (record (whole_of packet seed from answer) { to = result }) }
    {
        self.clock_whole_as::<Brand>(steps, packet, seed, from, answer)
    }
}
