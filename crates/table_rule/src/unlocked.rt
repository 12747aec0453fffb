// The single steps of lookups without locks.
ghost use Rattle.std.specs.Prelude.{◌≡◌, ◌<◌, ◌≤◌, ℕ, List, [], ◌∷◌};
ghost use Rattle.table_rule.specs.Words.{bucket_count};
ghost use Rattle.table_rule.specs.declared.view.Reader.{Reader};
ghost use Rattle.table_rule.specs.declared.view.Kept.{Kept};
ghost use Rattle.table_rule.specs.declared.view.Seen.{Seen};
ghost use Rattle.table_rule.specs.Lists.{times};
ghost use Rattle.table_rule.specs.ReadersOk.{keeps_at, rank_of};
ghost use Rattle.table_rule.specs.Alone.{IsAlone, NoneStands, CardStands, NoneKnown, IsGone};
ghost use Rattle.table_rule.specs.declared.view.Change.{Change};
ghost use mathlib.Core.Option.{some};
ghost use lib.ListN.{get_elem?};
ghost use Rattle.table_rule.specs.Beyond.{IsCardWords};
ghost use Rattle.table_rule.specs.Calls.{IsOf, view, Becomes};
ghost use Rattle.table_rule.specs.LookCalls.{place_of, Looks, IsAtSlot, IsPassed, IsKept, IsNth, IsJudged, IsNone, IsFound, IsStopped, HasRoom};
ghost use Rattle.table_rule.specs.Plays.{CardLearnt, setting_out, entering, following, Arrives, with_reader, with_kept, glancing, IsLive, taking, counting, stopping, letting_go, drop_at, learning, Judges, concluding, receipt, OwnExplains};

use super::rule::{
    Asked, EndAgain, EndFound, EndNone, Glance, Judge, Learn, LetGo, LetGoDead, PeekHead, PeekLink,
    Reach, SetOut, Take, Told,
};
use super::table::{Chains, Steps};
use sock_card::Packet;
use std::marker::Brand;

impl Chains {
    fn clock_start_as<T: Asked>(
        &self,
        steps: &mut Steps,
        bucket: u32,
        key: Packet,
        least: u8,
    ) -> u64
        requires table { IsOf self.now steps.old }
        requires told { (bucket ≡ T.bucket) × (key ≡ T.key) × (least ≡ T.least) }
        requires idle { (view steps.old).read.reader ≡ [] }
        ensures table { IsOf self.now steps.new }
        ensures seen { (view steps.old).seen ≤ result }
        ensures view { Becomes steps.old steps.new (setting_out (view steps.old) bucket key least result) }
        ensures before { (k : ℕ) (c : Change) → get_elem? (view steps.old).book.closed k ≡ some c → c.ends < result }
    {
        let now = self.table.shared.load::<SetOut<T>>(&mut steps.seat, 0);
        steps.seen = now;
        now
    }

    /// Loads the clock, as a lookup begins.
    pub fn step_clock_start(&self, steps: &mut Steps, bucket: u32, key: Packet, least: u8) -> u64
        requires table { IsOf self.now steps.old }
        requires idle { (view steps.old).read.reader ≡ [] }
        ensures table { IsOf self.now steps.new }
        ensures seen { (view steps.old).seen ≤ result }
        ensures view { Becomes steps.old steps.new (setting_out (view steps.old) bucket key least result) }
        ensures before { (k : ℕ) (c : Change) → get_elem? (view steps.old).book.closed k ≡ some c → c.ends < result }
    {
        self.clock_start_as::<Brand>(steps, bucket, key, least)
    }

    /// Loads the head of a bucket without its lock, as a pass begins: the first one, or one after a pass that stopped.
    pub fn step_peek_head(&self, steps: &mut Steps, bucket: u32) -> u64
        requires table { IsOf self.now steps.old }
        requires bucket { bucket < bucket_count self.now.layout }
        requires looks { (q : Reader) × Looks (view steps.old) q × (q.bucket ≡ bucket) × (q.walking ≡ 0) }
        ensures table { IsOf self.now steps.new }
        ensures met { (q : Reader) → Looks (view steps.old) q
            → Arrives steps.old.seat.me (entering q) q.bucket result steps.new.seat.me }
    {
        let word = self.head_word(bucket);
        self.table.shared.load::<PeekHead>(&mut steps.seat, word)
    }

    /// Loads the link of a slot that is passed over.
    pub fn step_peek_link(&self, steps: &mut Steps, slot: u32) -> u64
        requires table { IsOf self.now steps.old }
        requires slot { slot < self.now.layout.shape.slots }
        requires passed { IsPassed self.now.layout slot (view steps.old) }
        ensures table { IsOf self.now steps.new }
        ensures met { (q : Reader) → Looks (view steps.old) q
            → Arrives steps.old.seat.me (following q) q.bucket result steps.new.seat.me }
    {
        let word = self.word_at(slot, 1);
        self.table.shared.load::<PeekLink>(&mut steps.seat, word)
    }

    /// Loads the next card word of the slot at the link, without a count.
    pub fn step_read_peeked(&self, steps: &mut Steps, slot: u32, word: u8) -> u64
        requires table { IsOf self.now steps.old }
        requires slot { slot < self.now.layout.shape.slots }
        requires word { word < 4 }
        requires at { IsAtSlot slot word (view steps.old) }
        ensures table { IsOf self.now steps.new }
        ensures view { (q : Reader) → Looks (view steps.old) q
            → Becomes steps.old steps.new (with_reader (view steps.old) (glancing q result ∷ [])) }
    {
        let place = self.word_at(slot, 2 + word);
        self.table.shared.load::<Glance>(&mut steps.seat, place)
    }

    /// Takes a count of a slot. The answer is the state that was found.
    pub fn step_take(&self, steps: &mut Steps, slot: u32) -> u64
        requires table { IsOf self.now steps.old }
        requires slot { slot < self.now.layout.shape.slots }
        requires room { HasRoom (view steps.old) }
        ensures table { IsOf self.now steps.new }
        ensures live { IsLive result → Becomes steps.old steps.new (taking (view steps.old) slot) }
        ensures dead { (IsLive result → ⊥) → Becomes steps.old steps.new (counting (view steps.old) slot) }
        ensures counted { (j : ℕ) → keeps_at j (view steps.old).read ≤ times j (view steps.old).slot.holds }
        ensures gone { (IsLive result → ⊥) → IsGone (view steps.old) slot }
    {
        let word = self.word_at(slot, 0);
        self.table
            .shared
            .fetch_add::<Take>(&mut steps.seat, word, 1)
    }

    /// Takes a count of the slot at the link: without LIVE the pass stops.
    pub fn step_take_best(&self, steps: &mut Steps, slot: u32) -> u64
        requires table { IsOf self.now steps.old }
        requires slot { slot < self.now.layout.shape.slots }
        requires room { HasRoom (view steps.old) }
        requires at { IsAtSlot slot 2 (view steps.old) }
        ensures table { IsOf self.now steps.new }
        ensures live { IsLive result → Becomes steps.old steps.new (taking (view steps.old) slot) }
        ensures dead { (IsLive result → ⊥) → (q : Reader) → Looks (view steps.old) q
            → Becomes steps.old steps.new (with_reader (counting (view steps.old) slot) (stopping q 1 slot ∷ [])) }
        ensures counted { (j : ℕ) → keeps_at j (view steps.old).read ≤ times j (view steps.old).slot.holds }
    {
        let word = self.word_at(slot, 0);
        self.table
            .shared
            .fetch_add::<Reach>(&mut steps.seat, word, 1)
    }

    /// Puts the nth of the counts that were taken with LIVE.
    pub fn step_put_nth<T: Told>(&self, steps: &mut Steps, slot: u32)
        requires table { IsOf self.now steps.old }
        requires slot { slot < self.now.layout.shape.slots }
        requires nth { IsNth T.slot slot (view steps.old) }
        ensures table { IsOf self.now steps.new }
        ensures view { Becomes steps.old steps.new
            (with_kept (letting_go (view steps.old) slot) (drop_at T.slot (view steps.old).read.kept)) }
    {
        let word = self.word_at(slot, 0);
        self.table
            .shared
            .fetch_sub::<LetGo<T>>(&mut steps.seat, word, 1);
    }

    /// Puts the first count on a slot that was taken with LIVE.
    pub fn step_put(&self, steps: &mut Steps, slot: u32)
        requires table { IsOf self.now steps.old }
        requires slot { slot < self.now.layout.shape.slots }
        requires held { 0 < keeps_at slot (view steps.old).read }
        ensures table { IsOf self.now steps.new }
        ensures put { Becomes steps.old steps.new
            (with_kept (letting_go (view steps.old) slot)
            (drop_at (place_of slot (view steps.old).read.kept) (view steps.old).read.kept)) }
    {
        self.step_put_nth::<std::marker::Brand>(steps, slot);
    }

    /// Puts a count that was not taken with LIVE.
    pub fn step_put_dead(&self, steps: &mut Steps, slot: u32)
        requires table { IsOf self.now steps.old }
        requires slot { slot < self.now.layout.shape.slots }
        requires more { keeps_at slot (view steps.old).read < times slot (view steps.old).slot.holds }
        ensures table { IsOf self.now steps.new }
        ensures view { Becomes steps.old steps.new (letting_go (view steps.old) slot) }
    {
        let word = self.word_at(slot, 0);
        self.table
            .shared
            .fetch_sub::<LetGoDead>(&mut steps.seat, word, 1);
    }

    /// Loads the next card word under the count that was taken last.
    pub fn step_read_held(&self, steps: &mut Steps, slot: u32, word: u8) -> u64
        requires table { IsOf self.now steps.old }
        requires slot { slot < self.now.layout.shape.slots }
        requires word { word < 4 }
        requires kept { IsKept slot word (view steps.old) }
        ensures table { IsOf self.now steps.new }
        ensures view { Becomes steps.old steps.new
            (with_kept (view steps.old) (learning (view steps.old).read.kept result)) }
        ensures card { CardLearnt (view steps.old) result }
    {
        let place = self.word_at(slot, 2 + word);
        self.table.shared.load::<Learn>(&mut steps.seat, place)
    }

    /// Loads the last card word under the count that was taken last, in a lookup.
    pub fn step_read_last(&self, steps: &mut Steps, slot: u32) -> u64
        requires table { IsOf self.now steps.old }
        requires slot { slot < self.now.layout.shape.slots }
        requires kept { IsJudged slot (view steps.old) }
        ensures table { IsOf self.now steps.new }
        ensures judged { (q : Reader) (s : Seen) (h : Kept) (hs : List Kept) → Looks (view steps.old) q
            → q.peeked ≡ s ∷ [] → (view steps.old).read.kept ≡ h ∷ hs
            → Judges steps.old.seat.me q s h result steps.new.seat.me }
    {
        let place = self.word_at(slot, 5);
        self.table.shared.load::<Judge>(&mut steps.seat, place)
    }

    /// Loads the clock, as a lookup ends with nothing found.
    pub fn step_clock_none(&self, steps: &mut Steps) -> u64
        requires table { IsOf self.now steps.old }
        requires none { IsNone (view steps.old) }
        ensures table { IsOf self.now steps.new }
        ensures seen { (view steps.old).seen ≤ result }
        ensures view { (q : Reader) → Looks (view steps.old) q
            → Becomes steps.old steps.new (concluding (view steps.old) (receipt q 0 [] result)) }
        ensures sole { (q : Reader) → Looks (view steps.old) q → IsAlone (view steps.old) q.since
            → NoneStands (view steps.old) q.bucket q.key q.least 0 }
        ensures known { (q : Reader) → Looks (view steps.old) q
            → NoneKnown (view steps.old) q.bucket q.key q.least 0 q.since }
        ensures own { (q : Reader) → Looks (view steps.old) q
            → OwnExplains (view steps.old) result (receipt q 0 [] result) }
    {
        let now = self.table.shared.load::<EndNone>(&mut steps.seat, 0);
        steps.seen = now;
        now
    }

    /// Loads the clock, as a lookup ends with its best.
    pub fn step_clock_found(&self, steps: &mut Steps) -> u64
        requires table { IsOf self.now steps.old }
        requires found { IsFound (view steps.old) }
        ensures table { IsOf self.now steps.new }
        ensures seen { (view steps.old).seen ≤ result }
        ensures view { (q : Reader) (h : Kept) (hs : List Kept) → Looks (view steps.old) q
            → (view steps.old).read.kept ≡ h ∷ hs
            → Becomes steps.old steps.new (concluding (view steps.old) (receipt q 1 h.words result)) }
        ensures sole { (q : Reader) (h : Kept) (hs : List Kept) → Looks (view steps.old) q
            → (view steps.old).read.kept ≡ h ∷ hs → IsAlone (view steps.old) q.since
            → CardStands (view steps.old) h.words
            × NoneStands (view steps.old) q.bucket q.key q.least (rank_of q.key h.words) }
        ensures card { (q : Reader) (h : Kept) (hs : List Kept) → Looks (view steps.old) q
            → (view steps.old).read.kept ≡ h ∷ hs → IsCardWords h.words }
        ensures known { (q : Reader) (h : Kept) (hs : List Kept) → Looks (view steps.old) q
            → (view steps.old).read.kept ≡ h ∷ hs
            → NoneKnown (view steps.old) q.bucket q.key q.least (rank_of q.key h.words) q.since }
        ensures own { (q : Reader) (h : Kept) (hs : List Kept) → Looks (view steps.old) q
            → (view steps.old).read.kept ≡ h ∷ hs → OwnExplains (view steps.old) result (receipt q 1 h.words result) }
    {
        let now = self.table.shared.load::<EndFound>(&mut steps.seat, 0);
        steps.seen = now;
        now
    }

    /// Loads the clock, as a lookup ends where each pass stopped.
    pub fn step_clock_again(&self, steps: &mut Steps) -> u64
        requires table { IsOf self.now steps.old }
        requires stopped { IsStopped (view steps.old) }
        ensures table { IsOf self.now steps.new }
        ensures seen { (view steps.old).seen ≤ result }
        ensures view { (q : Reader) → Looks (view steps.old) q
            → Becomes steps.old steps.new (concluding (view steps.old) (receipt q 2 [] result)) }
        ensures sole { (q : Reader) → Looks (view steps.old) q → IsAlone (view steps.old) q.since → ⊥ }
        ensures own { (q : Reader) → Looks (view steps.old) q
            → OwnExplains (view steps.old) result (receipt q 2 [] result) }
    {
        let now = self.table.shared.load::<EndAgain>(&mut steps.seat, 0);
        steps.seen = now;
        now
    }
}
