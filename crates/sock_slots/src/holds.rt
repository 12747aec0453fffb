ghost use Rattle.std.specs.Prelude.{◌≡◌, ◌<◌, List, ◌∷◌, IfOk, OnErr};
ghost use Rattle.table_rule.specs.declared.view.Kept.{Kept};
ghost use Rattle.table_rule.specs.Alone.{IsGone};
ghost use Rattle.table_rule.specs.ReadersOk.{keeps_at};
ghost use Rattle.table_rule.specs.Beyond.{IsCardWords};
ghost use Rattle.table_rule.specs.Calls.{IsOf, view, Becomes, layout_of};
ghost use Rattle.table_rule.specs.LookCalls.{HasRoom, IsTaken, place_of};
ghost use Rattle.table_rule.specs.LookCalls.{with_words};
ghost use Rattle.table_rule.specs.Plays.{taking, trying, with_kept, letting_go, drop_at};
ghost use Rattle.table_rule.specs.Words.{words_of};
ghost use Rattle.sock_card.specs.Words.{packed};

use sock_card::{Card, CardWords};
use table_rule::{Chains, LEAST_LIVE, Steps, known_card};

/// A count on a slot: while it stands nobody claims the slot. It must be put.
pub struct Held {
    pub slot: u32,
}

/// The slot was not live as its count was read.
#[derive(Clone, Copy)]
pub struct Dead;

/// Takes a count of a live slot: its card stays as it is until the count is put.
///
/// One `fetch_add`; where the state that it read had no `LIVE`, one more step gives the count back.
pub fn take(chains: &Chains, steps: &mut Steps, slot: u32) -> Result<Held, Dead>
    requires table { IsOf chains.now steps.old }
    requires slot { slot < (layout_of chains.now).shape.slots }
    requires room { HasRoom (view steps.old) }
    ensures table { IsOf chains.now steps.new }
    ensures ok { IfOk result (λ h. (h.slot ≡ slot) × (Becomes steps.old steps.new (taking (view steps.old) slot))) }
    ensures dead { OnErr result (Becomes steps.old steps.new (trying (view steps.old))) }
    ensures gone { OnErr result (IsGone (view steps.old) slot) }
{
    if chains.step_take(steps, slot) < LEAST_LIVE {
        chains.step_put_dead(steps, slot);
        return Err(Dead);
    }
    Ok(Held { slot })
}

/// Gives a count back. One step.
pub fn put(chains: &Chains, steps: &mut Steps, held: Held)
    requires table { IsOf chains.now steps.old }
    requires slot { held.slot < (layout_of chains.now).shape.slots }
    requires held { 0 < keeps_at held.slot (view steps.old).read }
    ensures table { IsOf chains.now steps.new }
    ensures put { Becomes steps.old steps.new
        (with_kept (letting_go (view steps.old) held.slot)
        (drop_at (place_of held.slot (view steps.old).read.kept) (view steps.old).read.kept)) }
{
    let Held { slot } = held;
    chains.step_put(steps, slot);
}

/// The card of a slot whose count was taken last, by four loads.
pub fn card(chains: &Chains, steps: &mut Steps, held: &Held) -> Card
    requires table { IsOf chains.now steps.old }
    requires slot { held.now.slot < (layout_of chains.now).shape.slots }
    requires held { IsTaken held.now.slot (view steps.old) }
    ensures table { IsOf chains.now steps.new }
    ensures card { (h : Kept) (hs : List Kept) → (view steps.old).read.kept ≡ h ∷ hs
        → Becomes steps.old steps.new (with_kept (view steps.old) (with_words h (words_of (packed result)) ∷ hs)) }
    ensures words { IsCardWords (words_of (packed result)) }
{
    let ends = chains.step_read_held(steps, held.slot, 0);
    let ports = chains.step_read_held(steps, held.slot, 1);
    let name = chains.step_read_held(steps, held.slot, 2);
    let extra = chains.step_read_held(steps, held.slot, 3);
    known_card(&CardWords {
        ends,
        ports,
        name,
        extra,
    })
}
