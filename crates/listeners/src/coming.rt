//! A listener that comes into its chain.

ghost use Rattle.std.specs.Prelude.{◌≡◌, ◌+◌, ◌<◌, ◌≤◌, [], true, IfOk, IfSome, IfNone};
ghost use Rattle.chain_book.specs.Homes.{home};
ghost use Rattle.established.specs.Alone.{AddsAlone};
ghost use Rattle.established.specs.Comings.{Adds};
ghost use Rattle.nulls_chain.specs.Changes.{IsPlaced, PlacesStay, TwoDrawn};
ghost use Rattle.sock_card.specs.declared.card.Kind.TheVariants as kinds;
ghost use Rattle.table_rule.specs.Calls.{IsIdle, HasShares, layout_of};
ghost use Rattle.table_rule.specs.Changes.{len_of, capacity_of};
ghost use Rattle.table_rule.specs.Passes.{IsPassOf, known};
ghost use Rattle.table_rule.specs.Words.{bucket_count};

use bucket_locks::{lock, unlock};
use established::is_told;
use nulls_chain::{Place, hash, walk_to_end};
use patience::Patience;
use sock_card::Card;
use sock_slots::Full;
use table_rule::{Chains, Pass};

/// Hashes a listener into its chain, whatever stands there. `Full`: no slot is free, and of the change only its first
/// number is gone. None: another pass had the bucket's lock for as long as the caller's patience lasts, and nothing has
/// changed.
///
/// As `__inet_hash` of net/ipv4/inet_hashtables.c.
pub fn add<P: Patience>(
    chains: &Chains,
    patience: &P,
    pass: &mut Pass,
    bucket: u32,
    from: u32,
    card: &Card,
) -> Option<Result<Place, Full>>
    requires table { IsPassOf chains.now pass.old }
    requires bucket { bucket < bucket_count (layout_of chains.now) }
    requires home { home (layout_of chains.now).shape (layout_of chains.now).seed card.now ≡ bucket }
    requires listens { card.now.kind ≡ kinds.Listen }
    requires idle { IsIdle (known pass.old).slot × ((known pass.old).book.opened ≡ []) }
    requires free { (known pass.old).chain.locked ≡ [] }
    requires from { from ≤ (layout_of chains.now).shape.slots }
    requires room { len_of pass.old.changes < capacity_of pass.old.changes }
    requires share { HasShares 2 (known pass.old) }
    ensures table { IsPassOf chains.now pass.new }
    ensures idle { IsIdle (known pass.new).slot × ((known pass.new).book.opened ≡ []) }
    ensures free { (known pass.new).chain.locked ≡ [] }
    ensures answer { IfSome result
        (λ answer. Adds (layout_of chains.now) from bucket card.now answer (known pass.old) (known pass.new)) }
    ensures alone { IfSome result
        (λ answer. AddsAlone (layout_of chains.now) from bucket card.now answer (known pass.old) (known pass.new)) }
    ensures place { IfSome result (λ answer. IfOk answer (λ place. IsPlaced place (known pass.new).book)) }
    ensures none { IfNone result (known pass.new ≡ known pass.old) }
    ensures kept { IfNone result (pass.new.changes ≡ pass.old.changes) }
    ensures had { P.endless ≡ true → IfNone result ⊥ }
    ensures stay { PlacesStay (known pass.old) (known pass.new) }
    ensures share { TwoDrawn (known pass.old) (known pass.new) }
    ensures hand { pass.new.steps.seat.me.1 ≡ pass.old.steps.seat.me.1 }
    ensures room { capacity_of pass.new.changes ≡ capacity_of pass.old.changes }
    ensures len { len_of pass.new.changes ≤ len_of pass.old.changes + 1 }
{
    let mut locked = lock(chains, patience, &mut pass.steps, bucket)?;
    walk_to_end(chains, &mut pass.steps, &mut locked);
    is_told(card);
    let answer = hash(chains, pass, &locked, from, card);
    unlock(chains, &mut pass.steps, locked);
    Some(answer)
}
