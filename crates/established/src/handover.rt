//! A handshake that is over: the request's socket comes in its stead.

ghost use Rattle.std.specs.Prelude.{◌≡◌, ◌+◌, ◌<◌, ◌≤◌, [], length, true, IfOk, IfErr, IfSome, IfNone};
ghost use Rattle.bucket_locks.specs.Locks.{IsAt, WalkKnown};
ghost use Rattle.chain_book.specs.Homes.{home};
ghost use Rattle.chain_book.specs.Tuples.{same_cards};
ghost use Rattle.nulls_chain.specs.Changes.{IsPlaced, IsPlacedBy, OthersStay, OtherPlacesStay, PlacesStay};
ghost use Rattle.established.specs.Alone.{HandsAlone};
ghost use Rattle.established.specs.Comings.{FourDrawn};
ghost use Rattle.established.specs.Handovers.{HandsOver, HandsTo};
ghost use Rattle.sock_card.specs.declared.card.Kind.TheVariants as kinds;
ghost use Rattle.table_rule.specs.Changes.{len_of, capacity_of};
ghost use Rattle.table_rule.specs.Calls.{IsIdle, HasShares, MayUnlock, layout_of};
ghost use Rattle.table_rule.specs.Passes.{IsPassOf, known};
ghost use Rattle.table_rule.specs.Plays.{PlacesApart, TuplesListed};
ghost use Rattle.table_rule.specs.Words.{bucket_count};

use super::coming::is_told;
use bucket_locks::{Locked, lock, unlock};
use nulls_chain::{Place, hash, unhash, walk_to_end};
use patience::Patience;
use sock_card::Card;
use sock_slots::Full;
use table_rule::{Chains, Pass};

// Hashes the socket into its request's chain, which was walked to its end, and then takes the request out.
fn replace_request(
    chains: &Chains,
    pass: &mut Pass,
    locked: &mut Locked,
    request: Place,
    from: u32,
    card: &Card,
) -> Result<Place, (Place, Full)>
    requires table { IsPassOf chains.now pass.old }
    requires at { IsAt (layout_of chains.now) locked.old (known pass.old) × (locked.old.started ≡ true) }
    requires place { IsPlaced request (known pass.old).book × (request.bucket ≡ locked.old.bucket) }
    requires home { home (layout_of chains.now).shape (layout_of chains.now).seed card.now ≡ request.bucket }
    requires full { card.now.kind ≡ kinds.Full }
    requires pending { request.card.kind ≡ kinds.Request }
    requires tuple { same_cards card.now request.card ≡ true }
    requires idle { IsIdle (known pass.old).slot × ((known pass.old).book.opened ≡ []) }
    requires from { from ≤ (layout_of chains.now).shape.slots }
    requires room { len_of pass.old.changes + 2 ≤ capacity_of pass.old.changes }
    requires share { HasShares 4 (known pass.old) }
    requires whole { ((known pass.old).chain.met ≡ 1) × ((known pass.old).chain.ahead ≡ []) }
    requires known { WalkKnown (layout_of chains.now) (known pass.old) }
    requires apart { PlacesApart (known pass.old) }
    requires tuples { TuplesListed (known pass.old) × ((known pass.old).twice ≡ 0) }
    ensures table { IsPassOf chains.now pass.new }
    ensures idle { IsIdle (known pass.new).slot × ((known pass.new).book.opened ≡ []) }
    ensures at { IsAt (layout_of chains.now) locked.new (known pass.new) × (locked.new.bucket ≡ locked.old.bucket) }
    ensures alone { MayUnlock (known pass.new) }
    ensures hands { HandsTo (layout_of chains.now) from request card.now (known pass.old).chain.walked result
        (known pass.old) (known pass.new) }
    ensures place { IfOk result (λ place. IsPlaced place (known pass.new).book) }
    ensures newest { IfOk result (λ place. IsPlacedBy (length (known pass.old).book.closed) place
        (known pass.new).book) }
    ensures stay { OthersStay request.slot (known pass.old) (known pass.new) }
    ensures others { OtherPlacesStay request (known pass.old) (known pass.new) }
    ensures back { IfErr result (λ e. (e.0 ≡ request) × IsPlaced request (known pass.new).book) }
    ensures all { IfErr result (λ e. PlacesStay (known pass.old) (known pass.new)) }
    ensures share { FourDrawn (known pass.old) (known pass.new) }
    ensures hand { pass.new.steps.seat.me.1 ≡ pass.old.steps.seat.me.1 }
    ensures room { capacity_of pass.new.changes ≡ capacity_of pass.old.changes }
    ensures len { len_of pass.new.changes ≤ len_of pass.old.changes + 2 }
{
    is_told(card);
    is_told(&request.card);
    match hash(chains, pass, locked, from, card) {
        Err(full) => Err((request, full)),
        Ok(place) => {
            unhash(chains, pass, locked, request);
            Ok(place)
        }
    }
}

/// Hashes a connected socket into the chain of the request from which it comes, and then takes the request out.
///
/// So at each moment one of the two stands in the chain, as [`laws`](super::laws) says. The socket needs a slot beside
/// the request's, which is sought from the slot `from` on and round to it. Where none is free the request stands as it
/// did, and its place is handed back with how full the slots are. None: another pass had the bucket's lock for as
/// long as the caller's patience lasts, nothing has changed, and the request stands at its place.
///
/// As `inet_ehash_insert` of net/ipv4/inet_hashtables.c with a request as `osk`, by which
/// `inet_csk_complete_hashdance` of net/ipv4/inet_connection_sock.c ends a handshake.
pub fn hand_over<P: Patience>(
    chains: &Chains,
    patience: &P,
    pass: &mut Pass,
    place: Place,
    from: u32,
    card: &Card,
) -> Option<Result<Place, (Place, Full)>>
    requires table { IsPassOf chains.now pass.old }
    requires bucket { place.bucket < bucket_count (layout_of chains.now) }
    requires home { home (layout_of chains.now).shape (layout_of chains.now).seed card.now ≡ place.bucket }
    requires full { card.now.kind ≡ kinds.Full }
    requires pending { place.card.kind ≡ kinds.Request }
    requires tuple { same_cards card.now place.card ≡ true }
    requires place { IsPlaced place (known pass.old).book }
    requires idle { IsIdle (known pass.old).slot × ((known pass.old).book.opened ≡ []) }
    requires free { (known pass.old).chain.locked ≡ [] }
    requires from { from ≤ (layout_of chains.now).shape.slots }
    requires room { len_of pass.old.changes + 2 ≤ capacity_of pass.old.changes }
    requires share { HasShares 4 (known pass.old) }
    ensures table { IsPassOf chains.now pass.new }
    ensures idle { IsIdle (known pass.new).slot × ((known pass.new).book.opened ≡ []) }
    ensures free { (known pass.new).chain.locked ≡ [] }
    ensures answer { IfSome result
        (λ answer. HandsOver (layout_of chains.now) from place card.now answer (known pass.old) (known pass.new)) }
    ensures alone { IfSome result
        (λ answer. HandsAlone (layout_of chains.now) from place card.now answer (known pass.old) (known pass.new)) }
    ensures place { IfSome result (λ answer. IfOk answer (λ child. IsPlaced child (known pass.new).book)) }
    ensures newest { IfSome result
        (λ answer. IfOk answer (λ child. IsPlacedBy (length (known pass.old).book.closed) child
        (known pass.new).book)) }
    ensures stay { OthersStay place.slot (known pass.old) (known pass.new) }
    ensures others { OtherPlacesStay place (known pass.old) (known pass.new) }
    ensures back { IfSome result (λ answer. IfErr answer (λ e. (e.0 ≡ place) × IsPlaced place (known pass.new).book)) }
    ensures all { IfSome result (λ answer. IfErr answer (λ e. PlacesStay (known pass.old) (known pass.new))) }
    ensures none { IfNone result (known pass.new ≡ known pass.old) }
    ensures kept { IfNone result (pass.new.changes ≡ pass.old.changes) }
    ensures had { P.endless ≡ true → IfNone result ⊥ }
    ensures share { FourDrawn (known pass.old) (known pass.new) }
    ensures hand { pass.new.steps.seat.me.1 ≡ pass.old.steps.seat.me.1 }
    ensures room { capacity_of pass.new.changes ≡ capacity_of pass.old.changes }
    ensures len { len_of pass.new.changes ≤ len_of pass.old.changes + 2 }
{
    let mut locked = lock(chains, patience, &mut pass.steps, place.bucket)?;
    walk_to_end(chains, &mut pass.steps, &mut locked);
    let answer = replace_request(chains, pass, &mut locked, place, from, card);
    unlock(chains, &mut pass.steps, locked);
    Some(answer)
}
