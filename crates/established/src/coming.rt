//! Connected sockets and requests that come into their chains.

ghost use Rattle.std.specs.Prelude.{◌≡◌, ◌+◌, ◌<◌, ◌≤◌, ◌^◌, [], true, Some, IfOk, IfSome, IfNone};
ghost use Rattle.bucket_locks.specs.Locks.{IsAt, WalkKnown};
ghost use Rattle.chain_book.specs.Homes.{home};
ghost use Rattle.chain_book.specs.Tuples.{claims_tuple};
ghost use Rattle.chain_book.specs.declared.outcome.Hashed.{Hashed as Stood};
ghost use Rattle.nulls_chain.specs.Changes.{IsPlaced, OthersStay, PlacesStay, TwoDrawn};
ghost use Rattle.established.specs.Alone.{InsertsAlone};
ghost use Rattle.established.specs.Comings as spec;
ghost use Rattle.established.specs.Comings.{ComesTo, FourDrawn, Goes, Inserts, IsOut};
ghost use Rattle.established.specs.Surveys.{Surveyed};
ghost use Rattle.established.specs.declared.survey.Sought.TheVariants as seeks;
ghost use Rattle.sock_card.specs.Words.{packed, unpacked};
ghost use Rattle.std.specs.Option.{option_map};
ghost use Rattle.table_rule.specs.Changes.{len_of, capacity_of};
ghost use Rattle.table_rule.specs.Calls.{IsIdle, HasShares, layout_of};
ghost use Rattle.table_rule.specs.Passes.{IsPassOf, known};
ghost use Rattle.table_rule.specs.Plays.{PlacesApart};
ghost use Rattle.table_rule.specs.Words.{bucket_count};

use super::survey::{Newcomer, Sought, Survey, survey_chain};
use bucket_locks::{Locked, lock, unlock};
use chain_book::Hashed;
use nulls_chain::{Place, hash, unhash_slot};
use patience::Patience;
use sock_card::{Card, pack};
use sock_slots::Full;
use table_rule::{Chains, Pass};

/// A card that came: where it stands, and the name of the TIME_WAIT whose place it took.
#[derive(Debug, Drop)]
pub struct Inserted {
    pub place: Place,
    pub replaced: Option<u64>,
}

/// Why a card didn't come.
#[derive(Clone, Copy)]
pub enum InsertEnd {
    /// The socket of that name has its four-tuple.
    Taken(u64),
    /// No slot is free.
    Full(Full),
}

// Takes out who was found in the walked chain.
pub fn take_out(chains: &Chains, pass: &mut Pass, locked: &Locked, found: &Option<Hashed>)
    requires table { IsPassOf chains.now pass.old }
    requires at { IsAt (layout_of chains.now) locked.now (known pass.old) × (locked.now.started ≡ true) }
    requires idle { IsIdle (known pass.old).slot × ((known pass.old).book.opened ≡ []) }
    requires room { len_of pass.old.changes < capacity_of pass.old.changes }
    requires share { HasShares 2 (known pass.old) }
    requires whole { ((known pass.old).chain.met ≡ 1) × ((known pass.old).chain.ahead ≡ []) }
    requires known { WalkKnown (layout_of chains.now) (known pass.old) }
    requires found { IsOut found.now (known pass.old) }
    ensures table { IsPassOf chains.now pass.new }
    ensures idle { IsIdle (known pass.new).slot × ((known pass.new).book.opened ≡ []) }
    ensures at { IsAt (layout_of chains.now) locked.now (known pass.new) }
    ensures twice { (known pass.new).twice ≡ (known pass.old).twice }
    ensures goes { Goes (known pass.old) (known pass.new) locked.now.bucket found.now }
    ensures stay { (x : Stood) → found.now ≡ Some x → OthersStay x.slot (known pass.old) (known pass.new) }
    ensures share { TwoDrawn (known pass.old) (known pass.new) }
    ensures hand { pass.new.steps.seat.me.1 ≡ pass.old.steps.seat.me.1 }
    ensures room { capacity_of pass.new.changes ≡ capacity_of pass.old.changes }
    ensures len { len_of pass.new.changes ≤ len_of pass.old.changes + 1 }
{
    if let Some(found) = found {
        unhash_slot(chains, pass, locked, found.slot, &found.card);
    }
}

fn name_of(found: &Option<Hashed>) -> Option<u64>
    ensures { result ≡ option_map spec.name_of found.now }
{
    found.map(|found| found.card.name)
}

/// Packs a card, so that the prover knows that it is what its words say, and that they fit 64 bits.
pub fn is_told(card: &Card)
    ensures told { unpacked (packed card.now) ≡ card.now }
    ensures fits { (packed card.now).ports < 2 ^ 64 }
{
    let _words = pack(card);
}

// Lets a newcomer in, by what was found in its chain.
fn admit(
    chains: &Chains,
    pass: &mut Pass,
    locked: &Locked,
    from: u32,
    new: &Newcomer,
    survey: &Survey,
) -> Result<Inserted, InsertEnd>
    requires table { IsPassOf chains.now pass.old }
    requires at { IsAt (layout_of chains.now) locked.now (known pass.old) × (locked.now.started ≡ true) }
    requires idle { IsIdle (known pass.old).slot × ((known pass.old).book.opened ≡ []) }
    requires from { from ≤ (layout_of chains.now).shape.slots }
    requires room { len_of pass.old.changes + 2 ≤ capacity_of pass.old.changes }
    requires share { HasShares 4 (known pass.old) }
    requires whole { ((known pass.old).chain.met ≡ 1) × ((known pass.old).chain.ahead ≡ []) }
    requires known { WalkKnown (layout_of chains.now) (known pass.old) }
    requires apart { PlacesApart (known pass.old) }
    requires surveyed { Surveyed (seeks.Room new.now) survey.now (known pass.old).chain.walked }
    requires claims { claims_tuple new.now.card.kind ≡ true }
    requires home { home (layout_of chains.now).shape (layout_of chains.now).seed new.now.card ≡ locked.now.bucket }
    ensures table { IsPassOf chains.now pass.new }
    ensures idle { IsIdle (known pass.new).slot × ((known pass.new).book.opened ≡ []) }
    ensures at { IsAt (layout_of chains.now) locked.now (known pass.new) }
    ensures twice { (known pass.new).twice ≡ (known pass.old).twice }
    ensures comes { ComesTo (layout_of chains.now) from locked.now.bucket new.now (known pass.old).chain.walked result
        (known pass.old) (known pass.new) }
    ensures place { IfOk result (λ i. IsPlaced i.place (known pass.new).book) }
    ensures stay { PlacesStay (known pass.old) (known pass.new) }
    ensures share { FourDrawn (known pass.old) (known pass.new) }
    ensures hand { pass.new.steps.seat.me.1 ≡ pass.old.steps.seat.me.1 }
    ensures room { capacity_of pass.new.changes ≡ capacity_of pass.old.changes }
    ensures len { len_of pass.new.changes ≤ len_of pass.old.changes + 2 }
{
    if let Some(keeper) = survey.keeper {
        return Err(InsertEnd::Taken(keeper.card.name));
    }
    is_told(&new.card);
    match hash(chains, pass, locked, from, &new.card) {
        Err(full) => Err(InsertEnd::Full(full)),
        Ok(place) => {
            take_out(chains, pass, locked, &survey.waiting);
            Ok(Inserted {
                place,
                replaced: name_of(&survey.waiting),
            })
        }
    }
}

/// Hashes a connected socket or a request for one, unless its four-tuple is kept from it.
///
/// A TIME_WAIT of its four-tuple gives way where the newcomer's rule lets it at its moment. The newcomer comes before
/// that goes, so it needs a slot of its own; it is sought from the slot `from` on and round to it.
///
/// None: another pass had the bucket's lock for as long as the caller's patience lasts, and nothing has changed.
///
/// As `inet_ehash_insert` of net/ipv4/inet_hashtables.c, with `__inet_check_established` under the same lock.
pub fn insert<P: Patience>(
    chains: &Chains,
    patience: &P,
    pass: &mut Pass,
    bucket: u32,
    from: u32,
    new: &Newcomer,
) -> Option<Result<Inserted, InsertEnd>>
    requires table { IsPassOf chains.now pass.old }
    requires bucket { bucket < bucket_count (layout_of chains.now) }
    requires home { home (layout_of chains.now).shape (layout_of chains.now).seed new.now.card ≡ bucket }
    requires claims { claims_tuple new.now.card.kind ≡ true }
    requires idle { IsIdle (known pass.old).slot × ((known pass.old).book.opened ≡ []) }
    requires free { (known pass.old).chain.locked ≡ [] }
    requires from { from ≤ (layout_of chains.now).shape.slots }
    requires room { len_of pass.old.changes + 2 ≤ capacity_of pass.old.changes }
    requires share { HasShares 4 (known pass.old) }
    ensures table { IsPassOf chains.now pass.new }
    ensures idle { IsIdle (known pass.new).slot × ((known pass.new).book.opened ≡ []) }
    ensures free { (known pass.new).chain.locked ≡ [] }
    ensures answer { IfSome result
        (λ answer. Inserts (layout_of chains.now) from bucket new.now answer (known pass.old) (known pass.new)) }
    ensures alone { IfSome result
        (λ answer. InsertsAlone (layout_of chains.now) from bucket new.now answer (known pass.old) (known pass.new)) }
    ensures place { IfSome result (λ answer. IfOk answer (λ i. IsPlaced i.place (known pass.new).book)) }
    ensures none { IfNone result (known pass.new ≡ known pass.old) }
    ensures kept { IfNone result (pass.new.changes ≡ pass.old.changes) }
    ensures had { P.endless ≡ true → IfNone result ⊥ }
    ensures stay { PlacesStay (known pass.old) (known pass.new) }
    ensures share { FourDrawn (known pass.old) (known pass.new) }
    ensures hand { pass.new.steps.seat.me.1 ≡ pass.old.steps.seat.me.1 }
    ensures room { capacity_of pass.new.changes ≡ capacity_of pass.old.changes }
    ensures len { len_of pass.new.changes ≤ len_of pass.old.changes + 2 }
{
    let mut locked = lock(chains, patience, &mut pass.steps, bucket)?;
    let survey = survey_chain(chains, &mut pass.steps, &mut locked, &Sought::Room(*new));
    let answer = admit(chains, pass, &locked, from, new, &survey);
    unlock(chains, &mut pass.steps, locked);
    Some(answer)
}
