//! In which order a call publishes a group's list, changes a chain, and gives a turn back.
//!
//! Each of these calls needs what the one before it gives alone, which can't be made elsewhere or copied. So a
//! listener is hashed ([`hash`]) before its group's list is published with it ([`join`]). A list without an owner that
//! leaves is published ([`leave`]) before its socket is taken out of its chain ([`Unlisted::remove`]), and that is done
//! before its bucket is given back ([`Unhashed::give`]).

ghost use Rattle.std.specs.Prelude.{◌≡◌, ℕ, ◌^◌, ◌<◌, ◌≤◌, Option, map, true, IfErr};
ghost use Rattle.turn_table.specs.Passes as words;
ghost use Rattle.turn_table.specs.Passes.{known};
ghost use Rattle.turn_table.specs.Journals.{placed};
ghost use Rattle.bind_buckets.specs.Bucket.{IsSound, answer_to};
ghost use Rattle.bind_buckets.specs.Callers.{MayName};
ghost use Rattle.bind_buckets.specs.Turned.{View, Asks, Gave, IsIdle, IsOut, Within, made};
ghost use Rattle.bind_buckets.specs.declared.request.Answer.TheVariants as answers;
ghost use Rattle.bind_buckets.specs.declared.request.Request.TheVariants as requests;
ghost use Rattle.nulls_chain.specs.Changes.{IsPlaced, OtherPlacesStay, OthersStay, PlacesStay, TwoDrawn};
ghost use Rattle.table_rule.specs.Calls.{HasShares};
ghost use Rattle.table_rule.specs.Passes as chain_words;
ghost use Rattle.sock_ops.specs.Answers.{Removes};
ghost use Rattle.sock_ops.specs.Goes.{NotBusy};
ghost use Rattle.sock_ops.specs.Groups.{Follows};
ghost use Rattle.sock_ops.specs.Listens.{AddsAs};
ghost use Rattle.sock_ops.specs.Sides.{HasLockSince, HasRoom, IsAtHome, IsResting, Side, TakesRoom, side_of};
ghost use Rattle.sock_ops.specs.Stands.{HasGroups, IsThere};

use crate::chains::{self, ChainPass, ChainTable};
use crate::group_lists;
use crate::tables::Tables;
use bind_buckets::{Bucket, turning};
use bucket_locks::Locked;
use chain_book::Place;
use nulls_chain::Place as Stood;
use patience::Patience;
use reuseport_group::GroupPasses;
use sock_card::{Card, Kind, Owner};
use table_model::{Cause, OpEnd};
use turn_table::{Turn, TurnPass, Turns};

/// A listener was hashed, and where.
#[derive(Drop)]
pub(crate) struct Hashed {
    pub(crate) place: Place,
    seal: (),
}

/// An owner has left its bucket, and the list of its group, if it was in one, is published without it.
pub(crate) struct Unlisted {
    seal: (),
}

/// And then its socket was taken out of its chain.
pub(crate) struct Unhashed {
    seal: (),
}

/// Hashes a listener, whose place comes with it. `LeftOff`: another had its chain for longer than the caller tries.
pub(crate) fn hash<P: Patience>(
    patience: &P,
    chains: &ChainTable,
    pass: &mut ChainPass,
    card: &Card,
) -> Result<Hashed, OpEnd>
    requires rests { IsResting chains.now pass.old }
    requires listens { card.now.kind ≡ Kind.Listen }
    requires room { HasRoom 1 pass.old }
    requires share { HasShares 2 (chain_words.known pass.old.pass) }
    ensures rests { IsResting chains.now pass.new }
    ensures adds { AddsAs (λ hashed. hashed.place) card.now (side_of chains.now pass.old)
        (side_of chains.now pass.new) result }
    ensures stay { PlacesStay (chain_words.known pass.old.pass) (chain_words.known pass.new.pass) }
    ensures share { TwoDrawn (chain_words.known pass.old.pass) (chain_words.known pass.new.pass) }
    ensures patient { P.endless ≡ true → IfErr result NotBusy }
{
    let Some(answer) = chains::add(chains, patience, pass, card) else {
        return Err(OpEnd::LeftOff(Cause::Busy));
    };
    match answer {
        Ok(place) => Ok(Hashed {
            place: Place {
                bucket: place.bucket,
                slot: place.slot,
            },
            seal: (),
        }),
        Err(slots) => Err(OpEnd::Full {
            owned: slots.owned,
            held: slots.held,
        }),
    }
}

/// [`group_lists::join`], of a listener that was hashed.
pub(crate) fn join(
    tables: &Tables,
    pass: &mut TurnPass<Box<Bucket>>,
    passes: &mut GroupPasses,
    turn: &mut Turn<Box<Bucket>>,
    owner: &Owner,
    hashed: &Hashed,
    group: Option<u32>,
)
    requires out { IsOut tables.now.buckets pass.old turn.old }
    requires few { words.draws pass.old < 2 ^ 48 }
    requires may { MayName (words.caller pass.old) owner.now.name }
    requires there { IsThere turn.old owner.now }
    requires says { answer_to turn.old.value.value (requests.MayListen owner.now.name) ≡ answers.Group group }
    requires entry { 1 ≤ turn.old.value.value.entries }
    requires groups { HasGroups tables.now passes.old }
    ensures asks { Asks tables.now.buckets pass.old turn.old pass.new turn.new
        (requests.Listen owner.now.name hashed.now.place.slot) answers.Done }
    ensures sound { IsSound turn.old.value.value × IsSound turn.new.value.value }
    ensures groups { HasGroups tables.now passes.new }
    ensures lists { Follows turn.old.place group turn.old.value.value.held turn.new.value.value.held
        passes.old passes.new }
{
    group_lists::join(tables, pass, passes, turn, owner, hashed.place.slot, group);
}

/// [`group_lists::leave`].
pub(crate) fn leave(
    tables: &Tables,
    pass: &mut TurnPass<Box<Bucket>>,
    passes: &mut GroupPasses,
    turn: &mut Turn<Box<Bucket>>,
    owner: &Owner,
) -> Unlisted
    requires out { IsOut tables.now.buckets pass.old turn.old }
    requires few { words.draws pass.old < 2 ^ 48 }
    requires may { MayName (words.caller pass.old) owner.now.name }
    requires there { IsThere turn.old owner.now }
    requires groups { HasGroups tables.now passes.old }
    ensures asks { Asks tables.now.buckets pass.old turn.old pass.new turn.new
        (requests.Remove owner.now.name) answers.Done }
    ensures entries { turn.new.value.value.entries ≡ turn.old.value.value.entries }
    ensures sound { IsSound turn.old.value.value × IsSound turn.new.value.value }
    ensures groups { HasGroups tables.now passes.new }
    ensures lists { (group : Option ℕ) × Follows turn.old.place group turn.old.value.value.held
        turn.new.value.value.held passes.old passes.new }
{
    group_lists::leave(tables, pass, passes, turn, owner);
    Unlisted { seal: () }
}

impl Unlisted {
    /// Takes its socket out of its chain, as [`chains::remove`] does.
    pub(crate) fn remove(
        self,
        table: &ChainTable,
        pass: &mut ChainPass,
        locked: Locked,
        place: Stood,
    ) -> Unhashed
        requires locked { (c : Side) × HasLockSince c table.now locked place pass.old }
        requires home { IsAtHome table.now place }
        requires place { IsPlaced place (chain_words.known pass.old.pass).book }
        requires room { HasRoom 1 pass.old }
        requires share { HasShares 2 (chain_words.known pass.old.pass) }
        ensures rests { IsResting table.now pass.new }
        ensures removes { (c : Side) → HasLockSince c table.now locked place pass.old
            → Removes place c (side_of table.now pass.new) }
        ensures stay { (c : Side) → HasLockSince c table.now locked place pass.old
            → OthersStay place.slot c.view (chain_words.known pass.new.pass) }
        ensures others { (c : Side) → HasLockSince c table.now locked place pass.old
            → OtherPlacesStay place c.view (chain_words.known pass.new.pass) }
        ensures share { (c : Side) → HasLockSince c table.now locked place pass.old
            → TwoDrawn c.view (chain_words.known pass.new.pass) }
        ensures room { TakesRoom 1 pass.old pass.new }
    {
        let Unlisted { seal: () } = self;
        chains::remove(table, pass, locked, place);
        Unhashed { seal: () }
    }

    /// Gives the bucket back of an owner that stood in no chain any more.
    pub(crate) fn give(
        self,
        turns: &Turns<Box<Bucket>>,
        pass: &mut TurnPass<Box<Bucket>>,
        turn: Turn<Box<Bucket>>,
    )
        requires out { IsOut turns.now pass.old turn }
        ensures idle { IsIdle turns.now pass.new }
        ensures draws { words.draws pass.new ≡ words.draws pass.old }
        ensures caller { words.caller pass.new ≡ words.caller pass.old }
        ensures gave { (v : View) → Within v (known pass.old)
            → Gave v (known pass.new) (map (placed turn.place) (made pass.old turn)) }
    {
        let Unlisted { seal: () } = self;
        turning::give(turns, pass, turn);
    }
}

impl Unhashed {
    /// Gives its bucket back.
    pub(crate) fn give(
        self,
        turns: &Turns<Box<Bucket>>,
        pass: &mut TurnPass<Box<Bucket>>,
        turn: Turn<Box<Bucket>>,
    )
        requires out { IsOut turns.now pass.old turn }
        ensures idle { IsIdle turns.now pass.new }
        ensures draws { words.draws pass.new ≡ words.draws pass.old }
        ensures caller { words.caller pass.new ≡ words.caller pass.old }
        ensures gave { (v : View) → Within v (known pass.old)
            → Gave v (known pass.new) (map (placed turn.place) (made pass.old turn)) }
    {
        let Unhashed { seal: () } = self;
        turning::give(turns, pass, turn);
    }
}
