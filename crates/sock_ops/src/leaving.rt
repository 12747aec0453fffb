//! `close`, and `drop_sock` beside it, by which a socket is gone at once.

ghost use Rattle.std.specs.Prelude.{◌≡◌, ◌+◌, ◌%◌, ◌^◌, ◌<◌, ◌≤◌, ◌∷◌, [], true, IfOk, IfErr, IfSome, IfNone, OnErr, OnOk};
ghost use Rattle.sock_card.specs.Conflict.{owner_key};
ghost use Rattle.sock_card.specs.declared.card.Kind.TheVariants as kinds;
ghost use Rattle.turn_table.specs.Passes as words;
ghost use Rattle.turn_table.specs.Passes.{known};
ghost use Rattle.table_rule.specs.Passes as chain_words;
ghost use Rattle.table_rule.specs.Calls.{HasShares};
ghost use Rattle.chain_book.specs.Homes.{home};
ghost use Rattle.nulls_chain.specs.Changes.{IsPlaced, OthersStay};
ghost use Rattle.established.specs.Comings.{FourDrawn};
ghost use Rattle.bind_buckets.specs.Callers.{MayName};
ghost use Rattle.bind_buckets.specs.OwnTold.{StandsOwn};
ghost use Rattle.bind_buckets.specs.Turned.{View, Gave, IsIdle, IsOut, Within, made};
ghost use Rattle.sock_ops.specs.Sides.{HasRoom, IsResting, side_of};
ghost use Rattle.table_model.specs.Asking.{ends, unhashes};
ghost use Rattle.table_model.specs.Own.{card_of};
ghost use Rattle.table_model.specs.Operations as plans;
ghost use Rattle.sock_ops.specs.Closes as spec;
ghost use Rattle.sock_ops.specs.Closes.{ClosedBy, Leaves, OthersKept, WaitsAs, is_gone, leave_entry, spot_of};
ghost use Rattle.sock_ops.specs.Goes.{AskedAll, NotBusy, Went};
ghost use Rattle.sock_ops.specs.Groups.{KeepsListed, KeepsLists, LeavesAs, LeavesOrStays, ListsOfLeave};
ghost use Rattle.reuseport_group.specs.Passes as words_of_groups;
ghost use Rattle.sock_ops.specs.Socks.{mine_of, without_socket};
ghost use Rattle.sock_ops.specs.Spends.{Draws};
ghost use Rattle.sock_ops.specs.Stands.{HasGroups, IsHashed, IsOwner, IsReady, IsThere, MayDraw, MayEnter, MayTell, StandsAs, buckets_of, chained, place_in, turned};
ghost use Rattle.table_model.specs.declared.operation.Cause.TheVariants as causes;

use crate::chains::{self, ChainPass, ChainTable};
use crate::room::begin_with;
use crate::sock::{Connected, Listening, Request, Sock};
use crate::tables::{Tables, Worker};
use crate::{asking, order};
use bind_buckets::{Bucket, turning};
use chain_book::Place;
use flat_list::owned;
use patience::Patience;
use reuseport_group::GroupPasses;
use sock_card::{Card, Kind, Owner, as_waiting};
use sock_slots::Full;
use std::marker::Model;
use table_model::{Cause, OpEnd};
use turn_table::{Turn, TurnPass, Turns};

/// A socket in TIME_WAIT, from the moment of its stamp on, and where it is hashed.
#[derive(Debug, Drop)]
pub struct Waiting {
    pub(crate) owner: Owner,
    pub(crate) stamp: u32,
    pub(crate) place: Place,
}

impl Model for Waiting {
    ghost use Rattle.table_model.specs.Own.{Mine};

    ghost Value = { Mine };

    ghost view = { λ w. record { owner = w.owner; extra = w.stamp; place = w.place } };
}

/// What became of a socket that was closed.
#[derive(Debug, Drop)]
pub enum Closed {
    /// It is gone.
    Plain,
    /// It waits.
    TimeWait(Waiting),
    /// It is gone, since no slot was free for its TIME_WAIT: so many were seen owned, and so many only held.
    NoSlot { owned: u32, held: u32 },
}

/// Where a connected socket stands, with its card.
fn full_place(full: &Connected) -> nulls_chain::Place
    ensures { result ≡ place_in kinds.Full full.now }
{
    nulls_chain::Place {
        bucket: full.place.bucket,
        slot: full.place.slot,
        card: owned::card_as(Kind::Full, &full.owner, 0),
    }
}

/// Where a listener stands, with its card.
fn listener_place(listener: &Listening) -> nulls_chain::Place
    ensures { result ≡ place_in kinds.Listen listener.now }
{
    nulls_chain::Place {
        bucket: listener.place.bucket,
        slot: listener.place.slot,
        card: owned::card_as(Kind::Listen, &listener.owner, listener.extra),
    }
}

/// Where a request stands, with its card.
pub(crate) fn request_place(request: &Request) -> nulls_chain::Place
    ensures { result ≡ place_in kinds.Request request.now }
{
    nulls_chain::Place {
        bucket: request.place.bucket,
        slot: request.place.slot,
        card: owned::card_as(Kind::Request, &request.owner, 0),
    }
}

/// Hashes a TIME_WAIT, and then takes out who stands at that place of the same chain. None: another had the chain for
/// longer than the caller tries.
fn replace<P: Patience>(
    patience: &P,
    chains: &ChainTable,
    pass: &mut ChainPass,
    place: nulls_chain::Place,
    card: &Card,
) -> Option<Result<Place, Full>>
    requires rests { IsResting chains.now pass.old }
    requires home { place.bucket ≡ home chains.now.layout.shape chains.now.layout.seed place.card }
    requires chain { home chains.now.layout.shape chains.now.layout.seed card.now ≡ place.bucket }
    requires waits { card.now.kind ≡ kinds.TimeWait }
    requires place { IsPlaced place (chain_words.known pass.old.pass).book }
    requires room { HasRoom 2 pass.old }
    requires share { HasShares 4 (chain_words.known pass.old.pass) }
    ensures rests { IsResting chains.now pass.new }
    ensures waits { IfSome result (λ answer.
        WaitsAs place card.now (side_of chains.now pass.old) (side_of chains.now pass.new) answer) }
    ensures none { IfNone result (side_of chains.now pass.new ≡ side_of chains.now pass.old) }
    ensures had { P.endless ≡ true → IfNone result ⊥ }
    ensures stay { OthersStay place.slot (chain_words.known pass.old.pass) (chain_words.known pass.new.pass) }
    ensures share { FourDrawn (chain_words.known pass.old.pass) (chain_words.known pass.new.pass) }
{
    match chains::time_wait(chains, patience, pass, place, card)? {
        Ok(place) => Some(Ok(Place {
            bucket: place.bucket,
            slot: place.slot,
        })),
        Err(slots) => Some(Err(slots)),
    }
}

/// Leaves a TIME_WAIT in the place of a connected socket, and then reports that to the bucket that is out.
fn wait_in<P: Patience>(
    patience: &P,
    tables: &Tables,
    worker: &mut Worker,
    turn: Turn<Box<Bucket>>,
    full: &Connected,
    moment: u32,
) -> Result<Closed, Cause>
    requires out { IsOut tables.now.buckets worker.old.turns turn }
    requires place { turn.place ≡ owner_key full.now.owner % buckets_of tables.now }
    requires made { made worker.old.turns turn ≡ [] }
    requires enters { MayEnter 1 worker.old }
    requires may { MayTell worker.old full.now.owner.name }
    requires there { IsThere turn full.now.owner }
    requires entry { 1 ≤ turn.value.value.entries }
    requires rests { IsResting tables.now.chains worker.old.chain }
    requires room { HasRoom 2 worker.old.chain }
    requires draws { MayDraw 4 worker.old }
    requires hashed { IsHashed kinds.Full full.now (chained tables.now worker.old) }
    requires groups { HasGroups tables.now worker.old.groups }
    ensures ready { IsReady tables.now worker.new }
    ensures caller { words.caller worker.new.turns ≡ words.caller worker.old.turns }
    ensures entered { words.draws worker.new.turns ≤ words.draws worker.old.turns + 1 }
    ensures drawn { Draws 4 worker.old worker.new }
    ensures went { IfOk result (λ closed. (v : View) → Within v (turned worker.old) → Went (buckets_of tables.now)
        (plans.close_full tables.now.chains.layout.shape tables.now.chains.layout.seed full.now
        (plans.wait_of full.now moment))
        v (turned worker.new) (chained tables.now worker.old) (chained tables.now worker.new)
        (ends (spec.became closed))) }
    ensures nothing { OnErr result ((v : View) → Within v (turned worker.old) → Gave v (turned worker.new) []) }
    ensures side { OnErr result (chained tables.now worker.new ≡ chained tables.now worker.old) }
    ensures none { OnErr result (worker.new.groups ≡ worker.old.groups) }
    ensures patient { P.endless ≡ true → OnErr result ⊥ }
    ensures lists { (v : View) → Within v (turned worker.old)
        → LeavesOrStays (owner_key full.now.owner % buckets_of tables.now)
        full.now.owner (turned worker.new) worker.old.groups worker.new.groups }
    ensures listed { (v : View) → Within v (turned worker.old) → KeepsListed (words_of_groups.groups tables.now.groups)
        v (turned worker.new) worker.old.groups worker.new.groups }
    ensures stay { OthersStay full.now.place.slot (chained tables.now worker.old).view
        (chained tables.now worker.new).view }
{
    let waiting = as_waiting(full.owner);
    let card = owned::card_as(Kind::TimeWait, &waiting, moment);
    let mut turn = turn;
    let Some(answer) = replace(
        patience,
        &tables.chains,
        &mut worker.chain,
        full_place(full),
        &card,
    ) else {
        turning::give(&tables.buckets, &mut worker.turns, turn);
        return Err(Cause::Busy);
    };
    match answer {
        Ok(place) => {
            asking::to_time_wait(&tables.buckets, &mut worker.turns, &mut turn, &full.owner);
            turning::give(&tables.buckets, &mut worker.turns, turn);
            Ok(Closed::TimeWait(Waiting {
                owner: waiting,
                stamp: moment,
                place,
            }))
        }
        Err(slots) => {
            let unlisted = order::leave(
                tables,
                &mut worker.turns,
                &mut worker.groups,
                &mut turn,
                &full.owner,
            );
            unlisted.give(&tables.buckets, &mut worker.turns, turn);
            Ok(Closed::NoSlot {
                owned: slots.owned,
                held: slots.held,
            })
        }
    }
}

/// Closes a connected socket: its TIME_WAIT stands before it is gone, and then its key's bucket knows, in one turn.
fn close_full<P: Patience>(
    patience: &P,
    tables: &Tables,
    worker: &mut Worker,
    full: &Connected,
    moment: u32,
) -> Result<Closed, Cause>
    requires ready { IsReady tables.now worker.old }
    requires enters { MayEnter 1 worker.old }
    requires draws { MayDraw 4 worker.old }
    requires may { MayTell worker.old full.now.owner.name }
    requires stands { IsOwner tables.now full.now.owner (turned worker.old) }
    requires hashed { IsHashed kinds.Full full.now (chained tables.now worker.old) }
    ensures ready { IsReady tables.now worker.new }
    ensures caller { words.caller worker.new.turns ≡ words.caller worker.old.turns }
    ensures entered { words.draws worker.new.turns ≤ words.draws worker.old.turns + 1 }
    ensures drawn { Draws 4 worker.old worker.new }
    ensures carried { Leaves spec.became (buckets_of tables.now) full.now.owner.name
        (plans.close_full tables.now.chains.layout.shape tables.now.chains.layout.seed full.now
        (plans.wait_of full.now moment))
        (turned worker.old) (turned worker.new)
        (chained tables.now worker.old) (chained tables.now worker.new) result }
    ensures kept { OnErr result (IsOwner tables.now full.now.owner (turned worker.new)
        × IsHashed kinds.Full full.now (chained tables.now worker.new)) }
    ensures nothing { OnErr result (Gave (turned worker.old) (turned worker.new) []) }
    ensures side { OnErr result (chained tables.now worker.new ≡ chained tables.now worker.old) }
    ensures lists { LeavesOrStays (owner_key full.now.owner % buckets_of tables.now)
        full.now.owner (turned worker.new) worker.old.groups worker.new.groups }
    ensures none { OnErr result (worker.new.groups ≡ worker.old.groups) }
    ensures listed { KeepsLists tables.now worker.old worker.new }
    ensures stay { OthersStay full.now.place.slot (chained tables.now worker.old).view
        (chained tables.now worker.new).view }
    ensures patient { P.endless ≡ true → IfErr result (λ cause. cause ≡ causes.Memory) }
{
    let turn = begin_with(patience, tables, worker, &full.owner, 2)?;
    wait_in(patience, tables, worker, turn, full, moment)
}

/// Lets a bound owner leave its port. It takes no memory. `Busy`: nothing has changed.
fn leave_port<P: Patience>(
    patience: &P,
    tables: &Tables,
    pass: &mut TurnPass<Box<Bucket>>,
    passes: &mut GroupPasses,
    owner: &Owner,
) -> Result<(), Cause>
    requires idle { IsIdle tables.now.buckets pass.old }
    requires groups { HasGroups tables.now passes.old }
    requires few { words.draws pass.old < 2 ^ 48 }
    requires may { MayName (words.caller pass.old) owner.now.name }
    requires stands { StandsOwn owner.now (owner_key owner.now % buckets_of tables.now) (known pass.old) }
    ensures idle { IsIdle tables.now.buckets pass.new }
    ensures groups { HasGroups tables.now passes.new }
    ensures caller { words.caller pass.new ≡ words.caller pass.old }
    ensures draws { words.draws pass.new ≤ words.draws pass.old + 1 }
    ensures gave { OnOk result (AskedAll (owner_key owner.now % buckets_of tables.now) (leave_entry owner.now ∷ [])
        (known pass.old) (known pass.new)) }
    ensures same { OnErr result ((known pass.new ≡ known pass.old) × (passes.new ≡ passes.old)) }
    ensures lists { OnOk result (LeavesAs (owner_key owner.now % buckets_of tables.now) owner.now
        (known pass.new) passes.old passes.new) }
    ensures listed { KeepsListed (words_of_groups.groups tables.now.groups) (known pass.old)
        (known pass.new) passes.old passes.new }
    ensures busy { IfErr result (λ cause. cause ≡ causes.Busy) }
    ensures patient { P.endless ≡ true → OnErr result ⊥ }
{
    let Some(mut turn) = asking::take(patience, &tables.buckets, pass, owner) else {
        return Err(Cause::Busy);
    };
    let unlisted = order::leave(tables, pass, passes, &mut turn, owner);
    unlisted.give(&tables.buckets, pass, turn);
    Ok(())
}

/// Takes an owner out of its key's bucket, where its group's list is published without it, and then its socket out of
/// its chain, in one turn.
fn leave_chain<P: Patience>(
    patience: &P,
    tables: &Tables,
    worker: &mut Worker,
    owner: &Owner,
    place: nulls_chain::Place,
) -> Result<(), Cause>
    requires ready { IsReady tables.now worker.old }
    requires enters { MayEnter 1 worker.old }
    requires draws { MayDraw 2 worker.old }
    requires may { MayTell worker.old owner.now.name }
    requires stands { IsOwner tables.now owner.now (turned worker.old) }
    requires home { place.bucket ≡ home tables.now.chains.layout.shape tables.now.chains.layout.seed place.card }
    requires placed { IsPlaced place (chained tables.now worker.old).view.book }
    ensures ready { IsReady tables.now worker.new }
    ensures caller { words.caller worker.new.turns ≡ words.caller worker.old.turns }
    ensures entered { words.draws worker.new.turns ≤ words.draws worker.old.turns + 1 }
    ensures drawn { Draws 2 worker.old worker.new }
    ensures carried { Leaves is_gone (buckets_of tables.now) owner.now.name
        (unhashes (spot_of place) place.card (plans.leave owner.now plans.gone))
        (turned worker.old) (turned worker.new)
        (chained tables.now worker.old) (chained tables.now worker.new) result }
    ensures kept { OnErr result (IsOwner tables.now owner.now (turned worker.new)) }
    ensures nothing { OnErr result (Gave (turned worker.old) (turned worker.new) []) }
    ensures side { OnErr result (chained tables.now worker.new ≡ chained tables.now worker.old) }
    ensures lists { OnOk result (LeavesAs (owner_key owner.now % buckets_of tables.now) owner.now (turned worker.new)
        worker.old.groups worker.new.groups) }
    ensures none { OnErr result (worker.new.groups ≡ worker.old.groups) }
    ensures listed { KeepsLists tables.now worker.old worker.new }
    ensures stay { OthersStay place.slot (chained tables.now worker.old).view (chained tables.now worker.new).view }
    ensures patient { P.endless ≡ true → IfErr result (λ cause. cause ≡ causes.Memory) }
{
    let mut turn = begin_with(patience, tables, worker, owner, 1)?;
    let Some(locked) = chains::lock_chain_of(&tables.chains, patience, &mut worker.chain, &place)
    else {
        turning::give(&tables.buckets, &mut worker.turns, turn);
        return Err(Cause::Busy);
    };
    let unlisted = order::leave(
        tables,
        &mut worker.turns,
        &mut worker.groups,
        &mut turn,
        owner,
    );
    let unhashed = unlisted.remove(&tables.chains, &mut worker.chain, locked, place);
    unhashed.give(&tables.buckets, &mut worker.turns, turn);
    Ok(())
}

/// Takes a request out of its chain; no bucket knows of it.
fn leave_request<P: Patience>(
    patience: &P,
    tables: &Tables,
    worker: &mut Worker,
    request: &Request,
) -> Result<(), Cause>
    requires ready { IsReady tables.now worker.old }
    requires draws { MayDraw 2 worker.old }
    requires hashed { IsHashed kinds.Request request.now (chained tables.now worker.old) }
    ensures ready { IsReady tables.now worker.new }
    ensures turns { worker.new.turns ≡ worker.old.turns }
    ensures groups { worker.new.groups ≡ worker.old.groups }
    ensures drawn { Draws 2 worker.old worker.new }
    ensures carried { Leaves is_gone (buckets_of tables.now) request.now.owner.name
        (unhashes request.now.place (card_of kinds.Request request.now) (ends plans.gone))
        (turned worker.old) (turned worker.new)
        (chained tables.now worker.old) (chained tables.now worker.new) result }
    ensures side { OnErr result (chained tables.now worker.new ≡ chained tables.now worker.old) }
    ensures stay { OthersStay request.now.place.slot (chained tables.now worker.old).view
        (chained tables.now worker.new).view }
    ensures patient { P.endless ≡ true → IfErr result (λ cause. cause ≡ causes.Memory) }
{
    worker.chain.reserve(&tables.chains, 1)?;
    let place = request_place(request);
    let Some(locked) = chains::lock_chain_of(&tables.chains, patience, &mut worker.chain, &place)
    else {
        return Err(Cause::Busy);
    };
    chains::remove(&tables.chains, &mut worker.chain, locked, place);
    Ok(())
}

/// Lets a socket go at once, without TIME_WAIT. Where it is left off nothing has changed.
fn leave<P: Patience>(
    patience: &P,
    tables: &Tables,
    worker: &mut Worker,
    socket: &Sock,
) -> Result<(), Cause>
    requires ready { IsReady tables.now worker.old }
    requires enters { MayEnter 1 worker.old }
    requires draws { MayDraw 2 worker.old }
    requires may { MayTell worker.old (mine_of socket.now).owner.name }
    requires stands { StandsAs tables.now socket.now (turned worker.old) (chained tables.now worker.old) }
    ensures ready { IsReady tables.now worker.new }
    ensures caller { words.caller worker.new.turns ≡ words.caller worker.old.turns }
    ensures entered { words.draws worker.new.turns ≤ words.draws worker.old.turns + 1 }
    ensures drawn { Draws 2 worker.old worker.new }
    ensures carried { Leaves is_gone (buckets_of tables.now) (mine_of socket.now).owner.name
        (plans.drop (mine_of socket.now) plans.gone)
        (turned worker.old) (turned worker.new)
        (chained tables.now worker.old) (chained tables.now worker.new) result }
    ensures kept { OnErr result (StandsAs tables.now socket.now (turned worker.new) (chained tables.now worker.new)) }
    ensures nothing { OnErr result (Gave (turned worker.old) (turned worker.new) []) }
    ensures side { OnErr result (chained tables.now worker.new ≡ chained tables.now worker.old) }
    ensures lists { ListsOfLeave (buckets_of tables.now) socket.now (turned worker.new)
        worker.old.groups worker.new.groups result }
    ensures listed { KeepsLists tables.now worker.old worker.new }
    ensures stay { OthersKept socket.now (chained tables.now worker.old).view (chained tables.now worker.new).view }
    ensures patient { P.endless ≡ true → IfErr result (λ cause. cause ≡ causes.Memory) }
{
    let owner = socket.owner();
    match socket {
        Sock::Unbound(_) => Ok(()),
        Sock::Bound(_) => leave_port(
            patience,
            tables,
            &mut worker.turns,
            &mut worker.groups,
            owner,
        ),
        Sock::Listening(listener) => {
            leave_chain(patience, tables, worker, owner, listener_place(listener))
        }
        Sock::Full(full) => leave_chain(patience, tables, worker, owner, full_place(full)),
        Sock::Request(request) => leave_request(patience, tables, worker, request),
    }
}

fn drop_answer(socket: Sock, left: Result<(), Cause>) -> Result<(), (Sock, OpEnd)>
    ensures { result ≡ spec.drop_answer socket left }
{
    match left {
        Ok(()) => Ok(()),
        Err(cause) => Err((socket, OpEnd::LeftOff(cause))),
    }
}

fn close_answer(socket: Sock, closed: Result<Closed, Cause>) -> Result<Closed, (Sock, OpEnd)>
    ensures { result ≡ spec.close_answer socket closed }
{
    match closed {
        Ok(closed) => Ok(closed),
        Err(cause) => Err((socket, OpEnd::LeftOff(cause))),
    }
}

/// What [`close`] comes to; where it is left off nothing has changed.
fn close_as<P: Patience>(
    patience: &P,
    tables: &Tables,
    worker: &mut Worker,
    socket: &Sock,
    moment: u32,
) -> Result<Closed, Cause>
    requires ready { IsReady tables.now worker.old }
    requires enters { MayEnter 1 worker.old }
    requires draws { MayDraw 4 worker.old }
    requires may { MayTell worker.old (mine_of socket.now).owner.name }
    requires stands { StandsAs tables.now socket.now (turned worker.old) (chained tables.now worker.old) }
    ensures ready { IsReady tables.now worker.new }
    ensures caller { words.caller worker.new.turns ≡ words.caller worker.old.turns }
    ensures entered { words.draws worker.new.turns ≤ words.draws worker.old.turns + 1 }
    ensures drawn { Draws 4 worker.old worker.new }
    ensures carried { Leaves spec.became (buckets_of tables.now) (mine_of socket.now).owner.name
        (plans.close tables.now.chains.layout.shape tables.now.chains.layout.seed (mine_of socket.now) moment)
        (turned worker.old) (turned worker.new)
        (chained tables.now worker.old) (chained tables.now worker.new) result }
    ensures kept { OnErr result (StandsAs tables.now socket.now (turned worker.new) (chained tables.now worker.new)) }
    ensures nothing { OnErr result (Gave (turned worker.old) (turned worker.new) []) }
    ensures side { OnErr result (chained tables.now worker.new ≡ chained tables.now worker.old) }
    ensures lists { ListsOfLeave (buckets_of tables.now) socket.now (turned worker.new)
        worker.old.groups worker.new.groups result }
    ensures listed { KeepsLists tables.now worker.old worker.new }
    ensures stay { OthersKept socket.now (chained tables.now worker.old).view (chained tables.now worker.new).view }
    ensures patient { P.endless ≡ true → IfErr result (λ cause. cause ≡ causes.Memory) }
{
    let _owner = socket.owner();
    if let Sock::Full(full) = socket {
        return close_full(patience, tables, worker, full, moment);
    }
    match leave(patience, tables, worker, socket) {
        Ok(()) => Ok(Closed::Plain),
        Err(end) => Err(end),
    }
}

/// Closes a socket at that moment, in seconds: a connected one leaves a TIME_WAIT, any other is gone.
///
/// Where no slot is free for the TIME_WAIT the socket goes without one, and the answer says how full the slots are.
/// Its plan goes on so by the answers of the entries that this call gave and by the changes that it made, whoever
/// else was at the tables. What follows of that stands in [`crate::laws`].
///
/// # Errors
///
/// `LeftOff`: a bucket, or the worker's changes where they are kept, wanted memory, or another had a bucket or a chain
/// for longer than the caller tries. Nothing has changed, and the socket comes back as it was.
pub fn close<P: Patience>(
    patience: &P,
    tables: &Tables,
    worker: &mut Worker,
    socket: Sock,
    moment: u32,
) -> Result<Closed, (Sock, OpEnd)>
    requires ready { IsReady tables.now worker.old }
    requires enters { MayEnter 1 worker.old }
    requires draws { MayDraw 4 worker.old }
    requires may { MayTell worker.old (mine_of socket).owner.name }
    requires stands { StandsAs tables.now socket (turned worker.old) (chained tables.now worker.old) }
    ensures ready { IsReady tables.now worker.new }
    ensures caller { words.caller worker.new.turns ≡ words.caller worker.old.turns }
    ensures entered { words.draws worker.new.turns ≤ words.draws worker.old.turns + 1 }
    ensures drawn { Draws 4 worker.old worker.new }
    ensures carried { ClosedBy spec.became (buckets_of tables.now) (mine_of socket).owner.name
        (plans.close tables.now.chains.layout.shape tables.now.chains.layout.seed (mine_of socket) moment)
        (turned worker.old) (turned worker.new)
        (chained tables.now worker.old) (chained tables.now worker.new) (without_socket result) }
    ensures back { IfErr result (λ refusal. refusal.0 ≡ socket) }
    ensures kept { OnErr result (StandsAs tables.now socket (turned worker.new) (chained tables.now worker.new)) }
    ensures nothing { OnErr result (Gave (turned worker.old) (turned worker.new) []) }
    ensures side { OnErr result (chained tables.now worker.new ≡ chained tables.now worker.old) }
    ensures lists { ListsOfLeave (buckets_of tables.now) socket (turned worker.new)
        worker.old.groups worker.new.groups result }
    ensures listed { KeepsLists tables.now worker.old worker.new }
    ensures stay { OthersKept socket (chained tables.now worker.old).view (chained tables.now worker.new).view }
    ensures patient { P.endless ≡ true → IfErr result (λ refusal. NotBusy refusal.1) }
{
    let closed = close_as(patience, tables, worker, &socket, moment);
    close_answer(socket, closed)
}

/// Lets a socket go at once, without TIME_WAIT. Its plan goes on so as that of [`close`] does.
///
/// # Errors
///
/// `LeftOff`, as for [`close`].
pub fn drop_sock<P: Patience>(
    patience: &P,
    tables: &Tables,
    worker: &mut Worker,
    socket: Sock,
) -> Result<(), (Sock, OpEnd)>
    requires ready { IsReady tables.now worker.old }
    requires enters { MayEnter 1 worker.old }
    requires draws { MayDraw 2 worker.old }
    requires may { MayTell worker.old (mine_of socket).owner.name }
    requires stands { StandsAs tables.now socket (turned worker.old) (chained tables.now worker.old) }
    ensures ready { IsReady tables.now worker.new }
    ensures caller { words.caller worker.new.turns ≡ words.caller worker.old.turns }
    ensures entered { words.draws worker.new.turns ≤ words.draws worker.old.turns + 1 }
    ensures drawn { Draws 2 worker.old worker.new }
    ensures carried { ClosedBy is_gone (buckets_of tables.now) (mine_of socket).owner.name
        (plans.drop (mine_of socket) plans.gone)
        (turned worker.old) (turned worker.new)
        (chained tables.now worker.old) (chained tables.now worker.new) (without_socket result) }
    ensures back { IfErr result (λ refusal. refusal.0 ≡ socket) }
    ensures kept { OnErr result (StandsAs tables.now socket (turned worker.new) (chained tables.now worker.new)) }
    ensures nothing { OnErr result (Gave (turned worker.old) (turned worker.new) []) }
    ensures side { OnErr result (chained tables.now worker.new ≡ chained tables.now worker.old) }
    ensures lists { ListsOfLeave (buckets_of tables.now) socket (turned worker.new)
        worker.old.groups worker.new.groups result }
    ensures listed { KeepsLists tables.now worker.old worker.new }
    ensures stay { OthersKept socket (chained tables.now worker.old).view (chained tables.now worker.new).view }
    ensures patient { P.endless ≡ true → IfErr result (λ refusal. NotBusy refusal.1) }
{
    let left = leave(patience, tables, worker, &socket);
    drop_answer(socket, left)
}
