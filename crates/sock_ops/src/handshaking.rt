//! `ack`: a handshake is over, and a listener's child comes in the place of the request.

ghost use Rattle.std.specs.Prelude.{◌≡◌, ◌+◌, ◌≤◌, ◌==◌, ◌||◌, true, IfOk, IfErr, IfSome, OnErr};
ghost use Rattle.sock_card.specs.Became as became;
ghost use Rattle.sock_card.specs.declared.card.Kind.TheVariants as kinds;
ghost use Rattle.turn_table.specs.Passes as words;
ghost use Rattle.chain_book.specs.Tuples.{same_cards};
ghost use Rattle.sock_ops.specs.Sides.{HasRoom, IsResting, side_of};
ghost use Rattle.nulls_chain.specs.Changes.{OthersStay, OtherPlacesStay, PlacesStay};
ghost use Rattle.established.specs.Comings.{FourDrawn};
ghost use Rattle.table_model.specs.Operations as plans;
ghost use Rattle.table_model.specs.Operations.{full_card};
ghost use Rattle.table_model.specs.Own.{card_of};
ghost use Rattle.table_rule.specs.Calls.{HasShares};
ghost use Rattle.table_rule.specs.Passes.{known};
ghost use Rattle.sock_ops.specs.Accepting.{accepted};
ghost use Rattle.sock_ops.specs.Closes.{OthersKept};
ghost use Rattle.sock_ops.specs.Connecting.{StandsFull};
ghost use Rattle.sock_ops.specs.Groups.{KeepsLists};
ghost use Rattle.sock_ops.specs.Goes.{Carried, NotBusy};
ghost use Rattle.sock_ops.specs.Handshaking as spec;
ghost use Rattle.sock_ops.specs.Handshaking.{HandsOver, mine_found};
ghost use Rattle.sock_ops.specs.Socks.{mine_of, without_socket};
ghost use Rattle.sock_ops.specs.Spends.{Draws};
ghost use Rattle.sock_ops.specs.Stands.{IsHashed, IsOwner, IsReady, MayDraw, MayEnter, MayTell, StandsAs};
ghost use Rattle.sock_ops.specs.Stands.{buckets_of, chained, place_in, turned};
ghost use Rattle.sock_ops.specs.There.{IsNew};

use crate::asking;
use crate::chains::{self, ChainPass, ChainTable};
use crate::leaving::request_place;
use crate::room::begin_with;
use crate::sock::{Connected, Newcomer, Request, Sock};
use crate::tables::{Tables, Worker};
use bind_buckets::turning;
use chain_book::Place;
use flat_list::owned;
use patience::Patience;
use sock_card::{Kind, Owner, State};
use table_model::{Cause, OpEnd};

/// Hashes the child that a request was for, whose place comes with it, and then takes the request out.
fn hand_over<P: Patience>(
    patience: &P,
    chains: &ChainTable,
    pass: &mut ChainPass,
    request: &Request,
    child: &Owner,
) -> Result<Place, OpEnd>
    requires rests { IsResting chains.now pass.old }
    requires hashed { IsHashed kinds.Request request.now (side_of chains.now pass.old) }
    requires tuple { same_cards (full_card child.now) (card_of kinds.Request request.now) ≡ true }
    requires room { HasRoom 2 pass.old }
    requires share { HasShares 4 (known pass.old.pass) }
    ensures rests { IsResting chains.now pass.new }
    ensures hands { HandsOver (place_in kinds.Request request.now) (full_card child.now)
        (side_of chains.now pass.old) (side_of chains.now pass.new) result }
    ensures stay { OthersStay request.now.place.slot (known pass.old.pass) (known pass.new.pass) }
    ensures others { OtherPlacesStay (place_in kinds.Request request.now) (known pass.old.pass) (known pass.new.pass) }
    ensures all { OnErr result (PlacesStay (known pass.old.pass) (known pass.new.pass)) }
    ensures share { FourDrawn (known pass.old.pass) (known pass.new.pass) }
    ensures patient { P.endless ≡ true → IfErr result NotBusy }
{
    let card = owned::card_as(Kind::Full, child, 0);
    let Some(answer) = chains::hand_over(chains, patience, pass, request_place(request), &card)
    else {
        return Err(OpEnd::LeftOff(Cause::Busy));
    };
    match answer {
        Ok(place) => Ok(Place {
            bucket: place.bucket,
            slot: place.slot,
        }),
        Err((_, slots)) => Err(OpEnd::Full {
            owned: slots.owned,
            held: slots.held,
        }),
    }
}

/// Connects the child of a listener in the place of a request, and then it comes into the listener's port, in the same
/// turn.
fn ack_as<P: Patience>(
    patience: &P,
    tables: &Tables,
    worker: &mut Worker,
    request: &Request,
    listener: &Owner,
    child: Owner,
) -> Result<Connected, OpEnd>
    requires ready { IsReady tables.now worker.old }
    requires enters { MayEnter 1 worker.old }
    requires draws { MayDraw 4 worker.old }
    requires parent { MayTell worker.old listener.now.name }
    requires may { MayTell worker.old child.name }
    requires new { IsNew child.name (turned worker.old) }
    requires hashed { IsHashed kinds.Request request.now (chained tables.now worker.old) }
    requires stands { IsOwner tables.now listener.now (turned worker.old) }
    requires listening { listener.now.state ≡ State.Listening }
    requires child { child ≡ became.child child.name child.mark child.addr child.remote child.rport listener.now }
    requires addr { ((listener.now.addr == 0) || (listener.now.addr == child.addr)) ≡ true }
    requires tuple { same_cards (full_card child) (card_of kinds.Request request.now) ≡ true }
    ensures ready { IsReady tables.now worker.new }
    ensures caller { words.caller worker.new.turns ≡ words.caller worker.old.turns }
    ensures entered { words.draws worker.new.turns ≤ words.draws worker.old.turns + 1 }
    ensures drawn { Draws 4 worker.old worker.new }
    ensures groups { worker.new.groups ≡ worker.old.groups }
    ensures carried { Carried plans.done plans.refused (buckets_of tables.now)
        (plans.ack_as tables.now.chains.layout.shape tables.now.chains.layout.seed request.now listener.now child)
        (turned worker.old) (turned worker.new) (chained tables.now worker.old) (chained tables.now worker.new) result }
    ensures stands { IfOk result (StandsFull tables.now (turned worker.new) (chained tables.now worker.new)) }
    ensures listener { IsOwner tables.now listener.now (turned worker.new) }
    ensures kept { OnErr result (IsHashed kinds.Request request.now (chained tables.now worker.new)) }
    ensures stay { OthersStay request.now.place.slot
        (chained tables.now worker.old).view (chained tables.now worker.new).view }
    ensures others { OtherPlacesStay (place_in kinds.Request request.now)
        (chained tables.now worker.old).view (chained tables.now worker.new).view }
    ensures patient { P.endless ≡ true → IfErr result NotBusy }
{
    let mut turn = begin_with(patience, tables, worker, listener, 2)?;
    match hand_over(patience, &tables.chains, &mut worker.chain, request, &child) {
        Ok(place) => {
            asking::inherit(
                &tables.buckets,
                &mut worker.turns,
                &mut turn,
                listener,
                &child,
            );
            turning::give(&tables.buckets, &mut worker.turns, turn);
            Ok(Connected::at_place(child, place))
        }
        Err(end) => {
            turning::give(&tables.buckets, &mut worker.turns, turn);
            Err(end)
        }
    }
}

/// What [`ack`] comes to; the request stays where it is refused.
fn ack_shared<P: Patience>(
    patience: &P,
    tables: &Tables,
    worker: &mut Worker,
    request: &Sock,
    listener: Option<&Sock>,
    newcomer: Newcomer,
) -> Result<Connected, OpEnd>
    requires ready { IsReady tables.now worker.old }
    requires enters { MayEnter 1 worker.old }
    requires draws { MayDraw 4 worker.old }
    requires parent { IfSome listener (λ l. MayTell worker.old (mine_of l.now).owner.name) }
    requires may { MayTell worker.old newcomer.name }
    requires new { IsNew newcomer.name (turned worker.old) }
    requires request { StandsAs tables.now request.now (turned worker.old) (chained tables.now worker.old) }
    requires stands { IfSome listener (λ l.
        StandsAs tables.now l.now (turned worker.old) (chained tables.now worker.old)) }
    ensures ready { IsReady tables.now worker.new }
    ensures caller { words.caller worker.new.turns ≡ words.caller worker.old.turns }
    ensures entered { words.draws worker.new.turns ≤ words.draws worker.old.turns + 1 }
    ensures drawn { Draws 4 worker.old worker.new }
    ensures groups { worker.new.groups ≡ worker.old.groups }
    ensures carried { Carried plans.done plans.refused (buckets_of tables.now)
        (plans.ack tables.now.chains.layout.shape tables.now.chains.layout.seed (mine_of request.now)
        (mine_found listener.entry) newcomer.name newcomer.mark)
        (turned worker.old) (turned worker.new) (chained tables.now worker.old) (chained tables.now worker.new) result }
    ensures stands { IfOk result (StandsFull tables.now (turned worker.new) (chained tables.now worker.new)) }
    ensures listener { IfSome listener.entry (λ l.
        StandsAs tables.now l.now (turned worker.new) (chained tables.now worker.new)) }
    ensures kept { OnErr result (StandsAs tables.now request.now (turned worker.new) (chained tables.now worker.new)) }
    ensures stay { OthersKept request.now (chained tables.now worker.old).view (chained tables.now worker.new).view }
    ensures patient { P.endless ≡ true → IfErr result NotBusy }
{
    let _state = request.owner();
    let Sock::Request(request) = request else {
        return Err(OpEnd::Inval);
    };
    let Some(listener) = listener else {
        return Err(OpEnd::Inval);
    };
    let owner = listener.owner();
    if owned::is_no_ack(owner, &request.owner) {
        return Err(OpEnd::Inval);
    }
    let Newcomer { name, mark } = newcomer;
    let child = owned::heir_owner(*owner, name, mark, &request.owner);
    ack_as(patience, tables, worker, request, owner, child)
}

fn ack_answer(request: Sock, child: Result<Connected, OpEnd>) -> Result<Sock, (Sock, OpEnd)>
    ensures { result ≡ spec.ack_answer request child }
{
    match child {
        Ok(child) => Ok(Sock::Full(child)),
        Err(end) => Err((request, end)),
    }
}

/// The socket of that new name, with that mark, which a listener accepts as a request's handshake is over
/// (`inet_csk_complete_hashdance`): it is hashed, then the request goes, and then the child comes into the listener's
/// port. The listener, which stays as it is, is the one by which the request came, if that is open still.
///
/// Its plan goes on so by the answers of the entries that this call gave and by the changes that it made, whoever else
/// was at the tables. What follows of that stands in [`crate::laws`].
///
/// # Errors
///
/// `Inval`: it is no request, or there is no listener that could accept at its ends. `Full`: no slot was free for the
/// child beside the request. `LeftOff`: memory was wanting, or another had a bucket or a chain for longer than the
/// caller tries; nothing has changed. The request comes back as it was.
pub fn ack<P: Patience>(
    patience: &P,
    tables: &Tables,
    worker: &mut Worker,
    request: Sock,
    listener: Option<&Sock>,
    newcomer: Newcomer,
) -> Result<Sock, (Sock, OpEnd)>
    requires ready { IsReady tables.now worker.old }
    requires enters { MayEnter 1 worker.old }
    requires draws { MayDraw 4 worker.old }
    requires parent { IfSome listener (λ l. MayTell worker.old (mine_of l.now).owner.name) }
    requires may { MayTell worker.old newcomer.name }
    requires new { IsNew newcomer.name (turned worker.old) }
    requires request { StandsAs tables.now request (turned worker.old) (chained tables.now worker.old) }
    requires stands { IfSome listener (λ l.
        StandsAs tables.now l.now (turned worker.old) (chained tables.now worker.old)) }
    ensures ready { IsReady tables.now worker.new }
    ensures caller { words.caller worker.new.turns ≡ words.caller worker.old.turns }
    ensures entered { words.draws worker.new.turns ≤ words.draws worker.old.turns + 1 }
    ensures drawn { Draws 4 worker.old worker.new }
    ensures groups { worker.new.groups ≡ worker.old.groups }
    ensures listed { KeepsLists tables.now worker.old worker.new }
    ensures carried { Carried accepted plans.refused (buckets_of tables.now)
        (plans.ack tables.now.chains.layout.shape tables.now.chains.layout.seed (mine_of request)
        (mine_found listener.entry) newcomer.name newcomer.mark)
        (turned worker.old) (turned worker.new)
        (chained tables.now worker.old) (chained tables.now worker.new) (without_socket result) }
    ensures stands { IfOk result (λ child.
        StandsAs tables.now child (turned worker.new) (chained tables.now worker.new)) }
    ensures listener { IfSome listener.entry (λ l.
        StandsAs tables.now l.now (turned worker.new) (chained tables.now worker.new)) }
    ensures back { IfErr result (λ refusal. refusal.0 ≡ request) }
    ensures kept { OnErr result (StandsAs tables.now request (turned worker.new) (chained tables.now worker.new)) }
    ensures stay { OthersKept request (chained tables.now worker.old).view (chained tables.now worker.new).view }
    ensures patient { P.endless ≡ true → IfErr result (λ refusal. NotBusy refusal.1) }
{
    let child = ack_shared(patience, tables, worker, &request, listener, newcomer);
    ack_answer(request, child)
}
