//! `listen`.

ghost use Rattle.std.specs.Prelude.{◌≡◌, ◌+◌, ◌%◌, ◌^◌, ◌<◌, ◌≤◌, ◌++◌, ◌∷◌, [], List, length, true, false, IfOk, IfErr, OnErr, IfSome};
ghost use Rattle.std.specs.Option.{option_map_or};
ghost use Rattle.sock_card.specs.Conflict.{owner_key};
ghost use Rattle.sock_card.specs.declared.card.Kind.TheVariants as kinds;
ghost use Rattle.turn_table.specs.Passes as words;
ghost use Rattle.turn_table.specs.Passes.{known};
ghost use Rattle.nulls_chain.specs.Changes.{PlacesStay};
ghost use Rattle.bind_buckets.specs.declared.request.Answer.TheVariants as answers;
ghost use Rattle.bind_buckets.specs.declared.request.Entry.{Entry};
ghost use Rattle.bind_buckets.specs.declared.request.Request.TheVariants as requests;
ghost use Rattle.bind_buckets.specs.Answers.{answer_of_end};
ghost use Rattle.bind_buckets.specs.Bucket.{entries_of, answer_to};
ghost use Rattle.bind_buckets.specs.Callers.{MayName};
ghost use Rattle.bind_buckets.specs.Turned.{View, IsIdle, IsOut, Within, made};
ghost use Rattle.sock_ops.specs.Sides.{HasRoom, IsResting};
ghost use Rattle.table_model.specs.Asking.{ends};
ghost use Rattle.table_model.specs.Operations as plans;
ghost use Rattle.sock_ops.specs.Goes.{AskedAll, CarriedOut, HoldsAfter, NotBusy, gone_if};
ghost use Rattle.sock_ops.specs.Groups.{GaveBack, KeepsLists, ListsOfListen, StartsLists, StartsUnbound};
ghost use Rattle.sock_ops.specs.Listens as spec;
ghost use Rattle.sock_ops.specs.Listens.{IsKnownEnd, SaysListen, TellsAs, asked_listen};
ghost use Rattle.sock_ops.specs.Socks.{mine_of, first_mine, without_socket};
ghost use Rattle.sock_ops.specs.Stands.{HasGroups, IsAway, IsHashed, IsOwner, IsReady, IsThere, MayDraw, MayEnter, MayTell, StandsAs, buckets_of, chained, turned};
ghost use Rattle.sock_ops.specs.Spends.{Draws};

use crate::room::begin_with;
use crate::sock::{Listening, Sock};
use crate::tables::{Tables, Worker};
use crate::{asking, order};
use bind_buckets::{Bucket, ListenEnd, turning};
use flat_list::owned;
use patience::Patience;
use port_search::turning::find_bind_turn;
use port_search::{Ports, SearchEnd};
use reuseport_group::GroupPasses;
use sock_card::{Kind, Owner, as_listener};
use table_model::{Cause, OpEnd};
use turn_table::{Turn, TurnPass, Turns};

fn end_of(end: ListenEnd) -> OpEnd
    requires { IsKnownEnd end }
    ensures { SaysListen (answer_of_end end) result }
{
    match end {
        ListenEnd::InUse(name) => OpEnd::InUse(name),
        ListenEnd::GroupFull => OpEnd::GroupFull,
        ListenEnd::GroupsFull => OpEnd::GroupsFull,
        ListenEnd::Strange(_) => unreachable!(),
    }
}

/// What a listener's card says of its group: its number and 1, or 0.
fn extra_of(group: Option<u32>) -> u32
    requires { IfSome group (λ number. number < 2048) }
    ensures { result ≡ option_map_or (λ number. number + 1) group 0 }
{
    match group {
        Some(number) => number + 1,
        None => 0,
    }
}

/// Gives a bucket back; an owner whose port this call took leaves it before.
fn give_back(
    tables: &Tables,
    pass: &mut TurnPass<Box<Bucket>>,
    passes: &mut GroupPasses,
    turn: Turn<Box<Bucket>>,
    owner: &Owner,
    took: bool,
)
    requires out { IsOut tables.now.buckets pass.old turn }
    requires few { words.draws pass.old < 2 ^ 48 }
    requires may { MayName (words.caller pass.old) owner.now.name }
    requires there { IsThere turn owner.now }
    requires groups { HasGroups tables.now passes.old }
    ensures idle { IsIdle tables.now.buckets pass.new }
    ensures groups { HasGroups tables.now passes.new }
    ensures caller { words.caller pass.new ≡ words.caller pass.old }
    ensures draws { words.draws pass.new ≤ words.draws pass.old + 1 }
    ensures gave { (v : View) → Within v (known pass.old)
        → AskedAll turn.place (entries_of (made pass.old turn) ++ gone_if took owner.now) v (known pass.new) }
    ensures lists { (v : View) → Within v (known pass.old)
        → GaveBack took turn.place owner.now (known pass.new) passes.old passes.new }
{
    let mut turn = turn;
    if took {
        let unlisted = order::leave(tables, pass, passes, &mut turn, owner);
        unlisted.give(&tables.buckets, pass, turn);
    } else {
        turning::give(&tables.buckets, pass, turn);
    }
}

/// Hashes the owner, which may listen as the bucket stands that is out, and reports that to the bucket. Where it can't
/// be hashed, the bucket is given back, by an owner whose port this call took as one that leaves it.
fn start_in<P: Patience>(
    patience: &P,
    tables: &Tables,
    worker: &mut Worker,
    turn: Turn<Box<Bucket>>,
    owner: &Owner,
    took: bool,
    group: Option<u32>,
) -> Result<Listening, OpEnd>
    requires out { IsOut tables.now.buckets worker.old.turns turn }
    requires place { turn.place ≡ owner_key owner.now % buckets_of tables.now }
    requires enters { MayEnter 1 worker.old }
    requires may { MayTell worker.old owner.now.name }
    requires there { IsThere turn owner.now }
    requires says { answer_to turn.value.value (requests.MayListen owner.now.name) ≡ answers.Group group }
    requires entry { 1 ≤ turn.value.value.entries }
    requires group { IfSome group (λ number. number < 2048) }
    requires rests { IsResting tables.now.chains worker.old.chain }
    requires room { HasRoom 1 worker.old.chain }
    requires draws { MayDraw 2 worker.old }
    requires groups { HasGroups tables.now worker.old.groups }
    ensures ready { IsReady tables.now worker.new }
    ensures caller { words.caller worker.new.turns ≡ words.caller worker.old.turns }
    ensures entered { words.draws worker.new.turns ≤ words.draws worker.old.turns + 1 }
    ensures drawn { Draws 2 worker.old worker.new }
    ensures carried { (v : View) → (es : List Entry) → Within v (turned worker.old)
        → entries_of (made worker.old.turns turn) ≡ es ++ asked_listen owner.now (answers.Group group) ∷ []
        → HoldsAfter (owner_key owner.now % buckets_of tables.now) es v (λ u.
        CarriedOut plans.done plans.refused (buckets_of tables.now) owner.now.name
        (plans.listen_at tables.now.chains.layout.shape tables.now.chains.layout.seed took owner.now)
        u (turned worker.new) (chained tables.now worker.old) (chained tables.now worker.new) result) }
    ensures tells { (v : View) → (es : List Entry) → Within v (turned worker.old)
        → entries_of (made worker.old.turns turn) ≡ es ++ asked_listen owner.now (answers.Group group) ∷ []
        → HoldsAfter (owner_key owner.now % buckets_of tables.now) es v (λ u.
        TellsAs (owner_key owner.now % buckets_of tables.now) owner.now took u (turned worker.new) result) }
    ensures lists { (v : View) → (es : List Entry) → Within v (turned worker.old)
        → entries_of (made worker.old.turns turn) ≡ es ++ asked_listen owner.now (answers.Group group) ∷ []
        → StartsLists took (owner_key owner.now % buckets_of tables.now) owner.now (turned worker.new)
        worker.old.groups worker.new.groups result }
    ensures hashed { IfOk result (λ l. IsHashed kinds.Listen l (chained tables.now worker.new)) }
    ensures stay { PlacesStay (chained tables.now worker.old).view (chained tables.now worker.new).view }
    ensures patient { P.endless ≡ true → IfErr result NotBusy }
{
    let listener = as_listener(*owner);
    let extra = extra_of(group);
    let card = owned::card_as(Kind::Listen, &listener, extra);
    match order::hash(patience, &tables.chains, &mut worker.chain, &card) {
        Ok(hashed) => {
            let mut turn = turn;
            order::join(
                tables,
                &mut worker.turns,
                &mut worker.groups,
                &mut turn,
                owner,
                &hashed,
                group,
            );
            turning::give(&tables.buckets, &mut worker.turns, turn);
            Ok(Listening::at_place(listener, extra, hashed.place))
        }
        Err(end) => {
            give_back(
                tables,
                &mut worker.turns,
                &mut worker.groups,
                turn,
                owner,
                took,
            );
            Err(end)
        }
    }
}

/// Lets an owner listen whose bucket is out: room is made for its change, the bucket says whether it may and in which
/// group, it is hashed, and then the bucket knows, all in that turn. One that can't listen, and whose port this call
/// took, leaves its port in that turn.
fn start_in_turn<P: Patience>(
    patience: &P,
    tables: &Tables,
    worker: &mut Worker,
    turn: Turn<Box<Bucket>>,
    owner: &Owner,
    took: bool,
) -> Result<Listening, OpEnd>
    requires out { IsOut tables.now.buckets worker.old.turns turn }
    requires place { turn.place ≡ owner_key owner.now % buckets_of tables.now }
    requires enters { MayEnter 2 worker.old }
    requires draws { MayDraw 2 worker.old }
    requires may { MayTell worker.old owner.now.name }
    requires there { IsThere turn owner.now }
    requires entries { 2 ≤ turn.value.value.entries }
    requires rests { IsResting tables.now.chains worker.old.chain }
    requires groups { HasGroups tables.now worker.old.groups }
    ensures ready { IsReady tables.now worker.new }
    ensures caller { words.caller worker.new.turns ≡ words.caller worker.old.turns }
    ensures entered { words.draws worker.new.turns ≤ words.draws worker.old.turns + 2 }
    ensures drawn { Draws 2 worker.old worker.new }
    ensures carried { (v : View) → Within v (turned worker.old)
        → HoldsAfter (owner_key owner.now % buckets_of tables.now) (entries_of (made worker.old.turns turn)) v (λ u.
        CarriedOut plans.done plans.refused (buckets_of tables.now) owner.now.name
        (plans.listen_at tables.now.chains.layout.shape tables.now.chains.layout.seed took owner.now)
        u (turned worker.new) (chained tables.now worker.old) (chained tables.now worker.new) result) }
    ensures tells { (v : View) → Within v (turned worker.old)
        → HoldsAfter (owner_key owner.now % buckets_of tables.now) (entries_of (made worker.old.turns turn)) v (λ u.
        TellsAs (owner_key owner.now % buckets_of tables.now) owner.now took u (turned worker.new) result) }
    ensures lists { (v : View) → Within v (turned worker.old)
        → StartsLists took (owner_key owner.now % buckets_of tables.now) owner.now (turned worker.new)
        worker.old.groups worker.new.groups result }
    ensures hashed { IfOk result (λ l. IsHashed kinds.Listen l (chained tables.now worker.new)) }
    ensures stay { PlacesStay (chained tables.now worker.old).view (chained tables.now worker.new).view }
    ensures patient { P.endless ≡ true → IfErr result NotBusy }
{
    let mut turn = turn;
    match worker.chain.reserve(&tables.chains, 1) {
        Ok(()) => match asking::may_listen(&tables.buckets, &mut worker.turns, &mut turn, owner) {
            Ok(group) => start_in(patience, tables, worker, turn, owner, took, group),
            Err(end) => {
                give_back(
                    tables,
                    &mut worker.turns,
                    &mut worker.groups,
                    turn,
                    owner,
                    took,
                );
                Err(end_of(end))
            }
        },
        Err(_) => {
            give_back(
                tables,
                &mut worker.turns,
                &mut worker.groups,
                turn,
                owner,
                took,
            );
            Err(OpEnd::LeftOff(Cause::Memory))
        }
    }
}

/// Lets a bound owner listen, in a turn of its key's bucket.
fn start<P: Patience>(
    patience: &P,
    tables: &Tables,
    worker: &mut Worker,
    owner: &Owner,
) -> Result<Listening, OpEnd>
    requires ready { IsReady tables.now worker.old }
    requires enters { MayEnter 2 worker.old }
    requires draws { MayDraw 2 worker.old }
    requires may { MayTell worker.old owner.now.name }
    requires stands { IsOwner tables.now owner.now (turned worker.old) }
    ensures ready { IsReady tables.now worker.new }
    ensures caller { words.caller worker.new.turns ≡ words.caller worker.old.turns }
    ensures entered { words.draws worker.new.turns ≤ words.draws worker.old.turns + 2 }
    ensures drawn { Draws 2 worker.old worker.new }
    ensures carried { CarriedOut plans.done plans.refused (buckets_of tables.now) owner.now.name
        (plans.listen_at tables.now.chains.layout.shape tables.now.chains.layout.seed false owner.now)
        (turned worker.old) (turned worker.new)
        (chained tables.now worker.old) (chained tables.now worker.new) result }
    ensures tells { TellsAs (owner_key owner.now % buckets_of tables.now) owner.now false
        (turned worker.old) (turned worker.new) result }
    ensures lists { StartsLists false (owner_key owner.now % buckets_of tables.now) owner.now (turned worker.new)
        worker.old.groups worker.new.groups result }
    ensures listed { KeepsLists tables.now worker.old worker.new }
    ensures hashed { IfOk result (λ l. IsHashed kinds.Listen l (chained tables.now worker.new)) }
    ensures stay { PlacesStay (chained tables.now worker.old).view (chained tables.now worker.new).view }
    ensures patient { P.endless ≡ true → IfErr result NotBusy }
{
    // Room for its change is made in the turn.
    match begin_with(patience, tables, worker, owner, 0) {
        Ok(turn) => start_in_turn(patience, tables, worker, turn, owner, false),
        Err(cause) => Err(OpEnd::LeftOff(cause)),
    }
}

/// Lets an owner without a port listen, at its address and the first port that it can have. It listens in the turn in
/// which it took the port, or gives it up then.
fn start_unbound<P: Patience>(
    patience: &P,
    tables: &Tables,
    worker: &mut Worker,
    owner: Owner,
    ports: Ports,
) -> Result<Listening, OpEnd>
    requires ready { IsReady tables.now worker.old }
    requires enters { MayEnter (length ports + 2) worker.old }
    requires draws { MayDraw 2 worker.old }
    requires may { MayTell worker.old owner.name }
    requires away { IsAway owner.name (turned worker.old) }
    ensures ready { IsReady tables.now worker.new }
    ensures caller { words.caller worker.new.turns ≡ words.caller worker.old.turns }
    ensures entered { words.draws worker.new.turns ≤ words.draws worker.old.turns + (length ports + 2) }
    ensures drawn { Draws 2 worker.old worker.new }
    ensures carried { CarriedOut plans.done plans.refused (buckets_of tables.now) owner.name
        (plans.search_bind owner owner.addr
        (plans.listen_found tables.now.chains.layout.shape tables.now.chains.layout.seed owner)
        (ends (plans.refused OpEnd.NoPort)) ports)
        (turned worker.old) (turned worker.new)
        (chained tables.now worker.old) (chained tables.now worker.new) result }
    ensures stands { IfOk result (λ l. IsOwner tables.now l.owner (turned worker.new)) }
    ensures lists { StartsUnbound (buckets_of tables.now) owner.name (turned worker.new)
        worker.old.groups worker.new.groups result }
    ensures listed { KeepsLists tables.now worker.old worker.new }
    ensures hashed { IfOk result (λ l. IsHashed kinds.Listen l (chained tables.now worker.new)) }
    ensures kept { OnErr result (IsAway owner.name (turned worker.new)) }
    ensures stay { PlacesStay (chained tables.now worker.old).view (chained tables.now worker.new).view }
    ensures patient { P.endless ≡ true → IfErr result NotBusy }
{
    let wanted = owned::bound_at(owner, owner.addr, 0);
    match find_bind_turn(patience, &tables.buckets, &mut worker.turns, ports, wanted) {
        Ok((port, turn)) => {
            let bound = owned::bound_at(owner, owner.addr, port);
            start_in_turn(patience, tables, worker, turn, &bound, true)
        }
        Err(SearchEnd::NoPort) => Err(OpEnd::NoPort),
        Err(SearchEnd::Full { owned, held }) => Err(OpEnd::Full { owned, held }),
        Err(SearchEnd::Memory) => Err(OpEnd::LeftOff(Cause::Memory)),
        Err(SearchEnd::Busy) => Err(OpEnd::LeftOff(Cause::Busy)),
    }
}

fn listen_answer(
    socket: Sock,
    started: Result<Listening, OpEnd>,
) -> Result<(Sock, u16), (Sock, OpEnd)>
    ensures { result ≡ spec.listen_answer socket started }
{
    match started {
        Ok(listener) => {
            let port = listener.port();
            Ok((Sock::Listening(listener), port))
        }
        Err(end) => Err((socket, end)),
    }
}

/// Lets a socket listen; its port comes with it. One without a port takes the first of a search, at the
/// address to which it is bound, or 0.0.0.0. A listener
/// stays as it is.
///
/// Its plan goes on so by the answers of the entries that this call gave and by the changes that it made, whoever
/// else was at the tables. What follows of that stands in [`crate::laws`].
///
/// # Errors
///
/// `Inval`: it is connected, or a request. `InUse`: the owner of that name keeps it from listening. `NoPort`: each of
/// the ports was refused, at its own turn. `GroupFull` and `GroupsFull`: no place in a group of listeners. `Full`: no
/// slot was free. `LeftOff`: a bucket, or the worker's changes where they are kept, wanted memory, or another had a
/// bucket's turn or the lock of its chain for longer than the caller tries; the entries of the ports refused before
/// stay. A refused socket comes back as it was; a port that this call took for it is given up.
pub fn listen<P: Patience>(
    patience: &P,
    tables: &Tables,
    worker: &mut Worker,
    socket: Sock,
    ports: Ports,
) -> Result<(Sock, u16), (Sock, OpEnd)>
    requires ready { IsReady tables.now worker.old }
    requires enters { MayEnter (length ports + 2) worker.old }
    requires draws { MayDraw 2 worker.old }
    requires may { MayTell worker.old (mine_of socket).owner.name }
    requires stands { StandsAs tables.now socket (turned worker.old) (chained tables.now worker.old) }
    ensures ready { IsReady tables.now worker.new }
    ensures caller { words.caller worker.new.turns ≡ words.caller worker.old.turns }
    ensures entered { words.draws worker.new.turns ≤ words.draws worker.old.turns + (length ports + 2) }
    ensures drawn { Draws 2 worker.old worker.new }
    ensures carried { CarriedOut first_mine plans.refused (buckets_of tables.now) (mine_of socket).owner.name
        (plans.listen tables.now.chains.layout.shape tables.now.chains.layout.seed (mine_of socket) ports)
        (turned worker.old) (turned worker.new)
        (chained tables.now worker.old) (chained tables.now worker.new) (without_socket result) }
    ensures port { IfOk result (λ listens. listens.1 ≡ (mine_of listens.0).owner.port) }
    ensures back { IfErr result (λ refusal. refusal.0 ≡ socket) }
    ensures stands { IfOk result (λ listens. StandsAs tables.now listens.0 (turned worker.new)
        (chained tables.now worker.new)) }
    ensures kept { OnErr result (StandsAs tables.now socket (turned worker.new) (chained tables.now worker.new)) }
    ensures lists { ListsOfListen (buckets_of tables.now) socket (turned worker.new)
        worker.old.groups worker.new.groups (without_socket result) }
    ensures listed { KeepsLists tables.now worker.old worker.new }
    ensures stay { PlacesStay (chained tables.now worker.old).view (chained tables.now worker.new).view }
    ensures patient { P.endless ≡ true → IfErr result (λ refusal. NotBusy refusal.1) }
{
    let owner = *socket.owner();
    match socket {
        Sock::Unbound(unbound) => {
            let started = start_unbound(patience, tables, worker, owner, ports);
            listen_answer(Sock::Unbound(unbound), started)
        }
        Sock::Bound(bound) => {
            let started = start(patience, tables, worker, &owner);
            listen_answer(Sock::Bound(bound), started)
        }
        Sock::Listening(listener) => Ok((Sock::Listening(listener), owner.port)),
        Sock::Full(full) => Err((Sock::Full(full), OpEnd::Inval)),
        Sock::Request(request) => Err((Sock::Request(request), OpEnd::Inval)),
    }
}
