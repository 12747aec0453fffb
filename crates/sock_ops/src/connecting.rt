//! `connect`.

ghost use Rattle.std.specs.Prelude.{◌≡◌, ◌+◌, ◌^◌, ◌<◌, ◌≤◌, ◌++◌, ◌==◌, ◌||◌, true, length, IfOk, IfErr, OnErr};
ghost use Rattle.sock_card.specs.Became as became;
ghost use Rattle.turn_table.specs.Passes as words;
ghost use Rattle.turn_table.specs.Passes.{known};
ghost use Rattle.bind_buckets.specs.declared.request.Answer.{Answer as Said};
ghost use Rattle.bind_buckets.specs.Bucket.{entries_of};
ghost use Rattle.bind_buckets.specs.Turned.{View, IsIdle, IsOut, Within, made};
ghost use Rattle.nulls_chain.specs.Changes.{PlacesStay};
ghost use Rattle.table_model.specs.Operations as plans;
ghost use Rattle.table_rule.specs.Passes as chain_words;
ghost use Rattle.sock_ops.specs.Connecting as spec;
ghost use Rattle.sock_ops.specs.Connecting.{StandsFull};
ghost use Rattle.sock_ops.specs.Goes.{AskedAll, Carried, NotBusy, gone_of};
ghost use Rattle.sock_ops.specs.Groups.{KeepsLists};
ghost use Rattle.sock_ops.specs.Socks as socks_spec;
ghost use Rattle.sock_ops.specs.Socks.{mine_of, first_mine, without_socket, end_of};
ghost use Rattle.sock_ops.specs.Spends.{Draws};
ghost use Rattle.sock_ops.specs.Stands.{IsOwner, IsReady, MayDraw, MayEnter, MayTell, StandsAs};
ghost use Rattle.sock_ops.specs.Stands.{buckets_of, chained, turned};

use crate::asking;
use crate::hashing::insert;
use crate::room::begin_with;
use crate::searching::search_connect;
use crate::sock::{Connected, Sock};
use crate::tables::{Tables, Worker};
use bind_buckets::{Bucket, turning};
use chain_book::Replace;
use flat_list::{End, owned};
use patience::Patience;
use port_search::Ports;
use sock_card::{Owner, State};
use table_model::OpEnd;
use turn_table::{Turn, TurnPass, Turns};

/// Gives a bucket back; the owner of a TIME_WAIT that was replaced leaves it before.
pub(crate) fn end_turn(
    buckets: &Turns<Box<Bucket>>,
    pass: &mut TurnPass<Box<Bucket>>,
    turn: Turn<Box<Bucket>>,
    replaced: Option<u64>,
)
    requires out { IsOut buckets.now pass.old turn }
    requires few { words.draws pass.old < 2 ^ 48 }
    requires entry { 1 ≤ turn.value.value.entries }
    ensures idle { IsIdle buckets.now pass.new }
    ensures caller { words.caller pass.new ≡ words.caller pass.old }
    ensures draws { words.draws pass.new ≤ words.draws pass.old + 1 }
    ensures gave { (v : View) → Within v (known pass.old) → (answer : Said)
        × AskedAll turn.place (entries_of (made pass.old turn) ++ gone_of replaced answer) v (known pass.new) }
{
    match replaced {
        None => turning::give(buckets, pass, turn),
        Some(name) => {
            let mut turn = turn;
            let _gone = turning::remove_waiting(buckets, pass, &mut turn, name);
            turning::give(buckets, pass, turn);
        }
    }
}

/// Connects a bound owner, which becomes `full`: it is hashed, and then its key's bucket knows, in the same turn, in
/// which the owner of a TIME_WAIT that it replaced leaves.
fn connect_bound<P: Patience>(
    patience: &P,
    tables: &Tables,
    worker: &mut Worker,
    bound: &Owner,
    full: Owner,
    moment: u32,
    rule: Replace,
) -> Result<Connected, OpEnd>
    requires ready { IsReady tables.now worker.old }
    requires enters { MayEnter 2 worker.old }
    requires draws { MayDraw 4 worker.old }
    requires may { MayTell worker.old bound.now.name }
    requires stands { IsOwner tables.now bound.now (turned worker.old) }
    requires bound { bound.now.state ≡ State.Bound }
    requires full { full ≡ became.connected full.addr full.remote full.rport bound.now }
    requires addr { ((bound.now.addr == 0) || (bound.now.addr == full.addr)) ≡ true }
    ensures ready { IsReady tables.now worker.new }
    ensures caller { words.caller worker.new.turns ≡ words.caller worker.old.turns }
    ensures entered { words.draws worker.new.turns ≤ words.draws worker.old.turns + 2 }
    ensures drawn { Draws 4 worker.old worker.new }
    ensures stay { PlacesStay (chain_words.known worker.old.chain.pass) (chain_words.known worker.new.chain.pass) }
    ensures groups { worker.new.groups ≡ worker.old.groups }
    ensures carried { Carried plans.done plans.refused (buckets_of tables.now)
        (plans.connect_bound tables.now.chains.layout.shape tables.now.chains.layout.seed full moment rule)
        (turned worker.old) (turned worker.new) (chained tables.now worker.old) (chained tables.now worker.new) result }
    ensures stands { IfOk result (StandsFull tables.now (turned worker.new) (chained tables.now worker.new)) }
    ensures kept { OnErr result (IsOwner tables.now bound.now (turned worker.new)) }
    ensures patient { P.endless ≡ true → IfErr result NotBusy }
{
    let mut turn = begin_with(patience, tables, worker, bound, 2)?;
    match insert(
        patience,
        &tables.chains,
        &mut worker.chain,
        &full,
        moment,
        rule,
    ) {
        Ok(came) => {
            asking::connect_bound(&tables.buckets, &mut worker.turns, &mut turn, bound, &full);
            end_turn(&tables.buckets, &mut worker.turns, turn, came.replaced);
            Ok(Connected::at_place(full, came.place))
        }
        Err(end) => {
            turning::give(&tables.buckets, &mut worker.turns, turn);
            Err(end)
        }
    }
}

/// The source from which a socket bound to that address is connected, if there is one.
fn source_to(addr: u32, from: Option<u32>, to: End) -> Option<u32>
    ensures { result ≡ socks_spec.source_to addr from to }
{
    if owned::is_no_end(to) {
        None
    } else {
        owned::source_of(addr, from)
    }
}

fn connect_answer(
    socket: Sock,
    connected: Result<Connected, OpEnd>,
) -> Result<(Sock, End), (Sock, OpEnd)>
    ensures { result ≡ spec.connect_answer socket connected }
{
    match connected {
        Ok(full) => {
            let end = full.end();
            Ok((Sock::Full(full), end))
        }
        Err(end) => Err((socket, end)),
    }
}

/// Connects a socket from an address to another end, at a moment in seconds; its own end comes with it. A socket keeps
/// the address to which it is bound, unless that is 0.0.0.0, and its port; one without a port takes the first of a
/// search. A TIME_WAIT of the four-tuple may give way by that rule.
///
/// Its plan goes on so by the answers of the entries that this call gave and by the changes that it made, whoever else
/// was at the tables. What follows of that stands in [`crate::laws`].
///
/// # Errors
///
/// `Inval`: there is no such end or no such source, or it is a request. `IsConn`: it listens or is connected. `Taken`:
/// the socket of that name keeps its four-tuple from it. `Full`: no slot was free. `NoPort`: each of the ports, at its
/// own turn, was held or had its four-tuple taken. `LeftOff`: memory was wanting, or another had a bucket or a chain
/// for longer than the caller tries; the entries that a search gave before stay. A refused socket comes back as it was.
pub fn connect<P: Patience>(
    patience: &P,
    tables: &Tables,
    worker: &mut Worker,
    socket: Sock,
    from: Option<u32>,
    to: End,
    moment: u32,
    rule: Replace,
    ports: Ports,
) -> Result<(Sock, End), (Sock, OpEnd)>
    requires ready { IsReady tables.now worker.old }
    requires enters { MayEnter (length ports + 2) worker.old }
    requires draws { MayDraw 4 worker.old }
    requires may { MayTell worker.old (mine_of socket).owner.name }
    requires stands { StandsAs tables.now socket (turned worker.old) (chained tables.now worker.old) }
    ensures ready { IsReady tables.now worker.new }
    ensures caller { words.caller worker.new.turns ≡ words.caller worker.old.turns }
    ensures entered { words.draws worker.new.turns ≤ words.draws worker.old.turns + (length ports + 2) }
    ensures drawn { Draws 4 worker.old worker.new }
    ensures stay { PlacesStay (chain_words.known worker.old.chain.pass) (chain_words.known worker.new.chain.pass) }
    ensures groups { worker.new.groups ≡ worker.old.groups }
    ensures listed { KeepsLists tables.now worker.old worker.new }
    ensures carried { Carried first_mine plans.refused (buckets_of tables.now)
        (plans.connect tables.now.chains.layout.shape tables.now.chains.layout.seed (mine_of socket)
        from to moment rule ports)
        (turned worker.old) (turned worker.new)
        (chained tables.now worker.old) (chained tables.now worker.new) (without_socket result) }
    ensures own_end { IfOk result (λ full. full.1 ≡ end_of (mine_of full.0)) }
    ensures back { IfErr result (λ refusal. refusal.0 ≡ socket) }
    ensures stands { IfOk result (λ full.
        StandsAs tables.now full.0 (turned worker.new) (chained tables.now worker.new)) }
    ensures kept { OnErr result (StandsAs tables.now socket (turned worker.new) (chained tables.now worker.new)) }
    ensures patient { P.endless ≡ true → IfErr result (λ refusal. NotBusy refusal.1) }
{
    let owner = *socket.owner();
    match socket {
        Sock::Unbound(unbound) => {
            let Some(source) = source_to(owner.addr, from, to) else {
                return Err((Sock::Unbound(unbound), OpEnd::Inval));
            };
            let full = search_connect(
                patience, tables, worker, owner, source, to, moment, rule, ports,
            );
            connect_answer(Sock::Unbound(unbound), full)
        }
        Sock::Bound(bound) => {
            let Some(source) = source_to(owner.addr, from, to) else {
                return Err((Sock::Bound(bound), OpEnd::Inval));
            };
            let full = owned::connected_to(owner, source, to);
            let full = connect_bound(patience, tables, worker, &owner, full, moment, rule);
            connect_answer(Sock::Bound(bound), full)
        }
        Sock::Listening(listener) => Err((Sock::Listening(listener), OpEnd::IsConn)),
        Sock::Full(full) => Err((Sock::Full(full), OpEnd::IsConn)),
        Sock::Request(request) => Err((Sock::Request(request), OpEnd::Inval)),
    }
}
