//! `syn`: a request for a handshake with a listener.

ghost use Rattle.std.specs.Prelude.{◌≡◌, ◌+◌, ◌≤◌, IfOk, true, IfErr};
ghost use Rattle.sock_card.specs.declared.card.Kind.TheVariants as kinds;
ghost use Rattle.turn_table.specs.Passes as words;
ghost use Rattle.nulls_chain.specs.Changes.{PlacesStay};
ghost use Rattle.table_model.specs.Operations as plans;
ghost use Rattle.table_rule.specs.Passes as chain_words;
ghost use Rattle.sock_ops.specs.Accepting.{accepted};
ghost use Rattle.sock_ops.specs.Groups.{KeepsLists};
ghost use Rattle.sock_ops.specs.Goes.{Carried, NotBusy};
ghost use Rattle.sock_ops.specs.Handshaking.{OwnersStay};
ghost use Rattle.sock_ops.specs.Socks.{mine_of};
ghost use Rattle.sock_ops.specs.Spends.{Draws};
ghost use Rattle.sock_ops.specs.Stands.{IsHashed, IsReady, MayDraw, MayEnter, StandsAs};
ghost use Rattle.sock_ops.specs.Stands.{buckets_of, chained, turned};

use crate::connecting::end_turn;
use crate::hashing::insert_request;
use crate::room::begin;
use crate::sock::{Newcomer, Request, Sock};
use crate::tables::{Tables, Worker};
use bind_buckets::turning;
use flat_list::{End, owned};
use patience::Patience;
use sock_card::{Owner, State, bind_key};
use table_model::OpEnd;

/// Hashes a request, in the turn of its port's bucket, in which the owner of a TIME_WAIT that it replaces leaves.
fn syn_as<P: Patience>(
    patience: &P,
    tables: &Tables,
    worker: &mut Worker,
    request: Owner,
) -> Result<Request, OpEnd>
    requires ready { IsReady tables.now worker.old }
    requires enters { MayEnter 1 worker.old }
    requires draws { MayDraw 4 worker.old }
    requires request { request.state ≡ State.Request }
    ensures ready { IsReady tables.now worker.new }
    ensures caller { words.caller worker.new.turns ≡ words.caller worker.old.turns }
    ensures entered { words.draws worker.new.turns ≤ words.draws worker.old.turns + 1 }
    ensures drawn { Draws 4 worker.old worker.new }
    ensures stay { PlacesStay (chain_words.known worker.old.chain.pass) (chain_words.known worker.new.chain.pass) }
    ensures groups { worker.new.groups ≡ worker.old.groups }
    ensures carried { Carried plans.done plans.refused (buckets_of tables.now)
        (plans.syn_as tables.now.chains.layout.shape tables.now.chains.layout.seed request)
        (turned worker.old) (turned worker.new) (chained tables.now worker.old) (chained tables.now worker.new) result }
    ensures stands { IfOk result (λ r. IsHashed kinds.Request r (chained tables.now worker.new)) }
    ensures owners { OwnersStay tables.now (turned worker.old) (turned worker.new) }
    ensures patient { P.endless ≡ true → IfErr result NotBusy }
{
    let key = bind_key(request.port, request.net);
    let turn = begin(patience, tables, worker, key, 2)?;
    match insert_request(patience, &tables.chains, &mut worker.chain, &request) {
        Ok(came) => {
            end_turn(&tables.buckets, &mut worker.turns, turn, came.replaced);
            Ok(Request::at_place(request, came.place))
        }
        Err(end) => {
            turning::give(&tables.buckets, &mut worker.turns, turn);
            Err(end)
        }
    }
}

/// The request of that name, with that mark, for a handshake with a listener from one end at another (`tcp_conn_request`,
/// `inet_csk_reqsk_queue_hash_add`). The listener stays as it is; the request is in no bind bucket. It keeps its
/// four-tuple as a full socket does, and a TIME_WAIT of that gives way.
///
/// Its plan goes on so by the answers of the entries that this call gave and by the changes that it made, whoever else
/// was at the tables. What follows of that stands in [`crate::laws`].
///
/// # Errors
///
/// `Inval`: it is no listener of that end. `Taken`: a full socket or a request has the four-tuple. `Full`: no slot was
/// free. `LeftOff`: memory was wanting, or another had a bucket or a chain for longer than the caller tries; nothing
/// has changed.
pub fn syn<P: Patience>(
    patience: &P,
    tables: &Tables,
    worker: &mut Worker,
    listener: &Sock,
    newcomer: Newcomer,
    from: End,
    at: End,
) -> Result<Sock, OpEnd>
    requires ready { IsReady tables.now worker.old }
    requires enters { MayEnter 1 worker.old }
    requires draws { MayDraw 4 worker.old }
    requires stands { StandsAs tables.now listener.now (turned worker.old) (chained tables.now worker.old) }
    ensures ready { IsReady tables.now worker.new }
    ensures caller { words.caller worker.new.turns ≡ words.caller worker.old.turns }
    ensures entered { words.draws worker.new.turns ≤ words.draws worker.old.turns + 1 }
    ensures drawn { Draws 4 worker.old worker.new }
    ensures stay { PlacesStay (chain_words.known worker.old.chain.pass) (chain_words.known worker.new.chain.pass) }
    ensures groups { worker.new.groups ≡ worker.old.groups }
    ensures listed { KeepsLists tables.now worker.old worker.new }
    ensures carried { Carried accepted plans.refused (buckets_of tables.now)
        (plans.syn tables.now.chains.layout.shape tables.now.chains.layout.seed (mine_of listener.now) newcomer.name newcomer.mark from at)
        (turned worker.old) (turned worker.new) (chained tables.now worker.old) (chained tables.now worker.new) result }
    ensures stands { IfOk result (λ request.
        StandsAs tables.now request (turned worker.new) (chained tables.now worker.new)) }
    ensures listener { StandsAs tables.now listener.now (turned worker.new) (chained tables.now worker.new) }
    ensures patient { P.endless ≡ true → IfErr result NotBusy }
{
    let owner = *listener.owner();
    if owned::is_no_accept(&owner, from, at) {
        return Err(OpEnd::Inval);
    }
    let Newcomer { name, mark } = newcomer;
    let request = owned::request_owner(owner, name, mark, from, at);
    match syn_as(patience, tables, worker, request) {
        Ok(request) => Ok(Sock::Request(request)),
        Err(end) => Err(end),
    }
}
