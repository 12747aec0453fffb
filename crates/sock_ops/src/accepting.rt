//! `accept`: a listener's child is connected.

ghost use Rattle.std.specs.Prelude.{◌≡◌, ◌+◌, ◌≤◌, ◌==◌, ◌||◌, true, IfOk, IfErr};
ghost use Rattle.sock_card.specs.Became as became;
ghost use Rattle.turn_table.specs.Passes as words;
ghost use Rattle.nulls_chain.specs.Changes.{PlacesStay};
ghost use Rattle.table_model.specs.Operations as plans;
ghost use Rattle.table_rule.specs.Passes as chain_words;
ghost use Rattle.sock_ops.specs.Accepting.{accepted};
ghost use Rattle.sock_ops.specs.Connecting.{StandsFull};
ghost use Rattle.sock_ops.specs.Groups.{KeepsLists};
ghost use Rattle.sock_ops.specs.Goes.{Carried, NotBusy};
ghost use Rattle.sock_ops.specs.Socks.{mine_of};
ghost use Rattle.sock_ops.specs.Spends.{Draws};
ghost use Rattle.sock_ops.specs.Stands.{IsOwner, IsReady, MayDraw, MayEnter, MayTell, StandsAs};
ghost use Rattle.sock_ops.specs.Stands.{buckets_of, chained, turned};
ghost use Rattle.sock_ops.specs.There.{IsNew};

use crate::asking;
use crate::connecting::end_turn;
use crate::hashing::insert;
use crate::room::begin_with;
use crate::sock::{Connected, Newcomer, Sock};
use crate::tables::{Tables, Worker};
use bind_buckets::turning;
use chain_book::Replace;
use flat_list::{End, owned};
use patience::Patience;
use sock_card::{Owner, State};
use table_model::OpEnd;

/// Connects the child of a listener: it is hashed, and then it comes into the listener's port, in the same turn, in
/// which the owner of a TIME_WAIT that it replaced leaves.
fn accept_as<P: Patience>(
    patience: &P,
    tables: &Tables,
    worker: &mut Worker,
    listener: &Owner,
    child: Owner,
) -> Result<Connected, OpEnd>
    requires ready { IsReady tables.now worker.old }
    requires enters { MayEnter 2 worker.old }
    requires draws { MayDraw 4 worker.old }
    requires parent { MayTell worker.old listener.now.name }
    requires may { MayTell worker.old child.name }
    requires new { IsNew child.name (turned worker.old) }
    requires stands { IsOwner tables.now listener.now (turned worker.old) }
    requires listening { listener.now.state ≡ State.Listening }
    requires child { child ≡ became.child child.name child.mark child.addr child.remote child.rport listener.now }
    requires addr { ((listener.now.addr == 0) || (listener.now.addr == child.addr)) ≡ true }
    ensures ready { IsReady tables.now worker.new }
    ensures caller { words.caller worker.new.turns ≡ words.caller worker.old.turns }
    ensures entered { words.draws worker.new.turns ≤ words.draws worker.old.turns + 2 }
    ensures drawn { Draws 4 worker.old worker.new }
    ensures stay { PlacesStay (chain_words.known worker.old.chain.pass) (chain_words.known worker.new.chain.pass) }
    ensures groups { worker.new.groups ≡ worker.old.groups }
    ensures carried { Carried plans.done plans.refused (buckets_of tables.now)
        (plans.accept_as tables.now.chains.layout.shape tables.now.chains.layout.seed listener.now child)
        (turned worker.old) (turned worker.new) (chained tables.now worker.old) (chained tables.now worker.new) result }
    ensures stands { IfOk result (StandsFull tables.now (turned worker.new) (chained tables.now worker.new)) }
    ensures listener { IsOwner tables.now listener.now (turned worker.new) }
    ensures patient { P.endless ≡ true → IfErr result NotBusy }
{
    let mut turn = begin_with(patience, tables, worker, listener, 2)?;
    match insert(
        patience,
        &tables.chains,
        &mut worker.chain,
        &child,
        0,
        Replace::Always,
    ) {
        Ok(came) => {
            asking::inherit(
                &tables.buckets,
                &mut worker.turns,
                &mut turn,
                listener,
                &child,
            );
            end_turn(&tables.buckets, &mut worker.turns, turn, came.replaced);
            Ok(Connected::at_place(child, came.place))
        }
        Err(end) => {
            turning::give(&tables.buckets, &mut worker.turns, turn);
            Err(end)
        }
    }
}

/// The socket of that new name, with that mark, which a listener accepts from one end at another (`inet_accept`). The listener stays as
/// it is; the child keeps its port, and no conflict is looked for. A TIME_WAIT of the four-tuple gives way.
///
/// Its plan goes on so by the answers of the entries that this call gave and by the changes that it made, whoever else
/// was at the tables. What follows of that stands in [`crate::laws`].
///
/// # Errors
///
/// `Inval`: it is no listener of that end. `Taken`: a full socket or a request has the four-tuple. `Full`: no slot was
/// free. `LeftOff`: memory was wanting, or another had a bucket or a chain for longer than the caller tries; nothing
/// has changed.
pub fn accept<P: Patience>(
    patience: &P,
    tables: &Tables,
    worker: &mut Worker,
    listener: &Sock,
    newcomer: Newcomer,
    from: End,
    at: End,
) -> Result<Sock, OpEnd>
    requires ready { IsReady tables.now worker.old }
    requires enters { MayEnter 2 worker.old }
    requires draws { MayDraw 4 worker.old }
    requires parent { MayTell worker.old (mine_of listener.now).owner.name }
    requires may { MayTell worker.old newcomer.name }
    requires new { IsNew newcomer.name (turned worker.old) }
    requires stands { StandsAs tables.now listener.now (turned worker.old) (chained tables.now worker.old) }
    ensures ready { IsReady tables.now worker.new }
    ensures caller { words.caller worker.new.turns ≡ words.caller worker.old.turns }
    ensures entered { words.draws worker.new.turns ≤ words.draws worker.old.turns + 2 }
    ensures drawn { Draws 4 worker.old worker.new }
    ensures stay { PlacesStay (chain_words.known worker.old.chain.pass) (chain_words.known worker.new.chain.pass) }
    ensures groups { worker.new.groups ≡ worker.old.groups }
    ensures listed { KeepsLists tables.now worker.old worker.new }
    ensures carried { Carried accepted plans.refused (buckets_of tables.now)
        (plans.accept tables.now.chains.layout.shape tables.now.chains.layout.seed (mine_of listener.now) newcomer.name newcomer.mark from at)
        (turned worker.old) (turned worker.new) (chained tables.now worker.old) (chained tables.now worker.new) result }
    ensures stands { IfOk result (λ child.
        StandsAs tables.now child (turned worker.new) (chained tables.now worker.new)) }
    ensures listener { StandsAs tables.now listener.now (turned worker.new) (chained tables.now worker.new) }
    ensures patient { P.endless ≡ true → IfErr result NotBusy }
{
    let owner = *listener.owner();
    if owned::is_no_accept(&owner, from, at) {
        return Err(OpEnd::Inval);
    }
    let Newcomer { name, mark } = newcomer;
    let child = owned::child_owner(owner, name, mark, from, at);
    match accept_as(patience, tables, worker, &owner, child) {
        Ok(child) => Ok(Sock::Full(child)),
        Err(end) => Err(end),
    }
}
