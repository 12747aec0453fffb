//! `connect` of a socket without a port, which searches for one.

ghost use Rattle.std.specs.Prelude.{◌≡◌, ◌+◌, ◌%◌, ◌≤◌, ◌∷◌, [], true, length, IfOk, OnErr, IfErr};
ghost use Rattle.sock_card.specs.Conflict.{owner_key};
ghost use Rattle.turn_table.specs.Passes as words;
ghost use Rattle.bind_buckets.specs.Bucket.{CanConnect, entries_of};
ghost use Rattle.bind_buckets.specs.Turned.{View, IsOut, Within, made};
ghost use Rattle.sock_ops.specs.Sides.{HasRoom, IsResting};
ghost use Rattle.nulls_chain.specs.Changes.{PlacesStay};
ghost use Rattle.table_model.specs.Operations as plans;
ghost use Rattle.table_rule.specs.Passes as chain_words;
ghost use Rattle.sock_ops.specs.Connecting.{StandsFull};
ghost use Rattle.sock_ops.specs.Goes.{Carried, NotBusy};
ghost use Rattle.sock_ops.specs.Searching as spec;
ghost use Rattle.sock_ops.specs.Searching.{KeepsDraws, PassesBy, TriesAt, TryLeaves, free_entry};
ghost use Rattle.sock_ops.specs.Spends.{Draws};
ghost use Rattle.sock_ops.specs.Stands.{HasGroups, IsAway, IsReady, MayDraw, MayEnter, MayTell, buckets_of, chained, turned};

use crate::connecting::end_turn;
use crate::hashing::insert;
use crate::room::begin;
use crate::sock::Connected;
use crate::tables::{Tables, Worker};
use bind_buckets::{Bucket, turning};
use chain_book::Replace;
use flat_list::{End, owned};
use patience::Patience;
use port_search::Ports;
use sock_card::{Owner, State, bind_key};
use table_model::OpEnd;
use turn_table::Turn;

/// What the refusal at one port means for a search.
fn next_or(end: OpEnd) -> Result<Option<Connected>, OpEnd>
    ensures { result ≡ spec.next_or end }
{
    match end {
        OpEnd::Taken(_) => Ok(None),
        _ => Err(end),
    }
}

/// Hashes the owner, for which `connect` may choose its port as the bucket stands that is out, and reports that to the
/// bucket.
fn connect_in<P: Patience>(
    patience: &P,
    tables: &Tables,
    worker: &mut Worker,
    turn: Turn<Box<Bucket>>,
    full: Owner,
    moment: u32,
    rule: Replace,
) -> Result<Option<Connected>, OpEnd>
    requires out { IsOut tables.now.buckets worker.old.turns turn }
    requires place { turn.place ≡ owner_key full % buckets_of tables.now }
    requires enters { MayEnter 2 worker.old }
    requires may { MayTell worker.old full.name }
    requires free { CanConnect turn.value.value full.port full.net }
    requires entries { 2 ≤ turn.value.value.entries }
    requires newcomers { 1 ≤ turn.value.value.newcomers }
    requires chosen { full.by_connect ≡ true }
    requires full { full.state ≡ State.Full }
    requires rests { IsResting tables.now.chains worker.old.chain }
    requires room { HasRoom 2 worker.old.chain }
    requires draws { MayDraw 4 worker.old }
    requires groups { HasGroups tables.now worker.old.groups }
    ensures ready { IsReady tables.now worker.new }
    ensures caller { words.caller worker.new.turns ≡ words.caller worker.old.turns }
    ensures entered { words.draws worker.new.turns ≤ words.draws worker.old.turns + 2 }
    ensures none { PassesBy 0 (words.draws worker.old.turns) (words.draws worker.new.turns) result }
    ensures drawn { Draws 4 worker.old worker.new }
    ensures keeps { KeepsDraws worker.old worker.new result }
    ensures stay { PlacesStay (chain_words.known worker.old.chain.pass) (chain_words.known worker.new.chain.pass) }
    ensures groups { worker.new.groups ≡ worker.old.groups }
    ensures tries { (v : View) → Within v (turned worker.old)
        → entries_of (made worker.old.turns turn) ≡ free_entry full ∷ []
        → TriesAt (buckets_of tables.now) tables.now.chains.layout full moment rule v (turned worker.new)
        (chained tables.now worker.old) (chained tables.now worker.new) result }
    ensures leaves { (v : View) → Within v (turned worker.old)
        → entries_of (made worker.old.turns turn) ≡ free_entry full ∷ [] → IsAway full.name v
        → TryLeaves tables.now full.name (turned worker.new) (chained tables.now worker.new) result }
    ensures patient { P.endless ≡ true → IfErr result NotBusy }
{
    match insert(
        patience,
        &tables.chains,
        &mut worker.chain,
        &full,
        moment,
        rule,
    ) {
        Ok(came) => {
            let mut turn = turn;
            turning::connect_auto(&tables.buckets, &mut worker.turns, &mut turn, full);
            end_turn(&tables.buckets, &mut worker.turns, turn, came.replaced);
            Ok(Some(Connected::at_place(full, came.place)))
        }
        Err(end) => {
            turning::give(&tables.buckets, &mut worker.turns, turn);
            next_or(end)
        }
    }
}

/// Connects the owner at its port, if that is free and has the four-tuple, all in one turn; None where another port is
/// to be tried.
fn connect_at<P: Patience>(
    patience: &P,
    tables: &Tables,
    worker: &mut Worker,
    full: Owner,
    moment: u32,
    rule: Replace,
) -> Result<Option<Connected>, OpEnd>
    requires ready { IsReady tables.now worker.old }
    requires enters { MayEnter 3 worker.old }
    requires may { MayTell worker.old full.name }
    requires chosen { full.by_connect ≡ true }
    requires full { full.state ≡ State.Full }
    requires draws { MayDraw 4 worker.old }
    requires away { IsAway full.name (turned worker.old) }
    ensures ready { IsReady tables.now worker.new }
    ensures caller { words.caller worker.new.turns ≡ words.caller worker.old.turns }
    ensures entered { words.draws worker.new.turns ≤ words.draws worker.old.turns + 3 }
    ensures one { PassesBy 1 (words.draws worker.old.turns) (words.draws worker.new.turns) result }
    ensures drawn { Draws 4 worker.old worker.new }
    ensures keeps { KeepsDraws worker.old worker.new result }
    ensures stay { PlacesStay (chain_words.known worker.old.chain.pass) (chain_words.known worker.new.chain.pass) }
    ensures groups { worker.new.groups ≡ worker.old.groups }
    ensures tries { TriesAt (buckets_of tables.now) tables.now.chains.layout full moment rule (turned worker.old)
        (turned worker.new) (chained tables.now worker.old) (chained tables.now worker.new) result }
    ensures leaves { TryLeaves tables.now full.name (turned worker.new) (chained tables.now worker.new) result }
    ensures patient { P.endless ≡ true → IfErr result NotBusy }
{
    let key = bind_key(full.port, full.net);
    let mut turn = begin(patience, tables, worker, key, 2)?;
    match turning::free(
        &tables.buckets,
        &mut worker.turns,
        &mut turn,
        full.port,
        full.net,
    ) {
        Ok(()) => connect_in(patience, tables, worker, turn, full, moment, rule),
        Err(_) => {
            turning::give(&tables.buckets, &mut worker.turns, turn);
            Ok(None)
        }
    }
}

/// Connects the owner from the first of the ports that is free as its turn comes and has the four-tuple
/// (`__inet_hash_connect`).
pub(crate) fn search_connect<P: Patience>(
    patience: &P,
    tables: &Tables,
    worker: &mut Worker,
    owner: Owner,
    source: u32,
    to: End,
    moment: u32,
    rule: Replace,
    ports: Ports,
) -> Result<Connected, OpEnd>
    requires ready { IsReady tables.now worker.old }
    requires enters { MayEnter (length ports + 2) worker.old }
    requires draws { MayDraw 4 worker.old }
    requires may { MayTell worker.old owner.name }
    requires away { IsAway owner.name (turned worker.old) }
    ensures ready { IsReady tables.now worker.new }
    ensures caller { words.caller worker.new.turns ≡ words.caller worker.old.turns }
    ensures entered { words.draws worker.new.turns ≤ words.draws worker.old.turns + (length ports + 2) }
    ensures drawn { Draws 4 worker.old worker.new }
    ensures stay { PlacesStay (chain_words.known worker.old.chain.pass) (chain_words.known worker.new.chain.pass) }
    ensures groups { worker.new.groups ≡ worker.old.groups }
    ensures carried { Carried plans.done plans.refused (buckets_of tables.now)
        (plans.search_connect tables.now.chains.layout.shape tables.now.chains.layout.seed owner source to
        moment rule ports)
        (turned worker.old) (turned worker.new) (chained tables.now worker.old) (chained tables.now worker.new) result }
    ensures stands { IfOk result (StandsFull tables.now (turned worker.new) (chained tables.now worker.new)) }
    ensures kept { OnErr result (IsAway owner.name (turned worker.new)) }
    ensures patient { P.endless ≡ true → IfErr result NotBusy }
{
    for port in ports {
        let full = owned::connected_at(owner, source, port, to);
        match connect_at(patience, tables, worker, full, moment, rule) {
            Ok(Some(connected)) => return Ok(connected),
            Ok(None) => {}
            Err(end) => return Err(end),
        }
    }
    Err(OpEnd::NoPort)
}
