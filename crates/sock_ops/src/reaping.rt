//! `reap`, by which sockets in TIME_WAIT end, one after the other.

ghost use Rattle.std.specs.Prelude.{◌≡◌, ◌+◌, ◌%◌, ◌≤◌, [], IfErr, IfOk, OnErr, true};
ghost use Rattle.sock_card.specs.Conflict.{owner_key};
ghost use Rattle.turn_table.specs.Passes as words;
ghost use Rattle.bind_buckets.specs.Turned.{View, Gave, IsOut, Within, made};
ghost use Rattle.sock_ops.specs.Sides.{HasRoom, IsResting};
ghost use Rattle.nulls_chain.specs.Changes.{PlacesStay};
ghost use Rattle.table_model.specs.Own as own;
ghost use Rattle.table_model.specs.declared.operation.Cause.TheVariants as causes;
ghost use Rattle.sock_ops.specs.Groups.{KeepsLists};
ghost use Rattle.sock_ops.specs.Reaping.{ReapsOne};
ghost use Rattle.sock_ops.specs.Spends.{Draws};
ghost use Rattle.sock_ops.specs.Stands.{HasGroups, IsReady, MayDraw, MayEnter, buckets_of, chained, turned};

use crate::chains;
use crate::leaving::Waiting;
use crate::room::begin;
use crate::tables::{Tables, Worker};
use bind_buckets::{Bucket, turning};
use flat_list::owned;
use patience::Patience;
use sock_card::{Kind, bind_key, tw_expired};
use table_model::Cause;
use turn_table::Turn;

impl Waiting {
    /// It has lasted its minute at that moment, in seconds.
    pub fn is_over(&self, moment: u32) -> bool
        ensures { result ≡ own.is_over moment self.now }
    {
        tw_expired(self.stamp, moment)
    }
}

/// Takes a TIME_WAIT out of its chain, and then, if it was there, reports that to the bucket that is out.
fn reap_in<P: Patience>(
    patience: &P,
    tables: &Tables,
    worker: &mut Worker,
    turn: Turn<Box<Bucket>>,
    waiting: &Waiting,
) -> Result<bool, Cause>
    requires out { IsOut tables.now.buckets worker.old.turns turn }
    requires place { turn.place ≡ owner_key waiting.now.owner % buckets_of tables.now }
    requires made { made worker.old.turns turn ≡ [] }
    requires enters { MayEnter 1 worker.old }
    requires entry { 1 ≤ turn.value.value.entries }
    requires rests { IsResting tables.now.chains worker.old.chain }
    requires room { HasRoom 1 worker.old.chain }
    requires draws { MayDraw 2 worker.old }
    requires groups { HasGroups tables.now worker.old.groups }
    ensures ready { IsReady tables.now worker.new }
    ensures caller { words.caller worker.new.turns ≡ words.caller worker.old.turns }
    ensures entered { words.draws worker.new.turns ≤ words.draws worker.old.turns + 1 }
    ensures drawn { Draws 2 worker.old worker.new }
    ensures reaps { IfOk result (λ found. (v : View) → Within v (turned worker.old)
        → ReapsOne (buckets_of tables.now) waiting.now found
        v (turned worker.new) (chained tables.now worker.old) (chained tables.now worker.new)) }
    ensures nothing { OnErr result ((v : View) → Within v (turned worker.old) → Gave v (turned worker.new) []) }
    ensures side { OnErr result (chained tables.now worker.new ≡ chained tables.now worker.old) }
    ensures busy { IfErr result (λ cause. cause ≡ causes.Busy) }
    ensures patient { P.endless ≡ true → OnErr result ⊥ }
    ensures stay { PlacesStay (chained tables.now worker.old).view (chained tables.now worker.new).view }
    ensures groups { worker.new.groups ≡ worker.old.groups }
{
    let card = owned::card_as(Kind::TimeWait, &waiting.owner, waiting.stamp);
    let mut turn = turn;
    let Some(answer) = chains::remove_tw(&tables.chains, patience, &mut worker.chain, &card) else {
        turning::give(&tables.buckets, &mut worker.turns, turn);
        return Err(Cause::Busy);
    };
    match answer {
        Some(_) => {
            let name = waiting.owner.name;
            let _known = turning::remove_waiting(
                &tables.buckets,
                &mut worker.turns,
                &mut turn,
                name,
            );
            turning::give(&tables.buckets, &mut worker.turns, turn);
            Ok(true)
        }
        None => {
            turning::give(&tables.buckets, &mut worker.turns, turn);
            Ok(false)
        }
    }
}

/// Lets a socket in TIME_WAIT go; whether it was still there. Who has the turn of its key's bucket and its chain's lock
/// takes it out, so another may have been before.
///
/// # Errors
///
/// A bucket, or the worker's changes where they are kept, wanted memory; or another had a bucket or a chain for longer
/// than the caller tries. Nothing has changed.
pub fn reap_one<P: Patience>(
    patience: &P,
    tables: &Tables,
    worker: &mut Worker,
    waiting: &Waiting,
) -> Result<bool, Cause>
    requires ready { IsReady tables.now worker.old }
    requires enters { MayEnter 1 worker.old }
    requires draws { MayDraw 2 worker.old }
    ensures ready { IsReady tables.now worker.new }
    ensures caller { words.caller worker.new.turns ≡ words.caller worker.old.turns }
    ensures entered { words.draws worker.new.turns ≤ words.draws worker.old.turns + 1 }
    ensures drawn { Draws 2 worker.old worker.new }
    ensures reaps { IfOk result (λ found. ReapsOne (buckets_of tables.now) waiting.now found
        (turned worker.old) (turned worker.new) (chained tables.now worker.old) (chained tables.now worker.new)) }
    ensures none { OnErr result (Gave (turned worker.old) (turned worker.new) []) }
    ensures side { OnErr result (chained tables.now worker.new ≡ chained tables.now worker.old) }
    ensures stay { PlacesStay (chained tables.now worker.old).view (chained tables.now worker.new).view }
    ensures groups { worker.new.groups ≡ worker.old.groups }
    ensures listed { KeepsLists tables.now worker.old worker.new }
    ensures patient { P.endless ≡ true → IfErr result (λ cause. cause ≡ causes.Memory) }
{
    let key = bind_key(waiting.owner.port, waiting.owner.net);
    let turn = begin(patience, tables, worker, key, 1)?;
    reap_in(patience, tables, worker, turn, waiting)
}
