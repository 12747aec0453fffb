//! How an operation begins: the turn of a bucket, and the room that it makes before it changes anything.

ghost use Rattle.std.specs.Prelude.{◌≡◌, ◌%◌, [], true, OnOk, IfOk, OnErr, IfErr};
ghost use Rattle.sock_card.specs.Conflict.{owner_key};
ghost use Rattle.turn_table.specs.Passes as words;
ghost use Rattle.bind_buckets.specs.Bucket.{IsSound};
ghost use Rattle.bind_buckets.specs.Turned.{View, Gave, IsOut, Within, made};
ghost use Rattle.sock_ops.specs.Sides.{HasRoom, IsResting, side_of};
ghost use Rattle.table_model.specs.declared.operation.Cause.TheVariants as causes;
ghost use Rattle.sock_ops.specs.Stands.{IsOwner, IsReady, IsThere, buckets_of, turned};

use crate::tables::{Tables, Worker};
use bind_buckets::{Bucket, turning};
use patience::Patience;
use sock_card::{Owner, bind_key};
use std::alloc::AllocError;
use table_model::Cause;
use turn_table::Turn;

/// Makes room in a bucket that is out, as much as an operation takes, and for so many changes of chains. Where memory
/// is wanting nothing has changed.
fn make_room(
    tables: &Tables,
    worker: &mut Worker,
    turn: &mut Turn<Box<Bucket>>,
    changes: usize,
) -> Result<(), AllocError>
    requires out { IsOut tables.now.buckets worker.old.turns turn.old }
    requires rests { IsResting tables.now.chains worker.old.chain }
    ensures turns { worker.new.turns ≡ worker.old.turns }
    ensures within { (v : View) → Within v (turned worker.old) → Within v (turned worker.new) }
    ensures out { IsOut tables.now.buckets worker.new.turns turn.new }
    ensures place { turn.new.place ≡ turn.old.place }
    ensures made { made worker.new.turns turn.new ≡ made worker.old.turns turn.old }
    ensures sound { IsSound turn.new.value.value }
    ensures bucket { OnOk result (turn.new.value.value ≡ record turn.old.value.value { entries = 3; newcomers = 2 }) }
    ensures rests { IsResting tables.now.chains worker.new.chain }
    ensures side { side_of tables.now.chains worker.new.chain ≡ side_of tables.now.chains worker.old.chain }
    ensures groups { worker.new.groups ≡ worker.old.groups }
    ensures changes { OnOk result (HasRoom changes worker.new.chain) }
{
    let room = turning::reserve(&tables.buckets, &worker.turns, turn);
    turn.value.recall();
    room?;
    worker.chain.reserve(&tables.chains, changes)
}

/// Takes the turn of a key's bucket, and makes room there and for so many changes of chains.
///
/// # Errors
///
/// `Busy`: another had the turn for longer than the caller tries. `Memory`: memory was wanting. The turn is given back
/// then, and nothing has changed.
pub(crate) fn begin<P: Patience>(
    patience: &P,
    tables: &Tables,
    worker: &mut Worker,
    key: u32,
    changes: usize,
) -> Result<Turn<Box<Bucket>>, Cause>
    requires ready { IsReady tables.now worker.old }
    ensures draws { words.draws worker.new.turns ≡ words.draws worker.old.turns }
    ensures caller { words.caller worker.new.turns ≡ words.caller worker.old.turns }
    ensures rests { IsResting tables.now.chains worker.new.chain }
    ensures side { side_of tables.now.chains worker.new.chain ≡ side_of tables.now.chains worker.old.chain }
    ensures groups { worker.new.groups ≡ worker.old.groups }
    ensures out { IfOk result (λ turn. IsOut tables.now.buckets worker.new.turns turn) }
    ensures place { IfOk result (λ turn. turn.place ≡ key % buckets_of tables.now) }
    ensures none { IfOk result (λ turn. made worker.new.turns turn ≡ []) }
    ensures within { IfOk result (λ turn. Within (turned worker.old) (turned worker.new)) }
    ensures sound { IfOk result (λ turn. IsSound turn.value.value) }
    ensures entries { IfOk result (λ turn. turn.value.value.entries ≡ 3) }
    ensures newcomers { IfOk result (λ turn. turn.value.value.newcomers ≡ 2) }
    ensures room { OnOk result (HasRoom changes worker.new.chain) }
    ensures ready { OnErr result (IsReady tables.now worker.new) }
    ensures nothing { OnErr result (Gave (turned worker.old) (turned worker.new) []) }
    ensures patient { P.endless ≡ true → IfErr result (λ cause. cause ≡ causes.Memory) }
{
    let Some(mut turn) = turning::take(patience, &tables.buckets, &mut worker.turns, key) else {
        return Err(Cause::Busy);
    };
    match make_room(tables, worker, &mut turn, changes) {
        Ok(()) => Ok(turn),
        Err(_) => {
            turning::give(&tables.buckets, &mut worker.turns, turn);
            Err(Cause::Memory)
        }
    }
}

/// [`begin`], at the bucket of an owner, which has it.
pub(crate) fn begin_with<P: Patience>(
    patience: &P,
    tables: &Tables,
    worker: &mut Worker,
    owner: &Owner,
    changes: usize,
) -> Result<Turn<Box<Bucket>>, Cause>
    requires ready { IsReady tables.now worker.old }
    requires stands { IsOwner tables.now owner.now (turned worker.old) }
    ensures draws { words.draws worker.new.turns ≡ words.draws worker.old.turns }
    ensures caller { words.caller worker.new.turns ≡ words.caller worker.old.turns }
    ensures rests { IsResting tables.now.chains worker.new.chain }
    ensures side { side_of tables.now.chains worker.new.chain ≡ side_of tables.now.chains worker.old.chain }
    ensures groups { worker.new.groups ≡ worker.old.groups }
    ensures out { IfOk result (λ turn. IsOut tables.now.buckets worker.new.turns turn) }
    ensures place { IfOk result (λ turn. turn.place ≡ owner_key owner.now % buckets_of tables.now) }
    ensures none { IfOk result (λ turn. made worker.new.turns turn ≡ []) }
    ensures within { IfOk result (λ turn. Within (turned worker.old) (turned worker.new)) }
    ensures there { IfOk result (λ turn. IsThere turn owner.now) }
    ensures sound { IfOk result (λ turn. IsSound turn.value.value) }
    ensures entries { IfOk result (λ turn. turn.value.value.entries ≡ 3) }
    ensures newcomers { IfOk result (λ turn. turn.value.value.newcomers ≡ 2) }
    ensures room { OnOk result (HasRoom changes worker.new.chain) }
    ensures ready { OnErr result (IsReady tables.now worker.new) }
    ensures nothing { OnErr result (Gave (turned worker.old) (turned worker.new) []) }
    ensures stands { OnErr result (IsOwner tables.now owner.now (turned worker.new)) }
    ensures patient { P.endless ≡ true → IfErr result (λ cause. cause ≡ causes.Memory) }
{
    begin(
        patience,
        tables,
        worker,
        bind_key(owner.port, owner.net),
        changes,
    )
}
