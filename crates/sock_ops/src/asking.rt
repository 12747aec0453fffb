//! Questions to the bucket of an owner that stands: its turn, and then calls that can't miss it.

ghost use Rattle.std.specs.Prelude.{◌≡◌, ◌+◌, ◌%◌, ◌^◌, ◌<◌, ◌≤◌, ◌==◌, ◌||◌, [], true, IfOk, IfSome, IfNone};
ghost use Rattle.sock_card.specs.Conflict.{owner_key};
ghost use Rattle.turn_table.specs.Passes as words;
ghost use Rattle.turn_table.specs.Passes.{known};
ghost use Rattle.bind_buckets.specs.Answers.{answer_of_listen};
ghost use Rattle.bind_buckets.specs.Bucket.{IsSound, answer_to};
ghost use Rattle.bind_buckets.specs.Callers.{MayName};
ghost use Rattle.bind_buckets.specs.OwnTold.{StandsOwn};
ghost use Rattle.bind_buckets.specs.Turned.{Asks, IsIdle, IsOut, Within, made};
ghost use Rattle.bind_buckets.specs.declared.request.Request.TheVariants as requests;
ghost use Rattle.bind_buckets.specs.declared.request.Answer.TheVariants as answers;
ghost use Rattle.sock_ops.specs.Stands.{IsThere};
ghost use Rattle.sock_ops.specs.There.{IsKnown};

use bind_buckets::{Bucket, ListenEnd, turning};
use patience::Patience;
use sock_card::{Owner, State, bind_key};
use turn_table::{Turn, TurnPass, Turns};

/// The turn of the owner's bucket, which has it. None: another had it for longer than the caller tries.
pub(crate) fn take<P: Patience>(
    patience: &P,
    buckets: &Turns<Box<Bucket>>,
    pass: &mut TurnPass<Box<Bucket>>,
    owner: &Owner,
) -> Option<Turn<Box<Bucket>>>
    requires idle { IsIdle buckets.now pass.old }
    requires stands { StandsOwn owner.now (owner_key owner.now % words.places buckets.now) (known pass.old) }
    ensures out { IfSome result (λ turn. IsOut buckets.now pass.new turn) }
    ensures place { IfSome result (λ turn. turn.place ≡ owner_key owner.now % words.places buckets.now) }
    ensures none { IfSome result (λ turn. made pass.new turn ≡ []) }
    ensures there { IfSome result (λ turn. IsThere turn owner.now) }
    ensures sound { IfSome result (λ turn. IsSound turn.value.value) }
    ensures draws { words.draws pass.new ≡ words.draws pass.old }
    ensures caller { words.caller pass.new ≡ words.caller pass.old }
    ensures within { IfSome result (λ turn. Within (known pass.old) (known pass.new)) }
    ensures idle { IfNone result (IsIdle buckets.now pass.new) }
    ensures same { IfNone result (known pass.new ≡ known pass.old) }
    ensures had { P.endless ≡ true → IfNone result ⊥ }
{
    let turn = turning::take(patience, buckets, pass, bind_key(owner.port, owner.net))?;
    turn.value.recall();
    Some(turn)
}

/// [`turning::may_listen`], of a bucket that has the owner.
pub(crate) fn may_listen(
    buckets: &Turns<Box<Bucket>>,
    pass: &mut TurnPass<Box<Bucket>>,
    turn: &mut Turn<Box<Bucket>>,
    owner: &Owner,
) -> Result<Option<u32>, ListenEnd>
    requires out { IsOut buckets.now pass.old turn.old }
    requires few { words.draws pass.old < 2 ^ 48 }
    requires may { MayName (words.caller pass.old) owner.now.name }
    requires there { IsThere turn.old owner.now }
    requires entry { 1 ≤ turn.old.value.value.entries }
    ensures asks { Asks buckets.now pass.old turn.old pass.new turn.new
        (requests.MayListen owner.now.name) (answer_of_listen result) }
    ensures says { IfOk result (λ group. answer_to turn.new.value.value (requests.MayListen owner.now.name)
        ≡ answers.Group group) }
    // A bucket's number is below 256, and it has eight groups.
    ensures few { IfOk result (λ group. IfSome group (λ number. number < 2048)) }
    ensures known { IsKnown result }
    ensures there { IsThere turn.new owner.now }
    ensures held { turn.new.value.value.held ≡ turn.old.value.value.held }
    ensures entries { turn.new.value.value.entries + 1 ≡ turn.old.value.value.entries }
{
    turn.value.recall();
    turning::may_listen(buckets, pass, turn, owner.name)
}

/// [`turning::connect_bound`], of a bucket that has the owner: it becomes `full`.
pub(crate) fn connect_bound(
    buckets: &Turns<Box<Bucket>>,
    pass: &mut TurnPass<Box<Bucket>>,
    turn: &mut Turn<Box<Bucket>>,
    owner: &Owner,
    full: &Owner,
)
    requires out { IsOut buckets.now pass.old turn.old }
    requires few { words.draws pass.old < 2 ^ 48 }
    requires may { MayName (words.caller pass.old) owner.now.name }
    requires there { IsThere turn.old owner.now }
    requires bound { owner.now.state ≡ State.Bound }
    requires addr { ((owner.now.addr == 0) || (owner.now.addr == full.now.addr)) ≡ true }
    requires entry { 1 ≤ turn.old.value.value.entries }
    ensures asks { Asks buckets.now pass.old turn.old pass.new turn.new
        (requests.ConnectBound owner.now.name full.now.addr full.now.remote full.now.rport) answers.Done }
    ensures entries { turn.new.value.value.entries + 1 ≡ turn.old.value.value.entries }
{
    let _known = turning::connect_bound(
        buckets,
        pass,
        turn,
        owner.name,
        full.addr,
        full.remote,
        full.rport,
    );
}

/// [`turning::inherit`], of a bucket that has the listener: it accepts `child`.
pub(crate) fn inherit(
    buckets: &Turns<Box<Bucket>>,
    pass: &mut TurnPass<Box<Bucket>>,
    turn: &mut Turn<Box<Bucket>>,
    listener: &Owner,
    child: &Owner,
)
    requires out { IsOut buckets.now pass.old turn.old }
    requires few { words.draws pass.old < 2 ^ 48 }
    requires parent { MayName (words.caller pass.old) listener.now.name }
    requires may { MayName (words.caller pass.old) child.now.name }
    requires there { IsThere turn.old listener.now }
    requires listening { listener.now.state ≡ State.Listening }
    requires addr { ((listener.now.addr == 0) || (listener.now.addr == child.now.addr)) ≡ true }
    requires entry { 1 ≤ turn.old.value.value.entries }
    requires newcomer { 1 ≤ turn.old.value.value.newcomers }
    ensures asks { Asks buckets.now pass.old turn.old pass.new turn.new
        (requests.Inherit listener.now.name child.now.name child.now.mark child.now.addr child.now.remote child.now.rport)
        answers.Done }
    ensures entries { turn.new.value.value.entries + 1 ≡ turn.old.value.value.entries }
{
    let _known = turning::inherit(
        buckets,
        pass,
        turn,
        listener.name,
        child.name,
        child.mark,
        child.addr,
        child.remote,
        child.rport,
    );
}

/// [`turning::to_time_wait`], of a bucket that has the owner.
pub(crate) fn to_time_wait(
    buckets: &Turns<Box<Bucket>>,
    pass: &mut TurnPass<Box<Bucket>>,
    turn: &mut Turn<Box<Bucket>>,
    owner: &Owner,
)
    requires out { IsOut buckets.now pass.old turn.old }
    requires few { words.draws pass.old < 2 ^ 48 }
    requires may { MayName (words.caller pass.old) owner.now.name }
    requires there { IsThere turn.old owner.now }
    requires entry { 1 ≤ turn.old.value.value.entries }
    ensures asks { Asks buckets.now pass.old turn.old pass.new turn.new
        (requests.ToTimeWait owner.now.name) answers.Done }
    ensures entries { turn.new.value.value.entries + 1 ≡ turn.old.value.value.entries }
{
    let _known = turning::to_time_wait(buckets, pass, turn, owner.name);
}

/// [`turning::remove`], of a bucket that has the owner: it takes no room.
pub(crate) fn remove(
    buckets: &Turns<Box<Bucket>>,
    pass: &mut TurnPass<Box<Bucket>>,
    turn: &mut Turn<Box<Bucket>>,
    owner: &Owner,
)
    requires out { IsOut buckets.now pass.old turn.old }
    requires few { words.draws pass.old < 2 ^ 48 }
    requires may { MayName (words.caller pass.old) owner.now.name }
    requires there { IsThere turn.old owner.now }
    ensures asks { Asks buckets.now pass.old turn.old pass.new turn.new
        (requests.Remove owner.now.name) answers.Done }
    ensures entries { turn.new.value.value.entries ≡ turn.old.value.value.entries }
{
    let _known = turning::remove(buckets, pass, turn, owner.name);
}
