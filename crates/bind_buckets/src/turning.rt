//! Buckets that threads share, each asked in its turn.
//!
//! An operation has one bucket in its hand: [`take`] takes the turn of a key's bucket, the calls
//! named as those of [`Bucket`] ask it, each with a number of its own, and [`give`] gives it back. What
//! the turn moves is a box. [`with_buckets`] makes the table; [`into_buckets`] ends it.

ghost use Rattle.std.specs.Prelude.{◌≡◌, ◌+◌, ◌%◌, ◌^◌, ◌-◌, ◌<◌, ◌≤◌, ◌++◌, ◌∷◌, [], true, length, map, find, None, OnOk, IfOk, IfSome, IfNone};
ghost use Rattle.turn_table.specs.Passes as words;
ghost use Rattle.turn_table.specs.Passes.{known, IsPassOf, IsFree};
ghost use Rattle.turn_table.specs.Ends.{HoldsWhatWasGiven, IsInTheOrderOfEach, NumbersAll, AllAscend};
ghost use Rattle.list_words.specs.Lists.{total};
ghost use Rattle.bind_buckets.specs.Closed.{AreNew, AreLeft, notes_in, count_in};
ghost use Rattle.turn_table.specs.Views.{first, cut, newcomer};
ghost use Rattle.turn_table.specs.Journals.{placed};
ghost use Rattle.sock_card.specs.Conflict.{owner_key};
ghost use Rattle.bind_buckets.specs.Bucket as spec;
ghost use Rattle.bind_buckets.specs.Bucket.{called, answer_to, entries_of, IsAllowed, HasRoom, CanConnect, CanListen, NamesOne};
ghost use Rattle.bind_buckets.specs.Callers.{MayAsk, MayName};
ghost use Rattle.bind_buckets.specs.Turned.{View, IsIdle, IsOut, Within, Gave, Asks, made};
ghost use Rattle.bind_buckets.specs.OwnerStep.{has_name};
ghost use Rattle.bind_buckets.specs.Answers.{answer_of_bind, answer_of_free, answer_of_name, answer_of_listen, KnowsOrSays, TakesIfOk, TakesIfErr};

use crate::bucket::{Bucket, bind_result, free_result, listen_result, name_result};
use crate::request::{Answer, InUse, ListenEnd, NotFree, Request, Sharing, Strange};
use patience::Patience;
use sock_card::{Owner, State};
use std::alloc::{AllocError, Global};
use turn_table::{Turn, TurnPass, Turns};

/// Empty buckets in boxes, of each number below the count.
fn empty_buckets(alloc: Global, count: u32) -> Result<Vec<Box<Bucket>>, AllocError>
    requires { count ≤ 256 }
    ensures long { IfOk result (λ v. length v.items ≡ count) }
    ensures new { IfOk result (λ v. (sharing : _) → AreNew sharing 0 count v.items) }
{
    let mut buckets = Vec::new(alloc);
    for number in 0..count {
        buckets.push(Box::new(alloc, Bucket::new(alloc, number, count))?)?;
    }
    Ok(buckets)
}

/// So many empty buckets under turns, 256 at most, and the first pass of them.
///
/// Buckets that are `Alone` are for the first pass alone, which runs all scripts; those that are
/// `Shared` for the passes that [`split`] gives, the k-th of which runs script k.
///
/// # Errors
///
/// Memory ran out.
pub fn with_buckets(
    alloc: Global,
    count: u32,
    sharing: Sharing,
) -> Result<(Turns<Box<Bucket>>, TurnPass<Box<Bucket>>), AllocError>
    requires some { 1 ≤ count }
    requires most { count ≤ 256 }
    ensures places { IfOk result (λ t. words.places t.0 ≡ count) }
    ensures home { IfOk result (λ t. words.home t.0 ≡ sharing) }
    ensures pass { IfOk result (λ t. IsPassOf t.0 t.1 × IsFree t.1 × (known t.1 ≡ first sharing)) }
    ensures alone { IfOk result (λ t. sharing ≡ Sharing.Alone → IsIdle t.0 t.1) }
{
    let buckets = empty_buckets(alloc, count)?;
    let (turns, pass) = Turns::with_home(alloc, buckets, &sharing)?;
    Ok((turns, pass))
}

/// Splits a pass off the first one of shared buckets, as the next caller. It takes no memory.
pub fn split(turns: &Turns<Box<Bucket>>, pass: &mut TurnPass<Box<Bucket>>) -> TurnPass<Box<Bucket>>
    requires table { IsPassOf turns.now pass.old }
    requires first { (words.caller pass.old ≡ 0) × (0 < words.parts pass.old) }
    requires few { words.splits pass.old < 2 ^ 14 - 2 }
    requires some { 1 ≤ words.places turns.now }
    requires shared { words.home turns.now ≡ Sharing.Shared }
    ensures table { IsPassOf turns.now pass.new }
    ensures hand { words.hand pass.new ≡ words.hand pass.old }
    ensures old { known pass.new ≡ cut (known pass.old) }
    ensures new { known result ≡ newcomer (words.about pass.old) (words.splits pass.old + 1) (words.seen pass.old) }
    ensures idle { IsIdle turns.now result }
{
    pass.split(turns)
}

/// What a key leaves when divided by so many. By 256, the most buckets that a table has, it takes no division.
fn place_of(key: u32, places: usize) -> usize
    requires { 1 ≤ places }
    ensures place { result ≡ key % places }
    ensures within { result < places }
{
    if places == 256 {
        (key % 256) as usize
    } else {
        key as usize % places
    }
}

/// Takes the turn of a key's bucket, and tries until nobody has it, as long as the caller's patience lasts.
///
/// None: another pass had the turn for so long, and this one is as it was; with a [`Patience`] that is endless, this
/// doesn't come.
pub fn take<P: Patience>(
    patience: &P,
    turns: &Turns<Box<Bucket>>,
    pass: &mut TurnPass<Box<Bucket>>,
    key: u32,
) -> Option<Turn<Box<Bucket>>>
    requires idle { IsIdle turns.now pass.old }
    ensures out { IfSome result (λ turn. IsOut turns.now pass.new turn) }
    ensures place { IfSome result (λ turn. turn.place ≡ key % words.places turns.now) }
    ensures none { IfSome result (λ turn. made pass.new turn ≡ []) }
    ensures draws { words.draws pass.new ≡ words.draws pass.old }
    ensures caller { words.caller pass.new ≡ words.caller pass.old }
    ensures within { IfSome result (λ turn. Within (known pass.old) (known pass.new)) }
    ensures idle { IfNone result (IsIdle turns.now pass.new) }
    ensures same { IfNone result (known pass.new ≡ known pass.old) }
    ensures had { P.endless ≡ true → IfNone result ⊥ }
{
    let place = place_of(key, turns.places());
    turns.take_turn(patience, pass, place)
}

/// Makes room in a bucket that is out, as much as an operation on a socket takes.
pub fn reserve(
    turns: &Turns<Box<Bucket>>,
    pass: &TurnPass<Box<Bucket>>,
    turn: &mut Turn<Box<Bucket>>,
) -> Result<(), AllocError>
    requires out { IsOut turns.now pass.now turn.old }
    ensures out { IsOut turns.now pass.now turn.new }
    ensures place { turn.new.place ≡ turn.old.place }
    ensures made { made pass.now turn.new ≡ made pass.now turn.old }
    ensures ok { OnOk result (turn.new.value.value ≡ record turn.old.value.value { entries = 3; newcomers = 2 }) }
{
    let _places = turns.places();
    let _caller = pass.caller(turns);
    turn.value.reserve()
}

fn ask_one(
    turns: &Turns<Box<Bucket>>,
    pass: &mut TurnPass<Box<Bucket>>,
    turn: &mut Turn<Box<Bucket>>,
    request: Request,
) -> Answer
    requires out { IsOut turns.now pass.old turn.old }
    requires few { words.draws pass.old < 2 ^ 48 }
    requires may { MayAsk (words.caller pass.old) request }
    requires allowed { IsAllowed turn.old.value.value request }
    requires room { HasRoom turn.old.value.value request }
    ensures out { IsOut turns.now pass.new turn.new }
    ensures place { turn.new.place ≡ turn.old.place }
    ensures after { turn.new.value.value
        ≡ called (record turn.old.value.value { next = turn.new.value.value.next }) request }
    ensures answer { result ≡ answer_to turn.old.value.value request }
    ensures made { entries_of (made pass.new turn.new)
        ≡ entries_of (made pass.old turn.old) ++ record { request = request; answer = result } ∷ [] }
    ensures draws { words.draws pass.new ≡ words.draws pass.old + 1 }
    ensures caller { words.caller pass.new ≡ words.caller pass.old }
    ensures within { (v : View) → Within v (known pass.old) → Within v (known pass.new) }
{
    let number = turns.draw(pass, turn);
    let caller = pass.caller(turns);
    turn.value.mark(number, caller);
    turn.value.carry_out(request)
}

/// Asks a bucket that is out, with a number that is drawn for it.
pub(crate) fn ask(
    turns: &Turns<Box<Bucket>>,
    pass: &mut TurnPass<Box<Bucket>>,
    turn: &mut Turn<Box<Bucket>>,
    request: Request,
) -> Answer
    requires out { IsOut turns.now pass.old turn.old }
    requires few { words.draws pass.old < 2 ^ 48 }
    requires may { MayAsk (words.caller pass.old) request }
    requires allowed { IsAllowed turn.old.value.value request }
    requires room { HasRoom turn.old.value.value request }
    ensures asks { Asks turns.now pass.old turn.old pass.new turn.new request result }
    ensures answer { result ≡ answer_to turn.old.value.value request }
{
    ask_one(turns, pass, turn, request)
}

/// [`Bucket::bind`], of a bucket that is out.
pub fn bind(
    turns: &Turns<Box<Bucket>>,
    pass: &mut TurnPass<Box<Bucket>>,
    turn: &mut Turn<Box<Bucket>>,
    owner: Owner,
) -> Result<(), InUse>
    requires out { IsOut turns.now pass.old turn.old }
    requires few { words.draws pass.old < 2 ^ 48 }
    requires may { MayName (words.caller pass.old) owner.name }
    requires key { owner_key owner % words.places turns.now ≡ turn.old.place }
    requires entry { 1 ≤ turn.old.value.value.entries }
    requires newcomer { 1 ≤ turn.old.value.value.newcomers }
    ensures asks { Asks turns.now pass.old turn.old pass.new turn.new (Request.Bind owner) (answer_of_bind result) }
    ensures entries { turn.new.value.value.entries + 1 ≡ turn.old.value.value.entries }
    ensures newcomers { TakesIfOk result turn.old.value.value.newcomers turn.new.value.value.newcomers }
{
    bind_result(ask(turns, pass, turn, Request::Bind(owner)))
}

/// [`Bucket::bind_auto`], of a bucket that is out.
pub fn bind_auto(
    turns: &Turns<Box<Bucket>>,
    pass: &mut TurnPass<Box<Bucket>>,
    turn: &mut Turn<Box<Bucket>>,
    owner: Owner,
) -> Result<(), InUse>
    requires out { IsOut turns.now pass.old turn.old }
    requires few { words.draws pass.old < 2 ^ 48 }
    requires may { MayName (words.caller pass.old) owner.name }
    requires key { owner_key owner % words.places turns.now ≡ turn.old.place }
    requires entry { 1 ≤ turn.old.value.value.entries }
    requires newcomer { 1 ≤ turn.old.value.value.newcomers }
    ensures asks { Asks turns.now pass.old turn.old pass.new turn.new (Request.BindAuto owner) (answer_of_bind result) }
    ensures entries { turn.new.value.value.entries + 1 ≡ turn.old.value.value.entries }
    ensures newcomers { TakesIfOk result turn.old.value.value.newcomers turn.new.value.value.newcomers }
{
    bind_result(ask(turns, pass, turn, Request::BindAuto(owner)))
}

/// [`Bucket::free`], of a bucket that is out.
pub fn free(
    turns: &Turns<Box<Bucket>>,
    pass: &mut TurnPass<Box<Bucket>>,
    turn: &mut Turn<Box<Bucket>>,
    port: u16,
    net: u8,
) -> Result<(), NotFree>
    requires out { IsOut turns.now pass.old turn.old }
    requires few { words.draws pass.old < 2 ^ 48 }
    requires entry { 1 ≤ turn.old.value.value.entries }
    ensures asks { Asks turns.now pass.old turn.old pass.new turn.new (Request.Free port net) (answer_of_free result) }
    ensures free { OnOk result (CanConnect turn.new.value.value port net) }
    ensures entries { turn.new.value.value.entries + 1 ≡ turn.old.value.value.entries }
    ensures newcomers { turn.new.value.value.newcomers ≡ turn.old.value.value.newcomers }
{
    free_result(ask(turns, pass, turn, Request::Free { port, net }))
}

/// [`Bucket::connect_auto`], of a bucket that is out.
pub fn connect_auto(
    turns: &Turns<Box<Bucket>>,
    pass: &mut TurnPass<Box<Bucket>>,
    turn: &mut Turn<Box<Bucket>>,
    owner: Owner,
)
    requires out { IsOut turns.now pass.old turn.old }
    requires few { words.draws pass.old < 2 ^ 48 }
    requires may { MayName (words.caller pass.old) owner.name }
    requires key { owner_key owner % words.places turns.now ≡ turn.old.place }
    requires free { CanConnect turn.old.value.value owner.port owner.net }
    requires chosen { owner.by_connect ≡ true }
    requires entry { 1 ≤ turn.old.value.value.entries }
    requires newcomer { 1 ≤ turn.old.value.value.newcomers }
    ensures asks { Asks turns.now pass.old turn.old pass.new turn.new (Request.ConnectAuto owner) Answer.Done }
    ensures entries { turn.new.value.value.entries + 1 ≡ turn.old.value.value.entries }
{
    ask(turns, pass, turn, Request::ConnectAuto(owner));
}

/// [`Bucket::remove_waiting`], of a bucket that is out. A TIME_WAIT may be anybody's.
pub fn remove_waiting(
    turns: &Turns<Box<Bucket>>,
    pass: &mut TurnPass<Box<Bucket>>,
    turn: &mut Turn<Box<Bucket>>,
    name: u64,
) -> Result<(), Strange>
    requires out { IsOut turns.now pass.old turn.old }
    requires few { words.draws pass.old < 2 ^ 48 }
    requires entry { 1 ≤ turn.old.value.value.entries }
    ensures asks { Asks turns.now pass.old turn.old pass.new turn.new (Request.RemoveWaiting name)
        (answer_of_name result) }
{
    name_result(ask(turns, pass, turn, Request::RemoveWaiting { name }))
}

/// [`Bucket::may_listen`], of a bucket that is out.
pub fn may_listen(
    turns: &Turns<Box<Bucket>>,
    pass: &mut TurnPass<Box<Bucket>>,
    turn: &mut Turn<Box<Bucket>>,
    name: u64,
) -> Result<Option<u32>, ListenEnd>
    requires out { IsOut turns.now pass.old turn.old }
    requires few { words.draws pass.old < 2 ^ 48 }
    requires may { MayName (words.caller pass.old) name }
    requires entry { 1 ≤ turn.old.value.value.entries }
    ensures asks { Asks turns.now pass.old turn.old pass.new turn.new (Request.MayListen name)
        (answer_of_listen result) }
    ensures free { OnOk result (CanListen turn.new.value.value name) }
    ensures entries { turn.new.value.value.entries + 1 ≡ turn.old.value.value.entries }
    ensures newcomers { turn.new.value.value.newcomers ≡ turn.old.value.value.newcomers }
{
    listen_result(ask(turns, pass, turn, Request::MayListen { name }))
}

/// [`Bucket::listen`], of a bucket that is out.
pub fn listen(
    turns: &Turns<Box<Bucket>>,
    pass: &mut TurnPass<Box<Bucket>>,
    turn: &mut Turn<Box<Bucket>>,
    name: u64,
    slot: u32,
)
    requires out { IsOut turns.now pass.old turn.old }
    requires few { words.draws pass.old < 2 ^ 48 }
    requires may { MayName (words.caller pass.old) name }
    requires entry { 1 ≤ turn.old.value.value.entries }
    requires free { CanListen turn.old.value.value name }
    ensures asks { Asks turns.now pass.old turn.old pass.new turn.new (Request.Listen name slot) Answer.Done }
    ensures entries { turn.new.value.value.entries + 1 ≡ turn.old.value.value.entries }
    ensures newcomers { turn.new.value.value.newcomers ≡ turn.old.value.value.newcomers }
{
    ask(turns, pass, turn, Request::Listen { name, slot });
}

/// [`Bucket::connect_bound`], of a bucket that is out.
pub fn connect_bound(
    turns: &Turns<Box<Bucket>>,
    pass: &mut TurnPass<Box<Bucket>>,
    turn: &mut Turn<Box<Bucket>>,
    name: u64,
    local: u32,
    remote: u32,
    rport: u16,
) -> Result<(), Strange>
    requires out { IsOut turns.now pass.old turn.old }
    requires few { words.draws pass.old < 2 ^ 48 }
    requires may { MayName (words.caller pass.old) name }
    requires entry { 1 ≤ turn.old.value.value.entries }
    requires bound { NamesOne State.Bound local name turn.old.value.value }
    ensures asks { Asks turns.now pass.old turn.old pass.new turn.new (Request.ConnectBound name local remote rport)
        (answer_of_name result) }
    ensures strange { KnowsOrSays name turn.old.value.value.held.owners result }
    ensures entries { turn.new.value.value.entries + 1 ≡ turn.old.value.value.entries }
    ensures newcomers { turn.new.value.value.newcomers ≡ turn.old.value.value.newcomers }
{
    let request = Request::ConnectBound {
        name,
        local,
        remote,
        rport,
    };
    name_result(ask(turns, pass, turn, request))
}

/// [`Bucket::inherit`], of a bucket that is out.
pub fn inherit(
    turns: &Turns<Box<Bucket>>,
    pass: &mut TurnPass<Box<Bucket>>,
    turn: &mut Turn<Box<Bucket>>,
    parent: u64,
    name: u64,
    mark: u32,
    local: u32,
    remote: u32,
    rport: u16,
) -> Result<(), Strange>
    requires out { IsOut turns.now pass.old turn.old }
    requires few { words.draws pass.old < 2 ^ 48 }
    requires parent { MayName (words.caller pass.old) parent }
    requires may { MayName (words.caller pass.old) name }
    requires entry { 1 ≤ turn.old.value.value.entries }
    requires newcomer { 1 ≤ turn.old.value.value.newcomers }
    requires listening { NamesOne State.Listening local parent turn.old.value.value }
    ensures asks { Asks turns.now pass.old turn.old pass.new turn.new (Request.Inherit parent name mark local remote rport)
        (answer_of_name result) }
    ensures strange { KnowsOrSays parent turn.old.value.value.held.owners result }
    ensures entries { turn.new.value.value.entries + 1 ≡ turn.old.value.value.entries }
    ensures newcomers { TakesIfOk result turn.old.value.value.newcomers turn.new.value.value.newcomers }
{
    let request = Request::Inherit {
        parent,
        name,
        mark,
        local,
        remote,
        rport,
    };
    name_result(ask(turns, pass, turn, request))
}

/// [`Bucket::to_time_wait`], of a bucket that is out.
pub fn to_time_wait(
    turns: &Turns<Box<Bucket>>,
    pass: &mut TurnPass<Box<Bucket>>,
    turn: &mut Turn<Box<Bucket>>,
    name: u64,
) -> Result<(), Strange>
    requires out { IsOut turns.now pass.old turn.old }
    requires few { words.draws pass.old < 2 ^ 48 }
    requires may { MayName (words.caller pass.old) name }
    requires entry { 1 ≤ turn.old.value.value.entries }
    ensures asks { Asks turns.now pass.old turn.old pass.new turn.new (Request.ToTimeWait name)
        (answer_of_name result) }
    ensures strange { KnowsOrSays name turn.old.value.value.held.owners result }
    ensures entries { turn.new.value.value.entries + 1 ≡ turn.old.value.value.entries }
    ensures newcomers { turn.new.value.value.newcomers ≡ turn.old.value.value.newcomers }
{
    name_result(ask(turns, pass, turn, Request::ToTimeWait { name }))
}

/// [`Bucket::remove`], of a bucket that is out.
pub fn remove(
    turns: &Turns<Box<Bucket>>,
    pass: &mut TurnPass<Box<Bucket>>,
    turn: &mut Turn<Box<Bucket>>,
    name: u64,
) -> Result<(), Strange>
    requires out { IsOut turns.now pass.old turn.old }
    requires few { words.draws pass.old < 2 ^ 48 }
    requires may { MayName (words.caller pass.old) name }
    requires entry { find (has_name name) turn.old.value.value.held.owners ≡ None → 1 ≤ turn.old.value.value.entries }
    ensures asks { Asks turns.now pass.old turn.old pass.new turn.new (Request.Remove name) (answer_of_name result) }
    ensures strange { KnowsOrSays name turn.old.value.value.held.owners result }
    ensures entries { TakesIfErr result turn.old.value.value.entries turn.new.value.value.entries }
    ensures newcomers { turn.new.value.value.newcomers ≡ turn.old.value.value.newcomers }
{
    name_result(ask(turns, pass, turn, Request::Remove { name }))
}

/// [`Bucket::members`], of a bucket that is out.
pub fn members(turn: &Turn<Box<Bucket>>, group: u32) -> &[u128]
    ensures { result.now ≡ spec.members_of turn.now.value.value group }
{
    turn.value.members(group)
}

/// Gives a bucket back, with its new notes.
pub fn give(turns: &Turns<Box<Bucket>>, pass: &mut TurnPass<Box<Bucket>>, turn: Turn<Box<Bucket>>)
    requires out { IsOut turns.now pass.old turn }
    ensures idle { IsIdle turns.now pass.new }
    ensures draws { words.draws pass.new ≡ words.draws pass.old }
    ensures caller { words.caller pass.new ≡ words.caller pass.old }
    ensures gave { (v : View) → Within v (known pass.old)
        → Gave v (known pass.new) (map (placed turn.place) (made pass.old turn)) }
{
    turn.value.recall();
    turns.give(pass, turn);
}

/// The buckets, by the pass to which each other one was joined. For the record of a race: their journals
/// are lawful and hold what all passes gave, each entry once, and [`Bucket::count`] returns how many there are.
///
/// # Errors
///
/// Memory ran out.
pub fn into_buckets(
    turns: Turns<Box<Bucket>>,
    alloc: Global,
    pass: TurnPass<Box<Bucket>>,
) -> Result<Vec<Box<Bucket>>, AllocError>
    requires table { IsPassOf turns pass }
    requires whole { words.parts pass ≡ 16384 }
    requires free { IsFree pass }
    ensures long { IfOk result (λ v. length v.items ≡ words.places turns) }
    ensures left { IfOk result (λ v. AreLeft 0 (words.places turns) v.items) }
    ensures given { IfOk result (λ v. HoldsWhatWasGiven notes_in (known pass) v.items) }
    ensures in_order { IfOk result (λ v. IsInTheOrderOfEach notes_in (known pass) v.items) }
    ensures numbers { IfOk result (λ v. NumbersAll notes_in (length (words.given pass)) v.items) }
    ensures rising { IfOk result (λ v. AllAscend notes_in (length (words.given pass)) v.items) }
    ensures count { IfOk result (λ v. total count_in v.items ≡ length (words.given pass)) }
{
    turns.into_values(alloc, pass)
}
