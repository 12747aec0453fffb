//! The searches of `bind` and `connect` through buckets that threads share, each port in its own turn.

ghost use Rattle.std.specs.Prelude.{◌≡◌, ◌+◌, ◌%◌, ◌^◌, ◌<◌, ◌≤◌, length, OnErr, IfOk, IfErr, Some, Err, true, [], ◌∷◌};
ghost use Rattle.sock_card.specs.Conflict as conflict;
ghost use Rattle.turn_table.specs.Passes as words;
ghost use Rattle.turn_table.specs.Passes.{known};
ghost use Rattle.bind_buckets.specs.Callers.{MayName};
ghost use Rattle.bind_buckets.specs.Bucket.{CanConnect, entries_of};
ghost use Rattle.bind_buckets.specs.Turned.{View, IsIdle, IsOut, IsAlone, Within, hash_of, made};
ghost use Rattle.port_search.specs.Search as spec;
ghost use Rattle.port_search.specs.Search.{IsNotBusy, IsNotFull, FindsNone, ConnectsAt, ConnectsNowhere, searched};
ghost use Rattle.port_search.specs.Turned.{TriedAt, BindsAt, BindsIn, BindsNowhere, BindsNotYet};
ghost use Rattle.port_search.specs.TurnedConnect.{Opened, CameAt, Tries, MayTry, MakesAt, MakesNone, MakesNotYet, FindsBusy, SaysFull};
ghost use Rattle.bind_buckets.specs.declared.request.Request.TheVariants as requests;
ghost use Rattle.bind_buckets.specs.declared.request.Answer.TheVariants as answers;

use crate::ends::{Attempt, SearchEnd};
use crate::ports::Ports;
use bind_buckets::{Bucket, turning};
use patience::Patience;
use sock_card::{Owner, bind_key};
use turn_table::{Turn, TurnPass, Turns};

/// The owner, at that port.
fn at_port(owner: Owner, port: u16) -> Owner
    ensures { result ≡ spec.at_port owner port }
{
    Owner { port, ..owner }
}

/// Takes the turn of the port's bucket in the owner's namespace, makes room there and asks it to take the owner in,
/// where no other overlaps it; where it did, the bucket stays out.
fn bind_at<P: Patience>(
    patience: &P,
    turns: &Turns<Box<Bucket>>,
    pass: &mut TurnPass<Box<Bucket>>,
    owner: Owner,
    port: u16,
) -> Result<Option<Turn<Box<Bucket>>>, SearchEnd>
    requires idle { IsIdle turns.now pass.old }
    requires few { words.draws pass.old < 2 ^ 48 }
    requires may { MayName (words.caller pass.old) owner.name }
    ensures tried { TriedAt turns.now owner port pass.old pass.new result }
    ensures patient { P.endless ≡ true → IfErr result IsNotBusy }
{
    let Some(mut turn) = turning::take(patience, turns, pass, bind_key(port, owner.net)) else {
        return Err(SearchEnd::Busy);
    };
    match turning::reserve(turns, pass, &mut turn) {
        Ok(()) => match turning::bind_auto(turns, pass, &mut turn, at_port(owner, port)) {
            Ok(()) => {
                turn.value.recall();
                Ok(Some(turn))
            }
            Err(_) => {
                turning::give(turns, pass, turn);
                Ok(None)
            }
        },
        Err(_) => {
            turning::give(turns, pass, turn);
            Err(SearchEnd::Memory)
        }
    }
}

/// [`find_bind`], with the turn in which the owner was bound: the port's bucket is still out.
///
/// The owner's entry is the only one of that turn so far. The bucket has room for two more, and for one newcomer.
/// Where the search fails, no bucket is out.
pub fn find_bind_turn<P: Patience>(
    patience: &P,
    turns: &Turns<Box<Bucket>>,
    pass: &mut TurnPass<Box<Bucket>>,
    ports: Ports,
    owner: Owner,
) -> Result<(u16, Turn<Box<Bucket>>), SearchEnd>
    requires idle { IsIdle turns.now pass.old }
    requires few { words.draws pass.old + length ports ≤ 2 ^ 48 }
    requires may { MayName (words.caller pass.old) owner.name }
    ensures bound { IfOk result (λ found. BindsIn turns.now owner ports (known pass.old) pass.new found.0 found.1) }
    ensures out { IfOk result (λ found. IsOut turns.now pass.new found.1) }
    ensures place { IfOk result (λ found. found.1.place
        ≡ conflict.bind_key found.0 owner.net % words.places turns.now) }
    ensures entries { IfOk result (λ found. 2 ≤ found.1.value.value.entries) }
    ensures newcomer { IfOk result (λ found. 1 ≤ found.1.value.value.newcomers) }
    ensures idle { OnErr result (IsIdle turns.now pass.new) }
    ensures caller { words.caller pass.new ≡ words.caller pass.old }
    ensures no_port { result ≡ Err SearchEnd.NoPort
        → BindsNowhere (words.places turns.now) owner ports (known pass.old) (known pass.new) }
    ensures memory { result ≡ Err SearchEnd.Memory
        → BindsNotYet (words.places turns.now) owner ports (known pass.old) (known pass.new) }
    ensures busy { result ≡ Err SearchEnd.Busy
        → BindsNotYet (words.places turns.now) owner ports (known pass.old) (known pass.new) }
    ensures end { IfErr result IsNotFull }
    ensures patient { P.endless ≡ true → IfErr result IsNotBusy }
    ensures draws { words.draws pass.new ≤ words.draws pass.old + length ports }
    ensures alone_none { IsAlone (known pass.old) → result ≡ Err SearchEnd.NoPort
        → FindsNone (hash_of (words.places turns.now) (words.given pass.old)) owner ports
        (hash_of (words.places turns.now) (words.given pass.new)) }
{
    for port in ports {
        match bind_at(patience, turns, pass, owner, port) {
            Err(end) => return Err(end),
            Ok(None) => {}
            Ok(Some(turn)) => return Ok((port, turn)),
        }
    }
    Err(SearchEnd::NoPort)
}

/// Binds the owner to the first of the ports at which no owner of its namespace overlaps it as its turn
/// comes, whatever their options (`inet_csk_find_open_port`).
///
/// Each port that is tried adds one entry to its bucket, with a number of its own. `NoPort` says that
/// each of the ports, at its own turn in this call, was refused. `Busy`: another had the turn of the next port's
/// bucket for longer than the caller's patience lasts; with a [`Patience`] that is endless, this doesn't come. Where
/// nobody else was ever split off, the search and what it leaves are those of buckets that are not shared.
pub fn find_bind<P: Patience>(
    patience: &P,
    turns: &Turns<Box<Bucket>>,
    pass: &mut TurnPass<Box<Bucket>>,
    ports: Ports,
    owner: Owner,
) -> Result<u16, SearchEnd>
    requires idle { IsIdle turns.now pass.old }
    requires few { words.draws pass.old + length ports ≤ 2 ^ 48 }
    requires may { MayName (words.caller pass.old) owner.name }
    ensures idle { IsIdle turns.now pass.new }
    ensures caller { words.caller pass.new ≡ words.caller pass.old }
    ensures bound { IfOk result (BindsAt (words.places turns.now) owner ports (known pass.old) (known pass.new)) }
    ensures no_port { result ≡ Err SearchEnd.NoPort
        → BindsNowhere (words.places turns.now) owner ports (known pass.old) (known pass.new) }
    ensures memory { result ≡ Err SearchEnd.Memory
        → BindsNotYet (words.places turns.now) owner ports (known pass.old) (known pass.new) }
    ensures busy { result ≡ Err SearchEnd.Busy
        → BindsNotYet (words.places turns.now) owner ports (known pass.old) (known pass.new) }
    ensures end { IfErr result IsNotFull }
    ensures patient { P.endless ≡ true → IfErr result IsNotBusy }
    ensures draws { words.draws pass.new ≤ words.draws pass.old + length ports }
    ensures alone { IsAlone (known pass.old) → IfOk result (λ port.
        searched (hash_of (words.places turns.now) (words.given pass.old)) owner ports
        ≡ record { hash = hash_of (words.places turns.now) (words.given pass.new); port = Some port }) }
    ensures alone_none { IsAlone (known pass.old) → result ≡ Err SearchEnd.NoPort
        → FindsNone (hash_of (words.places turns.now) (words.given pass.old)) owner ports
        (hash_of (words.places turns.now) (words.given pass.new)) }
{
    match find_bind_turn(patience, turns, pass, ports, owner) {
        Ok((port, turn)) => {
            turning::give(turns, pass, turn);
            Ok(port)
        }
        Err(end) => Err(end),
    }
}

/// Takes the turn of the port's bucket in that namespace, makes room there and asks whether `connect`
/// may choose the port there; where it may, the bucket stays out.
fn open_at<P: Patience>(
    patience: &P,
    turns: &Turns<Box<Bucket>>,
    pass: &mut TurnPass<Box<Bucket>>,
    port: u16,
    net: u8,
) -> Result<Option<Turn<Box<Bucket>>>, SearchEnd>
    requires idle { IsIdle turns.now pass.old }
    requires few { words.draws pass.old < 2 ^ 48 }
    ensures opened { Opened turns.now net port pass.old pass.new result }
    ensures patient { P.endless ≡ true → IfErr result IsNotBusy }
{
    let Some(mut turn) = turning::take(patience, turns, pass, bind_key(port, net)) else {
        return Err(SearchEnd::Busy);
    };
    match turning::reserve(turns, pass, &mut turn) {
        Ok(()) => match turning::free(turns, pass, &mut turn, port, net) {
            Ok(()) => Ok(Some(turn)),
            Err(_) => {
                turning::give(turns, pass, turn);
                Ok(None)
            }
        },
        Err(_) => {
            turning::give(turns, pass, turn);
            Err(SearchEnd::Memory)
        }
    }
}

/// The owner, for which `connect` chose that port.
fn chosen_at(owner: Owner, port: u16) -> Owner
    ensures { result ≡ spec.chosen_at owner port }
{
    Owner {
        port,
        by_connect: true,
        ..owner
    }
}

/// Takes in the owner for which `connect` chose the port in its namespace, in place of the one that was
/// replaced, and gives the bucket back.
fn connect_at(
    turns: &Turns<Box<Bucket>>,
    pass: &mut TurnPass<Box<Bucket>>,
    turn: Turn<Box<Bucket>>,
    owner: Owner,
    port: u16,
    replaced: Option<u64>,
)
    requires out { IsOut turns.now pass.old turn }
    requires place { turn.place ≡ conflict.bind_key port owner.net % words.places turns.now }
    requires few { words.draws pass.old + 2 ≤ 2 ^ 48 }
    requires may { MayName (words.caller pass.old) owner.name }
    requires free { CanConnect turn.value.value port owner.net }
    requires entries { 2 ≤ turn.value.value.entries }
    requires newcomer { 1 ≤ turn.value.value.newcomers }
    ensures idle { IsIdle turns.now pass.new }
    ensures draws { words.draws pass.new ≤ words.draws pass.old + 2 }
    ensures came { (v : View) → Within v (known pass.old)
        → entries_of (made pass.old turn) ≡ record { request = requests.Free port owner.net; answer = answers.Done }
        ∷ []
        → CameAt (words.places turns.now) owner port replaced v (known pass.new) }
{
    let mut turn = turn;
    turning::connect_auto(turns, pass, &mut turn, chosen_at(owner, port));
    match replaced {
        None => turning::give(turns, pass, turn),
        Some(name) => {
            let _gone = turning::remove_waiting(turns, pass, &mut turn, name);
            turning::give(turns, pass, turn);
        }
    }
}

/// Connects the owner from the first of the ports that is free in its namespace as its turn comes and at
/// which `insert` makes the connection (`__inet_hash_connect`); its value comes with the port.
///
/// `insert` is called once for each free port in turn, until it answers other than `Taken`, with the
/// port's bucket out and with the caller's `context`, such as its pass of the chains. What became of the
/// context is known by the calls. Each port that is tried adds one entry, the last one two or three: the
/// owner comes in the same turn, and the owner of a socket in TIME_WAIT that the connection replaced
/// leaves in it, unless it has gone already. The owner's own port is of no matter.
///
/// # Errors
///
/// `NoPort`: each of the ports, at its own turn in this call, was held or answered `Taken`. `Full`: so
/// `insert` answered at a free port, where the search ended. `Memory`: a bucket's room or `insert` wanted
/// memory; the entries of the ports that were tried stay, and no bucket is out. `Busy`: another had the turn of the
/// next port's bucket for longer than the caller's patience lasts, and likewise; with a [`Patience`] that is endless,
/// this doesn't come.
pub fn find_connect<P: Patience, T, C, F: Fn(&mut C, u16) -> Attempt<T>>(
    patience: &P,
    turns: &Turns<Box<Bucket>>,
    pass: &mut TurnPass<Box<Bucket>>,
    ports: Ports,
    owner: Owner,
    context: &mut C,
    insert: F,
) -> Result<(u16, T), SearchEnd>
    requires idle { IsIdle turns.now pass.old }
    requires few { words.draws pass.old + length ports + 2 ≤ 2 ^ 48 }
    requires may { MayName (words.caller pass.old) owner.name }
    requires callable { MayTry (F.pre insert) (F.post insert) context.old }
    ensures idle { IsIdle turns.now pass.new }
    ensures caller { words.caller pass.new ≡ words.caller pass.old }
    ensures draws { words.draws pass.new ≤ words.draws pass.old + length ports + 2 }
    ensures made { IfOk result (λ found. MakesAt (Tries (F.post insert)) (words.places turns.now) owner ports
        (known pass.old) (known pass.new) context.old found.0 found.1 context.new) }
    ensures none { result ≡ Err SearchEnd.NoPort → MakesNone (Tries (F.post insert)) (words.places turns.now)
        owner.net ports (known pass.old) (known pass.new) context.old context.new }
    ensures full { IfErr result (λ end. SaysFull (Tries (F.post insert)) (words.places turns.now)
        owner.net ports (known pass.old) (known pass.new) context.old end context.new) }
    ensures memory { result ≡ Err SearchEnd.Memory → MakesNotYet (Tries (F.post insert)) (words.places turns.now)
        owner.net ports (known pass.old) (known pass.new) context.old context.new }
    ensures busy { result ≡ Err SearchEnd.Busy → FindsBusy (Tries (F.post insert)) (words.places turns.now)
        owner.net ports (known pass.old) (known pass.new) context.old context.new }
    ensures patient { P.endless ≡ true → IfErr result IsNotBusy }
    ensures alone { IsAlone (known pass.old) → IfOk result (λ found.
        ConnectsAt (Tries (F.post insert)) (hash_of (words.places turns.now) (words.given pass.old))
        (hash_of (words.places turns.now) (words.given pass.new)) context.old owner ports found.0 found.1) }
    ensures alone_none { IsAlone (known pass.old) → result ≡ Err SearchEnd.NoPort
        → ConnectsNowhere (Tries (F.post insert)) (hash_of (words.places turns.now) (words.given pass.old))
        (hash_of (words.places turns.now) (words.given pass.new)) context.old owner.net ports }
{
    for port in ports {
        match open_at(patience, turns, pass, port, owner.net) {
            Err(end) => return Err(end),
            Ok(None) => {}
            Ok(Some(turn)) => match insert(context, port) {
                Attempt::Done(value, replaced) => {
                    connect_at(turns, pass, turn, owner, port, replaced);
                    return Ok((port, value));
                }
                Attempt::Taken(_) => turning::give(turns, pass, turn),
                Attempt::Full { owned, held } => {
                    turning::give(turns, pass, turn);
                    return Err(SearchEnd::Full { owned, held });
                }
                Attempt::Memory => {
                    turning::give(turns, pass, turn);
                    return Err(SearchEnd::Memory);
                }
            },
        }
    }
    Err(SearchEnd::NoPort)
}
