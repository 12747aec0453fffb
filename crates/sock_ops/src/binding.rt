//! `bind`.

ghost use Rattle.std.specs.Prelude.{◌≡◌, ◌+◌, ◌^◌, ◌<◌, ◌≤◌, ◌==◌, ◌&&◌, false, length, IfOk, IfErr, true};
ghost use Rattle.sock_card.specs.Conflict.{bind_key};
ghost use Rattle.turn_table.specs.Passes as words;
ghost use Rattle.turn_table.specs.Passes.{known};
ghost use Rattle.bind_buckets.specs.Callers.{MayName};
ghost use Rattle.bind_buckets.specs.Turned.{IsIdle};
ghost use Rattle.bind_buckets.specs.declared.request.Request.TheVariants as requests;
ghost use Rattle.sock_ops.specs.Sides.{Side};
ghost use Rattle.flat_list.specs.Owned.{bound_at};
ghost use Rattle.table_model.specs.Asking.{asks, ends};
ghost use Rattle.table_model.specs.Operations as plans;
ghost use Rattle.table_model.specs.Operations.{bind_answered, refused, search_bind};
ghost use Rattle.table_model.specs.declared.operation.OpEnd.TheVariants as errors;
ghost use Rattle.sock_ops.specs.Binding as spec;
ghost use Rattle.sock_ops.specs.Binding.{bound_to};
ghost use Rattle.sock_ops.specs.Goes.{Carried, NotBusy};
ghost use Rattle.sock_ops.specs.Groups.{KeepsLists};
ghost use Rattle.sock_ops.specs.Socks.{mine_of, first_mine, without_socket};
ghost use Rattle.sock_ops.specs.Stands.{IsReady, MayEnter, MayTell, buckets_of, chained, turned};

use crate::sock::{Bound, Sock};
use crate::tables::{Tables, Worker};
use bind_buckets::{Bucket, InUse, turning};
use flat_list::{End, owned};
use patience::Patience;
use port_search::turning::find_bind;
use port_search::{Ports, SearchEnd};
use sock_card::{Owner, bind_key};
use table_model::{Cause, OpEnd};
use turn_table::{TurnPass, Turns};

fn end_of_bind(bound: Result<(), InUse>) -> Result<(), OpEnd>
    ensures { result ≡ spec.end_of_bind bound }
{
    match bound {
        Ok(()) => Ok(()),
        Err(InUse(name)) => Err(OpEnd::InUse(name)),
    }
}

pub(crate) fn end_of_search(found: Result<u16, SearchEnd>) -> Result<u16, OpEnd>
    ensures { result ≡ spec.end_of_search found }
{
    match found {
        Ok(port) => Ok(port),
        Err(SearchEnd::NoPort) => Err(OpEnd::NoPort),
        Err(SearchEnd::Full { owned, held }) => Err(OpEnd::Full { owned, held }),
        Err(SearchEnd::Memory) => Err(OpEnd::LeftOff(Cause::Memory)),
        Err(SearchEnd::Busy) => Err(OpEnd::LeftOff(Cause::Busy)),
    }
}

/// Binds an owner without a port to the port that the end gives.
fn bind_given<P: Patience>(
    patience: &P,
    buckets: &Turns<Box<Bucket>>,
    pass: &mut TurnPass<Box<Bucket>>,
    owner: Owner,
    end: End,
) -> Result<(), OpEnd>
    requires idle { IsIdle buckets.now pass.old }
    requires few { words.draws pass.old < 2 ^ 48 }
    requires may { MayName (words.caller pass.old) owner.name }
    ensures idle { IsIdle buckets.now pass.new }
    ensures caller { words.caller pass.new ≡ words.caller pass.old }
    ensures draws { words.draws pass.new ≤ words.draws pass.old + 1 }
    ensures carried { (c : Side) → Carried (λ _. bound_to owner end.addr end.port) refused
        (words.places buckets.now)
        (asks (bind_key end.port owner.net) (requests.Bind (bound_at owner end.addr end.port))
        (bind_answered owner end))
        (known pass.old) (known pass.new) c c result }
    ensures patient { P.endless ≡ true → IfErr result NotBusy }
{
    let key = bind_key(end.port, owner.net);
    let Some(mut turn) = turning::take(patience, buckets, pass, key) else {
        return Err(OpEnd::LeftOff(Cause::Busy));
    };
    match turning::reserve(buckets, pass, &mut turn) {
        Ok(()) => {
            let bound_owner = owned::bound_at(owner, end.addr, end.port);
            let bound = turning::bind(buckets, pass, &mut turn, bound_owner);
            turning::give(buckets, pass, turn);
            end_of_bind(bound)
        }
        Err(_) => {
            turning::give(buckets, pass, turn);
            Err(OpEnd::LeftOff(Cause::Memory))
        }
    }
}

/// Binds it to a port that is searched for.
fn bind_searched<P: Patience>(
    patience: &P,
    buckets: &Turns<Box<Bucket>>,
    pass: &mut TurnPass<Box<Bucket>>,
    owner: Owner,
    addr: u32,
    ports: Ports,
) -> Result<u16, OpEnd>
    requires idle { IsIdle buckets.now pass.old }
    requires few { words.draws pass.old + length ports ≤ 2 ^ 48 }
    requires may { MayName (words.caller pass.old) owner.name }
    ensures idle { IsIdle buckets.now pass.new }
    ensures caller { words.caller pass.new ≡ words.caller pass.old }
    ensures draws { words.draws pass.new ≤ words.draws pass.old + length ports }
    ensures carried { (c : Side) → Carried (bound_to owner addr) refused (words.places buckets.now)
        (search_bind owner addr (plans.bound owner addr) (ends (refused errors.NoPort)) ports)
        (known pass.old) (known pass.new) c c result }
    ensures patient { P.endless ≡ true → IfErr result NotBusy }
{
    let bound = owned::bound_at(owner, addr, 0);
    let found = find_bind(patience, buckets, pass, ports, bound);
    end_of_search(found)
}

/// Binds an owner without a port that isn't taken late.
fn bind_unbound<P: Patience>(
    patience: &P,
    buckets: &Turns<Box<Bucket>>,
    pass: &mut TurnPass<Box<Bucket>>,
    owner: Owner,
    end: End,
    ports: Ports,
) -> Result<u16, OpEnd>
    requires idle { IsIdle buckets.now pass.old }
    requires few { words.draws pass.old + (length ports + 1) ≤ 2 ^ 48 }
    requires may { MayName (words.caller pass.old) owner.name }
    requires now { (end.port == 0 && owner.noport) ≡ false }
    ensures idle { IsIdle buckets.now pass.new }
    ensures caller { words.caller pass.new ≡ words.caller pass.old }
    ensures draws { words.draws pass.new ≤ words.draws pass.old + (length ports + 1) }
    ensures carried { (c : Side) → Carried (bound_to owner end.addr) refused (words.places buckets.now)
        (plans.bind_unbound owner end ports) (known pass.old) (known pass.new) c c result }
    ensures patient { P.endless ≡ true → IfErr result NotBusy }
{
    if end.port == 0 {
        return bind_searched(patience, buckets, pass, owner, end.addr, ports);
    }
    match bind_given(patience, buckets, pass, owner, end) {
        Ok(()) => Ok(end.port),
        Err(refusal) => Err(refusal),
    }
}

fn bound_answer(
    socket: Sock,
    owner: Owner,
    addr: u32,
    bound: Result<u16, OpEnd>,
) -> Result<(Sock, u16), (Sock, OpEnd)>
    ensures { result ≡ spec.bound_answer socket owner addr bound }
{
    match bound {
        Ok(port) => {
            let bound = Bound::new(owned::bound_at(owner, addr, port));
            Ok((Sock::Bound(bound), port))
        }
        Err(refusal) => Err((socket, refusal)),
    }
}

/// Binds a socket to an address and a port, or to the first port of a search where the end's port is 0; the port comes
/// with the bound socket. One with `noport` has the address alone then, and comes without a port and with 0.
///
/// Its plan goes on so by the answers of the entries that this call gave, whoever else was at the tables. What follows
/// of that stands in [`crate::laws`]: the bound socket stands, and a refused one as it did.
///
/// # Errors
///
/// `Inval`: it has a port already. `InUse`: the owner of that name keeps it from its port. `NoPort`: each of the ports
/// was refused, at its own turn. `LeftOff`: a bucket wanted memory, or another had its turn for longer than the caller
/// tries; the entries of the ports refused before stay. A refused socket comes back as it was.
pub fn bind<P: Patience>(
    patience: &P,
    tables: &Tables,
    worker: &mut Worker,
    socket: Sock,
    end: End,
    ports: Ports,
) -> Result<(Sock, u16), (Sock, OpEnd)>
    requires ready { IsReady tables.now worker.old }
    requires enters { MayEnter (length ports + 1) worker.old }
    requires may { MayTell worker.old (mine_of socket).owner.name }
    ensures ready { IsReady tables.now worker.new }
    ensures caller { words.caller worker.new.turns ≡ words.caller worker.old.turns }
    ensures entered { words.draws worker.new.turns ≤ words.draws worker.old.turns + (length ports + 1) }
    ensures chain { worker.new.chain ≡ worker.old.chain }
    ensures groups { worker.new.groups ≡ worker.old.groups }
    ensures listed { KeepsLists tables.now worker.old worker.new }
    ensures carried { Carried first_mine refused (buckets_of tables.now)
        (plans.bind (mine_of socket) end ports) (turned worker.old) (turned worker.new)
        (chained tables.now worker.old) (chained tables.now worker.new) (without_socket result) }
    ensures port { IfOk result (λ bound. bound.1 ≡ (mine_of bound.0).owner.port) }
    ensures back { IfErr result (λ refusal. refusal.0 ≡ socket) }
    ensures patient { P.endless ≡ true → IfErr result (λ refusal. NotBusy refusal.1) }
{
    let owner = *socket.owner();
    match socket {
        Sock::Unbound(unbound) => {
            if end.port == 0 && owner.noport {
                return Ok((Sock::Unbound(unbound.at_address(end.addr)), 0));
            }
            let bound = bind_unbound(
                patience,
                &tables.buckets,
                &mut worker.turns,
                owner,
                end,
                ports,
            );
            bound_answer(Sock::Unbound(unbound), owner, end.addr, bound)
        }
        Sock::Bound(bound) => Err((Sock::Bound(bound), OpEnd::Inval)),
        Sock::Listening(listener) => Err((Sock::Listening(listener), OpEnd::Inval)),
        Sock::Full(full) => Err((Sock::Full(full), OpEnd::Inval)),
        Sock::Request(request) => Err((Sock::Request(request), OpEnd::Inval)),
    }
}
