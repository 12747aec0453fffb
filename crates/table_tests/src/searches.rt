//! Searches through buckets under turns: of one pass that is alone, and of four threads beside each other.

ghost use Rattle.std.specs.Prelude.{◌≡◌, ◌+◌, ◌^◌, ◌<◌, ◌≤◌, ◌/◌, length};
ghost use Rattle.turn_table.specs.Passes as words;
ghost use Rattle.bind_buckets.specs.Turned.{IsIdle};

use bind_buckets::{Bucket, ListenEnd, Sharing, turning};
use flat_list::{First, NONE_RESERVED, Range};
use patience::{Tries, Waits};
use port_search::ends::{Attempt, SearchEnd};
use port_search::ports::Ports;
use port_search::turning::{find_bind, find_bind_turn, find_connect};
use sock_card::{Owner, State, bind_key};
use std::alloc::{AllocError, Global};
use std::process::Abort;
use std::sync::Wait;
use std::test::Fail;
use std::thread::{Threads, join};
use turn_table::{TurnPass, Turns};

/// A socket that is to be bound to 0.0.0.0 in that namespace.
fn socket(name: u64, net: u8) -> Owner
    ensures { result.name ≡ name }
{
    Owner {
        name,
        origin: name,
        addr: 0,
        port: 0,
        remote: 0,
        rport: 0,
        dev: 0,
        net,
        uid: 0,
        mark: 0,
        reuseaddr: true,
        reuseport: true,
        noport: false,
        state: State::Bound,
        by_connect: false,
    }
}

/// The ports from 40000 to 40003, or to 40001.
fn ports(four: bool, offset: u16, first: First) -> Ports
    ensures { length result ≤ 4 }
{
    if four {
        Ports::new(
            Range {
                low: 40000,
                high: 40003,
                reserved: NONE_RESERVED,
            },
            offset,
            first,
        )
    } else {
        Ports::new(
            Range {
                low: 40000,
                high: 40001,
                reserved: NONE_RESERVED,
            },
            offset,
            first,
        )
    }
}

/// Makes a connection, unless its four-tuple stands already.
fn insert(connected: &mut Vec<(u16, u16)>, port: u16, rport: u16) -> Attempt<()> {
    if connected.iter().any(|c| *c == (port, rport)) {
        return Attempt::Taken(1);
    }
    match connected.push((port, rport)) {
        Ok(()) => Attempt::Done((), None),
        Err(_) => Attempt::Memory,
    }
}

/// Connects a socket from one of the ports to that port of the other end.
fn connect<R: Wait>(
    rt: &R,
    turns: &Turns<Box<Bucket>>,
    pass: &mut TurnPass<Box<Bucket>>,
    connected: &mut Vec<(u16, u16)>,
    ports: Ports,
    rport: u16,
) -> Result<u16, SearchEnd>
    requires pass { IsIdle turns.now pass.old × (words.caller pass.old ≡ 0) }
    requires few { words.draws pass.old + length ports + 2 ≤ 2 ^ 48 }
    ensures pass { IsIdle turns.now pass.new × (words.caller pass.new ≡ 0) }
    ensures draws { words.draws pass.new ≤ words.draws pass.old + length ports + 2 }
{
    let found = find_connect(
        &Waits::by(rt),
        turns,
        pass,
        ports,
        socket(9, 0),
        connected,
        |connected: &mut Vec<(u16, u16)>, port: u16| -> Attempt<()> {
            insert(connected, port, rport)
        },
    );
    match found {
        Ok((port, ())) => Ok(port),
        Err(end) => Err(end),
    }
}

/// What is searched for: a port to bind to in that namespace, or one to connect from to that port of the
/// other end, in the namespace 0.
#[derive(Clone, Copy)]
enum Search {
    Bind(u8),
    Connect(u16),
}

/// Makes one search through four ports or two.
fn find<R: Wait>(
    rt: &R,
    turns: &Turns<Box<Bucket>>,
    pass: &mut TurnPass<Box<Bucket>>,
    connected: &mut Vec<(u16, u16)>,
    four: bool,
    offset: u16,
    search: Search,
) -> Result<u16, SearchEnd>
    requires pass { IsIdle turns.now pass.old × (words.caller pass.old ≡ 0) }
    requires few { words.draws pass.old + 6 ≤ 2 ^ 48 }
    ensures pass { IsIdle turns.now pass.new × (words.caller pass.new ≡ 0) }
    ensures draws { words.draws pass.new ≤ words.draws pass.old + 6 }
{
    match search {
        Search::Bind(net) => {
            let ports = ports(four, offset, First::Odd);
            find_bind(&Waits::by(rt), turns, pass, ports, socket(1, net))
        }
        Search::Connect(rport) => {
            let ports = ports(four, offset, First::Even);
            connect(rt, turns, pass, connected, ports, rport)
        }
    }
}

/// What each of these searches finds, one after the other, in two buckets.
fn find_all<R: Wait>(
    rt: &R,
    alloc: Global,
    four: bool,
    offset: u16,
    searches: &[Search],
) -> Result<Vec<Result<u16, SearchEnd>>, AllocError>
    requires { length searches.now ≤ 6 }
{
    let (turns, mut pass) = turning::with_buckets(alloc, 2, Sharing::Alone)?;
    let mut connected = Vec::new(alloc);
    let mut found = Vec::new(alloc);
    for search in searches {
        found.push(find(rt, &turns, &mut pass, &mut connected, four, offset, *search))?;
    }
    Ok(found)
}

/// Asserts what these searches find.
fn check<R: Wait + Abort>(
    rt: &R,
    alloc: Global,
    four: bool,
    offset: u16,
    searches: &[Search],
    expected: &[Result<u16, SearchEnd>],
) -> Result<(), AllocError>
    requires { length searches.now ≤ 6 }
{
    let found = find_all(rt, alloc, four, offset, searches)?;
    assert_eq!(rt; found.as_slice(), expected);
    Ok(())
}

const NONE: Result<u16, SearchEnd> = Err(SearchEnd::NoPort);

#[test]
fn bind_finds_odd_distances_first(rt: HostRuntime) -> Result<(), AllocError> {
    let (b, c) = (Search::Bind(0), Search::Connect(80));
    let expected = [Ok(40001), Ok(40003), Ok(40000), Ok(40002), NONE, NONE];
    check(&rt, rt.alloc(), true, 0, &[b, b, b, b, b, c], &expected)?;
    let expected = [Ok(40003), Ok(40001), Ok(40002), Ok(40000)];
    check(&rt, rt.alloc(), true, 2, &[b, b, b, b], &expected)?;
    check(&rt, rt.alloc(), false, 0, &[b], &[Ok(40001)])
}

#[test]
fn connect_finds_even_distances_first(rt: HostRuntime) -> Result<(), AllocError> {
    let (c, other) = (Search::Connect(80), Search::Connect(81));
    let expected = [Ok(40000), Ok(40001), NONE, Ok(40000)];
    check(&rt, rt.alloc(), false, 0, &[c, c, c, other], &expected)?;
    let expected = [Ok(40002), Ok(40000), Ok(40003), Ok(40001)];
    check(&rt, rt.alloc(), true, 2, &[c, c, c, c], &expected)
}

#[test]
fn each_namespace_has_all_ports(rt: HostRuntime) -> Result<(), AllocError> {
    let (b, other, c) = (Search::Bind(0), Search::Bind(1), Search::Connect(80));
    let expected = [Ok(40001), Ok(40001), Ok(40000), NONE, Ok(40000), NONE];
    check(
        &rt,
        rt.alloc(),
        false,
        0,
        &[other, b, other, other, c, b],
        &expected,
    )?;
    let expected = [Ok(40001), Ok(40000), NONE, Ok(40000), Ok(40001)];
    check(
        &rt,
        rt.alloc(),
        false,
        0,
        &[other, other, other, c, c],
        &expected,
    )
}

/// The forty ports from 40000 on.
fn forty() -> Ports
    ensures { length result ≡ 40 }
{
    Ports::new(
        Range {
            low: 40000,
            high: 40039,
            reserved: NONE_RESERVED,
        },
        0,
        First::Odd,
    )
}

/// The ports to which ten sockets of a section are bound, each after a search of its own.
fn bind_ten<R: Wait>(
    rt: &R,
    alloc: Global,
    turns: &Turns<Box<Bucket>>,
    pass: TurnPass<Box<Bucket>>,
    section: u32,
) -> Result<Vec<u16>, AllocError>
    requires pass { IsIdle turns.now pass × (words.caller pass ≡ section) × (words.draws pass ≡ 0) }
    requires section { section < 100 }
{
    let mut pass = pass;
    let mut found = Vec::new(alloc);
    for number in 0..10u64 {
        let owner = socket(u64::from(section) * 0x100_0000_0000_0000 + number, 0);
        if let Ok(port) = find_bind(&Waits::by(rt), turns, &mut pass, forty(), owner) {
            found.push(port)?;
        }
    }
    Ok(found)
}

/// What two sections find that search the same ports beside each other.
fn bind_two<R: Threads + Wait + Sync>(
    rt: &R,
    alloc: Global,
    turns: &Turns<Box<Bucket>>,
    one: TurnPass<Box<Bucket>>,
    two: TurnPass<Box<Bucket>>,
    section: u32,
) -> Result<Vec<u16>, AllocError>
    requires one { IsIdle turns.now one × (words.caller one ≡ section) × (words.draws one ≡ 0) }
    requires two { IsIdle turns.now two × (words.caller two ≡ section + 1) × (words.draws two ≡ 0) }
    requires section { section < 50 }
{
    let (a, b) = join(
        rt,
        || -> Result<Vec<u16>, AllocError>
            requires { IsIdle turns.now one × (words.caller one ≡ section) × (words.draws one ≡ 0) × (section < 50) }
        { bind_ten(rt, alloc, turns, one, section) },
        || -> Result<Vec<u16>, AllocError>
            requires { IsIdle turns.now two × (words.caller two ≡ section + 1) × (words.draws two ≡ 0)
                × (section < 50) }
        { bind_ten(rt, alloc, turns, two, section + 1) },
    );
    both(a?, b?)
}

/// The ports of two sections.
fn both(a: Vec<u16>, b: Vec<u16>) -> Result<Vec<u16>, AllocError> {
    let mut all = a;
    for port in b {
        all.push(port)?;
    }
    Ok(all)
}

/// What four sections find that search the same ports beside each other.
fn bind_four<R: Threads + Wait + Sync>(rt: &R, alloc: Global) -> Result<Vec<u16>, AllocError> {
    let (turns, mut first) = turning::with_buckets(alloc, 4, Sharing::Shared)?;
    let one = turning::split(&turns, &mut first);
    let two = turning::split(&turns, &mut first);
    let three = turning::split(&turns, &mut first);
    let four = turning::split(&turns, &mut first);
    let shared = &turns;
    let (a, b) = join(
        rt,
        || -> Result<Vec<u16>, AllocError>
            requires { IsIdle shared.now one × (words.caller one ≡ 1) × (words.draws one ≡ 0) × IsIdle shared.now two
                × (words.caller two ≡ 2) × (words.draws two ≡ 0) }
        { bind_two(rt, alloc, shared, one, two, 1) },
        || -> Result<Vec<u16>, AllocError>
            requires { IsIdle shared.now three × (words.caller three ≡ 3) × (words.draws three ≡ 0)
                × IsIdle shared.now four × (words.caller four ≡ 4) × (words.draws four ≡ 0) }
        { bind_two(rt, alloc, shared, three, four, 3) },
    );
    both(a?, b?)
}

#[test]
fn four_threads_find_each_port_once(rt: HostRuntime) -> Result<(), Fail> {
    let mut found = bind_four(&rt, rt.alloc())?;
    found.sort()?;
    let each: Vec<u16> = (40000..40040u16).collect(rt.alloc())?;
    assert_eq!(rt; found.as_slice(), each.as_slice());
    Ok(())
}

/// Searches the ports 40001 and 40000 for the socket of that name, with three tries at each turn.
fn bind_soon(
    turns: &Turns<Box<Bucket>>,
    pass: &mut TurnPass<Box<Bucket>>,
    name: u64,
) -> Result<u16, SearchEnd>
    requires pass { IsIdle turns.now pass.old × (words.caller pass.old ≡ 2) }
    requires name { name / 2 ^ 56 ≡ 2 }
    requires few { words.draws pass.old + 4 ≤ 2 ^ 48 }
    ensures pass { IsIdle turns.now pass.new × (words.caller pass.new ≡ 2) }
    ensures draws { words.draws pass.new ≤ words.draws pass.old + 4 }
{
    find_bind(
        &Tries(2),
        turns,
        pass,
        ports(false, 0, First::Odd),
        socket(name, 0),
    )
}

/// What two searches answer while another pass has the turn of that port's bucket, and a third afterwards.
fn bind_beside<R: Wait>(
    rt: &R,
    alloc: Global,
    held: u16,
) -> Result<[Result<u16, SearchEnd>; 3], AllocError> {
    let (turns, mut first) = turning::with_buckets(alloc, 2, Sharing::Shared)?;
    let mut one = turning::split(&turns, &mut first);
    let mut two = turning::split(&turns, &mut first);
    let turn = turning::take(&Waits::by(rt), &turns, &mut one, bind_key(held, 0)).unwrap();
    let before = bind_soon(&turns, &mut two, 0x200_0000_0000_0001);
    let again = bind_soon(&turns, &mut two, 0x200_0000_0000_0002);
    turning::give(&turns, &mut one, turn);
    let afterwards = bind_soon(&turns, &mut two, 0x200_0000_0000_0003);
    Ok([before, again, afterwards])
}

#[test]
fn a_search_gives_up_where_another_has_the_turn(rt: HostRuntime) -> Result<(), AllocError> {
    const BUSY: Result<u16, SearchEnd> = Err(SearchEnd::Busy);
    let first_port = bind_beside(&rt, rt.alloc(), 40001)?;
    assert_eq!(rt; first_port, [BUSY, BUSY, Ok(40001)]);
    let second_port = bind_beside(&rt, rt.alloc(), 40000)?;
    assert_eq!(rt; second_port, [Ok(40001), BUSY, Ok(40000)]);
    Ok(())
}

/// What a socket's bucket says to it in the turn in which it was bound, and what another pass's search answers in the
/// meantime.
type InOneTurn = Option<(u16, Result<u16, SearchEnd>, Result<Option<u32>, ListenEnd>)>;

/// Binds the first section's socket, which may then listen, and meanwhile the second's.
fn bind_and_ask(
    turns: &Turns<Box<Bucket>>,
    one: &mut TurnPass<Box<Bucket>>,
    two: &mut TurnPass<Box<Bucket>>,
) -> InOneTurn
    requires one { IsIdle turns.now one.old × (words.caller one.old ≡ 1) × (words.draws one.old ≡ 0) }
    requires two { IsIdle turns.now two.old × (words.caller two.old ≡ 2) × (words.draws two.old ≡ 0) }
{
    let name = 0x100_0000_0000_0001;
    let ports = ports(false, 0, First::Odd);
    match find_bind_turn(&Tries(2), turns, one, ports, socket(name, 0)) {
        Ok((port, turn)) => {
            let meanwhile = bind_soon(turns, two, 0x200_0000_0000_0001);
            let mut turn = turn;
            let group = turning::may_listen(turns, one, &mut turn, name);
            turning::give(turns, one, turn);
            Some((port, meanwhile, group))
        }
        Err(_) => None,
    }
}

/// That of new buckets.
fn ask_in_one_turn(alloc: Global) -> Result<InOneTurn, AllocError> {
    let (turns, mut first) = turning::with_buckets(alloc, 2, Sharing::Shared)?;
    let mut one = turning::split(&turns, &mut first);
    let mut two = turning::split(&turns, &mut first);
    Ok(bind_and_ask(&turns, &mut one, &mut two))
}

#[test]
fn a_socket_is_bound_and_asked_in_one_turn(rt: HostRuntime) -> Result<(), AllocError> {
    let told = ask_in_one_turn(rt.alloc())?;
    let expected: InOneTurn = Some((40001, Err(SearchEnd::Busy), Ok(Some(8))));
    assert_eq!(rt; told, expected);
    Ok(())
}
