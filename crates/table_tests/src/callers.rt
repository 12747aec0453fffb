//! Callers and lookers of one set of tables, with what each call returns.

use chain_book::{PacketAnswer, PacketLook};
use flat_calls::outcome::{count_of, end_of, errno_of, leaves_time_wait};
use flat_calls::{Item, Outcome, commands};
use flat_list::header::NONE_RESERVED;
use flat_list::{Command, End, Header, Options, Range, Shape};
use patience::Tries;
use section_machine::Gone;
use shared_calls::{Asking, Caller, Left, Limited, Limits, Looker, SharedTables, Sighting};
use sock_card::{Kind, Packet};
use std::alloc::{AllocError, Global};
use std::test::Fail;

const HEADER: Header = Header {
    shape: Shape {
        slots: 4,
        bind: 16,
        hash: 16,
        listen: 4,
    },
    range: Range {
        low: 32768,
        high: 60999,
        reserved: NONE_RESERVED,
    },
    seed: 7,
    offset: None,
    twreuse: false,
};

const PLAIN: Options = Options {
    net: None,
    uid: None,
    dev: None,
    reuseaddr: false,
    reuseport: false,
    noport: false,
};

const HERE: End = End {
    addr: 0x0A00_0001,
    port: 80,
};

const THERE: End = End {
    addr: 0x0A00_0002,
    port: 5,
};

const PACKET: Packet = Packet {
    src: THERE.addr,
    sport: THERE.port,
    dst: HERE.addr,
    dport: HERE.port,
    dev: 0,
    net: 0,
};

/// What the names of the first caller's sockets have above their lower 24 bits.
const FIRST: u64 = 0x100_0000_0000_0000;

/// A caller and a looker of new tables, with the tables.
fn open(alloc: Global) -> Result<(SharedTables, Caller, Looker), AllocError> {
    let mut tables = SharedTables::new(alloc, &HEADER, 7)?;
    let (Ok(caller), Ok(looker)) = (tables.caller(alloc), tables.looker(alloc)) else {
        return Err(AllocError);
    };
    Ok((tables, caller, looker))
}

/// A caller of the tables.
fn hand_out(tables: &mut SharedTables, alloc: Global) -> Result<Caller, AllocError> {
    match tables.caller(alloc) {
        Ok(caller) => Ok(caller),
        Err(_) => Err(AllocError),
    }
}

/// Two callers of new tables, with the tables.
fn open_two(alloc: Global) -> Result<(SharedTables, Caller, Caller), AllocError> {
    let mut tables = SharedTables::new(alloc, &HEADER, 7)?;
    let (Ok(first), Ok(second)) = (tables.caller(alloc), tables.caller(alloc)) else {
        return Err(AllocError);
    };
    Ok((tables, first, second))
}

/// A bound socket of the caller's, with its number.
fn bind_here(caller: &mut Caller) -> (u64, Outcome) {
    let number = caller.next_number();
    caller.call(&Tries(0), &commands::socket(number, PLAIN));
    (
        number,
        caller.call(&Tries(0), &commands::bind(number, HERE)),
    )
}

/// A listener of the caller's, with its number.
fn listen_here(caller: &mut Caller) -> (u64, Outcome) {
    let (number, _) = bind_here(caller);
    (number, caller.call(&Tries(0), &commands::listen(number)))
}

/// A connection of that listener, with its number.
fn accept_there(caller: &mut Caller, listener: u64) -> (u64, Outcome) {
    let number = caller.next_number();
    let command = commands::accept(listener, number, THERE, HERE);
    (number, caller.call(&Tries(0), &command))
}

/// What a looker finds: the kind of socket and its name.
fn found(looker: &mut Looker) -> Option<(Kind, u64)> {
    let PacketLook { end, .. } = looker.look(&PACKET, 1);
    match end {
        PacketAnswer::Found(card) => Some((card.kind, card.name)),
        PacketAnswer::None | PacketAnswer::Again(..) => None,
    }
}

#[test]
fn a_connection_is_found_by_its_callers_number_and_its_own(rt: HostRuntime) -> Result<(), Fail> {
    let (_tables, mut caller, mut looker) = open(rt.alloc())?;
    let (listener, listening) = listen_here(&mut caller);
    assert_eq!(rt; end_of(listening).port, 80);
    assert_eq!(rt; found(&mut looker), Some((Kind::Listen, FIRST | listener)));
    let (child, accepted) = accept_there(&mut caller, listener);
    assert_eq!(rt; errno_of(accepted), 0);
    assert_eq!(rt; found(&mut looker), Some((Kind::Full, FIRST | child)));
    let closed = caller.call(&Tries(0), &commands::close(child));
    assert_eq!(rt; leaves_time_wait(closed), true);
    assert_eq!(rt; found(&mut looker), Some((Kind::TimeWait, FIRST | child)));
    caller.call(&Tries(0), &Command::At { moment: 60 });
    assert_eq!(rt; count_of(caller.call(&Tries(0), &Command::Reap)), 1);
    assert_eq!(rt; found(&mut looker), Some((Kind::Listen, FIRST | listener)));
    Ok(())
}

/// The mark of the socket that a looker finds.
fn mark(looker: &mut Looker) -> Option<u32> {
    let PacketLook { end, .. } = looker.look(&PACKET, 1);
    match end {
        PacketAnswer::Found(card) => Some(card.mark),
        PacketAnswer::None | PacketAnswer::Again(..) => None,
    }
}

#[test]
fn a_lookup_answers_the_mark_that_a_socket_was_given(rt: HostRuntime) -> Result<(), Fail> {
    let (_tables, mut caller, mut looker) = open(rt.alloc())?;
    caller.set_mark(11);
    let (listener, _) = listen_here(&mut caller);
    assert_eq!(rt; mark(&mut looker), Some(11));
    caller.set_mark(u32::MAX);
    let (child, _) = accept_there(&mut caller, listener);
    assert_eq!(rt; mark(&mut looker), Some(u32::MAX));
    caller.set_mark(12);
    caller.call(&Tries(0), &commands::close(child));
    assert_eq!(rt; mark(&mut looker), Some(u32::MAX));
    caller.call(&Tries(0), &Command::At { moment: 60 });
    caller.call(&Tries(0), &Command::Reap);
    assert_eq!(rt; mark(&mut looker), Some(11));
    Ok(())
}

#[test]
fn callers_have_numbers_and_sockets_of_their_own(rt: HostRuntime) -> Result<(), Fail> {
    let (_tables, mut first, mut second) = open_two(rt.alloc())?;
    assert_eq!(rt; (first.number(), second.number()), (1, 2));
    let (listener, _) = listen_here(&mut first);
    let (_, refused) = bind_here(&mut second);
    assert_eq!(rt; errno_of(refused), 98);
    let (_, strange) = accept_there(&mut second, listener | 8);
    assert_eq!(rt; errno_of(strange), 9);
    Ok(())
}

#[test]
fn what_was_handed_out_outlives_the_tables(rt: HostRuntime) -> Result<(), Fail> {
    let (tables, mut caller, mut looker) = open(rt.alloc())?;
    drop(tables);
    let (listener, listening) = listen_here(&mut caller);
    assert_eq!(rt; errno_of(listening), 0);
    drop(caller);
    assert_eq!(rt; found(&mut looker), Some((Kind::Listen, FIRST | listener)));
    Ok(())
}

#[test]
fn a_caller_that_is_given_back_goes_out_again_with_its_sockets(
    rt: HostRuntime,
) -> Result<(), Fail> {
    let (mut tables, mut caller, mut looker) = open(rt.alloc())?;
    let (listener, _) = listen_here(&mut caller);
    assert_eq!(rt; tables.may_come_back(&caller), true);
    tables.take_back(caller);
    assert_eq!(rt; found(&mut looker), Some((Kind::Listen, FIRST | listener)));
    let mut next = hand_out(&mut tables, rt.alloc())?;
    assert_eq!(rt; (next.number(), next.next_number()), (1, 2));
    let closed = next.call(&Tries(0), &commands::close(listener));
    assert_eq!(rt; errno_of(closed), 0);
    assert_eq!(rt; found(&mut looker), None);
    Ok(())
}

#[test]
fn open_sockets_are_told_in_turn(rt: HostRuntime) -> Result<(), Fail> {
    let (_tables, mut caller, _looker) = open(rt.alloc())?;
    assert_eq!(rt; caller.next_open(0), None);
    let (listener, _) = listen_here(&mut caller);
    let (child, _) = accept_there(&mut caller, listener);
    // The four-tuple is taken, so this number never names a socket.
    accept_there(&mut caller, listener);
    let (last, _) = bind_here(&mut caller);
    assert_eq!(rt; (child, last), (2, 4));
    assert_eq!(rt; caller.next_open(0), Some(listener));
    assert_eq!(rt; caller.next_open(listener), Some(child));
    assert_eq!(rt; caller.next_open(child), Some(last));
    assert_eq!(rt; caller.next_open(last), None);
    caller.call(&Tries(0), &commands::drop_socket(child));
    assert_eq!(rt; caller.next_open(listener), Some(last));
    Ok(())
}

/// A listener of a limited caller of new tables of four slots, with its number.
fn listen_limited(
    alloc: Global,
    most_waits: u64,
    full_for: u64,
) -> Result<(Limited, u64), AllocError> {
    let (_tables, mut caller, _looker) = open(alloc)?;
    let (listener, _) = listen_here(&mut caller);
    let limits = Limits {
        tries: 0,
        most_waits,
        full_for,
    };
    Ok((Limited::new(caller, limits), listener))
}

/// A connection of that listener from that port, with its number and errno.
fn accept_from(limited: &mut Limited, listener: u64, port: u16) -> (u64, i32) {
    let number = limited.caller.next_number();
    let from = End { port, ..THERE };
    let outcome = limited.call(&commands::accept(listener, number, from, HERE));
    (number, errno_of(outcome))
}

/// A connection from that port is made and closed: whether a TIME_WAIT stays.
fn leaves_one(limited: &mut Limited, listener: u64, port: u16) -> bool {
    let (child, _) = accept_from(limited, listener, port);
    leaves_time_wait(limited.call(&commands::close(child)))
}

#[test]
fn a_close_leaves_no_more_time_waits_than_there_may_be(rt: HostRuntime) -> Result<(), Fail> {
    let (mut limited, listener) = listen_limited(rt.alloc(), 1, 0)?;
    assert_eq!(rt; leaves_one(&mut limited, listener, 5), true);
    assert_eq!(rt; leaves_one(&mut limited, listener, 6), false);
    limited.call(&Command::At { moment: 60 });
    assert_eq!(rt; count_of(limited.call(&Command::Reap)), 1);
    assert_eq!(rt; leaves_one(&mut limited, listener, 7), true);
    Ok(())
}

#[test]
fn who_found_no_slot_looks_for_none_for_so_many_calls(rt: HostRuntime) -> Result<(), Fail> {
    let (mut limited, listener) = listen_limited(rt.alloc(), 0, 2)?;
    let (first, _) = accept_from(&mut limited, listener, 5);
    for port in 6..8u16 {
        let (_, errno) = accept_from(&mut limited, listener, port);
        assert_eq!(rt; errno, 0);
    }
    assert_eq!(rt; accept_from(&mut limited, listener, 8).1, 23);
    assert_eq!(rt; errno_of(limited.call(&commands::drop_socket(first))), 0);
    assert_eq!(rt; accept_from(&mut limited, listener, 8).1, 105);
    assert_eq!(rt; accept_from(&mut limited, listener, 8).1, 0);
    Ok(())
}

/// What is told of a socket of the first caller's that has that kind, number and other end, at HERE.
fn item(kind: u32, socket: u64, peer: End) -> Item {
    Item {
        kind,
        worker: 1,
        socket,
        addr: HERE.addr,
        peer_addr: peer.addr,
        port: HERE.port,
        peer_port: peer.port,
        dev: 0,
        net: 0,
    }
}

const NO_END: End = End { addr: 0, port: 0 };

#[test]
fn an_open_socket_is_told_with_its_ends(rt: HostRuntime) -> Result<(), Fail> {
    let (_tables, mut caller, _looker) = open(rt.alloc())?;
    let (socket, _) = bind_here(&mut caller);
    assert_eq!(rt; caller.socket(socket), Some(item(5, socket, NO_END)));
    caller.call(&Tries(0), &commands::listen(socket));
    assert_eq!(rt; caller.socket(socket), Some(item(3, socket, NO_END)));
    let (child, _) = accept_there(&mut caller, socket);
    assert_eq!(rt; caller.socket(child), Some(item(1, child, THERE)));
    let fresh = caller.next_number();
    assert_eq!(rt; caller.socket(fresh), None);
    caller.call(&Tries(0), &commands::socket(fresh, PLAIN));
    let unbound = Item {
        addr: 0,
        port: 0,
        ..item(6, fresh, NO_END)
    };
    assert_eq!(rt; caller.socket(fresh), Some(unbound));
    caller.call(&Tries(0), &commands::drop_socket(child));
    assert_eq!(rt; caller.socket(child), None);
    assert_eq!(rt; caller.socket(0), None);
    assert_eq!(rt; caller.socket(u64::MAX), None);
    Ok(())
}

#[test]
fn what_is_left_goes_down_by_what_was_taken(rt: HostRuntime) -> Result<(), Fail> {
    let (_tables, mut caller, _looker) = open(rt.alloc())?;
    let whole = Left {
        sockets: 0xFF_FFFF_FFFF_FFFE,
        entries: 0xFFFF_0000_0000,
        stamps: 0xFFFF_0000_0000,
        waits: 0,
    };
    assert_eq!(rt; caller.left(), whole);
    let (listener, _) = listen_here(&mut caller);
    let (child, _) = accept_there(&mut caller, listener);
    caller.call(&Tries(0), &commands::close(child));
    let Left {
        sockets,
        entries,
        stamps,
        waits,
    } = caller.left();
    assert_eq!(rt; (sockets, waits), (whole.sockets - 2, 1));
    // The listener and the child came, the child went and its TIME_WAIT came, which two numbers are kept for.
    assert_eq!(rt; whole.stamps - stamps, 10);
    assert_eq!(rt; entries < whole.entries, true);
    Ok(())
}

#[test]
fn so_many_time_waits_at_most_are_reaped_in_a_call(rt: HostRuntime) -> Result<(), Fail> {
    let (mut limited, listener) = listen_limited(rt.alloc(), 0, 0)?;
    for port in 5..7u16 {
        assert_eq!(rt; leaves_one(&mut limited, listener, port), true);
    }
    assert_eq!(rt; limited.reap_most(0), Ok(Gone::All(0)));
    limited.call(&Command::At { moment: 60 });
    assert_eq!(rt; limited.reap_most(0), Ok(Gone::More(0)));
    assert_eq!(rt; limited.reap_most(1), Ok(Gone::More(1)));
    assert_eq!(rt; limited.caller.waiting(), 1);
    assert_eq!(rt; limited.reap_most(1), Ok(Gone::All(1)));
    Ok(())
}

#[test]
fn the_next_time_wait_to_end_is_the_one_closed_first(rt: HostRuntime) -> Result<(), Fail> {
    let (mut limited, listener) = listen_limited(rt.alloc(), 0, 0)?;
    assert_eq!(rt; limited.caller.next_over(), None);
    assert_eq!(rt; leaves_one(&mut limited, listener, 5), true);
    limited.call(&Command::At { moment: 45 });
    assert_eq!(rt; leaves_one(&mut limited, listener, 6), true);
    assert_eq!(rt; limited.caller.next_over(), Some(60));
    limited.call(&Command::At { moment: 60 });
    assert_eq!(rt; count_of(limited.call(&Command::Reap)), 1);
    assert_eq!(rt; limited.caller.next_over(), Some(105));
    limited.call(&Command::At {
        moment: 4_294_967_290,
    });
    assert_eq!(rt; count_of(limited.call(&Command::Reap)), 1);
    assert_eq!(rt; leaves_one(&mut limited, listener, 7), true);
    assert_eq!(rt; limited.caller.next_over(), None);
    Ok(())
}

#[test]
fn a_lookup_begins_no_earlier_than_its_callers_clock(rt: HostRuntime) -> Result<(), Fail> {
    let (_tables, mut caller, mut looker) = open(rt.alloc())?;
    assert_eq!(rt; caller.now(), 0);
    listen_here(&mut caller);
    let clock = caller.now();
    assert_eq!(rt; clock, 2);
    let began = looker.look_after(&PACKET, 1, clock).map(|look| look.t0);
    assert_eq!(rt; began, Some(clock));
    assert_eq!(rt; looker.look_after(&PACKET, 1, clock + 1), None);
    Ok(())
}

#[test]
fn a_batch_of_packets_is_answered_at_their_places(rt: HostRuntime) -> Result<(), Fail> {
    let (_tables, mut caller, mut looker) = open(rt.alloc())?;
    let (listener, _) = listen_here(&mut caller);
    caller.set_mark(7);
    let (child, _) = accept_there(&mut caller, listener);
    let asked = Asking {
        src: THERE.addr,
        dst: HERE.addr,
        sport: THERE.port,
        dport: HERE.port,
        dev: 0,
        net: 0,
    };
    let packets = [
        asked,
        Asking { dport: 81, ..asked },
        Asking { sport: 6, ..asked },
    ];
    let nobody = Sighting {
        kind: 0,
        worker: 0,
        socket: 0,
        mark: 0,
    };
    let mut sightings = [nobody, nobody, nobody];
    looker.sight_all(&packets, 1, caller.now(), &mut sightings);
    let found = Sighting {
        kind: 1,
        worker: 1,
        socket: child,
        mark: 7,
    };
    let by_listener = Sighting {
        kind: 3,
        worker: 1,
        socket: listener,
        mark: 0,
    };
    assert_eq!(rt; sightings, [found, nobody, by_listener]);
    looker.sight_all(&packets, 1, u64::MAX, &mut sightings);
    let again = Sighting { kind: 7, ..nobody };
    assert_eq!(rt; sightings, [again, again, again]);
    Ok(())
}
