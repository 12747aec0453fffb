//! One connection, from the listener to its TIME_WAIT, with what each call reports.

use crate::commands;
use crate::outcome::{Outcome, count_of, end_of, errno_of, leaves_time_wait};
use crate::sight::Sight;
use crate::tables::Tables;
use flat_list::header::NONE_RESERVED;
use flat_list::{Command, End, Header, Options, Range, Shape};
use sock_card::Packet;
use std::test::Fail;

const HEADER: Header = Header {
    shape: Shape {
        slots: 4,
        bind: 16,
        hash: 16,
        listen: 4,
    },
    range: Range {
        low: 32768,
        high: 60999,
        reserved: NONE_RESERVED,
    },
    seed: 7,
    offset: None,
    twreuse: false,
};

const PLAIN: Options = Options {
    net: None,
    uid: None,
    dev: None,
    reuseaddr: false,
    reuseport: false,
    noport: false,
};

const HERE: End = End {
    addr: 0x0A00_0001,
    port: 80,
};

const THERE: End = End {
    addr: 0x0A00_0002,
    port: 5,
};

const PACKET: Packet = Packet {
    src: THERE.addr,
    sport: THERE.port,
    dst: HERE.addr,
    dport: HERE.port,
    dev: 0,
    net: 0,
};

/// Worker 2's listener, with its number.
fn listen_here(tables: &mut Tables) -> (u64, Outcome) {
    let number = tables.next_number();
    tables.call(2, &commands::socket(number, PLAIN));
    tables.call(2, &commands::bind(number, HERE));
    (number, tables.call(2, &commands::listen(number)))
}

/// Worker 2's connection of that listener, with its number.
fn accept_there(tables: &mut Tables, listener: u64) -> (u64, Outcome) {
    let number = tables.next_number();
    let accepted = tables.call(2, &commands::accept(listener, number, THERE, HERE));
    (number, accepted)
}

#[test]
fn a_connection_is_found_by_its_numbers_closed_and_reaped(rt: HostRuntime) -> Result<(), Fail> {
    let mut tables = Tables::new(rt.alloc(), &HEADER);
    let (listener, listening) = listen_here(&mut tables);
    assert_eq!(rt; end_of(listening).port, 80);
    let (child, accepted) = accept_there(&mut tables, listener);
    assert_eq!(rt; errno_of(accepted), 0);
    let sight = Sight {
        kind: 1,
        worker: 2,
        socket: child,
    };
    assert_eq!(rt; tables.look(&PACKET), Some(sight));
    let closed = tables.call(2, &commands::close(child));
    assert_eq!(rt; leaves_time_wait(closed), true);
    let listed: Vec<(u32, u64)> = tables
        .list(rt.alloc())?
        .iter()
        .map(|i| (i.kind, i.socket))
        .collect(rt.alloc())?;
    let wanted = [(3, listener), (2, child)];
    assert_eq!(rt; listed.as_slice(), wanted.as_slice());
    tables.call(2, &Command::At { moment: 60 });
    assert_eq!(rt; count_of(tables.call(2, &Command::Reap)), 1);
    let sight = Sight {
        kind: 3,
        worker: 2,
        socket: listener,
    };
    assert_eq!(rt; tables.look(&PACKET), Some(sight));
    Ok(())
}

#[test]
fn a_request_is_found_until_its_handshake_is_over(rt: HostRuntime) -> Result<(), Fail> {
    let mut tables = Tables::new(rt.alloc(), &HEADER);
    let (listener, _) = listen_here(&mut tables);
    let request = tables.next_number();
    let begun = tables.call(2, &commands::syn(listener, request, THERE, HERE));
    assert_eq!(rt; errno_of(begun), 0);
    let sight = Sight {
        kind: 4,
        worker: 2,
        socket: request,
    };
    assert_eq!(rt; tables.look(&PACKET), Some(sight));
    let child = tables.next_number();
    assert_eq!(rt; errno_of(tables.call(2, &commands::ack(request, child))), 0);
    let sight = Sight {
        kind: 1,
        worker: 2,
        socket: child,
    };
    assert_eq!(rt; tables.look(&PACKET), Some(sight));
    let again = tables.next_number();
    assert_eq!(rt; errno_of(tables.call(2, &commands::ack(request, again))), 9);
    Ok(())
}

#[test]
fn refusals_have_their_errnos(rt: HostRuntime) -> Result<(), Fail> {
    let mut tables = Tables::new(rt.alloc(), &HEADER);
    let (listener, _) = listen_here(&mut tables);
    let number = tables.next_number();
    tables.call(1, &commands::socket(number, PLAIN));
    assert_eq!(rt; errno_of(tables.call(1, &commands::bind(number, HERE))), 98);
    assert_eq!(rt; errno_of(tables.call(1, &commands::close(listener))), 9);
    assert_eq!(rt;
        errno_of(tables.call(65, &commands::drop_socket(listener))),
        22
    );
    accept_there(&mut tables, listener);
    let (_, again) = accept_there(&mut tables, listener);
    assert_eq!(rt; errno_of(again), 99);
    Ok(())
}
