ghost use Rattle.std.specs.Prelude.{◌≡◌};
ghost use Rattle.flat_list.specs.Connect as connect_spec;
ghost use Rattle.flat_list.specs.Step as spec;

use crate::command::End;
use crate::owned::{self, Options};
use sock_card::{Owner, as_listener, as_waiting};

/// A socket of the flat list: its owner, the moment at which it was closed, 0 while it is open, and
/// whether a label still names it.
#[derive(Clone, Copy, Debug, PartialEq, Eq)]
pub struct Socket {
    pub owner: Owner,
    pub stamp: u32,
    pub named: bool,
}

/// The socket that `socket` makes.
pub fn new_socket(name: u64, options: Options) -> Socket
    ensures { result ≡ spec.new_socket name options }
{
    Socket {
        owner: owned::new_owner(name, 0, options),
        stamp: 0,
        named: true,
    }
}

/// The socket, bound to that address, with its port still to be taken.
pub fn at_address(socket: Socket, addr: u32) -> Socket
    ensures { result ≡ spec.at_address socket addr }
{
    Socket {
        owner: owned::addressed(socket.owner, addr),
        ..socket
    }
}

/// The socket, bound to that end.
pub fn at_end(socket: Socket, end: End) -> Socket
    ensures { result ≡ spec.at_end socket end }
{
    Socket {
        owner: owned::bound_at(socket.owner, end.addr, end.port),
        ..socket
    }
}

/// The socket, bound to that address and a port that was found.
pub fn at_port(socket: Socket, addr: u32, port: u16) -> Socket
    ensures { result ≡ spec.at_port socket addr port }
{
    at_end(socket, End { addr, port })
}

/// The socket, listening from then on.
pub fn listening(socket: Socket) -> Socket
    ensures { result ≡ spec.listening socket }
{
    Socket {
        owner: as_listener(socket.owner),
        ..socket
    }
}

/// The socket, connected from that source to that end.
pub fn connected(socket: Socket, source: u32, to: End) -> Socket
    ensures { result ≡ connect_spec.connected_socket socket source to }
{
    Socket {
        owner: owned::connected_to(socket.owner, source, to),
        ..socket
    }
}

/// The socket, connected from that source and a port that `connect` chose to that end.
pub fn connected_by_search(socket: Socket, source: u32, to: End, port: u16) -> Socket
    ensures { result ≡ connect_spec.connected_by_search socket source to port }
{
    Socket {
        owner: owned::connected_at(socket.owner, source, port, to),
        ..socket
    }
}

/// The socket of that name which a listener accepts from one end at another.
pub fn child_of(listener: Socket, name: u64, from: End, at: End) -> Socket
    ensures { result ≡ connect_spec.child_of listener name from at }
{
    Socket {
        owner: owned::child_owner(listener.owner, name, 0, from, at),
        stamp: 0,
        named: true,
    }
}

/// The request of that name for a handshake with a listener from one end at another.
pub fn request_of(listener: Socket, name: u64, from: End, at: End) -> Socket
    ensures { result ≡ connect_spec.request_of listener name from at }
{
    Socket {
        owner: owned::request_owner(listener.owner, name, 0, from, at),
        stamp: 0,
        named: true,
    }
}

/// The socket of that name which a request's listener accepts when its handshake is over.
pub fn heir_of(listener: Socket, name: u64, request: &Socket) -> Socket
    ensures { result ≡ connect_spec.heir_of listener name request.now }
{
    Socket {
        owner: owned::heir_owner(listener.owner, name, 0, &request.owner),
        stamp: 0,
        named: true,
    }
}

/// The socket, closed at that moment and in TIME_WAIT from then on; no label names it any more.
pub fn waiting(socket: Socket, moment: u32) -> Socket
    ensures { result ≡ spec.waiting socket moment }
{
    Socket {
        owner: as_waiting(socket.owner),
        stamp: moment,
        named: false,
    }
}

/// A socket's own end.
pub fn end_of(socket: &Socket) -> End
    ensures { result ≡ connect_spec.end_of socket.now }
{
    End {
        addr: socket.owner.addr,
        port: socket.owner.port,
    }
}
