//! Sockets, with a type for each state.

ghost use Rattle.std.specs.Prelude.{◌≡◌};
ghost use Rattle.flat_list.specs.Owned.{addressed, new_owner};
ghost use Rattle.table_model.specs.Operations.{plain};
ghost use Rattle.sock_ops.specs.Socks.{mine_of, FitsState, full_at, request_at, listening_at, end_of};

use chain_book::Place;
use flat_list::{End, Options, owned};
use sock_card::{Owner, State};
use std::marker::Model;

/// What a socket to come gets of its caller: its name, and its mark.
#[derive(Clone, Copy, Debug, PartialEq, Eq)]
pub struct Newcomer {
    pub name: u64,
    pub mark: u32,
}

/// A socket without a port; it may have an address.
#[derive(Debug, Drop)]
pub struct Unbound {
    pub(crate) owner: Owner,
}

impl Model for Unbound {
    ghost use Rattle.std.specs.Prelude.{◌≡◌};
    ghost use Rattle.sock_card.specs.declared.owner.State.TheVariants as states;
    ghost use Rattle.table_model.specs.Own.{Mine};
    ghost use Rattle.table_model.specs.Operations.{plain};

    ghost Value = { Mine };

    ghost view = { λ s. plain s.owner };

    ghost invariant = { λ s. s.owner.state ≡ states.Unbound };
}

impl Unbound {
    /// A new socket of that name, with that mark. It takes no memory.
    pub fn new(newcomer: Newcomer, options: Options) -> Self
        ensures { result ≡ plain (new_owner newcomer.name newcomer.mark options) }
    {
        Unbound {
            owner: owned::new_owner(newcomer.name, newcomer.mark, options),
        }
    }

    /// The socket, bound to that address, with its port still to be taken.
    pub(crate) fn at_address(self, addr: u32) -> Self
        ensures { result ≡ plain (addressed self.owner addr) }
    {
        Unbound {
            owner: owned::addressed(self.owner, addr),
        }
    }
}

/// A socket that is bound, and neither listens nor is connected.
#[derive(Debug, Drop)]
pub struct Bound {
    pub(crate) owner: Owner,
}

impl Model for Bound {
    ghost use Rattle.std.specs.Prelude.{◌≡◌};
    ghost use Rattle.sock_card.specs.declared.owner.State.TheVariants as states;
    ghost use Rattle.table_model.specs.Own.{Mine};
    ghost use Rattle.table_model.specs.Operations.{plain};

    ghost Value = { Mine };

    ghost view = { λ s. plain s.owner };

    ghost invariant = { λ s. s.owner.state ≡ states.Bound };
}

impl Bound {
    pub(crate) fn new(owner: Owner) -> Self
        requires { owner.state ≡ State.Bound }
        ensures { result ≡ plain owner }
    {
        Bound { owner }
    }
}

/// A listener: its group and 1, or 0 where it is in none, and where it is hashed.
#[derive(Debug, Drop)]
pub struct Listening {
    pub(crate) owner: Owner,
    pub(crate) extra: u32,
    pub(crate) place: Place,
}

impl Model for Listening {
    ghost use Rattle.std.specs.Prelude.{◌≡◌};
    ghost use Rattle.sock_card.specs.declared.owner.State.TheVariants as states;
    ghost use Rattle.table_model.specs.Own.{Mine};

    ghost Value = { Mine };

    ghost view = { λ s. record { owner = s.owner; extra = s.extra; place = s.place } };

    ghost invariant = { λ s. s.owner.state ≡ states.Listening };
}

/// A connected socket, and where it is hashed.
#[derive(Debug, Drop)]
pub struct Connected {
    pub(crate) owner: Owner,
    pub(crate) place: Place,
}

impl Model for Connected {
    ghost use Rattle.std.specs.Prelude.{◌≡◌};
    ghost use Rattle.sock_card.specs.declared.owner.State.TheVariants as states;
    ghost use Rattle.table_model.specs.Own.{Mine};

    ghost Value = { Mine };

    ghost view = { λ s. record { owner = s.owner; extra = 0; place = s.place } };

    ghost invariant = { λ s. s.owner.state ≡ states.Full };
}

/// A request, which stands for a listener's handshake until that is over, and where it is hashed.
#[derive(Debug, Drop)]
pub struct Request {
    pub(crate) owner: Owner,
    pub(crate) place: Place,
}

impl Model for Request {
    ghost use Rattle.std.specs.Prelude.{◌≡◌};
    ghost use Rattle.sock_card.specs.declared.owner.State.TheVariants as states;
    ghost use Rattle.table_model.specs.Own.{Mine};

    ghost Value = { Mine };

    ghost view = { λ s. record { owner = s.owner; extra = 0; place = s.place } };

    ghost invariant = { λ s. s.owner.state ≡ states.Request };
}

impl Request {
    /// The request of that owner, hashed at that place.
    pub(crate) fn at_place(owner: Owner, place: Place) -> Self
        requires { owner.state ≡ State.Request }
        ensures { result ≡ request_at owner place }
    {
        Request { owner, place }
    }
}

impl Connected {
    /// The full socket of that owner, hashed at that place.
    pub(crate) fn at_place(owner: Owner, place: Place) -> Self
        requires { owner.state ≡ State.Full }
        ensures { result ≡ full_at owner place }
    {
        Connected { owner, place }
    }

    /// Its own end.
    pub(crate) fn end(&self) -> End
        ensures { result ≡ end_of self.now }
    {
        End {
            addr: self.owner.addr,
            port: self.owner.port,
        }
    }
}

impl Listening {
    /// The listener of that owner, with its group and 1, hashed at that place.
    pub(crate) fn at_place(owner: Owner, extra: u32, place: Place) -> Self
        requires { owner.state ≡ State.Listening }
        ensures { result ≡ listening_at owner extra place }
    {
        Listening {
            owner,
            extra,
            place,
        }
    }

    /// The port at which it listens.
    pub(crate) fn port(&self) -> u16
        ensures { result ≡ self.now.owner.port }
    {
        self.owner.port
    }
}

/// An open socket.
#[derive(Debug, Drop)]
pub enum Sock {
    Unbound(Unbound),
    Bound(Bound),
    Listening(Listening),
    /// It is connected.
    Full(Connected),
    /// It stands for a listener's handshake until that is over.
    Request(Request),
}

impl Sock {
    /// What the bind buckets know of it, once it has a port.
    pub fn owner(&self) -> &Owner
        ensures owner { result.now ≡ (mine_of self.now).owner }
        ensures state { FitsState self.now }
    {
        match self {
            Sock::Unbound(s) => &s.owner,
            Sock::Bound(s) => &s.owner,
            Sock::Listening(s) => &s.owner,
            Sock::Full(s) => &s.owner,
            Sock::Request(s) => &s.owner,
        }
    }
}
