//! What becomes of an owner in its place.

ghost use Rattle.std.specs.Prelude.{◌≡◌};
ghost use Rattle.bind_buckets.specs.Change.{becomes};

use sock_card::{Owner, as_listener, as_waiting, connected};

/// What an owner does that keeps its place.
#[derive(Clone, Copy)]
pub enum Change {
    /// It connects from `local` to the other end.
    Connects { local: u32, remote: u32, rport: u16 },
    /// It listens.
    Listens,
    /// Its socket is closed, and it waits in TIME_WAIT.
    Waits,
}

impl Change {
    /// The owner, once it has done that.
    pub fn of(self, owner: Owner) -> Owner
        ensures { result ≡ becomes self owner }
    {
        match self {
            Change::Connects {
                local,
                remote,
                rport,
            } => connected(owner, local, remote, rport),
            Change::Listens => as_listener(owner),
            Change::Waits => as_waiting(owner),
        }
    }
}
