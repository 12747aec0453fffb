//! What a bucket is asked, what it answers, and how both stand in its journal.

use sock_card::Owner;

/// A call on a bucket, as its journal keeps it.
///
/// `Bind`, `BindAuto` and `ConnectAuto` bring an owner, and `Free` speaks of all owners of a port in a namespace.
/// `RemoveWaiting` speaks of the first owner of a name that is in TIME_WAIT, the others of the first
/// owner of a name.
///
/// `local` is an address of the socket's own end, `remote` and `rport` are the other's.
#[derive(Clone, Copy, Debug, PartialEq, Eq)]
pub enum Request {
    /// Takes in a newcomer, unless an owner keeps it from its port.
    Bind(Owner),
    /// Takes in a newcomer whose port is searched for, unless an owner overlaps it.
    BindAuto(Owner),
    /// Whether the socket may listen, and in which group.
    MayListen {
        name: u64,
    },
    /// Lets the socket listen; with `reuseport` it joins its group as a member with that slot.
    Listen {
        name: u64,
        slot: u32,
    },
    /// Whether `connect` may choose the port.
    Free {
        port: u16,
        net: u8,
    },
    /// Takes in a newcomer for which `connect` chose its port.
    ConnectAuto(Owner),
    /// Connects a socket that is bound.
    ConnectBound {
        name: u64,
        local: u32,
        remote: u32,
        rport: u16,
    },
    /// Takes in the socket of that name and that mark, which the listener `parent` accepted.
    Inherit {
        parent: u64,
        name: u64,
        mark: u32,
        local: u32,
        remote: u32,
        rport: u16,
    },
    /// Puts an owner into TIME_WAIT.
    ToTimeWait {
        name: u64,
    },
    /// Takes an owner out, and the member of its name from its group.
    Remove {
        name: u64,
    },
    /// Takes out an owner that is in TIME_WAIT.
    RemoveWaiting {
        name: u64,
    },
}

/// What a request is answered.
#[derive(Clone, Copy, Debug, PartialEq, Eq)]
pub enum Answer {
    /// It was carried out.
    Done,
    /// The socket may listen, in the group of that number or in none.
    Group(Option<u32>),
    /// The owner of that name refuses it.
    InUse(u64),
    /// The group has no room for one more.
    GroupFull,
    /// The bucket has a group at each of its places.
    GroupsFull,
    /// No owner has that name; of `RemoveWaiting`, none in TIME_WAIT.
    Strange(u64),
    /// The owner of that name has the port in the namespace, and `connect` didn't choose it.
    NotFree(u64),
}

/// A request and its answer.
#[derive(Clone, Copy, Debug, PartialEq, Eq)]
pub struct Entry {
    pub request: Request,
    pub answer: Answer,
}

/// What distinguishes a note from all others: its number, and whose call it was.
#[derive(Clone, Copy, Debug, PartialEq, Eq)]
pub struct Mark {
    pub number: u64,
    pub caller: u32,
}

/// Who asks the buckets of a table.
#[derive(Clone, Copy, Debug, PartialEq, Eq)]
pub enum Sharing {
    /// The first pass alone, for all scripts.
    Alone,
    /// Passes that were split off, each for the script of its number; the first asks nothing.
    Shared,
}

/// The owner of that name keeps another from the port.
#[derive(Clone, Copy, Debug, PartialEq, Eq)]
pub struct InUse(pub u64);

/// No owner has that name.
#[derive(Clone, Copy, Debug, PartialEq, Eq)]
pub struct Strange(pub u64);

/// The owner of that name keeps `connect` from its port.
#[derive(Clone, Copy, Debug, PartialEq, Eq)]
pub struct NotFree(pub u64);

/// Why a socket can't listen.
#[derive(Clone, Copy, Debug, PartialEq, Eq)]
pub enum ListenEnd {
    /// The owner of that name keeps it from the port.
    InUse(u64),
    /// Its group has no room for one more.
    GroupFull,
    /// It needs a group of its own, and the bucket has one at each of its places.
    GroupsFull,
    /// No owner has that name.
    Strange(u64),
}
