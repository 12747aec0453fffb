//! How a search ends, and what becomes of a connection at one of its ports.

/// How a search ends that finds no port.
#[derive(Clone, Copy, Debug, PartialEq, Eq)]
pub enum SearchEnd {
    /// Every port was refused.
    NoPort,
    /// No slot is free: so many are owned, and so many held by lookups. Only of `connect`.
    Full { owned: u32, held: u32 },
    /// For want of memory.
    Memory,
    /// Another had a bucket's turn for longer than the caller tries. The entries of the ports refused before stay.
    Busy,
}

/// What became of a connection at one port.
#[derive(Clone, Copy, Debug, PartialEq, Eq)]
pub enum Attempt<T> {
    /// It was made, in place of the socket in TIME_WAIT of that name, if there is one.
    Done(T, Option<u64>),
    /// The socket of that name has its four-tuple.
    Taken(u64),
    /// No slot is free: so many are owned, and so many held by lookups.
    Full { owned: u32, held: u32 },
    /// For want of memory.
    Memory,
}
