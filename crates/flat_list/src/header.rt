use chain_book::Shape;

/// How many ports can be reserved.
pub const RESERVED_ROOM: usize = 64;

/// Ports that are kept from searches: the first `count` of these.
#[derive(Clone, Copy, Debug, PartialEq, Eq)]
pub struct Reserved {
    pub ports: [u16; RESERVED_ROOM],
    pub count: u8,
}

/// No port is kept from searches.
pub const NONE_RESERVED: Reserved = Reserved {
    ports: [0; RESERVED_ROOM],
    count: 0,
};

/// The ports that a search tries: those from `low` to `high`, both among them, an even number, but the reserved ones.
#[derive(Clone, Copy, Debug, PartialEq, Eq)]
pub struct Range {
    pub low: u16,
    pub high: u16,
    pub reserved: Reserved,
}

/// Which ports of a range a search tries first: those at odd distances from its lowest port, or
/// those at even ones.
#[derive(Clone, Copy, Debug, PartialEq, Eq)]
pub enum First {
    /// At odd distances from the lowest port.
    Odd,
    /// At even ones.
    Even,
}

/// What a script says before its first section.
///
/// `offset` is where each search begins in the range. Without it each section draws its own offsets,
/// from a generator that starts from `seed` and the section's number. `twreuse` lets `connect` take
/// the place of a TIME_WAIT whose stamp lies before the moment (tcp_tw_reuse of tcp(7)).
#[derive(Clone, Copy, Debug, PartialEq, Eq)]
pub struct Header {
    pub shape: Shape,
    pub range: Range,
    pub seed: u32,
    pub offset: Option<u16>,
    pub twreuse: bool,
}
