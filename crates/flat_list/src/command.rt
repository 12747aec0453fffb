ghost use Rattle.std.specs.Prelude.{◌≡◌, ◌<◌, ◌≤◌, ◌+◌, length, take, drop, bytes_eq, IfNone, IfSome};
ghost use Rattle.std.specs.Int.{w64, to_be_bytes, from_be_bytes};
ghost use Rattle.flat_list.specs.Labels.{key_of, text_of};
ghost use Rattle.flat_list.specs.Padded as spec;

use crate::owned::Options;
use sock_card::Card;
use std::marker::Model;

/// A socket's label in a script, of at most 16 bytes.
#[derive(Clone, Copy, Debug)]
pub struct Label {
    /// The label, and zeros behind it.
    bytes: [u8; 16],
    /// How many bytes are the label's.
    used: u8,
}

impl Model for Label {
    ghost use Rattle.std.specs.Prelude.{List, ℕ, ◌≡◌, ◌≤◌, length, take};
    ghost use Rattle.flat_list.specs.Padded.{padded, bytes_back, length_back};

    ghost Value = { List ℕ };

    ghost view = { λ l. take l.used l.bytes };

    ghost invariant = { λ l. (l.used ≤ 16) × (l.bytes ≡ padded (take l.used l.bytes)) };

    ghost inverse = { λ text. record { bytes = padded text; used = length text } };

    ghost inverse_ok = { λ l h i. record
        { bytes = bytes_back l.bytes l.used h i; used = length_back l.bytes l.used h i } };
}

/// A label as numbers, which compare and hash faster than bytes.
#[derive(Clone, Copy, Debug, PartialEq, Eq, Hash)]
pub struct LabelKey {
    /// The first eight bytes, the first of them highest.
    high: u64,
    /// The other eight.
    low: u64,
    length: usize,
}

/// The eight bytes from that place on as a number, the first of them highest.
fn number_at(bytes: &[u8], place: usize) -> u64
    requires { place + 8 ≤ length bytes.now }
    ensures number { result ≡ from_be_bytes w64 (take 8 (drop place bytes.now)) }
    ensures bytes { to_be_bytes w64 result ≡ take 8 (drop place bytes.now) }
{
    u64::from_be_bytes([
        bytes[place],
        bytes[place + 1],
        bytes[place + 2],
        bytes[place + 3],
        bytes[place + 4],
        bytes[place + 5],
        bytes[place + 6],
        bytes[place + 7],
    ])
}

impl Label {
    /// The label of these bytes, unless they are more than 16.
    pub fn from_bytes(bytes: &[u8]) -> Option<Self>
        ensures some { IfSome result (λ label. label ≡ bytes.now) }
        ensures none { IfNone result (16 < length bytes.now) }
    {
        if bytes.len() > 16 {
            return None;
        }
        let mut padded = [0; 16];
        padded[..bytes.len()].copy_from_slice(bytes);
        Some(Label {
            bytes: padded,
            used: bytes.len() as u8,
        })
    }

    /// The label's bytes.
    pub fn as_bytes(&self) -> &[u8]
        ensures { result.now ≡ self.now }
    {
        &self.bytes[..self.used as usize]
    }

    /// The label, and zeros behind it.
    pub(crate) fn padded(&self) -> &[u8; 16]
        ensures { result.now ≡ spec.padded self.now }
    {
        &self.bytes
    }

    /// The label that so many of these bytes are, with zeros behind it.
    pub(crate) fn from_padded(bytes: [u8; 16], used: u8) -> Self
        requires few { used ≤ 16 }
        requires padded { bytes ≡ spec.padded (take used bytes) }
        ensures { result ≡ take used bytes }
    {
        Label { bytes, used }
    }

    /// The label as numbers. Two labels have the same ones exactly where they have the same bytes.
    #[tactic(auto, unfolding(crate::specs::Labels::key_of))]
    pub fn key(&self) -> LabelKey
        ensures key { result ≡ key_of self.now }
        ensures text { text_of result ≡ self.now }
    {
        LabelKey {
            high: number_at(&self.bytes, 0),
            low: number_at(&self.bytes, 8),
            length: self.used as usize,
        }
    }

    /// Whether the two labels have the same bytes.
    pub fn is(&self, other: &Label) -> bool
        ensures { result ≡ bytes_eq self.now other.now }
    {
        self.as_bytes() == other.as_bytes()
    }
}

/// An address and a port, as numbers: 10.0.0.1 is 0x0A00_0001.
#[derive(Clone, Copy, Debug, PartialEq, Eq)]
pub struct End {
    pub addr: u32,
    pub port: u16,
}

/// What `look` asks for: a packet from one end to another, that came in at a device and in a namespace.
#[derive(Clone, Copy, Debug, PartialEq, Eq)]
pub struct Query {
    pub from: End,
    pub to: End,
    pub dev: Option<u16>,
    pub net: Option<u8>,
}

/// A command of a script, with its words. An optional word that isn't there is `None`.
#[derive(Debug, Drop)]
pub enum Command {
    /// Makes a socket, and gives it a label.
    Socket {
        label: Label,
        options: Options,
    },
    /// Binds a socket to an end; at port 0, to a port that is searched for, or with `noport` to the
    /// address alone.
    Bind {
        label: Label,
        end: End,
    },
    /// Makes a socket a listener; one that has no port is bound first, to its address, or 0.0.0.0, and
    /// a port that is searched for.
    Listen {
        label: Label,
    },
    /// Connects a socket to an end; `from` names its source where its address doesn't, and one that
    /// has no port gets one that is searched for.
    Connect {
        label: Label,
        from: Option<u32>,
        to: End,
    },
    /// Makes a full socket of a listener's, connected from one end at another, and gives it a label.
    Accept {
        listener: Label,
        label: Label,
        from: End,
        at: End,
    },
    /// Begins a handshake with a listener, from one end at another: makes a request, and gives it a label.
    Syn {
        listener: Label,
        label: Label,
        from: End,
        at: End,
    },
    /// Ends a request's handshake: makes a full socket of its listener's in its place, and gives it a label.
    Ack {
        request: Label,
        label: Label,
    },
    /// Closes a socket: a full one leaves a TIME_WAIT, where a slot is free for that.
    Close {
        label: Label,
    },
    /// Removes a socket.
    Drop {
        label: Label,
    },
    /// Sets the section's moment, in seconds; it never goes back.
    At {
        moment: u32,
    },
    /// Removes the section's sockets in TIME_WAIT that have lasted their minute.
    Reap,
    /// Asks which socket a packet finds that goes from one end to another.
    Look {
        query: Query,
    },
    /// Looks up the next packets of the capture, so many or those that are left.
    Packets {
        count: u32,
    },
    /// Lists all sockets that lookups find.
    Dump,
}

/// What a command answers. Refusals have the names of errno(3).
#[derive(Clone, Copy, Debug, PartialEq, Eq)]
pub enum Reply {
    /// Done, and there is no more to say.
    Ok,
    /// Done, and the socket has this port; 0 where it takes one later.
    Port(u16),
    /// Done, and the socket has this end.
    End(End),
    /// Done, and a TIME_WAIT stays.
    TimeWait,
    /// Done, and no TIME_WAIT stays, since no slot is free: so many are owned, and so many only held by
    /// a lookup.
    NoSlot { owned: u32, held: u32 },
    /// Done, to so many sockets.
    Count(u64),
    /// The card of the socket that a packet finds, if there is one.
    Found(Option<Card>),
    /// A stored packet that isn't looked up, since it is of another kind.
    Skip,
    /// A stored packet of which too few bytes are there to decide.
    Short,
    /// The label names no open socket of the section.
    Ebadf,
    /// The socket's state, or an end, doesn't fit the command.
    Einval,
    /// The socket listens or is connected.
    Eisconn,
    /// Another owner of the port stands in the way, or of each port that was searched.
    Eaddrinuse,
    /// Another full socket or a request has the four-tuple, or no port that was searched can be had.
    Eaddrnotavail,
    /// The socket's group has all its members, or the bucket of its port and namespace all its groups.
    Emfile,
    /// No slot is free: so many are owned, and so many only held by a lookup.
    Enfile { owned: u32, held: u32 },
}
