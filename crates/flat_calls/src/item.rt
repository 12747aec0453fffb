//! What a list says of a socket.

/// A socket that lookups find: what it is (1 connected, 2 in TIME_WAIT, 3 a listener, 4 a request), by which numbers it
/// goes, its own end and the other's (0.0.0.0:0 for a listener), its device (0 for none) and its network namespace.
#[repr(C)]
#[derive(Clone, Copy, Debug, PartialEq, Eq)]
pub struct Item {
    pub kind: u32,
    pub worker: u32,
    pub socket: u64,
    pub addr: u32,
    pub peer_addr: u32,
    pub port: u16,
    pub peer_port: u16,
    pub dev: u16,
    pub net: u8,
}
