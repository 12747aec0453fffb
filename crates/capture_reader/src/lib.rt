//! Packets out of captures: the files that tcpdump, tshark, dumpcap and their kin write,
//! in the format of libpcap or in pcapng.
//!
//! A capture of libpcap's format is a header and records; each record stores the first bytes of a packet. One of
//! pcapng is sections of blocks: a section's first block gives the order of its bytes, others describe its interfaces
//! or store packets of these, and all others are passed over.
//! [`packets`] reads a whole capture of either format, in either order of bytes and with times of any resolution, and
//! judges each stored packet: a TCP packet over IPv4 gives the ends by which its socket is looked up, every other is
//! passed over or too short. Link types are Ethernet, with one tag of a VLAN at most, raw IP and IPv4; packets of an
//! interface of another link type are passed over. Which text is which capture is a grammar, in `specs/Grammar.antt`;
//! the laws in [`law`] say that each text is one at most. What is wrong with the first bytes of a text that is none,
//! [`head_flaw`] says.
//!
//! ```text
//! let capture = packets(alloc, bytes, 0, 0)?;
//! for item in capture.items() {
//!     if let Item::Packet(packet) = item {
//!         let answer = flat.look(packet);
//!     }
//! }
//! ```
#![tactic(auto)]

mod block;
pub mod capture;
mod flaw;
mod header;
pub mod law;
mod number;
mod packet;
mod record;
mod section;

pub use capture::{Capture, CaptureEnd, packets};
pub use flaw::{HeadFlaw, head_flaw};
pub use packet::Item;
