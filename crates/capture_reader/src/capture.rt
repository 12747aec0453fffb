ghost use Rattle.std.specs.Prelude.{◌≡◌, ◌≢◌, ◌↔◌, List, [], IfOk};
ghost use Rattle.capture_reader.specs.Header.{HasHeader};
ghost use Rattle.capture_reader.specs.Sections.{begun};
ghost use Rattle.capture_reader.specs.Blocks.{AreBlocks, items_of};
ghost use Rattle.capture_reader.specs.Captures.{Capture as Contents};
ghost use Rattle.capture_reader.specs.Grammar.{AreRecords, IsCapture, nothing};

use crate::block::{Block, next_block, next_section};
use crate::header::{FILE_HEADER, Header, header_of};
use crate::number::Order;
use crate::packet::{Item, item_of};
use crate::record::next_record;
use crate::section::Section;
use std::alloc::{AllocError, Global};
use std::marker::Model;

/// The packets of a capture, in their order.
#[derive(Debug, Drop)]
pub struct Capture {
    items: Vec<Item>,
    cut: bool,
}

impl Model for Capture {
    ghost use Rattle.capture_reader.specs.Captures.{Capture as Contents};

    ghost Value = { Contents };

    ghost view = { λ c. record { items = c.items.items; cut = c.cut } };
}

impl Capture {
    /// A capture without items. Takes no memory.
    pub fn new(alloc: Global) -> Self
        ensures { result ≡ nothing }
    {
        Capture {
            items: Vec::new(alloc),
            cut: false,
        }
    }

    /// An item for each packet that is stored whole.
    pub fn items(&self) -> &[Item]
        ensures { result.now ≡ self.now.items }
    {
        &self.items
    }

    /// Whether bytes follow that are no whole record, or no valid block; they have no item.
    pub fn is_cut(&self) -> bool
        ensures { result ≡ self.now.cut }
    {
        self.cut
    }
}

/// Why bytes are no capture.
#[derive(Clone, Copy, Debug, PartialEq, Eq)]
pub enum CaptureEnd {
    /// They aren't empty, and don't begin with a header that is read.
    BadHead,
    /// There is no memory for the items.
    Memory,
}

impl From<AllocError> for CaptureEnd {
    ghost use Rattle.std.specs.Prelude.{◌≡◌};
    ghost use Rattle.capture_reader.specs.declared.capture.CaptureEnd.TheVariants.{Memory};

    ghost from_gives = { λ _ e. e ≡ Memory };

    fn from(_: AllocError) -> Self {
        CaptureEnd::Memory
    }
}

/// The room that is made for the items of so many bytes, before the first is read: as many as have 40 bytes, the
/// shortest record or packet block of an IP packet with ports. Only a capture of shorter packets needs more.
fn room_for(length: usize) -> usize {
    length / 40
}

/// Reads the records after a header, to the end of the bytes.
fn read_records(
    alloc: Global,
    header: Header,
    bytes: &[u8],
    dev: u16,
    net: u8,
) -> Result<Capture, AllocError>
    ensures { IfOk result (λ capture. AreRecords header dev net bytes.now capture.items capture.cut) }
{
    let mut items = Vec::with_capacity(alloc, room_for(bytes.len()))?;
    let mut rest = bytes;
    while let Some((stored, after)) = next_record(header.order, rest) {
        items.push(item_of(header.link, dev, net, stored))?;
        rest = after;
    }
    let cut = !rest.is_empty();
    Ok(Capture { items, cut })
}

/// Reads the blocks after the one that begins a section, to the first that isn't valid or to the end of the bytes.
fn read_blocks(
    alloc: Global,
    order: Order,
    bytes: &[u8],
    dev: u16,
    net: u8,
) -> Result<Capture, AllocError>
    ensures { IfOk result (λ capture. (blocks : List Block)
        × AreBlocks dev net (begun order) bytes.now blocks capture.cut × (capture.items ≡ items_of blocks)) }
{
    let mut items = Vec::with_capacity(alloc, room_for(bytes.len()))?;
    let mut section = Section::new(alloc, order);
    let mut rest = bytes;
    while let Some((block, after)) = next_block(&section, dev, net, rest) {
        match block {
            Block::Section(order) => section.begin(order),
            Block::Interface(link) => section.add(link)?,
            Block::Packet(item) => items.push(item)?,
            Block::Other => {}
        }
        rest = after;
    }
    let cut = !rest.is_empty();
    Ok(Capture { items, cut })
}

/// Reads a capture in either format: what it says of each packet, all of which came in by that device, 0 where none
/// is given, and in that network namespace.
///
/// No bytes are a capture without items. Times, how long a packet was on the wire, and options aren't read; a packet
/// of an interface whose link type isn't read is passed over. Takes memory for the items, at once for one in each 40
/// bytes, and for the interfaces of one section; the time is about that of one look at each record or block.
pub fn packets(alloc: Global, bytes: &[u8], dev: u16, net: u8) -> Result<Capture, CaptureEnd>
    ensures capture { IfOk result (IsCapture dev net bytes.now) }
    ensures only { (capture : Contents) → IsCapture dev net bytes.now capture → IfOk result (λ found. found ≡ capture) }
    // So BadHead comes for each text that is no capture, and for no other.
    ensures bad_head { (result ≡ Err CaptureEnd.BadHead) ↔ ((bytes.now ≢ []) × ¬ HasHeader bytes.now) }
{
    if bytes.is_empty() {
        return Ok(Capture::new(alloc));
    }
    if let Some(header) = header_of(bytes) {
        return Ok(read_records(alloc, header, &bytes[FILE_HEADER..], dev, net)?);
    }
    let Some((order, rest)) = next_section(bytes) else {
        return Err(CaptureEnd::BadHead);
    };
    Ok(read_blocks(alloc, order, rest, dev, net)?)
}
