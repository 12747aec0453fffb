ghost use Rattle.std.specs.Prelude.{◌≡◌, ◌≤◌, ◌⊎◌, [], length, IfSome, IfNone};
ghost use Rattle.capture_reader.specs.Flaws as spec;
ghost use Rattle.capture_reader.specs.Flaws.{IsBadHead};
ghost use Rattle.capture_reader.specs.Header.{HasHeader};

use crate::block::next_section;
use crate::header::{FILE_HEADER, header_of};
use crate::number::{Order, u16_at, u32_at};

/// Why bytes begin with no header that is read.
#[derive(Clone, Copy, Debug, PartialEq, Eq)]
pub enum HeadFlaw {
    /// They are fewer than the four of a magic number.
    Short,
    /// They begin with the end of a line.
    BlankLine,
    /// They begin as gzip, zstd or LZ4 lets a file begin.
    Compressed,
    /// They begin with the magic number of a variant of libpcap's format.
    Variant,
    /// They begin with the magic number of neither format.
    Magic,
    /// They are libpcap's by their magic number, and fewer than the 24 of its header.
    CutHeader,
    /// So is theirs, and their version is that in place of 2.4.
    Version { major: u16, minor: u16 },
    /// So is theirs, and their link type is that, which isn't read.
    LinkType(u32),
    /// They are pcapng's by their first four, and fewer than the 28 of a section's first block.
    CutSection,
    /// They have no mark of the order of bytes.
    Mark,
    /// The section's major version is that in place of 1.
    SectionVersion(u16),
    /// The section's first block states that length, and isn't whole: it has fewer bytes, or another length at its
    /// end, or one that isn't a multiple of four or less than 28.
    SectionLength(u32),
}

/// The fewest bytes of a block that begins a section.
const SECTION: usize = 28;

fn has_magic(order: Order, bytes: &[u8]) -> bool
    requires { 4 ≤ length bytes.now }
    ensures { result ≡ spec.has_magic order bytes.now }
{
    let number = u32_at(order, bytes, 0);
    number == 0xa1b2_c3d4 || number == 0xa1b2_3c4d
}

fn has_variant(order: Order, bytes: &[u8]) -> bool
    requires { 4 ≤ length bytes.now }
    ensures { result ≡ spec.has_variant order bytes.now }
{
    u32_at(order, bytes, 0) == 0xa1b2_cd34
}

fn is_compressed(bytes: &[u8]) -> bool
    requires { 4 ≤ length bytes.now }
    ensures { result ≡ spec.is_compressed bytes.now }
{
    let number = u32_at(Order::Little, bytes, 0);
    u16_at(Order::Big, bytes, 0) == 0x1f8b || number == 0xfd2f_b528 || number == 0x184d_2204
}

fn is_blank_line(bytes: &[u8]) -> bool
    requires { 4 ≤ length bytes.now }
    ensures { result ≡ spec.is_blank_line bytes.now }
{
    bytes[0] == b'\n' || bytes[0] == b'\r'
}

/// What is wrong behind a magic number of libpcap's format.
#[tactic(auto, unfolding(crate::specs::Flaws::header_flaw))]
fn header_flaw(order: Order, bytes: &[u8]) -> HeadFlaw
    ensures { result ≡ spec.header_flaw order bytes.now }
{
    if bytes.len() < FILE_HEADER {
        return HeadFlaw::CutHeader;
    }
    let major = u16_at(order, bytes, 4);
    let minor = u16_at(order, bytes, 6);
    if !(major == 2 && minor == 4) {
        return HeadFlaw::Version { major, minor };
    }
    HeadFlaw::LinkType(u32_at(order, bytes, 20))
}

/// What is wrong in a section's first block whose mark stands in that order.
#[tactic(auto, unfolding(crate::specs::Flaws::marked_flaw))]
fn marked_flaw(order: Order, bytes: &[u8]) -> HeadFlaw
    requires { 28 ≤ length bytes.now }
    ensures { result ≡ spec.marked_flaw order bytes.now }
{
    let major = u16_at(order, bytes, 12);
    if major != 1 {
        return HeadFlaw::SectionVersion(major);
    }
    HeadFlaw::SectionLength(u32_at(order, bytes, 4))
}

/// What is wrong behind the type of a section's first block.
#[tactic(auto, unfolding(crate::specs::Flaws::section_flaw))]
fn section_flaw(bytes: &[u8]) -> HeadFlaw
    ensures { result ≡ spec.section_flaw bytes.now }
{
    if bytes.len() < SECTION {
        return HeadFlaw::CutSection;
    }
    if u32_at(Order::Big, bytes, 8) == 0x1a2b_3c4d {
        return marked_flaw(Order::Big, bytes);
    }
    if u32_at(Order::Little, bytes, 8) == 0x1a2b_3c4d {
        return marked_flaw(Order::Little, bytes);
    }
    HeadFlaw::Mark
}

/// What four bytes are that begin neither format.
#[tactic(auto, unfolding(crate::specs::Flaws::foreign_flaw))]
fn foreign_flaw(bytes: &[u8]) -> HeadFlaw
    requires { 4 ≤ length bytes.now }
    ensures { result ≡ spec.foreign_flaw bytes.now }
{
    if is_blank_line(bytes) {
        return HeadFlaw::BlankLine;
    }
    if is_compressed(bytes) {
        return HeadFlaw::Compressed;
    }
    if has_variant(Order::Big, bytes) || has_variant(Order::Little, bytes) {
        return HeadFlaw::Variant;
    }
    HeadFlaw::Magic
}

/// What is wrong with the first bytes of a text without a header.
#[tactic(auto, unfolding(crate::specs::Flaws::head_flaw))]
fn flaw_of(bytes: &[u8]) -> HeadFlaw
    ensures { result ≡ spec.head_flaw bytes.now }
{
    if bytes.len() < 4 {
        return HeadFlaw::Short;
    }
    if has_magic(Order::Big, bytes) {
        return header_flaw(Order::Big, bytes);
    }
    if has_magic(Order::Little, bytes) {
        return header_flaw(Order::Little, bytes);
    }
    if u32_at(Order::Big, bytes, 0) == 0x0a0d_0d0a {
        return section_flaw(bytes);
    }
    foreign_flaw(bytes)
}

/// Why bytes are no capture; None where they are one.
///
/// Takes no memory, and no more time than a look at the first record or block.
pub fn head_flaw(bytes: &[u8]) -> Option<HeadFlaw>
    ensures some { IfSome result (IsBadHead bytes.now) }
    ensures none { IfNone result ((bytes.now ≡ []) ⊎ HasHeader bytes.now) }
{
    if bytes.is_empty() {
        return None;
    }
    if let Some(_header) = header_of(bytes) {
        return None;
    }
    if let Some((_order, _rest)) = next_section(bytes) {
        return None;
    }
    Some(flaw_of(bytes))
}
