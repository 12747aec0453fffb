//! What is written of a capture that is refused.
ghost use Rattle.std.specs.Prelude.{◌≡◌, ◌++◌, OnOk};
ghost use Rattle.refusals.specs.Captures as spec;

use crate::text::{put, put_number};
use capture_reader::HeadFlaw;
use std::alloc::AllocError;

/// Appends a text, a number, and a text.
fn put_with_number(out: &mut Vec<u8>, front: &[u8], n: u64, behind: &[u8]) -> Result<(), AllocError>
    ensures { OnOk result (out.new.items ≡ out.old.items ++ spec.with_number front.now n behind.now) }
{
    put(out, front)?;
    put_number(out, n)?;
    put(out, behind)
}

/// Appends what is wrong with a capture's first bytes.
#[tactic(auto, unfolding(crate::specs::Captures::flaw_text))]
fn put_flaw(out: &mut Vec<u8>, flaw: HeadFlaw) -> Result<(), AllocError>
    ensures { OnOk result (out.new.items ≡ out.old.items ++ spec.flaw_text flaw) }
{
    match flaw {
        HeadFlaw::Short => put(out, b"it has fewer than the four bytes of a magic number"),
        HeadFlaw::BlankLine => put(
            out,
            b"it begins with the end of a line: no blank line may stand behind the line capture",
        ),
        HeadFlaw::Compressed => put(
            out,
            b"it is compressed: unpack it first, as by gzip -d, zstd -d or lz4 -d",
        ),
        HeadFlaw::Variant => put(
            out,
            b"its magic number is that of a variant, 0xa1b2cd34: write it anew, as by editcap -F pcap",
        ),
        HeadFlaw::Magic => put(
            out,
            b"its first four bytes are the magic number of neither format: it is no capture, or something stands before it",
        ),
        HeadFlaw::CutHeader => put(out, b"its header is cut off: it has fewer than 24 bytes"),
        HeadFlaw::Version { major, minor } => {
            put_with_number(out, b"its version is ", u64::from(major), b".")?;
            put_with_number(out, b"", u64::from(minor), b", and 2.4 alone is read")
        }
        HeadFlaw::LinkType(n) => put_with_number(
            out,
            b"its link type is ",
            u64::from(n),
            b", which isn't read: capture on one interface, as by tcpdump -i eth0, and not on any",
        ),
        HeadFlaw::CutSection => put(
            out,
            b"its first block is cut off: it has fewer than 28 bytes",
        ),
        HeadFlaw::Mark => put(
            out,
            b"its first block lacks the mark of its order of bytes, 0x1a2b3c4d",
        ),
        HeadFlaw::SectionVersion(major) => put_with_number(
            out,
            b"the major version of its first section is ",
            u64::from(major),
            b", and 1 alone is read",
        ),
        HeadFlaw::SectionLength(n) => put_with_number(
            out,
            b"its first block isn't of ",
            u64::from(n),
            b" bytes, as it says: it is cut off, or says so at its front alone, or a block can't have so many",
        ),
    }
}

/// Appends what is read as a capture.
#[tactic(auto, unfolding(crate::specs::Captures::wanted_text))]
fn put_wanted(out: &mut Vec<u8>) -> Result<(), AllocError>
    ensures { OnOk result (out.new.items ≡ out.old.items ++ spec.wanted_text) }
{
    put(
        out,
        b"wanted: libpcap's format, version 2.4, of link type 1 (Ethernet), 101 (raw IP) or 228 (IPv4), or pcapng, \
          version 1\n",
    )
}

/// Appends what is written of a capture that is refused: what is wrong with its first bytes, and what is read.
pub fn put_bad_capture(out: &mut Vec<u8>, flaw: HeadFlaw) -> Result<(), AllocError>
    ensures { OnOk result (out.new.items ≡ out.old.items ++ spec.capture_text flaw) }
{
    put(out, b"bad capture: ")?;
    put_flaw(out, flaw)?;
    put(out, b"\n")?;
    put_wanted(out)
}
