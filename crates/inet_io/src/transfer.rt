//! All that a source has, up to a limit, and all of a text into a sink.
ghost use Rattle.std.specs.Prelude.{◌+◌, ◌^◌, ◌<◌, ◌≤◌, vec_len, IfOk, OnOk, OnErr, IsErrOf};
ghost use Rattle.std.specs.Io.KnownBytes.{Appends};
ghost use Rattle.inet_io.specs.Ends.{Rose, HasCause, ReadsWhole, ReadsMoreThan, AppendsFront};

use crate::ends::{Failed, Sink, Source};
use std::alloc::{AllocError, Global};

/// Why a source wasn't read whole.
#[derive(Clone, Copy, Debug, PartialEq, Eq)]
pub enum ReadEnd {
    /// A read failed.
    Failed,
    /// There are more bytes than the limit.
    TooLong,
    /// No memory was left for the bytes.
    Memory,
}

/// How many bytes are asked for at once: what a pipe of Linux holds, pipe(7).
const PIECE: usize = 65_536;

/// A block of so many bytes. It isn't inlined, so that a block that nobody fills is asked for all the same.
#[inline(never)]
fn block(alloc: Global, size: usize) -> Result<Vec<u8>, AllocError> {
    Vec::with_capacity(alloc, size)
}

/// Asks for a block of so many bytes, and lets go of it.
///
/// glibc gives a large block back to the kernel as it is let go, and takes the pages of the next one anew, until a
/// block of that size was let go once, mallopt(3) under `M_MMAP_THRESHOLD`. From then on it gives out again what it
/// has.
fn keep_blocks(alloc: Global, size: usize) {
    let _block = block(alloc, size);
}

/// Reads a source to its end.
///
/// That takes at most `limit + 1` reads, since each but the last gives a byte, and one read for each
/// 65,536 bytes where the source gives what it is asked for. The first failed read ends the call.
/// `TooLong` comes once `limit + 1` bytes came: what more there is stays unread. Before the first read a
/// block of `limit` bytes is asked for and let go of, so that later blocks may lie where these bytes lay.
pub fn read_all<S: Source>(alloc: Global, source: &mut S, limit: usize) -> Result<Vec<u8>, ReadEnd>
    requires { limit < 2 ^ 32 }
    ensures whole { IfOk result (λ v. ReadsWhole (S.left source.old) (S.left source.new) v.items) }
    ensures within { IfOk result (λ v. vec_len v ≤ limit) }
    ensures too_long { IsErrOf result ReadEnd.TooLong
        → ReadsMoreThan limit (S.left source.old) (S.left source.new) }
    ensures failed { IsErrOf result ReadEnd.Failed → Rose (S.faults source.old) (S.faults source.new) }
    ensures later { S.faults source.old ≤ S.faults source.new }
    ensures reads { S.calls source.new ≤ S.calls source.old + limit + 1 }
{
    keep_blocks(alloc, limit);
    let mut buf = [0u8; PIECE];
    let mut bytes = Vec::new(alloc);
    for _turn in 0..limit + 1 {
        let room = limit - bytes.len();
        let want = (room + 1).min(PIECE);
        let count = match source.read(&mut buf[..want]) {
            Ok(count) => count,
            Err(Failed) => return Err(ReadEnd::Failed),
        };
        if count == 0 {
            return Ok(bytes);
        }
        if count > room {
            return Err(ReadEnd::TooLong);
        }
        if bytes.extend_from_slice(&buf[..count]).is_err() {
            return Err(ReadEnd::Memory);
        }
    }
    unreachable!()
}

/// Writes all the bytes, by as many calls as that takes: one, where the sink takes all at once.
///
/// The first failed write ends the call; a front of the bytes is then written, without the last.
pub fn write_all<K: Sink>(sink: &mut K, bytes: &[u8]) -> Result<(), Failed>
    ensures whole { OnOk result (Appends (K.written sink.old) (K.written sink.new) bytes.now) }
    ensures front { OnErr result (AppendsFront (K.written sink.old) (K.written sink.new) bytes.now) }
    ensures cause { HasCause (K.faults sink.old) (K.faults sink.new) result }
{
    let mut done = 0;
    while done < bytes.len() {
        done += sink.write(&bytes[done..])?;
    }
    Ok(())
}
