ghost use Rattle.std.specs.Prelude.{◌<◌, length, IfSome, IfNone};
ghost use Rattle.capture_reader.specs.Grammar.{BeginsWithRecord, IsCutRecord};

use crate::number::{Order, u32_at};

/// How many bytes a record's header has.
const RECORD_HEADER: usize = 16;

/// What the first record stores, and the bytes after it. None where no whole record is there.
///
/// No stored length is refused, so one that is greater than any packet just cuts the capture.
pub fn next_record(order: Order, bytes: &[u8]) -> Option<(&[u8], &[u8])>
    ensures some { IfSome result (λ found. BeginsWithRecord order bytes.now found.0.now found.1.now) }
    ensures none { IfNone result (0 < length bytes.now → IsCutRecord order bytes.now) }
{
    if bytes.len() < RECORD_HEADER {
        return None;
    }
    let stored = u32_at(order, bytes, 8) as usize;
    let body = &bytes[RECORD_HEADER..];
    if body.len() < stored {
        return None;
    }
    Some(body.split_at(stored))
}
