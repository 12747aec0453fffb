//! The capture at the end of a script's text.

ghost use Rattle.std.specs.Prelude.{◌≡◌, ◌≢◌, ◌↔◌, [], IfOk, Err};
ghost use Rattle.capture_reader.specs.Grammar.{IsCapture};
ghost use Rattle.capture_reader.specs.Header.{HasHeader};
ghost use Rattle.capture_reader.specs.declared.capture.CaptureEnd.TheVariants as ends;
ghost use Rattle.sock_script.specs.Grammar.{capture_bytes, capture_device, capture_namespace};

use capture_reader::{Capture, CaptureEnd, packets};
use flat_list::Script;
use std::alloc::Global;

/// The capture's bytes, in the text from which the script was read; none where it has no capture.
fn bytes_of<'a>(script: &Script, text: &'a [u8]) -> &'a [u8]
    ensures { result.now ≡ capture_bytes script.now.capture text.now }
{
    match script.capture() {
        None => &[],
        Some(place) => text.get(place.first..).unwrap_or(&[]),
    }
}

/// The device that the capture's packets came in by, 0 where none is named.
fn device_of(script: &Script) -> u16
    ensures { result ≡ capture_device script.now.capture }
{
    match script.capture() {
        None => 0,
        Some(place) => place.dev,
    }
}

/// The network namespace that the capture's packets came in by, 0 where none is named.
fn namespace_of(script: &Script) -> u8
    ensures { result ≡ capture_namespace script.now.capture }
{
    match script.capture() {
        None => 0,
        Some(place) => place.net,
    }
}

/// Reads the capture at the end of a script's text. A script without a capture has one without bytes, and so
/// without items.
///
/// Takes memory for the items, and the time of one look at each record.
pub fn read(alloc: Global, script: &Script, text: &[u8]) -> Result<Capture, CaptureEnd>
    ensures capture { IfOk result (IsCapture (capture_device script.now.capture) (capture_namespace script.now.capture)
        (capture_bytes script.now.capture text.now)) }
    ensures bad_head { (result ≡ Err ends.BadHead)
        ↔ ((capture_bytes script.now.capture text.now ≢ []) × ¬ HasHeader (capture_bytes script.now.capture text.now)) }
{
    packets(
        alloc,
        bytes_of(script, text),
        device_of(script),
        namespace_of(script),
    )
}
