//! Ends over std's readers and writers: standard input and output, in the program.
//!
//! They state what std states of the reader or writer, so nothing of the bytes of standard input and
//! output; they count each failure. What those two really hold is trusted, not proved.
ghost use Rattle.std.specs.Prelude.{◌≡◌};

use crate::ends::{Failed, Sink, Source};
use std::io::{Read, Write};

/// A source over a reader of std. Each failed read is one fault, an interrupted one too.
#[derive(Drop)]
pub struct StdSource<R: Read> {
    input: R,
    faults: u64,
    calls: u64,
}

impl<R: Read> StdSource<R> {
    /// A source of what the reader has left, with no faults yet.
    pub fn new(input: R) -> StdSource<R>
        ensures left { ⟦<StdSource<R> as Source>⟧.left result ≡ R.remaining input }
        ensures faults { ⟦<StdSource<R> as Source>⟧.faults result ≡ 0 }
    {
        StdSource {
            input,
            faults: 0,
            calls: 0,
        }
    }
}

impl<R: Read> Source for StdSource<R> {
    ghost left = { λ s. R.remaining s.input };

    ghost faults = { λ s. s.faults };

    ghost calls = { λ s. s.calls };

    fn read(&mut self, buf: &mut [u8]) -> Result<usize, Failed> {
        self.calls = self.calls.saturating_add(1);
        match self.input.read(buf) {
            Ok(count) => Ok(count),
            Err(_) => {
                self.faults = self.faults.saturating_add(1);
                Err(Failed)
            }
        }
    }
}

/// A sink over a writer of std. Each failed write is one fault, and so is one that takes nothing of
/// a piece that has bytes.
#[derive(Drop)]
pub struct StdSink<W: Write> {
    output: W,
    faults: u64,
}

impl<W: Write> StdSink<W> {
    /// A sink that adds to what the writer holds, with no faults yet.
    pub fn new(output: W) -> StdSink<W>
        ensures written { ⟦<StdSink<W> as Sink>⟧.written result ≡ W.contents output }
        ensures faults { ⟦<StdSink<W> as Sink>⟧.faults result ≡ 0 }
    {
        StdSink { output, faults: 0 }
    }
}

impl<W: Write> Sink for StdSink<W> {
    ghost written = { λ s. W.contents s.output };

    ghost faults = { λ s. s.faults };

    fn write(&mut self, bytes: &[u8]) -> Result<usize, Failed> {
        match self.output.write(bytes) {
            Ok(count) if count > 0 || bytes.is_empty() => Ok(count),
            _ => {
                self.faults = self.faults.saturating_add(1);
                Err(Failed)
            }
        }
    }
}
