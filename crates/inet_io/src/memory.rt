//! Ends in memory, for tests. They state all their bytes, and fail at the calls that a test names.
ghost use Rattle.std.specs.Prelude.{◌≡◌, ◌≤◌, ◌<◌, ◌↔◌, [], drop, min, length, vec_len, IfOk, IsErr};
ghost use Rattle.std.specs.declared.option.Option.TheVariants.{Some};
ghost use Rattle.std.specs.Io.{ReadsAtMost, WritesAtMost};
ghost use Rattle.std.specs.Io.KnownBytes.{ReadConsumes, WriteAppends};
ghost use Rattle.inet_io.specs.Ends.{HasCause, CountsOne};

use crate::ends::{Failed, Sink, Source};
use std::alloc::Global;

/// A source of some bytes, which it gives in order, at most `most` of them a call. The calls whose
/// numbers, from 1, are listed as failing are faults.
#[derive(Drop)]
pub struct MemSource {
    bytes: Vec<u8>,
    at: usize,
    most: usize,
    failing: Vec<u64>,
    calls: u64,
    faults: u64,
    ghost gives: { 0 < most },
    ghost within: { at ≤ vec_len bytes },
}

impl MemSource {
    ghost use Rattle.inet_io.specs.Memory.{source_terms};

    /// A source that has all its bytes left, and no faults yet.
    pub fn new(bytes: Vec<u8>, most: usize, failing: Vec<u64>) -> MemSource
        requires { 0 < most }
        ensures left { ⟦<MemSource as Source>⟧.left result ≡ Some bytes.items }
        ensures faults { ⟦<MemSource as Source>⟧.faults result ≡ 0 }
        ensures terms { source_terms result ≡ record { most = most; failing = failing.items; calls = 0 } }
    {
        MemSource {
            bytes,
            at: 0,
            most,
            failing,
            calls: 0,
            faults: 0,
        }
    }
}

impl Source for MemSource {
    ghost use Rattle.inet_io.specs.Memory.{source_terms, left_in, Fails, called};

    ghost left = { λ s. Some (drop s.at s.bytes.items) };

    ghost faults = { λ s. s.faults };

    ghost calls = { λ s. s.calls };

    fn read(&mut self, buf: &mut [u8]) -> Result<usize, Failed>
        ensures bound { ReadsAtMost result buf.new }
        ensures bytes { ReadConsumes (⟦<MemSource as Source>⟧.left self.old)
            (⟦<MemSource as Source>⟧.left self.new) result buf.new }
        ensures cause { HasCause (⟦<MemSource as Source>⟧.faults self.old)
            (⟦<MemSource as Source>⟧.faults self.new) result }
        ensures counted { CountsOne (⟦<MemSource as Source>⟧.calls self.old)
            (⟦<MemSource as Source>⟧.calls self.new) }
        ensures moves { let most = (source_terms self.old).most in
            IfOk result (λ n. n ≡ min (min (left_in self.old) most) (length buf.new)) }
        ensures fails { IsErr result ↔ Fails (source_terms self.old) }
        ensures later { source_terms self.new ≡ called (source_terms self.old) }
    {
        self.calls = self.calls.saturating_add(1);
        if self.failing.contains(&self.calls) {
            self.faults = self.faults.saturating_add(1);
            return Err(Failed);
        }
        let rest = self.bytes.len() - self.at;
        let count = rest.min(self.most).min(buf.len());
        buf[..count].copy_from_slice(&self.bytes[self.at..self.at + count]);
        self.at += count;
        Ok(count)
    }
}

/// A sink that keeps what it takes, at most `most` bytes a call. The calls whose numbers, from 1, are
/// listed as failing are faults, and so is a call for whose bytes there is no memory.
#[derive(Drop)]
pub struct MemSink {
    bytes: Vec<u8>,
    most: usize,
    failing: Vec<u64>,
    calls: u64,
    faults: u64,
    ghost takes: { 0 < most },
}

impl MemSink {
    ghost use Rattle.inet_io.specs.Memory.{sink_terms};

    /// A sink that has nothing written, and no faults yet.
    pub fn new(alloc: Global, most: usize, failing: Vec<u64>) -> MemSink
        requires { 0 < most }
        ensures written { ⟦<MemSink as Sink>⟧.written result ≡ Some [] }
        ensures faults { ⟦<MemSink as Sink>⟧.faults result ≡ 0 }
        ensures terms { sink_terms result ≡ record { most = most; failing = failing.items; calls = 0 } }
    {
        MemSink {
            bytes: Vec::new(alloc),
            most,
            failing,
            calls: 0,
            faults: 0,
        }
    }

    /// All that was written.
    pub fn bytes(&self) -> &[u8]
        ensures { ⟦<MemSink as Sink>⟧.written self.now ≡ Some result.now }
    {
        &self.bytes
    }
}

impl Sink for MemSink {
    ghost use Rattle.inet_io.specs.Memory.{sink_terms, Fails, called};

    ghost written = { λ s. Some s.bytes.items };

    ghost faults = { λ s. s.faults };

    /// An `Err` of a call that isn't listed as failing is want of memory.
    fn write(&mut self, bytes: &[u8]) -> Result<usize, Failed>
        ensures bound { WritesAtMost result bytes.now }
        ensures takes { 0 < length bytes.now → IfOk result (λ n. 0 < n) }
        ensures bytes { WriteAppends (⟦<MemSink as Sink>⟧.written self.old)
            (⟦<MemSink as Sink>⟧.written self.new) result bytes.now }
        ensures cause { HasCause (⟦<MemSink as Sink>⟧.faults self.old)
            (⟦<MemSink as Sink>⟧.faults self.new) result }
        ensures moves { IfOk result (λ n. n ≡ min (length bytes.now) (sink_terms self.old).most) }
        ensures fails { Fails (sink_terms self.old) → IsErr result }
        ensures later { sink_terms self.new ≡ called (sink_terms self.old) }
    {
        self.calls = self.calls.saturating_add(1);
        if self.failing.contains(&self.calls) {
            self.faults = self.faults.saturating_add(1);
            return Err(Failed);
        }
        let count = bytes.len().min(self.most);
        match self.bytes.extend_from_slice(&bytes[..count]) {
            Ok(()) => Ok(count),
            Err(_) => {
                self.faults = self.faults.saturating_add(1);
                Err(Failed)
            }
        }
    }
}
