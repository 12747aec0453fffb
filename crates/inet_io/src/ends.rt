//! What can be read and what can be written, as read(2) and write(2) have it.
ghost use Rattle.std.specs.Prelude.{ℕ, ◌<◌, List, length, IfOk};
ghost use Rattle.std.specs.declared.option.Option.{Option};
ghost use Rattle.std.specs.Io.{ReadsAtMost, WritesAtMost};
ghost use Rattle.std.specs.Io.KnownBytes.{ReadConsumes, WriteAppends};
ghost use Rattle.inet_io.specs.Ends.{HasCause, CountsOne};

/// A read or a write failed, and the count of faults of its source or sink rose.
#[derive(Clone, Copy, Debug, PartialEq, Eq)]
pub struct Failed;

/// What can be read.
pub trait Source {
    /// What is left to be read, where the source states that.
    ghost left: { Self → Option (List ℕ) };

    /// How often a read failed, up to the last value of a `u64`.
    ghost faults: { Self → ℕ };

    /// How often it was read, up to the last value of a `u64`.
    ghost calls: { Self → ℕ };

    /// Fills the front of the buffer, and answers how many bytes that were.
    ///
    /// 0 bytes into a buffer that isn't empty are the end. After `Failed` all bytes are still left,
    /// and the buffer holds what it may.
    fn read(&mut self, buf: &mut [u8]) -> Result<usize, Failed>
        ensures bound { ReadsAtMost result buf.new }
        ensures bytes { ReadConsumes (left self.old) (left self.new) result buf.new }
        ensures cause { HasCause (faults self.old) (faults self.new) result }
        ensures counted { CountsOne (calls self.old) (calls self.new) };
}

/// What can be written.
pub trait Sink {
    /// What was written, where the sink states that.
    ghost written: { Self → Option (List ℕ) };

    /// How often a write failed, up to the last value of a `u64`.
    ghost faults: { Self → ℕ };

    /// Takes a front of the bytes, and answers how many bytes that were: at least one where there
    /// is one. After `Failed` nothing was taken.
    fn write(&mut self, bytes: &[u8]) -> Result<usize, Failed>
        ensures bound { WritesAtMost result bytes.now }
        ensures takes { 0 < length bytes.now → IfOk result (λ n. 0 < n) }
        ensures bytes { WriteAppends (written self.old) (written self.new) result bytes.now }
        ensures cause { HasCause (faults self.old) (faults self.new) result };
}
