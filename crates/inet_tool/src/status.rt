//! How a call ends.

/// How a call ended. The contract of `inet` says when each comes and what stands then.
#[derive(Clone, Copy, Debug, PartialEq, Eq)]
pub enum Status {
    /// All was written: the reply to an input that was read to its end, a generated script's counts, or that a race's
    /// record passes each test.
    Done,
    /// The words ask for nothing that the program does.
    Usage,
    /// The line of that number, from 1, is the first outside the grammar.
    BadScript(u64),
    /// The script's capture isn't empty, and has no header of a capture file.
    BadCapture,
    /// The input is longer than the limit.
    TooLong,
    /// A read failed.
    ReadFault,
    /// A write failed.
    WriteFault,
    /// No memory was left.
    Memory,
    /// The line of that number, from 1, is the first that keeps the text from being a race's record.
    BadRecord(u64),
    /// The record is refuted at the line of that number, from 1.
    Refuted(u64),
}

impl Status {
    ghost use Rattle.inet_tool.specs.Status.{exit_code};
    ghost use Rattle.std.specs.Prelude.{◌≡◌};

    /// The exit status of a program that ends so.
    pub fn exit_code(self) -> u8
        ensures { result ≡ exit_code self }
    {
        match self {
            Status::Done => 0,
            Status::Usage => 2,
            Status::BadScript(_) => 3,
            Status::BadCapture => 4,
            Status::TooLong => 5,
            Status::ReadFault => 6,
            Status::WriteFault => 7,
            Status::Memory => 8,
            Status::BadRecord(_) => 9,
            Status::Refuted(_) => 10,
        }
    }
}
