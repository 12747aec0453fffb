//! How a call ends.

/// How a call ended. The contract of `serve` says when each comes and what stands then.
#[derive(Clone, Copy, Debug, PartialEq, Eq)]
pub enum Status {
    /// No line is refused, nor the capture; or the record passes the audit.
    Done,
    /// The words aren't one of those that the program takes.
    Usage,
    /// The line of that number, from 1, is the first that is refused.
    BadScript(u64),
    /// The bytes of the capture are refused.
    BadCapture,
    /// The input is longer than the limit.
    TooLong,
    /// A read failed.
    ReadFault,
    /// A write failed.
    WriteFault,
    /// No memory was left.
    Memory,
    /// The line of that number, from 1, is the first that keeps the text from being a race's record.
    BadRecord(u64),
    /// An audit refutes the record at the line of that number, from 1.
    Refuted(u64),
}

impl Status {
    ghost use Rattle.why.specs.Status.{exit_code};
    ghost use Rattle.std.specs.Prelude.{◌≡◌};

    /// The exit status of a program that ends so: that of `inet` where it ends so.
    pub fn exit_code(self) -> u8
        ensures { result ≡ exit_code self }
    {
        match self {
            Status::Done => 0,
            Status::Usage => 2,
            Status::BadScript(_) => 3,
            Status::BadCapture => 4,
            Status::TooLong => 5,
            Status::ReadFault => 6,
            Status::WriteFault => 7,
            Status::Memory => 8,
            Status::BadRecord(_) => 9,
            Status::Refuted(_) => 10,
        }
    }
}
