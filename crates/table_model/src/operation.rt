use std::alloc::AllocError;

/// Why an operation was left off before its end.
#[derive(Clone, Copy, Debug, PartialEq, Eq)]
pub enum Cause {
    /// Memory was wanting.
    Memory,
    /// Another had a bucket's turn or a chain's lock for longer than the caller tries.
    Busy,
}

impl From<AllocError> for Cause {
    ghost use Rattle.std.specs.Prelude.{◌≡◌};
    ghost use Rattle.table_model.specs.declared.operation.Cause.TheVariants as causes;

    ghost from_gives = { λ _ cause. cause ≡ causes.Memory };

    fn from(_: AllocError) -> Self {
        Cause::Memory
    }
}

/// Why an operation on a socket was refused.
#[derive(Clone, Copy, Debug, PartialEq, Eq)]
pub enum OpEnd {
    /// The owner of that name keeps the socket from its port.
    InUse(u64),
    /// No port that was searched can be had.
    NoPort,
    /// The socket of that name has the four-tuple.
    Taken(u64),
    /// The socket's state, or an end, doesn't fit.
    Inval,
    /// The socket listens or is connected.
    IsConn,
    /// The group has all its members.
    GroupFull,
    /// The bucket of its key has all its groups.
    GroupsFull,
    /// No slot is free: so many are owned, and so many only held by a lookup.
    Full { owned: u32, held: u32 },
    /// It was left off before its end.
    LeftOff(Cause),
}

impl From<Cause> for OpEnd {
    ghost use Rattle.std.specs.Prelude.{◌≡◌};
    ghost use Rattle.table_model.specs.declared.operation.OpEnd.TheVariants as ends;

    ghost from_gives = { λ cause end. end ≡ ends.LeftOff cause };

    fn from(cause: Cause) -> Self {
        OpEnd::LeftOff(cause)
    }
}

impl From<AllocError> for OpEnd {
    ghost use Rattle.std.specs.Prelude.{◌≡◌};
    ghost use Rattle.table_model.specs.declared.operation.Cause.TheVariants as causes;
    ghost use Rattle.table_model.specs.declared.operation.OpEnd.TheVariants as ends;

    ghost from_gives = { λ _ end. end ≡ ends.LeftOff causes.Memory };

    fn from(_: AllocError) -> Self {
        OpEnd::LeftOff(Cause::Memory)
    }
}
