//! Where a worker of a race may be held before its next step.

/// A worker of a race: the script of this number from 1, or the looker of this number from 1.
#[derive(Clone, Copy, Debug, PartialEq, Eq)]
pub enum Who {
    Script(u32),
    Looker(u32),
}

/// A place that each worker passes before each of its steps, so that a test can hold some workers
/// until others have come as far.
pub trait Gate: Sync {
    /// Passes the gate before command or packet number `at`, from 1.
    fn pass(&self, who: Who, at: u64);
}

/// The gate of the program: it holds nobody.
#[derive(Clone, Copy, Debug)]
pub struct Open;

impl Gate for Open {
    fn pass(&self, _who: Who, _at: u64) {}
}
