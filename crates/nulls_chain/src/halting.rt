//! What a change reports as it goes.

/// A step of a change that is to come.
#[derive(Clone, Copy, Debug, PartialEq, Eq)]
pub enum Turning {
    /// The drawing of the first number.
    Begin,
    /// The first try of a slot.
    Claim,
    /// The store of the first card word.
    Fill,
    /// The store of the newcomer's link.
    Link,
    /// The store of the head, by which the newcomer is linked.
    Head,
    /// The setting of `LIVE`, from which on lookups trust the slot.
    Live,
    /// The clearing of `LIVE`.
    Clear,
    /// The store by which the chain goes past the slot.
    Past,
    /// The step that makes the slot free.
    Release,
    /// The drawing of the last number.
    End,
}

/// Called before each step of a change that [`Turning`] names.
pub trait Halt {
    /// The step `at` is the next one.
    fn step(&mut self, at: Turning);
}

/// A halt that does nothing.
#[derive(Clone, Copy)]
pub struct Unhalted;

impl Halt for Unhalted {
    fn step(&mut self, _at: Turning) {}
}
