//! What a pass knows. No value of it is ever made: it exists in proofs alone.

use std::collections::LinkedList;

/// What a pass knows of its table. `specs/Passes` has the words by which contracts read it.
pub struct TicketView {
    /// Each ticket is below it.
    pub limit: u64,
    pub parts: u64,
    /// Each number that it knows of is below it.
    pub seen: u64,
    /// Its tickets, in its order, and behind them those of the passes that it joined.
    pub drawn: LinkedList<u64>,
    /// The numbers that they drew in vain.
    pub vain: LinkedList<u64>,
}
