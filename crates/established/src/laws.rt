//! What follows for lookups from how the calls change a chain.

ghost use Rattle.established.specs.Handovers as law;

/// In each state of a handover in which the pass has the book that it had by then, the request or its socket stands in
/// the words of the table: its bucket's links lead to its slot, both flags are set, and its words are there.
///
/// Of a request that is being hashed, and of its socket after the handover, the laws of `table_rule` say it.
pub fn handovers()
    ensures { law.OneStands }
{}
