//! What names identify in a lawful race, and in which order a request hands over to its connection.

ghost use Rattle.race_laws.specs.Handovers.{AcksHandOver};
ghost use Rattle.race_laws.specs.Names.{HashedOnce, ListsNamesOnce};

/// In the book of a lawful race two hashes of one name as one kind are one change.
pub fn hashed_once()
    ensures once { HashedOnce }
{}

/// So each of its dumps lists no name twice with one kind, in ascending order, and each item is of one life alone.
pub fn listed_once()
    ensures names { ListsNamesOnce }
{}

/// Each `ack` that is answered with Ok handed the request over that its first label names: the hash of the connection
/// that its second label names ended before the request's unhash began, in one chain.
pub fn handovers()
    ensures order { AcksHandOver }
{}
