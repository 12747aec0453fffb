//! What the rule says of the words of the table and of the passes' views between any two steps.

ghost use Rattle.table_rule.specs.Standing as law;
ghost use Rattle.table_rule.specs.Receipts.{ReceiptsExplained, WholesExplained};
ghost use Rattle.table_rule.specs.Stays.{HeldStays, CardStays};

/// Between any two steps of any passes a card that a pass hashed stands, from the step that sets `LIVE` to the one by
/// which the pass begins its unhash: its bucket's links lead to its slot, both flags are set,
/// and its words are there.
///
/// That is while its hash is open and lit, and then while it is a place of its pass, which no card of a TIME_WAIT is.
pub fn standing()
    ensures lit { law.LitStands }
    ensures places { law.PlacesStand }
{}

/// Between any two steps of any passes the changes of all passes, closed and open, explain each receipt that any pass
/// has: of a lookup of one bucket, and of a whole lookup of a packet.
///
/// A pass with all 16,384 parts learns the same of its own receipts by its steps' contracts; this is so for all.
pub fn receipts()
    ensures lookups { ReceiptsExplained }
    ensures wholes { WholesExplained }
{}

/// Between any two steps of any passes the card of a slot stays as it is under a count that a pass took with `LIVE`,
/// until the pass puts it: the words that were loaded under the count are the slot's, the slot's state has a count,
/// and no pass has claimed the slot.
///
/// The slot of a card that a lookup found is so held.
pub fn held_stays()
    ensures held { HeldStays }
    ensures card { CardStays }
{}
