//! Laws of callers, for the crates above.

ghost use Rattle.shared_calls.specs.Asked.{LeftTells};
ghost use Rattle.shared_calls.specs.Limits.{DropsWhereFull};
ghost use Rattle.shared_calls.specs.Marks.{CardsHaveMarks, MarksAreGiven, MarksStay};
ghost use Rattle.shared_calls.specs.Numbers.{NumbersAreNames};
ghost use Rattle.shared_calls.specs.Order.{MeetsAsDone};

/// What a number names is the socket of the name that has it in its lower 56 bits, and the caller's number above them.
pub fn numbers_are_names()
    ensures { NumbersAreNames }
{}

/// A socket has the mark that the call gave which made it, in all its states, and so has each card under which it is
/// hashed: the one that a lookup finds, too.
pub fn marks_stay()
    ensures given { MarksAreGiven }
    ensures stay { MarksStay }
    ensures cards { CardsHaveMarks }
{}

/// A connected socket whose `close` finds no slot free for its TIME_WAIT is closed as `drop` closes it.
pub fn drops_where_full()
    ensures { DropsWhereFull }
{}

/// A command that doesn't end sockets can be carried out exactly where so much is left as a call may take.
pub fn left_tells()
    ensures { LeftTells }
{}

/// What a caller's calls had hashed when it told its clock stands throughout each lookup that begins there or later,
/// until an unhash of it begins.
pub fn meets_as_done()
    ensures { MeetsAsDone }
{}
