//! Worked records.

ghost use Rattle.race_record.specs.Lawful.{Lawful};
ghost use Rattle.race_record.specs.Refused.{refused_capture, refused_race, refused_script};
ghost use Rattle.race_record.specs.Worked.{dump_race, dump_script, first_race, first_script, handshake_capture, handshake_race, handshake_script, no_capture, second_capture, second_race, second_script};
ghost use Rattle.race_record.specs.Wrong as wrong;

/// The record of one listener by itself is lawful.
pub fn one_listener()
    ensures { Lawful first_script no_capture first_race }
{}

/// So is that of the same listener with a dump, which lists it.
pub fn one_dump()
    ensures { Lawful dump_script no_capture dump_race }
{}

/// So is that of two sections beside each other: a TIME_WAIT is replaced; a packet that came meanwhile finds the
/// newcomer, and others are given up, since its slot was another's before; one to a listener that was being hashed
/// finds nothing.
pub fn two_sections()
    ensures { Lawful second_script second_capture second_race }
{}

/// So is that of a handshake: the child is hashed before its request is unhashed, so that each packet of the
/// four-tuple finds the one or the other.
pub fn one_handshake()
    ensures { Lawful handshake_script handshake_capture handshake_race }
{}

/// So is one of refusals: a four-tuple that another section has; a slot while the last one is held by a lookup; and a
/// lookup that was given up at a socket that left.
pub fn refusals()
    ensures { Lawful refused_script refused_capture refused_race }
{}

/// Records that aren't lawful: in which a number of the clock belongs to nothing, or to two changes; a change is left
/// out of the book; a `bind` enters its owner twice, and so is refused; two full sockets have one four-tuple; a
/// four-tuple is given though a TIME_WAIT keeps it, or though one stands that should give way, or is refused before
/// whoever keeps it stands; slots are held by lookups though nothing was looked up, or owned by a socket that had gone
/// before one was sought; a card is taken out that is another's; a step begins with less than its worker has seen; a
/// request is unhashed before its child is hashed, whether it is recorded so or as if it hadn't been.
pub fn wrong_races()
    ensures number { wrong.NumberTooMany }
    ensures stamp { wrong.StampTwice }
    ensures change { wrong.ChangeLeftOut }
    ensures entry { wrong.EnteredTwice }
    ensures twins { wrong.Twins }
    ensures kept { wrong.GivenThoughKept }
    ensures waiting { wrong.WaitLeftStanding }
    ensures soon { wrong.RefusedTooSoon }
    ensures held { wrong.HeldByNobody }
    ensures owned { wrong.OwnedBefore }
    ensures card { wrong.AnothersCard }
    ensures step { wrong.BeganBefore }
    ensures unhash { wrong.UnhashedFirst }
    ensures hash { wrong.NumberedFirst }
{}

/// So are those in which a packet finds nothing while a listener stands; or finds nothing as if it had been looked up
/// before the listener came, by a looker that had found it already; or is given up for a change that never was, or in
/// a bucket that isn't the packet's, or at a slot where no card of its chain stood, or astray though no slot was used
/// again; or finds a socket whose slot had been another's before the lookup began; or finds the listener, or is given
/// up in its chain, while a request of its four-tuple stands.
pub fn wrong_lookups()
    ensures nothing { wrong.FoundNothing }
    ensures start { wrong.FromTheStart }
    ensures cause { wrong.CauseNeverWas }
    ensures bucket { wrong.AnotherBucket }
    ensures dead { wrong.DeadElsewhere }
    ensures strayed { wrong.StrayedNowhere }
    ensures slot { wrong.FoundTooLate }
    ensures listener { wrong.FoundListener }
    ensures later { wrong.GivenUpLater }
{}

/// So are those in which a dump lists nothing while a listener stands, or claims to have begun before its command did;
/// or one lists a listener, and the section's next one lists nothing as if it had been before the listener came; or
/// one lists neither a connection nor the TIME_WAIT that it left, or a connection and not the listener of a later chain
/// that had come before.
pub fn wrong_dumps()
    ensures nothing { wrong.ListsNothing }
    ensures before { wrong.ListsBefore }
    ensures backwards { wrong.ListsBackwards }
    ensures neither { wrong.ListsNeither }
    ensures order { wrong.ListsOutOfOrder }
{}
