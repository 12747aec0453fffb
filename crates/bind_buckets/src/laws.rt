//! What the definitions of a bucket's steps imply.

ghost use Rattle.bind_buckets.specs.Bucket.{StaysAgreed, StaysSound};
ghost use Rattle.bind_buckets.specs.Followed as law;
ghost use Rattle.bind_buckets.specs.Rows as row;
ghost use Rattle.bind_buckets.specs.Turned as law_of_turns;
ghost use Rattle.bind_buckets.specs.OwnTold.{OpenAreTold, OwnAreTold, FirstOwnIsTold, OwnStands, OwnComes, OwnStays, OwnGoesOn, OwnAccepted};

/// Each request that is made under its conditions leaves owners that agree, and a sound bucket.
pub fn steps()
    ensures agree { StaysAgreed }
    ensures sound { StaysSound }
{}

/// Entries determine the owners that they name, whatever else stands in the bucket: the owners of some names
/// after a journal, and the first of each name, follow from the entries about these names alone.
/// A child's name is taken together with its parent's.
pub fn own_entries()
    ensures owners { law.ToldByTheirOwn }
    ensures first { law.FirstIsTold }
{}

/// The definition of a bucket's steps gives the worked examples.
pub fn rows()
    ensures users { row.KeepsUsersApart }
    ensures listeners { row.OneListens }
    ensures child { row.KeepsChildsPort }
    ensures beside_child { row.SharesChildsAddress }
    ensures strict { row.SearchIsStrict }
    ensures waiting { row.WaitingKeepsPort }
    ensures beside_waiting { row.SharesWithWaiting }
    ensures leaver { row.LastTakesPlace }
{}

/// What a pass that is alone gave determines how all buckets stand, and each entry more is one question to
/// the bucket of its key.
pub fn given()
    ensures asked { law_of_turns.AsksOneMore }
{}

/// What a caller itself asked of a bucket determines its own open sockets there, whatever other callers asked.
pub fn own_sockets()
    ensures open { OpenAreTold }
    ensures owners { OwnAreTold }
    ensures first { FirstOwnIsTold }
    ensures stands { OwnStands }
    ensures comes { OwnComes }
    ensures stays { OwnStays }
    ensures goes_on { OwnGoesOn }
    ensures accepted { OwnAccepted }
{}
