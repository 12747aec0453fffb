//! What follows of each lawful race: names and handovers, what a worker that is alone replies, and what an audit
//! answers.
//!
//! By the plans of its commands ([`laws`]): a section gives each label a name of its own, and takes that name's socket
//! from one kind to the next and never back. So of a lawful record's changes no two hash one name as one kind, and a
//! card shows which life is meant; and what a dump lists has no name twice with one kind (`specs/Names`). An `ack` that
//! is done hashes a connection, and then unhashes the request of its four-tuple in the same chain (`specs/Handovers`).
//!
//! Of a worker that is alone with its tables ([`alone_laws`]): deeds say what the tables answered, whoever else was at
//! them. Where nobody was, each deed's answer is the tables' own (`specs/Plays`). So plans which go on by such deeds
//! come to what they come to when the tables carry them out, and thus, by the laws of `table_model`, to what the flat
//! list replies.
//!
//! Of what `audit` answers ([`audit_laws`]): the text of every lawful record of a script and a capture that stand in an
//! input within the limit is a record, line by line as `record_reader` reads them, and the race that the lines describe
//! passes each test of `book_audit` (`specs/Laws`): a lawful record's changes are serial, and its lookups are explained
//! by them.
//!
//! There is no code here that runs. It stands on `race_record`, `race_text` and `record_reader`, and on the plans of
//! `table_model`.
#![tactic(auto)]

pub mod alone_laws;
pub mod audit_laws;
pub mod laws;
