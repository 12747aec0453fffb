//! The record of a race: what is recorded, and which records are lawful.
//!
//! Our own. A race runs each section of a script on a worker of its own, beside lookers that look packets up. What a
//! worker did at the tables is described by deeds (`specs/Deeds`), and a plan of `table_model` goes on by them
//! (`specs/Goes`). A record has the steps of all sections with their deeds, the journals of the bind buckets, the
//! changes of chains and what came of each packet (`specs/Record`); `specs/Lawful` says when it is lawful, and
//! `specs/Headline` what that means for a user. Worked records are in [`rows`], laws in [`laws`]. It stands on the
//! plans of `table_model` and the lives of `race_book`.
#![tactic(auto)]

pub mod laws;
pub mod record;
pub mod rows;

pub use record::Looked;
