//! Forms of a script's lines, word by word: where words leave a form, and what is wanted there.
//!
//! Behind its first word, the verb, a line has parts ([`Verb::parts`]): words of some kind, and options, each of which
//! may be left out. [`check`] goes through the words behind a verb by these parts. It answers that they fit, or the
//! first place at which they don't, with the kind of word that is wanted there (`specs/Wants.antt`). It stands on
//! `inet_io`, for numbers, addresses and labels, and on `chain_book`, for powers of two. The forms are meant to be
//! those of `sock_script`; that they are isn't proved here.
//!
//! ```text
//! let verb = verb_of(b"bind");                                   // Some(Verb::Bind)
//! check(Verb::Bind.parts(), &[b"web", b"10.0.0.1"]);             // Err(Misfit::Unfit { place: 3, kind: Kind::End })
//! ```
#![tactic(auto)]

pub mod kind;
pub mod laws;
pub mod misfit;
pub mod verb;

pub use kind::{Keyword, Kind};
pub use misfit::{Misfit, check};
pub use verb::{Part, Verb, verb_of};
