//! Scripts of socket commands: the grammar by which a text is read as one, and what is written when
//! it is run.
//!
//! A script has sections of commands, one a line, which make, bind and connect sockets, name them
//! by labels, and look packets up; before the first section lines may say how large the tables are,
//! and how a port is searched for where a command names none.
//! [`parse::parse`] reads a text as a script, or names the first line that is outside the grammar.
//! Both answers are exact: `specs/Grammar.antt` says which script a text is, and the laws in [`law`]
//! that it is one at most. A script may end in a capture, which [`capture::read`] reads.
//! [`run::replies`] runs a script on `flat_list`, the plain engine, and gives what is [`Shown`] of the reply to each
//! command and to each item of its capture, and what each `dump` lists; [`output::text`] writes them, a line for each
//! reply and for each socket listed, as `specs/Output.antt` says. [`make::script`] makes a script from a seed, and
//! [`Counts`] says how many of its commands were done. It stands on `flat_list`, `label_index`, `capture_reader`,
//! and the texts of `inet_io`.
//!
//! ```text
//! let text = b"script 1\nsocket a\nbind a 0.0.0.0:80\n";
//! let script = parse::parse(alloc, LabelSeed::random(&rt), text, Mode::Run)?;
//! let capture = capture::read(alloc, &script, text)?;
//! let replies = run::replies(alloc, &script, capture.items())?;
//! let lines = output::text(alloc, &script, &capture, &replies.each, &replies.listings)?;
//! // 1 socket a ok
//! // 1 bind a ok 80
//! ```
#![tactic(auto)]

pub mod capture;
pub mod counts;
mod draft;
pub mod form;
pub mod label;
pub mod law;
pub mod line;
pub mod make;
pub mod output;
pub mod parse;
pub mod replies;
pub mod run;
pub mod shown;
mod unwritten;
mod word;

pub use counts::Counts;
pub use line::Line;
pub use parse::{Mode, ScriptEnd};
pub use replies::Replies;
pub use shown::{Brief, Shown};
