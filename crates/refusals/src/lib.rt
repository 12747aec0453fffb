//! Why a text is no script: the first line outside the grammar, and the reason by which the grammar refuses it.
//!
//! The grammar is `sock_script`'s, and the forms of lines, word by word, are those of `line_forms`. `specs/Reasons.antt`
//! says what each reason states of a line: one without a form is refused for its first word, for a word behind it or for
//! its ports, and one that has a form for its place, by what the lines before say of it (`specs/Before.antt`). Of a
//! script whose capture is refused the answer has what is wrong with the capture's first bytes.
//!
//! ```text
//! let refused = explain(alloc, LabelSeed::random(&rt), Mode::Run, b"script 1\nbind a 10.0.0.1\n")?;
//! // line 2, Misfit { verb: Bind, misfit: Unfit { place: 3, kind: End } }
//! ```
#![tactic(auto)]

pub mod answer;
pub mod before;
pub mod capture;
pub mod lines;
pub mod option;
pub mod place;
pub mod ports;
pub mod reason;
pub mod text;

pub use answer::{Answer, Refusal, explain};
pub use capture::put_bad_capture;
pub use place::Misplace;
pub use ports::PortsFault;
pub use reason::{Reason, reason_of};
pub use text::put_refusal;
