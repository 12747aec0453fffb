//! The picture of a race, drawn from its record's text.
//!
//! Our own. [`picture::draw`] reads a text as `record_reader` does, and draws what it says as an SVG: the clock
//! from left to right, a lane for each slot of a chain that had a life, with a bar for each life, and below them a
//! mark for each packet and each list of a `dump`. What an audit refutes is red. `specs/Picture` says what is drawn,
//! to the last byte, and `specs/Xml` of which XML it is made; [`laws`] says that it is well formed. It stands on
//! `record_reader` and on what `book_audit` says of lives and packets.
//!
//! ```text
//! let Picture { verdict, svg } = draw(alloc, &text)?;
//! ```
#![tactic(auto)]

pub mod bars;
pub mod frame;
pub mod lanes;
pub mod laws;
pub mod marks;
pub mod picture;
pub mod rows;
pub mod shapes;
pub mod sheet;
pub mod xml;

pub use picture::{Picture, draw};
