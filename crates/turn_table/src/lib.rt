//! Values that threads take in turns, each with a journal of what was done to it.
//!
//! Linux guards each bucket of its hash tables by a spinlock (`struct inet_bind_hashbucket` and
//! `inet_ehash_lockp` in `include/net/inet_hashtables.h`). Here a value is taken out of its place by
//! one atomic step, belongs to the pass that took it, and is put back by another. Each entry that a
//! turn adds to the value's journal carries a number that was drawn from one count of the whole table.
//!
//! It stands on the kit's `atomic_table`. Between any two steps of any passes the rule of
//! `specs/Turning` holds, which ties the words, the values at home and what all passes know. So a
//! taken value is the replay of its journal, and at the end the journals have exactly what the passes
//! gave, with the numbers below the count, each once.
//!
//! ```text
//! let (turns, mut pass) = Turns::new(alloc, values)?;
//! let mut turn = turns.take_turn(&Waits::by(rt), &mut pass, place).unwrap();    // or Tries(1_000), and None
//! let number = turns.draw(&mut pass, &turn);
//! turn.value.add(number, caller, amount);
//! turns.give(&mut pass, turn);
//! let values = turns.into_values(alloc, pass)?;
//! ```
#![tactic(auto)]

mod calls;
mod ends;
mod journaled;
pub mod laws;
mod note;
mod pass;
mod rule;
mod view;

pub use journaled::Journaled;
pub use note::{Find, Note, Placed};
pub use pass::{Turn, TurnPass, Turns};
pub use view::TurnView;
