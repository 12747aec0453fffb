//! A table of tickets, and what a thread holds of it.

ghost use Rattle.std.specs.Prelude.{◌≡◌, []};

use crate::rule::TicketRule;
use crate::view::TicketView;
use atomic_table::{Seat, Table};
use std::alloc::Global;

/// The numbers below a limit, which passes draw, each once, from the count of all draws.
#[derive(Drop)]
pub struct Tickets {
    pub(crate) table: Table<(), TicketView, u32, TicketRule, Global>,
    pub(crate) limit: u32,
    ghost keyed: { table.shared.key ≡ limit },
    ghost sized: { table.shared.table_id.words ≡ 1 },
}

/// A thread's right to draw, and in proofs what it drew. It has no bytes.
///
/// A pass that is dropped takes its parts with it, so that no other has them all again.
#[derive(Drop)]
pub struct TicketPass {
    pub(crate) seat: Seat<(), TicketView>,
    ghost free: { seat.me.1 ≡ [] },
}
