//! The rule of the table's word and passes, and what each step shows. All of it exists in proofs alone.

use crate::view::TicketView;
use atomic_table::{Join, Play, Split, TableRule};

pub struct TicketRule;

impl TableRule<(), TicketView, u32> for TicketRule {
    ghost use Rattle.tickets.specs.Views.{first};
    ghost use Rattle.tickets.specs.Numbered.{Numbered};

    ghost holds = { Numbered };

    ghost first = { first };
}

/// Draws a number.
pub struct Draw;

impl Play<(), TicketView> for Draw {
    ghost use Rattle.tickets.specs.Plays.{took};

    ghost then = { took };
}

/// Loads the count.
pub struct See;

impl Play<(), TicketView> for See {
    ghost use Rattle.tickets.specs.Plays.{saw};

    ghost then = { saw };
}

/// Splits a pass off.
pub struct Cut;

impl Split<TicketView> for Cut {
    ghost use Rattle.tickets.specs.Views.{cut, newcomer};

    ghost left = { cut };

    ghost right = { λ v. newcomer v.limit v.seen };
}

/// Joins a pass.
pub struct Both;

impl Join<TicketView> for Both {
    ghost use Rattle.tickets.specs.Views.{joined, nobody};

    ghost both = { joined };

    ghost spent = { nobody };
}
