//! The tables for programs in C: handles, and a call for each command.
//!
//! A handle holds one list of sockets, or tables that threads share, or a worker of such tables, or a looker in them;
//! each is a type of its own ([`kinds`]). The exports of [`lists`], [`shared`], [`workers`] and [`lookers`] are what
//! `callers/inet_tables.h` declares. They test what a caller may get wrong by numbers. What it owes is said there: that
//! a handle is its own, zero before it is made, and at one call at a time. No export waits for another thread: a worker
//! tries for what another has as often as it was made to, and then says so.
#![tactic(auto)]

pub mod asked;
pub mod calls;
pub mod errno;
pub mod handing;
pub mod handle;
pub mod kinds;
pub mod listing;
pub mod lists;
pub mod lookers;
pub mod making;
pub mod opened;
mod parts;
pub mod reaped;
pub mod returning;
pub mod seen;
pub mod shared;
pub mod sizes;
pub mod words;
pub mod workers;
