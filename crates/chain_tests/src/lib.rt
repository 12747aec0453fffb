//! Tests of the chain table: its passes, locks, changes, lists and lookups, and of lookups that meet changes in their
//! middle, step by step and on threads.
//!
//! A contract says which answers of a lookup are lawful beside others; the tests of the latter show which it gives.
//! Some stop a change before each of its steps, or a lookup between two of its own, and let the other come there;
//! others let threads hash and unhash, or replace, close and reap sockets, beside threads that look, sleeping between
//! their steps. `judge` then finds the lookups that the changes of all passes don't explain, of which there is to be
//! none. It is test code, written after the rule in plain words.
//!
//! There is nothing here but tests: no crate stands on this one.
#![tactic(auto)]

#[cfg(test)]
mod calls;
#[cfg(test)]
mod halted;
#[cfg(test)]
mod handovers;
#[cfg(test)]
mod judge;
#[cfg(test)]
mod lists;
#[cfg(test)]
mod locks;
#[cfg(test)]
mod lockstep;
#[cfg(test)]
mod met;
#[cfg(test)]
mod packets;
#[cfg(test)]
mod pause;
#[cfg(test)]
mod points;
#[cfg(test)]
mod readers;
#[cfg(test)]
mod rows;
#[cfg(test)]
mod sockets;
#[cfg(test)]
mod tables;
#[cfg(test)]
mod threads;
#[cfg(test)]
mod walked;
#[cfg(test)]
mod walks;
