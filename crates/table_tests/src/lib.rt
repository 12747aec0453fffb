//! Tests of what sections do at the tables that they share, through public calls: turns, bind buckets, searches for
//! ports, deeds in the chains, operations on sockets, commands of a machine, calls of callers and lookers, and dumps.
//!
//! They stand apart from the crates that they test: a crate with tests of its own is proved a second time, with them.
//!
//! There is nothing here but tests: no crate stands on this one.
#![tactic(auto)]

#[cfg(test)]
mod buckets;
#[cfg(test)]
mod callers;
#[cfg(test)]
mod deeds;
#[cfg(test)]
mod dumps;
#[cfg(test)]
mod operations;
#[cfg(test)]
mod searches;
#[cfg(test)]
mod sections;
#[cfg(test)]
mod turns;
#[cfg(test)]
mod visits;
