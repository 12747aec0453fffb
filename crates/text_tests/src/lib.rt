//! Tests of what is read and written, and of the flat list, through public calls: lines, scripts, generated scripts and
//! their counts, captures, groups, records of races, and audits.
//!
//! They stand apart from the crates that they test: a crate with tests of its own is proved a second time, with them.
//!
//! There is nothing here but tests: no crate stands on this one.
#![tactic(auto)]

#[cfg(test)]
mod captures;
#[cfg(test)]
mod counts;
#[cfg(test)]
mod flat;
#[cfg(test)]
mod forms;
#[cfg(test)]
mod groups;
#[cfg(test)]
mod judged;
#[cfg(test)]
mod made;
#[cfg(test)]
mod records;
#[cfg(test)]
mod rendered;
#[cfg(test)]
mod scripts;
