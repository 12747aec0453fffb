//! Tests of a run and of a race below the top call: races of one section, whose replies are those that it gets alone,
//! and what they list; the tables and the flat list on the same scripts; scripts that are made by hand.
#![tactic(auto)]

#[cfg(test)]
mod alone;
#[cfg(test)]
mod engines;
#[cfg(test)]
mod lookups;
