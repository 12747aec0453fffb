//! Tests of the top call: worked scripts, those of docs/LINUX.md and of rules beside each other, captures, generated
//! scripts, races of one section and of many, dumps, handshakes, audits, other words, ends that move a few bytes a
//! call and fail at each, inputs that are cut at each byte or as long as the limit, and the ends over std.
#![tactic(auto)]

#[cfg(test)]
mod audits;
#[cfg(test)]
mod captures;
#[cfg(test)]
mod crowds;
#[cfg(test)]
mod cuts;
#[cfg(test)]
mod dumps;
#[cfg(test)]
mod handshakes;
#[cfg(test)]
mod linux;
#[cfg(test)]
mod meeting;
#[cfg(test)]
mod races;
#[cfg(test)]
mod rules;
#[cfg(test)]
mod tests;
#[cfg(test)]
mod words;
