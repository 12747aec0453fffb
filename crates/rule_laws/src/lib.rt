//! What the rules of sockets imply beside the rows that stand with them: a second footing for their definitions.
//!
//! Our own. Whoever writes a definition and the code by it may write both wrong alike, and no proof sees it. So what
//! `flat_list` and `sock_script` define is said here once more in other words, and proved of the definitions: which
//! card a packet finds, what a command leaves, how many replies there are; and texts are computed whole, from their
//! bytes to what is written for them.
#![tactic(auto)]

pub mod laws;
#[cfg(test)]
mod tests;
