//! Tests of a site's program: what it answers, its settings' faults, byte strings that somebody changed, and streams
//! and memory that fail.
#![tactic(auto)]

#[cfg(test)]
mod stories;
#[cfg(test)]
mod streams;
#[cfg(test)]
mod tests;
