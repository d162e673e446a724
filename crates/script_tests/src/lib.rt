//! Tests of scripts that are replayed: what they print, their faults, and streams and memory that fail.
#![tactic(auto)]

#[cfg(test)]
mod stories;
#[cfg(test)]
mod tests;
