//! Tests of nodes on real threads: the log that threads share, sessions, replicas that find no memory.
#![tactic(auto)]

#[cfg(test)]
mod memory;
#[cfg(test)]
mod orders;
#[cfg(test)]
mod tests;
