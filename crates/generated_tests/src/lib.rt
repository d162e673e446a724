//! Tests of the machine on programs that are made from a seed: each does what the plain runner does.
#![tactic(auto)]

#[cfg(test)]
mod tests;
