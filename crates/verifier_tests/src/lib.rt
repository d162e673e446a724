//! Tests of the verifier: programs, and whether they are accepted, or at which slot and why they are refused. The
//! outcomes are worked out by hand.
#![tactic(auto)]

#[cfg(test)]
mod tests;
