//! Tests of what a run of a program is. `run_program` of `plain_runner` equals the definitions, so they show
//! what no clause says: that runs succeed where memory is there, and that the definitions mean what was meant.
//! The outcomes are worked out by hand.
#![tactic(auto)]

#[cfg(test)]
mod tests;
