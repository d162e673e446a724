//! Inputs and outputs that fail, or are interrupted, for tests.
#![tactic(auto)]

pub use streams::{Full, Input, InterruptedInput, Output};

mod streams;
