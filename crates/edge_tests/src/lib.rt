//! Tests of the edge: the command line, the engines of `list` and `check`, what `explain` prints.
#![tactic(auto)]

#[cfg(test)]
mod tests;
