//! Tests of replicas to which memory is refused.
#![tactic(auto)]

#[cfg(test)]
mod tests;
