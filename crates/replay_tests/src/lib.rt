//! Tests of the replayer: logs with their verdicts, replies, comparisons and rows.
#![tactic(auto)]

#[cfg(test)]
mod tests;
