//! Tests of the allocator that refuses: what no clause says, which growth is refused, what the counters show, and
//! that a collection can use it.
#![tactic(auto)]

#[cfg(test)]
mod tests;
