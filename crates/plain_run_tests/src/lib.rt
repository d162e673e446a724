//! Tests of whole runs by the definitions: what programs reply, look at, write and leave.
#![tactic(auto)]

#[cfg(test)]
mod tests;
