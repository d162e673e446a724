//! Tests of worlds: those drawn from seeds come to what the plain replayer says; those without memory stay whole.
#![tactic(auto)]

#[cfg(test)]
mod memory;
#[cfg(test)]
mod tests;
