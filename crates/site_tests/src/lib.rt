//! Tests of sites: their lines, what they stand on, sites for which there is no memory.
#![tactic(auto)]

#[cfg(test)]
mod lines;
#[cfg(test)]
mod memory;
#[cfg(test)]
mod tests;
