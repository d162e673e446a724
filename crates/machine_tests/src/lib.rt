//! Tests of the machine: whole calls over a plain map, turn by turn or to their end, against the plain runner. Views of
//! a store are tested beside it.
#![tactic(auto)]

#[cfg(test)]
mod tests;
#[cfg(test)]
mod view;
