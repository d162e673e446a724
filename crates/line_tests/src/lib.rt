//! Tests of lines: those of scripts, those of scripts of calls, those that are printed.
#![tactic(auto)]

#[cfg(test)]
mod call_scripts;
#[cfg(test)]
mod growths;
#[cfg(test)]
mod tests;
