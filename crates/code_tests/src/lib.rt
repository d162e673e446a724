//! Tests of program text: words, programs and listings. They show what no clause says: that calls succeed
//! where memory is there, and that the definitions are those of RFC 9669 and of the documented formats.
#![tactic(auto)]

#[cfg(test)]
mod tests;
