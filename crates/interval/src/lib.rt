//! Ranges of words: the range of an operation's results from the ranges of its operands.
#![tactic(auto)]

pub use laws::{
    join_holds_both, join_is_least, one_value_gives_one, results_are_ranges, results_are_within,
    up_is_least,
};
pub use range::Range;
pub use table::{alu32_range, alu64_range, end_range};

mod arithmetic;
mod bitwise;
mod laws;
mod range;
mod shift;
mod table;
mod width;
