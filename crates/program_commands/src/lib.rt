//! The commands about one program, `list` and `check`: an engine for each, over any input, output and writer for
//! faults.
#![tactic(auto)]

pub use check::check_over;
pub use failure::StreamFault;
pub use list::list_over;
pub use number::{number_in, table};
pub use verdict::CheckVerdict;

mod check;
mod failure;
mod list;
mod number;
mod source;
mod verdict;
