//! Counts of the answers of each kind that the threads of a node gave. Each thread counts on its own, and has for each
//! answer that it counts one part of a ledger less. The parts show that each answer was counted.
#![tactic(auto)]

pub use blanks::Blanks;
pub use counts::Counts;
pub use kinds::AnswerKind;
pub use ledgers::{GRANT, Ledgers, THREADS};
pub use parts::Parts;
pub use tally::{FreshTally, Tally};

mod blanks;
mod counts;
mod kinds;
mod ledgers;
mod parts;
mod tally;
