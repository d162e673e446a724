//! Nodes for tests: each is made, asked by callers, finished here. What it was asked, and how it ended, is plain data.
#![tactic(auto)]

pub use asked::{Addition, Asked, AskedCall, Asking, Stray, Told, Words};
pub use ending::{Ending, ReplicaEnding};
pub use run::run_at_a_node;

mod asked;
mod callers;
mod ending;
mod gate;
mod run;
