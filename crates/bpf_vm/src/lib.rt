//! The machine that runs accepted procedures over a view of a store, an instruction a turn, or to the end at once.
#![tactic(auto)]

pub use laws::{open_calls_can_turn, runs_go_on_or_end};
pub use machine::{ArgsLength, Machine};
pub use turn::{RunEnd, Turn};

mod calls;
mod helper_laws;
mod laws;
mod machine;
mod parts;
mod ranges;
mod rows;
mod step;
mod turn;
