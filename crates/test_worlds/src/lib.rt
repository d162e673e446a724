//! Worlds that are drawn from a seed, for tests: what was done to one, what it answered, what a plain replay says of
//! that.
#![tactic(auto)]

pub use drawn::{DrawnWorld, new_world};
pub use events::Events;
pub use history::{Call, History, Ordered, UnknownProcedure};
pub use kinds::KINDS;
pub use replays::{has_reads, has_verdicts, replay_of};

mod drawn;
mod draws;
mod events;
mod history;
mod kinds;
mod procedures;
mod replays;
