//! Replays a script on a world of replicas, over any input or output.
#![tactic(auto)]

pub use dsm_world::World;
pub use laws::executions_end;
pub use replay::replay_over;

mod actions;
mod answers;
mod excerpt;
mod laws;
mod line;
mod log;
mod output;
mod replay;
mod rows;
mod stage;
