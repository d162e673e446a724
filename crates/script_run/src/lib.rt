//! Takes the calls of a script on the threads of a node, over any input or output. A script is read whole before
//! anything runs.
#![tactic(auto)]

pub use call::ScriptCall;
pub use call_script::{CallScript, read_script};
pub use run::{RunOptions, run_over};

mod answers;
mod asking;
mod call;
mod call_script;
mod planned;
mod reading;
mod run;
mod text;
mod told;
