//! The command line of dsmdb: what its words ask for, why words are no command, what the number of a refusal says.
#![tactic(auto)]

pub use explanation::{Explanation, explain};
pub use request::{Plan, PlanFault};
pub use words::plan;

mod explanation;
mod help;
mod request;
mod rows;
mod words;
