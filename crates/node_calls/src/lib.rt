//! A call of a node from its begin to its answer, by an executing thread. It begins at a replica behind a lock, runs
//! with the lock taken for each helper that reads or writes rows, is ordered where it wrote something, and waits for
//! its verdict.
#![tactic(auto)]

pub use answer::Answer;
pub use asked::Asked;
pub use bells::{Bells, Waiter};
pub use executor::Executor;
pub use gate::{Gate, OpenGate};
pub use helpers::calls_row_helper;
pub use looking::{LOOKS, SPINS, pause};
pub use node_catalogue::NodeCatalogue;
pub use served::{Batch, ServedReplica};

mod answer;
mod asked;
mod bells;
mod executor;
mod gate;
mod helpers;
mod looking;
mod node_catalogue;
mod order;
mod run;
mod running;
mod served;
