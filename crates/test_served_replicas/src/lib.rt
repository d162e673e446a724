//! Two replicas that threads serve while both are asked, for tests. Questions, and what may be heard, are plain data.
#![tactic(auto)]

pub use asked::{Heard, Mismatch};
pub use cases::{Case, RefusedGrowths};
pub use requests::Memories;
pub use serving::{LogStart, try_two};

mod asked;
mod cases;
mod requests;
mod serving;
