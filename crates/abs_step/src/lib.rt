//! One instruction of a program that is verified: why it is refused, or what is known after it on each edge that may be
//! taken, given what is known of the state before it.
#![tactic(auto)]

pub use cause::Cause;
pub use causes::cause_of;
pub use results::{jump_state, next_state};

mod arguments;
mod calls;
mod cause;
mod causes;
mod results;
