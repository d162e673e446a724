//! The verifier: which programs are accepted, and the most instructions that one may run.
#![tactic(auto)]

pub use abs_step::Cause;
pub use accepted::Accepted;
pub use flow::verify;
pub use laws::what_is_known_is_what_is_sent;
pub use refusal::Refusal;

mod accepted;
mod bound;
mod flow;
mod laws;
mod path;
mod refusal;
