//! The check of a program that is to be added: what it comes to, the check itself, and what that means.
#![tactic(auto)]

pub use check::check_program;
pub use fault::{AdditionFault, ProgramFault};
pub use laws::programs_pass_where_they_are_accepted;

mod check;
mod fault;
mod laws;
