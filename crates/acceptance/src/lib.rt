//! The consequence of acceptance: no run of an accepted program is ever stuck.
#![tactic(auto)]

pub use laws::{
    accepted_programs_never_go_wrong, entry_is_described,
    instructions_without_a_cause_go_along_an_edge, joins_describe_both,
};

mod laws;
