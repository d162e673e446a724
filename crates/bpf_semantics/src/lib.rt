//! Runs of programs: the definitions, and laws about them.
//!
//! `laws.rt` has the laws of whole runs, `states.rt` those of its moments, `steps.rt` those of single
//! steps.
#![tactic(auto)]

pub use laws::{
    a_run_depends_on_its_looks, a_run_depends_on_its_schemas_tables, a_run_ends_or_is_stuck,
    runs_are_short, the_effect_is_that_of_the_writes, the_end_stays,
    writes_elsewhere_leave_the_run,
};
pub use states::{
    a_run_goes_on_to_its_length, an_open_call_depends_on_its_looks, looks_and_writes_are_few,
    states_fit,
};
pub use steps::{
    a_program_does_not_run_off_its_end, a_put_leaves_its_bytes, a_removal_leaves_nothing,
    a_step_leads_on, counts_look_at_their_interval, gets_look_at_their_key,
    nexts_look_to_what_they_find, places_move_so_far, writes_and_cancels_look_at_nothing,
};
pub use value::Value;

mod laws;
mod states;
mod steps;
mod value;
