//! The world of replicas over one log: its steps as definitions, with the laws about them. Certification, versions and
//! replicas rest on none of these laws.
#![tactic(auto)]

pub use contents::{deliveries_follow_the_log, new_contents_follow_the_log};
pub use laws::steps::{
    additions_are_appended_at_once, calls_are_ordered_at_their_end,
    calls_begin_where_their_replica_is, each_step_has_its_answers,
    memory_is_wanted_in_place_of_an_answer, rebuilt_replicas_are_at_the_end,
    replicas_deliver_in_order, turns_follow_the_run,
};
pub use laws::world::{
    delivered_verdicts_are_the_logs, open_calls_are_sound, replies_are_serial, steps_keep_a_world,
};
pub use log::{
    entries_carry_serial_replies, rows_after_each_call, what_commits_is_serial,
    what_is_told_is_serial,
};
pub use outcome::{Outcome, StepRefusal};
pub use worlds::{
    calls_end, each_change_is_of_one, enough_turns_reach_exit, open_calls_keep_their_replies,
    refused_steps_change_nothing, replicas_agree, the_log_is_never_full, there_are_worlds,
    turns_that_run_are_counted,
};

mod contents;
mod laws;
mod log;
mod outcome;
mod worlds;
