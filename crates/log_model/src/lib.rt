//! The log: calls and additions of procedures in their order, the verdict on each, and the rows and procedures after
//! each position. Definitions, and laws about them.
#![tactic(auto)]

pub use call_laws::{requests_may_have_a_zero, what_the_next_instruction_does};
pub use fitting::logs_whose_calls_fit;
pub use laws::{
    a_log_only_grows, calls_ask_up_to_their_snapshots, each_call_has_a_verdict,
    each_request_commits_once, entries_suffice, map_after_each_write_set,
    one_more_entry_carries_its_run, procedures_after_each_item, procedures_are_never_lost,
    procedures_stay_safe, requests_are_the_same_where_they_are_equal, rows_are_installed_writes,
    rows_fit_the_schema, verdicts_in_words_of_the_log, verdicts_on_additions_in_words_of_the_log,
};
pub use refusal::CallRefusal;
pub use request::{RequestId, given_request, has_zero};
pub use verdict::{Identifier, Verdict};

mod call_laws;
mod fitting;
mod laws;
mod refusal;
mod request;
mod verdict;
