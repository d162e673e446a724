//! Laws of orders of byte strings: what their definitions come to. No site rests on them.
#![tactic(auto)]

pub use agreement::sites_of_one_order_agree;
pub use fitting::{
    calls_run_one_at_a_time, catalogues_make_safe_settings, orders_of_bytes_fit,
    what_was_told_settles_every_order,
};
pub use laws::{
    beginnings_have_the_same_entries, each_request_commits_once_in_an_order, orders_have_logs,
    rows_after_each_byte_string,
};
pub use nothing::what_is_nothing_changes_nothing;
pub use own::{
    additions_of_sites_are_not_nothing, calls_of_sites_fit_their_fields,
    own_additions_are_not_nothing, own_calls_are_not_nothing,
    own_calls_commit_where_nothing_stands_in_their_way,
};
pub use procedures::{procedures_after_each_byte_string, procedures_only_grow};
pub use refusals::refusals_hold_for_good;
pub use settled::{
    what_is_out_of_session_commits_no_more, what_was_answered_commits_no_more,
    what_was_refused_commits_no_more,
};

mod agreement;
mod fitting;
mod laws;
mod nothing;
mod own;
mod procedures;
mod refusals;
mod settled;
