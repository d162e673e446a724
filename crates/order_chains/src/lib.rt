//! Laws of orders, each of which goes on where the one before it stopped. No site rests on them.
#![tactic(auto)]

pub use next::next_settings_go_on;
pub use requests::{
    each_request_commits_once_over_orders, requests_done_before_commit_no_more,
    too_late_is_so_for_good,
};
pub use rows::rows_go_on;
pub use told::requests_done_before_are_told;

mod next;
mod requests;
mod rows;
mod told;
