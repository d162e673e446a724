//! A single site: calls of accepted procedures on rows of a plain map, one whole call at a time. The reply of one
//! that ends, its looks, writes and cancel code are those of the definition's run. Tests and benchmarks stand on it.
#![tactic(auto)]

pub use run::{CompletedCall, SiteFault, SiteRun, complete_call, run_call};
pub use store::PlainStore;

mod run;
mod store;
