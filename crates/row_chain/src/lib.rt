//! The versions of one key's row: the row as it was after each position that may still be asked for.
#![tactic(auto)]

pub use entry::Entry;
pub use laws::{one_more_version, pruned_versions_answer_alike};
pub use page::Page;

mod chain;
mod entries;
mod entry;
mod laws;
mod lone;
mod page;
mod pair;
mod run;
mod vectors;
