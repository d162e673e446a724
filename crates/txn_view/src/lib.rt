//! The view of a call: rows of a store, with its own writes over them, and the rows that it has looked at.
#![tactic(auto)]

pub use read::{count_rows, next_row, read_row};
pub use store::{Gone, NoStore, Store};
pub use view::{Own, View};

mod read;
mod seen;
mod store;
mod view;
