//! The total order: one list of entries that only grows, and that threads share. A number of it shows one entry for
//! good, and each entry that it shows stands beside its fact: what is known of it by the entries that it was made over.
#![tactic(auto)]

pub use cells::GroupCells;
pub use fact::Fact;
pub use fault::AppendFault;
pub use log::OrderLog;
pub use seen::{LogIdentity, Seen};

mod cells;
mod fact;
mod fault;
mod group;
mod log;
mod seen;
