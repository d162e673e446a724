//! A replica for a lock to guard, beside what was delivered to it of a log that threads share. Each value of the type
//! stands for those entries, and its verdicts, its procedures and its rows within the window are the log's.
#![tactic(auto)]

pub use answers::{Delivery, Found};
pub use begin::Begin;
pub use begun::BegunCall;
pub use fact::{LogSetting, OrderedEntries};
pub use locked::LockedReplica;

mod answers;
mod begin;
mod begun;
mod fact;
mod laws;
mod locked;
mod ordered_laws;
