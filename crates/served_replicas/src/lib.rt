//! The replicas of a node behind their locks, and what threads do with them: answer requests, deliver, scan rows, make a
//! replica anew, add procedures through the log.
#![tactic(auto)]

pub use add::{Added, ProgramRefusal};
pub use calls::Calls;
pub use delivering::deliver_all;
pub use executing::serve;
pub use kind::kind_of;
pub use rebuild::RebuildFault;
pub use reply::{CallRequest, Reply};
pub use scan::{ScanFault, ScannedRows};
pub use shared::Shared;

mod add;
mod calls;
mod delivering;
mod executing;
mod kind;
mod rebuild;
mod reply;
mod scan;
mod shared;
