//! A node: replicas of one log, threads that deliver to them or answer calls, what callers share.
#![tactic(auto)]

pub use desk::{Busy, Desk};
pub use ended::EndedReplica;
pub use node::{Ended, Finish, Node};
pub use options::{Options, StartFault};
pub use pending::PendingCalls;
pub use served_replicas::{
    Added, CallRequest, ProgramRefusal, RebuildFault, ScanFault, ScannedRows,
};
pub use status::{ReplicaStatus, WaitFault};

mod crew;
mod desk;
mod ended;
mod node;
mod options;
mod pending;
mod status;
