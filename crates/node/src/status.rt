//! How far a replica of a node has come.

ghost use Rattle.std.specs.Prelude.{◌≡◌, length};

use locked_replica::LogSetting;
use order_log::Seen;
use std::alloc::{Allocator, Global};

/// How far a replica has come, beside what was delivered to it.
#[derive(Drop)]
pub struct ReplicaStatus<J: LogSetting, P: Allocator + Copy = Global> {
    /// The number of entries that were delivered.
    pub position: u32,
    /// True where the replica found no memory for the next entry, and delivers no more until it is rebuilt.
    pub stopped: bool,
    pub seen: Seen<J, P>,
    ghost far: { position ≡ length seen },
}

/// A cause for which a wait for a position ends without it.
#[derive(Clone, Copy, Debug, PartialEq, Eq, Drop)]
pub enum WaitFault {
    /// The number has no replica.
    NoReplica,
    /// The replica has stopped, at this position.
    Stopped(u32),
}
