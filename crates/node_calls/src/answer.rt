//! The answer to a call.

use log_model::CallRefusal;

/// The answer to a call. Positions are those of the log, from 1 on. A snapshot is the position after which the call
/// read the rows.
#[derive(Clone, Copy, Debug, PartialEq, Eq, Drop)]
pub enum Answer {
    Committed {
        position: u32,
        reply: u64,
    },
    /// The call wrote nothing, and isn't ordered.
    Read {
        snapshot: u32,
        reply: u64,
    },
    /// The call cancelled, and isn't ordered.
    Cancelled {
        snapshot: u32,
        code: u64,
    },
    /// The call that committed at the other position wrote a key that this call looked at.
    Conflict {
        position: u32,
        other: u32,
    },
    /// The call looked at rows that are kept no longer, or its verdict is stale: too much was ordered since its
    /// snapshot.
    Stale,
    /// The request was done earlier, and this is its reply.
    Repeated {
        position: u32,
        earlier: u32,
        reply: u64,
    },
    /// The replica has come less far than the caller asks for, and nothing was run.
    Behind,
    /// Memory is wanting, and the call isn't ordered.
    NoMemory,
    /// The log is full.
    Full,
    /// The call is ordered, and its replica has stopped before it. Another replica has the verdict.
    Stopped {
        position: u32,
    },
    /// The node has no such replica.
    NoReplica,
    /// The call may not begin after what was seen.
    Refused(CallRefusal),
}
