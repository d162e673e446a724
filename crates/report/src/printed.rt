//! The values of a printed line.

use dsm_model::StepRefusal;
use log_model::Verdict;
use node_calls::Answer;
use tallies::Counts;

/// A printed line, by its values.
#[derive(Clone, Copy)]
pub enum Line<'a> {
    /// A call began at a replica.
    Begun {
        call: u32,
        replica: u32,
        snapshot: u32,
    },
    /// No call began.
    BeginRefused(StepRefusal),
    /// A procedure was appended to the log.
    Added {
        position: u32,
    },
    /// No procedure was appended.
    AddRefused(StepRefusal),
    Call {
        call: u32,
        report: CallReport,
    },
    Replica {
        replica: u32,
        report: ReplicaReport,
    },
    Row {
        table: u8,
        key: u64,
        bytes: &'a [u8],
    },
    /// An entry of the log that some replica has delivered, and how many exact comparisons its verdict took.
    Certified {
        entry: LoggedEntry,
        compared: u64,
        verdict: Verdict,
    },
    /// An entry of the log that no replica has delivered.
    Open(LoggedEntry),
    /// The number of entries of the log.
    Log {
        entries: u32,
    },
    /// The bytes of the entry at a position, and none where the log doesn't reach so far.
    Entry {
        position: u32,
        bytes: Option<&'a [u8]>,
    },
    /// The answer of a node to a call of a script. The calls are counted from 1.
    Answered {
        call: u64,
        answer: Answer,
    },
    /// The number of calls that were answered in each way.
    Totals(Counts),
    /// True where, for each two replicas, one delivered what the other did, as far as it came.
    Agreement {
        agrees: bool,
    },
}

/// The report on a call.
#[derive(Clone, Copy)]
pub enum CallReport {
    /// The call isn't at EXIT yet.
    More,
    Exit { reply: u64 },
    /// The call is over: the rows of its snapshot are kept no longer.
    Stale,
    /// The call is over: a turn found no memory.
    NoMemory,
    Ordered { position: u32 },
    Read { snapshot: u32, reply: u64 },
    Cancelled { snapshot: u32, code: u64 },
    Refused(StepRefusal),
}

/// The report on a replica.
#[derive(Clone, Copy)]
pub enum ReplicaReport {
    /// The replica delivered the entry at a position.
    Delivered {
        position: u32,
        verdict: Verdict,
        entry: DeliveredEntry,
    },
    Rebuilt {
        position: u32,
    },
    /// The replica's position, and the number of its rows: 64 tables have up to 2^64 rows each.
    Rows {
        position: u32,
        rows: u128,
    },
    /// The replica's position in the end, the number of entries that committed, and whether the replica is stopped.
    Ended {
        position: u32,
        commits: u32,
        is_stopped: bool,
    },
    Refused(StepRefusal),
}

/// The report on a delivered entry besides its verdict.
#[derive(Clone, Copy)]
pub enum DeliveredEntry {
    /// A call. The value is the reply that its caller is told, where the caller is told one.
    Call { reply: Option<u64> },
    /// An addition. The value is the number of the procedure.
    Addition { procedure: u16 },
}

/// The part of an entry that stands in the log's lines.
#[derive(Clone, Copy)]
pub struct LoggedEntry {
    pub position: u32,
    pub procedure: u16,
    /// The snapshot of a call. An addition has none.
    pub snapshot: Option<u32>,
    /// The number of keys that the entry wrote.
    pub writes: usize,
}
