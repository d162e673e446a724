//! The questions to two replicas, and what is heard then.

use node_calls::Answer;
use served_replicas::RebuildFault;

/// A question to two replicas.
#[derive(Clone, Copy)]
pub enum Question {
    /// An addition of 10 to row 5 at the first replica, or at the second, which sees at least the log up to a position.
    /// Meanwhile the growth of this number of the first replica's memory is refused, or none where it is 0.
    Add {
        second: bool,
        least: u32,
        growth: u64,
    },
    /// The rebuilding of the replica of this number.
    Rebuild {
        replica: u32,
    },
    /// The number of entries that the log shows.
    Length,
    /// The number of growths of the first replica's memory that were refused so far.
    Refusals,
    /// The wish that no growth of the second replica's memory be refused any more.
    Allow,
}

/// The answer that is heard then.
#[derive(Clone, Copy, Debug, PartialEq, Eq)]
pub enum Heard {
    /// The answer to an addition.
    Answer(Answer),
    /// No answer to what was asked.
    NoAnswer,
    /// Memory for the request was wanting.
    NotAsked,
    /// The position to which a replica came that was made anew, or the cause for which it wasn't made.
    Rebuilt(Result<u32, RebuildFault>),
    /// The number of entries.
    Length(u32),
    /// The number of growths that were refused.
    Refusals(u64),
    /// The growths are refused no more.
    Allowed,
}

/// The answer that may not be heard, and the number of questions before it. The answer is none where there was no end
/// of questions.
#[derive(Clone, Copy, Debug, PartialEq, Eq)]
pub struct Mismatch {
    pub index: usize,
    pub heard: Option<Heard>,
}
