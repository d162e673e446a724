//! The answers of turns and of runs.

/// The answer of a turn.
#[derive(Clone, Copy, Debug, PartialEq, Eq)]
pub enum Turn {
    /// An instruction was run, and there is more.
    More,
    /// The program has ended, with this reply.
    Exit(u64),
    /// A look was due, and the store has its rows no more. Nothing was done.
    Stale,
    /// No memory was left for what a call does. Nothing was done.
    NoMemory,
}

/// The end of a run.
#[derive(Clone, Copy, Debug, PartialEq, Eq)]
pub struct RunEnd {
    /// The number of turns that answered that there is more.
    pub before: u32,
    /// The answer of the turn after them.
    pub last: Turn,
}
