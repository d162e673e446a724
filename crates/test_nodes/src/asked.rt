//! The questions to a node, and what is told then.

use log_model::{RequestId, Verdict};
use node::{Added, RebuildFault, ScanFault, WaitFault};
use node_calls::Answer;

/// The arguments of a call: 0 to 2 words, each given by its least byte.
#[derive(Clone, Copy)]
pub struct Words {
    pub count: usize,
    pub first: u8,
    pub second: u8,
}

/// A call as a caller asks for it: a procedure, its arguments, and a request or none.
#[derive(Clone, Copy)]
pub struct AskedCall {
    pub procedure: u16,
    pub words: Words,
    pub request: Option<RequestId>,
}

impl AskedCall {
    /// A call of a procedure with its arguments, and with a request or without one.
    pub fn new(procedure: u16, words: Words, request: Option<RequestId>) -> AskedCall {
        AskedCall {
            procedure,
            words,
            request,
        }
    }
}

/// A question of a caller.
#[derive(Clone, Copy)]
pub enum Asking {
    /// A call at a replica, which sees at least the log up to a position.
    Call {
        replica: u32,
        least: u32,
        call: AskedCall,
    },
    /// Calls at a replica that are asked for together.
    Together {
        replica: u32,
        calls: [AskedCall; 3],
    },
    /// A call of the caller's session.
    InSession {
        replica: u32,
        call: AskedCall,
    },
    /// The position of the log that the session's next call sees at least.
    Position,
    /// The verdict on the entry at a position, at a replica.
    Verdict {
        replica: u32,
        position: u32,
    },
    /// The verdict on the entry at a position, at a replica, which the caller awaits as long as a loop goes.
    AwaitVerdict {
        replica: u32,
        position: u32,
    },
    /// The addition of an index, from 0 on.
    Add(usize),
    /// A replica that is to be made anew.
    Rebuild(u32),
    /// A wait until a replica has come to a position.
    Wait {
        replica: u32,
        position: u32,
    },
    /// How far a replica has come.
    Status(u32),
    /// A call that isn't to wait for room in the replica's queue.
    Try {
        replica: u32,
        call: AskedCall,
    },
    /// Calls that are asked for one after another, and whose answers nobody hears.
    Forget {
        replica: u32,
        call: AskedCall,
        times: u32,
    },
    /// The first rows of table 1 at a replica, as many as are asked for.
    Scan {
        replica: u32,
        most: u32,
    },
    /// A wait until a call is held, as long as a loop goes.
    AwaitHeld,
    /// The release of the held call.
    Release,
}

/// The answer that a caller is told.
#[derive(Clone, Copy)]
pub enum Told {
    Answer(Answer),
    /// The answers to calls that were asked for together, where memory was there for them.
    Together(Option<[Answer; 3]>),
    Position(u32),
    /// The verdict, where the replica has come there, and the number of entries that it has delivered by now.
    Verdict(Option<(Verdict, u32)>),
    /// What became of an addition, and whether something of the log was seen then.
    Added(Added, bool),
    /// The position of the replica that was made anew.
    Rebuilt(Result<u32, RebuildFault>),
    /// The number of entries that were delivered by the end of the wait.
    Waited(Result<u32, WaitFault>),
    /// The position of a replica, and whether the replica has stopped.
    Status(Option<(u32, bool)>),
    /// The answer, or none where the queue had no room.
    Tried(Option<Answer>),
    /// The number of rows, and the greatest key among them.
    Scanned(Result<(usize, u64), ScanFault>),
    Nothing,
}

/// A procedure to be added: its name, number, length of arguments in bytes, and program.
#[derive(Clone, Copy)]
pub struct Addition<'a> {
    pub name: &'a [u8],
    pub number: u16,
    pub args_len: u16,
    pub bytes: &'a [u8],
}

/// A thing that wasn't as it should have been.
#[derive(Clone, Copy, Debug, PartialEq, Eq)]
pub enum Stray {
    /// The answer to the question of an index, from 0 on, of the caller of a place, from 0 on.
    Told { place: usize, index: usize },
    /// Memory was wanting.
    NoMemory,
}

/// The questions of several callers at once to a node.
pub trait Asked {
    /// The addition of an index, from 0 on, where there is one.
    fn addition(&self, index: usize) -> Option<Addition<'_>>;

    /// Returns the number of callers.
    fn callers(&self) -> usize;

    /// Returns the question of an index, from 0 on, of the caller of a place, from 0 on, and none after the last.
    fn asking(&self, place: usize, index: usize) -> Option<Asking>;

    /// Tells whether the caller of a place may be told so.
    fn is_told(&self, place: usize, index: usize, told: &Told) -> bool;
}
