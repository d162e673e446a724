//! The heads of entries, which are what their bytes name.

use crate::addition::NamedProgram;
use log_model::RequestId;

/// A call as the bytes of its entry name it, and the reply that they tell.
#[derive(Clone, Copy, Debug, PartialEq, Eq)]
pub struct CallHead<'a> {
    /// The request of the call, absent where its session and its number are both 0.
    pub request: Option<RequestId>,
    pub number: u32,
    pub procedure: u16,
    pub args: &'a [u8],
    pub snapshot: u32,
    pub reply: u64,
}

/// The head of an entry: what the bytes of the entry name.
#[derive(Clone, Copy, Debug, PartialEq, Eq)]
pub enum EntryHead<'a> {
    Call(CallHead<'a>),
    Addition(NamedProgram<'a>),
}
