//! The calls that a node is asked for.

use log_model::RequestId;
use row_sets::Bytes;
use std::alloc::{Allocator, Global};
use std::marker::Model;

/// A call that a caller asks for. Contracts see the arguments as a list of bytes.
#[derive(Drop)]
pub struct Asked<A: Allocator = Global> {
    /// The position of the log up to which the call has to see at least.
    pub least: u32,
    /// The procedure's number.
    pub procedure: u16,
    pub args: Bytes<A>,
    pub request: Option<RequestId>,
}

impl<A: Allocator> Model for Asked<A> {
    ghost use Rattle.node_calls.specs.Asked.{AskedCall, asked_code};

    ghost Value = { AskedCall };

    ghost coded = { asked_code };

    ghost view = { λ a. record { least = a.least; procedure = a.procedure; args = a.args; request = a.request } };
}
