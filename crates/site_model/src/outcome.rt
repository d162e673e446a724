//! The outcome of a byte string of an order.

use crate::cause::NothingCause;
use log_model::Identifier;

/// The outcome of a byte string of an order.
#[derive(Clone, Copy, Debug, PartialEq, Eq)]
pub enum EntryOutcome {
    /// The call's writes are installed. The value is the call's reply.
    Committed(u64),
    /// The committed call at this position wrote a key that this call looked at. The position is the least such one
    /// since this call's snapshot.
    Conflict(u32),
    /// The call's snapshot is too old.
    Stale,
    /// The request was done at this position, by the committed call there or at 0 before the order, with this reply.
    Repeated { position: u32, reply: u64 },
    /// The procedure of this number is added.
    Added(u16),
    /// An earlier procedure has what the added one has.
    Taken(Identifier),
    /// The session of this number is opened.
    Session(u32),
    /// The byte string is nothing.
    Nothing(NothingCause),
}
