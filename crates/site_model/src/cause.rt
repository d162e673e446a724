//! A cause for which a byte string of an order is nothing.

/// A cause for which a byte string of an order is nothing: no call and no addition that all sites have to take. The
/// byte string counts as a position, and changes neither rows nor procedures.
#[derive(Clone, Copy, Debug, PartialEq, Eq)]
pub enum NothingCause {
    /// The byte string is neither a call nor an addition, or exactly one of a call's session and number is 0.
    Unreadable,
    /// The byte string is an addition to an order that takes none, or of a procedure that can't be added.
    Addition,
    /// The call's snapshot isn't a position before its own.
    Snapshot,
    /// The call's procedure doesn't exist at its snapshot, or takes arguments of another length.
    Procedure,
    /// The session of the call's request has done a request of a greater number.
    Superseded,
    /// The session of the call's request isn't known: nothing was told of that session before the order, and the order
    /// didn't open it.
    UnknownSession,
    /// The call cancels, or writes nothing, or the bytes tell another run than the call's.
    Untrue,
}
