//! What came before an order.

/// What came before an order that opens sessions. An order without an origin opens none.
#[derive(Clone, Copy, Debug, PartialEq, Eq)]
pub struct Origin {
    /// The number of byte strings that came before, in other orders.
    pub strings: u64,
    /// The greatest number of a session that was opened before.
    pub sessions: u32,
}
