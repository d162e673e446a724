use replica::{Certification, Replica};
use std::alloc::{Allocator, Global};
use txn_view::Store;

/// Returns the certification of the entry at a position, where the position was reached.
pub fn certification_at<A: Allocator + Copy>(
    replica: &Replica<A, Global>,
    position: u32,
) -> Option<Certification> {
    if position == 0 || position > replica.position() {
        return None;
    }
    Some(replica.verdict_at(position))
}

/// The first byte at a key of table 1, where the position is reached and kept.
pub fn byte_at<A: Allocator + Copy>(
    replica: &Replica<A, Global>,
    position: u32,
    key: u64,
) -> Option<Option<u8>> {
    if position > replica.position() {
        return None;
    }
    match replica.at(position).get(1, key) {
        Ok(Some(row)) => Some(row.first().copied()),
        Ok(None) => Some(None),
        Err(_) => None,
    }
}
