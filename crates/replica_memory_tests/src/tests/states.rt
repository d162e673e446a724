//! The state that a replica tells of itself.

use log_model::Verdict;
use replica::Replica;
use row_sets::Row;
use std::alloc::{Allocator, Global};
use test_programs::{byte_at, certification_at};

/// The state that a replica is to tell of itself: the verdict on each entry that it has; the bytes at keys 1 and 2; the
/// number of rows and the sum of keys times bytes; the number of procedures, and the number of `one`.
#[derive(Clone, Copy)]
pub(super) struct State {
    pub verdicts: &'static [Verdict],
    pub first: Option<u8>,
    pub second: Option<u8>,
    pub listed: (usize, u64),
    pub procedures: usize,
    pub one: Option<u16>,
}

/// The state after one put of 10 at key 1.
pub(super) const ONE_PUT: State = State {
    verdicts: &[Verdict::Commit],
    first: Some(10),
    second: None,
    listed: (1, 10),
    procedures: 1,
    one: None,
};

fn counted(rows: &[Row]) -> (usize, u64) {
    let mut sum = 0u64;
    for row in rows {
        let byte = row.bytes().first().copied().unwrap_or(0);
        sum = sum.wrapping_add(row.key().wrapping_mul(u64::from(byte)));
    }
    (rows.len(), sum)
}

fn listed_now<A: Allocator + Copy>(
    alloc: Global,
    replica: &Replica<A, Global>,
) -> Option<(usize, u64)> {
    match replica.rows(alloc) {
        Ok(rows) => Some(counted(&rows)),
        Err(_) => None,
    }
}

/// Tells whether the replica has these verdicts on its entries, and no more entries.
fn has_verdicts<A: Allocator + Copy>(replica: &Replica<A, Global>, expected: &[Verdict]) -> bool {
    let mut position = 0u32;
    for verdict in expected {
        position = position.wrapping_add(1);
        match certification_at(replica, position) {
            Some(certification) if certification.verdict == *verdict => (),
            _ => return false,
        }
    }
    replica.position() == position
}

/// Tells whether there are `count` procedures, and `one` is found by its name and by its number, or by neither.
fn has_procedures<A: Allocator + Copy>(
    replica: &Replica<A, Global>,
    count: usize,
    one: Option<u16>,
) -> bool {
    let procedures = replica.procedures();
    let numbered = procedures.by_number(9).is_some();
    procedures.list().count() == count
        && procedures.by_name(b"one") == one
        && numbered == one.is_some()
}

/// Tells whether a replica, stopped or not, is in this state.
pub(super) fn is_in<A: Allocator + Copy>(
    alloc: Global,
    replica: &Replica<A, Global>,
    state: &State,
    stopped: bool,
) -> bool {
    let position = replica.position();
    let rows = byte_at(replica, position, 1) == Some(state.first)
        && byte_at(replica, position, 2) == Some(state.second)
        && listed_now(alloc, replica) == Some(state.listed);
    rows && replica.stopped() == stopped
        && has_verdicts(replica, state.verdicts)
        && has_procedures(replica, state.procedures, state.one)
}
