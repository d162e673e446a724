//! Deliveries to a replica, and reads of its rows.

ghost use Rattle.std.specs.Prelude.{◌≡◌, IfSome};

use catalogue::Catalogue;
use log_entry::{Entry, ExecutedCall};
use log_model::{RequestId, Verdict};
use replica::Replica;
use row_sets::{Bytes, ReadSet, WriteSet};
use schema::Schema;
use std::alloc::Global;
use test_replicas::CheckedReplica;
use txn_view::Store;

/// A put of a number at its own key of table 1, by a call that looked at nothing.
pub(crate) fn put_of(alloc: Global, key: u64, snapshot: u32) -> Option<ExecutedCall>
    ensures { IfSome result (λ e. e.call.snapshot ≡ snapshot) }
{
    let mut writes = WriteSet::new(alloc);
    writes.put(1, key, &key.to_le_bytes()).ok()?;
    Some(ExecutedCall {
        call: 0,
        procedure: 1,
        args: Bytes::new(Vec::new(alloc)),
        snapshot,
        request: None,
        reads: ReadSet::new(alloc),
        writes,
        reply: 0,
    })
}

/// Returns one of keys 1 to `keys`.
pub(crate) fn key_of(number: u64, keys: u64) -> u64 {
    number.checked_rem(keys).unwrap_or(0).saturating_add(1)
}

/// Delivers a put at a key.
fn deliver_put(alloc: Global, checked: &mut CheckedReplica, key: u64) -> Option<Verdict> {
    let call = put_of(alloc, key, checked.replica().position())?;
    deliver(checked, &Entry::Call(call))
}

/// Delivers `times` puts, at the keys in turn.
pub(crate) fn deliver_puts(
    alloc: Global,
    checked: &mut CheckedReplica,
    keys: u64,
    times: u64,
) -> Option<()> {
    for number in 0..times {
        let _verdict = deliver_put(alloc, checked, key_of(number, keys))?;
    }
    Some(())
}

/// Delivers an entry. Returns its verdict, unless the entry was refused.
pub(crate) fn deliver(checked: &mut CheckedReplica, entry: &Entry) -> Option<Verdict> {
    match checked.deliver(entry) {
        Some(Ok(verdict)) => Some(verdict),
        _ => None,
    }
}

pub(crate) fn catalogue_of(alloc: Global) -> Option<Catalogue> {
    let schema = Schema::new(alloc, &[(1, 8)]).ok()?;
    Some(Catalogue::new(alloc, schema))
}

/// Puts a row at each key, and then `times` again. Returns the position that is reached.
pub(crate) fn deliveries(alloc: Global, keys: u64, times: u64) -> Option<u32> {
    let catalogue = catalogue_of(alloc)?;
    let mut checked = CheckedReplica::new(alloc, 4_096, &catalogue).ok()?;
    deliver_puts(alloc, &mut checked, keys, keys.saturating_add(times))?;
    Some(checked.replica().position())
}

/// Tells whether a row is found at a key.
fn is_found(replica: &Replica, key: u64) -> bool {
    let store = replica.at(replica.position());
    let row = store.get(1, key);
    matches!(row, Ok(Some(_)))
}

/// Reads `times` times at the last position, and returns the number of reads that find a row. Their keys are spread.
fn count_found(replica: &Replica, keys: u64, times: u64) -> u64 {
    let mut found = 0u64;
    for number in 0..times {
        if is_found(replica, key_of(number.wrapping_mul(2_654_435_761), keys)) {
            found = found.wrapping_add(1);
        }
    }
    found
}

/// Puts a row at each key, and then reads `times` times.
fn fill_and_read(
    alloc: Global,
    checked: &mut CheckedReplica,
    keys: u64,
    times: u64,
) -> Option<u64> {
    deliver_puts(alloc, checked, keys, keys)?;
    Some(count_found(checked.replica(), keys, times))
}

/// Puts a row at each key, and then reads `times` times. Returns the number of reads that find a row.
pub(crate) fn reads(alloc: Global, keys: u64, times: u64) -> Option<u64> {
    let catalogue = catalogue_of(alloc)?;
    let mut checked = CheckedReplica::new(alloc, 4_096, &catalogue).ok()?;
    fill_and_read(alloc, &mut checked, keys, times)
}
