//! A queue of rows at rising keys: the rows that were removed from it are dropped while it goes on.

use log_model::Verdict;
use schema::Schema;
use std::alloc::Global;
use std::process::Abort;
use test_programs::{EntryCase, entry_of, small_catalogue};
use test_replicas::CheckedReplica;

/// The number of rows that stand in the queue.
const QUEUED: u64 = 50;

const ENTRIES: u32 = 20_000;

/// The entry at a position: one puts a row behind the others, and the next removes the first one. No written key is
/// looked at.
fn case_at(position: u32) -> EntryCase {
    let snapshot = position.saturating_sub(1);
    let first = u64::from(position / 2);
    if position % 2 == 1 {
        EntryCase::Call(snapshot, 0, 0, first + 1 + QUEUED, Some(1))
    } else {
        EntryCase::Call(snapshot, 0, 0, first, None)
    }
}

fn deliver_at(
    rt: &impl Abort,
    alloc: Global,
    schema: &Schema,
    checked: &mut CheckedReplica<'_>,
    position: u32,
) {
    let entry = entry_of(alloc, schema, case_at(position)).expect(rt, "an entry");
    let delivered = checked.deliver(&entry);
    assert!(rt; matches!(delivered, Some(Ok(Verdict::Commit))));
}

/// The most pages that the table had after a delivery.
fn most_pages(
    rt: &impl Abort,
    alloc: Global,
    schema: &Schema,
    checked: &mut CheckedReplica<'_>,
) -> usize {
    let mut most = 0;
    for position in 1..=ENTRIES {
        deliver_at(rt, alloc, schema, checked, position);
        most = most.max(checked.replica().pages(1));
    }
    most
}

/// The table would have more than 300 pages in the end, if nothing were dropped. Some 200 keys are left: the 50 rows,
/// those removed within the window and those that are removed while a pass goes on. They stand in pages of 32 and more,
/// and a few sparse ones.
#[test]
fn what_left_a_queue_is_dropped(rt: HostRuntime) {
    let alloc = rt.alloc();
    let catalogue = small_catalogue(alloc).expect(&rt, "a catalogue");
    let mut checked = CheckedReplica::new(alloc, 64, &catalogue).expect(&rt, "memory");
    let most = most_pages(&rt, alloc, catalogue.schema(), &mut checked);
    assert!(rt; most <= 16, "{most} pages");
}
