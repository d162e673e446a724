//! Replicas where a growth is refused: each growth of a rebuilding and of a list of the rows in turn.

use super::states::{ONE_PUT, State, is_in};
use catalogue::Catalogue;
use log_entry::Entry;
use log_model::Verdict;
use replica::Replica;
use scarce::Scarce;
use std::alloc::{Allocator, Global};
use std::process::Abort;
use test_programs::{EntryCase, entries_of, small_catalogue};
use test_replicas::CheckedReplica;

/// The most growths that are refused in turn, more than any call of these tests makes.
const MOST: u64 = 200;

/// A log of entries of each kind, of which some come to nothing.
const DELIVERIES: [EntryCase; 7] = [
    EntryCase::Call(0, 9, 9, 1, Some(10)),
    EntryCase::Call(0, 1, 1, 1, Some(20)),
    EntryCase::Call(2, 1, 1, 2, Some(30)),
    EntryCase::Call(2, 2, 2, 2, Some(40)),
    EntryCase::Addition(b"one", 9),
    EntryCase::Numbered(7, 1, 4, 9, 9, 3, Some(50)),
    EntryCase::Numbered(7, 1, 0, 9, 9, 4, Some(60)),
];

/// The state after all entries.
const ALL: State = State {
    verdicts: &[
        Verdict::Commit,
        Verdict::Conflict(1),
        Verdict::Commit,
        Verdict::Conflict(3),
        Verdict::Commit,
        Verdict::Commit,
        Verdict::Repeated(6),
    ],
    first: Some(10),
    second: Some(30),
    listed: (3, 220),
    procedures: 2,
    one: Some(9),
};

/// Tells whether a delivery found memory.
fn delivers<A: Allocator + Copy>(checked: &mut CheckedReplica<A, Global>, entry: &Entry) -> bool {
    matches!(checked.deliver(entry), Some(Ok(_)))
}

/// Delivers the first entry, and the next one without memory.
fn stop<A: Allocator + Copy>(
    scarce: &Scarce,
    checked: &mut CheckedReplica<A, Global>,
    entries: &[Entry],
) -> Option<bool> {
    let delivered = delivers(checked, entries.first()?);
    scarce.refuse_all(true);
    let refused = !delivers(checked, entries.get(1)?);
    scarce.refuse_all(false);
    Some(delivered && refused)
}

/// The position after a rebuilding whose growth of this number is refused.
fn rebuilt<A: Allocator + Copy>(
    scarce: &Scarce,
    checked: &mut CheckedReplica<A, Global>,
    entries: &[Entry],
    refused: u64,
) -> Option<u32> {
    scarce.refuse_nth(refused);
    let rebuilt = checked.rebuild(entries);
    scarce.refuse_nth(0);
    rebuilt?.ok()
}

/// Returns the number of growths of a rebuilding that were refused before one went through. The flag tells whether the
/// replica was each time as it had stopped.
fn refuse_rebuilding<A: Allocator + Copy>(
    alloc: Global,
    scarce: &Scarce,
    checked: &mut CheckedReplica<A, Global>,
    entries: &[Entry],
) -> (u64, bool) {
    for growth in 1..MOST {
        if !is_in(alloc, checked.replica(), &ONE_PUT, true) {
            return (growth, false);
        }
        if rebuilt(scarce, checked, entries, growth) == Some(7) {
            return (growth - 1, true);
        }
    }
    (MOST, true)
}

/// Tells whether the rows are listed where the growth of this number is refused.
fn lists<A: Allocator + Copy>(scarce: &Scarce, replica: &Replica<A, Global>, refused: u64) -> bool {
    scarce.refuse_nth(refused);
    let listed = replica.rows(scarce).is_ok();
    scarce.refuse_nth(0);
    listed
}

/// Returns the same for a list of the rows of a replica that has all entries.
fn refuse_listing<A: Allocator + Copy>(
    alloc: Global,
    scarce: &Scarce,
    replica: &Replica<A, Global>,
) -> (u64, bool) {
    for growth in 1..MOST {
        if !is_in(alloc, replica, &ALL, false) {
            return (growth, false);
        }
        if lists(scarce, replica, growth) {
            return (growth - 1, true);
        }
    }
    (MOST, true)
}

/// Returns, for a rebuilding and for a list of the rows, the number of growths that were refused. The flag tells
/// whether the replica was each time as before.
fn refuse_each<A: Allocator + Copy>(
    alloc: Global,
    scarce: &Scarce,
    checked: &mut CheckedReplica<A, Global>,
    entries: &[Entry],
) -> [(u64, bool); 2] {
    if stop(scarce, checked, entries) != Some(true) {
        return [(0, false), (0, false)];
    }
    let rebuilding = refuse_rebuilding(alloc, scarce, checked, entries);
    let listing = refuse_listing(alloc, scarce, checked.replica());
    [rebuilding, listing]
}

/// Returns the same for a replica of its own.
fn refuse_in_turn(rt: &impl Abort, alloc: Global, catalogue: &Catalogue) -> [(u64, bool); 2] {
    let entries = entries_of(alloc, catalogue.schema(), &DELIVERIES).expect(rt, "memory");
    let scarce = Scarce::new(alloc);
    let mut checked = CheckedReplica::new(&scarce, 2, catalogue).expect(rt, "memory");
    refuse_each(alloc, &scarce, &mut checked, &entries)
}

#[test]
fn a_refused_growth_leaves_the_replica_as_it_was(rt: HostRuntime) {
    let catalogue = small_catalogue(rt.alloc()).expect(&rt, "memory");
    let [rebuilding, listing] = refuse_in_turn(&rt, rt.alloc(), &catalogue);
    assert!(rt;
        rebuilding.0 > 10 && rebuilding.0 < MOST && rebuilding.1,
        "{rebuilding:?}"
    );
    assert!(rt;
        listing.0 > 1 && listing.0 < MOST && listing.1,
        "{listing:?}"
    );
}
