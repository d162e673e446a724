//! Logs that are written down, with the verdicts, rows and procedures that a replica comes to.

use catalogue::Catalogue;
use log_entry::Entry;
use log_model::{Identifier, Verdict};
use replica::Replica;
use std::alloc::Global;
use std::process::Abort;
use test_programs::{EntryCase, byte_at, certification_at, entry_of, small_catalogue};
use test_replicas::CheckedReplica;

/// A log under a window. Each entry stands with the verdict on it and the number of comparisons that this takes.
/// Positions and keys stand with what is found there after all entries, and the procedures then in order of entry.
struct LogCase {
    window: u32,
    steps: &'static [(EntryCase, Verdict, u64)],
    rows: &'static [(u32, u64, Option<Option<u8>>)],
    procedures: &'static [(&'static [u8], u16)],
}

const NAME_TAKEN: Verdict = Verdict::Taken(Identifier::Name);

const NUMBER_TAKEN: Verdict = Verdict::Taken(Identifier::Number);

static LOGS: [LogCase; 3] = [
    // A program of another language told these outcomes.
    LogCase {
        window: 2,
        steps: &[
            (EntryCase::Call(0, 5, 5, 5, Some(1)), Verdict::Commit, 0),
            (
                EntryCase::Call(0, 5, 5, 5, Some(2)),
                Verdict::Conflict(1),
                1,
            ),
            (EntryCase::Call(1, 5, 5, 5, Some(3)), Verdict::Commit, 0),
            (EntryCase::Call(1, 9, 9, 7, Some(4)), Verdict::Commit, 0),
            (EntryCase::Call(2, 20, 99, 5, None), Verdict::Commit, 2),
            (EntryCase::Call(2, 5, 5, 5, Some(6)), Verdict::Stale, 0),
            (EntryCase::Call(5, 0, 3, 8, Some(7)), Verdict::Commit, 0),
            (
                EntryCase::Call(6, 0, 30, 9, Some(8)),
                Verdict::Conflict(7),
                1,
            ),
        ],
        rows: &[
            (5, 7, None),
            (6, 5, Some(None)),
            (6, 7, Some(Some(4))),
            (6, 8, Some(None)),
            (7, 8, Some(Some(7))),
            (8, 8, Some(Some(7))),
            (8, 9, Some(None)),
        ],
        procedures: &[(b"1", 1)],
    },
    // Names and numbers that are taken: the name's verdict comes first. Additions take places in the window.
    LogCase {
        window: 2,
        steps: &[
            (EntryCase::Addition(b"1", 1), NAME_TAKEN, 0),
            (EntryCase::Addition(b"1", 9), NAME_TAKEN, 0),
            (EntryCase::Addition(b"one", 1), NUMBER_TAKEN, 0),
            (EntryCase::Addition(b"one", 9), Verdict::Commit, 0),
            (EntryCase::Addition(b"one", 9), NAME_TAKEN, 0),
            (EntryCase::Addition(b"two", 9), NUMBER_TAKEN, 0),
            (EntryCase::Addition(b"one", 10), NAME_TAKEN, 0),
            (EntryCase::Addition(b"two", 10), Verdict::Commit, 0),
            (EntryCase::Addition(b"1", 10), NAME_TAKEN, 0),
            (EntryCase::Addition(b"One", 65_535), Verdict::Commit, 0),
            (EntryCase::Call(7, 5, 5, 5, Some(1)), Verdict::Stale, 0),
            (EntryCase::Call(9, 5, 5, 5, Some(2)), Verdict::Commit, 0),
            (EntryCase::Addition(b"Two", 1), NUMBER_TAKEN, 0),
        ],
        rows: &[(10, 5, None), (11, 5, Some(None)), (13, 5, Some(Some(2)))],
        procedures: &[(b"1", 1), (b"one", 9), (b"two", 10), (b"One", 65_535)],
    },
    // A call is repeated within the window and past it, where it would be stale. A conflict and a stale call leave
    // their request free. A repeated call writes nothing, and a request with its numbers exchanged is another.
    LogCase {
        window: 2,
        steps: &[
            (
                EntryCase::Numbered(7, 1, 0, 5, 5, 5, Some(1)),
                Verdict::Commit,
                0,
            ),
            (
                EntryCase::Numbered(7, 2, 0, 5, 5, 5, Some(2)),
                Verdict::Conflict(1),
                1,
            ),
            (
                EntryCase::Numbered(7, 2, 1, 9, 9, 5, Some(3)),
                Verdict::Commit,
                0,
            ),
            (
                EntryCase::Numbered(7, 2, 3, 5, 5, 6, Some(4)),
                Verdict::Repeated(3),
                0,
            ),
            (
                EntryCase::Numbered(7, 3, 1, 9, 9, 7, Some(5)),
                Verdict::Stale,
                0,
            ),
            (EntryCase::Addition(b"one", 9), Verdict::Commit, 0),
            (
                EntryCase::Numbered(7, 3, 5, 9, 9, 7, Some(6)),
                Verdict::Commit,
                0,
            ),
            (
                EntryCase::Numbered(7, 1, 0, 5, 5, 6, Some(7)),
                Verdict::Repeated(1),
                0,
            ),
            (
                EntryCase::Numbered(7, 3, 8, 5, 5, 6, Some(8)),
                Verdict::Repeated(7),
                0,
            ),
            (
                EntryCase::Numbered(1, 7, 8, 9, 9, 8, Some(9)),
                Verdict::Commit,
                0,
            ),
            (EntryCase::Call(8, 9, 9, 4, Some(10)), Verdict::Commit, 0),
            (EntryCase::Call(9, 9, 9, 4, Some(11)), Verdict::Commit, 0),
            (
                EntryCase::Numbered(7, 4, 9, 9, 9, 3, Some(12)),
                Verdict::Stale,
                0,
            ),
            (
                EntryCase::Numbered(7, 4, 0, 9, 9, 3, Some(13)),
                Verdict::Stale,
                0,
            ),
            (
                EntryCase::Numbered(7, 4, 12, 9, 9, 3, Some(14)),
                Verdict::Commit,
                0,
            ),
            (
                EntryCase::Numbered(7, 4, 0, 9, 9, 6, Some(15)),
                Verdict::Repeated(15),
                0,
            ),
        ],
        rows: &[
            (14, 3, Some(None)),
            (16, 3, Some(Some(14))),
            (16, 4, Some(Some(11))),
            (16, 5, Some(Some(3))),
            (16, 6, Some(None)),
            (16, 7, Some(Some(6))),
            (16, 8, Some(Some(9))),
        ],
        procedures: &[(b"1", 1), (b"one", 9)],
    },
];

/// Tells whether an entry is delivered with this verdict, by this number of comparisons.
fn comes_to(checked: &mut CheckedReplica, entry: &Entry, verdict: Verdict, compared: u64) -> bool {
    let told = checked.deliver(entry);
    let replica = checked.replica();
    match certification_at(replica, replica.position()) {
        Some(said) => {
            told == Some(Ok(verdict)) && said.verdict == verdict && said.compared == compared
        }
        None => false,
    }
}

/// Tells whether the procedures are these, in this order, and each is found by its name and by its number.
fn has_procedures(replica: &Replica, expected: &[(&[u8], u16)]) -> bool {
    let mut listed = replica.procedures().list();
    for (name, number) in expected {
        let found = match listed.next() {
            Some(entry) => entry.name == *name && entry.number == *number,
            None => false,
        };
        let procedures = replica.procedures();
        let named = procedures.by_name(name) == Some(*number);
        if !found || !named || procedures.by_number(*number).is_none() {
            return false;
        }
    }
    listed.next().is_none()
}

/// The first position and key at which a replica has another row.
fn wrong_row(replica: &Replica, rows: &[(u32, u64, Option<Option<u8>>)]) -> Option<(u32, u64)> {
    for (position, key, expected) in rows {
        if byte_at(replica, *position, *key) != *expected {
            return Some((*position, *key));
        }
    }
    None
}

/// The outcomes of a replica that aren't as they are written down: the position of the first step with another verdict
/// or count; a position and a key with another row; and whether the procedures are others.
#[derive(Clone, Copy, Debug, PartialEq, Eq)]
struct Difference {
    step: Option<u32>,
    row: Option<(u32, u64)>,
    procedures: bool,
}

const NONE: Difference = Difference {
    step: None,
    row: None,
    procedures: false,
};

/// Tells whether a step has this verdict and count.
fn takes(
    rt: &impl Abort,
    alloc: Global,
    catalogue: &Catalogue,
    checked: &mut CheckedReplica,
    (case, verdict, compared): (EntryCase, Verdict, u64),
) -> bool {
    let entry = entry_of(alloc, catalogue.schema(), case).expect(rt, "memory");
    comes_to(checked, &entry, verdict, compared)
}

/// The position of the first step with another verdict or count.
fn wrong_step(
    rt: &impl Abort,
    alloc: Global,
    catalogue: &Catalogue,
    checked: &mut CheckedReplica,
    steps: &[(EntryCase, Verdict, u64)],
) -> Option<u32> {
    for step in steps {
        if !takes(rt, alloc, catalogue, checked, *step) {
            return Some(checked.replica().position());
        }
    }
    None
}

fn difference_of(
    rt: &impl Abort,
    alloc: Global,
    catalogue: &Catalogue,
    log: &LogCase,
) -> Difference {
    let mut checked = CheckedReplica::new(alloc, log.window, catalogue).expect(rt, "memory");
    let step = wrong_step(rt, alloc, catalogue, &mut checked, log.steps);
    Difference {
        step,
        row: wrong_row(checked.replica(), log.rows),
        procedures: !has_procedures(checked.replica(), log.procedures),
    }
}

#[test]
fn logs_come_to_what_is_written_down(rt: HostRuntime) {
    let catalogue = small_catalogue(rt.alloc()).expect(&rt, "memory");
    for log in &LOGS {
        assert_eq!(rt; difference_of(&rt, rt.alloc(), &catalogue, log), NONE);
    }
}
