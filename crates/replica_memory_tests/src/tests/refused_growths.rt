//! A replica that finds no memory for an entry: each growth of a delivery is refused in turn.

use super::states::{ONE_PUT, State, is_in};
use catalogue::Catalogue;
use log_entry::Entry;
use log_model::{Identifier, Verdict};
use replica::Stopped;
use scarce::Scarce;
use schema::Schema;
use std::alloc::{Allocator, Global};
use std::process::Abort;
use test_programs::{EntryCase, ONE, addition_of, entries_of, entry_of, small_catalogue};
use test_replicas::CheckedReplica;

/// Entries, then one that is delivered with a growth refused, and the number of growths of that delivery. Seven
/// growths make room for the key of a write where there is none (its row lies beside it). Four make room for requests
/// or procedures where there is none. One is for a name, and one at times for the verdict. The states are what the
/// replica says of itself before the last entry and after it.
struct RefusedCase {
    entries: &'static [EntryCase],
    last: EntryCase,
    growths: u64,
    before: State,
    after: State,
}

/// The state before the first entry.
const EMPTY: State = State {
    verdicts: &[],
    first: None,
    second: None,
    listed: (0, 0),
    procedures: 1,
    one: None,
};

/// The state after a put and an addition.
const TWO: State = State {
    verdicts: &[Verdict::Commit, Verdict::Commit],
    first: Some(10),
    second: None,
    listed: (1, 10),
    procedures: 2,
    one: Some(9),
};

/// The state after one more put.
const THREE: State = State {
    verdicts: &[Verdict::Commit, Verdict::Commit, Verdict::Commit],
    first: Some(10),
    second: Some(20),
    listed: (2, 50),
    procedures: 2,
    one: Some(9),
};

/// A put of 10 at key 1 and the addition of `one`, after which the state is `TWO`.
const PUT_AND_ADDITION: [EntryCase; 2] = [
    EntryCase::Numbered(7, 1, 0, 5, 5, 1, Some(10)),
    EntryCase::Addition(b"one", 9),
];

static CASES: [RefusedCase; 8] = [
    RefusedCase {
        entries: &[],
        last: EntryCase::Call(0, 5, 5, 1, Some(10)),
        growths: 7,
        before: EMPTY,
        after: ONE_PUT,
    },
    RefusedCase {
        entries: &[],
        last: EntryCase::Numbered(7, 1, 0, 5, 5, 2, Some(10)),
        growths: 11,
        before: EMPTY,
        after: State {
            verdicts: &[Verdict::Commit],
            first: None,
            second: Some(10),
            listed: (1, 20),
            procedures: 1,
            one: None,
        },
    },
    RefusedCase {
        entries: &[],
        last: EntryCase::Addition(b"one", 9),
        growths: 2,
        before: EMPTY,
        after: State {
            verdicts: &[Verdict::Commit],
            first: None,
            second: None,
            listed: (0, 0),
            procedures: 2,
            one: Some(9),
        },
    },
    RefusedCase {
        entries: &[],
        last: EntryCase::Addition(b"one", 1),
        growths: 1,
        before: EMPTY,
        after: State {
            verdicts: &[Verdict::Taken(Identifier::Number)],
            first: None,
            second: None,
            listed: (0, 0),
            procedures: 1,
            one: None,
        },
    },
    RefusedCase {
        entries: &PUT_AND_ADDITION,
        last: EntryCase::Call(2, 5, 5, 2, Some(20)),
        growths: 1,
        before: TWO,
        after: THREE,
    },
    RefusedCase {
        entries: &PUT_AND_ADDITION,
        last: EntryCase::Numbered(7, 2, 2, 5, 5, 2, Some(20)),
        growths: 1,
        before: TWO,
        after: THREE,
    },
    // The writes of a repeated call are prepared, though they aren't installed.
    RefusedCase {
        entries: &PUT_AND_ADDITION,
        last: EntryCase::Numbered(7, 1, 0, 5, 5, 2, Some(20)),
        growths: 1,
        before: TWO,
        after: State {
            verdicts: &[Verdict::Commit, Verdict::Commit, Verdict::Repeated(1)],
            first: Some(10),
            second: None,
            listed: (1, 10),
            procedures: 2,
            one: Some(9),
        },
    },
    RefusedCase {
        entries: &[
            EntryCase::Numbered(7, 1, 0, 5, 5, 1, Some(10)),
            EntryCase::Addition(b"two", 10),
        ],
        last: EntryCase::Addition(b"one", 9),
        growths: 1,
        before: State {
            verdicts: &[Verdict::Commit, Verdict::Commit],
            first: Some(10),
            second: None,
            listed: (1, 10),
            procedures: 2,
            one: None,
        },
        after: State {
            verdicts: &[Verdict::Commit, Verdict::Commit, Verdict::Commit],
            first: Some(10),
            second: None,
            listed: (1, 10),
            procedures: 3,
            one: Some(9),
        },
    },
];

/// Tells whether a replica that stopped before the last entry has what it had, and delivers no more. Once it is made
/// anew it has to have the entry.
fn stays_stopped<A: Allocator + Copy>(
    alloc: Global,
    checked: &mut CheckedReplica<A, Global>,
    entries: &[Entry],
    last: &Entry,
    case: &RefusedCase,
) -> bool {
    let left = is_in(alloc, checked.replica(), &case.before, true);
    let again = checked.deliver(last) == Some(Err(Stopped));
    let same = is_in(alloc, checked.replica(), &case.before, true);
    let rebuilt = matches!(checked.rebuild(entries), Some(Ok(_)));
    left && again && same && rebuilt && is_in(alloc, checked.replica(), &case.after, false)
}

/// The outcome of a replica of a case.
#[derive(Clone, Copy, PartialEq, Eq)]
enum Came {
    /// The replica wasn't made, for want of memory.
    Unmade,
    /// The last entry found no memory.
    Refused,
    Delivered,
    /// A part isn't as the case says.
    Unlike,
}

/// Delivers entries, the last with the growth of this number refused.
fn came_of<A: Allocator + Copy>(
    alloc: Global,
    scarce: &Scarce,
    checked: &mut CheckedReplica<A, Global>,
    entries: &[Entry],
    case: &RefusedCase,
    refused: u64,
) -> Came {
    let Some((last, before)) = entries.split_last() else {
        return Came::Unlike;
    };
    for entry in before {
        let _told = checked.deliver(entry);
    }
    let begun = is_in(alloc, checked.replica(), &case.before, false);
    scarce.refuse_nth(refused);
    let told = checked.deliver(last);
    scarce.refuse_nth(0);
    let (came, same) = match told {
        Some(Ok(_)) => (
            Came::Delivered,
            is_in(alloc, checked.replica(), &case.after, false),
        ),
        Some(Err(_)) => (
            Came::Refused,
            stays_stopped(alloc, checked, entries, last, case),
        ),
        None => (Came::Unlike, false),
    };
    if begun && same { came } else { Came::Unlike }
}

/// The growth that is refused: of a replica that is made, or of the last delivery.
#[derive(Clone, Copy)]
enum Growth {
    Making(u64),
    Delivering(u64),
}

/// Makes a replica and delivers the entries of a case with a growth refused. One function owns the replica in all
/// tests, since each owning function takes long to be proved.
fn attempt(
    alloc: Global,
    catalogue: &Catalogue,
    entries: &[Entry],
    case: &RefusedCase,
    growth: Growth,
) -> Came {
    let (making, delivering) = match growth {
        Growth::Making(number) => (number, 0),
        Growth::Delivering(number) => (0, number),
    };
    let scarce = Scarce::new(alloc);
    scarce.refuse_nth(making);
    let Ok(mut checked) = CheckedReplica::new(&scarce, 2, catalogue) else {
        return Came::Unmade;
    };
    scarce.refuse_nth(0);
    came_of(alloc, &scarce, &mut checked, entries, case, delivering)
}

/// Returns the number of growths of this kind that were refused, each in turn with this outcome, before all went well;
/// none where something isn't as the case says.
fn refused_among(
    alloc: Global,
    catalogue: &Catalogue,
    entries: &[Entry],
    case: &RefusedCase,
    outcome: Came,
) -> Option<u64> {
    for number in 1..100u64 {
        let growth = if outcome == Came::Unmade {
            Growth::Making(number)
        } else {
            Growth::Delivering(number)
        };
        let came = attempt(alloc, catalogue, entries, case, growth);
        if came == Came::Delivered {
            return Some(number - 1);
        }
        if came != outcome {
            return None;
        }
    }
    None
}

fn refused_of(
    rt: &impl Abort,
    alloc: Global,
    catalogue: &Catalogue,
    case: &RefusedCase,
    outcome: Came,
) -> Option<u64> {
    let schema = catalogue.schema();
    let mut entries = entries_of(alloc, schema, case.entries).expect(rt, "memory");
    push(rt, &mut entries, entry_of(alloc, schema, case.last));
    refused_among(alloc, catalogue, &entries, case, outcome)
}

#[test]
fn a_refused_growth_stops_the_replica(rt: HostRuntime) {
    let catalogue = small_catalogue(rt.alloc()).expect(&rt, "memory");
    for case in &CASES {
        let refused = refused_of(&rt, rt.alloc(), &catalogue, case, Came::Refused);
        assert_eq!(rt; refused, Some(case.growths));
        let unmade = refused_of(&rt, rt.alloc(), &catalogue, case, Came::Unmade);
        assert!(rt; unmade.is_some_and(|count| count > 0));
    }
}

// ---- growths with kept requests and without

/// The number of times that a call with a request, a call without, and an addition are delivered in turn.
const TURNS: u32 = 16;

/// Returns such entries in turn, with requests in the first of each three or without.
fn probing_entries(rt: &impl Abort, alloc: Global, schema: &Schema, session: u32) -> Vec<Entry> {
    let mut entries = Vec::new(alloc);
    for turn in 0..TURNS {
        add_turn(
            rt,
            alloc,
            schema,
            session,
            turn.wrapping_mul(3),
            &mut entries,
        );
    }
    entries
}

/// Adds one such turn, when `before` entries were added.
fn add_turn(
    rt: &impl Abort,
    alloc: Global,
    schema: &Schema,
    session: u32,
    before: u32,
    entries: &mut Vec<Entry>,
) {
    let key = u64::from(before);
    let sequence = if session == 0 { 0 } else { before.max(1) };
    let first = EntryCase::Numbered(session, sequence, before, 99, 99, key, Some(1));
    let second = EntryCase::Call(before, 99, 99, key.wrapping_add(1), Some(1));
    let number = u16::try_from(before).unwrap_or(0);
    let name = [b'a'.wrapping_add((number / 3).to_le_bytes()[0])];
    push(rt, entries, entry_of(alloc, schema, first));
    push(rt, entries, entry_of(alloc, schema, second));
    let number = number.wrapping_add(100);
    push(
        rt,
        entries,
        addition_of(alloc, schema, &name, number, ONE, 0),
    );
}

fn push(rt: &impl Abort, entries: &mut Vec<Entry>, entry: Option<Entry>) {
    let entry = entry.expect(rt, "memory");
    entries.push(entry).expect(rt, "memory");
}

/// Returns the number of growths that each of these deliveries makes; none where one doesn't commit.
fn growths_in<A: Allocator + Copy>(
    scarce: &Scarce,
    checked: &mut CheckedReplica<A, Global>,
    entries: &[Entry],
) -> Option<[u64; 48]> {
    let mut growths = [0u64; 48];
    for (place, entry) in entries.iter().enumerate() {
        let before = scarce.growths();
        if checked.deliver(entry) != Some(Ok(Verdict::Commit)) {
            return None;
        }
        *growths.get_mut(place)? = scarce.growths().wrapping_sub(before);
    }
    Some(growths)
}

fn growths_of(
    rt: &impl Abort,
    alloc: Global,
    catalogue: &Catalogue,
    session: u32,
) -> Option<[u64; 48]> {
    let entries = probing_entries(rt, alloc, catalogue.schema(), session);
    let scarce = Scarce::new(alloc);
    let mut checked = CheckedReplica::new(&scarce, 4, catalogue).expect(rt, "memory");
    growths_in(&scarce, &mut checked, &entries)
}

/// Returns the growths of the first of each three together, with requests and without, and whether the others are as
/// many.
fn compared(with: [u64; 48], without: [u64; 48]) -> (u64, u64, bool) {
    let (mut first, mut second, mut same) = (0u64, 0u64, true);
    for place in 0..48usize {
        if place % 3 == 0 {
            first = first.wrapping_add(with[place]);
            second = second.wrapping_add(without[place]);
        } else if with[place] != without[place] {
            same = false;
        }
    }
    (first, second, same)
}

/// A call with a request makes room for it, also where the room is full; no other entry does.
#[test]
fn kept_requests_cost_other_entries_no_growth(rt: HostRuntime) {
    let catalogue = small_catalogue(rt.alloc()).expect(&rt, "memory");
    let with = growths_of(&rt, rt.alloc(), &catalogue, 7);
    let without = growths_of(&rt, rt.alloc(), &catalogue, 0);
    assert!(rt; with.is_some() && without.is_some());
    let (first, second, same) = compared(with.unwrap_or([0; 48]), without.unwrap_or([0; 48]));
    assert!(rt; same && first > second, "{first}, {second}");
}
