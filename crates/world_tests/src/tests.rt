//! Drawn worlds come to what the plain replayer says of what they ordered.

use dsm_world::World;
use log_entry::Entry;
use plain_replayer::{CompletedReplay, ItemReport, Row};
use replica::Replica;
use scarce::Scarce;
use std::alloc::Global;
use std::process::Abort;
use test_worlds::{
    DrawnWorld, Events, History, KINDS, Ordered, has_reads, has_verdicts, new_world, replay_of,
};
use txn_view::{Gone, Store};

/// The number of worlds that are drawn.
const WORLDS: u64 = 720;

/// The place at which a world isn't what the plain replay says.
#[derive(Clone, Copy, Debug, PartialEq, Eq)]
enum Difference {
    None,
    /// An outcome has another number or position than the next one.
    Numbers,
    Replies,
    /// The reply of a call that only read.
    Reads,
    Verdicts,
    /// The certifications that a replica has of the calls that were delivered to it.
    Certifications,
    /// The rows of a replica before it is brought to the end of the log.
    Rows,
    LastRows,
}

/// Tells whether the entry at a position of the world's log is what was ordered. A call has the reply that it answered,
/// which is that of its run in the replay.
fn is_logged(
    entry: Option<&Entry<&Scarce>>,
    history: &History,
    ordered: &Ordered,
    report: &ItemReport,
) -> bool {
    match (entry, ordered) {
        (Some(Entry::Call(call)), Ordered::Call(number)) => {
            let reply = history.reply_of(*number);
            call.call == *number && reply == Some(call.reply) && reply == Some(report.reply())
        }
        (Some(Entry::Addition(added)), Ordered::Addition { name, number }) => {
            added.number == *number && added.name.as_slice() == name.as_bytes()
        }
        _ => false,
    }
}

/// Tells whether all that was ordered stands in the world's log.
fn has_replies(world: &World<&Scarce>, history: &History, reports: &[ItemReport]) -> bool {
    let mut position = 0u32;
    for (ordered, report) in history.ordered.iter().zip(reports) {
        position = position.wrapping_add(1);
        if !is_logged(world.entry(position), history, ordered, report) {
            return false;
        }
    }
    history.ordered.len() == reports.len() && world.log_len() == position
}

/// Tells whether a replica is at the end of the log, and says of each call what the replay says.
fn says_the_same(replica: &Replica<&Scarce>, reports: &[ItemReport]) -> bool {
    let last = replica.position();
    let mut position = 0u32;
    for report in reports {
        position = position.wrapping_add(1);
        if position == 0 || position > last {
            return false;
        }
        let said = replica.verdict_at(position);
        let compared = report.comparisons().len() as u64;
        if said.verdict != report.verdict() || said.compared != compared {
            return false;
        }
    }
    position == last && !replica.stopped()
}

fn are_rows(found: &[Row], rows: &[Row]) -> bool {
    for (one, other) in found.iter().zip(rows) {
        let same_key = one.table() == other.table() && one.key() == other.key();
        if !same_key || one.bytes() != other.bytes() {
            return false;
        }
    }
    found.len() == rows.len()
}

fn finds<S: Store>(store: &S, row: &Row) -> bool {
    match store.get(row.table(), row.key()) {
        Ok(Some(found)) => found == row.bytes(),
        _ => false,
    }
}

/// Tells whether each of these rows is found.
fn finds_rows<S: Store>(store: &S, rows: &[Row]) -> bool {
    for row in rows {
        if !finds(store, row) {
            return false;
        }
    }
    true
}

/// Tells whether a replica that has come to a position shows the rows of the replay after a position before it. No rows
/// may be shown after a position to which the replica hasn't come. Rows are gone where more than the window came since.
fn shows_rows(
    drawn: &DrawnWorld<'_>,
    replay: &CompletedReplay,
    number: u32,
    last: u32,
    before: u32,
) -> bool {
    let position = last.saturating_sub(before);
    let rows = replay.rows(position as usize).unwrap_or(&[]);
    let shown = match drawn.world.at(number, position) {
        Some(at) if before > drawn.window => matches!(at.get(1, 1), Err(Gone)),
        Some(at) => finds_rows(&at, rows),
        None => false,
    };
    shown && drawn.world.at(number, last.saturating_add(1)).is_none()
}

/// Tells whether these are the rows of the replay after the position of a replica, which shows the rows after positions
/// before it.
fn has_listed(
    drawn: &DrawnWorld<'_>,
    replay: &CompletedReplay,
    number: u32,
    last: u32,
    found: &[Row],
) -> bool {
    let rows = replay.rows(last as usize);
    rows.is_some_and(|rows| are_rows(found, rows))
        && shows_rows(drawn, replay, number, last, 0)
        && shows_rows(drawn, replay, number, last, drawn.window.min(last))
        && shows_rows(drawn, replay, number, last, last)
}

/// Tells whether a replica has the rows of the replay after its position, and shows the rows after positions before it.
fn has_rows(
    rt: &impl Abort,
    alloc: Global,
    drawn: &DrawnWorld<'_>,
    replay: &CompletedReplay,
    number: u32,
) -> bool {
    match drawn.world.rows(alloc, number).expect(rt, "memory") {
        Some(listed) => has_listed(drawn, replay, number, listed.position, &listed.rows),
        None => false,
    }
}

/// Tells whether each replica has the rows of the replay, and there are no more replicas.
fn have_rows(
    rt: &impl Abort,
    alloc: Global,
    drawn: &DrawnWorld<'_>,
    replay: &CompletedReplay,
) -> bool {
    let replicas = u32::try_from(drawn.world.replicas().len()).unwrap_or(0);
    for number in 0..replicas.saturating_add(2) {
        let is_there = number >= 1 && number <= replicas;
        if has_rows(rt, alloc, drawn, replay, number) != is_there {
            return false;
        }
    }
    true
}

/// Returns the place at which the answers of a world, and its replicas at the end of the log, aren't what the replay
/// says.
fn difference_of_answers(drawn: &DrawnWorld<'_>, replay: &CompletedReplay) -> Difference {
    let reports = replay.reports();
    for replica in drawn.world.replicas() {
        if !says_the_same(replica, reports) {
            return Difference::Certifications;
        }
    }
    if drawn.history.odd {
        Difference::Numbers
    } else if !has_replies(&drawn.world, &drawn.history, reports) {
        Difference::Replies
    } else if !has_reads(&drawn.history, replay) {
        Difference::Reads
    } else if !has_verdicts(&drawn.history, reports) {
        Difference::Verdicts
    } else {
        Difference::None
    }
}

/// Returns the place at which a world isn't what this replay of its log says, before and after its replicas are brought
/// to the end.
fn difference_to(
    rt: &impl Abort,
    alloc: Global,
    drawn: &mut DrawnWorld<'_>,
    replay: &CompletedReplay,
    events: &mut Events,
) -> Difference {
    if !have_rows(rt, alloc, drawn, replay) {
        return Difference::Rows;
    }
    drawn.finish();
    if !have_rows(rt, alloc, drawn, replay) {
        return Difference::LastRows;
    }
    events.count_all(&drawn.history, drawn.window, replay.reports());
    difference_of_answers(drawn, replay)
}

/// Takes the steps of a drawn world, and compares it.
fn run_and_compare(
    rt: &impl Abort,
    alloc: Global,
    drawn: &mut DrawnWorld<'_>,
    events: &mut Events,
) -> Difference {
    drawn.run();
    let replay = replay_of(alloc, &drawn.history, drawn.window).expect(rt, "memory");
    let found = difference_to(rt, alloc, drawn, &replay, events);
    assert!(rt; !drawn.history.wanting, "memory");
    found
}

/// Draws a world of a seed and compares it. Its outcomes are added by their kinds.
fn compare(
    rt: &impl Abort,
    alloc: Global,
    seed: u64,
    kinds: &mut [u32; KINDS],
    events: &mut Events,
) -> Difference {
    let scarce = Scarce::new(alloc);
    let mut drawn = new_world(alloc, &scarce, seed, *kinds).expect(rt, "memory");
    let found = run_and_compare(rt, alloc, &mut drawn, events);
    *kinds = drawn.history.kinds;
    found
}

/// Returns the number of kinds of outcomes that came more than 100 times.
fn common(kinds: &[u32; KINDS]) -> usize {
    kinds.iter().filter(|count| **count > 100).count()
}

#[test]
fn worlds_come_to_what_the_plain_replay_says(rt: HostRuntime) {
    let mut kinds = [0; KINDS];
    let mut events = Events::new();
    for seed in 0..WORLDS {
        let found = compare(&rt, rt.alloc(), seed, &mut kinds, &mut events);
        assert_eq!(rt; found, Difference::None, "seed {seed}");
    }
    // Every kind but a full log and too many calls is common.
    assert_eq!(rt; common(&kinds), KINDS - 2, "{kinds:?}");
    assert!(rt; events.all_above(100), "{events:?}");
}
