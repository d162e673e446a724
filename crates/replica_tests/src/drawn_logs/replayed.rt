//! Drawn logs, on which a replica comes to what the plain replayer says.

ghost use Rattle.std.specs.Prelude.{◌<◌, ◌^◌, length};

use super::drawn::{KEYS, NUMBERS, drawn_log, name_of, shipped};
use catalogue::Catalogue;
use log_model::{Identifier, RequestId, Verdict};
use plain_replayer::{
    CompletedReplay, ItemReport, PlainCall, PlainItem, PlainItemKind, PlainSetting, Row,
    procedure_by_name, procedure_by_number, replay_log,
};
use replica::Replica;
use schema::{Look, Schema};
use std::alloc::Global;
use std::process::Abort;
use test_programs::{PROCEDURES, TABLES, catalogue_of, certification_at, setting_of};
use test_replicas::CheckedReplica;
use txn_view::Store;

/// The number of items of a log.
const ITEMS: u32 = 5_000;

/// The log, which is short in these tests.
fn short(log: &[PlainItem]) -> &[PlainItem]
    ensures { length result.now < 2 ^ 32 }
{
    match u32::try_from(log.len()) {
        Ok(_) => log,
        Err(_) => &[],
    }
}

// ---- rows and procedures

/// The look at all keys of table 1.
const EVERYWHERE: Look = Look {
    table: 1,
    lo: 0,
    hi: u64::MAX,
};

/// The bytes of a row of table 1 in a list.
fn found(rows: &[Row], key: u64) -> Option<&[u8]> {
    rows.iter()
        .find(|row| row.key() == key)
        .map(|row| row.bytes())
}

/// Tells whether a store has these rows: at each key, by their number, and the first.
fn has_rows<S: Store>(store: &S, rows: &[Row]) -> bool {
    for key in 0..u64::from(KEYS).saturating_add(2) {
        if store.get(1, key) != Ok(found(rows, key)) {
            return false;
        }
    }
    let first = rows.first().map(|row| (row.key(), row.bytes()));
    store.count(EVERYWHERE) == Ok(rows.len() as u64) && store.next(EVERYWHERE) == Ok(first)
}

/// Tells whether a replica has the rows of a replay at each position up to its own that its window keeps. The position
/// below these has to be gone.
fn keeps_rows(replica: &Replica, replay: &CompletedReplay) -> bool {
    let last = replica.position();
    let first = last.saturating_sub(replica.window());
    for position in first..last.saturating_add(1) {
        let rows = replay.rows(position as usize).unwrap_or(&[]);
        if position > last || !has_rows(&replica.at(position), rows) {
            return false;
        }
    }
    first == 0 || first > last || replica.at(first.saturating_sub(1)).get(1, 1).is_err()
}

/// A log that was replayed.
#[derive(Clone, Copy)]
struct Replayed<'a> {
    setting: &'a PlainSetting,
    log: &'a [PlainItem],
    replay: &'a CompletedReplay,
}

/// Tells whether a replica finds what the replay has under a number, and under the name of its digits.
fn finds_procedure(
    rt: &impl Abort,
    alloc: Global,
    replica: &Replica,
    replayed: &Replayed,
    past: &[ItemReport],
    number: u32,
) -> bool {
    let name = name_of(rt, alloc, number);
    let named = procedure_by_name(replayed.setting, replayed.log, past, name.as_bytes());
    let named = named.map(|procedure| procedure.number());
    let number = u16::try_from(number).unwrap_or(0);
    let numbered = procedure_by_number(replayed.setting, replayed.log, past, number);
    let numbered = numbered.map(|procedure| (procedure.args_len(), procedure.code().slots()));
    let program = replica.procedures().by_number(number);
    let program = program.map(|program| (program.args_len(), program.code().slots()));
    replica.procedures().by_name(name.as_bytes()) == named && program == numbered
}

/// Tells whether a replica has the procedures of the replay at its position.
fn has_procedures(rt: &impl Abort, alloc: Global, replica: &Replica, replayed: &Replayed) -> bool {
    let reports = replayed.replay.reports();
    let past = reports.get(..replica.position() as usize).unwrap_or(&[]);
    let mut count = 0usize;
    for number in 0..NUMBERS + 2 {
        if !finds_procedure(rt, alloc, replica, replayed, past, number) {
            return false;
        }
        if procedure_by_number(replayed.setting, replayed.log, past, number as u16).is_some() {
            count = count.wrapping_add(1);
        }
    }
    replica.procedures().list().count() == count
}

// ---- verdicts

/// The outcomes of items, by kinds.
#[derive(Clone, Copy)]
enum Kind {
    Commit,
    /// A call that commits though an earlier call with its request was refused by a conflict.
    CommitAfterConflict,
    /// A call that commits though the last earlier call with its request was stale.
    CommitAfterStale,
    Conflict,
    Stale,
    /// A call that repeats a call within the window.
    RepeatedNear,
    /// A call that repeats a call before the window.
    RepeatedFar,
    /// A call that repeats another and would be stale.
    RepeatedPastWindow,
    Addition,
    NameTaken,
    NumberTaken,
}

/// The number of kinds.
const KINDS: usize = 11;

/// The verdict on the last call with this request, where there is one.
fn last_verdict(past: &[ItemReport], request: Option<RequestId>) -> Option<Verdict> {
    let mut last = None;
    for report in past {
        if report.request() == request {
            last = Some(report.verdict());
        }
    }
    last
}

fn kind_of_commit(past: &[ItemReport], call: &PlainCall) -> Kind {
    if call.request().is_none() {
        return Kind::Commit;
    }
    match last_verdict(past, call.request()) {
        Some(Verdict::Conflict(_)) => Kind::CommitAfterConflict,
        Some(Verdict::Stale) => Kind::CommitAfterStale,
        _ => Kind::Commit,
    }
}

/// The kind of a call behind `before` items that repeats the call at a position.
fn kind_of_repeat(window: u32, before: usize, call: &PlainCall, position: u32) -> Kind {
    if before.saturating_sub(call.snapshot()) > window as usize {
        Kind::RepeatedPastWindow
    } else if before.saturating_sub(position as usize) > window as usize {
        Kind::RepeatedFar
    } else {
        Kind::RepeatedNear
    }
}

/// The kind of an item after these.
fn kind_of(window: u32, past: &[ItemReport], item: &PlainItem, verdict: Verdict) -> Kind {
    match (verdict, &item.kind) {
        (Verdict::Commit, PlainItemKind::Call(call)) => kind_of_commit(past, call),
        (Verdict::Commit, PlainItemKind::Addition(_)) => Kind::Addition,
        (Verdict::Repeated(position), PlainItemKind::Call(call)) => {
            kind_of_repeat(window, past.len(), call, position)
        }
        (Verdict::Conflict(_), _) => Kind::Conflict,
        (Verdict::Taken(Identifier::Name), _) => Kind::NameTaken,
        (Verdict::Taken(Identifier::Number), _) => Kind::NumberTaken,
        _ => Kind::Stale,
    }
}

/// The outcome of a drawn log: the number of items of each kind, and the number of items after which a replica differs
/// from the plain replay.
#[derive(Clone, Copy)]
struct Outcome {
    counts: [u32; KINDS],
    difference: Option<u32>,
}

impl Outcome {
    const NONE: Outcome = Outcome {
        counts: [0; KINDS],
        difference: None,
    };

    fn add(&mut self, kind: Kind, more: u32) {
        if let Some(count) = self.counts.get_mut(kind as usize) {
            *count = count.wrapping_add(more);
        }
    }

    fn of(&self, kind: Kind) -> u32 {
        self.counts.get(kind as usize).copied().unwrap_or(0)
    }

    /// Returns the number of items.
    fn items(&self) -> u32 {
        let mut items = 0u32;
        for count in self.counts {
            items = items.wrapping_add(count);
        }
        items
    }
}

/// Tells whether a replica says of the item at a position what a replay says of it.
fn says_the_same(replica: &Replica, position: u32, report: &ItemReport) -> bool {
    match certification_at(replica, position) {
        Some(certification) => {
            certification.verdict == report.verdict()
                && certification.compared == report.comparisons().len() as u64
        }
        None => false,
    }
}

/// Delivers an item as it is shipped, and tells whether the replica says of it what the replay says.
fn delivers_the_same(
    rt: &impl Abort,
    alloc: Global,
    schema: &Schema,
    checked: &mut CheckedReplica,
    item: &PlainItem,
    report: &ItemReport,
) -> bool {
    let entry = shipped(rt, alloc, schema, item, report);
    let verdict = checked.deliver(&entry);
    let position = checked.replica().position();
    verdict == Some(Ok(report.verdict())) && says_the_same(checked.replica(), position, report)
}

/// Tells whether a replica, at each thousandth position, has the rows and the procedures of the replay.
fn has_the_same(rt: &impl Abort, alloc: Global, replica: &Replica, replayed: &Replayed) -> bool {
    if replica.position() % 1_000 != 0 {
        return true;
    }
    keeps_rows(replica, replayed.replay) && has_procedures(rt, alloc, replica, replayed)
}

fn deliver_all(
    rt: &impl Abort,
    alloc: Global,
    schema: &Schema,
    checked: &mut CheckedReplica,
    replayed: &Replayed,
) -> Outcome {
    let window = checked.replica().window();
    let reports = replayed.replay.reports();
    let mut outcome = Outcome::NONE;
    for (item, report) in replayed.log.iter().zip(reports) {
        let before = checked.replica().position();
        let told = delivers_the_same(rt, alloc, schema, checked, item, report);
        if !told || !has_the_same(rt, alloc, checked.replica(), replayed) {
            outcome.difference = Some(before);
            return outcome;
        }
        let past = reports.get(..before as usize).unwrap_or(&[]);
        outcome.add(kind_of(window, past, item, report.verdict()), 1);
    }
    outcome
}

fn outcome_of_replay(
    rt: &impl Abort,
    alloc: Global,
    catalogue: &Catalogue,
    replayed: &Replayed,
) -> Outcome {
    let mut checked = CheckedReplica::new(alloc, replayed.setting.window(), catalogue).expect(
        rt, "memory",
    );
    deliver_all(rt, alloc, catalogue.schema(), &mut checked, replayed)
}

fn outcome_of_log(
    rt: &impl Abort,
    alloc: Global,
    catalogue: &Catalogue,
    setting: &PlainSetting,
    log: &[PlainItem],
) -> Outcome {
    let replay = replay_log(alloc, setting, short(log)).expect(rt, "memory");
    let replay = &replay;
    outcome_of_replay(
        rt,
        alloc,
        catalogue,
        &Replayed {
            setting,
            log,
            replay,
        },
    )
}

fn outcome_of(rt: &impl Abort, alloc: Global, catalogue: &Catalogue, window: u32) -> Outcome {
    let log = drawn_log(rt, alloc, window, ITEMS);
    let setting = setting_of(alloc, window).expect(rt, "memory");
    outcome_of_log(rt, alloc, catalogue, &setting, &log)
}

/// Tells whether a log had calls of the kinds that each window has. Stale calls are few where the window is nearly as
/// long as the log.
fn is_varied(window: u32, outcome: &Outcome) -> bool {
    outcome.of(Kind::Commit) > 1_000
        && outcome.of(Kind::Conflict) > 50
        && (outcome.of(Kind::Stale) > 0 || window == 4_096)
}

/// Compares a log under a window, and adds the number of its items of each kind.
fn compare(
    rt: &impl Abort,
    alloc: Global,
    catalogue: &Catalogue,
    window: u32,
    all: &mut [u32; KINDS],
) {
    let outcome = outcome_of(rt, alloc, catalogue, window);
    let counts = outcome.counts;
    assert_eq!(rt; outcome.difference, None, "window {window}: {counts:?}");
    assert!(rt; is_varied(window, &outcome), "window {window}: {counts:?}");
    assert_eq!(rt; outcome.items(), ITEMS);
    for (sum, count) in all.iter_mut().zip(counts) {
        *sum = sum.wrapping_add(count);
    }
}

#[test]
fn replicas_come_to_what_the_plain_replay_says(rt: HostRuntime) {
    let catalogue = catalogue_of(rt.alloc(), &TABLES, &PROCEDURES).expect(&rt, "memory");
    let mut all = [0u32; KINDS];
    for window in [1, 7, 8, 9, 4_096] {
        compare(&rt, rt.alloc(), &catalogue, window, &mut all);
    }
    assert!(rt; all.iter().all(|count| *count > 100), "{all:?}");
}
