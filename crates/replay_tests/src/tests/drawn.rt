//! A log that is drawn: each call that commits in it ran alike on the rows just before it.

use super::{addition_of, call_of, rows_text, run_text, short};
use log_model::{Identifier, RequestId, Verdict};
use plain_replayer::{
    CompletedReplay, ItemReport, PlainCall, PlainItem, PlainItemKind, PlainSetting,
    procedure_by_number, replay_log,
};
use plain_runner::{Row, run_program};
use rand_core::utils::NextWord;
use rand_pcg::Pcg32;
use std::alloc::Global;
use std::process::Abort;
use test_programs::{PROCEDURES, PUT, setting_of};

/// The number of items.
const ITEMS: u32 = 200;

/// The names of additions. The name and the number of each are drawn apart.
const NAMES: [&str; 3] = ["set", "put", "3"];

/// The number of outcomes of items: a call that commits, conflicts, is stale or repeated; an addition that commits, and
/// one whose name or number is taken; and last a call of an added procedure that commits and writes.
const OUTCOMES: usize = 8;

/// A number below the end.
fn draw(generator: &mut Pcg32, end: u32) -> u32 {
    generator.next_word().checked_rem(end).unwrap_or(0)
}

/// One of five keys.
fn draw_key(generator: &mut Pcg32) -> u64 {
    5 + u64::from(draw(generator, 5)).min(5)
}

/// The number of a procedure: of the sample procedures or of those that are added. The number of words that it takes
/// stands beside it.
fn draw_procedure(generator: &mut Pcg32) -> (u16, usize) {
    match PROCEDURES.get(draw(generator, 8) as usize) {
        Some((number, _program, words)) => (*number, *words),
        None => (7, 2),
    }
}

/// Draws one of a few requests for every third call, and none for the others.
fn draw_request(generator: &mut Pcg32) -> Option<RequestId> {
    let drawn = draw(generator, 3 * 16);
    if drawn < 16 {
        Some(RequestId {
            session: 1 + drawn % 2,
            sequence: 1 + drawn / 2,
        })
    } else {
        None
    }
}

/// A call behind `before` items, with a snapshot up to 3 positions back.
fn draw_call(rt: &impl Abort, alloc: Global, generator: &mut Pcg32, before: u32) -> PlainItem {
    let (procedure, count) = draw_procedure(generator);
    let words = [
        draw_key(generator),
        draw_key(generator),
        draw_key(generator),
    ];
    let snapshot = before.saturating_sub(draw(generator, 4));
    let request = draw_request(generator);
    let words = words.get(..count).unwrap_or(&[]);
    call_of(rt, alloc, procedure, words, snapshot, request)
}

fn draw_addition(rt: &impl Abort, alloc: Global, generator: &mut Pcg32) -> PlainItem {
    let name = NAMES.get(draw(generator, 3) as usize).unwrap_or(&"set");
    let number = 6 + u16::try_from(draw(generator, 3)).unwrap_or(0).min(3);
    addition_of(rt, alloc, name, number, PUT, 2)
}

/// Draws a log. One item of twenty is an addition.
fn drawn_log(rt: &impl Abort, alloc: Global) -> Vec<PlainItem> {
    let mut generator = Pcg32::new(2026, 15);
    let mut log = Vec::new(alloc);
    for before in 0..ITEMS {
        let item = if draw(&mut generator, 20) == 0 {
            draw_addition(rt, alloc, &mut generator)
        } else {
            draw_call(rt, alloc, &mut generator, before)
        };
        log.push(item).expect(rt, "memory");
    }
    log
}

/// The run of a call on rows, in a line. The procedure is that of the call's number at its snapshot.
fn rerun(
    rt: &impl Abort,
    alloc: Global,
    setting: &PlainSetting,
    log: &[PlainItem],
    reports: &[ItemReport],
    call: &PlainCall,
    rows: &[Row],
) -> String {
    let before = reports.get(..call.snapshot()).unwrap_or(&[]);
    let Some(procedure) = procedure_by_number(setting, log, before, call.procedure()) else {
        return run_text(rt, alloc, 0, &[], &[]);
    };
    match run_program(alloc, procedure.code(), setting.schema(), call.args(), rows).expect(
        rt, "memory",
    ) {
        Some(run) => run_text(rt, alloc, run.reply(), run.looks(), run.writes()),
        None => String::new(alloc),
    }
}

/// Returns what is kept by the item that has `before` items before it, as the replay has it, and what is expected of
/// it. Where a call commits, this is its run on the rows just before it; else it is these rows.
fn compared(
    rt: &impl Abort,
    alloc: Global,
    setting: &PlainSetting,
    log: &[PlainItem],
    replay: &CompletedReplay,
    before: usize,
) -> (String, String) {
    let rows = replay.rows(before).unwrap_or(&[]);
    if let (Some(item), Some(report)) = (log.get(before), replay.reports().get(before)) {
        if let (PlainItemKind::Call(call), Verdict::Commit) = (&item.kind, report.verdict()) {
            let wanted = rerun(rt, alloc, setting, log, replay.reports(), call, rows);
            let found = run_text(rt, alloc, report.reply(), report.looks(), report.writes());
            return (found, wanted);
        }
    }
    let after = replay.rows(before.wrapping_add(1)).unwrap_or(&[]);
    (rows_text(rt, alloc, after), rows_text(rt, alloc, rows))
}

/// Returns which of `OUTCOMES` became of an item.
fn outcome_of(item: &PlainItem, report: &ItemReport) -> usize {
    match (report.verdict(), &item.kind) {
        (Verdict::Commit, PlainItemKind::Addition(_)) => 4,
        (Verdict::Commit, PlainItemKind::Call(call)) => {
            if call.procedure() >= 7 && !report.writes().is_empty() {
                7
            } else {
                0
            }
        }
        (Verdict::Conflict(_), _) => 1,
        (Verdict::Stale, _) => 2,
        (Verdict::Repeated(_), _) => 3,
        (Verdict::Taken(Identifier::Name), _) => 5,
        (Verdict::Taken(Identifier::Number), _) => 6,
    }
}

/// Counts how often each of `OUTCOMES` came.
fn outcomes_of(log: &[PlainItem], replay: &CompletedReplay) -> [u32; OUTCOMES] {
    let mut outcomes = [0u32; OUTCOMES];
    for (item, report) in log.iter().zip(replay.reports()) {
        if let Some(count) = outcomes.get_mut(outcome_of(item, report)) {
            *count = count.wrapping_add(1);
        }
    }
    outcomes
}

#[test]
fn committed_calls_run_alike_on_the_rows_before_them(rt: HostRuntime) {
    let alloc = rt.alloc();
    let log = drawn_log(&rt, alloc);
    let setting = setting_of(alloc, 2).expect(&rt, "memory");
    let replay = replay_log(alloc, &setting, short(&log)).expect(&rt, "memory");
    for before in 0..ITEMS as usize {
        let (found, wanted) = compared(&rt, alloc, &setting, &log, &replay, before);
        assert_eq!(rt; found.as_str(), wanted.as_str(), "after {before} items");
    }
    let outcomes = outcomes_of(&log, &replay);
    assert!(rt; outcomes.iter().all(|count| *count > 0), "{outcomes:?}");
}
