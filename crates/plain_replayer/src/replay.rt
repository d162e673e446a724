//! A log as the definitions say it, item by item.

ghost use Rattle.std.specs.Prelude.{◌≡◌, ◌<◌, ◌≤◌, ◌^◌, ℕ, length, map, take, slice_get, slice_index_or, option_map};
ghost use Rattle.std.specs.Prelude.{Some, [], ◌∷◌, ◌++◌, IfOk, OnOk};
ghost use Rattle.std.specs.FinMap.{empty, entries};
ghost use Rattle.plain_runner.specs.Listed.{rows_of};
ghost use Rattle.log_model.specs.Log.{Item, CallItem, IsLog, by_number, or_idle, run_of_procedure, procedures_after};
ghost use Rattle.log_model.specs.Log.{if_commits, history};
ghost use Rattle.plain_replayer.specs.Report.{Report};
ghost use Rattle.plain_replayer.specs.Replay.{IsReportOf, procedures_at, procedures_of, report_after, rows_after_next};
ghost use Rattle.plain_replayer.specs.Replay.{run_by, told_by};

use crate::item::{PlainCall, PlainItem, PlainItemKind};
use crate::procedures::{procedure_of_call, verdict_on_addition};
use crate::report::{ItemReport, looks_of, reply_of};
use crate::rows::{RowList, rows_at};
use crate::setting::PlainSetting;
use crate::verdicts::{comparisons_after, is_commit, verdict_after};
use log_model::{Verdict, verdicts_in_words_of_the_log};
use plain_runner::{CompletedRun, Row, run_program};
use std::alloc::{AllocError, Allocator, Global};
use std::marker::Model;

/// The result of a replay. Contracts see a record.
#[derive(Drop)]
pub struct CompletedReplay<A: Allocator = Global> {
    reports: Vec<ItemReport<A>, A>,
    rows: Vec<RowList<A>, A>,
}

impl<A: Allocator> Model for CompletedReplay<A> {
    ghost use Rattle.plain_replayer.specs.Replay.{Replay};
    ghost use Rattle.plain_replayer.specs.Codes.{replay_code};

    ghost Value = { Replay };

    ghost coded = { replay_code };

    ghost view = { λ replay. record { reports = replay.reports.items; rows = replay.rows.items } };
}

impl<A: Allocator> CompletedReplay<A> {
    /// Returns the report on each item, in the order of the log.
    pub fn reports(&self) -> &[ItemReport<A>]
        ensures { result.now ≡ self.now.reports }
    {
        &self.reports
    }

    /// The rows after a position, 0 to the log's length, in the order of tables and keys.
    pub fn rows(&self, position: usize) -> Option<&[Row<A>]>
        ensures { option_map (λ rows. rows.now) result
            ≡ option_map entries (slice_get self.now.rows position) }
    {
        self.rows.get(position).map(|rows| rows.as_slice())
    }
}

/// Replays a log. The report on a call has its run on the rows of its snapshot, its verdict and its comparisons. The
/// report on an addition has its verdict. Beside the reports stand the rows before the first item and after each. The
/// error is want of memory, which may come in place of any answer. A replay takes time by the square of the log's
/// length, and memory for all rows at each position.
pub fn replay_log<A: Allocator + Copy, B: Allocator>(
    alloc: A,
    setting: &PlainSetting<B>,
    log: &[PlainItem<B>],
) -> Result<CompletedReplay<A>, AllocError>
    requires { length log.now < 2 ^ 32 }
    ensures rows { IfOk result (λ replay.
        replay.rows ≡ map (λ database. database.rows) (history setting.now log.now).databases) }
    ensures procedures { IfOk result (λ replay. (position : ℕ) → position ≤ length log.now
        → procedures_of setting.now log.now (take position replay.reports)
        ≡ procedures_after setting.now log.now position) }
    ensures count { IfOk result (λ replay. length replay.reports ≡ length log.now) }
    ensures reports { IfOk result (λ replay. (before : ℕ) (item : Item) (report : Report)
        → IsLog log.now → slice_get log.now before ≡ Some item → slice_get replay.reports before ≡ Some report
        → IsReportOf setting.now log.now before item report) }
{
    // Laws:
    verdicts_in_words_of_the_log();
    setting.begins_empty();
    let mut reports = Vec::new(alloc);
    let mut rows = Vec::new(alloc);
    rows.push(RowList::new(alloc))?;
    for item in log {
        add_item(alloc, setting, log, item, &mut reports, &mut rows)?;
    }
    Ok(CompletedReplay { reports, rows })
}

/// Adds the report on the next item, and the rows after it.
fn add_item<A: Allocator + Copy, B: Allocator>(
    alloc: A,
    setting: &PlainSetting<B>,
    log: &[PlainItem<B>],
    item: &PlainItem<B>,
    reports: &mut Vec<ItemReport<A>, A>,
    rows: &mut Vec<RowList<A>, A>,
) -> Result<(), AllocError>
    requires { length reports.old.items < 2 ^ 32 }
    ensures reports { OnOk result (reports.new.items ≡ reports.old.items
        ++ report_after setting.now log.now reports.old.items rows.old.items item.now ∷ []) }
    ensures rows { OnOk result (rows.new.items ≡ rows.old.items
        ++ rows_after_next setting.now log.now reports.old.items
        (slice_index_or rows.old.items (length reports.old.items) empty) item.now
        (report_after setting.now log.now reports.old.items rows.old.items item.now).verdict ∷ []) }
{
    let report = report_after(alloc, setting, log, reports, rows, item)?;
    let now = rows_at(rows, reports.len());
    let next = rows_after(alloc, setting, log, reports, item, report.verdict(), now)?;
    reports.push(report)?;
    rows.push(next)?;
    Ok(())
}

/// Makes the report on the next item, by the reports on the items before it and by the rows so far.
fn report_after<A: Allocator + Copy, B: Allocator>(
    alloc: A,
    setting: &PlainSetting<B>,
    log: &[PlainItem<B>],
    past: &[ItemReport<A>],
    rows: &[RowList<A>],
    item: &PlainItem<B>,
) -> Result<ItemReport<A>, AllocError>
    requires { length past.now < 2 ^ 32 }
    ensures { IfOk result (λ report. report
        ≡ report_after setting.now log.now past.now rows.now item.now) }
{
    match &item.kind {
        PlainItemKind::Call(call) => report_of_call(alloc, setting, log, past, rows, call),
        PlainItemKind::Addition(procedure) => {
            let verdict = verdict_on_addition(setting, log, past, procedure);
            Ok(ItemReport::of_addition(alloc, verdict))
        }
    }
}

/// The run of a call of the procedures of its snapshot, on some rows.
fn run_of_call<A: Allocator + Copy, B: Allocator, C: Allocator, D: Allocator>(
    alloc: A,
    setting: &PlainSetting<B>,
    log: &[PlainItem<B>],
    past: &[ItemReport<C>],
    call: &PlainCall<B>,
    rows: &[Row<D>],
) -> Result<Option<CompletedRun<A>>, AllocError>
    ensures { IfOk result (λ run. run ≡ run_of_procedure setting.now.tables
        (by_number (procedures_at setting.now log.now past.now call.now.snapshot) call.now.procedure)
        call.now.args (rows_of rows.now)) }
{
    match procedure_of_call(setting, log, past, call) {
        Some(procedure) => {
            run_program(alloc, procedure.code(), setting.schema(), call.args(), rows)
        }
        None => Ok(None),
    }
}

/// Makes the report on a call as the next item.
fn report_of_call<A: Allocator + Copy, B: Allocator>(
    alloc: A,
    setting: &PlainSetting<B>,
    log: &[PlainItem<B>],
    past: &[ItemReport<A>],
    rows: &[RowList<A>],
    call: &PlainCall<B>,
) -> Result<ItemReport<A>, AllocError>
    requires { length past.now < 2 ^ 32 }
    ensures { IfOk result (λ report. report
        ≡ report_after setting.now log.now past.now rows.now (CallItem call.now)) }
{
    setting.begins_empty();
    let run = run_of_call(
        alloc,
        setting,
        log,
        past,
        call,
        rows_at(rows, call.snapshot()),
    )?;
    let looks = looks_of(&run);
    let window = setting.window();
    let verdict = verdict_after(window, past, call, looks);
    let comparisons = comparisons_after(alloc, window, past, call, looks)?;
    let told = told_by(past, verdict, reply_of(&run));
    Ok(ItemReport::of_call(call.request(), run, verdict, comparisons, told))
}

/// The reply that the caller of a call with this verdict is told: where it commits its own, and where it is repeated
/// that of the call that it repeats.
fn told_by<A: Allocator>(past: &[ItemReport<A>], verdict: Verdict, reply: u64) -> Option<u64>
    ensures { result ≡ told_by past.now verdict reply }
{
    match verdict {
        Verdict::Commit => Some(reply),
        Verdict::Repeated(position) => {
            let before = (position as usize).saturating_sub(1);
            past.get(before).map(|report| report.reply())
        }
        Verdict::Conflict(_) | Verdict::Stale | Verdict::Taken(_) => None,
    }
}

/// The rows after an item, by its verdict: a call that commits runs once more, on the rows now.
fn rows_after<A: Allocator + Copy, B: Allocator>(
    alloc: A,
    setting: &PlainSetting<B>,
    log: &[PlainItem<B>],
    past: &[ItemReport<A>],
    item: &PlainItem<B>,
    verdict: Verdict,
    now: &[Row<A>],
) -> Result<RowList<A>, AllocError>
    ensures { IfOk result (λ after. after
        ≡ rows_after_next setting.now log.now past.now (rows_of now.now) item.now verdict) }
{
    match &item.kind {
        PlainItemKind::Call(call) => {
            rows_after_call(alloc, setting, log, past, call, verdict, now)
        }
        PlainItemKind::Addition(_) => RowList::from_rows(alloc, now),
    }
}

/// The rows after a call, by its verdict.
fn rows_after_call<A: Allocator + Copy, B: Allocator>(
    alloc: A,
    setting: &PlainSetting<B>,
    log: &[PlainItem<B>],
    past: &[ItemReport<A>],
    call: &PlainCall<B>,
    verdict: Verdict,
    now: &[Row<A>],
) -> Result<RowList<A>, AllocError>
    ensures { IfOk result (λ after. after ≡ if_commits verdict
        (run_by setting.now log.now past.now call.now (rows_of now.now)).effect (rows_of now.now)) }
{
    if is_commit(verdict) {
        let run = run_of_call(alloc, setting, log, past, call, now)?;
        rows_after_run(alloc, run, now)
    } else {
        RowList::from_rows(alloc, now)
    }
}

/// The rows that a run leaves; where there is no run, the rows before.
fn rows_after_run<A: Allocator + Copy>(
    alloc: A,
    run: Option<CompletedRun<A>>,
    rows: &[Row<A>],
) -> Result<RowList<A>, AllocError>
    ensures { IfOk result (λ after. after ≡ (or_idle (rows_of rows.now) run).effect) }
{
    match run {
        Some(run) => Ok(RowList::left_by(run)),
        None => RowList::from_rows(alloc, rows),
    }
}
