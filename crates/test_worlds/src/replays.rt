//! The replay of a history, and what it says of what was read and delivered.

ghost use Rattle.std.specs.Prelude.{◌<◌, ◌^◌, length};

use crate::history::{Call, History, Ordered};
use crate::procedures::{procedures, program_of};
use plain_replayer::{
    CompletedReplay, ItemReport, PlainCall, PlainItem, PlainItemKind, Row, replay_log,
};
use std::alloc::Global;
use test_programs::{procedure_of, setting_with};

/// The log, which is short: a drawn world takes at most 2,000 steps.
fn short(log: &[PlainItem]) -> &[PlainItem]
    ensures { length result.now < 2 ^ 32 }
{
    if log.len() < 10_000 { log } else { &[] }
}

/// An addition as the plain replayer takes it, with the program that was asked for. The answer is none, here and below,
/// where memory is wanting.
fn addition_of(alloc: Global, name: &str, number: u16) -> Option<PlainItemKind> {
    let (words, program) = program_of(number);
    let added = procedure_of(alloc, name.as_bytes(), number, program, words)?;
    Some(PlainItemKind::Addition(added))
}

/// A call as the plain replayer takes it.
fn call_of(alloc: Global, number: u32, call: &Call) -> Option<PlainItemKind> {
    let args = Vec::from_slice(alloc, &call.args).ok()?;
    let (procedure, snapshot) = (call.procedure, call.snapshot);
    let taken = PlainCall::new(number, procedure, args, snapshot, call.request);
    Some(PlainItemKind::Call(taken))
}

/// Returns an ordered item as the plain replayer takes it. The answer is none also where the history hasn't the call.
fn item_of(alloc: Global, history: &History, ordered: &Ordered) -> Option<PlainItemKind> {
    match ordered {
        Ordered::Addition { name, number } => addition_of(alloc, name, *number),
        Ordered::Call(number) => call_of(alloc, *number, history.call(*number)?),
    }
}

fn log_of(alloc: Global, history: &History) -> Option<Vec<PlainItem>> {
    let mut log = Vec::new(alloc);
    for ordered in &history.ordered {
        let kind = item_of(alloc, history, ordered)?;
        log.push(PlainItem { kind }).ok()?;
    }
    Some(log)
}

/// The replay of what was ordered, fewer than 10,000 items, with this window. The answer is none where memory is
/// wanting, or the history hasn't one of the calls.
pub fn replay_of(alloc: Global, history: &History, window: u32) -> Option<CompletedReplay> {
    let log = log_of(alloc, history)?;
    let setting = setting_with(alloc, &procedures(), window)?;
    replay_log(alloc, &setting, short(&log)).ok()
}

/// Tells whether the row at a key is this word, each in bytes with the least first. Where there is no row, the word has
/// to be 0.
fn is_value_at(rows: &[Row], key: &[u8], word: u64) -> bool {
    for row in rows {
        if row.key().to_le_bytes().as_slice() == key {
            return row.bytes() == word.to_le_bytes().as_slice();
        }
    }
    word == 0
}

/// Tells whether each call that only read replied what stands in the replay at its snapshot.
pub fn has_reads(history: &History, replay: &CompletedReplay) -> bool {
    for number in &history.read {
        let (Some(call), Some(reply)) = (history.call(*number), history.reply_of(*number)) else {
            return false;
        };
        let rows = replay.rows(call.snapshot as usize).unwrap_or(&[]);
        if !is_value_at(rows, &call.args, reply) {
            return false;
        }
    }
    true
}

/// Tells whether each delivery told the verdict of the replay.
pub fn has_verdicts(history: &History, reports: &[ItemReport]) -> bool {
    for (position, verdict) in &history.delivered {
        let report = reports.get((*position as usize).wrapping_sub(1));
        if report.map(|report| report.verdict()) != Some(*verdict) {
            return false;
        }
    }
    true
}
