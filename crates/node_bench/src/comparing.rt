//! The comparison of a node with the plain replay of its log.

ghost use Rattle.std.specs.Prelude.{◌<◌, ◌^◌, length};

use crate::long_log::LongReplay;
use crate::procedures::ACCOUNTS;
use locked_replica::{LockedReplica, LogSetting};
use log_entry::Entry;
use log_model::Verdict;
use node::Finish;
use node_calls::OpenGate;
use plain_replayer::{PlainCall, PlainItem, PlainItemKind, PlainSetting, Row, replay_log};
use schema::{Look, MAX_LOG};
use std::alloc::Global;
use std::sync::Wait;
use tallies::Ledgers;
use txn_view::Store;

/// Every key of table 1.
const EVERYWHERE: Look = Look {
    table: 1,
    lo: 0,
    hi: u64::MAX,
};

/// The calls of the log. Returns `None` where memory is wanting, or an entry is no call.
fn items_of<J: LogSetting + Ledgers>(
    alloc: Global,
    finish: &Finish<J, OpenGate>,
) -> Option<Vec<PlainItem>> {
    let mut items = Vec::new(alloc);
    let mut seen = finish.log().seen();
    for _ in 0..MAX_LOG {
        let Some(entry) = finish.log().get(&mut seen) else {
            break;
        };
        let Entry::Call(call) = entry else {
            return None;
        };
        let args = Vec::from_slice(alloc, call.args.as_slice()).ok()?;
        let plain = PlainCall::new(call.call, call.procedure, args, call.snapshot, call.request);
        let item = PlainItem {
            kind: PlainItemKind::Call(plain),
        };
        items.push(item).ok()?;
    }
    Some(items)
}

/// The log, which has at most 1,048,576 entries.
fn short(log: &[PlainItem]) -> &[PlainItem]
    ensures { length result.now < 2 ^ 32 }
{
    match u32::try_from(log.len()) {
        Ok(_) => log,
        Err(_) => &[],
    }
}

/// Tells whether a store has exactly these rows.
fn has_rows<S: Store>(store: &S, rows: &[Row]) -> bool {
    if store.count(EVERYWHERE) != Ok(rows.len() as u64) {
        return false;
    }
    rows.iter().all(|row| store.get(row.table(), row.key()) == Ok(Some(row.bytes())))
}

/// Tells whether a replica's position is the log's end, and its verdicts and rows are these.
fn follows<J: LogSetting>(replica: &LockedReplica<J>, verdicts: &[Verdict], rows: &[Row]) -> bool {
    if replica.stopped() || replica.position() as usize != verdicts.len() {
        return false;
    }
    let mut position = 0u32;
    for verdict in verdicts {
        position = position.wrapping_add(1);
        if position == 0 || position > replica.position() {
            return false;
        }
        if replica.verdict_at(position) != *verdict {
            return false;
        }
    }
    let seen = replica.seen();
    has_rows(&replica.at(&seen), rows)
}

/// The length of a log up to which the plain replay, which takes time by the square of the length, runs too.
const SHORT_LOG: usize = 30_000;

/// Tells whether the plain replay gives these verdicts and these rows, where the log isn't too long for that. Returns
/// `None` where memory is wanting.
fn is_plain(
    alloc: Global,
    setting: &PlainSetting,
    items: &[PlainItem],
    verdicts: &[Verdict],
    rows: &[Row],
) -> Option<bool> {
    if items.len() > SHORT_LOG {
        return Some(true);
    }
    let replay = replay_log(alloc, setting, short(items)).ok()?;
    let plain_rows = replay.rows(items.len())?;
    Some(
        replay.reports().len() == verdicts.len()
            && replay
                .reports()
                .iter()
                .zip(verdicts)
                .all(|(report, verdict)| report.verdict() == *verdict)
            && plain_rows.len() == rows.len()
            && plain_rows.iter().zip(rows).all(|(plain, row)| {
                plain.table() == row.table()
                    && plain.key() == row.key()
                    && plain.bytes() == row.bytes()
            }),
    )
}

/// Returns the number in a row of 8 bytes.
fn number_in(row: &Row) -> u64 {
    match row.bytes().try_into() {
        Ok(bytes) => u64::from_le_bytes(bytes),
        Err(_) => 0,
    }
}

/// Returns the number of commits.
fn commits_in(verdicts: &[Verdict]) -> u64 {
    verdicts
        .iter()
        .filter(|verdict| **verdict == Verdict::Commit)
        .count() as u64
}

/// Returns the money of all accounts together.
fn money_in(rows: &[Row]) -> u64 {
    rows.iter()
        .filter(|row| row.key() < u64::from(ACCOUNTS))
        .fold(0u64, |sum, row| sum.wrapping_add(number_in(row)))
}

/// The result of the comparison.
#[derive(Clone, Copy, Debug, PartialEq, Eq, Drop)]
pub(crate) struct Comparison {
    /// True where each replica has delivered the whole log, with the verdicts and the rows of a plain replay.
    pub(crate) same: bool,
    /// The number of calls that commit in the replay.
    pub(crate) commits: u64,
    /// The money of all accounts together.
    pub(crate) money: u64,
}

/// Compares each of `replicas` replicas with a plain replay of the log. Returns `None` where memory is wanting.
pub(crate) fn compare<J: LogSetting + Ledgers, R: Wait>(
    rt: &R,
    alloc: Global,
    finish: &Finish<J, OpenGate>,
    setting: &PlainSetting,
    replicas: u32,
) -> Option<Comparison> {
    let items = items_of(alloc, finish)?;
    let replay = LongReplay::new(alloc, setting, &items)?;
    let (verdicts, rows) = (replay.verdicts(), replay.rows(setting)?);
    let mut same = verdicts.len() == items.len()
        && is_plain(alloc, setting, &items, verdicts, rows)?;
    for place in 0..replicas {
        let replica = finish.replica(place.wrapping_add(1))?;
        let locked = replica.read(rt);
        same = same && follows(&locked, verdicts, rows);
    }
    Some(Comparison {
        same,
        commits: commits_in(verdicts),
        money: money_in(rows),
    })
}
