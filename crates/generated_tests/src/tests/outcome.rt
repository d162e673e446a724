//! The line of a call's outcome: its reply and the number of turns, cancel code, looks and writes.

use bpf_vm::Turn;
use plain_runner::{CompletedRun, KeyMap};
use plain_site::{CompletedCall, PlainStore, SiteRun};
use row_sets::WriteSet;
use schema::Look;
use std::alloc::{AllocError, Global};
use std::fmt::Write as _;
use txn_view::View;

/// A line but for its writes.
fn line_of(
    alloc: Global,
    reply: u64,
    turns: usize,
    cancel_code: Option<u64>,
    looks: &[Look],
) -> Result<String, AllocError> {
    format!(in alloc; "{reply} in {turns} cancelled {cancel_code:?} looks {looks:?} writes")
}

/// Appends a write: the row's bytes, or none where it is a removal.
fn append_write(
    line: &mut String,
    table: u8,
    key: u64,
    bytes: Option<&[u8]>,
) -> Result<(), AllocError> {
    write!(line, " {table}:{key} {bytes:?}")
}

/// Returns what a call of the machine came to.
pub(super) fn line_of_call(alloc: Global, call: SiteRun) -> Result<String, AllocError> {
    let turns = call.turns;
    let Turn::Exit(reply) = call.last else {
        return format!(in alloc; "no end in {turns}");
    };
    let rows = KeyMap::new(alloc);
    let store = PlainStore {
        rows: &rows,
        gone: true,
    };
    let (reads, writes, cancel_code) = View::over(store, call.own).finish();
    let mut line = line_of(alloc, reply, turns as usize, cancel_code, reads.looks())?;
    append_writes(&mut line, &writes)?;
    Ok(line)
}

fn append_writes(line: &mut String, writes: &WriteSet<Global>) -> Result<(), AllocError> {
    for (key, write) in writes.iter() {
        let bytes = write.as_ref().map(|bytes| bytes.as_slice());
        append_write(line, key.0, key.1, bytes)?;
    }
    Ok(())
}

/// The line of a call that the machine ran at once, which doesn't say the number of turns.
pub(super) fn line_of_completed(
    alloc: Global,
    call: &CompletedCall,
    turns: usize,
) -> Result<String, AllocError> {
    let looks = call.reads.looks();
    let mut line = line_of(alloc, call.reply, turns, call.cancel_code, looks)?;
    append_writes(&mut line, &call.writes)?;
    Ok(line)
}

/// The line of a run of the plain runner.
pub(super) fn line_of_run(alloc: Global, run: &CompletedRun) -> Result<String, AllocError> {
    let mut line = line_of(
        alloc,
        run.reply(),
        run.steps(),
        run.cancel_code(),
        run.looks(),
    )?;
    for write in run.writes() {
        append_write(&mut line, write.table(), write.key(), write.bytes())?;
    }
    Ok(line)
}
