use bpf_bytes::decode;
use bpf_verify::{Accepted, verify};
use bpf_vm::Turn;
use plain_runner::{CompletedRun, KeyMap, Row, Write};
use plain_site::{CompletedCall, PlainStore, SiteRun};
use row_sets::{ReadSet, WriteSet};
use schema::{Look, Schema};
use std::alloc::{Allocator, Global};
use std::fmt::{Debug, Write as _};
use std::process::Abort;
use test_programs::{RowValue, args_of, bytes_of};
use txn_view::View;

mod procedures;
mod refusals;

/// Table 1 has rows of 8 bytes, table 2 of 2.
const TABLES: [(u8, u16); 2] = [(1, 8), (2, 2)];

/// A turn that no call comes to: its store stays.
const NEVER: u32 = u32::MAX;

/// Asserts that a value is the one that is wanted. The assertion stands in a function of its own, since a proof of many
/// comparisons in one function beside values to be dropped takes long.
fn same<T: PartialEq + Debug + Copy>(rt: &impl Abort, case: &str, found: T, wanted: T) {
    assert_eq!(rt; found, wanted, "{case}");
}

/// A procedure that the verifier accepts, on arguments of `args_len` bytes.
fn accepted(rt: &impl Abort, alloc: Global, program: &[u8], args_len: usize) -> Accepted {
    let code = decode(alloc, program).expect(rt, "the program");
    let schema = Schema::new(alloc, &TABLES).expect(rt, "the schema");
    let args_len = u16::try_from(args_len).unwrap_or(u16::MAX);
    verify(alloc, code, &schema, args_len.min(256)).expect(rt, "it is accepted")
}

/// A procedure that the verifier accepts, and its argument block of words.
fn procedure_of(
    rt: &impl Abort,
    alloc: Global,
    program: &str,
    words: &[u64],
) -> (Accepted, Vec<u8>) {
    let args = args_of(alloc, words).expect(rt, "memory");
    let program = bytes_of(alloc, program).expect(rt, program);
    let procedure = accepted(rt, alloc, &program, args.len());
    (procedure, args)
}

/// A row from table, key and value. The value has 2 bytes in table 2, and 8 in table 1.
fn row_of(rt: &impl Abort, alloc: Global, table: u8, key: u64, value: u64) -> Row {
    let width = if table == 2 { 2 } else { 8 };
    let bytes = Vec::from_slice(alloc, value.to_le_bytes().get(..width).unwrap_or(&[]));
    Row::new(table, key, bytes.expect(rt, "memory"))
}

fn rows_of(rt: &impl Abort, alloc: Global, rows: &[RowValue]) -> Vec<Row> {
    let mut list = Vec::new(alloc);
    for (table, key, value) in rows {
        let row = row_of(rt, alloc, *table, *key, *value);
        list.push(row).expect(rt, "memory");
    }
    list
}

fn append_looks(rt: &impl Abort, text: &mut String, looks: &[Look]) {
    for look in looks {
        write!(text, " look {}:{}-{}", look.table, look.lo, look.hi).expect(rt, "memory");
    }
}

/// A write: the bytes in hex, or none where it is a removal.
fn append_write(
    rt: &impl Abort,
    alloc: Global,
    text: &mut String,
    table: u8,
    key: u64,
    bytes: Option<&[u8]>,
) {
    match bytes {
        Some(bytes) => {
            let hex = hex::encode(alloc, bytes).expect(rt, "memory");
            write!(text, " put {table}:{key}={hex}").expect(rt, "memory");
        }
        None => write!(text, " remove {table}:{key}").expect(rt, "memory"),
    }
}

fn append_code(rt: &impl Abort, text: &mut String, code: Option<u64>) {
    if let Some(code) = code {
        write!(text, " cancelled {code}").expect(rt, "memory");
    }
}

/// The last answer of a call, and the turn that gave it.
fn described_turn(rt: &impl Abort, alloc: Global, last: Turn, turns: u32) -> String {
    let word = match last {
        Turn::Exit(reply) => return format!(in alloc; "{reply} in {turns}").expect(rt, "memory"),
        Turn::Stale => "stale",
        Turn::NoMemory => "no memory",
        Turn::More => "more",
    };
    format!(in alloc; "{word} in {turns}").expect(rt, "memory")
}

/// Returns what a call came to, in a line: its last answer and the turn that gave it, then looks, writes and cancel
/// code.
fn described<A: Allocator + Copy>(rt: &impl Abort, alloc: Global, run: SiteRun<A>) -> String {
    let mut text = described_turn(rt, alloc, run.last, run.turns);
    let rows = KeyMap::new(alloc);
    let store = PlainStore {
        rows: &rows,
        gone: true,
    };
    let (reads, writes, code) = View::over(store, run.own).finish();
    append_sets(rt, alloc, &mut text, &reads, &writes);
    append_code(rt, &mut text, code);
    text
}

fn append_sets<A: Allocator + Copy>(
    rt: &impl Abort,
    alloc: Global,
    text: &mut String,
    reads: &ReadSet<A>,
    writes: &WriteSet<A>,
) {
    append_looks(rt, text, reads.looks());
    for (key, write) in writes.iter() {
        let bytes = write.as_ref().map(|bytes| bytes.as_slice());
        append_write(rt, alloc, text, key.0, key.1, bytes);
    }
}

/// The line of a call that came to its end, which doesn't say the number of turns.
fn described_call(rt: &impl Abort, alloc: Global, turns: usize, call: &CompletedCall) -> String {
    let mut text = format!(in alloc; "{} in {turns}", call.reply).expect(rt, "memory");
    append_sets(rt, alloc, &mut text, &call.reads, &call.writes);
    append_code(rt, &mut text, call.cancel_code);
    text
}

/// The line of a run of the plain runner.
fn described_run(rt: &impl Abort, alloc: Global, run: &CompletedRun) -> String {
    let mut text = format!(in alloc; "{} in {}", run.reply(), run.steps()).expect(rt, "memory");
    append_looks(rt, &mut text, run.looks());
    for write in run.writes() {
        append_write(
            rt,
            alloc,
            &mut text,
            write.table(),
            write.key(),
            write.bytes(),
        );
    }
    append_code(rt, &mut text, run.cancel_code());
    text
}
