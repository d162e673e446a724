//! Runs of programs on rows.

use bpf_bytes::decode;
use plain_runner::{CompletedRun, Row, run_program};
use schema::Schema;
use std::alloc::Global;
use std::process::Abort;
use test_programs::RowValue;

/// Table 1 of width 8, and table 2 of width 2.
pub(super) const TABLES: [(u8, u16); 2] = [(1, 8), (2, 2)];

/// The run of a program on arguments and rows, which are table, key and value. The value has 2 bytes in table 2, and 8
/// in the others. The answer is none where the program is stuck.
pub(super) fn run(
    rt: &impl Abort,
    alloc: Global,
    program: &[u8],
    args: &[u8],
    rows: &[RowValue],
) -> Option<CompletedRun> {
    let list = rows_of(rt, alloc, rows);
    let code = decode(alloc, program).expect(rt, "the program");
    let schema = Schema::new(alloc, &TABLES).expect(rt, "the schema");
    run_program(alloc, &code, &schema, args, &list).expect(rt, "the run")
}

/// A row of table, key and value: 2 bytes of it in table 2, and 8 in the others.
pub(super) fn row_of(rt: &impl Abort, alloc: Global, table: u8, key: u64, value: u64) -> Row {
    let width = if table == 2 { 2 } else { 8 };
    let bytes = value.to_le_bytes();
    let (front, _) = bytes.split_at(width);
    Row::new(
        table,
        key,
        Vec::from_slice(alloc, front).expect(rt, "a row"),
    )
}

fn rows_of(rt: &impl Abort, alloc: Global, rows: &[RowValue]) -> Vec<Row> {
    let mut list = Vec::new(alloc);
    for &(table, key, value) in rows {
        let row = row_of(rt, alloc, table, key, value);
        list.push(row).expect(rt, "room for the row");
    }
    list
}
