//! Tests of what no clause says: that memory suffices, what is printed, and the helpers' table as it was given.

use super::same;
use scarce::Scarce;
use schema::AnswerKind::{Count, Flag, Zero};
use schema::ArgumentKind::{KeyWritten, Number, RowRead, RowWritten, Table};
use schema::{AnswerKind, ArgumentKind, Helper, Look, Schema, SchemaFault};
use std::alloc::Global;
use std::process::Abort;

/// A table, and its width in a schema of tables 2 and 64.
static WIDTHS: [(u8, Option<u16>); 4] = [(1, None), (2, Some(128)), (64, Some(1)), (65, None)];

fn schema_of(rt: &impl Abort, alloc: Global, pairs: &[(u8, u16)]) -> Schema {
    Schema::new(alloc, pairs).expect(rt, "the schema")
}

#[test]
fn a_schema_has_the_tables_of_its_pairs(rt: HostRuntime) {
    let schema = schema_of(&rt, rt.alloc(), &[(2, 128), (64, 1)]);
    for (table, width) in &WIDTHS {
        let found = (schema.width(*table), schema.fits(*table, &[0]));
        same(
            &rt,
            "table, width, fits",
            (*table, found),
            (*table, (*width, *width == Some(1))),
        );
    }
    assert!(rt; schema == schema_of(&rt, rt.alloc(), &[(64, 1), (2, 128)]));
    assert!(rt; schema != schema_of(&rt, rt.alloc(), &[(64, 1)]));
}

static FAULTS: [(&[(u8, u16)], SchemaFault); 11] = [
    (&[(0, 8)], SchemaFault::TableNumber),
    (&[(65, 8)], SchemaFault::TableNumber),
    (&[(1, 0)], SchemaFault::Width),
    (&[(1, 129)], SchemaFault::Width),
    (&[(1, 8), (2, 8), (1, 9)], SchemaFault::RepeatedTable),
    // The lowest number counts at one pair.
    (&[(0, 0)], SchemaFault::TableNumber),
    (&[(1, 8), (1, 0)], SchemaFault::Width),
    // The first of two faulty pairs counts.
    (&[(1, 0), (0, 8)], SchemaFault::Width),
    (&[(0, 8), (1, 0)], SchemaFault::TableNumber),
    (&[(1, 8), (1, 8), (0, 8)], SchemaFault::RepeatedTable),
    (&[(1, 8), (65, 8), (1, 8)], SchemaFault::TableNumber),
];

static TEXTS: [(SchemaFault, &str); 4] = [
    (SchemaFault::TableNumber, "S1"),
    (SchemaFault::Width, "S2"),
    (SchemaFault::RepeatedTable, "S3"),
    (SchemaFault::NoMemory, "S4"),
];

fn fault_of(alloc: Global, pairs: &[(u8, u16)]) -> Option<SchemaFault> {
    match Schema::new(alloc, pairs) {
        Ok(_) => None,
        Err(fault) => Some(fault),
    }
}

fn is_printed(rt: &impl Abort, alloc: Global, fault: SchemaFault, text: &str) {
    let printed = format!(in alloc; "{fault}").expect(rt, text);
    same(rt, "printed", printed.as_str(), text);
}

#[test]
fn the_first_faulty_pair_decides(rt: HostRuntime) {
    for (index, (pairs, fault)) in FAULTS.iter().enumerate() {
        let found = fault_of(rt.alloc(), pairs);
        same(&rt, "case, fault", (index, found), (index, Some(*fault)));
    }
    for (fault, text) in &TEXTS {
        is_printed(&rt, rt.alloc(), *fault, text);
    }
}

/// Tells whether a schema was made. Where it wasn't, memory was refused.
fn is_made(rt: &impl Abort, scarce: &Scarce) -> bool {
    match Schema::new(scarce, &[(1, 8), (2, 16), (3, 32)]) {
        Ok(schema) => {
            same(rt, "width", schema.width(3), Some(32));
            true
        }
        Err(fault) => {
            same(rt, "fault", fault, SchemaFault::NoMemory);
            false
        }
    }
}

/// Tells whether a copy was made. Where it wasn't, the schema is as it was.
fn is_copied(rt: &impl Abort, schema: &Schema<&Scarce>) -> bool {
    match schema.clone() {
        Ok(copy) => {
            same(rt, "width of the copy", copy.width(2), Some(16));
            true
        }
        Err(_) => {
            same(rt, "width", schema.width(2), Some(16));
            false
        }
    }
}

#[test]
fn each_refused_growth_is_out_of_memory(rt: HostRuntime) {
    let scarce = Scarce::new(rt.alloc());
    same(
        &rt,
        "made",
        scarce.refuse_each(|| is_made(&rt, &scarce)),
        Some(1),
    );
    let schema = Schema::new(&scarce, &[(1, 8), (2, 16)]).expect(&rt, "the schema");
    same(
        &rt,
        "copied",
        scarce.refuse_each(|| is_copied(&rt, &schema)),
        Some(1),
    );
}

static HELPERS: [(i32, Helper, &[ArgumentKind], AnswerKind); 6] = [
    (1, Helper::RowGet, &[Table, Number, RowWritten], Flag),
    (2, Helper::RowPut, &[Table, Number, RowRead], Zero),
    (3, Helper::RowDelete, &[Table, Number], Zero),
    (4, Helper::RangeCount, &[Table, Number, Number], Count),
    (
        5,
        Helper::RangeNext,
        &[Table, Number, Number, KeyWritten, RowWritten],
        Flag,
    ),
    (6, Helper::Cancel, &[Number], Zero),
];

static NO_HELPERS: [i32; 6] = [i32::MIN, -1, 0, 7, 257, i32::MAX];

const LOOK: Look = Look {
    table: 1,
    lo: 10,
    hi: 20,
};

#[test]
fn helpers_and_looks(rt: HostRuntime) {
    assert!(rt; LOOK.covers(1, 20));
    for (number, helper, arguments, answer) in &HELPERS {
        same(&rt, "helper", Helper::from_number(*number), Some(*helper));
        same(&rt, "number", helper.number(), *number);
        same(
            &rt,
            "arguments",
            (*number, helper.arguments()),
            (*number, *arguments),
        );
        same(
            &rt,
            "answer",
            (*number, helper.answer()),
            (*number, *answer),
        );
    }
    for number in &NO_HELPERS {
        same(
            &rt,
            "no helper",
            (*number, Helper::from_number(*number)),
            (*number, None),
        );
    }
}
