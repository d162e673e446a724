//! Whole programs, with what comes of them.

use super::rows::{TABLES, row_of, run};
use super::same;
use bpf_bytes::decode;
use bpf_code::Code;
use plain_runner::{CompletedRun, Row, Write, run_program};
use scarce::Scarce;
use schema::{Look, Schema};
use std::alloc::Global;
use std::fmt::Write as _;
use std::process::Abort;
use test_programs::{
    ADD, COUNT, DELETE, INCREMENT, INDEX, INDEX_TOO_FAR, NEXT, PUT, PUT_AND_CANCEL, PUT_AND_STICK,
    RUNS, RowValue, RunCase, SKEW, SKIP, args_of, bytes_of, row_values, words_of,
};

/// Adds and puts.
static PUTS: [RunCase; 7] = [
    [
        ADD,
        "5 7",
        "",
        "7 in 17 look 1:5-5 put 1:5=0700000000000000",
        "1:5=0700000000000000",
    ],
    [
        SKEW,
        "2 1",
        "",
        "0 in 19 look 1:2-2 look 1:1-1 put 1:2=0100000000000000",
        "1:2=0100000000000000",
    ],
    [
        PUT,
        "7 1",
        "",
        "0 in 8 put 1:7=0100000000000000",
        "1:7=0100000000000000",
    ],
    [
        PUT,
        "12 1",
        "",
        "0 in 8 put 1:12=0100000000000000",
        "1:12=0100000000000000",
    ],
    [
        PUT,
        "15 9",
        "",
        "0 in 8 put 1:15=0900000000000000",
        "1:15=0900000000000000",
    ],
    [
        NEXT,
        "10 20 101",
        "1:12=1",
        "12 in 16 look 1:10-12 put 1:101=0100000000000000",
        "1:12=0100000000000000 1:101=0100000000000000",
    ],
    [
        SKEW,
        "2 1",
        "1:1=1",
        "0 in 19 look 1:2-2 look 1:1-1 put 1:2=0100000000000000",
        "1:1=0100000000000000 1:2=0100000000000000",
    ],
];

/// Counts and nexts over a range, and removals.
static RANGES: [RunCase; 5] = [
    // The whole range is looked at where nothing stands.
    [
        COUNT,
        "10 20 100",
        "",
        "0 in 14 look 1:10-20 put 1:100=0000000000000000",
        "1:100=0000000000000000",
    ],
    // The ends of a range are in it.
    [
        COUNT,
        "10 20 100",
        "1:9=1 1:10=1 1:20=1 1:21=1",
        "2 in 14 look 1:10-20 put 1:100=0200000000000000",
        "1:9=0100000000000000 1:10=0100000000000000 1:20=0100000000000000 1:21=0100000000000000 1:100=0200000000000000",
    ],
    [
        NEXT,
        "10 20 101",
        "1:9=3 1:21=4",
        "0 in 16 look 1:10-20 put 1:101=0000000000000000",
        "1:9=0300000000000000 1:21=0400000000000000 1:101=0000000000000000",
    ],
    [
        NEXT,
        "20 10 101",
        "1:15=9",
        "0 in 16 put 1:101=0000000000000000",
        "1:15=0900000000000000 1:101=0000000000000000",
    ],
    [
        DELETE,
        "9",
        "1:8=1 1:9=2",
        "0 in 4 remove 1:9",
        "1:8=0100000000000000",
    ],
];

/// Calls that cancel, or are stuck.
static CANCELS: [RunCase; 5] = [
    // A call that cancelled has no writes, and the rows stay as they were.
    [
        PUT_AND_CANCEL,
        "7 2",
        "1:7=1",
        "0 in 10 cancelled 9",
        "1:7=0100000000000000",
    ],
    // A run that is stuck after a write has no outcome.
    [PUT_AND_STICK, "7 2", "", "stuck", ""],
    // The look of the call stays.
    [
        "7916000000000000 7917080000000000 b701000001000000 bf62000000000000 \
            bfa3000000000000 07030000f8ffffff 8500000001000000 79a8f8ff00000000 \
            0f78000000000000 7b8af8ff00000000 b701000001000000 bf62000000000000 \
            bfa3000000000000 07030000f8ffffff 8500000002000000 bf80000000000000 \
            b701000009000000 8500000006000000 b700000000000000 9500000000000000",
        "5 10",
        "1:5=1",
        "0 in 20 look 1:5-5 cancelled 9",
        "1:5=0100000000000000",
    ],
    // The last code counts.
    [
        "b701000001000000 8500000006000000 b701000002000000 8500000006000000 \
            9500000000000000",
        "",
        "",
        "0 in 5 cancelled 2",
        "",
    ],
    // A get after a cancel still reads what was put and is no look, and a later put is dropped too.
    [
        "7a0af8ff03000000 b702000005000000 bfa3000000000000 07030000f8ffffff \
            b701000001000000 8500000002000000 b701000009000000 8500000006000000 \
            b702000005000000 bfa3000000000000 07030000f0ffffff b701000001000000 \
            8500000001000000 79a8f0ff00000000 7a0af8ff04000000 b702000006000000 \
            bfa3000000000000 07030000f8ffffff b701000001000000 8500000002000000 \
            bf80000000000000 9500000000000000",
        "",
        "1:5=1",
        "3 in 22 cancelled 9",
        "1:5=0100000000000000",
    ],
];

/// The writes of its own that a run sees.
static OWN_WRITES: [RunCase; 10] = [
    // A get of a key that was put or removed before is no look.
    [
        "b702000005000000 b701000001000000 8500000003000000 b702000005000000 \
            bfa3000000000000 07030000f0ffffff b701000001000000 8500000001000000 \
            9500000000000000",
        "",
        "1:5=1",
        "0 in 9 remove 1:5",
        "",
    ],
    // A get before its key is written is a look, and repeats are kept.
    [
        "b702000005000000 bfa3000000000000 07030000f0ffffff b701000001000000 \
            8500000001000000 b702000005000000 bfa3000000000000 07030000f0ffffff \
            b701000001000000 8500000001000000 7a0af8ff03000000 b702000005000000 \
            bfa3000000000000 07030000f8ffffff b701000001000000 8500000002000000 \
            b702000005000000 bfa3000000000000 07030000f0ffffff b701000001000000 \
            8500000001000000 9500000000000000",
        "",
        "1:5=1",
        "1 in 22 look 1:5-5 look 1:5-5 put 1:5=0300000000000000",
        "1:5=0300000000000000",
    ],
    // A count sees what was written, and looks there.
    [
        "7a0af8ff03000000 b702000005000000 bfa3000000000000 07030000f8ffffff \
            b701000001000000 8500000002000000 b702000001000000 b703000009000000 \
            b701000001000000 8500000004000000 9500000000000000",
        "",
        "1:5=1 1:6=1",
        "2 in 11 look 1:1-9 put 1:5=0300000000000000",
        "1:5=0300000000000000 1:6=0100000000000000",
    ],
    // The last write of a key stands.
    [
        "7a0af8ff03000000 b702000005000000 bfa3000000000000 07030000f8ffffff \
            b701000001000000 8500000002000000 7a0af8ff04000000 b702000005000000 \
            bfa3000000000000 07030000f8ffffff b701000001000000 8500000002000000 \
            9500000000000000",
        "",
        "",
        "0 in 13 put 1:5=0400000000000000",
        "1:5=0400000000000000",
    ],
    [
        "7a0af8ff03000000 b702000005000000 bfa3000000000000 07030000f8ffffff \
            b701000001000000 8500000002000000 b702000005000000 b701000001000000 \
            8500000003000000 9500000000000000",
        "",
        "1:5=1",
        "0 in 10 remove 1:5",
        "",
    ],
    // The row buffer is written after the key buffer.
    [
        "b70200000a000000 b703000014000000 bfa4000000000000 07040000f8ffffff \
            bfa5000000000000 07050000f8ffffff b701000001000000 8500000005000000 \
            79a0f8ff00000000 9500000000000000",
        "",
        "1:12=1",
        "1 in 10 look 1:10-12",
        "1:12=0100000000000000",
    ],
    // A next replies whether there was a row.
    [
        "b70200000a000000 b703000014000000 bfa4000000000000 07040000f8ffffff \
            bfa5000000000000 07050000f0ffffff b701000001000000 8500000005000000 \
            9500000000000000",
        "",
        "1:9=1 1:12=1",
        "1 in 9 look 1:10-12",
        "1:9=0100000000000000 1:12=0100000000000000",
    ],
    // A next finds a row that the run put, and none that it removed. Key and row are added.
    [
        "7a0af8ff03000000 b70200000c000000 bfa3000000000000 07030000f8ffffff \
            b701000001000000 8500000002000000 b70200000a000000 b703000014000000 \
            bfa4000000000000 07040000f0ffffff bfa5000000000000 07050000e8ffffff \
            b701000001000000 8500000005000000 79a0f0ff00000000 79a6e8ff00000000 \
            0f60000000000000 9500000000000000",
        "",
        "1:13=9",
        "15 in 18 look 1:10-12 put 1:12=0300000000000000",
        "1:12=0300000000000000 1:13=0900000000000000",
    ],
    [
        "b70200000c000000 b701000001000000 8500000003000000 b70200000a000000 \
            b703000014000000 bfa4000000000000 07040000f0ffffff bfa5000000000000 \
            07050000e8ffffff b701000001000000 8500000005000000 79a0f0ff00000000 \
            79a6e8ff00000000 0f60000000000000 9500000000000000",
        "",
        "1:12=1 1:13=9",
        "22 in 15 look 1:10-13 remove 1:12",
        "1:13=0900000000000000",
    ],
    // A count leaves out what the run removed, and looks there.
    [
        "b702000005000000 b701000001000000 8500000003000000 b702000001000000 \
            b703000009000000 b701000001000000 8500000004000000 9500000000000000",
        "",
        "1:5=1 1:6=1",
        "1 in 8 look 1:1-9 remove 1:5",
        "1:6=0100000000000000",
    ],
];

/// Jumps, and loads at a place that isn't fixed.
static JUMPS: [RunCase; 4] = [
    // A jump over the reading of a register that holds nothing, and one that isn't taken.
    [SKIP, "", "", "1 in 3", ""],
    [
        "b700000001000000 1500010002000000 bf60000000000000 9500000000000000",
        "",
        "",
        "stuck",
        "",
    ],
    // A load at a place that the arguments give, unless it is too far.
    [
        "7912000000000000 2502030008000000 0f21000000000000 7910000000000000 \
            9500000000000000 b700000000000000 9500000000000000",
        "8 7",
        "",
        "7 in 5",
        "",
    ],
    [
        "7912000000000000 2502030008000000 0f21000000000000 7910000000000000 \
            9500000000000000 b700000000000000 9500000000000000",
        "9 7",
        "",
        "0 in 4",
        "",
    ],
];

/// More than one table.
static TABLE_CASES: [RunCase; 14] = [
    // Rows are taken in any order, and the last at a key stands.
    [
        "b700000000000000 9500000000000000",
        "",
        "1:12=1 1:5=2 1:12=3",
        "0 in 2",
        "1:5=0200000000000000 1:12=0300000000000000",
    ],
    // A count and a next stay within their table, and rows come out by table and then by key.
    [
        COUNT,
        "10 20 100",
        "2:13=5 1:12=1",
        "1 in 14 look 1:10-20 put 1:100=0100000000000000",
        "1:12=0100000000000000 1:100=0100000000000000 2:13=0500",
    ],
    [
        NEXT,
        "10 20 101",
        "2:11=5 1:12=1",
        "12 in 16 look 1:10-12 put 1:101=0100000000000000",
        "1:12=0100000000000000 1:101=0100000000000000 2:11=0500",
    ],
    [
        NEXT,
        "10 20 101",
        "2:11=5",
        "0 in 16 look 1:10-20 put 1:101=0000000000000000",
        "1:101=0000000000000000 2:11=0500",
    ],
    [
        "b70200000a000000 b703000014000000 b701000002000000 8500000004000000 \
            9500000000000000",
        "",
        "1:12=1 2:11=5 1:13=1 2:20=6 1:14=1",
        "2 in 5 look 2:10-20",
        "1:12=0100000000000000 1:13=0100000000000000 1:14=0100000000000000 2:11=0500 2:20=0600",
    ],
    // A next of table 2 writes two bytes, and no more.
    [
        "b70200000a000000 b703000014000000 bfa4000000000000 07040000f8ffffff \
            bfa5000000000000 07050000f0ffffff b701000002000000 8500000005000000 \
            69a0f0ff00000000 9500000000000000",
        "",
        "1:11=1 2:13=1541",
        "1541 in 10 look 2:10-13",
        "1:11=0100000000000000 2:13=0506",
    ],
    [
        "b70200000a000000 b703000014000000 bfa4000000000000 07040000f8ffffff \
            bfa5000000000000 07050000f0ffffff b701000002000000 8500000005000000 \
            61a0f0ff00000000 9500000000000000",
        "",
        "2:13=1541",
        "stuck",
        "",
    ],
    // The key that a next writes has eight bytes.
    [
        "b70200000a000000 b703000014000000 bfa4000000000000 07040000f8ffffff \
            bfa5000000000000 07050000f0ffffff b701000002000000 8500000005000000 \
            79a0f8ff00000000 9500000000000000",
        "",
        "1:11=1 2:13=1541",
        "13 in 10 look 2:10-13",
        "1:11=0100000000000000 2:13=0506",
    ],
    // A get of table 2 after a put at the same key of table 1 is a look.
    [
        "7a0af8ff03000000 b702000005000000 bfa3000000000000 07030000f8ffffff \
            b701000001000000 8500000002000000 b702000005000000 bfa3000000000000 \
            07030000f0ffffff b701000002000000 8500000001000000 9500000000000000",
        "",
        "2:5=9",
        "1 in 12 look 2:5-5 put 1:5=0300000000000000",
        "1:5=0300000000000000 2:5=0900",
    ],
    // A row of table 2 has two bytes, which are read and written: one is added to it.
    [
        INCREMENT,
        "",
        "2:5=511",
        "512 in 15 look 2:5-5 put 2:5=0002",
        "2:5=0002",
    ],
    [
        INCREMENT,
        "",
        "1:5=7",
        "1 in 15 look 2:5-5 put 2:5=0100",
        "1:5=0700000000000000 2:5=0100",
    ],
    // A table that the schema doesn't have keeps its rows, and nothing reaches them.
    [
        "b700000000000000 9500000000000000",
        "",
        "9:3=4 2:1=1 1:9=2",
        "0 in 2",
        "1:9=0200000000000000 2:1=0100 9:3=0400000000000000",
    ],
    [
        PUT,
        "3 1",
        "9:3=4",
        "0 in 8 put 1:3=0100000000000000",
        "1:3=0100000000000000 9:3=0400000000000000",
    ],
    [
        "b702000003000000 b701000009000000 8500000003000000 9500000000000000",
        "",
        "9:3=4",
        "stuck",
        "",
    ],
];

/// Returns what came of a run, in a line, but for the rows.
fn described(rt: &impl Abort, alloc: Global, run: &CompletedRun) -> String {
    let mut text = String::new(alloc);
    write!(text, "{} in {}", run.reply(), run.steps()).expect(rt, "the reply");
    for look in run.looks() {
        describe_look(rt, &mut text, *look);
    }
    for write in run.writes() {
        describe_write(rt, alloc, &mut text, write);
    }
    describe_code(rt, &mut text, run.cancel_code());
    text
}

/// Returns the rows after a run, in a line.
fn described_rows(rt: &impl Abort, alloc: Global, run: &CompletedRun) -> String {
    let mut text = String::new(alloc);
    for row in run.rows() {
        if !text.is_empty() {
            text.push(' ').expect(rt, "a space");
        }
        describe_bytes(rt, alloc, &mut text, row.table(), row.key(), row.bytes());
    }
    text
}

fn describe_look(rt: &impl Abort, text: &mut String, look: Look) {
    let Look { table, lo, hi } = look;
    write!(text, " look {table}:").expect(rt, "a table");
    write!(text, "{lo}-{hi}").expect(rt, "an interval");
}

fn describe_code(rt: &impl Abort, text: &mut String, code: Option<u64>) {
    if let Some(code) = code {
        write!(text, " cancelled {code}").expect(rt, "the code");
    }
}

fn describe_write(rt: &impl Abort, alloc: Global, text: &mut String, write: &Write) {
    let (table, key) = (write.table(), write.key());
    match write.bytes() {
        Some(bytes) => {
            text.push_str(" put ").expect(rt, "a put");
            describe_bytes(rt, alloc, text, table, key, bytes);
        }
        None => write!(text, " remove {table}:{key}").expect(rt, "a removal"),
    }
}

fn describe_bytes(
    rt: &impl Abort,
    alloc: Global,
    text: &mut String,
    table: u8,
    key: u64,
    bytes: &[u8],
) {
    let hex = hex::encode(alloc, bytes).expect(rt, "the digits");
    write!(text, "{table}:{key}={hex}").expect(rt, "a row");
}

/// Returns what comes of a program, in a line, and the rows after it.
fn outcome_of(
    rt: &impl Abort,
    alloc: Global,
    program: &[u8],
    args: &[u8],
    rows: &[RowValue],
) -> (String, String) {
    match run(rt, alloc, program, args, rows) {
        Some(run) => (described(rt, alloc, &run), described_rows(rt, alloc, &run)),
        None => {
            let stuck = String::from_str(alloc, "stuck").expect(rt, "the outcome");
            (stuck, String::new(alloc))
        }
    }
}

fn comes_to(rt: &impl Abort, alloc: Global, case: &RunCase) {
    let [program, args, rows, outcome, after] = *case;
    let bytes = bytes_of(alloc, program).expect(rt, program);
    let words = words_of(alloc, args).expect(rt, args);
    let args = args_of(alloc, &words).expect(rt, "memory");
    let rows = row_values(alloc, rows).expect(rt, rows);
    let (text, left) = outcome_of(rt, alloc, &bytes, &args, &rows);
    same(
        rt,
        program,
        (text.as_str(), left.as_str()),
        (outcome, after),
    );
}

#[test]
fn programs_do_what_they_are_to_do(rt: HostRuntime) {
    let of_ranges = PUTS.iter().chain(&RANGES).chain(&CANCELS);
    let of_writes = OWN_WRITES.iter().chain(&JUMPS).chain(&TABLE_CASES);
    for case in RUNS.iter().chain(of_ranges).chain(of_writes) {
        comes_to(&rt, rt.alloc(), case);
    }
}

/// A program, the first word of its arguments, and what comes of it.
static ENDS: [(&str, u64, &str); 5] = [
    (INDEX, 248, "31 in 5"),
    (INDEX, 249, "0 in 4"),
    (INDEX_TOO_FAR, 248, "31 in 5"),
    (INDEX_TOO_FAR, 249, "stuck"),
    (INDEX_TOO_FAR, 250, "0 in 4"),
];

/// Words of which each is its number.
static NUMBERS: [u64; 32] = [
    0, 1, 2, 3, 4, 5, 6, 7, 8, 9, 10, 11, 12, 13, 14, 15, 16, 17, 18, 19, 20, 21, 22, 23, 24, 25,
    26, 27, 28, 29, 30, 31,
];

fn ends_so(rt: &impl Abort, alloc: Global, program: &str, first: u64, outcome: &str) {
    let mut words = NUMBERS;
    words[0] = first;
    let args = args_of(alloc, &words).expect(rt, "memory");
    let bytes = bytes_of(alloc, program).expect(rt, program);
    let (text, left) = outcome_of(rt, alloc, &bytes, &args, &[]);
    let found = (first, text.as_str(), left.as_str());
    same(rt, program, found, (first, outcome, ""));
}

#[test]
fn arguments_end_at_their_last_byte(rt: HostRuntime) {
    for (program, first, outcome) in &ENDS {
        ends_so(&rt, rt.alloc(), program, *first, outcome);
    }
}

/// Programs that get to their ends, to be run with little memory: each with the key of the row that stands, of
/// arguments that begin with 10.
static SCARCE: [(&str, u64); 11] = [
    (ADD, 12),
    (ADD, 10),
    (SKEW, 12),
    (PUT, 12),
    (PUT, 10),
    (COUNT, 12),
    (NEXT, 12),
    (NEXT, 21),
    (DELETE, 12),
    (DELETE, 10),
    (PUT_AND_CANCEL, 12),
];

/// 10, 20 and 101.
static WORDS: [u8; 24] = [
    10, 0, 0, 0, 0, 0, 0, 0, 20, 0, 0, 0, 0, 0, 0, 0, 101, 0, 0, 0, 0, 0, 0, 0,
];

/// Tells whether the program gets to its end; none where memory was wanting.
fn ends(scarce: &Scarce, code: &Code, schema: &Schema, rows: &[Row]) -> Option<bool> {
    match run_program(scarce, code, schema, &WORDS, rows) {
        Ok(run) => Some(run.is_some()),
        Err(_) => None,
    }
}

fn refuse_growths(rt: &impl Abort, alloc: Global, program: &str, key: u64, at_end: bool) {
    let bytes = bytes_of(alloc, program).expect(rt, program);
    let code = decode(alloc, &bytes).expect(rt, program);
    let rows = [row_of(rt, alloc, 1, key, 0x0101_0101_0101_0101)];
    let scarce = Scarce::new(alloc);
    let schema = Schema::new(alloc, &TABLES).expect(rt, "the schema");
    let run = ends(&scarce, &code, &schema, &rows);
    same(rt, program, run, Some(at_end));
    let growths = scarce.growths();
    for growth in 1..=growths {
        scarce.refuse_nth(growth);
        let run = ends(&scarce, &code, &schema, &rows);
        same(rt, program, (growth, run), (growth, None));
    }
    scarce.refuse_nth(growths.saturating_add(1));
    let run = ends(&scarce, &code, &schema, &rows);
    same(rt, program, run, Some(at_end));
}

#[test]
fn each_refused_growth_is_want_of_memory(rt: HostRuntime) {
    for (program, key) in &SCARCE {
        refuse_growths(&rt, rt.alloc(), program, *key, true);
    }
    refuse_growths(&rt, rt.alloc(), PUT_AND_STICK, 12, false);
}
