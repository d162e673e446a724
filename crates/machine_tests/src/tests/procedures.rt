//! Whole calls of procedures, and stores that are gone.

use super::{NEVER, described, described_call, described_run, procedure_of, rows_of, same};
use bpf_verify::Accepted;
use plain_runner::{CompletedRun, Row, run_program};
use plain_site::{SiteFault, complete_call, run_call};
use std::alloc::Global;
use std::process::Abort;
use test_programs::{
    ADD, COUNT, DELETE, INCREMENT, INDEX, NEXT, PUT, PUT_AND_CANCEL, PUT_AND_GET, RUNS, RowValue,
    SKEW, STACK_WORD, args_of, row_values, words_of,
};

/// Runs beside `RUNS`: a program, its arguments, the rows before it, and what comes of it.
static MORE_RUNS: [[&str; 4]; 4] = [
    [STACK_WORD, "", "", "1099511627768 in 2"],
    [
        NEXT,
        "10 20 101",
        "",
        "0 in 16 look 1:10-20 put 1:101=0000000000000000",
    ],
    // A row of two bytes, the last of the stack.
    [
        INCREMENT,
        "",
        "2:5=255",
        "256 in 15 look 2:5-5 put 2:5=0001",
    ],
    // A next among its own writes: 3 was put at key 5, and the row at key 4 was removed.
    [
        "7a0af8ff03000000 b702000005000000 bfa3000000000000 07030000f8ffffff \
            b701000001000000 8500000002000000 b702000004000000 b701000001000000 \
            8500000003000000 b702000000000000 b703000009000000 bfa4000000000000 \
            07040000f0ffffff bfa5000000000000 07050000e8ffffff b701000001000000 \
            8500000005000000 79a0f0ff00000000 9500000000000000",
        "",
        "1:4=1 1:7=1",
        "5 in 19 look 1:0-5 remove 1:4 put 1:5=0300000000000000",
    ],
];

/// Returns what the machine does, turn by turn.
fn line_of_turns(
    rt: &impl Abort,
    alloc: Global,
    procedure: &Accepted,
    args: &[u8],
    rows: &[Row],
) -> String {
    let run = run_call(alloc, procedure, args, rows, NEVER);
    described(rt, alloc, run.expect(rt, "it begins"))
}

/// Returns what the machine does, to its end. The line doesn't say the number of turns.
fn line_of_call(
    rt: &impl Abort,
    alloc: Global,
    procedure: &Accepted,
    args: &[u8],
    rows: &[Row],
    turns: usize,
) -> String {
    let call = complete_call(alloc, procedure, args, rows).expect(rt, "it begins");
    described_call(rt, alloc, turns, &call)
}

/// Returns what the definition says.
fn plain_run(
    rt: &impl Abort,
    alloc: Global,
    procedure: &Accepted,
    args: &[u8],
    rows: &[Row],
) -> CompletedRun {
    let run = run_program(alloc, procedure.code(), procedure.schema(), args, rows);
    run.expect(rt, "memory").expect(rt, "it has a run")
}

/// Asserts that a call comes to its outcome on the machine, both ways, and by the definition.
fn assert_outcome(
    rt: &impl Abort,
    alloc: Global,
    program: &str,
    args: &[u64],
    rows: &[RowValue],
    outcome: &str,
) {
    let rows = rows_of(rt, alloc, rows);
    let (procedure, args) = procedure_of(rt, alloc, program, args);
    let run = plain_run(rt, alloc, &procedure, &args, &rows);
    let turns = line_of_turns(rt, alloc, &procedure, &args, &rows);
    let call = line_of_call(rt, alloc, &procedure, &args, &rows, run.steps());
    let plain = described_run(rt, alloc, &run);
    for line in [&turns, &call, &plain] {
        same(rt, program, line.as_str(), outcome);
    }
}

/// Asserts the same of arguments and rows that are given as text.
fn comes_to(rt: &impl Abort, alloc: Global, program: &str, args: &str, rows: &str, outcome: &str) {
    let args = words_of(alloc, args).expect(rt, args);
    let rows = row_values(alloc, rows).expect(rt, rows);
    assert_outcome(rt, alloc, program, &args, &rows, outcome);
}

#[test]
fn calls_answer_what_their_runs_do(rt: HostRuntime) {
    for [program, args, rows, outcome, _] in &RUNS {
        comes_to(&rt, rt.alloc(), program, args, rows, outcome);
    }
    for [program, args, rows, outcome] in &MORE_RUNS {
        comes_to(&rt, rt.alloc(), program, args, rows, outcome);
    }
}

/// The first word of the arguments of `INDEX`, the last place that has eight bytes and the next, and what comes of it.
static INDEX_ENDS: [(u64, &str); 2] = [(248, "31 in 5"), (249, "0 in 4")];

/// Words of which each is its number.
static WORDS: [u64; 32] = [
    0, 1, 2, 3, 4, 5, 6, 7, 8, 9, 10, 11, 12, 13, 14, 15, 16, 17, 18, 19, 20, 21, 22, 23, 24, 25,
    26, 27, 28, 29, 30, 31,
];

#[test]
fn arguments_end_at_their_last_byte(rt: HostRuntime) {
    for (first, outcome) in &INDEX_ENDS {
        let mut words = WORDS;
        words[0] = *first;
        assert_outcome(&rt, rt.alloc(), INDEX, &words, &[], outcome);
    }
}

/// A program, its arguments, the turn from which on the store is gone, and what comes of it.
type GoneCase = (&'static str, &'static [u64], u32, &'static str);

/// A look at a store that is gone is stale, at each helper that looks. Puts, removals, cancels, gets of own writes and
/// empty ranges never are.
static GONE: [GoneCase; 12] = [
    (ADD, &[5, 10], 1, "stale in 7"),
    (
        ADD,
        &[5, 10],
        8,
        "10 in 17 look 1:5-5 put 1:5=0a00000000000000",
    ),
    (SKEW, &[1, 2], 1, "stale in 7"),
    (SKEW, &[1, 2], 8, "stale in 12 look 1:1-1"),
    (COUNT, &[10, 20, 100], 1, "stale in 5"),
    (
        COUNT,
        &[20, 10, 100],
        1,
        "0 in 14 put 1:100=0000000000000000",
    ),
    (NEXT, &[10, 20, 101], 1, "stale in 9"),
    (
        NEXT,
        &[20, 10, 101],
        1,
        "0 in 16 put 1:101=0000000000000000",
    ),
    (PUT, &[7, 2], 1, "0 in 8 put 1:7=0200000000000000"),
    (DELETE, &[9], 1, "0 in 4 remove 1:9"),
    (PUT_AND_CANCEL, &[7, 2], 1, "0 in 10 cancelled 9"),
    (PUT_AND_GET, &[], 1, "3 in 13 put 1:5=0300000000000000"),
];

/// Returns what a call comes to over a store without rows, which is gone from a turn on.
fn line_where_gone(
    rt: &impl Abort,
    alloc: Global,
    program: &str,
    words: &[u64],
    from: u32,
) -> String {
    let (procedure, args) = procedure_of(rt, alloc, program, words);
    let no_rows: [Row; 0] = [];
    let run = run_call(alloc, &procedure, &args, &no_rows, from);
    described(rt, alloc, run.expect(rt, "it begins"))
}

#[test]
fn looks_at_a_store_that_is_gone_are_stale(rt: HostRuntime) {
    for (program, words, from, outcome) in &GONE {
        let line = line_where_gone(&rt, rt.alloc(), program, words, *from);
        same(&rt, program, (*from, line.as_str()), (*from, *outcome));
    }
}

/// Returns the fault for which a put doesn't begin, on these arguments and rows; the bytes `behind` stand behind the
/// arguments.
fn fault_of_put(
    rt: &impl Abort,
    alloc: Global,
    words: &[u64],
    behind: &[u8],
    rows: &[Row],
) -> Option<SiteFault> {
    let (procedure, _args) = procedure_of(rt, alloc, PUT, &[7, 2]);
    let mut args = args_of(alloc, words).expect(rt, "memory");
    args.extend_from_slice(behind).expect(rt, "memory");
    run_call(alloc, &procedure, &args, rows, NEVER).err()
}

/// Arguments that are too few or too many, a row of no table of the schema, and a row of another width.
#[test]
fn calls_that_cannot_begin_say_why(rt: HostRuntime) {
    let alloc = rt.alloc();
    let foreign = rows_of(&rt, alloc, &[(3, 5, 1)]);
    let narrow = [Row::new(1, 5, Vec::from_slice(alloc, &[1; 7]).expect(&rt, "memory"))];
    let few = fault_of_put(&rt, alloc, &[7], &[], &[]);
    let many = fault_of_put(&rt, alloc, &[7, 2], &[0], &[]);
    let other_table = fault_of_put(&rt, alloc, &[7, 2], &[], &foreign);
    let other_width = fault_of_put(&rt, alloc, &[7, 2], &[], &narrow);
    assert!(rt; few == Some(SiteFault::ArgsLength));
    assert!(rt; many == Some(SiteFault::ArgsLength));
    assert!(rt; other_table == Some(SiteFault::ForeignRow));
    assert!(rt; other_width == Some(SiteFault::ForeignRow));
}
