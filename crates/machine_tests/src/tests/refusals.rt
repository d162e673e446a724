//! Refused memory at each helper.

use super::{NEVER, described, procedure_of, rows_of, same};
use bpf_verify::Accepted;
use bpf_vm::Turn;
use plain_runner::Row;
use plain_site::{SiteFault, run_call};
use scarce::Scarce;
use std::alloc::Global;
use std::process::Abort;
use test_programs::{ADD, COUNT, DELETE, NEXT, PUT, SKEW};

/// A program, its arguments, the growth that is refused, and what comes of it. The outcome is what the call has looked
/// at and written by then, nothing of the refused turn among it.
type RefusedCase = (&'static str, &'static [u64], u64, &'static str);

static REFUSED: [RefusedCase; 11] = [
    (ADD, &[5, 10], 1, "no memory in 7"),
    (ADD, &[5, 10], 2, "no memory in 15 look 1:5-5"),
    (ADD, &[5, 10], 3, "no memory in 15 look 1:5-5"),
    (SKEW, &[1, 2], 1, "no memory in 7"),
    (PUT, &[7, 2], 1, "no memory in 7"),
    (PUT, &[7, 2], 2, "no memory in 7"),
    (DELETE, &[9], 1, "no memory in 3"),
    (COUNT, &[10, 20, 100], 1, "no memory in 5"),
    (COUNT, &[10, 20, 100], 2, "no memory in 12 look 1:10-20"),
    (NEXT, &[10, 20, 101], 1, "no memory in 9"),
    (NEXT, &[10, 20, 101], 3, "no memory in 14 look 1:10-20"),
];

/// Returns what a call comes to over no rows, where a growth is refused.
fn line_where_refused(
    rt: &impl Abort,
    alloc: Global,
    scarce: &Scarce,
    program: &str,
    words: &[u64],
    growth: u64,
) -> String {
    let (procedure, args) = procedure_of(rt, alloc, program, words);
    scarce.refuse_nth(growth);
    let no_rows: [Row; 0] = [];
    let run = run_call(scarce, &procedure, &args, &no_rows, NEVER);
    described(rt, alloc, run.expect(rt, "it begins"))
}

/// Memory is there again after the refused growth, so what the call has done stays as that turn left it.
#[test]
fn refused_growths_end_a_call(rt: HostRuntime) {
    let alloc = rt.alloc();
    for (program, words, growth, outcome) in &REFUSED {
        let scarce = Scarce::new(alloc);
        let line = line_where_refused(&rt, alloc, &scarce, program, words, *growth);
        let found = (*growth, line.as_str(), scarce.refused());
        same(&rt, program, found, (*growth, *outcome, 1));
    }
}

/// A program, its arguments, the rows before it, and the number of growths that its call makes.
type GrowthCase = (&'static str, &'static [u64], &'static [(u8, u64, u64)], u64);

/// A look takes one growth, and a put two: for its bytes and its place. A row of the store takes two as well.
static GROWTHS: [GrowthCase; 4] = [
    (ADD, &[5, 10], &[], 3),
    (ADD, &[5, 10], &[(1, 5, 1)], 5),
    (NEXT, &[10, 20, 101], &[], 3),
    (NEXT, &[10, 20, 101], &[(1, 12, 1)], 5),
];

/// Returns what the last turn of a call answers, whose rows are copied first.
fn last_turn(scarce: &Scarce, procedure: &Accepted, args: &[u8], rows: &[Row]) -> Turn {
    match run_call(scarce, procedure, args, rows, NEVER) {
        Ok(run) => run.last,
        Err(SiteFault::NoMemory) => Turn::NoMemory,
        Err(_) => Turn::Stale,
    }
}

/// Each growth is refused in turn, until the call comes to its end. Where a row gets no memory the call doesn't begin.
#[test]
fn each_refused_growth_ends_a_call(rt: HostRuntime) {
    let alloc = rt.alloc();
    for (program, words, rows, growths) in &GROWTHS {
        let rows = rows_of(&rt, alloc, rows);
        let (procedure, args) = procedure_of(&rt, alloc, program, words);
        let scarce = Scarce::new(alloc);
        let failed = scarce.refuse_each(|| {
            let last = last_turn(&scarce, &procedure, &args, &rows);
            let has_ended = matches!(last, Turn::Exit(_));
            assert!(rt; has_ended || last == Turn::NoMemory, "{program}");
            has_ended
        });
        same(&rt, program, failed, Some(*growths));
    }
}
