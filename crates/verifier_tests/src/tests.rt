use bpf_bytes::decode;
use bpf_code::Code;
use bpf_verify::{Accepted, Refusal, verify};
use plain_runner::{Row, run_program};
use programs::{
    HELPERS_AND_TABLES, HOLDS_NOTHING, HOLDS_NOTHING_IN_MEMORY, JUMPS, KEYS_AND_BUFFERS, LOWEST,
    NO_PROGRAMS, NOT_A_NUMBER, NOT_WRITTEN, OF_ROWS, OUTSIDE, PLACES, REPLIES_AND_ARGUMENTS,
    STACK_END_WRITTEN, TOO_FAR,
};
use scarce::Scarce;
use schema::Schema;
use std::alloc::Global;
use std::fmt::Debug;
use std::process::Abort;
use test_programs::{ONE, SKIP, STORE_WITHIN, bytes_of};

mod bounds;
mod programs;
mod ranges;
mod refinements;

/// Asserts that a value is the one that is wanted. The assertion stands in a function of its own, since a proof of many
/// comparisons in one function beside values to be dropped takes long.
fn same<T: PartialEq + Debug + Copy>(rt: &impl Abort, case: &str, found: T, wanted: T) {
    assert_eq!(rt; found, wanted, "{case}");
}

/// A case: what it shows, a program, the number of bytes of its arguments, the tables, and the answer of the verifier,
/// or of the decoder before it.
struct Case {
    name: &'static str,
    program: &'static str,
    args_len: u16,
    tables: &'static [(u8, u16)],
    verdict: &'static str,
}

/// A small program, the number of bytes of its arguments, and what is said of the program where table 1 has rows of 8
/// bytes.
type Cause = (&'static str, u16, &'static str);

/// Returns what is said of a program, in a line.
fn verdict(
    rt: &impl Abort,
    alloc: Global,
    bytes: &[u8],
    args_len: u16,
    tables: &[(u8, u16)],
) -> String {
    let code = match decode(alloc, bytes) {
        Ok(code) => code,
        Err(fault) => return format!(in alloc; "{fault}").expect(rt, "memory"),
    };
    let slots = code.slots();
    let schema = Schema::new(alloc, tables).expect(rt, "memory");
    match verify(alloc, code, &schema, args_len.min(256)) {
        Ok(accepted) => format!(in alloc;
            "accepted slots {slots} bound {}",
            accepted.bound()
        ).expect(rt, "memory"),
        Err(refusal) => format!(in alloc; "{refusal}").expect(rt, "memory"),
    }
}

/// Asserts what is said of a case.
fn is_said(rt: &impl Abort, alloc: Global, case: &Case) {
    let bytes = bytes_of(alloc, case.program).expect(rt, case.name);
    let text = verdict(rt, alloc, &bytes, case.args_len, case.tables);
    same(rt, case.name, text.as_str(), case.verdict);
}

#[test]
fn programs_are_accepted_or_refused(rt: HostRuntime) {
    for cases in [&OF_ROWS[..], &JUMPS, &PLACES, &NO_PROGRAMS] {
        for case in cases {
            is_said(&rt, rt.alloc(), case);
        }
    }
}

fn has_cause(rt: &impl Abort, alloc: Global, cause: &Cause) {
    let (program, args_len, expected) = *cause;
    let bytes = bytes_of(alloc, program).expect(rt, program);
    let text = verdict(rt, alloc, &bytes, args_len, &[(1, 8)]);
    same(rt, program, (args_len, text.as_str()), (args_len, expected));
}

/// Each cause by a small program, alone and beside others, the lowest of which is given.
#[test]
fn causes_are_given(rt: HostRuntime) {
    for causes in [
        &HOLDS_NOTHING[..],
        &HOLDS_NOTHING_IN_MEMORY,
        &STACK_END_WRITTEN,
        &NOT_A_NUMBER,
        &TOO_FAR,
        &OUTSIDE,
        &NOT_WRITTEN,
        &HELPERS_AND_TABLES,
        &KEYS_AND_BUFFERS,
        &REPLIES_AND_ARGUMENTS,
        &LOWEST,
    ] {
        for cause in causes {
            has_cause(&rt, rt.alloc(), cause);
        }
    }
}

const SET: [u8; 8] = [0xb7, 0, 0, 0, 1, 0, 0, 0];

const JUMP: [u8; 8] = [0x15, 0, 0, 0, 1, 0, 0, 0];

const EXIT: [u8; 8] = [0x95, 0, 0, 0, 0, 0, 0, 0];

/// The longest programs, and one that is too long: a first slot, two that follow 2,047 times, and the end.
static LONGEST: [([u8; 8], [[u8; 8]; 2], &[[u8; 8]], &str); 3] = [
    // The first of these programs ends at once.
    (SET, [EXIT, EXIT], &[EXIT], "accepted slots 4096 bound 2"),
    // This program jumps to the next instruction in every other slot.
    (SET, [JUMP, SET], &[EXIT], "accepted slots 4096 bound 4096"),
    (SET, [EXIT, EXIT], &[EXIT, EXIT], "B2 slot 0"),
];

fn longest(
    rt: &impl Abort,
    alloc: Global,
    first: &[u8; 8],
    pair: &[[u8; 8]; 2],
    end: &[[u8; 8]],
) -> Vec<u8> {
    let mut bytes = Vec::from_slice(alloc, first).expect(rt, "memory");
    for _ in 0..2047 {
        for slot in pair {
            bytes.extend_from_slice(slot).expect(rt, "memory");
        }
    }
    for slot in end {
        bytes.extend_from_slice(slot).expect(rt, "memory");
    }
    bytes
}

#[test]
fn the_longest_programs_are_verified(rt: HostRuntime) {
    for (first, pair, end, expected) in &LONGEST {
        let bytes = longest(&rt, rt.alloc(), first, pair, end);
        let text = verdict(&rt, rt.alloc(), &bytes, 0, &[]);
        same(&rt, "longest", text.as_str(), *expected);
    }
}

fn code_of(rt: &impl Abort, alloc: Global, program: &str) -> Code {
    let bytes = bytes_of(alloc, program).expect(rt, "the bytes");
    decode(alloc, &bytes).expect(rt, "the program")
}

fn is_as_given(rt: &impl Abort, accepted: &Accepted, schema: &Schema) {
    assert!(rt; accepted.schema() == schema);
    same(rt, "length of the arguments", accepted.args_len(), 256);
    same(rt, "slots", accepted.code().slots(), 2);
    same(rt, "bound", accepted.bound(), 2);
}

/// The accepted program is the given one, and its copy of the schema is its own.
#[test]
fn what_is_accepted_is_what_was_given(rt: HostRuntime) {
    let code = code_of(&rt, rt.alloc(), ONE);
    let schema = Schema::new(rt.alloc(), &[(1, 8), (64, 128)]).expect(&rt, "memory");
    let accepted = verify(rt.alloc(), code, &schema, 256).expect(&rt, "it is accepted");
    is_as_given(&rt, &accepted, &schema);
}

/// Tells whether a program is accepted. Where it isn't, memory was refused.
fn is_accepted(rt: &impl Abort, alloc: Global, scarce: &Scarce, schema: &Schema<&Scarce>) -> bool {
    let code = code_of(rt, alloc, ONE);
    let refusal = verify(scarce, code, schema, 0).err();
    assert!(rt; refusal.is_none() || refusal == Some(Refusal::NoMemory));
    refusal.is_none()
}

/// A verification takes memory three times: for what is known before the slots, the copy of the schema, and the layout.
#[test]
fn each_refused_growth_is_want_of_memory(rt: HostRuntime) {
    let scarce = Scarce::new(rt.alloc());
    let schema = Schema::new(&scarce, &[(1, 8)]).expect(&rt, "memory");
    for (growth, expected) in &[(1, false), (2, false), (3, false), (4, true)] {
        scarce.refuse_nth(*growth);
        let found = is_accepted(&rt, rt.alloc(), &scarce, &schema);
        same(&rt, "accepted", (*growth, found), (*growth, *expected));
    }
}

/// Programs, their one byte of arguments, what they reply, and the number of steps.
static REPLIES: [(&str, u8, u64, usize); 3] = [
    (STORE_WITHIN, 0, 1, 8),
    (STORE_WITHIN, 3, 0, 8),
    (SKIP, 0, 1, 3),
];

/// The reply and the steps of a run without rows.
fn run_of(rt: &impl Abort, alloc: Global, program: &str, args: &[u8]) -> Option<(u64, usize)> {
    let code = code_of(rt, alloc, program);
    let schema = Schema::new(alloc, &[]).expect(rt, "memory");
    let no_rows: &[Row] = &[];
    let run = run_program(alloc, &code, &schema, args, no_rows).expect(rt, "memory");
    run.map(|run| (run.reply(), run.steps()))
}

/// Accepted programs reply, by the plain runner, what is wanted.
#[test]
fn accepted_programs_reply(rt: HostRuntime) {
    for (program, args, reply, steps) in &REPLIES {
        let found = run_of(&rt, rt.alloc(), program, &[*args]);
        same(&rt, program, found, Some((*reply, *steps)));
    }
}
