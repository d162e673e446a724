use bpf_verify::Cause;
use byte_output::sink::GrowingBytes;
use log_entry::Entry;
use log_model::{CallRefusal, Identifier, RequestId};
use program_checks::ProgramFault;
use script::LineFault;
use site_model::{AdditionAnswer, AdditionRefusal, CallAnswer, EntryOutcome, NothingCause};
use site_report::{
    append_addition_line, append_call_line, append_entry_line, append_fault_line,
    append_no_memory_line, append_order_full_line, append_position_line, append_row_count_line,
};
use std::alloc::Global;
use std::process::Abort;
use test_programs::increment_call;

const NONE: Option<RequestId> = None;

const SEVEN: Option<RequestId> = Some(RequestId {
    session: 7,
    sequence: 1,
});

const EIGHT: Option<RequestId> = Some(RequestId {
    session: 8,
    sequence: 1,
});

const LAST: Option<RequestId> = Some(RequestId {
    session: 4294967295,
    sequence: 4294967295,
});

/// The outcome of the byte string at a position, its request, and the line.
type Told = (u32, EntryOutcome, Option<RequestId>, &'static str);

static OUTCOMES: [Told; 9] = [
    (
        1,
        EntryOutcome::Committed(10),
        SEVEN,
        "entry 1 commit reply 10 session 7 seq 1\n",
    ),
    (
        2,
        EntryOutcome::Repeated {
            position: 1,
            reply: 10,
        },
        SEVEN,
        "entry 2 repeat 1 reply 10 session 7 seq 1\n",
    ),
    (
        2,
        EntryOutcome::Conflict(1),
        EIGHT,
        "entry 2 conflict 1 session 8 seq 1\n",
    ),
    (6, EntryOutcome::Stale, NONE, "entry 6 stale\n"),
    (
        1,
        EntryOutcome::Nothing(NothingCause::Snapshot),
        SEVEN,
        "entry 1 nothing E3 session 7 seq 1\n",
    ),
    (
        1,
        EntryOutcome::Nothing(NothingCause::Untrue),
        SEVEN,
        "entry 1 nothing E5 session 7 seq 1\n",
    ),
    (
        4294967295,
        EntryOutcome::Repeated {
            position: 4294967294,
            reply: 18446744073709551615,
        },
        LAST,
        "entry 4294967295 repeat 4294967294 reply 18446744073709551615 session 4294967295 seq 4294967295\n",
    ),
    (1, EntryOutcome::Added(9), NONE, "entry 1 added 9\n"),
    (1, EntryOutcome::Session(1), NONE, "entry 1 session 1\n"),
];

/// Additions whose name or number is taken: the position, which of both, and the line.
static TAKEN: [(u32, Identifier, &str); 2] = [
    (2, Identifier::Name, "entry 2 taken C1\n"),
    (3, Identifier::Number, "entry 3 taken C2\n"),
];

/// Causes for which the byte string at position 1 is nothing and has no request, each with the line.
static NOTHING: [(NothingCause, &str); 5] = [
    (NothingCause::Unreadable, "entry 1 nothing E1\n"),
    (NothingCause::Addition, "entry 1 nothing E2\n"),
    (NothingCause::Procedure, "entry 1 nothing E4\n"),
    (NothingCause::Superseded, "entry 1 nothing E6\n"),
    (NothingCause::UnknownSession, "entry 1 nothing E7\n"),
];

/// Makes a sink to which lines are appended.
fn sink(alloc: Global) -> GrowingBytes<Global> {
    GrowingBytes::new(Vec::new(alloc))
}

/// Asserts that these bytes were appended.
fn has(rt: &impl Abort, sink: GrowingBytes<Global>, expected: &str) {
    let bytes = sink.into_bytes().expect(rt, "memory");
    assert!(rt; bytes.as_slice() == expected.as_bytes(), "{expected}");
}

/// An answer that has a line.
enum Answered<'a> {
    Entry(u32, EntryOutcome, Option<RequestId>),
    Call(&'a CallAnswer<Entry>),
    Addition(&'a AdditionAnswer<Entry>),
}

/// Asserts that an answer has this line.
fn has_line(rt: &impl Abort, alloc: Global, answered: Answered<'_>, expected: &str) {
    let mut line = sink(alloc);
    match answered {
        Answered::Entry(position, outcome, request) => {
            append_entry_line(&mut line, position, outcome, request);
        }
        Answered::Call(answer) => append_call_line(&mut line, answer),
        Answered::Addition(answer) => append_addition_line(&mut line, answer),
    }
    has(rt, line, expected);
}

/// Asserts that an outcome has this line.
fn entry_has(rt: &impl Abort, alloc: Global, told: &Told) {
    let (position, outcome, request, expected) = *told;
    let answered = Answered::Entry(position, outcome, request);
    has_line(rt, alloc, answered, expected);
}

#[test]
fn entries_have_their_lines(rt: HostRuntime) {
    for told in &OUTCOMES {
        entry_has(&rt, rt.alloc(), told);
    }
    for (position, identifier, expected) in &TAKEN {
        let told = (*position, EntryOutcome::Taken(*identifier), NONE, *expected);
        entry_has(&rt, rt.alloc(), &told);
    }
    for (cause, expected) in &NOTHING {
        let told = (1, EntryOutcome::Nothing(*cause), NONE, *expected);
        entry_has(&rt, rt.alloc(), &told);
    }
}

/// The increment by request 7 1.
fn increment(rt: &impl Abort, alloc: Global) -> Entry {
    let mut call = increment_call(alloc).expect(rt, "memory");
    call.request = SEVEN;
    Entry::Call(call)
}

const SUBMITTED: &str = "submit 01070000000100000000000000\
    010010000500000000000000\
    0a00000000000000000000000a00000000000000\
    01000105000000000000000500000000000000\
    0100010500000000000000010a00000000000000\n";

#[test]
fn calls_have_their_lines(rt: HostRuntime) {
    let alloc = rt.alloc();
    for (refusal, expected) in [
        (CallRefusal::NoProcedure, "refused P2\n"),
        (CallRefusal::ArgumentsLength, "refused P3\n"),
        (CallRefusal::ZeroInRequest, "refused P13\n"),
    ] {
        let answer = CallAnswer::Refused(refusal);
        has_line(&rt, alloc, Answered::Call(&answer), expected);
    }
    let (position, reply) = (1, 10);
    let answer = CallAnswer::Repeated { position, reply };
    has_line(&rt, alloc, Answered::Call(&answer), "repeat 1 reply 10\n");
    let answer = CallAnswer::OutOfSession;
    has_line(&rt, alloc, Answered::Call(&answer), "refused P15\n");
    let answer = CallAnswer::Cancelled { position, code: 2 };
    has_line(&rt, alloc, Answered::Call(&answer), "cancelled 1 code 2\n");
    let answer = CallAnswer::Read { position, reply: 1 };
    has_line(&rt, alloc, Answered::Call(&answer), "read 1 reply 1\n");
    let answer = CallAnswer::Submitted(increment(&rt, alloc));
    has_line(&rt, alloc, Answered::Call(&answer), SUBMITTED);
}

#[test]
fn additions_have_their_lines(rt: HostRuntime) {
    let alloc = rt.alloc();
    let fault = ProgramFault::Instruction {
        slot: 0,
        cause: Cause::HoldsNothing,
    };
    for (refusal, expected) in [
        (AdditionRefusal::Program(fault), "refused P11 V1 slot 0\n"),
        (AdditionRefusal::Name, "refused P12\n"),
        (AdditionRefusal::NoAdditions, "refused P14\n"),
    ] {
        let answer = AdditionAnswer::Refused(refusal);
        has_line(&rt, alloc, Answered::Addition(&answer), expected);
    }
    let answer = AdditionAnswer::Submitted(increment(&rt, alloc));
    has_line(&rt, alloc, Answered::Addition(&answer), SUBMITTED);
}

#[test]
fn other_lines(rt: HostRuntime) {
    let mut lines = sink(rt.alloc());
    append_position_line(&mut lines, 2);
    append_row_count_line(&mut lines, 2, 1);
    append_fault_line(&mut lines, LineFault::Bytes);
    append_fault_line(&mut lines, LineFault::Field);
    append_order_full_line(&mut lines);
    append_no_memory_line(&mut lines);
    has(
        &rt,
        lines,
        "position 2\nposition 2 rows 1\nfault L1\nfault L4\nfault O1\nrefused P9\n",
    );
}
