//! The answers of sites: to callers, and to byte strings of an order.

use super::heads::{ADDITION, CALL, HEAD};
use super::sites::{GivenSite, answer, answer_to_addition};
use log_entry::NamedProgram;
use log_model::{CallRefusal, RequestId};
use site::{Asked, Site};
use site_model::{AdditionAnswer, AdditionRefusal, CallAnswer, EntryOutcome, NothingCause};
use std::alloc::Global;
use std::fmt::Debug;
use std::process::Abort;

const NONE: Option<RequestId> = None;

/// A request of session 7.
fn seven(sequence: u32) -> Option<RequestId> {
    Some(RequestId {
        session: 7,
        sequence,
    })
}

/// The arguments of `add` that add 10 to row 5, 7 to row 5, and 9 to row 9.
static TEN_TO_FIVE: [u8; 16] = [5, 0, 0, 0, 0, 0, 0, 0, 10, 0, 0, 0, 0, 0, 0, 0];

static SEVEN_TO_FIVE: [u8; 16] = [5, 0, 0, 0, 0, 0, 0, 0, 7, 0, 0, 0, 0, 0, 0, 0];

static NINE_TO_NINE: [u8; 16] = [9, 0, 0, 0, 0, 0, 0, 0, 9, 0, 0, 0, 0, 0, 0, 0];

/// Key 5.
static FIVE: [u8; 8] = [5, 0, 0, 0, 0, 0, 0, 0];

/// The row that `TEN_TO_FIVE` leaves.
static TEN: [u8; 8] = [10, 0, 0, 0, 0, 0, 0, 0];

/// A call of procedure 2 that puts 0 at key 5, where it finds no row, by request 7 1.
static CLAIM_OF_FIVE: [u8; 76] = [
    1, 7, 0, 0, 0, 1, 0, 0, 0, 0, 0, 0, 0, 2, 0, 8, 0, 5, 0, 0, 0, 0, 0, 0, 0, 0, 0, 0, 0, 0, 0, 0,
    0, 0, 0, 0, 0, 1, 0, 1, 5, 0, 0, 0, 0, 0, 0, 0, 5, 0, 0, 0, 0, 0, 0, 0, 1, 0, 1, 5, 0, 0, 0, 0,
    0, 0, 0, 1, 0, 0, 0, 0, 0, 0, 0, 0,
];

/// A step that a site is given, and what has to come of it.
#[derive(Clone, Copy)]
enum Step<'a> {
    /// A byte string, and its outcome.
    Take(&'a [u8], EntryOutcome),
    /// A call, its answer, and the bytes that are to be ordered, if any.
    Ask(Asked<'a>, CallAnswer<usize>, &'a [u8]),
    /// A procedure that is to be added, its answer, and the bytes that are to be ordered, if any.
    Add(NamedProgram<'a>, AdditionAnswer<usize>, &'a [u8]),
    /// The site has come to this position.
    At(u32),
    /// The site has one row: its table, key and bytes.
    Row(u8, u64, &'a [u8]),
}

/// A step of a byte string and its outcome. (What is made by a function takes references that live differently long.)
fn take(bytes: &[u8], wanted: EntryOutcome) -> Step<'_> {
    Step::Take(bytes, wanted)
}

/// A step of a call, its answer, and the bytes that are to be ordered.
fn ask<'a>(asked: Asked<'a>, wanted: CallAnswer<usize>, bytes: &'a [u8]) -> Step<'a> {
    Step::Ask(asked, wanted, bytes)
}

/// A step of a procedure that is to be added, its answer, and the bytes that are to be ordered.
fn add<'a>(named: NamedProgram<'a>, wanted: AdditionAnswer<usize>, bytes: &'a [u8]) -> Step<'a> {
    Step::Add(named, wanted, bytes)
}

/// A call of `add`.
fn call_of_add(args: &[u8; 16], request: Option<RequestId>) -> Asked<'_> {
    Asked {
        name: b"add",
        args,
        request,
    }
}

/// A call of `claim`.
fn claim(request: Option<RequestId>) -> Asked<'static> {
    Asked {
        name: b"claim",
        args: &FIVE,
        request,
    }
}

/// The call's bytes with other bytes at some places.
fn with_bytes(changes: &[(usize, u8)]) -> [u8; 84] {
    let mut bytes = CALL;
    for (place, byte) in changes {
        if let Some(old) = bytes.get_mut(*place) {
            *old = *byte;
        }
    }
    bytes
}

/// Asserts that an answer was found, with the bytes that are to be ordered, and both are these.
fn is_answered<T: PartialEq + Debug + Copy>(
    rt: &impl Abort,
    found: Option<(T, Vec<u8>)>,
    wanted: T,
    bytes: &[u8],
) {
    let (found, ordered) = found.expect(rt, "memory");
    assert_eq!(rt; found, wanted);
    assert_eq!(rt; ordered.as_slice(), bytes);
}

/// Asserts that a site has this row alone.
fn has_one_row(rt: &impl Abort, alloc: Global, site: &Site, key: (u8, u64), bytes: &[u8]) {
    let rows = site.rows(alloc).expect(rt, "memory");
    assert_eq!(rt; rows.len(), 1);
    assert_eq!(rt; (rows[0].table(), rows[0].key()), key);
    assert_eq!(rt; rows[0].bytes(), bytes);
}

/// Checks a site against a step, but for what is taken, which `go_on` checks.
fn check(rt: &impl Abort, alloc: Global, site: &Site, step: &Step<'_>) {
    match step {
        Step::Take(_, _) => {}
        Step::Ask(asked, wanted, bytes) => {
            is_answered(rt, answer(alloc, site, *asked), *wanted, bytes);
        }
        Step::Add(named, wanted, bytes) => {
            is_answered(rt, answer_to_addition(alloc, site, *named), *wanted, bytes);
        }
        Step::At(position) => assert_eq!(rt; site.position(), *position),
        Step::Row(table, key, bytes) => has_one_row(rt, alloc, site, (*table, *key), bytes),
    }
}

/// Gives a site what a step says, or looks at it.
fn go_on(rt: &impl Abort, alloc: Global, given: &mut GivenSite, step: &Step<'_>) {
    if let Step::Take(bytes, wanted) = step {
        let outcome = given.take(bytes).expect(rt, "memory");
        assert_eq!(rt; outcome, *wanted);
    }
    check(rt, alloc, given.site().expect(rt, "a site"), step);
}

/// Goes on by these steps.
fn go_on_by(rt: &impl Abort, alloc: Global, given: &mut GivenSite, steps: &[Step<'_>]) {
    for step in steps {
        go_on(rt, alloc, given, step);
    }
}

/// Takes a site through these steps, the first that it is given. (Who calls this has no site to let go.)
fn go_through(rt: &impl Abort, alloc: Global, takes_additions: bool, steps: &[Step<'_>]) {
    let mut given = GivenSite::new(alloc, takes_additions);
    go_on_by(rt, alloc, &mut given, steps);
}

#[test]
fn a_call_is_ordered_and_taken_once(rt: HostRuntime) {
    let (position, reply) = (1, 10);
    let repeated = CallAnswer::Repeated { position, reply };
    let again = EntryOutcome::Repeated { position, reply };
    let steps = [
        ask(
            call_of_add(&TEN_TO_FIVE, seven(1)),
            CallAnswer::Submitted(84),
            &CALL,
        ),
        take(&CALL, EntryOutcome::Committed(10)),
        take(&CALL, again),
        ask(call_of_add(&TEN_TO_FIVE, seven(1)), repeated, &[]),
        ask(call_of_add(&NINE_TO_NINE, seven(1)), repeated, &[]),
        Step::At(2),
        Step::Row(1, 5, &TEN),
    ];
    go_through(&rt, rt.alloc(), true, &steps);
}

#[test]
fn other_bytes_are_nothing(rt: HostRuntime) {
    let untrue = NothingCause::Untrue;
    let rows: [(&[u8], NothingCause); 8] = [
        (&with_bytes(&[(83, 1)]), untrue),
        (&CALL[..83], untrue),
        (&CALL[..HEAD], untrue),
        (&CALL[..HEAD - 1], NothingCause::Unreadable),
        (&[], NothingCause::Unreadable),
        (&with_bytes(&[(5, 0)]), NothingCause::Unreadable),
        // The call's snapshot.
        (&with_bytes(&[(33, 1)]), NothingCause::Snapshot),
        // The number of the call's procedure.
        (&with_bytes(&[(13, 9)]), NothingCause::Procedure),
    ];
    for (bytes, cause) in &rows {
        let steps = [take(bytes, EntryOutcome::Nothing(*cause)), Step::At(1)];
        go_through(&rt, rt.alloc(), true, &steps);
    }
}

#[test]
fn what_is_nothing_counts_in_the_window(rt: HostRuntime) {
    let nothing = take(&[], EntryOutcome::Nothing(NothingCause::Unreadable));
    let committed = take(&CALL, EntryOutcome::Committed(10));
    let stale = take(&CALL, EntryOutcome::Stale);
    let four = [nothing, nothing, nothing, nothing, committed];
    let five = [nothing, nothing, nothing, nothing, nothing, stale];
    go_through(&rt, rt.alloc(), true, &four);
    go_through(&rt, rt.alloc(), true, &five);
}

#[test]
fn two_sites_come_to_the_same(rt: HostRuntime) {
    let request = Some(RequestId {
        session: 8,
        sequence: 1,
    });
    // The call's session; what it adds, replies and writes.
    let other = with_bytes(&[(1, 8), (25, 7), (37, 7), (76, 7)]);
    let asked = [ask(
        call_of_add(&SEVEN_TO_FIVE, request),
        CallAnswer::Submitted(84),
        &other,
    )];
    go_through(&rt, rt.alloc(), true, &asked);
    let steps = [
        take(&CALL, EntryOutcome::Committed(10)),
        take(&other, EntryOutcome::Conflict(1)),
    ];
    for _ in 0..2 {
        go_through(&rt, rt.alloc(), true, &steps);
    }
}

#[test]
fn a_procedure_is_added_where_that_may_be(rt: HostRuntime) {
    let named = NamedProgram {
        name: b"one",
        number: 9,
        args_len: 0,
        program: &ADDITION[13..],
    };
    let submitted = add(named, AdditionAnswer::Submitted(ADDITION.len()), &ADDITION);
    let refused = AdditionAnswer::Refused(AdditionRefusal::NoAdditions);
    go_through(&rt, rt.alloc(), true, &[submitted]);
    go_through(&rt, rt.alloc(), false, &[add(named, refused, &[])]);
}

#[test]
fn an_added_procedure_is_called(rt: HostRuntime) {
    let one = Asked {
        name: b"one",
        args: &[],
        request: NONE,
    };
    let read = CallAnswer::Read {
        position: 1,
        reply: 1,
    };
    let steps = [take(&ADDITION, EntryOutcome::Added(9)), ask(one, read, &[])];
    go_through(&rt, rt.alloc(), true, &steps);
    let nothing = EntryOutcome::Nothing(NothingCause::Addition);
    go_through(&rt, rt.alloc(), false, &[take(&ADDITION, nothing)]);
}

#[test]
fn a_repeated_call_isnt_run_again(rt: HostRuntime) {
    let repeated = CallAnswer::Repeated {
        position: 1,
        reply: 0,
    };
    let cancelled = CallAnswer::Cancelled {
        position: 1,
        code: 1,
    };
    let steps = [
        ask(claim(seven(1)), CallAnswer::Submitted(76), &CLAIM_OF_FIVE),
        take(&CLAIM_OF_FIVE, EntryOutcome::Committed(0)),
        ask(claim(seven(1)), repeated, &[]),
        ask(claim(seven(2)), cancelled, &[]),
    ];
    go_through(&rt, rt.alloc(), true, &steps);
}

#[test]
fn calls_that_cannot_run_are_refused(rt: HostRuntime) {
    let rows: [(&[u8], CallRefusal); 3] = [
        (b"none", CallRefusal::NoProcedure),
        (b"add", CallRefusal::ArgumentsLength),
        (b"claim", CallRefusal::ZeroInRequest),
    ];
    for (name, refusal) in &rows {
        let asked = Asked {
            name,
            args: &FIVE,
            request: seven(0),
        };
        let steps = [ask(asked, CallAnswer::Refused(*refusal), &[])];
        go_through(&rt, rt.alloc(), true, &steps);
    }
}
