//! The questions of callers, and the answers that they have to get.

use log_model::{CallRefusal, RequestId, Verdict};
use node::{Added, ProgramRefusal};
use node_calls::Answer;
use test_nodes::{Addition, AskedCall, Asking, Told, Words};

pub(crate) const ADD: u16 = 1;

pub(crate) const PUT: u16 = 3;

const PUT_AND_CANCEL: u16 = 8;

const ONE: u16 = 9;

/// The number of callers where several call at once.
pub(crate) const CALLERS: usize = 8;

pub(crate) fn args_of(first: u8, second: u8) -> Words {
    Words {
        count: 2,
        first,
        second,
    }
}

/// Arguments that add 10 to row 5.
pub(crate) const ADD_TEN: Words = Words {
    count: 2,
    first: 5,
    second: 10,
};

/// A call: its replica, what the caller has seen, the procedure, arguments, and a request. The last value is the answer
/// that the call has to get.
pub(crate) type Row = (u32, u32, u16, Words, Option<RequestId>, Answer);

/// The call of a row.
fn call_of(row: &Row) -> Asking {
    let (replica, least, procedure, words, request, _) = *row;
    Asking::Call {
        replica,
        least,
        call: AskedCall::new(procedure, words, request),
    }
}

/// The call of a row, by its index from 0 on, and none after the last.
pub(crate) fn row_at(rows: &[Row], index: usize) -> Option<Asking> {
    rows.get(index).map(call_of)
}

pub(crate) fn is_answer(told: &Told, expected: Answer) -> bool {
    match told {
        Told::Answer(answer) => *answer == expected,
        _ => false,
    }
}

/// Tells whether a call is answered as its row says.
pub(crate) fn is_as_in(rows: &[Row], index: usize, told: &Told) -> bool {
    match rows.get(index) {
        Some(row) => is_answer(told, row.5),
        None => false,
    }
}

/// A call of a session at the first replica.
fn in_session(procedure: u16, words: Words, request: Option<RequestId>) -> Option<Asking> {
    let call = AskedCall::new(procedure, words, request);
    Some(Asking::InSession { replica: 1, call })
}

/// A thousand additions of 1 at one replica by one session, and then a call that only replies.
pub(crate) fn one_session(index: usize) -> Option<Asking> {
    match index {
        0..=999 => in_session(ADD, args_of(5, 1), None),
        1_000 => in_session(ONE, NOTHING, None),
        _ => None,
    }
}

/// Tells whether these are answered as they should be.
pub(crate) fn is_one_session(index: usize, told: &Told) -> bool {
    let number = u32::try_from(index).unwrap_or(0).wrapping_add(1);
    if index < 1_000 {
        let committed = Answer::Committed {
            position: number,
            reply: u64::from(number),
        };
        return is_answer(told, committed);
    }
    let read = Answer::Read {
        snapshot: 1_000,
        reply: 1,
    };
    is_answer(told, read)
}

pub(crate) fn call_at_first(procedure: u16, words: Words) -> Option<Asking> {
    Some(Asking::Call {
        replica: 1,
        least: 0,
        call: AskedCall::new(procedure, words, None),
    })
}

/// A call of the first caller that is held at its first look, and a put of the second caller while the call is held.
pub(crate) fn overlap(place: usize, index: usize) -> Option<Asking> {
    match (place, index) {
        (0, 0) => call_at_first(ADD, ADD_TEN),
        (1, 0) => Some(Asking::AwaitHeld),
        (1, 1) => call_at_first(PUT, args_of(6, 1)),
        (1, 2) => Some(Asking::Release),
        _ => None,
    }
}

/// Tells whether the put is ordered first, where there is a second thread for it, and else the call that is held.
pub(crate) fn is_overlap(alone: bool, place: usize, told: &Told) -> bool {
    let (of_addition, of_put) = if alone { (1, 2) } else { (2, 1) };
    let expected = if place == 0 {
        Answer::Committed {
            position: of_addition,
            reply: 10,
        }
    } else {
        Answer::Committed {
            position: of_put,
            reply: 0,
        }
    };
    match told {
        Told::Nothing => place == 1,
        told => is_answer(told, expected),
    }
}

/// The arguments of a call that takes none.
const NOTHING: Words = Words {
    count: 0,
    first: 0,
    second: 0,
};

/// Three calls of the first caller that are asked for together, the first of which is held at its first look. The second
/// caller awaits the put among them while that call is held.
pub(crate) fn together(place: usize, index: usize) -> Option<Asking> {
    match (place, index) {
        (0, 0) => Some(Asking::Together {
            replica: 1,
            calls: [
                AskedCall::new(ADD, ADD_TEN, None),
                AskedCall::new(PUT, args_of(6, 1), None),
                AskedCall::new(ONE, NOTHING, None),
            ],
        }),
        (1, 0) => Some(Asking::AwaitHeld),
        (1, 1) => Some(Asking::AwaitVerdict {
            replica: 1,
            position: 1,
        }),
        (1, 2) => Some(Asking::Release),
        _ => None,
    }
}

/// Tells whether no call waits behind the one that is held, and each answer stands at the place of its call.
pub(crate) fn is_together(told: &Told) -> bool {
    match told {
        Told::Together(Some([added, put, one])) => {
            *added
                == Answer::Committed {
                    position: 2,
                    reply: 10,
                }
                && *put
                    == Answer::Committed {
                        position: 1,
                        reply: 0,
                    }
                && matches!(one, Answer::Read { reply: 1, .. })
        }
        Told::Verdict(found) => matches!(found, Some((Verdict::Commit, 1))),
        Told::Nothing => true,
        _ => false,
    }
}

/// A put at each of two replicas of a node whose log takes one entry.
pub(crate) static TWO_PUTS: [Row; 2] = [
    (
        1,
        0,
        PUT,
        Words {
            count: 2,
            first: 1,
            second: 1,
        },
        None,
        Answer::Committed {
            position: 1,
            reply: 0,
        },
    ),
    (
        2,
        0,
        PUT,
        Words {
            count: 2,
            first: 2,
            second: 2,
        },
        None,
        Answer::Full,
    ),
];

/// The number of questions of each of several callers.
const OFTEN: usize = 25;

/// The replica of a caller, one of `replicas`.
pub(crate) fn replica_of(place: usize, replicas: u32) -> u32 {
    let place = u32::try_from(place).unwrap_or(0);
    (place % replicas.max(1)).wrapping_add(1)
}

/// A call of one of several callers' sessions, each of which adds 1 to one row.
pub(crate) fn often_add(replicas: u32, place: usize, index: usize) -> Option<Asking> {
    if index >= OFTEN {
        return None;
    }
    Some(Asking::InSession {
        replica: replica_of(place, replicas),
        call: AskedCall::new(ADD, args_of(5, 1), None),
    })
}

/// A call of one of several callers, each of which puts rows of its own.
pub(crate) fn often_put(replicas: u32, place: usize, index: usize) -> Option<Asking> {
    if index >= OFTEN {
        return None;
    }
    let key = place.wrapping_mul(OFTEN).wrapping_add(index);
    let words = args_of(u8::try_from(key).unwrap_or(0), 1);
    Some(Asking::Call {
        replica: replica_of(place, replicas),
        least: 0,
        call: AskedCall::new(PUT, words, None),
    })
}

/// Tells whether a put commits, as all do.
pub(crate) fn is_committed(told: &Told) -> bool {
    matches!(told, Told::Answer(Answer::Committed { .. }))
}

/// The first request of session 7.
const FIRST: RequestId = RequestId {
    session: 7,
    sequence: 1,
};

/// The second request of session 7.
const SECOND: RequestId = RequestId {
    session: 7,
    sequence: 2,
};

/// The call with the second request, of a caller who has seen two entries.
static SECOND_CALL: [Row; 1] = [(
    1,
    2,
    ADD,
    ADD_TEN,
    Some(SECOND),
    Answer::Committed {
        position: 3,
        reply: 20,
    },
)];

/// Calls with one request, and the answer that each has to get.
static TWICE: [Answer; 2] = [
    Answer::Committed {
        position: 1,
        reply: 10,
    },
    Answer::Repeated {
        position: 2,
        earlier: 1,
        reply: 10,
    },
];

/// A call of a session with a request, the same again, the session's position, another call, and verdicts on two
/// positions.
pub(crate) fn numbered(index: usize) -> Option<Asking> {
    match index {
        0 | 1 => in_session(ADD, ADD_TEN, Some(FIRST)),
        2 => Some(Asking::Position),
        3 => row_at(&SECOND_CALL, 0),
        4 => Some(Asking::Verdict {
            replica: 1,
            position: 2,
        }),
        5 => Some(Asking::Verdict {
            replica: 1,
            position: 4,
        }),
        _ => None,
    }
}

/// Tells whether these are answered as they should be.
pub(crate) fn is_numbered(index: usize, told: &Told) -> bool {
    match index {
        0 | 1 => is_answer(told, TWICE[index]),
        2 => matches!(told, Told::Position(2)),
        3 => is_as_in(&SECOND_CALL, 0, told),
        4 => matches!(told, Told::Verdict(Some((Verdict::Repeated(1), 3)))),
        _ => matches!(told, Told::Verdict(None)),
    }
}

/// The additions: a name, a number, and the length of arguments in bytes. The program of the last is cut off.
static ADDITIONS: [([u8; 3], u16, u16); 4] = [
    (*b"one", 10, 0),
    (*b"a-b", 11, 0),
    (*b"a-b", 11, 257),
    (*b"a-b", 11, 0),
];

/// The program of an addition: `program`, or what the cut leaves of it.
fn bytes_at(program: &[u8], index: usize) -> &[u8] {
    match (index, program.get(..8)) {
        (3, Some(cut)) => cut,
        _ => program,
    }
}

/// The addition of a program, by its index from 0 on, and none after the last.
pub(crate) fn addition_of(program: &[u8], index: usize) -> Option<Addition<'_>> {
    let (name, number, args_len) = ADDITIONS.get(index)?;
    Some(Addition {
        name,
        number: *number,
        args_len: *args_len,
        bytes: bytes_at(program, index),
    })
}

/// Tells whether a procedure is added through the log, and what isn't accepted isn't.
pub(crate) fn is_addition(index: usize, told: &Told) -> bool {
    let Told::Added(added, seen) = told else {
        return false;
    };
    match index {
        0 => *added == Added::Ordered(1),
        1 => *added == Added::Name,
        2 => *added == Added::Program(ProgramRefusal::ArgumentsLimit),
        _ => matches!(added, Added::Program(ProgramRefusal::Fault(_))) && !*seen,
    }
}

/// A request without a session.
const NO_SESSION: RequestId = RequestId {
    session: 0,
    sequence: 1,
};

/// The calls that are refused, or are behind.
pub(crate) static REFUSALS: [Row; 7] = [
    (0, 0, ADD, ADD_TEN, None, Answer::NoReplica),
    (3, 9, 77, ADD_TEN, None, Answer::NoReplica),
    (
        1,
        0,
        77,
        ADD_TEN,
        None,
        Answer::Refused(CallRefusal::NoProcedure),
    ),
    (
        1,
        0,
        ADD,
        Words {
            count: 1,
            first: 5,
            second: 0,
        },
        None,
        Answer::Refused(CallRefusal::ArgumentsLength),
    ),
    (
        1,
        0,
        ADD,
        ADD_TEN,
        Some(NO_SESSION),
        Answer::Refused(CallRefusal::ZeroInRequest),
    ),
    (
        1,
        0,
        77,
        ADD_TEN,
        Some(NO_SESSION),
        Answer::Refused(CallRefusal::NoProcedure),
    ),
    (1, 1, 77, ADD_TEN, None, Answer::Behind),
];

/// A put that cancels.
pub(crate) static CANCELLED: [Row; 1] = [(
    1,
    0,
    PUT_AND_CANCEL,
    ADD_TEN,
    None,
    Answer::Cancelled {
        snapshot: 0,
        code: 9,
    },
)];
