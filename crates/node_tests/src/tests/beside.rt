//! Calls beside a call that is held, and beside additions and rebuilds.

use crate::tests::calls::{
    ADD, ADD_TEN, PUT, args_of, call_at_first, is_answer, often_add, replica_of,
};
use log_model::CallRefusal;
use node::{Added, RebuildFault, ScanFault, WaitFault};
use node_calls::Answer;
use test_nodes::{AskedCall, Asking, Told};

/// A put beside a held call: the key, and the position at which it commits.
type Beside = (u8, u32);

/// A put of the row that the held call has begun to read.
pub(crate) static PUT_FIVE: [Beside; 1] = [(5, 1)];

/// More puts than the window has, of a row that the held call doesn't read.
pub(crate) static FIVE_PUTS: [Beside; 5] = [(6, 1), (6, 2), (6, 3), (6, 4), (6, 5)];

/// The answer to the held call where another wrote what it read.
pub(crate) const HELD_IN_CONFLICT: Answer = Answer::Conflict {
    position: 2,
    other: 1,
};

/// A call of the first caller that is held at its first look, and puts of the second caller while the call is held.
pub(crate) fn beside_held(puts: &[Beside], place: usize, index: usize) -> Option<Asking> {
    match (place, index.checked_sub(1)) {
        (0, None) => call_at_first(ADD, ADD_TEN),
        (0, Some(_)) => None,
        (_, None) => Some(Asking::AwaitHeld),
        (_, Some(index)) => match puts.get(index) {
            Some((key, _)) => call_at_first(PUT, args_of(*key, 1)),
            None => (index == puts.len()).then_some(Asking::Release),
        },
    }
}

/// Tells whether the puts commit, and the held call is then answered so.
pub(crate) fn is_beside_held(
    puts: &[Beside],
    held: Answer,
    place: usize,
    index: usize,
    told: &Told,
) -> bool {
    if place == 0 {
        return is_answer(told, held);
    }
    match index.checked_sub(1).and_then(|index| puts.get(index)) {
        Some((_, position)) => is_answer(
            told,
            Answer::Committed {
                position: *position,
                reply: 0,
            },
        ),
        None => matches!(told, Told::Nothing),
    }
}

/// A call at one replica, a wait at another until it has come as far, and questions that have no answer.
pub(crate) fn waits(index: usize) -> Option<Asking> {
    match index {
        0 => Some(Asking::Try {
            replica: 1,
            call: AskedCall::new(PUT, args_of(6, 1), None),
        }),
        1 => Some(Asking::Wait {
            replica: 2,
            position: 1,
        }),
        2 => Some(Asking::Status(2)),
        3 => Some(Asking::Rebuild(2)),
        4 => Some(Asking::Wait {
            replica: 3,
            position: 0,
        }),
        5 => Some(Asking::Status(3)),
        6 => Some(Asking::Rebuild(0)),
        7 => Some(Asking::Try {
            replica: 2,
            call: AskedCall::new(77, args_of(6, 1), None),
        }),
        8 => Some(Asking::Scan {
            replica: 2,
            most: 300,
        }),
        9 => Some(Asking::Scan {
            replica: 3,
            most: 300,
        }),
        _ => None,
    }
}

/// Tells whether these are answered as they should be.
pub(crate) fn is_wait(index: usize, told: &Told) -> bool {
    match (index, told) {
        (0, Told::Tried(Some(answer))) => {
            *answer
                == Answer::Committed {
                    position: 1,
                    reply: 0,
                }
        }
        (1, Told::Waited(waited)) => *waited == Ok(1),
        (2, Told::Status(status)) => *status == Some((1, false)),
        (3, Told::Rebuilt(rebuilt)) => *rebuilt == Ok(1),
        (4, Told::Waited(waited)) => *waited == Err(WaitFault::NoReplica),
        (5, Told::Status(status)) => status.is_none(),
        (6, Told::Rebuilt(rebuilt)) => *rebuilt == Err(RebuildFault::NoReplica),
        (7, Told::Tried(Some(answer))) => *answer == Answer::Refused(CallRefusal::NoProcedure),
        (8, Told::Scanned(scanned)) => *scanned == Ok((1, 6)),
        (9, Told::Scanned(scanned)) => *scanned == Err(ScanFault::NoReplica),
        _ => false,
    }
}

/// The number of places in the queue of a replica.
const PLACES: u32 = 256;

/// A call of the first caller that is held, and calls of the second caller that fill the queue meanwhile. A call that
/// doesn't wait for room then isn't executed.
pub(crate) fn busy(place: usize, index: usize) -> Option<Asking> {
    let put = AskedCall::new(PUT, args_of(6, 1), None);
    match (place, index) {
        (0, 0) => call_at_first(ADD, ADD_TEN),
        (1, 0) => Some(Asking::AwaitHeld),
        (1, 1) => Some(Asking::Forget {
            replica: 1,
            call: put,
            times: PLACES,
        }),
        (1, 2) => Some(Asking::Try {
            replica: 1,
            call: put,
        }),
        (1, 3) => Some(Asking::Release),
        _ => None,
    }
}

/// Tells whether the held call commits, and the queue is full meanwhile.
pub(crate) fn is_busy(place: usize, index: usize, told: &Told) -> bool {
    match (place, index, told) {
        (0, _, told) => is_answer(
            told,
            Answer::Committed {
                position: 1,
                reply: 10,
            },
        ),
        (1, 2, Told::Tried(answer)) => answer.is_none(),
        (1, _, told) => matches!(told, Told::Nothing),
        _ => false,
    }
}

/// The number of callers that call while replicas are rebuilt and a procedure is added.
pub(crate) const LOADING: usize = 128;

/// The number of rebuilds beside their calls.
const REBUILDS: usize = 24;

/// Rebuilds of all replicas in turn by the first caller, an addition by the second, and additions of 1 to one row by the
/// others.
pub(crate) fn loaded(replicas: u32, place: usize, index: usize) -> Option<Asking> {
    match place {
        0 => (index < REBUILDS).then_some(Asking::Rebuild(replica_of(index, replicas))),
        1 => (index < 1).then_some(Asking::Add(0)),
        _ => often_add(replicas, place, index),
    }
}

/// Tells whether replicas are rebuilt, the procedure is added, and the calls are answered by a verdict.
pub(crate) fn is_loaded(place: usize, told: &Told) -> bool {
    match (place, told) {
        (0, Told::Rebuilt(rebuilt)) => rebuilt.is_ok(),
        (1, Told::Added(added, seen)) => matches!(added, Added::Ordered(_)) && *seen,
        (_, Told::Answer(answer)) => matches!(
            answer,
            Answer::Committed { .. } | Answer::Conflict { .. } | Answer::Stale
        ),
        _ => false,
    }
}
