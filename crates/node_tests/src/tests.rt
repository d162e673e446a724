//! Calls of several threads at a node: their answers, and the end of the node.

use node::Options;
use node_calls::Answer;
use std::alloc::Global;
use std::process::Abort;
use std::sync::Wait;
use std::thread::Threads;
use tallies::Counts;
use test_nodes::{Addition, Asked, Asking, Ending, Told, run_at_a_node};
use test_programs::{ADD, ONE, PUT, PUT_AND_CANCEL, bytes_of};

mod beside;
mod calls;

use beside::{
    FIVE_PUTS, HELD_IN_CONFLICT, LOADING, PUT_FIVE, beside_held, busy, is_beside_held, is_busy,
    is_loaded, is_wait, loaded, waits,
};
use calls::{
    CALLERS, CANCELLED, REFUSALS, TWO_PUTS, addition_of, is_addition, is_as_in, is_committed,
    is_numbered, is_one_session, is_overlap, is_together, numbered, often_add, often_put,
    one_session, overlap, row_at, together,
};

/// A case that is tried at a node.
#[derive(Clone, Copy)]
enum Case {
    OneSession,
    Overlap,
    Together,
    TwoPuts,
    Adds,
    Puts,
    Numbered,
    Refusals,
    Added,
    Conflict,
    Late,
    Cancelled,
    Waits,
    Busy,
    Loaded,
}

/// The end that a node has to have: the sum of all answers, the number that committed, and each replica's position. A
/// number that isn't the same in each run is none.
#[derive(Clone, Copy)]
struct End {
    answers: u64,
    committed: Option<u64>,
    position: Option<u32>,
}

impl End {
    fn new(answers: u64, committed: Option<u64>, position: Option<u32>) -> End {
        End {
            answers,
            committed,
            position,
        }
    }
}

impl Case {
    /// The end of a node after the case.
    fn end(self) -> End {
        match self {
            Case::OneSession => End::new(1_001, Some(1_000), Some(1_000)),
            Case::Overlap => End::new(2, Some(2), Some(2)),
            Case::Together => End::new(3, Some(2), Some(2)),
            Case::TwoPuts => End::new(2, Some(1), Some(1)),
            Case::Adds => End::new(200, None, None),
            Case::Puts => End::new(200, Some(200), Some(200)),
            Case::Numbered => End::new(3, Some(2), Some(3)),
            Case::Refusals => End::new(7, Some(0), Some(0)),
            Case::Added => End::new(0, Some(0), Some(1)),
            Case::Conflict => End::new(2, Some(1), Some(2)),
            Case::Late => End::new(6, Some(5), Some(5)),
            Case::Cancelled => End::new(1, Some(0), Some(0)),
            Case::Waits => End::new(2, Some(1), Some(1)),
            Case::Busy => End::new(257, None, None),
            Case::Loaded => End::new(3_200, None, None),
        }
    }
}

/// The options of a node: the numbers of replicas and of threads that execute at each, the window, and the number of
/// entries that the log takes.
type NodeOptions = (u32, u32, u32, u32);

/// The procedures of the node, with their numbers and the number of words that each takes.
static PROCEDURES: [(u16, &str, usize); 4] = [
    (1, ADD, 2),
    (3, PUT, 2),
    (8, PUT_AND_CANCEL, 2),
    (9, ONE, 0),
];

fn sum_of(counts: &Counts) -> u64 {
    counts
        .committed
        .wrapping_add(counts.read)
        .wrapping_add(counts.cancelled)
        .wrapping_add(counts.conflict)
        .wrapping_add(counts.stale)
        .wrapping_add(counts.repeated)
        .wrapping_add(counts.other)
}

/// A case at a node with these options, with the bytes of a program that may be added.
#[derive(Clone, Copy)]
struct Trial<'a> {
    options: Options,
    case: Case,
    program: &'a [u8],
}

impl<'a> Asked for Trial<'a> {
    fn addition(&self, index: usize) -> Option<Addition<'_>> {
        addition_of(self.program, index)
    }

    fn callers(&self) -> usize {
        match self.case {
            Case::Adds | Case::Puts => CALLERS,
            Case::Overlap | Case::Together | Case::Conflict | Case::Late | Case::Busy => 2,
            Case::Loaded => 2 + LOADING,
            _ => 1,
        }
    }

    fn asking(&self, place: usize, index: usize) -> Option<Asking> {
        let replicas = self.options.replicas;
        match self.case {
            Case::OneSession => one_session(index),
            Case::Overlap => overlap(place, index),
            Case::Together => together(place, index),
            Case::TwoPuts => row_at(&TWO_PUTS, index),
            Case::Adds => often_add(replicas, place, index),
            Case::Puts => often_put(replicas, place, index),
            Case::Numbered => numbered(index),
            Case::Refusals => row_at(&REFUSALS, index),
            Case::Added => (index < 4).then_some(Asking::Add(index)),
            Case::Conflict => beside_held(&PUT_FIVE, place, index),
            Case::Late => beside_held(&FIVE_PUTS, place, index),
            Case::Cancelled => row_at(&CANCELLED, index),
            Case::Waits => waits(index),
            Case::Busy => busy(place, index),
            Case::Loaded => loaded(replicas, place, index),
        }
    }

    fn is_told(&self, place: usize, index: usize, told: &Told) -> bool {
        match self.case {
            Case::OneSession => is_one_session(index, told),
            Case::Overlap => is_overlap(self.options.executors == 1, place, told),
            Case::Together => is_together(told),
            Case::TwoPuts => is_as_in(&TWO_PUTS, index, told),
            Case::Adds => true,
            Case::Puts => is_committed(told),
            Case::Numbered => is_numbered(index, told),
            Case::Refusals => is_as_in(&REFUSALS, index, told),
            Case::Added => is_addition(index, told),
            Case::Conflict => is_beside_held(&PUT_FIVE, HELD_IN_CONFLICT, place, index, told),
            Case::Late => is_beside_held(&FIVE_PUTS, Answer::Stale, place, index, told),
            Case::Cancelled => is_as_in(&CANCELLED, index, told),
            Case::Waits => is_wait(index, told),
            Case::Busy => is_busy(place, index, told),
            Case::Loaded => is_loaded(place, told),
        }
    }
}

/// Asserts that answers, sums, positions, commits and rows agree with what was asked, and with each other.
fn check_end(rt: &impl Abort, ending: &Ending, trial: Trial<'_>, end: End) {
    let Trial { options, case, .. } = trial;
    let totals = ending.totals;
    assert_eq!(rt; ending.stray, None);
    assert_eq!(rt; sum_of(&totals), end.answers);
    assert!(rt;
        end.committed
            .is_none_or(|committed| committed == totals.committed)
    );
    assert!(rt; ending.agreement);
    assert_eq!(rt; ending.replicas.len(), options.replicas as usize);
    for replica in &ending.replicas {
        assert!(rt; !replica.stopped);
        // An addition that is ordered commits, and is no answer to a call.
        let additions = u64::from(matches!(case, Case::Added | Case::Loaded));
        assert_eq!(rt;
            u64::from(replica.commits),
            totals.committed.wrapping_add(additions)
        );
        assert!(rt;
            end.position
                .is_none_or(|position| position == replica.position)
        );
        if matches!(case, Case::Adds | Case::Loaded) {
            assert_eq!(rt; replica.number, totals.committed);
        }
    }
}

/// Tries a case at a node of these procedures.
fn try_at_a_node<R: Threads + Wait + Abort + Copy + Send + Sync + 'static>(
    rt: &R,
    alloc: Global,
    given: NodeOptions,
    case: Case,
) {
    let (replicas, executors, window, limit) = given;
    let options = Options {
        replicas,
        executors,
        window,
        limit,
    };
    let program = bytes_of(alloc, ONE).expect(rt, "a program");
    let trial = Trial {
        options,
        case,
        program: &program,
    };
    let armed = matches!(
        case,
        Case::Overlap | Case::Together | Case::Conflict | Case::Late | Case::Busy
    );
    let ending = run_at_a_node(rt, alloc, options, armed, &PROCEDURES, &trial, 5);
    check_end(rt, &ending.expect(rt, "a node"), trial, case.end());
}

const LIMIT: u32 = 1_048_576;

/// Cases of one caller, each at a node with its options.
static ONE_CALLER: [(NodeOptions, Case); 7] = [
    ((2, 4, 4, LIMIT), Case::OneSession),
    ((2, 4, 4, LIMIT), Case::Numbered),
    ((2, 2, 4, LIMIT), Case::Refusals),
    ((2, 2, 4, LIMIT), Case::Added),
    ((2, 2, 4, 1), Case::TwoPuts),
    ((2, 2, 4, LIMIT), Case::Cancelled),
    ((2, 2, 4, LIMIT), Case::Waits),
];

/// Cases of several callers.
static SEVERAL_CALLERS: [(NodeOptions, Case); 9] = [
    ((1, 2, 4, LIMIT), Case::Overlap),
    ((1, 1, 4, LIMIT), Case::Overlap),
    ((1, 2, 4, LIMIT), Case::Together),
    ((1, 2, 4, LIMIT), Case::Conflict),
    ((1, 2, 4, LIMIT), Case::Late),
    ((1, 1, 4_096, LIMIT), Case::Busy),
    ((8, 16, 64, LIMIT), Case::Loaded),
    ((8, 16, 4, LIMIT), Case::Adds),
    ((2, 16, 4_096, LIMIT), Case::Puts),
];

#[test]
fn one_caller(rt: HostRuntime) {
    for (given, case) in &ONE_CALLER {
        try_at_a_node(&rt, rt.alloc(), *given, *case);
    }
}

#[test]
fn several_callers(rt: HostRuntime) {
    for (given, case) in &SEVERAL_CALLERS {
        try_at_a_node(&rt, rt.alloc(), *given, *case);
    }
}
