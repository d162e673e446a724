//! Memory that is refused to a world.

use super::{
    ADD_TEN, BEGIN_TEN, Script, THIRD_CALL, are_told, delivered, described, run_script, same,
    steps_of, two_ordered, two_replicas,
};
use bpf_verify::Cause;
use catalogue::Catalogue;
use dsm_model::{Outcome, StepRefusal};
use dsm_world::{Step, World};
use log_model::Verdict;
use program_checks::ProgramFault;
use scarce::Scarce;
use std::alloc::{Allocator, Global};
use std::process::Abort;
use test_programs::{PROCEDURES, TABLES, catalogue_of};

/// More growths than any call of these tests makes.
const MOST: u64 = 200;

/// Arguments by which 1 is put at key 6.
const PUT_ONE: [u8; 16] = [6, 0, 0, 0, 0, 0, 0, 0, 1, 0, 0, 0, 0, 0, 0, 0];

/// Two calls are ordered, and the first is delivered to replica 2.
static BEFORE: [(Step<'static>, usize); 7] = [
    (BEGIN_TEN, 1),
    (
        Step::Begin {
            replica: 2,
            procedure: 3,
            args: &PUT_ONE,
        },
        1,
    ),
    (Step::Turn { call: 1 }, 17),
    (Step::Turn { call: 2 }, 8),
    (Step::Order { call: 1 }, 1),
    (Step::Order { call: 2 }, 1),
    (Step::Deliver { replica: 2 }, 1),
];

/// Replica 2 is stopped until it is made anew, replica 1 goes on meanwhile.
static AFTER: [(Step<'static>, usize); 3] = [
    (Step::Deliver { replica: 2 }, 1),
    (Step::Deliver { replica: 1 }, 2),
    (Step::Rebuild { replica: 2 }, 1),
];

/// Delivers to replica 2 without memory, and returns what is answered.
fn deliver_refused<A: Allocator + Copy>(scarce: &Scarce, world: &mut World<A>) -> Outcome {
    scarce.refuse_all(true);
    let outcome = world.step(Step::Deliver { replica: 2 });
    scarce.refuse_all(false);
    outcome
}

/// Lets replica 2 stop and be made anew, and returns what it is while it is stopped, and at the end. The answers are
/// added to `told`.
fn stop_and_rebuild<A: Allocator + Copy>(
    rt: &impl Abort,
    alloc: Global,
    scarce: &Scarce,
    world: &mut World<A>,
    told: &mut Vec<Outcome>,
) -> (String, String) {
    run_script(rt, alloc, world, &BEFORE, told);
    told.push(deliver_refused(scarce, world))
        .expect(rt, "memory");
    let stopped = described(rt, alloc, world, 2);
    run_script(rt, alloc, world, &AFTER, told);
    run_script(rt, alloc, world, &THIRD_CALL, told);
    (stopped, described(rt, alloc, world, 2))
}

/// Returns the same in a world that takes memory from `taken_from`.
fn stopped_and_rebuilt<A: Allocator + Copy>(
    rt: &impl Abort,
    alloc: Global,
    scarce: &Scarce,
    taken_from: A,
    told: &mut Vec<Outcome>,
) -> (String, String) {
    let mut world = two_replicas(rt, taken_from);
    stop_and_rebuild(rt, alloc, scarce, &mut world, told)
}

#[test]
fn a_stopped_replica_is_made_anew(rt: HostRuntime) {
    let scarce = Scarce::new(rt.alloc());
    let mut told = Vec::new(rt.alloc());
    let (stopped, anew) = stopped_and_rebuilt(&rt, rt.alloc(), &scarce, &scarce, &mut told);
    let (first, second) = (delivered(1, Verdict::Commit), delivered(2, Verdict::Commit));
    let between = [
        first,
        NO_MEMORY,
        Outcome::Refused(StepRefusal::ReplicaStopped),
        first,
        second,
        Outcome::Rebuilt { position: 2 },
    ];
    are_told(&rt, &told, &two_ordered(10, 0), &between);
    same(
        &rt,
        "stopped",
        stopped.as_str(),
        "1 stopped 1:5=0a00000000000000",
    );
    let rows = "3 running 1:5=1100000000000000 1:6=0100000000000000";
    same(&rt, "anew", anew.as_str(), rows);
}

/// Tells whether a world is made of a catalogue where the growth of this number is refused.
fn is_made<A: Allocator + Copy>(
    scarce: &Scarce,
    growth: u64,
    taken_from: A,
    catalogue: Catalogue<A>,
) -> bool {
    scarce.refuse_nth(growth);
    let made = World::new(taken_from, 2, 4, catalogue).is_ok();
    scarce.refuse_nth(0);
    made
}

#[test]
fn each_refused_growth_is_want_of_memory(rt: HostRuntime) {
    let scarce = Scarce::new(rt.alloc());
    let mut refused = 0;
    for growth in 1..MOST {
        let catalogue = catalogue_of(&scarce, &TABLES, &PROCEDURES).expect(&rt, "memory");
        if is_made(&scarce, growth, &scarce, catalogue) {
            break;
        }
        refused = growth;
    }
    assert!(rt; refused > 4 && refused < 100, "{refused}");
}

/// A step that takes memory, in a world in which the steps before were taken: its answer, and its answer where a growth
/// is refused. A further step, with its answer, shows what the refusal left.
struct Case {
    before: Script,
    step: Step<'static>,
    answer: Outcome,
    refused: Outcome,
    next: Step<'static>,
    left: Outcome,
}

const NO_MEMORY: Outcome = Outcome::Refused(StepRefusal::NoMemory);

/// The answer to the first call.
const FIRST_BEGUN: Outcome = Outcome::Begun {
    call: 1,
    snapshot: 0,
};

/// The first call begins, runs to its end, and is ordered.
const FIRST_ORDERED: Script = &[
    (BEGIN_TEN, 1),
    (Step::Turn { call: 1 }, 17),
    (Step::Order { call: 1 }, 1),
];

const NOTHING_LEFT: Outcome = Outcome::Refused(StepRefusal::NothingToDeliver);

const NO_CALL: Outcome = Outcome::Refused(StepRefusal::NoCall);

/// Replies 1: a mov of 1, and EXIT.
const ONE: [u8; 16] = [0xb7, 0, 0, 0, 1, 0, 0, 0, 0x95, 0, 0, 0, 0, 0, 0, 0];

/// EXIT alone, whose reply is nothing.
const NOTHING: [u8; 8] = [0x95, 0, 0, 0, 0, 0, 0, 0];

/// A procedure under a number that the catalogue doesn't have.
const ADD_ONE: Step<'static> = Step::Add {
    name: b"one",
    number: 7,
    args_len: 0,
    bytes: &ONE,
};

const ADD_NOTHING: Step<'static> = Step::Add {
    name: b"one",
    number: 7,
    args_len: 0,
    bytes: &NOTHING,
};

const ADD_UNNAMED: Step<'static> = Step::Add {
    name: b"a-b",
    number: 7,
    args_len: 256,
    bytes: &ONE,
};

static CASES: [Case; 11] = [
    Case {
        before: &[],
        step: Step::BeginNumbered {
            replica: 1,
            procedure: 1,
            args: &ADD_TEN,
            session: 7,
            sequence: 1,
        },
        answer: FIRST_BEGUN,
        refused: NO_MEMORY,
        next: Step::Turn { call: 1 },
        left: NO_CALL,
    },
    Case {
        before: &[],
        step: ADD_ONE,
        answer: Outcome::Added { position: 1 },
        refused: NO_MEMORY,
        next: Step::Deliver { replica: 1 },
        left: NOTHING_LEFT,
    },
    // A program can't be checked without memory.
    Case {
        before: &[],
        step: ADD_NOTHING,
        answer: Outcome::Refused(StepRefusal::ProgramRefused(ProgramFault::Instruction {
            slot: 0,
            cause: Cause::HoldsNothing,
        })),
        refused: NO_MEMORY,
        next: Step::Deliver { replica: 1 },
        left: NOTHING_LEFT,
    },
    Case {
        before: &[],
        step: ADD_UNNAMED,
        answer: Outcome::Refused(StepRefusal::NameShape),
        refused: NO_MEMORY,
        next: Step::Deliver { replica: 1 },
        left: NOTHING_LEFT,
    },
    // The procedure of the addition isn't there where the addition found no memory.
    Case {
        before: &[(ADD_ONE, 1)],
        step: Step::Deliver { replica: 1 },
        answer: Outcome::Delivered {
            position: 1,
            verdict: Verdict::Commit,
        },
        refused: NO_MEMORY,
        next: Step::Begin {
            replica: 1,
            procedure: 7,
            args: &[],
        },
        left: Outcome::Refused(StepRefusal::NoProcedure),
    },
    Case {
        before: &[],
        step: BEGIN_TEN,
        answer: FIRST_BEGUN,
        refused: NO_MEMORY,
        next: Step::Turn { call: 1 },
        left: NO_CALL,
    },
    // The call begins in the memory of a call that is over.
    Case {
        before: FIRST_ORDERED,
        step: BEGIN_TEN,
        answer: Outcome::Begun {
            call: 2,
            snapshot: 0,
        },
        refused: NO_MEMORY,
        next: Step::Turn { call: 2 },
        left: NO_CALL,
    },
    // The seventh instruction of the call gets a row.
    Case {
        before: &[(BEGIN_TEN, 1), (Step::Turn { call: 1 }, 6)],
        step: Step::Turn { call: 1 },
        answer: Outcome::More,
        refused: Outcome::NoMemory,
        next: Step::Turn { call: 1 },
        left: NO_CALL,
    },
    Case {
        before: &[(BEGIN_TEN, 1), (Step::Turn { call: 1 }, 17)],
        step: Step::Order { call: 1 },
        answer: Outcome::Ordered { position: 1 },
        refused: NO_MEMORY,
        next: Step::Order { call: 1 },
        left: NO_CALL,
    },
    Case {
        before: FIRST_ORDERED,
        step: Step::Deliver { replica: 2 },
        answer: Outcome::Delivered {
            position: 1,
            verdict: Verdict::Commit,
        },
        refused: NO_MEMORY,
        next: Step::Deliver { replica: 2 },
        left: Outcome::Refused(StepRefusal::ReplicaStopped),
    },
    Case {
        before: FIRST_ORDERED,
        step: Step::Rebuild { replica: 2 },
        answer: Outcome::Rebuilt { position: 1 },
        refused: NO_MEMORY,
        next: Step::Deliver { replica: 2 },
        left: Outcome::Delivered {
            position: 1,
            verdict: Verdict::Commit,
        },
    },
];

/// Returns what the step of a case answers where the growth of this number is refused, and what is answered then.
fn answers_in<A: Allocator + Copy>(
    rt: &impl Abort,
    alloc: Global,
    scarce: &Scarce,
    world: &mut World<A>,
    case: &Case,
    growth: u64,
) -> (Outcome, Outcome) {
    for step in &steps_of(rt, alloc, case.before) {
        let _ = world.step(*step);
    }
    scarce.refuse_nth(growth);
    let answer = world.step(case.step);
    scarce.refuse_nth(0);
    (answer, world.step(case.next))
}

/// Returns the same in a world that takes memory from `taken_from`.
fn answers_over<A: Allocator + Copy>(
    rt: &impl Abort,
    alloc: Global,
    scarce: &Scarce,
    taken_from: A,
    case: &Case,
    growth: u64,
) -> (Outcome, Outcome) {
    let mut world = two_replicas(rt, taken_from);
    answers_in(rt, alloc, scarce, &mut world, case, growth)
}

/// Returns the same with a `Scarce` of its own.
fn answers(rt: &impl Abort, alloc: Global, case: &Case, growth: u64) -> (Outcome, Outcome) {
    let scarce = Scarce::new(alloc);
    answers_over(rt, alloc, &scarce, &scarce, case, growth)
}

#[test]
fn each_step_may_find_no_memory(rt: HostRuntime) {
    for (at, case) in CASES.iter().enumerate() {
        let mut refused = 0;
        for growth in 1..MOST {
            let (answer, left) = answers(&rt, rt.alloc(), case, growth);
            if answer == case.answer {
                break;
            }
            let found = (at, growth, answer, left);
            same(
                &rt,
                "case, growth",
                found,
                (at, growth, case.refused, case.left),
            );
            refused = growth;
        }
        assert!(rt; refused > 0 && refused < MOST - 1, "{at} {refused}");
    }
}

/// Returns the number of growths that the first call makes as it begins, and the second, which begins when the first is
/// over.
fn growths_of_two<A: Allocator + Copy>(
    rt: &impl Abort,
    alloc: Global,
    scarce: &Scarce,
    world: &mut World<A>,
) -> (u64, u64) {
    let none = scarce.growths();
    let mut first = None;
    for step in &steps_of(rt, alloc, FIRST_ORDERED) {
        let _ = world.step(*step);
        first = first.or(Some(scarce.growths().wrapping_sub(none)));
    }
    let before = scarce.growths();
    let _begun = world.step(BEGIN_TEN);
    (first.unwrap_or(0), scarce.growths().wrapping_sub(before))
}

/// Returns the same in a world that takes memory from `taken_from`.
fn growths_over<A: Allocator + Copy>(
    rt: &impl Abort,
    alloc: Global,
    scarce: &Scarce,
    taken_from: A,
) -> (u64, u64) {
    let mut world = two_replicas(rt, taken_from);
    growths_of_two(rt, alloc, scarce, &mut world)
}

/// A first call takes memory for its arguments, itself and a list of calls. The next begins in the memory of the first,
/// and takes memory for its arguments alone.
#[test]
fn calls_begin_in_the_memory_of_one_that_is_over(rt: HostRuntime) {
    let scarce = Scarce::new(rt.alloc());
    let growths = growths_over(&rt, rt.alloc(), &scarce, &scarce);
    assert_eq!(rt; growths, (3, 1));
}

/// Beginnings of calls of which more than one refusal holds: replica, procedure, arguments, session and sequence
/// number, and the refusal that is given.
static BEGINNINGS: [(u32, u16, &[u8], u32, u32, StepRefusal); 5] = [
    (3, 7, &ONE, 0, 0, StepRefusal::NoReplica),
    (1, 7, &ONE, 0, 0, StepRefusal::NoProcedure),
    (1, 1, &[], 0, 1, StepRefusal::ArgumentsLength),
    (1, 1, &ADD_TEN, 0, 1, StepRefusal::ZeroInRequest),
    (1, 1, &ADD_TEN, 1, 0, StepRefusal::ZeroInRequest),
];

fn refuse_beginnings<A: Allocator + Copy>(rt: &impl Abort, world: &mut World<A>) {
    for (replica, procedure, args, session, sequence, refusal) in &BEGINNINGS {
        let told = world.step(Step::BeginNumbered {
            replica: *replica,
            procedure: *procedure,
            args,
            session: *session,
            sequence: *sequence,
        });
        same(rt, "beginning", told, Outcome::Refused(*refusal));
    }
}

/// Asserts that an addition is refused for its arguments, where neither its program nor its name would do.
fn refuse_an_addition<A: Allocator + Copy>(rt: &impl Abort, world: &mut World<A>) {
    let long = world.step(Step::Add {
        name: b"a-b",
        number: 7,
        args_len: 257,
        bytes: &NOTHING,
    });
    same(
        rt,
        "addition",
        long,
        Outcome::Refused(StepRefusal::ArgumentsLimit),
    );
}

/// Asserts both in a world that takes memory from `alloc`. (The caller has no world to drop.)
fn refuse_over<A: Allocator + Copy>(rt: &impl Abort, alloc: A) {
    let mut world = two_replicas(rt, alloc);
    refuse_beginnings(rt, &mut world);
    refuse_an_addition(rt, &mut world);
}

#[test]
fn the_lowest_refusal_is_given(rt: HostRuntime) {
    refuse_over(&rt, rt.alloc());
}
