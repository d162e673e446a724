//! Two increments of which the second conflicts, calls that are run to their end in one go, and refused memory.

use dsm_model::Outcome;
use dsm_world::{Step, World};
use log_model::Verdict;
use std::alloc::{Allocator, Global};
use std::fmt::{Debug, Write as _};
use std::process::Abort;
use test_programs::{PROCEDURES, TABLES, catalogue_of};

mod executions;
mod increments;
mod refused;

/// Arguments by which 10 is added to the row at key 5.
const ADD_TEN: [u8; 16] = [5, 0, 0, 0, 0, 0, 0, 0, 10, 0, 0, 0, 0, 0, 0, 0];

/// Arguments by which 7 is added to the same row.
const ADD_SEVEN: [u8; 16] = [5, 0, 0, 0, 0, 0, 0, 0, 7, 0, 0, 0, 0, 0, 0, 0];

/// A call that adds 10, at replica 1.
const BEGIN_TEN: Step<'static> = Step::Begin {
    replica: 1,
    procedure: 1,
    args: &ADD_TEN,
};

/// A call that adds 7, at replica 2.
const BEGIN_SEVEN: Step<'static> = Step::Begin {
    replica: 2,
    procedure: 1,
    args: &ADD_SEVEN,
};

/// Asserts that a value is the one that is wanted. The assertion stands in a function of its own, since a proof of many
/// comparisons in one function beside values to be dropped takes long.
fn same<T: PartialEq + Debug + Copy>(rt: &impl Abort, case: &str, found: T, wanted: T) {
    assert_eq!(rt; found, wanted, "{case}");
}

/// A world of two replicas with a window of 4.
fn two_replicas<A: Allocator + Copy>(rt: &impl Abort, alloc: A) -> World<A> {
    let catalogue = catalogue_of(alloc, &TABLES, &PROCEDURES).expect(rt, "memory");
    World::new(alloc, 2, 4, catalogue).expect(rt, "memory")
}

/// Steps, each with the number of times that it is taken.
type Script = &'static [(Step<'static>, usize)];

fn steps_of(rt: &impl Abort, alloc: Global, script: Script) -> Vec<Step<'static>> {
    let mut steps = Vec::new(alloc);
    for (step, times) in script {
        for _ in 0..*times {
            steps.push(*step).expect(rt, "memory");
        }
    }
    steps
}

/// Takes steps by one call, and adds their answers, but for turns after which there are more.
fn run_script<A: Allocator + Copy>(
    rt: &impl Abort,
    alloc: Global,
    world: &mut World<A>,
    script: Script,
    told: &mut Vec<Outcome>,
) {
    let steps = steps_of(rt, alloc, script);
    for outcome in &world.run(&steps).expect(rt, "memory") {
        if *outcome != Outcome::More {
            told.push(*outcome).expect(rt, "memory");
        }
    }
}

/// Call 3 adds 7 at replica 2, to its end.
static THIRD_CALL: [(Step<'static>, usize); 4] = [
    (BEGIN_SEVEN, 1),
    (Step::Turn { call: 3 }, 17),
    (Step::Order { call: 3 }, 1),
    (Step::Deliver { replica: 2 }, 1),
];

fn begun(call: u32, snapshot: u32) -> Outcome {
    Outcome::Begun { call, snapshot }
}

fn delivered(position: u32, verdict: Verdict) -> Outcome {
    Outcome::Delivered { position, verdict }
}

/// The answers of calls 1 and 2, which begin when nothing is delivered, come to these replies and are ordered.
fn two_ordered(first: u64, second: u64) -> [Outcome; 6] {
    [
        begun(1, 0),
        begun(2, 0),
        Outcome::Exit { reply: first },
        Outcome::Exit { reply: second },
        Outcome::Ordered { position: 1 },
        Outcome::Ordered { position: 2 },
    ]
}

/// The answers of call 3, behind the two, where the row was 10.
fn third_delivered() -> [Outcome; 4] {
    [
        begun(3, 2),
        Outcome::Exit { reply: 17 },
        Outcome::Ordered { position: 3 },
        delivered(3, Verdict::Commit),
    ]
}

/// Asserts that these are the answers of two calls, of what came between, and of the third call.
fn are_told(rt: &impl Abort, told: &[Outcome], two: &[Outcome], between: &[Outcome]) {
    let third = third_delivered();
    let (first, rest) = told.split_at(two.len().min(told.len()));
    let (second, last) = rest.split_at(between.len().min(rest.len()));
    same(rt, "two calls", first, two);
    same(rt, "between", second, between);
    same(rt, "the third call", last, &third);
}

/// A replica in a line: its position, whether it is stopped, and its rows, each as table, key and bytes in hex.
fn described<A: Allocator + Copy>(
    rt: &impl Abort,
    alloc: Global,
    world: &World<A>,
    number: u32,
) -> String {
    let mut text = String::new(alloc);
    let Some(replica) = world.replica(number) else {
        return text;
    };
    let state = if replica.stopped() {
        "stopped"
    } else {
        "running"
    };
    write!(text, "{} {state}", replica.position()).expect(rt, "memory");
    for row in &replica.rows(alloc).expect(rt, "memory") {
        let hex = hex::encode(alloc, row.bytes()).expect(rt, "memory");
        write!(text, " {}:{}={hex}", row.table(), row.key()).expect(rt, "memory");
    }
    text
}
