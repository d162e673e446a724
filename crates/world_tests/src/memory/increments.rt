//! Two increments of one row, of which the second conflicts and is begun anew.

use super::{
    BEGIN_SEVEN, BEGIN_TEN, THIRD_CALL, are_told, delivered, described, run_script, same, steps_of,
    two_ordered, two_replicas,
};
use dsm_model::Outcome;
use dsm_world::{Step, World};
use log_model::Verdict;
use scarce::Scarce;
use std::alloc::{Allocator, Global};
use std::process::Abort;

static STEPS: [(Step<'static>, usize); 8] = [
    (BEGIN_TEN, 1),
    (BEGIN_SEVEN, 1),
    (Step::Turn { call: 1 }, 17),
    (Step::Turn { call: 2 }, 17),
    (Step::Order { call: 1 }, 1),
    (Step::Order { call: 2 }, 1),
    (Step::Deliver { replica: 1 }, 2),
    (Step::Deliver { replica: 2 }, 2),
];

/// Tells whether no steps are taken where there is no room for their answers.
fn is_refused<A: Allocator + Copy>(
    rt: &impl Abort,
    alloc: Global,
    scarce: &Scarce,
    world: &mut World<A>,
) -> bool {
    let steps = steps_of(rt, alloc, &STEPS);
    scarce.refuse_all(true);
    let refused = world.run(&steps).is_err();
    scarce.refuse_all(false);
    refused && world.log_len() == 0
}

/// Returns what is answered by the steps after they were refused, and what replica 2 is then.
fn refused_and_run<A: Allocator + Copy>(
    rt: &impl Abort,
    alloc: Global,
    scarce: &Scarce,
    world: &mut World<A>,
) -> (Vec<Outcome>, String) {
    let mut told = Vec::new(alloc);
    if is_refused(rt, alloc, scarce, world) {
        run_script(rt, alloc, world, &STEPS, &mut told);
        run_script(rt, alloc, world, &THIRD_CALL, &mut told);
    }
    let replica = described(rt, alloc, world, 2);
    (told, replica)
}

/// Returns the same in a world that takes memory from `taken_from`.
fn increments<A: Allocator + Copy>(
    rt: &impl Abort,
    alloc: Global,
    scarce: &Scarce,
    taken_from: A,
) -> (Vec<Outcome>, String) {
    let mut world = two_replicas(rt, taken_from);
    refused_and_run(rt, alloc, scarce, &mut world)
}

#[test]
fn of_two_increments_the_second_is_begun_anew(rt: HostRuntime) {
    let scarce = Scarce::new(rt.alloc());
    let (told, replica) = increments(&rt, rt.alloc(), &scarce, &scarce);
    let first = delivered(1, Verdict::Commit);
    let second = delivered(2, Verdict::Conflict(1));
    let between = [first, second, first, second];
    are_told(&rt, &told, &two_ordered(10, 7), &between);
    same(
        &rt,
        "replica",
        replica.as_str(),
        "3 running 1:5=1100000000000000",
    );
}
