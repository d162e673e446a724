//! Calls that are run to their end in one go.

use super::{BEGIN_SEVEN, BEGIN_TEN, same, two_replicas};
use dsm_model::{Outcome, StepRefusal};
use dsm_world::{Step, World};
use scarce::Scarce;
use std::alloc::Allocator;
use std::process::Abort;

/// Returns what a call answers that finds no memory, and then again.
fn refused<A: Allocator + Copy>(scarce: &Scarce, world: &mut World<A>) -> (Outcome, Outcome) {
    let _ = world.step(BEGIN_TEN);
    scarce.refuse_all(true);
    let answer = world.exec(1);
    scarce.refuse_all(false);
    (answer, world.exec(1))
}

/// Returns what a call answers of which ten turns were taken before, then again, and what comes of it.
fn resumed<A: Allocator + Copy>(world: &mut World<A>) -> (Outcome, Outcome, Outcome) {
    let _ = world.step(BEGIN_SEVEN);
    for _ in 0..10 {
        let _ = world.step(Step::Turn { call: 2 });
    }
    let answer = world.exec(2);
    (answer, world.exec(2), world.step(Step::Order { call: 2 }))
}

/// Runs a call that finds no memory, and one of which turns were taken before.
fn execute<A: Allocator + Copy>(rt: &impl Abort, scarce: &Scarce, world: &mut World<A>) {
    let over = Outcome::Refused(StepRefusal::NoCall);
    let told = refused(scarce, world);
    same(rt, "refused", told, (Outcome::NoMemory, over));
    let exit = Outcome::Exit { reply: 7 };
    let told = resumed(world);
    let ordered = Outcome::Ordered { position: 1 };
    same(rt, "resumed", told, (exit, exit, ordered));
}

/// Runs such calls in a world that takes memory from `taken_from`. (The caller has no world to drop.)
fn execute_over<A: Allocator + Copy>(rt: &impl Abort, scarce: &Scarce, taken_from: A) {
    let mut world = two_replicas(rt, taken_from);
    execute(rt, scarce, &mut world);
}

#[test]
fn an_execution_ends_as_its_turns_do(rt: HostRuntime) {
    let scarce = Scarce::new(rt.alloc());
    execute_over(&rt, &scarce, &scarce);
}
