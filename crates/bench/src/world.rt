//! Takes steps of a world by one call, or makes whole calls at one replica, for measurements from outside: the time is
//! taken by whoever starts it (bench/world and bench/calls do).

mod steps;
mod worlds;

use crate::number_at;
use crate::world::steps::{arguments_of, calls_of, steps_of};
use crate::world::worlds::{commits, commits_of_calls, new_world};
use anyhow::Context;
use dsm_world::World;
use std::alloc::Global;
use std::mem;

/// The work that is done.
#[derive(Clone, Copy, Debug, PartialEq, Eq)]
enum Work {
    /// A world of two replicas takes steps.
    Run,
    /// The steps are only made, and the world too.
    Make,
    /// Whole calls are made at a world of one replica.
    Call,
    /// The arguments of calls are only made, and the world too.
    Begin,
}

impl Work {
    fn from_word(word: &str) -> Option<Work> {
        match word {
            "run" => Some(Work::Run),
            "make" => Some(Work::Make),
            "call" => Some(Work::Call),
            "begin" => Some(Work::Begin),
            _ => None,
        }
    }
}

/// Takes `count` steps of calls at `keys` keys, or only makes them. Returns the number of deliveries that found their
/// call committed.
fn commits_of_steps(alloc: Global, is_run: bool, keys: u64, count: u32) -> Option<u32> {
    let arguments = arguments_of(alloc, keys, calls_of(count)).ok()?;
    let steps = steps_of(alloc, &arguments, count).ok()?;
    let mut world = new_world(alloc, 2)?;
    if !is_run {
        return Some(0);
    }
    Some(commits(&world.run(&steps).ok()?))
}

/// Makes calls of these arguments, or none. Returns the number that committed.
fn commits_in(world: &mut World, is_made: bool, arguments: &[[u8; 16]]) -> u32 {
    if is_made {
        commits_of_calls(world, arguments)
    } else {
        0
    }
}

/// Makes `count` calls at `keys` keys, or only their arguments. Returns the number that committed. The world is never
/// let go: giving its memory back belongs to no call, and what it is compared with ends without it too.
fn commits_of(alloc: Global, is_made: bool, keys: u64, count: u32) -> Option<u32> {
    let arguments = arguments_of(alloc, keys, count).ok()?;
    let mut world = new_world(alloc, 1)?;
    let commits = commits_in(&mut world, is_made, &arguments);
    mem::forget(world);
    Some(commits)
}

fn report(rt: &HostRuntime, work: Work, keys: u64, count: u32) -> anyhow::Result<()> {
    let commits = match work {
        Work::Run | Work::Make => commits_of_steps(rt.alloc(), work == Work::Run, keys, count),
        Work::Call | Work::Begin => commits_of(rt.alloc(), work == Work::Call, keys, count),
    };
    println!(rt; "commits {}", commits.context("memory is wanting")?)?;
    Ok(())
}

/// Reads the three words: the work, the number of keys, and the number of steps or calls.
pub(crate) fn run(rt: &HostRuntime, words: &[String]) -> anyhow::Result<()> {
    let work = words.get(1).and_then(|word| Work::from_word(word));
    let work = work.context("the first word is run, make, call or begin")?;
    let keys = number_at(words, 2, "the second word is how many keys there are")?;
    let count = number_at(
        words,
        3,
        "the third word is how many steps or calls there are",
    )?;
    report(rt, work, keys, count)
}
