//! Many callers at a node of many replicas: transfers between accounts, counts, searches, calls that cancel, that only
//! read and that are asked for again. `node_bench soak REPLICAS EXECUTORS CALLS SEED` has drawn replicas made anew
//! meanwhile, and compares the outcome with the plain replay of the log. The program fails where something isn't as it
//! should be. `write`, `read`, `long` and `start` in place of `soak` only call, for measurements from outside, and
//! compare nothing; the words CALLERS, DEPTH and KEYS may follow. Without them there are as many callers as executing
//! threads, each with one call under way, and 10,000 keys. The time is taken by whoever starts the program (bench/node
//! does).
#![tactic(auto)]

ghost use Rattle.std.specs.Prelude.{◌≡◌};
ghost use Rattle.catalogue.specs.Catalogue.{system_setting};
ghost use Rattle.tallies.specs.Tallies.{names_by_place};

mod calling;
mod comparing;
mod long_log;
mod procedures;

use crate::calling::{
    AnswerCounts, Load, Work, all, call_all, open_accounts, rebuild_some, rebuild_stopped,
};
use crate::comparing::{Comparison, compare};
use crate::procedures::{ACCOUNTS, MONEY, catalogue, long_catalogue, setting};
use anyhow::Context;
use catalogue::Catalogue;
use locked_replica::LogSetting;
use node::Node;
use node_calls::OpenGate;
use order_log::GroupCells;
use std::alloc::Global;
use std::marker::Brand;
use std::process::ExitCode;
use std::sync::Wait;
use std::thread::Threads;
use std::{env, thread};
use tallies::{Blanks, Counts, Ledgers};

/// The outcome of a run.
#[derive(Clone, Copy)]
struct Outcome {
    /// What the callers were told.
    told: AnswerCounts,
    /// The answers that the node counted.
    totals: Counts,
    agreement: bool,
    /// The number of rebuilds for which memory was wanting.
    wanting: u32,
    /// The number of replicas that had stopped when all calls were answered.
    stopped: u32,
    /// The comparison of a soak.
    comparison: Option<Comparison>,
}

/// Opens a node, has callers call, ends it, and compares.
fn use_node<
    J: LogSetting + Ledgers + Send + Sync + 'static,
    R: Threads + Wait + Copy + Send + Sync + 'static,
>(
    rt: &R,
    alloc: Global,
    load: &Load,
    catalogue: Catalogue,
    cells: GroupCells,
    blanks: Blanks,
) -> Option<Outcome>
    requires cells { cells ≡ J.groups }
    requires ledgers { J.names ≡ names_by_place blanks }
    requires setting { J.setting ≡ system_setting catalogue load.now.window }
{
    let Load {
        work,
        replicas,
        executors,
        window,
        ..
    } = *load;
    let started = Node::<J, OpenGate>::start(
        rt, alloc, cells, blanks, replicas, executors, window, catalogue,
    );
    let node = started.ok()?;
    let opened = open_accounts(rt, node.desk());
    let desk = node.desk();
    let (called, wanting) = thread::join(
        rt,
        || call_all(rt, alloc, desk, *load),
        || rebuild_some(rt, desk, *load),
    );
    let stopped = rebuild_stopped(rt, desk, replicas);
    let finish = node.finish(rt);
    let comparison = if work == Work::Soak {
        let setting = setting(alloc, window)?;
        Some(compare(rt, alloc, &finish, &setting, replicas)?)
    } else {
        None
    };
    Some(Outcome {
        told: opened.plus(called.ok()?),
        totals: finish.totals,
        agreement: finish.agreement,
        wanting,
        stopped,
        comparison,
    })
}

/// Makes a run of this size.
fn run<R: Threads + Wait + Copy + Send + Sync + 'static>(
    rt: &R,
    alloc: Global,
    load: Load,
) -> Option<Outcome> {
    let catalogue = if load.work == Work::Long {
        long_catalogue(alloc)?
    } else {
        catalogue(alloc)?
    };
    let cells = GroupCells::new(alloc).ok()?;
    use_node::<Brand, R>(rt, alloc, &load, catalogue, cells, Blanks::new())
}

fn yes(found: bool) -> &'static str {
    if found { "yes" } else { "no" }
}

/// Prints the numbers of answers and of stopped replicas to the writer for faults, since they aren't the same in each
/// run.
fn print_counts(rt: &HostRuntime, outcome: &Outcome) -> anyhow::Result<()> {
    let totals = outcome.totals;
    eprintln!(rt;
        "committed {} read {} cancelled {} conflict {} stale {} repeat {} other {}, of which stopped {}",
        totals.committed,
        totals.read,
        totals.cancelled,
        totals.conflict,
        totals.stale,
        totals.repeated,
        totals.other,
        outcome.told.stopped
    )?;
    eprintln!(rt;
        "rebuilds without memory {}, replicas stopped at the end {}",
        outcome.wanting, outcome.stopped
    )?;
    Ok(())
}

/// Prints the result of the plain replay. Tells whether all is as it should be.
fn print_comparison(
    rt: &HostRuntime,
    comparison: Comparison,
    told: AnswerCounts,
) -> anyhow::Result<bool> {
    // A commit that wasn't answered is of a call whose replica had stopped.
    let unanswered = comparison.commits.checked_sub(told.counts.committed);
    let same_commits = unanswered.is_some_and(|it| it <= told.stopped);
    let same_money = comparison.money == u64::from(ACCOUNTS).wrapping_mul(MONEY);
    println!(rt;
        "verdicts and rows as in the plain replay of the log: {}",
        yes(comparison.same)
    )?;
    println!(rt;
        "as many commits in the log as answers and stopped replicas allow: {}",
        yes(same_commits)
    )?;
    println!(rt;
        "in all accounts {}, as before: {}",
        comparison.money,
        yes(same_money)
    )?;
    Ok(comparison.same && same_commits && same_money)
}

/// Prints the outcome of a run. Tells whether all is as it should be.
fn print(rt: &HostRuntime, outcome: &Outcome) -> anyhow::Result<bool> {
    let same_counts = outcome.told.counts == outcome.totals;
    print_counts(rt, outcome)?;
    println!(rt;
        "answers {}, as the node's totals: {}",
        all(&outcome.told.counts),
        yes(same_counts)
    )?;
    println!(rt; "agreement: {}", yes(outcome.agreement))?;
    let compared = match outcome.comparison {
        Some(comparison) => print_comparison(rt, comparison, outcome.told)?,
        None => true,
    };
    Ok(same_counts && outcome.agreement && compared)
}

/// Returns the load that the words ask for.
fn asked(words: &[String]) -> anyhow::Result<Load> {
    let number = |place: usize| words.get(place).and_then(|word| word.parse::<u32>().ok());
    let work = words.get(1).and_then(|word| Work::from_word(word));
    let work = work.context("the first word is soak, write, read, long or start")?;
    let replicas = number(2).context("the second word is how many replicas there are")?;
    let executors = number(3).context("the third word is how many threads each has")?;
    Ok(Load {
        work,
        window: if work == Work::Soak { 16 } else { 4_096 },
        replicas,
        executors,
        calls: number(4).context("the fourth word is how many calls are made")?,
        seed: u64::from(number(5).context("the fifth word is a seed")?),
        callers: number(6).unwrap_or(replicas.saturating_mul(executors)),
        depth: number(7).unwrap_or(1).max(1),
        keys: number(8).unwrap_or(10_000).max(1),
    })
}

fn load_of(rt: &HostRuntime) -> anyhow::Result<Load> {
    let words: Vec<String> = env::args(rt)?.collect(rt.alloc())?;
    asked(&words)
}

/// Says what failed.
fn failure(rt: &HostRuntime, error: &anyhow::Error) -> ExitCode {
    let _ = eprintln!(rt; "node_bench: {error}");
    ExitCode::FAILURE
}

fn main(rt: HostRuntime) -> ExitCode {
    let load = match load_of(&rt) {
        Ok(load) => load,
        Err(error) => return failure(&rt, &error),
    };
    let Some(outcome) = run(&rt, rt.alloc(), load) else {
        let _ = eprintln!(rt; "node_bench: memory is wanting, or no node is of this size");
        return ExitCode::FAILURE;
    };
    match print(&rt, &outcome) {
        Ok(true) => ExitCode::SUCCESS,
        Ok(false) => ExitCode::FAILURE,
        Err(error) => failure(&rt, &error),
    }
}
