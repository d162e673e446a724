//! A program that makes calls of one session at the replicas of a small node in turn. The program prints what each call
//! was answered, which call each entry is, and where the replicas end. A test refuses growths of memory meanwhile.
#![tactic(auto)]

ghost use Rattle.std.specs.Prelude.{◌≡◌};
ghost use Rattle.tallies.specs.Tallies.{names_by_place};
ghost use Rattle.catalogue.specs.Catalogue.{system_setting};

use catalogue::Catalogue;
use locked_replica::LogSetting;
use log_entry::Entry;
use node::{Desk, Finish, Node, Options};
use node_calls::{Answer, Gate};
use order_log::GroupCells;
use schema::MAX_LOG;
use session::Session;
use std::alloc::Global;
use std::marker::Brand;
use std::process::ExitCode;
use std::sync::atomic::AtomicU32;
use std::sync::atomic::Ordering::SeqCst;
use std::sync::{Arc, Wait};
use std::thread::Threads;
use tallies::{Blanks, Ledgers};
use test_programs::{TABLES, catalogue_of};

/// Puts 3 at key 5 and gets the row twice, so that the last helper needs no memory. The argument isn't used.
const PUT_AND_GET_TWICE: &str = "\
    7a0af8ff03000000 b702000005000000 bfa3000000000000 07030000f8ffffff b701000001000000 8500000002000000 \
    b702000005000000 bfa3000000000000 07030000f0ffffff b701000001000000 8500000001000000 \
    b702000005000000 bfa3000000000000 07030000f0ffffff b701000001000000 8500000001000000 79a0f0ff00000000 \
    9500000000000000";

/// The number of the procedure.
const NUMBER: u16 = 1;

static PROCEDURES: [(u16, &str, usize); 1] = [(NUMBER, PUT_AND_GET_TWICE, 1)];

/// The number of calls.
const CALLS: usize = 8;

/// The gate of the node, which counts how often it is passed.
#[derive(Drop)]
struct CountingGate {
    passed: Arc<AtomicU32>,
}

impl Gate for CountingGate {
    fn at_look<R: Wait>(&self, _rt: &R, _procedure: u16) {
        self.passed.fetch_add(1, SeqCst);
    }
}

/// A call that was answered.
#[derive(Clone, Copy)]
struct AnsweredCall {
    answer: Answer,
    /// The number of helpers of the call that came to the gate.
    helpers: u32,
}

/// Makes the calls of a session, one behind the other, at the two replicas in turn. The argument of each is its number,
/// from 1 on. Each call waits for its replica first, so that only a stopped replica is behind.
fn call_in_turn<J: LogSetting + Ledgers + Send + Sync + 'static, R: Wait>(
    rt: &R,
    desk: &Desk<J, CountingGate>,
    passed: &AtomicU32,
) -> [AnsweredCall; CALLS] {
    let mut session = Session::new(desk);
    let nothing = AnsweredCall {
        answer: Answer::NoReplica,
        helpers: 0,
    };
    let mut answered = [nothing; CALLS];
    let mut number = 0u8;
    for call in answered.iter_mut() {
        number = number.wrapping_add(1);
        let replica = u32::from(number & 1).wrapping_add(1);
        let _ = desk.wait(rt, replica, session.position());
        passed.store(0, SeqCst);
        let args = [number, 0, 0, 0, 0, 0, 0, 0];
        call.answer = session.call(rt, replica, NUMBER, &args).0;
        call.helpers = passed.load(SeqCst);
    }
    answered
}

/// Returns the call of each entry of the log, and 0 behind its end.
fn entries_of<J: LogSetting + Ledgers>(finish: &Finish<J, CountingGate>) -> [u8; CALLS] {
    let mut seen = finish.log().seen();
    let mut entries = [0u8; CALLS];
    for call in entries.iter_mut() {
        *call = match finish.log().get(&mut seen) {
            Some(Entry::Call(it)) => it.args.as_slice().first().copied().unwrap_or(0),
            _ => 0,
        };
    }
    entries
}

/// The end of a replica.
#[derive(Clone, Copy)]
struct ReplicaEnd {
    position: u32,
    commits: u32,
    stopped: bool,
}

/// Returns the ends of both replicas.
fn ends_of<J: LogSetting + Ledgers>(finish: &Finish<J, CountingGate>) -> [ReplicaEnd; 2] {
    let nothing = ReplicaEnd {
        position: 0,
        commits: 0,
        stopped: false,
    };
    let mut ends = [nothing; 2];
    for (end, replica) in ends.iter_mut().zip(&finish.replicas) {
        *end = ReplicaEnd {
            position: replica.position,
            commits: replica.commits,
            stopped: replica.stopped,
        };
    }
    ends
}

/// What became of the calls.
#[derive(Clone, Copy)]
struct SessionReport {
    answered: [AnsweredCall; CALLS],
    /// The call of each entry, and 0 behind the log's end.
    entries: [u8; CALLS],
    ends: [ReplicaEnd; 2],
}

/// Starts a node, makes the calls, and ends the node. Returns `None` where the node isn't started.
fn use_node<
    J: LogSetting + Ledgers + Send + Sync + 'static,
    R: Threads + Wait + Copy + Send + Sync + 'static,
>(
    rt: &R,
    alloc: Global,
    cells: GroupCells,
    blanks: Blanks,
    catalogue: Catalogue,
    options: Options,
) -> Option<SessionReport>
    requires cells { cells ≡ J.groups }
    requires ledgers { J.names ≡ names_by_place blanks }
    requires setting { J.setting ≡ system_setting catalogue options.window }
{
    let passed = Arc::new(alloc, AtomicU32::new(0)).ok()?;
    let gate = CountingGate {
        passed: Arc::try_clone(&passed).ok()?,
    };
    let started = Node::<J, CountingGate>::start_with(
        rt, alloc, cells, blanks, options, catalogue, gate,
    );
    let node = started.ok()?;
    let answered = call_in_turn(rt, node.desk(), &passed);
    let finish = node.finish(rt);
    Some(SessionReport {
        answered,
        entries: entries_of(&finish),
        ends: ends_of(&finish),
    })
}

/// Prints what became of the calls. Tells whether the output took all.
fn print(rt: &HostRuntime, report: &SessionReport) -> bool {
    let mut number = 0u32;
    for AnsweredCall { answer, helpers } in &report.answered {
        number = number.wrapping_add(1);
        if println!(rt; "call {number} helpers {helpers} {answer:?}").is_err() {
            return false;
        }
    }
    let mut position = 0u32;
    for call in &report.entries {
        position = position.wrapping_add(1);
        if *call != 0 && println!(rt; "entry {position} call {call}").is_err() {
            return false;
        }
    }
    let mut number = 0u32;
    for end in &report.ends {
        number = number.wrapping_add(1);
        if !print_end(rt, number, *end) {
            return false;
        }
    }
    true
}

/// Prints where the replica of a number ended. Tells whether the output took the line.
fn print_end(rt: &HostRuntime, number: u32, end: ReplicaEnd) -> bool {
    let (position, commits) = (end.position, end.commits);
    let state = if end.stopped { "stopped" } else { "running" };
    println!(rt; "replica {number} position {position} commits {commits} {state}").is_ok()
}

/// Says what failed.
fn failure(rt: &HostRuntime, why: &str) -> ExitCode {
    let _ = eprintln!(rt; "scarce_node: {why}");
    ExitCode::FAILURE
}

fn main(rt: HostRuntime) -> ExitCode {
    let alloc = rt.alloc();
    let Ok(cells) = GroupCells::new(alloc) else {
        return failure(&rt, "memory is wanting");
    };
    let Some(catalogue) = catalogue_of(alloc, &TABLES, &PROCEDURES) else {
        return failure(&rt, "memory is wanting");
    };
    let options = Options {
        replicas: 2,
        executors: 2,
        window: 4_096,
        limit: MAX_LOG,
    };
    let report = use_node::<Brand, _>(&rt, alloc, cells, Blanks::new(), catalogue, options);
    let Some(report) = report else {
        return failure(&rt, "memory is wanting");
    };
    if print(&rt, &report) {
        ExitCode::SUCCESS
    } else {
        failure(&rt, "the output failed")
    }
}
