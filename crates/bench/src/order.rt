//! Appends entries by threads, to the log and to a vector behind a mutex, for measurements from outside: the time is
//! taken by whoever starts it (bench/order does).

ghost use Rattle.std.specs.Prelude.{◌≡◌};

use crate::number_at;
use anyhow::Context;
use log_entry::Entry;
use order_log::{AppendFault, Fact, GroupCells, LogIdentity, OrderLog};
use std::alloc::{AllocError, Global};
use std::marker::Brand;
use std::sync::{Mutex, Wait};
use std::thread;
use std::thread::Threads;
use test_programs::idle_call;

/// A fact that says nothing of an entry.
struct Nothing;

impl Fact for Nothing {
    ghost shows = { λ _ _. Unit {0} };
}

/// The target to which entries are appended.
#[derive(Clone, Copy, Debug, PartialEq, Eq)]
enum Target {
    Log,
    /// A vector behind a mutex.
    Vector,
    /// The entries are only made.
    Nowhere,
}

impl Target {
    fn from_word(word: &str) -> Option<Target> {
        match word {
            "log" => Some(Target::Log),
            "vector" => Some(Target::Vector),
            "nowhere" => Some(Target::Nowhere),
            _ => None,
        }
    }
}

/// A call without arguments, looks and writes, which its reply tells from others.
fn call(alloc: Global, reply: u64) -> Entry {
    let mut call = idle_call(alloc, 1, 0, None);
    call.reply = reply;
    Entry::Call(call)
}

/// Appends `count` entries to a log by one thread, and returns the number that went in.
fn append_each<J: LogIdentity>(log: &OrderLog<J, Nothing>, alloc: Global, count: u32) -> u32 {
    let mut seen = log.seen();
    let mut appended = 0u32;
    for reply in 0..count {
        match log.append(&mut seen, call(alloc, u64::from(reply))) {
            Ok(_number) => appended = appended.wrapping_add(1),
            Err(AppendFault::Full) => break,
            Err(_) => (),
        }
    }
    appended
}

/// Appends entries to a log by `threads` threads, and returns the number that went in.
fn append_to_log<J: LogIdentity + Send + Sync, R: Threads + Sync>(
    rt: &R,
    alloc: Global,
    cells: GroupCells,
    threads: usize,
    each: u32,
) -> Result<u32, AllocError>
    requires { cells ≡ J.groups }
{
    let log: OrderLog<J, Nothing> = OrderLog::new(alloc, cells)?;
    let counts = thread::map_indices(rt, alloc, threads, &|_| append_each(&log, alloc, each))?;
    Ok(sum_of(&counts))
}

fn push_each<R: Wait>(rt: &R, vector: &Mutex<Vec<Entry>>, alloc: Global, count: u32) -> u32 {
    let mut pushed = 0u32;
    for reply in 0..count {
        let entry = call(alloc, u64::from(reply));
        if vector.lock(rt).push(entry).is_ok() {
            pushed = pushed.wrapping_add(1);
        }
    }
    pushed
}

fn push_to_vector<R: Threads + Wait + Sync>(
    rt: &R,
    alloc: Global,
    threads: usize,
    each: u32,
) -> Result<u32, AllocError> {
    let vector = Mutex::new(Vec::new(alloc));
    let counts = thread::map_indices(rt, alloc, threads, &|_| push_each(rt, &vector, alloc, each))?;
    Ok(sum_of(&counts))
}

fn make_each(alloc: Global, count: u32) -> u32 {
    let mut made = 0u32;
    for reply in 0..count {
        if let Entry::Call(_call) = call(alloc, u64::from(reply)) {
            made = made.wrapping_add(1);
        }
    }
    made
}

fn make<R: Threads + Sync>(
    rt: &R,
    alloc: Global,
    threads: usize,
    each: u32,
) -> Result<u32, AllocError> {
    let counts = thread::map_indices(rt, alloc, threads, &|_| make_each(alloc, each))?;
    Ok(sum_of(&counts))
}

fn sum_of(counts: &[u32]) -> u32 {
    counts
        .iter()
        .fold(0, |sum: u32, count| sum.wrapping_add(*count))
}

/// The request of the words of the command line.
#[derive(Clone, Copy)]
struct Request {
    target: Target,
    threads: usize,
    /// The number of entries that each thread appends.
    each: u32,
}

fn request_of(words: &[String]) -> anyhow::Result<Request> {
    let target = words.get(1).and_then(|word| Target::from_word(word));
    let target = target.context("the first word is log, vector or nowhere")?;
    Ok(Request {
        target,
        threads: number_at(words, 2, "the second word is how many threads there are")?,
        each: number_at(words, 3, "the third word is how many entries each appends")?,
    })
}

/// Appends entries, and returns the number that went in.
fn append<R: Threads + Wait + Sync>(
    rt: &R,
    alloc: Global,
    request: Request,
) -> Result<u32, AllocError> {
    let (threads, each) = (request.threads, request.each);
    match request.target {
        Target::Log => {
            let cells = GroupCells::new(alloc)?;
            append_to_log::<Brand, _>(rt, alloc, cells, threads, each)
        }
        Target::Vector => push_to_vector(rt, alloc, threads, each),
        Target::Nowhere => make(rt, alloc, threads, each),
    }
}

/// Appends entries as the words say, and tells the number that went in.
pub(crate) fn run<R: Threads + Wait + Sync>(
    rt: &HostRuntime,
    threads: &R,
    words: &[String],
) -> anyhow::Result<()> {
    let request = request_of(words)?;
    println!(rt; "entries {}", append(threads, rt.alloc(), request)?)?;
    Ok(())
}
