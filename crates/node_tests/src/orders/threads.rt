//! Threads that append to one log, and others that read along.

ghost use Rattle.std.specs.Prelude.{◌≡◌, ◌≤◌};

use super::{Nothing, call_of, reply_of};
use order_log::{AppendFault, GroupCells, LogIdentity, OrderLog, Seen};
use std::alloc::{AllocError, Global};
use std::marker::Brand;
use std::process::Abort;
use std::sync::Wait;
use std::test::Fail;
use std::thread;
use std::thread::Threads;

/// The numbers of threads that append, of entries that each tries, of threads that read along, and of entries that the
/// log takes.
#[derive(Clone, Copy)]
struct Crowd {
    appending: u32,
    each: u32,
    reading: u32,
    limit: u32,
}

impl Crowd {
    fn new(appending: u32, each: u32, reading: u32, limit: u32) -> Crowd
        ensures { result.limit ≡ limit }
    {
        Crowd {
            appending,
            each,
            reading,
            limit,
        }
    }

    /// Returns the number of entries that go in.
    fn entries(&self) -> u32 {
        self.limit.min(self.appending.saturating_mul(self.each))
    }
}

/// The result of a thread. A thread that appends has the number of each entry, 0 where the log was full. A thread that
/// reads along has the replies in order.
type Came = Result<Vec<u64>, AppendFault>;

/// Returns the mark that tells the entry of a thread from all others.
fn mark_of(thread: usize, index: u32) -> u64 {
    (thread as u64)
        .wrapping_mul(1_000_000)
        .wrapping_add(u64::from(index))
}

/// Appends one more entry, and returns its number, or 0.
fn append_one<J: LogIdentity>(
    log: &OrderLog<J, Nothing>,
    seen: &mut Seen<J>,
    alloc: Global,
    mark: u64,
) -> Result<u64, AppendFault> {
    match log.append(seen, call_of(alloc, 0, mark)) {
        Ok(number) => Ok(u64::from(number)),
        Err(AppendFault::Full) => Ok(0),
        Err(fault) => Err(fault),
    }
}

fn append_all<J: LogIdentity>(
    log: &OrderLog<J, Nothing>,
    alloc: Global,
    thread: usize,
    count: u32,
) -> Came {
    let mut seen = log.seen();
    let mut numbers = Vec::new(alloc);
    for index in 0..count {
        let number = append_one(log, &mut seen, alloc, mark_of(thread, index))?;
        if numbers.push(number).is_err() {
            return Err(AppendFault::NoMemory);
        }
    }
    Ok(numbers)
}

/// Returns the replies of the entries that show, until there are `count`.
fn read_along<J: LogIdentity>(
    rt: &impl Wait,
    log: &OrderLog<J, Nothing>,
    alloc: Global,
    count: u32,
) -> Came {
    let mut seen = log.seen();
    let mut replies = Vec::new(alloc);
    for _ in 0..100_000_000u64 {
        if seen.len() >= count {
            break;
        }
        let Some(entry) = log.get(&mut seen) else {
            thread::yield_now();
            continue;
        };
        if replies.push(reply_of(entry).unwrap_or(0)).is_err() {
            return Err(AppendFault::NoMemory);
        }
    }
    Ok(replies)
}

/// Counts the entries of a thread that the log shows under the number that was answered. Returns `None` where the log
/// shows another entry there.
fn shown_of(replies: &[u64], thread: usize, numbers: &[u64]) -> Option<usize> {
    let mut shown = 0usize;
    let mut index = 0u32;
    for number in numbers {
        if *number > 0 {
            let place = (*number as usize).wrapping_sub(1);
            if replies.get(place) != Some(&mark_of(thread, index)) {
                return None;
            }
            shown = shown.wrapping_add(1);
        }
        index = index.wrapping_add(1);
    }
    Some(shown)
}

/// Returns the result of each thread.
fn run_threads<J: LogIdentity + Send + Sync, R: Threads + Wait + Sync>(
    rt: &R,
    alloc: Global,
    log: &OrderLog<J, Nothing>,
    crowd: Crowd,
) -> Result<Vec<Came>, AllocError> {
    let appending = crowd.appending as usize;
    let count = crowd.entries();
    let threads = appending.saturating_add(crowd.reading as usize);
    thread::map_indices(
        rt,
        alloc,
        threads,
        &|thread| {
            if thread < appending {
                append_all(log, alloc, thread, crowd.each)
            } else {
                read_along(rt, log, alloc, count)
            }
        },
    )
}

/// Asserts that each appended entry stands under the number that was answered, and that each thread that reads along
/// sees them all in one order.
fn check_all(rt: &impl Abort, crowd: Crowd, replies: &[u64], came: &[Came]) {
    let mut shown = 0usize;
    for (thread, came) in came.iter().enumerate() {
        let Ok(came) = came else {
            panic!(rt; "out of memory");
        };
        if thread < crowd.appending as usize {
            assert_eq!(rt; came.len(), crowd.each as usize);
            let Some(count) = shown_of(replies, thread, came) else {
                panic!(rt; "a number shows another entry");
            };
            shown = shown.wrapping_add(count);
        } else {
            assert!(rt; came.as_slice() == replies);
        }
    }
    // The places are as many as the entries, each shown under one number: no place is named twice and none is lost.
    assert_eq!(rt; shown, replies.len());
}

fn try_crowd<J: LogIdentity + Send + Sync, R: Threads + Wait + Abort + Sync>(
    rt: &R,
    alloc: Global,
    cells: GroupCells,
    crowd: Crowd,
) -> Result<(), Fail>
    requires cells { cells ≡ J.groups }
    requires limit { (1 ≤ crowd.limit) × (crowd.limit ≤ 1048576) }
{
    let log: OrderLog<J, Nothing> = OrderLog::with_limit(alloc, cells, crowd.limit)?;
    let came = run_threads(rt, alloc, &log, crowd)?;
    let Ok(replies) = read_along(rt, &log, alloc, crowd.entries()) else {
        panic!(rt; "out of memory");
    };
    assert_eq!(rt; replies.len(), crowd.entries() as usize);
    check_all(rt, crowd, &replies, &came);
    Ok(())
}

/// Makes a log of the crowd's limit, and has the crowd append to the log and read along.
fn run_crowd<R: Threads + Wait + Abort + Sync>(
    rt: &R,
    alloc: Global,
    crowd: Crowd,
) -> Result<(), Fail>
    requires limit { (1 ≤ crowd.limit) × (crowd.limit ≤ 1048576) }
{
    let cells = GroupCells::new(alloc)?;
    try_crowd::<Brand, _>(rt, alloc, cells, crowd)
}

#[test]
fn four_threads_append_while_two_read(rt: HostRuntime) -> Result<(), Fail> {
    run_crowd(&rt, rt.alloc(), Crowd::new(4, 1_000, 2, 1_048_576))
}

#[test]
fn a_full_log_refuses_the_rest(rt: HostRuntime) -> Result<(), Fail> {
    run_crowd(&rt, rt.alloc(), Crowd::new(4, 1_000, 2, 3_000))
}

#[test]
fn sixteen_threads_append(rt: HostRuntime) -> Result<(), Fail> {
    run_crowd(&rt, rt.alloc(), Crowd::new(16, 6_250, 0, 1_048_576))
}
