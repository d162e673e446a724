//! Refusals: an entry past the end of a log, a snapshot that wasn't seen, and a growth.

ghost use Rattle.std.specs.Prelude.{◌≡◌};

use super::{Nothing, call_of, reply_of};
use order_log::{AppendFault, GroupCells, LogIdentity, OrderLog, Seen};
use std::alloc::Global;
use std::marker::Brand;
use std::process::Abort;
use std::test::Fail;

/// Snapshots of calls that one thread appends to a log of two places, and the outcome of each.
const APPENDS: [(u32, Result<u32, AppendFault>); 6] = [
    (1, Err(AppendFault::SnapshotUnseen)),
    (0, Ok(1)),
    (2, Err(AppendFault::SnapshotUnseen)),
    (1, Ok(2)),
    (3, Err(AppendFault::SnapshotUnseen)),
    (2, Err(AppendFault::Full)),
];

/// The reply of the entry at a position that was seen.
fn shown<J: LogIdentity>(log: &OrderLog<J, Nothing>, seen: &Seen<J>, position: u32) -> Option<u64> {
    if position == 0 || position > seen.len() {
        return None;
    }
    reply_of(log.entry(seen, position))
}

fn fill_two<J: LogIdentity>(rt: &impl Abort, alloc: Global, cells: GroupCells) -> Result<(), Fail>
    requires { cells ≡ J.groups }
{
    let log: OrderLog<J, Nothing> = OrderLog::with_limit(alloc, cells, 2)?;
    let mut seen = log.seen();
    for (snapshot, came) in &APPENDS {
        let entry = call_of(alloc, *snapshot, u64::from(*snapshot).wrapping_add(10));
        let told = log.append(&mut seen, entry);
        assert!(rt; told == *came, "{snapshot}");
    }
    assert_eq!(rt; shown(&log, &seen, 1), Some(10));
    assert_eq!(rt; shown(&log, &seen, 2), Some(11));
    // A thread that has seen nothing yet finds the log full, and has then seen it.
    let mut other = log.seen();
    assert!(rt; log.append(&mut other, call_of(alloc, 0, 12)) == Err(AppendFault::Full));
    assert_eq!(rt; shown(&log, &other, 2), Some(11));
    assert!(rt; log.get(&mut other).is_none());
    Ok(())
}

#[test]
fn a_log_of_two_places_takes_two(rt: HostRuntime) -> Result<(), Fail> {
    let cells = GroupCells::new(rt.alloc())?;
    fill_two::<Brand>(&rt, rt.alloc(), cells)
}

/// Appends until `count` entries are in. Returns how often that failed for want of memory.
fn append_until<J: LogIdentity>(
    rt: &impl Abort,
    log: &OrderLog<J, Nothing>,
    alloc: Global,
    seen: &mut Seen<J>,
    count: u32,
) -> u32 {
    let mut refused = 0u32;
    for _ in 0..count.saturating_add(4) {
        let before = seen.len();
        if before >= count {
            break;
        }
        match log.append(seen, call_of(alloc, before, u64::from(before))) {
            Ok(number) => assert_eq!(rt; number, before.wrapping_add(1)),
            Err(fault) => {
                assert!(rt; fault == AppendFault::NoMemory);
                assert_eq!(rt; seen.len(), before);
                assert!(rt; log.get(seen).is_none());
                refused = refused.wrapping_add(1);
            }
        }
    }
    refused
}

fn append_scarcely<J: LogIdentity>(
    rt: &impl Abort,
    alloc: Global,
    cells: GroupCells,
) -> Result<(), Fail>
    requires { cells ≡ J.groups }
{
    let log: OrderLog<J, Nothing> = OrderLog::new(alloc, cells)?;
    let mut seen = log.seen();
    let refused = append_until(rt, &log, alloc, &mut seen, 1_026);
    assert!(rt; refused <= 1);
    for position in 1..1_027 {
        let reply = shown(&log, &seen, position);
        assert_eq!(rt; reply, Some(u64::from(position).wrapping_sub(1)));
    }
    Ok(())
}

/// A refused growth adds nothing. Where none is refused this test only fills a group and begins the next. Run it with
/// `rt try --test --fail-alloc N`, and one append finds no memory. The append leaves the log and what was seen as they
/// were, and is made again.
#[test]
fn a_refused_growth_adds_nothing(rt: HostRuntime) -> Result<(), Fail> {
    let cells = GroupCells::new(rt.alloc())?;
    append_scarcely::<Brand>(&rt, rt.alloc(), cells)
}
