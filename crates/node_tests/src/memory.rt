//! Replicas that find no memory. A replica stops beside another that doesn't: a caller who has seen more is behind
//! there, and the replica is made anew. Where each growth of a call is refused in turn, the log has what was answered
//! as ordered.

use order_log::GroupCells;
use scarce::Scarce;
use std::alloc::{Allocator, Global};
use std::marker::Brand;
use std::process::Abort;
use std::sync::Wait;
use std::thread::Threads;
use tallies::Blanks;
use test_programs::{PROCEDURES, TABLES, catalogue_of};
use test_served_replicas::{Case, LogStart, Memories, Mismatch, RefusedGrowths, try_two};

/// Tries a case at replicas of the sample procedures. Returns the first answer that may not be heard.
fn try_case<P: Allocator + Copy + Send + Sync, R: Threads + Wait + Abort + Copy + Sync>(
    rt: &R,
    global: Global,
    alloc: P,
    memories: Memories<'_>,
    case: &mut Case,
) -> Option<Mismatch> {
    let cells = GroupCells::<P>::new(global).expect(rt, "memory");
    let start = LogStart {
        catalogue: catalogue_of(alloc, &TABLES, &PROCEDURES).expect(rt, "a catalogue"),
        window: 4,
    };
    let heard = try_two::<Brand, &Scarce, P, R>(
        rt,
        global,
        alloc,
        cells,
        Blanks::new(),
        start,
        memories,
        memories,
        case,
    );
    heard.expect(rt, "memory")
}

/// Tries a case to its end at replicas with memory of their own, and returns the case as it then stands.
fn tried<R: Threads + Wait + Abort + Copy + Sync>(rt: &R, alloc: Global, case: Case) -> Case {
    let mut case = case;
    let first = Scarce::new(alloc);
    let second = Scarce::new(alloc);
    let mismatch = try_case(rt, alloc, &first, (&first, &second), &mut case);
    assert!(rt;
        mismatch.is_none() && case.next().is_none(),
        "{mismatch:?} {case:?}"
    );
    case
}

#[test]
fn a_replica_without_memory_stops_and_is_rebuilt(rt: HostRuntime) {
    tried(&rt, rt.alloc(), Case::Stopped(0));
}

#[test]
fn each_growth_of_a_call_is_refused(rt: HostRuntime) {
    let case = tried(&rt, rt.alloc(), Case::Refused(RefusedGrowths::FIRST));
    let met = matches!(case, Case::Refused(it) if it.wanting > 0 && it.stopped > 0);
    assert!(rt; met, "{case:?}");
}
