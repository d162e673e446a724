//! A delivering thread.

use crate::shared::Shared;
use locked_replica::{LogSetting, OrderedEntries};
use node_calls::{Batch, Gate, ServedReplica};
use order_log::{Fact, OrderLog, Seen};
use std::alloc::Allocator;
use std::sync::Wait;
use std::sync::atomic::Ordering::SeqCst;
use std::thread;

/// What a delivering thread knows of its replica.
#[derive(Drop)]
struct Delivered<J: LogSetting, P: Allocator + Copy> {
    /// The entries that were delivered when the thread looked last.
    seen: Seen<J, P>,
    /// True where the replica had stopped then.
    stopped: bool,
}

/// Delivers what the log shows after what was delivered, and wakes the threads that wait for it. Returns false where
/// there was nothing to deliver, or the replica has stopped. The lock of a stopped replica is only read: the replica
/// delivers again once another was put in its place.
fn deliver_some<J: LogSetting, A: Allocator + Copy, P: Allocator + Copy, R: Wait>(
    rt: &R,
    served: &ServedReplica<J, A, P>,
    log: &OrderLog<J, OrderedEntries<J>, P>,
    delivered: &mut Delivered<J, P>,
) -> bool {
    if log.get(&mut delivered.seen.again()).is_none() {
        return false;
    }
    if delivered.stopped && served.replica.read(rt).stopped() {
        return false;
    }
    let Batch { seen, stopped } = served.deliver(rt, log);
    *delivered = Delivered { seen, stopped };
    if stopped {
        return false;
    }
    thread::yield_now();
    true
}

/// Delivers to a replica, by its number from 1 on. Ends when the deliveries are stopped and the log shows no more, or
/// when the replica has stopped. Waits at the replica's bell while there is nothing to deliver.
pub fn deliver_all<J: LogSetting, A: Allocator + Copy, P: Allocator + Copy, G: Gate, R: Wait>(
    rt: &R,
    shared: &Shared<J, A, P, G>,
    replica: u32,
) {
    let Some(served) = shared.replica(replica) else {
        return;
    };
    let Some(bell) = shared.bell(replica) else {
        return;
    };
    let mut delivered = Delivered {
        seen: Seen::new(),
        stopped: false,
    };
    for _ in rt.forever() {
        let key = bell.prepare_wait();
        let stopping = shared.stopping.load(SeqCst);
        if deliver_some(rt, &served.served, &shared.log, &mut delivered) {
            continue;
        }
        if stopping {
            break;
        }
        key.wait(rt);
    }
}
