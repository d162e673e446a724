//! A replica behind its lock, with the places where its executing threads wait.

ghost use Rattle.std.specs.Prelude.{◌≡◌, ◌≢◌, ◌<◌, ◌≤◌, length, IfOk, IfErr, IfSome};
ghost use Rattle.locked_replica.specs.declared.answers.Found.TheVariants.{NotYet};
ghost use Rattle.replica.specs.Replica.{AreEntriesOf, entries_of};
ghost use Rattle.node_calls.specs.Answer.{IsFinal};

use crate::bells::Waiter;
use crossbeam_utils::CachePadded;
use crossbeam_utils::sync::EventCount;
use locked_replica::{Delivery, Found, LockedReplica, LogSetting, OrderedEntries};
use order_log::{Fact, OrderLog, Seen};
use std::alloc::{AllocError, Allocator, Global};
use std::sync::atomic::AtomicU32;
use std::sync::atomic::Ordering::SeqCst;
use std::sync::{RwLock, Wait};

/// The most entries that are delivered under one hold of a lock, so that readers aren't kept out for long.
const BATCH: u32 = 16;

/// A replica behind its lock, and the places where its executing threads and its callers wait.
#[derive(Drop)]
pub struct ServedReplica<J: LogSetting, A: Allocator + Copy = Global, P: Allocator + Copy = A> {
    pub replica: RwLock<LockedReplica<J, A, P>>,
    pub waiters: Vec<CachePadded<Waiter>, P>,
    /// The bell of callers who wait until the replica has come to a position.
    arrivals: CachePadded<EventCount>,
    /// No more entries than were delivered. Threads look here before they take the lock.
    reached: CachePadded<AtomicU32>,
}

/// The outcome of a batch of deliveries.
#[derive(Drop)]
pub struct Batch<J: LogSetting, P: Allocator + Copy> {
    /// The entries that were delivered so far.
    pub seen: Seen<J, P>,
    /// True where the replica has stopped.
    pub stopped: bool,
}

/// Delivers as many entries as a batch has, or as the log shows.
fn deliver_batch<J: LogSetting, A: Allocator + Copy, P: Allocator + Copy>(
    replica: &mut LockedReplica<J, A, P>,
    log: &OrderLog<J, OrderedEntries<J>, P>,
) {
    for _ in 0..BATCH {
        match replica.deliver(log) {
            Delivery::Delivered(_) => {}
            Delivery::Nothing | Delivery::Stopped => break,
        }
    }
}

/// Returns what was found, unless that isn't known yet.
fn known(found: Found) -> Option<Found>
    ensures { IfSome result (λ known. (known ≡ found) × (known ≢ NotYet)) }
{
    match found {
        Found::NotYet => None,
        found => Some(found),
    }
}

/// Makes waiting places for `count` executing threads.
fn new_waiters<P: Allocator + Copy>(
    alloc: P,
    count: usize,
) -> Result<Vec<CachePadded<Waiter>, P>, AllocError> {
    let mut waiters = Vec::with_capacity(alloc, count)?;
    for _ in 0..count {
        waiters.push(CachePadded::new(Waiter::new()))?;
    }
    Ok(waiters)
}

impl<J: LogSetting, A: Allocator + Copy, P: Allocator + Copy> ServedReplica<J, A, P> {
    /// Puts a replica behind a lock, for `executors` executing threads.
    pub fn new(
        alloc: P,
        replica: LockedReplica<J, A, P>,
        executors: usize,
    ) -> Result<ServedReplica<J, A, P>, AllocError> {
        Ok(ServedReplica {
            replica: RwLock::new(replica),
            waiters: new_waiters(alloc, executors)?,
            arrivals: CachePadded::new(EventCount::new()),
            reached: CachePadded::new(AtomicU32::new(0)),
        })
    }

    /// Waits until the replica has come to a position, and returns what was delivered by then. Fails where the replica
    /// has stopped below the position, with the position where the replica is.
    pub fn wait<R: Wait>(&self, rt: &R, position: u32) -> Result<Seen<J, P>, u32>
        ensures reached { IfOk result (λ seen. position ≤ length seen) }
        ensures entries { IfOk result (λ seen. AreEntriesOf J.setting (entries_of seen)) }
        ensures below { IfErr result (λ at. at < position) }
    {
        for _ in rt.forever() {
            let key = self.arrivals.prepare_wait();
            let locked = self.replica.read(rt);
            if position <= locked.position() {
                locked.keeps_what_was_delivered();
                return Ok(locked.seen());
            }
            if locked.stopped() {
                return Err(locked.position());
            }
            drop(locked);
            key.wait(rt);
        }
        unreachable!()
    }

    /// Delivers what the log shows, at most 16 entries, and wakes the threads that wait for that.
    pub fn deliver<R: Wait>(&self, rt: &R, log: &OrderLog<J, OrderedEntries<J>, P>) -> Batch<J, P> {
        let mut locked = self.replica.write(rt);
        deliver_batch(&mut locked, log);
        let batch = Batch {
            seen: locked.seen(),
            stopped: locked.stopped(),
        };
        drop(locked);
        self.ring_after(batch.stopped, batch.seen.len());
        batch
    }

    /// Tells what became of the last entry that was seen, where that is known. Delivers first where the replica hasn't
    /// come so far, and nobody has the lock.
    pub(crate) fn look_for<R: Wait>(
        &self,
        rt: &R,
        log: &OrderLog<J, OrderedEntries<J>, P>,
        seen: &Seen<J, P>,
    ) -> Option<Found>
        requires { 1 ≤ length seen.now }
        ensures { IfSome result (IsFinal J.setting seen.now) }
    {
        if self.reached.load(SeqCst) < seen.len() {
            return self.try_deliver(log, seen);
        }
        known(self.replica.read(rt).find(seen))
    }

    /// Delivers as `deliver` does where nobody has the lock. Then tells what became of the last entry that was seen,
    /// where that is known by then.
    fn try_deliver(
        &self,
        log: &OrderLog<J, OrderedEntries<J>, P>,
        seen: &Seen<J, P>,
    ) -> Option<Found>
        requires { 1 ≤ length seen.now }
        ensures { IfSome result (IsFinal J.setting seen.now) }
    {
        let mut locked = self.replica.try_write()?;
        deliver_batch(&mut locked, log);
        let found = locked.find(seen);
        let stopped = locked.stopped();
        let position = locked.position();
        drop(locked);
        self.ring_after(stopped, position);
        known(found)
    }

    /// Wakes the callers who wait, the executing threads that wait for this position or a lower one, and all threads
    /// where the replica has stopped.
    fn ring_after(&self, stopped: bool, position: u32) {
        self.reached.fetch_max(position, SeqCst);
        if stopped {
            return self.ring();
        }
        self.arrivals.notify_all();
        for waiter in self.waiters.iter() {
            waiter.ring_up_to(position);
        }
    }

    /// Wakes all who wait for the replica.
    pub fn ring(&self) {
        self.arrivals.notify_all();
        for waiter in self.waiters.iter() {
            waiter.ring();
        }
    }
}
