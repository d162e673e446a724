//! The waking of threads. An executing thread waits until its replica has come to a position, a delivering thread until
//! there is something to deliver. Each waits at a place of its own, so that nobody is woken for another's sake.

use crossbeam_utils::CachePadded;
use crossbeam_utils::sync::{EventCount, Key};
use std::alloc::{AllocError, Allocator, Global};
use std::sync::atomic::AtomicU32;
use std::sync::atomic::Ordering::SeqCst;

/// The place where one executing thread waits until its replica has come to a position.
#[derive(Drop)]
pub struct Waiter {
    /// The position that the thread waits for, and 0 where it waits for none.
    position: AtomicU32,
    bell: EventCount,
}

impl Waiter {
    /// Makes a place where nobody waits.
    pub fn new() -> Waiter {
        Waiter {
            position: AtomicU32::new(0),
            bell: EventCount::new(),
        }
    }

    /// Says for which position the thread waits from now on, and with 0 that it waits for none.
    pub fn announce(&self, position: u32) {
        self.position.store(position, SeqCst);
    }

    /// Prepares a wait. Call `prepare`, then look whether the replica has come so far, and wait where it hasn't.
    pub fn prepare(&self) -> Key<'_> {
        self.bell.prepare_wait()
    }

    /// Wakes the thread where it waits for this position or a lower one. Call it when the replica has come there.
    pub fn ring_up_to(&self, position: u32) {
        let awaited = self.position.load(SeqCst);
        if awaited != 0 && awaited <= position {
            self.ring();
        }
    }

    /// Wakes the thread.
    pub fn ring(&self) {
        self.bell.notify_all();
    }
}

/// The places where the delivering threads wait, one for each replica.
#[derive(Drop)]
pub struct Bells<A: Allocator = Global> {
    bells: Vec<CachePadded<EventCount>, A>,
}

impl<A: Allocator> Bells<A> {
    /// Makes one bell for each of `count` replicas.
    pub fn new(alloc: A, count: usize) -> Result<Bells<A>, AllocError> {
        let mut bells = Vec::with_capacity(alloc, count)?;
        for _ in 0..count {
            bells.push(CachePadded::new(EventCount::new()))?;
        }
        Ok(Bells { bells })
    }

    /// Wakes all delivering threads. Call it when an entry was ordered, and when the threads are to end.
    pub fn ring(&self) {
        for bell in self.bells.iter() {
            bell.notify_all();
        }
    }

    /// Wakes the delivering threads of all replicas but one, which is counted from 0. Call it when a thread of that
    /// replica has ordered an entry, which it delivers itself.
    pub fn ring_others(&self, index: usize) {
        for (place, bell) in self.bells.iter().enumerate() {
            if place != index {
                bell.notify_all();
            }
        }
    }

    /// Wakes the delivering thread of a replica, counted from 0.
    pub fn ring_at(&self, index: usize) {
        if let Some(bell) = self.at(index) {
            bell.notify_all();
        }
    }

    /// Returns the bell of a replica, counted from 0, where there is such a replica.
    pub fn at(&self, index: usize) -> Option<&EventCount> {
        match self.bells.get(index) {
            Some(bell) => Some(bell),
            None => None,
        }
    }
}
