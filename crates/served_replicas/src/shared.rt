//! The parts that the threads of a node share.

ghost use Rattle.std.specs.Prelude.{◌≡◌, ◌+◌, ◌≤◌, length, IfSome, IfNone, IfOk, OnOk};
ghost use Rattle.served_replicas.specs.Replicas.{IsNoReplica};
ghost use Rattle.catalogue.specs.Catalogue.{system_setting};

use catalogue::Catalogue;
use crossbeam_utils::CachePadded;
use crossbeam_utils::sync::EventCount;
use locked_replica::{LockedReplica, LogSetting, OrderedEntries};
use node_calls::{Bells, Gate, NodeCatalogue, ServedReplica};
use order_log::{Fact, OrderLog};
use std::alloc::{AllocError, Allocator, Global};
use std::marker::Model;
use std::sync::RwLock;
use std::sync::atomic::Ordering::SeqCst;
use std::sync::atomic::{AtomicBool, AtomicU64};

/// A replica that threads serve, with its memory.
#[derive(Drop)]
pub struct ReplicaInMemory<J: LogSetting, A: Allocator + Copy = Global, P: Allocator + Copy = A> {
    /// The allocator for what the replica takes.
    pub(crate) alloc: A,
    pub(crate) served: ServedReplica<J, A, P>,
}

/// The parts that the threads of a node share: the log, the replicas behind their locks, and the waiting places.
/// Contracts see the number of replicas.
#[derive(Drop)]
pub struct Shared<J: LogSetting, A: Allocator + Copy, P: Allocator + Copy, G: Gate>
where
    OrderedEntries<J>: Fact,
{
    /// The allocator for what calls and entries take.
    pub(crate) alloc: P,
    pub(crate) log: OrderLog<J, OrderedEntries<J>, P>,
    pub(crate) catalogue: NodeCatalogue<J, P>,
    pub(crate) replicas: Vec<CachePadded<ReplicaInMemory<J, A, P>>, P>,
    /// The bells of the delivering threads.
    pub(crate) bells: Bells<P>,
    pub(crate) gate: G,
    /// The number of answers that no executing thread gave.
    unserved: CachePadded<AtomicU64>,
    /// True where the delivering threads are to end at the end of the log.
    pub(crate) stopping: CachePadded<AtomicBool>,
}

impl<J: LogSetting, A: Allocator + Copy, P: Allocator + Copy, G: Gate> Model for Shared<J, A, P, G>
where
    OrderedEntries<J>: Fact,
{
    ghost use Rattle.std.specs.Prelude.{vec_len};
    ghost use Rattle.served_replicas.specs.Replicas.{SharedState};

    ghost Value = { SharedState };

    ghost view = { λ s. record { replicas = vec_len s.replicas } };

    ghost invariant = { λ s. Unit {0} };
}

impl<J: LogSetting, A: Allocator + Copy, P: Allocator + Copy> ReplicaInMemory<J, A, P> {
    /// Makes a replica to which nothing was delivered, for `executors` executing threads.
    fn new(
        alloc: A,
        shared: P,
        catalogue: &NodeCatalogue<J, P>,
        executors: usize,
    ) -> Result<ReplicaInMemory<J, A, P>, AllocError> {
        let replica = LockedReplica::new(alloc, catalogue.window(), catalogue.get())?;
        Ok(ReplicaInMemory {
            alloc,
            served: ServedReplica::new(shared, replica, executors)?,
        })
    }
}

impl<J: LogSetting, A: Allocator + Copy, P: Allocator + Copy, G: Gate + Drop> Shared<J, A, P, G> {
    /// Makes what the threads of a node share, with no replicas yet and a bell for each of `replicas`.
    pub fn new(
        alloc: P,
        log: OrderLog<J, OrderedEntries<J>, P>,
        catalogue: Catalogue<P>,
        window: u32,
        gate: G,
        replicas: usize,
    ) -> Result<Shared<J, A, P, G>, AllocError>
        requires { J.setting ≡ system_setting catalogue window }
        ensures { IfOk result (λ shared. shared.replicas ≡ 0) }
    {
        Ok(Shared {
            alloc,
            log,
            catalogue: NodeCatalogue::new(catalogue, window),
            replicas: Vec::with_capacity(alloc, replicas)?,
            bells: Bells::new(alloc, replicas)?,
            gate,
            unserved: CachePadded::new(AtomicU64::new(0)),
            stopping: CachePadded::new(AtomicBool::new(false)),
        })
    }
}

impl<J: LogSetting, A: Allocator + Copy, P: Allocator + Copy, G: Gate> Shared<J, A, P, G> {
    /// Adds a replica in the memory of its own allocator, for `executors` executing threads.
    pub fn add_replica(&mut self, alloc: A, executors: usize) -> Result<(), AllocError>
        ensures { OnOk result (self.new.replicas ≡ self.old.replicas + 1) }
    {
        let served = ReplicaInMemory::new(alloc, self.alloc, &self.catalogue, executors)?;
        self.replicas.push(CachePadded::new(served))?;
        Ok(())
    }

    /// Returns the number of replicas, which are numbered from 1.
    pub fn replicas(&self) -> usize
        ensures { result ≡ self.now.replicas }
    {
        self.replicas.len()
    }

    /// The log, whose entries everyone who has seen them can read.
    pub fn log(&self) -> &OrderLog<J, OrderedEntries<J>, P> {
        &self.log
    }

    /// The replica of a number, from 1 on, behind its lock.
    pub fn locked(&self, number: u32) -> Option<&RwLock<LockedReplica<J, A, P>>>
        ensures some { IfSome result (λ _. (1 ≤ number) × (number ≤ self.now.replicas)) }
        ensures none { IfNone result (IsNoReplica self.now.replicas number) }
    {
        match self.served(number) {
            Some(served) => Some(&served.replica),
            None => None,
        }
    }

    /// The replica of a number, from 1 on, with the places where threads wait for it.
    pub fn served(&self, number: u32) -> Option<&ServedReplica<J, A, P>>
        ensures some { IfSome result (λ _. (1 ≤ number) × (number ≤ self.now.replicas)) }
        ensures none { IfNone result (IsNoReplica self.now.replicas number) }
    {
        match self.replica(number) {
            Some(served) => Some(&served.served),
            None => None,
        }
    }

    /// The replica of a number, from 1 on.
    pub(crate) fn replica(&self, number: u32) -> Option<&ReplicaInMemory<J, A, P>>
        ensures some { IfSome result (λ _. (1 ≤ number) × (number ≤ self.now.replicas)) }
        ensures none { IfNone result (IsNoReplica self.now.replicas number) }
    {
        match numbered(&self.replicas, number) {
            Some(served) => Some(served),
            None => None,
        }
    }

    /// Returns the bell at which the delivering thread of the replica of a number waits.
    pub(crate) fn bell(&self, number: u32) -> Option<&EventCount> {
        self.bells.at((number as usize).checked_sub(1)?)
    }

    /// Counts an answer that no executing thread gave.
    pub fn count_unserved(&self) {
        self.unserved.fetch_add(1, SeqCst);
    }

    /// Returns the number of answers that no executing thread gave.
    pub fn unserved(&self) -> u64 {
        self.unserved.load(SeqCst)
    }

    /// Has the delivering threads end at the end of the log. Call it when no executing thread orders any more.
    pub fn stop_deliveries(&self) {
        self.stopping.store(true, SeqCst);
        self.bells.ring();
    }
}

/// The item of a number, from 1 on.
fn numbered<T>(items: &[T], number: u32) -> Option<&T>
    ensures some { IfSome result (λ _. (1 ≤ number) × (number ≤ length items.now)) }
    ensures none { IfNone result (IsNoReplica (length items.now) number) }
{
    if number == 0 {
        return None;
    }
    items.get(number as usize - 1)
}
