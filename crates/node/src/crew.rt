//! The threads of a node.

ghost use Rattle.std.specs.Prelude.{◌≡◌, ◌+◌, ◌<◌, ◌≤◌, OnOk, IfErr};
ghost use Rattle.schema.specs.declared.limits.TheConstants.{MAX_EXECUTORS};
ghost use Rattle.tallies.specs.declared.ledgers.TheConstants.{THREADS};
ghost use Rattle.tallies.specs.Counted.{no_counts};
ghost use Rattle.node.specs.Options.{IsWant};

use crate::options::StartFault;
use crossbeam_channel::{Receiver, Sender, bounded};
use locked_replica::LogSetting;
use node_calls::Gate;
use served_replicas::{Calls, Shared, deliver_all, serve};
use std::alloc::Global;
use std::marker::Model;
use std::sync::{Arc, Wait};
use std::thread;
use std::thread::{JoinHandle, Threads};
use tallies::{FreshTally, Ledgers, Tally};

/// The number of places in the queue of a replica.
const QUEUE: usize = 256;

/// The tally with which an executing thread ends.
#[derive(Drop)]
pub(crate) struct ThreadTally<J: Ledgers> {
    tally: Tally<J>,
    ghost one: { tally.threads ≡ 1 },
}

impl<J: LogSetting + Ledgers> ThreadTally<J> {
    /// Runs an executing thread to its end. Returns what the thread counted.
    fn serve<G: Gate, R: Wait>(
        rt: &R,
        shared: &Shared<J, Global, Global, G>,
        replica: u32,
        thread: usize,
        asked: &Receiver<Arc<Calls<J>>>,
        fresh: FreshTally<J>,
    ) -> ThreadTally<J> {
        ThreadTally {
            tally: serve(rt, shared, replica, thread, asked, fresh),
        }
    }
}

/// The threads of a node. Contracts see the number of threads that answer calls.
#[derive(Drop)]
pub struct Crew<J: LogSetting + Ledgers> {
    alloc: Global,
    executors: Vec<JoinHandle<ThreadTally<J>>>,
    deliverers: Vec<JoinHandle<()>>,
}

impl<J: LogSetting + Ledgers> Model for Crew<J> {
    ghost use Rattle.std.specs.Prelude.{vec_len};
    ghost use Rattle.node.specs.Crew.{CrewState};

    ghost Value = { CrewState };

    ghost view = { λ c. record { executors = vec_len c.executors } };

    ghost invariant = { λ c. Unit {0} };
}

impl<J: LogSetting + Ledgers + Send + Sync + 'static> Crew<J> {
    /// Makes a crew of no threads.
    pub fn new(alloc: Global) -> Crew<J>
        ensures { result.executors ≡ 0 }
    {
        Crew {
            alloc,
            executors: Vec::new(alloc),
            deliverers: Vec::new(alloc),
        }
    }

    /// Starts the threads of the replica of a number: `executors` that answer calls, and one that delivers. Returns the
    /// channel to them. Where a thread isn't started, the others that were stay in the crew.
    pub fn start_replica<
        G: Gate + Drop + Send + Sync + 'static,
        R: Threads + Wait + Copy + Send + Sync + 'static,
    >(
        &mut self,
        rt: &R,
        shared: &Arc<Shared<J, Global, Global, G>>,
        tally: &mut Tally<J>,
        replica: u32,
        executors: u32,
    ) -> Result<Sender<Arc<Calls<J>>>, StartFault>
        requires executors { executors ≤ MAX_EXECUTORS }
        requires threads { MAX_EXECUTORS ≤ tally.old.threads }
        requires nothing { tally.old.counts ≡ no_counts }
        ensures all { OnOk result (tally.new.threads + self.new.executors ≡ tally.old.threads + self.old.executors) }
        ensures threads { OnOk result (tally.new.threads + executors ≡ tally.old.threads) }
        ensures at_most { tally.new.threads + self.new.executors ≤ tally.old.threads + self.old.executors }
        ensures nothing { tally.new.counts ≡ no_counts }
        ensures fault { IfErr result IsWant }
    {
        let Ok((sender, receiver)) = bounded(self.alloc, QUEUE) else {
            return Err(StartFault::NoMemory);
        };
        for thread in 0..executors {
            self.start_executor(rt, shared, tally, replica, thread, &receiver)?;
        }
        self.start_deliverer(rt, shared, replica)?;
        Ok(sender)
    }

    /// Starts a thread that answers calls.
    fn start_executor<
        G: Gate + Drop + Send + Sync + 'static,
        R: Threads + Wait + Copy + Send + Sync + 'static,
    >(
        &mut self,
        rt: &R,
        shared: &Arc<Shared<J, Global, Global, G>>,
        tally: &mut Tally<J>,
        replica: u32,
        thread: u32,
        asked: &Receiver<Arc<Calls<J>>>,
    ) -> Result<(), StartFault>
        requires threads { 1 ≤ tally.old.threads }
        requires nothing { tally.old.counts ≡ no_counts }
        ensures threads { OnOk result (tally.new.threads + 1 ≡ tally.old.threads) }
        ensures nothing { tally.new.counts ≡ no_counts }
        ensures executors { OnOk result (self.new.executors ≡ self.old.executors + 1) }
        ensures at_most { tally.new.threads + self.new.executors ≤ tally.old.threads + self.old.executors }
        ensures fault { IfErr result IsWant }
    {
        if self.executors.reserve(1).is_err() {
            return Err(StartFault::NoMemory);
        }
        let Ok(theirs) = Arc::try_clone(shared) else {
            return Err(StartFault::NoMemory);
        };
        let Ok(asked) = asked.clone() else {
            return Err(StartFault::NoMemory);
        };
        let fresh = tally.split();
        let runtime = *rt;
        let child = thread::spawn(rt, move || {
            ThreadTally::serve(&runtime, &theirs, replica, thread as usize, &asked, fresh)
        });
        let Ok(child) = child else {
            return Err(StartFault::NoThread);
        };
        self.executors.push_reserved(child);
        Ok(())
    }

    /// Starts a thread that delivers.
    fn start_deliverer<
        G: Gate + Drop + Send + Sync + 'static,
        R: Threads + Wait + Copy + Send + Sync + 'static,
    >(
        &mut self,
        rt: &R,
        shared: &Arc<Shared<J, Global, Global, G>>,
        replica: u32,
    ) -> Result<(), StartFault>
        ensures executors { self.new.executors ≡ self.old.executors }
        ensures fault { IfErr result IsWant }
    {
        if self.deliverers.reserve(1).is_err() {
            return Err(StartFault::NoMemory);
        }
        let Ok(theirs) = Arc::try_clone(shared) else {
            return Err(StartFault::NoMemory);
        };
        let runtime = *rt;
        let child = thread::spawn(rt, move || deliver_all(&runtime, &theirs, replica));
        let Ok(child) = child else {
            return Err(StartFault::NoThread);
        };
        self.deliverers.push_reserved(child);
        Ok(())
    }

    /// Waits until all threads have ended. First the threads that answer calls end, when nobody asks for calls any
    /// more. The threads that deliver end then, at the end of the log. The tally then has what was counted.
    pub fn end<G: Gate, R: Threads + Wait>(
        self,
        rt: &R,
        shared: &Shared<J, Global, Global, G>,
        tally: &mut Tally<J>,
    )
        requires { tally.old.threads + self.executors ≤ THREADS }
        ensures { tally.new.threads ≡ tally.old.threads + self.executors }
    {
        let Crew {
            alloc: _,
            mut executors,
            deliverers,
        } = self;
        while let Some(child) = executors.pop() {
            tally.merge(child.join(rt).tally);
        }
        shared.stop_deliveries();
        for child in deliverers {
            child.join(rt);
        }
    }
}
