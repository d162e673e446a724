//! Calling threads: each replica's calls are taken in the order of the script.

ghost use Rattle.std.specs.Prelude.{◌≡◌, All, IfOk, [], false};
ghost use Rattle.script_run.specs.Answered.{IsMadeCall};
ghost use Rattle.script_run.specs.Planned.{planned_calls};

use crate::call::ScriptCall;
use crate::planned::PlannedCall;
use crate::told::answer_to;
use catalogue::Catalogue;
use locked_replica::LogSetting;
use node::Desk;
use node_calls::{Answer, OpenGate};
use order_log::Seen;
use row_sets::Bytes;
use std::alloc::{AllocError, Global};
use std::io::Write;
use std::marker::PhantomData;
use std::sync::Wait;
use std::sync::atomic::AtomicUsize;
use std::sync::atomic::Ordering::SeqCst;
use std::thread;
use std::thread::Threads;
use tallies::Ledgers;

/// A call that was made.
#[derive(Drop)]
pub(crate) struct MadeCall<J: LogSetting> {
    /// The call's place in the script, from 0 on.
    pub(crate) place: usize,
    pub(crate) answer: Answer,
    /// The beginning of the log that the caller had seen then.
    pub(crate) seen: Option<Seen<J>>,
}

/// The calls of a script.
#[derive(Drop)]
pub(crate) struct Asking<J: LogSetting> {
    pub(crate) calls: Vec<PlannedCall<J>>,
    /// The place, for each replica, of the call that is taken next, if it is one of the replica's.
    next: Vec<AtomicUsize>,
}

impl<J: LogSetting + Ledgers + Send + Sync + 'static> Asking<J> {
    /// Makes the calls of a script, none of which was made.
    pub(crate) fn new(
        alloc: Global,
        catalogue: &Catalogue,
        replicas: u32,
        script: Vec<ScriptCall<Bytes<Global>>>,
    ) -> Result<Asking<J>, AllocError>
        requires { catalogue.now.procedures ≡ J.setting.beginning.procedures }
        ensures { IfOk result (λ asking. planned_calls asking.calls.items ≡ script.items) }
    {
        let mut calls = Vec::with_capacity(alloc, script.len())?;
        for call in script {
            let procedure = catalogue.by_name(call.name.as_slice());
            calls.push(PlannedCall {
                call,
                procedure,
                of: PhantomData,
            })?;
        }
        let mut next = Vec::with_capacity(alloc, replicas as usize)?;
        for _ in 0..replicas {
            next.push(AtomicUsize::new(0))?;
        }
        Ok(Asking { calls, next })
    }

    /// Makes the calls, by `executors` threads for each replica, and returns what each thread has made. Where
    /// `shows_progress` is true, says after each part of the calls how many were made. A part is a hundredth, but no
    /// fewer than 1,000 calls. A call may be left, where memory was wanting or there is no such replica. The error is
    /// want of memory before any call.
    pub(crate) fn ask_all<R: Threads + Wait + Sync, E: Write>(
        &self,
        rt: &R,
        alloc: Global,
        desk: &Desk<J, OpenGate>,
        executors: u32,
        faults: &mut E,
        shows_progress: bool,
    ) -> Result<Vec<Vec<MadeCall<J>>>, AllocError>
        ensures made { IfOk result (λ shares. All (λ share. All
            (IsMadeCall J.setting desk.now.replicas (planned_calls self.now.calls.items)) share.items) shares.items) }
        ensures silent { shows_progress ≡ false → faults.new ≡ faults.old }
    {
        let mut shares = self.empty_shares(alloc, executors)?;
        let count = self.calls.len();
        let part = if shows_progress {
            (count / 100).max(1_000)
        } else {
            count.max(1)
        };
        for start in (0..count).step_by(part) {
            let end = start.saturating_add(part).min(count);
            self.ask_part(rt, desk, &mut shares, start, end);
            if shows_progress && end < count {
                let _ = writeln!(faults, "dsmdb: made {end} of {count} calls");
            }
        }
        Ok(shares)
    }

    /// Makes a share for each thread, in which nothing was made.
    fn empty_shares(
        &self,
        alloc: Global,
        executors: u32,
    ) -> Result<Vec<Vec<MadeCall<J>>>, AllocError>
        ensures { IfOk result (λ shares. All (λ share. share.items ≡ []) shares.items) }
    {
        let threads = self.next.len().saturating_mul(executors as usize);
        let mut shares = Vec::with_capacity(alloc, threads)?;
        for _ in 0..threads {
            shares.push(Vec::new(alloc))?;
        }
        Ok(shares)
    }

    /// Makes the calls from `start` up to but not including `end`, by a thread for each share.
    fn ask_part<R: Threads + Wait + Sync>(
        &self,
        rt: &R,
        desk: &Desk<J, OpenGate>,
        shares: &mut [Vec<MadeCall<J>>],
        start: usize,
        end: usize,
    )
        requires { All (λ share. All
            (IsMadeCall J.setting desk.now.replicas (planned_calls self.now.calls.items)) share.items) shares.old }
        ensures { All (λ share. All
            (IsMadeCall J.setting desk.now.replicas (planned_calls self.now.calls.items)) share.items) shares.new }
    {
        for next in self.next.iter() {
            next.store(start, SeqCst);
        }
        let threads = shares.len().max(1);
        thread::for_each_mut(
            rt,
            shares,
            threads,
            &|thread: usize, share: &mut Vec<MadeCall<J>>|
                requires { All (IsMadeCall J.setting desk.now.replicas
                    (planned_calls self.now.calls.items)) share.now.items }
            { self.ask_from(rt, desk, thread, end, share) },
        );
    }

    /// Makes the calls of a thread's replica that no other thread has taken, before a place in the script. Adds the
    /// calls to the thread's share. Ends where there is no memory for one more.
    fn ask_from<R: Wait>(
        &self,
        rt: &R,
        desk: &Desk<J, OpenGate>,
        thread: usize,
        end: usize,
        share: &mut Vec<MadeCall<J>>,
    )
        requires { All (IsMadeCall J.setting desk.now.replicas (planned_calls self.now.calls.items)) share.old.items }
        ensures { All (IsMadeCall J.setting desk.now.replicas (planned_calls self.now.calls.items)) share.new.items }
    {
        let replica = thread % self.next.len().max(1);
        let Some(next) = self.next.get(replica) else {
            return;
        };
        for _ in 0..end {
            // Room comes first: a call that was made and not kept would be made again.
            if share.reserve(1).is_err() {
                break;
            }
            let place = next.fetch_add(1, SeqCst);
            if place >= end || place >= self.calls.len() {
                break;
            }
            let call = &self.calls[place];
            if call.call.replica as usize == replica.wrapping_add(1) {
                let (answer, seen) = answer_to(rt, desk, call);
                share.push_reserved(MadeCall {
                    place,
                    answer,
                    seen,
                });
            }
        }
    }

    /// Counts the calls that aren't made since no procedure has the name.
    pub(crate) fn unnamed(&self) -> u64 {
        let mut count = 0u64;
        for call in self.calls.iter() {
            if call.procedure.is_none() {
                count = count.saturating_add(1);
            }
        }
        count
    }
}
