//! The part of a node that callers share.

ghost use Rattle.std.specs.Prelude.{◌≡◌, ◌<◌, ◌≤◌, ◌↔◌, ℕ, false, true, length, Some, None, Err, IfSome, IfNone, IfOk};
ghost use Rattle.node.specs.Requests.{IsHeard, AreHeard, IsVerdictAt, IsNoReplica, AreEntriesOf, entries_of};
ghost use Rattle.std.specs.FinMap as map;
ghost use Rattle.row_scan.specs.Left.{first_rows};
ghost use Rattle.served_replicas.specs.Added.{IsAddedAnswer};
ghost use Rattle.served_replicas.specs.Scanned.{rows_seen};
ghost use Rattle.served_replicas.specs.declared.scan.ScanFault.TheVariants as scan;
ghost use Rattle.served_replicas.specs.declared.rebuild.RebuildFault.TheVariants as rebuild;
ghost use Rattle.node.specs.declared.status.WaitFault.TheVariants.{NoReplica, Stopped};

use crate::pending::PendingCalls;
use crate::status::{ReplicaStatus, WaitFault};
use crossbeam_channel::{Sender, TrySendError};
use locked_replica::{LogSetting, OrderedEntries};
use log_model::{RequestId, Verdict};
use node_calls::{Answer, Gate};
use order_log::{Fact, Seen};
use schema::Look;
use served_replicas::{Added, CallRequest, Calls, RebuildFault, ScanFault, ScannedRows, Shared};
use std::alloc::{AllocError, Global};
use std::marker::Model;
use std::slice;
use std::sync::{Arc, Wait};
use tallies::Ledgers;

/// The queue of a replica is full.
#[derive(Clone, Copy, Debug, PartialEq, Eq, Drop)]
pub struct Busy;

/// The answer, and what was seen of the log then.
pub(crate) type Answered<J> = (Answer, Option<Seen<J>>);

/// The part of a node that callers share. Contracts see the number of replicas.
#[derive(Drop)]
pub struct Desk<J: LogSetting + Ledgers, G: Gate>
where
    OrderedEntries<J>: Fact,
{
    pub(crate) shared: Arc<Shared<J, Global, Global, G>>,
    /// The channels to the executing threads, one for each replica.
    pub(crate) senders: Vec<Sender<Arc<Calls<J>>>>,
    /// The number of executing threads a replica.
    pub(crate) executors: usize,
    pub(crate) alloc: Global,
}

impl<J: LogSetting + Ledgers, G: Gate> Model for Desk<J, G>
where
    OrderedEntries<J>: Fact,
{
    ghost use Rattle.std.specs.Prelude.{◌≡◌, vec_len};
    ghost use Rattle.std.specs.Arc.{arc_value};
    ghost use Rattle.node.specs.Nodes.{NodeState};

    ghost Value = { NodeState };

    ghost view = { λ d. record { replicas = vec_len d.senders } };

    ghost invariant = { λ d. vec_len d.senders ≡ (arc_value d.shared).replicas };
}

impl<J: LogSetting + Ledgers + Send + Sync + 'static, G: Gate + Drop + Send + Sync + 'static> Desk<
    J,
    G,
> {
    /// Returns the number of replicas, which are numbered from 1.
    pub fn replicas(&self) -> usize
        ensures { result ≡ self.now.replicas }
    {
        self.senders.len()
    }

    /// Executes a call of a procedure at a replica, and returns the answer. The call sees the log at least up to the
    /// position `least`.
    pub fn execute<R: Wait>(
        &self,
        rt: &R,
        replica: u32,
        least: u32,
        procedure: u16,
        args: &[u8],
    ) -> Answered<J>
        ensures { IsHeard J.setting self.now.replicas replica
            (record { least = least; procedure = procedure; args = args.now; request = None }) result.0 result.1 }
    {
        let request = CallRequest {
            least,
            procedure,
            args,
            request: None,
        };
        self.execute_request(rt, replica, &request)
    }

    /// Like `execute`, but idempotent: at most one of the calls that share a request id commits. Each of these calls
    /// that is ordered later gets the committed call's reply.
    pub fn execute_numbered<R: Wait>(
        &self,
        rt: &R,
        replica: u32,
        least: u32,
        procedure: u16,
        args: &[u8],
        request: RequestId,
    ) -> Answered<J>
        ensures { IsHeard J.setting self.now.replicas replica
            (record {
              least = least;
              procedure = procedure;
              args = args.now;
              request = Some request;
            }) result.0 result.1 }
    {
        let request = CallRequest {
            least,
            procedure,
            args,
            request: Some(request),
        };
        self.execute_request(rt, replica, &request)
    }

    /// Executes a call at a replica as `execute` does, unless the replica's queue is full: then the call isn't executed.
    pub fn try_execute<R: Wait>(
        &self,
        rt: &R,
        replica: u32,
        request: &CallRequest<'_>,
    ) -> Result<Answered<J>, Busy>
        ensures { IfOk result (λ answered. IsHeard J.setting self.now.replicas replica request.now answered.0 answered.1) }
    {
        let calls = self.try_send(rt, replica, request)?;
        if let Some(calls) = &calls {
            calls.wait(rt);
        }
        Ok(self.answer_at(rt, calls.as_deref(), 0, replica, request))
    }

    /// Asks for calls at a replica, and returns at once. `PendingCalls::hear` waits for the answers. The calls may run at
    /// once, and in any order. Asks for none where memory for the answers is wanting.
    ///
    /// Waits only where the replica's queue is full. The queue has 256 places. Calls that are asked for together take as
    /// many places as there are calls, at most one for each executing thread.
    pub fn ask<'a, R: Wait>(
        &'a self,
        rt: &R,
        replica: u32,
        requests: &'a [CallRequest<'a>],
    ) -> Result<PendingCalls<'a, J, G>, AllocError>
        ensures replicas { IfOk result (λ pending. pending.replicas ≡ self.now.replicas) }
        ensures replica { IfOk result (λ pending. pending.replica ≡ replica) }
        ensures requests { IfOk result (λ pending. pending.requests ≡ requests.now) }
    {
        let answers = Vec::with_capacity(self.alloc, requests.len())?;
        let calls = self.send(rt, replica, requests);
        Ok(PendingCalls {
            desk: self,
            replica,
            requests,
            calls,
            answers,
        })
    }

    /// Executes calls at a replica, each as `execute` does, and returns the answers in the order of the calls. The
    /// calls may run at once, and in any order. Executes none where memory for the answers is wanting.
    pub fn execute_many<R: Wait>(
        &self,
        rt: &R,
        replica: u32,
        requests: &[CallRequest<'_>],
    ) -> Result<Vec<Answered<J>>, AllocError>
        ensures { IfOk result (λ answers. AreHeard J.setting self.now.replicas replica requests.now answers.items) }
    {
        Ok(self.ask(rt, replica, requests)?.hear(rt))
    }

    /// Executes a call at a replica, and returns the answer.
    fn execute_request<R: Wait>(
        &self,
        rt: &R,
        replica: u32,
        request: &CallRequest<'_>,
    ) -> Answered<J>
        ensures { IsHeard J.setting self.now.replicas replica request.now result.0 result.1 }
    {
        let calls = self.send(rt, replica, slice::from_ref(request));
        if let Some(calls) = &calls {
            calls.wait(rt);
        }
        self.answer_at(rt, calls.as_deref(), 0, replica, request)
    }

    /// The channel to the executing threads of the replica of a number.
    fn sender(&self, replica: u32) -> Option<&Sender<Arc<Calls<J>>>>
        ensures some { IfSome result (λ _. (1 ≤ replica) × (replica ≤ self.now.replicas)) }
        ensures none { IfNone result (IsNoReplica self.now.replicas replica) }
    {
        if replica == 0 {
            return None;
        }
        self.senders.get(replica as usize - 1)
    }

    /// Copies calls, as executing threads take them. Returns `None` where memory is wanting.
    fn copy(&self, requests: &[CallRequest<'_>]) -> Option<Arc<Calls<J>>> {
        let calls = Calls::new(self.alloc, requests).ok()?;
        Arc::new(self.alloc, calls).ok()
    }

    /// Sends calls to the executing threads of a replica: to as many threads as there are calls, so that no call waits
    /// behind another while a thread is idle. Returns `None` where there is no such replica, or memory is wanting.
    fn send<R: Wait>(
        &self,
        rt: &R,
        replica: u32,
        requests: &[CallRequest<'_>],
    ) -> Option<Arc<Calls<J>>> {
        let sender = self.sender(replica)?;
        let calls = self.copy(requests)?;
        for thread in 0..self.executors.min(requests.len()) {
            let sent = match Arc::try_clone(&calls) {
                Ok(theirs) => sender.send(rt, theirs).is_ok(),
                Err(_) => false,
            };
            if !sent && thread == 0 {
                return None;
            }
        }
        Some(calls)
    }

    /// Sends a call to an executing thread of a replica, where the queue has room. Returns `None` where there is no such
    /// replica, or memory is wanting.
    fn try_send<R: Wait>(
        &self,
        rt: &R,
        replica: u32,
        request: &CallRequest<'_>,
    ) -> Result<Option<Arc<Calls<J>>>, Busy> {
        let Some(sender) = self.sender(replica) else {
            return Ok(None);
        };
        let Some(calls) = self.copy(slice::from_ref(request)) else {
            return Ok(None);
        };
        let Ok(theirs) = Arc::try_clone(&calls) else {
            return Ok(None);
        };
        match sender.try_send(rt, theirs) {
            Ok(()) => Ok(Some(calls)),
            Err(TrySendError::Full(_)) => Err(Busy),
            Err(TrySendError::Disconnected(_) | TrySendError::OutOfMemory(_)) => Ok(None),
        }
    }

    /// Returns the answer to the call at a place of those that were sent, from 0 on. A reply that was lost, as where
    /// memory is wanting, is no memory.
    pub(crate) fn answer_at<R: Wait>(
        &self,
        rt: &R,
        calls: Option<&Calls<J>>,
        place: usize,
        replica: u32,
        request: &CallRequest<'_>,
    ) -> Answered<J>
        ensures { IsHeard J.setting self.now.replicas replica request.now result.0 result.1 }
    {
        if self.sender(replica).is_none() {
            return self.unserved(Answer::NoReplica);
        }
        let Some(calls) = calls else {
            return self.unserved(Answer::NoMemory);
        };
        match calls.answer(rt, place, replica, request) {
            Some(answered) => answered,
            None => self.unserved(Answer::NoMemory),
        }
    }

    /// Returns an answer that no executing thread gave, and counts it apart.
    fn unserved(&self, answer: Answer) -> Answered<J>
        ensures { (result.0 ≡ answer) × (result.1 ≡ None) }
    {
        self.shared.count_unserved();
        (answer, None)
    }

    /// Adds a procedure through the log, where its program is accepted for the node's tables. Where the procedure was
    /// appended, returns what was seen of the log then, with the addition as the last entry.
    pub fn add<R: Wait>(
        &self,
        rt: &R,
        name: &[u8],
        number: u16,
        args_len: u16,
        bytes: &[u8],
    ) -> (Added, Option<Seen<J>>)
        ensures { IsAddedAnswer J.setting
            (record { name = name.now; number = number; args_len = args_len; bytes = bytes.now }) result.0 result.1 }
    {
        self.shared.add(rt, name, number, args_len, bytes)
    }

    /// Makes the replica of a number anew from the log, and returns the position that the new one has then. Calls go on
    /// at the old one until then.
    pub fn rebuild<R: Wait>(&self, rt: &R, replica: u32) -> Result<u32, RebuildFault>
        ensures none { (result ≡ Err rebuild.NoReplica) ↔ IsNoReplica self.now.replicas replica }
        ensures some { IfOk result (λ _. (1 ≤ replica) × (replica ≤ self.now.replicas)) }
    {
        self.shared.rebuild(rt, replica)
    }

    /// Returns the verdict on the entry at a position, where there is such a replica and it has come there. The second
    /// value is what the replica has delivered by now.
    pub fn verdict<R: Wait>(
        &self,
        rt: &R,
        replica: u32,
        position: u32,
    ) -> Option<(Verdict, Seen<J>)>
        ensures some { IfSome result (λ _. (1 ≤ replica) × (replica ≤ self.now.replicas) × (1 ≤ position)) }
        ensures verdict { IfSome result (λ found. IsVerdictAt J.setting position found.0 found.1) }
    {
        let locked = self.shared.locked(replica)?.read(rt);
        if position == 0 || position > locked.position() {
            return None;
        }
        locked.keeps_what_was_delivered();
        Some((locked.verdict_at(position), locked.seen()))
    }

    /// Waits until the replica of a number has come to a position, and returns what was delivered there by then. Whoever
    /// was `Behind` may wait, and ask again. Waits for ever where nothing is ordered at the position.
    pub fn wait<R: Wait>(&self, rt: &R, replica: u32, position: u32) -> Result<Seen<J>, WaitFault>
        ensures reached { IfOk result (λ seen. position ≤ length seen) }
        ensures entries { IfOk result (λ seen. AreEntriesOf J.setting (entries_of seen)) }
        ensures none { (result ≡ Err NoReplica) ↔ IsNoReplica self.now.replicas replica }
        ensures stopped { (at : ℕ) → result ≡ Err (Stopped at) → at < position }
    {
        let Some(served) = self.shared.served(replica) else {
            return Err(WaitFault::NoReplica);
        };
        match served.wait(rt, position) {
            Ok(seen) => Ok(seen),
            Err(position) => Err(WaitFault::Stopped(position)),
        }
    }

    /// Returns how far the replica of a number has come, and whether it has stopped, where there is such a replica.
    pub fn status<R: Wait>(&self, rt: &R, replica: u32) -> Option<ReplicaStatus<J>>
        ensures some { IfSome result (λ _. (1 ≤ replica) × (replica ≤ self.now.replicas)) }
        ensures none { IfNone result (IsNoReplica self.now.replicas replica) }
        ensures entries { IfSome result (λ status. AreEntriesOf J.setting (entries_of status.seen)) }
    {
        let locked = self.shared.locked(replica)?.read(rt);
        locked.keeps_what_was_delivered();
        Some(ReplicaStatus {
            position: locked.position(),
            stopped: locked.stopped(),
            seen: locked.seen(),
        })
    }

    /// Returns the rows that a look covers at one position, where the replica of a number is when the scan begins: the
    /// first `most`, or all where there are fewer. The replica's lock is held for 256 rows at a time.
    pub fn scan<R: Wait>(
        &self,
        rt: &R,
        replica: u32,
        look: Look,
        most: u32,
    ) -> Result<ScannedRows<J>, ScanFault>
        ensures rows { IfOk result (λ scanned. scanned.rows.items ≡ first_rows most look (rows_seen J.setting scanned.seen)) }
        ensures entries { IfOk result (λ scanned. AreEntriesOf J.setting (entries_of scanned.seen)) }
        ensures replica { (result ≡ Err scan.NoReplica) ↔ IsNoReplica self.now.replicas replica }
        ensures table { result ≡ Err scan.NoTable → map.contains_key J.setting.tables look.table ≡ false }
        ensures known { IfOk result (λ _. map.contains_key J.setting.tables look.table ≡ true) }
    {
        self.shared.scan(rt, replica, look, most)
    }
}
