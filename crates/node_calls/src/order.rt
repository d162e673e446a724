//! A call is ordered, and its verdict awaited.

ghost use Rattle.std.specs.Prelude.{◌≡◌, ◌≢◌, ◌-◌, ◌≤◌, length, slice_get, IfOk, Some, Err};
ghost use Rattle.log_model.specs.Log.{Call, CallItem};
ghost use Rattle.order_log.specs.declared.fault.AppendFault.TheVariants.{SnapshotUnseen};
ghost use Rattle.replica.specs.Replica.{entries_of};
ghost use Rattle.locked_replica.specs.Ordered.{IsOrderedCall};
ghost use Rattle.node_calls.specs.Running.{log_seen};
ghost use Rattle.node_calls.specs.Answer.{IsAppended, IsOrderedAt, IsReplyAt, IsReplyTo, IsVerdict, IsAnswer, IsFinal, WasDoneAt};

use crate::answer::Answer;
use crate::asked::Asked;
use crate::executor::Executor;
use crate::gate::Gate;
use crate::looking::{LOOKS, pause};
use crate::node_catalogue::NodeCatalogue;
use locked_replica::{Found, LogSetting, OrderedEntries};
use log_entry::{Entry, ExecutedCall};
use log_model::{RequestId, Verdict, verdicts_in_words_of_the_log};
use order_log::{AppendFault, Fact, OrderLog, Seen};
use replica::replicas_follow_the_log;
use std::alloc::Allocator;
use std::sync::Wait;

impl<'a, J: LogSetting, A: Allocator + Copy, P: Allocator + Copy, G: Gate> Executor<
    'a,
    J,
    A,
    P,
    G,
> {
    /// Orders the entry of a call that has seen everything in `seen`, and wakes the delivering threads of the other
    /// replicas.
    pub(crate) fn order(
        &self,
        seen: &mut Seen<J, P>,
        entry: ExecutedCall<P>,
    ) -> Result<u32, AppendFault>
        requires snapshot { entry.call.snapshot ≡ length seen.old }
        requires ordered { IsOrderedCall J.setting (entries_of seen.old) entry }
        ensures appended { IfOk result (λ position. IsAppended J.setting entry position seen.new) }
        ensures whole { result ≢ Err SnapshotUnseen }
    {
        let appended = self.log.append(seen, Entry::Call(entry));
        if appended.is_ok() {
            self.bells.ring_others(self.bell);
        }
        appended
    }

    /// Returns what became of the last entry that was seen, when the replica has delivered the entry or has stopped
    /// before it. The thread delivers where nobody else has the replica's lock, and sleeps behind another who does.
    pub(crate) fn await_verdict<R: Wait>(&self, rt: &R, seen: &Seen<J, P>) -> Found
        requires { 1 ≤ length seen.now }
        ensures { IsFinal J.setting seen.now result }
    {
        for look in 0..LOOKS {
            if let Some(found) = self.served.look_for(rt, self.log, seen) {
                return found;
            }
            pause(look);
        }
        self.bells.ring_at(self.bell);
        self.sleep_until_delivered(rt, seen)
    }

    /// Waits until the replica has delivered the last entry that was seen, or has stopped before it.
    fn sleep_until_delivered<R: Wait>(&self, rt: &R, seen: &Seen<J, P>) -> Found
        requires { 1 ≤ length seen.now }
        ensures { IsFinal J.setting seen.now result }
    {
        self.waiter.announce(seen.len());
        for _ in rt.forever() {
            let key = self.waiter.prepare();
            let found = self.served.replica.read(rt).find(seen);
            if found != Found::NotYet {
                self.waiter.announce(0);
                return found;
            }
            key.wait(rt);
        }
        unreachable!()
    }
}

/// The reply of the call at a position that was seen.
fn reply_at<J: LogSetting, P: Allocator + Copy>(
    log: &OrderLog<J, OrderedEntries<J>, P>,
    seen: &Seen<J, P>,
    position: u32,
) -> u64
    requires from { 1 ≤ position }
    requires to { position ≤ length seen.now }
    requires call { (call : Call) × (slice_get (log_seen seen.now) (position - 1) ≡ Some (CallItem call)) }
    ensures { IsReplyAt seen.now position result }
{
    match log.entry(seen, position) {
        Entry::Call(call) => call.reply,
        Entry::Addition(_) => unreachable!(),
    }
}

/// The reply of a request that was done at a position that was seen, or before the log.
fn reply_to<J: LogSetting, P: Allocator + Copy>(
    log: &OrderLog<J, OrderedEntries<J>, P>,
    catalogue: &NodeCatalogue<J, P>,
    seen: &Seen<J, P>,
    request: Option<RequestId>,
    position: u32,
) -> u64
    requires { WasDoneAt J.setting seen.now request position }
    ensures { IsReplyTo J.setting seen.now request position result }
{
    if position > 0 {
        return reply_at(log, seen, position);
    }
    let Some(reply) = catalogue.reply(request) else {
        unreachable!()
    };
    reply
}

impl<'a, J: LogSetting, A: Allocator + Copy, P: Allocator + Copy, G: Gate> Executor<
    'a,
    J,
    A,
    P,
    G,
> {
    /// The answer to a call that was ordered and seen last, by its verdict.
    fn answer_of(
        &self,
        asked: &Asked<P>,
        seen: &Seen<J, P>,
        position: u32,
        reply: u64,
        verdict: Verdict,
    ) -> Answer
        requires ordered { (o : IsOrderedAt J.setting asked.now position seen.now) × (reply ≡ o.entry.reply) }
        requires known { IsVerdict J.setting (length seen.now) seen.now verdict }
        ensures { IsAnswer J.setting asked.now result (Some seen.now) }
    {
        // Laws:
        verdicts_in_words_of_the_log();
        replicas_follow_the_log();
        match verdict {
            Verdict::Commit => Answer::Committed { position, reply },
            Verdict::Conflict(other) => Answer::Conflict { position, other },
            Verdict::Stale => Answer::Stale,
            Verdict::Repeated(earlier) => Answer::Repeated {
                position,
                earlier,
                reply: reply_to(self.log, self.catalogue, seen, asked.request, earlier),
            },
            Verdict::Taken(_) => unreachable!(),
        }
    }

    /// The answer to a call that was ordered and seen last, by what its replica says of it.
    pub(crate) fn answer_by(
        &self,
        asked: &Asked<P>,
        seen: &Seen<J, P>,
        position: u32,
        reply: u64,
        found: Found,
    ) -> Answer
        requires ordered { (o : IsOrderedAt J.setting asked.now position seen.now) × (reply ≡ o.entry.reply) }
        requires known { IsFinal J.setting seen.now found }
        ensures { IsAnswer J.setting asked.now result (Some seen.now) }
    {
        match found {
            Found::Verdict(verdict) => self.answer_of(asked, seen, position, reply, verdict),
            Found::Stopped => Answer::Stopped { position },
            Found::NotYet => unreachable!(),
        }
    }
}
