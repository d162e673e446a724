//! An executing thread answers calls.

ghost use Rattle.std.specs.Prelude.{◌≡◌, ◌≤◌, false, length};
ghost use Rattle.log_model.specs.OpenRequest.{has_zero};
ghost use Rattle.log_model.specs.Fit.{IsCall};
ghost use Rattle.replica.specs.Replica.{entries_of};
ghost use Rattle.locked_replica.specs.Ordered.{IsOrderedCall};
ghost use Rattle.node_calls.specs.Running.{log_seen};
ghost use Rattle.world_calls.specs.OpenCall.{IsCompletion};
ghost use Rattle.node_calls.specs.Answer.{IsAnswer, IsBegunAfter, asked_call};

use crate::answer::Answer;
use crate::asked::Asked;
use crate::bells::{Bells, Waiter};
use crate::gate::Gate;
use crate::node_catalogue::NodeCatalogue;
use crate::run::{Ran, run};
use crate::served::ServedReplica;
use locked_replica::{Begin, BegunCall, LogSetting, OrderedEntries};
use log_entry::ExecutedCall;
use order_log::{AppendFault, Fact, OrderLog, Seen};
use std::alloc::Allocator;
use std::sync::Wait;
use world_calls::Completion;

/// The parts with which an executing thread answers calls, and where the thread waits.
#[derive(Drop)]
pub struct Executor<'a, J: LogSetting, A: Allocator + Copy, P: Allocator + Copy, G: Gate>
where
    OrderedEntries<J>: Fact,
{
    /// The allocator for what calls take.
    pub alloc: P,
    pub log: &'a OrderLog<J, OrderedEntries<J>, P>,
    pub catalogue: &'a NodeCatalogue<J, P>,
    pub served: &'a ServedReplica<J, A, P>,
    pub gate: &'a G,
    pub waiter: &'a Waiter,
    /// The bells of the delivering threads.
    pub bells: &'a Bells<P>,
    /// The place of the replica's own bell, counted from 0.
    pub bell: usize,
}

impl<'a, J: LogSetting, A: Allocator + Copy, P: Allocator + Copy, G: Gate> Executor<
    'a,
    J,
    A,
    P,
    G,
> {
    /// Answers a call, and returns what was seen of the log then. The call runs at the replica, is ordered where it
    /// wrote something and didn't cancel, and waits for its verdict.
    pub fn answer<R: Wait>(&self, rt: &R, asked: &Asked<P>) -> (Answer, Option<Seen<J, P>>)
        ensures { IsAnswer J.setting asked.now result.0 result.1 }
    {
        let begin = self.served.replica.read(rt).begin(
            asked.least,
            asked.procedure,
            asked.args.as_slice(),
            asked.request,
        );
        let Ok(begin) = begin else {
            return (Answer::NoMemory, None);
        };
        match begin {
            Begin::Behind => (Answer::Behind, None),
            Begin::Refused(refusal, seen) => (Answer::Refused(refusal), Some(seen)),
            Begin::Begun(begun) => self.answer_begun(rt, asked, begun),
        }
    }

    /// Answers a call that has begun.
    fn answer_begun<R: Wait>(
        &self,
        rt: &R,
        asked: &Asked<P>,
        begun: BegunCall<J, P>,
    ) -> (Answer, Option<Seen<J, P>>)
        requires args { length asked.now.args ≡ begun.accepted.args_len }
        requires procedure { begun.procedure ≡ asked.now.procedure }
        requires least { asked.now.least ≤ length begun.entries }
        requires whole { has_zero asked.now.request ≡ false }
        ensures { IsAnswer J.setting asked.now result.0 result.1 }
    {
        begun.is_of_the_log();
        let ran = run(
            rt,
            self.alloc,
            &self.served.replica,
            self.gate,
            self.waiter,
            begun,
            asked.args.as_slice(),
            asked.request,
        );
        match ran {
            Ran::NoMemory => (Answer::NoMemory, None),
            Ran::Stale(seen) => (Answer::Stale, Some(seen)),
            Ran::Ended(completion, seen) => self.answer_ended(rt, asked, completion, seen),
        }
    }

    /// Answers a call that has come to its end.
    fn answer_ended<R: Wait>(
        &self,
        rt: &R,
        asked: &Asked<P>,
        completion: Completion<P>,
        seen: Seen<J, P>,
    ) -> (Answer, Option<Seen<J, P>>)
        requires begun { IsBegunAfter J.setting asked.now seen }
        requires is_call { IsCall J.setting (log_seen seen) (asked_call asked.now (length seen)) }
        requires completion { IsCompletion J.setting (log_seen seen) (asked_call asked.now (length seen)) completion }
        requires whole { has_zero asked.now.request ≡ false }
        ensures { IsAnswer J.setting asked.now result.0 result.1 }
    {
        match completion {
            Completion::Cancelled { snapshot, code } => {
                (Answer::Cancelled { snapshot, code }, Some(seen))
            }
            Completion::Read { snapshot, reply } => (Answer::Read { snapshot, reply }, Some(seen)),
            Completion::Wrote(entry) => self.answer_ordered(rt, asked, entry, seen),
        }
    }

    /// Answers a call that is to be ordered.
    fn answer_ordered<R: Wait>(
        &self,
        rt: &R,
        asked: &Asked<P>,
        entry: ExecutedCall<P>,
        seen: Seen<J, P>,
    ) -> (Answer, Option<Seen<J, P>>)
        requires call { entry.call ≡ asked_call asked.now (length seen) }
        requires least { asked.now.least ≤ length seen }
        requires ordered { IsOrderedCall J.setting (entries_of seen) entry }
        requires whole { has_zero asked.now.request ≡ false }
        ensures { IsAnswer J.setting asked.now result.0 result.1 }
    {
        let mut seen = seen;
        let reply = reply_of(&entry);
        match self.order(&mut seen, entry) {
            Ok(position) => {
                let found = self.await_verdict(rt, &seen);
                let answer = self.answer_by(asked, &seen, position, reply, found);
                (answer, Some(seen))
            }
            Err(AppendFault::Full) => (Answer::Full, None),
            Err(AppendFault::NoMemory) => (Answer::NoMemory, None),
            Err(AppendFault::SnapshotUnseen) => unreachable!(),
        }
    }
}

/// The reply that an entry carries.
fn reply_of<P: Allocator + Copy>(entry: &ExecutedCall<P>) -> u64
    ensures { result ≡ entry.now.reply }
{
    entry.reply
}
