//! The answers to all calls of a script, and the longest beginning of the log that was seen.

ghost use Rattle.std.specs.Prelude.{◌≡◌, ℕ, ◌<◌, List, All, IfOk, IfSome, Some, length, slice_get, vec_len};
ghost use mathlib.Core.List.{IsPrefix};
ghost use Rattle.log_model.specs.Log.{Setting};
ghost use Rattle.node.specs.Requests.{AreEntriesOf, entries_of};
ghost use Rattle.script_run.specs.declared.call.ScriptCall.{ScriptCall};
ghost use Rattle.script_run.specs.Answered.{AreFoundOf, AreToldOf, IsEndOf, IsMadeCall, IsToldOf};
ghost use Rattle.script_run.specs.Planned.{planned_calls};

use crate::asking::{Asking, MadeCall};
use crate::text::ReplicaEnd;
use crate::told::answer_to;
use locked_replica::LogSetting;
use node::{Desk, EndedReplica};
use node_calls::{Answer, OpenGate};
use order_log::Seen;
use std::alloc::{AllocError, Global};
use std::sync::Wait;
use tallies::Ledgers;

/// Takes the longer of two beginnings of one log: both begin it.
fn extend<J: LogSetting>(log: &mut Seen<J>, seen: &Seen<J>)
    ensures log { IsPrefix log.old log.new }
    ensures seen { IsPrefix seen.now log.new }
{
    if log.len() < seen.len() {
        log.agrees(seen);
        *log = seen.again();
    } else {
        seen.agrees(log);
    }
}

/// Takes the longer beginning where one was seen.
fn extend_by<J: LogSetting>(log: &mut Seen<J>, seen: &Option<Seen<J>>)
    ensures log { IsPrefix log.old log.new }
    ensures seen { IfSome seen.now (λ entries. IsPrefix entries log.new) }
{
    if let Some(seen) = seen {
        extend(log, seen);
    }
}

/// The answers to calls, each at its place in the script, and the longest beginning of the log that was seen.
#[derive(Drop)]
struct Found<J: LogSetting> {
    answers: Vec<Option<Answer>>,
    log: Seen<J>,
}

impl<J: LogSetting> Found<J> {
    /// Makes the state in which none of `count` calls was answered.
    fn new(alloc: Global, count: usize) -> Result<Found<J>, AllocError>
        ensures len { IfOk result (λ found. vec_len found.answers ≡ count) }
        ensures none { IfOk result (λ found. (w : Setting) (replicas : ℕ) (calls : List (ScriptCall (List ℕ)))
            → AreFoundOf w replicas found.log calls found.answers.items) }
    {
        let mut answers = Vec::with_capacity(alloc, count)?;
        for place in 0..count {
            answers.push(None)?;
        }
        Ok(Found {
            answers,
            log: Seen::new(),
        })
    }

    /// Puts a call's answer at the call's place.
    fn put(&mut self, made: &MadeCall<J>)
        ensures found { (replicas : ℕ) (calls : List (ScriptCall (List ℕ)))
            → AreFoundOf J.setting replicas self.old.log calls self.old.answers.items
            → IsMadeCall J.setting replicas calls made.now
            → AreFoundOf J.setting replicas self.new.log calls self.new.answers.items }
        ensures len { vec_len self.new.answers ≡ vec_len self.old.answers }
    {
        extend_by(&mut self.log, &made.seen);
        if made.place < self.answers.len() {
            self.answers[made.place] = Some(made.answer);
        }
    }

    /// Puts the answers to the calls of a share at their places.
    fn put_share(&mut self, share: &Vec<MadeCall<J>>)
        ensures found { (replicas : ℕ) (calls : List (ScriptCall (List ℕ)))
            → AreFoundOf J.setting replicas self.old.log calls self.old.answers.items
            → All (IsMadeCall J.setting replicas calls) share.now.items
            → AreFoundOf J.setting replicas self.new.log calls self.new.answers.items }
        ensures len { vec_len self.new.answers ≡ vec_len self.old.answers }
    {
        for made in share {
            self.put(made);
        }
    }
}

impl<J: LogSetting + Ledgers + Send + Sync + 'static> Found<J> {
    /// Returns the answer to the call at a place. The call is made now where it wasn't made.
    fn answer<R: Wait>(
        &mut self,
        rt: &R,
        desk: &Desk<J, OpenGate>,
        asking: &Asking<J>,
        place: usize,
    ) -> Answer
        requires place { place < vec_len asking.now.calls }
        requires len { vec_len self.old.answers ≡ vec_len asking.now.calls }
        requires found { AreFoundOf J.setting desk.now.replicas self.old.log
            (planned_calls asking.now.calls.items) self.old.answers.items }
        ensures told { (call : ScriptCall (List ℕ))
            → slice_get (planned_calls asking.now.calls.items) place ≡ Some call
            → IsToldOf J.setting desk.now.replicas self.new.log call result }
        ensures log { IsPrefix self.old.log self.new.log }
        ensures same { self.new.answers ≡ self.old.answers }
    {
        match self.answers[place] {
            Some(answer) => answer,
            None => {
                let (answer, seen) = answer_to(rt, desk, &asking.calls[place]);
                extend_by(&mut self.log, &seen);
                answer
            }
        }
    }
}

/// Returns the answer to each call, in the order of the script, and the longest beginning of the log that a caller had
/// seen. A call that no thread has made is made here. The error is want of memory.
pub(crate) fn answers_of<J: LogSetting + Ledgers + Send + Sync + 'static, R: Wait>(
    rt: &R,
    alloc: Global,
    desk: &Desk<J, OpenGate>,
    asking: &Asking<J>,
    shares: Vec<Vec<MadeCall<J>>>,
) -> Result<(Vec<Answer>, Seen<J>), AllocError>
    requires { All (λ share. All
        (IsMadeCall J.setting desk.now.replicas (planned_calls asking.now.calls.items)) share.items) shares.items }
    ensures len { IfOk result (λ r. vec_len r.0 ≡ vec_len asking.now.calls) }
    ensures told { IfOk result (λ r. AreToldOf J.setting desk.now.replicas r.1
        (planned_calls asking.now.calls.items) r.0.items) }
{
    let count = asking.calls.len();
    let mut answers = Vec::with_capacity(alloc, count)?;
    let mut found = Found::new(alloc, count)?;
    for share in &shares {
        found.put_share(share);
    }
    for place in 0..count {
        answers.push(found.answer(rt, desk, asking, place))?;
    }
    Ok((answers, found.log))
}

/// Returns the ends of the replicas, each with a beginning of the log, which may be longer than what callers had seen.
pub(crate) fn ends_of<J: LogSetting>(
    alloc: Global,
    log: &mut Seen<J>,
    replicas: &[EndedReplica<J>],
) -> Result<Vec<ReplicaEnd>, AllocError>
    requires { All (λ e. AreEntriesOf J.setting (entries_of e.seen)) replicas.now }
    ensures len { IfOk result (λ ends. vec_len ends ≡ length replicas.now) }
    ensures log { IsPrefix log.old log.new }
    ensures ends { IfOk result (λ ends. All (IsEndOf J.setting log.new) ends.items) }
{
    let mut ends = Vec::with_capacity(alloc, replicas.len())?;
    for replica in replicas {
        extend(log, &replica.seen);
        ends.push(ReplicaEnd {
            position: replica.position,
            commits: replica.commits,
            is_stopped: replica.stopped,
        })?;
    }
    Ok(ends)
}
