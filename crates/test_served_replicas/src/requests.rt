//! Calls that are asked for, and their answers.

use crate::asked::{Heard, Mismatch, Question};
use crate::cases::Case;
use crossbeam_channel::Sender;
use locked_replica::LogSetting;
use node_calls::{Answer, OpenGate};
use order_log::Seen;
use scarce::Scarce;
use schema::MAX_LOG;
use served_replicas::{CallRequest, Calls, Shared};
use std::alloc::Allocator;
use std::sync::{Arc, Wait};
use tallies::Ledgers;

/// The most questions.
const MOST: usize = 10_000;

/// Row 5, and the 10 that is added to it.
static ARGS: [u8; 16] = [5, 0, 0, 0, 0, 0, 0, 0, 10, 0, 0, 0, 0, 0, 0, 0];

/// The memory of both replicas, which may be refused.
pub type Memories<'a> = (&'a Scarce, &'a Scarce);

/// The channel to the threads that serve a replica.
pub type ToReplica<J, P> = Sender<Arc<Calls<J, P>, P>, P>;

/// Sends an addition to a replica, and waits for its answer. Returns `None` where the answer isn't one to that.
fn answer_from<J: LogSetting + Ledgers, P: Allocator + Copy, R: Wait>(
    rt: &R,
    sender: &ToReplica<J, P>,
    calls: Arc<Calls<J, P>, P>,
    replica: u32,
    request: &CallRequest<'_>,
) -> Option<Answer> {
    let theirs = Arc::try_clone(&calls).ok()?;
    sender.send(rt, theirs).ok()?;
    calls.wait(rt);
    let (answer, _) = calls.answer(rt, 0, replica, request)?;
    Some(answer)
}

/// Returns what is heard of an addition at a replica, while a growth of this memory is refused.
fn add_at<J: LogSetting + Ledgers, P: Allocator + Copy, R: Wait>(
    rt: &R,
    alloc: P,
    sender: &ToReplica<J, P>,
    memory: &Scarce,
    replica: u32,
    least: u32,
    growth: u64,
) -> Heard {
    let requests = [CallRequest {
        least,
        procedure: 1,
        args: &ARGS,
        request: None,
    }];
    let Ok(calls) = Calls::new(alloc, &requests) else {
        return Heard::NotAsked;
    };
    let Ok(calls) = Arc::new(alloc, calls) else {
        return Heard::NotAsked;
    };
    memory.refuse_nth(growth);
    let answer = answer_from(rt, sender, calls, replica, &requests[0]);
    memory.refuse_nth(0);
    match answer {
        None => Heard::NoAnswer,
        Some(answer) => Heard::Answer(answer),
    }
}

/// Sees all entries that the log shows.
fn see_all<J: LogSetting + Ledgers, A: Allocator + Copy, P: Allocator + Copy>(
    shared: &Shared<J, A, P, OpenGate>,
    seen: &mut Seen<J, P>,
) {
    for _ in 0..MAX_LOG {
        if shared.log().get(seen).is_none() {
            return;
        }
    }
}

/// Returns the number of entries that the log shows.
fn length_of<J: LogSetting + Ledgers, A: Allocator + Copy, P: Allocator + Copy>(
    shared: &Shared<J, A, P, OpenGate>,
) -> u32 {
    let mut seen = shared.log().seen();
    see_all(shared, &mut seen);
    seen.len()
}

/// Returns what is heard of a question.
fn heard<J: LogSetting + Ledgers, A: Allocator + Copy, P: Allocator + Copy, R: Wait>(
    rt: &R,
    alloc: P,
    shared: &Shared<J, A, P, OpenGate>,
    memories: Memories<'_>,
    senders: &[ToReplica<J, P>; 2],
    question: Question,
) -> Heard {
    let [to_first, to_second] = senders;
    let (first, second) = memories;
    match question {
        Question::Add {
            second: false,
            least,
            growth,
        } => add_at(rt, alloc, to_first, first, 1, least, growth),
        Question::Add { least, growth, .. } => {
            add_at(rt, alloc, to_second, first, 2, least, growth)
        }
        Question::Rebuild { replica } => Heard::Rebuilt(shared.rebuild(rt, replica)),
        Question::Length => Heard::Length(length_of(shared)),
        Question::Refusals => Heard::Refusals(first.refused()),
        Question::Allow => {
            second.refuse_all(false);
            Heard::Allowed
        }
    }
}

/// Asks two replicas all that a case asks. Returns the first answer that may not be heard,
/// and none where all may.
pub fn ask_all<J: LogSetting + Ledgers, A: Allocator + Copy, P: Allocator + Copy, R: Wait>(
    rt: &R,
    alloc: P,
    shared: &Shared<J, A, P, OpenGate>,
    memories: Memories<'_>,
    senders: &[ToReplica<J, P>; 2],
    case: &mut Case,
) -> Option<Mismatch> {
    for index in 0..MOST {
        let question = case.next()?;
        let heard = heard(rt, alloc, shared, memories, senders, question);
        if !case.hear(heard) {
            let heard = Some(heard);
            return Some(Mismatch { index, heard });
        }
    }
    Some(Mismatch {
        index: MOST,
        heard: None,
    })
}
