//! An executing thread.

ghost use Rattle.std.specs.Prelude.{◌≡◌, ℕ, ◌+◌, ◌≤◌};
ghost use Rattle.tallies.specs.declared.ledgers.TheConstants.{GRANT};
ghost use Rattle.tallies.specs.Counted.{AreBelow, no_counts, one_more};
ghost use Rattle.served_replicas.specs.Kinds.{kind_of};

use crate::calls::{Calls, TakenCall};
use crate::kind::kind_of;
use crate::reply::Reply;
use crate::shared::Shared;
use crossbeam_channel::Receiver;
use locked_replica::LogSetting;
use node_calls::{Asked, Executor, Gate, LOOKS, pause};
use std::alloc::Allocator;
use std::sync::{Arc, Wait};
use tallies::{FreshTally, GRANT, Ledgers, Tally};

/// Answers a call, and makes the reply of the answer, which is counted by its kind.
fn reply_to<J: LogSetting + Ledgers, A: Allocator + Copy, P: Allocator + Copy, G: Gate, R: Wait>(
    rt: &R,
    executor: &Executor<'_, J, A, P, G>,
    replica: u32,
    asked: Asked<P>,
    tally: &mut Tally<J>,
) -> Reply<J, P>
    requires threads { 1 ≤ tally.old.threads }
    requires room { AreBelow GRANT tally.old.counts }
    ensures replica { result.replica ≡ replica }
    ensures asked { result.asked ≡ asked }
    ensures counted { tally.new.counts ≡ one_more (kind_of result.answer) tally.old.counts }
    ensures below { (bound : ℕ) → AreBelow bound tally.old.counts → AreBelow (bound + 1) tally.new.counts }
    ensures threads { tally.new.threads ≡ tally.old.threads }
{
    let (answer, seen) = executor.answer(rt, &asked);
    let part = tally.count(kind_of(answer));
    Reply::new(replica, asked, answer, seen, part)
}

/// Receives the next calls. Looks for them some times before it sleeps. Returns `None` where no caller is left.
fn receive<J: LogSetting + Ledgers, P: Allocator + Copy, R: Wait>(
    rt: &R,
    asked: &Receiver<Arc<Calls<J, P>, P>, P>,
) -> Option<Arc<Calls<J, P>, P>> {
    for look in 0..LOOKS {
        if let Ok(calls) = asked.try_recv(rt) {
            return Some(calls);
        }
        pause(look);
    }
    asked.recv(rt).ok()
}

/// Takes a call that no thread has taken: of the calls where the thread is, or of the next that come. Returns `None`
/// where no caller is left.
fn next_call<J: LogSetting + Ledgers, P: Allocator + Copy, R: Wait>(
    rt: &R,
    asked: &Receiver<Arc<Calls<J, P>, P>, P>,
    calls: &mut Option<Arc<Calls<J, P>, P>>,
) -> Option<TakenCall<P>> {
    for _ in rt.forever() {
        if let Some(calls) = calls {
            if let Some(taken) = calls.take(rt) {
                return Some(taken);
            }
        }
        *calls = Some(receive(rt, asked)?);
    }
    unreachable!()
}

/// Answers calls at a replica until no caller is left, and counts the answers.
fn answer_all<J: LogSetting + Ledgers, A: Allocator + Copy, P: Allocator + Copy, G: Gate, R: Wait>(
    rt: &R,
    executor: &Executor<'_, J, A, P, G>,
    replica: u32,
    asked: &Receiver<Arc<Calls<J, P>, P>, P>,
    tally: &mut Tally<J>,
)
    requires threads { 1 ≤ tally.old.threads }
    requires nothing { tally.old.counts ≡ no_counts }
    ensures { tally.new.threads ≡ tally.old.threads }
{
    let mut calls = None;
    for _answer in 0..GRANT - 1 {
        let Some(taken) = next_call(rt, asked, &mut calls) else {
            break;
        };
        let TakenCall { asked, place } = taken;
        let reply = reply_to(rt, executor, replica, asked, tally);
        if let Some(calls) = &calls {
            calls.reply(rt, place, reply);
        }
    }
}

/// Runs an executing thread of a replica. The thread goes by its place from 0 on, the replica by its number from 1 on.
/// The thread answers calls until no caller is left, and counts each answer that it gives: no reply can be made without
/// a part of the tally. Returns the tally.
pub fn serve<J: LogSetting + Ledgers, A: Allocator + Copy, P: Allocator + Copy, G: Gate, R: Wait>(
    rt: &R,
    shared: &Shared<J, A, P, G>,
    replica: u32,
    thread: usize,
    asked: &Receiver<Arc<Calls<J, P>, P>, P>,
    fresh: FreshTally<J>,
) -> Tally<J>
    ensures { result.threads ≡ 1 }
{
    let mut tally = fresh.begin();
    let Some(served) = shared.replica(replica) else {
        return tally;
    };
    let Some(waiter) = served.served.waiters.get(thread) else {
        return tally;
    };
    let executor = Executor {
        alloc: shared.alloc,
        log: &shared.log,
        catalogue: &shared.catalogue,
        served: &served.served,
        gate: &shared.gate,
        waiter,
        bells: &shared.bells,
        bell: replica.saturating_sub(1) as usize,
    };
    answer_all(rt, &executor, replica, asked, &mut tally);
    tally
}
