//! A call runs on: one instruction further, or to its end.

ghost use Rattle.std.specs.Prelude.{◌≡◌, ◌≢◌, ◌<◌, ℕ, true};
ghost use Rattle.bpf_code.specs.Program.{max_slots};
ghost use Rattle.bpf_vm.specs.declared.turn.Turn.TheVariants as answer;
ghost use Rattle.log_model.specs.Log.{Setting, Log};
ghost use Rattle.world_calls.specs.OpenCall.{CanGoOn, AreTurns, open_call_of, stays_open};
ghost use Rattle.dsm_model.specs.declared.outcome.Outcome.TheVariants.{More};
ghost use Rattle.dsm_model.specs.World.{Turn as TurnStep, IsStep};
ghost use Rattle.dsm_world.specs.declared.turn.TurnCount.TheVariants.{One, ToTheEnd};
ghost use Rattle.dsm_world.specs.System.{setting_of, world_of};
ghost use Rattle.dsm_world.specs.Execution.{IsExecution};
ghost use Rattle.dsm_world.specs.Turned.{outcome_of};

use crate::calls::{put_call, take_call};
use crate::world::World;
use bpf_verify::Accepted;
use bpf_vm::Turn;
use dsm_model::{Outcome, StepRefusal, steps_keep_a_world};
use log_model::{a_log_only_grows, entries_suffice, procedures_are_never_lost};
use replica::replicas_follow_the_log;
use std::alloc::Allocator;
use txn_view::Store;
use world_calls::{OpenCall, stays_open};

/// The number of turns that a call has in one go.
#[derive(Clone, Copy)]
pub(crate) enum TurnCount {
    One,
    /// Turns up to the first that doesn't answer that there is more.
    ToTheEnd,
}

impl<A: Allocator + Copy> World<A> {
    /// Runs a call one instruction further.
    pub(crate) fn turn(&mut self, call: u32) -> Outcome
        ensures step { IsStep (setting_of self.old) (world_of self.old) (TurnStep call) result (world_of self.new) }
        ensures setting { setting_of self.new ≡ setting_of self.old }
    {
        self.run_on(call, TurnCount::One)
    }

    /// Runs a call to its end in one go: its turns that answer that there is more, and one that doesn't, whose answer
    /// is returned. These turns are at most as many as the slots that a program may have.
    pub fn exec(&mut self, call: u32) -> Outcome
        ensures turns { (before : ℕ) × (before < max_slots)
            × IsExecution (setting_of self.old) (world_of self.old) call before result (world_of self.new) }
        ensures ends { result ≢ More }
        ensures setting { setting_of self.new ≡ setting_of self.old }
    {
        self.run_on(call, TurnCount::ToTheEnd)
    }

    /// Takes turns of a call, and answers what the last of them answers.
    fn run_on(&mut self, call: u32, count: TurnCount) -> Outcome
        ensures turns { (before : ℕ) × (before < max_slots) × (count ≡ One → before ≡ 0)
            × IsExecution (setting_of self.old) (world_of self.old) call before result (world_of self.new) }
        ensures ends { count ≡ ToTheEnd → result ≢ More }
        ensures setting { setting_of self.new ≡ setting_of self.old }
    {
        // Laws:
        a_log_only_grows();
        entries_suffice();
        procedures_are_never_lost();
        replicas_follow_the_log();
        steps_keep_a_world();
        let Some((at, mut open_call)) = take_call(&mut self.calls, call) else {
            return Outcome::Refused(StepRefusal::NoCall);
        };
        let replica = &self.replicas[open_call.replica as usize - 1];
        let Some(accepted) = replica.procedures().by_number(open_call.procedure) else {
            unreachable!()
        };
        let store = replica.at(open_call.snapshot);
        let answer = take_turns(&mut *open_call, self.alloc, accepted, store, count);
        if !stays_open(answer) {
            return outcome_of(answer);
        }
        put_call(&mut self.calls, at, open_call);
        outcome_of(answer)
    }
}

/// Takes turns of an open call, and answers what the last of them answers.
fn take_turns<A: Allocator + Copy, P: Allocator, Q: Allocator, S: Store + Drop>(
    open_call: &mut OpenCall<A>,
    alloc: A,
    accepted: &Accepted<P, Q>,
    store: S,
    count: TurnCount,
) -> Turn
    requires { (w : Setting) × (log : Log) × CanGoOn w log accepted.now (S.answers_from store) open_call.old }
    ensures turns { (w : Setting) (log : Log) → CanGoOn w log accepted.now (S.answers_from store) open_call.old
        → (before : ℕ) × (before < max_slots) × (count ≡ One → before ≡ 0)
        × AreTurns w log (S.is_gone store) before (open_call_of open_call.old) result (open_call_of open_call.new) }
    ensures ends { count ≡ ToTheEnd → result ≢ answer.More }
    ensures goes_on { (w : Setting) (log : Log) → CanGoOn w log accepted.now (S.answers_from store) open_call.old
        → stays_open result ≡ true → CanGoOn w log accepted.now (S.answers_from store) open_call.new }
{
    match count {
        TurnCount::One => open_call.turn(alloc, accepted, store),
        TurnCount::ToTheEnd => open_call.run(alloc, accepted, store),
    }
}

/// Returns what the world answers.
fn outcome_of(answer: Turn) -> Outcome
    ensures { result ≡ outcome_of answer }
{
    match answer {
        Turn::More => Outcome::More,
        Turn::Exit(reply) => Outcome::Exit { reply },
        Turn::Stale => Outcome::Stale,
        Turn::NoMemory => Outcome::NoMemory,
    }
}
