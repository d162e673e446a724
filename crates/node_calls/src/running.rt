//! A call that an executing thread runs.

ghost use Rattle.std.specs.Prelude.{◌≡◌, ◌-◌, ◌≤◌, ℕ, Bool, length, nat_lt, true, false, IfOk};
ghost use Rattle.bpf_vm.specs.declared.turn.Turn.TheVariants.{More, Exit};
ghost use Rattle.log_model.specs.Fit.{IsCall};
ghost use Rattle.replica.specs.Replica.{AreEntriesOf, entries_of};
ghost use Rattle.world_calls.specs.OpenCall.{AreMoreTurns, IsTurn, IsCompletion, further, stays_open};
ghost use Rattle.node_calls.specs.Running.{node_call, log_seen, calls_row_helper_next};

use crate::helpers::calls_row_helper;
use acceptance::accepted_programs_never_go_wrong;
use bpf_semantics::{a_step_leads_on, writes_and_cancels_look_at_nothing};
use bpf_vm::Turn;
use locked_replica::{BegunCall, LockedReplica, LogSetting};
use log_model::{RequestId, rows_fit_the_schema};
use order_log::Seen;
use std::alloc::{AllocError, Allocator, Global};
use std::marker::Model;
use txn_view::NoStore;
use world_calls::{CallStart, Completion, OpenCall};

/// A call that runs. Contracts see what the call has seen of the log, how far it has come, and the outcome of its last
/// turn.
#[derive(Drop)]
pub struct RunningCall<J: LogSetting, A: Allocator + Copy = Global> {
    begun: BegunCall<J, A>,
    call: OpenCall<A>,
}

impl<J: LogSetting, A: Allocator + Copy> Model for RunningCall<J, A> {
    ghost use Rattle.std.specs.Prelude.{◌≡◌, true};
    ghost use Rattle.world_calls.specs.OpenCall.{open_call_of, stays_open};
    ghost use Rattle.node_calls.specs.Running.{RunningState, IsUnderWay, running_code};

    ghost Value = { RunningState A };

    ghost coded = { running_code };

    ghost view = { λ r. record {
      entries = r.begun.entries;
      progress = open_call_of r.call;
      last = r.call.machine.last;
    } };

    ghost invariant = { λ r. stays_open r.call.machine.last ≡ true → IsUnderWay J.setting r.begun r.call };
}

impl<J: LogSetting, A: Allocator + Copy> RunningCall<J, A> {
    /// Starts a call on these arguments, which are copied. The call has run nothing yet.
    pub fn start(
        alloc: A,
        begun: BegunCall<J, A>,
        args: &[u8],
        request: Option<RequestId>,
    ) -> Result<RunningCall<J, A>, AllocError>
        requires { length args.now ≡ begun.accepted.args_len }
        ensures entries { IfOk result (λ r. r.entries ≡ begun.entries) }
        ensures started { IfOk result (λ r. r.progress ≡ record {
          replica = 0;
          call = node_call begun.procedure args.now (length begun.entries) request;
          turns = 0;
        }) }
        ensures ready { IfOk result (λ r. r.last ≡ More) }
    {
        // Laws:
        rows_fit_the_schema();
        begun.is_of_the_log();
        let start = CallStart {
            replica: 0,
            number: 0,
            procedure: begun.procedure(),
            snapshot: begun.seen().len(),
            request,
        };
        let call = OpenCall::begin(alloc, start, begun.accepted(), args)?;
        Ok(RunningCall { begun, call })
    }

    /// Returns what the call has seen of the log.
    pub fn seen(&self) -> &Seen<J, A>
        ensures { result.now ≡ self.now.entries }
    {
        self.begun.seen()
    }

    /// An open call has seen entries of a log, and is a call on the rows after these entries.
    pub fn is_of_the_log(&self)
        requires { stays_open self.now.last ≡ true }
        ensures entries { AreEntriesOf J.setting (entries_of self.now.entries) }
        ensures is_call { IsCall J.setting (log_seen self.now.entries) self.now.progress.call }
    {
        self.begun.is_of_the_log();
    }

    /// Returns the outcome of the call's last turn, and `More` before the first turn.
    pub fn last(&self) -> Turn
        ensures { result ≡ self.now.last }
    {
        self.call.machine.last()
    }

    /// The procedure's number.
    pub fn procedure(&self) -> u16
        requires { self.now.last ≡ More }
        ensures { result ≡ self.now.progress.call.procedure }
    {
        self.call.procedure
    }

    /// Tells whether the next instruction calls a helper that reads or writes rows.
    pub fn at_row_helper(&self) -> bool
        requires { self.now.last ≡ More }
        ensures { result ≡ calls_row_helper_next J.setting self.now }
    {
        self.begun.is_of_the_log();
        calls_row_helper(self.call.machine.next(self.begun.accepted()))
    }

    /// Runs the next instruction on the rows after what the call has seen, at a replica to which at least as much was
    /// delivered.
    pub fn turn<B: Allocator + Copy>(&mut self, alloc: A, replica: &LockedReplica<J, B, A>) -> Turn
        requires going { self.old.last ≡ More }
        requires reached { length self.old.entries ≤ length replica.now.entries }
        ensures turn { IsTurn J.setting (log_seen self.old.entries)
            (nat_lt J.setting.window
            (length replica.now.entries - length self.old.entries)) self.old.progress result self.new.progress }
        ensures entries { self.new.entries ≡ self.old.entries }
        ensures last { self.new.last ≡ result }
    {
        self.begun.is_of_the_log();
        self.call.turn(alloc, self.begun.accepted(), replica.at(self.begun.seen()))
    }

    /// Runs the instructions up to the next call, long jump or end at once, without any rows. Each of them is a turn that
    /// answers that there is more, whatever rows there are.
    pub fn run_plain(&mut self)
        requires { self.old.last ≡ More }
        ensures turns { (count : ℕ)
            × ((gone : Bool) → AreMoreTurns J.setting (log_seen self.old.entries) gone count self.old.progress)
            × (self.new.progress ≡ further count self.old.progress) }
        ensures entries { self.new.entries ≡ self.old.entries }
        ensures last { self.new.last ≡ More }
    {
        self.begun.is_of_the_log();
        self.call.run_plain(self.begun.accepted());
    }

    /// Runs the next instruction without any rows, where it neither reads nor writes rows. The call isn't over after
    /// it.
    pub fn turn_alone(&mut self, alloc: A) -> Turn
        requires going { self.old.last ≡ More }
        requires alone { calls_row_helper_next J.setting self.old ≡ false }
        ensures turn { IsTurn J.setting (log_seen self.old.entries) true self.old.progress result self.new.progress }
        ensures stays { stays_open result ≡ true }
        ensures entries { self.new.entries ≡ self.old.entries }
        ensures last { self.new.last ≡ result }
    {
        // Laws:
        accepted_programs_never_go_wrong();
        a_step_leads_on();
        writes_and_cancels_look_at_nothing();
        self.begun.is_of_the_log();
        self.call.turn(alloc, self.begun.accepted(), NoStore)
    }

    /// Returns the outcome of a call that is at its end. Takes no memory.
    pub fn complete(self, alloc: A) -> Completion<A>
        requires { (reply : ℕ) × (self.last ≡ Exit reply) }
        ensures is_call { IsCall J.setting (log_seen self.entries) self.progress.call }
        ensures completion { IsCompletion J.setting (log_seen self.entries) self.progress.call result }
    {
        let mut call = self.call;
        call.complete(alloc)
    }
}
