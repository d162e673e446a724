//! A call, until it is over.

ghost use Rattle.std.specs.Prelude.{◌≡◌, ◌≢◌, ◌<◌, ℕ, Bool, true, [], length, None, IfOk, IfSome, OnOk, OnErr};
ghost use Rattle.std.specs.FinMap.{empty};
ghost use Rattle.bpf_code.specs.Program.{max_slots};
ghost use Rattle.log_model.specs.Log.{Setting, Log};
ghost use Rattle.bpf_vm.specs.declared.turn.Turn.TheVariants.{More, Exit};
ghost use Rattle.world_calls.specs.OpenCall.{open_call_of, Follows, CanGoOn, IsTurn, stays_open, call_of, IsReplyOf};
ghost use Rattle.world_calls.specs.OpenCall.{AreMoreTurns, AreTurns, further, IsCompletion, call_before_its_run};
ghost use Rattle.world_calls.specs.OpenCall.{FollowsInItsLogs};

use crate::completion::Completion;
use acceptance::accepted_programs_never_go_wrong;
use bpf_semantics::{runs_are_short, states_fit};
use bpf_verify::Accepted;
use bpf_vm::{Machine, Turn, open_calls_can_turn, runs_go_on_or_end};
use log_entry::ExecutedCall;
use log_model::RequestId;
use row_sets::Bytes;
use std::alloc::{AllocError, Allocator, Global};
use std::mem;
use txn_view::{Own, Store, View};

/// The start of a call: the caller's choice, and the position whose rows the call reads.
#[derive(Clone, Copy)]
pub struct CallStart {
    /// The number of the call's replica; 0 where there is no world.
    pub replica: u32,
    /// The call's number among all calls of its world; 0 at a node, and in what a site submits. A byte string of a site's
    /// order may have any.
    pub number: u32,
    /// The procedure's number.
    pub procedure: u16,
    /// The position whose rows the call reads.
    pub snapshot: u32,
    pub request: Option<RequestId>,
}

/// A call that isn't over, or, once it was completed, what is left of it: another may begin in its memory.
#[derive(Drop)]
pub struct OpenCall<A: Allocator + Copy = Global> {
    /// The number of the call's replica.
    pub replica: u32,
    /// The number of the call among all calls of its world.
    pub number: u32,
    /// The procedure's number.
    pub procedure: u16,
    pub args: Bytes<A>,
    /// The position whose rows the call reads.
    pub snapshot: u32,
    pub request: Option<RequestId>,
    /// The number of instructions that the call has run.
    pub turns: u32,
    pub machine: Machine,
    /// The looks, writes and cancel code of the call so far.
    pub own: Own<A>,
}

/// Tells whether a call isn't over after a turn that answered this.
pub fn stays_open(turn: Turn) -> bool
    ensures { result ≡ stays_open turn }
{
    match turn {
        Turn::More | Turn::Exit(_) => true,
        Turn::Stale | Turn::NoMemory => false,
    }
}

impl<A: Allocator + Copy> OpenCall<A> {
    /// A call that has run nothing yet. The arguments are copied.
    pub fn begin<P: Allocator, Q: Allocator>(
        alloc: A,
        start: CallStart,
        accepted: &Accepted<P, Q>,
        args: &[u8],
    ) -> Result<OpenCall<A>, AllocError>
        requires { length args.now ≡ accepted.now.args_len }
        ensures begun { IfOk result (λ c. open_call_of c
            ≡ call_before_its_run start args.now) }
        ensures follows { IfOk result (λ c. FollowsInItsLogs accepted.now start c) }
        ensures ready { IfOk result (λ c. c.machine.last ≡ More) }
    {
        let Ok(machine) = Machine::start(accepted, args) else {
            unreachable!()
        };
        Ok(OpenCall {
            replica: start.replica,
            number: start.number,
            procedure: start.procedure,
            args: Bytes::new(Vec::from_slice(alloc, args)?),
            snapshot: start.snapshot,
            request: start.request,
            turns: 0,
            machine,
            own: Own::new(alloc),
        })
    }

    /// Begins a call as `begin` does, in the memory of this call, whose place it takes.
    pub fn begin_again<P: Allocator, Q: Allocator>(
        &mut self,
        alloc: A,
        start: CallStart,
        accepted: &Accepted<P, Q>,
        args: &[u8],
    ) -> Result<(), AllocError>
        requires { length args.now ≡ accepted.now.args_len }
        ensures begun { OnOk result (open_call_of self.new
            ≡ call_before_its_run start args.now) }
        ensures follows { OnOk result (FollowsInItsLogs accepted.now start self.new) }
        ensures ready { OnOk result (self.new.machine.last ≡ More) }
        ensures unchanged { OnErr result (self.new ≡ self.old) }
    {
        let copied = Vec::from_slice(alloc, args)?;
        let Ok(()) = self.machine.restart(accepted, args) else {
            unreachable!()
        };
        self.replica = start.replica;
        self.number = start.number;
        self.procedure = start.procedure;
        self.args = Bytes::new(copied);
        self.snapshot = start.snapshot;
        self.request = start.request;
        self.turns = 0;
        self.own = Own::new(alloc);
        Ok(())
    }

    /// Runs the next instruction, where there is one, on the rows of the snapshot. No instruction is run after the end,
    /// which is answered again.
    pub fn turn<P: Allocator, Q: Allocator, S: Store + Drop>(
        &mut self,
        alloc: A,
        accepted: &Accepted<P, Q>,
        store: S,
    ) -> Turn
        requires { (w : Setting) × (log : Log) × CanGoOn w log accepted.now (S.answers_from store) self.old }
        ensures turn { (w : Setting) (log : Log) → CanGoOn w log accepted.now (S.answers_from store) self.old
            → IsTurn w log (S.is_gone store) (open_call_of self.old) result (open_call_of self.new) }
        ensures goes_on { (w : Setting) (log : Log) → CanGoOn w log accepted.now (S.answers_from store) self.old
            → stays_open result ≡ true → CanGoOn w log accepted.now (S.answers_from store) self.new }
        ensures last { self.new.machine.last ≡ result }
    {
        match self.machine.last() {
            Turn::More => self.advance(alloc, accepted, store),
            over => over,
        }
    }

    /// Runs the instructions up to the next call, long jump or end at once. Each of them is a turn that answers that there
    /// is more, whatever rows there are.
    pub fn run_plain<P: Allocator, Q: Allocator>(&mut self, accepted: &Accepted<P, Q>)
        requires more { self.old.machine.last ≡ More }
        requires can { (w : Setting) × (log : Log) × CanGoOn w log accepted.now (λ rows. Unit {0}) self.old }
        ensures turns { (w : Setting) (log : Log) → CanGoOn w log accepted.now (λ rows. Unit {0}) self.old
            → (count : ℕ) × ((gone : Bool) → AreMoreTurns w log gone count (open_call_of self.old))
            × (open_call_of self.new ≡ further count (open_call_of self.old)) }
        ensures goes_on { (w : Setting) (log : Log) → CanGoOn w log accepted.now (λ rows. Unit {0}) self.old
            → CanGoOn w log accepted.now (λ rows. Unit {0}) self.new }
        ensures last { self.new.machine.last ≡ More }
    {
        // Laws:
        accepted_programs_never_go_wrong();
        runs_go_on_or_end();
        accepted.known();
        self.turns += self.machine.run_plain(accepted);
    }

    /// Runs to the end, on the rows of the snapshot, as turns would until one doesn't answer that there is more, and
    /// gives that answer. No instruction is run after the end, which is answered again.
    pub fn run<P: Allocator, Q: Allocator, S: Store + Drop>(
        &mut self,
        alloc: A,
        accepted: &Accepted<P, Q>,
        store: S,
    ) -> Turn
        requires { (w : Setting) × (log : Log) × CanGoOn w log accepted.now (S.answers_from store) self.old }
        ensures ends { result ≢ More }
        ensures turns { (w : Setting) (log : Log) → CanGoOn w log accepted.now (S.answers_from store) self.old
            → (before : ℕ) × (before < max_slots)
            × AreTurns w log (S.is_gone store) before (open_call_of self.old) result (open_call_of self.new) }
        ensures goes_on { (w : Setting) (log : Log) → CanGoOn w log accepted.now (S.answers_from store) self.old
            → stays_open result ≡ true → CanGoOn w log accepted.now (S.answers_from store) self.new }
        ensures last { self.new.machine.last ≡ result }
    {
        match self.machine.last() {
            Turn::More => self.run_on(alloc, accepted, store),
            last => last,
        }
    }

    /// Runs to the end.
    fn run_on<P: Allocator, Q: Allocator, S: Store + Drop>(
        &mut self,
        alloc: A,
        accepted: &Accepted<P, Q>,
        store: S,
    ) -> Turn
        requires more { self.old.machine.last ≡ More }
        requires can { (w : Setting) × (log : Log) × CanGoOn w log accepted.now (S.answers_from store) self.old }
        ensures ends { result ≢ More }
        ensures turns { (w : Setting) (log : Log) → CanGoOn w log accepted.now (S.answers_from store) self.old
            → (before : ℕ) × (before < max_slots)
            × AreTurns w log (S.is_gone store) before (open_call_of self.old) result (open_call_of self.new) }
        ensures goes_on { (w : Setting) (log : Log) → CanGoOn w log accepted.now (S.answers_from store) self.old
            → stays_open result ≡ true → CanGoOn w log accepted.now (S.answers_from store) self.new }
        ensures last { self.new.machine.last ≡ result }
    {
        // Laws:
        accepted_programs_never_go_wrong();
        runs_are_short();
        accepted.known();
        let own = mem::replace(&mut self.own, Own::new(alloc));
        let mut view = View::over(store, own);
        let end = self.machine.run_counted(accepted, &mut view);
        self.own = view.pause();
        self.turns += end.before;
        if stays_open(end.last) {
            self.turns += 1;
        }
        end.last
    }

    /// Runs the next instruction.
    fn advance<P: Allocator, Q: Allocator, S: Store + Drop>(
        &mut self,
        alloc: A,
        accepted: &Accepted<P, Q>,
        store: S,
    ) -> Turn
        requires more { self.old.machine.last ≡ More }
        requires can { (w : Setting) × (log : Log) × CanGoOn w log accepted.now (S.answers_from store) self.old }
        ensures turn { (w : Setting) (log : Log) → CanGoOn w log accepted.now (S.answers_from store) self.old
            → IsTurn w log (S.is_gone store) (open_call_of self.old) result (open_call_of self.new) }
        ensures goes_on { (w : Setting) (log : Log) → CanGoOn w log accepted.now (S.answers_from store) self.old
            → stays_open result ≡ true → CanGoOn w log accepted.now (S.answers_from store) self.new }
        ensures last { self.new.machine.last ≡ result }
    {
        // Laws:
        accepted_programs_never_go_wrong();
        accepted.known();
        let own = mem::replace(&mut self.own, Own::new(alloc));
        let mut view = View::over(store, own);
        // Laws:
        open_calls_can_turn(&view);
        let turn = self.machine.turn(accepted, &mut view);
        self.own = view.pause();
        if stays_open(turn) {
            self.turns += 1;
        }
        turn
    }

    /// The reply, where the call is at its end.
    pub fn reply(&self) -> Option<u64>
        ensures run { (w : Setting) (log : Log) → Follows w log self.now
            → IsReplyOf w log (open_call_of self.now) result }
        ensures exit { IfSome result (λ reply. self.now.machine.last ≡ Exit reply) }
    {
        // Laws:
        accepted_programs_never_go_wrong();
        match self.machine.last() {
            Turn::Exit(reply) => Some(reply),
            _ => None,
        }
    }

    /// Returns the completion of a call that is at its end: its arguments, looks and writes are taken out. Takes no
    /// memory.
    pub fn complete(&mut self, alloc: A) -> Completion<A>
        requires { (reply : ℕ) × (self.old.machine.last ≡ Exit reply) }
        ensures completion { (w : Setting) (log : Log) → Follows w log self.old
            → IsCompletion w log (call_of self.old) result }
        ensures left { self.new
            ≡ record self.old { args = []; own = record { looks = []; writes = empty; cancel_code = None } } }
    {
        // Laws:
        states_fit();
        let Turn::Exit(reply) = self.machine.last() else {
            unreachable!()
        };
        let own = mem::replace(&mut self.own, Own::new(alloc));
        let args = mem::replace(&mut self.args, Bytes::new(Vec::new(alloc)));
        let (reads, writes, cancel_code) = own.finish();
        if let Some(code) = cancel_code {
            return Completion::Cancelled {
                snapshot: self.snapshot,
                code,
            };
        }
        if writes.is_empty() {
            return Completion::Read {
                snapshot: self.snapshot,
                reply,
            };
        }
        Completion::Wrote(ExecutedCall {
            call: self.number,
            procedure: self.procedure,
            args,
            snapshot: self.snapshot,
            request: self.request,
            reads,
            writes,
            reply,
        })
    }
}
