//! The machine, its turns and its run.

ghost use Rattle.std.specs.Prelude.{◌≡◌, ◌≢◌, ◌↔◌, ◌+◌, ◌<◌, ◌≤◌, ℕ, Bool, List, length, IfOk, OnOk, OnErr, IsErr};
ghost use Rattle.bpf_code.specs.Program.{instruction_at};
ghost use Rattle.schema.specs.Rows.{Rows};
ghost use Rattle.bpf_semantics.specs.State.{State};
ghost use Rattle.bpf_semantics.specs.Path.{longest_path};
ghost use Rattle.acceptance.specs.Description.{Suits};
ghost use Rattle.vm_state.specs.Words.{Holds};
ghost use Rattle.vm_state.specs.Plain.{CanRunOn};
ghost use Rattle.txn_view.specs.View.{IsViewOf};
ghost use Rattle.bpf_vm.specs.declared.turn.Turn.TheVariants.{More};
ghost use Rattle.bpf_vm.specs.Turns.{CanStep, CanTurn, FollowsStep, DoesNothing};
ghost use Rattle.bpf_vm.specs.Run.{Effects, HasRun, AfterTurn, NoneIsStale, AfterRun, IsOnRun, no_effects};
ghost use Rattle.bpf_vm.specs.Run.{own_effects};

use crate::laws::{open_calls_can_turn, runs_go_on_or_end};
use crate::step::step;
use crate::turn::{RunEnd, Turn};
use acceptance::accepted_programs_never_go_wrong;
use bpf_code::Instruction;
use bpf_semantics::states_fit;
use bpf_verify::Accepted;
use std::alloc::Allocator;
use std::marker::Model;
use txn_view::{Store, View};
use vm_state::WordState;

/// The fault of arguments that aren't as long as the procedure's.
#[derive(Clone, Copy, Debug, PartialEq, Eq, Drop)]
pub struct ArgsLength;

/// A call of an accepted procedure: its words, and what its last turn answered.
///
/// ```text
/// let mut machine = Machine::start(&accepted, &args)?;
/// match machine.run(&accepted, &mut view) {
///     Turn::Exit(reply) => { /* the call is at its end: its looks and writes are the view's */ }
///     // A run answers no `More`, which is for turns.
///     Turn::Stale | Turn::NoMemory | Turn::More => { /* the call is over, and had no effect */ }
/// }
/// ```
#[derive(Drop)]
pub struct Machine {
    words: WordState,
    last: Turn,
}

impl Model for Machine {
    ghost use Rattle.bpf_vm.specs.Turns.{MachineState};

    ghost Value = { MachineState };

    ghost view = { λ m. record { words = m.words; last = m.last } };

    ghost invariant = { λ m. Unit {0} };
}

impl Machine {
    /// A call on these arguments, which runs its first instruction next. Takes no memory.
    pub fn start<A: Allocator, B: Allocator>(
        procedure: &Accepted<A, B>,
        args: &[u8],
    ) -> Result<Machine, ArgsLength>
        ensures starts { IfOk result (λ m. (rows : Rows)
            → HasRun procedure.now args.now rows 0 m no_effects) }
        ensures length { IsErr result ↔ (length args.now ≢ procedure.now.args_len) }
    {
        procedure.known();
        if args.len() != usize::from(procedure.args_len()) {
            return Err(ArgsLength);
        }
        Ok(Machine {
            words: WordState::start(args),
            last: Turn::More,
        })
    }

    /// Restarts the machine with a call on these arguments, in the same memory.
    pub fn restart<A: Allocator, B: Allocator>(
        &mut self,
        procedure: &Accepted<A, B>,
        args: &[u8],
    ) -> Result<(), ArgsLength>
        ensures starts { OnOk result ((rows : Rows) → HasRun procedure.now args.now rows 0 self.new no_effects) }
        ensures length { IsErr result ↔ (length args.now ≢ procedure.now.args_len) }
        ensures unchanged { OnErr result (self.new ≡ self.old) }
    {
        procedure.known();
        if args.len() != usize::from(procedure.args_len()) {
            return Err(ArgsLength);
        }
        self.words.restart(args);
        self.last = Turn::More;
        Ok(())
    }

    /// Returns what the last turn answered; before the first turn, that there is more.
    pub fn last(&self) -> Turn
        ensures { result ≡ self.now.last }
    {
        self.last
    }

    /// The instruction that the next turn runs.
    pub fn next<A: Allocator, B: Allocator>(
        &self,
        procedure: &Accepted<A, B>,
    ) -> Option<Instruction>
        ensures { result ≡ instruction_at procedure.now.program self.now.words.slot }
    {
        procedure.code().at(self.words.slot())
    }

    /// Runs the next instruction. Where the last turn didn't answer that there is more, nothing is done, and the answer
    /// is the same again.
    pub fn turn<A: Allocator, B: Allocator, S: Store, C: Allocator + Copy>(
        &mut self,
        procedure: &Accepted<A, B>,
        view: &mut View<S, C>,
    ) -> Turn
        requires { CanTurn procedure.now (S.answers_from view.old.store) self.old view.old.own }
        ensures follows { self.old.last ≡ More → (s : State) → Holds s self.old.words
            → IsViewOf (S.answers_from view.old.store) view.old.own s
            → FollowsStep procedure.now (S.answers_from view.old.store) (S.is_gone view.old.store) s result
            self.new.words view.new.own }
        ensures last { self.new.last ≡ result }
        ensures words { DoesNothing result → self.new.words ≡ self.old.words }
        ensures own { DoesNothing result → view.new.own ≡ view.old.own }
        ensures store { view.new.store ≡ view.old.store }
        ensures idle { self.old.last ≢ More → (self.new ≡ self.old) × (view.new.own ≡ view.old.own) }
        ensures run { (args : List ℕ) (rows : Rows) (k : ℕ) → Suits procedure.now args rows
            → S.answers_from view.old.store rows
            → HasRun procedure.now args rows k self.old (own_effects view.old.own)
            → AfterTurn procedure.now args rows (S.is_gone view.old.store) k result self.new
            (own_effects view.new.own) }
        ensures short { (args : List ℕ) (rows : Rows) (k : ℕ) → Suits procedure.now args rows
            → HasRun procedure.now args rows k self.old (own_effects view.old.own)
            → k < longest_path procedure.now.program }
    {
        // Laws:
        runs_go_on_or_end();
        accepted_programs_never_go_wrong();
        states_fit();
        match self.last() {
            Turn::More => self.advance(procedure, view),
            over => over,
        }
    }

    /// Runs the next instruction.
    fn advance<A: Allocator, B: Allocator, S: Store, C: Allocator + Copy>(
        &mut self,
        procedure: &Accepted<A, B>,
        view: &mut View<S, C>,
    ) -> Turn
        requires { CanStep procedure.now (S.answers_from view.old.store) self.old.words view.old.own }
        ensures follows { (s : State) → Holds s self.old.words
            → IsViewOf (S.answers_from view.old.store) view.old.own s
            → FollowsStep procedure.now (S.answers_from view.old.store) (S.is_gone view.old.store) s result
            self.new.words view.new.own }
        ensures last { self.new.last ≡ result }
        ensures words { DoesNothing result → self.new.words ≡ self.old.words }
        ensures own { DoesNothing result → view.new.own ≡ view.old.own }
        ensures store { view.new.store ≡ view.old.store }
    {
        self.last = step(&mut self.words, procedure, view);
        self.last
    }

    /// Takes turns until a turn doesn't answer that there is more: at most as many as the procedure's bound. Where the
    /// last turn before didn't answer so, nothing is done.
    pub fn run<A: Allocator, B: Allocator, S: Store, C: Allocator + Copy>(
        &mut self,
        procedure: &Accepted<A, B>,
        view: &mut View<S, C>,
    ) -> Turn
        requires { IsOnRun procedure.now (S.answers_from view.old.store) self.old (own_effects view.old.own) }
        ensures ends { result ≢ More }
        ensures idle { self.old.last ≢ More → (self.new ≡ self.old) × (view.new.own ≡ view.old.own) }
        ensures last { self.new.last ≡ result }
        ensures store { view.new.store ≡ view.old.store }
        ensures run { (args : List ℕ) (rows : Rows) (k : ℕ) → Suits procedure.now args rows
            → S.answers_from view.old.store rows
            → HasRun procedure.now args rows k self.old (own_effects view.old.own)
            → (n : ℕ) × (k ≤ n) × (n < longest_path procedure.now.program)
            × AfterTurn procedure.now args rows (S.is_gone view.old.store) n result self.new
            (own_effects view.new.own) }
    {
        self.run_counted(procedure, view).last
    }

    /// Runs as `run` does, and counts the turns that answered that there is more. The turns of plain instructions are
    /// taken at once.
    pub fn run_counted<A: Allocator, B: Allocator, S: Store, C: Allocator + Copy>(
        &mut self,
        procedure: &Accepted<A, B>,
        view: &mut View<S, C>,
    ) -> RunEnd
        requires { IsOnRun procedure.now (S.answers_from view.old.store) self.old (own_effects view.old.own) }
        ensures ends { result.last ≢ More }
        ensures idle { self.old.last ≢ More
            → (self.new ≡ self.old) × (view.new.own ≡ view.old.own) × (result.before ≡ 0) }
        ensures last { self.new.last ≡ result.last }
        ensures store { view.new.store ≡ view.old.store }
        ensures run { (args : List ℕ) (rows : Rows) (k : ℕ) → Suits procedure.now args rows
            → S.answers_from view.old.store rows
            → HasRun procedure.now args rows k self.old (own_effects view.old.own)
            → AfterRun procedure.now args rows (S.is_gone view.old.store) k result.before result.last self.new
            (own_effects view.new.own) }
    {
        match self.last() {
            Turn::More => self.run_on(procedure, view),
            last => RunEnd { before: 0, last },
        }
    }

    /// Takes turns until a turn doesn't answer that there is more.
    fn run_on<A: Allocator, B: Allocator, S: Store, C: Allocator + Copy>(
        &mut self,
        procedure: &Accepted<A, B>,
        view: &mut View<S, C>,
    ) -> RunEnd
        requires more { self.old.last ≡ More }
        requires on { IsOnRun procedure.now (S.answers_from view.old.store) self.old (own_effects view.old.own) }
        ensures ends { result.last ≢ More }
        ensures last { self.new.last ≡ result.last }
        ensures store { view.new.store ≡ view.old.store }
        ensures run { (args : List ℕ) (rows : Rows) (k : ℕ) → Suits procedure.now args rows
            → S.answers_from view.old.store rows
            → HasRun procedure.now args rows k self.old (own_effects view.old.own)
            → AfterRun procedure.now args rows (S.is_gone view.old.store) k result.before result.last self.new
            (own_effects view.new.own) }
    {
        // Laws:
        runs_go_on_or_end();
        accepted_programs_never_go_wrong();
        let mut before = 0;
        for _ in 0..procedure.bound() {
            before += self.run_plain(procedure);
            // Laws:
            open_calls_can_turn(view);
            match self.turn(procedure, view) {
                Turn::More => before += 1,
                last => return RunEnd { before, last },
            }
        }
        unreachable!()
    }

    /// Runs the instructions up to the next call, long jump or end at once, by the procedure's layout, and returns their
    /// number. Each of them is a turn that answers that there is more, whatever rows there are.
    pub fn run_plain<A: Allocator, B: Allocator>(&mut self, procedure: &Accepted<A, B>) -> u32
        requires { CanRunOn procedure.now.program self.old.words }
        ensures run { (args : List ℕ) (rows : Rows) (k : ℕ) (effects : Effects) → Suits procedure.now args rows
            → HasRun procedure.now args rows k self.old effects
            → HasRun procedure.now args rows (k + result) self.new effects
            × ((gone : Bool) → NoneIsStale procedure.now args rows gone k result) }
        ensures last { self.new.last ≡ self.old.last }
    {
        // Laws:
        accepted_programs_never_go_wrong();
        self.words.run_plain(procedure.code(), procedure.layout())
    }
}
