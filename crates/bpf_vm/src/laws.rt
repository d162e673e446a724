//! The laws of open calls, from the definitions.

ghost use Rattle.std.specs.Prelude.{◌≡◌, ◌+◌, ◌<◌, ℕ, List};
ghost use Rattle.schema.specs.Rows.{Rows};
ghost use Rattle.bpf_semantics.specs.State.{State, entry_state};
ghost use Rattle.bpf_semantics.specs.Step.{Going, Ended, step};
ghost use Rattle.bpf_semantics.specs.Run.{moment};
ghost use Rattle.bpf_semantics.specs.Path.{longest_path};
ghost use Rattle.bpf_verify.specs.Flow.{Procedure};
ghost use Rattle.acceptance.specs.Description.{Suits};
ghost use Rattle.bpf_vm.specs.Turns.{MachineState, CanTurn};
ghost use Rattle.vm_state.specs.Plain.{CanRunOn};
ghost use Rattle.bpf_vm.specs.Run.{Effects, IsAcceptedProcedure, HasRun, HasEnded, effects_of, own_effects};

use acceptance::accepted_programs_never_go_wrong;
use bpf_semantics::{a_run_ends_or_is_stuck, a_run_goes_on_to_its_length, states_fit};
use std::alloc::Allocator;
use txn_view::{Store, View};

/// A machine that has run k instructions of a run may have another turn. The machine's view must be of what the run has
/// done so far, and its store must answer from the run's rows.
pub fn open_calls_can_turn<S: Store, C: Allocator + Copy>(view: &View<S, C>)
    ensures { (p : Procedure) (args : List ℕ) (rows : Rows) (k : ℕ) (m : MachineState)
        → Suits p args rows → S.answers_from view.now.store rows
        → HasRun p args rows k m (own_effects view.now.own)
        → CanTurn p (S.answers_from view.now.store) m view.now.own }
{
    // Laws:
    accepted_programs_never_go_wrong();
    states_fit();
}

/// An accepted procedure's run that goes on after k instructions has one more on its longest path, and a machine there
/// can run plain instructions. Where that instruction ends the run, the run is what it leaves there.
pub fn runs_go_on_or_end()
    ensures short { (p : Procedure) (args : List ℕ) (rows : Rows) (k : ℕ) (s : State)
        → IsAcceptedProcedure p → Suits p args rows
        → moment p.program p.tables k (entry_state args rows) ≡ Going s
        → k < longest_path p.program }
    ensures ended { (p : Procedure) (args : List ℕ) (rows : Rows) (k reply : ℕ) (s t : State)
        → IsAcceptedProcedure p → Suits p args rows
        → moment p.program p.tables k (entry_state args rows) ≡ Going s
        → step p.program p.tables s ≡ Ended reply t
        → HasEnded p args rows (k + 1) reply (effects_of t) }
    ensures plain { (p : Procedure) (args : List ℕ) (rows : Rows) (k : ℕ) (m : MachineState) (effects : Effects)
        → Suits p args rows → HasRun p args rows k m effects → CanRunOn p.program m.words }
{
    // Laws:
    accepted_programs_never_go_wrong();
    a_run_goes_on_to_its_length();
    a_run_ends_or_is_stuck();
}
