//! The laws of acceptance, about the definitions alone.
ghost use Rattle.std.specs.Prelude.{◌≡◌, ◌≢◌, ◌<◌, ◌≤◌, ◌^◌, ℕ, List, length};
ghost use Rattle.std.specs.Option.{IsSomeAnd};
ghost use Rattle.bpf_code.specs.declared.instruction.Instruction.{Instruction};
ghost use Rattle.bpf_code.specs.Program.{IsProgram};
ghost use Rattle.schema.specs.Schema.{Tables, AreTables};
ghost use Rattle.schema.specs.Rows.{Rows, AreRows};
ghost use Rattle.bpf_semantics.specs.State.{State, entry_state};
ghost use Rattle.bpf_semantics.specs.Step.{Going, Stuck};
ghost use Rattle.bpf_semantics.specs.Run.{moment, run};
ghost use Rattle.bpf_semantics.specs.Path.{longest_path};
ghost use Rattle.abs_state.specs.declared.state.AbsState.{AbsState};
ghost use Rattle.abs_state.specs.State.{abs_entry, state_join};
ghost use Rattle.bpf_verify.specs.Flow.{Procedure, IsAccepted, state_at};
ghost use Rattle.acceptance.specs.Description.{Describes, IsAbsState, IsOfProgram, StepsAlong, SendsKnown, Suits};

/// The knowledge at entry is true of each entry state.
#[tactic(auto, using(crate::proofs::Entry::entry_known))]
pub fn entry_is_described()
    ensures known { IsAbsState abs_entry }
    ensures described { (args : List ℕ) (rows : Rows) → Describes (length args) abs_entry (entry_state args rows) }
{}

/// A join is true of each state that either side is true of.
pub fn joins_describe_both()
    ensures known { (a b : AbsState) → IsAbsState a → IsAbsState b → IsAbsState (state_join a b) }
    ensures left { (args_len : ℕ) (a b : AbsState) (s : State) → IsAbsState a → IsAbsState b
        → Describes args_len a s → Describes args_len (state_join a b) s }
    ensures right { (args_len : ℕ) (a b : AbsState) (s : State) → IsAbsState a → IsAbsState b
        → Describes args_len b s → Describes args_len (state_join a b) s }
{}

/// An instruction without a cause isn't stuck in a state of which the knowledge is true. Where the instruction goes on,
/// it goes along an edge, and what is sent there is true of the state after it.
pub fn instructions_without_a_cause_go_along_an_edge()
    ensures steps { (tables : Tables) (args_len : ℕ) (i : Instruction) → IsOfProgram i → StepsAlong tables args_len i }
    ensures sends { (tables : Tables) (i : Instruction) (known : AbsState) → IsOfProgram i → IsAbsState known
        → SendsKnown tables i known }
{}

/// An accepted program never goes wrong on arguments and rows for which it was verified. At each moment what is known
/// before the slot is true of the state, and no moment is stuck. A run exists, no longer than the longest path, that
/// replies a 64-bit number and leaves rows of the schema.
pub fn accepted_programs_never_go_wrong()
    ensures described { (p : Procedure) (args : List ℕ) (rows : Rows) (k : ℕ) (s : State)
        → IsProgram p.program → AreTables p.tables → IsAccepted p → Suits p args rows
        → moment p.program p.tables k (entry_state args rows) ≡ Going s
        → IsSomeAnd (state_at p s.slot) (λ known. Describes p.args_len known s) }
    ensures never_stuck { (p : Procedure) (args : List ℕ) (rows : Rows) (k : ℕ)
        → IsProgram p.program → AreTables p.tables → IsAccepted p → Suits p args rows
        → moment p.program p.tables k (entry_state args rows) ≢ Stuck }
    ensures run { (p : Procedure) (args : List ℕ) (rows : Rows)
        → IsProgram p.program → AreTables p.tables → IsAccepted p → Suits p args rows
        → IsSomeAnd (run p.program p.tables args rows)
        (λ r. (r.steps ≤ longest_path p.program) × (r.reply < 2 ^ 64) × AreRows p.tables r.effect) }
{}
