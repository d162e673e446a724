//! Runs moment by moment: the length of a run, the states that a run comes to, and the rows that an open call depends
//! on.

ghost use Rattle.std.specs.Prelude.{◌≡◌, All, ℕ, ◌^◌, ◌<◌, ◌≤◌, List, length, Some};
ghost use Rattle.std.specs.FinMap.{len};
ghost use Rattle.bpf_code.specs.Program.{Program, IsProgram};
ghost use Rattle.schema.specs.Schema.{Tables};
ghost use Rattle.schema.specs.Rows.{Rows, AreRows, AgreeOn, any_covers, after_writes};
ghost use Rattle.bpf_semantics.specs.State.{State, entry_state};
ghost use Rattle.bpf_semantics.specs.Step.{Going, Ended};
ghost use Rattle.bpf_semantics.specs.Run.{Run, moment, run, run_of};
ghost use Rattle.bpf_semantics.specs.Fit.{IsState, IsRunOf};

/// A run goes on at every moment before its length, with as many steps. At its length and later the run has ended, with
/// its reply, and is what is read off there.
pub fn a_run_goes_on_to_its_length()
    ensures before { (p : Program) (tables : Tables) (args : List ℕ) (rows : Rows) (r : Run) (k : ℕ)
        → run p tables args rows ≡ Some r → k < r.steps
        → (s : State) × (moment p tables k (entry_state args rows) ≡ Going s) × (s.steps ≡ k) }
    ensures after { (p : Program) (tables : Tables) (args : List ℕ) (rows : Rows) (r : Run) (k : ℕ)
        → run p tables args rows ≡ Some r → r.steps ≤ k
        → (s : State) × (moment p tables k (entry_state args rows) ≡ Ended r.reply s)
        × (run_of rows r.reply s ≡ r) }
{}

/// A program's run on rows of the schema and arguments of bytes is in a fitting state while it goes on and where it
/// ends. The state's rows are those of the beginning after its writes, and what comes of the run fits too.
pub fn states_fit()
    ensures going { (p : Program) (tables : Tables) (args : List ℕ) (rows : Rows) (k : ℕ) (s : State)
        → IsProgram p → All (λ b. b < 256) args → AreRows tables rows
        → moment p tables k (entry_state args rows) ≡ Going s → IsState tables s }
    ensures ended { (p : Program) (tables : Tables) (args : List ℕ) (rows : Rows) (k reply : ℕ) (s : State)
        → IsProgram p → All (λ b. b < 256) args → AreRows tables rows
        → moment p tables k (entry_state args rows) ≡ Ended reply s
        → IsState tables s × (reply < 2 ^ 64) }
    ensures rows { (p : Program) (tables : Tables) (args : List ℕ) (rows : Rows) (k : ℕ) (s : State)
        → moment p tables k (entry_state args rows) ≡ Going s → s.rows ≡ after_writes s.writes rows }
    ensures run { (p : Program) (tables : Tables) (args : List ℕ) (rows : Rows) (r : Run)
        → IsProgram p → All (λ b. b < 256) args → AreRows tables rows
        → run p tables args rows ≡ Some r → IsRunOf tables r }
{}

/// A run has no more looks and no more writes than steps, also while it goes on.
pub fn looks_and_writes_are_few()
    ensures going { (p : Program) (tables : Tables) (args : List ℕ) (rows : Rows) (k : ℕ) (s : State)
        → moment p tables k (entry_state args rows) ≡ Going s
        → (length s.looks ≤ s.steps) × (len s.writes ≤ s.steps) }
    ensures run { (p : Program) (tables : Tables) (args : List ℕ) (rows : Rows) (r : Run)
        → run p tables args rows ≡ Some r
        → (length r.looks ≤ r.steps) × (len r.writes ≤ r.steps) }
{}

/// An open call depends on the rows only where it has looked so far. On other rows that are the same there, present or
/// absent, the call is in the same state but for the rows, at the same moment. (`a_run_depends_on_its_looks` is the law
/// of stuck runs.)
pub fn an_open_call_depends_on_its_looks()
    ensures going { (p : Program) (tables : Tables) (args : List ℕ) (m n : Rows) (k : ℕ) (s : State)
        → moment p tables k (entry_state args m) ≡ Going s → AgreeOn (any_covers s.looks) m n
        → moment p tables k (entry_state args n)
        ≡ Going (record s { rows = after_writes s.writes n }) }
    ensures ended { (p : Program) (tables : Tables) (args : List ℕ) (m n : Rows) (k reply : ℕ) (s : State)
        → moment p tables k (entry_state args m) ≡ Ended reply s → AgreeOn (any_covers s.looks) m n
        → moment p tables k (entry_state args n)
        ≡ Ended reply (record s { rows = after_writes s.writes n }) }
{}
