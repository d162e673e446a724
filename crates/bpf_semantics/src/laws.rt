//! Laws that follow from the definitions, for every program, all arguments and all rows.

ghost use Rattle.std.specs.Prelude.{◌≡◌, ◌↔◌, All, ℕ, ◌+◌, ◌≤◌, List, length, Some, None, IsSome};
ghost use Rattle.std.specs.FinMap.{empty};
ghost use Rattle.bpf_code.specs.Program.{Program};
ghost use Rattle.schema.specs.Schema.{Tables};
ghost use Rattle.schema.specs.Rows.{Rows, Writes, AgreeOn, any_covers, after_writes};
ghost use Rattle.bpf_semantics.specs.State.{State, entry_state};
ghost use Rattle.bpf_semantics.specs.Step.{Moment, Going, Ended, Stuck, step};
ghost use Rattle.bpf_semantics.specs.Run.{Run, moment, run, run_of};
ghost use Rattle.bpf_semantics.specs.Agree.{AgreeOnLooks, in_tables, same_on, AreElsewhere, after_each};
ghost use Rattle.bpf_semantics.specs.Path.{longest_path, instructions};

/// A stuck run stays stuck, and an ended run stays as it ended.
pub fn the_end_stays()
    ensures stuck { (p : Program) (tables : Tables) (k n : ℕ) (s : State)
        → moment p tables k s ≡ Stuck → moment p tables (n + k) s ≡ Stuck }
    ensures ended { (p : Program) (tables : Tables) (k n reply : ℕ) (s t : State)
        → moment p tables k s ≡ Ended reply t → moment p tables (n + k) s ≡ Ended reply t }
{}

/// A run exists where some moment has ended, and is what is read off there. No run exists exactly where the moment
/// after one step more than there are slots is stuck.
pub fn a_run_ends_or_is_stuck()
    ensures ended { (p : Program) (tables : Tables) (args : List ℕ) (rows : Rows) (k reply : ℕ) (s : State)
        → moment p tables k (entry_state args rows) ≡ Ended reply s
        → run p tables args rows ≡ Some (run_of rows reply s) }
    ensures stuck { (p : Program) (tables : Tables) (args : List ℕ) (rows : Rows)
        → (run p tables args rows ≡ None)
        ↔ (moment p tables (length p + 1) (entry_state args rows) ≡ Stuck) }
{}

/// A run has no more steps than the longest path has instructions; the longest path has no more than the program.
pub fn runs_are_short()
    ensures path { (p : Program) (tables : Tables) (args : List ℕ) (rows : Rows) (r : Run)
        → run p tables args rows ≡ Some r → r.steps ≤ longest_path p }
    ensures instructions { (p : Program) → longest_path p ≤ instructions p }
{}

/// A run that didn't cancel leaves the rows after its writes; a run that cancelled leaves the rows as they were.
pub fn the_effect_is_that_of_the_writes()
    ensures kept { (p : Program) (tables : Tables) (args : List ℕ) (rows : Rows) (r : Run)
        → run p tables args rows ≡ Some r → r.cancel_code ≡ None → r.effect ≡ after_writes r.writes rows }
    ensures cancelled { (p : Program) (tables : Tables) (args : List ℕ) (rows : Rows) (r : Run)
        → run p tables args rows ≡ Some r → IsSome r.cancel_code → (r.effect ≡ rows) × (r.writes ≡ empty) }
{}

/// A run depends on the rows only where it looks. On other rows that are the same there, present or absent, a run that
/// ended is the same but for its effect. A run that goes on is in the same state but for the rows; a stuck run is stuck
/// after as many steps.
pub fn a_run_depends_on_its_looks()
    ensures same { (p : Program) (tables : Tables) (args : List ℕ) (m n : Rows) (r : Run)
        → run p tables args m ≡ Some r → AgreeOn (any_covers r.looks) m n
        → run p tables args n ≡ Some (same_on n r) }
    ensures going { (p : Program) (tables : Tables) (args : List ℕ) (m n : Rows)
        → AgreeOnLooks p tables args m n → (k : ℕ) (s : State)
        → moment p tables k (entry_state args m) ≡ Going s
        → moment p tables k (entry_state args n) ≡ Going (record s { rows = after_writes s.writes n }) }
    ensures stuck { (p : Program) (tables : Tables) (args : List ℕ) (m n : Rows)
        → AgreeOnLooks p tables args m n → (k : ℕ)
        → (moment p tables k (entry_state args m) ≡ Stuck)
        ↔ (moment p tables k (entry_state args n) ≡ Stuck) }
    ensures none { (p : Program) (tables : Tables) (args : List ℕ) (m n : Rows)
        → AgreeOnLooks p tables args m n
        → (run p tables args m ≡ None) ↔ (run p tables args n ≡ None) }
{}

/// A run depends on the rows of the schema's tables alone. On other rows that are the same in those tables, a run that
/// ended is the same but for its effect. A run that goes on is in the same state but for the rows; a stuck run is stuck
/// after as many steps.
pub fn a_run_depends_on_its_schemas_tables()
    ensures same { (p : Program) (tables : Tables) (args : List ℕ) (m n : Rows) (r : Run)
        → run p tables args m ≡ Some r → AgreeOn (in_tables tables) m n
        → run p tables args n ≡ Some (same_on n r) }
    ensures going { (p : Program) (tables : Tables) (args : List ℕ) (m n : Rows)
        → AgreeOn (in_tables tables) m n → (k : ℕ) (s : State)
        → moment p tables k (entry_state args m) ≡ Going s
        → moment p tables k (entry_state args n) ≡ Going (record s { rows = after_writes s.writes n }) }
    ensures stuck { (p : Program) (tables : Tables) (args : List ℕ) (m n : Rows)
        → AgreeOn (in_tables tables) m n → (k : ℕ)
        → (moment p tables k (entry_state args m) ≡ Stuck)
        ↔ (moment p tables k (entry_state args n) ≡ Stuck) }
    ensures none { (p : Program) (tables : Tables) (args : List ℕ) (m n : Rows)
        → AgreeOn (in_tables tables) m n
        → (run p tables args m ≡ None) ↔ (run p tables args n ≡ None) }
{}

/// Writes to keys that an ended run didn't look at change nothing of the run but its effect.
pub fn writes_elsewhere_leave_the_run()
    ensures once { (p : Program) (tables : Tables) (args : List ℕ) (rows : Rows) (r : Run) (writes : Writes)
        → run p tables args rows ≡ Some r → AreElsewhere r.looks writes
        → run p tables args (after_writes writes rows) ≡ Some (same_on (after_writes writes rows) r) }
    ensures each { (p : Program) (tables : Tables) (args : List ℕ) (rows : Rows) (r : Run) (later : List Writes)
        → run p tables args rows ≡ Some r → All (AreElsewhere r.looks) later
        → run p tables args (after_each later rows) ≡ Some (same_on (after_each later rows) r) }
{}
