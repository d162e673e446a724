//! Laws of worlds: the first world, changes of one call or replica, what refused steps leave, where calls end, and the
//! agreement of replicas.

ghost use Rattle.std.specs.Prelude.{◌≡◌, ◌≢◌, ◌+◌, ◌<◌, ◌≤◌, ◌++◌, ℕ, true, List, [], ◌∷◌, Some, None, IsSome, Option};
ghost use Rattle.std.specs.Prelude.{◌⊎◌, false, length};
ghost use Rattle.log_model.specs.declared.request.RequestId.{RequestId};
ghost use Rattle.dsm_model.specs.declared.outcome.Outcome.{Outcome};
ghost use Rattle.dsm_model.specs.declared.outcome.Outcome.TheVariants.{Begun, Exit, More, Stale, NoMemory, Refused};
ghost use Rattle.log_model.specs.Log.{Call, Setting, StoredProcedure, Log, procedure_of, run_in};
ghost use Rattle.dsm_model.specs.World.{World, Replica, Step, Begin, Turn, Order, Deliver, Rebuild, Add, max_calls};
ghost use Rattle.dsm_model.specs.World.{first_world, numbered, open_call, with_open_call, with_replica, IsStep};
ghost use Rattle.dsm_model.specs.World.{AreSteps};
ghost use Rattle.log_model.specs.OpenCall.{OpenCall};
ghost use Rattle.program_checks.specs.ProgramCheck.{ProgramCheck};
ghost use Rattle.dsm_model.specs.declared.outcome.StepRefusal.{StepRefusal};
ghost use Rattle.dsm_model.specs.declared.outcome.StepRefusal.TheVariants.{NotAtExit, LogFull};
ghost use Rattle.dsm_model.specs.declared.outcome.StepRefusal.TheVariants as step_refusal;
ghost use Rattle.bpf_semantics.specs.Path.{longest_path};
ghost use Rattle.log_model.specs.Fit.{BeginsSafely};
ghost use Rattle.dsm_model.specs.Sound.{AreGiven, IsWorld};
ghost use Rattle.dsm_model.specs.Worlds.{delivered_items, HasExited, IsCallNumbered, IsPrefix, turns_of};

/// A change of one call or replica is made there, and leaves the others and the rest; a call that begins is open under
/// its number.
pub fn each_change_is_of_one()
    ensures call { (world : World) (c : ℕ) (o : Option OpenCall)
        → IsSome (numbered world.calls c) → numbered (with_open_call world c o).calls c ≡ Some o }
    ensures other_calls { (world : World) (c d : ℕ) (o : Option OpenCall)
        → d ≢ c → numbered (with_open_call world c o).calls d ≡ numbered world.calls d }
    ensures replica { (world : World) (r : ℕ) (replica : Replica)
        → IsSome (numbered world.replicas r) → numbered (with_replica world r replica).replicas r ≡ Some replica }
    ensures other_replicas { (world : World) (r q : ℕ) (replica : Replica)
        → q ≢ r → numbered (with_replica world r replica).replicas q ≡ numbered world.replicas q }
    ensures rest { (world : World) (c r : ℕ) (o : Option OpenCall) (replica : Replica)
        → ((with_open_call world c o).log ≡ world.log) × ((with_open_call world c o).replicas ≡ world.replicas)
        × ((with_replica world r replica).log ≡ world.log) × ((with_replica world r replica).calls ≡ world.calls) }
    ensures begun { (w : Setting) (before : World) (r procedure : ℕ) (args : List ℕ) (request : Option RequestId)
        (c snapshot : ℕ) (after : World)
        → IsStep w before (Begin r procedure args request) (Begun c snapshot) after
        → open_call after c ≡ Some (record {
          replica = r;
          call = record {
            number = c;
            procedure = procedure;
            args = args;
            snapshot = snapshot;
            request = request;
          };
          turns = 0;
        }) }
{}

/// The first world has n replicas that run at position 0, and neither a log nor a call. Each list of steps leads on
/// from any world.
pub fn there_are_worlds()
    ensures replicas { (n k : ℕ) → k < n
        → numbered (first_world n).replicas (k + 1) ≡ Some (record { position = 0; stopped = false }) }
    ensures no_more { (n k : ℕ) → n ≤ k → numbered (first_world n).replicas (k + 1) ≡ None }
    ensures nothing { (n : ℕ) → ((first_world n).log ≡ []) × ((first_world n).calls ≡ []) }
    ensures steps { (w : Setting) (before : World) (steps : List Step)
        → (outcomes : List Outcome) × (after : World) × AreSteps w before steps outcomes after }
{}

/// The turns of a call that ran an instruction are those that answered More or Exit.
pub fn turns_that_run_are_counted()
    ensures more { (c : ℕ) (steps : List Step) (outcomes : List Outcome)
        → turns_of c (Turn c ∷ steps) (More ∷ outcomes) ≡ 1 + turns_of c steps outcomes }
    ensures exit { (c reply : ℕ) (steps : List Step) (outcomes : List Outcome)
        → turns_of c (Turn c ∷ steps) (Exit reply ∷ outcomes) ≡ 1 + turns_of c steps outcomes }
    ensures other_calls { (c d : ℕ) (steps : List Step) (outcome : Outcome) (outcomes : List Outcome)
        → d ≢ c → turns_of c (Turn d ∷ steps) (outcome ∷ outcomes) ≡ turns_of c steps outcomes }
{}

/// A call has come to its end where as many of its turns ran an instruction as its procedure's longest path has. One of
/// these turns has answered Exit, with the reply of the call's run. The call was open before these steps, or one of
/// them began it, and it may be over since. A call that is still open is at its end.
pub fn enough_turns_reach_exit()
    ensures exit { (w : Setting) (before : World) (steps : List Step) (outcomes : List Outcome)
        (after : World) (c : ℕ) (call : Call) (p : StoredProcedure)
        → BeginsSafely w → AreGiven w steps outcomes → IsWorld w before
        → AreSteps w before steps outcomes after
        → IsCallNumbered before steps outcomes c call → procedure_of w after.log call ≡ Some p
        → longest_path p.program ≤ turns_of c steps outcomes
        → HasExited c (run_in w after.log call).reply steps outcomes }
    ensures end { (w : Setting) (before : World) (steps : List Step) (outcomes : List Outcome)
        (after : World) (c : ℕ) (call : Call) (o : OpenCall) (p : StoredProcedure)
        → BeginsSafely w → AreGiven w steps outcomes → IsWorld w before
        → AreSteps w before steps outcomes after
        → IsCallNumbered before steps outcomes c call → procedure_of w after.log call ≡ Some p
        → longest_path p.program ≤ turns_of c steps outcomes
        → open_call after c ≡ Some o → o.turns ≡ (run_in w after.log o.call).steps }
{}

/// A step leaves the log or appends to it, and a call stays the same while it is open. The reply that a turn answered
/// at Exit stays that of the call's run, however much longer the log becomes. The call's entry carries the same reply.
pub fn open_calls_keep_their_replies()
    ensures log { (w : Setting) (before : World) (step : Step) (outcome : Outcome) (after : World)
        → IsStep w before step outcome after → (more : Log) × (after.log ≡ before.log ++ more) }
    ensures call { (w : Setting) (before : World) (step : Step) (outcome : Outcome) (after : World) (c : ℕ)
        (o later : OpenCall)
        → IsStep w before step outcome after → open_call before c ≡ Some o → open_call after c ≡ Some later
        → later.call ≡ o.call }
    ensures reply { (w : Setting) (world : World) (c : ℕ) (o : OpenCall) (more : Log)
        → IsWorld w world → open_call world c ≡ Some o
        → run_in w (world.log ++ more) o.call ≡ run_in w world.log o.call }
    ensures exit { (w : Setting) (before : World) (c reply : ℕ) (after : World) (o : OpenCall) (more : Log)
        → IsWorld w before → IsStep w before (Turn c) (Exit reply) after → open_call before c ≡ Some o
        → (run_in w (before.log ++ more) o.call).reply ≡ reply }
{}

/// Two replicas of one log agree: the items that one of them has delivered begin with those of the other.
pub fn replicas_agree()
    ensures { (log : Log) (a b : Replica)
        → IsPrefix (delivered_items log a) (delivered_items log b)
        ⊎ IsPrefix (delivered_items log b) (delivered_items log a) }
{}

/// A refused step changes nothing, unless memory is wanted or the log is full. Then a call that was to be ordered is
/// over, and a replica that was to deliver is stopped at its position.
pub fn refused_steps_change_nothing()
    ensures nothing { (w : Setting) (before : World) (step : Step) (refusal : StepRefusal) (after : World)
        → IsStep w before step (Refused refusal) after → refusal ≢ step_refusal.NoMemory → refusal ≢ LogFull
        → after ≡ before }
    ensures begin { (w : Setting) (before : World) (r procedure : ℕ) (args : List ℕ) (request : Option RequestId)
        (after : World)
        → IsStep w before (Begin r procedure args request) (Refused step_refusal.NoMemory) after → after ≡ before }
    ensures order { (w : Setting) (before : World) (c : ℕ) (after : World)
        → IsStep w before (Order c) (Refused step_refusal.NoMemory) after → after ≡ with_open_call before c None }
    ensures deliver { (w : Setting) (before : World) (r : ℕ) (after : World)
        → IsStep w before (Deliver r) (Refused step_refusal.NoMemory) after
        → (replica : Replica) × (numbered before.replicas r ≡ Some replica)
        × (after ≡ with_replica before r (record { position = replica.position; stopped = true })) }
    ensures rebuild { (w : Setting) (before : World) (r : ℕ) (after : World)
        → IsStep w before (Rebuild r) (Refused step_refusal.NoMemory) after → after ≡ before }
    ensures add { (w : Setting) (before : World) (name : List ℕ) (number args_len : ℕ) (checked : ProgramCheck)
        (after : World)
        → IsStep w before (Add name number args_len checked) (Refused step_refusal.NoMemory) after → after ≡ before }
{}

/// A call is over after any answer of its order but that it isn't at EXIT. After a turn that is stale or finds no
/// memory it is over too. A call that is over stays over.
pub fn calls_end()
    ensures order { (w : Setting) (before : World) (c : ℕ) (outcome : Outcome) (after : World)
        → IsStep w before (Order c) outcome after
        → (outcome ≡ Refused NotAtExit) ⊎ (open_call after c ≡ None) }
    ensures stale { (w : Setting) (before : World) (c : ℕ) (after : World)
        → IsStep w before (Turn c) Stale after → open_call after c ≡ None }
    ensures memory { (w : Setting) (before : World) (c : ℕ) (after : World)
        → IsStep w before (Turn c) NoMemory after → open_call after c ≡ None }
    ensures stays { (w : Setting) (before : World) (step : Step) (outcome : Outcome) (after : World) (c : ℕ)
        → IsStep w before step outcome after → numbered before.calls c ≡ Some None
        → numbered after.calls c ≡ Some None }
{}

/// The log never outgrows its limit, and no step finds it full.
pub fn the_log_is_never_full()
    ensures few { (w : Setting) (world : World) → IsWorld w world → length world.log ≤ max_calls }
    ensures never { (w : Setting) (before : World) (step : Step) (after : World)
        → IsWorld w before → IsStep w before step (Refused LogFull) after → ⊥ }
{}
