//! Laws of each step of the world: the answers that a step may give, the conditions of each answer, and what the step
//! leaves. Where memory suffices, the conditions of a step's answers exclude each other, so that each is given exactly
//! there. Want of memory comes only in place of an answer that takes memory.

ghost use Rattle.std.specs.Prelude.{◌≡◌, ◌≢◌, ◌⊎◌, ◌↔◌, ◌+◌, ◌<◌, ◌≤◌, ℕ, ℤ, true, false, List, [], ◌∷◌, ◌++◌, length};
ghost use Rattle.std.specs.Prelude.{Option, Some, None, IsSome, IsTrue};
ghost use Rattle.std.specs.FinMap.{len};
ghost use Rattle.schema.specs.declared.limits.TheConstants.{MAX_ARGUMENTS};
ghost use Rattle.bpf_code.specs.Program.{Program};
ghost use Rattle.log_model.specs.declared.request.RequestId.{RequestId};
ghost use Rattle.log_model.specs.declared.verdict.Verdict.{Verdict};
ghost use Rattle.program_checks.specs.declared.fault.ProgramFault.{ProgramFault};
ghost use Rattle.dsm_model.specs.declared.outcome.StepRefusal.TheVariants.{NoReplica, NoProcedure, ArgumentsLength};
ghost use Rattle.dsm_model.specs.declared.outcome.StepRefusal.TheVariants as step_refusal;
ghost use Rattle.dsm_model.specs.declared.outcome.StepRefusal.TheVariants.{NoCall, NotAtExit, NothingToDeliver};
ghost use Rattle.dsm_model.specs.declared.outcome.StepRefusal.TheVariants.{ReplicaStopped, LogFull};
ghost use Rattle.dsm_model.specs.declared.outcome.StepRefusal.TheVariants.{TooManyCalls, ArgumentsLimit};
ghost use Rattle.dsm_model.specs.declared.outcome.StepRefusal.TheVariants.{ProgramRefused, NameShape, ZeroInRequest};
ghost use Rattle.dsm_model.specs.declared.outcome.Outcome.{Outcome};
ghost use Rattle.dsm_model.specs.declared.outcome.Outcome.TheVariants.{Begun, More, Exit, Stale, NoMemory, Ordered};
ghost use Rattle.dsm_model.specs.declared.outcome.Outcome.TheVariants.{Read, Cancelled, Delivered, Rebuilt, Added};
ghost use Rattle.dsm_model.specs.declared.outcome.Outcome.TheVariants.{Refused};
ghost use Rattle.log_model.specs.Log.{StoredProcedure, Setting, CallItem, AdditionItem, by_number, procedures_after};
ghost use Rattle.log_model.specs.Log.{procedure_of, run_in, verdict_of, moment_at};
ghost use Rattle.log_model.specs.Name.{is_name};
ghost use Rattle.dsm_model.specs.World.{World, Replica, Step, Begin, Turn, Order, Deliver, Rebuild, max_calls, Add};
ghost use Rattle.dsm_model.specs.World.{call_count, is_answer, numbered, position_of, open_call, with_open_call};
ghost use Rattle.dsm_model.specs.World.{with_replica, IsStep};
ghost use Rattle.log_model.specs.OpenCall.{OpenCall, makes_look, at_row_helper};
ghost use Rattle.log_model.specs.OpenRequest.{has_zero};
ghost use Rattle.program_checks.specs.ProgramCheck.{ProgramCheck, Passed, Failed};

/// A call begins as the next of the world's, at the position of its replica, with no instruction run. The call is
/// refused where there is no such replica; else, where there is no such procedure at the replica's position; else,
/// where the arguments have another length than the procedure's; else, where its request has a 0; else, where the world
/// has had all its calls and additions.
pub fn calls_begin_where_their_replica_is()
    ensures begun { (w : Setting) (before : World) (r procedure : ℕ) (args : List ℕ) (request : Option RequestId)
        (c snapshot : ℕ) (after : World)
        → IsStep w before (Begin r procedure args request) (Begun c snapshot) after
        → (replica : Replica) × (stored : StoredProcedure)
        × (numbered before.replicas r ≡ Some replica)
        × (by_number (procedures_after w before.log replica.position) procedure ≡ Some stored)
        × (length args ≡ stored.args_len) × (has_zero request ≡ false) × (call_count before < max_calls)
        × (c ≡ length before.calls + 1) × (snapshot ≡ replica.position)
        × (after ≡ record {
          log = before.log;
          replicas = before.replicas;
          calls = before.calls ++ Some (record {
            replica = r;
            call = record {
              number = c;
              procedure = procedure;
              args = args;
              snapshot = snapshot;
              request = request;
            };
            turns = 0;
          }) ∷ [];
        }) }
    ensures no_replica { (w : Setting) (before : World) (r procedure : ℕ) (args : List ℕ) (request : Option RequestId)
        (after : World)
        → IsStep w before (Begin r procedure args request) (Refused NoReplica) after
        → numbered before.replicas r ≡ None }
    ensures no_procedure { (w : Setting) (before : World) (r procedure : ℕ) (args : List ℕ)
        (request : Option RequestId) (after : World)
        → IsStep w before (Begin r procedure args request) (Refused NoProcedure) after
        → (replica : Replica) × (numbered before.replicas r ≡ Some replica)
        × (by_number (procedures_after w before.log replica.position) procedure ≡ None) }
    ensures arguments { (w : Setting) (before : World) (r procedure : ℕ) (args : List ℕ) (request : Option RequestId)
        (after : World)
        → IsStep w before (Begin r procedure args request) (Refused ArgumentsLength) after
        → (replica : Replica) × (stored : StoredProcedure) × (numbered before.replicas r ≡ Some replica)
        × (by_number (procedures_after w before.log replica.position) procedure ≡ Some stored)
        × (length args ≢ stored.args_len) }
    ensures zero { (w : Setting) (before : World) (r procedure : ℕ) (args : List ℕ) (request : Option RequestId)
        (after : World)
        → IsStep w before (Begin r procedure args request) (Refused ZeroInRequest) after
        → (replica : Replica) × (stored : StoredProcedure) × (numbered before.replicas r ≡ Some replica)
        × (by_number (procedures_after w before.log replica.position) procedure ≡ Some stored)
        × (length args ≡ stored.args_len) × (has_zero request ≡ true) }
    ensures many { (w : Setting) (before : World) (r procedure : ℕ) (args : List ℕ) (request : Option RequestId)
        (after : World)
        → IsStep w before (Begin r procedure args request) (Refused TooManyCalls) after
        → (replica : Replica) × (stored : StoredProcedure) × (numbered before.replicas r ≡ Some replica)
        × (by_number (procedures_after w before.log replica.position) procedure ≡ Some stored)
        × (length args ≡ stored.args_len) × (has_zero request ≡ false) × (max_calls ≤ call_count before) }
{}

/// A turn is one instruction of the call's run on the rows of its snapshot: more, while there is a next instruction;
/// else Exit with the run's reply, and so again. The turn is stale where the instruction looks at rows and the replica
/// is more than the window past the snapshot; the call is over then. Memory may be refused only where the instruction
/// calls a helper that reads or writes rows; the call is over then too.
pub fn turns_follow_the_run()
    ensures more { (w : Setting) (before : World) (c : ℕ) (after : World)
        → IsStep w before (Turn c) More after
        → (o : OpenCall) × (open_call before c ≡ Some o) × (o.turns + 1 < (run_in w before.log o.call).steps)
        × (after ≡ with_open_call before c
        (Some (record { replica = o.replica; call = o.call; turns = o.turns + 1 }))) }
    ensures exit { (w : Setting) (before : World) (c reply : ℕ) (after : World)
        → IsStep w before (Turn c) (Exit reply) after
        → (o : OpenCall) × (open_call before c ≡ Some o) × ((run_in w before.log o.call).steps ≤ o.turns + 1)
        × (reply ≡ (run_in w before.log o.call).reply)
        × (after ≡ with_open_call before c (Some (record {
          replica = o.replica;
          call = o.call;
          turns = (run_in w before.log o.call).steps;
        }))) }
    ensures stale { (w : Setting) (before : World) (c : ℕ) (after : World)
        → IsStep w before (Turn c) Stale after
        → (o : OpenCall) × (open_call before c ≡ Some o) × IsTrue (makes_look w before.log o)
        × (o.call.snapshot + w.window < position_of (numbered before.replicas o.replica))
        × (after ≡ with_open_call before c None) }
    ensures kept { (w : Setting) (before : World) (c : ℕ) (o : OpenCall) (outcome : Outcome) (after : World)
        → IsStep w before (Turn c) outcome after → outcome ≢ Stale → open_call before c ≡ Some o
        → IsTrue (makes_look w before.log o)
        → position_of (numbered before.replicas o.replica) ≤ o.call.snapshot + w.window }
    ensures memory { (w : Setting) (before : World) (c : ℕ) (after : World)
        → IsStep w before (Turn c) NoMemory after
        → (o : OpenCall) × (open_call before c ≡ Some o)
        × IsTrue (at_row_helper (procedure_of w before.log o.call) (moment_at w before.log o.call o.turns))
        × (after ≡ with_open_call before c None) }
    ensures no_call { (w : Setting) (before : World) (c : ℕ) (after : World)
        → IsStep w before (Turn c) (Refused NoCall) after → open_call before c ≡ None }
{}

/// A call that has come to its end and is ordered is over. The call is appended to the log, and its position answered,
/// where its run wrote something and didn't cancel. The code is answered where the run cancelled, and the reply where
/// it wrote nothing.
pub fn calls_are_ordered_at_their_end()
    ensures ordered { (w : Setting) (before : World) (c position : ℕ) (after : World)
        → IsStep w before (Order c) (Ordered position) after
        → (o : OpenCall) × (open_call before c ≡ Some o) × ((run_in w before.log o.call).steps ≤ o.turns)
        × ((run_in w before.log o.call).cancel_code ≡ None) × (len (run_in w before.log o.call).writes ≢ 0)
        × (position ≡ length before.log + 1) × (length before.log < max_calls)
        × (after ≡ with_open_call
        (record {
          log = before.log ++ CallItem o.call ∷ [];
          replicas = before.replicas;
          calls = before.calls;
        }) c None) }
    ensures full { (w : Setting) (before : World) (c : ℕ) (after : World)
        → IsStep w before (Order c) (Refused LogFull) after
        → (o : OpenCall) × (open_call before c ≡ Some o) × ((run_in w before.log o.call).steps ≤ o.turns)
        × ((run_in w before.log o.call).cancel_code ≡ None) × (len (run_in w before.log o.call).writes ≢ 0)
        × (max_calls ≤ length before.log) × (after ≡ with_open_call before c None) }
    ensures cancelled { (w : Setting) (before : World) (c snapshot code : ℕ) (after : World)
        → IsStep w before (Order c) (Cancelled snapshot code) after
        → (o : OpenCall) × (open_call before c ≡ Some o) × ((run_in w before.log o.call).steps ≤ o.turns)
        × ((run_in w before.log o.call).cancel_code ≡ Some code) × (snapshot ≡ o.call.snapshot)
        × (after ≡ with_open_call before c None) }
    ensures read { (w : Setting) (before : World) (c snapshot reply : ℕ) (after : World)
        → IsStep w before (Order c) (Read snapshot reply) after
        → (o : OpenCall) × (open_call before c ≡ Some o) × ((run_in w before.log o.call).steps ≤ o.turns)
        × ((run_in w before.log o.call).cancel_code ≡ None) × (len (run_in w before.log o.call).writes ≡ 0)
        × (snapshot ≡ o.call.snapshot) × (reply ≡ (run_in w before.log o.call).reply)
        × (after ≡ with_open_call before c None) }
    ensures early { (w : Setting) (before : World) (c : ℕ) (after : World)
        → IsStep w before (Order c) (Refused NotAtExit) after
        → (o : OpenCall) × (open_call before c ≡ Some o) × (o.turns < (run_in w before.log o.call).steps) }
    ensures no_call { (w : Setting) (before : World) (c : ℕ) (after : World)
        → IsStep w before (Order c) (Refused NoCall) after → open_call before c ≡ None }
{}

/// A replica that runs delivers the next position of the log, with its verdict. No position is delivered where the
/// replica has delivered all of the log, and where it is stopped.
pub fn replicas_deliver_in_order()
    ensures delivered { (w : Setting) (before : World) (r position : ℕ) (v : Verdict) (after : World)
        → IsStep w before (Deliver r) (Delivered position v) after
        → (replica : Replica) × (numbered before.replicas r ≡ Some replica) × (replica.stopped ≡ false)
        × (position ≡ replica.position + 1) × (verdict_of w before.log position ≡ Some v)
        × (after ≡ with_replica before r (record { position = position; stopped = false })) }
    ensures nothing { (w : Setting) (before : World) (r : ℕ) (after : World)
        → IsStep w before (Deliver r) (Refused NothingToDeliver) after
        → (replica : Replica) × (numbered before.replicas r ≡ Some replica) × (length before.log ≤ replica.position) }
    ensures stopped { (w : Setting) (before : World) (r : ℕ) (after : World)
        → IsStep w before (Deliver r) (Refused ReplicaStopped) after
        → (replica : Replica) × (numbered before.replicas r ≡ Some replica) × (replica.position < length before.log)
        × (replica.stopped ≡ true) }
    ensures no_replica { (w : Setting) (before : World) (r : ℕ) (after : World)
        → IsStep w before (Deliver r) (Refused NoReplica) after → numbered before.replicas r ≡ None }
{}

/// A replica that is rebuilt has delivered all of the log, and runs.
pub fn rebuilt_replicas_are_at_the_end()
    ensures rebuilt { (w : Setting) (before : World) (r position : ℕ) (after : World)
        → IsStep w before (Rebuild r) (Rebuilt position) after
        → IsSome (numbered before.replicas r) × (position ≡ length before.log)
        × (after ≡ with_replica before r (record { position = position; stopped = false })) }
    ensures no_replica { (w : Setting) (before : World) (r : ℕ) (after : World)
        → IsStep w before (Rebuild r) (Refused NoReplica) after → numbered before.replicas r ≡ None }
{}

/// An addition is appended to the log at once, and its position answered. The addition is refused where the world has
/// had all its calls and additions; else, where its arguments would be longer than 256 bytes; else, where its program
/// didn't pass the check; else, where its name isn't one.
pub fn additions_are_appended_at_once()
    ensures added { (w : Setting) (before : World) (name : List ℕ) (number args_len : ℕ) (checked : ProgramCheck)
        (position : ℕ)
        (after : World) → IsStep w before (Add name number args_len checked) (Added position) after
        → (program : Program) × (checked ≡ Passed program) × (call_count before < max_calls)
        × (args_len ≤ MAX_ARGUMENTS)
        × (is_name name ≡ true) × (position ≡ length before.log + 1)
        × (after ≡ record {
          log = before.log ++ AdditionItem
              (record { name = name; number = number; program = program; args_len = args_len }) ∷ [];
          replicas = before.replicas;
          calls = before.calls;
        }) }
    ensures many { (w : Setting) (before : World) (name : List ℕ) (number args_len : ℕ) (checked : ProgramCheck)
        (after : World)
        → IsStep w before (Add name number args_len checked) (Refused TooManyCalls) after
        → max_calls ≤ call_count before }
    ensures long { (w : Setting) (before : World) (name : List ℕ) (number args_len : ℕ) (checked : ProgramCheck)
        (after : World)
        → IsStep w before (Add name number args_len checked) (Refused ArgumentsLimit) after
        → (call_count before < max_calls) × (MAX_ARGUMENTS < args_len) }
    ensures program { (w : Setting) (before : World) (name : List ℕ) (number args_len : ℕ) (checked : ProgramCheck)
        (fault : ProgramFault) (after : World)
        → IsStep w before (Add name number args_len checked) (Refused (ProgramRefused fault)) after
        → (call_count before < max_calls) × (args_len ≤ MAX_ARGUMENTS) × (checked ≡ Failed fault) }
    ensures name { (w : Setting) (before : World) (name : List ℕ) (number args_len : ℕ) (checked : ProgramCheck)
        (after : World)
        → IsStep w before (Add name number args_len checked) (Refused NameShape) after
        → (program : Program) × (checked ≡ Passed program) × (call_count before < max_calls)
        × (args_len ≤ MAX_ARGUMENTS)
        × (is_name name ≡ false) }
{}

/// A step answers nothing but its own answers.
pub fn each_step_has_its_answers()
    ensures { (w : Setting) (before : World) (step : Step) (outcome : Outcome) (after : World)
        → IsStep w before step outcome after → IsTrue (is_answer step outcome) }
{}

/// Memory is wanted only in place of an answer that takes memory.
pub fn memory_is_wanted_in_place_of_an_answer()
    ensures begin { (w : Setting) (before : World) (r procedure : ℕ) (args : List ℕ) (request : Option RequestId)
        (after : World)
        → IsStep w before (Begin r procedure args request) (Refused step_refusal.NoMemory) after
        → (c : ℕ) × (snapshot : ℕ) × (other : World)
        × IsStep w before (Begin r procedure args request) (Begun c snapshot) other }
    ensures order { (w : Setting) (before : World) (c : ℕ) (after : World)
        → IsStep w before (Order c) (Refused step_refusal.NoMemory) after
        → (position : ℕ) × (other : World) × IsStep w before (Order c) (Ordered position) other }
    ensures deliver { (w : Setting) (before : World) (r : ℕ) (after : World)
        → IsStep w before (Deliver r) (Refused step_refusal.NoMemory) after
        → (position : ℕ) × (v : Verdict) × (other : World)
        × IsStep w before (Deliver r) (Delivered position v) other }
    ensures rebuild { (w : Setting) (before : World) (r : ℕ) (after : World)
        → IsStep w before (Rebuild r) (Refused step_refusal.NoMemory) after
        → (position : ℕ) × (other : World) × IsStep w before (Rebuild r) (Rebuilt position) other }
    ensures add { (w : Setting) (before : World) (name : List ℕ) (number args_len : ℕ) (checked : ProgramCheck)
        (after : World)
        → IsStep w before (Add name number args_len checked) (Refused step_refusal.NoMemory) after
        → (call_count before < max_calls) × (args_len ≤ MAX_ARGUMENTS) }
{}
