//! Laws of open calls: which requests have a 0, and what the next instruction does.

ghost use Rattle.std.specs.Prelude.{◌≡◌, ◌≢◌, ◌⊎◌, ◌↔◌, ◌+◌, ◌++◌, ◌∷◌, [], ℕ, ℤ, false, Option, Some, None, IsTrue};
ghost use Rattle.bpf_code.specs.declared.instruction.Instruction.TheVariants.{Call as CallInstruction};
ghost use Rattle.bpf_code.specs.Program.{instruction_at};
ghost use Rattle.schema.specs.declared.look.Look.{Look};
ghost use Rattle.schema.specs.declared.helper.Helper.{Helper};
ghost use Rattle.schema.specs.declared.helper.Helper.TheVariants.{Cancel};
ghost use Rattle.schema.specs.Helper.{helper_of};
ghost use Rattle.bpf_semantics.specs.State.{State};
ghost use Rattle.bpf_semantics.specs.Step.{Going, Ended, Stuck};
ghost use Rattle.log_model.specs.declared.request.RequestId.{RequestId};
ghost use Rattle.log_model.specs.Log.{StoredProcedure, Setting, Log, moment_at};
ghost use Rattle.log_model.specs.Fit.{IsCall};
ghost use Rattle.log_model.specs.OpenCall.{OpenCall, makes_look, at_row_helper};
ghost use Rattle.log_model.specs.OpenRequest.{given_request, has_zero};

/// A session and a number give no request where both are 0, and else the request of both. A request has a 0 where its
/// session or its number is 0.
pub fn requests_may_have_a_zero()
    ensures none { (session sequence : ℕ)
        → (given_request session sequence ≡ None) ↔ ((session ≡ 0) × (sequence ≡ 0)) }
    ensures given { (session sequence : ℕ) (request : RequestId) → given_request session sequence ≡ Some request
        → request ≡ record { session = session; sequence = sequence } }
    ensures zero { (request : RequestId)
        → IsTrue (has_zero (Some request)) ↔ ((request.session ≡ 0) ⊎ (request.sequence ≡ 0)) }
    ensures without { has_zero None ≡ false }
{}

/// The next instruction of a call that isn't stuck looks exactly where the run goes on behind it with one more look, so
/// never at the end. The instruction calls a helper that reads or writes rows exactly where it calls a helper other
/// than the cancel.
pub fn what_the_next_instruction_does()
    ensures look { (w : Setting) (log : Log) (o : OpenCall)
        → IsCall w log o.call → moment_at w log o.call (o.turns + 1) ≢ Stuck
        → IsTrue (makes_look w log o)
        ↔ ((s : State) × (t : State) × (look : Look)
        × (moment_at w log o.call o.turns ≡ Going s) × (moment_at w log o.call (o.turns + 1) ≡ Going t)
        × (t.looks ≡ s.looks ++ look ∷ [])) }
    ensures helper { (p : StoredProcedure) (s : State)
        → IsTrue (at_row_helper (Some p) (Going s))
        ↔ ((n : ℤ) × (h : Helper) × (instruction_at p.program s.slot ≡ Some (CallInstruction n))
        × (helper_of n ≡ Some h) × (h ≢ Cancel)) }
    ensures ended { (p : Option StoredProcedure) (reply : ℕ) (s : State)
        → at_row_helper p (Ended reply s) ≡ false }
{}
