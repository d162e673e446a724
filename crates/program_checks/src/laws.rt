//! The law of the check of a program.

ghost use Rattle.std.specs.Prelude.{◌≡◌, ◌↔◌, ℕ, List, Ok, Err};
ghost use Rattle.bpf_bytes.specs.declared.fault.DecodeFault.{DecodeFault};
ghost use Rattle.bpf_code.specs.Program.{Program};
ghost use Rattle.bpf_bytes.specs.Decoding.{program_of};
ghost use Rattle.schema.specs.Schema.{Tables};
ghost use Rattle.bpf_verify.specs.Refusal.{Cause};
ghost use Rattle.bpf_verify.specs.Flow.{IsAccepted, IsRefused};
ghost use Rattle.program_checks.specs.declared.fault.ProgramFault.TheVariants.{Bytes, Instruction};
ghost use Rattle.program_checks.specs.ProgramCheck.{Passed, Failed};
ghost use Rattle.program_checks.specs.Check.{check_of};

/// A program passes the check exactly where the bytes are its bytes and the verifier accepts it. Else the check has the
/// fault that decoding or the verifier answers.
pub fn programs_pass_where_they_are_accepted()
    ensures passed { (tables : Tables) (args_len : ℕ) (bytes : List ℕ) (program : Program)
        → (check_of tables args_len bytes ≡ Passed program)
        ↔ ((program_of bytes ≡ Ok program)
        × IsAccepted (record { program = program; tables = tables; args_len = args_len })) }
    ensures refused { (tables : Tables) (args_len : ℕ) (bytes : List ℕ) (slot : ℕ) (cause : Cause)
        → (check_of tables args_len bytes ≡ Failed (Instruction slot cause))
        ↔ ((program : Program) × (program_of bytes ≡ Ok program)
        × IsRefused (record { program = program; tables = tables; args_len = args_len }) slot cause) }
    ensures undecoded { (tables : Tables) (args_len : ℕ) (bytes : List ℕ) (fault : DecodeFault)
        → (check_of tables args_len bytes ≡ Failed (Bytes fault)) ↔ (program_of bytes ≡ Err fault) }
{}
