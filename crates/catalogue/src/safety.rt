//! Laws of accepted procedures, about the definitions alone.

ghost use Rattle.std.specs.Prelude.{◌≡◌, ℕ, Some};
ghost use Rattle.bpf_code.specs.Program.{IsProgram};
ghost use Rattle.schema.specs.Schema.{Tables, AreTables};
ghost use Rattle.bpf_verify.specs.Flow.{IsAccepted};
ghost use Rattle.log_model.specs.Log.{StoredProcedure, Catalogue, by_number};
ghost use Rattle.log_model.specs.Fit.{IsSafe, AreSafe};

use acceptance::accepted_programs_never_go_wrong;

/// A stored procedure that was accepted, with the tables and the length of its arguments, is safe: the one premise of
/// the model's laws is what the verifier gives.
pub fn accepted_procedures_are_safe()
    ensures { (tables : Tables) (p : StoredProcedure) → IsProgram p.program → AreTables tables
        → IsAccepted (record { program = p.program; tables = tables; args_len = p.args_len })
        → IsSafe tables p }
{
    // Laws:
    accepted_programs_never_go_wrong();
}

/// Procedures that were each accepted with some tables are safe over those tables.
pub fn catalogues_of_accepted_procedures_are_safe()
    ensures { (tables : Tables) (procedures : Catalogue) → AreTables tables
        → ((number : ℕ) (p : StoredProcedure) → by_number procedures number ≡ Some p
        → IsProgram p.program × IsAccepted (record { program = p.program; tables = tables; args_len = p.args_len }))
        → AreSafe tables procedures }
{
    // Laws:
    accepted_procedures_are_safe();
}
