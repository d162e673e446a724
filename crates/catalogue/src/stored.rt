//! The laws of stored procedures.

ghost use Rattle.std.specs.Prelude.{◌≡◌, ℕ, List, [], ◌∷◌, ◌++◌, true, Some, None};
ghost use Rattle.bpf_verify.specs.Flow.{Procedure};
ghost use Rattle.log_model.specs.Log.{StoredProcedure, by_number, by_name};
ghost use Rattle.log_model.specs.Name.{is_name};
ghost use Rattle.catalogue.specs.Stored.{ListedProcedure, WasAccepted, AreStored, stored_procedures};

use crate::procedures::StoredProcedures;
use bpf_verify::Accepted;
use std::alloc::Allocator;

/// Stored procedures are consistent: each was accepted, no two have a number or a name in common, and each name is one.
pub fn stored_procedures_are_consistent<A: Allocator + Copy, P: Allocator>(
    procedures: &StoredProcedures<A, P>,
)
    ensures { AreStored procedures.now }
{
    procedures.known();
}

/// The procedure of a name is also the procedure of its number.
pub fn found_by_name_is_found_by_number()
    ensures { (procedures : List ListedProcedure) (name : List ℕ) (p : StoredProcedure) → AreStored procedures
        → by_name (stored_procedures procedures) name ≡ Some p
        → by_number (stored_procedures procedures) p.number ≡ Some p }
{}

/// A procedure that was accepted, of a name and a number that no other has, is stored with the others.
pub(crate) fn one_more_is_stored()
    ensures { (procedures : List ListedProcedure) (name : List ℕ) (number : ℕ) (accepted : Procedure)
        → AreStored procedures → WasAccepted accepted → is_name name ≡ true
        → by_name (stored_procedures procedures) name ≡ None
        → by_number (stored_procedures procedures) number ≡ None
        → AreStored (procedures ++ record { name = name; number = number; accepted = accepted } ∷ []) }
{}
