//! The delivery of an addition, in what a replica keeps.

ghost use Rattle.std.specs.Prelude.{◌≡◌, ◌+◌, [], ◌∷◌, ◌++◌, List, true, None, IfOk, OnOk, OnErr};
ghost use Rattle.log_model.specs.declared.verdict.Verdict.TheVariants.{Commit as Commits};
ghost use Rattle.log_model.specs.Log.{DoneRequest, CertifiedItem, by_name, by_number, certified_addition, if_commits};
ghost use Rattle.log_model.specs.Log.{verdict_on_addition};
ghost use Rattle.log_model.specs.Name.{is_name};
ghost use Rattle.catalogue.specs.Stored.{stored, stored_procedures};
ghost use Rattle.certify.specs.Kept.{IsMemoryOf};

use catalogue::StoredProcedures;
use certify::{Certification, Certifications, Certifier};
use log_entry::AddedProcedure;
use log_model::Verdict;
use std::alloc::{AllocError, Allocator};
use std::sync::Arc;

/// The verdict on an addition to these procedures.
fn verdict_on<A: Allocator + Copy, P: Allocator + Copy>(
    procedures: &StoredProcedures<A, P>,
    added: &AddedProcedure<P>,
) -> Verdict
    ensures verdict { result ≡ verdict_on_addition (stored_procedures procedures.now) (stored added.now) }
    ensures unnamed { result ≡ Commits → by_name (stored_procedures procedures.now) added.now.name ≡ None }
    ensures unnumbered { result ≡ Commits → by_number (stored_procedures procedures.now) added.now.number ≡ None }
{
    procedures.verdict_on(added.name.as_slice(), added.number)
}

/// Adds a procedure behind the others, where neither its name nor its number is taken, and returns the verdict on the
/// addition.
fn add_to<A: Allocator + Copy, P: Allocator + Copy>(
    procedures: &mut StoredProcedures<A, P>,
    added: &AddedProcedure<P>,
) -> Result<Verdict, AllocError>
    requires shape { is_name added.now.name ≡ true }
    ensures verdict { IfOk result (λ v. v ≡ verdict_on_addition (stored_procedures procedures.old) (stored added.now)) }
    ensures procedures { IfOk result (λ v. procedures.new
        ≡ if_commits v (procedures.old ++ added.now ∷ []) procedures.old) }
    ensures unchanged { OnErr result (procedures.new ≡ procedures.old) }
    // A taken name or number needs no memory.
    ensures needed { OnErr result (verdict_on_addition (stored_procedures procedures.old) (stored added.now)
        ≡ Commits) }
{
    let verdict = verdict_on(procedures, added);
    if !matches!(verdict, Verdict::Commit) {
        return Ok(verdict);
    }
    let accepted = Arc::try_clone(&added.accepted)?;
    procedures.add(added.name.as_slice(), added.number, accepted)?;
    Ok(Verdict::Commit)
}

/// Takes an addition in at the next position. Room is made for all of it before anything is entered; where there is no
/// memory the certifier, the certifications and the procedures are as before.
pub(crate) fn take_addition<A: Allocator + Copy, P: Allocator + Copy>(
    certifier: &mut Certifier<A>,
    procedures: &mut StoredProcedures<A, P>,
    certifications: &mut Certifications<A>,
    position: u32,
    added: &AddedProcedure<P>,
) -> Result<Certification, AllocError>
    requires next { position ≡ certifier.old.memory.count + 1 }
    requires shape { is_name added.now.name ≡ true }
    ensures certified { IfOk result (λ c. c
        ≡ record {
          verdict = verdict_on_addition (stored_procedures procedures.old) (stored added.now);
          compared = 0;
        }) }
    ensures memory { OnOk result ((done : List DoneRequest) (past : List CertifiedItem) → IsMemoryOf certifier.old.memory done past
        → IsMemoryOf certifier.new.memory done
        (past ++ certified_addition (stored_procedures procedures.old) (stored added.now) ∷ [])) }
    ensures procedures { IfOk result (λ c. procedures.new
        ≡ if_commits c.verdict (procedures.old ++ added.now ∷ []) procedures.old) }
    ensures window { certifier.new.memory.window ≡ certifier.old.memory.window }
    ensures taken { OnOk result (certifier.new.memory.count ≡ position) }
    ensures entered { IfOk result (λ c. certifications.new.items ≡ certifications.old.items ++ c ∷ []) }
    ensures same_memory { OnErr result (certifier.new.memory ≡ certifier.old.memory) }
    ensures same_procedures { OnErr result (procedures.new ≡ procedures.old) }
    ensures same_certifications { OnErr result (certifications.new.items ≡ certifications.old.items) }
{
    certifications.reserve()?;
    let prepared = certifier.prepare_addition()?;
    let verdict = add_to(procedures, added)?;
    let certification = Certification {
        verdict,
        compared: 0,
    };
    certifications.push(certification);
    certifier.keep(position, verdict, prepared);
    Ok(certification)
}
