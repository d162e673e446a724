//! A procedure that is to be added.

ghost use Rattle.std.specs.Prelude.{◌≡◌, ◌≤◌, IfOk};
ghost use Rattle.schema.specs.declared.limits.TheConstants.{MAX_ARGUMENTS};
ghost use Rattle.site_model.specs.Answer.{addition_answer};
ghost use Rattle.site.specs.Replica.{setting_of};
ghost use Rattle.site.specs.Answered.{added};
ghost use Rattle.log_entry.specs.Named.{named_of};

use crate::state::SiteReplica;
use log_entry::{Entry, NamedProgram, check_addition};
use program_checks::AdditionFault;
use schema::OrNoMemory;
use site_model::{AdditionAnswer, AdditionRefusal};
use std::alloc::{AllocError, Allocator};

/// Checks a procedure that is to be added. Returns what is to be ordered, or the cause for which the procedure can't be
/// added. Changes nothing.
pub fn add<A: Allocator + Copy>(
    site: &SiteReplica<A>,
    named: NamedProgram<'_>,
) -> Result<AdditionAnswer<Entry<A>>, AllocError>
    requires { named.args_len ≤ MAX_ARGUMENTS }
    ensures { IfOk result (λ answer. added answer ≡ addition_answer (setting_of site.now) (named_of named.entry)) }
{
    match check_addition(site.allocator(), named, site.catalogue().schema()) {
        Err(OrNoMemory::NoMemory) => Err(AllocError),
        Err(OrNoMemory::Fault(AdditionFault::Program(fault))) => {
            Ok(AdditionAnswer::Refused(AdditionRefusal::Program(fault)))
        }
        Err(OrNoMemory::Fault(AdditionFault::Name)) => {
            Ok(AdditionAnswer::Refused(AdditionRefusal::Name))
        }
        Ok(_) if !site.takes_additions() => {
            Ok(AdditionAnswer::Refused(AdditionRefusal::NoAdditions))
        }
        Ok(added) => Ok(AdditionAnswer::Submitted(Entry::Addition(added))),
    }
}
