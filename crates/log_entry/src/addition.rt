//! A procedure that is to be added.

ghost use Rattle.std.specs.Prelude.{◌≡◌, ◌≤◌, true, IfOk, IfErr};
ghost use Rattle.schema.specs.declared.limits.TheConstants.{MAX_ARGUMENTS};
ghost use Rattle.bpf_code.specs.Program.{IsProgram};
ghost use Rattle.bpf_verify.specs.Flow.{IsAccepted};
ghost use Rattle.log_model.specs.Name.{is_name};
ghost use Rattle.program_checks.specs.ProgramCheck.{Passed};
ghost use Rattle.program_checks.specs.Check.{check_of};
ghost use Rattle.program_checks.specs.Fault.{IsAdditionFault};

use crate::entry::AddedProcedure;
use bpf_verify::Accepted;
use catalogue::is_name;
use program_checks::{AdditionFault, check_program};
use row_sets::Bytes;
use schema::{OrNoMemory, Schema};
use std::alloc::{AllocError, Allocator};
use std::sync::Arc;

/// A procedure that is to be added, by the bytes of its program.
#[derive(Clone, Copy, Debug, PartialEq, Eq)]
pub struct NamedProgram<'a> {
    pub number: u16,
    /// The number of bytes of its arguments.
    pub args_len: u16,
    pub name: &'a [u8],
    /// The bytes of the program, which may be no program.
    pub program: &'a [u8],
}

/// Returns what is to be ordered, so that a procedure is added to these tables. The program is tested before the name.
pub fn check_addition<A: Allocator + Copy>(
    alloc: A,
    named: NamedProgram<'_>,
    schema: &Schema<A>,
) -> Result<AddedProcedure<A>, OrNoMemory<AdditionFault>>
    requires { named.args_len ≤ MAX_ARGUMENTS }
    ensures named { IfOk result (λ p. (p.name ≡ named.entry.name.now) × (p.number ≡ named.entry.number)) }
    ensures shape { IfOk result (λ p. is_name p.name ≡ true) }
    ensures given { IfOk result (λ p. (p.accepted.tables ≡ schema.now)
        × (p.accepted.args_len ≡ named.entry.args_len)) }
    ensures passed { IfOk result (λ p. check_of schema.now named.entry.args_len named.entry.program.now
        ≡ Passed p.accepted.program) }
    ensures accepted { IfOk result (λ p. IsProgram p.accepted.program × IsAccepted p.accepted) }
    ensures refused { IfErr result (IsAdditionFault named.entry.name.now
        (check_of schema.now named.entry.args_len named.entry.program.now)) }
{
    let accepted = match check_program(alloc, named.program, schema, named.args_len) {
        Ok(accepted) => accepted,
        Err(OrNoMemory::NoMemory) => return Err(OrNoMemory::NoMemory),
        Err(OrNoMemory::Fault(fault)) => {
            return Err(OrNoMemory::Fault(AdditionFault::Program(fault)));
        }
    };
    if !is_name(named.name) {
        return Err(OrNoMemory::Fault(AdditionFault::Name));
    }
    Ok(under_name(alloc, named.name, named.number, accepted)?)
}

/// An accepted program under a name and a number.
fn under_name<A: Allocator + Copy>(
    alloc: A,
    name: &[u8],
    number: u16,
    accepted: Accepted<A, A>,
) -> Result<AddedProcedure<A>, AllocError>
    ensures { IfOk result (λ p. p ≡ record { name = name.now; number = number; accepted = accepted }) }
{
    Ok(AddedProcedure {
        name: Bytes::new(Vec::from_slice(alloc, name)?),
        number,
        accepted: Arc::new(alloc, accepted)?,
    })
}
