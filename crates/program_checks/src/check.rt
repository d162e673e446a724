//! The check of a program.

ghost use Rattle.std.specs.Prelude.{◌≡◌, ◌≤◌, IfOk, IfErr};
ghost use Rattle.schema.specs.declared.limits.TheConstants.{MAX_ARGUMENTS};
ghost use Rattle.bpf_code.specs.Program.{IsProgram};
ghost use Rattle.bpf_verify.specs.Flow.{IsAccepted};
ghost use Rattle.program_checks.specs.ProgramCheck.{Passed};
ghost use Rattle.program_checks.specs.Check.{check_of};
ghost use Rattle.program_checks.specs.Fault.{IsFaultOf, IsRefusedFor};

use crate::fault::ProgramFault;
use crate::laws::programs_pass_where_they_are_accepted;
use bpf_bytes::{DecodeCause, decode};
use bpf_code::Code;
use bpf_verify::{Accepted, Refusal, verify};
use schema::{OrNoMemory, Schema};
use std::alloc::Allocator;

/// The program of some bytes, where the verifier accepts it for these tables and arguments of `args_len` bytes.
pub fn check_program<A: Allocator + Copy>(
    alloc: A,
    bytes: &[u8],
    schema: &Schema<A>,
    args_len: u16,
) -> Result<Accepted<A, A>, OrNoMemory<ProgramFault>>
    requires { args_len ≤ MAX_ARGUMENTS }
    ensures given { IfOk result (λ accepted. (accepted.tables ≡ schema.now) × (accepted.args_len ≡ args_len)) }
    ensures passed { IfOk result (λ accepted. check_of schema.now args_len bytes.now ≡ Passed accepted.program) }
    ensures accepted { IfOk result (λ accepted. IsProgram accepted.program × IsAccepted accepted) }
    ensures refused { IfErr result (IsFaultOf (check_of schema.now args_len bytes.now)) }
{
    // Laws:
    programs_pass_where_they_are_accepted();
    match decode(alloc, bytes) {
        Ok(code) => verified(alloc, code, schema, args_len),
        Err(fault) => match fault.cause {
            DecodeCause::NoMemory => Err(OrNoMemory::NoMemory),
            _ => Err(OrNoMemory::Fault(ProgramFault::Bytes(fault))),
        },
    }
}

/// A program, where the verifier accepts it.
fn verified<A: Allocator + Copy>(
    alloc: A,
    code: Code<A>,
    schema: &Schema<A>,
    args_len: u16,
) -> Result<Accepted<A, A>, OrNoMemory<ProgramFault>>
    requires { args_len ≤ MAX_ARGUMENTS }
    ensures given { IfOk result (λ accepted. accepted
        ≡ record { program = code; tables = schema.now; args_len = args_len }) }
    ensures accepted { IfOk result IsAccepted }
    ensures refused { IfErr result
        (IsRefusedFor (record { program = code; tables = schema.now; args_len = args_len })) }
{
    match verify(alloc, code, schema, args_len) {
        Ok(accepted) => Ok(accepted),
        Err(Refusal::NoMemory) => Err(OrNoMemory::NoMemory),
        Err(Refusal::At { slot, cause }) => Err(OrNoMemory::Fault(ProgramFault::Instruction {
            slot,
            cause,
        })),
    }
}
