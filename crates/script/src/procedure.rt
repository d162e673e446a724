//! One more procedure.

ghost use Rattle.std.specs.Prelude.{◌≡◌, ◌⊎◌, ◌≤◌, None, Some, Ok, Err, IfOk, IfErr, OnOk, OnErr};
ghost use Rattle.schema.specs.declared.limits.TheConstants.{MAX_ARGUMENTS};
ghost use Rattle.bpf_bytes.specs.Decoding.{program_of};
ghost use Rattle.script.specs.Settings.{caused, verified, program_for, with_procedure};
ghost use Rattle.script.specs.declared.cause.FaultCause.TheVariants.{NoMemory, Program};

use crate::cause::FaultCause;
use bpf_bytes::{DecodeCause, decode};
use bpf_code::Code;
use bpf_verify::{Accepted, Refusal, verify};
use catalogue::{Catalogue, CatalogueFault};
use schema::Schema;
use std::alloc::Allocator;

/// Adds a procedure behind the others. Decodes its bytes, verifies the program for the catalogue's tables, and stores
/// the procedure.
#[tactic(auto, unfolding(crate::specs::Settings::with_procedure))]
pub(crate) fn add_procedure<A: Allocator + Copy>(
    alloc: A,
    catalogue: &mut Catalogue<A>,
    name: &[u8],
    number: u16,
    args_len: u16,
    bytes: &[u8],
) -> Result<(), FaultCause>
    requires { args_len ≤ MAX_ARGUMENTS }
    ensures ok { OnOk result (with_procedure catalogue.old name.now number args_len bytes.now ≡ Ok catalogue.new) }
    ensures fault { IfErr result (λ cause. (cause ≡ NoMemory)
        ⊎ (with_procedure catalogue.old name.now number args_len bytes.now ≡ Err cause)) }
    ensures unchanged { OnErr result (catalogue.new ≡ catalogue.old) }
    ensures tables { catalogue.new.tables ≡ catalogue.old.tables }
{
    let code = program(alloc, bytes)?;
    let accepted = accepted(alloc, code, catalogue.schema(), args_len)?;
    match catalogue.add(name, number, accepted) {
        Ok(()) => Ok(()),
        Err(CatalogueFault::NoMemory) => Err(FaultCause::NoMemory),
        Err(fault) => Err(FaultCause::Procedure(fault)),
    }
}

/// Decodes the program of some bytes.
fn program<A: Allocator>(alloc: A, bytes: &[u8]) -> Result<Code<A>, FaultCause>
    ensures ok { IfOk result (λ code. program_of bytes.now ≡ Ok code) }
    ensures fault { IfErr result (λ cause. (cause ≡ NoMemory)
        ⊎ (caused Program (program_of bytes.now) ≡ Err cause)) }
{
    match decode(alloc, bytes) {
        Ok(code) => Ok(code),
        Err(fault) => match fault.cause {
            DecodeCause::NoMemory => Err(FaultCause::NoMemory),
            _ => Err(FaultCause::Program(fault)),
        },
    }
}

/// Accepts a program for these tables and arguments of `args_len` bytes.
#[tactic(auto, using(crate::proofs::AcceptanceLemmas::verified_accepted, crate::proofs::AcceptanceLemmas::verified_refused))]
fn accepted<A: Allocator + Copy>(
    alloc: A,
    code: Code<A>,
    schema: &Schema<A>,
    args_len: u16,
) -> Result<Accepted<A, A>, FaultCause>
    requires { args_len ≤ MAX_ARGUMENTS }
    ensures tables { IfOk result (λ accepted. accepted.tables ≡ schema.now) }
    ensures ok { IfOk result (λ accepted. verified (program_for schema.now args_len code) ≡ Ok accepted) }
    ensures fault { IfErr result (λ cause. (cause ≡ NoMemory)
        ⊎ (verified (program_for schema.now args_len code) ≡ Err cause)) }
{
    match verify(alloc, code, schema, args_len) {
        Ok(accepted) => Ok(accepted),
        Err(Refusal::NoMemory) => Err(FaultCause::NoMemory),
        Err(Refusal::At { slot, cause }) => Err(FaultCause::Refused(Refusal::At { slot, cause })),
    }
}
