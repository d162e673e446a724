//! The fields of a procedure in a line.

ghost use Rattle.std.specs.Prelude.{◌≡◌, ◌⊎◌, ◌≤◌, Ok, Err, IfOk, IfErr};
ghost use Rattle.schema.specs.declared.limits.TheConstants.{MAX_ARGUMENTS};
ghost use Rattle.script.specs.Line.{procedure_said};
ghost use Rattle.script.specs.declared.fault.LineFault.TheVariants.{NoMemory};

use crate::fault::LineFault;
use crate::fields::read_name;
use crate::hex_field::read_hex;
use crate::number::{read_args_len, read_u16};
use row_sets::Bytes;
use std::alloc::Allocator;

/// The fields of a procedure in a line. The name and the program are a `B`.
#[derive(Drop)]
pub struct ProcedureFields<B> {
    pub name: B,
    pub number: u16,
    /// The length of the arguments, 0 to 256.
    pub args_len: u16,
    pub program: B,
}

/// Reads the fields of a procedure.
pub fn read_procedure<A: Allocator + Copy>(
    alloc: A,
    name: &str,
    number: &str,
    args_len: &str,
    program: &str,
) -> Result<ProcedureFields<Bytes<A>>, LineFault>
    ensures exact { IfOk result (λ p. procedure_said name.now number.now args_len.now program.now ≡ Ok p) }
    ensures fault { IfErr result (λ fault. (fault ≡ NoMemory)
        ⊎ (procedure_said name.now number.now args_len.now program.now ≡ Err fault)) }
    ensures limits { IfOk result (λ p. p.args_len ≤ MAX_ARGUMENTS) }
{
    Ok(ProcedureFields {
        name: read_name(alloc, name)?,
        number: read_u16(number)?,
        args_len: read_args_len(args_len)?,
        program: read_hex(alloc, program)?,
    })
}
