//! The command `check`, over any input and output.

ghost use Rattle.std.specs.Prelude.{◌≡◌, ◌≢◌, ◌⊎◌, ◌≤◌, Err, IfErr, IfOk, IfSome};
ghost use Rattle.std.specs.Io.KnownBytes.{Appends};
ghost use Rattle.schema.specs.declared.limits.TheConstants.{MAX_ARGUMENTS};
ghost use Rattle.byte_output.specs.Writes.{AppendsBeginning, WritesText};
ghost use Rattle.schema.specs.Schema.{schema_of};
ghost use Rattle.bpf_bytes.specs.Decoding.{program_of};
ghost use Rattle.program_commands.specs.Checking.{IsVerdictOf, OfVerdict, verdict_text, verdict_status};
ghost use Rattle.program_commands.specs.Failures.{IsBeforeOutput, IsSaid, Leaves};
ghost use Rattle.schema.specs.declared.or_no_memory.OrNoMemory.{OrNoMemory};
ghost use Rattle.program_commands.specs.declared.failure.StreamFault.{StreamFault};
ghost use Rattle.byte_output.specs.declared.status.TheConstants.{FAILED};

use crate::failure::{StreamFault, say};
use crate::source::read_program;
use crate::verdict::CheckVerdict;
use bpf_verify::{Refusal, verify};
use byte_output::{FAILED, put};
use schema::{OrNoMemory, Schema, SchemaFault};
use std::alloc::Allocator;
use std::io;
use std::io::{Read, Write};

/// Checks the program in the input, for arguments of `args_len` bytes and for these tables. Each pair of `tables` is a
/// table's number and its row width. Writes the line that says whether the program is accepted, and returns 0 or 1.
/// Returns 3 where a stream or memory failed, and says that to `faults`. The input isn't read where the tables are no
/// schema.
pub fn check_over<A: Allocator + Copy, R: Read, W: Write, E: Write>(
    alloc: A,
    input: &mut R,
    output: &mut W,
    faults: &mut E,
    args_len: u16,
    tables: &[(u8, u16)],
) -> u8
    requires { args_len ≤ MAX_ARGUMENTS }

    // The status is that of the verdict, or something failed.
    ensures range { ((result ≡ 0) ⊎ (result ≡ 1)) ⊎ (result ≡ FAILED) }
    ensures status { IfSome (R.remaining input.old) (λ bytes. result ≢ FAILED →
        OfVerdict args_len (schema_of tables.now) (program_of bytes) (λ verdict. result ≡ verdict_status verdict)) }

    // Where nothing failed, the verdict's whole line was written.
    ensures whole { IfSome (R.remaining input.old) (λ bytes. result ≢ FAILED →
        OfVerdict args_len (schema_of tables.now) (program_of bytes) (λ verdict.
        Appends (W.contents output.old) (W.contents output.new) (verdict_text verdict))) }

    // Else memory was wanting or the input failed, and the output is as it was; or the output failed, and has a
    // beginning of the line. What failed is said, as far as the writer takes it.
    ensures failed { result ≡ FAILED → (failure : OrNoMemory StreamFault)
        × Leaves (IfSome (R.remaining input.old) (λ bytes.
        OfVerdict args_len (schema_of tables.now) (program_of bytes) (λ verdict.
        AppendsBeginning (W.contents output.old) (W.contents output.new) (verdict_text verdict))))
        (W.contents output.old) (W.contents output.new) failure
        × IsSaid (E.contents faults.old) (E.contents faults.new) failure }

    // Nothing is said where nothing failed.
    ensures silent { result ≢ FAILED → faults.new ≡ faults.old }

    // The schema is made first: nothing is read where the tables are no schema.
    ensures unread { (fault : SchemaFault) → schema_of tables.now ≡ Err fault → input.new ≡ input.old }
{
    match check(alloc, input, output, args_len, tables) {
        Ok(verdict) => verdict.status(),
        Err(failure) => {
            say(faults, &failure);
            FAILED
        }
    }
}

/// Does what `check_over` does, and returns what failed as an error.
fn check<A: Allocator + Copy, R: Read, W: Write>(
    alloc: A,
    input: &mut R,
    output: &mut W,
    args_len: u16,
    tables: &[(u8, u16)],
) -> Result<CheckVerdict, OrNoMemory<StreamFault>>
    requires { args_len ≤ MAX_ARGUMENTS }
    ensures verdict { IfOk result (λ verdict. IfSome (R.remaining input.old) (λ bytes.
        IsVerdictOf args_len (schema_of tables.now) (program_of bytes) verdict)) }
    ensures ok { IfOk result (λ verdict.
        Appends (W.contents output.old) (W.contents output.new) (verdict_text verdict)) }
    ensures err { IfErr result (Leaves (IfSome (R.remaining input.old) (λ bytes.
        OfVerdict args_len (schema_of tables.now) (program_of bytes) (λ verdict.
        AppendsBeginning (W.contents output.old) (W.contents output.new) (verdict_text verdict))))
        (W.contents output.old) (W.contents output.new)) }
    ensures unread { (fault : SchemaFault) → schema_of tables.now ≡ Err fault → input.new ≡ input.old }
{
    let verdict = verdict(alloc, input, args_len, tables)?;
    match print(&verdict.line(), output) {
        Ok(()) => Ok(verdict),
        Err(error) => Err(OrNoMemory::Fault(StreamFault::Output(error))),
    }
}

/// Prints a line, and flushes the output.
fn print<W: Write>(line: &[u8], output: &mut W) -> io::Result<()>
    ensures { WritesText (W.contents output.old) (W.contents output.new) result line.now }
{
    put(output, line)?;
    output.flush()
}

/// Returns what is said of the program in the input. The error is the input's, or want of memory.
fn verdict<A: Allocator + Copy, R: Read>(
    alloc: A,
    input: &mut R,
    args_len: u16,
    tables: &[(u8, u16)],
) -> Result<CheckVerdict, OrNoMemory<StreamFault>>
    requires { args_len ≤ MAX_ARGUMENTS }
    ensures verdict { IfOk result (λ verdict. IfSome (R.remaining input.old) (λ bytes.
        IsVerdictOf args_len (schema_of tables.now) (program_of bytes) verdict)) }
    // No output is touched, and none has failed.
    ensures before { IfErr result IsBeforeOutput }
    ensures unread { (fault : SchemaFault) → schema_of tables.now ≡ Err fault → input.new ≡ input.old }
{
    let schema = match Schema::new(alloc, tables) {
        Ok(schema) => schema,
        Err(SchemaFault::NoMemory) => return Err(OrNoMemory::NoMemory),
        Err(fault) => return Ok(CheckVerdict::NoSchema(fault)),
    };
    let code = match read_program(alloc, input)? {
        Ok(code) => code,
        Err(fault) => return Ok(CheckVerdict::NoProgram(fault)),
    };
    let slots = code.slots();
    match verify(alloc, code, &schema, args_len) {
        Ok(accepted) => Ok(CheckVerdict::Accepted {
            slots,
            bound: accepted.bound(),
        }),
        Err(Refusal::At { slot, cause }) => Ok(CheckVerdict::Refused { slot, cause }),
        Err(Refusal::NoMemory) => Err(OrNoMemory::NoMemory),
    }
}
