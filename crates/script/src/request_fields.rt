//! The fields of a request in a line.

ghost use Rattle.std.specs.Prelude.{◌≡◌, ◌⊎◌, ◌≤◌, Ok, Err, IfOk, IfErr, Some, None, MatchResult};
ghost use Rattle.script.specs.Line.{few_bytes, request_said};
ghost use Rattle.script.specs.Text.{bytes_of_hex};
ghost use Rattle.script.specs.declared.fault.LineFault.TheVariants.{Field, NoMemory};

use crate::fault::LineFault;
use crate::hex_field::read_hex;
use crate::number::{read_count, read_u16, read_u32, read_u64};
use row_sets::Bytes;
use schema::MAX_ARGUMENTS;
use std::alloc::Allocator;

/// The fields of a request that was done: the last of its session, with the reply and the call. The arguments are a
/// `B`.
#[derive(Drop)]
pub struct RequestFields<B> {
    /// The session, from 1 on.
    pub session: u32,
    /// The number within the session; 0 where it has done nothing.
    pub sequence: u32,
    pub reply: u64,
    /// The number of the call's procedure.
    pub procedure: u16,
    /// The call's arguments, at most 256 bytes.
    pub args: B,
}

/// The bytes of arguments that a field gives in hex, or none where it is `-`.
fn read_args<A: Allocator>(alloc: A, field: &str) -> Result<Bytes<A>, LineFault>
    ensures { MatchResult result (λ bytes. few_bytes (bytes_of_hex field.now) ≡ Some bytes)
        (λ fault. (fault ≡ NoMemory) ⊎ ((fault ≡ Field) × (few_bytes (bytes_of_hex field.now) ≡ None))) }
{
    let bytes = read_hex(alloc, field)?;
    if bytes.as_slice().len() > usize::from(MAX_ARGUMENTS) {
        return Err(LineFault::Field);
    }
    Ok(bytes)
}

/// Reads the fields of a request.
pub(crate) fn read_request<A: Allocator>(
    alloc: A,
    session: &str,
    sequence: &str,
    reply: &str,
    procedure: &str,
    args: &str,
) -> Result<RequestFields<Bytes<A>>, LineFault>
    ensures exact { IfOk result (λ r.
        request_said session.now sequence.now reply.now procedure.now args.now ≡ Ok r) }
    ensures fault { IfErr result (λ fault. (fault ≡ NoMemory)
        ⊎ (request_said session.now sequence.now reply.now procedure.now args.now ≡ Err fault)) }
    ensures limits { IfOk result (λ r. 1 ≤ r.session) }
{
    Ok(RequestFields {
        session: read_count(session)?,
        sequence: read_u32(sequence)?,
        reply: read_u64(reply)?,
        procedure: read_u16(procedure)?,
        args: read_args(alloc, args)?,
    })
}
