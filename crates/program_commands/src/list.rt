//! The command `list`, over any input and output.

ghost use Rattle.std.specs.Prelude.{◌≡◌, ◌≢◌, ◌⊎◌, IfErr, IfOk, IfSome};
ghost use Rattle.std.specs.Io.KnownBytes.{Appends};
ghost use Rattle.byte_output.specs.Writes.{AppendsBeginning, WritesText};
ghost use Rattle.byte_output.specs.Pending.{output_of, Takes};
ghost use Rattle.bpf_bytes.specs.Decoding.{program_of};
ghost use Rattle.program_commands.specs.Failures.{IsSaid, Leaves};
ghost use Rattle.program_commands.specs.Listing.{refused_text, listing_text, listing_status};
ghost use Rattle.schema.specs.declared.or_no_memory.OrNoMemory.{OrNoMemory};
ghost use Rattle.program_commands.specs.declared.failure.StreamFault.{StreamFault};
ghost use Rattle.byte_output.specs.declared.status.TheConstants.{FAILED};

use crate::failure::{StreamFault, say};
use crate::source::read_program;
use bpf_bytes::DecodeFault;
use bpf_code::Code;
use bpf_list::put_listing;
use byte_output::FAILED;
use byte_output::line::{LineBuffer, push, push_unsigned};
use byte_output::paged::PagedOutput;
use schema::OrNoMemory;
use std::alloc::Allocator;
use std::io;
use std::io::{Read, Write};

/// Lists the program in the input. Writes the listing and returns 0, or writes the line that refuses the program and
/// returns 1. Returns 3 where a stream or memory failed, and says that to `faults`.
pub fn list_over<A: Allocator + Copy, R: Read, W: Write, E: Write>(
    alloc: A,
    input: &mut R,
    output: &mut W,
    faults: &mut E,
) -> u8
    // The status is that of the bytes, or something failed.
    ensures range { ((result ≡ 0) ⊎ (result ≡ 1)) ⊎ (result ≡ FAILED) }
    ensures status { IfSome (R.remaining input.old) (λ bytes.
        (result ≡ FAILED) ⊎ (result ≡ listing_status (program_of bytes))) }

    // Where nothing failed, the whole text was written.
    ensures whole { IfSome (R.remaining input.old) (λ bytes.
        result ≢ FAILED → Appends (W.contents output.old) (W.contents output.new) (listing_text (program_of bytes))) }

    // Else memory was wanting or the input failed, and the output is as it was; or the output failed, and has a
    // beginning of the text. What failed is said, as far as the writer takes it.
    ensures failed { result ≡ FAILED → (failure : OrNoMemory StreamFault)
        × Leaves (IfSome (R.remaining input.old) (λ bytes.
        AppendsBeginning (W.contents output.old) (W.contents output.new) (listing_text (program_of bytes))))
        (W.contents output.old) (W.contents output.new) failure
        × IsSaid (E.contents faults.old) (E.contents faults.new) failure }

    // Nothing is said where nothing failed.
    ensures silent { result ≢ FAILED → faults.new ≡ faults.old }
{
    match list(alloc, input, output) {
        Ok(status) => status,
        Err(failure) => {
            say(faults, &failure);
            FAILED
        }
    }
}

/// Does what `list_over` does, and returns what failed as an error.
fn list<A: Allocator + Copy, R: Read, W: Write>(
    alloc: A,
    input: &mut R,
    output: &mut W,
) -> Result<u8, OrNoMemory<StreamFault>>
    ensures ok { IfOk result (λ status. IfSome (R.remaining input.old) (λ bytes.
        Appends (W.contents output.old) (W.contents output.new) (listing_text (program_of bytes))
        × (status ≡ listing_status (program_of bytes)))) }
    ensures range { IfOk result (λ status. (status ≡ 0) ⊎ (status ≡ 1)) }
    ensures err { IfErr result (Leaves (IfSome (R.remaining input.old) (λ bytes.
        AppendsBeginning (W.contents output.old) (W.contents output.new) (listing_text (program_of bytes))))
        (W.contents output.old) (W.contents output.new)) }
{
    let decoded = read_program(alloc, input)?;
    match print(&decoded, output) {
        Ok(()) => Ok(status_of(&decoded)),
        Err(error) => Err(OrNoMemory::Fault(StreamFault::Output(error))),
    }
}

/// The exit status of what was decoded.
fn status_of<A: Allocator>(decoded: &Result<Code<A>, DecodeFault>) -> u8
    ensures { result ≡ listing_status decoded.now }
{
    match decoded {
        Ok(_) => 0,
        Err(_) => 1,
    }
}

/// Prints what was decoded, and flushes the output.
fn print<A: Allocator, W: Write>(
    decoded: &Result<Code<A>, DecodeFault>,
    output: &mut W,
) -> io::Result<()>
    ensures { WritesText (W.contents output.old) (W.contents output.new) result (listing_text decoded.now) }
{
    let mut pages = PagedOutput::new(output);
    put_decoded(decoded, &mut pages)?;
    pages.finish()
}

/// Puts what was decoded into the page.
fn put_decoded<A: Allocator, W: Write>(
    decoded: &Result<Code<A>, DecodeFault>,
    output: &mut PagedOutput<'_, W>,
) -> io::Result<()>
    ensures same_output { (output_of output.new).ghost_name ≡ (output_of output.old).ghost_name }
    ensures bytes { Takes W.contents output.old output.new result (listing_text decoded.now) }
{
    match decoded {
        Ok(code) => put_listing(code, output),
        Err(fault) => output.put(&refused_line(*fault)),
    }
}

/// The line that refuses a program, such as `refused B3 slot 0`.
pub(crate) fn refused_line(fault: DecodeFault) -> LineBuffer
    ensures { result.items ≡ refused_text fault }
{
    let mut line = LineBuffer::new();
    push_unsigned(&mut line, "refused B", u64::from(fault.cause.number()));
    push_unsigned(&mut line, " slot ", u64::from(fault.slot));
    push(&mut line, b"\n");
    line
}
