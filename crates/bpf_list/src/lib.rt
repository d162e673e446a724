//! The listing of a program, a line for each instruction.
#![tactic(auto)]

ghost use Rattle.std.specs.Prelude.{◌≡◌, ◌<◌, [], OnErr};
ghost use Rattle.byte_output.specs.Writes.{WritesText};
ghost use Rattle.byte_output.specs.Pending.{output_of, pending_of, Takes};
ghost use Rattle.bpf_list.specs.Listing.{line_at, listing_of};

use bpf_code::{Code, Instruction};
use byte_output::paged::PagedOutput;
use std::alloc::Allocator;
use std::io;
use std::io::Write;

mod line;
mod name;

fn put_line<W: Write>(
    output: &mut PagedOutput<'_, W>,
    slot: usize,
    begins: Option<Instruction>,
) -> io::Result<()>
    requires { slot < 10000 }
    ensures same_output { (output_of output.new).ghost_name ≡ (output_of output.old).ghost_name }
    ensures bytes { Takes W.contents output.old output.new result (line_at slot begins) }
    ensures given_up { OnErr result (pending_of output.new ≡ []) }
{
    let Some(instruction) = begins else {
        return Ok(());
    };
    output.put(&line::line(slot, instruction))
}

/// Writes a line for each instruction: the slot, its bytes, its name and its fields; then flushes. No memory is
/// allocated; an error comes only from the output.
pub fn listing<A: Allocator, W: Write>(code: &Code<A>, output: &mut W) -> io::Result<()>
    // At `Ok` the listing was appended, at `Err` a beginning of it.
    ensures { WritesText (W.contents output.old) (W.contents output.new) result (listing_of code.now) }
{
    let mut pages = PagedOutput::new(output);
    put_listing(code, &mut pages)?;
    pages.finish()
}

/// Gives the same lines to an output with a page in front of it, and flushes nothing.
pub fn put_listing<A: Allocator, W: Write>(
    code: &Code<A>,
    output: &mut PagedOutput<'_, W>,
) -> io::Result<()>
    ensures same_output { (output_of output.new).ghost_name ≡ (output_of output.old).ghost_name }
    // At `Ok` the listing was given; at `Err` a beginning of what was pending and of it has left, and
    // nothing is pending.
    ensures bytes { Takes W.contents output.old output.new result (listing_of code.now) }
    ensures given_up { OnErr result (pending_of output.new ≡ []) }
{
    for slot in 0..code.slots() {
        put_line(output, slot, code.at(slot))?;
    }
    Ok(())
}
