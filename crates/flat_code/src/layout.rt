//! The layout of a program.

ghost use Rattle.std.specs.Prelude.{IfOk};
ghost use Rattle.flat_code.specs.Flat.{LaidOut};

use crate::instruction::FlatInstruction;
use bpf_code::{Code, Instruction};
use std::alloc::{AllocError, Allocator};

/// The layout of a program, in memory of this allocator: 16 bytes a slot, 64 KB for 4,096 slots, by one growth. The
/// second half of a wide load holds an instruction that is never run.
pub fn lay_out<A: Allocator, B: Allocator>(
    alloc: B,
    code: &Code<A>,
) -> Result<Vec<FlatInstruction, B>, AllocError>
    ensures { IfOk result (λ flat. LaidOut code.now flat.items) }
{
    let mut flat = Vec::with_capacity(alloc, code.slots())?;
    for slot in 0..code.slots() {
        let instruction = code.at(slot).unwrap_or(Instruction::Exit);
        flat.push(FlatInstruction::of(instruction))?;
    }
    Ok(flat)
}
