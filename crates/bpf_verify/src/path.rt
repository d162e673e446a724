//! The number of slots that an instruction leads on.
ghost use Rattle.std.specs.Prelude.{◌≡◌, ◌<◌, ◌^◌, IfSome};
ghost use Rattle.bpf_semantics.specs.Path.{fall_through, jump_of};

use bpf_code::Instruction;

/// Returns the number of slots to the next instruction; none where the instruction always jumps, or ends.
pub(crate) fn fall_through(instruction: Instruction) -> Option<usize>
    ensures slots { result ≡ fall_through instruction }
    ensures near { IfSome result (λ n. n < 2 ^ 32) }
{
    match instruction {
        Instruction::LoadWide { .. } => Some(2),
        Instruction::Jump { .. } | Instruction::LongJump { .. } | Instruction::Exit => None,
        _ => Some(1),
    }
}

/// Returns the number of slots to the jump's target; none where the instruction doesn't jump.
pub(crate) fn jump_of(instruction: Instruction) -> Option<usize>
    ensures slots { result ≡ jump_of instruction }
    ensures near { IfSome result (λ n. n < 2 ^ 32) }
{
    let distance = match instruction {
        Instruction::Jump { distance } => i32::from(distance),
        Instruction::Branch { distance, .. } => i32::from(distance),
        Instruction::LongJump { distance } => distance,
        _ => return None,
    };
    match usize::try_from(distance) {
        Ok(distance) => Some(1 + distance),
        Err(_) => None,
    }
}
