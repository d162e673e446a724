ghost use Rattle.std.specs.Prelude.{◌≡◌, ◌<◌, ◌≤◌, None, Some, length, slice_index_or, IfErr, OnOk};
ghost use Rattle.bpf_code.specs.Program.{max_slots};
ghost use Rattle.bpf_code.specs.Program.{distance_of};
ghost use Rattle.bpf_bytes.specs.Decoding.{jump_fault, jump_faults, exit_fault};

use crate::fault::{DecodeCause, DecodeFault};
use bpf_code::Instruction;

fn distance(instruction: Instruction) -> Option<i32>
    ensures { result ≡ distance_of instruction }
{
    match instruction {
        Instruction::Jump { distance } => Some(i32::from(distance)),
        Instruction::Branch { distance, .. } => Some(i32::from(distance)),
        Instruction::LongJump { distance } => Some(distance),
        _ => None,
    }
}

/// Checks that the jump in this slot, where there is a jump, goes forward to an instruction.
#[tactic(auto, unfolding(crate::specs::Decoding::jump_fault))]
fn check_jump(slots: &[Option<Instruction>], slot: usize) -> Result<(), DecodeFault>
    requires within { slot < length slots.now }
    requires short { length slots.now ≤ max_slots }
    ensures none { OnOk result (jump_fault slots.now slot (slice_index_or slots.now slot None) ≡ None) }
    ensures fault { IfErr result (λ e. jump_fault slots.now slot (slice_index_or slots.now slot None) ≡ Some e) }
{
    let Some(distance) = slots[slot].and_then(distance) else {
        return Ok(());
    };
    let fault = |cause: DecodeCause| DecodeFault {
        cause,
        slot: slot as u16,
    };
    if distance < 0 {
        return Err(fault(DecodeCause::JumpBackwards));
    }
    match slots.get(slot + 1 + distance as usize) {
        None => Err(fault(DecodeCause::JumpPastEnd)),
        Some(None) => Err(fault(DecodeCause::JumpIntoWideLoad)),
        Some(Some(_)) => Ok(()),
    }
}

/// Checks that each jump goes forward to an instruction; the fault is that of the first jump that doesn't.
pub fn check_jumps(slots: &[Option<Instruction>]) -> Result<(), DecodeFault>
    requires { length slots.now ≤ max_slots }
    ensures none { OnOk result (jump_faults slots.now 0 slots.now ≡ None) }
    ensures fault { IfErr result (λ e. jump_faults slots.now 0 slots.now ≡ Some e) }
{
    for slot in 0..slots.len() {
        check_jump(slots, slot)?;
    }
    Ok(())
}

/// Checks that the last instruction is EXIT.
#[tactic(auto, unfolding(crate::specs::Decoding::exit_fault))]
pub fn check_exit(slots: &[Option<Instruction>]) -> Result<(), DecodeFault>
    requires some { 0 < length slots.now }
    requires short { length slots.now ≤ max_slots }
    ensures none { OnOk result (exit_fault slots.now ≡ None) }
    ensures fault { IfErr result (λ e. exit_fault slots.now ≡ Some e) }
{
    let last = slots.len() - 1;
    let begins = match slots[last] {
        Some(Instruction::Exit) => return Ok(()),
        Some(_) => last,
        None => last.saturating_sub(1),
    };
    Err(DecodeFault {
        cause: DecodeCause::NoExit,
        slot: begins as u16,
    })
}
