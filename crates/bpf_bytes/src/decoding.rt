ghost use Rattle.std.specs.Prelude.{◌≡◌, ◌∷◌, Ok, Err, ◌⊎◌, ◌<◌, ◌≤◌, ◌+◌, ◌*◌, ◌%◌, ◌^◌, ◌++◌, List, Option};
ghost use Rattle.std.specs.Prelude.{Some, None, length, vec_len, vec_capacity, IfOk, IfErr, IfSome, OnOk};
ghost use Rattle.std.specs.Prelude.{true, false};
ghost use Rattle.bpf_code.specs.Program.{max_slots};
ghost use Rattle.bpf_bytes.specs.declared.fault.DecodeCause.TheVariants.{NoMemory};
ghost use Rattle.bpf_bytes.specs.Fields.{bytes_of, slots_of};
ghost use Rattle.bpf_bytes.specs.declared.fields.Fields.{Fields};
ghost use Rattle.bpf_code.specs.Program.{Program, IsInRange, AllInRange, is_wide as wide, distance_of};
ghost use Rattle.bpf_bytes.specs.Spelling.{spelling};
ghost use Rattle.bpf_code.specs.Program.{instruction_at, IsProgram};
ghost use Rattle.bpf_bytes.specs.Decoding.{fault as fault_at, with_front, completed_load as completed_by};
ghost use Rattle.bpf_bytes.specs.Decoding.{reading_of_slots as slots_read, jump_fault as fault_of_jump, jump_faults};
ghost use Rattle.bpf_bytes.specs.Decoding.{exit_fault, program_of};
ghost use Rattle.bpf_bytes.specs.Spelling.{fields_of, second_half, instruction_bytes};
ghost use Rattle.bpf_bytes.specs.Steps.{half_bytes, half_count, IsFirstHalf, IsHalf};

use crate::fault::{DecodeCause, DecodeFault};
use crate::fields::Fields;
use crate::jumps::{check_exit, check_jumps};
use crate::reading::{read, read_half};
use bpf_code::{Code, Instruction, MAX_SLOTS};
use std::alloc::Allocator;

fn is_wide(instruction: Instruction) -> bool
    ensures { result ≡ wide instruction }
{
    matches!(instruction, Instruction::LoadWide { .. })
}

/// The wide load of its first half and the upper half of its value.
#[tactic(auto, unfolding(crate::specs::Spelling::instruction_bytes, crate::specs::Spelling::fields_of))]
fn completed_load(first: Instruction, high: u32) -> Instruction
    requires { IsFirstHalf first }
    ensures value { result ≡ completed_by first high }
    ensures bytes { instruction_bytes result ≡ bytes_of (fields_of first) ++ bytes_of (second_half high) }
    ensures in_range { IsInRange result }
{
    match first {
        Instruction::LoadWide { dst, value } => Instruction::LoadWide {
            dst,
            value: value + (u64::from(high) << 32),
        },
        other => other,
    }
}

/// Appends what one slot adds to the slots so far, and returns the first half whose second half is due.
#[tactic(auto, unfolding(crate::specs::Decoding::reading_of_slots))]
fn read_slot<A: Allocator>(
    slots: &mut Vec<Option<Instruction>, A>,
    half: Option<Instruction>,
    slot: u16,
    fields: &Fields,
) -> Result<Option<Instruction>, DecodeFault>
    requires half { IsHalf half }
    requires room { vec_len slots.old + half_count half + 1 ≤ vec_capacity slots.old }
    ensures goes_on { IfOk result (λ next. (rest : List Fields)
        → with_front slots.old.items (slots_read half slot (fields.now ∷ rest))
        ≡ with_front slots.new.items (slots_read next (slot + 1) rest)) }
    ensures ends { IfErr result (λ e. (rest : List Fields) → slots_read half slot (fields.now ∷ rest) ≡ Err e) }
    ensures half { IfOk result IsHalf }
    ensures count { IfOk result (λ next. vec_len slots.new + half_count next
        ≡ vec_len slots.old + half_count half + 1) }
    ensures bytes { IfOk result (λ next. spelling slots.new.items ++ half_bytes next
        ≡ (spelling slots.old.items ++ half_bytes half) ++ bytes_of fields.now) }
    ensures in_range { OnOk result (AllInRange slots.old.items → AllInRange slots.new.items) }
    ensures capacity { vec_capacity slots.new ≡ vec_capacity slots.old }
{
    let Some(first) = half else {
        let instruction = read(fields).map_err(|cause| DecodeFault { cause, slot })?;
        if is_wide(instruction) {
            return Ok(Some(instruction));
        }
        slots.push_reserved(Some(instruction));
        return Ok(None);
    };
    let high = read_half(fields).map_err(|cause| DecodeFault { cause, slot })?;
    slots.push_reserved(Some(completed_load(first, high)));
    slots.push_reserved(None);
    Ok(None)
}

/// The slots of the bytes, each read from left to right.
fn read_slots<A: Allocator>(
    alloc: A,
    bytes: &[u8],
) -> Result<Vec<Option<Instruction>, A>, DecodeFault>
    requires whole { length bytes.now % 8 ≡ 0 }
    requires some { 0 < length bytes.now }
    requires short { length bytes.now ≤ 8 * max_slots }
    ensures ok { IfOk result (λ slots. slots_read None 0 (slots_of bytes.now) ≡ Ok slots.items) }
    ensures err { IfErr result (λ e. (e ≡ fault_at NoMemory 0) ⊎ (slots_read None 0 (slots_of bytes.now) ≡ Err e)) }
    ensures bytes { IfOk result (λ slots. spelling slots.items ≡ bytes.now) }
    ensures count { IfOk result (λ slots. 8 * vec_len slots ≡ length bytes.now) }
    ensures in_range { IfOk result (λ slots. AllInRange slots.items) }
{
    let count = bytes.len() / 8;
    let Ok(mut slots) = Vec::with_capacity(alloc, count) else {
        return Err(DecodeFault {
            cause: DecodeCause::NoMemory,
            slot: 0,
        });
    };
    let mut half = None;
    for slot in 0..count {
        let fields = Fields::from_bytes(&bytes[8 * slot..8 * slot + 8]);
        half = read_slot(&mut slots, half, slot as u16, &fields)?;
    }
    if half.is_some() {
        return Err(DecodeFault {
            cause: DecodeCause::CutShort,
            slot: (count - 1) as u16,
        });
    }
    Ok(slots)
}

/// The program that the bytes spell.
#[tactic(auto, unfolding(crate::specs::Decoding::program_of))]
fn program<A: Allocator>(alloc: A, bytes: &[u8]) -> Result<Code<A>, DecodeFault>
    ensures spelled { IfOk result (λ code. spelling code ≡ bytes.now) }
    ensures program { IfOk result IsProgram }
    ensures exact { IfOk result (λ code. program_of bytes.now ≡ Ok code) }
    ensures fault { IfErr result (λ e. (e ≡ fault_at NoMemory 0) ⊎ (program_of bytes.now ≡ Err e)) }
{
    let fault = |cause: DecodeCause| DecodeFault { cause, slot: 0 };
    if bytes.is_empty() || bytes.len() % 8 != 0 {
        return Err(fault(DecodeCause::Length));
    }
    if bytes.len() / 8 > MAX_SLOTS {
        return Err(fault(DecodeCause::TooManySlots));
    }
    let slots = read_slots(alloc, bytes)?;
    check_jumps(&slots)?;
    check_exit(&slots)?;
    Ok(Code::new(slots))
}

/// The program that the bytes spell. The slots take one allocation, and each byte is read once.
///
/// ```text
/// // r0 = 1; exit
/// let code = decode(alloc, &[0xb7, 0, 0, 0, 1, 0, 0, 0, 0x95, 0, 0, 0, 0, 0, 0, 0])?;
/// assert_eq!(rt; code.slots(), 2);
/// ```
pub fn decode<A: Allocator>(alloc: A, bytes: &[u8]) -> Result<Code<A>, DecodeFault>
    // The decoded value is a program, and the bytes are its bytes.
    ensures spelled { IfOk result (λ code. spelling code ≡ bytes.now) }
    ensures program { IfOk result IsProgram }

    // The bytes of a program are decoded to it, unless memory runs out.
    ensures only { (p : Program) → IsProgram p → spelling p ≡ bytes.now
        → (result ≡ Err (fault_at NoMemory 0)) ⊎ (result ≡ Ok p) }

    // Other bytes have their one fault, unless memory runs out.
    ensures fault { IfErr result (λ e. (e ≡ fault_at NoMemory 0) ⊎ (program_of bytes.now ≡ Err e)) }
    ensures exact { IfOk result (λ code. program_of bytes.now ≡ Ok code) }
{
    program(alloc, bytes)
}
