ghost use Rattle.std.specs.Prelude.{◌≡◌, ◌<◌, ◌≤◌, ◌+◌, ◌++◌, length, codes, Some};
ghost use Rattle.std.specs.Fmt.{decimal};
ghost use Rattle.hex.specs.Hex.{encode_lower};
ghost use Rattle.arrayvec.specs.ArrayVec.{array_vec_len};
ghost use Rattle.byte_output.specs.declared.line.TheConstants.{LINE_BYTES};
ghost use Rattle.bpf_list.specs.Listing.{name_parts, name_text, slot_hex, immediate_text, line as line_of};
ghost use Rattle.bpf_bytes.specs.Spelling.{fields_of, second_slot};

use crate::name::name;
use bpf_bytes::Fields;
use bpf_code::Instruction;
use byte_output::line::{LineBuffer, push, push_column, push_signed, push_unsigned};
use itoa::Buffer;

fn push_hex(line: &mut LineBuffer, bytes: &[u8])
    requires eight { length bytes.now ≡ 8 }
    requires room { array_vec_len line.old + 16 ≤ LINE_BYTES }
    ensures items { line.new.items ≡ line.old.items ++ encode_lower bytes.now }
    ensures len { array_vec_len line.new ≡ array_vec_len line.old + 16 }
{
    let mut digits = [0u8; 16];
    let _ = hex::encode_to_slice(bytes, &mut digits);
    push(line, &digits);
}

fn push_name(line: &mut LineBuffer, instruction: Instruction)
    requires { array_vec_len line.old + 9 ≤ LINE_BYTES }
    ensures items { line.new.items ≡ line.old.items ++ (codes " " ++ name_text (name_parts instruction)) }
    ensures len { array_vec_len line.new ≤ array_vec_len line.old + 9 }
{
    let (text, bits) = name(instruction);
    push(line, b" ");
    push(line, text.as_bytes());
    if let Some(bits) = bits {
        push(line, Buffer::new().format(bits).as_bytes());
    }
}

fn push_bytes(line: &mut LineBuffer, instruction: Instruction)
    requires { array_vec_len line.old + 32 ≤ LINE_BYTES }
    ensures items { line.new.items ≡ line.old.items
        ++ (slot_hex (Some (fields_of instruction)) ++ slot_hex (second_slot instruction)) }
    ensures len { array_vec_len line.new ≤ array_vec_len line.old + 32 }
{
    push_hex(line, &Fields::of(instruction).to_bytes());
    if let Some(half) = Fields::of_second_slot(instruction) {
        push_hex(line, &half.to_bytes());
    }
}

fn push_immediate(line: &mut LineBuffer, instruction: Instruction)
    requires { array_vec_len line.old + 25 ≤ LINE_BYTES }
    ensures items { line.new.items ≡ line.old.items ++ (codes " imm " ++ immediate_text instruction) }
    ensures len { array_vec_len line.new ≤ array_vec_len line.old + 25 }
{
    match instruction {
        Instruction::LoadWide { value, .. } => push_unsigned(line, " imm ", value),
        _ => push_signed(line, " imm ", Fields::of(instruction).immediate),
    }
}

/// The line of the instruction that begins at a slot.
#[tactic(auto, unfolding(crate::specs::Listing::line))]
pub fn line(slot: usize, instruction: Instruction) -> LineBuffer
    requires { slot < 10000 }
    ensures { result.items ≡ line_of slot instruction }
{
    let fields = Fields::of(instruction);
    let mut line = LineBuffer::new();
    push_column(&mut line, 4, slot as u64);
    push(&mut line, b" ");
    push_bytes(&mut line, instruction);
    push_name(&mut line, instruction);
    push_unsigned(&mut line, " dst ", u64::from(fields.dst));
    push_unsigned(&mut line, " src ", u64::from(fields.src));
    push_signed(&mut line, " off ", i32::from(fields.offset));
    push_immediate(&mut line, instruction);
    push(&mut line, b"\n");
    line
}
