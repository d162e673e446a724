//! The names of instructions in a listing.

ghost use Rattle.std.specs.Prelude.{◌≡◌, ◌≤◌, length};
ghost use Rattle.bpf_list.specs.Listing.{operation_name, condition_name, load_name, name_parts};

use bpf_code::{Instruction, LoadKind};
use bpf_words::{BinaryOperation, ByteOrder, Condition};

/// The name of an instruction, and the number of bits that follows the name, where a number does.
pub fn name(instruction: Instruction) -> (&'static str, Option<u8>)
    ensures text { result.0.now ≡ (name_parts instruction).0 }
    ensures bits { result.1 ≡ (name_parts instruction).1 }
    ensures short { length result.0.now ≤ 5 }
{
    match instruction {
        Instruction::LoadWide { .. } => ("lddw", None),
        Instruction::Load { kind, .. } => (load(kind), Some(8 * kind.bytes())),
        Instruction::StoreImmediate { size, .. } => ("st", Some(8 * size.bytes())),
        Instruction::StoreRegister { size, .. } => ("stx", Some(8 * size.bytes())),
        Instruction::Arithmetic {
            width,
            operation,
            ..
        } => (arithmetic(operation), Some(width.bits())),
        Instruction::Negate { width, .. } => ("neg", Some(width.bits())),
        Instruction::MoveSignExtended { kind, .. } => ("movsx", Some(kind.width().bits())),
        Instruction::End { order, .. } => match order {
            ByteOrder::Little => ("le", None),
            ByteOrder::Big => ("be", None),
            ByteOrder::Swap => ("swap", None),
        },
        Instruction::Jump { .. } => ("ja", Some(64)),
        Instruction::LongJump { .. } => ("ja", Some(32)),
        Instruction::Branch {
            width,
            condition,
            ..
        } => (branch(condition), Some(width.bits())),
        Instruction::Call { .. } => ("call", None),
        Instruction::Exit => ("exit", None),
    }
}

fn load(kind: LoadKind) -> &'static str
    ensures { result.now ≡ load_name kind }
{
    match kind {
        LoadKind::U8 | LoadKind::U16 | LoadKind::U32 | LoadKind::U64 => "ldx",
        LoadKind::I8 | LoadKind::I16 | LoadKind::I32 => "ldsx",
    }
}

fn arithmetic(operation: BinaryOperation) -> &'static str
    ensures { result.now ≡ operation_name operation }
{
    match operation {
        BinaryOperation::Add => "add",
        BinaryOperation::Sub => "sub",
        BinaryOperation::Mul => "mul",
        BinaryOperation::Div => "div",
        BinaryOperation::Sdiv => "sdiv",
        BinaryOperation::Or => "or",
        BinaryOperation::And => "and",
        BinaryOperation::Lsh => "lsh",
        BinaryOperation::Rsh => "rsh",
        BinaryOperation::Mod => "mod",
        BinaryOperation::Smod => "smod",
        BinaryOperation::Xor => "xor",
        BinaryOperation::Mov => "mov",
        BinaryOperation::Arsh => "arsh",
    }
}

fn branch(condition: Condition) -> &'static str
    ensures { result.now ≡ condition_name condition }
{
    match condition {
        Condition::Eq => "jeq",
        Condition::Gt => "jgt",
        Condition::Ge => "jge",
        Condition::Set => "jset",
        Condition::Ne => "jne",
        Condition::Sgt => "jsgt",
        Condition::Sge => "jsge",
        Condition::Lt => "jlt",
        Condition::Le => "jle",
        Condition::Slt => "jslt",
        Condition::Sle => "jsle",
    }
}
