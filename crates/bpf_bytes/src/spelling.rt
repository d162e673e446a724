ghost use Rattle.std.specs.Prelude.{◌≡◌, ◌≤◌, None, Some, ℤ, pos};
ghost use Rattle.bpf_bytes.specs.Spelling.{code_of, operation_offset};
ghost use Rattle.bpf_bytes.specs.Spelling.{extension_offset as offset_of, end_immediate, fields_of};
ghost use Rattle.bpf_bytes.specs.Spelling.{second_slot, slot as slot_of};
ghost use Rattle.bpf_code.specs.Register.{number_of};
ghost use Rattle.bpf_code.specs.declared.instruction.Register.{Register};
ghost use Rattle.bpf_code.specs.declared.instruction.Register.TheVariants.{R0};
ghost use Rattle.bpf_code.specs.declared.instruction.Source.TheVariants.{Register as InRegister};
ghost use Rattle.bpf_code.specs.declared.instruction.Source.TheVariants.{Immediate as InImmediate};
ghost use Rattle.bpf_bytes.specs.declared.opcode.SourceKind.TheVariants.{Register as OfRegister};
ghost use Rattle.bpf_bytes.specs.declared.opcode.SourceKind.TheVariants.{Immediate as OfImmediate};

use crate::fields::Fields;
use crate::opcode::{ArithmeticCode, Opcode, SourceKind};
use bpf_code::{Instruction, Register, SignExtendingMove, Source, Width};
use bpf_words::{BinaryOperation, EndWidth};

impl Fields {
    /// The fields of an instruction's slot; of a wide load those of the first.
    #[tactic(auto, unfolding(crate::specs::Spelling::fields_of))]
    pub fn of(instruction: Instruction) -> Fields
        ensures value { result ≡ fields_of instruction }
        ensures dst { result.dst ≤ 10 }
        ensures src { result.src ≤ 10 }
    {
        let none = Register::R0;
        match instruction {
            Instruction::LoadWide { dst, value } => {
                let low = (value & 0xffff_ffff) as u32;
                slot(Opcode::LoadWide, dst, none, 0, low.cast_signed())
            }
            Instruction::Load {
                kind,
                dst,
                src,
                offset,
            } => slot(Opcode::Load(kind), dst, src, offset, 0),
            Instruction::StoreImmediate {
                size,
                dst,
                offset,
                immediate,
            } => slot(Opcode::StoreImmediate(size), dst, none, offset, immediate),
            Instruction::StoreRegister {
                size,
                dst,
                src,
                offset,
            } => slot(Opcode::StoreRegister(size), dst, src, offset, 0),
            Instruction::Arithmetic {
                width,
                operation,
                dst,
                source,
            } => {
                let (kind, src, immediate) = operand(source);
                let opcode = Opcode::Arithmetic(width, arithmetic_code(operation), kind);
                slot(opcode, dst, src, arithmetic_offset(operation), immediate)
            }
            Instruction::Negate { width, dst } => slot(Opcode::Negate(width), dst, none, 0, 0),
            Instruction::MoveSignExtended { kind, dst, src } => {
                let width = kind.width();
                let opcode = Opcode::Arithmetic(width, ArithmeticCode::Mov, SourceKind::Register);
                slot(opcode, dst, src, extension_offset(kind), 0)
            }
            Instruction::End { order, width, dst } => {
                slot(Opcode::End(order), dst, none, 0, end_bits(width))
            }
            Instruction::Jump { distance } => {
                slot(Opcode::Jump(Width::Bits64), none, none, distance, 0)
            }
            Instruction::LongJump { distance } => {
                slot(Opcode::Jump(Width::Bits32), none, none, 0, distance)
            }
            Instruction::Branch {
                width,
                condition,
                dst,
                source,
                distance,
            } => {
                let (kind, src, immediate) = operand(source);
                slot(
                    Opcode::Branch(width, condition, kind),
                    dst,
                    src,
                    distance,
                    immediate,
                )
            }
            Instruction::Call { helper } => slot(Opcode::Call, none, none, 0, helper),
            Instruction::Exit => slot(Opcode::Exit, none, none, 0, 0),
        }
    }

    /// The fields of a wide load's second slot; none of any other instruction.
    pub fn of_second_slot(instruction: Instruction) -> Option<Fields>
        ensures { result ≡ second_slot instruction }
    {
        match instruction {
            Instruction::LoadWide { value, .. } => Some(Fields {
                opcode: 0,
                dst: 0,
                src: 0,
                offset: 0,
                immediate: ((value >> 32) as u32).cast_signed(),
            }),
            _ => None,
        }
    }
}

fn slot(opcode: Opcode, dst: Register, src: Register, offset: i16, immediate: i32) -> Fields
    ensures value { result ≡ slot_of opcode (number_of dst) (number_of src) offset immediate }
    ensures dst { result.dst ≤ 10 }
    ensures src { result.src ≤ 10 }
{
    Fields {
        opcode: opcode.byte(),
        dst: dst.number(),
        src: src.number(),
        offset,
        immediate,
    }
}

/// Returns the place of the operand, its register, r0 for none, and its immediate, 0 for none.
fn operand(source: Source) -> (SourceKind, Register, i32)
    ensures register { (src : Register) → source ≡ InRegister src → result ≡ (OfRegister, src, pos 0) }
    ensures immediate { (immediate : ℤ) → source ≡ InImmediate immediate → result ≡ (OfImmediate, R0, immediate) }
{
    match source {
        Source::Immediate(immediate) => (SourceKind::Immediate, Register::R0, immediate),
        Source::Register(src) => (SourceKind::Register, src, 0),
    }
}

fn arithmetic_code(operation: BinaryOperation) -> ArithmeticCode
    ensures { result ≡ code_of operation }
{
    match operation {
        BinaryOperation::Add => ArithmeticCode::Add,
        BinaryOperation::Sub => ArithmeticCode::Sub,
        BinaryOperation::Mul => ArithmeticCode::Mul,
        BinaryOperation::Div | BinaryOperation::Sdiv => ArithmeticCode::Div,
        BinaryOperation::Or => ArithmeticCode::Or,
        BinaryOperation::And => ArithmeticCode::And,
        BinaryOperation::Lsh => ArithmeticCode::Lsh,
        BinaryOperation::Rsh => ArithmeticCode::Rsh,
        BinaryOperation::Mod | BinaryOperation::Smod => ArithmeticCode::Mod,
        BinaryOperation::Xor => ArithmeticCode::Xor,
        BinaryOperation::Mov => ArithmeticCode::Mov,
        BinaryOperation::Arsh => ArithmeticCode::Arsh,
    }
}

fn arithmetic_offset(operation: BinaryOperation) -> i16
    ensures { result ≡ operation_offset operation }
{
    match operation {
        BinaryOperation::Sdiv | BinaryOperation::Smod => 1,
        _ => 0,
    }
}

fn extension_offset(kind: SignExtendingMove) -> i16
    ensures { result ≡ offset_of kind }
{
    match kind {
        SignExtendingMove::From8To32 | SignExtendingMove::From8To64 => 8,
        SignExtendingMove::From16To32 | SignExtendingMove::From16To64 => 16,
        SignExtendingMove::From32To64 => 32,
    }
}

fn end_bits(width: EndWidth) -> i32
    ensures { result ≡ end_immediate width }
{
    match width {
        EndWidth::Low16 => 16,
        EndWidth::Low32 => 32,
        EndWidth::Low64 => 64,
    }
}
