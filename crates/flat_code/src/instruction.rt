//! The flat instruction of an instruction.

ghost use Rattle.std.specs.Prelude.{◌≡◌, pos};
ghost use Rattle.flat_code.specs.Flat.{instruction_of, signed};

use crate::kind::Kind;
use crate::{arithmetic, branches, memory};
use bpf_code::{Instruction, Register, Source};

/// An instruction told apart by its kind alone. A register that the kind hasn't is r0, a number that the kind hasn't is
/// 0.
#[derive(Clone, Copy)]
pub struct FlatInstruction {
    pub kind: Kind,
    pub dst: Register,
    pub src: Register,
    /// The offset of an address, in bytes; the distance of a jump that isn't long, in slots from the next instruction
    /// on.
    pub offset: i16,
    /// The immediate, a call's helper or a long jump's distance, sign-extended to 64 bits; all 64 bits of a wide load.
    pub immediate: u64,
}

impl FlatInstruction {
    fn with_register(kind: Kind, dst: Register, src: Register, offset: i16) -> FlatInstruction
        ensures { result ≡ record { kind = kind; dst = dst; src = src; offset = offset; immediate = 0 } }
    {
        FlatInstruction {
            kind,
            dst,
            src,
            offset,
            immediate: 0,
        }
    }

    fn with_immediate(kind: Kind, dst: Register, offset: i16, immediate: i32) -> FlatInstruction
        ensures kind { result.kind ≡ kind }
        ensures dst { result.dst ≡ dst }
        ensures offset { result.offset ≡ offset }
        ensures immediate { signed result.immediate ≡ immediate }
    {
        FlatInstruction {
            kind,
            dst,
            src: Register::R0,
            offset,
            immediate: i64::from(immediate).cast_unsigned(),
        }
    }

    /// The flat instruction that stands for an instruction.
    #[inline(always)]
    #[tactic(auto, unfolding(crate::specs::Flat::instruction_by))]
    pub fn of(instruction: Instruction) -> FlatInstruction
        ensures { instruction_of result ≡ instruction }
    {
        let r0 = Register::R0;
        match instruction {
            Instruction::LoadWide { dst, value } => FlatInstruction {
                kind: Kind::LoadWide,
                dst,
                src: r0,
                offset: 0,
                immediate: value,
            },
            Instruction::Load {
                kind,
                dst,
                src,
                offset,
            } => FlatInstruction::with_register(memory::load(kind), dst, src, offset),
            Instruction::StoreImmediate {
                size,
                dst,
                offset,
                immediate,
            } => FlatInstruction::with_immediate(
                memory::store_immediate(size),
                dst,
                offset,
                immediate,
            ),
            Instruction::StoreRegister {
                size,
                dst,
                src,
                offset,
            } => FlatInstruction::with_register(memory::store_register(size), dst, src, offset),
            Instruction::Arithmetic {
                width,
                operation,
                dst,
                source,
            } => match source {
                Source::Immediate(immediate) => FlatInstruction::with_immediate(
                    arithmetic::with_immediate(width, operation),
                    dst,
                    0,
                    immediate,
                ),
                Source::Register(src) => FlatInstruction::with_register(
                    arithmetic::with_register(width, operation),
                    dst,
                    src,
                    0,
                ),
            },
            Instruction::Negate { width, dst } => {
                FlatInstruction::with_register(arithmetic::negation(width), dst, r0, 0)
            }
            Instruction::MoveSignExtended { kind, dst, src } => {
                FlatInstruction::with_register(arithmetic::extension(kind), dst, src, 0)
            }
            Instruction::End { order, width, dst } => {
                FlatInstruction::with_register(arithmetic::end(order, width), dst, r0, 0)
            }
            Instruction::Jump { distance } => {
                FlatInstruction::with_register(Kind::Jump, r0, r0, distance)
            }
            Instruction::LongJump { distance } => {
                FlatInstruction::with_immediate(Kind::LongJump, r0, 0, distance)
            }
            Instruction::Branch {
                width,
                condition,
                dst,
                source,
                distance,
            } => match source {
                Source::Immediate(immediate) => FlatInstruction::with_immediate(
                    branches::on_immediate(width, condition),
                    dst,
                    distance,
                    immediate,
                ),
                Source::Register(src) => FlatInstruction::with_register(
                    branches::on_register(width, condition),
                    dst,
                    src,
                    distance,
                ),
            },
            Instruction::Call { helper } => FlatInstruction::with_immediate(
                Kind::Call,
                r0,
                0,
                helper,
            ),
            Instruction::Exit => FlatInstruction::with_register(Kind::Exit, r0, r0, 0),
        }
    }
}
