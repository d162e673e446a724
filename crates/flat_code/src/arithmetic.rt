//! The kinds of arithmetic.

ghost use Rattle.std.specs.Prelude.{◌≡◌, ℕ, ℤ};
ghost use Rattle.bpf_words.specs.declared.operation.ByteOrder.TheVariants as orders;
ghost use Rattle.bpf_code.specs.declared.instruction.Register.{Register};
ghost use Rattle.bpf_code.specs.declared.instruction.Source.TheVariants as sources;
ghost use Rattle.bpf_code.specs.declared.instruction.Width.TheVariants.{Bits32, Bits64};
ghost use Rattle.bpf_code.specs.declared.instruction.Instruction.TheVariants.{Arithmetic, Negate};
ghost use Rattle.bpf_code.specs.declared.instruction.Instruction.TheVariants.{MoveSignExtended, End};
ghost use Rattle.flat_code.specs.Flat.{instruction_by, widened};

use crate::kind::Kind;
use bpf_code::{SignExtendingMove, Width};
use bpf_words::{BinaryOperation, ByteOrder, EndWidth};

#[tactic(auto, unfolding(crate::specs::Flat::instruction_by))]
fn immediate64(operation: BinaryOperation) -> Kind
    ensures { (dst src : Register) (offset : ℤ) (n : ℕ)
        → instruction_by result dst src offset n ≡ Arithmetic Bits64 operation dst (widened n) }
{
    match operation {
        BinaryOperation::Add => Kind::Add64Immediate,
        BinaryOperation::Sub => Kind::Sub64Immediate,
        BinaryOperation::Mul => Kind::Mul64Immediate,
        BinaryOperation::Div => Kind::Div64Immediate,
        BinaryOperation::Sdiv => Kind::Sdiv64Immediate,
        BinaryOperation::Or => Kind::Or64Immediate,
        BinaryOperation::And => Kind::And64Immediate,
        BinaryOperation::Lsh => Kind::Lsh64Immediate,
        BinaryOperation::Rsh => Kind::Rsh64Immediate,
        BinaryOperation::Mod => Kind::Mod64Immediate,
        BinaryOperation::Smod => Kind::Smod64Immediate,
        BinaryOperation::Xor => Kind::Xor64Immediate,
        BinaryOperation::Mov => Kind::Mov64Immediate,
        BinaryOperation::Arsh => Kind::Arsh64Immediate,
    }
}

#[tactic(auto, unfolding(crate::specs::Flat::instruction_by))]
fn register64(operation: BinaryOperation) -> Kind
    ensures { (dst src : Register) (offset : ℤ) (n : ℕ)
        → instruction_by result dst src offset n ≡ Arithmetic Bits64 operation dst (sources.Register src) }
{
    match operation {
        BinaryOperation::Add => Kind::Add64Register,
        BinaryOperation::Sub => Kind::Sub64Register,
        BinaryOperation::Mul => Kind::Mul64Register,
        BinaryOperation::Div => Kind::Div64Register,
        BinaryOperation::Sdiv => Kind::Sdiv64Register,
        BinaryOperation::Or => Kind::Or64Register,
        BinaryOperation::And => Kind::And64Register,
        BinaryOperation::Lsh => Kind::Lsh64Register,
        BinaryOperation::Rsh => Kind::Rsh64Register,
        BinaryOperation::Mod => Kind::Mod64Register,
        BinaryOperation::Smod => Kind::Smod64Register,
        BinaryOperation::Xor => Kind::Xor64Register,
        BinaryOperation::Mov => Kind::Mov64Register,
        BinaryOperation::Arsh => Kind::Arsh64Register,
    }
}

#[tactic(auto, unfolding(crate::specs::Flat::instruction_by))]
fn immediate32(operation: BinaryOperation) -> Kind
    ensures { (dst src : Register) (offset : ℤ) (n : ℕ)
        → instruction_by result dst src offset n ≡ Arithmetic Bits32 operation dst (widened n) }
{
    match operation {
        BinaryOperation::Add => Kind::Add32Immediate,
        BinaryOperation::Sub => Kind::Sub32Immediate,
        BinaryOperation::Mul => Kind::Mul32Immediate,
        BinaryOperation::Div => Kind::Div32Immediate,
        BinaryOperation::Sdiv => Kind::Sdiv32Immediate,
        BinaryOperation::Or => Kind::Or32Immediate,
        BinaryOperation::And => Kind::And32Immediate,
        BinaryOperation::Lsh => Kind::Lsh32Immediate,
        BinaryOperation::Rsh => Kind::Rsh32Immediate,
        BinaryOperation::Mod => Kind::Mod32Immediate,
        BinaryOperation::Smod => Kind::Smod32Immediate,
        BinaryOperation::Xor => Kind::Xor32Immediate,
        BinaryOperation::Mov => Kind::Mov32Immediate,
        BinaryOperation::Arsh => Kind::Arsh32Immediate,
    }
}

#[tactic(auto, unfolding(crate::specs::Flat::instruction_by))]
fn register32(operation: BinaryOperation) -> Kind
    ensures { (dst src : Register) (offset : ℤ) (n : ℕ)
        → instruction_by result dst src offset n ≡ Arithmetic Bits32 operation dst (sources.Register src) }
{
    match operation {
        BinaryOperation::Add => Kind::Add32Register,
        BinaryOperation::Sub => Kind::Sub32Register,
        BinaryOperation::Mul => Kind::Mul32Register,
        BinaryOperation::Div => Kind::Div32Register,
        BinaryOperation::Sdiv => Kind::Sdiv32Register,
        BinaryOperation::Or => Kind::Or32Register,
        BinaryOperation::And => Kind::And32Register,
        BinaryOperation::Lsh => Kind::Lsh32Register,
        BinaryOperation::Rsh => Kind::Rsh32Register,
        BinaryOperation::Mod => Kind::Mod32Register,
        BinaryOperation::Smod => Kind::Smod32Register,
        BinaryOperation::Xor => Kind::Xor32Register,
        BinaryOperation::Mov => Kind::Mov32Register,
        BinaryOperation::Arsh => Kind::Arsh32Register,
    }
}

/// An operation on a register and an immediate.
pub fn with_immediate(width: Width, operation: BinaryOperation) -> Kind
    ensures { (dst src : Register) (offset : ℤ) (n : ℕ)
        → instruction_by result dst src offset n ≡ Arithmetic width operation dst (widened n) }
{
    match width {
        Width::Bits32 => immediate32(operation),
        Width::Bits64 => immediate64(operation),
    }
}

/// An operation on two registers.
pub fn with_register(width: Width, operation: BinaryOperation) -> Kind
    ensures { (dst src : Register) (offset : ℤ) (n : ℕ)
        → instruction_by result dst src offset n ≡ Arithmetic width operation dst (sources.Register src) }
{
    match width {
        Width::Bits32 => register32(operation),
        Width::Bits64 => register64(operation),
    }
}

/// A negation.
#[tactic(auto, unfolding(crate::specs::Flat::instruction_by))]
pub fn negation(width: Width) -> Kind
    ensures { (dst src : Register) (offset : ℤ) (n : ℕ)
        → instruction_by result dst src offset n ≡ Negate width dst }
{
    match width {
        Width::Bits32 => Kind::Neg32,
        Width::Bits64 => Kind::Neg64,
    }
}

/// A sign-extending move.
#[tactic(auto, unfolding(crate::specs::Flat::instruction_by))]
pub fn extension(kind: SignExtendingMove) -> Kind
    ensures { (dst src : Register) (offset : ℤ) (n : ℕ)
        → instruction_by result dst src offset n ≡ MoveSignExtended kind dst src }
{
    match kind {
        SignExtendingMove::From8To32 => Kind::MoveFrom8To32,
        SignExtendingMove::From16To32 => Kind::MoveFrom16To32,
        SignExtendingMove::From8To64 => Kind::MoveFrom8To64,
        SignExtendingMove::From16To64 => Kind::MoveFrom16To64,
        SignExtendingMove::From32To64 => Kind::MoveFrom32To64,
    }
}

#[tactic(auto, unfolding(crate::specs::Flat::instruction_by))]
fn little(width: EndWidth) -> Kind
    ensures { (dst src : Register) (offset : ℤ) (n : ℕ)
        → instruction_by result dst src offset n ≡ End orders.Little width dst }
{
    match width {
        EndWidth::Low16 => Kind::Little16,
        EndWidth::Low32 => Kind::Little32,
        EndWidth::Low64 => Kind::Little64,
    }
}

#[tactic(auto, unfolding(crate::specs::Flat::instruction_by))]
fn big(width: EndWidth) -> Kind
    ensures { (dst src : Register) (offset : ℤ) (n : ℕ)
        → instruction_by result dst src offset n ≡ End orders.Big width dst }
{
    match width {
        EndWidth::Low16 => Kind::Big16,
        EndWidth::Low32 => Kind::Big32,
        EndWidth::Low64 => Kind::Big64,
    }
}

#[tactic(auto, unfolding(crate::specs::Flat::instruction_by))]
fn swap(width: EndWidth) -> Kind
    ensures { (dst src : Register) (offset : ℤ) (n : ℕ)
        → instruction_by result dst src offset n ≡ End orders.Swap width dst }
{
    match width {
        EndWidth::Low16 => Kind::Swap16,
        EndWidth::Low32 => Kind::Swap32,
        EndWidth::Low64 => Kind::Swap64,
    }
}

/// A change of byte order.
pub fn end(order: ByteOrder, width: EndWidth) -> Kind
    ensures { (dst src : Register) (offset : ℤ) (n : ℕ)
        → instruction_by result dst src offset n ≡ End order width dst }
{
    match order {
        ByteOrder::Little => little(width),
        ByteOrder::Big => big(width),
        ByteOrder::Swap => swap(width),
    }
}
