//! The range of an operation's results.
ghost use Rattle.std.specs.Prelude.{◌≡◌};
ghost use Rattle.bpf_words.specs.Operation.{alu};
ghost use Rattle.bpf_words.specs.declared.operation.Operation.TheVariants.{Binary, Movsx};
ghost use Rattle.interval.specs.Range.{Bounds};
ghost use Rattle.interval.specs.Table as tables;
ghost use Rattle.interval.specs.Width.{width_bits};

use crate::arithmetic::{difference, product, quotient, remainder, sum};
use crate::bitwise::{and, or, xor};
use crate::range::Range;
use crate::shift::{left_shift, right_shift, signed_right_shift};
use crate::width::Width;
use bpf_words::{
    BinaryOperation, ByteOrder, EndWidth, Operation, SignExtension, alu32, alu64, end,
};

/// The range of what an operation gives on 64 bits: `a` is the destination's range and `b` the
/// source's.
pub fn alu64_range(op: Operation, a: Range, b: Range) -> Range
    ensures { result ≡ tables.alu_range 64 op a b }
{
    alu_range(Width::Bits64, op, a, b)
}

/// The range of what an operation gives on the low 32 bits of both values: `a` is the destination's
/// range and `b` the source's, both of 64 bits.
pub fn alu32_range(op: Operation, a: Range, b: Range) -> Range
    ensures { result ≡ tables.alu_range 32 op a b }
{
    alu_range(Width::Bits32, op, a, b)
}

/// The range of what a byte swap instruction gives. The whole 64-bit value is taken in every class.
#[tactic(auto, unfolding(crate::specs::Table::end_range))]
pub fn end_range(order: ByteOrder, width: EndWidth, a: Range) -> Range
    ensures { result ≡ tables.end_range order width a }
{
    if a.is_single() {
        return Range::single(end(order, width, a.lo()));
    }
    match width {
        EndWidth::Low16 => Range::new(0, u64::from(u16::MAX)),
        EndWidth::Low32 => Range::new(0, u64::from(u32::MAX)),
        EndWidth::Low64 => Range::new(0, u64::MAX),
    }
}

#[tactic(auto, unfolding(crate::specs::Table::alu_range))]
fn alu_range(width: Width, op: Operation, a: Range, b: Range) -> Range
    ensures { result ≡ tables.alu_range (width_bits width) op a b }
{
    let a = width.cut(a);
    let b = width.cut(b);
    if are_single(op, a, b) {
        Range::single(word(width, op, a.lo(), b.lo()))
    } else {
        table(width, op, a, b)
    }
}

/// Returns what an operation gives.
fn word(width: Width, op: Operation, a: u64, b: u64) -> u64
    ensures { result ≡ alu (width_bits width) op a b }
{
    match width {
        Width::Bits32 => alu32(op, a, b),
        Width::Bits64 => alu64(op, a, b),
    }
}

/// Tells whether each operand of the operation is one value.
fn are_single(op: Operation, a: Range, b: Range) -> bool
    ensures { result ≡ tables.are_single op a b }
{
    match op {
        Operation::Binary(BinaryOperation::Mov) | Operation::Movsx(_) => b.is_single(),
        Operation::Binary(_) => a.is_single() && b.is_single(),
        Operation::Neg => a.is_single(),
    }
}

#[tactic(auto, unfolding(crate::specs::Table::table))]
fn table(width: Width, op: Operation, a: Range, b: Range) -> Range
    ensures { result ≡ tables.table (width_bits width) op a b }
{
    match op {
        Operation::Binary(op) => binary(width, op, a, b),
        Operation::Neg => width.any_word(),
        Operation::Movsx(from) => sign_extension(width, from, b),
    }
}

#[tactic(auto, unfolding(crate::specs::Table::table))]
fn binary(width: Width, op: BinaryOperation, a: Range, b: Range) -> Range
    ensures { result ≡ tables.table (width_bits width) (Binary op) a b }
{
    match op {
        BinaryOperation::Add => sum(width, a, b),
        BinaryOperation::Sub => difference(width, a, b),
        BinaryOperation::Mul => product(width, a, b),
        BinaryOperation::Div => quotient(a, b),
        BinaryOperation::Or => or(a, b),
        BinaryOperation::And => and(a, b),
        BinaryOperation::Lsh => left_shift(width, a, b),
        BinaryOperation::Rsh => right_shift(width, a, b),
        BinaryOperation::Mod => remainder(a, b),
        BinaryOperation::Xor => xor(a, b),
        BinaryOperation::Mov => b,
        BinaryOperation::Arsh => signed_right_shift(width, a, b),
        BinaryOperation::Sdiv | BinaryOperation::Smod => width.any_word(),
    }
}

/// The row of MOVSX.
#[tactic(auto, unfolding(crate::specs::Table::table))]
fn sign_extension(width: Width, from: SignExtension, b: Range) -> Range
    ensures { (a : Bounds) → result ≡ tables.table (width_bits width) (Movsx from) a b }
{
    let greatest = match from {
        SignExtension::From8 => 0x7f,
        SignExtension::From16 => 0x7fff,
        SignExtension::From32 => 0x7fff_ffff,
    };
    if b.hi() <= greatest {
        b
    } else {
        width.any_word()
    }
}
