//! Kinds of values: tests, and what operations give.
ghost use Rattle.std.specs.Prelude.{◌≡◌, ◌≤◌, ◌^◌, ◌+ℤ◌, ◌-ℤ◌, unsigned_abs};
ghost use Rattle.abs_state.specs.Kind.{is_nothing, is_number, is_pointer, operand_kind, has_both_signs, near_places};
ghost use Rattle.abs_state.specs.Kind.{is_near, moved_by, moved_places, stack_of, args_of, table_width, move_kind};
ghost use Rattle.abs_state.specs.Kind.{binary_kind, operation_kind, number_kind};
ghost use Rattle.bpf_code.specs.Sizes.{width_bits};
ghost use Rattle.interval.specs.Table.{alu_range};
ghost use Rattle.bpf_semantics.specs.Step.{is_move_operation};

use crate::kind::Kind;
use crate::state::AbsState;
use bpf_code::{Source, Width};
use bpf_words::{BinaryOperation, Operation};
use interval::{Range, alu32_range, alu64_range};
use schema::Schema;
use std::alloc::Allocator;

/// Tells whether nothing is known of the value.
pub fn is_nothing(kind: Kind) -> bool
    ensures { result ≡ is_nothing kind }
{
    match kind {
        Kind::Nothing => true,
        _ => false,
    }
}

/// Tells whether the value is a number.
pub fn is_number(kind: Kind) -> bool
    ensures { result ≡ is_number kind }
{
    match kind {
        Kind::Number(_) => true,
        _ => false,
    }
}

/// Tells whether the value is a place in the stack or in the arguments.
pub fn is_pointer(kind: Kind) -> bool
    ensures { result ≡ is_pointer kind }
{
    match kind {
        Kind::Stack(_, _) => true,
        Kind::Args(_, _) => true,
        _ => false,
    }
}

/// Returns what is known of the second operand.
pub fn operand_kind(state: &AbsState, source: Source) -> Kind
    ensures { result ≡ operand_kind state.now source }
{
    match source {
        Source::Immediate(immediate) => {
            Kind::Number(Range::single(i64::from(immediate).cast_unsigned()))
        }
        Source::Register(register) => state.kind(register),
    }
}

/// Tells whether some numbers of the range are below 2^63 and some aren't.
fn has_both_signs(range: Range) -> bool
    ensures { result ≡ has_both_signs range }
{
    range.lo() < 1 << 63 && 1 << 63 <= range.hi()
}

fn is_near(place: i128) -> bool
    ensures { result ≡ is_near place }
{
    (-65_536..=65_536).contains(&place)
}

fn near_places(lo: i128, hi: i128) -> Option<(i32, i32)>
    ensures { result ≡ near_places lo hi }
{
    if is_near(lo) && is_near(hi) {
        Some((lo as i32, hi as i32))
    } else {
        None
    }
}

fn sum(place: i128, distance: i128) -> i128
    requires place { unsigned_abs place ≤ 2 ^ 64 }
    requires distance { unsigned_abs distance ≤ 2 ^ 64 }
    ensures { result ≡ place +ℤ distance }
{
    place + distance
}

fn difference(place: i128, distance: i128) -> i128
    requires place { unsigned_abs place ≤ 2 ^ 64 }
    requires distance { unsigned_abs distance ≤ 2 ^ 64 }
    ensures { result ≡ place -ℤ distance }
{
    place - distance
}

/// Returns the places of a pointer from lo to hi after a 64-bit ADD or SUB of a number from least to greatest; none
/// where that may be too far.
fn moved_by(op: BinaryOperation, lo: i32, hi: i32, least: i64, greatest: i64) -> Option<(i32, i32)>
    ensures { result ≡ moved_by op lo hi least greatest }
{
    let (lo, hi) = (i128::from(lo), i128::from(hi));
    let (least, greatest) = (i128::from(least), i128::from(greatest));
    match op {
        BinaryOperation::Add => near_places(sum(lo, least), sum(hi, greatest)),
        BinaryOperation::Sub => near_places(difference(lo, greatest), difference(hi, least)),
        _ => None,
    }
}

/// Returns the same places for a number of a range, read as signed; none too where the number may have either sign.
pub fn moved_places(op: BinaryOperation, lo: i32, hi: i32, range: Range) -> Option<(i32, i32)>
    ensures { result ≡ moved_places op lo hi range }
{
    if has_both_signs(range) {
        return None;
    }
    moved_by(
        op,
        lo,
        hi,
        range.lo().cast_signed(),
        range.hi().cast_signed(),
    )
}

fn alu_range(width: Width, op: Operation, a: Range, b: Range) -> Range
    ensures { result ≡ alu_range (width_bits width) op a b }
{
    match width {
        Width::Bits32 => alu32_range(op, a, b),
        Width::Bits64 => alu64_range(op, a, b),
    }
}

fn move_kind(width: Width, b: Kind) -> Kind
    ensures { result ≡ move_kind width b }
{
    match b {
        Kind::Number(b) => Kind::Number(alu_range(
            width,
            Operation::Binary(BinaryOperation::Mov),
            b,
            b,
        )),
        _ => match width {
            Width::Bits64 => b,
            Width::Bits32 => Kind::Nothing,
        },
    }
}

fn stack_of(places: Option<(i32, i32)>) -> Kind
    ensures { result ≡ stack_of places }
{
    match places {
        Some((lo, hi)) => Kind::Stack(lo, hi),
        None => Kind::Nothing,
    }
}

fn args_of(places: Option<(i32, i32)>) -> Kind
    ensures { result ≡ args_of places }
{
    match places {
        Some((lo, hi)) => Kind::Args(lo, hi),
        None => Kind::Nothing,
    }
}

fn binary_kind(width: Width, op: BinaryOperation, a: Kind, b: Kind) -> Kind
    ensures { result ≡ binary_kind width op a b }
{
    let Kind::Number(b) = b else {
        return Kind::Nothing;
    };
    match a {
        Kind::Nothing => Kind::Nothing,
        Kind::Number(a) => Kind::Number(alu_range(width, Operation::Binary(op), a, b)),
        Kind::Stack(lo, hi) => match width {
            Width::Bits32 => Kind::Nothing,
            Width::Bits64 => stack_of(moved_places(op, lo, hi, b)),
        },
        Kind::Args(lo, hi) => match width {
            Width::Bits32 => Kind::Nothing,
            Width::Bits64 => args_of(moved_places(op, lo, hi, b)),
        },
    }
}

/// Tells whether an operation is a move.
pub fn is_move(op: BinaryOperation) -> bool
    ensures { result ≡ is_move_operation op }
{
    matches!(op, BinaryOperation::Mov)
}

/// Returns what an arithmetic operation gives.
pub fn operation_kind(width: Width, op: BinaryOperation, a: Kind, b: Kind) -> Kind
    ensures { result ≡ operation_kind width op a b }
{
    if is_move(op) {
        move_kind(width, b)
    } else {
        binary_kind(width, op, a, b)
    }
}

/// Returns what an operation on one number gives.
pub fn number_kind(width: Width, op: Operation, a: Kind) -> Kind
    ensures { result ≡ number_kind width op a }
{
    match a {
        Kind::Number(a) => Kind::Number(alu_range(width, op, a, a)),
        _ => Kind::Nothing,
    }
}

/// The width of the table whose number is the one number of a kind.
pub fn table_width<A: Allocator>(schema: &Schema<A>, kind: Kind) -> Option<usize>
    ensures { result ≡ table_width schema.now kind }
{
    match kind {
        Kind::Number(range) if range.is_single() => {
            schema.known();
            let table = u8::try_from(range.lo()).ok()?;
            schema.width(table).map(usize::from)
        }
        _ => None,
    }
}
