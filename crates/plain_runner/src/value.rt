//! The results of operations on values.

ghost use Rattle.std.specs.Prelude.{◌≡◌, ◌≤◌, ◌^◌, unsigned_abs};
ghost use Rattle.bpf_words.specs.Operation.{alu};
ghost use Rattle.bpf_words.specs.Condition.{holds};
ghost use Rattle.bpf_code.specs.Sizes.{width_bits};
ghost use Rattle.bpf_semantics.specs.State.{number};
ghost use Rattle.bpf_semantics.specs.Step.{near_place, moved_place, is_move_operation, move_result, place_result};
ghost use Rattle.bpf_semantics.specs.Step.{binary_result, operation_result};

use bpf_code::Width;
use bpf_semantics::Value;
use bpf_words::{BinaryOperation, Condition, Operation, alu32, alu64, holds32, holds64};

/// The number, where the value is one.
pub fn number(value: Value) -> Option<u64>
    ensures { result ≡ number value }
{
    match value {
        Value::Number(n) => Some(n),
        _ => None,
    }
}

/// The place that is `distance` on; none where the value isn't a place, or the new place is too far away.
fn moved_place(value: Value, distance: i128) -> Option<Value>
    requires { unsigned_abs distance ≤ 2 ^ 64 }
    ensures { result ≡ moved_place value distance }
{
    match value {
        Value::Stack(place) => Some(Value::Stack(near_place(i128::from(place) + distance)?)),
        Value::Args(place) => Some(Value::Args(near_place(i128::from(place) + distance)?)),
        _ => None,
    }
}

/// The place, where it isn't too far away.
fn near_place(place: i128) -> Option<i32>
    ensures { result ≡ near_place place }
{
    if (-65_536..=65_536).contains(&place) {
        Some(place as i32)
    } else {
        None
    }
}

/// Returns what an operation gives on two values; none where it has no step.
#[tactic(auto, unfolding(bpf_semantics::specs::Step::operation_result))]
pub fn operation_result(width: Width, op: BinaryOperation, a: Value, b: Value) -> Option<Value>
    ensures { result ≡ operation_result width op a b }
{
    if is_move_operation(op) {
        move_result(width, b)
    } else {
        binary_result(width, op, a, b)
    }
}

fn is_move_operation(op: BinaryOperation) -> bool
    ensures { result ≡ is_move_operation op }
{
    matches!(op, BinaryOperation::Mov)
}

/// Returns what a move gives.
fn move_result(width: Width, b: Value) -> Option<Value>
    ensures { result ≡ move_result width b }
{
    match (width, b) {
        (_, Value::Number(b)) => {
            let number = arithmetic(width, Operation::Binary(BinaryOperation::Mov), 0, b);
            Some(Value::Number(number))
        }
        (Width::Bits64, Value::Stack(_) | Value::Args(_)) => Some(b),
        _ => None,
    }
}

/// Returns what another operation gives.
fn binary_result(width: Width, op: BinaryOperation, a: Value, b: Value) -> Option<Value>
    ensures { result ≡ binary_result width op a b }
{
    match (a, b) {
        (Value::Number(a), Value::Number(b)) => {
            Some(Value::Number(arithmetic(width, Operation::Binary(op), a, b)))
        }
        (_, Value::Number(b)) => place_result(width, op, a, b),
        _ => None,
    }
}

/// Returns what another operation gives on a value that is no number and a number.
fn place_result(width: Width, op: BinaryOperation, a: Value, b: u64) -> Option<Value>
    ensures { result ≡ place_result width op a b }
{
    match (width, op) {
        (Width::Bits64, BinaryOperation::Add) => moved_place(a, i128::from(b.cast_signed())),
        (Width::Bits64, BinaryOperation::Sub) => moved_place(a, -i128::from(b.cast_signed())),
        _ => None,
    }
}

/// Returns what an operation gives on the low 32 bits of two words, or on all 64.
pub fn arithmetic(width: Width, op: Operation, a: u64, b: u64) -> u64
    ensures { result ≡ alu (width_bits width) op a b }
{
    match width {
        Width::Bits32 => alu32(op, a, b),
        Width::Bits64 => alu64(op, a, b),
    }
}

/// Tells whether a condition holds of the low 32 bits of two words, or of all 64.
pub fn holds(width: Width, condition: Condition, a: u64, b: u64) -> bool
    ensures { result ≡ holds (width_bits width) condition a b }
{
    match width {
        Width::Bits32 => holds32(condition, a, b),
        Width::Bits64 => holds64(condition, a, b),
    }
}
