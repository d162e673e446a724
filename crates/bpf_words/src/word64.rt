//! The operations and the conditions on words of 64 bits.
ghost use Rattle.std.specs.Prelude.{◌≡◌, ◌%◌};
ghost use Rattle.bpf_words.specs.Condition as conditions;
ghost use Rattle.bpf_words.specs.Operation as operations;
ghost use Rattle.bpf_words.specs.declared.operation.BinaryOperation.TheVariants.{Sdiv, Smod};

use crate::condition::Condition;
use crate::cut::{low8, low16, low32};
use crate::operation::{BinaryOperation, SignExtension};

/// Returns what an operation gives on two words of 64 bits.
#[tactic(auto, unfolding(crate::specs::Operation::binary_value))]
pub fn binary_value(op: BinaryOperation, a: u64, b: u64) -> u64
    ensures { result ≡ operations.binary_value 64 op a b }
{
    match op {
        BinaryOperation::Add => a.wrapping_add(b),
        BinaryOperation::Sub => a.wrapping_sub(b),
        BinaryOperation::Mul => a.wrapping_mul(b),
        BinaryOperation::Div => a.checked_div(b).unwrap_or(0),
        BinaryOperation::Sdiv => signed_quotient(a, b),
        BinaryOperation::Or => a | b,
        BinaryOperation::And => a & b,
        BinaryOperation::Lsh => a.wrapping_shl(low32(b)),
        BinaryOperation::Rsh => a.wrapping_shr(low32(b)),
        BinaryOperation::Mod => a.checked_rem(b).unwrap_or(a),
        BinaryOperation::Smod => signed_remainder(a, b),
        BinaryOperation::Xor => a ^ b,
        BinaryOperation::Mov => b,
        BinaryOperation::Arsh => a.cast_signed().wrapping_shr(low32(b)).cast_unsigned(),
    }
}

/// The low bits of a word, sign-extended to 64 bits.
pub fn sign_extension(from: SignExtension, b: u64) -> u64
    ensures { result ≡ operations.sign_extension 64 from b }
{
    match from {
        SignExtension::From8 => i64::from(low8(b).cast_signed()),
        SignExtension::From16 => i64::from(low16(b).cast_signed()),
        SignExtension::From32 => i64::from(low32(b).cast_signed()),
    }
    .cast_unsigned()
}

/// Tells whether a condition holds of two words of 64 bits.
#[tactic(auto, unfolding(crate::specs::Condition::comparison))]
pub fn comparison(condition: Condition, a: u64, b: u64) -> bool
    ensures { result ≡ conditions.comparison 64 condition a b }
{
    match condition {
        Condition::Eq => a == b,
        Condition::Gt => a > b,
        Condition::Ge => a >= b,
        Condition::Set => a & b != 0,
        Condition::Ne => a != b,
        Condition::Sgt => a.cast_signed() > b.cast_signed(),
        Condition::Sge => a.cast_signed() >= b.cast_signed(),
        Condition::Lt => a < b,
        Condition::Le => a <= b,
        Condition::Slt => a.cast_signed() < b.cast_signed(),
        Condition::Sle => a.cast_signed() <= b.cast_signed(),
    }
}

#[tactic(auto, unfolding(crate::specs::Operation::binary_value))]
fn signed_quotient(a: u64, b: u64) -> u64
    ensures { result ≡ operations.binary_value 64 Sdiv a b }
{
    if b == 0 {
        return 0;
    }
    a.cast_signed()
        .wrapping_div(b.cast_signed())
        .cast_unsigned()
}

#[tactic(auto, unfolding(crate::specs::Operation::binary_value))]
fn signed_remainder(a: u64, b: u64) -> u64
    ensures { result ≡ operations.binary_value 64 Smod a b }
{
    if b == 0 {
        return a;
    }
    a.cast_signed()
        .wrapping_rem(b.cast_signed())
        .cast_unsigned()
}
