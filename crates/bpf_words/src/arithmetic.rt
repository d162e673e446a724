ghost use Rattle.std.specs.Prelude.{◌≡◌};
ghost use Rattle.bpf_words.specs.Operation.{alu};

use crate::cut::low32;
use crate::operation::Operation;
use crate::{word32, word64};

/// Returns what an operation gives on 64 bits: `a` is the destination's value and `b` the source's (RFC 9669 section
/// 4.1).
#[tactic(auto, unfolding(crate::specs::Operation::alu))]
pub fn alu64(op: Operation, a: u64, b: u64) -> u64
    ensures { result ≡ alu 64 op a b }
{
    match op {
        Operation::Binary(op) => word64::binary_value(op, a, b),
        Operation::Neg => a.wrapping_neg(),
        Operation::Movsx(from) => word64::sign_extension(from, b),
    }
}

/// Returns what an operation gives on the low 32 bits of both values, with zeros above them (RFC 9669 section 4.1). `a`
/// is the destination's value and `b` the source's.
#[tactic(auto, unfolding(crate::specs::Operation::alu))]
pub fn alu32(op: Operation, a: u64, b: u64) -> u64
    ensures { result ≡ alu 32 op a b }
{
    let low = match op {
        Operation::Binary(op) => word32::binary_value(op, low32(a), low32(b)),
        Operation::Neg => low32(a).wrapping_neg(),
        Operation::Movsx(from) => word32::sign_extension(from, b),
    };
    u64::from(low)
}
