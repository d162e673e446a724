//! The results of operations on words.

ghost use Rattle.std.specs.Prelude.{◌≡◌, ◌≤◌, length};
ghost use Rattle.byteorder.specs.Endian.{little_number};
ghost use Rattle.bpf_words.specs.Operation.{alu};
ghost use Rattle.bpf_words.specs.Condition.{holds};
ghost use Rattle.bpf_code.specs.Sizes.{width_bits};
ghost use Rattle.bpf_semantics.specs.Memory.{load_value};
ghost use Rattle.bpf_semantics.specs.Step.{low_bits};

use bpf_code::{LoadKind, SignExtendingMove, Width};
use bpf_words::{Condition, Operation, SignExtension, alu32, alu64, holds32, holds64};
use byteorder::{ByteOrder, LittleEndian};

/// The result of an operation of the width (RFC 9669 section 4.1).
pub fn arithmetic(width: Width, op: Operation, a: u64, b: u64) -> u64
    ensures { result ≡ alu (width_bits width) op a b }
{
    match width {
        Width::Bits32 => alu32(op, a, b),
        Width::Bits64 => alu64(op, a, b),
    }
}

/// Tells whether a condition holds between two words, of which the width's bits count (RFC 9669 section 4.3).
pub fn holds(width: Width, condition: Condition, a: u64, b: u64) -> bool
    ensures { result ≡ holds (width_bits width) condition a b }
{
    match width {
        Width::Bits32 => holds32(condition, a, b),
        Width::Bits64 => holds64(condition, a, b),
    }
}

/// The bits that a sign-extending move takes.
pub fn low_bits(kind: SignExtendingMove) -> SignExtension
    ensures { result ≡ low_bits kind }
{
    match kind {
        SignExtendingMove::From8To32 | SignExtendingMove::From8To64 => SignExtension::From8,
        SignExtendingMove::From16To32 | SignExtendingMove::From16To64 => SignExtension::From16,
        SignExtendingMove::From32To64 => SignExtension::From32,
    }
}

/// The number that a load makes of these bytes.
#[tactic(auto, unfolding(bpf_words::specs::Operation::alu))]
pub fn load_value(kind: LoadKind, bytes: &[u8]) -> u64
    requires some { 1 ≤ length bytes.now }
    requires few { length bytes.now ≤ 8 }
    ensures { result ≡ load_value kind (little_number (length bytes.now) bytes.now) }
{
    let number = LittleEndian::read_uint(bytes, bytes.len());
    match kind {
        LoadKind::U8 | LoadKind::U16 | LoadKind::U32 | LoadKind::U64 => number,
        LoadKind::I8 => alu64(Operation::Movsx(SignExtension::From8), 0, number),
        LoadKind::I16 => alu64(Operation::Movsx(SignExtension::From16), 0, number),
        LoadKind::I32 => alu64(Operation::Movsx(SignExtension::From32), 0, number),
    }
}
