//! The kinds of loads and stores.

ghost use Rattle.std.specs.Prelude.{◌≡◌, ℕ, ℤ};
ghost use Rattle.bpf_code.specs.declared.instruction.Register.{Register};
ghost use Rattle.bpf_code.specs.declared.instruction.Instruction.TheVariants.{Load, StoreImmediate, StoreRegister};
ghost use Rattle.flat_code.specs.Flat.{instruction_by, signed};

use crate::kind::Kind;
use bpf_code::{LoadKind, Size};

/// A load.
#[tactic(auto, unfolding(crate::specs::Flat::instruction_by))]
pub fn load(kind: LoadKind) -> Kind
    ensures { (dst src : Register) (offset : ℤ) (n : ℕ)
        → instruction_by result dst src offset n ≡ Load kind dst src offset }
{
    match kind {
        LoadKind::U8 => Kind::LoadU8,
        LoadKind::U16 => Kind::LoadU16,
        LoadKind::U32 => Kind::LoadU32,
        LoadKind::U64 => Kind::LoadU64,
        LoadKind::I8 => Kind::LoadI8,
        LoadKind::I16 => Kind::LoadI16,
        LoadKind::I32 => Kind::LoadI32,
    }
}

/// A store of an immediate.
#[tactic(auto, unfolding(crate::specs::Flat::instruction_by))]
pub fn store_immediate(size: Size) -> Kind
    ensures { (dst src : Register) (offset : ℤ) (n : ℕ)
        → instruction_by result dst src offset n ≡ StoreImmediate size dst offset (signed n) }
{
    match size {
        Size::Byte => Kind::Store8Immediate,
        Size::HalfWord => Kind::Store16Immediate,
        Size::Word => Kind::Store32Immediate,
        Size::DoubleWord => Kind::Store64Immediate,
    }
}

/// A store of a register.
#[tactic(auto, unfolding(crate::specs::Flat::instruction_by))]
pub fn store_register(size: Size) -> Kind
    ensures { (dst src : Register) (offset : ℤ) (n : ℕ)
        → instruction_by result dst src offset n ≡ StoreRegister size dst src offset }
{
    match size {
        Size::Byte => Kind::Store8Register,
        Size::HalfWord => Kind::Store16Register,
        Size::Word => Kind::Store32Register,
        Size::DoubleWord => Kind::Store64Register,
    }
}
