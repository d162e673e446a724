//! The kinds of branches.

ghost use Rattle.std.specs.Prelude.{◌≡◌, ℕ, ℤ};
ghost use Rattle.bpf_code.specs.declared.instruction.Register.{Register};
ghost use Rattle.bpf_code.specs.declared.instruction.Source.TheVariants as sources;
ghost use Rattle.bpf_code.specs.declared.instruction.Width.TheVariants.{Bits32, Bits64};
ghost use Rattle.bpf_code.specs.declared.instruction.Instruction.TheVariants.{Branch};
ghost use Rattle.flat_code.specs.Flat.{instruction_by, widened};

use crate::kind::Kind;
use bpf_code::Width;
use bpf_words::Condition;

#[tactic(auto, unfolding(crate::specs::Flat::instruction_by))]
fn immediate64(condition: Condition) -> Kind
    ensures { (dst src : Register) (offset : ℤ) (n : ℕ)
        → instruction_by result dst src offset n ≡ Branch Bits64 condition dst (widened n) offset }
{
    match condition {
        Condition::Eq => Kind::BranchEq64Immediate,
        Condition::Gt => Kind::BranchGt64Immediate,
        Condition::Ge => Kind::BranchGe64Immediate,
        Condition::Set => Kind::BranchSet64Immediate,
        Condition::Ne => Kind::BranchNe64Immediate,
        Condition::Sgt => Kind::BranchSgt64Immediate,
        Condition::Sge => Kind::BranchSge64Immediate,
        Condition::Lt => Kind::BranchLt64Immediate,
        Condition::Le => Kind::BranchLe64Immediate,
        Condition::Slt => Kind::BranchSlt64Immediate,
        Condition::Sle => Kind::BranchSle64Immediate,
    }
}

#[tactic(auto, unfolding(crate::specs::Flat::instruction_by))]
fn register64(condition: Condition) -> Kind
    ensures { (dst src : Register) (offset : ℤ) (n : ℕ)
        → instruction_by result dst src offset n ≡ Branch Bits64 condition dst (sources.Register src) offset }
{
    match condition {
        Condition::Eq => Kind::BranchEq64Register,
        Condition::Gt => Kind::BranchGt64Register,
        Condition::Ge => Kind::BranchGe64Register,
        Condition::Set => Kind::BranchSet64Register,
        Condition::Ne => Kind::BranchNe64Register,
        Condition::Sgt => Kind::BranchSgt64Register,
        Condition::Sge => Kind::BranchSge64Register,
        Condition::Lt => Kind::BranchLt64Register,
        Condition::Le => Kind::BranchLe64Register,
        Condition::Slt => Kind::BranchSlt64Register,
        Condition::Sle => Kind::BranchSle64Register,
    }
}

#[tactic(auto, unfolding(crate::specs::Flat::instruction_by))]
fn immediate32(condition: Condition) -> Kind
    ensures { (dst src : Register) (offset : ℤ) (n : ℕ)
        → instruction_by result dst src offset n ≡ Branch Bits32 condition dst (widened n) offset }
{
    match condition {
        Condition::Eq => Kind::BranchEq32Immediate,
        Condition::Gt => Kind::BranchGt32Immediate,
        Condition::Ge => Kind::BranchGe32Immediate,
        Condition::Set => Kind::BranchSet32Immediate,
        Condition::Ne => Kind::BranchNe32Immediate,
        Condition::Sgt => Kind::BranchSgt32Immediate,
        Condition::Sge => Kind::BranchSge32Immediate,
        Condition::Lt => Kind::BranchLt32Immediate,
        Condition::Le => Kind::BranchLe32Immediate,
        Condition::Slt => Kind::BranchSlt32Immediate,
        Condition::Sle => Kind::BranchSle32Immediate,
    }
}

#[tactic(auto, unfolding(crate::specs::Flat::instruction_by))]
fn register32(condition: Condition) -> Kind
    ensures { (dst src : Register) (offset : ℤ) (n : ℕ)
        → instruction_by result dst src offset n ≡ Branch Bits32 condition dst (sources.Register src) offset }
{
    match condition {
        Condition::Eq => Kind::BranchEq32Register,
        Condition::Gt => Kind::BranchGt32Register,
        Condition::Ge => Kind::BranchGe32Register,
        Condition::Set => Kind::BranchSet32Register,
        Condition::Ne => Kind::BranchNe32Register,
        Condition::Sgt => Kind::BranchSgt32Register,
        Condition::Sge => Kind::BranchSge32Register,
        Condition::Lt => Kind::BranchLt32Register,
        Condition::Le => Kind::BranchLe32Register,
        Condition::Slt => Kind::BranchSlt32Register,
        Condition::Sle => Kind::BranchSle32Register,
    }
}

/// A branch on a register and an immediate.
pub fn on_immediate(width: Width, condition: Condition) -> Kind
    ensures { (dst src : Register) (offset : ℤ) (n : ℕ)
        → instruction_by result dst src offset n ≡ Branch width condition dst (widened n) offset }
{
    match width {
        Width::Bits32 => immediate32(condition),
        Width::Bits64 => immediate64(condition),
    }
}

/// A branch on two registers.
pub fn on_register(width: Width, condition: Condition) -> Kind
    ensures { (dst src : Register) (offset : ℤ) (n : ℕ)
        → instruction_by result dst src offset n ≡ Branch width condition dst (sources.Register src) offset }
{
    match width {
        Width::Bits32 => register32(condition),
        Width::Bits64 => register64(condition),
    }
}
