//! Flat instructions: the one at a slot, by its kind.

ghost use Rattle.std.specs.Prelude.{◌≡◌, ◌+◌, ◌^◌, ◌<◌, IfSome, IfNone};
ghost use Rattle.flat_code.specs.Flat.{instruction_of};
ghost use Rattle.vm_state.specs.Words.{CanRun};
ghost use Rattle.vm_state.specs.Access.{at_slot, GoesOn};
ghost use Rattle.vm_state.specs.Plain.{IsPlain};

use crate::state::WordState;
use bpf_code::Width::{Bits32, Bits64};
use bpf_code::{LoadKind, SignExtendingMove as Move, Size};
use bpf_words::ByteOrder::{Big, Little, Swap};
use bpf_words::EndWidth::{Low16, Low32, Low64};
use bpf_words::{BinaryOperation as Binary, Condition as If};
use flat_code::{FlatInstruction, Kind};

impl WordState {
    /// Runs the instruction at this slot, and returns the next slot; does nothing, and returns none, where the
    /// instruction isn't plain. The slot of the state says nothing meanwhile.
    ///
    /// One match over all kinds is one jump, and the code that the jump leads to is copied in with width and operator
    /// as constants.
    #[inline(always)]
    #[tactic(auto, unfolding(flat_code::specs::Flat::instruction_by))]
    pub(crate) fn execute_flat(
        &mut self,
        at: usize,
        next: usize,
        flat: &FlatInstruction,
    ) -> Option<usize>
        requires slot { at < 2 ^ 32 }
        requires next { next ≡ at + 1 }
        requires can { CanRun (instruction_of flat.now) (at_slot at self.old) }
        ensures goes_on { IfSome result (λ to. GoesOn (instruction_of flat.now) at self.old to self.new) }
        ensures stops { IfNone result (IsPlain (instruction_of flat.now) → ⊥) }
        ensures same { IfNone result (self.new ≡ self.old) }
    {
        match flat.kind {
            Kind::Add64Immediate => Some(self.alu_immediate(at, next, flat, Bits64, Binary::Add)),
            Kind::Sub64Immediate => Some(self.alu_immediate(at, next, flat, Bits64, Binary::Sub)),
            Kind::Mul64Immediate => Some(self.alu_immediate(at, next, flat, Bits64, Binary::Mul)),
            Kind::Div64Immediate => Some(self.alu_immediate(at, next, flat, Bits64, Binary::Div)),
            Kind::Sdiv64Immediate => Some(self.alu_immediate(at, next, flat, Bits64, Binary::Sdiv)),
            Kind::Or64Immediate => Some(self.alu_immediate(at, next, flat, Bits64, Binary::Or)),
            Kind::And64Immediate => Some(self.alu_immediate(at, next, flat, Bits64, Binary::And)),
            Kind::Lsh64Immediate => Some(self.alu_immediate(at, next, flat, Bits64, Binary::Lsh)),
            Kind::Rsh64Immediate => Some(self.alu_immediate(at, next, flat, Bits64, Binary::Rsh)),
            Kind::Mod64Immediate => Some(self.alu_immediate(at, next, flat, Bits64, Binary::Mod)),
            Kind::Smod64Immediate => Some(self.alu_immediate(at, next, flat, Bits64, Binary::Smod)),
            Kind::Xor64Immediate => Some(self.alu_immediate(at, next, flat, Bits64, Binary::Xor)),
            Kind::Mov64Immediate => Some(self.alu_immediate(at, next, flat, Bits64, Binary::Mov)),
            Kind::Arsh64Immediate => Some(self.alu_immediate(at, next, flat, Bits64, Binary::Arsh)),
            Kind::Add64Register => Some(self.alu_register(at, next, flat, Bits64, Binary::Add)),
            Kind::Sub64Register => Some(self.alu_register(at, next, flat, Bits64, Binary::Sub)),
            Kind::Mul64Register => Some(self.alu_register(at, next, flat, Bits64, Binary::Mul)),
            Kind::Div64Register => Some(self.alu_register(at, next, flat, Bits64, Binary::Div)),
            Kind::Sdiv64Register => Some(self.alu_register(at, next, flat, Bits64, Binary::Sdiv)),
            Kind::Or64Register => Some(self.alu_register(at, next, flat, Bits64, Binary::Or)),
            Kind::And64Register => Some(self.alu_register(at, next, flat, Bits64, Binary::And)),
            Kind::Lsh64Register => Some(self.alu_register(at, next, flat, Bits64, Binary::Lsh)),
            Kind::Rsh64Register => Some(self.alu_register(at, next, flat, Bits64, Binary::Rsh)),
            Kind::Mod64Register => Some(self.alu_register(at, next, flat, Bits64, Binary::Mod)),
            Kind::Smod64Register => Some(self.alu_register(at, next, flat, Bits64, Binary::Smod)),
            Kind::Xor64Register => Some(self.alu_register(at, next, flat, Bits64, Binary::Xor)),
            Kind::Mov64Register => Some(self.alu_register(at, next, flat, Bits64, Binary::Mov)),
            Kind::Arsh64Register => Some(self.alu_register(at, next, flat, Bits64, Binary::Arsh)),
            Kind::Add32Immediate => Some(self.alu_immediate(at, next, flat, Bits32, Binary::Add)),
            Kind::Sub32Immediate => Some(self.alu_immediate(at, next, flat, Bits32, Binary::Sub)),
            Kind::Mul32Immediate => Some(self.alu_immediate(at, next, flat, Bits32, Binary::Mul)),
            Kind::Div32Immediate => Some(self.alu_immediate(at, next, flat, Bits32, Binary::Div)),
            Kind::Sdiv32Immediate => Some(self.alu_immediate(at, next, flat, Bits32, Binary::Sdiv)),
            Kind::Or32Immediate => Some(self.alu_immediate(at, next, flat, Bits32, Binary::Or)),
            Kind::And32Immediate => Some(self.alu_immediate(at, next, flat, Bits32, Binary::And)),
            Kind::Lsh32Immediate => Some(self.alu_immediate(at, next, flat, Bits32, Binary::Lsh)),
            Kind::Rsh32Immediate => Some(self.alu_immediate(at, next, flat, Bits32, Binary::Rsh)),
            Kind::Mod32Immediate => Some(self.alu_immediate(at, next, flat, Bits32, Binary::Mod)),
            Kind::Smod32Immediate => Some(self.alu_immediate(at, next, flat, Bits32, Binary::Smod)),
            Kind::Xor32Immediate => Some(self.alu_immediate(at, next, flat, Bits32, Binary::Xor)),
            Kind::Mov32Immediate => Some(self.alu_immediate(at, next, flat, Bits32, Binary::Mov)),
            Kind::Arsh32Immediate => Some(self.alu_immediate(at, next, flat, Bits32, Binary::Arsh)),
            Kind::Add32Register => Some(self.alu_register(at, next, flat, Bits32, Binary::Add)),
            Kind::Sub32Register => Some(self.alu_register(at, next, flat, Bits32, Binary::Sub)),
            Kind::Mul32Register => Some(self.alu_register(at, next, flat, Bits32, Binary::Mul)),
            Kind::Div32Register => Some(self.alu_register(at, next, flat, Bits32, Binary::Div)),
            Kind::Sdiv32Register => Some(self.alu_register(at, next, flat, Bits32, Binary::Sdiv)),
            Kind::Or32Register => Some(self.alu_register(at, next, flat, Bits32, Binary::Or)),
            Kind::And32Register => Some(self.alu_register(at, next, flat, Bits32, Binary::And)),
            Kind::Lsh32Register => Some(self.alu_register(at, next, flat, Bits32, Binary::Lsh)),
            Kind::Rsh32Register => Some(self.alu_register(at, next, flat, Bits32, Binary::Rsh)),
            Kind::Mod32Register => Some(self.alu_register(at, next, flat, Bits32, Binary::Mod)),
            Kind::Smod32Register => Some(self.alu_register(at, next, flat, Bits32, Binary::Smod)),
            Kind::Xor32Register => Some(self.alu_register(at, next, flat, Bits32, Binary::Xor)),
            Kind::Mov32Register => Some(self.alu_register(at, next, flat, Bits32, Binary::Mov)),
            Kind::Arsh32Register => Some(self.alu_register(at, next, flat, Bits32, Binary::Arsh)),
            Kind::Neg64 => Some(self.negate(at, next, flat, Bits64)),
            Kind::Neg32 => Some(self.negate(at, next, flat, Bits32)),
            Kind::MoveFrom8To32 => Some(self.move_sign_extended(at, next, flat, Move::From8To32)),
            Kind::MoveFrom16To32 => Some(self.move_sign_extended(at, next, flat, Move::From16To32)),
            Kind::MoveFrom8To64 => Some(self.move_sign_extended(at, next, flat, Move::From8To64)),
            Kind::MoveFrom16To64 => Some(self.move_sign_extended(at, next, flat, Move::From16To64)),
            Kind::MoveFrom32To64 => Some(self.move_sign_extended(at, next, flat, Move::From32To64)),
            Kind::Little16 => Some(self.end(at, next, flat, Little, Low16)),
            Kind::Little32 => Some(self.end(at, next, flat, Little, Low32)),
            Kind::Little64 => Some(self.end(at, next, flat, Little, Low64)),
            Kind::Big16 => Some(self.end(at, next, flat, Big, Low16)),
            Kind::Big32 => Some(self.end(at, next, flat, Big, Low32)),
            Kind::Big64 => Some(self.end(at, next, flat, Big, Low64)),
            Kind::Swap16 => Some(self.end(at, next, flat, Swap, Low16)),
            Kind::Swap32 => Some(self.end(at, next, flat, Swap, Low32)),
            Kind::Swap64 => Some(self.end(at, next, flat, Swap, Low64)),
            Kind::LoadU8 => Some(self.load(at, next, flat, LoadKind::U8)),
            Kind::LoadU16 => Some(self.load(at, next, flat, LoadKind::U16)),
            Kind::LoadU32 => Some(self.load(at, next, flat, LoadKind::U32)),
            Kind::LoadU64 => Some(self.load(at, next, flat, LoadKind::U64)),
            Kind::LoadI8 => Some(self.load(at, next, flat, LoadKind::I8)),
            Kind::LoadI16 => Some(self.load(at, next, flat, LoadKind::I16)),
            Kind::LoadI32 => Some(self.load(at, next, flat, LoadKind::I32)),
            Kind::Store8Immediate => Some(self.store_immediate(at, next, flat, Size::Byte)),
            Kind::Store16Immediate => Some(self.store_immediate(at, next, flat, Size::HalfWord)),
            Kind::Store32Immediate => Some(self.store_immediate(at, next, flat, Size::Word)),
            Kind::Store64Immediate => Some(self.store_immediate(at, next, flat, Size::DoubleWord)),
            Kind::Store8Register => Some(self.store_register(at, next, flat, Size::Byte)),
            Kind::Store16Register => Some(self.store_register(at, next, flat, Size::HalfWord)),
            Kind::Store32Register => Some(self.store_register(at, next, flat, Size::Word)),
            Kind::Store64Register => Some(self.store_register(at, next, flat, Size::DoubleWord)),
            Kind::Jump => Some(self.jump(at, next, flat)),
            Kind::BranchEq64Immediate => Some(self.if_immediate(at, next, flat, Bits64, If::Eq)),
            Kind::BranchGt64Immediate => Some(self.if_immediate(at, next, flat, Bits64, If::Gt)),
            Kind::BranchGe64Immediate => Some(self.if_immediate(at, next, flat, Bits64, If::Ge)),
            Kind::BranchSet64Immediate => Some(self.if_immediate(at, next, flat, Bits64, If::Set)),
            Kind::BranchNe64Immediate => Some(self.if_immediate(at, next, flat, Bits64, If::Ne)),
            Kind::BranchSgt64Immediate => Some(self.if_immediate(at, next, flat, Bits64, If::Sgt)),
            Kind::BranchSge64Immediate => Some(self.if_immediate(at, next, flat, Bits64, If::Sge)),
            Kind::BranchLt64Immediate => Some(self.if_immediate(at, next, flat, Bits64, If::Lt)),
            Kind::BranchLe64Immediate => Some(self.if_immediate(at, next, flat, Bits64, If::Le)),
            Kind::BranchSlt64Immediate => Some(self.if_immediate(at, next, flat, Bits64, If::Slt)),
            Kind::BranchSle64Immediate => Some(self.if_immediate(at, next, flat, Bits64, If::Sle)),
            Kind::BranchEq64Register => Some(self.if_register(at, next, flat, Bits64, If::Eq)),
            Kind::BranchGt64Register => Some(self.if_register(at, next, flat, Bits64, If::Gt)),
            Kind::BranchGe64Register => Some(self.if_register(at, next, flat, Bits64, If::Ge)),
            Kind::BranchSet64Register => Some(self.if_register(at, next, flat, Bits64, If::Set)),
            Kind::BranchNe64Register => Some(self.if_register(at, next, flat, Bits64, If::Ne)),
            Kind::BranchSgt64Register => Some(self.if_register(at, next, flat, Bits64, If::Sgt)),
            Kind::BranchSge64Register => Some(self.if_register(at, next, flat, Bits64, If::Sge)),
            Kind::BranchLt64Register => Some(self.if_register(at, next, flat, Bits64, If::Lt)),
            Kind::BranchLe64Register => Some(self.if_register(at, next, flat, Bits64, If::Le)),
            Kind::BranchSlt64Register => Some(self.if_register(at, next, flat, Bits64, If::Slt)),
            Kind::BranchSle64Register => Some(self.if_register(at, next, flat, Bits64, If::Sle)),
            Kind::BranchEq32Immediate => Some(self.if_immediate(at, next, flat, Bits32, If::Eq)),
            Kind::BranchGt32Immediate => Some(self.if_immediate(at, next, flat, Bits32, If::Gt)),
            Kind::BranchGe32Immediate => Some(self.if_immediate(at, next, flat, Bits32, If::Ge)),
            Kind::BranchSet32Immediate => Some(self.if_immediate(at, next, flat, Bits32, If::Set)),
            Kind::BranchNe32Immediate => Some(self.if_immediate(at, next, flat, Bits32, If::Ne)),
            Kind::BranchSgt32Immediate => Some(self.if_immediate(at, next, flat, Bits32, If::Sgt)),
            Kind::BranchSge32Immediate => Some(self.if_immediate(at, next, flat, Bits32, If::Sge)),
            Kind::BranchLt32Immediate => Some(self.if_immediate(at, next, flat, Bits32, If::Lt)),
            Kind::BranchLe32Immediate => Some(self.if_immediate(at, next, flat, Bits32, If::Le)),
            Kind::BranchSlt32Immediate => Some(self.if_immediate(at, next, flat, Bits32, If::Slt)),
            Kind::BranchSle32Immediate => Some(self.if_immediate(at, next, flat, Bits32, If::Sle)),
            Kind::BranchEq32Register => Some(self.if_register(at, next, flat, Bits32, If::Eq)),
            Kind::BranchGt32Register => Some(self.if_register(at, next, flat, Bits32, If::Gt)),
            Kind::BranchGe32Register => Some(self.if_register(at, next, flat, Bits32, If::Ge)),
            Kind::BranchSet32Register => Some(self.if_register(at, next, flat, Bits32, If::Set)),
            Kind::BranchNe32Register => Some(self.if_register(at, next, flat, Bits32, If::Ne)),
            Kind::BranchSgt32Register => Some(self.if_register(at, next, flat, Bits32, If::Sgt)),
            Kind::BranchSge32Register => Some(self.if_register(at, next, flat, Bits32, If::Sge)),
            Kind::BranchLt32Register => Some(self.if_register(at, next, flat, Bits32, If::Lt)),
            Kind::BranchLe32Register => Some(self.if_register(at, next, flat, Bits32, If::Le)),
            Kind::BranchSlt32Register => Some(self.if_register(at, next, flat, Bits32, If::Slt)),
            Kind::BranchSle32Register => Some(self.if_register(at, next, flat, Bits32, If::Sle)),
            Kind::LoadWide => Some(self.load_wide(at, next, flat)),
            Kind::Call | Kind::LongJump | Kind::Exit => None,
        }
    }
}
