//! The actions of the kinds of plain instructions. Each takes the slot and the slot behind it, and answers the next
//! slot.
//!
//! The functions are inlined by a hint. Were they always inlined, the match over all kinds would count as too large to
//! be inlined, and each instruction would cost a call. The register that is set is read before its word is made, and
//! the stored value before the address: arms that end alike are joined behind one jump more.

ghost use Rattle.std.specs.Prelude.{◌≡◌, ◌+◌, ◌^◌, ◌<◌};
ghost use Rattle.bpf_code.specs.declared.instruction.Instruction.TheVariants.{Load, StoreImmediate, StoreRegister};
ghost use Rattle.bpf_code.specs.declared.instruction.Instruction.TheVariants.{LoadWide, Arithmetic, Negate};
ghost use Rattle.bpf_code.specs.declared.instruction.Instruction.TheVariants.{MoveSignExtended, End, Branch, Jump};
ghost use Rattle.bpf_code.specs.declared.instruction.Source.TheVariants as sources;
ghost use Rattle.bpf_semantics.specs.State.{State};
ghost use Rattle.bpf_semantics.specs.Step.{after_jump};
ghost use Rattle.flat_code.specs.Flat.{signed, widened};
ghost use Rattle.vm_state.specs.Words.{Holds, HoldsNext, CanRun, word};
ghost use Rattle.vm_state.specs.Access.{offset_address, words_past, with_word, at_slot, GoesOn};

use crate::state::WordState;
use crate::words::{arithmetic, holds, load_value, low_bits};
use bpf_code::{LoadKind, Register, SignExtendingMove, Size, Width};
use bpf_words::{BinaryOperation, ByteOrder, Condition, EndWidth, Operation, end};
use flat_code::FlatInstruction;

impl WordState {
    /// Sets a register to this word, and returns the next slot.
    #[inline]
    fn with_result(&mut self, at: usize, next: usize, dst: Register, word: u64) -> usize
        requires slot { at < 2 ^ 32 }
        requires next { next ≡ at + 1 }
        ensures state { at_slot result self.new ≡ words_past 1 (with_word (at_slot at self.old) dst word) }
        ensures more { at < result }
    {
        self.set(dst, word);
        next
    }

    #[inline]
    pub(crate) fn alu_immediate(
        &mut self,
        at: usize,
        next: usize,
        flat: &FlatInstruction,
        width: Width,
        operation: BinaryOperation,
    ) -> usize
        requires slot { at < 2 ^ 32 }
        requires next { next ≡ at + 1 }
        ensures { GoesOn (Arithmetic width operation flat.now.dst (widened flat.now.immediate))
            at self.old result self.new }
    {
        let operation = Operation::Binary(operation);
        let value = arithmetic(width, operation, self.word(flat.dst), flat.immediate);
        self.with_result(at, next, flat.dst, value)
    }

    #[inline]
    pub(crate) fn alu_register(
        &mut self,
        at: usize,
        next: usize,
        flat: &FlatInstruction,
        width: Width,
        operation: BinaryOperation,
    ) -> usize
        requires slot { at < 2 ^ 32 }
        requires next { next ≡ at + 1 }
        ensures { GoesOn (Arithmetic width operation flat.now.dst (sources.Register flat.now.src))
            at self.old result self.new }
    {
        let operation = Operation::Binary(operation);
        let value = arithmetic(width, operation, self.word(flat.dst), self.word(flat.src));
        self.with_result(at, next, flat.dst, value)
    }

    #[inline]
    pub(crate) fn negate(
        &mut self,
        at: usize,
        next: usize,
        flat: &FlatInstruction,
        width: Width,
    ) -> usize
        requires slot { at < 2 ^ 32 }
        requires next { next ≡ at + 1 }
        ensures { GoesOn (Negate width flat.now.dst) at self.old result self.new }
    {
        let value = arithmetic(width, Operation::Neg, self.word(flat.dst), 0);
        self.with_result(at, next, flat.dst, value)
    }

    #[inline]
    pub(crate) fn move_sign_extended(
        &mut self,
        at: usize,
        next: usize,
        flat: &FlatInstruction,
        kind: SignExtendingMove,
    ) -> usize
        requires slot { at < 2 ^ 32 }
        requires next { next ≡ at + 1 }
        ensures { GoesOn (MoveSignExtended kind flat.now.dst flat.now.src) at self.old result self.new }
    {
        let dst = flat.dst;
        let operation = Operation::Movsx(low_bits(kind));
        let value = arithmetic(kind.width(), operation, 0, self.word(flat.src));
        self.with_result(at, next, dst, value)
    }

    #[inline]
    pub(crate) fn end(
        &mut self,
        at: usize,
        next: usize,
        flat: &FlatInstruction,
        order: ByteOrder,
        width: EndWidth,
    ) -> usize
        requires slot { at < 2 ^ 32 }
        requires next { next ≡ at + 1 }
        ensures { GoesOn (End order width flat.now.dst) at self.old result self.new }
    {
        let value = end(order, width, self.word(flat.dst));
        self.with_result(at, next, flat.dst, value)
    }

    #[inline]
    pub(crate) fn load_wide(&mut self, at: usize, next: usize, flat: &FlatInstruction) -> usize
        requires slot { at < 2 ^ 32 }
        requires next { next ≡ at + 1 }
        ensures { GoesOn (LoadWide flat.now.dst flat.now.immediate) at self.old result self.new }
    {
        self.set(flat.dst, flat.immediate);
        at + 2
    }

    /// The address in a register, with an offset.
    #[inline]
    fn address(&self, register: Register, offset: i16) -> u64
        ensures { result ≡ offset_address (word self.now register) offset }
    {
        self.word(register)
            .wrapping_add(i64::from(offset).cast_unsigned())
    }

    /// The slot `distance` slots past the next one. No program jumps backwards.
    #[inline]
    fn target(&self, at: usize, next: usize, distance: i16) -> usize
        requires slot { at < 2 ^ 32 }
        requires next { next ≡ at + 1 }
        ensures follows { (s : State) → Holds s (at_slot at self.now)
            → HoldsNext (after_jump distance s) (at_slot result self.now) }
        ensures more { at < result }
    {
        next + i32::from(distance).cast_unsigned() as usize
    }

    #[inline]
    pub(crate) fn jump(&mut self, at: usize, next: usize, flat: &FlatInstruction) -> usize
        requires slot { at < 2 ^ 32 }
        requires next { next ≡ at + 1 }
        ensures { GoesOn (Jump flat.now.offset) at self.old result self.new }
    {
        self.target(at, next, flat.offset)
    }

    #[inline]
    pub(crate) fn if_immediate(
        &mut self,
        at: usize,
        next: usize,
        flat: &FlatInstruction,
        width: Width,
        condition: Condition,
    ) -> usize
        requires slot { at < 2 ^ 32 }
        requires next { next ≡ at + 1 }
        ensures { GoesOn (Branch width condition flat.now.dst (widened flat.now.immediate) flat.now.offset)
            at self.old result self.new }
    {
        if holds(width, condition, self.word(flat.dst), flat.immediate) {
            self.target(at, next, flat.offset)
        } else {
            next
        }
    }

    #[inline]
    pub(crate) fn if_register(
        &mut self,
        at: usize,
        next: usize,
        flat: &FlatInstruction,
        width: Width,
        condition: Condition,
    ) -> usize
        requires slot { at < 2 ^ 32 }
        requires next { next ≡ at + 1 }
        ensures { GoesOn
            (Branch width condition flat.now.dst (sources.Register flat.now.src) flat.now.offset)
            at self.old result self.new }
    {
        if holds(width, condition, self.word(flat.dst), self.word(flat.src)) {
            self.target(at, next, flat.offset)
        } else {
            next
        }
    }

    #[inline]
    pub(crate) fn load(
        &mut self,
        at: usize,
        next: usize,
        flat: &FlatInstruction,
        kind: LoadKind,
    ) -> usize
        requires slot { at < 2 ^ 32 }
        requires next { next ≡ at + 1 }
        requires can { CanRun (Load kind flat.now.dst flat.now.src flat.now.offset) (at_slot at self.old) }
        ensures { GoesOn (Load kind flat.now.dst flat.now.src flat.now.offset) at self.old result self.new }
    {
        let dst = flat.dst;
        let address = self.address(flat.src, flat.offset);
        let value = load_value(kind, self.bytes(address, usize::from(kind.bytes())));
        self.with_result(at, next, dst, value)
    }

    #[inline]
    pub(crate) fn store_immediate(
        &mut self,
        at: usize,
        next: usize,
        flat: &FlatInstruction,
        size: Size,
    ) -> usize
        requires slot { at < 2 ^ 32 }
        requires next { next ≡ at + 1 }
        requires can { CanRun (StoreImmediate size flat.now.dst flat.now.offset (signed flat.now.immediate))
            (at_slot at self.old) }
        ensures { GoesOn (StoreImmediate size flat.now.dst flat.now.offset (signed flat.now.immediate))
            at self.old result self.new }
    {
        self.put_number(self.address(flat.dst, flat.offset), size, flat.immediate);
        next
    }

    #[inline]
    pub(crate) fn store_register(
        &mut self,
        at: usize,
        next: usize,
        flat: &FlatInstruction,
        size: Size,
    ) -> usize
        requires slot { at < 2 ^ 32 }
        requires next { next ≡ at + 1 }
        requires can { CanRun (StoreRegister size flat.now.dst flat.now.src flat.now.offset) (at_slot at self.old) }
        ensures { GoesOn (StoreRegister size flat.now.dst flat.now.src flat.now.offset)
            at self.old result self.new }
    {
        let number = self.word(flat.src);
        let address = self.address(flat.dst, flat.offset);
        self.put_number(address, size, number);
        next
    }
}
