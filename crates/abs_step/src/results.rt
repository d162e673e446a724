//! The abstract states after an instruction, one for each edge.
ghost use Rattle.std.specs.Prelude.{◌≡◌, Some};
ghost use Rattle.bpf_code.specs.Sizes.{size_bytes, width_bits};
ghost use Rattle.bpf_semantics.specs.Step.{low_bits};
ghost use Rattle.range_refine.specs.Refinement.{refinement};
ghost use Rattle.abs_state.specs.State.{kind_of, with_kind};
ghost use Rattle.abs_step.specs.Result.{loaded_range, with_known_store, compared_kind, is_same_register, with_source};
ghost use Rattle.abs_step.specs.Result.{with_sides, refined_state, edge_state, end_kind, after_call, next_state};
ghost use Rattle.abs_step.specs.Result.{jump_state};
ghost use Rattle.schema.specs.Helper.{helper_of};

use crate::calls::{call, set_bytes};
use abs_state::{AbsState, Kind, number_kind, operand_kind, operation_kind, stack_span};
use bpf_code::{Instruction, LoadKind, Register, SignExtendingMove, Source, Width};
use bpf_words::{ByteOrder, Condition, EndWidth, Operation, SignExtension};
use interval::{Range, end_range};
use range_refine::{refine32, refine64};
use schema::{Helper, Schema};
use std::alloc::Allocator;

/// Returns the range that a load gives.
fn loaded_range(kind: LoadKind) -> Range
    ensures { result ≡ loaded_range kind }
{
    match kind {
        LoadKind::U8 => Range::new(0, 0xff),
        LoadKind::U16 => Range::new(0, 0xffff),
        LoadKind::U32 => Range::new(0, 0xffff_ffff),
        LoadKind::U64 | LoadKind::I8 | LoadKind::I16 | LoadKind::I32 => Range::new(0, u64::MAX),
    }
}

/// Changes the abstract state to that after a store of `size` bytes.
fn store(state: &mut AbsState, address: Kind, offset: i16, size: u8)
    ensures { state.new ≡ with_known_store state.old address offset size }
{
    match address {
        Kind::Stack(lo, hi) if lo == hi => set_bytes(state, stack_span(lo, hi, offset, size)),
        _ => {}
    }
}

/// Returns the number of low bits that a sign-extending move takes.
fn low_bits(kind: SignExtendingMove) -> SignExtension
    ensures { result ≡ low_bits kind }
{
    match kind {
        SignExtendingMove::From8To32 | SignExtendingMove::From8To64 => SignExtension::From8,
        SignExtendingMove::From16To32 | SignExtendingMove::From16To64 => SignExtension::From16,
        SignExtendingMove::From32To64 => SignExtension::From32,
    }
}

fn end_kind(order: ByteOrder, width: EndWidth, kind: Kind) -> Kind
    ensures { result ≡ end_kind order width kind }
{
    match kind {
        Kind::Number(range) => Kind::Number(end_range(order, width, range)),
        _ => Kind::Nothing,
    }
}

/// Returns what is known of the second side of a condition.
fn compared_kind(width: Width, state: &AbsState, source: Source) -> Kind
    ensures { result ≡ compared_kind width state.now source }
{
    match (width, source) {
        (Width::Bits32, Source::Immediate(immediate)) => {
            let word = i64::from(immediate).cast_unsigned() % (1 << 32);
            Kind::Number(Range::single(word))
        }
        _ => operand_kind(state, source),
    }
}

fn is_same_register(dst: Register, source: Source) -> bool
    ensures { result ≡ is_same_register dst source }
{
    match source {
        Source::Immediate(_) => false,
        Source::Register(src) => dst.number() == src.number(),
    }
}

fn refine(
    width: Width,
    condition: Condition,
    taken: bool,
    a: Range,
    b: Range,
) -> Option<(Range, Range)>
    ensures { result ≡ refinement (width_bits width) condition taken a b }
{
    match width {
        Width::Bits32 => refine32(condition, taken, a, b),
        Width::Bits64 => refine64(condition, taken, a, b),
    }
}

/// The state in which both sides of a condition are of these ranges.
fn with_sides(dst: Register, source: Source, state: &AbsState, sides: (Range, Range)) -> AbsState
    ensures { Some result ≡ with_sides dst source state.now (Some sides) }
{
    let mut refined = *state;
    refined.set_kind(dst, Kind::Number(sides.0));
    match source {
        Source::Immediate(_) => {}
        Source::Register(src) => refined.set_kind(src, Kind::Number(sides.1)),
    }
    refined
}

/// Returns what is known where the condition holds, or doesn't; none where that edge is never taken.
fn edge_state(
    width: Width,
    condition: Condition,
    taken: bool,
    dst: Register,
    source: Source,
    state: &AbsState,
) -> Option<AbsState>
    ensures { result ≡ edge_state width condition taken dst source state.now }
{
    if is_same_register(dst, source) {
        return Some(*state);
    }
    refined_state(width, condition, taken, dst, source, state)
}

fn refined_state(
    width: Width,
    condition: Condition,
    taken: bool,
    dst: Register,
    source: Source,
    state: &AbsState,
) -> Option<AbsState>
    ensures { result ≡ refined_state width condition taken dst source state.now (kind_of state.now dst)
        (compared_kind width state.now source) }
{
    let Kind::Number(a) = state.kind(dst) else {
        return None;
    };
    let Kind::Number(b) = compared_kind(width, state, source) else {
        return None;
    };
    match refine(width, condition, taken, a, b) {
        Some(sides) => Some(with_sides(dst, source, state, sides)),
        None => None,
    }
}

fn with_result(state: &AbsState, dst: Register, kind: Kind) -> AbsState
    ensures { result ≡ with_kind state.now dst kind }
{
    let mut after = *state;
    after.set_kind(dst, kind);
    after
}

fn after_store(state: &AbsState, dst: Register, offset: i16, size: u8) -> AbsState
    ensures { result ≡ with_known_store state.now (kind_of state.now dst) offset size }
{
    let mut after = *state;
    store(&mut after, state.kind(dst), offset, size);
    after
}

fn after_call<A: Allocator>(schema: &Schema<A>, number: i32, state: &AbsState) -> AbsState
    ensures { result ≡ after_call schema.now (helper_of number) state.now }
{
    let mut after = *state;
    match Helper::from_number(number) {
        Some(helper) => call(&mut after, schema, helper),
        None => {}
    }
    after
}

/// Returns what is known at the next instruction after an instruction that has no cause to be refused; none where that
/// edge is never taken.
#[tactic(auto, unfolding(crate::specs::Result::next_state))]
pub fn next_state<A: Allocator>(
    schema: &Schema<A>,
    instruction: Instruction,
    state: &AbsState,
) -> Option<AbsState>
    ensures { result ≡ next_state schema.now instruction state.now }
{
    match instruction {
        Instruction::LoadWide { dst, value } => {
            Some(with_result(state, dst, Kind::Number(Range::single(value))))
        }
        Instruction::Load { kind, dst, .. } => {
            Some(with_result(state, dst, Kind::Number(loaded_range(kind))))
        }
        Instruction::StoreImmediate {
            size,
            dst,
            offset,
            ..
        } => Some(after_store(state, dst, offset, size.bytes())),
        Instruction::StoreRegister {
            size,
            dst,
            offset,
            ..
        } => Some(after_store(state, dst, offset, size.bytes())),
        Instruction::Arithmetic {
            width,
            operation,
            dst,
            source,
        } => {
            let kind = operation_kind(
                width,
                operation,
                state.kind(dst),
                operand_kind(state, source),
            );
            Some(with_result(state, dst, kind))
        }
        Instruction::Negate { width, dst } => {
            let kind = number_kind(width, Operation::Neg, state.kind(dst));
            Some(with_result(state, dst, kind))
        }
        Instruction::MoveSignExtended { kind, dst, src } => {
            let moved = Operation::Movsx(low_bits(kind));
            Some(with_result(
                state,
                dst,
                number_kind(kind.width(), moved, state.kind(src)),
            ))
        }
        Instruction::End { order, width, dst } => {
            Some(with_result(state, dst, end_kind(order, width, state.kind(dst))))
        }
        Instruction::Branch {
            width,
            condition,
            dst,
            source,
            ..
        } => edge_state(width, condition, false, dst, source, state),
        Instruction::Call { helper } => Some(after_call(schema, helper, state)),
        Instruction::Jump { .. } | Instruction::LongJump { .. } | Instruction::Exit => None,
    }
}

/// Returns what is known at the target of a jump; none where the jump is never taken, and where there is no jump.
#[tactic(auto, unfolding(crate::specs::Result::jump_state))]
pub fn jump_state(instruction: Instruction, state: &AbsState) -> Option<AbsState>
    ensures { result ≡ jump_state instruction state.now }
{
    match instruction {
        Instruction::Jump { .. } | Instruction::LongJump { .. } => Some(*state),
        Instruction::Branch {
            width,
            condition,
            dst,
            source,
            ..
        } => edge_state(width, condition, true, dst, source, state),
        _ => None,
    }
}
