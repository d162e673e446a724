//! The causes for which an instruction is refused.
ghost use Rattle.std.specs.Prelude.{◌≡◌, IfSome, ◌+◌, ◌≤◌};
ghost use Rattle.std.specs.List.{list_any};
ghost use Rattle.bpf_code.specs.declared.instruction.Register.TheVariants.{R1};
ghost use Rattle.bpf_code.specs.declared.instruction.Width.TheVariants.{Bits64};
ghost use Rattle.abs_state.specs.declared.kind.Kind.TheVariants.{Number};
ghost use Rattle.bpf_semantics.specs.Step.{is_read_only};
ghost use Rattle.abs_state.specs.State.{kind_of};
ghost use Rattle.abs_state.specs.Kind.{is_nothing, table_width};
ghost use Rattle.abs_step.specs.Cause.{source_registers, operation_registers, holds_nothing, writes_frame_pointer};
ghost use Rattle.abs_step.specs.Cause.{move_uses_pointer, binary_uses_pointer, operands_use_pointer, uses_pointer};
ghost use Rattle.abs_step.specs.Cause.{load_is_outside, store_is_outside, is_outside, is_args, stores_to_arguments};
ghost use Rattle.abs_step.specs.Cause.{bytes_loaded, reads_uninitialised, is_unknown_helper, has_argument};
ghost use Rattle.abs_step.specs.Cause.{is_unknown_table};
ghost use Rattle.abs_step.specs.Cause.{is_no_number, is_no_buffer, replies_pointer, cause_of};

use crate::arguments::{
    argument_is_nothing, buffer_is_missing, number_is_missing, row_is_uninitialised,
    some_uninitialised, table_is_unknown,
};
use crate::cause::Cause;
use abs_state::{
    AbsState, ByteSpan, Kind, args_span, is_move, is_nothing, is_pointer, moved_places,
    operand_kind, stack_span, table_width,
};
use bpf_code::{Instruction, Register, Source, Width};
use bpf_words::BinaryOperation;
use interval::Range;
use schema::{Helper, Schema};
use std::alloc::Allocator;

/// Tells whether the source is a register that holds nothing.
fn source_is_nothing(state: &AbsState, source: Source) -> bool
    ensures { result ≡ list_any (λ r. is_nothing (kind_of state.now r)) (source_registers source) }
{
    match source {
        Source::Immediate(_) => false,
        Source::Register(register) => is_nothing(state.kind(register)),
    }
}

/// Tells whether a register that is read holds nothing.
#[tactic(auto, unfolding(crate::specs::Cause::holds_nothing))]
fn holds_nothing(instruction: Instruction, state: &AbsState) -> bool
    ensures { result ≡ holds_nothing instruction state.now }
{
    match instruction {
        Instruction::Load { src, .. } => is_nothing(state.kind(src)),
        Instruction::StoreImmediate { dst, .. } => is_nothing(state.kind(dst)),
        Instruction::StoreRegister { dst, src, .. } => {
            is_nothing(state.kind(dst)) || is_nothing(state.kind(src))
        }
        Instruction::Arithmetic {
            operation,
            dst,
            source,
            ..
        } => operands_are_nothing(operation, dst, source, state),
        Instruction::Negate { dst, .. } => is_nothing(state.kind(dst)),
        Instruction::MoveSignExtended { src, .. } => is_nothing(state.kind(src)),
        Instruction::End { dst, .. } => is_nothing(state.kind(dst)),
        Instruction::Branch { dst, source, .. } => {
            is_nothing(state.kind(dst)) || source_is_nothing(state, source)
        }
        Instruction::Call { helper } => match Helper::from_number(helper) {
            Some(helper) => argument_is_nothing(helper, state),
            None => false,
        },
        Instruction::Exit => is_nothing(state.kind(Register::R0)),
        Instruction::LoadWide { .. } | Instruction::Jump { .. } | Instruction::LongJump { .. } =>
            false,
    }
}

fn operands_are_nothing(
    op: BinaryOperation,
    dst: Register,
    source: Source,
    state: &AbsState,
) -> bool
    ensures { result ≡ list_any (λ r. is_nothing (kind_of state.now r)) (operation_registers op dst source) }
{
    if is_move(op) {
        source_is_nothing(state, source)
    } else {
        is_nothing(state.kind(dst)) || source_is_nothing(state, source)
    }
}

/// Tells whether the instruction writes r10.
fn writes_frame_pointer(instruction: Instruction) -> bool
    ensures { result ≡ writes_frame_pointer instruction }
{
    match instruction {
        Instruction::LoadWide { dst, .. } => is_frame_pointer(dst),
        Instruction::Load { dst, .. } => is_frame_pointer(dst),
        Instruction::Arithmetic { dst, .. } => is_frame_pointer(dst),
        Instruction::Negate { dst, .. } => is_frame_pointer(dst),
        Instruction::MoveSignExtended { dst, .. } => is_frame_pointer(dst),
        Instruction::End { dst, .. } => is_frame_pointer(dst),
        _ => false,
    }
}

fn is_frame_pointer(register: Register) -> bool
    ensures { result ≡ is_read_only register }
{
    matches!(register, Register::R10)
}

fn move_uses_pointer(width: Width, b: Kind) -> bool
    ensures { result ≡ move_uses_pointer width b }
{
    match width {
        Width::Bits32 => is_pointer(b),
        Width::Bits64 => false,
    }
}

fn binary_uses_pointer(width: Width, op: BinaryOperation, a: Kind, b: Kind) -> bool
    ensures { result ≡ binary_uses_pointer width op a b }
{
    match b {
        Kind::Number(range) => match width {
            Width::Bits32 => is_pointer(a),
            Width::Bits64 => moves_too_far(op, a, range),
        },
        Kind::Nothing => is_pointer(a),
        Kind::Stack(_, _) | Kind::Args(_, _) => true,
    }
}

/// Tells whether a pointer is moved too far, or by another operation than ADD and SUB.
fn moves_too_far(op: BinaryOperation, a: Kind, b: Range) -> bool
    ensures { result ≡ binary_uses_pointer Bits64 op a (Number b) }
{
    match a {
        Kind::Stack(lo, hi) => moved_places(op, lo, hi, b).is_none(),
        Kind::Args(lo, hi) => moved_places(op, lo, hi, b).is_none(),
        Kind::Nothing | Kind::Number(_) => false,
    }
}

fn operands_use_pointer(width: Width, op: BinaryOperation, a: Kind, b: Kind) -> bool
    ensures { result ≡ operands_use_pointer width op a b }
{
    if is_move(op) {
        move_uses_pointer(width, b)
    } else {
        binary_uses_pointer(width, op, a, b)
    }
}

/// Tells whether a pointer stands where only a number may, or is moved too far.
#[tactic(auto, unfolding(crate::specs::Cause::uses_pointer))]
fn uses_pointer(instruction: Instruction, state: &AbsState) -> bool
    ensures { result ≡ uses_pointer instruction state.now }
{
    match instruction {
        Instruction::Arithmetic {
            width,
            operation,
            dst,
            source,
        } => operands_use_pointer(
            width,
            operation,
            state.kind(dst),
            operand_kind(state, source),
        ),
        Instruction::Negate { dst, .. } => is_pointer(state.kind(dst)),
        Instruction::MoveSignExtended { src, .. } => is_pointer(state.kind(src)),
        Instruction::End { dst, .. } => is_pointer(state.kind(dst)),
        Instruction::StoreRegister { src, .. } => is_pointer(state.kind(src)),
        Instruction::Branch { dst, source, .. } => {
            is_pointer(state.kind(dst)) || is_pointer(operand_kind(state, source))
        }
        _ => false,
    }
}

/// Tells whether a load's address is a number, or a byte that the load may touch lies outside.
fn load_is_outside(args_len: u16, address: Kind, offset: i16, size: u8) -> bool
    ensures { result ≡ load_is_outside args_len address offset size }
{
    match address {
        Kind::Nothing => false,
        Kind::Number(_) => true,
        Kind::Stack(lo, hi) => stack_span(lo, hi, offset, size).is_none(),
        Kind::Args(lo, hi) => args_span(args_len, lo, hi, offset, size).is_none(),
    }
}

/// Tells whether a store's address is a number, or a byte that the store may touch lies outside the stack. An address
/// in the arguments doesn't count here.
fn store_is_outside(address: Kind, offset: i16, size: u8) -> bool
    ensures { result ≡ store_is_outside address offset size }
{
    match address {
        Kind::Number(_) => true,
        Kind::Stack(lo, hi) => stack_span(lo, hi, offset, size).is_none(),
        _ => false,
    }
}

#[tactic(auto, unfolding(crate::specs::Cause::is_outside))]
fn is_outside(args_len: u16, instruction: Instruction, state: &AbsState) -> bool
    ensures { result ≡ is_outside args_len instruction state.now }
{
    match instruction {
        Instruction::Load {
            kind,
            src,
            offset,
            ..
        } => load_is_outside(args_len, state.kind(src), offset, kind.bytes()),
        Instruction::StoreImmediate {
            size,
            dst,
            offset,
            ..
        } => store_is_outside(state.kind(dst), offset, size.bytes()),
        Instruction::StoreRegister {
            size,
            dst,
            offset,
            ..
        } => store_is_outside(state.kind(dst), offset, size.bytes()),
        _ => false,
    }
}

fn is_args(kind: Kind) -> bool
    ensures { result ≡ is_args kind }
{
    match kind {
        Kind::Args(_, _) => true,
        _ => false,
    }
}

fn stores_to_arguments(instruction: Instruction, state: &AbsState) -> bool
    ensures { result ≡ stores_to_arguments instruction state.now }
{
    match instruction {
        Instruction::StoreImmediate { dst, .. } => is_args(state.kind(dst)),
        Instruction::StoreRegister { dst, .. } => is_args(state.kind(dst)),
        _ => false,
    }
}

/// The bytes of the stack that a load may touch.
fn bytes_loaded(address: Kind, offset: i16, size: u8) -> Option<ByteSpan>
    ensures exact { result ≡ bytes_loaded address offset size }
    ensures inside { IfSome result (λ bytes. bytes.index + bytes.count ≤ 512) }
{
    match address {
        Kind::Stack(lo, hi) => stack_span(lo, hi, offset, size),
        _ => None,
    }
}

/// Tells whether the instruction reads a byte of the stack that isn't initialised.
#[tactic(auto, unfolding(crate::specs::Cause::reads_uninitialised))]
fn reads_uninitialised<A: Allocator>(
    schema: &Schema<A>,
    instruction: Instruction,
    state: &AbsState,
) -> bool
    ensures { result ≡ reads_uninitialised schema.now instruction state.now }
{
    match instruction {
        Instruction::Load {
            kind,
            src,
            offset,
            ..
        } => some_uninitialised(state, bytes_loaded(state.kind(src), offset, kind.bytes())),
        Instruction::Call { helper } => match Helper::from_number(helper) {
            Some(helper) => {
                let width = table_width(schema, state.kind(Register::R1));
                row_is_uninitialised(helper, state, width)
            }
            None => false,
        },
        _ => false,
    }
}

fn is_unknown_helper(instruction: Instruction) -> bool
    ensures { result ≡ is_unknown_helper instruction }
{
    match instruction {
        Instruction::Call { helper } => Helper::from_number(helper).is_none(),
        _ => false,
    }
}

fn names_unknown_table<A: Allocator>(
    schema: &Schema<A>,
    instruction: Instruction,
    state: &AbsState,
) -> bool
    ensures { result ≡ has_argument (is_unknown_table schema.now) instruction state.now }
{
    match instruction {
        Instruction::Call { helper } => match Helper::from_number(helper) {
            Some(helper) => table_is_unknown(helper, state, schema),
            None => false,
        },
        _ => false,
    }
}

fn lacks_number(instruction: Instruction, state: &AbsState) -> bool
    ensures { result ≡ has_argument is_no_number instruction state.now }
{
    match instruction {
        Instruction::Call { helper } => match Helper::from_number(helper) {
            Some(helper) => number_is_missing(helper, state),
            None => false,
        },
        _ => false,
    }
}

fn lacks_buffer<A: Allocator>(
    schema: &Schema<A>,
    instruction: Instruction,
    state: &AbsState,
) -> bool
    ensures { result ≡ has_argument
        (is_no_buffer (table_width schema.now (kind_of state.now R1))) instruction state.now }
{
    match instruction {
        Instruction::Call { helper } => match Helper::from_number(helper) {
            Some(helper) => {
                let width = table_width(schema, state.kind(Register::R1));
                buffer_is_missing(helper, state, width)
            }
            None => false,
        },
        _ => false,
    }
}

fn replies_pointer(instruction: Instruction, state: &AbsState) -> bool
    ensures { result ≡ replies_pointer instruction state.now }
{
    match instruction {
        Instruction::Exit => is_pointer(state.kind(Register::R0)),
        _ => false,
    }
}

/// The lowest cause for which an instruction is refused, given what is known of the state before it; none where there
/// is no cause. `args_len` is the number of bytes of the arguments.
#[tactic(auto, unfolding(crate::specs::Cause::cause_of))]
pub fn cause_of<A: Allocator>(
    schema: &Schema<A>,
    args_len: u16,
    instruction: Instruction,
    state: &AbsState,
) -> Option<Cause>
    ensures { result ≡ cause_of schema.now args_len instruction state.now }
{
    if holds_nothing(instruction, state) {
        Some(Cause::HoldsNothing)
    } else if writes_frame_pointer(instruction) {
        Some(Cause::WritesFramePointer)
    } else if uses_pointer(instruction, state) {
        Some(Cause::UsesPointer)
    } else if is_outside(args_len, instruction, state) {
        Some(Cause::OutsideMemory)
    } else if reads_uninitialised(schema, instruction, state) {
        Some(Cause::Uninitialised)
    } else if is_unknown_helper(instruction) {
        Some(Cause::UnknownHelper)
    } else if names_unknown_table(schema, instruction, state) {
        Some(Cause::UnknownTable)
    } else if lacks_number(instruction, state) {
        Some(Cause::NoNumber)
    } else if lacks_buffer(schema, instruction, state) {
        Some(Cause::NoBuffer)
    } else if replies_pointer(instruction, state) {
        Some(Cause::RepliesPointer)
    } else if stores_to_arguments(instruction, state) {
        Some(Cause::StoresToArguments)
    } else {
        None
    }
}
