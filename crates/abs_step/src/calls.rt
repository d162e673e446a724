//! The abstract state after a call.
ghost use Rattle.std.specs.Prelude.{◌≡◌, ◌+◌, ◌≤◌, Some, IfSome};
ghost use Rattle.abs_step.specs.Result.{answer_range, with_buffer, with_buffers, with_span, written_length, after_call};

use crate::arguments::ARGUMENT_REGISTERS;
use abs_state::{AbsState, ByteSpan, Kind, buffer_span, table_width};
use bpf_code::Register;
use interval::Range;
use schema::{AnswerKind, ArgumentKind, Helper, Schema};
use std::alloc::Allocator;

fn answer_range(answer: AnswerKind) -> Range
    ensures { result ≡ answer_range answer }
{
    match answer {
        AnswerKind::Flag => Range::new(0, 1),
        AnswerKind::Zero => Range::single(0),
        AnswerKind::Count => Range::new(0, u64::MAX),
    }
}

/// Marks these bytes of the stack as initialised.
pub(crate) fn set_bytes(state: &mut AbsState, bytes: Option<ByteSpan>)
    requires { IfSome bytes (λ bytes. bytes.index + bytes.count ≤ 512) }
    ensures { state.new ≡ with_span bytes state.old }
{
    if let Some(bytes) = bytes {
        state.set_initialised(bytes.index, bytes.count);
    }
}

fn set_buffer(state: &mut AbsState, kind: Kind, count: Option<usize>)
    ensures { state.new ≡ with_buffer state.old kind count }
{
    if let Some(count) = count {
        set_bytes(state, buffer_span(kind, count));
    }
}

/// Returns the number of bytes that a helper writes to an argument's buffer, where the table has this width.
fn written_length(argument: ArgumentKind, width: Option<usize>) -> Option<usize>
    ensures { result ≡ written_length width argument }
{
    match argument {
        ArgumentKind::RowWritten => width,
        ArgumentKind::KeyWritten => Some(8),
        ArgumentKind::Table | ArgumentKind::Number | ArgumentKind::RowRead => None,
    }
}

/// Marks each buffer that a helper writes as initialised.
fn set_buffers<A: Allocator>(state: &mut AbsState, schema: &Schema<A>, helper: Helper)
    ensures { state.new ≡ with_buffers schema.now helper state.old }
{
    let width = table_width(schema, state.kind(Register::R1));
    for (argument, register) in helper.arguments().iter().zip(&ARGUMENT_REGISTERS) {
        set_buffer(
            state,
            state.kind(*register),
            written_length(*argument, width),
        );
    }
}

/// Changes the abstract state to that after a call.
pub(crate) fn call<A: Allocator>(state: &mut AbsState, schema: &Schema<A>, helper: Helper)
    ensures { state.new ≡ after_call schema.now (Some helper) state.old }
{
    set_buffers(state, schema, helper);
    state.set_answer(answer_range(helper.answer()));
}
