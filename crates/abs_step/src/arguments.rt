//! The conditions that a call has for its arguments.
ghost use Rattle.std.specs.Prelude.{◌≡◌, ◌+◌, ◌≤◌, Some, IfSome, map};
ghost use Rattle.std.specs.List.{list_any};
ghost use Rattle.abs_state.specs.State.{kind_of};
ghost use Rattle.abs_state.specs.Kind.{is_nothing};
ghost use Rattle.abs_step.specs.Cause.{call_arguments, is_unknown_table, is_no_number, is_no_buffer, buffer_length};
ghost use Rattle.abs_step.specs.Cause.{lacks_room};
ghost use Rattle.abs_step.specs.Cause.{row_is_uninitialised, some_uninitialised};

use abs_state::{
    AbsState, ByteSpan, Kind, are_initialised, buffer_span, is_nothing, is_number, table_width,
};
use bpf_code::Register;
use schema::{ArgumentKind, Helper, Schema};
use std::alloc::Allocator;

/// The registers in which the arguments of a call stand, in their order.
pub static ARGUMENT_REGISTERS: [Register; 5] = [
    Register::R1,
    Register::R2,
    Register::R3,
    Register::R4,
    Register::R5,
];

/// Tells whether an argument holds nothing.
pub(crate) fn argument_is_nothing(helper: Helper, state: &AbsState) -> bool
    ensures { result ≡ list_any (λ r. is_nothing (kind_of state.now r))
        (map (λ a. a.1) (call_arguments (Some helper))) }
{
    let arguments = helper.arguments().iter().zip(&ARGUMENT_REGISTERS);
    let mut registers = arguments.map(|(_, register)| *register);
    registers.any(|register| is_nothing(state.kind(register)))
}

/// Tells whether the table isn't one known number of the schema.
pub(crate) fn table_is_unknown<A: Allocator>(
    helper: Helper,
    state: &AbsState,
    schema: &Schema<A>,
) -> bool
    ensures { result ≡ list_any (λ a. is_unknown_table schema.now a.0 (kind_of state.now a.1))
        (call_arguments (Some helper)) }
{
    let mut arguments = helper.arguments().iter().zip(&ARGUMENT_REGISTERS);
    arguments.any(|(argument, register)| {
        is_unknown_table(schema, *argument, state.kind(*register))
    })
}

/// Tells whether a table's argument isn't one known number of the schema.
fn is_unknown_table<A: Allocator>(schema: &Schema<A>, argument: ArgumentKind, kind: Kind) -> bool
    ensures { result ≡ is_unknown_table schema.now argument kind }
{
    match argument {
        ArgumentKind::Table => table_width(schema, kind).is_none(),
        _ => false,
    }
}

/// Tells whether a key, the bound of an interval or a code isn't a number.
pub(crate) fn number_is_missing(helper: Helper, state: &AbsState) -> bool
    ensures { result ≡ list_any (λ a. is_no_number a.0 (kind_of state.now a.1)) (call_arguments (Some helper)) }
{
    let mut arguments = helper.arguments().iter().zip(&ARGUMENT_REGISTERS);
    arguments.any(|(argument, register)| {
        *argument == ArgumentKind::Number && !is_number(state.kind(*register))
    })
}

/// Returns the length of an argument's buffer, where the table has this width.
fn buffer_length(argument: ArgumentKind, width: Option<usize>) -> Option<usize>
    ensures { result ≡ buffer_length width argument }
{
    match argument {
        ArgumentKind::RowRead | ArgumentKind::RowWritten => width,
        ArgumentKind::KeyWritten => Some(8),
        ArgumentKind::Table | ArgumentKind::Number => None,
    }
}

/// Tells whether a buffer of `count` bytes isn't at one place of the stack, or isn't whole inside.
fn lacks_room(count: Option<usize>, kind: Kind) -> bool
    ensures { result ≡ lacks_room count kind }
{
    match count {
        Some(count) => buffer_span(kind, count).is_none(),
        None => false,
    }
}

/// Tells whether some buffer isn't at one place of the stack, or isn't whole inside, where the table has this width.
pub(crate) fn buffer_is_missing(helper: Helper, state: &AbsState, width: Option<usize>) -> bool
    ensures { result ≡ list_any (λ a. is_no_buffer width a.0 (kind_of state.now a.1)) (call_arguments (Some helper)) }
{
    let mut arguments = helper.arguments().iter().zip(&ARGUMENT_REGISTERS);
    arguments.any(|(argument, register)| {
        lacks_room(buffer_length(*argument, width), state.kind(*register))
    })
}

/// Tells whether some of these bytes of the stack aren't initialised.
pub(crate) fn some_uninitialised(state: &AbsState, bytes: Option<ByteSpan>) -> bool
    requires { IfSome bytes (λ bytes. bytes.index + bytes.count ≤ 512) }
    ensures { result ≡ some_uninitialised state.now bytes }
{
    match bytes {
        Some(bytes) => !are_initialised(state, bytes),
        None => false,
    }
}

/// Tells whether the row that is put has a byte that isn't initialised.
pub(crate) fn row_is_uninitialised(helper: Helper, state: &AbsState, width: Option<usize>) -> bool
    ensures { result ≡ list_any (λ a. row_is_uninitialised state.now width a.0 (kind_of state.now a.1))
        (call_arguments (Some helper)) }
{
    let Some(width) = width else {
        return false;
    };
    let mut arguments = helper.arguments().iter().zip(&ARGUMENT_REGISTERS);
    arguments.any(|(argument, register)| {
        *argument == ArgumentKind::RowRead
            && some_uninitialised(state, buffer_span(state.kind(*register), width))
    })
}
