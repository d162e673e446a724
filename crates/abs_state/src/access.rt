//! The bytes that a load, a store or a helper may touch.
ghost use Rattle.std.specs.Prelude.{◌≡◌, ◌+◌, ◌≤◌, ◌^◌, length, unsigned_abs, IfSome};
ghost use Rattle.std.specs.Int.{int_gap};
ghost use Rattle.bpf_semantics.specs.Memory.{index_in, stack_index};
ghost use Rattle.abs_state.specs.Access.{args_span, are_initialised, buffer_span, span_from, span_length, stack_span};

use crate::kind::Kind;
use crate::state::AbsState;

/// A number of bytes of a memory, from an index on.
#[derive(Clone, Copy, Debug, PartialEq, Eq)]
pub struct ByteSpan {
    pub index: usize,
    pub count: usize,
}

/// The index of a place in a memory of `all` bytes that begins at place 0, where `count` bytes from there on
/// lie inside.
fn index_in(place: i64, count: usize, all: usize) -> Option<usize>
    ensures exact { result ≡ index_in place count all }
    ensures inside { IfSome result (λ index. index + count ≤ all) }
{
    let index = usize::try_from(place).ok()?;
    let end = index.checked_add(count)?;
    if end <= all { Some(index) } else { None }
}

/// The index of a place in the stack, which ends before place 0, where `count` bytes from there on lie inside.
fn stack_index(place: i64, count: usize) -> Option<usize>
    requires { unsigned_abs place ≤ 2 ^ 40 }
    ensures exact { result ≡ stack_index place count }
    ensures inside { IfSome result (λ index. index + count ≤ 512) }
{
    index_in(place + 512, count, 512)
}

fn span_from(count: usize, index: Option<usize>) -> Option<ByteSpan>
    ensures { result ≡ span_from count index }
{
    match index {
        Some(index) => Some(ByteSpan { index, count }),
        None => None,
    }
}

/// Returns the number of bytes that accesses of this size through a pointer from lo to hi touch.
fn span_length(lo: i32, hi: i32, size: u8) -> usize
    ensures exact { result ≡ span_length lo hi size }
{
    usize::try_from(i64::from(hi) - i64::from(lo)).unwrap_or(0) + usize::from(size)
}

/// Returns the bytes of the stack that such accesses touch, where all are inside.
pub fn stack_span(lo: i32, hi: i32, offset: i16, size: u8) -> Option<ByteSpan>
    ensures exact { result ≡ stack_span lo hi offset size }
    ensures inside { IfSome result (λ bytes. bytes.index + bytes.count ≤ 512) }
{
    let count = span_length(lo, hi, size);
    span_from(count, stack_index(i64::from(lo) + i64::from(offset), count))
}

/// Returns the bytes of arguments of this length that such accesses touch, where all are inside.
pub fn args_span(args_len: u16, lo: i32, hi: i32, offset: i16, size: u8) -> Option<ByteSpan>
    ensures { result ≡ args_span args_len lo hi offset size }
{
    let count = span_length(lo, hi, size);
    span_from(
        count,
        index_in(
            i64::from(lo) + i64::from(offset),
            count,
            usize::from(args_len),
        ),
    )
}

/// A helper's buffer, where it is at one place of the stack, and whole inside.
pub fn buffer_span(kind: Kind, count: usize) -> Option<ByteSpan>
    ensures exact { result ≡ buffer_span kind count }
    ensures inside { IfSome result (λ bytes. bytes.index + bytes.count ≤ 512) }
{
    match kind {
        Kind::Stack(lo, hi) if lo == hi => span_from(count, stack_index(i64::from(lo), count)),
        _ => None,
    }
}

/// Tells whether these bytes of the stack are initialised.
pub fn are_initialised(state: &AbsState, bytes: ByteSpan) -> bool
    requires { bytes.index + bytes.count ≤ 512 }
    ensures { result ≡ are_initialised state.now bytes }
{
    state.is_initialised(bytes.index, bytes.count)
}
