//! Loads and stores on the stack and the arguments.

ghost use Rattle.std.specs.Prelude.{◌≡◌, ◌≤◌, ◌^◌, ◌+ℤ◌, unsigned_abs, length, take, drop, IfOk, Option, Some, None};
ghost use Rattle.std.specs.Prelude.{IfSome, option_map};
ghost use Rattle.byteorder.specs.Endian.{little_number};
ghost use Rattle.bpf_semantics.specs.Memory.{load_value, index_in, stack_index, known_bytes, stack_with, memory_bytes};
ghost use Rattle.bpf_semantics.specs.Memory.{memory_with_store, stack_bytes, args_bytes};
ghost use Rattle.bpf_semantics.specs.Helpers.{buffer_of};

use bpf_code::LoadKind;
use bpf_semantics::Value;
use bpf_words::{Operation, SignExtension, alu64};
use byteorder::{ByteOrder, LittleEndian};
use std::alloc::{AllocError, Allocator};

/// The number of bytes of the stack.
const STACK_BYTES: usize = 512;

/// The index of a place in a memory of `all` bytes that begins at place 0, where `count` bytes from
/// there on lie inside.
fn index_in(place: i64, count: usize, all: usize) -> Option<usize>
    ensures { result ≡ index_in place count all }
{
    let index = usize::try_from(place).ok()?;
    let end = index.checked_add(count)?;
    if end <= all { Some(index) } else { None }
}

/// The index of a place in the stack, which ends before place 0, where `count` bytes from there on lie inside.
fn stack_index(place: i64, count: usize) -> Option<usize>
    requires { unsigned_abs place ≤ 2 ^ 40 }
    ensures { result ≡ stack_index place count }
{
    index_in(place + 512, count, STACK_BYTES)
}

/// Returns the index at which a buffer of `width` bytes begins in the stack; none where the buffer isn't whole inside.
pub fn buffer_of(value: Value, width: usize) -> Option<usize>
    ensures { result ≡ buffer_of value width }
{
    match value {
        Value::Stack(place) => stack_index(i64::from(place), width),
        _ => None,
    }
}

/// The elements from an index on.
fn after<T>(all: &[T], from: usize) -> &[T]
    ensures { result.now ≡ drop from all.now }
{
    &all[from.min(all.len())..]
}

/// The first `count` elements, or as many as there are.
fn front<T>(all: &[T], count: usize) -> &[T]
    ensures elements { result.now ≡ take count all.now }
    ensures short { length result.now ≤ count }
{
    &all[..count.min(all.len())]
}

/// The `count` bytes of the stack from an index on, where each is known.
pub fn known_bytes<A: Allocator>(
    alloc: A,
    stack: &[Option<u8>],
    from: usize,
    count: usize,
) -> Result<Option<Vec<u8, A>>, AllocError>
    ensures bytes { IfOk result (λ bytes.
        option_map (λ v. v.items) bytes ≡ known_bytes stack.now from count) }
    ensures short { IfOk result (λ bytes. IfSome bytes (λ v. length v.items ≤ count)) }
{
    let mut bytes = Vec::new(alloc);
    for byte in front(after(stack, from), count) {
        match byte {
            Some(byte) => bytes.push(*byte)?,
            None => return Ok(None),
        }
    }
    Ok(Some(bytes))
}

/// The stack with these bytes from an index on.
pub fn stack_with<A: Allocator>(
    alloc: A,
    stack: &[Option<u8>],
    from: usize,
    bytes: &[u8],
) -> Result<Vec<Option<u8>, A>, AllocError>
    ensures { IfOk result (λ new. new.items ≡ stack_with stack.now from bytes.now) }
{
    let mut new = Vec::new(alloc);
    new.extend_from_slice(front(stack, from))?;
    for byte in bytes {
        new.push(Some(*byte))?;
    }
    new.extend_from_slice(after(after(stack, from), bytes.len()))?;
    Ok(new)
}

/// The `count` bytes of the stack from a place on, where each is known.
#[tactic(auto, unfolding(bpf_semantics::specs::Memory::stack_bytes, bpf_semantics::specs::Memory::and_then))]
fn stack_bytes<A: Allocator>(
    alloc: A,
    stack: &[Option<u8>],
    place: i64,
    count: usize,
) -> Result<Option<Vec<u8, A>>, AllocError>
    requires { unsigned_abs place ≤ 2 ^ 40 }
    ensures bytes { IfOk result (λ bytes.
        option_map (λ v. v.items) bytes ≡ stack_bytes stack.now place count) }
    ensures short { IfOk result (λ bytes. IfSome bytes (λ v. length v.items ≤ count)) }
{
    match stack_index(place, count) {
        Some(index) => known_bytes(alloc, stack, index, count),
        None => Ok(None),
    }
}

/// The `count` bytes of the arguments from a place on, where they lie inside.
#[tactic(auto, unfolding(bpf_semantics::specs::Memory::args_bytes, bpf_semantics::specs::Memory::and_then))]
fn args_bytes<A: Allocator>(
    alloc: A,
    args: &[u8],
    place: i64,
    count: usize,
) -> Result<Option<Vec<u8, A>>, AllocError>
    ensures bytes { IfOk result (λ bytes.
        option_map (λ v. v.items) bytes ≡ args_bytes args.now place count) }
    ensures short { IfOk result (λ bytes. IfSome bytes (λ v. length v.items ≤ count)) }
{
    match index_in(place, count, args.len()) {
        Some(index) => {
            let bytes = Vec::from_slice(alloc, front(after(args, index), count))?;
            Ok(Some(bytes))
        }
        None => Ok(None),
    }
}

/// The `count` bytes from where a value points, with an offset.
pub fn memory_bytes<A: Allocator>(
    alloc: A,
    stack: &[Option<u8>],
    args: &[u8],
    address: Value,
    offset: i16,
    count: usize,
) -> Result<Option<Vec<u8, A>>, AllocError>
    ensures bytes { IfOk result (λ bytes.
        option_map (λ v. v.items) bytes ≡ memory_bytes stack.now args.now address offset count) }
    ensures short { IfOk result (λ bytes. IfSome bytes (λ v. length v.items ≤ count)) }
{
    match address {
        Value::Stack(place) => {
            stack_bytes(alloc, stack, i64::from(place) + i64::from(offset), count)
        }
        Value::Args(place) => args_bytes(alloc, args, i64::from(place) + i64::from(offset), count),
        Value::Nothing | Value::Number(_) => Ok(None),
    }
}

/// The stack with these bytes where a value points, with an offset.
#[tactic(auto, unfolding(bpf_semantics::specs::Memory::stack_with_store, bpf_semantics::specs::Memory::and_then))]
pub fn memory_with_store<A: Allocator>(
    alloc: A,
    stack: &[Option<u8>],
    address: Value,
    offset: i16,
    bytes: &[u8],
) -> Result<Option<Vec<Option<u8>, A>>, AllocError>
    ensures { IfOk result (λ new.
        option_map (λ v. v.items) new ≡ memory_with_store stack.now address offset bytes.now) }
{
    match address {
        Value::Stack(place) => {
            match stack_index(i64::from(place) + i64::from(offset), bytes.len()) {
                Some(index) => {
                    let new = stack_with(alloc, stack, index, bytes)?;
                    Ok(Some(new))
                }
                None => Ok(None),
            }
        }
        _ => Ok(None),
    }
}

/// The number of these bytes, the least byte first.
pub fn little_number(bytes: &[u8]) -> u64
    requires { length bytes.now ≤ 8 }
    ensures { result ≡ little_number (length bytes.now) bytes.now }
{
    if bytes.is_empty() {
        return 0;
    }
    LittleEndian::read_uint(bytes, bytes.len())
}

/// The number that a load makes of what it read.
#[tactic(auto, unfolding(bpf_words::specs::Operation::alu))]
pub fn load_value(kind: LoadKind, number: u64) -> u64
    ensures { result ≡ load_value kind number }
{
    match kind {
        LoadKind::U8 | LoadKind::U16 | LoadKind::U32 | LoadKind::U64 => number,
        LoadKind::I8 => alu64(Operation::Movsx(SignExtension::From8), 0, number),
        LoadKind::I16 => alu64(Operation::Movsx(SignExtension::From16), 0, number),
        LoadKind::I32 => alu64(Operation::Movsx(SignExtension::From32), 0, number),
    }
}
