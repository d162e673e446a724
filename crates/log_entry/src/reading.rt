//! Reading heads.

ghost use Rattle.std.specs.Prelude.{◌≡◌, ◌+◌, ◌≤◌, ◌<◌, length, option_map};
ghost use Rattle.log_entry.specs.Head.{addition_head, call_head, field, head_of, part};
ghost use Rattle.log_entry.specs.Named.{named};

use crate::addition::NamedProgram;
use crate::head::{CallHead, EntryHead};
use byteorder::{ByteOrder, LittleEndian};
use log_model::{given_request, has_zero};

/// Reads what the bytes of an entry name: the head of a call, behind which any run may be told, or a whole addition.
/// The answer is none where the bytes are neither. They are neither where they begin with another byte than 1 or 2, are
/// too short, are longer than an addition's lengths say, or where a session or its number alone is 0. Takes no memory.
#[tactic(auto, unfolding(crate::specs::Head::head_of))]
pub fn head_of(bytes: &[u8]) -> Option<EntryHead<'_>>
    ensures { option_map named result ≡ head_of bytes.now }
{
    let (kind, fields) = bytes.split_first()?;
    match *kind {
        1 => call_head(fields),
        2 => addition_head(fields),
        _ => None,
    }
}

/// The bytes from an index on, `count` of them.
fn part(bytes: &[u8], from: usize, count: usize) -> &[u8]
    requires { from + count ≤ length bytes.now }
    ensures { result.now ≡ part from count bytes.now }
{
    &bytes[from..from + count]
}

/// The number in the two bytes from an index on.
fn u16_at(bytes: &[u8], from: usize) -> u16
    requires { from + 2 ≤ length bytes.now }
    ensures { result ≡ field from 2 bytes.now }
{
    LittleEndian::read_u16(part(bytes, from, 2))
}

/// The number in the four bytes from an index on.
fn u32_at(bytes: &[u8], from: usize) -> u32
    requires { from + 4 ≤ length bytes.now }
    ensures { result ≡ field from 4 bytes.now }
{
    LittleEndian::read_u32(part(bytes, from, 4))
}

/// The number in the eight bytes from an index on.
fn u64_at(bytes: &[u8], from: usize) -> u64
    requires { from + 8 ≤ length bytes.now }
    ensures { result ≡ field from 8 bytes.now }
{
    LittleEndian::read_u64(part(bytes, from, 8))
}

/// The head of a call, whose fields these begin with.
fn call_head(fields: &[u8]) -> Option<EntryHead<'_>>
    ensures { option_map named result ≡ call_head (field 14 2 fields.now) fields.now }
{
    if fields.len() < 28 {
        return None;
    }
    let args_len = usize::from(u16_at(fields, 14));
    let request = given_request(u32_at(fields, 0), u32_at(fields, 4));
    if fields.len() - 28 < args_len || has_zero(request) {
        return None;
    }
    Some(EntryHead::Call(CallHead {
        request,
        number: u32_at(fields, 8),
        procedure: u16_at(fields, 12),
        args: part(fields, 16, args_len),
        snapshot: u32_at(fields, 16 + args_len),
        reply: u64_at(fields, 20 + args_len),
    }))
}

/// An addition, whose fields these are.
fn addition_head(fields: &[u8]) -> Option<EntryHead<'_>>
    ensures { option_map named result ≡ addition_head (field 4 1 fields.now)
        (field (5 + field 4 1 fields.now) 4 fields.now) fields.now }
{
    if fields.len() < 9 {
        return None;
    }
    let name_len = usize::from(fields[4]);
    if fields.len() - 9 < name_len {
        return None;
    }
    let program_len = u32_at(fields, 5 + name_len) as usize;
    if fields.len() - 9 - name_len != program_len {
        return None;
    }
    Some(EntryHead::Addition(NamedProgram {
        number: u16_at(fields, 0),
        args_len: u16_at(fields, 2),
        name: part(fields, 5, name_len),
        program: part(fields, 9 + name_len, program_len),
    }))
}
