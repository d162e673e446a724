//! The procedures in the form in which replays of a log take them.

use crate::bytes::bytes_of;
use crate::programs::PROCEDURES;
use bpf_bytes::decode;
use plain_replayer::{PlainProcedure, PlainSetting};
use schema::Schema;
use std::alloc::Global;

/// Table 1 has rows of 8 bytes.
pub const TABLES: [(u8, u16); 1] = [(1, 8)];

/// The words as an argument block, each least byte first. The answer is none, here and below, where memory is wanting
/// or the program is none.
pub fn args_of(alloc: Global, words: &[u64]) -> Option<Vec<u8>> {
    let mut args = Vec::new(alloc);
    for word in words {
        args.extend_from_slice(&word.to_le_bytes()).ok()?;
    }
    Some(args)
}

/// The digit of a number below 10, the name under which a catalogue has a procedure of that number.
pub fn digit_of(number: u16) -> [u8; 1] {
    [u8::try_from(number).unwrap_or(0).wrapping_add(b'0')]
}

/// A procedure of `words` words, in the catalogue or to be added.
pub fn procedure_of(
    alloc: Global,
    name: &[u8],
    number: u16,
    program: &str,
    words: usize,
) -> Option<PlainProcedure> {
    let code = decode(alloc, &bytes_of(alloc, program)?).ok()?;
    let args_len = u16::try_from(words).unwrap_or(0).wrapping_mul(8);
    let name = Vec::from_slice(alloc, name).ok()?;
    Some(PlainProcedure::new(name, number, code, args_len))
}

/// Returns the setting of all test programs, each with its digit as its name, under a window.
pub fn setting_of(alloc: Global, window: u32) -> Option<PlainSetting> {
    setting_with(alloc, &PROCEDURES, window)
}

/// Returns the setting of these programs, each with its number and the number of words that it takes.
pub fn setting_with(
    alloc: Global,
    procedures: &[(u16, &str, usize)],
    window: u32,
) -> Option<PlainSetting> {
    let mut catalogue = Vec::new(alloc);
    for (number, program, words) in procedures {
        let name = digit_of(*number);
        let procedure = procedure_of(alloc, &name, *number, program, *words)?;
        catalogue.push(procedure).ok()?;
    }
    let schema = Schema::new(alloc, &TABLES).ok()?;
    Some(PlainSetting::new(schema, catalogue, window))
}
