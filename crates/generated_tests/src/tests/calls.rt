//! Calls of helpers, on keys that meet and on buffers in the initialised part of the stack.

use super::instruction::{NUMBERS, STACK, Slot, append, instruction};
use super::random::Random;

/// The kind of value that a helper asks for in a register.
#[derive(Clone, Copy)]
enum Argument {
    Table,
    Key,
    Buffer,
}

/// The values that each helper asks for, in the order of the helpers' numbers, from 1 on.
static CALLS: [&[Argument]; 6] = [
    &[Argument::Table, Argument::Key, Argument::Buffer],
    &[Argument::Table, Argument::Key, Argument::Buffer],
    &[Argument::Table, Argument::Key],
    &[Argument::Table, Argument::Key, Argument::Key],
    &[
        Argument::Table,
        Argument::Key,
        Argument::Key,
        Argument::Buffer,
        Argument::Buffer,
    ],
    &[Argument::Key],
];

/// The helpers by their numbers, the last rarer than the others.
const HELPERS: [u8; 20] = [1, 1, 1, 1, 2, 2, 2, 2, 2, 3, 3, 3, 4, 4, 4, 5, 5, 5, 5, 6];

/// Appends a call, and returns the bit of the helper's number.
pub(super) fn call(random: &mut Random, code: &mut Vec<u8>) -> u8 {
    let helper = random.pick(&HELPERS);
    let arguments = CALLS.get(usize::from(helper.saturating_sub(1)));
    for (register, kind) in (1..).zip(arguments.copied().unwrap_or(&[])) {
        append(code, &argument_value(random, *kind, register));
    }
    append(code, &[instruction(0x85, 0, 0, 0, i32::from(helper))]);
    1u8.wrapping_shl(u32::from(helper))
}

/// Returns the slots that leave an argument in a register.
fn argument_value(random: &mut Random, kind: Argument, register: u8) -> [Slot; 2] {
    match kind {
        Argument::Table => table(random, register),
        Argument::Key => key(random, register),
        Argument::Buffer => buffer(random, register),
    }
}

/// Table 1 or 2, as a load of 64 bits.
fn table(random: &mut Random, register: u8) -> [Slot; 2] {
    let number = i32::from(random.pick(&[1, 2]));
    [
        instruction(0x18, register, 0, 0, number),
        instruction(0, 0, 0, 0, 0),
    ]
}

/// A key from 0 to 7, or the greatest.
fn key(random: &mut Random, register: u8) -> [Slot; 2] {
    let number = instruction(0xbf, register, random.pick(&NUMBERS), 0, 0);
    if random.below(8) > 0 {
        [number, instruction(0x57, register, 0, 0, 7)]
    } else {
        [number, instruction(0x47, register, 0, 0, -1)]
    }
}

/// The place of a buffer, of 8 bytes at most.
fn buffer(random: &mut Random, register: u8) -> [Slot; 2] {
    let moved = i32::from(random.offset(-64, 57));
    [
        instruction(0xbf, register, STACK, 0, 0),
        instruction(0x07, register, 0, 0, moved),
    ]
}
