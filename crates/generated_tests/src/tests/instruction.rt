//! Instructions from their fields, and single ones that are made from random numbers.

use super::random::Random;

/// The eight bytes of an instruction, or of a half of a wide one.
pub(super) type Slot = [u8; 8];

/// The registers that hold numbers.
pub(super) const NUMBERS: [u8; 4] = [0, 6, 7, 8];

/// The place of the arguments.
pub(super) const ARGUMENTS: u8 = 9;

/// The place behind the stack.
pub(super) const STACK: u8 = 10;

/// The operations with two sides, by the high bits of their opcodes.
const OPERATIONS: [u8; 12] = [
    0x00, 0x10, 0x20, 0x30, 0x40, 0x50, 0x60, 0x70, 0x90, 0xa0, 0xb0, 0xc0,
];

/// The conditions, by the high bits of their opcodes.
const CONDITIONS: [u8; 11] = [
    0x10, 0x20, 0x30, 0x40, 0x50, 0x60, 0x70, 0xa0, 0xb0, 0xc0, 0xd0,
];

/// The loads, those that extend the sign among them.
const LOADS: [u8; 7] = [0x61, 0x69, 0x71, 0x79, 0x81, 0x89, 0x91];

/// The stores of a register.
const REGISTER_STORES: [u8; 4] = [0x63, 0x6b, 0x73, 0x7b];

/// The stores of an immediate.
const IMMEDIATE_STORES: [u8; 4] = [0x62, 0x6a, 0x72, 0x7a];

pub(super) fn instruction(opcode: u8, dst: u8, src: u8, offset: i16, immediate: i32) -> Slot {
    let offset = offset.to_le_bytes();
    let immediate = immediate.to_le_bytes();
    [
        opcode,
        dst | src << 4,
        offset[0],
        offset[1],
        immediate[0],
        immediate[1],
        immediate[2],
        immediate[3],
    ]
}

/// Appends slots. Where memory is wanting the program is cut short, and isn't accepted.
pub(super) fn append(code: &mut Vec<u8>, slots: &[Slot]) {
    for slot in slots {
        let _ = code.extend_from_slice(slot);
    }
}

/// The distance of a jump over these bytes.
pub(super) fn distance(code: &[u8]) -> i16 {
    i16::try_from(code.len() / 8).unwrap_or(0)
}

/// An operation on a register of numbers, with another or an immediate.
pub(super) fn arithmetic(random: &mut Random) -> Slot {
    let operation = random.pick(&OPERATIONS);
    let opcode = operation | random.pick(&[4, 7]);
    let divides = operation == 0x30 || operation == 0x90;
    let offset = if divides { random.offset(0, 2) } else { 0 };
    let dst = random.pick(&NUMBERS);
    if random.below(2) == 0 {
        instruction(opcode, dst, 0, offset, random.immediate())
    } else {
        instruction(opcode | 8, dst, random.pick(&NUMBERS), offset, 0)
    }
}

/// An operation with one side: a negation, a move that extends a sign, or a change of bytes.
pub(super) fn conversion(random: &mut Random) -> Slot {
    let dst = random.pick(&NUMBERS);
    let src = random.pick(&NUMBERS);
    match random.below(8) {
        0 => instruction(0x84, dst, 0, 0, 0),
        1 => instruction(0x87, dst, 0, 0, 0),
        2 | 3 => instruction(0xbc, dst, src, i16::from(random.pick(&[8, 16])), 0),
        4 | 5 => instruction(0xbf, dst, src, i16::from(random.pick(&[8, 16, 32])), 0),
        _ => {
            let opcode = random.pick(&[0xd4, 0xdc, 0xd7]);
            instruction(opcode, dst, 0, 0, i32::from(random.pick(&[16, 32, 64])))
        }
    }
}

/// A load of a number of 64 bits.
pub(super) fn wide_load(random: &mut Random) -> [Slot; 2] {
    let dst = random.pick(&NUMBERS);
    let first = instruction(0x18, dst, 0, 0, random.immediate());
    [first, instruction(0, 0, 0, 0, random.immediate())]
}

/// A load into a register of numbers.
pub(super) fn load(random: &mut Random, place: u8, offset: i16) -> Slot {
    let opcode = random.pick(&LOADS);
    instruction(opcode, random.pick(&NUMBERS), place, offset, 0)
}

/// A load from the stack, or a store there.
pub(super) fn access(random: &mut Random, place: u8, offset: i16) -> Slot {
    match random.below(4) {
        0 => {
            let opcode = random.pick(&IMMEDIATE_STORES);
            instruction(opcode, place, 0, offset, random.immediate())
        }
        1 => {
            let opcode = random.pick(&REGISTER_STORES);
            instruction(opcode, place, random.pick(&NUMBERS), offset, 0)
        }
        _ => load(random, place, offset),
    }
}

/// A jump over `slots` slots where a condition holds of a register of numbers.
pub(super) fn condition(random: &mut Random, slots: i16) -> Slot {
    let opcode = random.pick(&CONDITIONS) | random.pick(&[5, 6]);
    let dst = random.pick(&NUMBERS);
    if random.below(2) == 0 {
        instruction(opcode, dst, 0, slots, random.immediate())
    } else {
        instruction(opcode | 8, dst, random.pick(&NUMBERS), slots, 0)
    }
}

/// A jump over `slots` slots.
pub(super) fn jump(random: &mut Random, slots: i16) -> Slot {
    if random.below(2) == 0 {
        instruction(0x05, 0, 0, slots, 0)
    } else {
        instruction(0x06, 0, 0, 0, i32::from(slots))
    }
}
