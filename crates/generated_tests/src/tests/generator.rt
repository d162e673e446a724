//! Programs that the verifier accepts: all jumps go forward, and what is read was written before.
//!
//! Registers r0 and r6 to r8 hold numbers from the beginning on, and r9 the place of the arguments. The last 64 bytes
//! of the stack are initialised. Each block keeps these values; r1 to r5 are its own.

use super::calls::call;
use super::instruction::{
    ARGUMENTS, NUMBERS, STACK, Slot, access, append, arithmetic, condition, conversion, distance,
    instruction, jump, load, wide_load,
};
use super::random::Random;
use std::alloc::Global;

/// A program, and the helpers that it calls in each run, by the bits of their numbers.
#[derive(Drop)]
pub(super) struct Program {
    pub(super) bytes: Vec<u8>,
    pub(super) helpers: u8,
}

/// A program of 4 to 13 blocks, for arguments of 32 bytes.
pub(super) fn random_program(alloc: Global, random: &mut Random) -> Program {
    let mut bytes = Vec::new(alloc);
    let mut helpers = 0;
    append(&mut bytes, &registers(random));
    for offset in [-64, -56, -48, -40, -32, -24, -16, -8] {
        append(&mut bytes, &[initialised(random, offset)]);
    }
    for _ in 0..random.below(10).saturating_add(4) {
        helpers |= block(alloc, random, &mut bytes);
    }
    append(&mut bytes, &end(random));
    Program { bytes, helpers }
}

/// The end of a program, which replies a number.
fn end(random: &mut Random) -> [Slot; 2] {
    [
        instruction(0xbf, 0, random.pick(&NUMBERS), 0, 0),
        instruction(0x95, 0, 0, 0, 0),
    ]
}

/// The slots that set the registers at the beginning.
fn registers(random: &mut Random) -> [Slot; 5] {
    [
        instruction(0xbf, ARGUMENTS, 1, 0, 0),
        instruction(0xb7, 0, 0, 0, random.immediate()),
        instruction(0x79, 6, ARGUMENTS, random.offset(0, 25), 0),
        instruction(0x79, 7, ARGUMENTS, random.offset(0, 25), 0),
        instruction(0x79, 8, ARGUMENTS, random.offset(0, 25), 0),
    ]
}

/// A store of the stack's word at an offset.
fn initialised(random: &mut Random, offset: i16) -> Slot {
    if random.below(2) == 0 {
        instruction(0x7a, STACK, 0, offset, random.immediate())
    } else {
        instruction(0x7b, STACK, random.pick(&NUMBERS), offset, 0)
    }
}

/// Appends a block that may have branches, and returns the helpers that it calls whichever branch it takes.
fn block(alloc: Global, random: &mut Random, code: &mut Vec<u8>) -> u8 {
    if random.below(3) > 0 {
        return straight(random, code);
    }
    let mut body = some_blocks(alloc, random);
    if random.below(2) == 0 {
        let inner = some_blocks(alloc, random);
        branch(alloc, random, &mut body, &inner);
    }
    branch(alloc, random, code, &body);
    0
}

/// Appends a condition that jumps over this body to another.
fn branch(alloc: Global, random: &mut Random, code: &mut Vec<u8>, body: &[u8]) {
    let other = some_blocks(alloc, random);
    let first = condition(random, distance(body).saturating_add(1));
    append(code, &[first]);
    let _ = code.extend_from_slice(body);
    append(code, &[jump(random, distance(&other))]);
    let _ = code.extend_from_slice(&other);
}

/// One to three blocks with no branch.
fn some_blocks(alloc: Global, random: &mut Random) -> Vec<u8> {
    let mut code = Vec::new(alloc);
    for _ in 0..random.below(3).saturating_add(1) {
        straight(random, &mut code);
    }
    code
}

/// Appends a block with no branch, and returns the helper that it calls.
fn straight(random: &mut Random, code: &mut Vec<u8>) -> u8 {
    let kind = random.below(16);
    if kind < 5 {
        return call(random, code);
    }
    match kind {
        5..=8 => append(code, &[arithmetic(random)]),
        9 => append(code, &[conversion(random)]),
        10 => append(code, &wide_load(random)),
        11 | 12 => append(code, &[near_access(random)]),
        13 => append(code, &[near_load(random)]),
        _ => append(code, &indexed(random)),
    }
    0
}

/// An access to the stack at an offset.
fn near_access(random: &mut Random) -> Slot {
    let offset = random.offset(-64, 57);
    access(random, STACK, offset)
}

/// A load from the arguments at an offset.
fn near_load(random: &mut Random) -> Slot {
    let offset = random.offset(0, 25);
    load(random, ARGUMENTS, offset)
}

/// An access at a place that was moved by a number from 0 to a mask, at most 15.
fn indexed(random: &mut Random) -> [Slot; 5] {
    let masked = random.pick(&NUMBERS);
    let mask = i32::from(random.pick(&[1, 7, 8, 15]));
    // The place, whether it is moved up or down, and the offsets at which each access stays in what is initialised.
    let (place, moves, least, count) = match random.below(4) {
        0 => (STACK, 0x0f, -64, 42),
        1 => (STACK, 0x1f, -49, 42),
        2 => (ARGUMENTS, 0x0f, 0, 10),
        _ => (ARGUMENTS, 0x1f, 15, 10),
    };
    let offset = random.offset(least, count);
    let last = if place == STACK {
        access(random, 2, offset)
    } else {
        load(random, 2, offset)
    };
    [
        instruction(0xbf, 1, masked, 0, 0),
        instruction(0x57, 1, 0, 0, mask),
        instruction(0xbf, 2, place, 0, 0),
        instruction(moves, 2, 1, 0, 0),
        last,
    ]
}
