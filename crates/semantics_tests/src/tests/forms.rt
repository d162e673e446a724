//! Each form of instruction: states where it steps, and for each reason a state where it is stuck. A wide load and both
//! jumps have no reason to be stuck that a decoded program can reach, but for a write to r10.

use super::assembly::Part::{
    HighLeft, HighRight, Immediate, Load, LoadBack, LowLeft, LowRight, Operand, Register, SetLeft,
    SetRight, Store, StoreBack,
};
use super::assembly::Step::{Add, Copy, High, Low, Pull, Push, Set, Slot, Tried};
use super::assembly::Wanted::{First, Gives, Second, Stuck, Third};
use super::assembly::{Case, Form, NO_FORM, replies};
use std::alloc::Global;
use std::process::Abort;

/// Loads by opcode: how many bytes, and what the first and the last such bytes of the arguments give.
static LOADS: [(u8, i16, u64, u64); 7] = [
    (0x71, 1, 0x81, 0x88),
    (0x69, 2, 0x8281, 0x8887),
    (0x61, 4, 0x8483_8281, 0x8887_8685),
    (0x79, 8, 0x8887_8685_8483_8281, 0x8887_8685_8483_8281),
    (0x91, 1, 0xffff_ffff_ffff_ff81, 0xffff_ffff_ffff_ff88),
    (0x89, 2, 0xffff_ffff_ffff_8281, 0xffff_ffff_ffff_8887),
    (0x81, 4, 0xffff_ffff_8483_8281, 0xffff_ffff_8887_8685),
];

/// The first reply is of the first bytes, the second of the last.
static OF_LOADS: [Case; 13] = [
    (&[Tried(Load(0, 1, 0))], First),
    (&[Tried(LoadBack(1, 8))], Second),
    (&[Push(-8, 1), Tried(Load(0, 10, -8))], Gives(1)),
    (&[Push(-512, 1), Tried(Load(0, 10, -512))], Gives(1)),
    // Loads from nothing, and from a number.
    (&[Tried(Load(0, 2, 0))], Stuck),
    (&[Set(2, 0), Tried(Load(0, 2, 0))], Stuck),
    // Before and behind the arguments, and the stack.
    (&[Tried(Load(0, 1, -1))], Stuck),
    (&[Tried(LoadBack(1, 9))], Stuck),
    (&[Push(-512, 1), Tried(Load(0, 10, -513))], Stuck),
    (&[Push(-8, 1), Tried(LoadBack(10, 1))], Stuck),
    // Loads of bytes that were never stored.
    (&[Tried(Load(0, 10, -8))], Stuck),
    (&[Push(-16, 1), Tried(LoadBack(10, -7))], Stuck),
    // A load to r10.
    (&[Tried(Load(10, 1, 0)), Set(0, 1)], Stuck),
];

#[test]
fn loads(rt: HostRuntime) {
    for (opcode, count, first, last) in &LOADS {
        let form = Form {
            opcode: *opcode,
            count: *count,
            replies: [Some(*first), Some(*last), None],
            ..NO_FORM
        };
        replies(&rt, rt.alloc(), &form, &OF_LOADS);
    }
}

/// Stores of an immediate and of a register by opcode: how many bytes, and what the bytes of -2 leave
/// where zeros stood.
type StoreRow = (u8, u8, i16, u64);

static STORES: [StoreRow; 4] = [
    (0x72, 0x73, 1, 0xfe),
    (0x6a, 0x6b, 2, 0xfffe),
    (0x62, 0x63, 4, 0xffff_fffe),
    (0x7a, 0x7b, 8, 0xffff_ffff_ffff_fffe),
];

/// The first reply is what is left.
static OF_STORES: [Case; 10] = [
    (
        &[Set(3, -2), Push(-8, 0), Tried(Store(10, -8)), Pull(0, -8)],
        First,
    ),
    (&[Set(3, -2), Tried(Store(10, -512)), Set(0, 1)], Gives(1)),
    // Stores to nothing, to a number, and to the arguments.
    (&[Set(3, -2), Tried(Store(2, -8)), Set(0, 1)], Stuck),
    (&[Set(3, -2), Tried(Store(3, -8)), Set(0, 1)], Stuck),
    (&[Set(3, -2), Tried(Store(1, 0)), Set(0, 1)], Stuck),
    // Before and behind the stack.
    (&[Set(3, -2), Tried(Store(10, -513)), Set(0, 1)], Stuck),
    (&[Set(3, -2), Tried(StoreBack(1)), Set(0, 1)], Stuck),
    // Stores of nothing, and of places.
    (&[Tried(Register(10, 3)), Set(0, 1)], Stuck),
    (&[Tried(Register(10, 1)), Set(0, 1)], Stuck),
    (&[Tried(Register(10, 10)), Set(0, 1)], Stuck),
];

fn try_store(rt: &impl Abort, alloc: Global, opcode: u8, src: u8, number: i32, row: &StoreRow) {
    let form = Form {
        opcode,
        register: row.1,
        src,
        offset: -8,
        number,
        count: row.2,
        replies: [Some(row.3), None, None],
        ..NO_FORM
    };
    replies(rt, alloc, &form, &OF_STORES);
}

#[test]
fn stores(rt: HostRuntime) {
    for row in &STORES {
        try_store(&rt, rt.alloc(), row.0, 0, -2, row);
        try_store(&rt, rt.alloc(), row.1, 3, 0, row);
    }
}

/// Arithmetic by the high four bits of its opcode, the offset that is asked for, and what 12 and 5 give.
static ARITHMETIC: [(u8, i16, u64); 14] = [
    (0x00, 0, 17),
    (0x10, 0, 7),
    (0x20, 0, 60),
    (0x30, 0, 2),
    (0x30, 1, 2),
    (0x40, 0, 13),
    (0x50, 0, 4),
    (0x60, 0, 384),
    (0x70, 0, 0),
    (0x90, 0, 2),
    (0x90, 1, 2),
    (0xa0, 0, 9),
    (0xb0, 0, 5),
    (0xc0, 0, 0),
];

/// The first reply is what a move gives, the second what comes of copying a place, the third of moving one.
static OF_KINDS: [Case; 15] = [
    // With nothing.
    (&[Set(0, 12), Tried(Register(0, 3)), Set(0, 1)], Stuck),
    (&[Tried(Immediate(2)), Copy(0, 2)], First),
    (&[Set(3, 5), Tried(Register(2, 3)), Copy(0, 2)], First),
    (&[Copy(4, 1), Tried(Register(4, 3)), Set(0, 1)], Stuck),
    (&[Copy(4, 10), Tried(Register(4, 3)), Set(0, 1)], Stuck),
    // With places.
    (&[Copy(4, 1), Tried(Immediate(4)), Set(0, 1)], Third),
    (&[Copy(4, 10), Tried(Immediate(4)), Set(0, 1)], Third),
    (
        &[Copy(4, 1), Set(3, 5), Tried(Register(4, 3)), Set(0, 1)],
        Third,
    ),
    (
        &[Copy(4, 10), Set(3, 5), Tried(Register(4, 3)), Set(0, 1)],
        Third,
    ),
    (
        &[Copy(4, 1), Set(3, 5), Tried(Register(3, 4)), Set(0, 1)],
        Second,
    ),
    (
        &[Copy(4, 10), Set(3, 5), Tried(Register(3, 4)), Set(0, 1)],
        Second,
    ),
    (
        &[Copy(4, 1), Copy(3, 4), Tried(Register(3, 4)), Set(0, 1)],
        Second,
    ),
    (
        &[Copy(4, 10), Copy(3, 4), Tried(Register(3, 4)), Set(0, 1)],
        Second,
    ),
    // r10 is read only: a move alone, and at 64 bits an addition and a subtraction, would have a step.
    (&[Tried(Immediate(10)), Set(0, 1)], Stuck),
    (&[Set(3, 5), Tried(Register(10, 3)), Set(0, 1)], Stuck),
];

/// The first reply is the result.
static OF_TWELVE: [Case; 2] = [
    (&[Set(0, 12), Tried(Immediate(0))], First),
    (&[Set(0, 12), Set(3, 5), Tried(Register(0, 3))], First),
];

fn with_five(opcode: u8, offset: i16, replies: [Option<u64>; 3]) -> Form {
    Form {
        opcode,
        register: opcode | 0x08,
        offset,
        number: 5,
        replies,
        ..NO_FORM
    }
}

/// A move doesn't read its destination, and at 64 bits copies a place. An addition or a subtraction at 64 bits moves a
/// place.
fn of_kinds(high: u8, class: u8) -> [Option<u64>; 3] {
    let is_move = high == 0xb0;
    let copies = is_move && class == 0x07;
    let moves = is_move || class == 0x07 && high <= 0x10;
    [
        if is_move { Some(5) } else { None },
        if copies { Some(1) } else { None },
        if moves { Some(1) } else { None },
    ]
}

fn try_kinds(rt: &impl Abort, alloc: Global, class: u8, row: &(u8, i16, u64)) {
    let (high, offset, result) = *row;
    let form = with_five(high | class, offset, [Some(result), None, None]);
    replies(rt, alloc, &form, &OF_TWELVE);
    let form = with_five(high | class, offset, of_kinds(high, class));
    replies(rt, alloc, &form, &OF_KINDS);
}

#[test]
fn arithmetic_of_kinds(rt: HostRuntime) {
    for row in &ARITHMETIC {
        try_kinds(&rt, rt.alloc(), 0x04, row);
        try_kinds(&rt, rt.alloc(), 0x07, row);
    }
}

/// A number with the high bit of each byte set, and with no two bytes the same.
const MIXED: u64 = 0x8182_8384_8586_8788;

/// -1, or the greatest number.
const ONES: u64 = 0xffff_ffff_ffff_ffff;

/// The least signed number.
const LEAST: u64 = 0x8000_0000_0000_0000;

const MINUS_3: u64 = 0xffff_ffff_ffff_fffd;

const MINUS_13: u64 = 0xffff_ffff_ffff_fff3;

/// Arithmetic on two registers: the high four bits of its opcode, the offset, the operands, and what
/// they give at 32 and at 64 bits.
type RegisterRow = (u8, i16, u64, u64, u64, u64);

static OF_REGISTERS: [RegisterRow; 40] = [
    (0x00, 0, 0x1_ffff_ffff, 0x1_0000_0001, 0, 0x3_0000_0000),
    (0x00, 0, ONES, 2, 1, 1),
    (0x10, 0, 0, 1, 0xffff_ffff, ONES),
    (
        0x10,
        0,
        0x1_0000_0000,
        0x2_0000_0001,
        0xffff_ffff,
        0xffff_fffe_ffff_ffff,
    ),
    (0x20, 0, 0xffff_ffff, 0xffff_ffff, 1, 0xffff_fffe_0000_0001),
    (0x20, 0, MIXED, MIXED, 0x7a20_b840, 0x5d36_03c5_7a20_b840),
    (0x30, 0, MINUS_13, 3, 0x5555_5551, 0x5555_5555_5555_5551),
    (0x30, 1, MINUS_13, 3, 0xffff_fffc, 0xffff_ffff_ffff_fffc),
    (0x30, 1, 13, MINUS_3, 0xffff_fffc, 0xffff_ffff_ffff_fffc),
    (0x30, 1, MINUS_13, MINUS_3, 4, 4),
    (0x30, 0, 0x5_0000_0009, 0x1_0000_0000, 0, 5),
    (0x30, 1, 0x5_0000_0009, 0x1_0000_0000, 0, 5),
    (0x30, 0, MIXED, 0, 0, 0),
    (0x30, 1, MIXED, 0, 0, 0),
    (0x30, 1, LEAST, ONES, 0, LEAST),
    (
        0x30,
        1,
        0x8000_0000,
        ONES,
        0x8000_0000,
        0xffff_ffff_8000_0000,
    ),
    (0x30, 0, LEAST, ONES, 0, 0),
    (
        0x40,
        0,
        MIXED,
        0x1111_1111_1111_1111,
        0x9597_9799,
        0x9193_9395_9597_9799,
    ),
    (
        0x50,
        0,
        MIXED,
        0xffff_0000_ffff_0000,
        0x8586_0000,
        0x8182_0000_8586_0000,
    ),
    (0x60, 0, MIXED, 36, 0x5868_7880, 0x5868_7880_0000_0000),
    (0x60, 0, MIXED, 64, 0x8586_8788, MIXED),
    (0x70, 0, MIXED, 36, 0x0858_6878, 0x0818_2838),
    (0x70, 0, MIXED, 64, 0x8586_8788, MIXED),
    (0x70, 0, MIXED, ONES, 1, 1),
    (0x90, 0, MINUS_13, 7, 5, 3),
    (0x90, 1, MINUS_13, 7, 0xffff_fffa, 0xffff_ffff_ffff_fffa),
    (0x90, 1, MINUS_13, 3, 0xffff_ffff, ONES),
    (0x90, 1, 13, MINUS_3, 1, 1),
    (0x90, 0, 0x1_0000_0005, 0, 5, 0x1_0000_0005),
    (0x90, 1, 0x1_0000_0005, 0, 5, 0x1_0000_0005),
    (0x90, 0, 0x5_0000_0009, 0x1_0000_0000, 9, 9),
    (0x90, 1, LEAST, ONES, 0, 0),
    (0x90, 1, 0x8000_0000, ONES, 0, 0),
    (0x90, 0, LEAST, ONES, 0, LEAST),
    (
        0xa0,
        0,
        MIXED,
        0xffff_0000_ffff_0000,
        0x7a79_8788,
        0x7e7d_8384_7a79_8788,
    ),
    (0xb0, 0, 5, MIXED, 0x8586_8788, MIXED),
    (0xc0, 0, MIXED, 36, 0xf858_6878, 0xffff_ffff_f818_2838),
    (0xc0, 0, MIXED, 64, 0x8586_8788, MIXED),
    (0xc0, 0, 0x8000_0000, 1, 0xc000_0000, 0x4000_0000),
    (0xc0, 0, 0x7000_0000_8000_0000, 63, 0xffff_ffff, 0),
];

/// The same on a register and an immediate.
type ImmediateRow = (u8, i16, u64, i32, u64, u64);

static OF_IMMEDIATES: [ImmediateRow; 22] = [
    (0x00, 0, 0x9_0000_0007, -3, 4, 0x9_0000_0004),
    (0x10, 0, 0x9_0000_0007, -3, 10, 0x9_0000_000a),
    (
        0x20,
        0,
        0x9_0000_0007,
        -3,
        0xffff_ffeb,
        0xffff_ffe4_ffff_ffeb,
    ),
    (0x30, 0, ONES, -1, 1, 1),
    (0x30, 0, ONES, -3, 1, 1),
    (0x30, 1, ONES, -3, 0, 0),
    (
        0x30,
        1,
        0x9_0000_0007,
        -3,
        0xffff_fffe,
        0xffff_fffc_ffff_fffe,
    ),
    (0x30, 0, MIXED, 3, 0x2c82_2d2d, 0x2b2b_812c_2c82_2d2d),
    (0x30, 1, MIXED, 3, 0xd72c_d7d8, 0xd5d6_2bd6_d72c_d7d8),
    (0x40, 0, 0x9_0000_0007, -3, 0xffff_ffff, ONES),
    (0x50, 0, 0x9_0000_0007, -3, 5, 0x9_0000_0005),
    (
        0x60,
        0,
        0x9_0000_0007,
        -3,
        0xe000_0000,
        0xe000_0000_0000_0000,
    ),
    (0x70, 0, MIXED, -31, 0x42c3_43c4, 0x40c1_41c2),
    (0x90, 0, MIXED, -3, 0x8586_8788, MIXED),
    (0x90, 0, MIXED, 7, 6, 0),
    (0x90, 1, MIXED, 7, 0xffff_fffb, 0xffff_ffff_ffff_fffe),
    (0x90, 0, MINUS_13, 3, 0, 0),
    (0x90, 1, MINUS_13, 3, 0xffff_ffff, ONES),
    (0x90, 0, 0x1_0000_0005, 0, 5, 0x1_0000_0005),
    (
        0xa0,
        0,
        0x9_0000_0007,
        -3,
        0xffff_fffa,
        0xffff_fff6_ffff_fffa,
    ),
    (0xb0, 0, 0x9_0000_0007, -3, 0xffff_fffd, MINUS_3),
    (0xc0, 0, MIXED, -31, 0xc2c3_43c4, 0xffff_ffff_c0c1_41c2),
];

/// The first reply is the result.
static WITH_REGISTER: [Case; 1] = [(
    &[
        Tried(LowLeft(0)),
        Tried(HighLeft),
        Tried(LowRight(3)),
        Tried(HighRight),
        Tried(Register(0, 3)),
    ],
    First,
)];

static WITH_IMMEDIATE: [Case; 1] = [(
    &[Tried(LowLeft(0)), Tried(HighLeft), Tried(Immediate(0))],
    First,
)];

fn try_registers(rt: &impl Abort, alloc: Global, class: u8, row: &RegisterRow, reply: u64) {
    let form = Form {
        register: row.0 | 0x08 | class,
        offset: row.1,
        left: row.2,
        right: row.3,
        replies: [Some(reply), None, None],
        ..NO_FORM
    };
    replies(rt, alloc, &form, &WITH_REGISTER);
}

fn try_immediate(rt: &impl Abort, alloc: Global, class: u8, row: &ImmediateRow, reply: u64) {
    let form = Form {
        opcode: row.0 | class,
        offset: row.1,
        left: row.2,
        number: row.3,
        replies: [Some(reply), None, None],
        ..NO_FORM
    };
    replies(rt, alloc, &form, &WITH_IMMEDIATE);
}

#[test]
fn arithmetic_of_registers(rt: HostRuntime) {
    for row in &OF_REGISTERS {
        try_registers(&rt, rt.alloc(), 0x04, row, row.4);
        try_registers(&rt, rt.alloc(), 0x07, row, row.5);
    }
}

#[test]
fn arithmetic_of_immediates(rt: HostRuntime) {
    for row in &OF_IMMEDIATES {
        try_immediate(&rt, rt.alloc(), 0x04, row, row.4);
        try_immediate(&rt, rt.alloc(), 0x07, row, row.5);
    }
}

/// Forms of one operand: opcode, offset and immediate, and what `MIXED` gives.
static UNARY: [(u8, i16, i32, u64); 16] = [
    (0x84, 0, 0, 0x7a79_7878),
    (0x87, 0, 0, 0x7e7d_7c7b_7a79_7878),
    (0xbc, 8, 0, 0xffff_ff88),
    (0xbc, 16, 0, 0xffff_8788),
    (0xbf, 8, 0, 0xffff_ffff_ffff_ff88),
    (0xbf, 16, 0, 0xffff_ffff_ffff_8788),
    (0xbf, 32, 0, 0xffff_ffff_8586_8788),
    (0xd4, 0, 16, 0x8788),
    (0xd4, 0, 32, 0x8586_8788),
    (0xd4, 0, 64, 0x8182_8384_8586_8788),
    (0xdc, 0, 16, 0x8887),
    (0xdc, 0, 32, 0x8887_8685),
    (0xdc, 0, 64, 0x8887_8685_8483_8281),
    (0xd7, 0, 16, 0x8887),
    (0xd7, 0, 32, 0x8887_8685),
    (0xd7, 0, 64, 0x8887_8685_8483_8281),
];

/// The first reply is the result, the second what it gives of another register than its destination: a
/// sign-extending move reads its source, the others their destination.
static OF_OPERANDS: [Case; 6] = [
    (
        &[Low(2, MIXED), High(MIXED), Tried(Operand(2, 2)), Copy(0, 2)],
        First,
    ),
    (&[Low(2, MIXED), High(MIXED), Tried(Operand(0, 2))], Second),
    (&[Tried(Operand(2, 2)), Set(0, 1)], Stuck),
    (&[Tried(Operand(1, 1)), Set(0, 1)], Stuck),
    (&[Copy(4, 10), Tried(Operand(4, 4)), Set(0, 1)], Stuck),
    // r10 is read only; the forms but the move are stuck on a place in any case.
    (
        &[Low(2, MIXED), High(MIXED), Tried(Operand(10, 2)), Set(0, 1)],
        Stuck,
    ),
];

#[test]
fn one_operand(rt: HostRuntime) {
    for (opcode, offset, number, result) in &UNARY {
        let other = if *offset != 0 { Some(*result) } else { None };
        let form = Form {
            opcode: *opcode,
            offset: *offset,
            number: *number,
            replies: [Some(*result), other, None],
            ..NO_FORM
        };
        replies(&rt, rt.alloc(), &form, &OF_OPERANDS);
    }
}

/// Wide loads, and places that move.
static WIDE_AND_PLACES: [Case; 22] = [
    // A wide load sets a number, of which neither half is sign-extended.
    (
        &[Slot(0x18, 0, 0, 0, 1), Slot(0, 0, 0, 0, 2)],
        Gives(0x2_0000_0001),
    ),
    (
        &[Slot(0x18, 0, 0, 0, -2), Slot(0, 0, 0, 0, 3)],
        Gives(0x3_ffff_fffe),
    ),
    (
        &[Slot(0x18, 0, 0, 0, 3), Slot(0, 0, 0, 0, -2)],
        Gives(0xffff_fffe_0000_0003),
    ),
    (
        &[Slot(0x18, 10, 0, 0, 1), Slot(0, 0, 0, 0, 0), Set(0, 1)],
        Stuck,
    ),
    // Places move.
    (&[Copy(2, 1), Slot(0x71, 0, 2, 0, 0)], Gives(0x81)),
    (&[Add(1, 7), Slot(0x71, 0, 1, 0, 0)], Gives(0x88)),
    (
        &[Add(1, 7), Slot(0x17, 1, 0, 0, 1), Slot(0x71, 0, 1, 0, 0)],
        Gives(0x87),
    ),
    (
        &[Set(2, 2), Slot(0x0f, 1, 2, 0, 0), Slot(0x71, 0, 1, 0, 0)],
        Gives(0x83),
    ),
    (
        &[Set(2, -2), Slot(0x1f, 1, 2, 0, 0), Slot(0x71, 0, 1, 0, 0)],
        Gives(0x83),
    ),
    (
        &[Push(-8, 1), Copy(2, 10), Add(2, -8), Slot(0x79, 0, 2, 0, 0)],
        Gives(1),
    ),
    // Places as far as they may be, and past that.
    (
        &[Add(1, 65_536), Add(1, -65_536), Slot(0x71, 0, 1, 0, 0)],
        Gives(0x81),
    ),
    (
        &[Add(1, -65_536), Add(1, 65_536), Slot(0x71, 0, 1, 0, 0)],
        Gives(0x81),
    ),
    (&[Add(1, 65_537), Set(0, 1)], Stuck),
    (&[Slot(0x17, 1, 0, 0, 65_537), Set(0, 1)], Stuck),
    (
        &[
            Low(2, LEAST),
            High(LEAST),
            Slot(0x1f, 1, 2, 0, 0),
            Set(0, 1),
        ],
        Stuck,
    ),
    (
        &[
            Low(2, LEAST),
            High(LEAST),
            Slot(0x0f, 1, 2, 0, 0),
            Set(0, 1),
        ],
        Stuck,
    ),
    (
        &[
            Push(-8, 1),
            Copy(2, 10),
            Add(2, 65_536),
            Add(2, -65_536),
            Slot(0x79, 0, 2, -8, 0),
        ],
        Gives(1),
    ),
    (
        &[
            Push(-8, 1),
            Copy(2, 10),
            Add(2, -65_536),
            Add(2, 65_536),
            Slot(0x79, 0, 2, -8, 0),
        ],
        Gives(1),
    ),
    (
        &[
            Push(-8, 1),
            Copy(2, 10),
            Add(2, 65_537),
            Add(2, -65_537),
            Slot(0x79, 0, 2, -8, 0),
        ],
        Stuck,
    ),
    (
        &[
            Push(-8, 1),
            Copy(2, 10),
            Add(2, -65_537),
            Add(2, 65_537),
            Slot(0x79, 0, 2, -8, 0),
        ],
        Stuck,
    ),
    (&[Copy(2, 10), Add(2, 65_537), Set(0, 1)], Stuck),
    (&[Copy(2, 10), Add(2, -65_537), Set(0, 1)], Stuck),
];

#[test]
fn wide_loads_and_places(rt: HostRuntime) {
    replies(&rt, rt.alloc(), &NO_FORM, &WIDE_AND_PLACES);
}

static JUMPS: [Case; 8] = [
    (&[Set(0, 1), Slot(0x05, 0, 0, 1, 0), Set(0, 2)], Gives(1)),
    (&[Set(0, 1), Slot(0x05, 0, 0, 0, 0), Set(0, 2)], Gives(2)),
    (&[Set(0, 1), Slot(0x06, 0, 0, 0, 1), Set(0, 2)], Gives(1)),
    (&[Set(0, 1), Slot(0x06, 0, 0, 0, 0), Set(0, 2)], Gives(2)),
    (&[Set(0, 7)], Gives(7)),
    (&[], Stuck),
    (&[Copy(0, 10)], Stuck),
    (&[Copy(0, 1)], Stuck),
];

#[test]
fn jumps_and_exits(rt: HostRuntime) {
    replies(&rt, rt.alloc(), &NO_FORM, &JUMPS);
}

/// Conditions by the high four bits of the opcode: a pair of which the condition holds, and one of which it doesn't.
static CONDITIONS: [(u8, [i32; 2], [i32; 2]); 11] = [
    (0x10, [5, 5], [5, 6]),
    (0x20, [-1, 1], [5, 5]),
    (0x30, [5, 5], [4, 5]),
    (0x40, [6, 2], [4, 2]),
    (0x50, [5, 6], [5, 5]),
    (0x60, [1, -1], [-1, 1]),
    (0x70, [5, 5], [-1, 1]),
    (0xa0, [1, -1], [5, 5]),
    (0xb0, [5, 5], [6, 5]),
    (0xc0, [-1, 1], [1, -1]),
    (0xd0, [5, 5], [1, -1]),
];

/// Conditions on 64 bits and on their low 32: the operands, and the high four bits of the opcode of
/// each condition that holds of them, at 32 and at 64 bits.
type WidthRow = (u64, i32, &'static [u8], &'static [u8]);

static WIDTHS: [WidthRow; 6] = [
    // Equal at 32 bits, greater at 64.
    (
        0x1_0000_0005,
        5,
        &[0x10, 0x30, 0x40, 0x70, 0xb0, 0xd0],
        &[0x20, 0x30, 0x40, 0x50, 0x60, 0x70],
    ),
    // Less at 32 bits, greater at 64.
    (
        0x1_0000_0004,
        5,
        &[0x40, 0x50, 0xa0, 0xb0, 0xc0, 0xd0],
        &[0x20, 0x30, 0x40, 0x50, 0x60, 0x70],
    ),
    // Numbers of another sign at 32 bits.
    (
        0xffff_ffff,
        1,
        &[0x20, 0x30, 0x40, 0x50, 0xc0, 0xd0],
        &[0x20, 0x30, 0x40, 0x50, 0x60, 0x70],
    ),
    // Numbers of another sign at 64 bits.
    (
        0x8000_0000_0000_0005,
        5,
        &[0x10, 0x30, 0x40, 0x70, 0xb0, 0xd0],
        &[0x20, 0x30, 0x40, 0x50, 0xc0, 0xd0],
    ),
    // The number is sign-extended: 2^64 - 1 at 64 bits.
    (
        0xffff_ffff,
        -1,
        &[0x10, 0x30, 0x40, 0x70, 0xb0, 0xd0],
        &[0x40, 0x50, 0x60, 0x70, 0xa0, 0xb0],
    ),
    // No common bit at 32 bits.
    (
        0x1_0000_0000,
        -1,
        &[0x50, 0x60, 0x70, 0xa0, 0xb0],
        &[0x40, 0x50, 0x60, 0x70, 0xa0, 0xb0],
    ),
];

/// Conditions of two numbers: the first reply says whether the jump is taken over one slot.
static OF_NUMBERS: [Case; 2] = [
    (
        &[Set(0, 1), Tried(SetLeft(2)), Tried(Immediate(2)), Set(0, 2)],
        First,
    ),
    (
        &[
            Set(0, 1),
            Tried(SetLeft(2)),
            Tried(SetRight(3)),
            Tried(Register(2, 3)),
            Set(0, 2),
        ],
        First,
    ),
];

/// Conditions of nothing, and of places.
static OF_NO_NUMBERS: [Case; 9] = [
    (&[Tried(Immediate(2)), Set(0, 1), Set(0, 1)], Stuck),
    (&[Tried(Immediate(1)), Set(0, 1), Set(0, 1)], Stuck),
    (&[Tried(Immediate(10)), Set(0, 1), Set(0, 1)], Stuck),
    (
        &[Set(3, 5), Tried(Register(2, 3)), Set(0, 1), Set(0, 1)],
        Stuck,
    ),
    (
        &[Set(3, 5), Tried(Register(1, 3)), Set(0, 1), Set(0, 1)],
        Stuck,
    ),
    (
        &[Set(3, 5), Tried(Register(10, 3)), Set(0, 1), Set(0, 1)],
        Stuck,
    ),
    (
        &[Set(3, 5), Tried(Register(3, 2)), Set(0, 1), Set(0, 1)],
        Stuck,
    ),
    (
        &[Set(3, 5), Tried(Register(3, 1)), Set(0, 1), Set(0, 1)],
        Stuck,
    ),
    (
        &[Set(3, 5), Tried(Register(3, 10)), Set(0, 1), Set(0, 1)],
        Stuck,
    ),
];

/// A jump over one slot, by a number or by a register, that is taken or isn't.
fn over_one(opcode: u8, left: u64, number: i32, is_taken: bool) -> Form {
    Form {
        opcode,
        register: opcode | 0x08,
        offset: 1,
        number,
        left,
        right: i64::from(number).cast_unsigned(),
        replies: [Some(if is_taken { 1 } else { 2 }), None, None],
        ..NO_FORM
    }
}

fn try_branch(rt: &impl Abort, alloc: Global, opcode: u8, pair: [i32; 2], is_taken: bool) {
    let [left, right] = pair;
    let left = i64::from(left).cast_unsigned();
    let form = over_one(opcode, left, right, is_taken);
    replies(rt, alloc, &form, &OF_NUMBERS);
}

fn try_branches(rt: &impl Abort, alloc: Global, opcode: u8, holds: [i32; 2], fails: [i32; 2]) {
    try_branch(rt, alloc, opcode, holds, true);
    try_branch(rt, alloc, opcode, fails, false);
    let form = over_one(opcode, 0, 5, true);
    replies(rt, alloc, &form, &OF_NO_NUMBERS);
}

#[test]
fn branches(rt: HostRuntime) {
    for (high, holds, fails) in &CONDITIONS {
        try_branches(&rt, rt.alloc(), *high | 0x05, *holds, *fails);
        try_branches(&rt, rt.alloc(), *high | 0x06, *holds, *fails);
    }
}

static AT_WIDTHS: [Case; 2] = [
    (
        &[
            Set(0, 1),
            Tried(LowLeft(2)),
            Tried(HighLeft),
            Tried(Immediate(2)),
            Set(0, 2),
        ],
        First,
    ),
    (
        &[
            Set(0, 1),
            Tried(LowLeft(2)),
            Tried(HighLeft),
            Tried(SetRight(3)),
            Tried(Register(2, 3)),
            Set(0, 2),
        ],
        First,
    ),
];

fn try_width(rt: &impl Abort, alloc: Global, opcode: u8, row: &WidthRow, is_taken: bool) {
    let form = over_one(opcode, row.0, row.1, is_taken);
    replies(rt, alloc, &form, &AT_WIDTHS);
}

fn try_widths(rt: &impl Abort, alloc: Global, row: &WidthRow) {
    for (condition, _, _) in &CONDITIONS {
        try_width(rt, alloc, *condition | 0x06, row, row.2.contains(condition));
        try_width(rt, alloc, *condition | 0x05, row, row.3.contains(condition));
    }
}

#[test]
fn branches_at_both_widths(rt: HostRuntime) {
    for row in &WIDTHS {
        try_widths(&rt, rt.alloc(), row);
    }
}
