//! Each helper: a call that is made, and for each argument calls that can't be.

use super::assembly::Step::{Add, Call, Copy, Push, Set};
use super::assembly::Wanted::{Gives, Stuck};
use super::assembly::{
    Case, NO_FORM, Step, Wanted, comes_to, program_of, replace, replies, reply_of,
};
use super::same;
use std::alloc::Global;
use std::process::Abort;

/// A call with all that leads to it, and where in it the arguments are set: the table in one slot,
/// each number in one, and each buffer of the stack in two. A number and a buffer stand with their registers.
struct HelperCall {
    slots: &'static [Step],
    table: usize,
    numbers: &'static [(usize, u8)],
    buffers: &'static [(usize, u8)],
}

static CALLS: [HelperCall; 5] = [
    HelperCall {
        slots: &[Set(2, 5), Copy(3, 10), Add(3, -8), Set(1, 1), Call(1)],
        table: 3,
        numbers: &[(0, 2)],
        buffers: &[(1, 3)],
    },
    HelperCall {
        slots: &[
            Push(-8, 1),
            Set(2, 5),
            Copy(3, 10),
            Add(3, -8),
            Set(1, 1),
            Call(2),
        ],
        table: 4,
        numbers: &[(1, 2)],
        buffers: &[(2, 3)],
    },
    HelperCall {
        slots: &[Set(2, 5), Set(1, 1), Call(3)],
        table: 1,
        numbers: &[(0, 2)],
        buffers: &[],
    },
    HelperCall {
        slots: &[Set(2, 5), Set(3, 9), Set(1, 1), Call(4)],
        table: 2,
        numbers: &[(0, 2), (1, 3)],
        buffers: &[],
    },
    HelperCall {
        slots: &[
            Set(2, 5),
            Set(3, 9),
            Copy(4, 10),
            Add(4, -16),
            Copy(5, 10),
            Add(5, -8),
            Set(1, 1),
            Call(5),
        ],
        table: 6,
        numbers: &[(0, 2), (1, 3)],
        buffers: &[(2, 4), (4, 5)],
    },
];

/// The steps that set no table in r1. At entry r1 is a place in the arguments.
static NO_TABLES: [(&str, [Step; 1]); 5] = [
    ("table 0", [Set(1, 0)]),
    ("table 3", [Set(1, 3)]),
    ("table 257", [Set(1, 257)]),
    ("a place on the stack", [Copy(1, 10)]),
    ("nothing", [Set(9, 0)]),
];

/// The steps that set no number in a register.
fn no_numbers(register: u8) -> [(&'static str, [Step; 1]); 3] {
    [
        ("nothing", [Set(9, 0)]),
        ("a place in the arguments", [Copy(register, 1)]),
        ("a place on the stack", [Copy(register, 10)]),
    ]
}

/// The steps that set no buffer in a register.
fn no_buffers(register: u8) -> [(&'static str, [Step; 2]); 5] {
    [
        ("nothing", [Set(9, 0), Set(9, 0)]),
        ("a number", [Set(register, 0), Set(9, 0)]),
        ("a place in the arguments", [Copy(register, 1), Set(9, 0)]),
        ("past the stack", [Copy(register, 10), Add(register, -7)]),
        (
            "before the stack",
            [Copy(register, 10), Add(register, -513)],
        ),
    ]
}

/// Returns what a call replies with other steps in place of some of its slots.
fn reply_with(
    rt: &impl Abort,
    alloc: Global,
    call: &HelperCall,
    at: usize,
    others: &[Step],
) -> Option<u64> {
    let mut program = program_of(rt, alloc, &NO_FORM, call.slots);
    for (index, other) in others.iter().enumerate() {
        replace(&mut program, at.wrapping_add(index), other);
    }
    reply_of(rt, alloc, &program)
}

/// Asserts that the call is stuck with these steps in place of some of its slots. A failure tells the call by the slot
/// of its table.
fn is_stuck_with(
    rt: &impl Abort,
    alloc: Global,
    call: &HelperCall,
    at: usize,
    name: &str,
    others: &[Step],
) {
    let found = reply_with(rt, alloc, call, at, others);
    same(rt, name, (call.table, at, found), (call.table, at, None));
}

fn asks_for_a_table(rt: &impl Abort, alloc: Global, call: &HelperCall) {
    for (name, others) in &NO_TABLES {
        is_stuck_with(rt, alloc, call, call.table, name, others);
    }
}

fn asks_for_numbers(rt: &impl Abort, alloc: Global, call: &HelperCall) {
    for (at, register) in call.numbers {
        for (name, others) in &no_numbers(*register) {
            is_stuck_with(rt, alloc, call, *at, name, others);
        }
    }
}

fn asks_for_buffers(rt: &impl Abort, alloc: Global, call: &HelperCall) {
    for (at, register) in call.buffers {
        for (name, others) in &no_buffers(*register) {
            is_stuck_with(rt, alloc, call, *at, name, others);
        }
    }
}

/// Asserts that the call is made, and isn't with a wrong argument in place of each.
fn asks_for_its_arguments(rt: &impl Abort, alloc: Global, call: &HelperCall) {
    let made = reply_with(rt, alloc, call, 0, &[]);
    same(
        rt,
        "table, reply",
        (call.table, made),
        (call.table, Some(0)),
    );
    asks_for_a_table(rt, alloc, call);
    asks_for_numbers(rt, alloc, call);
    asks_for_buffers(rt, alloc, call);
}

#[test]
fn arguments(rt: HostRuntime) {
    for call in &CALLS {
        asks_for_its_arguments(&rt, rt.alloc(), call);
    }
}

// Rows of table 1 have eight bytes, those of table 2 two.

/// The buffers of gets (helper 1) and of puts (helper 2): the helper, where eight bytes were stored before, the place
/// of the buffer, and the table. A put reads bytes that were stored, all of them.
static ONE_BUFFER: [(i32, Option<i16>, i32, i32, Wanted); 6] = [
    (1, None, -512, 1, Gives(0)),
    (1, None, -2, 2, Gives(0)),
    (1, None, -1, 2, Stuck),
    (2, Some(-8), -2, 2, Gives(0)),
    (2, Some(-16), -8, 1, Stuck),
    (2, Some(-8), -9, 1, Stuck),
];

/// The buffers of nexts in table 2: a place for the key, which has eight bytes, and a place for the row.
static NEXTS: [(i32, i32, Wanted); 3] = [(-8, -2, Gives(0)), (-7, -2, Stuck), (-8, -1, Stuck)];

#[test]
fn buffers_have_the_tables_width(rt: HostRuntime) {
    let alloc = rt.alloc();
    for (at, (helper, stored, place, table, wanted)) in ONE_BUFFER.iter().enumerate() {
        let mut steps = Vec::new(alloc);
        if let Some(stored) = stored {
            steps.push(Push(*stored, 1)).expect(&rt, "memory");
        }
        for step in [
            Set(2, 5),
            Copy(3, 10),
            Add(3, *place),
            Set(1, *table),
            Call(*helper),
        ] {
            steps.push(step).expect(&rt, "memory");
        }
        comes_to(&rt, alloc, ("one buffer", at), &steps, wanted);
    }
    for (at, (key, row, wanted)) in NEXTS.iter().enumerate() {
        let steps = [
            Set(2, 5),
            Set(3, 9),
            Copy(4, 10),
            Add(4, *key),
            Copy(5, 10),
            Add(5, *row),
            Set(1, 2),
            Call(5),
        ];
        comes_to(&rt, alloc, ("next", at), &steps, wanted);
    }
}

/// Calls of the cancel. After a call r1 is nothing.
static CANCELS: [Case; 9] = [
    (&[Set(1, 9), Call(6)], Gives(0)),
    (&[Set(1, 9), Call(6), Call(6)], Stuck),
    (&[Call(6), Set(0, 1)], Stuck),
    (&[Copy(1, 10), Call(6), Set(0, 1)], Stuck),
    // No helper.
    (&[Set(1, 1), Call(0), Set(0, 1)], Stuck),
    (&[Set(1, 1), Call(7), Set(0, 1)], Stuck),
    (&[Set(1, 1), Call(-1), Set(0, 1)], Stuck),
    (&[Set(1, 1), Call(257), Set(0, 1)], Stuck),
    // r10 stays.
    (&[Set(1, 1), Call(6), Push(-8, 7), Set(0, 7)], Gives(7)),
];

/// Asserts that a call is stuck behind a cancel, where nothing sets its table.
fn is_stuck_behind_a_cancel(rt: &impl Abort, alloc: Global, call: &HelperCall) {
    let mut steps = Vec::new(alloc);
    steps
        .extend_from_slice(&[Set(1, 9), Call(6)])
        .expect(rt, "memory");
    for (index, step) in call.slots.iter().enumerate() {
        if index != call.table {
            steps.push(*step).expect(rt, "memory");
        }
    }
    comes_to(rt, alloc, ("behind a cancel", call.table), &steps, &Stuck);
}

#[test]
fn cancels_and_unknown_helpers(rt: HostRuntime) {
    replies(&rt, rt.alloc(), &NO_FORM, &CANCELS);
    for call in &CALLS {
        is_stuck_behind_a_cancel(&rt, rt.alloc(), call);
    }
}

static AFTER_A_CALL: [Case; 9] = [
    (&[Set(1, 7), Set(1, 1), Call(6), Copy(0, 1)], Stuck),
    (&[Set(2, 7), Set(1, 1), Call(6), Copy(0, 2)], Stuck),
    (&[Set(3, 7), Set(1, 1), Call(6), Copy(0, 3)], Stuck),
    (&[Set(4, 7), Set(1, 1), Call(6), Copy(0, 4)], Stuck),
    (&[Set(5, 7), Set(1, 1), Call(6), Copy(0, 5)], Stuck),
    (&[Set(6, 7), Set(1, 1), Call(6), Copy(0, 6)], Gives(7)),
    (&[Set(7, 7), Set(1, 1), Call(6), Copy(0, 7)], Gives(7)),
    (&[Set(8, 7), Set(1, 1), Call(6), Copy(0, 8)], Gives(7)),
    (&[Set(9, 7), Set(1, 1), Call(6), Copy(0, 9)], Gives(7)),
];

#[test]
fn registers_after_a_call(rt: HostRuntime) {
    replies(&rt, rt.alloc(), &NO_FORM, &AFTER_A_CALL);
}
