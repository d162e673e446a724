//! Programs as lists of steps, one a slot. Each is followed by EXIT, and its reply tells that the last step was made.

use super::same;
use bpf_bytes::decode;
use plain_runner::{Row, run_program};
use schema::Schema;
use std::alloc::Global;
use std::process::Abort;

/// EXIT.
const EXIT: [u8; 8] = [0x95, 0, 0, 0, 0, 0, 0, 0];

/// The argument block.
const ARGS: [u8; 8] = [0x81, 0x82, 0x83, 0x84, 0x85, 0x86, 0x87, 0x88];

/// A slot of a program.
#[derive(Clone, Copy)]
pub(super) enum Step {
    /// Sets a register to a number.
    Set(u8, i32),
    /// Copies the second register to the first.
    Copy(u8, u8),
    /// Adds a number to a register.
    Add(u8, i32),
    /// Stores a number in eight bytes of the stack.
    Push(i16, i32),
    /// Loads eight bytes from the stack.
    Pull(u8, i16),
    /// Calls a helper.
    Call(i32),
    /// The first and the second slot of a wide load of a number.
    Low(u8, u64),
    High(u64),
    /// Opcode, destination, source, offset and immediate.
    Slot(u8, u8, u8, i16, i32),
    /// A slot that the form decides.
    Tried(Part),
}

/// A slot that depends on the form that is tried, so that one list of programs tries many forms.
#[derive(Clone, Copy)]
pub(super) enum Part {
    /// Sets a register to an operand by a move, which has its low half, and by a wide load.
    SetLeft(u8),
    SetRight(u8),
    LowLeft(u8),
    HighLeft,
    LowRight(u8),
    HighRight,
    /// The form on a register and its immediate, and on two registers.
    Immediate(u8),
    Register(u8, u8),
    /// The form with one operand: its destination, and its source where it has one.
    Operand(u8, u8),
    /// A load: destination, source and offset; and to r0, with the offset less the count.
    Load(u8, u8, i16),
    LoadBack(u8, i16),
    /// A store: destination and offset; and on the stack with the offset less the count.
    Store(u8, i16),
    StoreBack(i16),
}

/// The form that is tried, and what its programs reply.
#[derive(Clone, Copy)]
pub(super) struct Form {
    pub(super) opcode: u8,
    /// The opcode of the form with a source register.
    pub(super) register: u8,
    /// The source register of a store.
    pub(super) src: u8,
    pub(super) offset: i16,
    pub(super) number: i32,
    /// The number of bytes that are loaded or stored.
    pub(super) count: i16,
    pub(super) left: u64,
    pub(super) right: u64,
    pub(super) replies: [Option<u64>; 3],
}

/// The form where no form is tried.
pub(super) const NO_FORM: Form = Form {
    opcode: 0,
    register: 0,
    src: 0,
    offset: 0,
    number: 0,
    count: 0,
    left: 0,
    right: 0,
    replies: [None, None, None],
};

/// The outcome of a program: it is stuck, replies a number, or replies what the form says in one of three places.
pub(super) enum Wanted {
    Stuck,
    Gives(u64),
    First,
    Second,
    Third,
}

/// A program without its EXIT, and what comes of it on no rows.
pub(super) type Case = (&'static [Step], Wanted);

/// A slot by its fields (RFC 9669 section 3).
fn slot(opcode: u8, dst: u8, src: u8, offset: i16, immediate: i32) -> [u8; 8] {
    let [offset_low, offset_high] = offset.to_le_bytes();
    let [a, b, c, d] = immediate.to_le_bytes();
    [
        opcode,
        (src << 4) | dst,
        offset_low,
        offset_high,
        a,
        b,
        c,
        d,
    ]
}

/// A slot with the low half of a number, and the second slot of a wide load.
fn low(opcode: u8, dst: u8, number: u64) -> [u8; 8] {
    let [a, b, c, d, _, _, _, _] = number.to_le_bytes();
    [opcode, dst, 0, 0, a, b, c, d]
}

fn high(number: u64) -> [u8; 8] {
    let [_, _, _, _, a, b, c, d] = number.to_le_bytes();
    [0, 0, 0, 0, a, b, c, d]
}

fn slot_of(step: &Step, form: &Form) -> [u8; 8] {
    match step {
        Step::Set(dst, number) => slot(0xb7, *dst, 0, 0, *number),
        Step::Copy(dst, src) => slot(0xbf, *dst, *src, 0, 0),
        Step::Add(dst, number) => slot(0x07, *dst, 0, 0, *number),
        Step::Push(offset, number) => slot(0x7a, 10, 0, *offset, *number),
        Step::Pull(dst, offset) => slot(0x79, *dst, 10, *offset, 0),
        Step::Call(helper) => slot(0x85, 0, 0, 0, *helper),
        Step::Low(dst, number) => low(0x18, *dst, *number),
        Step::High(number) => high(*number),
        Step::Slot(opcode, dst, src, offset, number) => slot(*opcode, *dst, *src, *offset, *number),
        Step::Tried(part) => slot_of_part(part, form),
    }
}

fn slot_of_part(part: &Part, form: &Form) -> [u8; 8] {
    match part {
        Part::SetLeft(dst) => low(0xb7, *dst, form.left),
        Part::SetRight(dst) => low(0xb7, *dst, form.right),
        Part::LowLeft(dst) => low(0x18, *dst, form.left),
        Part::HighLeft => high(form.left),
        Part::LowRight(dst) => low(0x18, *dst, form.right),
        Part::HighRight => high(form.right),
        Part::Immediate(dst) => slot(form.opcode, *dst, 0, form.offset, form.number),
        Part::Register(dst, src) => slot(form.register, *dst, *src, form.offset, 0),
        Part::Operand(dst, src) => {
            let src = if form.offset == 0 { 0 } else { *src };
            slot(form.opcode, *dst, src, form.offset, form.number)
        }
        Part::Load(dst, src, offset) => slot(form.opcode, *dst, *src, *offset, 0),
        Part::LoadBack(src, offset) => {
            slot(form.opcode, 0, *src, offset.wrapping_sub(form.count), 0)
        }
        Part::Store(dst, offset) => slot(form.opcode, *dst, form.src, *offset, form.number),
        Part::StoreBack(offset) => {
            slot(
                form.opcode,
                10,
                form.src,
                offset.wrapping_sub(form.count),
                form.number,
            )
        }
    }
}

/// A program with its EXIT.
pub(super) fn program_of(rt: &impl Abort, alloc: Global, form: &Form, steps: &[Step]) -> Vec<u8> {
    let mut program = Vec::new(alloc);
    for step in steps {
        append(rt, &mut program, slot_of(step, form));
    }
    append(rt, &mut program, EXIT);
    program
}

fn append(rt: &impl Abort, program: &mut Vec<u8>, slot: [u8; 8]) {
    program.extend_from_slice(&slot).expect(rt, "a slot");
}

/// Puts a step in place of another.
pub(super) fn replace(program: &mut [u8], at: usize, step: &Step) {
    let start = at.wrapping_mul(8);
    if let Some(slot) = program.get_mut(start..start.wrapping_add(8)) {
        slot.copy_from_slice(&slot_of(step, &NO_FORM));
    }
}

/// Table 1 of width 8, and table 2 of width 2.
const TABLES: [(u8, u16); 2] = [(1, 8), (2, 2)];

/// Returns what a program replies on no rows; none where the program is stuck.
pub(super) fn reply_of(rt: &impl Abort, alloc: Global, program: &[u8]) -> Option<u64> {
    let code = decode(alloc, program).expect(rt, "the program");
    let schema = Schema::new(alloc, &TABLES).expect(rt, "the schema");
    let rows: [Row; 0] = [];
    match run_program(alloc, &code, &schema, &ARGS, &rows).expect(rt, "the run") {
        Some(run) => Some(run.reply()),
        None => None,
    }
}

fn wanted_of(wanted: &Wanted, form: &Form) -> Option<u64> {
    match wanted {
        Wanted::Stuck => None,
        Wanted::Gives(reply) => Some(*reply),
        Wanted::First => form.replies[0],
        Wanted::Second => form.replies[1],
        Wanted::Third => form.replies[2],
    }
}

/// Asserts that each program replies what is wanted. A form is told by its opcode and its operands.
pub(super) fn replies(rt: &impl Abort, alloc: Global, form: &Form, cases: &[Case]) {
    for (index, (steps, wanted)) in cases.iter().enumerate() {
        let found = try_steps(rt, alloc, form, steps);
        let told = (
            index,
            form.opcode,
            form.offset,
            form.number,
            form.left,
            form.right,
        );
        same(
            rt,
            "case, opcode and operands, reply",
            (told, found),
            (told, wanted_of(wanted, form)),
        );
    }
}

/// Asserts that steps where no form is tried come to what is wanted. A failure tells a name and a number.
pub(super) fn comes_to(
    rt: &impl Abort,
    alloc: Global,
    case: (&str, usize),
    steps: &[Step],
    wanted: &Wanted,
) {
    let (name, number) = case;
    let found = try_steps(rt, alloc, &NO_FORM, steps);
    let wanted = wanted_of(wanted, &NO_FORM);
    same(rt, name, (number, found), (number, wanted));
}

fn try_steps(rt: &impl Abort, alloc: Global, form: &Form, steps: &[Step]) -> Option<u64> {
    let program = program_of(rt, alloc, form, steps);
    reply_of(rt, alloc, &program)
}
