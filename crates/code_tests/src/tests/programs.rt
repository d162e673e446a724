// Tests of what no clause says: that the definitions are the format's, what is printed, and that each call succeeds.
use super::same;
use bpf_bytes::{DecodeCause, DecodeFault, Opcode, Uses, decode, encode};
use bpf_code::{Code, Instruction, Register, SignExtendingMove, Size, Source, Width};
use bpf_words::{BinaryOperation, ByteOrder, Condition, EndWidth};
use scarce::Scarce;
use std::alloc::Global;
use std::process::Abort;
use test_programs::{ADD, bytes_of};

// A row has opcodes in hex, what they are, with `_` for each one's name, the names, the fields that they use, and the
// seven bytes behind the opcode in one slot that is defined. The source of a wide load and of a call counts as used: it
// is zero, and another value is no unused field but an undefined one.
static OPCODES: [[&str; 5]; 25] = [
    ["18", "_", "LoadWide", "dst src imm", "01 0000 78563412"],
    [
        "61 69 71 79",
        "Load(_)",
        "U32 U16 U8 U64",
        "dst src off",
        "21 f8ff 00000000",
    ],
    [
        "81 89 91",
        "Load(_)",
        "I32 I16 I8",
        "dst src off",
        "a9 ff7f 00000000",
    ],
    [
        "62 6a 72 7a",
        "StoreImmediate(_)",
        "Word HalfWord Byte DoubleWord",
        "dst off imm",
        "0a 0080 00000080",
    ],
    [
        "63 6b 73 7b",
        "StoreRegister(_)",
        "Word HalfWord Byte DoubleWord",
        "dst src off",
        "3a f0ff 00000000",
    ],
    [
        "04 14 24 44 54 64 74 a4 b4 c4",
        "Arithmetic(Bits32, _, Immediate)",
        "Add Sub Mul Or And Lsh Rsh Xor Mov Arsh",
        "dst imm",
        "01 0000 ffffffff",
    ],
    [
        "34 94",
        "Arithmetic(Bits32, _, Immediate)",
        "Div Mod",
        "dst off imm",
        "01 0000 07000000",
    ],
    [
        "0c 1c 2c 4c 5c 6c 7c ac cc",
        "Arithmetic(Bits32, _, Register)",
        "Add Sub Mul Or And Lsh Rsh Xor Arsh",
        "dst src",
        "21 0000 00000000",
    ],
    [
        "3c 9c bc",
        "Arithmetic(Bits32, _, Register)",
        "Div Mod Mov",
        "dst src off",
        "21 0000 00000000",
    ],
    ["84", "Negate(_)", "Bits32", "dst", "05 0000 00000000"],
    [
        "d4 dc",
        "End(_)",
        "Little Big",
        "dst imm",
        "01 0000 10000000",
    ],
    [
        "07 17 27 47 57 67 77 a7 b7 c7",
        "Arithmetic(Bits64, _, Immediate)",
        "Add Sub Mul Or And Lsh Rsh Xor Mov Arsh",
        "dst imm",
        "01 0000 ffffff7f",
    ],
    [
        "37 97",
        "Arithmetic(Bits64, _, Immediate)",
        "Div Mod",
        "dst off imm",
        "01 0000 07000000",
    ],
    [
        "0f 1f 2f 4f 5f 6f 7f af cf",
        "Arithmetic(Bits64, _, Register)",
        "Add Sub Mul Or And Lsh Rsh Xor Arsh",
        "dst src",
        "98 0000 00000000",
    ],
    [
        "3f 9f bf",
        "Arithmetic(Bits64, _, Register)",
        "Div Mod Mov",
        "dst src off",
        "21 0000 00000000",
    ],
    [
        "15 25 35 45 55 65 75 a5 b5 c5 d5",
        "Branch(Bits64, _, Immediate)",
        "Eq Gt Ge Set Ne Sgt Sge Lt Le Slt Sle",
        "dst off imm",
        "01 0000 feffffff",
    ],
    [
        "1d 2d 3d 4d 5d 6d 7d ad bd cd dd",
        "Branch(Bits64, _, Register)",
        "Eq Gt Ge Set Ne Sgt Sge Lt Le Slt Sle",
        "dst src off",
        "21 0000 00000000",
    ],
    [
        "16 26 36 46 56 66 76 a6 b6 c6 d6",
        "Branch(Bits32, _, Immediate)",
        "Eq Gt Ge Set Ne Sgt Sge Lt Le Slt Sle",
        "dst off imm",
        "01 0000 feffffff",
    ],
    [
        "1e 2e 3e 4e 5e 6e 7e ae be ce de",
        "Branch(Bits32, _, Register)",
        "Eq Gt Ge Set Ne Sgt Sge Lt Le Slt Sle",
        "dst src off",
        "21 0000 00000000",
    ],
    ["87", "Negate(_)", "Bits64", "dst", "05 0000 00000000"],
    ["d7", "End(_)", "Swap", "dst imm", "01 0000 10000000"],
    ["05", "Jump(_)", "Bits64", "off", "00 0000 00000000"],
    ["06", "Jump(_)", "Bits32", "imm", "00 0000 00000000"],
    ["85", "_", "Call", "src imm", "00 0000 01000000"],
    ["95", "_", "Exit", "", "00 0000 00000000"],
];

// The other values that are defined: widths of byte swaps, signed divisions, sign-extending moves.
static VALUES: &str =
    "d401000020000000 d401000040000000 dc01000020000000 dc01000040000000 d701000020000000 \
    d701000040000000 3401010007000000 9401010007000000 3701010007000000 9701010007000000 3c21010000000000 \
    9c21010000000000 3f21010000000000 9f21010000000000 bc21080000000000 bc21100000000000 bf21080000000000 \
    bf21100000000000 bf21200000000000";

static EXIT: &str = "9500000000000000";

static FAULTS: [[&str; 2]; 61] = [
    ["B1 slot 0", ""],
    ["B1 slot 0", "95000000000000"],
    ["B1 slot 0", "000000000000000000"],
    ["B3 slot 0", "0000000000000000"],
    ["B3 slot 0", "00bb010001000000"],
    ["B3 slot 1", "9500000000000000 8d00000000000000"],
    ["B4 slot 0", "bf0b000000000000 9500000000000000"],
    ["B4 slot 0", "bfb0000000000000 9500000000000000"],
    ["B4 slot 0", "950b000000000000"],
    ["B4 slot 0", "95f0000000000000"],
    ["B4 slot 0", "870b000001000000 9500000000000000"],
    [
        "B4 slot 0",
        "18b0000001000000 0000000000000000 9500000000000000",
    ],
    ["B4 slot 1", "0500ffff00000000 bf0b000000000000"],
    ["B5 slot 0", "9500000001000000"],
    ["B5 slot 0", "9501000000000000"],
    ["B5 slot 0", "9500000001000000 0000000000000000"],
    ["B5 slot 0", "0700010001000000 9500000000000000"],
    ["B5 slot 0", "0710000001000000 9500000000000000"],
    ["B5 slot 0", "0f10000001000000 9500000000000000"],
    ["B5 slot 0", "b700080001000000 9500000000000000"],
    ["B5 slot 0", "8700000001000000 9500000000000000"],
    ["B5 slot 0", "8710000000000000 9500000000000000"],
    ["B5 slot 0", "d410000011000000 9500000000000000"],
    ["B5 slot 0", "7910000001000000 9500000000000000"],
    ["B5 slot 0", "7a10000001000000 9500000000000000"],
    ["B5 slot 0", "7b10000001000000 9500000000000000"],
    ["B5 slot 0", "0500000001000000 9500000000000000"],
    ["B5 slot 0", "0600010000000000 9500000000000000"],
    ["B5 slot 0", "1510000000000000 9500000000000000"],
    ["B5 slot 0", "1d10000001000000 9500000000000000"],
    ["B5 slot 0", "8501000001000000 9500000000000000"],
    [
        "B5 slot 0",
        "1800010001000000 0000000000000000 9500000000000000",
    ],
    [
        "B5 slot 1",
        "1800000001000000 0001000000000000 9500000000000000",
    ],
    [
        "B5 slot 1",
        "1800000001000000 00f0000000000000 9500000000000000",
    ],
    [
        "B5 slot 1",
        "1800000001000000 0000010000000000 9500000000000000",
    ],
    ["B5 slot 1", "1800000001000000 9500000000000000"],
    [
        "B6 slot 0",
        "1810000001000000 0000000000000000 9500000000000000",
    ],
    ["B6 slot 0", "1810000001000000"],
    ["B6 slot 0", "8510000001000000 9500000000000000"],
    ["B6 slot 0", "3700020001000000 9500000000000000"],
    ["B6 slot 0", "3400ffff01000000 9500000000000000"],
    ["B6 slot 0", "9f10020000000000 9500000000000000"],
    ["B6 slot 0", "bc10200000000000 9500000000000000"],
    ["B6 slot 0", "bf10010000000000 9500000000000000"],
    ["B6 slot 0", "d400000011000000 9500000000000000"],
    ["B6 slot 0", "d700000000000000 9500000000000000"],
    ["B7 slot 0", "1800000001000000"],
    ["B7 slot 1", "0500ffff00000000 1800000001000000"],
    ["B8 slot 0", "0500ffff00000000 9500000000000000"],
    ["B8 slot 0", "0500ffff00000000"],
    ["B8 slot 0", "06000000ffffffff 9500000000000000"],
    ["B8 slot 1", "9500000000000000 1500008000000000"],
    ["B9 slot 0", "0500010000000000 9500000000000000"],
    [
        "B9 slot 0",
        "0500050000000000 0500ffff00000000 9500000000000000",
    ],
    ["B9 slot 0", "06000000ffffff7f 9500000000000000"],
    ["B9 slot 1", "9500000000000000 5e00000000000000"],
    [
        "B10 slot 0",
        "0500010000000000 1800000001000000 0000000000000000 9500000000000000",
    ],
    [
        "B10 slot 0",
        "0600000001000000 1800000001000000 0000000000000000",
    ],
    ["B11 slot 0", "b700000001000000"],
    ["B11 slot 1", "9500000000000000 8500000001000000"],
    [
        "B11 slot 1",
        "9500000000000000 1800000001000000 0000000000000000",
    ],
];

const OUT_OF_MEMORY: DecodeFault = DecodeFault {
    cause: DecodeCause::NoMemory,
    slot: 0,
};

fn code_of(rt: &impl Abort, alloc: Global, bytes: &[u8]) -> Code {
    decode(alloc, bytes).expect(rt, "the program")
}

fn fault_of(alloc: Global, bytes: &[u8]) -> Option<DecodeFault> {
    match decode(alloc, bytes) {
        Ok(_) => None,
        Err(fault) => Some(fault),
    }
}

// The fault as it is printed, and by its parts.
fn is_printed_as(rt: &impl Abort, alloc: Global, fault: DecodeFault, expected: &str) {
    let printed = format!(in alloc; "{fault}").expect(rt, expected);
    same(rt, "printed", printed.as_str(), expected);
    let parts = format!(in alloc; "B{} slot {}", fault.cause.number(), fault.slot);
    same(rt, "parts", parts.expect(rt, expected).as_str(), expected);
}

fn is_faulty(rt: &impl Abort, alloc: Global, expected: &str, text: &str) {
    let bytes = bytes_of(alloc, text).expect(rt, text);
    let fault = fault_of(alloc, &bytes).expect(rt, text);
    is_printed_as(rt, alloc, fault, expected);
}

#[test]
fn faults(rt: HostRuntime) {
    for [expected, text] in &FAULTS {
        is_faulty(&rt, rt.alloc(), expected, text);
    }
}

fn append(rt: &impl Abort, bytes: &mut Vec<u8>, more: &[u8]) {
    bytes
        .extend_from_slice(more)
        .expect(rt, "room for a program");
}

fn exits(rt: &impl Abort, alloc: Global, count: usize) -> Vec<u8> {
    let exit = bytes_of(alloc, EXIT).expect(rt, EXIT);
    let mut bytes = Vec::new(alloc);
    for _ in 0..count {
        append(rt, &mut bytes, &exit);
    }
    bytes
}

// The longest program, and one slot more.
#[test]
fn the_longest_program(rt: HostRuntime) {
    let code = code_of(&rt, rt.alloc(), &exits(&rt, rt.alloc(), 4096));
    same(&rt, "slots", code.slots(), 4096);
    let fault = fault_of(rt.alloc(), &exits(&rt, rt.alloc(), 4097));
    let fault = fault.expect(&rt, "no fault");
    same(&rt, "fault", (fault.cause.number(), fault.slot), (2, 0));
}

// Tells whether a slot of this opcode is refused since there is no such opcode.
fn is_unknown(alloc: Global, opcode: u8) -> bool {
    match decode(alloc, &[opcode, 0, 0, 0, 0, 0, 0, 0]) {
        Ok(_) => false,
        Err(fault) => fault.cause == DecodeCause::UnknownOpcode,
    }
}

fn uses_of(used: &str) -> Uses {
    Uses {
        dst: used.contains("dst"),
        src: used.contains("src"),
        offset: used.contains("off"),
        immediate: used.contains("imm"),
    }
}

// The form with a name in its place.
fn named(rt: &impl Abort, alloc: Global, form: &str, name: &str) -> String {
    let (before, after) = form.split_once('_').expect(rt, "no place for the name");
    format!(in alloc; "{before}{name}{after}").expect(rt, name)
}

fn is_opcode(rt: &impl Abort, alloc: Global, byte: u8, expected: &str, uses: Uses) {
    let opcode = Opcode::from_byte(byte).expect(rt, expected);
    let printed = format!(in alloc; "{opcode:?}").expect(rt, expected);
    same(rt, "opcode", printed.as_str(), expected);
    same(rt, expected, (opcode.byte(), opcode.uses()), (byte, uses));
}

fn has_opcodes(rt: &impl Abort, alloc: Global, row: &[&str; 5], bytes: &[u8]) {
    let uses = uses_of(row[3]);
    same(rt, row[0], bytes.len(), row[2].split_whitespace().count());
    for (byte, name) in bytes.iter().zip(row[2].split_whitespace()) {
        is_opcode(rt, alloc, *byte, &named(rt, alloc, row[1], name), uses);
    }
}

fn are_known_or_refused(rt: &impl Abort, alloc: Global, known: &[u8]) {
    same(rt, "opcodes", known.len(), 117);
    for byte in 0..=255 {
        let found = (byte, is_unknown(alloc, byte));
        same(rt, "unknown", found, (byte, !known.contains(&byte)));
    }
}

#[test]
fn opcodes(rt: HostRuntime) {
    let mut known = Vec::new(rt.alloc());
    for row in &OPCODES {
        let bytes = bytes_of(rt.alloc(), row[0]).expect(&rt, row[0]);
        has_opcodes(&rt, rt.alloc(), row, &bytes);
        append(&rt, &mut known, &bytes);
    }
    are_known_or_refused(&rt, rt.alloc(), &known);
}

fn come_back(rt: &impl Abort, alloc: Global, bytes: &[u8], slots: usize) {
    let code = code_of(rt, alloc, bytes);
    same(rt, "slots", code.slots(), slots);
    let again = encode(alloc, &code).expect(rt, "the bytes");
    assert_eq!(rt; again.as_slice(), bytes);
}

// The second half of the wide load.
static HALF: [u8; 8] = [0, 0, 0, 0, 0xf0, 0xde, 0xbc, 0x9a];

// Each opcode of a row with the rest of its slot.
fn append_row(rt: &impl Abort, all: &mut Vec<u8>, opcodes: &[u8], rest: &[u8]) {
    for opcode in opcodes {
        append(rt, all, &[*opcode]);
        append(rt, all, rest);
        if *opcode == 0x18 {
            append(rt, all, &HALF);
        }
    }
}

#[test]
fn bytes_come_back(rt: HostRuntime) {
    let mut bytes = bytes_of(rt.alloc(), VALUES).expect(&rt, VALUES);
    for row in &OPCODES {
        let opcodes = bytes_of(rt.alloc(), row[0]).expect(&rt, row[0]);
        let rest = bytes_of(rt.alloc(), row[4]).expect(&rt, row[4]);
        append_row(&rt, &mut bytes, &opcodes, &rest);
    }
    // the values, the opcodes and the second half of the wide load
    come_back(&rt, rt.alloc(), &bytes, 19 + 117 + 1);
    let add = bytes_of(rt.alloc(), ADD).expect(&rt, ADD);
    come_back(&rt, rt.alloc(), &add, 17);
}

// A comparison, moves, stores, a byte swap and both jumps, then the wide load of 0x2_0000_0001.
static LISTED: &str =
    "bf19100000000000 7a0af8ffffffffff dc01000040000000 9f32010000000000 a6020400feffffff \
    0500000000000000 0600000000000000 180a000001000000 0000000002000000 9500000000000000";

static INSTRUCTIONS: [Option<Instruction>; 11] = [
    Some(Instruction::MoveSignExtended {
        kind: SignExtendingMove::From16To64,
        dst: Register::R9,
        src: Register::R1,
    }),
    Some(Instruction::StoreImmediate {
        size: Size::DoubleWord,
        dst: Register::R10,
        offset: -8,
        immediate: -1,
    }),
    Some(Instruction::End {
        order: ByteOrder::Big,
        width: EndWidth::Low64,
        dst: Register::R1,
    }),
    Some(Instruction::Arithmetic {
        width: Width::Bits64,
        operation: BinaryOperation::Smod,
        dst: Register::R2,
        source: Source::Register(Register::R3),
    }),
    Some(Instruction::Branch {
        width: Width::Bits32,
        condition: Condition::Lt,
        dst: Register::R2,
        source: Source::Immediate(-2),
        distance: 4,
    }),
    Some(Instruction::Jump { distance: 0 }),
    Some(Instruction::LongJump { distance: 0 }),
    Some(Instruction::LoadWide {
        dst: Register::R10,
        value: 0x2_0000_0001,
    }),
    None,
    Some(Instruction::Exit),
    None,
];

#[test]
fn instructions(rt: HostRuntime) {
    let bytes = bytes_of(rt.alloc(), LISTED).expect(&rt, LISTED);
    let code = code_of(&rt, rt.alloc(), &bytes);
    same(&rt, "slots", code.slots(), 10);
    for (slot, instruction) in INSTRUCTIONS.iter().enumerate() {
        same(
            &rt,
            "slot, instruction",
            (slot, code.at(slot)),
            (slot, *instruction),
        );
    }
    same(&rt, "no slot", code.at(usize::MAX), None);
}

// Tells whether the program was decoded. Where it wasn't, memory was refused.
fn is_decoded(rt: &impl Abort, scarce: &Scarce, bytes: &[u8]) -> bool {
    match decode(scarce, bytes) {
        Ok(code) => {
            same(rt, "slots", code.slots(), 17);
            true
        }
        Err(fault) => {
            same(rt, "fault", fault, OUT_OF_MEMORY);
            false
        }
    }
}

fn is_encoded(rt: &impl Abort, scarce: &Scarce, code: &Code, bytes: &[u8]) -> bool {
    match encode(scarce, code) {
        Ok(again) => {
            assert_eq!(rt; again.as_slice(), bytes);
            true
        }
        Err(_) => false,
    }
}

// Each makes one growth in the call that is refused it, and one in the other.
#[test]
fn refused_growths(rt: HostRuntime) {
    let bytes = bytes_of(rt.alloc(), ADD).expect(&rt, ADD);
    let scarce = Scarce::new(rt.alloc());
    let refused = scarce.refuse_each(|| is_decoded(&rt, &scarce, &bytes));
    same(&rt, "decoding", (refused, scarce.growths()), (Some(1), 2));
    same(&rt, "cause", OUT_OF_MEMORY.cause.number(), 12);
    let code = code_of(&rt, rt.alloc(), &bytes);
    let refused = scarce.refuse_each(|| is_encoded(&rt, &scarce, &code, &bytes));
    same(&rt, "encoding", (refused, scarce.growths()), (Some(1), 4));
}
