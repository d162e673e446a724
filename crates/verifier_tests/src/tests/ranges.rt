//! Ranges of results, by rows that a Python program computed, and joins.
use super::bounds::{ALL, BELOW_MIDDLE, BELOW_TOP, LOW, MIDDLE, TOP, WIDE, range};
use super::same;
use bpf_words::BinaryOperation::{
    Add, And, Arsh, Div, Lsh, Mod, Mov, Mul, Or, Rsh, Sdiv, Smod, Sub, Xor,
};
use bpf_words::ByteOrder::{Big, Little, Swap};
use bpf_words::EndWidth::{Low16, Low32, Low64};
use bpf_words::Operation::{Binary, Movsx, Neg};
use bpf_words::SignExtension::{From8, From16, From32};
use bpf_words::{ByteOrder, Operation};
use interval::{Range, alu32_range, alu64_range, end_range};
use std::process::Abort;

/// Four ranges, each by its ends.
type Row = [[u64; 2]; 4];

#[test]
fn operations(rt: HostRuntime) {
    let operations: [(Operation, &[Row]); 18] = [
        (Binary(Add), &ADD),
        (Binary(Sub), &SUB),
        (Binary(Mul), &MUL),
        (Binary(Div), &DIV),
        (Binary(Sdiv), &SDIV),
        (Binary(Or), &OR),
        (Binary(And), &AND),
        (Binary(Lsh), &LSH),
        (Binary(Rsh), &RSH),
        (Binary(Mod), &MOD),
        (Binary(Smod), &SMOD),
        (Binary(Xor), &XOR),
        (Binary(Mov), &MOV),
        (Binary(Arsh), &ARSH),
        (Neg, &NEG),
        (Movsx(From8), &MOVSX8),
        (Movsx(From16), &MOVSX16),
        (Movsx(From32), &MOVSX32),
    ];
    for (op, rows) in operations {
        gives(&rt, op, rows);
    }
}

#[test]
fn byte_swaps(rt: HostRuntime) {
    swaps(&rt, Little, &KEPT);
    swaps(&rt, Big, &REVERSED);
    swaps(&rt, Swap, &REVERSED);
}

#[test]
fn joins(rt: HostRuntime) {
    for [a, b, both] in &JOINS {
        let joined = range(*a).join(range(*b));
        let found = (*a, *b, joined, joined.is_single());
        same(
            &rt,
            "joined",
            found,
            (*a, *b, range(*both), both[0] == both[1]),
        );
    }
    let given = Range::new(1, 5);
    same(&rt, "ends", (given.lo(), given.hi()), (1, 5));
}

// A row has the ranges of two operands, and those of what the operation gives on 64 and on 32 bits.
fn gives(rt: &impl Abort, op: Operation, rows: &[Row]) {
    for [a, b, wide, narrow] in rows {
        let (left, right) = (range(*a), range(*b));
        let found = (alu64_range(op, left, right), alu32_range(op, left, right));
        let wanted = (range(*wide), range(*narrow));
        same(
            rt,
            "64 and 32 bits",
            (op, left, right, found),
            (op, left, right, wanted),
        );
    }
}

// A row has an operand's range, and those of what is given of its low 16, 32 and 64 bits.
fn swaps(rt: &impl Abort, order: ByteOrder, rows: &[Row]) {
    for [a, low16, low32, low64] in rows {
        let operand = range(*a);
        let found = [
            end_range(order, Low16, operand),
            end_range(order, Low32, operand),
            end_range(order, Low64, operand),
        ];
        let wanted = [range(*low16), range(*low32), range(*low64)];
        same(
            rt,
            "16, 32 and 64 bits",
            (order, operand, found),
            (order, operand, wanted),
        );
    }
}

const BYTES: u64 = 0x1122_3344_5566_7788;

static JOINS: [[[u64; 2]; 3]; 6] = [
    [[1, 5], [2, 3], [1, 5]],
    [[0, 3], [7, 9], [0, 9]],
    [[7, 9], [0, 3], [0, 9]],
    [[TOP, TOP], [TOP, TOP], [TOP, TOP]],
    [[0, 0], [ALL, ALL], [0, ALL]],
    [[2, WIDE], [1, LOW], [1, WIDE]],
];

// The values of the tables were computed by a Python program.

static ADD: [Row; 8] = [
    [[1, 5], [2, 3], [3, 8], [3, 8]],
    [[0, ALL], [0, 0], [0, ALL], [0, LOW]],
    [[0, ALL], [0, 1], [0, ALL], [0, LOW]],
    [[0, LOW - 1], [1, 1], [1, LOW], [1, LOW]],
    [[0, LOW], [0, 1], [0, WIDE], [0, LOW]],
    [[WIDE, WIDE], [1, 2], [WIDE + 1, WIDE + 2], [1, 2]],
    [[WIDE, WIDE + 1], [1, 1], [WIDE + 1, WIDE + 2], [0, LOW]],
    [[ALL, ALL], [1, 1], [0, 0], [0, 0]],
];

static SUB: [Row; 8] = [
    [[9, 12], [2, 9], [0, 10], [0, 10]],
    [[8, 12], [2, 9], [0, ALL], [0, LOW]],
    [[TOP, ALL], [0, TOP], [0, ALL], [0, LOW]],
    [[WIDE + 8, WIDE + 8], [1, 2], [WIDE + 6, WIDE + 7], [6, 7]],
    [[WIDE, WIDE + 8], [1, 1], [LOW, WIDE + 7], [0, LOW]],
    [[0, ALL], [0, 0], [0, ALL], [0, LOW]],
    [[MIDDLE, LOW], [0, MIDDLE], [0, LOW], [0, LOW]],
    [[3, 3], [4, 4], [ALL, ALL], [LOW, LOW]],
];

static MUL: [Row; 9] = [
    [[2, 3], [4, 5], [8, 15], [8, 15]],
    [[0, LOW], [0, LOW], [0, 0xffff_fffe_0000_0001], [0, LOW]],
    [[0, WIDE], [0, WIDE], [0, ALL], [0, LOW]],
    [[1, ALL], [1, 1], [1, ALL], [0, LOW]],
    [[1, TOP], [2, 2], [0, ALL], [0, LOW]],
    [[1, BELOW_MIDDLE], [1, 2], [1, LOW - 1], [1, LOW - 1]],
    [[1, MIDDLE], [1, 2], [1, WIDE], [0, LOW]],
    [
        [WIDE, WIDE],
        [1, LOW],
        [WIDE, 0xffff_ffff_0000_0000],
        [0, 0],
    ],
    [[WIDE, WIDE], [WIDE, WIDE], [0, 0], [0, 0]],
];

static DIV: [Row; 9] = [
    [[10, 20], [2, 5], [2, 10], [2, 10]],
    [[10, 20], [0, 5], [0, 20], [0, 20]],
    [[10, 20], [0, 0], [0, 20], [0, 20]],
    [[0, ALL], [1, ALL], [0, ALL], [0, LOW]],
    [
        [TOP, ALL],
        [2, 2],
        [0x4000_0000_0000_0000, BELOW_TOP],
        [0, BELOW_MIDDLE],
    ],
    [[5, 6], [WIDE, WIDE], [0, 0], [0, 6]],
    [
        [WIDE + 8, WIDE + 8],
        [2, 3],
        [0x5555_5558, MIDDLE + 4],
        [2, 4],
    ],
    [[MIDDLE, WIDE], [1, 2], [0x4000_0000, WIDE], [0, LOW]],
    [[5, 5], [0, 0], [0, 0], [0, 0]],
];

static SDIV: [Row; 4] = [
    [[10, 20], [2, 5], [0, ALL], [0, LOW]],
    [[10, 20], [1, 1], [0, ALL], [0, LOW]],
    [[5, 5], [0, 1], [0, ALL], [0, LOW]],
    [[TOP, TOP], [ALL, ALL], [TOP, TOP], [0, 0]],
];

static OR: [Row; 8] = [
    [[1, 4], [2, 3], [2, 7], [2, 7]],
    [[0, 0], [0, 1], [0, 1], [0, 1]],
    [[5, 8], [3, 7], [5, 15], [5, 15]],
    [[5, 6], [9, MIDDLE], [9, LOW], [9, LOW]],
    [[0, WIDE], [1, 2], [1, 0x0001_ffff_ffff], [1, LOW]],
    [[TOP, TOP], [0, 1], [TOP, ALL], [0, 1]],
    [[3, BELOW_TOP], [0, LOW], [3, BELOW_TOP], [0, LOW]],
    [[12, 12], [10, 10], [14, 14], [14, 14]],
];

static AND: [Row; 7] = [
    [[5, 9], [12, 20], [0, 9], [0, 9]],
    [[5, ALL], [0, LOW], [0, LOW], [0, LOW]],
    [[TOP, ALL], [TOP, ALL], [0, ALL], [0, LOW]],
    [[0, 0], [0, ALL], [0, 0], [0, 0]],
    [[WIDE, WIDE + 1], [3, 3], [0, 3], [0, 3]],
    [[WIDE + 8, WIDE + 8], [2, 11], [0, 11], [0, 8]],
    [[12, 12], [10, 10], [8, 8], [8, 8]],
];

static LSH: [Row; 10] = [
    [[1, 3], [4, 4], [16, 48], [16, 48]],
    [[0, 1], [63, 63], [0, TOP], [0, MIDDLE]],
    [[0, 2], [63, 63], [0, ALL], [0, LOW]],
    [[0, 2], [31, 31], [0, WIDE], [0, LOW]],
    [[1, 3], [32, 32], [WIDE, 0x0003_0000_0000], [1, 3]],
    [[1, 3], [64, 64], [1, 3], [1, 3]],
    [[1, 3], [1, 2], [0, ALL], [0, LOW]],
    [[0, BELOW_TOP], [1, 1], [0, ALL - 1], [0, LOW]],
    [
        [0, BELOW_MIDDLE],
        [WIDE + 1, WIDE + 1],
        [0, LOW - 1],
        [0, LOW - 1],
    ],
    [[3, 3], [63, 63], [TOP, TOP], [MIDDLE, MIDDLE]],
];

static RSH: [Row; 10] = [
    [[16, 35], [4, 4], [1, 2], [1, 2]],
    [[16, 35], [4, 5], [0, 35], [0, 35]],
    [[0, ALL], [63, 63], [0, 1], [0, 1]],
    [[MIDDLE, LOW], [31, 31], [1, 1], [1, 1]],
    [[16, 35], [32, 32], [0, 0], [16, 35]],
    [[16, 35], [64, 64], [16, 35], [16, 35]],
    [
        [WIDE, WIDE + 16],
        [1, 1],
        [MIDDLE, MIDDLE + 8],
        [0, BELOW_MIDDLE],
    ],
    [[WIDE + 16, WIDE + 16], [1, 2], [0, WIDE + 16], [0, 16]],
    [
        [8, TOP],
        [WIDE + 1, WIDE + 1],
        [4, 0x4000_0000_0000_0000],
        [0, BELOW_MIDDLE],
    ],
    [[TOP, TOP], [63, 63], [1, 1], [0, 0]],
];

static MOD: [Row; 9] = [
    [[3, 7], [8, 9], [3, 7], [3, 7]],
    [[3, 7], [7, 9], [0, 7], [0, 7]],
    [[3, 17], [5, 9], [0, 8], [0, 8]],
    [[3, 17], [0, 9], [0, 17], [0, 17]],
    [[3, 17], [0, 0], [0, 17], [0, 17]],
    [[0, ALL], [1, ALL], [0, ALL - 1], [0, LOW]],
    [[WIDE + 8, WIDE + 8], [9, 10], [0, 9], [8, 8]],
    [[3, 7], [WIDE + 8, WIDE + 8], [3, 7], [3, 7]],
    [[9, 9], [0, 0], [9, 9], [9, 9]],
];

static SMOD: [Row; 4] = [
    [[10, 20], [2, 5], [0, ALL], [0, LOW]],
    [[0, 0], [1, 2], [0, ALL], [0, LOW]],
    [[WIDE + 8, WIDE + 8], [1, 1], [0, 0], [0, 0]],
    [[TOP + 5, TOP + 5], [0, 0], [TOP + 5, TOP + 5], [5, 5]],
];

static XOR: [Row; 8] = [
    [[1, 4], [2, 3], [0, 7], [0, 7]],
    [[0, 0], [0, 1], [0, 1], [0, 1]],
    [[5, 8], [3, 7], [0, 15], [0, 15]],
    [[5, 6], [9, MIDDLE], [0, LOW], [0, LOW]],
    [[0, WIDE], [1, 2], [0, 0x0001_ffff_ffff], [0, LOW]],
    [[TOP, TOP], [0, 1], [0, ALL], [0, 1]],
    [[3, BELOW_TOP], [0, LOW], [0, BELOW_TOP], [0, LOW]],
    [[12, 12], [10, 10], [6, 6], [6, 6]],
];

static MOV: [Row; 7] = [
    [[1, 2], [3, 9], [3, 9], [3, 9]],
    [[1, 2], [7, 7], [7, 7], [7, 7]],
    [[0, ALL], [WIDE, WIDE], [WIDE, WIDE], [0, 0]],
    [[1, 2], [WIDE, WIDE + 1], [WIDE, WIDE + 1], [0, LOW]],
    [[1, 2], [5, LOW], [5, LOW], [5, LOW]],
    [[1, 2], [5, WIDE], [5, WIDE], [0, LOW]],
    [[4, 4], [TOP, ALL], [TOP, ALL], [0, LOW]],
];

static ARSH: [Row; 10] = [
    [[16, 35], [4, 4], [1, 2], [1, 2]],
    [[16, 35], [4, 5], [0, 35], [0, 35]],
    [[0, BELOW_TOP], [63, 63], [0, 0], [0, LOW]],
    [[0, TOP], [1, 1], [0, ALL], [0, LOW]],
    [[0, BELOW_MIDDLE], [30, 30], [0, 1], [0, 1]],
    [[0, MIDDLE], [1, 1], [0, 0x4000_0000], [0, LOW]],
    [[16, 35], [64, 64], [16, 35], [16, 35]],
    [[ALL, ALL], [1, 2], [0, ALL], [0, LOW]],
    [[WIDE + 16, WIDE + 16], [1, 2], [0, WIDE + 16], [0, 16]],
    [[TOP, TOP], [63, 63], [ALL, ALL], [0, 0]],
];

static NEG: [Row; 5] = [
    [[5, 5], [0, 9], [ALL - 4, ALL - 4], [LOW - 4, LOW - 4]],
    [[0, 0], [1, 2], [0, 0], [0, 0]],
    [
        [WIDE + 1, WIDE + 1],
        [0, 0],
        [0xffff_fffe_ffff_ffff, 0xffff_fffe_ffff_ffff],
        [LOW, LOW],
    ],
    [[0, 1], [3, 3], [0, ALL], [0, LOW]],
    [[TOP, ALL], [0, 0], [0, ALL], [0, LOW]],
];

static MOVSX8: [Row; 8] = [
    [[1, 2], [3, 127], [3, 127], [3, 127]],
    [[1, 2], [3, 128], [0, ALL], [0, LOW]],
    [
        [1, 2],
        [128, 128],
        [0xffff_ffff_ffff_ff80, 0xffff_ffff_ffff_ff80],
        [0xffff_ff80, 0xffff_ff80],
    ],
    [[1, 2], [127, 127], [127, 127], [127, 127]],
    [[0, 0], [256, 257], [0, ALL], [0, LOW]],
    [[0, ALL], [WIDE + 1, WIDE + 1], [1, 1], [1, 1]],
    [[1, 2], [WIDE, WIDE + 1], [0, ALL], [0, LOW]],
    [[1, 1], [TOP, ALL], [0, ALL], [0, LOW]],
];

static MOVSX16: [Row; 8] = [
    [[1, 2], [3, 0x7fff], [3, 0x7fff], [3, 0x7fff]],
    [[1, 2], [3, 0x8000], [0, ALL], [0, LOW]],
    [
        [1, 2],
        [0x8000, 0x8000],
        [0xffff_ffff_ffff_8000, 0xffff_ffff_ffff_8000],
        [0xffff_8000, 0xffff_8000],
    ],
    [[1, 2], [0x7fff, 0x7fff], [0x7fff, 0x7fff], [0x7fff, 0x7fff]],
    [[0, 0], [0x1_0000, 0x1_0001], [0, ALL], [0, LOW]],
    [[0, ALL], [WIDE + 1, WIDE + 1], [1, 1], [1, 1]],
    [[1, 2], [WIDE, WIDE + 1], [0, ALL], [0, LOW]],
    [[1, 1], [TOP, ALL], [0, ALL], [0, LOW]],
];

static MOVSX32: [Row; 8] = [
    [
        [1, 2],
        [3, BELOW_MIDDLE],
        [3, BELOW_MIDDLE],
        [3, BELOW_MIDDLE],
    ],
    [[1, 2], [3, MIDDLE], [0, ALL], [0, LOW]],
    [
        [1, 2],
        [MIDDLE, MIDDLE],
        [0xffff_ffff_8000_0000, 0xffff_ffff_8000_0000],
        [MIDDLE, MIDDLE],
    ],
    [
        [1, 2],
        [BELOW_MIDDLE, BELOW_MIDDLE],
        [BELOW_MIDDLE, BELOW_MIDDLE],
        [BELOW_MIDDLE, BELOW_MIDDLE],
    ],
    [[0, 0], [WIDE, WIDE + 1], [0, ALL], [0, LOW]],
    [[0, ALL], [WIDE + 1, WIDE + 1], [1, 1], [1, 1]],
    [[1, 2], [WIDE, WIDE + 1], [0, ALL], [0, LOW]],
    [[1, 1], [TOP, ALL], [0, ALL], [0, LOW]],
];

static KEPT: [Row; 6] = [
    [
        [BYTES, BYTES],
        [0x7788, 0x7788],
        [0x5566_7788, 0x5566_7788],
        [BYTES, BYTES],
    ],
    [[1, 2], [0, 0xffff], [0, LOW], [0, ALL]],
    [[0, ALL], [0, 0xffff], [0, LOW], [0, ALL]],
    [[WIDE + 1, WIDE + 1], [1, 1], [1, 1], [WIDE + 1, WIDE + 1]],
    [[WIDE, WIDE + 1], [0, 0xffff], [0, LOW], [0, ALL]],
    [[TOP, TOP], [0, 0], [0, 0], [TOP, TOP]],
];

static REVERSED: [Row; 6] = [
    [
        [BYTES, BYTES],
        [0x8877, 0x8877],
        [0x8877_6655, 0x8877_6655],
        [0x8877_6655_4433_2211, 0x8877_6655_4433_2211],
    ],
    [[1, 2], [0, 0xffff], [0, LOW], [0, ALL]],
    [[0, ALL], [0, 0xffff], [0, LOW], [0, ALL]],
    [
        [WIDE + 1, WIDE + 1],
        [256, 256],
        [0x100_0000, 0x100_0000],
        [0x0100_0000_0100_0000, 0x0100_0000_0100_0000],
    ],
    [[WIDE, WIDE + 1], [0, 0xffff], [0, LOW], [0, ALL]],
    [[TOP, TOP], [0, 0], [0, 0], [128, 128]],
];
