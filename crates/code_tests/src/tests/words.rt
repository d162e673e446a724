use super::same;
use bpf_words::BinaryOperation::{
    Add, And, Arsh, Div, Lsh, Mod, Mov, Mul, Or, Rsh, Sdiv, Smod, Sub, Xor,
};
use bpf_words::ByteOrder::{Big, Little, Swap};
use bpf_words::Condition::{Eq, Ge, Gt, Le, Lt, Ne, Set, Sge, Sgt, Sle, Slt};
use bpf_words::EndWidth::{Low16, Low32, Low64};
use bpf_words::Operation::{Binary, Movsx, Neg};
use bpf_words::SignExtension::{From8, From16, From32};
use bpf_words::{ByteOrder, Condition, Operation, alu32, alu64, end, holds32, holds64};
use std::process::Abort;

#[test]
fn worked_examples(rt: HostRuntime) {
    let minus_one = 18_446_744_073_709_551_615;
    same(&rt, "division", alu64(Binary(Div), minus_one, minus_one), 1);
    same(
        &rt,
        "signed rest",
        alu64(Binary(Smod), MINUS_13, 3),
        minus_one,
    );
    same(
        &rt,
        "rest by 0 at 32",
        alu32(Binary(Mod), 0x1_0000_0005, 0),
        5,
    );
    same(
        &rt,
        "rest by 0",
        alu64(Binary(Mod), 0x1_0000_0005, 0),
        0x1_0000_0005,
    );
    same(&rt, "big 16", end(Big, Low16, BYTES), 0x8877);
    same(
        &rt,
        "swap 64",
        end(Swap, Low64, BYTES),
        0x8877_6655_4433_2211,
    );
}

#[test]
fn arithmetic(rt: HostRuntime) {
    gives(&rt, Binary(Add), &ADD);
    gives(&rt, Binary(Sub), &SUB);
    gives(&rt, Binary(Mul), &MUL);
    gives(&rt, Binary(Div), &DIV);
    gives(&rt, Binary(Sdiv), &SDIV);
    gives(&rt, Binary(Or), &OR);
    gives(&rt, Binary(And), &AND);
    gives(&rt, Binary(Lsh), &LSH);
    gives(&rt, Binary(Rsh), &RSH);
    gives(&rt, Binary(Mod), &MOD);
    gives(&rt, Binary(Smod), &SMOD);
    gives(&rt, Binary(Xor), &XOR);
    gives(&rt, Binary(Mov), &MOV);
    gives(&rt, Binary(Arsh), &ARSH);
    gives(&rt, Neg, &NEG);
    gives(&rt, Movsx(From8), &MOVSX8);
    gives(&rt, Movsx(From16), &MOVSX16);
    gives(&rt, Movsx(From32), &MOVSX32);
}

#[test]
fn comparisons(rt: HostRuntime) {
    compares(&rt, Eq, &EQ);
    compares(&rt, Gt, &GT);
    compares(&rt, Ge, &GE);
    compares(&rt, Set, &SET);
    compares(&rt, Ne, &NE);
    compares(&rt, Sgt, &SGT);
    compares(&rt, Sge, &SGE);
    compares(&rt, Lt, &LT);
    compares(&rt, Le, &LE);
    compares(&rt, Slt, &SLT);
    compares(&rt, Sle, &SLE);
}

#[test]
fn swaps(rt: HostRuntime) {
    keeps_or_reverses(&rt, Little, &KEPT);
    keeps_or_reverses(&rt, Big, &REVERSED);
    keeps_or_reverses(&rt, Swap, &REVERSED);
}

// A row has two operands, and what the operation gives on 64 and on 32 bits.
fn gives(rt: &impl Abort, op: Operation, rows: &[[u64; 4]]) {
    for [a, b, wide, narrow] in rows {
        let found = (op, *a, *b, alu64(op, *a, *b), alu32(op, *a, *b));
        same(
            rt,
            "operation, operands, results",
            found,
            (op, *a, *b, *wide, *narrow),
        );
    }
}

// A row has two operands, and 1 or 0: whether the condition holds on 64 and on 32 bits.
fn compares(rt: &impl Abort, condition: Condition, rows: &[[u64; 4]]) {
    for [a, b, wide, narrow] in rows {
        let holds = (holds64(condition, *a, *b), holds32(condition, *a, *b));
        let wanted = (*wide == 1, *narrow == 1);
        let told = (condition, *a, *b);
        same(
            rt,
            "condition and operands, whether it holds",
            (told, holds),
            (told, wanted),
        );
    }
}

// A row has an operand, and what is given of its low 16, 32 and 64 bits.
fn keeps_or_reverses(rt: &impl Abort, order: ByteOrder, rows: &[[u64; 4]]) {
    for [a, low16, low32, low64] in rows {
        let found = (
            end(order, Low16, *a),
            end(order, Low32, *a),
            end(order, Low64, *a),
        );
        let wanted = (*low16, *low32, *low64);
        same(
            rt,
            "order and operand, results",
            (order, *a, found),
            (order, *a, wanted),
        );
    }
}

const ALL: u64 = 0xffff_ffff_ffff_ffff;

const TOP: u64 = 0x8000_0000_0000_0000;

const BELOW_TOP: u64 = 0x7fff_ffff_ffff_ffff;

const LOW: u64 = 0xffff_ffff;

const MIDDLE: u64 = 0x8000_0000;

const BELOW_MIDDLE: u64 = 0x7fff_ffff;

const BYTES: u64 = 0x1122_3344_5566_7788;

const MINUS_13: u64 = 0xffff_ffff_ffff_fff3;

const MIXED: u64 = 0x8123_4567_89ab_cdef;

// The values of the tables were computed by a C program.

static ADD: [[u64; 4]; 10] = [
    [TOP, ALL, 0x7fff_ffff_ffff_ffff, 0xffff_ffff],
    [MIDDLE, LOW, 0x0000_0001_7fff_ffff, 0x7fff_ffff],
    [ALL, 1, 0, 0],
    [BELOW_TOP, MIDDLE, 0x8000_0000_7fff_ffff, 0x7fff_ffff],
    [BYTES, 0, 0x1122_3344_5566_7788, 0x5566_7788],
    [LOW, BELOW_TOP, 0x8000_0000_ffff_fffe, 0xffff_fffe],
    [MIXED, BELOW_MIDDLE, 0x8123_4568_09ab_cdee, 0x09ab_cdee],
    [MINUS_13, 3, 0xffff_ffff_ffff_fff6, 0xffff_fff6],
    [BYTES, 33, 0x1122_3344_5566_77a9, 0x5566_77a9],
    [0, TOP, 0x8000_0000_0000_0000, 0],
];

static SUB: [[u64; 4]; 10] = [
    [TOP, ALL, 0x8000_0000_0000_0001, 1],
    [MIDDLE, LOW, 0xffff_ffff_8000_0001, 0x8000_0001],
    [ALL, 1, 0xffff_ffff_ffff_fffe, 0xffff_fffe],
    [BELOW_TOP, MIDDLE, 0x7fff_ffff_7fff_ffff, 0x7fff_ffff],
    [BYTES, 0, 0x1122_3344_5566_7788, 0x5566_7788],
    [LOW, BELOW_TOP, 0x8000_0001_0000_0000, 0],
    [MIXED, BELOW_MIDDLE, 0x8123_4567_09ab_cdf0, 0x09ab_cdf0],
    [MINUS_13, 3, 0xffff_ffff_ffff_fff0, 0xffff_fff0],
    [BYTES, 33, 0x1122_3344_5566_7767, 0x5566_7767],
    [0, TOP, 0x8000_0000_0000_0000, 0],
];

static MUL: [[u64; 4]; 10] = [
    [TOP, ALL, 0x8000_0000_0000_0000, 0],
    [MIDDLE, LOW, 0x7fff_ffff_8000_0000, 0x8000_0000],
    [ALL, 1, 0xffff_ffff_ffff_ffff, 0xffff_ffff],
    [BELOW_TOP, MIDDLE, 0xffff_ffff_8000_0000, 0x8000_0000],
    [BYTES, 0, 0, 0],
    [LOW, BELOW_TOP, 0x7fff_ffff_0000_0001, 1],
    [MIXED, BELOW_MIDDLE, 0x43b2_a18f_f654_3211, 0xf654_3211],
    [MINUS_13, 3, 0xffff_ffff_ffff_ffd9, 0xffff_ffd9],
    [BYTES, 33, 0x3568_9bcf_0235_6888, 0x0235_6888],
    [0, TOP, 0, 0],
];

static DIV: [[u64; 4]; 10] = [
    [TOP, ALL, 0, 0],
    [MIDDLE, LOW, 0, 0],
    [ALL, 1, 0xffff_ffff_ffff_ffff, 0xffff_ffff],
    [BELOW_TOP, MIDDLE, 0xffff_ffff, 1],
    [BYTES, 0, 0, 0],
    [LOW, BELOW_TOP, 0, 1],
    [MIXED, BELOW_MIDDLE, 0x0000_0001_0246_8ad1, 1],
    [MINUS_13, 3, 0x5555_5555_5555_5551, 0x5555_5551],
    [BYTES, 33, 0x0084_ea47_e38e_bdcd, 0x0296_7fbe],
    [0, TOP, 0, 0],
];

static SDIV: [[u64; 4]; 10] = [
    [TOP, ALL, 0x8000_0000_0000_0000, 0],
    [MIDDLE, LOW, 0, 0x8000_0000],
    [ALL, 1, 0xffff_ffff_ffff_ffff, 0xffff_ffff],
    [BELOW_TOP, MIDDLE, 0xffff_ffff, 0],
    [BYTES, 0, 0, 0],
    [LOW, BELOW_TOP, 0, 1],
    [MIXED, BELOW_MIDDLE, 0xffff_ffff_0246_8ace, 0],
    [MINUS_13, 3, 0xffff_ffff_ffff_fffc, 0xffff_fffc],
    [BYTES, 33, 0x0084_ea47_e38e_bdcd, 0x0296_7fbe],
    [0, TOP, 0, 0],
];

static OR: [[u64; 4]; 10] = [
    [TOP, ALL, 0xffff_ffff_ffff_ffff, 0xffff_ffff],
    [MIDDLE, LOW, 0xffff_ffff, 0xffff_ffff],
    [ALL, 1, 0xffff_ffff_ffff_ffff, 0xffff_ffff],
    [BELOW_TOP, MIDDLE, 0x7fff_ffff_ffff_ffff, 0xffff_ffff],
    [BYTES, 0, 0x1122_3344_5566_7788, 0x5566_7788],
    [LOW, BELOW_TOP, 0x7fff_ffff_ffff_ffff, 0xffff_ffff],
    [MIXED, BELOW_MIDDLE, 0x8123_4567_ffff_ffff, 0xffff_ffff],
    [MINUS_13, 3, 0xffff_ffff_ffff_fff3, 0xffff_fff3],
    [BYTES, 33, 0x1122_3344_5566_77a9, 0x5566_77a9],
    [0, TOP, 0x8000_0000_0000_0000, 0],
];

static AND: [[u64; 4]; 10] = [
    [TOP, ALL, 0x8000_0000_0000_0000, 0],
    [MIDDLE, LOW, 0x8000_0000, 0x8000_0000],
    [ALL, 1, 1, 1],
    [BELOW_TOP, MIDDLE, 0x8000_0000, 0x8000_0000],
    [BYTES, 0, 0, 0],
    [LOW, BELOW_TOP, 0xffff_ffff, 0xffff_ffff],
    [MIXED, BELOW_MIDDLE, 0x09ab_cdef, 0x09ab_cdef],
    [MINUS_13, 3, 3, 3],
    [BYTES, 33, 0, 0],
    [0, TOP, 0, 0],
];

static LSH: [[u64; 4]; 10] = [
    [TOP, ALL, 0, 0],
    [MIDDLE, LOW, 0, 0],
    [ALL, 1, 0xffff_ffff_ffff_fffe, 0xffff_fffe],
    [BELOW_TOP, MIDDLE, 0x7fff_ffff_ffff_ffff, 0xffff_ffff],
    [BYTES, 0, 0x1122_3344_5566_7788, 0x5566_7788],
    [LOW, BELOW_TOP, 0x8000_0000_0000_0000, 0x8000_0000],
    [MIXED, BELOW_MIDDLE, 0x8000_0000_0000_0000, 0x8000_0000],
    [MINUS_13, 3, 0xffff_ffff_ffff_ff98, 0xffff_ff98],
    [BYTES, 33, 0xaacc_ef10_0000_0000, 0xaacc_ef10],
    [0, TOP, 0, 0],
];

static RSH: [[u64; 4]; 10] = [
    [TOP, ALL, 1, 0],
    [MIDDLE, LOW, 0, 1],
    [ALL, 1, 0x7fff_ffff_ffff_ffff, 0x7fff_ffff],
    [BELOW_TOP, MIDDLE, 0x7fff_ffff_ffff_ffff, 0xffff_ffff],
    [BYTES, 0, 0x1122_3344_5566_7788, 0x5566_7788],
    [LOW, BELOW_TOP, 0, 1],
    [MIXED, BELOW_MIDDLE, 1, 1],
    [MINUS_13, 3, 0x1fff_ffff_ffff_fffe, 0x1fff_fffe],
    [BYTES, 33, 0x0891_19a2, 0x2ab3_3bc4],
    [0, TOP, 0, 0],
];

static MOD: [[u64; 4]; 10] = [
    [TOP, ALL, 0x8000_0000_0000_0000, 0],
    [MIDDLE, LOW, 0x8000_0000, 0x8000_0000],
    [ALL, 1, 0, 0],
    [BELOW_TOP, MIDDLE, 0x7fff_ffff, 0x7fff_ffff],
    [BYTES, 0, 0x1122_3344_5566_7788, 0x5566_7788],
    [LOW, BELOW_TOP, 0xffff_ffff, 0],
    [MIXED, BELOW_MIDDLE, 0x0bf2_58c0, 0x09ab_cdf0],
    [MINUS_13, 3, 0, 0],
    [BYTES, 33, 27, 10],
    [0, TOP, 0, 0],
];

static SMOD: [[u64; 4]; 10] = [
    [TOP, ALL, 0, 0],
    [MIDDLE, LOW, 0x8000_0000, 0],
    [ALL, 1, 0, 0],
    [BELOW_TOP, MIDDLE, 0x7fff_ffff, 0xffff_ffff],
    [BYTES, 0, 0x1122_3344_5566_7788, 0x5566_7788],
    [LOW, BELOW_TOP, 0xffff_ffff, 0],
    [MIXED, BELOW_MIDDLE, 0xffff_ffff_8bf2_58bd, 0x89ab_cdef],
    [MINUS_13, 3, 0xffff_ffff_ffff_ffff, 0xffff_ffff],
    [BYTES, 33, 27, 10],
    [0, TOP, 0, 0],
];

static XOR: [[u64; 4]; 10] = [
    [TOP, ALL, 0x7fff_ffff_ffff_ffff, 0xffff_ffff],
    [MIDDLE, LOW, 0x7fff_ffff, 0x7fff_ffff],
    [ALL, 1, 0xffff_ffff_ffff_fffe, 0xffff_fffe],
    [BELOW_TOP, MIDDLE, 0x7fff_ffff_7fff_ffff, 0x7fff_ffff],
    [BYTES, 0, 0x1122_3344_5566_7788, 0x5566_7788],
    [LOW, BELOW_TOP, 0x7fff_ffff_0000_0000, 0],
    [MIXED, BELOW_MIDDLE, 0x8123_4567_f654_3210, 0xf654_3210],
    [MINUS_13, 3, 0xffff_ffff_ffff_fff0, 0xffff_fff0],
    [BYTES, 33, 0x1122_3344_5566_77a9, 0x5566_77a9],
    [0, TOP, 0x8000_0000_0000_0000, 0],
];

static MOV: [[u64; 4]; 10] = [
    [TOP, ALL, 0xffff_ffff_ffff_ffff, 0xffff_ffff],
    [MIDDLE, LOW, 0xffff_ffff, 0xffff_ffff],
    [ALL, 1, 1, 1],
    [BELOW_TOP, MIDDLE, 0x8000_0000, 0x8000_0000],
    [BYTES, 0, 0, 0],
    [LOW, BELOW_TOP, 0x7fff_ffff_ffff_ffff, 0xffff_ffff],
    [MIXED, BELOW_MIDDLE, 0x7fff_ffff, 0x7fff_ffff],
    [MINUS_13, 3, 3, 3],
    [BYTES, 33, 33, 33],
    [0, TOP, 0x8000_0000_0000_0000, 0],
];

static ARSH: [[u64; 4]; 10] = [
    [TOP, ALL, 0xffff_ffff_ffff_ffff, 0],
    [MIDDLE, LOW, 0, 0xffff_ffff],
    [ALL, 1, 0xffff_ffff_ffff_ffff, 0xffff_ffff],
    [BELOW_TOP, MIDDLE, 0x7fff_ffff_ffff_ffff, 0xffff_ffff],
    [BYTES, 0, 0x1122_3344_5566_7788, 0x5566_7788],
    [LOW, BELOW_TOP, 0, 0xffff_ffff],
    [MIXED, BELOW_MIDDLE, 0xffff_ffff_ffff_ffff, 0xffff_ffff],
    [MINUS_13, 3, 0xffff_ffff_ffff_fffe, 0xffff_fffe],
    [BYTES, 33, 0x0891_19a2, 0x2ab3_3bc4],
    [0, TOP, 0, 0],
];

static NEG: [[u64; 4]; 8] = [
    [0, 7, 0, 0],
    [1, 7, 0xffff_ffff_ffff_ffff, 0xffff_ffff],
    [BELOW_MIDDLE, 7, 0xffff_ffff_8000_0001, 0x8000_0001],
    [MIDDLE, 7, 0xffff_ffff_8000_0000, 0x8000_0000],
    [LOW, 7, 0xffff_ffff_0000_0001, 1],
    [BELOW_TOP, 7, 0x8000_0000_0000_0001, 1],
    [TOP, 7, 0x8000_0000_0000_0000, 0],
    [ALL, 7, 1, 1],
];

static MOVSX8: [[u64; 4]; 5] = [
    [7, 127, 127, 127],
    [7, 128, 0xffff_ffff_ffff_ff80, 0xffff_ff80],
    [7, BYTES, 0xffff_ffff_ffff_ff88, 0xffff_ff88],
    [7, 0xffff_ffff_ffff_ff00, 0, 0],
    [7, ALL, 0xffff_ffff_ffff_ffff, 0xffff_ffff],
];

static MOVSX16: [[u64; 4]; 5] = [
    [7, 0x7fff, 0x7fff, 0x7fff],
    [7, 0x8000, 0xffff_ffff_ffff_8000, 0xffff_8000],
    [7, MIXED, 0xffff_ffff_ffff_cdef, 0xffff_cdef],
    [7, 0xffff_ffff_ffff_0001, 1, 1],
    [7, ALL, 0xffff_ffff_ffff_ffff, 0xffff_ffff],
];

static MOVSX32: [[u64; 4]; 5] = [
    [7, BELOW_MIDDLE, 0x7fff_ffff, 0x7fff_ffff],
    [7, MIDDLE, 0xffff_ffff_8000_0000, 0x8000_0000],
    [7, LOW, 0xffff_ffff_ffff_ffff, 0xffff_ffff],
    [7, TOP, 0, 0],
    [7, MIXED, 0xffff_ffff_89ab_cdef, 0x89ab_cdef],
];

static EQ: [[u64; 4]; 8] = [
    [0, 0, 1, 1],
    [1, 0, 0, 0],
    [TOP, BELOW_TOP, 0, 0],
    [BELOW_MIDDLE, MIDDLE, 0, 0],
    [ALL, 1, 0, 0],
    [LOW, ALL, 0, 1],
    [TOP, 0, 0, 1],
    [0x0000_0001_0000_0000, BELOW_MIDDLE, 0, 0],
];

static GT: [[u64; 4]; 8] = [
    [0, 0, 0, 0],
    [1, 0, 1, 1],
    [TOP, BELOW_TOP, 1, 0],
    [BELOW_MIDDLE, MIDDLE, 0, 0],
    [ALL, 1, 1, 1],
    [LOW, ALL, 0, 0],
    [TOP, 0, 1, 0],
    [0x0000_0001_0000_0000, BELOW_MIDDLE, 1, 0],
];

static GE: [[u64; 4]; 8] = [
    [0, 0, 1, 1],
    [1, 0, 1, 1],
    [TOP, BELOW_TOP, 1, 0],
    [BELOW_MIDDLE, MIDDLE, 0, 0],
    [ALL, 1, 1, 1],
    [LOW, ALL, 0, 1],
    [TOP, 0, 1, 1],
    [0x0000_0001_0000_0000, BELOW_MIDDLE, 1, 0],
];

static SET: [[u64; 4]; 8] = [
    [0, 0, 0, 0],
    [1, 0, 0, 0],
    [TOP, BELOW_TOP, 0, 0],
    [BELOW_MIDDLE, MIDDLE, 0, 0],
    [ALL, 1, 1, 1],
    [LOW, ALL, 1, 1],
    [TOP, 0, 0, 0],
    [0x0000_0001_0000_0000, BELOW_MIDDLE, 0, 0],
];

static NE: [[u64; 4]; 8] = [
    [0, 0, 0, 0],
    [1, 0, 1, 1],
    [TOP, BELOW_TOP, 1, 1],
    [BELOW_MIDDLE, MIDDLE, 1, 1],
    [ALL, 1, 1, 1],
    [LOW, ALL, 1, 0],
    [TOP, 0, 1, 0],
    [0x0000_0001_0000_0000, BELOW_MIDDLE, 1, 1],
];

static SGT: [[u64; 4]; 8] = [
    [0, 0, 0, 0],
    [1, 0, 1, 1],
    [TOP, BELOW_TOP, 0, 1],
    [BELOW_MIDDLE, MIDDLE, 0, 1],
    [ALL, 1, 0, 0],
    [LOW, ALL, 1, 0],
    [TOP, 0, 0, 0],
    [0x0000_0001_0000_0000, BELOW_MIDDLE, 1, 0],
];

static SGE: [[u64; 4]; 8] = [
    [0, 0, 1, 1],
    [1, 0, 1, 1],
    [TOP, BELOW_TOP, 0, 1],
    [BELOW_MIDDLE, MIDDLE, 0, 1],
    [ALL, 1, 0, 0],
    [LOW, ALL, 1, 1],
    [TOP, 0, 0, 1],
    [0x0000_0001_0000_0000, BELOW_MIDDLE, 1, 0],
];

static LT: [[u64; 4]; 8] = [
    [0, 0, 0, 0],
    [1, 0, 0, 0],
    [TOP, BELOW_TOP, 0, 1],
    [BELOW_MIDDLE, MIDDLE, 1, 1],
    [ALL, 1, 0, 0],
    [LOW, ALL, 1, 0],
    [TOP, 0, 0, 0],
    [0x0000_0001_0000_0000, BELOW_MIDDLE, 0, 1],
];

static LE: [[u64; 4]; 8] = [
    [0, 0, 1, 1],
    [1, 0, 0, 0],
    [TOP, BELOW_TOP, 0, 1],
    [BELOW_MIDDLE, MIDDLE, 1, 1],
    [ALL, 1, 0, 0],
    [LOW, ALL, 1, 1],
    [TOP, 0, 0, 1],
    [0x0000_0001_0000_0000, BELOW_MIDDLE, 0, 1],
];

static SLT: [[u64; 4]; 8] = [
    [0, 0, 0, 0],
    [1, 0, 0, 0],
    [TOP, BELOW_TOP, 1, 0],
    [BELOW_MIDDLE, MIDDLE, 1, 0],
    [ALL, 1, 1, 1],
    [LOW, ALL, 0, 0],
    [TOP, 0, 1, 0],
    [0x0000_0001_0000_0000, BELOW_MIDDLE, 0, 1],
];

static SLE: [[u64; 4]; 8] = [
    [0, 0, 1, 1],
    [1, 0, 0, 0],
    [TOP, BELOW_TOP, 1, 0],
    [BELOW_MIDDLE, MIDDLE, 1, 0],
    [ALL, 1, 1, 1],
    [LOW, ALL, 0, 1],
    [TOP, 0, 1, 1],
    [0x0000_0001_0000_0000, BELOW_MIDDLE, 0, 1],
];

static KEPT: [[u64; 4]; 4] = [
    [BYTES, 0x7788, 0x5566_7788, 0x1122_3344_5566_7788],
    [0x8000_0000_0000_0001, 1, 1, 0x8000_0000_0000_0001],
    [0xffff_8000, 0x8000, 0xffff_8000, 0xffff_8000],
    [ALL, 0xffff, 0xffff_ffff, 0xffff_ffff_ffff_ffff],
];

static REVERSED: [[u64; 4]; 4] = [
    [BYTES, 0x8877, 0x8877_6655, 0x8877_6655_4433_2211],
    [
        0x8000_0000_0000_0001,
        256,
        0x0100_0000,
        0x0100_0000_0000_0080,
    ],
    [0xffff_8000, 128, 0x0080_ffff, 0x0080_ffff_0000_0000],
    [ALL, 0xffff, 0xffff_ffff, 0xffff_ffff_ffff_ffff],
];
