//! The programs.

use super::{Case, Cause};
use test_programs::{
    ADD, COUNT, DELETE, INDEX, INDEX_TOO_FAR, JUMP_ON, NEXT, ONE, PUT, SKEW, SKIP, STORE_WITHIN,
};

/// Programs that read and write rows.
pub(super) static OF_ROWS: [Case; 10] = [
    Case {
        name: "ADD reads and writes a row of 8 bytes",
        program: ADD,
        args_len: 16,
        tables: &[(1, 8)],
        verdict: "accepted slots 17 bound 17",
    },
    Case {
        name: "ADD reads its second word, where the arguments have 8 bytes",
        program: ADD,
        args_len: 8,
        tables: &[(1, 8)],
        verdict: "V4 slot 1",
    },
    Case {
        name: "ADD has no room for a row of 16 bytes",
        program: ADD,
        args_len: 16,
        tables: &[(1, 16)],
        verdict: "V9 slot 6",
    },
    Case {
        name: "ADD gets a row of a table that the schema doesn't have",
        program: ADD,
        args_len: 16,
        tables: &[(2, 8)],
        verdict: "V7 slot 6",
    },
    Case {
        name: "ADD without its get reads bytes that nothing wrote",
        program: "7916000000000000 7917080000000000 b701000001000000 bf62000000000000 \
            bfa3000000000000 07030000f8ffffff 79a8f8ff00000000 0f78000000000000 \
            7b8af8ff00000000 b701000001000000 bf62000000000000 bfa3000000000000 \
            07030000f8ffffff 8500000002000000 bf80000000000000 9500000000000000",
        args_len: 16,
        tables: &[(1, 8)],
        verdict: "V5 slot 6",
    },
    Case {
        name: "SKEW gets two rows and puts one",
        program: SKEW,
        args_len: 16,
        tables: &[(1, 8)],
        verdict: "accepted slots 19 bound 19",
    },
    Case {
        name: "PUT puts a row",
        program: PUT,
        args_len: 16,
        tables: &[(1, 8)],
        verdict: "accepted slots 8 bound 8",
    },
    Case {
        name: "COUNT counts, and keeps the count over a call",
        program: COUNT,
        args_len: 24,
        tables: &[(1, 8)],
        verdict: "accepted slots 14 bound 14",
    },
    Case {
        name: "NEXT has buffers for a key and a row",
        program: NEXT,
        args_len: 24,
        tables: &[(1, 8)],
        verdict: "accepted slots 16 bound 16",
    },
    Case {
        name: "DELETE removes a row",
        program: DELETE,
        args_len: 8,
        tables: &[(1, 8)],
        verdict: "accepted slots 4 bound 4",
    },
];

/// Jumps, and registers where ways meet.
pub(super) static JUMPS: [Case; 7] = [
    Case {
        name: "ONE needs neither arguments nor tables",
        program: ONE,
        args_len: 0,
        tables: &[],
        verdict: "accepted slots 2 bound 2",
    },
    Case {
        name: "JUMP_ON runs a wide load of two slots in one step",
        program: JUMP_ON,
        args_len: 0,
        tables: &[],
        verdict: "accepted slots 4 bound 3",
    },
    Case {
        name: "a long jump over the reading of r6",
        program: "0600000001000000 bf60000000000000 b700000001000000 9500000000000000",
        args_len: 0,
        tables: &[],
        verdict: "accepted slots 4 bound 3",
    },
    Case {
        name: "r3 holds nothing, since it is a number on one way and a place on the other",
        program: "7912000000000000 b703000000000000 1502010000000000 bfa3000000000000 \
            bf30000000000000 9500000000000000",
        args_len: 8,
        tables: &[],
        verdict: "V1 slot 4",
    },
    Case {
        name: "SKIP doesn't come to what it jumps over",
        program: SKIP,
        args_len: 0,
        tables: &[],
        verdict: "accepted slots 4 bound 4",
    },
    Case {
        name: "a comparison of a register with itself is not decided",
        program: "7910000000000000 5d00010000000000 9500000000000000 bf60000000000000 \
            9500000000000000",
        args_len: 8,
        tables: &[],
        verdict: "V1 slot 3",
    },
    Case {
        name: "a comparison of low halves is decided",
        program: "b4000000ffffffff 16000100ffffffff bf60000000000000 9500000000000000",
        args_len: 0,
        tables: &[],
        verdict: "accepted slots 4 bound 4",
    },
];

/// Loads and stores at places that are not fixed, and bytes of the stack.
pub(super) static PLACES: [Case; 8] = [
    Case {
        name: "INDEX stays within its 256 bytes",
        program: INDEX,
        args_len: 256,
        tables: &[],
        verdict: "accepted slots 7 bound 5",
    },
    Case {
        name: "INDEX_TOO_FAR may read a byte behind its 256",
        program: INDEX_TOO_FAR,
        args_len: 256,
        tables: &[],
        verdict: "V4 slot 3",
    },
    Case {
        name: "INDEX may read a byte behind 255",
        program: INDEX,
        args_len: 255,
        tables: &[],
        verdict: "V4 slot 3",
    },
    Case {
        name: "a store at one of eight places leaves bytes that nothing wrote",
        program: "7112000000000000 5702000007000000 bfa3000000000000 0f23000000000000 \
            7203f8ff01000000 71a0f8ff00000000 9500000000000000",
        args_len: 1,
        tables: &[],
        verdict: "V5 slot 5",
    },
    Case {
        name: "STORE_WITHIN reads what was written before",
        program: STORE_WITHIN,
        args_len: 1,
        tables: &[],
        verdict: "accepted slots 8 bound 8",
    },
    Case {
        name: "a store that may be right behind the stack",
        program: "7112000000000000 5702000008000000 bfa3000000000000 0f23000000000000 \
            7203f8ff01000000 71a0f8ff00000000 9500000000000000",
        args_len: 1,
        tables: &[],
        verdict: "V4 slot 4",
    },
    Case {
        name: "a load of what was written on one way alone",
        program: "7912000000000000 1502010000000000 7a0af8ff00000000 79a0f8ff00000000 \
            9500000000000000",
        args_len: 8,
        tables: &[],
        verdict: "V5 slot 3",
    },
    Case {
        name: "a load of what was written on both ways",
        program: "7912000000000000 1502020000000000 7a0af8ff00000000 0500010000000000 \
            7a0af8ff01000000 79a0f8ff00000000 9500000000000000",
        args_len: 8,
        tables: &[],
        verdict: "accepted slots 7 bound 6",
    },
];

/// Bytes that are no program.
pub(super) static NO_PROGRAMS: [Case; 6] = [
    Case {
        name: "a jump into a wide load",
        program: "0500010000000000 1800000001000000 0000000000000000 9500000000000000",
        args_len: 0,
        tables: &[],
        verdict: "B10 slot 0",
    },
    Case {
        name: "a register that there isn't",
        program: "bf0b000000000000 9500000000000000",
        args_len: 0,
        tables: &[(1, 8)],
        verdict: "B4 slot 0",
    },
    Case {
        name: "a byte swap of 17 bits",
        program: "d400000011000000 9500000000000000",
        args_len: 0,
        tables: &[(1, 8)],
        verdict: "B6 slot 0",
    },
    Case {
        name: "a jump to itself",
        program: "0500ffff00000000 9500000000000000",
        args_len: 0,
        tables: &[(1, 8)],
        verdict: "B8 slot 0",
    },
    Case {
        name: "a jump behind the last slot",
        program: "0500010000000000 9500000000000000",
        args_len: 0,
        tables: &[(1, 8)],
        verdict: "B9 slot 0",
    },
    Case {
        name: "a register that there isn't, behind a jump backwards",
        program: "0500ffff00000000 bf0b000000000000",
        args_len: 0,
        tables: &[(1, 8)],
        verdict: "B4 slot 1",
    },
];

/// A register that holds nothing is read by EXIT, moves, arithmetic and comparisons.
pub(super) static HOLDS_NOTHING: [Cause; 8] = [
    ("9500000000000000", 0, "V1 slot 0"),
    ("bf60000000000000 9500000000000000", 0, "V1 slot 0"),
    ("0700000001000000 9500000000000000", 0, "V1 slot 0"),
    ("8700000000000000 9500000000000000", 0, "V1 slot 0"),
    ("d400000010000000 9500000000000000", 0, "V1 slot 0"),
    ("bf60080000000000 9500000000000000", 0, "V1 slot 0"),
    ("1500000000000000 9500000000000000", 0, "V1 slot 0"),
    ("1d61000000000000 9500000000000000", 0, "V1 slot 0"),
];

/// A register that holds nothing is read by loads, stores and calls, beside other causes, and after a call that took
/// it.
pub(super) static HOLDS_NOTHING_IN_MEMORY: [Cause; 7] = [
    ("7960000000000000 9500000000000000", 0, "V1 slot 0"),
    ("7206000000000000 9500000000000000", 0, "V1 slot 0"),
    ("7b6af8ff00000000 9500000000000000", 0, "V1 slot 0"),
    ("8500000003000000 9500000000000000", 0, "V1 slot 0"),
    ("bf6a000000000000 9500000000000000", 0, "V1 slot 0"),
    ("7b61000000000000 9500000000000000", 0, "V1 slot 0"),
    (
        "b701000009000000 8500000006000000 bf10000000000000 9500000000000000",
        0,
        "V1 slot 2",
    ),
];

/// r10 is written.
pub(super) static STACK_END_WRITTEN: [Cause; 5] = [
    ("b70a000000000000 9500000000000000", 0, "V2 slot 0"),
    (
        "180a000001000000 0000000000000000 9500000000000000",
        0,
        "V2 slot 0",
    ),
    ("79aaf8ff00000000 9500000000000000", 0, "V2 slot 0"),
    ("0f1a000000000000 9500000000000000", 0, "V2 slot 0"),
    (
        "b702000000000000 792a000000000000 9500000000000000",
        0,
        "V2 slot 1",
    ),
];

/// A pointer stands where only a number may.
pub(super) static NOT_A_NUMBER: [Cause; 12] = [
    (
        "bfa0000000000000 4700000001000000 9500000000000000",
        0,
        "V3 slot 1",
    ),
    ("bc10000000000000 9500000000000000", 0, "V3 slot 0"),
    ("bf10080000000000 9500000000000000", 0, "V3 slot 0"),
    ("8701000000000000 9500000000000000", 0, "V3 slot 0"),
    ("d401000010000000 9500000000000000", 0, "V3 slot 0"),
    ("1501000000000000 9500000000000000", 0, "V3 slot 0"),
    (
        "bfa2000000000000 1fa2000000000000 9500000000000000",
        0,
        "V3 slot 1",
    ),
    (
        "b702000000000000 0fa2000000000000 9500000000000000",
        0,
        "V3 slot 1",
    ),
    ("0401000001000000 9500000000000000", 0, "V3 slot 0"),
    ("7b1af8ff00000000 9500000000000000", 0, "V3 slot 0"),
    ("7b1a000000000000 9500000000000000", 0, "V3 slot 0"),
    ("7b11000000000000 9500000000000000", 8, "V3 slot 0"),
];

/// A pointer and how far it may move: 65,536 and no further, and by no number that the arguments give.
pub(super) static TOO_FAR: [Cause; 5] = [
    (
        "bfa1000000000000 0701000000000100 b700000000000000 9500000000000000",
        0,
        "accepted slots 4 bound 4",
    ),
    (
        "bfa1000000000000 0701000001000100 b700000000000000 9500000000000000",
        0,
        "V3 slot 1",
    ),
    (
        "bfa1000000000000 1701000000000100 b700000000000000 9500000000000000",
        0,
        "accepted slots 4 bound 4",
    ),
    (
        "bfa1000000000000 1701000001000100 b700000000000000 9500000000000000",
        0,
        "V3 slot 1",
    ),
    (
        "7912000000000000 bfa3000000000000 0f23000000000000 b700000000000000 \
            9500000000000000",
        8,
        "V3 slot 2",
    ),
];

/// A load or a store at a number, or with a byte outside the arguments or the stack.
pub(super) static OUTSIDE: [Cause; 12] = [
    ("7910000000000000 9500000000000000", 0, "V4 slot 0"),
    ("7910000000000000 9500000000000000", 7, "V4 slot 0"),
    (
        "7910000000000000 9500000000000000",
        8,
        "accepted slots 2 bound 2",
    ),
    ("7910f80000000000 9500000000000000", 255, "V4 slot 0"),
    (
        "7910f80000000000 9500000000000000",
        256,
        "accepted slots 2 bound 2",
    ),
    ("7910ffff00000000 9500000000000000", 256, "V4 slot 0"),
    (
        "b702000000000000 7920000000000000 9500000000000000",
        0,
        "V4 slot 1",
    ),
    (
        "b702000000000000 7202000000000000 9500000000000000",
        0,
        "V4 slot 1",
    ),
    ("79a0000000000000 9500000000000000", 0, "V4 slot 0"),
    (
        "7a0a00fe00000000 b700000000000000 9500000000000000",
        0,
        "accepted slots 3 bound 3",
    ),
    (
        "7a0afffd00000000 b700000000000000 9500000000000000",
        0,
        "V4 slot 0",
    ),
    (
        "7a0af9ff00000000 b700000000000000 9500000000000000",
        0,
        "V4 slot 0",
    ),
];

/// Bytes of the stack that nothing wrote, alone and beside other causes.
pub(super) static NOT_WRITTEN: [Cause; 7] = [
    ("79a0f8ff00000000 9500000000000000", 0, "V5 slot 0"),
    (
        "720af8ff00000000 79a0f8ff00000000 9500000000000000",
        0,
        "V5 slot 1",
    ),
    (
        "b701000001000000 b702000000000000 bfa3000000000000 07030000f8ffffff \
            8500000002000000 9500000000000000",
        0,
        "V5 slot 4",
    ),
    (
        "b701000001000000 bfa2000000000000 bfa3000000000000 07030000f8ffffff \
            8500000002000000 9500000000000000",
        0,
        "V5 slot 4",
    ),
    (
        "b701000002000000 b702000000000000 bfa3000000000000 07030000f8ffffff \
            8500000002000000 9500000000000000",
        0,
        "V7 slot 4",
    ),
    (
        "b701000001000000 bfa2000000000000 bfa3000000000000 8500000002000000 \
            9500000000000000",
        0,
        "V8 slot 3",
    ),
    (
        "b701000001000000 b702000000000000 bfa3000000000000 07030000f8ffffff \
            8500000001000000 79a0f8ff00000000 9500000000000000",
        0,
        "accepted slots 7 bound 7",
    ),
];

/// A helper that doesn't exist, and a table that isn't one of the schema.
pub(super) static HELPERS_AND_TABLES: [Cause; 8] = [
    ("8500000007000000 9500000000000000", 0, "V6 slot 0"),
    ("8500000000000000 9500000000000000", 0, "V6 slot 0"),
    ("85000000ffffffff 9500000000000000", 0, "V6 slot 0"),
    (
        "b701000002000000 b702000000000000 8500000003000000 9500000000000000",
        0,
        "V7 slot 2",
    ),
    (
        "b702000000000000 8500000003000000 9500000000000000",
        0,
        "V7 slot 1",
    ),
    (
        "7911000000000000 b702000000000000 8500000003000000 9500000000000000",
        8,
        "V7 slot 2",
    ),
    (
        "b701000002000000 bfa2000000000000 8500000003000000 9500000000000000",
        0,
        "V7 slot 2",
    ),
    (
        "b701000001010000 b702000000000000 8500000003000000 9500000000000000",
        0,
        "V7 slot 2",
    ),
];

/// A key or a code that is a pointer, and a buffer that isn't at one place within the stack.
pub(super) static KEYS_AND_BUFFERS: [Cause; 8] = [
    (
        "b701000001000000 bfa2000000000000 8500000003000000 9500000000000000",
        0,
        "V8 slot 2",
    ),
    (
        "b701000001000000 b702000000000000 bfa3000000000000 8500000004000000 \
            9500000000000000",
        0,
        "V8 slot 3",
    ),
    (
        "b701000001000000 bfa2000000000000 b703000000000000 8500000001000000 \
            9500000000000000",
        0,
        "V8 slot 3",
    ),
    ("8500000006000000 9500000000000000", 0, "V8 slot 0"),
    (
        "b701000001000000 b702000000000000 b703000000000000 8500000001000000 \
            9500000000000000",
        0,
        "V9 slot 3",
    ),
    (
        "b701000001000000 b702000000000000 bfa3000000000000 07030000f9ffffff \
            8500000001000000 9500000000000000",
        0,
        "V9 slot 4",
    ),
    (
        "b701000001000000 b702000000000000 b703000000000000 bfa4000000000000 \
            07040000f9ffffff bfa5000000000000 07050000f8ffffff 8500000005000000 \
            9500000000000000",
        0,
        "V9 slot 7",
    ),
    (
        "7112000000000000 5702000007000000 bfa3000000000000 0f23000000000000 \
            07030000e8ffffff b701000001000000 8500000001000000 9500000000000000",
        1,
        "V9 slot 6",
    ),
];

/// A reply that is a pointer, and a store to the arguments.
pub(super) static REPLIES_AND_ARGUMENTS: [Cause; 5] = [
    ("bfa0000000000000 9500000000000000", 0, "V10 slot 1"),
    ("bf10000000000000 9500000000000000", 0, "V10 slot 1"),
    ("7201000000000000 9500000000000000", 8, "V11 slot 0"),
    (
        "b702000000000000 7b21000000000000 9500000000000000",
        8,
        "V11 slot 1",
    ),
    ("7201080000000000 9500000000000000", 8, "V11 slot 0"),
];

/// Several causes at one instruction or at two: the lowest slot is given, and there the lowest number.
pub(super) static LOWEST: [Cause; 7] = [
    (
        "bfa0000000000000 4700000001000000 b70a000000000000 9500000000000000",
        0,
        "V3 slot 1",
    ),
    ("0f61000000000000 9500000000000000", 0, "V1 slot 0"),
    (
        "b702000000000000 7b62000000000000 9500000000000000",
        0,
        "V1 slot 1",
    ),
    (
        "b701000001000000 bfa3000000000000 07030000f8ffffff 8500000002000000 \
            9500000000000000",
        0,
        "V1 slot 3",
    ),
    (
        "b701000001000000 8500000003000000 9500000000000000",
        0,
        "V1 slot 1",
    ),
    (
        "b701000001000000 b702000000000000 8500000001000000 9500000000000000",
        0,
        "V1 slot 2",
    ),
    (
        "b701000002000000 b702000000000000 b703000000000000 b704000000000000 \
            bfa5000000000000 07050000f8ffffff 8500000005000000 9500000000000000",
        0,
        "V7 slot 6",
    ),
];
