use super::bounds::{ALL, BELOW_MIDDLE, BELOW_TOP, LOW, MIDDLE, TOP, WIDE, range};
use super::same;
use bpf_words::Condition;
use bpf_words::Condition::{Eq, Ge, Gt, Le, Lt, Ne, Set, Sge, Sgt, Sle, Slt};
use interval::Range;
use range_refine::{refine32, refine64};
use std::process::Abort;

#[test]
fn edges_on_64_bits(rt: HostRuntime) {
    for (condition, taken, a, b, along) in &ON_64_BITS {
        let found = refine64(*condition, *taken, range(*a), range(*b));
        edge(&rt, (*condition, *taken, *a, *b), found, along);
    }
}

#[test]
fn edges_on_32_bits(rt: HostRuntime) {
    for (condition, taken, a, b, along) in &ON_32_BITS {
        let found = refine32(*condition, *taken, range(*a), range(*b));
        edge(&rt, (*condition, *taken, *a, *b), found, along);
    }
}

/// An edge: the condition, whether its jump is taken, and the ranges of its operands.
type Edge = (Condition, bool, [u64; 2], [u64; 2]);

fn edge(rt: &impl Abort, case: Edge, found: Option<(Range, Range)>, along: &Option<[[u64; 2]; 2]>) {
    let wanted = along.map(|[a, b]| (range(a), range(b)));
    same(rt, "along the edge", (case, found), (case, wanted));
}

/// A condition, whether its jump is taken, the ranges of its operands, and the ranges along the edge.
type Row = (Condition, bool, [u64; 2], [u64; 2], Option<[[u64; 2]; 2]>);

// The values of the tables were computed by a Python program.

static ON_64_BITS: [Row; 75] = [
    (Eq, true, [0, ALL], [5, 9], Some([[5, 9], [5, 9]])),
    (Eq, true, [0, 5], [5, ALL], Some([[5, 5], [5, 5]])),
    (Eq, true, [0, 4], [5, 9], None),
    (Eq, true, [5, 9], [0, 4], None),
    (
        Eq,
        true,
        [TOP, TOP],
        [TOP, TOP],
        Some([[TOP, TOP], [TOP, TOP]]),
    ),
    (Eq, true, [0, BELOW_TOP], [TOP, ALL], None),
    (Eq, false, [0, ALL], [0, 0], Some([[1, ALL], [0, 0]])),
    (
        Eq,
        false,
        [0, ALL],
        [ALL, ALL],
        Some([[0, ALL - 1], [ALL, ALL]]),
    ),
    (
        Eq,
        false,
        [WIDE, WIDE],
        [0, WIDE],
        Some([[WIDE, WIDE], [0, LOW]]),
    ),
    (Eq, false, [7, 7], [7, 7], None),
    (Eq, false, [7, 7], [8, 8], Some([[7, 7], [8, 8]])),
    (Ne, true, [0, 1], [0, 0], Some([[1, 1], [0, 0]])),
    (Ne, true, [1, 1], [0, 1], Some([[1, 1], [0, 0]])),
    (Ne, true, [3, 9], [4, 4], Some([[3, 9], [4, 4]])),
    (Ne, true, [3, 9], [3, 9], Some([[3, 9], [3, 9]])),
    (Ne, true, [ALL, ALL], [ALL, ALL], None),
    (
        Ne,
        false,
        [TOP, ALL],
        [0, TOP],
        Some([[TOP, TOP], [TOP, TOP]]),
    ),
    (Ne, false, [1, 1], [2, ALL], None),
    (Gt, true, [0, ALL], [0, ALL], Some([[1, ALL], [0, ALL - 1]])),
    (Gt, true, [0, 5], [5, 9], None),
    (Gt, true, [0, 6], [5, 9], Some([[6, 6], [5, 5]])),
    (Gt, true, [0, ALL], [ALL, ALL], None),
    (Gt, true, [0, 0], [0, ALL], None),
    (Gt, false, [0, ALL], [0, 0], Some([[0, 0], [0, 0]])),
    (Gt, false, [6, 9], [0, 5], None),
    (Gt, false, [5, 9], [0, 5], Some([[5, 5], [5, 5]])),
    (
        Ge,
        true,
        [0, ALL],
        [ALL, ALL],
        Some([[ALL, ALL], [ALL, ALL]]),
    ),
    (Ge, true, [0, 4], [5, 9], None),
    (Ge, true, [0, 5], [5, 9], Some([[5, 5], [5, 5]])),
    (
        Ge,
        true,
        [3, WIDE],
        [WIDE, ALL],
        Some([[WIDE, WIDE], [WIDE, WIDE]]),
    ),
    (
        Ge,
        false,
        [0, ALL],
        [0, ALL],
        Some([[0, ALL - 1], [1, ALL]]),
    ),
    (Ge, false, [0, ALL], [0, 0], None),
    (Ge, false, [5, 9], [0, 6], Some([[5, 5], [6, 6]])),
    (Lt, true, [0, ALL], [0, ALL], Some([[0, ALL - 1], [1, ALL]])),
    (Lt, true, [5, 9], [0, 5], None),
    (
        Lt,
        true,
        [0, ALL],
        [MIDDLE, MIDDLE],
        Some([[0, BELOW_MIDDLE], [MIDDLE, MIDDLE]]),
    ),
    (Lt, false, [0, 4], [5, 9], None),
    (Lt, false, [0, 5], [5, 9], Some([[5, 5], [5, 5]])),
    (Le, true, [5, 9], [0, 5], Some([[5, 5], [5, 5]])),
    (Le, true, [1, ALL], [0, WIDE], Some([[1, WIDE], [1, WIDE]])),
    (
        Le,
        false,
        [0, ALL],
        [LOW, LOW],
        Some([[WIDE, ALL], [LOW, LOW]]),
    ),
    (Le, false, [0, 5], [5, 9], None),
    (
        Sgt,
        true,
        [0, BELOW_TOP],
        [0, BELOW_TOP],
        Some([[1, BELOW_TOP], [0, BELOW_TOP - 1]]),
    ),
    (Sgt, true, [0, TOP], [5, 5], Some([[0, TOP], [5, 5]])),
    (Sgt, true, [0, 5], [5, BELOW_TOP], None),
    (Sgt, true, [ALL, ALL], [0, 0], None),
    (Sgt, true, [0, 0], [ALL, ALL], Some([[0, 0], [ALL, ALL]])),
    (Sgt, true, [TOP, ALL], [0, 0], Some([[TOP, ALL], [0, 0]])),
    (Sgt, false, [0, 0], [ALL, ALL], None),
    (Sgt, false, [BELOW_TOP, BELOW_TOP], [TOP, TOP], None),
    (
        Sgt,
        false,
        [0, 9],
        [4, BELOW_TOP],
        Some([[0, 9], [4, BELOW_TOP]]),
    ),
    (Sge, true, [0, 9], [4, BELOW_TOP], Some([[4, 9], [4, 9]])),
    (Sge, true, [0, 9], [4, TOP], Some([[0, 9], [4, TOP]])),
    (Sge, true, [TOP, TOP], [BELOW_TOP, BELOW_TOP], None),
    (Sge, false, [3, 9], [3, 9], Some([[3, 8], [4, 9]])),
    (Slt, true, [0, BELOW_TOP], [1, 1], Some([[0, 0], [1, 1]])),
    (Slt, true, [0, ALL], [1, 1], Some([[0, ALL], [1, 1]])),
    (
        Slt,
        true,
        [TOP, TOP],
        [BELOW_TOP, BELOW_TOP],
        Some([[TOP, TOP], [BELOW_TOP, BELOW_TOP]]),
    ),
    (
        Slt,
        false,
        [0, BELOW_TOP],
        [BELOW_TOP, BELOW_TOP],
        Some([[BELOW_TOP, BELOW_TOP], [BELOW_TOP, BELOW_TOP]]),
    ),
    (Sle, true, [1, BELOW_TOP], [0, 1], Some([[1, 1], [1, 1]])),
    (Sle, true, [1, ALL], [0, 1], Some([[1, ALL], [0, 1]])),
    (Sle, false, [ALL, ALL], [ALL, ALL], None),
    (Sle, false, [0, 7], [7, TOP], Some([[0, 7], [7, TOP]])),
    (Sle, false, [0, 7], [7, BELOW_TOP], None),
    (Set, true, [0, 0], [0, ALL], None),
    (Set, true, [1, ALL], [0, 0], None),
    (Set, true, [4, 4], [3, 3], None),
    (Set, true, [4, 4], [2, 3], Some([[4, 4], [2, 3]])),
    (Set, true, [6, 6], [3, 3], Some([[6, 6], [3, 3]])),
    (
        Set,
        true,
        [TOP, TOP],
        [ALL, ALL],
        Some([[TOP, TOP], [ALL, ALL]]),
    ),
    (Set, false, [4, 4], [3, 3], Some([[4, 4], [3, 3]])),
    (Set, false, [6, 6], [3, 3], None),
    (
        Set,
        false,
        [0, ALL],
        [ALL, ALL],
        Some([[0, ALL], [ALL, ALL]]),
    ),
    (Set, false, [0, 0], [0, 0], Some([[0, 0], [0, 0]])),
    (
        Set,
        false,
        [ALL, ALL],
        [TOP, ALL],
        Some([[ALL, ALL], [TOP, ALL]]),
    ),
];

static ON_32_BITS: [Row; 55] = [
    (Eq, true, [0, LOW], [5, 9], Some([[5, 9], [5, 9]])),
    (Eq, true, [0, WIDE], [5, 9], Some([[0, WIDE], [5, 9]])),
    (
        Eq,
        true,
        [WIDE + 5, WIDE + 5],
        [5, 5],
        Some([[WIDE + 5, WIDE + 5], [5, 5]]),
    ),
    (Eq, true, [WIDE + 5, WIDE + 5], [WIDE + 6, WIDE + 6], None),
    (Eq, false, [WIDE + 5, WIDE + 5], [5, 5], None),
    (
        Eq,
        false,
        [0, LOW],
        [LOW, LOW],
        Some([[0, LOW - 1], [LOW, LOW]]),
    ),
    (Eq, false, [0, WIDE], [0, 0], Some([[0, WIDE], [0, 0]])),
    (Ne, true, [0, LOW], [0, 0], Some([[1, LOW], [0, 0]])),
    (Ne, true, [WIDE, WIDE], [0, 0], None),
    (
        Ne,
        true,
        [WIDE, ALL],
        [WIDE, WIDE],
        Some([[WIDE, ALL], [WIDE, WIDE]]),
    ),
    (
        Ne,
        false,
        [WIDE, WIDE],
        [0, 0],
        Some([[WIDE, WIDE], [0, 0]]),
    ),
    (Gt, true, [0, LOW], [0, LOW], Some([[1, LOW], [0, LOW - 1]])),
    (Gt, true, [WIDE, WIDE], [0, 0], None),
    (
        Gt,
        true,
        [WIDE, WIDE + 1],
        [0, 0],
        Some([[WIDE, WIDE + 1], [0, 0]]),
    ),
    (Gt, true, [0, 5], [5, LOW], None),
    (Gt, true, [0, 5], [5, WIDE], Some([[0, 5], [5, WIDE]])),
    (
        Gt,
        false,
        [WIDE, WIDE],
        [0, 0],
        Some([[WIDE, WIDE], [0, 0]]),
    ),
    (Gt, false, [6, LOW], [0, 5], None),
    (Ge, true, [0, 9], [4, LOW], Some([[4, 9], [4, 9]])),
    (Ge, true, [0, 9], [4, WIDE], Some([[0, 9], [4, WIDE]])),
    (Ge, false, [MIDDLE, LOW], [MIDDLE, MIDDLE], None),
    (Ge, false, [0, 0], [WIDE, WIDE], None),
    (Lt, true, [0, LOW], [1, 1], Some([[0, 0], [1, 1]])),
    (Lt, true, [0, WIDE], [1, 1], Some([[0, WIDE], [1, 1]])),
    (Lt, true, [WIDE + 1, WIDE + 1], [WIDE + 1, WIDE + 1], None),
    (
        Lt,
        false,
        [LOW, LOW],
        [0, LOW],
        Some([[LOW, LOW], [0, LOW]]),
    ),
    (
        Le,
        true,
        [1, LOW],
        [0, MIDDLE],
        Some([[1, MIDDLE], [1, MIDDLE]]),
    ),
    (Le, true, [1, 1], [WIDE, WIDE], None),
    (
        Le,
        false,
        [0, LOW],
        [BELOW_MIDDLE, BELOW_MIDDLE],
        Some([[MIDDLE, LOW], [BELOW_MIDDLE, BELOW_MIDDLE]]),
    ),
    (
        Le,
        false,
        [WIDE + 2, WIDE + 2],
        [1, 1],
        Some([[WIDE + 2, WIDE + 2], [1, 1]]),
    ),
    (
        Sgt,
        true,
        [0, BELOW_MIDDLE],
        [0, BELOW_MIDDLE],
        Some([[1, BELOW_MIDDLE], [0, BELOW_MIDDLE - 1]]),
    ),
    (Sgt, true, [0, MIDDLE], [5, 5], Some([[0, MIDDLE], [5, 5]])),
    (Sgt, true, [MIDDLE, MIDDLE], [0, 0], None),
    (
        Sgt,
        true,
        [MIDDLE, MIDDLE],
        [BELOW_MIDDLE, BELOW_MIDDLE],
        None,
    ),
    (Sgt, false, [0, 0], [LOW, LOW], None),
    (Sge, true, [0, 9], [4, MIDDLE], Some([[0, 9], [4, MIDDLE]])),
    (
        Sge,
        true,
        [WIDE, WIDE],
        [LOW, LOW],
        Some([[WIDE, WIDE], [LOW, LOW]]),
    ),
    (Sge, false, [LOW, LOW], [0, 0], Some([[LOW, LOW], [0, 0]])),
    (Sge, false, [3, 9], [3, 9], Some([[3, 8], [4, 9]])),
    (Slt, true, [0, BELOW_MIDDLE], [1, 1], Some([[0, 0], [1, 1]])),
    (Slt, true, [0, LOW], [1, 1], Some([[0, LOW], [1, 1]])),
    (
        Slt,
        true,
        [0x1_8000_0000, 0x1_8000_0000],
        [BELOW_MIDDLE, BELOW_MIDDLE],
        Some([[0x1_8000_0000, 0x1_8000_0000], [BELOW_MIDDLE, BELOW_MIDDLE]]),
    ),
    (Slt, false, [MIDDLE, MIDDLE], [0, 0], None),
    (Sle, true, [1, BELOW_MIDDLE], [0, 1], Some([[1, 1], [1, 1]])),
    (Sle, true, [1, WIDE], [0, 1], Some([[1, WIDE], [0, 1]])),
    (Sle, false, [LOW, LOW], [LOW, LOW], None),
    (Sle, false, [0, 7], [7, BELOW_MIDDLE], None),
    (Set, true, [0, 0], [0, LOW], None),
    (Set, true, [0, 0], [0, WIDE], Some([[0, 0], [0, WIDE]])),
    (Set, true, [WIDE, WIDE], [WIDE, WIDE], None),
    (
        Set,
        true,
        [WIDE + 4, WIDE + 4],
        [4, 4],
        Some([[WIDE + 4, WIDE + 4], [4, 4]]),
    ),
    (Set, true, [0, LOW], [0, LOW], Some([[0, LOW], [0, LOW]])),
    (
        Set,
        false,
        [WIDE, WIDE],
        [WIDE, WIDE],
        Some([[WIDE, WIDE], [WIDE, WIDE]]),
    ),
    (Set, false, [WIDE + 4, WIDE + 4], [4, 4], None),
    (Set, false, [MIDDLE, MIDDLE], [LOW, LOW], None),
];
