//! The questions to sites, and the answers.

/// Settings, lines of the input, and the lines that are answered.
#[derive(Clone, Copy)]
pub(crate) struct Story {
    pub(crate) settings: &'static [&'static str],
    pub(crate) lines: &'static [&'static str],
    pub(crate) answers: &'static [&'static str],
}

/// A procedure that adds to a row, and replies with the sum.
const ADD: &str = "proc add 1 16 \
    79160000000000007917080000000000b701000001000000bf62000000000000bfa300000000000007030000f8\
    ffffff850000000100000079a8f8ff000000000f780000000000007b8af8ff00000000b701000001000000bf62\
    000000000000bfa300000000000007030000f8ffffff8500000002000000bf8000000000000095000000000000\
    00";

/// A procedure that puts 0 where there is no row, and else cancels with 1.
const CLAIM: &str = "proc claim 2 8 \
    7916000000000000b701000001000000bf62000000000000bfa300000000000007030000f8ffffff8500000001\
    0000001500020000000000b7010000010000008500000006000000b701000001000000bf62000000000000bfa3\
    00000000000007030000f8ffffff8500000002000000b7000000000000009500000000000000";

/// A procedure that cancels with 9.
const NO: &str = "proc no 3 0 b70100000900000085000000060000009500000000000000";

/// A procedure that replies 2.
const TWO: &str = "proc two 4 0 b7000000020000009500000000000000";

/// A window of 4, table 1 with rows of eight bytes, and these procedures.
pub(crate) const SETTINGS: [&str; 7] = ["window 4", "table 1 8", "additions", ADD, CLAIM, NO, TWO];

/// The same settings without additions.
const FIXED: [&str; 6] = ["window 4", "table 1 8", ADD, CLAIM, NO, TWO];

pub(crate) const CALL: &str = "call add 05000000000000000a00000000000000 7 1";

/// The answer to that call at position 0: 84 bytes.
pub(crate) const SUBMITTED: &str = "submit 0107000000010000000000000001001000\
    05000000000000000a00000000000000000000000a000000000000000100010500000000000000050000000000\
    0000010001050000000000000001\
    0a00000000000000";

pub(crate) const ENTRY: &str = "entry 0107000000010000000000000001001000\
    05000000000000000a00000000000000000000000a000000000000000100010500000000000000050000000000\
    0000010001050000000000000001\
    0a00000000000000";

/// The bytes of that answer and of that entry.
pub(crate) const CALL_BYTES: [u8; 84] = [
    1, 7, 0, 0, 0, 1, 0, 0, 0, 0, 0, 0, 0, 1, 0, 16, 0, 5, 0, 0, 0, 0, 0, 0, 0, 10, 0, 0, 0, 0, 0,
    0, 0, 0, 0, 0, 0, 10, 0, 0, 0, 0, 0, 0, 0, 1, 0, 1, 5, 0, 0, 0, 0, 0, 0, 0, 5, 0, 0, 0, 0, 0,
    0, 0, 1, 0, 1, 5, 0, 0, 0, 0, 0, 0, 0, 1, 10, 0, 0, 0, 0, 0, 0, 0,
];

/// An addition of 7 to the same row at position 0, by request 8 1.
const SEVEN_ENTRY: &str = "entry 0108000000010000000000000001001000\
    0500000000000000070000000000000000000000070000000000000001000105000000000000000500000000\
    00000001000105000000000000000107\
    00000000000000";

const COMMITTED: &str = "entry 1 commit reply 10 session 7 seq 1";

/// A call commits once, whatever it is asked for.
const ONCE: Story = Story {
    settings: &SETTINGS,
    lines: &[
        CALL,
        ENTRY,
        ENTRY,
        CALL,
        "call add 09000000000000000900000000000000 7 1",
        "rows",
    ],
    answers: &[
        SUBMITTED,
        COMMITTED,
        "entry 2 repeat 1 reply 10 session 7 seq 1",
        "repeat 1 reply 10",
        "repeat 1 reply 10",
        " 1                    5 0a00000000000000",
        "position 2 rows 1",
    ],
};

/// Two calls of one row, of which this site has run the second. The second conflicts.
const CONFLICT: Story = Story {
    settings: &SETTINGS,
    lines: &[
        "call add 05000000000000000700000000000000 8 1",
        ENTRY,
        SEVEN_ENTRY,
        "rows",
    ],
    answers: &[
        "submit 0108000000010000000000000001001000\
        0500000000000000070000000000000000000000070000000000000001000105000000000000000500000000\
        00000001000105000000000000000107\
        00000000000000",
        COMMITTED,
        "entry 2 conflict 1 session 8 seq 1",
        " 1                    5 0a00000000000000",
        "position 2 rows 1",
    ],
};

/// The same two calls at the site that has run the first.
const CONFLICT_ELSEWHERE: Story = Story {
    settings: &SETTINGS,
    lines: &[CALL, ENTRY, SEVEN_ENTRY, "rows"],
    answers: &[
        SUBMITTED,
        COMMITTED,
        "entry 2 conflict 1 session 8 seq 1",
        " 1                    5 0a00000000000000",
        "position 2 rows 1",
    ],
};

/// A procedure is added, and called. Once more its name is taken, and with another name its number.
const ADDED: Story = Story {
    settings: &SETTINGS,
    lines: &[
        "add one 9 0 b7000000010000009500000000000000",
        "entry 0209000000036f6e6510000000b7000000010000009500000000000000",
        "call one - 0 0",
        "entry 0208000000036f6e6510000000b7000000010000009500000000000000",
        "entry 02090000000474776f3210000000b7000000010000009500000000000000",
    ],
    answers: &[
        "submit 0209000000036f6e6510000000b7000000010000009500000000000000",
        "entry 1 added 9",
        "read 1 reply 1",
        "entry 2 taken C1",
        "entry 3 taken C2",
    ],
};

/// An addition is refused where the settings lack additions.
const NOT_ADDED: Story = Story {
    settings: &FIXED,
    lines: &[
        "add one 9 0 b7000000010000009500000000000000",
        "entry 0209000000036f6e6510000000b7000000010000009500000000000000",
        "call one - 0 0",
    ],
    answers: &["refused P14", "entry 1 nothing E2", "refused P2"],
};

/// A call that would cancel now is told what it replied when it committed.
const CLAIMED: Story = Story {
    settings: &SETTINGS,
    lines: &[
        "call claim 0500000000000000 7 1",
        "entry 01070000000100000000000000020008000500000000000000000000000000000000000000010001050000\
        000000000005000000000000000100010500000000000000010000000000000000",
        "call claim 0500000000000000 7 1",
        "call claim 0500000000000000 7 2",
    ],
    answers: &[
        "submit 0107000000010000000000000002000800050000000000000000000000000000000000000001000105\
        0000000000000005000000000000000100010500000000000000010000000000000000",
        "entry 1 commit reply 0 session 7 seq 1",
        "repeat 1 reply 0",
        "cancelled 1 code 1",
    ],
};

/// A byte string that is nothing counts: behind five such strings a call of position 0 is stale.
const STALE: Story = Story {
    settings: &SETTINGS,
    lines: &[
        "entry -", "entry 00", "entry 03", "entry ff", "entry 01", ENTRY, "position",
    ],
    answers: &[
        "entry 1 nothing E1",
        "entry 2 nothing E1",
        "entry 3 nothing E1",
        "entry 4 nothing E1",
        "entry 5 nothing E1",
        "entry 6 stale session 7 seq 1",
        "position 6",
    ],
};

/// A scan gives the rows from the least key to the greatest, both included, and no more than it asks for.
const SCANNED: Story = Story {
    settings: &FIXED,
    lines: &[
        "entry 010000000000000000000000000100100005000000000000000a0000000000000000000000\
        0a00000000000000010001050000000000000005000000000000000100010500000000000000010a\
        00000000000000",
        "entry 01000000000000000000000000010010000700000000000000030000000000000000000000\
        03000000000000000100010700000000000000070000000000000001000107000000000000000103\
        00000000000000",
        "entry 0100000000000000000000000001001000ffffffffffffffff020000000000000000000000\
        0200000000000000010001ffffffffffffffffffffffffffffffff010001ffffffffffffffff0102\
        00000000000000",
        "scan 1 0 9 10",
        "scan 1 0 9 1",
        "scan 1 5 7 9",
        "scan 1 6 6 9",
        "scan 1 9 0 9",
        "scan 1 7 18446744073709551615 4294967295",
        "scan 1 18446744073709551615 18446744073709551615 1",
        "scan 2 0 9 10",
        "scan 0 0 9 10",
        "scan 255 0 9 10",
    ],
    answers: &[
        "entry 1 commit reply 10",
        "entry 2 commit reply 3",
        "entry 3 commit reply 2",
        " 1                    5 0a00000000000000",
        " 1                    7 0300000000000000",
        "position 3 rows 2",
        " 1                    5 0a00000000000000",
        "position 3 rows 1",
        " 1                    5 0a00000000000000",
        " 1                    7 0300000000000000",
        "position 3 rows 2",
        "position 3 rows 0",
        "position 3 rows 0",
        " 1                    7 0300000000000000",
        " 1 18446744073709551615 0200000000000000",
        "position 3 rows 2",
        " 1 18446744073709551615 0200000000000000",
        "position 3 rows 1",
        "refused P16",
        "refused P16",
        "refused P16",
    ],
};

/// A row that two calls have added to.
const SCANNED_AGAIN: Story = Story {
    settings: &FIXED,
    lines: &[
        "entry 01010000000300000000000000010010000500000000000000140000000000000000000000\
        14000000000000000100010500000000000000050000000000000001000105000000000000000114\
        00000000000000",
        "entry 01010000000400000000000000010010000500000000000000010000000000000001000000\
        15000000000000000100010500000000000000050000000000000001000105000000000000000115\
        00000000000000",
        "scan 1 0 9 10",
    ],
    answers: &[
        "entry 1 commit reply 20 session 1 seq 3",
        "entry 2 commit reply 21 session 1 seq 4",
        " 1                    5 1500000000000000",
        "position 2 rows 1",
    ],
};

/// A dump gives the settings of a database that goes on. The tables stand in the order of the settings, and a session
/// that has done nothing has no reply.
const DUMPED: Story = Story {
    settings: &[
        "window 4",
        "table 2 4",
        "table 1 8",
        "origin 5 3",
        "request 1 2 7 1 AB",
        "request 3 0 9 4 CD",
        "row 1 5 0A00000000000000",
        TWO,
        "row 2 9 01020304",
        "additions",
    ],
    lines: &["dump", "entry 000200000000000000000000000000000000", "dump"],
    answers: &[
        "window 4",
        "table 2 4",
        "table 1 8",
        "additions",
        "origin 5 3",
        TWO,
        "row 1 5 0a00000000000000",
        "row 2 9 01020304",
        "request 1 2 7 1 ab",
        "request 3 0 0 0 -",
        "position 0 lines 10",
        "entry 1 session 4",
        "window 4",
        "table 2 4",
        "table 1 8",
        "additions",
        "origin 6 4",
        TWO,
        "row 1 5 0a00000000000000",
        "row 2 9 01020304",
        "request 1 2 7 1 ab",
        "request 3 0 0 0 -",
        "request 4 0 0 0 -",
        "position 1 lines 11",
    ],
};

/// Without an origin a dump tells of each session that has a last request.
const DUMPED_FIXED: Story = Story {
    settings: &[
        "window 4",
        "table 1 8",
        ADD,
        "request 3 0 9 4 CD",
        "request 7 2 8 1 -",
    ],
    lines: &[ENTRY, "dump"],
    answers: &[
        COMMITTED,
        "window 4",
        "table 1 8",
        ADD,
        "row 1 5 0a00000000000000",
        "request 3 0 9 4 cd",
        "request 7 2 8 1 -",
        "position 1 lines 6",
    ],
};

/// Faulty lines are answered, and change nothing. Lines that say nothing aren't answered.
const FAULTY: Story = Story {
    settings: &SETTINGS,
    lines: &[
        "",
        "# a comment",
        "#\t",
        "jump",
        " position",
        "position ",
        "rows 1",
        "entry",
        "entry 0",
        "entry zz",
        "entry 00 00",
        "call add 00 1",
        "call add 0 1 1",
        "call add 00 4294967296 1",
        "add one 9 257 00",
        "add one 65536 0 00",
        "position",
    ],
    answers: &[
        "fault L1",
        "fault L2",
        "fault L2",
        "fault L3",
        "fault L3",
        "fault L3",
        "fault L4",
        "fault L4",
        "fault L3",
        "fault L3",
        "fault L4",
        "fault L4",
        "fault L4",
        "fault L4",
        "position 0",
    ],
};

/// Stories of a site.
pub(crate) fn all_stories() -> [Story; 12] {
    [
        ONCE,
        CONFLICT,
        CONFLICT_ELSEWHERE,
        ADDED,
        NOT_ADDED,
        CLAIMED,
        STALE,
        SCANNED,
        SCANNED_AGAIN,
        DUMPED,
        DUMPED_FIXED,
        FAULTY,
    ]
}

/// A line, the first that a site is asked, and its answer.
pub(crate) const FIRST_LINES: [(&str, &str); 28] = [
    (CALL, SUBMITTED),
    ("call two - 0 0", "read 0 reply 2"),
    ("call no - 0 0", "cancelled 0 code 9"),
    ("call none - 0 0", "refused P2"),
    ("call two 00 0 0", "refused P3"),
    ("call two - 1 0", "refused P13"),
    ("call two - 0 1", "refused P13"),
    ("call none 00 0 1", "refused P2"),
    ("call two 00 0 1", "refused P3"),
    (
        "add one 9 0 b7000000010000009500000000000000",
        "submit 0209000000036f6e6510000000b7000000010000009500000000000000",
    ),
    ("add one 9 0 9500000000000000", "refused P11 V1 slot 0"),
    ("add one 9 0 -", "refused P11 B1 slot 0"),
    ("add one! 9 0 9500000000000000", "refused P11 V1 slot 0"),
    (
        "add one! 9 0 b7000000010000009500000000000000",
        "refused P12",
    ),
    (ENTRY, COMMITTED),
    (
        "entry 0209000000036f6e6510000000b7000000010000009500000000000000",
        "entry 1 added 9",
    ),
    (
        "entry 02090000000361646410000000b7000000010000009500000000000000",
        "entry 1 taken C1",
    ),
    (
        "entry 0201000000036f6e6510000000b7000000010000009500000000000000",
        "entry 1 taken C2",
    ),
    ("entry -", "entry 1 nothing E1"),
    (
        "entry 0209000000036f6e65080000009500000000000000",
        "entry 1 nothing E2",
    ),
    (
        "entry 0209000000036f6e2110000000b7000000010000009500000000000000",
        "entry 1 nothing E2",
    ),
    (
        "entry 0100000000000000000000000063000000000000000200000000000000",
        "entry 1 nothing E4",
    ),
    (
        "entry 0100000000000000000000000004000000000000000200000000000000",
        "entry 1 nothing E5",
    ),
    ("rows", "position 0 rows 0"),
    ("scan 1 0 9 1", "position 0 rows 0"),
    ("scan 9 0 9 1", "refused P16"),
    ("position", "position 0"),
    ("jump", "fault L2"),
];
