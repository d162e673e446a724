//! Scripts whose databases begin with rows, and with requests that were done before.

use crate::stories::{ADD_LINE, ONE_REPLICA, Story};

/// A call goes on from a row that was there at first.
static GOES_ON: Story = Story {
    lines: &[
        ONE_REPLICA,
        ADD_LINE,
        "row 1 5 0a00000000000000",
        "begin 1 add 05000000000000000700000000000000",
        "exec 1",
        "order 1",
        "deliver 1 1",
        "rows 1",
        "rebuild 1",
        "rows 1",
    ],
    prints: &[
        "call 1 replica 1 snapshot 0",
        "call 1 exit 17",
        "call 1 number 1",
        "replica 1 number 1 commit reply 17",
        " 1                    5 1100000000000000",
        "replica 1 position 1 rows 1",
        "replica 1 rebuilt 1",
        " 1                    5 1100000000000000",
        "replica 1 position 1 rows 1",
    ],
    fault: "",
};

/// Each replica has the rows, in the order of tables and keys, before anything is delivered.
static ROWS_OF_EACH: Story = Story {
    lines: &[
        "window 4",
        "table 2 1",
        "table 1 2",
        "row 1 0 0001",
        "replicas 2",
        "row 1 18446744073709551615 0203",
        "row 2 3 04",
        "rows 2",
        "rows 1",
    ],
    prints: &[
        " 1                    0 0001",
        " 1 18446744073709551615 0203",
        " 2                    3 04",
        "replica 2 position 0 rows 3",
        " 1                    0 0001",
        " 1 18446744073709551615 0203",
        " 2                    3 04",
        "replica 1 position 0 rows 3",
    ],
    fault: "",
};

/// A call whose request was done before the log is told the reply of then, and leaves the rows.
static DONE_BEFORE: Story = Story {
    lines: &[
        ONE_REPLICA,
        ADD_LINE,
        "request 7 1 10 1 05000000000000000a00000000000000",
        "begin 1 add 05000000000000000a00000000000000 7 1",
        "exec 1",
        "order 1",
        "deliver 1 1",
        "rows 1",
        "begin 1 add 05000000000000000a00000000000000 7 2",
        "exec 2",
        "order 2",
        "deliver 1 1",
        "rebuild 1",
        "log",
    ],
    prints: &[
        "call 1 replica 1 snapshot 0",
        "call 1 exit 10",
        "call 1 number 1",
        "replica 1 number 1 repeat 0 reply 10",
        "replica 1 position 1 rows 0",
        "call 2 replica 1 snapshot 1",
        "call 2 exit 10",
        "call 2 number 2",
        "replica 1 number 2 commit reply 10",
        "replica 1 rebuilt 2",
        "      1     1       0     1     0 repeat 0",
        "      2     1       1     1     0 commit",
        "log 2",
    ],
    fault: "",
};

/// Lines, and the fault of the last of them.
pub(crate) static FAULTS_AT_FIRST: [(&[&str], &str); 15] = [
    (
        &[
            ONE_REPLICA,
            ADD_LINE,
            "row 1 5 0a00000000000000",
            "row 1 5 0a00000000000000",
        ],
        "line 6: L10 D3",
    ),
    (
        &[
            ONE_REPLICA,
            ADD_LINE,
            "row 1 6 0a00000000000000",
            "row 1 5 0a00000000000000",
        ],
        "line 6: L10 D3",
    ),
    (&[ONE_REPLICA, ADD_LINE, "row 2 5 0a"], "line 5: L10 D1"),
    (&[ONE_REPLICA, ADD_LINE, "row 1 5 0a"], "line 5: L10 D2"),
    (&[ONE_REPLICA, ADD_LINE, "row 1 5 -"], "line 5: L10 D2"),
    (&[ONE_REPLICA, ADD_LINE, "row 1 5"], "line 5: L3"),
    (&[ONE_REPLICA, ADD_LINE, "row 256 5 0a"], "line 5: L4"),
    (
        &[
            ONE_REPLICA,
            ADD_LINE,
            "row 1 18446744073709551616 0a00000000000000",
        ],
        "line 5: L4",
    ),
    (
        &[
            ONE_REPLICA,
            ADD_LINE,
            "row 1 5 0a00000000000000",
            "table 2 8",
        ],
        "line 6: L5",
    ),
    (
        &[ONE_REPLICA, ADD_LINE, "request 7 1 10 1 -", "table 2 8"],
        "line 6: L5",
    ),
    (
        &[
            ONE_REPLICA,
            ADD_LINE,
            "request 7 1 10 1 -",
            "request 7 2 10 1 -",
        ],
        "line 6: L11 Q1",
    ),
    (
        &[
            ONE_REPLICA,
            ADD_LINE,
            "request 7 1 10 1 -",
            "request 6 1 10 1 -",
        ],
        "line 6: L11 Q1",
    ),
    (&[ONE_REPLICA, ADD_LINE, "request 0 1 10 1 -"], "line 5: L4"),
    (
        &[ONE_REPLICA, ADD_LINE, "request 7 1 10 65536 -"],
        "line 5: L4",
    ),
    (&[ONE_REPLICA, ADD_LINE, "request 7 1 10 1"], "line 5: L3"),
];

/// Returns the stories of what databases begin with.
pub(crate) fn of_beginnings() -> [&'static Story; 3] {
    [&GOES_ON, &ROWS_OF_EACH, &DONE_BEFORE]
}
