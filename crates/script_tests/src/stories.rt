//! Scripts, and what they print.

pub(crate) mod additions;
pub(crate) mod beginnings;
pub(crate) mod requests;

/// A script, what it prints, and the line that is said of a fault. A text may have several lines.
#[derive(Clone, Copy)]
pub(crate) struct Story {
    pub(crate) lines: &'static [&'static str],
    pub(crate) prints: &'static [&'static str],
    pub(crate) fault: &'static str,
}

/// The settings of one replica with a table.
pub(crate) const ONE_REPLICA: &str = "window 4\nreplicas 1\ntable 1 8";

/// The settings of two replicas with a table.
pub(crate) const TWO_REPLICAS: &str = "window 4\nreplicas 2\ntable 1 8";

/// The lines that execute the first two calls, and then order both.
pub(crate) const RUN_TWO: &str = "exec 1\nexec 2\norder 1\norder 2";

/// The answers to the beginnings of two calls at one replica.
pub(crate) const BEGUN_AT_ONE: &str = "call 1 replica 1 snapshot 0\ncall 2 replica 1 snapshot 0";

/// The answers to the beginnings of a call at each of two replicas.
pub(crate) const BEGUN_AT_TWO: &str = "call 1 replica 1 snapshot 0\ncall 2 replica 2 snapshot 0";

/// The answers of two calls whose replies are 0.
const EXITED_TWO: &str = "call 1 exit 0\ncall 2 exit 0";

/// The answers to the orders of the first two calls.
pub(crate) const NUMBERED_TWO: &str = "call 1 number 1\ncall 2 number 2";

pub(crate) const ADD_LINE: &str = "proc add 1 16 \
    79160000000000007917080000000000b701000001000000bf62000000000000bfa300000000000007030000f8\
    ffffff850000000100000079a8f8ff000000000f780000000000007b8af8ff00000000b701000001000000bf62\
    000000000000bfa300000000000007030000f8ffffff8500000002000000bf8000000000000095000000000000\
    00";

const SKEW_LINE: &str = "proc skew 2 16 \
    79160000000000007917080000000000b701000001000000bf62000000000000bfa300000000000007030000f8\
    ffffff8500000001000000b701000001000000bf72000000000000bfa300000000000007030000f0ffffff8500\
    0000010000007a0af8ff01000000b701000001000000bf62000000000000bfa300000000000007030000f8ffff\
    ff85000000020000009500000000000000";

pub(crate) const PUT_LINE: &str = "proc put 3 16 \
    791200000000000079140800000000007b4af8ff00000000bfa300000000000007030000f8ffffffb701000001\
    00000085000000020000009500000000000000";

const COUNT_LINE: &str = "proc count 4 24 \
    791610000000000079120000000000007913080000000000b7010000010000008500000004000000bf07000000\
    0000007b7af8ff00000000b701000001000000bf62000000000000bfa300000000000007030000f8ffffff8500\
    000002000000bf700000000000009500000000000000";

const NEXT_LINE: &str = "proc next 5 24 \
    791610000000000079120000000000007913080000000000bfa400000000000007040000f8ffffffbfa5000000\
    00000007050000f0ffffffb7010000010000008500000005000000b701000001000000bf62000000000000bfa3\
    00000000000007030000f0ffffff850000000200000079a0f8ff000000009500000000000000";

const DELETE_LINE: &str = "proc del 6 8 \
    7912000000000000b70100000100000085000000030000009500000000000000";

/// A procedure that puts a row, and cancels.
const CANCEL_LINE: &str = "proc draft 7 16 \
    791200000000000079140800000000007b4af8ff00000000bfa300000000000007030000f8ffffffb701000001\
    0000008500000002000000b70100000900000085000000060000009500000000000000";

const ONE_LINE: &str = "proc one 9 0 b7000000010000009500000000000000";

/// A procedure that jumps over a wide load of two slots, into its middle.
const INTO_LOAD_LINE: &str =
    "proc jump 1 0 0500010000000000180000000100000000000000000000009500000000000000";

const TO_LOAD_LINE: &str =
    "proc jump 1 0 0500000000000000180000000100000000000000000000009500000000000000";

/// A procedure that replies with a register. The register holds a number on one path and a place of the stack on the
/// other.
const JOINED_LINE: &str = "proc join 1 8 \
    7912000000000000b7030000000000001502010000000000bfa3000000000000bf300000000000009500000000\
    000000";

/// A procedure that reads its arguments where the first of them says, up to the last place that has eight bytes.
const INDEX_LINE: &str = "proc index 1 256 \
    791200000000000025020300f80000000f2100000000000079100000000000009500000000000000b700000000\
    0000009500000000000000";

/// A procedure that reads its arguments up to one place more.
const INDEX_PAST_LINE: &str = "proc index 1 256 \
    791200000000000025020300f90000000f2100000000000079100000000000009500000000000000b700000000\
    0000009500000000000000";

/// The line that shows the entry of the first of two increments.
pub(crate) const ADD_ENTRY: &str =
    "entry 1 010000000000000000010000000100100005000000000000000a000000000000000000\
    00000a00000000000000010001050000000000000005000000000000000100010500000000000000\
    010a00000000000000";

/// One increment, of which each line that acts prints a line.
pub(crate) static INCREMENT: Story = Story {
    lines: &[
        ONE_REPLICA,
        ADD_LINE,
        "begin 1 add 05000000000000000a00000000000000",
        "exec 1",
        "order 1",
    ],
    prints: &[
        "call 1 replica 1 snapshot 0",
        "call 1 exit 10",
        "call 1 number 1",
    ],
    fault: "",
};

/// A call that reads nothing and writes nothing.
static READS: Story = Story {
    lines: &[
        ONE_REPLICA,
        ONE_LINE,
        "begin 1 one -",
        "exec 1",
        "exec 1",
        "order 1",
        "order 1",
        "log",
    ],
    prints: &[
        "call 1 replica 1 snapshot 0",
        "call 1 exit 1",
        "call 1 exit 1",
        "call 1 read 0 reply 1",
        "call 1 refused P4",
        "log 0",
    ],
    fault: "",
};

/// A jump into a wide load is no program.
pub(crate) static JUMPS_INTO_A_LOAD: Story = Story {
    lines: &["window 4", INTO_LOAD_LINE, "jump"],
    prints: &[],
    fault: "line 2: L7 B10 slot 0",
};

/// A jump to the first slot of a wide load is a program.
pub(crate) static JUMPS_TO_A_LOAD: Story = Story {
    lines: &[
        "window 4",
        "replicas 8",
        TO_LOAD_LINE,
        "begin 8 jump -",
        "turn 1 2",
        "turn 1 1",
        "order 1",
    ],
    prints: &[
        "call 1 replica 8 snapshot 0",
        "call 1 more",
        "call 1 exit 1",
        "call 1 read 0 reply 1",
    ],
    fault: "",
};

/// A line with a program, alone in its script, and what is said of its fault.
pub(crate) static PROGRAM_LINES: [(&str, &str); 3] = [
    // A register that may hold either of two kinds can't be read.
    (JOINED_LINE, "line 1: L7 V1 slot 4"),
    // Each place inside the arguments may be read, and none beyond.
    (INDEX_LINE, ""),
    (INDEX_PAST_LINE, "line 1: L7 V4 slot 3"),
];

/// Two increments of one row; the second commits when it is called again.
pub(crate) static TWO_INCREMENTS: Story = Story {
    lines: &[
        TWO_REPLICAS,
        ADD_LINE,
        "begin 1 add 05000000000000000a00000000000000",
        "begin 2 add 05000000000000000700000000000000",
        RUN_TWO,
        "deliver 1 2",
        "deliver 2 2",
        "begin 2 add 05000000000000000700000000000000",
        "exec 3",
        "order 3",
        "deliver 2 1",
        "rows 2",
        "entry 1",
        "entry 9",
        "entry 0",
    ],
    prints: &[
        BEGUN_AT_TWO,
        "call 1 exit 10",
        "call 2 exit 7",
        NUMBERED_TWO,
        "replica 1 number 1 commit reply 10",
        "replica 1 number 2 conflict 1",
        "replica 2 number 1 commit reply 10",
        "replica 2 number 2 conflict 1",
        "call 3 replica 2 snapshot 2",
        "call 3 exit 17",
        "call 3 number 3",
        "replica 2 number 3 commit reply 17",
        " 1                    5 1100000000000000",
        "replica 2 position 3 rows 1",
        ADD_ENTRY,
        "entry 9 none",
        "entry 0 none",
    ],
    fault: "",
};

/// Two calls, each of which reads what the other writes.
pub(crate) static SKEWED_WRITES: Story = Story {
    lines: &[
        TWO_REPLICAS,
        SKEW_LINE,
        "begin 1 skew 01000000000000000200000000000000",
        "begin 2 skew 02000000000000000100000000000000",
        RUN_TWO,
        "deliver 1 2",
    ],
    prints: &[
        BEGUN_AT_TWO,
        EXITED_TWO,
        NUMBERED_TWO,
        "replica 1 number 1 commit reply 0",
        "replica 1 number 2 conflict 1",
    ],
    fault: "",
};

/// Two writes of one row that read nothing.
pub(crate) static BLIND_WRITES: Story = Story {
    lines: &[
        TWO_REPLICAS,
        PUT_LINE,
        "begin 1 put 07000000000000000100000000000000",
        "begin 2 put 07000000000000000200000000000000",
        RUN_TWO,
        "deliver 2 9",
        "rows 2",
    ],
    prints: &[
        BEGUN_AT_TWO,
        EXITED_TWO,
        NUMBERED_TWO,
        "replica 2 number 1 commit reply 0",
        "replica 2 number 2 commit reply 0",
        "replica 2 refused P6",
        " 1                    7 0200000000000000",
        "replica 2 position 2 rows 1",
    ],
    fault: "",
};

/// A count and a search beside a row that comes.
static INTERVALS: Story = Story {
    lines: &[
        TWO_REPLICAS,
        PUT_LINE,
        COUNT_LINE,
        NEXT_LINE,
        "begin 1 put 0c000000000000000100000000000000",
        "exec 1",
        "order 1",
        "deliver 1 1",
        "deliver 2 1",
        "begin 1 count 0a0000000000000014000000000000006400000000000000",
        "begin 2 next 0a0000000000000014000000000000006500000000000000",
        "begin 2 put 0f000000000000000900000000000000",
        "exec 2",
        "exec 3",
        "exec 4",
        "order 4",
        "order 2",
        "order 3",
        "deliver 1 3",
        "rows 1",
    ],
    prints: &[
        "call 1 replica 1 snapshot 0",
        "call 1 exit 0",
        "call 1 number 1",
        "replica 1 number 1 commit reply 0",
        "replica 2 number 1 commit reply 0",
        "call 2 replica 1 snapshot 1",
        "call 3 replica 2 snapshot 1",
        "call 4 replica 2 snapshot 1",
        "call 2 exit 1",
        "call 3 exit 12",
        "call 4 exit 0",
        "call 4 number 2",
        "call 2 number 3",
        "call 3 number 4",
        "replica 1 number 2 commit reply 0",
        "replica 1 number 3 conflict 2",
        "replica 1 number 4 commit reply 12",
        " 1                   12 0100000000000000",
        " 1                   15 0900000000000000",
        " 1                  101 0100000000000000",
        "replica 1 position 4 rows 3",
    ],
    fault: "",
};

/// Calls that fall more than the window behind. A call is stale at its first look, taken by turns or to its end. A call
/// that had come to its end before isn't stale, nor is a call that looks at nothing.
static FALLS_BEHIND: Story = Story {
    lines: &[
        "window 2",
        "replicas 1",
        "table 1 8",
        PUT_LINE,
        ADD_LINE,
        "begin 1 put 01000000000000000100000000000000",
        "begin 1 put 02000000000000000200000000000000",
        "begin 1 put 03000000000000000300000000000000",
        "begin 1 put 04000000000000000400000000000000",
        "begin 1 add 09000000000000000100000000000000",
        "begin 1 put 05000000000000000500000000000000",
        "begin 1 add 09000000000000000100000000000000",
        "begin 1 put 06000000000000000600000000000000",
        "exec 6",
        "exec 1",
        "exec 2",
        "exec 3",
        "exec 4",
        "order 1",
        "order 2",
        "order 3",
        "order 4",
        "deliver 1 3",
        "turn 5 1",
        "turn 5 1",
        "turn 5 1",
        "turn 5 1",
        "turn 5 1",
        "turn 5 1",
        "turn 5 1",
        "turn 5 1",
        "turn 6 1",
        "exec 6",
        "turn 7 2",
        "exec 7",
        "exec 7",
        "exec 8",
        "exec 8",
        "deliver 1 1",
    ],
    prints: &[
        BEGUN_AT_ONE,
        "call 3 replica 1 snapshot 0",
        "call 4 replica 1 snapshot 0",
        "call 5 replica 1 snapshot 0",
        "call 6 replica 1 snapshot 0",
        "call 7 replica 1 snapshot 0",
        "call 8 replica 1 snapshot 0",
        "call 6 exit 0",
        EXITED_TWO,
        "call 3 exit 0",
        "call 4 exit 0",
        NUMBERED_TWO,
        "call 3 number 3",
        "call 4 number 4",
        "replica 1 number 1 commit reply 0",
        "replica 1 number 2 commit reply 0",
        "replica 1 number 3 commit reply 0",
        "call 5 more",
        "call 5 more",
        "call 5 more",
        "call 5 more",
        "call 5 more",
        "call 5 more",
        "call 5 stale",
        "call 5 refused P4",
        "call 6 exit 0",
        "call 6 exit 0",
        "call 7 more",
        "call 7 stale",
        "call 7 refused P4",
        "call 8 exit 0",
        "call 8 exit 0",
        "replica 1 number 4 stale",
    ],
    fault: "",
};

/// Keys that share a bit are compared.
pub(crate) static SHARED_BITS: Story = Story {
    lines: &[
        ONE_REPLICA,
        ADD_LINE,
        "begin 1 add 00000000000000000100000000000000",
        "begin 1 add db030000000000000100000000000000",
        RUN_TWO,
        "log",
        "deliver 1 2",
        "log",
    ],
    prints: &[
        BEGUN_AT_ONE,
        "call 1 exit 1",
        "call 2 exit 1",
        NUMBERED_TWO,
        "      1     1       0     1     - open",
        "      2     1       0     1     - open",
        "log 2",
        "replica 1 number 1 commit reply 1",
        "replica 1 number 2 commit reply 1",
        "      1     1       0     1     0 commit",
        "      2     1       0     1     1 commit",
        "log 2",
    ],
    fault: "",
};

/// A look of seventeen keys is compared with all that committed.
pub(crate) static LONG_LOOK: Story = Story {
    lines: &[
        ONE_REPLICA,
        PUT_LINE,
        COUNT_LINE,
        "begin 1 put 01000000000000000100000000000000",
        "begin 1 put 02000000000000000200000000000000",
        "begin 1 count 64000000000000007400000000000000c800000000000000",
        "exec 1",
        "exec 2",
        "exec 3",
        "order 1",
        "order 2",
        "order 3",
        "deliver 1 3",
        "log",
    ],
    prints: &[
        BEGUN_AT_ONE,
        "call 3 replica 1 snapshot 0",
        EXITED_TWO,
        "call 3 exit 0",
        NUMBERED_TWO,
        "call 3 number 3",
        "replica 1 number 1 commit reply 0",
        "replica 1 number 2 commit reply 0",
        "replica 1 number 3 commit reply 0",
        "      1     3       0     1     0 commit",
        "      2     3       0     1     0 commit",
        "      3     4       0     1     2 commit",
        "log 3",
    ],
    fault: "",
};

/// A removal of a row that isn't there is a write of a look.
pub(crate) static REMOVALS: Story = Story {
    lines: &[
        ONE_REPLICA,
        COUNT_LINE,
        DELETE_LINE,
        "begin 1 del 0900000000000000",
        "begin 1 count 000000000000000014000000000000006400000000000000",
        RUN_TWO,
        "deliver 1 2",
        "rows 1",
    ],
    prints: &[
        BEGUN_AT_ONE,
        EXITED_TWO,
        NUMBERED_TWO,
        "replica 1 number 1 commit reply 0",
        "replica 1 number 2 conflict 1",
        "replica 1 position 2 rows 0",
    ],
    fault: "",
};

/// A count from 20 to 10 looks at nothing.
pub(crate) static EMPTY_INTERVAL: Story = Story {
    lines: &[
        ONE_REPLICA,
        PUT_LINE,
        COUNT_LINE,
        "begin 1 put 0f000000000000000900000000000000",
        "begin 1 count 14000000000000000a000000000000006400000000000000",
        RUN_TWO,
        "deliver 1 2",
        "entry 2",
    ],
    prints: &[
        BEGUN_AT_ONE,
        EXITED_TWO,
        NUMBERED_TWO,
        "replica 1 number 1 commit reply 0",
        "replica 1 number 2 commit reply 0",
        "entry 2 010000000000000000020000000400180014000000000000000a0000000000000064000000\
         0000000000000000000000000000000000000100016400000000000000010000000000000000",
    ],
    fault: "",
};

/// A call that puts a row and cancels.
pub(crate) static CANCELS: Story = Story {
    lines: &[
        ONE_REPLICA,
        CANCEL_LINE,
        "begin 1 draft 07000000000000000100000000000000",
        "order 1",
        "exec 1",
        "order 1",
        "log",
        "rows 1",
    ],
    prints: &[
        "call 1 replica 1 snapshot 0",
        "call 1 refused P5",
        "call 1 exit 0",
        "call 1 cancelled 0 code 9",
        "log 0",
        "replica 1 position 0 rows 0",
    ],
    fault: "",
};

/// A replica that is made anew from the log has delivered it.
pub(crate) static REBUILDS: Story = Story {
    lines: &[
        TWO_REPLICAS,
        ADD_LINE,
        "begin 1 add 05000000000000000a00000000000000",
        "exec 1",
        "order 1",
        "log",
        "rows 2",
        "rebuild 2",
        "log",
        "rows 2",
        "deliver 2 1",
        "deliver 1 1",
        "rebuild 0",
    ],
    prints: &[
        "call 1 replica 1 snapshot 0",
        "call 1 exit 10",
        "call 1 number 1",
        "      1     1       0     1     - open",
        "log 1",
        "replica 2 position 0 rows 0",
        "replica 2 rebuilt 1",
        "      1     1       0     1     0 commit",
        "log 1",
        " 1                    5 0a00000000000000",
        "replica 2 position 1 rows 1",
        "replica 2 refused P6",
        "replica 1 number 1 commit reply 10",
        "replica 0 refused P1",
    ],
    fault: "",
};

/// Steps that name no replica, no procedure or no call.
pub(crate) static REFUSED_STEPS: Story = Story {
    lines: &[
        TWO_REPLICAS,
        ADD_LINE,
        "deliver 1 1",
        "deliver 3 5",
        "rows 0",
        "rebuild 3",
        "begin 3 add 05000000000000000a00000000000000",
        "begin 3 none -",
        "begin 1 none -",
        "begin 1  -",
        "begin 1 add -",
        "turn 0 1",
        "exec 1",
        "order 1",
    ],
    prints: &[
        "replica 1 refused P6",
        "replica 3 refused P1",
        "replica 0 refused P1",
        "replica 3 refused P1",
        "begin refused P1",
        "begin refused P1",
        "begin refused P2",
        "begin refused P2",
        "begin refused P3",
        "call 0 refused P4",
        "call 1 refused P4",
        "call 1 refused P4",
    ],
    fault: "",
};

/// A replica that finds no memory for its second entry: it is stopped until it is made anew.
pub(crate) static STOPS: Story = Story {
    lines: &[
        TWO_REPLICAS,
        ADD_LINE,
        PUT_LINE,
        "begin 1 add 05000000000000000a00000000000000",
        "begin 2 put 06000000000000000100000000000000",
        RUN_TWO,
        "deliver 1 2",
        "deliver 2 2",
        "rows 2",
        "deliver 2 1",
        "rebuild 2",
        "begin 2 add 05000000000000000700000000000000",
        "exec 3",
        "order 3",
        "deliver 2 1",
    ],
    prints: &[
        BEGUN_AT_TWO,
        "call 1 exit 10",
        "call 2 exit 0",
        NUMBERED_TWO,
        "replica 1 number 1 commit reply 10",
        "replica 1 number 2 commit reply 0",
        "replica 2 number 1 commit reply 10",
        "replica 2 refused P9",
        " 1                    5 0a00000000000000",
        "replica 2 position 1 rows 1",
        "replica 2 refused P7",
        "replica 2 rebuilt 2",
        "call 3 replica 2 snapshot 2",
        "call 3 exit 17",
        "call 3 number 3",
        "replica 2 number 3 commit reply 17",
    ],
    fault: "",
};

/// Returns the stories of calls.
pub(crate) fn all_stories() -> [&'static Story; 15] {
    [
        &READS,
        &JUMPS_INTO_A_LOAD,
        &JUMPS_TO_A_LOAD,
        &TWO_INCREMENTS,
        &SKEWED_WRITES,
        &BLIND_WRITES,
        &INTERVALS,
        &FALLS_BEHIND,
        &SHARED_BITS,
        &LONG_LOOK,
        &REMOVALS,
        &EMPTY_INTERVAL,
        &CANCELS,
        &REBUILDS,
        &REFUSED_STEPS,
    ]
}
