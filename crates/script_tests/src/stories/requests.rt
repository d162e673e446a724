//! Scripts whose callers ask again.

use crate::stories::{
    ADD_LINE, BEGUN_AT_ONE, BEGUN_AT_TWO, NUMBERED_TWO, ONE_REPLICA, PUT_LINE, RUN_TWO, Story,
    TWO_REPLICAS,
};

/// A call that was sent twice commits once.
pub(crate) static SENT_TWICE: Story = Story {
    lines: &[
        TWO_REPLICAS,
        ADD_LINE,
        "begin 1 add 05000000000000000a00000000000000 7 1",
        "begin 2 add 05000000000000000a00000000000000 7 1",
        RUN_TWO,
        "deliver 1 2",
        "begin 1 add 05000000000000000a00000000000000 7 2",
        "exec 3",
        "order 3",
        "deliver 1 1",
        "log",
        "entry 3",
    ],
    prints: &[
        BEGUN_AT_TWO,
        "call 1 exit 10",
        "call 2 exit 10",
        NUMBERED_TWO,
        "replica 1 number 1 commit reply 10",
        "replica 1 number 2 repeat 1 reply 10",
        "call 3 replica 1 snapshot 2",
        "call 3 exit 20",
        "call 3 number 3",
        "replica 1 number 3 commit reply 20",
        "      1     1       0     1     0 commit",
        "      2     1       0     1     0 repeat 1",
        "      3     1       2     1     0 commit",
        "log 3",
        "entry 3 010700000002000000030000000100100005000000000000000a00000000000000020000001400\
            0000000000000100010500000000000000050000000000000001000105000000000000000114000000\
            00000000",
    ],
    fault: "",
};

/// A copy that is past the window is still known.
static SENT_AGAIN_LATE: Story = Story {
    lines: &[
        "window 1",
        "replicas 1",
        "table 1 8",
        ADD_LINE,
        PUT_LINE,
        "begin 1 add 05000000000000000a00000000000000 7 1",
        "begin 1 add 05000000000000000a00000000000000 7 1",
        "exec 1",
        "exec 2",
        "order 1",
        "begin 1 put 06000000000000000100000000000000",
        "begin 1 put 07000000000000000100000000000000",
        "exec 3",
        "exec 4",
        "order 3",
        "order 4",
        "order 2",
        "deliver 1 4",
    ],
    prints: &[
        BEGUN_AT_ONE,
        "call 1 exit 10",
        "call 2 exit 10",
        "call 1 number 1",
        "call 3 replica 1 snapshot 0",
        "call 4 replica 1 snapshot 0",
        "call 3 exit 0",
        "call 4 exit 0",
        "call 3 number 2",
        "call 4 number 3",
        "call 2 number 4",
        "replica 1 number 1 commit reply 10",
        "replica 1 number 2 commit reply 0",
        "replica 1 number 3 stale",
        "replica 1 number 4 repeat 1 reply 10",
    ],
    fault: "",
};

/// The reply that is told is the first call's, whatever the second called and replied.
static TOLD_AGAIN: Story = Story {
    lines: &[
        ONE_REPLICA,
        ADD_LINE,
        PUT_LINE,
        "begin 1 add 05000000000000000a00000000000000 7 1",
        "exec 1",
        "order 1",
        "deliver 1 1",
        "begin 1 add 05000000000000000a00000000000000 7 1",
        "exec 2",
        "order 2",
        "deliver 1 1",
        "begin 1 put 06000000000000000100000000000000 7 1",
        "exec 3",
        "order 3",
        "deliver 1 1",
        "rows 1",
    ],
    prints: &[
        "call 1 replica 1 snapshot 0",
        "call 1 exit 10",
        "call 1 number 1",
        "replica 1 number 1 commit reply 10",
        "call 2 replica 1 snapshot 1",
        "call 2 exit 20",
        "call 2 number 2",
        "replica 1 number 2 repeat 1 reply 10",
        "call 3 replica 1 snapshot 2",
        "call 3 exit 0",
        "call 3 number 3",
        "replica 1 number 3 repeat 1 reply 10",
        " 1                    5 0a00000000000000",
        "replica 1 position 3 rows 1",
    ],
    fault: "",
};

/// A procedure that puts a value where there is none, and replies with what then stands there.
const CLAIM_LINE: &str = "proc claim 8 16 \
    79160000000000007917080000000000b701000001000000bf62000000000000bfa300000000000007030000f8\
    ffffff850000000100000055000600000000007b7af8ff00000000b701000001000000bf62000000000000bfa3\
    00000000000007030000f8ffffff850000000200000079a0f8ff000000009500000000000000";

/// A call that writes nothing when it is asked again is answered by what it reads. A request of a call that was refused
/// may be used again.
static ASKED_AGAIN: Story = Story {
    lines: &[
        ONE_REPLICA,
        ADD_LINE,
        CLAIM_LINE,
        "begin 1 claim 06000000000000000500000000000000 7 1",
        "exec 1",
        "order 1",
        "deliver 1 1",
        "begin 1 claim 06000000000000000900000000000000 7 1",
        "exec 2",
        "order 2",
        "begin 1 add 06000000000000000100000000000000 7 2",
        "begin 1 add 06000000000000000100000000000000 7 3",
        "exec 3",
        "exec 4",
        "order 3",
        "order 4",
        "deliver 1 2",
        "begin 1 add 06000000000000000100000000000000 7 3",
        "exec 5",
        "order 5",
        "deliver 1 1",
    ],
    prints: &[
        "call 1 replica 1 snapshot 0",
        "call 1 exit 5",
        "call 1 number 1",
        "replica 1 number 1 commit reply 5",
        "call 2 replica 1 snapshot 1",
        "call 2 exit 5",
        "call 2 read 1 reply 5",
        "call 3 replica 1 snapshot 1",
        "call 4 replica 1 snapshot 1",
        "call 3 exit 6",
        "call 4 exit 6",
        "call 3 number 2",
        "call 4 number 3",
        "replica 1 number 2 commit reply 6",
        "replica 1 number 3 conflict 2",
        "call 5 replica 1 snapshot 3",
        "call 5 exit 7",
        "call 5 number 4",
        "replica 1 number 4 commit reply 7",
    ],
    fault: "",
};

/// Returns the stories of requests.
pub(crate) fn of_requests() -> [&'static Story; 4] {
    [&SENT_TWICE, &SENT_AGAIN_LATE, &TOLD_AGAIN, &ASKED_AGAIN]
}
