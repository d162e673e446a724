//! Scripts that add procedures.

use crate::stories::Story;

/// A procedure is added and called, where it was delivered; its name and its number are taken from then on.
pub(crate) static ADDED: Story = Story {
    lines: &[
        "window 4",
        "replicas 2",
        "add one 9 0 b7000000010000009500000000000000",
        "begin 1 one -",
        "log",
        "deliver 1 1",
        "begin 1 one -",
        "begin 2 one -",
        "exec 1",
        "order 1",
        "add one 10 0 b7000000010000009500000000000000",
        "deliver 1 1",
        "log",
        "add two 9 0 b7000000010000009500000000000000",
        "add one 9 0 b7000000010000009500000000000000",
        "deliver 1 9",
        "rebuild 2",
        "begin 2 one -",
        "begin 2 two -",
        "entry 1",
    ],
    prints: &[
        "add number 1",
        "begin refused P2",
        "      1     9       -     0     - open",
        "log 1",
        "replica 1 number 1 added 9",
        "call 1 replica 1 snapshot 1",
        "begin refused P2",
        "call 1 exit 1",
        "call 1 read 1 reply 1",
        "add number 2",
        "replica 1 number 2 taken C1",
        "      1     9       -     0     0 added",
        "      2    10       -     0     0 taken C1",
        "log 2",
        "add number 3",
        "add number 4",
        "replica 1 number 3 taken C2",
        "replica 1 number 4 taken C1",
        "replica 1 refused P6",
        "replica 2 rebuilt 4",
        "call 2 replica 2 snapshot 4",
        "begin refused P2",
        "entry 1 0209000000036f6e6510000000b7000000010000009500000000000000",
    ],
    fault: "",
};

/// A procedure that isn't added leaves the log as it was. Settings don't stand behind an addition.
static NOT_ADDED: Story = Story {
    lines: &[
        "window 4",
        "replicas 2",
        "add one 9 0 -",
        "add a-b 9 0 9500000000000000",
        "add a-b 9 0 b7000000010000009500000000000000",
        "add  9 0 b7000000010000009500000000000000",
        "log",
        "proc one 9 0 b7000000010000009500000000000000",
    ],
    prints: &[
        "add refused P11 B1 slot 0",
        "add refused P11 V1 slot 0",
        "add refused P12",
        "add refused P12",
        "log 0",
    ],
    fault: "line 8: L5",
};

/// Returns the stories of additions.
pub(crate) fn of_additions() -> [&'static Story; 2] {
    [&ADDED, &NOT_ADDED]
}
