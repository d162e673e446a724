//! Runs of the programs that the verifier accepts, and what comes of them.

use crate::alone::{JUMP_ON, ONE};
use crate::rows::{ADD, COUNT, DELETE, NEXT, PUT, PUT_AND_CANCEL, PUT_AND_GET, SKEW};

/// A program, its arguments, the rows before the run, what comes of it, and the rows after it. What comes of a run is
/// the reply and the number of instructions, then the looks, the writes and the cancel code.
pub type RunCase = [&'static str; 5];

/// Runs over table 1, whose rows have eight bytes. A row before a run is `TABLE:KEY=VALUE`, and a row after the run
/// has its bytes in hex.
pub static RUNS: [RunCase; 12] = [
    [ONE, "", "", "1 in 2", ""],
    // A wide load is one instruction.
    [JUMP_ON, "", "", "1 in 3", ""],
    [DELETE, "9", "", "0 in 4 remove 1:9", ""],
    // A call that cancelled has no writes, and the rows stay as they were.
    [PUT_AND_CANCEL, "7 2", "", "0 in 10 cancelled 9", ""],
    [
        ADD,
        "5 10",
        "",
        "10 in 17 look 1:5-5 put 1:5=0a00000000000000",
        "1:5=0a00000000000000",
    ],
    [
        ADD,
        "5 7",
        "1:5=10",
        "17 in 17 look 1:5-5 put 1:5=1100000000000000",
        "1:5=1100000000000000",
    ],
    [
        SKEW,
        "1 2",
        "",
        "0 in 19 look 1:1-1 look 1:2-2 put 1:1=0100000000000000",
        "1:1=0100000000000000",
    ],
    [
        PUT,
        "7 2",
        "1:7=1",
        "0 in 8 put 1:7=0200000000000000",
        "1:7=0200000000000000",
    ],
    [
        COUNT,
        "10 20 100",
        "1:12=1",
        "1 in 14 look 1:10-20 put 1:100=0100000000000000",
        "1:12=0100000000000000 1:100=0100000000000000",
    ],
    // An empty range looks at nothing.
    [
        COUNT,
        "20 10 100",
        "1:15=9",
        "0 in 14 put 1:100=0000000000000000",
        "1:15=0900000000000000 1:100=0000000000000000",
    ],
    // The row that was found ends the look.
    [
        NEXT,
        "10 20 101",
        "1:12=1 1:15=9",
        "12 in 16 look 1:10-12 put 1:101=0100000000000000",
        "1:12=0100000000000000 1:15=0900000000000000 1:101=0100000000000000",
    ],
    // A get of a key that was put or removed before is no look.
    [
        PUT_AND_GET,
        "",
        "1:5=1",
        "3 in 13 put 1:5=0300000000000000",
        "1:5=0300000000000000",
    ],
];
