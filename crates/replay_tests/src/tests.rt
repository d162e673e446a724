ghost use Rattle.std.specs.Prelude.{◌<◌, ◌^◌, length};

use log_model::{Identifier, RequestId, Verdict, given_request};
use plain_replayer::{
    CompletedReplay, ItemReport, PlainCall, PlainItem, PlainItemKind, replay_log,
};
use plain_runner::{Row, Write};
use scarce::Scarce;
use schema::Look;
use std::alloc::Global;
use std::fmt::Write as _;
use std::process::Abort;
use test_programs::{ONE, PUT, args_of, procedure_of, setting_of};

mod drawn;

/// An item of a log.
enum ItemCase {
    /// A procedure's number, its arguments, and a snapshot.
    Call(u16, &'static [u64], u32),
    /// The same parts, and a session and a sequence number.
    Numbered(u16, &'static [u64], u32, u32, u32),
    /// An addition's name and number, its program, and the number of words that the program takes.
    Addition(&'static str, u16, &'static str, usize),
}

fn call_of(
    rt: &impl Abort,
    alloc: Global,
    procedure: u16,
    words: &[u64],
    snapshot: u32,
    request: Option<RequestId>,
) -> PlainItem {
    let args = args_of(alloc, words).expect(rt, "memory");
    PlainItem {
        kind: PlainItemKind::Call(PlainCall::new(0, procedure, args, snapshot, request)),
    }
}

fn addition_of(
    rt: &impl Abort,
    alloc: Global,
    name: &str,
    number: u16,
    program: &str,
    words: usize,
) -> PlainItem {
    let procedure = procedure_of(alloc, name.as_bytes(), number, program, words).expect(
        rt, "memory",
    );
    PlainItem {
        kind: PlainItemKind::Addition(procedure),
    }
}

fn item_of(rt: &impl Abort, alloc: Global, item: &ItemCase) -> PlainItem {
    let (mut session, mut sequence) = (0, 0);
    let (procedure, words, snapshot) = match item {
        ItemCase::Addition(name, number, program, words) => {
            return addition_of(rt, alloc, name, *number, program, *words);
        }
        ItemCase::Call(procedure, words, snapshot) => (procedure, words, snapshot),
        ItemCase::Numbered(procedure, words, snapshot, first, second) => {
            (session, sequence) = (*first, *second);
            (procedure, words, snapshot)
        }
    };
    let request = given_request(session, sequence);
    call_of(rt, alloc, *procedure, words, *snapshot, request)
}

/// The items in order.
fn log_of(rt: &impl Abort, alloc: Global, items: &[ItemCase]) -> Vec<PlainItem> {
    let mut log = Vec::new(alloc);
    for item in items {
        log.push(item_of(rt, alloc, item)).expect(rt, "memory");
    }
    log
}

/// The log, which is short in these tests.
fn short(log: &[PlainItem]) -> &[PlainItem]
    ensures { length result.now < 2 ^ 32 }
{
    if log.len() < 10_000 { log } else { &[] }
}

fn append_verdict(rt: &impl Abort, text: &mut String, verdict: Verdict) {
    match verdict {
        Verdict::Commit => write!(text, " commit").expect(rt, "memory"),
        Verdict::Conflict(position) => write!(text, " conflict {position}").expect(rt, "memory"),
        Verdict::Stale => write!(text, " stale").expect(rt, "memory"),
        Verdict::Repeated(position) => write!(text, " repeat {position}").expect(rt, "memory"),
        Verdict::Taken(Identifier::Name) => write!(text, " taken name").expect(rt, "memory"),
        Verdict::Taken(Identifier::Number) => write!(text, " taken number").expect(rt, "memory"),
    }
}

/// Appends the reply that is told, and the items with which the verdict compared.
fn append_told(rt: &impl Abort, text: &mut String, report: &ItemReport) {
    if let Some(reply) = report.told_reply() {
        write!(text, " told {reply}").expect(rt, "memory");
    }
    for position in report.comparisons() {
        write!(text, " compared {position}").expect(rt, "memory");
    }
}

/// Returns what a replay says of an item, in a line. The line has the reply of its run, its verdict, the reply that is
/// told, and the items with which it was compared.
fn described(rt: &impl Abort, alloc: Global, report: &ItemReport) -> String {
    let mut text = format!(in alloc; "{}", report.reply()).expect(rt, "memory");
    append_verdict(rt, &mut text, report.verdict());
    append_told(rt, &mut text, report);
    text
}

/// The rows after a position, each as table, key and bytes in hex.
fn rows_text(rt: &impl Abort, alloc: Global, rows: &[Row]) -> String {
    let mut text = String::new(alloc);
    for row in rows {
        let hex = hex::encode(alloc, row.bytes()).expect(rt, "memory");
        write!(text, " {}:{}={hex}", row.table(), row.key()).expect(rt, "memory");
    }
    text
}

/// Appends what a run wrote.
fn append_write(rt: &impl Abort, alloc: Global, text: &mut String, write: &Write) {
    write!(text, " {}:{}", write.table(), write.key()).expect(rt, "memory");
    if let Some(bytes) = write.bytes() {
        let hex = hex::encode(alloc, bytes).expect(rt, "memory");
        write!(text, "={hex}").expect(rt, "memory");
    }
}

/// A run in a line: its reply, what it looked at, and what it wrote.
fn run_text(
    rt: &impl Abort,
    alloc: Global,
    reply: u64,
    looks: &[Look],
    writes: &[Write],
) -> String {
    let mut text = format!(in alloc; "{reply}").expect(rt, "memory");
    for look in looks {
        write!(text, " look {}:{}-{}", look.table, look.lo, look.hi).expect(rt, "memory");
    }
    for write in writes {
        append_write(rt, alloc, &mut text, write);
    }
    text
}

/// A window and items, and what is said of each; the rows at the end.
struct LogCase {
    window: u32,
    items: &'static [ItemCase],
    said: &'static [&'static str],
    rows: &'static str,
}

static LOGS: [LogCase; 21] = [
    LogCase {
        window: 4,
        items: &[
            ItemCase::Call(1, &[5, 10], 0),
            ItemCase::Call(1, &[5, 7], 0),
            ItemCase::Call(1, &[5, 7], 2),
        ],
        said: &[
            "10 commit told 10",
            "7 conflict 1 compared 1",
            "17 commit told 17",
        ],
        rows: " 1:5=1100000000000000",
    },
    // The least of those that conflict, with which the comparisons end.
    LogCase {
        window: 4,
        items: &[
            ItemCase::Call(3, &[6, 1], 0),
            ItemCase::Call(3, &[5, 1], 0),
            ItemCase::Call(3, &[5, 2], 0),
            ItemCase::Call(1, &[5, 7], 0),
        ],
        said: &[
            "0 commit told 0",
            "0 commit told 0",
            "0 commit told 0",
            "7 conflict 2 compared 2",
        ],
        rows: " 1:5=0200000000000000 1:6=0100000000000000",
    },
    LogCase {
        window: 4,
        items: &[ItemCase::Call(2, &[1, 2], 0), ItemCase::Call(2, &[2, 1], 0)],
        said: &["0 commit told 0", "0 conflict 1 compared 1"],
        rows: " 1:1=0100000000000000",
    },
    LogCase {
        window: 4,
        items: &[ItemCase::Call(3, &[7, 1], 0), ItemCase::Call(3, &[7, 2], 0)],
        said: &["0 commit told 0", "0 commit told 0"],
        rows: " 1:7=0200000000000000",
    },
    LogCase {
        window: 4,
        items: &[
            ItemCase::Call(3, &[12, 1], 0),
            ItemCase::Call(3, &[15, 9], 1),
            ItemCase::Call(4, &[10, 20, 100], 1),
            ItemCase::Call(5, &[10, 20, 101], 1),
        ],
        said: &[
            "0 commit told 0",
            "0 commit told 0",
            "1 conflict 2 compared 2",
            "12 commit told 12",
        ],
        rows: " 1:12=0100000000000000 1:15=0900000000000000 1:101=0100000000000000",
    },
    LogCase {
        window: 2,
        items: &[
            ItemCase::Call(3, &[1, 1], 0),
            ItemCase::Call(3, &[2, 1], 0),
            ItemCase::Call(3, &[3, 1], 0),
            ItemCase::Call(4, &[1, 2, 4], 0),
        ],
        said: &[
            "0 commit told 0",
            "0 commit told 0",
            "0 commit told 0",
            "0 stale",
        ],
        rows: " 1:1=0100000000000000 1:2=0100000000000000 1:3=0100000000000000",
    },
    // Two keys of one bit.
    LogCase {
        window: 4,
        items: &[
            ItemCase::Call(1, &[0, 1], 0),
            ItemCase::Call(1, &[987, 1], 0),
        ],
        said: &["1 commit told 1", "1 commit told 1 compared 1"],
        rows: " 1:0=0100000000000000 1:987=0100000000000000",
    },
    // A removal counts as a write, and a range without keys as no look.
    LogCase {
        window: 4,
        items: &[
            ItemCase::Call(6, &[9], 0),
            ItemCase::Call(4, &[0, 20, 100], 0),
            ItemCase::Call(3, &[15, 9], 2),
            ItemCase::Call(4, &[20, 10, 100], 2),
            ItemCase::Call(6, &[15], 4),
        ],
        said: &[
            "0 commit told 0",
            "0 conflict 1 compared 1",
            "0 commit told 0",
            "0 commit told 0",
            "0 commit told 0",
        ],
        rows: " 1:100=0000000000000000",
    },
    // A look of 17 keys sets every bit.
    LogCase {
        window: 4,
        items: &[
            ItemCase::Call(3, &[1, 1], 0),
            ItemCase::Call(3, &[2, 2], 0),
            ItemCase::Call(4, &[100, 116, 200], 0),
        ],
        said: &[
            "0 commit told 0",
            "0 commit told 0",
            "0 commit told 0 compared 1 compared 2",
        ],
        rows: " 1:1=0100000000000000 1:2=0200000000000000 1:200=0000000000000000",
    },
    // A look of 16 keys sets theirs: key 1102 has the bit of key 115, and keys 1 and 2 have the bit of none.
    LogCase {
        window: 4,
        items: &[
            ItemCase::Call(3, &[1, 1], 0),
            ItemCase::Call(3, &[2, 2], 0),
            ItemCase::Call(3, &[1102, 3], 0),
            ItemCase::Call(4, &[100, 115, 200], 0),
        ],
        said: &[
            "0 commit told 0",
            "0 commit told 0",
            "0 commit told 0",
            "0 commit told 0 compared 3",
        ],
        rows: " 1:1=0100000000000000 1:2=0200000000000000 1:200=0000000000000000 1:1102=0300000000000000",
    },
    // A call of no procedure does nothing.
    LogCase {
        window: 4,
        items: &[ItemCase::Call(3, &[7, 1], 0), ItemCase::Call(7, &[7, 2], 0)],
        said: &["0 commit told 0", "0 commit told 0"],
        rows: " 1:7=0100000000000000",
    },
    // The first of a name is added. A call finds it from the next position on; what is taken isn't there.
    LogCase {
        window: 4,
        items: &[
            ItemCase::Addition("one", 9, ONE, 0),
            ItemCase::Addition("one", 10, ONE, 0),
            ItemCase::Call(9, &[], 1),
            ItemCase::Call(9, &[], 0),
            ItemCase::Call(10, &[], 2),
        ],
        said: &[
            "0 commit",
            "0 taken name",
            "1 commit told 1",
            "0 commit told 0",
            "0 commit told 0",
        ],
        rows: "",
    },
    // A number is taken by the catalogue and by what was added; where both are, by different procedures too, the
    // name counts. What a refused addition asked for is still free.
    LogCase {
        window: 4,
        items: &[
            ItemCase::Addition("two", 3, ONE, 0),
            ItemCase::Addition("two", 9, ONE, 0),
            ItemCase::Addition("three", 9, ONE, 0),
            ItemCase::Addition("3", 3, ONE, 0),
            ItemCase::Addition("3", 10, ONE, 0),
            ItemCase::Addition("two", 3, ONE, 0),
            ItemCase::Addition("three", 10, ONE, 0),
        ],
        said: &[
            "0 taken number",
            "0 commit",
            "0 taken number",
            "0 taken name",
            "0 taken name",
            "0 taken name",
            "0 commit",
        ],
        rows: "",
    },
    // An added procedure writes as any other, and is never compared itself.
    LogCase {
        window: 4,
        items: &[
            ItemCase::Addition("set", 7, PUT, 2),
            ItemCase::Call(7, &[5, 1], 1),
            ItemCase::Call(7, &[6, 1], 0),
            ItemCase::Call(1, &[5, 7], 1),
            ItemCase::Call(1, &[5, 7], 4),
        ],
        said: &[
            "0 commit",
            "0 commit told 0",
            "0 commit told 0",
            "7 conflict 2 compared 2",
            "8 commit told 8",
        ],
        rows: " 1:5=0800000000000000",
    },
    // Additions count among the positions of the window, refused ones too.
    LogCase {
        window: 2,
        items: &[
            ItemCase::Call(3, &[1, 1], 0),
            ItemCase::Addition("one", 9, ONE, 0),
            ItemCase::Addition("one", 9, ONE, 0),
            ItemCase::Call(3, &[2, 1], 1),
            ItemCase::Call(3, &[3, 1], 1),
        ],
        said: &[
            "0 commit told 0",
            "0 commit",
            "0 taken name",
            "0 commit told 0",
            "0 stale",
        ],
        rows: " 1:1=0100000000000000 1:2=0100000000000000",
    },
    // A call that is sent again is repeated, and isn't compared; the next request commits.
    LogCase {
        window: 4,
        items: &[
            ItemCase::Numbered(1, &[5, 10], 0, 7, 1),
            ItemCase::Numbered(1, &[5, 10], 0, 7, 1),
            ItemCase::Numbered(1, &[5, 10], 2, 7, 2),
        ],
        said: &[
            "10 commit told 10",
            "10 repeat 1 told 10",
            "20 commit told 20",
        ],
        rows: " 1:5=1400000000000000",
    },
    // The reply of the first is told, whatever the copy would have replied, and whatever it calls.
    LogCase {
        window: 4,
        items: &[
            ItemCase::Numbered(1, &[5, 10], 0, 7, 1),
            ItemCase::Numbered(1, &[5, 10], 1, 7, 1),
            ItemCase::Numbered(3, &[6, 1], 2, 7, 1),
        ],
        said: &[
            "10 commit told 10",
            "20 repeat 1 told 10",
            "0 repeat 1 told 10",
        ],
        rows: " 1:5=0a00000000000000",
    },
    // However long ago: not stale.
    LogCase {
        window: 1,
        items: &[
            ItemCase::Numbered(1, &[5, 10], 0, 7, 1),
            ItemCase::Call(3, &[6, 1], 1),
            ItemCase::Call(3, &[7, 1], 2),
            ItemCase::Numbered(1, &[5, 10], 0, 7, 1),
        ],
        said: &[
            "10 commit told 10",
            "0 commit told 0",
            "0 commit told 0",
            "10 repeat 1 told 10",
        ],
        rows: " 1:5=0a00000000000000 1:6=0100000000000000 1:7=0100000000000000",
    },
    // The request is free after a conflict.
    LogCase {
        window: 4,
        items: &[
            ItemCase::Call(1, &[5, 10], 0),
            ItemCase::Numbered(1, &[5, 7], 0, 7, 1),
            ItemCase::Numbered(1, &[5, 7], 2, 7, 1),
            ItemCase::Numbered(1, &[5, 7], 0, 7, 1),
        ],
        said: &[
            "10 commit told 10",
            "7 conflict 1 compared 1",
            "17 commit told 17",
            "7 repeat 3 told 17",
        ],
        rows: " 1:5=1100000000000000",
    },
    // The request is free where the call was stale.
    LogCase {
        window: 1,
        items: &[
            ItemCase::Call(3, &[1, 1], 0),
            ItemCase::Call(3, &[2, 1], 1),
            ItemCase::Numbered(1, &[3, 5], 0, 7, 1),
            ItemCase::Numbered(1, &[3, 5], 2, 7, 1),
            ItemCase::Numbered(1, &[3, 5], 0, 7, 1),
        ],
        said: &[
            "0 commit told 0",
            "0 commit told 0",
            "5 stale",
            "5 commit told 5",
            "5 repeat 4 told 5",
        ],
        rows: " 1:1=0100000000000000 1:2=0100000000000000 1:3=0500000000000000",
    },
    // Requests differ in the session or in the sequence number.
    LogCase {
        window: 4,
        items: &[
            ItemCase::Numbered(3, &[1, 1], 0, 7, 1),
            ItemCase::Numbered(3, &[2, 1], 0, 7, 2),
            ItemCase::Numbered(3, &[3, 1], 0, 1, 7),
            ItemCase::Numbered(3, &[4, 1], 0, 7, 2),
        ],
        said: &[
            "0 commit told 0",
            "0 commit told 0",
            "0 commit told 0",
            "0 repeat 2 told 0",
        ],
        rows: " 1:1=0100000000000000 1:2=0100000000000000 1:3=0100000000000000",
    },
];

/// Returns what a replay says of the items of a case, and then the rows.
fn said_of(rt: &impl Abort, alloc: Global, case: &LogCase) -> String {
    let log = log_of(rt, alloc, case.items);
    let replay = replay_log(
        alloc,
        &setting_of(alloc, case.window).expect(rt, "memory"),
        short(&log),
    )
    .expect(rt, "memory");
    let mut text = String::new(alloc);
    for report in replay.reports() {
        let line = described(rt, alloc, report);
        write!(text, "{line}\n").expect(rt, "memory");
    }
    let rows = rows_text(rt, alloc, replay.rows(log.len()).unwrap_or(&[]));
    write!(text, "{rows}").expect(rt, "memory");
    text
}

/// Returns what is expected of a case.
fn expected(rt: &impl Abort, alloc: Global, case: &LogCase) -> String {
    let mut text = String::new(alloc);
    for line in case.said {
        write!(text, "{line}\n").expect(rt, "memory");
    }
    write!(text, "{}", case.rows).expect(rt, "memory");
    text
}

#[test]
fn logs_come_to_what_is_expected(rt: HostRuntime) {
    let alloc = rt.alloc();
    for case in &LOGS {
        let found = said_of(&rt, alloc, case);
        assert_eq!(rt; found.as_str(), expected(&rt, alloc, case).as_str());
    }
}

/// A log in which each kind of item takes memory.
static REFUSED: [ItemCase; 5] = [
    ItemCase::Numbered(1, &[5, 10], 0, 7, 1),
    ItemCase::Call(4, &[5, 7, 6], 0),
    ItemCase::Addition("set", 7, PUT, 2),
    ItemCase::Numbered(7, &[5, 1], 3, 7, 1),
    ItemCase::Call(6, &[5], 1),
];

#[test]
fn refused_growths_end_a_replay(rt: HostRuntime) {
    let alloc = rt.alloc();
    let log = log_of(&rt, alloc, &REFUSED);
    let setting = setting_of(alloc, 4).expect(&rt, "memory");
    let scarce = Scarce::new(alloc);
    let failed = scarce.refuse_each(|| replay_log(&scarce, &setting, short(&log)).is_ok());
    assert!(rt; failed.is_some_and(|count| count > 0));
}
