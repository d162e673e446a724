use bpf_bytes::{DecodeCause, DecodeFault};
use bpf_verify::Cause;
use dsm_model::{Outcome, StepRefusal};
use log_model::{CallRefusal, Identifier, Verdict};
use node_calls::Answer;
use program_checks::ProgramFault;
use report::{
    CallReport, DeliveredEntry, Line, LoggedEntry, ReplicaReport, add_line, call_line, line,
};
use scarce::Scarce;
use std::alloc::Global;
use std::process::Abort;
use tallies::Counts;

/// Lines, and the printed text of each.
type Printed = (Line<'static>, &'static str);

static CALLS: [Printed; 12] = [
    (
        Line::Begun {
            call: 3,
            replica: 2,
            snapshot: 2,
        },
        "call 3 replica 2 snapshot 2\n",
    ),
    (
        Line::BeginRefused(StepRefusal::NoProcedure),
        "begin refused P2\n",
    ),
    (
        Line::BeginRefused(StepRefusal::ZeroInRequest),
        "begin refused P13\n",
    ),
    (
        Line::Call {
            call: 1,
            report: CallReport::More,
        },
        "call 1 more\n",
    ),
    (
        Line::Call {
            call: 1,
            report: CallReport::Exit {
                reply: 18446744073709551615,
            },
        },
        "call 1 exit 18446744073709551615\n",
    ),
    (
        Line::Call {
            call: 1,
            report: CallReport::Stale,
        },
        "call 1 stale\n",
    ),
    (
        Line::Call {
            call: 1,
            report: CallReport::NoMemory,
        },
        "call 1 no memory\n",
    ),
    (
        Line::Call {
            call: 2,
            report: CallReport::Ordered { position: 2 },
        },
        "call 2 number 2\n",
    ),
    (
        Line::Call {
            call: 1,
            report: CallReport::Read {
                snapshot: 0,
                reply: 1,
            },
        },
        "call 1 read 0 reply 1\n",
    ),
    (
        Line::Call {
            call: 1,
            report: CallReport::Cancelled {
                snapshot: 0,
                code: 9,
            },
        },
        "call 1 cancelled 0 code 9\n",
    ),
    (
        Line::Call {
            call: 1,
            report: CallReport::Refused(StepRefusal::NotAtExit),
        },
        "call 1 refused P5\n",
    ),
    (
        Line::Call {
            call: 1,
            report: CallReport::Refused(StepRefusal::TooManyCalls),
        },
        "call 1 refused P10\n",
    ),
];

static REPLICAS: [Printed; 5] = [
    (
        Line::Replica {
            replica: 2,
            report: ReplicaReport::Rebuilt { position: 2 },
        },
        "replica 2 rebuilt 2\n",
    ),
    (
        Line::Replica {
            replica: 2,
            report: ReplicaReport::Rows {
                position: 3,
                rows: 1,
            },
        },
        "replica 2 position 3 rows 1\n",
    ),
    (
        Line::Replica {
            replica: 1,
            report: ReplicaReport::Refused(StepRefusal::NothingToDeliver),
        },
        "replica 1 refused P6\n",
    ),
    (
        Line::Row {
            table: 1,
            key: 5,
            bytes: &[0x11, 0, 0, 0, 0, 0, 0, 0xfa],
        },
        " 1                    5 11000000000000fa\n",
    ),
    (
        Line::Row {
            table: 64,
            key: 18446744073709551615,
            bytes: &[0],
        },
        "64 18446744073709551615 00\n",
    ),
];

/// A call with one write of procedure 1 at snapshot 0: its position, what it was compared with, its verdict, and the
/// reply that is told. The texts are those that are printed where replica 1 delivers it and where the log is.
type Certified = (u32, u64, Verdict, Option<u64>, &'static str, &'static str);

static CALLS_OF_THE_LOG: [Certified; 4] = [
    (
        1,
        0,
        Verdict::Commit,
        Some(10),
        "replica 1 number 1 commit reply 10\n",
        "      1     1       0     1     0 commit\n",
    ),
    (
        2,
        1,
        Verdict::Conflict(1),
        None,
        "replica 1 number 2 conflict 1\n",
        "      2     1       0     1     1 conflict 1\n",
    ),
    (
        4,
        0,
        Verdict::Stale,
        None,
        "replica 1 number 4 stale\n",
        "      4     1       0     1     0 stale\n",
    ),
    (
        2,
        0,
        Verdict::Repeated(1),
        Some(10),
        "replica 1 number 2 repeat 1 reply 10\n",
        "      2     1       0     1     0 repeat 1\n",
    ),
];

/// The position of an addition of procedure 9, its verdict, and its printed text in the same two places.
static ADDITIONS_OF_THE_LOG: [(u32, Verdict, &str, &str); 3] = [
    (
        1,
        Verdict::Commit,
        "replica 1 number 1 added 9\n",
        "      1     9       -     0     0 added\n",
    ),
    (
        2,
        Verdict::Taken(Identifier::Name),
        "replica 1 number 2 taken C1\n",
        "      2     9       -     0     0 taken C1\n",
    ),
    (
        3,
        Verdict::Taken(Identifier::Number),
        "replica 1 number 3 taken C2\n",
        "      3     9       -     0     0 taken C2\n",
    ),
];

/// The call with one write of procedure 1 at snapshot 0, and the addition of procedure 9, at position 3.
const CALL: LoggedEntry = LoggedEntry {
    position: 3,
    procedure: 1,
    snapshot: Some(0),
    writes: 1,
};

const ADDITION: LoggedEntry = LoggedEntry {
    position: 3,
    procedure: 9,
    snapshot: None,
    writes: 0,
};

const WIDEST: LoggedEntry = LoggedEntry {
    position: 1_048_576,
    procedure: 65_535,
    snapshot: Some(1_048_575),
    writes: 100_000,
};

static ENTRIES: [Printed; 6] = [
    (Line::Open(CALL), "      3     1       0     1     - open\n"),
    (
        Line::Open(ADDITION),
        "      3     9       -     0     - open\n",
    ),
    (
        Line::Open(WIDEST),
        "1048576 65535 1048575 100000     - open\n",
    ),
    (Line::Log { entries: 2 }, "log 2\n"),
    (
        Line::Entry {
            position: 9,
            bytes: None,
        },
        "entry 9 none\n",
    ),
    (
        Line::Entry {
            position: 1,
            bytes: Some(&[1, 0, 0xab]),
        },
        "entry 1 0100ab\n",
    ),
];

static ADDITIONS: [Printed; 6] = [
    (Line::Added { position: 1 }, "add number 1\n"),
    (
        Line::AddRefused(StepRefusal::ArgumentsLimit),
        "add refused P11 args\n",
    ),
    (
        Line::AddRefused(StepRefusal::ProgramRefused(ProgramFault::Bytes(DecodeFault {
            cause: DecodeCause::Length,
            slot: 0,
        }))),
        "add refused P11 B1 slot 0\n",
    ),
    (
        Line::AddRefused(StepRefusal::ProgramRefused(ProgramFault::Instruction {
            slot: 6,
            cause: Cause::Uninitialised,
        })),
        "add refused P11 V5 slot 6\n",
    ),
    (
        Line::AddRefused(StepRefusal::NameShape),
        "add refused P12\n",
    ),
    (Line::AddRefused(StepRefusal::NoMemory), "add refused P9\n"),
];

/// Answers to the second call of a script, and the printed text of each.
static ANSWERS: [(Answer, &str); 13] = [
    (
        Answer::Committed {
            position: 1,
            reply: 10,
        },
        "call 2 committed 1 reply 10\n",
    ),
    (
        Answer::Read {
            snapshot: 1000,
            reply: 1,
        },
        "call 2 read 1000 reply 1\n",
    ),
    (
        Answer::Cancelled {
            snapshot: 0,
            code: 9,
        },
        "call 2 cancelled 0 code 9\n",
    ),
    (
        Answer::Conflict {
            position: 3,
            other: 2,
        },
        "call 2 conflict 3 2\n",
    ),
    (Answer::Stale, "call 2 stale\n"),
    (
        Answer::Repeated {
            position: 4,
            earlier: 1,
            reply: 18446744073709551615,
        },
        "call 2 repeat 4 1 reply 18446744073709551615\n",
    ),
    (Answer::NoMemory, "call 2 no memory\n"),
    (Answer::Full, "call 2 full\n"),
    (Answer::Stopped { position: 5 }, "call 2 stopped 5\n"),
    (Answer::NoReplica, "call 2 refused P1\n"),
    (
        Answer::Refused(CallRefusal::NoProcedure),
        "call 2 refused P2\n",
    ),
    (
        Answer::Refused(CallRefusal::ArgumentsLength),
        "call 2 refused P3\n",
    ),
    (
        Answer::Refused(CallRefusal::ZeroInRequest),
        "call 2 refused P13\n",
    ),
];

static ENDS: [Printed; 4] = [
    (
        Line::Replica {
            replica: 1,
            report: ReplicaReport::Ended {
                position: 1,
                commits: 1,
                is_stopped: false,
            },
        },
        "replica 1 position 1 commits 1 running\n",
    ),
    (
        Line::Replica {
            replica: 8,
            report: ReplicaReport::Ended {
                position: 1_048_576,
                commits: 0,
                is_stopped: true,
            },
        },
        "replica 8 position 1048576 commits 0 stopped\n",
    ),
    (Line::Agreement { agrees: true }, "agreement yes\n"),
    (Line::Agreement { agrees: false }, "agreement no\n"),
];

/// Numbers of answers, in the order in which they are printed, and the printed text.
static TOTALS: [([u64; 7], &str); 3] = [
    (
        [1, 0, 0, 0, 0, 0, 0],
        "total committed 1 read 0 cancelled 0 conflict 0 stale 0 repeat 0 other 0\n",
    ),
    (
        [1, 2, 3, 4, 5, 6, 7],
        "total committed 1 read 2 cancelled 3 conflict 4 stale 5 repeat 6 other 7\n",
    ),
    (
        [u64::MAX; 7],
        "total committed 18446744073709551615 read 18446744073709551615 cancelled 18446744073709551615 \
         conflict 18446744073709551615 stale 18446744073709551615 repeat 18446744073709551615 \
         other 18446744073709551615\n",
    ),
];

/// Tells whether the line is printed as this text.
fn is_printed(rt: &impl Abort, alloc: Global, row: &Line<'_>, text: &str) -> bool {
    line(alloc, row).expect(rt, "memory").as_slice() == text.as_bytes()
}

fn are_printed(rt: &impl Abort, alloc: Global, rows: &[Printed]) {
    for (row, text) in rows {
        assert!(rt; is_printed(rt, alloc, row, text), "{text}");
    }
}

/// The line of these numbers of answers.
fn totals_of(counts: [u64; 7]) -> Line<'static> {
    Line::Totals(Counts {
        committed: counts[0],
        read: counts[1],
        cancelled: counts[2],
        conflict: counts[3],
        stale: counts[4],
        repeated: counts[5],
        other: counts[6],
    })
}

#[test]
fn lines_are_printed(rt: HostRuntime) {
    are_printed(&rt, rt.alloc(), &CALLS);
    are_printed(&rt, rt.alloc(), &REPLICAS);
    are_printed(&rt, rt.alloc(), &ENTRIES);
    are_printed(&rt, rt.alloc(), &ADDITIONS);
    are_printed(&rt, rt.alloc(), &ENDS);
    for (counts, text) in &TOTALS {
        let row = totals_of(*counts);
        assert!(rt; is_printed(&rt, rt.alloc(), &row, text), "{text}");
    }
    for (answer, text) in &ANSWERS {
        let row = Line::Answered {
            call: 2,
            answer: *answer,
        };
        assert!(rt; is_printed(&rt, rt.alloc(), &row, text), "{text}");
    }
}

/// Asserts that the delivery of an entry at replica 1 is printed as the first text, and the certified entry as the
/// second. The verdict stands behind the number of comparisons that it took.
fn has_lines(
    rt: &impl Abort,
    alloc: Global,
    delivered: DeliveredEntry,
    logged: LoggedEntry,
    verdict: (u64, Verdict),
    texts: (&str, &str),
) {
    let (compared, verdict) = verdict;
    let report = ReplicaReport::Delivered {
        position: logged.position,
        verdict,
        entry: delivered,
    };
    let row = Line::Replica { replica: 1, report };
    assert!(rt; is_printed(rt, alloc, &row, texts.0), "{}", texts.0);
    let row = Line::Certified {
        entry: logged,
        compared,
        verdict,
    };
    assert!(rt; is_printed(rt, alloc, &row, texts.1), "{}", texts.1);
}

#[test]
fn certified_entries_have_their_lines(rt: HostRuntime) {
    for (position, compared, verdict, reply, delivered, logged) in &CALLS_OF_THE_LOG {
        let entry = DeliveredEntry::Call { reply: *reply };
        let position = *position;
        let call = LoggedEntry { position, ..CALL };
        let verdict = (*compared, *verdict);
        has_lines(&rt, rt.alloc(), entry, call, verdict, (delivered, logged));
    }
    for (position, verdict, delivered, logged) in &ADDITIONS_OF_THE_LOG {
        let entry = DeliveredEntry::Addition { procedure: 9 };
        let position = *position;
        let added = LoggedEntry {
            position,
            ..ADDITION
        };
        has_lines(
            &rt,
            rt.alloc(),
            entry,
            added,
            (0, *verdict),
            (delivered, logged),
        );
    }
}

/// Outcomes of a kind of step have lines of that kind, and other outcomes have none.
#[test]
fn outcomes_have_lines_of_their_kind(rt: HostRuntime) {
    assert!(rt; call_line(3, Outcome::Exit { reply: 17 }).is_some());
    assert!(rt; call_line(3, Outcome::Rebuilt { position: 1 }).is_none());
    assert!(rt; add_line(Outcome::Added { position: 1 }).is_some());
    assert!(rt; add_line(Outcome::Rebuilt { position: 1 }).is_none());
}

/// A line leaves nothing where a growth is refused, whatever line it is.
#[test]
fn each_growth_may_be_refused(rt: HostRuntime) {
    let scarce = Scarce::new(rt.alloc());
    let row = Line::Row {
        table: 1,
        key: 5,
        bytes: &[7; 128],
    };
    for (row, growths) in [(Line::Log { entries: 2 }, 1), (row, 2)] {
        let failed = scarce.refuse_each(|| line(&scarce, &row).is_ok());
        assert_eq!(rt; failed, Some(growths));
    }
}
