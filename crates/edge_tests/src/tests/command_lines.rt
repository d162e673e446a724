use command_line::{Plan, PlanFault, explain, plan};
use std::alloc::Global;
use std::process::Abort;

/// Asserts that words are this plan. (Who calls this has no plan to let go.)
fn is_plan(rt: &impl Abort, alloc: Global, words: &[&str], expected: Plan<'_>) {
    assert!(rt;
        plan(alloc, words).expect(rt, "memory") == expected,
        "{words:?}"
    );
}

#[test]
fn a_plan_is_read_off_the_words(rt: HostRuntime) {
    let alloc = rt.alloc();
    let list = Plan::List { file: "add.bpf" };
    is_plan(&rt, alloc, &["dsmdb", "list", "add.bpf"], list);
    let replay = Plan::Replay { script: "a.dsm" };
    is_plan(&rt, alloc, &["dsmdb", "replay", "a.dsm"], replay);
    let site = Plan::Site {
        settings: "a.settings",
    };
    is_plan(&rt, alloc, &["dsmdb", "site", "a.settings"], site);
    let explanation = explain("V5").expect(&rt, "a row");
    let explain = Plan::Explain { explanation };
    is_plan(&rt, alloc, &["dsmdb", "explain", "V5"], explain);
}

/// Words that ask for a check of `add.bpf`, the number of bytes of the arguments, and the tables.
const CHECKS: [(&[&str], u16, &[(u8, u16)]); 3] = [
    (&["dsmdb", "check", "add.bpf", "0"], 0, &[]),
    (&["dsmdb", "check", "add.bpf", "16", "1:8"], 16, &[(1, 8)]),
    (
        &["dsmdb", "check", "add.bpf", "256", "64:128", "1:1", "1:1"],
        256,
        &[(64, 128), (1, 1), (1, 1)],
    ),
];

fn check_of(rt: &impl Abort, alloc: Global, args_len: u16, pairs: &[(u8, u16)]) -> Plan<'static> {
    Plan::Check {
        file: "add.bpf",
        args_len,
        tables: Vec::from_slice(alloc, pairs).expect(rt, "memory"),
    }
}

#[test]
fn a_check_is_read_off_the_words(rt: HostRuntime) {
    for (words, args_len, pairs) in &CHECKS {
        let expected = check_of(&rt, rt.alloc(), *args_len, pairs);
        is_plan(&rt, rt.alloc(), words, expected);
    }
}

/// Words that ask for a run of `a.dsm`, the number of threads, and the limit of the log.
const RUNS: [(&[&str], u32, u32); 5] = [
    (&["dsmdb", "run", "a.dsm"], 4, 1_048_576),
    (
        &["dsmdb", "run", "a.dsm", "--executors", "16"],
        16,
        1_048_576,
    ),
    (&["dsmdb", "run", "--log", "1", "a.dsm"], 4, 1),
    (
        &["dsmdb", "run", "a.dsm", "--executors=1", "--log=1048576"],
        1,
        1_048_576,
    ),
    (
        &[
            "dsmdb",
            "run",
            "--log",
            "70000",
            "--executors",
            "2",
            "a.dsm",
        ],
        2,
        70_000,
    ),
];

#[test]
fn a_run_is_read_off_the_words(rt: HostRuntime) {
    for (words, executors, log_limit) in &RUNS {
        let expected = Plan::Run {
            script: "a.dsm",
            executors: *executors,
            log_limit: *log_limit,
        };
        is_plan(&rt, rt.alloc(), words, expected);
    }
}

/// Returns the printed fault of words, and an empty text where they are a plan.
fn fault_of(rt: &impl Abort, alloc: Global, words: &[&str]) -> String {
    match plan(alloc, words) {
        Ok(_) => String::new(alloc),
        Err(fault) => fault.to_string(alloc).expect(rt, "memory"),
    }
}

/// Commands in which a word can't be read: the words before it, such words, those behind it, and the text of the fault
/// up to the word.
struct Unread {
    before: &'static [&'static str],
    words: &'static [&'static str],
    behind: &'static [&'static str],
    text: &'static str,
}

static LENGTHS: Unread = Unread {
    before: &["dsmdb", "check", "a"],
    words: &["257", "01", "+1", "x", "1:8", ""],
    behind: &["1:8"],
    text: "ARGS must be a number from 0 to 256",
};

static TABLES: Unread = Unread {
    before: &["dsmdb", "check", "a", "16", "2:8"],
    words: &[
        "1:0", "0:8", "65:8", "1:129", "1", "1:8:9", "x:8", "01:8", "",
    ],
    behind: &[],
    text: "T:W must be a table from 1 to 64 and its row width from 1 to 128",
};

static EXECUTORS: Unread = Unread {
    before: &["dsmdb", "run", "a", "--executors"],
    words: &["0", "17", "04", "+4", "x", ""],
    behind: &[],
    text: "--executors must be a number from 1 to 16",
};

static LIMITS: Unread = Unread {
    before: &["dsmdb", "run", "a", "--log"],
    words: &["0", "1048577", "4294967297", "01", "1e3", ""],
    behind: &[],
    text: "--log must be a number from 1 to 1048576",
};

static REFUSALS: Unread = Unread {
    before: &["dsmdb", "explain"],
    words: &["V13", "v5", "V05", "5", "explain", ""],
    behind: &[],
    text: "NUMBER must be a refusal's, as V5; docs/REFUSALS.md has them all",
};

/// Tells whether a command with one of the words is refused for it, with a text that ends in it.
fn is_refused(rt: &impl Abort, alloc: Global, unread: &Unread, word: &'static str) -> bool {
    let mut words: Vec<&'static str> = Vec::from_slice(alloc, unread.before).expect(rt, "memory");
    words.push(word).expect(rt, "memory");
    words.extend_from_slice(unread.behind).expect(rt, "memory");
    let fault = fault_of(rt, alloc, &words);
    let text = unread.text;
    let expected = format!(in alloc; "{text}: '{word}'").expect(rt, "memory");
    fault.as_str() == expected.as_str()
}

/// Asserts that commands with each of the words are refused.
fn are_refused(rt: &impl Abort, alloc: Global, unread: &Unread) {
    for word in unread.words {
        assert!(rt;
            is_refused(rt, alloc, unread, word),
            "{}: '{word}'",
            unread.text
        );
    }
}

#[test]
fn other_numbers_are_refused(rt: HostRuntime) {
    for unread in [&LENGTHS, &TABLES, &EXECUTORS, &LIMITS, &REFUSALS] {
        are_refused(&rt, rt.alloc(), unread);
    }
}

/// Words that are no plan, their exit status, and the beginning of the text.
const NO_PLANS: [(&[&str], i32, &str); 23] = [
    (&["dsmdb"], 2, ""),
    (&["dsmdb", "list"], 2, "error: "),
    (&["dsmdb", "list", "a", "b"], 2, "error: "),
    (&["dsmdb", "check"], 2, "error: "),
    (&["dsmdb", "check", "a"], 2, "error: "),
    (&["dsmdb", "check", "a", "-1"], 2, "error: "),
    (&["dsmdb", "replay"], 2, "error: "),
    (&["dsmdb", "replay", "a", "b"], 2, "error: "),
    (&["dsmdb", "replay", "--help"], 0, "Runs a script"),
    (&["dsmdb", "run"], 2, "error: "),
    (&["dsmdb", "run", "a", "b"], 2, "error: "),
    (&["dsmdb", "run", "a", "--executors"], 2, "error: "),
    (
        &["dsmdb", "run", "a", "--log", "1", "--log", "2"],
        2,
        "error: ",
    ),
    (&["dsmdb", "run", "a", "--threads", "2"], 2, "error: "),
    (&["dsmdb", "run", "--help"], 0, "Takes the calls"),
    (&["dsmdb", "site"], 2, "error: "),
    (&["dsmdb", "site", "a", "b"], 2, "error: "),
    (&["dsmdb", "site", "--help"], 0, "Holds one replica"),
    (&["dsmdb", "explain"], 2, "error: "),
    (&["dsmdb", "explain", "V5", "V6"], 2, "error: "),
    (&["dsmdb", "jump", "a"], 2, "error: "),
    (&["dsmdb", "--help"], 0, ""),
    (&["dsmdb", "--version"], 0, "dsmdb 0.1.0\n"),
];

/// The exit status for words that are no plan, and the text, and none where they are a plan.
fn refusal_of(rt: &impl Abort, alloc: Global, words: &[&str]) -> Option<(i32, String)> {
    match plan(alloc, words) {
        Err(PlanFault::CommandLine(error)) => {
            Some((
                error.exit_code(),
                error.to_string(alloc).expect(rt, "memory"),
            ))
        }
        _ => None,
    }
}

#[test]
fn other_words_are_refused(rt: HostRuntime) {
    for (words, status, text) in &NO_PLANS {
        let Some((told, error)) = refusal_of(&rt, rt.alloc(), words) else {
            panic!(rt; "a plan");
        };
        assert_eq!(rt; told, *status);
        assert!(rt; error.as_str().starts_with(text));
    }
}
