use program_commands::{check_over, list_over, number_in, table};
use scarce::Scarce;
use std::alloc::Global;
use std::process::Abort;
use test_programs::{ADD, bytes_of};
use test_streams::{Full, Input, Output};

const EXIT: [u8; 8] = [0x95, 0, 0, 0, 0, 0, 0, 0];

/// Makes an output with room for `room` bytes, which fails then.
fn output_of(alloc: Global, room: usize) -> Output {
    Output::new(alloc, room, usize::MAX, Full::Fails)
}

/// Returns an exit status, where a fault is told by it and by nothing else.
fn told(status: u8, silent: bool) -> Option<u8> {
    if silent == (status != 3) {
        Some(status)
    } else {
        None
    }
}

/// Returns the exit status of a listing. Returns `None` where a fault isn't told, or a fault is told that wasn't there.
fn listing(alloc: Global, input: &mut Input<'_>, output: &mut Output) -> Option<u8> {
    let mut faults = Vec::new(alloc);
    let status = list_over(alloc, input, output, &mut faults);
    told(status, faults.is_empty())
}

/// Tells whether the listing of an input ends with this status, and the output then holds this.
fn lists(alloc: Global, input: Input<'_>, output: Output, status: u8, text: &[u8]) -> bool {
    let (mut input, mut output) = (input, output);
    let ended = listing(alloc, &mut input, &mut output);
    ended == Some(status) && output.held.as_slice() == text
}

/// A program of `count` exits.
fn exits(rt: &impl Abort, alloc: Global, count: usize) -> Vec<u8> {
    let mut program = Vec::new(alloc);
    for _ in 0..count {
        program.extend_from_slice(&EXIT).expect(rt, "memory");
    }
    program
}

fn exit_line(rt: &impl Abort, alloc: Global, slot: usize) -> String {
    format!(in alloc; "{slot:>4} 9500000000000000 exit dst 0 src 0 off 0 imm 0\n").expect(
        rt, "memory",
    )
}

/// The listing of `count` exits.
fn listed_exits(rt: &impl Abort, alloc: Global, count: usize) -> String {
    let mut text = String::new(alloc);
    for slot in 0..count {
        text.push_str(exit_line(rt, alloc, slot).as_str())
            .expect(rt, "memory");
    }
    text
}

/// Makes an input that gives its bytes, and then fails, or ends.
fn input_of(left: &[u8], fails: bool) -> Input<'_> {
    let at_once = usize::MAX;
    Input {
        left,
        at_once,
        fails,
    }
}

fn whole(left: &[u8]) -> Input<'_> {
    input_of(left, false)
}

/// Tells whether `count` instructions are listed whole by an output that takes `at_once` bytes at a time.
fn is_listed(rt: &impl Abort, alloc: Global, count: usize, at_once: usize) -> bool {
    let program = exits(rt, alloc, count);
    let expected = listed_exits(rt, alloc, count);
    let output = Output::new(alloc, usize::MAX, at_once, Full::Fails);
    lists(alloc, whole(&program), output, 0, expected.as_bytes())
}

/// A program is listed in one write or in many, also where the listing is longer than a page.
#[test]
fn a_program_is_listed(rt: HostRuntime) {
    for (count, at_once) in [
        (1, usize::MAX),
        (1, 1),
        (500, usize::MAX),
        (500, 1),
        (500, 4095),
    ] {
        let met = is_listed(&rt, rt.alloc(), count, at_once);
        assert!(rt; met, "{count} {at_once}");
    }
}

/// Tells whether a listing leaves this in an output whose flush fails.
fn leaves_unflushed(alloc: Global, program: &[u8], text: &[u8]) -> bool {
    let mut output = output_of(alloc, usize::MAX);
    output.flushes = false;
    lists(alloc, whole(program), output, 3, text)
}

/// An output that fails holds the text as far as it had room. An output with room for all holds the whole text.
fn try_rooms(rt: &impl Abort, alloc: Global, program: &[u8], text: &[u8]) {
    for room in 0..=text.len() {
        let status = if room < text.len() { 3 } else { 0 };
        let (front, _) = text.split_at(room);
        let output = output_of(alloc, room);
        let met = lists(alloc, whole(program), output, status, front);
        assert!(rt; met, "{room}");
    }
}

/// An output that fails holds the text as far as it had room.
#[test]
fn a_failing_output_answers_3(rt: HostRuntime) {
    let program = exits(&rt, rt.alloc(), 90);
    let expected = listed_exits(&rt, rt.alloc(), 90);
    try_rooms(&rt, rt.alloc(), &program, expected.as_bytes());
    assert!(rt; leaves_unflushed(rt.alloc(), &program, expected.as_bytes()));
    assert!(rt; leaves_unflushed(rt.alloc(), &[], b"refused B1 slot 0\n"));
}

/// Tells whether a program is refused by this line.
fn is_refused(alloc: Global, program: &[u8], line: &[u8]) -> bool {
    let output = output_of(alloc, 1000);
    lists(alloc, whole(program), output, 1, line)
}

#[test]
fn a_refusal_is_one_line(rt: HostRuntime) {
    let mut long = exits(&rt, rt.alloc(), 4097);
    assert!(rt; is_refused(rt.alloc(), &long, b"refused B2 slot 0\n"));
    // A length that is no whole number of slots is the lower fault.
    long.push(0).expect(&rt, "memory");
    assert!(rt; is_refused(rt.alloc(), &[], b"refused B1 slot 0\n"));
    assert!(rt; is_refused(rt.alloc(), &long, b"refused B1 slot 0\n"));
}

#[test]
fn a_failing_input_answers_3(rt: HostRuntime) {
    let input = input_of(&EXIT, true);
    let output = output_of(rt.alloc(), 1000);
    assert!(rt; lists(rt.alloc(), input, output, 3, b""));
}

/// Tells whether a command goes well. A command that doesn't ends with 3, prints nothing, and tells a fault.
fn goes_well(rt: &impl Abort, status: u8, output: &Output, faults: &[u8]) -> bool {
    if status == 0 {
        return true;
    }
    assert_eq!(rt; status, 3);
    assert!(rt; output.held.is_empty());
    assert!(rt; !faults.is_empty());
    false
}

/// The bytes and the slots are one growth each. Where one is refused nothing is printed, and a fault is told.
#[test]
fn each_growth_refused_answers_3(rt: HostRuntime) {
    let scarce = Scarce::new(rt.alloc());
    let failed = scarce.refuse_each(|| {
        let mut output = output_of(rt.alloc(), 1000);
        let mut faults = Vec::new(rt.alloc());
        let status = list_over(&scarce, &mut whole(&EXIT), &mut output, &mut faults);
        goes_well(&rt, status, &output, &faults)
    });
    assert_eq!(rt; failed, Some(2));
}

/// Returns the exit status of a check. Returns `None` where a fault isn't told, or a fault is told that wasn't there.
fn checking(
    alloc: Global,
    input: &mut Input<'_>,
    output: &mut Output,
    args_len: u16,
    tables: &[(u8, u16)],
) -> Option<u8> {
    let mut faults = Vec::new(alloc);
    let length = args_len.min(256);
    let status = check_over(alloc, input, output, &mut faults, length, tables);
    told(status, faults.is_empty())
}

/// A jump into the second half of a wide load.
const INTO_LOAD: &str = "0500010000000000 1800000001000000 0000000000000000 9500000000000000";

/// A program, the number of bytes of its arguments, the tables, the exit status and the line.
type Check = (&'static str, u16, &'static [(u8, u16)], u8, &'static str);

const CHECKS: [Check; 12] = [
    (ADD, 16, &[(1, 8)], 0, "accepted slots 17 bound 17\n"),
    (
        ADD,
        256,
        &[(64, 128), (1, 8)],
        0,
        "accepted slots 17 bound 17\n",
    ),
    (ADD, 8, &[(1, 8)], 1, "refused V4 slot 1\n"),
    (ADD, 16, &[(1, 16)], 1, "refused V9 slot 6\n"),
    (ADD, 16, &[(2, 8)], 1, "refused V7 slot 6\n"),
    (ADD, 16, &[], 1, "refused V7 slot 6\n"),
    (INTO_LOAD, 0, &[], 1, "refused B10 slot 0\n"),
    ("", 0, &[], 1, "refused B1 slot 0\n"),
    // The schema's fault comes before the program's.
    (ADD, 16, &[(1, 8), (1, 8)], 1, "refused S3\n"),
    ("", 0, &[(1, 8), (0, 8)], 1, "refused S1\n"),
    ("", 0, &[(65, 8)], 1, "refused S1\n"),
    ("", 0, &[(1, 129), (1, 8)], 1, "refused S2\n"),
];

/// Tells whether a check over an output ends with this status, and leaves this there.
fn leaves(
    alloc: Global,
    input: Input<'_>,
    check: &Check,
    output: Output,
    expected: (u8, &[u8]),
) -> bool {
    let (mut input, mut output) = (input, output);
    let ended = checking(alloc, &mut input, &mut output, check.1, check.2);
    ended == Some(expected.0) && output.held.as_slice() == expected.1
}

/// Checks a program in one write and in many. An output that fails has to hold the line as far as it had room.
fn try_check(rt: &impl Abort, alloc: Global, bytes: &[u8], check: &Check) {
    let (status, line) = (check.3, check.4.as_bytes());
    for (at_once, flushes, status) in [
        (usize::MAX, true, status),
        (1, true, status),
        (usize::MAX, false, 3),
    ] {
        let mut output = Output::new(alloc, usize::MAX, at_once, Full::Fails);
        output.flushes = flushes;
        let met = leaves(alloc, whole(bytes), check, output, (status, line));
        assert!(rt; met, "{at_once} {flushes}");
    }
    for room in 0..line.len() {
        let output = output_of(alloc, room);
        let (beginning, _) = line.split_at(room);
        let met = leaves(alloc, whole(bytes), check, output, (3, beginning));
        assert!(rt; met, "{room}");
    }
}

#[test]
fn a_program_is_accepted_or_refused(rt: HostRuntime) {
    for check in &CHECKS {
        let bytes = bytes_of(rt.alloc(), check.0).expect(&rt, check.4);
        try_check(&rt, rt.alloc(), &bytes, check);
    }
}

/// An input that fails, and each growth refused in turn, print nothing, and a fault is told.
#[test]
fn a_check_that_fails_answers_3(rt: HostRuntime) {
    let bytes = bytes_of(rt.alloc(), ADD).expect(&rt, ADD);
    let input = input_of(&bytes, true);
    let output = output_of(rt.alloc(), 1000);
    assert!(rt; leaves(rt.alloc(), input, &CHECKS[0], output, (3, b"")));
    let scarce = Scarce::new(rt.alloc());
    let failed = scarce.refuse_each(|| {
        let mut output = output_of(rt.alloc(), 1000);
        let mut faults = Vec::new(rt.alloc());
        let mut input = whole(&bytes);
        let tables = [(1, 8)];
        let status = check_over(&scarce, &mut input, &mut output, &mut faults, 16, &tables);
        goes_well(&rt, status, &output, &faults)
    });
    assert_eq!(rt; failed, Some(6));
}

/// Words, and the number up to 256 that they are.
const NUMBERS: [(&str, Option<u32>); 16] = [
    ("0", Some(0)),
    ("16", Some(16)),
    ("256", Some(256)),
    ("257", None),
    ("65552", None),
    ("4294967312", None),
    ("18446744073709551632", None),
    ("00", None),
    ("01", None),
    ("-1", None),
    ("+1", None),
    (" 1", None),
    ("1 ", None),
    ("0x1", None),
    ("x", None),
    ("", None),
];

/// Words, and the table with its width that they are.
const PAIRS: [(&str, Option<(u8, u16)>); 16] = [
    ("1:8", Some((1, 8))),
    ("64:128", Some((64, 128))),
    ("1:1", Some((1, 1))),
    ("1:0", None),
    ("0:8", None),
    ("65:8", None),
    ("1:129", None),
    ("1", None),
    ("1:", None),
    (":8", None),
    ("1:8:9", None),
    ("01:8", None),
    ("1:08", None),
    ("x:8", None),
    (":", None),
    ("", None),
];

#[test]
fn numbers_and_tables_are_words(rt: HostRuntime) {
    for (word, number) in &NUMBERS {
        assert_eq!(rt; number_in(word, 0, 256), *number, "{word}");
    }
    for (word, pair) in &PAIRS {
        assert_eq!(rt; table(word), *pair, "{word}");
    }
}
