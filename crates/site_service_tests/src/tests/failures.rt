//! Streams and memory that fail.

use super::runs::{Ended, joined, run_site};
use crate::stories::{CALL, ENTRY, SETTINGS, SUBMITTED};
use crate::streams::{PacedInput, WatchedOutput};
use scarce::Scarce;
use site_service::site_over;
use std::alloc::Global;
use std::io::{BufRead, Write};
use std::process::Abort;
use std::sync::atomic::AtomicU64;
use test_streams::{Full, Input, Output};

/// Lines, each of which is answered by one.
const LINES: [&str; 8] = [
    CALL,
    ENTRY,
    "entry 00",
    CALL,
    "jump",
    "add one 9 0 b7000000010000009500000000000000",
    "entry 0209000000036f6e6510000000b7000000010000009500000000000000",
    "position",
];

const ANSWERS: [&str; 8] = [
    SUBMITTED,
    "entry 1 commit reply 10 session 7 seq 1",
    "entry 2 nothing E1",
    "repeat 1 reply 10",
    "fault L2",
    "submit 0209000000036f6e6510000000b7000000010000009500000000000000",
    "entry 3 added 9",
    "position 3",
];

/// Settings, lines and answers.
#[derive(Drop)]
struct Texts {
    settings: Vec<u8>,
    input: Vec<u8>,
    answers: Vec<u8>,
}

fn texts_of(rt: &impl Abort, alloc: Global) -> Texts {
    Texts {
        settings: joined(rt, alloc, &SETTINGS),
        input: joined(rt, alloc, &LINES),
        answers: joined(rt, alloc, &ANSWERS),
    }
}

/// The status of a site over these streams, and whether it said nothing of faults.
fn status_over<S: BufRead, I: BufRead, O: Write>(
    alloc: Global,
    settings: &mut S,
    input: &mut I,
    output: &mut O,
) -> (u8, bool) {
    let mut faults = Vec::new(alloc);
    let status = site_over(alloc, settings, input, output, &mut faults);
    (status, faults.is_empty())
}

/// A line is waited for when the answer to the line before it has left. The input may be interrupted.
#[test]
fn answers_leave_before_the_next_line_is_waited_for(rt: HostRuntime) {
    let texts = texts_of(&rt, rt.alloc());
    // Eight lines leave by one flush for each time that lines are given. The end makes one more flush.
    for (at_once, flushes) in [(1, 9), (2, 5), (3, 4), (100, 2)] {
        let answered = AtomicU64::new(0);
        let mut input = PacedInput {
            left: &texts.input,
            at_once,
            given: 0,
            interrupts: true,
            asked_early: false,
            answered: &answered,
        };
        let mut output = WatchedOutput {
            written: 0,
            flushes: 0,
            answered: &answered,
        };
        let mut settings = texts.settings.as_slice();
        let ended = status_over(rt.alloc(), &mut settings, &mut input, &mut output);
        assert_eq!(rt; (ended, input.asked_early), ((0, true), false));
        assert_eq!(rt;
            (output.written, output.flushes, input.left.len()),
            (8, flushes, 0)
        );
    }
}

/// The first `count` lines of a text.
fn first_lines(text: &[u8], count: usize) -> &[u8] {
    let mut left = count;
    for (at, byte) in text.iter().enumerate() {
        if left == 0 {
            return text.get(..at).unwrap_or(text);
        }
        if *byte == b'\n' {
            left -= 1;
        }
    }
    text
}

/// Tells whether a site answers the lines that are whole. The site reads `length` bytes of its input, which then fails
/// or ends.
fn answers_before(alloc: Global, texts: &Texts, length: usize, fails: bool) -> bool {
    let front = texts.input.get(..length).unwrap_or(&[]);
    let mut input = Input {
        left: front,
        at_once: length % 7 + 1,
        fails,
    };
    let mut output = Vec::new(alloc);
    let mut settings = texts.settings.as_slice();
    let (status, silent) = status_over(alloc, &mut settings, &mut input, &mut output);
    let whole = front.iter().filter(|byte| **byte == b'\n').count();
    let wanted = if fails { 3 } else { 0 };
    status == wanted && silent != fails && output.as_slice() == first_lines(&texts.answers, whole)
}

/// An input that fails, or ends, has the lines before that place answered. The site fails only where the input fails.
#[test]
fn inputs_may_fail(rt: HostRuntime) {
    let texts = texts_of(&rt, rt.alloc());
    for length in 0..=texts.input.len() {
        for fails in [true, false] {
            let met = answers_before(rt.alloc(), &texts, length, fails);
            assert!(rt; met, "{length} {fails}");
        }
    }
}

/// Tells whether a site whose settings fail behind `length` bytes answers nothing, and leaves its input.
fn ends_at_once(alloc: Global, texts: &Texts, length: usize) -> bool {
    let mut settings = Input {
        left: texts.settings.get(..length).unwrap_or(&[]),
        at_once: 3,
        fails: true,
    };
    let mut input = texts.input.as_slice();
    let mut output = Vec::new(alloc);
    let (status, silent) = status_over(alloc, &mut settings, &mut input, &mut output);
    status == 3 && !silent && output.is_empty() && input.len() == texts.input.len()
}

/// Settings that fail end a site before it answers.
#[test]
fn settings_may_fail(rt: HostRuntime) {
    let texts = texts_of(&rt, rt.alloc());
    for length in (0..texts.settings.len()).step_by(7) {
        let met = ends_at_once(rt.alloc(), &texts, length);
        assert!(rt; met, "{length}");
    }
}

/// The ways in which a full output may go on.
const WAYS: [Full; 2] = [Full::Fails, Full::TakesNothing];

/// Tells whether an output with room for `room` bytes holds them in the end, and wasn't asked again.
fn holds_what_came(alloc: Global, texts: &Texts, room: usize, full: Full) -> bool {
    let mut output = Output::new(alloc, room, room % 5 + 1, full);
    let mut settings = texts.settings.as_slice();
    let mut input = texts.input.as_slice();
    let (status, silent) = status_over(alloc, &mut settings, &mut input, &mut output);
    status == 3
        && !silent
        && output.after_failure == 0
        && Some(output.held.as_slice()) == texts.answers.get(..room)
}

/// An output that fails holds what came before, and is asked no more.
#[test]
fn outputs_may_fail(rt: HostRuntime) {
    let texts = texts_of(&rt, rt.alloc());
    for (at, full) in WAYS.iter().enumerate() {
        for room in 0..texts.answers.len() {
            let met = holds_what_came(rt.alloc(), &texts, room, *full);
            assert!(rt; met, "{at} {room}");
        }
    }
}

/// Tells whether an output that takes a byte at a time, and whose flush may fail, has `count` lines in the end. The
/// input shows `at_once` bytes at once.
fn takes_lines(alloc: Global, texts: &Texts, flushes: bool, at_once: usize, count: usize) -> bool {
    let mut output = Output::new(alloc, texts.answers.len(), 1, Full::Fails);
    output.flushes = flushes;
    let mut settings = texts.settings.as_slice();
    let mut input = Input {
        left: &texts.input,
        at_once,
        fails: false,
    };
    let (status, silent) = status_over(alloc, &mut settings, &mut input, &mut output);
    let wanted = if flushes { 0 } else { 3 };
    status == wanted
        && silent == flushes
        && output.held.as_slice() == first_lines(&texts.answers, count)
}

/// An output that takes a byte at a time has all in the end. An output whose flush fails has the answers that left
/// together, and no more.
#[test]
fn outputs_may_take_little_at_once(rt: HostRuntime) {
    let texts = texts_of(&rt, rt.alloc());
    for (flushes, at_once, count) in [
        (true, 1, 8),
        (true, 1_000, 8),
        (false, 1, 1),
        (false, 1_000, 8),
    ] {
        let met = takes_lines(rt.alloc(), &texts, flushes, at_once, count);
        assert!(rt; met, "{flushes} {at_once}");
    }
}

/// The addition of a program of `slots` slots, and its answer, which is longer than what is written at once.
fn long_addition(rt: &impl Abort, alloc: Global, slots: usize) -> (Vec<u8>, Vec<u8>) {
    let mut program = Vec::new(alloc);
    for _ in 1..slots {
        program
            .extend_from_slice(b"b700000001000000")
            .expect(rt, "memory");
    }
    program
        .extend_from_slice(b"9500000000000000\n")
        .expect(rt, "memory");
    let mut input = Vec::from_slice(alloc, b"add one 9 0 ").expect(rt, "memory");
    input.extend_from_slice(&program).expect(rt, "memory");
    let mut answer = Vec::from_slice(alloc, b"submit 0209000000036f6e65401f0000").expect(
        rt, "memory",
    );
    answer.extend_from_slice(&program).expect(rt, "memory");
    (input, answer)
}

/// A line with another line before and behind.
fn among(rt: &impl Abort, alloc: Global, line: &[u8], other: &[u8]) -> Vec<u8> {
    let mut lines = Vec::new(alloc);
    for some in [other, line, other] {
        lines.extend_from_slice(some).expect(rt, "memory");
    }
    lines
}

/// Tells whether a site answers these lines to an output with room for `room` bytes, which isn't asked again.
fn answers_long(
    alloc: Global,
    settings: &[u8],
    lines: &[u8],
    answers: &[u8],
    room: usize,
    wanted: u8,
) -> bool {
    let mut output = Output::new(alloc, room, 1_000, Full::Fails);
    let mut reader = settings;
    let mut input = lines;
    let (status, _) = status_over(alloc, &mut reader, &mut input, &mut output);
    status == wanted
        && output.after_failure == 0
        && Some(output.held.as_slice()) == answers.get(..room)
}

/// A long answer leaves whole among others. An output that fails in its midst is asked no more.
#[test]
fn long_answers_leave(rt: HostRuntime) {
    let alloc = rt.alloc();
    let settings = joined(&rt, alloc, &SETTINGS);
    let (line, answer) = long_addition(&rt, alloc, 1_000);
    let lines = among(&rt, alloc, &line, b"position\n");
    let answers = among(&rt, alloc, &answer, b"position 0\n");
    for (room, status) in [
        (answers.len(), 0),
        (answers.len().saturating_sub(1), 3),
        (12_289, 3),
        (12_288, 3),
        (4_096, 3),
        (4_095, 3),
        (0, 3),
    ] {
        let met = answers_long(alloc, &settings, &lines, &answers, room, status);
        assert!(rt; met, "{room}");
    }
}

/// Tells whether settings at fault, told to a writer with room for `room` bytes, end a site as with ample room.
fn tells_with_room(alloc: Global, settings: &[u8], room: usize, full: Full) -> bool {
    let mut reader = settings;
    let mut input = b"position\n".as_slice();
    let mut output = Vec::new(alloc);
    let mut faults = Output::new(alloc, room, 3, full);
    let status = site_over(alloc, &mut reader, &mut input, &mut output, &mut faults);
    status == 1
        && output.is_empty()
        && input.len() == 9
        && Some(faults.held.as_slice()) == b"line 2: L5\n".get(..room)
}

/// A writer for faults that finds no room changes neither answers nor status.
#[test]
fn faults_may_find_no_room(rt: HostRuntime) {
    let settings = joined(&rt, rt.alloc(), &["window 4", "replicas 2"]);
    for (at, full) in WAYS.iter().enumerate() {
        for room in 0..11 {
            let met = tells_with_room(rt.alloc(), &settings, room, *full);
            assert!(rt; met, "{at} {room}");
        }
    }
}

/// More growths than the site of these tests makes.
const MOST: u64 = 2_000;

/// The course of a site that found no memory once.
#[derive(Clone, Copy, PartialEq, Eq)]
enum Course {
    /// The site ended at a line, with all that was answered before.
    Ended,
    /// A call or an addition was refused.
    Refused,
    Same,
}

/// Returns the number of lines that were answered, and whether one says that there was no memory. Each line has to be
/// as in `ANSWERS`, or say that in place of an answer to a call or an addition.
fn lines_met(answers: &[u8]) -> Option<(usize, bool)> {
    let (mut count, mut refused) = (0, false);
    for line in str::from_utf8(answers).ok()?.lines() {
        let wanted = ANSWERS.get(count)?;
        if line == "refused P9" && (wanted.starts_with("submit") || wanted.starts_with("repeat")) {
            refused = true;
        } else if line != *wanted {
            return None;
        }
        count += 1;
    }
    Some((count, refused))
}

/// The messages about want of memory at a line, from 0.
const WANTED_AT: [&[u8]; 9] = [
    b"line 0: L9\n",
    b"line 1: L9\n",
    b"line 2: L9\n",
    b"line 3: L9\n",
    b"line 4: L9\n",
    b"line 5: L9\n",
    b"line 6: L9\n",
    b"line 7: L9\n",
    b"line 8: L9\n",
];

/// Returns the course of a site, where it is one. Where nothing was answered the line may be a line of the settings, or
/// none.
fn course_of(ended: &Ended) -> Option<Course> {
    let (count, refused) = lines_met(&ended.answers)?;
    let faults = ended.faults.as_slice();
    let is_early = count == 0 && WANTED_AT.contains(&faults);
    match ended.status {
        3 if is_early || WANTED_AT.get(count.saturating_add(1)) == Some(&faults) => Some(
            Course::Ended,
        ),
        0 if !faults.is_empty() || count != ANSWERS.len() => None,
        0 if refused => Some(Course::Refused),
        0 => Some(Course::Same),
        _ => None,
    }
}

/// Returns the course of a site that finds no memory at its n-th growth, and whether it answered. Returns `None` where
/// it is no course.
fn course_at(global: Global, scarce: &Scarce, texts: &Texts, nth: u64) -> Option<(Course, bool)> {
    scarce.refuse_nth(nth);
    let ended = run_site(scarce, global, &texts.settings, &texts.input);
    Some((course_of(&ended)?, !ended.answers.is_empty()))
}

/// Each growth is refused in turn, up to the first that isn't made. Several of them end the site, and several refuse a
/// call.
#[test]
fn growths_are_refused_in_turn(rt: HostRuntime) {
    let alloc = rt.alloc();
    let texts = texts_of(&rt, alloc);
    let scarce = Scarce::new(alloc);
    let (mut ended_late, mut refused) = (false, false);
    for nth in 1..MOST {
        let course = course_at(alloc, &scarce, &texts, nth);
        assert!(rt; course.is_some(), "{nth}");
        let (course, answered) = course.unwrap_or((Course::Same, false));
        ended_late = ended_late || (course == Course::Ended && answered);
        refused = refused || course == Course::Refused;
        if scarce.refused() < nth {
            assert!(rt; ended_late && refused && course == Course::Same);
            return;
        }
    }
    assert!(rt; false, "a site makes more growths");
}
