//! The answers to lines.

use super::runs::{joined, run_site, tells};
use crate::stories::{FIRST_LINES, SETTINGS, all_stories};
use std::alloc::Global;
use std::process::Abort;

#[test]
fn stories_are_told(rt: HostRuntime) {
    for (at, story) in all_stories().iter().enumerate() {
        let told = tells(&rt, rt.alloc(), story);
        assert!(rt; told, "story {at}");
    }
}

/// A line that is the first is answered as its row says.
#[test]
fn first_lines_are_answered(rt: HostRuntime) {
    let alloc = rt.alloc();
    let settings = joined(&rt, alloc, &SETTINGS);
    for (line, answer) in &FIRST_LINES {
        let input = joined(&rt, alloc, &[*line]);
        let answers = joined(&rt, alloc, &[*answer]);
        let ended = run_site(alloc, alloc, &settings, &input);
        assert_eq!(rt; ended.answers.as_slice(), answers.as_slice());
        assert_eq!(rt; (ended.status, ended.faults.is_empty()), (0, true));
    }
}

/// A line of `digits` digits behind its front, a line that asks for the position, and that line again without an LF.
fn long_input(rt: &impl Abort, alloc: Global, front: &str, digits: usize) -> Vec<u8> {
    let mut input = Vec::from_slice(alloc, front.as_bytes()).expect(rt, "memory");
    let length = front.len().saturating_add(digits);
    input.resize(length, b'0').expect(rt, "memory");
    input
        .extend_from_slice(b"\nposition\nposition")
        .expect(rt, "memory");
    input
}

const TAKEN: &str = "entry 1 nothing E1\nposition 1\n";

const TOO_LONG: &str = "fault L1\nposition 0\n";

const PASSED: &str = "position 0\n";

/// The front of a line, the number of digits behind it, and the answers to it and to the next line.
static LONG_LINES: [(&str, usize, &str); 5] = [
    ("entry ", 1_048_570, TAKEN),
    ("entry ", 1_048_571, TOO_LONG),
    ("entry ", 3_000_000, TOO_LONG),
    ("#", 1_048_575, PASSED),
    ("#", 1_048_576, TOO_LONG),
];

/// A line has at most 1,048,576 bytes. A longer line is passed over, a comment too, and bytes without an LF are no
/// line.
#[test]
fn lines_may_be_long(rt: HostRuntime) {
    let alloc = rt.alloc();
    let settings = joined(&rt, alloc, &SETTINGS);
    for (front, digits, answers) in &LONG_LINES {
        let input = long_input(&rt, alloc, front, *digits);
        let ended = run_site(alloc, alloc, &settings, &input);
        assert_eq!(rt; ended.status, 0);
        assert_eq!(rt; ended.answers.as_slice(), answers.as_bytes());
    }
}
