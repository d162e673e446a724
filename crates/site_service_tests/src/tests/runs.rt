//! Sites that are run.

use crate::stories::Story;
use site_service::site_over;
use std::alloc::{Allocator, Global};
use std::process::Abort;

/// Joins lines, each with an LF.
pub(crate) fn joined(rt: &impl Abort, alloc: Global, lines: &[&str]) -> Vec<u8> {
    let mut text = Vec::new(alloc);
    for line in lines {
        text.extend_from_slice(line.as_bytes()).expect(rt, "memory");
        text.extend_from_slice(b"\n").expect(rt, "memory");
    }
    text
}

/// The end of a site: its status, its answers, and what is said of faults.
#[derive(Drop)]
pub(crate) struct Ended {
    pub(crate) status: u8,
    pub(crate) answers: Vec<u8>,
    pub(crate) faults: Vec<u8>,
}

/// Runs a site that has these settings and this input.
pub(crate) fn run_site<A: Allocator + Copy>(
    alloc: A,
    global: Global,
    settings: &[u8],
    input: &[u8],
) -> Ended {
    let mut settings = settings;
    let mut input = input;
    let mut answers = Vec::new(global);
    let mut faults = Vec::new(global);
    let status = site_over(alloc, &mut settings, &mut input, &mut answers, &mut faults);
    Ended {
        status,
        answers,
        faults,
    }
}

/// Tells whether a site answers its lines as a story says, and says nothing of faults.
pub(crate) fn tells(rt: &impl Abort, alloc: Global, story: &Story) -> bool {
    let settings = joined(rt, alloc, story.settings);
    let input = joined(rt, alloc, story.lines);
    let answers = joined(rt, alloc, story.answers);
    let ended = run_site(alloc, alloc, &settings, &input);
    ended.status == 0 && ended.faults.is_empty() && ended.answers.as_slice() == answers.as_slice()
}
