use crate::stories::additions::{ADDED, of_additions};
use crate::stories::beginnings::{FAULTS_AT_FIRST, of_beginnings};
use crate::stories::requests::{SENT_TWICE, of_requests};
use crate::stories::{
    ADD_ENTRY, INCREMENT, PROGRAM_LINES, STOPS, Story, TWO_INCREMENTS, all_stories,
};
use scarce::Scarce;
use script_replay::replay_over;
use std::alloc::{AllocError, Allocator, Global};
use std::process::Abort;
use test_streams::{Full, Input, Output};

/// Joins lines, each with an LF.
fn joined(alloc: Global, lines: &[&str]) -> Result<Vec<u8>, AllocError> {
    let mut text = Vec::new(alloc);
    for line in lines {
        text.extend_from_slice(line.as_bytes())?;
        text.extend_from_slice(b"\n")?;
    }
    Ok(text)
}

/// Replays a script. Returns the exit status, what is printed, and what is said of faults.
fn replayed<A: Allocator + Copy>(
    alloc: A,
    global: Global,
    script: &[u8],
) -> (u8, Vec<u8>, Vec<u8>) {
    let mut input = script;
    let mut output = Vec::new(global);
    let mut faults = Vec::new(global);
    let status = replay_over(alloc, &mut input, &mut output, &mut faults);
    (status, output, faults)
}

/// Tells whether a script prints what it should, with one line said of its fault where it has one, and with the status
/// of that.
fn tells(alloc: Global, lines: &[&str], prints: &[&str], fault: &str) -> Result<bool, AllocError> {
    let script = joined(alloc, lines)?;
    let expected = joined(alloc, prints)?;
    let (status, output, faults) = replayed(alloc, alloc, &script);
    let said = if fault.is_empty() {
        Vec::new(alloc)
    } else {
        joined(alloc, &[fault])?
    };
    let is_faulty = u8::from(!fault.is_empty());
    Ok(
        status == is_faulty
            && output.as_slice() == expected.as_slice()
            && faults.as_slice() == said.as_slice(),
    )
}

#[test]
fn stories_print_what_they_should(rt: HostRuntime) {
    for (at, story) in all_stories()
        .iter()
        .chain(&of_additions())
        .chain(&of_requests())
        .chain(&of_beginnings())
        .enumerate()
    {
        let told = tells(rt.alloc(), story.lines, story.prints, story.fault).expect(&rt, "memory");
        assert!(rt; told, "story {at}");
    }
}

#[test]
fn a_line_has_a_program_or_its_fault(rt: HostRuntime) {
    for (line, fault) in &PROGRAM_LINES {
        let told = tells(rt.alloc(), &[*line], &[], fault).expect(&rt, "memory");
        assert!(rt; told, "{line}");
    }
}

#[test]
fn rows_and_requests_at_first_have_their_faults(rt: HostRuntime) {
    for (lines, fault) in &FAULTS_AT_FIRST {
        let told = tells(rt.alloc(), lines, &[], fault).expect(&rt, "memory");
        assert!(rt; told, "{fault}");
    }
}

const ONE: &str = "proc one 9 0 b7000000010000009500000000000000";

/// Lines, what they print, and the fault of the last.
const FAULTS: [(&[&str], &[&str], &str); 31] = [
    (&["window\t4"], &[], "line 1: L1"),
    (&["jump 1"], &[], "line 1: L2"),
    (&["window"], &[], "line 1: L3"),
    (&["begin 1 one - 7"], &[], "line 1: L3"),
    (&["add one 9 0"], &[], "line 1: L3"),
    (&["window 0"], &[], "line 1: L4"),
    (&["begin 1 one - 0 1"], &[], "line 1: L4"),
    (&["begin 1 one - 7 0"], &[], "line 1: L4"),
    (&["add one 9 257 -"], &[], "line 1: L4"),
    (&["deliver 1 1"], &[], "line 1: L5"),
    (&["begin 1 one - 7 1"], &[], "line 1: L5"),
    (&["add one 9 0 -"], &[], "line 1: L5"),
    (&["table 0 8"], &[], "line 1: L6 S1"),
    (&["proc x 1 0 -"], &[], "line 1: L7 B1 slot 0"),
    (
        &["proc a-b 1 0 b7000000010000009500000000000000"],
        &[],
        "line 1: L8 C4",
    ),
    (
        &["proc  1 0 b7000000010000009500000000000000"],
        &[],
        "line 1: L8 C4",
    ),
    (&["", "# a comment", "window 4", "log"], &[], "line 4: L5"),
    (&["replicas 2", "entry 1"], &[], "line 2: L5"),
    (&["window 4", "window 4"], &[], "line 2: L5"),
    (&[ONE, "table 1 8"], &[], "line 2: L5"),
    (
        &["window 4", "replicas 1", "log", "window 4"],
        &["log 0"],
        "line 4: L5",
    ),
    (
        &["window 4", "replicas 1", "log", "replicas 1"],
        &["log 0"],
        "line 4: L5",
    ),
    (
        &["window 4", "replicas 1", "log", "table 1 8"],
        &["log 0"],
        "line 4: L5",
    ),
    (
        &["window 4", "replicas 1", "log", ONE],
        &["log 0"],
        "line 4: L5",
    ),
    (
        &["window 4", "replicas 1", "log", "row 1 5 0a"],
        &["log 0"],
        "line 4: L5",
    ),
    (
        &["window 4", "replicas 1", "log", "request 7 1 10 1 -"],
        &["log 0"],
        "line 4: L5",
    ),
    (
        &["window 4", "replicas 1", "log", "turn 1 0", "log"],
        &["log 0"],
        "line 4: L4",
    ),
    (
        &["window 4", "replicas 1", "rows 2", "deliver 1"],
        &["replica 2 refused P1"],
        "line 4: L3",
    ),
    (&["table 1 8", "table 1 8"], &[], "line 2: L6 S3"),
    (&[ONE, ONE], &[], "line 2: L8 C1"),
    (&["table 1 129"], &[], "line 1: L6 S2"),
];

#[test]
fn a_line_at_fault_ends_the_script(rt: HostRuntime) {
    for (lines, prints, fault) in FAULTS {
        assert!(rt;
            tells(rt.alloc(), lines, prints, fault).expect(&rt, "memory"),
            "{fault}"
        );
    }
}

/// Settings alone print nothing, and an empty script prints nothing. The last line may lack its LF.
#[test]
fn scripts_may_end_anywhere(rt: HostRuntime) {
    let alloc = rt.alloc();
    assert!(rt; tells(alloc, &[], &[], "").expect(&rt, "memory"));
    assert!(rt; tells(alloc, &["window 4", "", "# no replicas"], &[], "").expect(&rt, "memory"));
    let (status, output, faults) = replayed(alloc, alloc, b"window 4\nreplicas 1\nlog");
    assert_eq!(rt;
        (status, output.as_slice(), faults.is_empty()),
        (0, b"log 0\n".as_slice(), true)
    );
}

/// A comment of `len` bytes, and a line behind it.
fn long_comment(alloc: Global, len: usize) -> Result<Vec<u8>, AllocError> {
    let mut script = vec![in alloc; b'#'; len]?;
    script.extend_from_slice(b"\nwindow 4")?;
    Ok(script)
}

#[test]
fn lines_have_at_most_70000_bytes(rt: HostRuntime) {
    let alloc = rt.alloc();
    let longest = long_comment(alloc, 70_000).expect(&rt, "memory");
    let (status, _, faults) = replayed(alloc, alloc, &longest);
    assert_eq!(rt; (status, faults.len()), (0, 0));
    let longer = long_comment(alloc, 70_001).expect(&rt, "memory");
    let (status, _, faults) = replayed(alloc, alloc, &longer);
    assert_eq!(rt;
        (status, faults.as_slice()),
        (1, b"line 1: L1\n".as_slice())
    );
}

/// Tells whether a text begins with another.
fn begins_with(whole: &[u8], front: &[u8]) -> bool {
    whole.get(..front.len()) == Some(front)
}

/// The number of lines of the long script that set things. Each further line prints a line.
const SETTINGS: usize = 4;

/// The number of lines of the long script that show an entry.
const ENTRIES: usize = 25;

const ENTRY_LINE: &[u8] = b"entry 1\n";

/// The number of bytes that the page of 4,096 bytes has when it leaves. They are three short lines, 22 of 177 bytes,
/// and a part of one more: 8 bytes of words and 67 bytes in hex.
const FIRST_PAGE: usize = 59 + 22 * 177 + 8 + 67 * 2;

/// The number of bytes of the script behind the line that needs the page's room.
const BEHIND_FIRST_PAGE: usize = 2 * 8;

/// A script that prints more than a page, and what it prints: a call, and then its entry again and again.
fn long_script(alloc: Global) -> Result<(Vec<u8>, Vec<u8>), AllocError> {
    let mut script = joined(alloc, INCREMENT.lines)?;
    let mut prints = joined(alloc, INCREMENT.prints)?;
    for _ in 0..ENTRIES {
        script.extend_from_slice(ENTRY_LINE)?;
        prints.extend_from_slice(ADD_ENTRY.as_bytes())?;
        prints.extend_from_slice(b"\n")?;
    }
    Ok((script, prints))
}

/// Returns the number of lines that end in a text.
fn line_count(text: &[u8]) -> usize {
    text.iter().filter(|byte| **byte == b'\n').count()
}

/// Returns the first `count` lines of a text.
fn first_lines(text: &[u8], count: usize) -> &[u8] {
    let mut ended = 0usize;
    for (at, byte) in text.iter().enumerate() {
        if ended == count {
            return text.get(..at).unwrap_or(text);
        }
        ended = ended.wrapping_add(usize::from(*byte == b'\n'));
    }
    text
}

/// An input that fails leaves printed exactly what the lines before it print, and the status is 3.
#[test]
fn a_failing_input_answers_3(rt: HostRuntime) {
    let alloc = rt.alloc();
    let (script, prints) = long_script(alloc).expect(&rt, "memory");
    for len in 0..=script.len() {
        let (front, _) = script.split_at(len);
        let mut input = Input {
            left: front,
            at_once: len % 7 + 1,
            fails: true,
        };
        let mut output = Vec::new(alloc);
        let mut faults = Vec::new(alloc);
        let status = replay_over(alloc, &mut input, &mut output, &mut faults);
        let printed = first_lines(&prints, line_count(front).saturating_sub(SETTINGS));
        assert_eq!(rt; (status, faults.is_empty()), (3, false));
        assert_eq!(rt; output.as_slice(), printed, "{len}");
    }
}

/// Replays a script over an output with this much room. Tells whether the status is 3 and something is said of the
/// fault. The output has to hold what there was room for and not be asked again, and `unread` bytes of the script have
/// to be left.
fn ends_at(
    alloc: Global,
    script: &[u8],
    prints: &[u8],
    room: usize,
    full: Full,
    unread: usize,
) -> bool {
    let mut input = script;
    let mut output = Output::new(alloc, room, room % 600 + 1, full);
    let mut faults = Vec::new(alloc);
    let status = replay_over(alloc, &mut input, &mut output, &mut faults);
    let said = status == 3 && !faults.is_empty();
    let held = prints.get(..room) == Some(output.held.as_slice());
    said && held && output.after_failure == 0 && input.len() == unread
}

/// An output that fails holds what came before, and the status is 3. The first page may not be able to leave: then no
/// line is read behind the one that needs its room. What is printed after the first page leaves at the end, when the
/// whole script is read.
#[test]
fn a_script_ends_where_its_output_fails(rt: HostRuntime) {
    let alloc = rt.alloc();
    let (script, prints) = long_script(alloc).expect(&rt, "memory");
    for full in [Full::Fails, Full::TakesNothing] {
        for room in 0..prints.len() {
            let unread = if room < FIRST_PAGE {
                BEHIND_FIRST_PAGE
            } else {
                0
            };
            let ends = ends_at(alloc, &script, &prints, room, full, unread);
            assert!(rt; ends, "{room}");
        }
    }
}

/// An output that takes a byte at a time has all in the end. The status is 3 where its flush fails then.
#[test]
fn outputs_may_take_little_at_once(rt: HostRuntime) {
    let alloc = rt.alloc();
    let (script, prints) = long_script(alloc).expect(&rt, "memory");
    for (flushes, wanted) in [(true, 0), (false, 3)] {
        let mut input = script.as_slice();
        let mut output = Output::new(alloc, prints.len(), 1, Full::Fails);
        output.flushes = flushes;
        let mut faults = Vec::new(alloc);
        let status = replay_over(alloc, &mut input, &mut output, &mut faults);
        assert_eq!(rt; (status, faults.is_empty()), (wanted, flushes));
        assert_eq!(rt; output.held.as_slice(), prints.as_slice());
    }
}

/// A writer for faults that fails, or takes nothing, changes neither the output nor the status.
#[test]
fn faults_may_find_no_room(rt: HostRuntime) {
    let alloc = rt.alloc();
    let script = joined(alloc, &["window 4", "replicas 1", "log", "jump"]).expect(&rt, "memory");
    for full in [Full::Fails, Full::TakesNothing] {
        for room in 0..11 {
            let mut input = script.as_slice();
            let mut output = Vec::new(alloc);
            let mut faults = Output::new(alloc, room, 3, full);
            let status = replay_over(alloc, &mut input, &mut output, &mut faults);
            assert_eq!(rt; (status, output.as_slice()), (1, b"log 0\n".as_slice()));
            assert_eq!(rt; Some(faults.held.as_slice()), b"line 4: L2\n".get(..room));
        }
    }
}

/// The course of a replay that found no memory once.
#[derive(Clone, Copy, PartialEq, Eq)]
enum Course {
    /// The script ended there, with all that was printed before.
    Ended,
    /// A step was refused, and the script went on.
    WentOn,
    /// The script came to what it comes to with memory.
    Same,
}

/// Tells whether some line says that there was no memory.
fn says_no_memory(output: &[u8]) -> bool {
    let text = str::from_utf8(output).unwrap_or("");
    text.contains(" refused P9\n") || text.contains(" no memory\n")
}

/// Returns the course of a replay, where it is one.
fn course_of(status: u8, output: &[u8], faults: &[u8], prints: &[u8]) -> Option<Course> {
    if status == 3 {
        let told = faults.ends_with(b": L9\n") && begins_with(prints, output);
        let lines = output.is_empty() || output.ends_with(b"\n");
        return if told && lines {
            Some(Course::Ended)
        } else {
            None
        };
    }
    if status != 0 || !faults.is_empty() {
        return None;
    }
    if output == prints {
        return Some(Course::Same);
    }
    if says_no_memory(output) {
        Some(Course::WentOn)
    } else {
        None
    }
}

/// More growths than any replay of these tests makes.
const MOST: u64 = 2_000;

/// Replays a story with each growth refused in turn, up to the first that it doesn't make. Tells whether each course is
/// one that the replay may take, some growth ends it behind what it printed, and some growth refuses a step.
fn goes_well(rt: &impl Abort, alloc: Global, scarce: &Scarce, story: &Story) -> bool {
    let script = joined(alloc, story.lines).expect(rt, "memory");
    let prints = joined(alloc, story.prints).expect(rt, "memory");
    let before = scarce.refused();
    let (mut ended_late, mut went_on) = (false, false);
    for nth in 1..MOST {
        scarce.refuse_nth(nth);
        let (status, output, faults) = replayed(scarce, alloc, &script);
        if scarce.refused() < before.saturating_add(nth) {
            scarce.refuse_nth(0);
            return ended_late && went_on;
        }
        let course = course_of(status, &output, &faults, &prints);
        if course.is_none() {
            return false;
        }
        ended_late = ended_late || (course == Some(Course::Ended) && !output.is_empty());
        went_on = went_on || course == Some(Course::WentOn);
    }
    false
}

/// Each growth of a replay is refused in turn. Several of them end the script, and several refuse a step.
#[test]
fn growths_are_refused_in_turn(rt: HostRuntime) {
    let scarce = Scarce::new(rt.alloc());
    for (at, story) in [&TWO_INCREMENTS, &ADDED, &SENT_TWICE].iter().enumerate() {
        assert!(rt; goes_well(&rt, rt.alloc(), &scarce, story), "story {at}");
    }
}

/// A growth exists without which the replica is stopped. The script then goes on as the story says.
#[test]
fn a_stopped_replica_is_made_anew(rt: HostRuntime) {
    let alloc = rt.alloc();
    let script = joined(alloc, STOPS.lines).expect(&rt, "memory");
    let prints = joined(alloc, STOPS.prints).expect(&rt, "memory");
    let scarce = Scarce::new(alloc);
    for nth in 1..MOST {
        scarce.refuse_nth(nth);
        let (status, output, _) = replayed(&scarce, alloc, &script);
        if status == 0 && output.as_slice() == prints.as_slice() {
            return;
        }
        assert_eq!(rt; scarce.refused(), nth);
    }
    assert!(rt; false, "no growth stops the replica");
}
