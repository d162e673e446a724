//! Byte strings that somebody changed.

use super::runs::{joined, run_site};
use crate::stories::{CALL, CALL_BYTES, SETTINGS, SUBMITTED};
use std::alloc::Global;
use std::io::Write;
use std::process::Abort;

/// The number of bytes of the head of a call with 16 bytes of arguments.
const HEAD: usize = 45;

/// The outcome of a byte string that is the first.
#[derive(Clone, Copy)]
enum Fate {
    /// The byte string commits with reply 10.
    Commits,
    /// The byte string is nothing, and may carry a request.
    Nothing { cause: u8, has_request: bool },
}

/// Returns the outcome of a call of `add` that adds 10 to a row where none is. The call's byte at a place was changed
/// in these bits.
fn fate_of(place: usize, bits: u8) -> Fate {
    let (cause, has_request) = match place {
        // the kind of entry, or a sequence number of 0
        0 => (1, false),
        5 if bits == 1 => (1, false),
        // another request or call number, with the same run
        1..=12 => return Fate::Commits,
        // another procedure
        13 | 14 => (4, true),
        // one more byte of arguments, so that the snapshot stands in the reply; or more arguments than there are bytes
        15 if bits == 1 => (3, true),
        15 | 16 => (1, false),
        // a snapshot that is yet to come
        33..=36 => (3, true),
        // another run
        _ => (5, true),
    };
    Fate::Nothing { cause, has_request }
}

/// The little-endian number in the four bytes from a place on.
fn number_at(bytes: &[u8], place: usize) -> u32 {
    let mut number: u32 = 0;
    for at in 0..4usize {
        let byte = bytes
            .get(place.saturating_add(3 - at))
            .copied()
            .unwrap_or(0);
        number = number.wrapping_mul(256).wrapping_add(u32::from(byte));
    }
    number
}

/// The line that is answered to a byte string.
fn line_of(rt: &impl Abort, alloc: Global, bytes: &[u8], fate: Fate) -> Vec<u8> {
    let mut line = Vec::new(alloc);
    let has_request = match fate {
        Fate::Commits => {
            write!(line, "entry 1 commit reply 10").expect(rt, "memory");
            true
        }
        Fate::Nothing { cause, has_request } => {
            write!(line, "entry 1 nothing E{cause}").expect(rt, "memory");
            has_request
        }
    };
    if has_request {
        let session = number_at(bytes, 1);
        let sequence = number_at(bytes, 5);
        write!(line, " session {session} seq {sequence}").expect(rt, "memory");
    }
    writeln!(line, "").expect(rt, "memory");
    line
}

/// The digit of a number below 16.
fn digit_of(number: u8) -> u8 {
    if number < 10 {
        b'0'.wrapping_add(number)
    } else {
        (b'a' - 10).wrapping_add(number)
    }
}

/// The line that gives a byte string to a site.
fn entry_line(rt: &impl Abort, alloc: Global, bytes: &[u8]) -> Vec<u8> {
    let mut line = Vec::from_slice(alloc, b"entry ").expect(rt, "memory");
    if bytes.is_empty() {
        line.push(b'-').expect(rt, "memory");
    }
    for byte in bytes {
        line.extend_from_slice(&[digit_of(byte / 16), digit_of(byte % 16)])
            .expect(rt, "memory");
    }
    line.push(b'\n').expect(rt, "memory");
    line
}

/// Three texts behind one another.
fn together(rt: &impl Abort, alloc: Global, first: &[u8], second: &[u8], third: &[u8]) -> Vec<u8> {
    let mut all = Vec::from_slice(alloc, first).expect(rt, "memory");
    all.extend_from_slice(second).expect(rt, "memory");
    all.extend_from_slice(third).expect(rt, "memory");
    all
}

/// Tells whether a site answers its input so.
fn answers(alloc: Global, settings: &[u8], input: &[u8], wanted: &[u8]) -> bool {
    let ended = run_site(alloc, alloc, settings, input);
    ended.status == 0 && ended.answers.as_slice() == wanted
}

/// Tells whether a site that is given the byte string answers it so. A site that is asked something before and behind
/// it has to answer so too.
fn meets(rt: &impl Abort, alloc: Global, settings: &[u8], bytes: &[u8], fate: Fate) -> bool {
    let line = entry_line(rt, alloc, bytes);
    let answer = line_of(rt, alloc, bytes, fate);
    let call = joined(rt, alloc, &[CALL]);
    let submitted = joined(rt, alloc, &[SUBMITTED]);
    let input = together(rt, alloc, &call, &line, b"position\n");
    let wanted = together(rt, alloc, &submitted, &answer, b"position 1\n");
    answers(alloc, settings, &line, &answer) && answers(alloc, settings, &input, &wanted)
}

/// Each byte of an entry is changed in turn, and is answered alike at two sites.
#[test]
fn changed_entries_commit_or_are_nothing(rt: HostRuntime) {
    let alloc = rt.alloc();
    let settings = joined(&rt, alloc, &SETTINGS);
    for place in 0..CALL_BYTES.len() {
        for bits in [1, 128, 255] {
            let mut bytes = CALL_BYTES;
            if let Some(byte) = bytes.get_mut(place) {
                *byte ^= bits;
            }
            let fate = fate_of(place, bits);
            let met = meets(&rt, alloc, &settings, &bytes, fate);
            assert!(rt; met, "{place} {bits}");
        }
    }
}

/// An entry that is cut at any length is nothing.
#[test]
fn cut_entries_are_nothing(rt: HostRuntime) {
    let alloc = rt.alloc();
    let settings = joined(&rt, alloc, &SETTINGS);
    for length in 0..CALL_BYTES.len() {
        let (bytes, _) = CALL_BYTES.split_at(length);
        let has_request = length >= HEAD;
        let cause = if has_request { 5 } else { 1 };
        let fate = Fate::Nothing { cause, has_request };
        let met = meets(&rt, alloc, &settings, bytes, fate);
        assert!(rt; met, "{length}");
    }
}
