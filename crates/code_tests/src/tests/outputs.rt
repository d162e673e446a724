use super::same;
use byte_output::paged::{PAGE_BYTES, PagedOutput};
use byte_output::{line, put};
use std::alloc::Global;
use std::io;
use std::io::{ErrorKind, Write};
use std::process::Abort;

/// The answer of a write: a number of bytes, an interruption or a failure.
#[derive(Clone, Copy)]
enum Turn {
    Takes(usize),
    Interrupted,
    Fails,
}

/// An output that keeps what it took, and may refuse to be flushed.
#[derive(Drop)]
struct Scripted {
    turns: Vec<Turn>,
    held: Vec<u8>,
    flushes: bool,
}

impl Write for Scripted {
    fn write(&mut self, buf: &[u8]) -> io::Result<usize> {
        let taken = match self.turns.pop() {
            Some(Turn::Takes(count)) => buf.len().min(count),
            Some(Turn::Interrupted) => return Err(io::Error::from(ErrorKind::Interrupted)),
            Some(Turn::Fails) | None => return Err(io::Error::from(ErrorKind::Other)),
        };
        let (front, _) = buf.split_at(taken);
        self.held.extend_from_slice(front)?;
        Ok(taken)
    }

    fn flush(&mut self) -> io::Result<()> {
        if self.flushes {
            Ok(())
        } else {
            Err(io::Error::from(ErrorKind::Other))
        }
    }
}

/// Makes an output of turns, of which the last is answered first.
fn output_of(rt: &impl Abort, alloc: Global, turns: &[Turn]) -> Scripted {
    Scripted {
        turns: turns.to_vec(alloc).expect(rt, "the turns"),
        held: Vec::new(alloc),
        flushes: true,
    }
}

fn holds(rt: &impl Abort, output: &Scripted, wanted: &[u8]) {
    assert_eq!(rt; output.held.as_slice(), wanted);
}

/// Returns the answer of a write of a text. The output holds `held` then.
fn writes(rt: &impl Abort, alloc: Global, turns: &[Turn], held: &[u8]) -> io::Result<()> {
    let mut output = output_of(rt, alloc, turns);
    let answer = put(&mut output, b"hello");
    holds(rt, &output, held);
    answer
}

static GOES_ON: [Turn; 3] = [Turn::Takes(9), Turn::Interrupted, Turn::Takes(2)];

static FAILS: [Turn; 2] = [Turn::Fails, Turn::Takes(2)];

static TAKES_NOTHING: [Turn; 3] = [Turn::Takes(9), Turn::Takes(0), Turn::Takes(2)];

fn takes_nothing(answer: io::Result<()>) -> bool {
    match answer {
        Ok(()) => false,
        Err(error) => matches!(error.kind(), ErrorKind::WriteZero),
    }
}

#[test]
fn short_writes_go_on_and_failures_leave_a_beginning(rt: HostRuntime) {
    assert!(rt; writes(&rt, rt.alloc(), &GOES_ON, b"hello").is_ok());
    assert!(rt; writes(&rt, rt.alloc(), &FAILS, b"he").is_err());
    assert!(rt; takes_nothing(writes(&rt, rt.alloc(), &TAKES_NOTHING, b"he")));
}

#[test]
fn a_line_has_its_labels_and_numbers(rt: HostRuntime) {
    let mut line = line::LineBuffer::new();
    line::push(&mut line, b"a");
    line::push_unsigned(&mut line, " b ", 18446744073709551615);
    line::push_signed(&mut line, " c ", -2147483648);
    assert_eq!(rt;
        line.as_slice(),
        b"a b 18446744073709551615 c -2147483648".as_slice()
    );
}

static SHORT: [u8; 1000] = [7; 1000];

static PAGE: [u8; PAGE_BYTES] = [7; PAGE_BYTES];

static LONG: [u8; PAGE_BYTES + 1] = [7; PAGE_BYTES + 1];

static FIVE: [Turn; 5] = [Turn::Takes(usize::MAX); 5];

fn repeated(rt: &impl Abort, alloc: Global, text: &[u8], times: usize) -> Vec<u8> {
    let mut all = Vec::new(alloc);
    for _ in 0..times {
        all.extend_from_slice(text).expect(rt, "a text");
    }
    all
}

fn give(rt: &impl Abort, output: &mut Scripted, text: &[u8], times: usize) {
    let mut pages = PagedOutput::new(output);
    for _ in 0..times {
        pages.put(text).expect(rt, "a text");
    }
    pages.finish().expect(rt, "the end");
}

/// Asserts that a text that is given `times` times leaves `left` of five writes.
fn leaves(rt: &impl Abort, alloc: Global, text: &[u8], times: usize, left: usize) {
    let mut output = output_of(rt, alloc, &FIVE);
    give(rt, &mut output, text, times);
    holds(rt, &output, &repeated(rt, alloc, text, times));
    let len = text.len();
    same(
        rt,
        "length, writes left",
        (len, output.turns.len()),
        (len, left),
    );
}

/// Small texts leave in one write, and a text that is longer than a page leaves by itself.
#[test]
fn a_page_is_kept_in_front_of_the_output(rt: HostRuntime) {
    leaves(&rt, rt.alloc(), b"", 3, 5);
    leaves(&rt, rt.alloc(), b"abc", 3, 4);
    leaves(&rt, rt.alloc(), &SHORT, 5, 3);
    leaves(&rt, rt.alloc(), &PAGE, 2, 3);
    leaves(&rt, rt.alloc(), &LONG, 2, 3);
}

fn is_finished(rt: &impl Abort, output: &mut Scripted) -> bool {
    let mut pages = PagedOutput::new(output);
    pages.put(b"hello").expect(rt, "a text");
    pages.finish().is_ok()
}

#[test]
fn a_flush_that_fails_is_a_failure(rt: HostRuntime) {
    let mut output = output_of(&rt, rt.alloc(), &[Turn::Takes(9)]);
    output.flushes = false;
    assert!(rt; !is_finished(&rt, &mut output));
    holds(&rt, &output, b"hello");
}
