//! Runs a procedure of straight instructions again and again, at once or by turns, or verifies one again and again, for
//! measurements from outside: it says how many instructions were run, or slots were read, and the time is taken by
//! whoever starts it (bench/machine does).

use crate::number_at;
use anyhow::Context;
use bpf_bytes::decode;
use bpf_verify::{Accepted, verify};
use plain_runner::Row;
use plain_site::{complete_call, run_call};
use schema::Schema;
use std::alloc::Global;

/// The kind of a procedure: what each of its instructions, or each few, does.
#[derive(Clone, Copy, Debug, PartialEq, Eq)]
enum Kind {
    /// Arithmetic on registers.
    Arithmetic,
    /// Stores and loads in turn, on the stack.
    Memory,
    /// Ten instructions over seven registers, with a load, a store and a branch that is never taken.
    Mixed,
    /// Calls that get a row, each with the four instructions that make its arguments.
    Gets,
    /// Calls that put a row, each with five instructions before it.
    Puts,
    /// Calls that remove a row, each with two instructions before it.
    Removals,
    /// Calls that count the rows of an interval, each with three instructions before it.
    Counts,
    /// Calls that look for the next row of an interval, each with seven instructions before it.
    Nexts,
}

/// r1 is 1, the table.
const TABLE: [u8; 8] = [0xb7, 0x01, 0, 0, 1, 0, 0, 0];

/// r2 is 5, a key.
const KEY: [u8; 8] = [0xb7, 0x02, 0, 0, 5, 0, 0, 0];

/// r2 is 2, the first key of an interval, and r3 is 5, the last.
const FIRST_KEY: [u8; 8] = [0xb7, 0x02, 0, 0, 2, 0, 0, 0];

const LAST_KEY: [u8; 8] = [0xb7, 0x03, 0, 0, 5, 0, 0, 0];

/// r3 is the end of the stack, and then the place of its last eight bytes.
const STACK_END: [u8; 8] = [0xbf, 0xa3, 0, 0, 0, 0, 0, 0];

const LAST_WORD: [u8; 8] = [0x07, 0x03, 0, 0, 0xf8, 0xff, 0xff, 0xff];

/// r6 is stored in the last eight bytes of the stack.
const STORE: [u8; 8] = [0x7b, 0x6a, 0xf8, 0xff, 0, 0, 0, 0];

/// The calls that get a row and put a row.
const GET: [u8; 8] = [0x85, 0, 0, 0, 1, 0, 0, 0];

const PUT: [u8; 8] = [0x85, 0, 0, 0, 2, 0, 0, 0];

impl Kind {
    fn from_word(word: &str) -> Option<Kind> {
        match word {
            "arithmetic" => Some(Kind::Arithmetic),
            "memory" => Some(Kind::Memory),
            "mixed" => Some(Kind::Mixed),
            "gets" => Some(Kind::Gets),
            "puts" => Some(Kind::Puts),
            "removals" => Some(Kind::Removals),
            "counts" => Some(Kind::Counts),
            "nexts" => Some(Kind::Nexts),
            _ => None,
        }
    }

    /// The instructions that are repeated. r1 to r3 and r6 to r9 are numbers.
    fn body(self) -> &'static [[u8; 8]] {
        match self {
            Kind::Arithmetic => &[
                [0x0f, 0x76, 0, 0, 0, 0, 0, 0],
                [0xaf, 0x67, 0, 0, 0, 0, 0, 0],
                [0x27, 0x06, 0, 0, 3, 0, 0, 0],
                [0x77, 0x07, 0, 0, 1, 0, 0, 0],
            ],
            Kind::Memory => &[STORE, [0x79, 0xa7, 0xf8, 0xff, 0, 0, 0, 0]],
            Kind::Mixed => &[
                [0x0f, 0x76, 0, 0, 0, 0, 0, 0],
                [0xa7, 0x08, 0, 0, 5, 0, 0, 0],
                [0x7b, 0x6a, 0xf0, 0xff, 0, 0, 0, 0],
                [0x07, 0x09, 0, 0, 1, 0, 0, 0],
                [0x79, 0xa3, 0xf0, 0xff, 0, 0, 0, 0],
                [0x15, 0x09, 0, 0, 0, 0, 0, 0],
                [0xbf, 0x81, 0, 0, 0, 0, 0, 0],
                [0x67, 0x02, 0, 0, 1, 0, 0, 0],
                [0x4f, 0x21, 0, 0, 0, 0, 0, 0],
                [0x77, 0x02, 0, 0, 1, 0, 0, 0],
            ],
            Kind::Gets => &[TABLE, KEY, STACK_END, LAST_WORD, GET],
            Kind::Puts => &[STORE, TABLE, KEY, STACK_END, LAST_WORD, PUT],
            Kind::Removals => &[TABLE, KEY, [0x85, 0, 0, 0, 3, 0, 0, 0]],
            Kind::Counts => &[TABLE, FIRST_KEY, LAST_KEY, [0x85, 0, 0, 0, 4, 0, 0, 0]],
            Kind::Nexts => &[
                TABLE,
                FIRST_KEY,
                LAST_KEY,
                [0xbf, 0xa4, 0, 0, 0, 0, 0, 0],
                [0x07, 0x04, 0, 0, 0xf8, 0xff, 0xff, 0xff],
                [0xbf, 0xa5, 0, 0, 0, 0, 0, 0],
                [0x07, 0x05, 0, 0, 0xf0, 0xff, 0xff, 0xff],
                [0x85, 0, 0, 0, 5, 0, 0, 0],
            ],
        }
    }
}

/// A program of `instructions` instructions and a few: the starts, what is repeated, and the end.
fn program(alloc: Global, kind: Kind, instructions: usize) -> Option<Vec<u8>> {
    let mut program = Vec::new(alloc);
    for (register, number) in [(6, 7), (7, 9), (8, 3), (9, 5), (1, 1), (2, 2), (3, 3)] {
        let start = [0xb7, register, 0, 0, number, 0, 0, 0];
        program.extend_from_slice(&start).ok()?;
    }
    let body = kind.body();
    for _ in 0..instructions / body.len().max(1) {
        for slot in body {
            program.extend_from_slice(slot).ok()?;
        }
    }
    program
        .extend_from_slice(&[0xbf, 0x60, 0, 0, 0, 0, 0, 0])
        .ok()?;
    program
        .extend_from_slice(&[0x95, 0, 0, 0, 0, 0, 0, 0])
        .ok()?;
    Some(program)
}

/// A procedure of 4,000 instructions and a few.
fn procedure(alloc: Global, kind: Kind) -> Option<Accepted> {
    let code = decode(alloc, &program(alloc, kind, 4_000)?).ok()?;
    let schema = Schema::new(alloc, &[(1, 8)]).ok()?;
    verify(alloc, code, &schema, 0).ok()
}

/// Reads a program of `instructions` instructions and a few `times` times, and verifies it or not. Returns the number
/// of slots that were read.
fn slots_read(alloc: Global, instructions: usize, times: u32, is_verified: bool) -> Option<u64> {
    let program = program(alloc, Kind::Mixed, instructions)?;
    let schema = Schema::new(alloc, &[(1, 8)]).ok()?;
    let mut slots = 0u64;
    for _ in 0..times {
        let code = decode(alloc, &program).ok()?;
        slots = slots.saturating_add(code.slots() as u64);
        if is_verified {
            verify(alloc, code, &schema, 0).ok()?;
        }
    }
    Some(slots)
}

/// Returns the number of instructions that a call ran, at once or by turns.
fn instructions(alloc: Global, procedure: &Accepted, rows: &[Row], by_turns: bool) -> Option<u32> {
    if by_turns {
        return Some(run_call(alloc, procedure, &[], rows, u32::MAX).ok()?.turns);
    }
    complete_call(alloc, procedure, &[], rows).ok()?;
    // The procedure's branches lead to the next instruction either way.
    Some(procedure.bound())
}

/// Returns the number of instructions that the calls ran together.
fn turns(alloc: Global, kind: Kind, calls: u32, by_turns: bool) -> Option<u64> {
    let procedure = procedure(alloc, kind)?;
    let mut rows = Vec::new(alloc);
    for key in 0..8 {
        let bytes = Vec::from_slice(alloc, &[1; 8]).ok()?;
        rows.push(Row::new(1, key, bytes)).ok()?;
    }
    let mut turns = 0u64;
    for _ in 0..calls {
        let of_call = instructions(alloc, &procedure, &rows, by_turns)?;
        turns = turns.saturating_add(u64::from(of_call));
    }
    Some(turns)
}

/// Reads what is measured, how often, and how. A kind of procedure is called, at once or by turns. Another choice is a
/// program of a number of instructions, which is read, and verified or not. Says how many instructions were run, or
/// slots read.
pub(crate) fn run(rt: &HostRuntime, words: &[String]) -> anyhow::Result<()> {
    let what = words.get(1).context("the first word is what is measured")?;
    let times = number_at(words, 2, "the second word is how often")?;
    let how = words.get(3).map(|word| word.as_str());
    if let Ok(instructions) = what.parse() {
        let slots = slots_read(rt.alloc(), instructions, times, how == Some("verify"));
        println!(rt; "slots {}", slots.context("memory is wanting")?)?;
        return Ok(());
    }
    let kind = Kind::from_word(what);
    let kind = kind.context("what is measured is a kind of procedure or a number of instructions")?;
    let turns = turns(rt.alloc(), kind, times, how == Some("turns"));
    println!(rt; "instructions {}", turns.context("memory is wanting")?)?;
    Ok(())
}
