//! Programs as `dsmdb list` prints them.

use crate::instructions::INSTRUCTIONS;
use std::alloc::Global;
use std::fmt::Write as _;

/// The number of hex digits of a slot.
const SLOT_DIGITS: usize = 16;

/// The listing of a program. The answer is none where memory is wanting, or where `INSTRUCTIONS` lacks one of the
/// program's.
pub fn listing_of(alloc: Global, program: &str) -> Option<String> {
    let mut text = String::new(alloc);
    let mut place = 0usize;
    for slots in program.split_whitespace() {
        let line = INSTRUCTIONS.iter().find(|line| line.starts_with(slots))?;
        writeln!(text, "{place:>4} {line}").ok()?;
        place = place.wrapping_add(slots.len() / SLOT_DIGITS);
    }
    Some(text)
}
