//! Programs with arguments and rows, made from random numbers.

use super::generator::{Program, random_program};
use super::random::Random;
use plain_runner::Row;
use std::alloc::{AllocError, Global};

/// A call: a program, its arguments and the rows before it.
#[derive(Drop)]
pub(super) struct Call {
    pub(super) program: Program,
    pub(super) arguments: Vec<u8>,
    pub(super) rows: Vec<Row>,
}

pub(super) fn random_call(alloc: Global, random: &mut Random) -> Result<Call, AllocError> {
    Ok(Call {
        program: random_program(alloc, random),
        arguments: random_arguments(alloc, random),
        rows: random_rows(alloc, random)?,
    })
}

/// Four words of arguments. Where memory is wanting the words are fewer, and no call begins.
fn random_arguments(alloc: Global, random: &mut Random) -> Vec<u8> {
    let mut arguments = Vec::new(alloc);
    for _ in 0..4 {
        let _ = arguments.extend_from_slice(&random.word().to_le_bytes());
    }
    arguments
}

/// Draws 15 rows at most, of which a later one at a key replaces an earlier one.
fn random_rows(alloc: Global, random: &mut Random) -> Result<Vec<Row>, AllocError> {
    let mut rows = Vec::new(alloc);
    for _ in 0..random.below(16) {
        rows.push(random_row(alloc, random)?)?;
    }
    Ok(rows)
}

/// A row of 8 bytes in table 1, or of 2 in table 2, at a key that programs may ask for.
fn random_row(alloc: Global, random: &mut Random) -> Result<Row, AllocError> {
    let (table, width) = if random.below(2) == 0 { (1, 8) } else { (2, 2) };
    let key = random.below(9);
    let key = if key < 8 { u64::from(key) } else { u64::MAX };
    let bytes = Vec::from_slice(alloc, &random.word().to_le_bytes()[..width])?;
    Ok(Row::new(table, key, bytes))
}
