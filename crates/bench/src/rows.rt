//! Puts rows of drawn keys and reads them, for measurements from outside: time and memory are taken by whoever starts
//! the program (bench/rows does).

mod row_table;

use crate::number_at;
use crate::rows::row_table::RowTable;
use std::alloc::{AllocError, Global};

/// A drawn key: each number has another key.
fn drawn(number: u64) -> u64 {
    let first = number.wrapping_mul(0x9e37_79b9_7f4a_7c15);
    let second = (first ^ (first >> 30)).wrapping_mul(0xbf58_476d_1ce4_e5b9);
    let third = (second ^ (second >> 27)).wrapping_mul(0x94d0_49bb_1331_11eb);
    third ^ (third >> 31)
}

/// Puts a first version of `keys` keys.
fn fill(table: &mut RowTable, alloc: Global, keys: u64) -> Result<(), AllocError> {
    for number in 0..keys {
        table.put(alloc, drawn(number), 1)?;
    }
    Ok(())
}

/// The number of a key that is there, as drawn for the n-th of some calls.
fn picked(call: u64, keys: u64) -> u64 {
    drawn(call ^ 0x1234_5678).checked_rem(keys).unwrap_or(0)
}

/// Puts one more version of drawn keys.
fn fill_again(
    table: &mut RowTable,
    alloc: Global,
    keys: u64,
    versions: u64,
) -> Result<(), AllocError> {
    for call in 0..versions {
        table.put(alloc, drawn(picked(call, keys)), 2)?;
    }
    Ok(())
}

/// Reads drawn keys, and returns the number of those that have a row.
fn read(table: &RowTable, keys: u64, reads: u64) -> u64 {
    let mut found = 0u64;
    for call in 0..reads {
        if table.has_row(2, drawn(picked(call, keys))) {
            found = found.wrapping_add(1);
        }
    }
    found
}

pub(crate) fn run(rt: &HostRuntime, words: &[String]) -> anyhow::Result<()> {
    let alloc = rt.alloc();
    let keys = number_at(words, 1, "the number of keys")?;
    let reads = number_at(words, 2, "the number of reads")?;
    let versions = number_at(words, 3, "the number of versions more")?;
    let mut table = RowTable::new(alloc);
    fill(&mut table, alloc, keys)?;
    fill_again(&mut table, alloc, keys, versions)?;
    let found = read(&table, keys, reads);
    println!(rt; "keys {keys} found {found}")?;
    // The table isn't dropped, so that only what is measured takes time.
    std::mem::forget(table);
    Ok(())
}
