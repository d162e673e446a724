//! The rows after a position.

ghost use Rattle.std.specs.Prelude.{◌≡◌, IfOk, slice_index_or};
ghost use Rattle.std.specs.FinMap.{empty, entries};
ghost use Rattle.plain_runner.specs.Listed.{rows_of};

use plain_runner::{CompletedRun, KeyMap, Row};
use std::alloc::{AllocError, Allocator};
use std::marker::Model;

/// Rows in the order of tables and keys. Contracts see a finite map.
#[derive(Drop)]
pub struct RowList<A: Allocator> {
    rows: Vec<Row<A>, A>,
}

impl<A: Allocator> Model for RowList<A> {
    ghost use Rattle.std.specs.FinMap.{from_entries};
    ghost use Rattle.schema.specs.Rows.{Rows};
    ghost use Rattle.plain_runner.specs.Listed.{AreInOrder};
    ghost use Rattle.plain_replayer.specs.LogCodes.{rows_code};

    ghost Value = { Rows };

    ghost coded = { rows_code };

    ghost view = { λ list. from_entries list.rows.items };

    ghost invariant = { λ list. AreInOrder list.rows.items };
}

impl<A: Allocator> RowList<A> {
    /// No rows. Takes no memory.
    pub fn new(alloc: A) -> RowList<A>
        ensures { result ≡ empty }
    {
        RowList {
            rows: Vec::new(alloc),
        }
    }

    /// The rows, in order.
    pub fn as_slice(&self) -> &[Row<A>]
        ensures entries { result.now ≡ entries self.now }
        ensures rows { rows_of result.now ≡ self.now }
    {
        &self.rows
    }

    /// The rows that a run left. Takes no memory.
    pub fn left_by(run: CompletedRun<A>) -> RowList<A>
        ensures { result ≡ run.effect }
    {
        RowList {
            rows: run.into_rows(),
        }
    }
}

impl<A: Allocator + Copy> RowList<A> {
    /// The rows of a list, put one after another.
    pub fn from_rows<B: Allocator>(alloc: A, rows: &[Row<B>]) -> Result<RowList<A>, AllocError>
        ensures { IfOk result (λ list. list ≡ rows_of rows.now) }
    {
        let rows = KeyMap::from_rows(alloc, rows)?.into_list(alloc)?;
        Ok(RowList { rows })
    }
}

/// The rows after a position; none where the list doesn't reach so far.
pub fn rows_at<A: Allocator>(rows: &[RowList<A>], position: usize) -> &[Row<A>]
    ensures { rows_of result.now ≡ slice_index_or rows.now position empty }
{
    match rows.get(position) {
        Some(rows) => rows.as_slice(),
        None => &[],
    }
}
