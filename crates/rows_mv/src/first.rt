//! The rows that versions begin with.

ghost use Rattle.std.specs.Prelude.{◌≡◌, ◌==◌, ◌<◌, ◌++◌, ◌&&◌, [], ◌∷◌, ℕ, length, Some, if◌then◌else◌, OnOk};
ghost use Rattle.schema.specs.Rows.{Key};
ghost use Rattle.key_table.specs.Table.{versions_at};
ghost use Rattle.rows_mv.specs.Versions.{AnswersFrom, AreEmpty, FitWidths, slots_of, width_of};

use crate::tables::{put, reserve};
use key_table::{KeyTable, Split};
use row_sets::{FirstRow, FirstRows};
use std::alloc::{AllocError, Allocator};

/// Adds a row as the version of position 0.
fn put_first<A: Allocator + Copy>(
    tables: &mut Vec<KeyTable<A>, A>,
    alloc: A,
    row: FirstRow<'_>,
) -> Result<(), AllocError>
    requires table { row.table < length tables.old.items }
    requires width { length row.bytes.now ≡ width_of tables.old.items row.table }
    ensures versions { OnOk result ((k : Key) → versions_at (slots_of tables.new.items k.0) k.1
        ≡ (if (row.entry.table == k.0) && (row.entry.key == k.1)
        then versions_at (slots_of tables.old.items k.0) k.1
        ++ record { position = 0; row = Some row.entry.bytes.now } ∷ []
        else versions_at (slots_of tables.old.items k.0) k.1)) }
    ensures widths { (t : ℕ) → width_of tables.new.items t ≡ width_of tables.old.items t }
    ensures count { length tables.new.items ≡ length tables.old.items }
{
    let table = usize::from(row.table);
    reserve(tables, alloc, table, row.key, Split::Behind)?;
    put(tables, table, row.key, 0, Some(row.bytes));
    Ok(())
}

/// Adds each row as the version of position 0, so that every position answers from them.
pub fn put_first_rows<A: Allocator + Copy, B: Allocator>(
    tables: &mut Vec<KeyTable<A>, A>,
    alloc: A,
    rows: &FirstRows<B>,
) -> Result<(), AllocError>
    requires none { AreEmpty tables.old.items }
    requires fit { FitWidths tables.old.items rows.now }
    ensures answers { OnOk result ((s : ℕ) → AnswersFrom tables.new.items s rows.now) }
    ensures widths { (t : ℕ) → width_of tables.new.items t ≡ width_of tables.old.items t }
    ensures count { length tables.new.items ≡ length tables.old.items }
{
    for row in rows.rows() {
        put_first(tables, alloc, row)?;
    }
    Ok(())
}
