//! The rows that a database begins with.

ghost use Rattle.std.specs.Prelude.{◌≡◌, ◌==◌, true, T, length, OnOk, OnErr};
ghost use Rattle.std.specs.List.{list_all};
ghost use Rattle.std.specs.FinMap.{empty, entries, insert, is_sorted};
ghost use Rattle.std.specs.Ordering.{is_lt};
ghost use Rattle.schema.specs.Rows.{is_behind, key_cmp};

use crate::flat_rows::{FirstRowsLeft, FlatRows};
use std::alloc::{AllocError, Allocator, Global};
use std::marker::Model;

/// Rows in the order of tables and keys, each key once. Contracts see a finite map.
///
/// ```text
/// let mut rows = FirstRows::new(alloc);
/// if rows.is_behind(1, 5) {
///     rows.add(1, 5, &[0; 8])?;
/// }
/// ```
#[derive(Drop)]
pub struct FirstRows<A: Allocator = Global> {
    rows: FlatRows<A>,
}

impl<A: Allocator> Model for FirstRows<A> {
    ghost use Rattle.std.specs.Prelude.{ℕ, T};
    ghost use Rattle.std.specs.Coded.{coded×, coded_ℕ, coded_list};
    ghost use Rattle.std.specs.FinMap.{from_sorted, is_sorted, code};
    ghost use Rattle.schema.specs.Rows.{Rows, key_cmp};

    ghost Value = { Rows };

    ghost coded = { code (coded× coded_ℕ coded_ℕ) (coded_list coded_ℕ) };

    ghost view = { λ r. from_sorted r.rows };

    ghost invariant = { λ r. T (is_sorted key_cmp r.rows) };
}

/// Tells whether a key of a table is behind that of the last of these rows, if there is one.
fn is_behind_last<A: Allocator>(rows: &FlatRows<A>, table: u8, key: u64) -> bool
    requires { T (is_sorted key_cmp rows.now) }
    ensures { result ≡ list_all (λ row. is_lt (key_cmp row.0 (table, key))) rows.now }
{
    match rows.last() {
        Some(last) => last < (table, key),
        None => true,
    }
}

impl<A: Allocator> FirstRows<A> {
    /// No rows. Takes no memory.
    pub fn new(alloc: A) -> FirstRows<A>
    where
        A: Copy,
        ensures { result ≡ empty }
    {
        FirstRows {
            rows: FlatRows::new(alloc),
        }
    }

    /// Tells whether there are no rows.
    pub fn is_empty(&self) -> bool
        ensures { result ≡ (length (entries self.now) == 0) }
    {
        self.rows.is_empty()
    }

    /// Tells whether a key of a table is behind those of all rows.
    pub fn is_behind(&self, table: u8, key: u64) -> bool
        ensures { result ≡ is_behind self.now (table, key) }
    {
        is_behind_last(&self.rows, table, key)
    }

    /// Adds a row behind the others. The bytes are copied.
    pub fn add(&mut self, table: u8, key: u64, bytes: &[u8]) -> Result<(), AllocError>
        requires { is_behind self.old (table, key) ≡ true }
        ensures added { OnOk result (self.new ≡ insert self.old (table, key) bytes.now) }
        ensures unchanged { OnErr result (self.new ≡ self.old) }
    {
        self.rows.push(table, key, bytes)
    }

    /// The rows in the order of tables and keys.
    pub fn rows(&self) -> FirstRowsLeft<'_>
        ensures { result ≡ entries self.now }
    {
        self.rows.iter()
    }
}
