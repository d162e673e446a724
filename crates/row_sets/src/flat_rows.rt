//! Rows whose bytes stand one behind another.

ghost use Rattle.std.specs.Prelude.{◌≡◌, ◌-◌, ◌==◌, ◌++◌, [], ◌∷◌, length, option_map, slice_get, OnErr, OnOk};
ghost use Rattle.std.specs.Iterator.{YieldsFirstBy, item_count};

use std::alloc::{AllocError, Allocator, Global};
use std::marker::Model;

/// Rows in order of entry, whose bytes stand one behind another. Contracts see their list.
#[derive(Drop)]
pub struct FlatRows<A: Allocator = Global> {
    keys: Vec<(u8, u64), A>,
    /// The number of each row's bytes.
    lengths: Vec<usize, A>,
    bytes: Vec<u8, A>,
}

impl<A: Allocator> Model for FlatRows<A> {
    ghost use Rattle.std.specs.Prelude.{List};
    ghost use Rattle.std.specs.Coded.{coded×, coded_ℕ, coded_list};
    ghost use Rattle.row_sets.specs.FlatRows.{AreWhole, Row, rows_of};

    ghost Value = { List Row };

    ghost coded = { coded_list (coded× (coded× coded_ℕ coded_ℕ) (coded_list coded_ℕ)) };

    ghost view = { λ r. rows_of r.keys.items r.lengths.items r.bytes.items };

    ghost invariant = { λ r. AreWhole r.keys.items r.lengths.items r.bytes.items };
}

/// A row of a list.
#[derive(Clone, Copy, Debug)]
pub struct FirstRow<'a> {
    pub table: u8,
    pub key: u64,
    pub bytes: &'a [u8],
}

/// The rows that are still to come, in order of entry. Contracts see their list.
#[derive(Drop)]
pub struct FirstRowsLeft<'a> {
    keys: &'a [(u8, u64)],
    lengths: &'a [usize],
    bytes: &'a [u8],
}

impl<'a> Model for FirstRowsLeft<'a> {
    ghost use Rattle.std.specs.Prelude.{List};
    ghost use Rattle.std.specs.Coded.{coded×, coded_ℕ, coded_list};
    ghost use Rattle.row_sets.specs.FlatRows.{AreWhole, Row, rows_of};

    ghost Value = { List Row };

    ghost coded = { coded_list (coded× (coded× coded_ℕ coded_ℕ) (coded_list coded_ℕ)) };

    ghost view = { λ r. rows_of r.keys.now r.lengths.now r.bytes.now };

    ghost invariant = { λ r. AreWhole r.keys.now r.lengths.now r.bytes.now };
}

impl<'a> Iterator for FirstRowsLeft<'a> {
    type Item = FirstRow<'a>;

    ghost next_gives = { YieldsFirstBy (λ row. ((row.table, row.key), row.bytes.now)) (λ left. left) };

    ghost remaining = { item_count (λ left. left) };

    fn next(&mut self) -> Option<FirstRow<'a>> {
        let (&(table, key), keys) = self.keys.split_first()?;
        let (&length, lengths) = self.lengths.split_first()?;
        let (bytes, rest) = self.bytes.split_at(length);
        self.keys = keys;
        self.lengths = lengths;
        self.bytes = rest;
        Some(FirstRow { table, key, bytes })
    }
}

impl<A: Allocator> FlatRows<A> {
    /// No rows. Takes no memory.
    pub fn new(alloc: A) -> FlatRows<A>
    where
        A: Copy,
        ensures { result ≡ [] }
    {
        FlatRows {
            keys: Vec::new(alloc),
            lengths: Vec::new(alloc),
            bytes: Vec::new(alloc),
        }
    }

    /// Tells whether there are no rows.
    pub fn is_empty(&self) -> bool
        ensures { result ≡ (length self.now == 0) }
    {
        let keys: &[(u8, u64)] = &self.keys;
        keys.is_empty()
    }

    /// Table and key of the last row.
    pub fn last(&self) -> Option<(u8, u64)>
        ensures { result ≡ option_map (λ row. row.0) (slice_get self.now (length self.now - 1)) }
    {
        self.keys.last().copied()
    }

    /// Adds a row behind the others. The bytes are copied.
    pub fn push(&mut self, table: u8, key: u64, bytes: &[u8]) -> Result<(), AllocError>
        ensures pushed { OnOk result (self.new ≡ self.old ++ ((table, key), bytes.now) ∷ []) }
        ensures unchanged { OnErr result (self.new ≡ self.old) }
    {
        self.keys.reserve(1)?;
        self.lengths.reserve(1)?;
        self.bytes.extend_from_slice(bytes)?;
        let keyed = self.keys.push((table, key));
        prove!(keyed.is_ok());
        let counted = self.lengths.push(bytes.len());
        prove!(counted.is_ok());
        Ok(())
    }

    /// The rows in order of entry.
    pub fn iter(&self) -> FirstRowsLeft<'_>
        ensures { result ≡ self.now }
    {
        FirstRowsLeft {
            keys: &self.keys,
            lengths: &self.lengths,
            bytes: &self.bytes,
        }
    }
}
