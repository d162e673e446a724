//! A table of rows of 8 bytes.

use key_table::{KeyTable, Split};
use std::alloc::{AllocError, Global};
use std::marker::Model;

/// A table of rows of 8 bytes.
#[derive(Drop)]
pub struct RowTable {
    table: KeyTable<Global>,
}

impl Model for RowTable {
    ghost use Rattle.std.specs.Prelude.{◌≡◌};
    ghost use Rattle.key_table.specs.Table.{Table};

    ghost Value = { Table };

    ghost view = { λ s. s.table };

    ghost invariant = { λ s. s.table.width ≡ 8 };
}

impl RowTable {
    /// Makes a table of no rows.
    pub fn new(alloc: Global) -> RowTable {
        RowTable {
            table: KeyTable::new(alloc, 8),
        }
    }

    /// Puts one more version of a key: the key's own bytes.
    pub fn put(&mut self, alloc: Global, key: u64, position: u32) -> Result<(), AllocError> {
        self.table.reserve(alloc, key, Split::Halves)?;
        self.table.push(key, position, Some(&key.to_le_bytes()));
        Ok(())
    }

    /// Tells whether a key has its row at a position.
    pub fn has_row(&self, position: u32, key: u64) -> bool {
        match self.table.row_at(position, key) {
            Some(row) => row.first() == Some(&key.to_le_bytes()[0]),
            None => false,
        }
    }
}
