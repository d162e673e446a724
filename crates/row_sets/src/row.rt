//! Rows and writes, as they go into a run and come out.

ghost use Rattle.std.specs.Prelude.{◌≡◌, option_map};

use std::alloc::{Allocator, Global};
use std::marker::Model;

/// The bytes of a row. Contracts see their list.
#[derive(Debug, Drop)]
pub struct Bytes<A: Allocator> {
    bytes: Vec<u8, A>,
}

impl<A: Allocator> Model for Bytes<A> {
    ghost use Rattle.std.specs.Prelude.{ℕ, List};

    ghost Value = { List ℕ };

    ghost view = { λ b. b.bytes.items };
}

impl<A: Allocator> Bytes<A> {
    /// Makes a row of these bytes, in the memory that they are in.
    pub fn new(bytes: Vec<u8, A>) -> Bytes<A>
        ensures { result ≡ bytes.items }
    {
        Self { bytes }
    }

    /// The bytes, to look at.
    pub fn as_slice(&self) -> &[u8]
        ensures { result.now ≡ self.now }
    {
        &self.bytes
    }

    /// The bytes themselves, with no memory taken.
    pub fn into_vec(self) -> Vec<u8, A>
        ensures { result.items ≡ self }
    {
        let Bytes { bytes } = self;
        bytes
    }
}

/// A key of a table, and what stands there. Contracts see a pair: the key, of table and key, and the value.
#[derive(Debug, Drop)]
pub struct Keyed<V> {
    table: u8,
    key: u64,
    value: V,
}

/// A row.
pub type Row<A = Global> = Keyed<Bytes<A>>;

/// A write, the last at its key: the row's bytes, or none where it was removed.
pub type Write<A = Global> = Keyed<Option<Bytes<A>>>;

impl<V> Model for Keyed<V> {
    ghost use Rattle.std.specs.Coded.{coded×, coded_ℕ};
    ghost use Rattle.schema.specs.Rows.{Key};

    ghost Value = { Key × V };

    ghost coded = { coded× (coded× coded_ℕ coded_ℕ) V.code };

    ghost view = { λ k. ((k.table, k.key), k.value) };
}

impl<V> Keyed<V> {
    /// The value at a key of a table.
    pub fn at(table: u8, key: u64, value: V) -> Keyed<V>
        ensures { result ≡ ((table, key), value) }
    {
        Keyed { table, key, value }
    }

    /// The number of the table.
    pub fn table(&self) -> u8
        ensures { result ≡ self.now.0.0 }
    {
        self.table
    }

    /// The key in the table.
    pub fn key(&self) -> u64
        ensures { result ≡ self.now.0.1 }
    {
        self.key
    }
}

impl<A: Allocator> Keyed<Bytes<A>> {
    /// The row of a table at a key.
    pub fn new(table: u8, key: u64, bytes: Vec<u8, A>) -> Row<A>
        ensures { result ≡ ((table, key), bytes.items) }
    {
        Keyed::at(table, key, Bytes::new(bytes))
    }

    /// The row's bytes.
    pub fn bytes(&self) -> &[u8]
        ensures { result.now ≡ self.now.1 }
    {
        self.value.as_slice()
    }

    /// The same bytes themselves, with no memory taken.
    pub fn into_bytes(self) -> Vec<u8, A>
        ensures { result.items ≡ self.1 }
    {
        self.value.into_vec()
    }
}

impl<A: Allocator> Keyed<Option<Bytes<A>>> {
    /// The bytes that were put; none where the row was removed.
    pub fn bytes(&self) -> Option<&[u8]>
        ensures { option_map (λ bytes. bytes.now) result ≡ self.now.1 }
    {
        match &self.value {
            Some(bytes) => Some(bytes.as_slice()),
            None => None,
        }
    }
}
