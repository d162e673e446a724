//! The writes of a call.

ghost use Rattle.std.specs.Prelude.{◌≡◌, ◌↔◌, ◌<◌, ◌^◌, length, IsTrue, IfOk, OnOk, OnErr, Some, None, option_map};
ghost use Rattle.std.specs.Prelude.{filter};
ghost use Rattle.std.specs.List.{list_any};
ghost use Rattle.std.specs.Slice.Iter.{iter_rest};
ghost use Rattle.std.specs.FinMap.{empty, get, contains_key, entries, keys, len};
ghost use Rattle.schema.specs.Rows.{covers, with_write};

use crate::row::Bytes;
use crate::sorted::{KeyAndWrite, between, find, put};
use schema::Look;
use std::alloc::{AllocError, Allocator, Global};
use std::marker::Model;
use std::slice::Iter;

/// The last write of each key: the bytes that were put, or none where the row was removed. Contracts
/// see a finite map.
#[derive(Drop)]
pub struct WriteSet<A: Allocator + Copy = Global> {
    alloc: A,
    /// The writes in the order of tables and keys.
    writes: Vec<KeyAndWrite<A>, A>,
}

impl<A: Allocator + Copy> Model for WriteSet<A> {
    ghost use Rattle.std.specs.Prelude.{ℕ, T};
    ghost use Rattle.std.specs.Coded.{coded×, coded_ℕ, coded_list, coded_option};
    ghost use Rattle.std.specs.FinMap.{from_sorted, is_sorted, code};
    ghost use Rattle.schema.specs.Rows.{Writes, key_cmp};

    ghost Value = { Writes };

    ghost coded = { code (coded× coded_ℕ coded_ℕ) (coded_option (coded_list coded_ℕ)) };

    ghost view = { λ s. from_sorted s.writes.items };

    ghost invariant = { λ s. T (is_sorted key_cmp s.writes.items) };
}

impl<A: Allocator + Copy> WriteSet<A> {
    /// No writes. Takes no memory.
    pub fn new(alloc: A) -> WriteSet<A>
        ensures { result ≡ empty }
    {
        WriteSet {
            alloc,
            writes: Vec::new(alloc),
        }
    }

    /// No writes, with room for the keys of `count` writes.
    pub fn with_room(alloc: A, count: usize) -> Result<WriteSet<A>, AllocError>
        ensures { IfOk result (λ writes. writes ≡ empty) }
    {
        Ok(WriteSet {
            alloc,
            writes: Vec::with_capacity(alloc, count)?,
        })
    }

    /// Writes these bytes as the row at a key.
    pub fn put(&mut self, table: u8, key: u64, bytes: &[u8]) -> Result<(), AllocError>
        ensures written { OnOk result
            (self.new ≡ with_write self.old (table, key) (Some bytes.now)) }
        ensures unchanged { OnErr result (self.new ≡ self.old) }
    {
        let copy = Vec::from_slice(self.alloc, bytes)?;
        put(&mut self.writes, (table, key), Some(Bytes::new(copy)))?;
        Ok(())
    }

    /// Removes the row at a key.
    pub fn remove(&mut self, table: u8, key: u64) -> Result<(), AllocError>
        ensures written { OnOk result (self.new ≡ with_write self.old (table, key) None) }
        ensures unchanged { OnErr result (self.new ≡ self.old) }
    {
        put(&mut self.writes, (table, key), None)?;
        Ok(())
    }

    /// Forgets all writes.
    pub fn clear(&mut self)
        ensures { self.new ≡ empty }
    {
        self.writes.clear();
    }

    /// The write at a key, if there is one: the bytes that were put, or none where the row was removed.
    pub fn get(&self, table: u8, key: u64) -> Option<Option<&[u8]>>
        ensures { option_map (λ write. option_map (λ bytes. bytes.now) write) result
            ≡ get self.now (table, key) }
    {
        match find(&self.writes, (table, key)) {
            Some(Some(bytes)) => Some(Some(bytes.as_slice())),
            Some(None) => Some(None),
            None => None,
        }
    }

    /// Tells whether a key was written.
    pub fn contains(&self, table: u8, key: u64) -> bool
        ensures { result ≡ contains_key self.now (table, key) }
    {
        find(&self.writes, (table, key)).is_some()
    }

    /// Tells whether no key was written.
    pub fn is_empty(&self) -> bool
        ensures { IsTrue result ↔ (self.now ≡ empty) }
    {
        self.len() == 0
    }

    /// Returns the number of keys that were written.
    pub fn len(&self) -> usize
        ensures { result ≡ len self.now }
    {
        self.writes.len()
    }

    /// The writes, in the order of tables and keys.
    pub fn iter(&self) -> Iter<'_, ((u8, u64), Option<Bytes<A>>)>
        ensures rest { iter_rest result ≡ entries self.now }
        ensures fits { length (iter_rest result) < 2 ^ 64 }
    {
        self.writes.iter()
    }

    /// The writes of the keys that a look covers, in order.
    pub fn range(&self, look: Look) -> Iter<'_, ((u8, u64), Option<Bytes<A>>)>
        ensures rest { iter_rest result ≡ filter (λ write. covers look write.0) (entries self.now) }
        ensures fits { length (iter_rest result) < 2 ^ 64 }
    {
        between(&self.writes, look).iter()
    }

    /// Tells whether a key that a look covers was written.
    pub fn is_written_in(&self, look: Look) -> bool
        ensures { result ≡ list_any (covers look) (keys self.now) }
    {
        self.range(look).next().is_some()
    }
}
