//! The map in which the runner keeps rows and writes.

ghost use Rattle.std.specs.Prelude.{◌≡◌, IfOk, OnOk, option_map, slice_get};
ghost use Rattle.std.specs.Map.Iter.{deref_pair};
ghost use Rattle.std.specs.FinMap.{empty, get, insert, remove, entries, retain_keys, len};
ghost use Rattle.schema.specs.Rows.{covers};
ghost use Rattle.plain_runner.specs.Listed.{rows_of};

use row_sets::{Bytes, Keyed, Row};
use schema::Look;
use std::alloc::{AllocError, Allocator};
use std::collections::BTreeMap;
use std::marker::Model;

/// A map by table and key. Contracts see a finite map.
#[derive(Drop)]
pub struct KeyMap<V, A: Allocator> {
    map: BTreeMap<(u8, u64), V, A>,
}

impl<V, A: Allocator> Model for KeyMap<V, A> {
    ghost use Rattle.std.specs.Coded.{coded×, coded_ℕ};
    ghost use Rattle.std.specs.FinMap.{FinMap, from_entries, code};
    ghost use Rattle.schema.specs.Rows.{key_cmp};

    ghost Value = { FinMap key_cmp V };

    ghost coded = { code (coded× coded_ℕ coded_ℕ) V.code };

    ghost view = { λ m. from_entries m.map.entries };
}

impl<V: Drop, A: Allocator + Clone> KeyMap<V, A> {
    /// No keys. Takes no memory.
    pub fn new(alloc: A) -> KeyMap<V, A>
        ensures { result ≡ empty }
    {
        KeyMap {
            map: BTreeMap::new(alloc),
        }
    }

    /// Puts a value at a key, in place of one that is there.
    pub fn insert(&mut self, table: u8, key: u64, value: V) -> Result<(), AllocError>
        ensures { OnOk result (self.new ≡ insert self.old (table, key) value) }
    {
        self.map.insert((table, key), value)?;
        Ok(())
    }

    /// Takes a key out, where it is there.
    pub fn remove(&mut self, table: u8, key: u64)
        ensures { self.new ≡ remove self.old (table, key) }
    {
        self.map.remove(&(table, key));
    }

    /// The value at a key.
    pub fn get(&self, table: u8, key: u64) -> Option<&V>
        ensures { option_map (λ v. v.now) result ≡ get self.now (table, key) }
    {
        self.map.get(&(table, key))
    }

    /// Returns the entries of the map, in the order of tables and keys.
    pub fn into_list(self, alloc: A) -> Result<Vec<Keyed<V>, A>, AllocError>
        ensures { IfOk result (λ list. list.items ≡ entries self) }
    {
        // The contract of `len` says that the entries are in order.
        let _ordered = self.map.len();
        let mut list = Vec::new(alloc);
        for ((table, key), value) in self.map {
            list.push(Keyed::at(table, key, value))?;
        }
        Ok(list)
    }

    /// Counts the entries that a look covers.
    pub fn count(&self, look: Look) -> usize
        ensures { result ≡ len (retain_keys self.now (covers look)) }
    {
        self.map
            .iter()
            .filter(|(key, _)| look.covers(key.0, key.1))
            .count()
    }

    /// The entry of the least key that a look covers.
    pub fn first(&self, look: Look) -> Option<(&(u8, u64), &V)>
        ensures { option_map deref_pair result
            ≡ slice_get (entries (retain_keys self.now (covers look))) 0 }
    {
        self.map.iter().find(|(key, _)| look.covers(key.0, key.1))
    }
}

impl<A: Allocator + Copy> KeyMap<Bytes<A>, A> {
    /// The rows of a list, put one after another.
    pub fn from_rows<B: Allocator>(
        alloc: A,
        rows: &[Row<B>],
    ) -> Result<KeyMap<Bytes<A>, A>, AllocError>
        ensures { IfOk result (λ map. map ≡ rows_of rows.now) }
    {
        let mut map = KeyMap::new(alloc);
        for row in rows {
            let bytes = Vec::from_slice(alloc, row.bytes())?;
            map.insert(row.table(), row.key(), Bytes::new(bytes))?;
        }
        Ok(map)
    }
}
