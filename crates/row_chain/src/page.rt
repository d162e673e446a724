//! A page: keys in order.

ghost use Rattle.std.specs.Prelude.{◌≡◌, ◌==◌, List, [], ◌∷◌, ◌<◌, ◌≤◌, nat_le, length, take, drop, slice_get, option_map};
ghost use Rattle.std.specs.Prelude.{is_ok, slice_index_or, slice_set, Some, None, OnOk, OnErr, IfOk, IfSome, IfNone};
ghost use Rattle.std.specs.Option.{option_copied};
ghost use Rattle.row_chain.specs.Version.{row_up_to, HasRoom};
ghost use Rattle.row_chain.specs.Slots.{Slot, IsReserved, IsPushed, AreRising, chain_at, versions_at, rows_between};
ghost use Rattle.row_chain.specs.Slots.{begins_by, below, least_key, with_slot, IsPrunedTo};

use crate::entries;
use crate::entry::Entry;
use std::alloc::{AllocError, Allocator, Global};
use std::marker::Model;

/// A page of keys in order, each with its versions.
#[derive(Drop)]
pub struct Page<A: Allocator = Global> {
    entries: Vec<Entry<A>, A>,
}

impl<A: Allocator> Model for Page<A> {
    ghost use Rattle.std.specs.Prelude.{List};
    ghost use Rattle.row_chain.specs.Slots.{Slot};

    ghost Value = { List Slot };

    ghost view = { λ p. p.entries.items };
}

impl<A: Allocator> Page<A> {
    /// Tells whether the page's least key is this one or below.
    pub fn begins_by(&self, key: u64) -> bool
        ensures { result ≡ begins_by key self.now }
    {
        entries::begins_by(&self.entries, key)
    }

    /// Tells whether each of the page's keys is below this one.
    pub fn ends_below(&self, key: u64) -> bool
        requires { AreRising self.now }
        ensures { result ≡ nat_le (length self.now) (below key self.now) }
    {
        entries::ends_below(&self.entries, key)
    }

    /// The page's least key, 0 where the page has none.
    pub fn least(&self) -> u64
        ensures { result ≡ least_key self.now }
    {
        entries::least(&self.entries)
    }

    /// Returns the number of the page's keys.
    pub fn len(&self) -> usize
        ensures { result ≡ length self.now }
    {
        let entries: &[Entry<A>] = &self.entries;
        entries.len()
    }

    /// The row of a key at a position.
    pub fn row_at(&self, position: u32, key: u64) -> Option<&[u8]>
        requires { AreRising self.now }
        ensures { option_copied result ≡ row_up_to position (versions_at self.now key) }
    {
        entries::row_at(&self.entries, position, key)
    }

    /// Counts the rows in a range at a position.
    pub fn count(&self, position: u32, lo: u64, hi: u64) -> usize
        requires { AreRising self.now }
        ensures { result ≡ length (rows_between position lo hi self.now) }
    {
        entries::count(entries::since(&self.entries, lo), position, lo, hi)
    }

    /// The first row in a range at a position, with its key.
    pub fn first(&self, position: u32, lo: u64, hi: u64) -> Option<(u64, &[u8])>
        requires { AreRising self.now }
        ensures { option_map (λ f. (f.0, f.1.now)) result ≡ slice_get (rows_between position lo hi self.now) 0 }
    {
        entries::first(entries::since(&self.entries, lo), position, lo, hi)
    }

    /// The place of a key.
    pub fn find(&self, key: u64) -> Option<usize>
        requires { AreRising self.now }
        ensures found { IfSome result (λ at. (at < length self.now) × ((d : Slot)
            → ((slice_index_or self.now at d).key ≡ key)
            × (chain_at self.now key ≡ Some (slice_index_or self.now at d).chain))) }
        ensures absent { IfNone result (chain_at self.now key ≡ None) }
    {
        entries::find(&self.entries, key)
    }
}

impl<A: Allocator + Copy> Page<A> {
    /// A page of one key.
    pub fn new(alloc: A, entry: Entry<A>) -> Result<Page<A>, AllocError>
        ensures { IfOk result (λ p. p ≡ entry ∷ []) }
    {
        let mut entries = Vec::new(alloc);
        entries.push(entry)?;
        Ok(Page { entries })
    }

    /// Takes the upper half of a page of 64 keys away. After want of memory nothing has changed.
    pub fn split(&mut self) -> Result<Page<A>, AllocError>
        requires { length self.old ≡ 64 }
        ensures lower { OnOk result (self.new ≡ take 32 self.old) }
        ensures upper { IfOk result (λ upper. upper ≡ drop 32 self.old) }
        ensures none { OnErr result (self.new ≡ self.old) }
    {
        let entries = entries::split(&mut self.entries)?;
        Ok(Page { entries })
    }
}

impl<A: Allocator> Page<A> {
    /// Puts an entry in its place. After want of memory nothing has changed.
    pub fn insert(&mut self, entry: Entry<A>) -> Result<(), AllocError>
        requires { AreRising self.old }
        ensures done { OnOk result (self.new ≡ with_slot entry self.old) }
        ensures none { OnErr result (self.new ≡ self.old) }
    {
        entries::insert(&mut self.entries, entry)
    }

    /// Makes room for one more version at a place.
    pub fn reserve_at(&mut self, alloc: A, at: usize) -> Result<(), AllocError>
    where
        A: Copy,
        requires { at < length self.old }
        ensures { (d : Slot) → IsReserved (is_ok result) (slice_index_or self.old at d) (slice_index_or self.new at d)
            × (self.new ≡ slice_set self.old at (slice_index_or self.new at d)) }
    {
        entries::reserve_at(&mut self.entries, alloc, at)
    }

    /// Adds one version at a place.
    pub fn push_at(&mut self, at: usize, position: u32, row: Option<&[u8]>)
        requires at { at < length self.old }
        requires room { (d : Slot) → HasRoom (slice_index_or self.old at d).chain }
        requires width { (d : Slot) → IfSome row (λ r. length r.now ≡ (slice_index_or self.old at d).chain.width) }
        ensures { (d : Slot) → IsPushed position (option_copied row.entry) (slice_index_or self.old at d)
            (slice_index_or self.new at d)
            × (self.new ≡ slice_set self.old at (slice_index_or self.new at d)) }
    {
        entries::push_at(&mut self.entries, at, position, row);
    }

    /// Drops the versions that no position from the horizon on sees, and the keys of which no version is left.
    pub fn prune(&mut self, horizon: u32)
        ensures { IsPrunedTo horizon self.old self.new }
    {
        entries::prune(&mut self.entries, horizon);
    }
}
