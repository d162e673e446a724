//! A group: pages in order.

ghost use Rattle.std.specs.Prelude.{◌≡◌, ◌≤◌, ◌<◌, ◌*◌, [], length, take, drop, slice_get, option_map, is_ok, None};
ghost use Rattle.std.specs.Prelude.{OnOk, OnErr, IfOk, IfSome, IsSome};
ghost use Rattle.std.specs.Option.{option_copied, IsSomeAnd};
ghost use Rattle.row_chain.specs.Version.{row_up_to};
ghost use Rattle.row_chain.specs.Slots.{IsReserved, IsPushed, AreRising, chain_at, versions_at, HasRoomAt};
ghost use Rattle.row_chain.specs.Slots.{rows_between};
ghost use Rattle.key_table.specs.declared.group_edits.TheConstants.{PAGE_KEYS, GROUP_PAGES};
ghost use Rattle.key_table.specs.Pages.{all_slots, least_key, has_slots, IsInserted, IsPrunedTo, IsGroupSized};
ghost use Rattle.key_table.specs.Pages.{IsPrunedWithin};
ghost use Rattle.key_table.specs.Changes.{IsChangedAt, IsAdded};

use crate::split::Split;
use crate::{group_edits, pages};
use row_chain::Page;
use std::alloc::{AllocError, Allocator, Global};
use std::marker::Model;

/// A group of keys in order, each with its versions, in pages. The least keys of the pages lie in one run, so that a
/// page is found in little memory.
#[derive(Drop)]
pub struct Group<A: Allocator = Global> {
    least: Vec<u64, A>,
    pages: Vec<Page<A>, A>,
}

impl<A: Allocator> Model for Group<A> {
    ghost use Rattle.std.specs.Prelude.{◌≡◌, List};
    ghost use Rattle.row_chain.specs.Slots.{Slot};
    ghost use Rattle.key_table.specs.Pages.{least_keys, ArePages};

    ghost Value = { List (List Slot) };

    ghost view = { λ g. g.pages.items };

    ghost invariant = { λ g. ArePages g.pages.items × (g.least.items ≡ least_keys g.pages.items) };
}

impl<A: Allocator> Group<A> {
    /// Returns the number of the group's pages, each of 1 to 64 keys.
    pub fn pages(&self) -> usize
        ensures pages { result ≡ length self.now }
        ensures most { result ≤ GROUP_PAGES }
        ensures few { result ≤ length (all_slots self.now) }
        ensures enough { length (all_slots self.now) ≤ PAGE_KEYS * result }
    {
        let pages: &[Page<A>] = &self.pages;
        pages.len()
    }

    /// Tells whether the group has keys.
    pub fn has_keys(&self) -> bool
        ensures { result ≡ has_slots (all_slots self.now) }
    {
        let pages: &[Page<A>] = &self.pages;
        !pages.is_empty()
    }

    /// The group's least key, 0 where the group has none.
    pub fn least(&self) -> u64
        ensures { result ≡ least_key (all_slots self.now) }
    {
        let least: &[u64] = &self.least;
        if least.is_empty() {
            return 0;
        }
        least[0]
    }

    /// The row of a key at a position.
    pub fn row_at(&self, position: u32, key: u64) -> Option<&[u8]>
        ensures { option_copied result ≡ row_up_to position (versions_at (all_slots self.now) key) }
    {
        pages::row_at(&self.least, &self.pages, position, key)
    }

    /// Counts the rows in a range at a position.
    pub fn count(&self, position: u32, lo: u64, hi: u64) -> usize
        ensures { result ≡ length (rows_between position lo hi (all_slots self.now)) }
    {
        pages::count(pages::since(&self.least, &self.pages, lo), position, lo, hi)
    }

    /// The first row in a range at a position, with its key.
    pub fn first(&self, position: u32, lo: u64, hi: u64) -> Option<(u64, &[u8])>
        ensures { option_map (λ f. (f.0, f.1.now)) result
            ≡ slice_get (rows_between position lo hi (all_slots self.now)) 0 }
    {
        pages::first(pages::since(&self.least, &self.pages, lo), position, lo, hi)
    }
}

impl<A: Allocator + Copy> Group<A> {
    /// A group without keys. Takes no memory.
    pub fn new(alloc: A) -> Group<A>
        ensures { result ≡ [] }
    {
        Group {
            least: Vec::new(alloc),
            pages: Vec::new(alloc),
        }
    }

    /// Takes the upper half of a full group's pages away. After want of memory nothing has changed.
    pub fn split(&mut self, alloc: A) -> Result<Group<A>, AllocError>
        requires { length self.old ≡ GROUP_PAGES }
        ensures lower { OnOk result (self.new ≡ take 128 self.old) }
        ensures upper { IfOk result (λ upper. upper ≡ drop 128 self.old) }
        ensures none { OnErr result (self.new ≡ self.old) }
        ensures lower_size { OnOk result (IsGroupSized self.new) }
        ensures upper_size { IfOk result (λ upper. IsGroupSized upper) }
    {
        let least = Vec::from_slice(alloc, &self.least[128..])?;
        let pages = self.pages.split_off(128)?;
        self.least.truncate(128);
        Ok(Group { least, pages })
    }

    /// Makes room for one more version of a key, which is put in its place where it is new. After want of memory each
    /// key has the versions it had.
    pub fn reserve(
        &mut self,
        alloc: A,
        width: u16,
        key: u64,
        split: Split,
    ) -> Result<(), AllocError>
        requires { length self.old < GROUP_PAGES }
        ensures found { IsSome (chain_at (all_slots self.old) key)
            → IsChangedAt (IsReserved (is_ok result)) key (all_slots self.old) (all_slots self.new) }
        ensures inserted { OnOk result (chain_at (all_slots self.old) key ≡ None → IsInserted split key self.old self.new) }
        ensures added { OnOk result (chain_at (all_slots self.old) key ≡ None
            → IsAdded width key (all_slots self.old) (all_slots self.new)) }
        ensures none { OnErr result (chain_at (all_slots self.old) key ≡ None
            → all_slots self.new ≡ all_slots self.old) }
        ensures size { IsGroupSized self.new }
    {
        group_edits::reserve(&mut self.least, &mut self.pages, alloc, width, key, split)
    }
}

impl<A: Allocator> Group<A> {
    /// Adds one version of a key.
    pub fn push(&mut self, key: u64, position: u32, row: Option<&[u8]>)
        requires room { HasRoomAt (all_slots self.old) key }
        requires width { IfSome row
            (λ r. IsSomeAnd (chain_at (all_slots self.old) key) (λ k. length r.now ≡ k.width)) }
        ensures pushed { IsChangedAt (IsPushed position (option_copied row.entry)) key (all_slots self.old)
            (all_slots self.new) }
    {
        group_edits::push(&self.least, &mut self.pages, key, position, row);
    }

    /// Drops, in the page in which a key stands or would stand, the versions that no position from the horizon on sees.
    /// Keys of which no version is left are dropped too, and the page itself where it has no keys then. Answers the
    /// least key of the page behind.
    pub fn prune_page(&mut self, key: u64, horizon: u32) -> Option<u64>
        requires { 0 < length self.old }
        ensures { IsPrunedWithin horizon (all_slots self.old) (all_slots self.new) }
    {
        group_edits::prune_page(&mut self.least, &mut self.pages, key, horizon)
    }

    /// Drops the versions that no position from the horizon on sees, the keys of which no version is left, and the
    /// pages without keys.
    pub fn prune(&mut self, horizon: u32)
        ensures { IsPrunedTo horizon (all_slots self.old) (all_slots self.new) }
    {
        group_edits::prune(&mut self.least, &mut self.pages, horizon);
    }
}
