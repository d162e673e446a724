//! The keys of one table in groups of pages.

ghost use Rattle.std.specs.Prelude.{◌≡◌, ◌≢◌, ◌==◌, ◌≤◌, ◌*◌, ◌^◌, ◌++◌, [], ◌∷◌, ℕ, length, slice_get, if◌then◌else◌};
ghost use Rattle.std.specs.Prelude.{OnOk, IfSome, IsSome, option_map};
ghost use Rattle.std.specs.Option.{option_copied};
ghost use Rattle.key_table.specs.declared.group_edits.TheConstants.{PAGE_KEYS};
ghost use Rattle.row_chain.specs.Version.{row_up_to, needed_versions};
ghost use Rattle.key_table.specs.Pages.{has_slots};
ghost use Rattle.key_table.specs.Table.{AreRising, ArePrunedOrSame, chain_at, versions_at, HasRoomAt, rows_between};

use crate::group::Group;
use crate::split::Split;
use crate::{edits, groups};
use std::alloc::{AllocError, Allocator, Global};
use std::marker::Model;

/// The keys of one table in order, each with its versions, in groups of pages. The least keys of the groups lie in one
/// run, and a group has few pages. One more key moves little memory then, whatever the number of keys.
#[derive(Drop)]
pub struct KeyTable<A: Allocator = Global> {
    width: u16,
    least: Vec<u64, A>,
    groups: Vec<Group<A>, A>,
}

impl<A: Allocator> Model for KeyTable<A> {
    ghost use Rattle.std.specs.Prelude.{◌≡◌};
    ghost use Rattle.key_table.specs.Table.{Table};
    ghost use Rattle.key_table.specs.Groups.{group_slots, AreGroups};
    ghost use Rattle.key_table.specs.Pages.{all_slots, least_keys};

    ghost Value = { Table };

    ghost view = { λ t. record { width = t.width; slots = all_slots (group_slots t.groups.items) } };

    ghost invariant = { λ t. AreGroups t.width t.groups.items
        × (t.least.items ≡ least_keys (group_slots t.groups.items)) };
}

impl<A: Allocator> KeyTable<A> {
    /// A table without keys, for rows of `width` bytes. Takes no memory.
    pub fn new(alloc: A, width: u16) -> KeyTable<A>
    where
        A: Copy,
        ensures slots { result.slots ≡ [] }
        ensures width { result.width ≡ width }
    {
        KeyTable {
            width,
            least: Vec::new(alloc),
            groups: Vec::new(alloc),
        }
    }

    /// Tells whether the table has keys.
    pub fn has_keys(&self) -> bool
        ensures { result ≡ has_slots self.now.slots }
    {
        let groups: &[Group<A>] = &self.groups;
        !groups.is_empty()
    }

    /// Returns the number of the table's pages, each of 1 to 64 keys.
    pub fn pages(&self) -> usize
        ensures few { result ≤ length self.now.slots }
        ensures enough { length self.now.slots ≤ PAGE_KEYS * result }
    {
        groups::pages(&self.groups)
    }

    /// The row of a key at a position.
    pub fn row_at(&self, position: u32, key: u64) -> Option<&[u8]>
        ensures { option_copied result ≡ row_up_to position (versions_at self.now.slots key) }
    {
        groups::row_at(&self.least, &self.groups, position, key)
    }

    /// Counts the rows in a range at a position.
    pub fn count(&self, position: u32, lo: u64, hi: u64) -> usize
        ensures count { result ≡ length (rows_between position lo hi self.now.slots) }
        ensures rising { AreRising self.now.slots }
    {
        groups::count(
            groups::since(&self.least, &self.groups, lo),
            position,
            lo,
            hi,
        )
    }

    /// The first row in a range at a position, with its key.
    pub fn first(&self, position: u32, lo: u64, hi: u64) -> Option<(u64, &[u8])>
        ensures first { option_map (λ f. (f.0, f.1.now)) result
            ≡ slice_get (rows_between position lo hi self.now.slots) 0 }
        ensures rising { AreRising self.now.slots }
        // A number greater than any key has no versions in any table.
        ensures words { (q : ℕ) → 2 ^ 64 ≤ q → versions_at self.now.slots q ≡ [] }
    {
        groups::first(
            groups::since(&self.least, &self.groups, lo),
            position,
            lo,
            hi,
        )
    }
}

impl<A: Allocator + Copy> KeyTable<A> {
    /// Makes room for one more version of a key. `split` says how a full page takes the key. After want of memory each
    /// key has the versions it had.
    pub fn reserve(&mut self, alloc: A, key: u64, split: Split) -> Result<(), AllocError>
        ensures versions { (q : ℕ) → versions_at self.new.slots q ≡ versions_at self.old.slots q }
        ensures room { OnOk result (HasRoomAt self.new.slots key) }
        ensures more { (q : ℕ) → HasRoomAt self.old.slots q → HasRoomAt self.new.slots q }
        ensures width { self.new.width ≡ self.old.width }
    {
        let width = self.width;
        edits::reserve(&mut self.least, &mut self.groups, alloc, width, key, split)
    }
}

impl<A: Allocator> KeyTable<A> {
    /// Adds one version of a key.
    pub fn push(&mut self, key: u64, position: u32, row: Option<&[u8]>)
        requires room { HasRoomAt self.old.slots key }
        requires width { IfSome row (λ r. length r.now ≡ self.old.width) }
        ensures versions { (q : ℕ) → versions_at self.new.slots q ≡ (if key == q
            then versions_at self.old.slots q ++ record { position = position; row = option_copied row.entry } ∷ []
            else versions_at self.old.slots q) }
        ensures room { (q : ℕ) → key ≢ q → HasRoomAt self.old.slots q → HasRoomAt self.new.slots q }
        ensures width { self.new.width ≡ self.old.width }
    {
        edits::push(&self.least, &mut self.groups, key, position, row);
    }

    /// Drops, in the page in which a key stands or would stand, the versions that no position from the horizon on sees.
    /// Keys of which no version is left are dropped too. Answers the least key of the page behind.
    pub fn prune_page(&mut self, key: u64, horizon: u32) -> Option<u64>
        ensures versions { (q : ℕ) → ArePrunedOrSame horizon (versions_at self.old.slots q)
            (versions_at self.new.slots q) }
        ensures width { self.new.width ≡ self.old.width }
    {
        if self.groups.is_empty() {
            return None;
        }
        edits::prune_page(&mut self.least, &mut self.groups, key, horizon)
    }

    /// Drops from each key the versions that no position from the horizon on sees, and the keys of which no version is
    /// left.
    pub fn prune(&mut self, horizon: u32)
        ensures versions { (q : ℕ) → versions_at self.new.slots q
            ≡ needed_versions horizon (versions_at self.old.slots q) }
        ensures kept { (q : ℕ) → IsSome (chain_at self.new.slots q) → versions_at self.new.slots q ≢ [] }
        ensures width { self.new.width ≡ self.old.width }
    {
        edits::prune(&mut self.least, &mut self.groups, horizon);
    }
}
