//! A key with its versions.

ghost use Rattle.std.specs.Prelude.{◌≡◌, ◌==◌, ◌++◌, [], ◌∷◌, length, OnOk, IfSome, is_some};
ghost use Rattle.std.specs.Option.{option_copied};
ghost use Rattle.row_chain.specs.Version.{row_up_to, needed_versions, HasRoom};

use crate::chain::Chain;
use std::alloc::{AllocError, Allocator, Global};
use std::marker::Model;

/// A key with its versions.
#[derive(Drop)]
pub struct Entry<A: Allocator = Global> {
    key: u64,
    chain: Chain<A>,
}

impl<A: Allocator> Model for Entry<A> {
    ghost use Rattle.row_chain.specs.Slots.{Slot};

    ghost Value = { Slot };

    ghost view = { λ e. record { key = e.key; chain = e.chain } };
}

impl<A: Allocator> Entry<A> {
    /// The key of the entry.
    pub fn key(&self) -> u64
        ensures { result ≡ self.now.key }
    {
        self.key
    }

    /// The row after a position, where there is a row.
    pub fn row(&self, position: u32) -> Option<&[u8]>
        ensures { option_copied result ≡ row_up_to position self.now.chain.versions }
    {
        self.chain.at(position)
    }

    /// Tells whether the key has no versions.
    pub fn is_empty(&self) -> bool
        ensures { result ≡ (length self.now.chain.versions == 0) }
    {
        self.chain.is_empty()
    }

    /// Tells whether there is a row after a position.
    pub fn shows(&self, position: u32) -> bool
        ensures { result ≡ is_some (row_up_to position self.now.chain.versions) }
    {
        self.chain.at(position).is_some()
    }
}

impl<A: Allocator> Entry<A> {
    /// An entry of a key that has no versions yet, for rows of `width` bytes.
    pub fn new(width: u16, key: u64) -> Entry<A>
        ensures key { result.key ≡ key }
        ensures versions { result.chain.versions ≡ [] }
        ensures width { result.chain.width ≡ width }
    {
        Entry {
            key,
            chain: Chain::new(width),
        }
    }

    /// Makes room for one version more. An error is want of memory; then nothing has changed.
    pub fn reserve(&mut self, alloc: A) -> Result<(), AllocError>
    where
        A: Copy,
        ensures key { self.new.key ≡ self.old.key }
        ensures versions { self.new.chain.versions ≡ self.old.chain.versions }
        ensures width { self.new.chain.width ≡ self.old.chain.width }
        ensures room { OnOk result (HasRoom self.new.chain) }
        ensures more { HasRoom self.old.chain → HasRoom self.new.chain }
    {
        self.chain.reserve(alloc)
    }

    /// Adds a version after a position, in room that there is: a row, or none where it was removed.
    pub fn push(&mut self, position: u32, row: Option<&[u8]>)
        requires room { HasRoom self.old.chain }
        requires width { IfSome row (λ r. length r.now ≡ self.old.chain.width) }
        ensures key { self.new.key ≡ self.old.key }
        ensures versions { self.new.chain.versions
            ≡ self.old.chain.versions ++ record { position = position; row = option_copied row.entry } ∷ [] }
        ensures width { self.new.chain.width ≡ self.old.chain.width }
    {
        self.chain.push(position, row);
    }

    /// Drops the versions that no position from the horizon on sees.
    pub fn prune(&mut self, horizon: u32)
        ensures key { self.new.key ≡ self.old.key }
        ensures versions { self.new.chain.versions ≡ needed_versions horizon self.old.chain.versions }
        ensures width { self.new.chain.width ≡ self.old.chain.width }
    {
        self.chain.prune(horizon);
    }
}
