//! Keys in order.

ghost use Rattle.std.specs.Prelude.{◌≡◌, ◌<◌, ◌≤◌, ◌+◌, nat_le, length, take, drop, OnOk, OnErr};
ghost use Rattle.std.specs.Prelude.{filter, slice_get, option_map, is_ok, slice_index_or, slice_set, Some, None, IfOk};
ghost use Rattle.std.specs.Prelude.{IfSome, IfNone, ℕ};
ghost use Rattle.std.specs.Option.{option_copied};
ghost use Rattle.row_chain.specs.Version.{row_up_to, HasRoom};
ghost use Rattle.row_chain.specs.Slots.{Slot, IsReserved, IsPushed, IsPruned, ArePruned, AreRising, below, chain_at};
ghost use Rattle.row_chain.specs.Slots.{versions_at, rows_between, AreFrom, has_versions, begins_by, least_key};
ghost use Rattle.row_chain.specs.Slots.{with_slot, IsPrunedTo};

use crate::entry::Entry;
use std::alloc::{AllocError, Allocator};

/// The number of keys by which a page grows, so that little of its room is empty.
const GROWTH: usize = 16;

/// The number of keys that one probe passes. No probe waits for what another reads, so that memory is read side by
/// side, unlike in a binary search.
const STRIDE: usize = 8;

/// Returns the number of keys that are below this one.
pub fn place<A: Allocator>(entries: &[Entry<A>], key: u64) -> usize
    requires { AreRising entries.now }
    ensures place { result ≡ below key entries.now }
    ensures within { result ≤ length entries.now }
{
    let mut low = 0;
    while STRIDE <= entries.len() - low && entries[low + STRIDE - 1].key() < key {
        low += STRIDE;
    }
    while low < entries.len() && entries[low].key() < key {
        low += 1;
    }
    low
}

/// Tells whether each key is below this one.
pub fn ends_below<A: Allocator>(entries: &[Entry<A>], key: u64) -> bool
    requires { AreRising entries.now }
    ensures { result ≡ nat_le (length entries.now) (below key entries.now) }
{
    entries.len() <= place(entries, key)
}

/// The row of a key at a position.
pub fn row_at<A: Allocator>(entries: &[Entry<A>], position: u32, key: u64) -> Option<&[u8]>
    requires { AreRising entries.now }
    ensures { option_copied result ≡ row_up_to position (versions_at entries.now key) }
{
    let at = place(entries, key);
    if at >= entries.len() {
        return None;
    }
    let entry = &entries[at];
    if entry.key() != key {
        return None;
    }
    entry.row(position)
}

/// The entries whose keys are this one or above.
pub fn since<A: Allocator>(entries: &[Entry<A>], lo: u64) -> &[Entry<A>]
    requires { AreRising entries.now }
    ensures rising { AreRising result.now }
    ensures from { AreFrom lo result.now }
    ensures same { (s hi : ℕ) → rows_between s lo hi result.now ≡ rows_between s lo hi entries.now }
{
    let from = place(entries, lo);
    &entries[from..]
}

/// Counts the rows up to a key.
pub fn count<A: Allocator>(entries: &[Entry<A>], position: u32, lo: u64, hi: u64) -> usize
    requires rising { AreRising entries.now }
    requires from { AreFrom lo entries.now }
    ensures { result ≡ length (rows_between position lo hi entries.now) }
{
    let mut found = 0;
    for entry in entries {
        if entry.key() > hi {
            return found;
        }
        if entry.shows(position) {
            found += 1;
        }
    }
    found
}

/// The first row up to a key.
pub fn first<A: Allocator>(
    entries: &[Entry<A>],
    position: u32,
    lo: u64,
    hi: u64,
) -> Option<(u64, &[u8])>
    requires rising { AreRising entries.now }
    requires from { AreFrom lo entries.now }
    ensures { option_map (λ f. (f.0, f.1.now)) result ≡ slice_get (rows_between position lo hi entries.now) 0 }
{
    for entry in entries {
        if entry.key() > hi {
            return None;
        }
        if let Some(row) = entry.row(position) {
            return Some((entry.key(), row));
        }
    }
    None
}

/// The place of a key.
pub fn find<A: Allocator>(entries: &[Entry<A>], key: u64) -> Option<usize>
    requires { AreRising entries.now }
    ensures found { IfSome result (λ at. (at < length entries.now) × ((d : Slot)
        → ((slice_index_or entries.now at d).key ≡ key)
        × (chain_at entries.now key ≡ Some (slice_index_or entries.now at d).chain))) }
    ensures absent { IfNone result (chain_at entries.now key ≡ None) }
{
    let at = place(entries, key);
    if at >= entries.len() {
        return None;
    }
    if entries[at].key() != key {
        return None;
    }
    Some(at)
}

/// Tells whether the least key is this one or below.
pub fn begins_by<A: Allocator>(entries: &[Entry<A>], key: u64) -> bool
    ensures { result ≡ begins_by key entries.now }
{
    if entries.is_empty() {
        return false;
    }
    entries[0].key() <= key
}

/// The least key, 0 where there is none.
pub fn least<A: Allocator>(entries: &[Entry<A>]) -> u64
    ensures { result ≡ least_key entries.now }
{
    if entries.is_empty() {
        return 0;
    }
    entries[0].key()
}

/// Puts an entry in its place.
pub fn insert<A: Allocator>(
    entries: &mut Vec<Entry<A>, A>,
    entry: Entry<A>,
) -> Result<(), AllocError>
    requires { AreRising entries.old.items }
    ensures done { OnOk result (entries.new.items ≡ with_slot entry entries.old.items) }
    ensures none { OnErr result (entries.new.items ≡ entries.old.items) }
{
    let at = place(entries, entry.key());
    if entries.len() == entries.capacity() {
        entries.reserve_exact(GROWTH)?;
    }
    entries.insert(at, entry)?;
    Ok(())
}

/// Takes the upper half of 64 entries away.
pub fn split<A: Allocator + Copy>(
    entries: &mut Vec<Entry<A>, A>,
) -> Result<Vec<Entry<A>, A>, AllocError>
    requires { length entries.old.items ≡ 64 }
    ensures lower { OnOk result (entries.new.items ≡ take 32 entries.old.items) }
    ensures upper { IfOk result (λ upper. upper.items ≡ drop 32 entries.old.items) }
    ensures none { OnErr result (entries.new.items ≡ entries.old.items) }
{
    let upper = entries.split_off(32)?;
    entries.shrink_to(32);
    Ok(upper)
}

/// Makes room for one more version at a place.
pub fn reserve_at<A: Allocator + Copy>(
    entries: &mut Vec<Entry<A>, A>,
    alloc: A,
    at: usize,
) -> Result<(), AllocError>
    requires { at < length entries.old.items }
    ensures { (d : Slot) → IsReserved (is_ok result) (slice_index_or entries.old.items at d)
        (slice_index_or entries.new.items at d)
        × (entries.new.items ≡ slice_set entries.old.items at (slice_index_or entries.new.items at d)) }
{
    entries[at].reserve(alloc)
}

/// Adds one version at a place.
pub fn push_at<A: Allocator>(
    entries: &mut Vec<Entry<A>, A>,
    at: usize,
    position: u32,
    row: Option<&[u8]>,
)
    requires at { at < length entries.old.items }
    requires room { (d : Slot) → HasRoom (slice_index_or entries.old.items at d).chain }
    requires width { (d : Slot) → IfSome row (λ r. length r.now ≡ (slice_index_or entries.old.items at d).chain.width) }
    ensures { (d : Slot)
        → IsPushed position (option_copied row.entry) (slice_index_or entries.old.items at d)
        (slice_index_or entries.new.items at d)
        × (entries.new.items ≡ slice_set entries.old.items at (slice_index_or entries.new.items at d)) }
{
    entries[at].push(position, row);
}

/// Drops the versions at a place that no position from the horizon on sees.
pub fn prune_at<A: Allocator>(entries: &mut Vec<Entry<A>, A>, at: usize, horizon: u32)
    requires { at < length entries.old.items }
    ensures { (d : Slot) → IsPruned horizon (slice_index_or entries.old.items at d)
        (slice_index_or entries.new.items at d)
        × (entries.new.items ≡ slice_set entries.old.items at (slice_index_or entries.new.items at d)) }
{
    entries[at].prune(horizon);
}

/// Drops from each key the versions that no position from the horizon on sees.
pub fn prune_each<A: Allocator>(entries: &mut Vec<Entry<A>, A>, horizon: u32)
    ensures { ArePruned horizon (length entries.old.items) entries.old.items entries.new.items }
{
    let all: &[Entry<A>] = entries;
    let count = all.len();
    for i in 0..count {
        prune_at(entries, i, horizon);
    }
}

/// Drops the keys without versions.
pub fn drop_empty<A: Allocator>(entries: &mut Vec<Entry<A>, A>)
    ensures { entries.new.items ≡ filter has_versions entries.old.items }
{
    entries.retain(|entry| !entry.is_empty());
}

/// Drops the versions that no position from the horizon on sees, and the keys of which no version is left.
pub fn prune<A: Allocator>(entries: &mut Vec<Entry<A>, A>, horizon: u32)
    ensures { IsPrunedTo horizon entries.old.items entries.new.items }
{
    prune_each(entries, horizon);
    drop_empty(entries);
}
