//! Changes of pages in order.

ghost use Rattle.std.specs.Prelude.{◌≡◌, List, [], ◌∷◌, ◌++◌, ◌<◌, ◌≤◌, ◌+◌, length, take, drop, filter, vec_len};
ghost use Rattle.std.specs.Prelude.{vec_capacity, is_ok, slice_index_or, slice_set, Some, None, OnOk, OnErr, IfOk};
ghost use Rattle.std.specs.Prelude.{IfSome, IsSome, if◌then◌else◌};
ghost use Rattle.std.specs.Option.{option_copied, IsSomeAnd};
ghost use Rattle.row_chain.specs.Version.{HasRoom};
ghost use Rattle.row_chain.specs.Slots.{Slot, IsReserved, IsPushed, AreRising, chain_at, HasRoomAt};
ghost use Rattle.key_table.specs.declared.group_edits.TheConstants.{PAGE_KEYS, GROUP_PAGES};
ghost use Rattle.key_table.specs.Pages.{all_slots, least_key, least_keys, with_slot, in_page, in_pages, begins_by, goes_behind};
ghost use Rattle.key_table.specs.Pages.{has_slots, AreFilled, ArePages, IsInserted, IsPrunedTo, IsPrunedWithin};
ghost use Rattle.key_table.specs.Pages.{ArePagesPruned};
ghost use Rattle.key_table.specs.Changes.{IsChangedAt, IsAdded};

use crate::pages::{find, key_behind, place_of};
use crate::split::Split;
use row_chain::{Entry, Page};
use std::alloc::{AllocError, Allocator};

/// The most keys of a page.
pub const PAGE_KEYS: usize = 64;

/// The most pages of a group, so that one more page moves few others.
pub const GROUP_PAGES: usize = 256;

/// The most keys of a group.
pub const GROUP_KEYS: usize = PAGE_KEYS * GROUP_PAGES;

/// Makes room for one more version at a place of a page.
pub fn reserve_at<A: Allocator + Copy>(
    pages: &mut Vec<Page<A>, A>,
    alloc: A,
    page: usize,
    at: usize,
) -> Result<(), AllocError>
    requires page { page < length pages.old.items }
    requires at { (p : List Slot) → at < length (slice_index_or pages.old.items page p) }
    ensures { (p : List Slot) (d : Slot)
        → IsReserved (is_ok result) (slice_index_or (slice_index_or pages.old.items page p) at d)
        (slice_index_or (slice_index_or pages.new.items page p) at d)
        × (pages.new.items ≡ slice_set pages.old.items page
        (slice_set (slice_index_or pages.old.items page p) at
        (slice_index_or (slice_index_or pages.new.items page p) at d))) }
{
    pages[page].reserve_at(alloc, at)
}

/// Adds one version at a place of a page.
pub fn push_at<A: Allocator>(
    pages: &mut Vec<Page<A>, A>,
    page: usize,
    at: usize,
    position: u32,
    row: Option<&[u8]>,
)
    requires page { page < length pages.old.items }
    requires at { (p : List Slot) → at < length (slice_index_or pages.old.items page p) }
    requires room { (p : List Slot) (d : Slot) → HasRoom
        (slice_index_or (slice_index_or pages.old.items page p) at d).chain }
    requires width { (p : List Slot) (d : Slot)
        → IfSome row (λ r. length r.now ≡ (slice_index_or (slice_index_or pages.old.items page p) at d).chain.width) }
    ensures { (p : List Slot) (d : Slot)
        → IsPushed position (option_copied row.entry) (slice_index_or (slice_index_or pages.old.items page p) at d)
        (slice_index_or (slice_index_or pages.new.items page p) at d)
        × (pages.new.items ≡ slice_set pages.old.items page
        (slice_set (slice_index_or pages.old.items page p) at
        (slice_index_or (slice_index_or pages.new.items page p) at d))) }
{
    pages[page].push_at(at, position, row);
}

/// Notes the least key of a page again.
fn set_least<A: Allocator>(least: &mut Vec<u64, A>, pages: &[Page<A>], page: usize)
    requires page { page < length pages.now }
    requires len { length least.old.items ≡ length pages.now }
    ensures { (p : List Slot) → least.new.items
        ≡ slice_set least.old.items page (least_key (slice_index_or pages.now page p)) }
{
    least[page] = pages[page].least();
}

/// Puts an entry in its place in a page, and notes the least key of the page.
fn insert_at<A: Allocator>(
    least: &mut Vec<u64, A>,
    pages: &mut Vec<Page<A>, A>,
    page: usize,
    entry: Entry<A>,
) -> Result<(), AllocError>
    requires page { page < length pages.old.items }
    requires rising { (p : List Slot) → AreRising (slice_index_or pages.old.items page p) }
    requires least { least.old.items ≡ least_keys pages.old.items }
    ensures done { OnOk result ((p : List Slot)
        → pages.new.items ≡ slice_set pages.old.items page (with_slot entry (slice_index_or pages.old.items page p))) }
    ensures none { OnErr result (pages.new.items ≡ pages.old.items) }
    ensures least { least.new.items ≡ least_keys pages.new.items }
{
    put_in(pages, page, entry)?;
    set_least(least, pages, page);
    Ok(())
}

/// Puts an entry in its place in a page.
fn put_in<A: Allocator>(
    pages: &mut Vec<Page<A>, A>,
    page: usize,
    entry: Entry<A>,
) -> Result<(), AllocError>
    requires page { page < length pages.old.items }
    requires rising { (p : List Slot) → AreRising (slice_index_or pages.old.items page p) }
    ensures done { OnOk result ((p : List Slot)
        → pages.new.items ≡ slice_set pages.old.items page (with_slot entry (slice_index_or pages.old.items page p))) }
    ensures none { OnErr result (pages.new.items ≡ pages.old.items) }
{
    pages[page].insert(entry)
}

/// Returns the number of a page's keys.
fn keys<A: Allocator>(pages: &[Page<A>], page: usize) -> usize
    requires { page < length pages.now }
    ensures { (p : List Slot) → result ≡ length (slice_index_or pages.now page p) }
{
    pages[page].len()
}

/// Tells whether a page begins at a key or before.
fn begins_by<A: Allocator>(pages: &[Page<A>], page: usize, key: u64) -> bool
    requires { page < length pages.now }
    ensures { (p : List Slot) → result ≡ begins_by key (slice_index_or pages.now page p) }
{
    pages[page].begins_by(key)
}

/// Takes the upper half of a full page away.
fn take_upper<A: Allocator + Copy>(
    pages: &mut Vec<Page<A>, A>,
    page: usize,
) -> Result<Page<A>, AllocError>
    requires page { page < length pages.old.items }
    requires full { (p : List Slot) → length (slice_index_or pages.old.items page p) ≡ PAGE_KEYS }
    ensures lower { OnOk result ((p : List Slot)
        → pages.new.items ≡ slice_set pages.old.items page (take 32 (slice_index_or pages.old.items page p))) }
    ensures upper { IfOk result (λ upper. (p : List Slot) → upper ≡ drop 32 (slice_index_or pages.old.items page p)) }
    ensures none { OnErr result (pages.new.items ≡ pages.old.items) }
    ensures room { vec_capacity pages.new ≡ vec_capacity pages.old }
    ensures len { vec_len pages.new ≡ vec_len pages.old }
{
    pages[page].split()
}

/// Splits a full page, and notes the least key of its upper half. After want of memory nothing has changed.
fn split_at<A: Allocator + Copy>(
    least: &mut Vec<u64, A>,
    pages: &mut Vec<Page<A>, A>,
    page: usize,
) -> Result<(), AllocError>
    requires page { page < length pages.old.items }
    requires full { (p : List Slot) → length (slice_index_or pages.old.items page p) ≡ PAGE_KEYS }
    requires least { least.old.items ≡ least_keys pages.old.items }
    ensures done { OnOk result ((p : List Slot)
        → pages.new.items ≡ take page pages.old.items ++ take 32 (slice_index_or pages.old.items page p)
        ∷ drop 32 (slice_index_or pages.old.items page p) ∷ drop (page + 1) pages.old.items) }
    ensures none { OnErr result (pages.new.items ≡ pages.old.items) }
    ensures least { least.new.items ≡ least_keys pages.new.items }
{
    least.reserve(1)?;
    split_page(pages, page)?;
    let first = least_of(pages, page + 1);
    let noted = least.insert(page + 1, first);
    prove!(noted.is_ok());
    Ok(())
}

/// The least key of a page.
fn least_of<A: Allocator>(pages: &[Page<A>], page: usize) -> u64
    requires { page < length pages.now }
    ensures { (p : List Slot) → result ≡ least_key (slice_index_or pages.now page p) }
{
    pages[page].least()
}

/// Splits a full page: its upper half becomes the next page. After want of memory nothing has changed.
fn split_page<A: Allocator + Copy>(
    pages: &mut Vec<Page<A>, A>,
    page: usize,
) -> Result<(), AllocError>
    requires page { page < length pages.old.items }
    requires full { (p : List Slot) → length (slice_index_or pages.old.items page p) ≡ PAGE_KEYS }
    ensures done { OnOk result ((p : List Slot)
        → pages.new.items ≡ take page pages.old.items ++ take 32 (slice_index_or pages.old.items page p)
        ∷ drop 32 (slice_index_or pages.old.items page p) ∷ drop (page + 1) pages.old.items) }
    ensures none { OnErr result (pages.new.items ≡ pages.old.items) }
{
    pages.reserve(1)?;
    let upper = take_upper(pages, page)?;
    let inserted = pages.insert(page + 1, upper);
    prove!(inserted.is_ok());
    Ok(())
}

/// Puts an entry into one of the two halves of a page.
fn insert_half<A: Allocator>(
    least: &mut Vec<u64, A>,
    pages: &mut Vec<Page<A>, A>,
    page: usize,
    entry: Entry<A>,
) -> Result<(), AllocError>
    requires page { page + 1 < length pages.old.items }
    requires lower { (p : List Slot) → AreRising (slice_index_or pages.old.items page p) }
    requires upper { (p : List Slot) → AreRising (slice_index_or pages.old.items (page + 1) p) }
    requires least { least.old.items ≡ least_keys pages.old.items }
    ensures least { least.new.items ≡ least_keys pages.new.items }
    ensures done { OnOk result ((p : List Slot)
        → pages.new.items ≡ (if begins_by entry.key (slice_index_or pages.old.items (page + 1) p)
        then slice_set pages.old.items (page + 1) (with_slot entry (slice_index_or pages.old.items (page + 1) p))
        else slice_set pages.old.items page (with_slot entry (slice_index_or pages.old.items page p)))) }
    ensures none { OnErr result (pages.new.items ≡ pages.old.items) }
{
    if begins_by(pages, page + 1, entry.key()) {
        return insert_at(least, pages, page + 1, entry);
    }
    insert_at(least, pages, page, entry)
}

/// Tells whether a key begins a page of its own behind a full one.
fn goes_behind<A: Allocator>(pages: &[Page<A>], page: usize, split: Split, entry: &Entry<A>) -> bool
    requires page { page < length pages.now }
    requires rising { (p : List Slot) → AreRising (slice_index_or pages.now page p) }
    ensures { (p : List Slot) → result ≡ goes_behind split entry.now (slice_index_or pages.now page p) }
{
    match split {
        Split::Halves => false,
        Split::Behind => pages[page].ends_below(entry.key()),
    }
}

/// Makes a page of an entry behind another page. After want of memory nothing has changed.
fn insert_behind<A: Allocator + Copy>(
    least: &mut Vec<u64, A>,
    pages: &mut Vec<Page<A>, A>,
    alloc: A,
    page: usize,
    entry: Entry<A>,
) -> Result<(), AllocError>
    requires page { page < length pages.old.items }
    requires least { least.old.items ≡ least_keys pages.old.items }
    ensures least { least.new.items ≡ least_keys pages.new.items }
    ensures done { OnOk result ((p : List Slot)
        → pages.new.items ≡ take page pages.old.items ++ slice_index_or pages.old.items page p
        ∷ (entry ∷ []) ∷ drop (page + 1) pages.old.items) }
    ensures none { OnErr result (pages.new.items ≡ pages.old.items) }
{
    least.reserve(1)?;
    let key = entry.key();
    let added = Page::new(alloc, entry)?;
    pages.insert(page + 1, added)?;
    let noted = least.insert(page + 1, key);
    prove!(noted.is_ok());
    Ok(())
}

/// Puts an entry into a page. Where the page is full, the entry goes behind it or the page is first split.
fn insert_into<A: Allocator + Copy>(
    least: &mut Vec<u64, A>,
    pages: &mut Vec<Page<A>, A>,
    alloc: A,
    page: usize,
    entry: Entry<A>,
    split: Split,
) -> Result<(), AllocError>
    requires page { page < length pages.old.items }
    requires rising { (p : List Slot) → AreRising (slice_index_or pages.old.items page p) }
    requires filled { AreFilled PAGE_KEYS pages.old.items }
    requires least { least.old.items ≡ least_keys pages.old.items }
    ensures least { least.new.items ≡ least_keys pages.new.items }
    ensures done { OnOk result ((p : List Slot)
        → pages.new.items ≡ take page pages.old.items
        ++ (in_page split entry (slice_index_or pages.old.items page p) ++ drop (page + 1) pages.old.items)) }
    ensures none { OnErr result (all_slots pages.new.items ≡ all_slots pages.old.items) }
    ensures filled { AreFilled PAGE_KEYS pages.new.items }
    ensures few { length pages.new.items ≤ length pages.old.items + 1 }
{
    if keys(pages, page) < PAGE_KEYS {
        return insert_at(least, pages, page, entry);
    }
    if goes_behind(pages, page, split, &entry) {
        return insert_behind(least, pages, alloc, page, entry);
    }
    split_at(least, pages, page)?;
    insert_half(least, pages, page, entry)
}

/// Makes the first page of an entry.
fn insert_first<A: Allocator + Copy>(
    least: &mut Vec<u64, A>,
    pages: &mut Vec<Page<A>, A>,
    alloc: A,
    entry: Entry<A>,
) -> Result<(), AllocError>
    requires none { pages.old.items ≡ [] }
    requires least { least.old.items ≡ [] }
    ensures least { least.new.items ≡ least_keys pages.new.items }
    ensures done { OnOk result (pages.new.items ≡ (entry ∷ []) ∷ []) }
    ensures none { OnErr result (pages.new.items ≡ pages.old.items) }
{
    least.reserve(1)?;
    let key = entry.key();
    let page = Page::new(alloc, entry)?;
    pages.push(page)?;
    let noted = least.push(key);
    prove!(noted.is_ok());
    Ok(())
}

/// Puts an entry in its place. After want of memory the keys are the same.
fn insert<A: Allocator + Copy>(
    least: &mut Vec<u64, A>,
    pages: &mut Vec<Page<A>, A>,
    alloc: A,
    entry: Entry<A>,
    split: Split,
) -> Result<(), AllocError>
    requires rising { AreRising (all_slots pages.old.items) }
    requires filled { AreFilled PAGE_KEYS pages.old.items }
    requires least { least.old.items ≡ least_keys pages.old.items }
    ensures least { least.new.items ≡ least_keys pages.new.items }
    ensures done { OnOk result (pages.new.items ≡ in_pages split entry pages.old.items) }
    ensures none { OnErr result (all_slots pages.new.items ≡ all_slots pages.old.items) }
    ensures filled { AreFilled PAGE_KEYS pages.new.items }
    ensures few { length pages.new.items ≤ length pages.old.items + 1 }
{
    if pages.is_empty() {
        return insert_first(least, pages, alloc, entry);
    }
    let page = place_of(least, entry.key());
    insert_into(least, pages, alloc, page, entry, split)
}

/// Makes room for one more version of a key, which is put in its place where it is new.
pub fn reserve<A: Allocator + Copy>(
    least: &mut Vec<u64, A>,
    pages: &mut Vec<Page<A>, A>,
    alloc: A,
    width: u16,
    key: u64,
    split: Split,
) -> Result<(), AllocError>
    requires pages { ArePages pages.old.items }
    requires least { least.old.items ≡ least_keys pages.old.items }
    requires room { length pages.old.items < GROUP_PAGES }
    ensures pages { ArePages pages.new.items }
    ensures least { least.new.items ≡ least_keys pages.new.items }
    ensures found { IsSome (chain_at (all_slots pages.old.items) key)
        → IsChangedAt (IsReserved (is_ok result)) key (all_slots pages.old.items) (all_slots pages.new.items) }
    ensures inserted { OnOk result (chain_at (all_slots pages.old.items) key ≡ None
        → IsInserted split key pages.old.items pages.new.items) }
    ensures added { OnOk result (chain_at (all_slots pages.old.items) key ≡ None
        → IsAdded width key (all_slots pages.old.items) (all_slots pages.new.items)) }
    ensures none { OnErr result (chain_at (all_slots pages.old.items) key ≡ None
        → all_slots pages.new.items ≡ all_slots pages.old.items) }
{
    match find(least, pages, key) {
        Some((page, at)) => reserve_at(pages, alloc, page, at),
        None => {
            let mut entry = Entry::new(width, key);
            entry.reserve(alloc)?;
            insert(least, pages, alloc, entry, split)
        }
    }
}

/// Adds one version of a key.
pub fn push<A: Allocator>(
    least: &[u64],
    pages: &mut Vec<Page<A>, A>,
    key: u64,
    position: u32,
    row: Option<&[u8]>,
)
    requires pages { ArePages pages.old.items }
    requires least { least.now ≡ least_keys pages.old.items }
    requires room { HasRoomAt (all_slots pages.old.items) key }
    requires width { IfSome row
        (λ r. IsSomeAnd (chain_at (all_slots pages.old.items) key) (λ k. length r.now ≡ k.width)) }
    ensures pages { ArePages pages.new.items }
    ensures least { least_keys pages.new.items ≡ least_keys pages.old.items }
    ensures pushed { IsChangedAt (IsPushed position (option_copied row.entry)) key (all_slots pages.old.items)
        (all_slots pages.new.items) }
{
    let found = find(least, pages, key);
    prove!(found.is_some());
    if let Some((page, at)) = found {
        push_at(pages, page, at, position, row);
    }
}

/// Prunes a page.
fn prune_at<A: Allocator>(pages: &mut Vec<Page<A>, A>, page: usize, horizon: u32)
    requires { page < length pages.old.items }
    ensures { (p : List Slot) → IsPrunedTo horizon (slice_index_or pages.old.items page p)
        (slice_index_or pages.new.items page p)
        × (pages.new.items ≡ slice_set pages.old.items page (slice_index_or pages.new.items page p)) }
{
    pages[page].prune(horizon);
}

/// Prunes each page.
fn prune_each<A: Allocator>(pages: &mut Vec<Page<A>, A>, horizon: u32)
    ensures { ArePagesPruned horizon (length pages.old.items) pages.old.items pages.new.items }
{
    let all: &[Page<A>] = pages;
    let count = all.len();
    for i in 0..count {
        prune_at(pages, i, horizon);
    }
}

/// Drops the pages without keys.
fn drop_empty<A: Allocator>(pages: &mut Vec<Page<A>, A>)
    ensures { pages.new.items ≡ filter has_slots pages.old.items }
{
    pages.retain(|page| page.len() > 0);
}

/// Drops a page where pruning has left no keys in it, and notes the least keys again.
fn drop_pruned<A: Allocator>(least: &mut Vec<u64, A>, pages: &mut Vec<Page<A>, A>, page: usize)
    requires page { page < length pages.old.items }
    requires len { length least.old.items ≡ length pages.old.items }
    requires others { (p : List Slot)
        → slice_set least.old.items page (least_key (slice_index_or pages.old.items page p))
        ≡ least_keys pages.old.items }
    ensures least { least.new.items ≡ least_keys pages.new.items }
    ensures left { (p : List Slot) → pages.new.items ≡ (if has_slots (slice_index_or pages.old.items page p)
        then pages.old.items else filter has_slots pages.old.items) }
{
    if keys(pages, page) > 0 {
        set_least(least, pages, page);
        return;
    }
    drop_empty(pages);
    note_all(least, pages);
}

/// Prunes the page in which a key stands or would stand, and drops the page where it has no keys then. Answers the
/// least key of the page behind.
pub fn prune_page<A: Allocator>(
    least: &mut Vec<u64, A>,
    pages: &mut Vec<Page<A>, A>,
    key: u64,
    horizon: u32,
) -> Option<u64>
    requires some { 0 < length pages.old.items }
    requires least { least.old.items ≡ least_keys pages.old.items }
    ensures least { least.new.items ≡ least_keys pages.new.items }
    ensures slots { IsPrunedWithin horizon (all_slots pages.old.items) (all_slots pages.new.items) }
    ensures filled { AreFilled PAGE_KEYS pages.old.items → AreFilled PAGE_KEYS pages.new.items }
    ensures few { length pages.new.items ≤ length pages.old.items }
{
    let page = place_of(least, key);
    let behind = key_behind(least, page);
    prune_at(pages, page, horizon);
    drop_pruned(least, pages, page);
    behind
}

/// Drops the versions that no position from the horizon on sees, the keys of which no version is left, and the pages
/// without keys.
pub fn prune<A: Allocator>(least: &mut Vec<u64, A>, pages: &mut Vec<Page<A>, A>, horizon: u32)
    requires { least.old.items ≡ least_keys pages.old.items }
    ensures least { least.new.items ≡ least_keys pages.new.items }
    ensures slots { IsPrunedTo horizon (all_slots pages.old.items) (all_slots pages.new.items) }
    ensures filled { AreFilled PAGE_KEYS pages.old.items → AreFilled PAGE_KEYS pages.new.items }
    ensures few { length pages.new.items ≤ length pages.old.items }
{
    prune_each(pages, horizon);
    drop_empty(pages);
    note_all(least, pages);
}

/// Notes the least key of each page, where there is room for as many.
fn note_all<A: Allocator>(least: &mut Vec<u64, A>, pages: &[Page<A>])
    requires { length pages.now ≤ length least.old.items }
    ensures { least.new.items ≡ least_keys pages.now }
{
    least.truncate(pages.len());
    for page in 0..pages.len() {
        set_least(least, pages, page);
    }
}
