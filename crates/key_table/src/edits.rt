//! Changes of groups in order.

ghost use Rattle.std.specs.Prelude.{◌≡◌, ◌≢◌, ◌==◌, List, [], ◌∷◌, ◌++◌, ◌<◌, ◌≤◌, ◌+◌, ◌^◌, ℕ, length, take, drop};
ghost use Rattle.std.specs.Prelude.{filter, vec_len, vec_capacity, is_ok, slice_index_or, slice_set, None, OnOk};
ghost use Rattle.std.specs.Prelude.{OnErr, IfOk, IfSome, IsSome, if◌then◌else◌};
ghost use Rattle.std.specs.Option.{option_copied, IsSomeAnd};
ghost use Rattle.row_chain.specs.Version.{HasRoom};
ghost use Rattle.key_table.specs.declared.group_edits.TheConstants.{GROUP_PAGES, GROUP_KEYS};
ghost use Rattle.key_table.specs.Pages.{all_slots, least_key, least_keys, page_place, AreFilled, IsPrunedTo};
ghost use Rattle.key_table.specs.Pages.{ArePagesPruned, IsPrunedWithin, IsGroupSized};
ghost use Rattle.key_table.specs.Changes.{IsChangedAt, IsAdded};
ghost use Rattle.key_table.specs.Table.{Slot, IsReserved, IsPushed, AreRising, chain_at, versions_at, HasRoomAt};
ghost use Rattle.key_table.specs.Groups.{group_slots, has_any, AreGroups};

use crate::group::Group;
use crate::group_edits::GROUP_PAGES;
use crate::pages::{key_behind, place_of};
use crate::split::Split;
use std::alloc::{AllocError, Allocator};

/// The most groups of a table, more than memory holds, so that the table's keys can be counted.
pub const TABLE_GROUPS: usize = 562_949_953_421_312;

/// Notes the least key of a group again.
fn set_least<A: Allocator>(least: &mut Vec<u64, A>, groups: &[Group<A>], at: usize)
    requires at { at < length groups.now }
    requires len { length least.old.items ≡ length groups.now }
    ensures { (g : List (List Slot)) → least.new.items
        ≡ slice_set least.old.items at (least_key (all_slots (slice_index_or groups.now at g))) }
{
    least[at] = groups[at].least();
}

/// Returns the number of a group's pages.
fn pages_at<A: Allocator>(groups: &[Group<A>], at: usize) -> usize
    requires { at < length groups.now }
    ensures pages { (g : List (List Slot)) → result ≡ length (slice_index_or groups.now at g) }
    ensures most { result ≤ GROUP_PAGES }
{
    groups[at].pages()
}

/// The least key of a group.
fn least_at<A: Allocator>(groups: &[Group<A>], at: usize) -> u64
    requires { at < length groups.now }
    ensures { (g : List (List Slot)) → result ≡ least_key (all_slots (slice_index_or groups.now at g)) }
{
    groups[at].least()
}

/// Takes the upper half of a full group away.
fn take_upper<A: Allocator + Copy>(
    groups: &mut Vec<Group<A>, A>,
    alloc: A,
    at: usize,
) -> Result<Group<A>, AllocError>
    requires at { at < length groups.old.items }
    requires full { (g : List (List Slot)) → length (slice_index_or groups.old.items at g) ≡ GROUP_PAGES }
    ensures lower { OnOk result ((g : List (List Slot))
        → groups.new.items ≡ slice_set groups.old.items at (take 128 (slice_index_or groups.old.items at g))) }
    ensures upper { IfOk result (λ upper. (g : List (List Slot))
        → upper ≡ drop 128 (slice_index_or groups.old.items at g)) }
    ensures lower_size { OnOk result ((g : List (List Slot))
        → IsGroupSized (take 128 (slice_index_or groups.old.items at g))) }
    ensures upper_size { OnOk result ((g : List (List Slot))
        → IsGroupSized (drop 128 (slice_index_or groups.old.items at g))) }
    ensures none { OnErr result (groups.new.items ≡ groups.old.items) }
    ensures room { vec_capacity groups.new ≡ vec_capacity groups.old }
    ensures len { vec_len groups.new ≡ vec_len groups.old }
{
    groups[at].split(alloc)
}

/// Splits a full group: its upper half becomes the next group. After want of memory nothing has changed.
fn split_group<A: Allocator + Copy>(
    groups: &mut Vec<Group<A>, A>,
    alloc: A,
    at: usize,
) -> Result<(), AllocError>
    requires at { at < length groups.old.items }
    requires full { (g : List (List Slot)) → length (slice_index_or groups.old.items at g) ≡ GROUP_PAGES }
    ensures done { OnOk result ((g : List (List Slot))
        → groups.new.items ≡ take at groups.old.items ++ take 128 (slice_index_or groups.old.items at g)
        ∷ drop 128 (slice_index_or groups.old.items at g) ∷ drop (at + 1) groups.old.items) }
    ensures lower_size { OnOk result ((g : List (List Slot))
        → IsGroupSized (take 128 (slice_index_or groups.old.items at g))) }
    ensures upper_size { OnOk result ((g : List (List Slot))
        → IsGroupSized (drop 128 (slice_index_or groups.old.items at g))) }
    ensures none { OnErr result (groups.new.items ≡ groups.old.items) }
{
    groups.reserve(1)?;
    let upper = take_upper(groups, alloc, at)?;
    let inserted = groups.insert(at + 1, upper);
    prove!(inserted.is_ok());
    Ok(())
}

/// Splits a full group, and notes the least key of its upper half. After want of memory nothing has changed.
fn split_at<A: Allocator + Copy>(
    least: &mut Vec<u64, A>,
    groups: &mut Vec<Group<A>, A>,
    alloc: A,
    at: usize,
) -> Result<(), AllocError>
    requires at { at < length groups.old.items }
    requires full { (g : List (List Slot)) → length (slice_index_or groups.old.items at g) ≡ GROUP_PAGES }
    requires least { least.old.items ≡ least_keys (group_slots groups.old.items) }
    requires filled { AreFilled GROUP_KEYS (group_slots groups.old.items) }
    ensures done { OnOk result ((g : List (List Slot))
        → groups.new.items ≡ take at groups.old.items ++ take 128 (slice_index_or groups.old.items at g)
        ∷ drop 128 (slice_index_or groups.old.items at g) ∷ drop (at + 1) groups.old.items) }
    ensures lower_size { OnOk result ((g : List (List Slot))
        → IsGroupSized (take 128 (slice_index_or groups.old.items at g))) }
    ensures filled { AreFilled GROUP_KEYS (group_slots groups.new.items) }
    ensures none { OnErr result (groups.new.items ≡ groups.old.items) }
    ensures least { least.new.items ≡ least_keys (group_slots groups.new.items) }
{
    least.reserve(1)?;
    split_group(groups, alloc, at)?;
    let first = least_at(groups, at + 1);
    let noted = least.insert(at + 1, first);
    prove!(noted.is_ok());
    Ok(())
}

/// The place of a key's group, which is first split where it is full. After want of memory the keys are the same.
fn make_place<A: Allocator + Copy>(
    least: &mut Vec<u64, A>,
    groups: &mut Vec<Group<A>, A>,
    alloc: A,
    key: u64,
) -> Result<usize, AllocError>
    requires some { 0 < length groups.old.items }
    requires rising { AreRising (all_slots (group_slots groups.old.items)) }
    requires filled { AreFilled GROUP_KEYS (group_slots groups.old.items) }
    requires least { least.old.items ≡ least_keys (group_slots groups.old.items) }
    ensures slots { all_slots (group_slots groups.new.items) ≡ all_slots (group_slots groups.old.items) }
    ensures filled { AreFilled GROUP_KEYS (group_slots groups.new.items) }
    ensures least { least.new.items ≡ least_keys (group_slots groups.new.items) }
    ensures few { length groups.new.items ≤ length groups.old.items + 1 }
    ensures within { IfOk result (λ at. at < length groups.new.items) }
    ensures place { IfOk result (λ at. at ≡ page_place key (group_slots groups.new.items)) }
    ensures room { IfOk result (λ at. (g : List (List Slot))
        → length (slice_index_or groups.new.items at g) < GROUP_PAGES) }
{
    let at = place_of(least, key);
    if pages_at(groups, at) < GROUP_PAGES {
        return Ok(at);
    }
    split_at(least, groups, alloc, at)?;
    Ok(place_of(least, key))
}

/// Makes room for one more version of a key in a group.
fn reserve_at<A: Allocator + Copy>(
    groups: &mut Vec<Group<A>, A>,
    alloc: A,
    at: usize,
    width: u16,
    key: u64,
    split: Split,
) -> Result<(), AllocError>
    requires at { at < length groups.old.items }
    requires room { (g : List (List Slot)) → length (slice_index_or groups.old.items at g) < GROUP_PAGES }
    ensures found { (g : List (List Slot)) → IsSome (chain_at (all_slots (slice_index_or groups.old.items at g)) key)
        → IsChangedAt (IsReserved (is_ok result)) key (all_slots (slice_index_or groups.old.items at g))
        (all_slots (slice_index_or groups.new.items at g)) }
    ensures added { OnOk result ((g : List (List Slot))
        → chain_at (all_slots (slice_index_or groups.old.items at g)) key ≡ None
        → IsAdded width key (all_slots (slice_index_or groups.old.items at g))
        (all_slots (slice_index_or groups.new.items at g))) }
    ensures none { OnErr result ((g : List (List Slot))
        → chain_at (all_slots (slice_index_or groups.old.items at g)) key ≡ None
        → all_slots (slice_index_or groups.new.items at g) ≡ all_slots (slice_index_or groups.old.items at g)) }
    ensures size { (g : List (List Slot)) → IsGroupSized (slice_index_or groups.new.items at g) }
    ensures others { (g : List (List Slot))
        → groups.new.items ≡ slice_set groups.old.items at (slice_index_or groups.new.items at g) }
{
    groups[at].reserve(alloc, width, key, split)
}

/// Makes room for one more version of a key in its group, and notes the least key of the group.
fn reserve_in<A: Allocator + Copy>(
    least: &mut Vec<u64, A>,
    groups: &mut Vec<Group<A>, A>,
    alloc: A,
    at: usize,
    width: u16,
    key: u64,
    split: Split,
) -> Result<(), AllocError>
    requires groups { AreGroups width groups.old.items }
    requires least { least.old.items ≡ least_keys (group_slots groups.old.items) }
    requires at { at < length groups.old.items }
    requires place { at ≡ page_place key (group_slots groups.old.items) }
    requires room { (g : List (List Slot)) → length (slice_index_or groups.old.items at g) < GROUP_PAGES }
    ensures groups { AreGroups width groups.new.items }
    ensures least { least.new.items ≡ least_keys (group_slots groups.new.items) }
    ensures versions { (q : ℕ) → versions_at (all_slots (group_slots groups.new.items)) q
        ≡ versions_at (all_slots (group_slots groups.old.items)) q }
    ensures room { OnOk result (HasRoomAt (all_slots (group_slots groups.new.items)) key) }
    ensures more { (q : ℕ) → HasRoomAt (all_slots (group_slots groups.old.items)) q
        → HasRoomAt (all_slots (group_slots groups.new.items)) q }
{
    let reserved = reserve_at(groups, alloc, at, width, key, split);
    set_least(least, groups, at);
    reserved
}

/// Makes the first group, of one key.
fn reserve_first<A: Allocator + Copy>(
    least: &mut Vec<u64, A>,
    groups: &mut Vec<Group<A>, A>,
    alloc: A,
    width: u16,
    key: u64,
    split: Split,
) -> Result<(), AllocError>
    requires none { groups.old.items ≡ [] }
    requires least { least.old.items ≡ [] }
    ensures none { OnErr result (groups.new.items ≡ []) }
    ensures added { OnOk result (IsAdded width key [] (all_slots (group_slots groups.new.items))) }
    ensures filled { AreFilled GROUP_KEYS (group_slots groups.new.items) }
    ensures least { least.new.items ≡ least_keys (group_slots groups.new.items) }
    ensures few { length groups.new.items ≤ 1 }
{
    least.reserve(1)?;
    let mut group = Group::new(alloc);
    group.reserve(alloc, width, key, split)?;
    let first = group.least();
    groups.push(group)?;
    let noted = least.push(first);
    prove!(noted.is_ok());
    Ok(())
}

/// Makes room for one more version of a key, which is put in its place where it is new. After want of memory each key
/// has the versions it had.
pub fn reserve<A: Allocator + Copy>(
    least: &mut Vec<u64, A>,
    groups: &mut Vec<Group<A>, A>,
    alloc: A,
    width: u16,
    key: u64,
    split: Split,
) -> Result<(), AllocError>
    requires groups { AreGroups width groups.old.items }
    requires least { least.old.items ≡ least_keys (group_slots groups.old.items) }
    ensures groups { AreGroups width groups.new.items }
    ensures least { least.new.items ≡ least_keys (group_slots groups.new.items) }
    ensures versions { (q : ℕ) → versions_at (all_slots (group_slots groups.new.items)) q
        ≡ versions_at (all_slots (group_slots groups.old.items)) q }
    ensures room { OnOk result (HasRoomAt (all_slots (group_slots groups.new.items)) key) }
    ensures more { (q : ℕ) → HasRoomAt (all_slots (group_slots groups.old.items)) q
        → HasRoomAt (all_slots (group_slots groups.new.items)) q }
{
    if groups.len() >= TABLE_GROUPS {
        return Err(AllocError);
    }
    if groups.is_empty() {
        return reserve_first(least, groups, alloc, width, key, split);
    }
    let at = make_place(least, groups, alloc, key)?;
    reserve_in(least, groups, alloc, at, width, key, split)
}

/// Adds one version of a key in a group.
fn push_at<A: Allocator>(
    groups: &mut Vec<Group<A>, A>,
    at: usize,
    key: u64,
    position: u32,
    row: Option<&[u8]>,
)
    requires at { at < length groups.old.items }
    requires room { (g : List (List Slot)) → HasRoomAt (all_slots (slice_index_or groups.old.items at g)) key }
    requires width { (g : List (List Slot)) → IfSome row
        (λ r. IsSomeAnd (chain_at (all_slots (slice_index_or groups.old.items at g)) key)
        (λ k. length r.now ≡ k.width)) }
    ensures { (g : List (List Slot)) → IsChangedAt (IsPushed position (option_copied row.entry)) key
        (all_slots (slice_index_or groups.old.items at g)) (all_slots (slice_index_or groups.new.items at g))
        × (groups.new.items ≡ slice_set groups.old.items at (slice_index_or groups.new.items at g)) }
{
    groups[at].push(key, position, row);
}

/// Adds one version of a key.
pub fn push<A: Allocator>(
    least: &[u64],
    groups: &mut Vec<Group<A>, A>,
    key: u64,
    position: u32,
    row: Option<&[u8]>,
)
    requires least { least.now ≡ least_keys (group_slots groups.old.items) }
    requires rising { AreRising (all_slots (group_slots groups.old.items)) }
    requires filled { AreFilled GROUP_KEYS (group_slots groups.old.items) }
    requires room { HasRoomAt (all_slots (group_slots groups.old.items)) key }
    requires width { IfSome row
        (λ r. IsSomeAnd (chain_at (all_slots (group_slots groups.old.items)) key) (λ k. length r.now ≡ k.width)) }
    ensures least { least_keys (group_slots groups.new.items) ≡ least_keys (group_slots groups.old.items) }
    ensures filled { AreFilled GROUP_KEYS (group_slots groups.new.items) }
    ensures count { length groups.new.items ≡ length groups.old.items }
    ensures pushed { IsChangedAt (IsPushed position (option_copied row.entry)) key
        (all_slots (group_slots groups.old.items)) (all_slots (group_slots groups.new.items)) }
{
    let at = place_of(least, key);
    push_at(groups, at, key, position, row);
}

/// Prunes a group.
fn prune_at<A: Allocator>(groups: &mut Vec<Group<A>, A>, at: usize, horizon: u32)
    requires { at < length groups.old.items }
    ensures { (g : List (List Slot)) → IsPrunedTo horizon (all_slots (slice_index_or groups.old.items at g))
        (all_slots (slice_index_or groups.new.items at g))
        × (groups.new.items ≡ slice_set groups.old.items at (slice_index_or groups.new.items at g)) }
{
    groups[at].prune(horizon);
}

/// Prunes each group.
fn prune_each<A: Allocator>(groups: &mut Vec<Group<A>, A>, horizon: u32)
    ensures pruned { ArePagesPruned horizon (length groups.old.items) (group_slots groups.old.items)
        (group_slots groups.new.items) }
    ensures count { length groups.new.items ≡ length groups.old.items }
{
    let all: &[Group<A>] = groups;
    let count = all.len();
    for at in 0..count {
        prune_at(groups, at, horizon);
    }
}

/// Drops the groups without keys.
fn drop_empty<A: Allocator>(groups: &mut Vec<Group<A>, A>)
    ensures { groups.new.items ≡ filter has_any groups.old.items }
{
    groups.retain(|group| group.has_keys());
}

/// Tells whether a group has keys.
fn has_keys<A: Allocator>(groups: &[Group<A>], at: usize) -> bool
    requires { at < length groups.now }
    ensures { (g : List (List Slot)) → result ≡ has_any (slice_index_or groups.now at g) }
{
    groups[at].has_keys()
}

/// Prunes the page of a group in which a key stands or would stand.
fn prune_page_at<A: Allocator>(
    groups: &mut Vec<Group<A>, A>,
    at: usize,
    key: u64,
    horizon: u32,
) -> Option<u64>
    requires at { at < length groups.old.items }
    requires some { (g : List (List Slot)) → 0 < length (slice_index_or groups.old.items at g) }
    ensures { (g : List (List Slot)) → IsPrunedWithin horizon (all_slots (slice_index_or groups.old.items at g))
        (all_slots (slice_index_or groups.new.items at g))
        × (groups.new.items ≡ slice_set groups.old.items at (slice_index_or groups.new.items at g)) }
{
    groups[at].prune_page(key, horizon)
}

/// Drops a group where pruning has left no keys in it, and notes the least keys again.
fn drop_pruned<A: Allocator>(least: &mut Vec<u64, A>, groups: &mut Vec<Group<A>, A>, at: usize)
    requires at { at < length groups.old.items }
    requires len { length least.old.items ≡ length groups.old.items }
    requires others { (g : List (List Slot))
        → slice_set least.old.items at (least_key (all_slots (slice_index_or groups.old.items at g)))
        ≡ least_keys (group_slots groups.old.items) }
    ensures least { least.new.items ≡ least_keys (group_slots groups.new.items) }
    ensures left { (g : List (List Slot)) → groups.new.items ≡ (if has_any (slice_index_or groups.old.items at g)
        then groups.old.items else filter has_any groups.old.items) }
{
    if has_keys(groups, at) {
        set_least(least, groups, at);
        return;
    }
    drop_empty(groups);
    note_all(least, groups);
}

/// Prunes the page in which a key stands or would stand, and drops the page and its group where they have no keys then.
/// Answers the least key of the page behind.
pub fn prune_page<A: Allocator>(
    least: &mut Vec<u64, A>,
    groups: &mut Vec<Group<A>, A>,
    key: u64,
    horizon: u32,
) -> Option<u64>
    requires some { 0 < length groups.old.items }
    requires least { least.old.items ≡ least_keys (group_slots groups.old.items) }
    requires filled { AreFilled GROUP_KEYS (group_slots groups.old.items) }
    ensures least { least.new.items ≡ least_keys (group_slots groups.new.items) }
    ensures slots { IsPrunedWithin horizon (all_slots (group_slots groups.old.items))
        (all_slots (group_slots groups.new.items)) }
    ensures filled { AreFilled GROUP_KEYS (group_slots groups.new.items) }
    ensures few { length groups.new.items ≤ length groups.old.items }
{
    let at = place_of(least, key);
    let behind = key_behind(least, at);
    let next = prune_page_at(groups, at, key, horizon);
    drop_pruned(least, groups, at);
    next.or(behind)
}

/// Drops the versions that no position from the horizon on sees, the keys of which no version is left, and the groups
/// without keys.
pub fn prune<A: Allocator>(least: &mut Vec<u64, A>, groups: &mut Vec<Group<A>, A>, horizon: u32)
    requires { least.old.items ≡ least_keys (group_slots groups.old.items) }
    ensures least { least.new.items ≡ least_keys (group_slots groups.new.items) }
    ensures slots { IsPrunedTo horizon (all_slots (group_slots groups.old.items))
        (all_slots (group_slots groups.new.items)) }
    ensures filled { AreFilled GROUP_KEYS (group_slots groups.old.items)
        → AreFilled GROUP_KEYS (group_slots groups.new.items) }
    ensures few { length groups.new.items ≤ length groups.old.items }
{
    prune_each(groups, horizon);
    drop_empty(groups);
    note_all(least, groups);
}

/// Notes the least key of each group, where there is room for as many.
fn note_all<A: Allocator>(least: &mut Vec<u64, A>, groups: &[Group<A>])
    requires { length groups.now ≤ length least.old.items }
    ensures { least.new.items ≡ least_keys (group_slots groups.now) }
{
    least.truncate(groups.len());
    for at in 0..groups.len() {
        set_least(least, groups, at);
    }
}
