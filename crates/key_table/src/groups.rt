//! The rows among groups in order.

ghost use Rattle.std.specs.Prelude.{◌≡◌, ◌≤◌, ◌*◌, ℕ, length, slice_get, option_map};
ghost use Rattle.std.specs.Option.{option_copied};
ghost use Rattle.row_chain.specs.Version.{row_up_to};
ghost use Rattle.key_table.specs.declared.group_edits.TheConstants.{PAGE_KEYS, GROUP_KEYS};
ghost use Rattle.key_table.specs.Pages.{all_slots, least_keys, AreFilled};
ghost use Rattle.key_table.specs.declared.edits.TheConstants.{TABLE_GROUPS};
ghost use Rattle.key_table.specs.Table.{AreRising, versions_at, rows_between};
ghost use Rattle.key_table.specs.Groups.{group_slots};

use crate::group::Group;
use crate::pages::place_of;
use std::alloc::Allocator;

/// The row of a key at a position.
pub fn row_at<'a, A: Allocator>(
    least: &[u64],
    groups: &'a [Group<A>],
    position: u32,
    key: u64,
) -> Option<&'a [u8]>
    requires least { least.now ≡ least_keys (group_slots groups.now) }
    requires rising { AreRising (all_slots (group_slots groups.now)) }
    requires filled { AreFilled GROUP_KEYS (group_slots groups.now) }
    ensures { option_copied result ≡ row_up_to position (versions_at (all_slots (group_slots groups.now)) key) }
{
    if groups.is_empty() {
        return None;
    }
    groups[place_of(least, key)].row_at(position, key)
}

/// The groups from the group of a key on.
pub fn since<'a, A: Allocator>(least: &[u64], groups: &'a [Group<A>], lo: u64) -> &'a [Group<A>]
    requires least { least.now ≡ least_keys (group_slots groups.now) }
    requires rising { AreRising (all_slots (group_slots groups.now)) }
    requires filled { AreFilled GROUP_KEYS (group_slots groups.now) }
    ensures rising { AreRising (all_slots (group_slots result.now)) }
    ensures filled { AreFilled GROUP_KEYS (group_slots result.now) }
    ensures few { length result.now ≤ length groups.now }
    ensures same { (s hi : ℕ) → rows_between s lo hi (all_slots (group_slots result.now))
        ≡ rows_between s lo hi (all_slots (group_slots groups.now)) }
{
    if groups.is_empty() {
        return groups;
    }
    let from = place_of(least, lo);
    &groups[from..]
}

/// Counts the rows in a range.
pub fn count<A: Allocator>(groups: &[Group<A>], position: u32, lo: u64, hi: u64) -> usize
    requires rising { AreRising (all_slots (group_slots groups.now)) }
    requires filled { AreFilled GROUP_KEYS (group_slots groups.now) }
    requires few { length groups.now ≤ TABLE_GROUPS }
    ensures { result ≡ length (rows_between position lo hi (all_slots (group_slots groups.now))) }
{
    let mut found = 0;
    for group in groups {
        if group.least() > hi {
            return found;
        }
        found += group.count(position, lo, hi);
    }
    found
}

/// The first row in a range, with its key.
pub fn first<A: Allocator>(
    groups: &[Group<A>],
    position: u32,
    lo: u64,
    hi: u64,
) -> Option<(u64, &[u8])>
    requires rising { AreRising (all_slots (group_slots groups.now)) }
    requires filled { AreFilled GROUP_KEYS (group_slots groups.now) }
    ensures { option_map (λ f. (f.0, f.1.now)) result
        ≡ slice_get (rows_between position lo hi (all_slots (group_slots groups.now))) 0 }
{
    for group in groups {
        if group.least() > hi {
            return None;
        }
        if let Some(row) = group.first(position, lo, hi) {
            return Some(row);
        }
    }
    None
}

/// Returns the number of pages.
pub fn pages<A: Allocator>(groups: &[Group<A>]) -> usize
    requires { length groups.now ≤ TABLE_GROUPS }
    ensures few { result ≤ length (all_slots (group_slots groups.now)) }
    ensures enough { length (all_slots (group_slots groups.now)) ≤ PAGE_KEYS * result }
{
    let mut found = 0;
    for group in groups {
        found += group.pages();
    }
    found
}
