//! The pages of a table.

use catalogue::Catalogue;
use row_sets::WriteSet;
use rows_mv::Versions;
use schema::Schema;
use std::alloc::Global;
use std::process::Abort;
use test_programs::TABLES;
use test_replicas::CheckedVersions;

/// A put of a key's own number.
fn put_of(rt: &impl Abort, alloc: Global, key: u64) -> WriteSet {
    let mut writes = WriteSet::new(alloc);
    writes.put(1, key, &key.to_le_bytes()).expect(rt, "memory");
    writes
}

fn removal_of(rt: &impl Abort, alloc: Global, key: u64) -> WriteSet {
    let mut writes = WriteSet::new(alloc);
    writes.remove(1, key).expect(rt, "memory");
    writes
}

/// The numbers of pages that table 1 has once a number of keys were put in rising order, counted by hand. A page of 64
/// keys is split into 32 and 32 by the next key, which goes into the upper one.
const PAGES: [(u64, usize); 7] = [
    (1, 1),
    (64, 1),
    (65, 2),
    (96, 2),
    (97, 3),
    (128, 3),
    (1_000, 31),
];

fn install(rt: &impl Abort, checked: &mut CheckedVersions, position: u32, writes: &WriteSet) {
    let installed = checked.install(position, writes).expect(rt, "memory");
    assert!(rt; installed);
}

/// Puts the keys from 1 to 1,000 in turn, and returns the number of rows of `PAGES` that were seen.
fn put_all(rt: &impl Abort, alloc: Global, checked: &mut CheckedVersions) -> usize {
    let mut seen = 0usize;
    for key in 1..=1_000u64 {
        install(rt, checked, key as u32, &put_of(rt, alloc, key));
        for (keys, pages) in &PAGES {
            if *keys == key {
                assert_eq!(rt; checked.versions().pages(1), *pages, "{key} keys");
                seen = seen.wrapping_add(1);
            }
        }
    }
    seen
}

fn remove_all(rt: &impl Abort, alloc: Global, checked: &mut CheckedVersions) {
    for key in 1..=1_000u64 {
        install(rt, checked, 1_001, &removal_of(rt, alloc, key));
    }
}

/// Puts all keys and removes them again, and returns what putting them returned.
fn put_and_remove_all(rt: &impl Abort, alloc: Global, checked: &mut CheckedVersions) -> usize {
    let seen = put_all(rt, alloc, checked);
    remove_all(rt, alloc, checked);
    seen
}

/// Returns the number of pages that are left where a position is the oldest that is kept.
fn pages_from(checked: &mut CheckedVersions, position: u32) -> usize {
    checked.prune(position);
    checked.versions().pages(1)
}

#[test]
fn pages_are_split_when_they_are_full(rt: HostRuntime) {
    let schema = Schema::new(rt.alloc(), &TABLES).expect(&rt, "memory");
    let mut checked = CheckedVersions::new(rt.alloc(), &schema).expect(&rt, "memory");
    let seen = put_and_remove_all(&rt, rt.alloc(), &mut checked);
    let left = [
        pages_from(&mut checked, 1_000),
        pages_from(&mut checked, 1_001),
    ];
    assert_eq!(rt; (seen, left), (PAGES.len(), [31, 0]));
}

/// Returns the number of pages that are left after each of 32 that are pruned, and how often a pass came to its end.
fn pages_in_turn(checked: &mut CheckedVersions, position: u32) -> ([usize; 32], u32) {
    let mut left = [0; 32];
    let mut ends = 0u32;
    for turn in 0..32 {
        if checked.prune_page(position) {
            ends = ends.wrapping_add(1);
        }
        left[turn] = checked.versions().pages(1);
    }
    (left, ends)
}

#[test]
fn pages_are_pruned_one_at_a_time(rt: HostRuntime) {
    let schema = Schema::new(rt.alloc(), &TABLES).expect(&rt, "memory");
    let mut checked = CheckedVersions::new(rt.alloc(), &schema).expect(&rt, "memory");
    let seen = put_and_remove_all(&rt, rt.alloc(), &mut checked);
    let kept = pages_in_turn(&mut checked, 1_000);
    let (left, ends) = pages_in_turn(&mut checked, 1_001);
    let expected: [usize; 32] = [
        30, 29, 28, 27, 26, 25, 24, 23, 22, 21, 20, 19, 18, 17, 16, 15, 14, 13, 12, 11, 10, 9, 8,
        7, 6, 5, 4, 3, 2, 1, 0, 0,
    ];
    assert_eq!(rt;
        (seen, kept, left, ends),
        (PAGES.len(), ([31; 32], 1), expected, 1)
    );
}

/// The numbers of pages that table 1 begins with, by the number of rows in rising order, counted by hand. A page of 64
/// keys stays whole, and the next key begins the next page. A group has 256 pages.
const WHOLE_PAGES: [(u64, usize); 8] = [
    (1, 1),
    (64, 1),
    (65, 2),
    (128, 2),
    (129, 3),
    (1_000, 16),
    (16_384, 256),
    (16_385, 257),
];

/// The number of pages of versions that begin with rows of the keys from 1 on.
fn pages_at_first(rt: &impl Abort, alloc: Global, rows: u64) -> usize {
    let schema = Schema::new(alloc, &TABLES).expect(rt, "memory");
    let mut catalogue = Catalogue::new(alloc, schema);
    for key in 1..=rows {
        let put = catalogue.put_row(1, key, &key.to_le_bytes());
        assert!(rt; put.is_ok());
    }
    let versions = Versions::beginning_with(alloc, catalogue.schema(), catalogue.rows());
    versions.expect(rt, "memory").pages(1)
}

#[test]
fn rows_at_first_leave_whole_pages(rt: HostRuntime) {
    for (rows, pages) in &WHOLE_PAGES {
        let found = pages_at_first(&rt, rt.alloc(), *rows);
        assert_eq!(rt; found, *pages, "{rows} rows");
    }
}

// ---- more pages than a group has

/// The number of keys that are put in rising order: 312 pages, of which a group has 256 at most.
const MANY: u64 = 10_000;

/// Returns the number of keys, from 1 on, that have their own number at a position.
fn own_numbers(rt: &impl Abort, checked: &CheckedVersions, position: u32) -> u64 {
    let mut own = 0u64;
    for key in 1..=MANY {
        let row = checked.versions().read_at(position, 1, key);
        let row = row.expect(rt, "a position that is kept");
        if row == Some(key.to_le_bytes().as_slice()) {
            own = own.wrapping_add(1);
        }
    }
    own
}

#[test]
fn keys_of_several_groups_are_found(rt: HostRuntime) {
    let schema = Schema::new(rt.alloc(), &TABLES).expect(&rt, "memory");
    let mut checked = CheckedVersions::new(rt.alloc(), &schema).expect(&rt, "memory");
    let mut writes = WriteSet::new(rt.alloc());
    for key in 1..=MANY {
        writes.put(1, key, &key.to_le_bytes()).expect(&rt, "memory");
    }
    install(&rt, &mut checked, 1, &writes);
    let own = own_numbers(&rt, &checked, 1);
    let pages = checked.versions().pages(1);
    let rows = checked.versions().count_at(1, 1, 2, MANY - 1);
    assert_eq!(rt; (own, pages, rows), (MANY, 312, Ok(9_998)));
}
