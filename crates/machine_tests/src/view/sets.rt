//! Looks and writes, and when they share a key.

use super::same;
use row_sets::{ReadSet, WriteSet, shares_key};
use scarce::Scarce;
use schema::Look;
use std::alloc::Global;
use std::process::Abort;

/// A table, a key, and whether it lies in the looks.
type Place = (u8, u64, bool);

static PLACES: [Place; 7] = [
    (1, 5, true),
    (1, 6, false),
    (1, 9, false),
    (1, 10, true),
    (1, 20, true),
    (1, 21, false),
    (2, 12, false),
];

const RANGE: Look = Look {
    table: 1,
    lo: 10,
    hi: 20,
};

fn shares(rt: &impl Abort, reads: &ReadSet, writes: &WriteSet, place: Place) {
    same(
        rt,
        "shared",
        (place, shares_key(reads, writes)),
        (place, place.2),
    );
    same(rt, "writes", (place, writes.len()), (place, 1));
}

/// Tries a removal and then a put, each as the one write.
fn share(rt: &impl Abort, alloc: Global, reads: &ReadSet, place: Place) {
    let mut writes = WriteSet::new(alloc);
    assert!(rt; !shares_key(reads, &writes));
    writes.remove(place.0, place.1).expect(rt, "a removal");
    shares(rt, reads, &writes, place);
    writes.put(place.0, place.1, &[1]).expect(rt, "a put");
    shares(rt, reads, &writes, place);
}

#[test]
fn a_removal_inside_a_look_is_shared(rt: HostRuntime) {
    let mut reads = ReadSet::new(rt.alloc());
    reads.add_point(1, 5).expect(&rt, "a point");
    reads.add_range(RANGE).expect(&rt, "a range");
    for place in &PLACES {
        share(&rt, rt.alloc(), &reads, *place);
    }
}

fn write_some(rt: &impl Abort, writes: &mut WriteSet) {
    writes.put(2, 3, &[7, 8]).expect(rt, "a put");
    writes.put(1, u64::MAX, &[9]).expect(rt, "another table");
    writes.put(2, 3, &[]).expect(rt, "a put once more");
    writes.remove(1, 4).expect(rt, "a removal");
}

/// The keys in their order.
static ORDER: [(u8, u64); 3] = [(1, 4), (1, u64::MAX), (2, 3)];

fn come_in_order(rt: &impl Abort, writes: &WriteSet) {
    let mut count = 0usize;
    for (key, _) in writes.iter() {
        same(rt, "key", ORDER.get(count), Some(key));
        count = count.saturating_add(1);
    }
    same(rt, "keys", count, ORDER.len());
}

fn stand(rt: &impl Abort, writes: &WriteSet) {
    assert!(rt; writes.contains(2, 3) && !writes.contains(2, 4));
    same(rt, "put twice", writes.get(2, 3), Some(Some([].as_slice())));
    same(rt, "removed", writes.get(1, 4), Some(None));
    come_in_order(rt, writes);
}

#[test]
fn the_last_write_of_a_key_stands(rt: HostRuntime) {
    let mut writes = WriteSet::new(rt.alloc());
    assert!(rt; writes.is_empty());
    write_some(&rt, &mut writes);
    stand(&rt, &writes);
    writes.clear();
    assert!(rt; writes.is_empty());
}

fn refuse_a_look(rt: &impl Abort, scarce: &Scarce) {
    let mut reads = ReadSet::new(scarce);
    scarce.refuse_nth(1);
    assert!(rt; reads.add_point(1, 5).is_err());
    assert!(rt; reads.looks().is_empty());
    reads.add_point(1, 5).expect(rt, "a point");
    same(rt, "looks", reads.looks().len(), 1);
}

fn refuse_put(rt: &impl Abort, scarce: &Scarce, writes: &mut WriteSet<&Scarce>, growth: u64) {
    scarce.refuse_nth(growth);
    assert!(rt; writes.put(1, 5, &[1, 2]).is_err(), "{growth}");
    assert!(rt; writes.is_empty(), "{growth}");
}

fn refuse_a_put(rt: &impl Abort, scarce: &Scarce) {
    let mut writes = WriteSet::new(scarce);
    refuse_put(rt, scarce, &mut writes, 1);
    refuse_put(rt, scarce, &mut writes, 2);
    writes.put(1, 5, &[1, 2]).expect(rt, "a put");
    same(rt, "put", writes.get(1, 5), Some(Some([1, 2].as_slice())));
}

/// Writes for which there is room take no memory for their keys.
fn keep_room(rt: &impl Abort, scarce: &Scarce, count: usize) {
    let mut writes = WriteSet::with_room(scarce, count).expect(rt, "room");
    scarce.refuse_all(true);
    for key in 0..count as u64 {
        writes.remove(1, key).expect(rt, "a removal");
    }
    scarce.refuse_all(false);
    same(rt, "removed", writes.len(), count);
}

#[test]
fn a_refused_growth_leaves_looks_and_writes(rt: HostRuntime) {
    let scarce = Scarce::new(rt.alloc());
    refuse_a_look(&rt, &scarce);
    refuse_a_put(&rt, &scarce);
    for count in [1, 5] {
        keep_room(&rt, &scarce, count);
    }
}
