// Tests of what no clause says: which growth is refused, what the counters show, and that a collection can use it.

use super::same;
use scarce::Scarce;
use std::alloc::{AllocError, Allocator};
use std::collections::BTreeMap;
use std::process::Abort;
use std::sync::atomic::{AtomicU64, Ordering};
use std::sync::{Barrier, Wait};
use std::thread;

// Tells whether the list got room for 100 elements more. In any case the list has its one element.
fn has_grown(rt: &impl Abort, list: &mut Vec<u8, &Scarce>) -> bool {
    let is_given = list.reserve(100).is_ok();
    same(rt, "elements", list.as_slice(), [1].as_slice());
    is_given
}

#[test]
fn a_list_keeps_its_elements(rt: HostRuntime) {
    let scarce = Scarce::new(rt.alloc());
    let mut list = Vec::new(&scarce);
    list.push(1u8).expect(&rt, "an element");
    let failed = scarce.refuse_each(|| has_grown(&rt, &mut list));
    same(&rt, "failed", failed, Some(1));
    assert!(rt; list.capacity() >= 101);
}

// Tells whether the entry is in. If not the tree is as it was, and the entry comes back.
fn is_inserted(rt: &impl Abort, tree: &mut BTreeMap<u32, u32, &Scarce>, key: u32) -> bool {
    let len = tree.len();
    match tree.insert(key, key) {
        Ok(old) => {
            same(rt, "old", old, None);
            true
        }
        Err(refused) => {
            same(rt, "entry", refused.value, (key, key));
            same(rt, "length", tree.len(), len);
            same(rt, "absent", tree.get(&key), None);
            false
        }
    }
}

#[test]
fn a_tree_keeps_its_entries(rt: HostRuntime) {
    let scarce = Scarce::new(rt.alloc());
    let mut tree = BTreeMap::new(&scarce);
    for key in 0..100u32 {
        let failed = scarce.refuse_each(|| is_inserted(&rt, &mut tree, key));
        assert!(rt; failed.is_some(), "{key}");
        same(&rt, "first", tree.get(&0).copied(), Some(0));
        same(&rt, "last", tree.get(&key).copied(), Some(key));
    }
    same(&rt, "length", tree.len(), 100);
    assert!(rt; scarce.refused() > 1);
}

// The refusals that are asked for, and which of the next growths are refused then.
type Asked = (Option<u64>, Option<bool>, (bool, bool, bool));

static ASKED: [Asked; 8] = [
    (None, None, (false, false, false)),
    (Some(2), None, (false, true, false)),
    (Some(0), None, (false, false, false)),
    (None, Some(true), (true, true, true)),
    (None, Some(false), (false, false, false)),
    // The later of two replaces the earlier.
    (Some(1), Some(false), (false, false, false)),
    (Some(3), Some(true), (true, true, true)),
    (Some(1), None, (true, false, false)),
];

fn ask(scarce: &Scarce, nth: Option<u64>, all: Option<bool>) {
    if let Some(nth) = nth {
        scarce.refuse_nth(nth);
    }
    if let Some(all) = all {
        scarce.refuse_all(all);
    }
}

fn is_refused<B: Allocator>(scarce: &Scarce<B>) -> bool {
    Box::new(scarce, 1u8).is_err()
}

fn counts<B: Allocator>(scarce: &Scarce<B>) -> (u64, u64) {
    (scarce.growths(), scarce.refused())
}

fn number(refused: (bool, bool, bool)) -> u64 {
    let two = u64::from(refused.0).wrapping_add(u64::from(refused.1));
    two.wrapping_add(u64::from(refused.2))
}

fn refuse_as_asked(rt: &impl Abort, scarce: &Scarce, asked: Asked) {
    let (growths, refused) = counts(scarce);
    let (nth, all, wanted) = asked;
    ask(scarce, nth, all);
    let found = (is_refused(scarce), is_refused(scarce), is_refused(scarce));
    same(rt, "refused", (nth, all, found), (nth, all, wanted));
    let after = (
        growths.wrapping_add(3),
        refused.wrapping_add(number(wanted)),
    );
    same(rt, "counts", (nth, all, counts(scarce)), (nth, all, after));
}

#[test]
fn growths_are_refused_as_asked(rt: HostRuntime) {
    let scarce = Scarce::new(rt.alloc());
    for asked in &ASKED {
        refuse_as_asked(&rt, &scarce, *asked);
    }
}

fn has_block(rt: &impl Abort, list: &Vec<u8, &Scarce>, capacity: usize) {
    same(rt, "capacity", list.capacity(), capacity);
    same(rt, "elements", list.as_slice(), [1].as_slice());
}

#[test]
fn a_smaller_block_is_a_growth(rt: HostRuntime) {
    let scarce = Scarce::new(rt.alloc());
    let mut list = Vec::with_capacity(&scarce, 10).expect(&rt, "a list");
    list.push(1u8).expect(&rt, "an element");
    let failed = scarce.refuse_each(|| {
        list.shrink_to_fit();
        true
    });
    same(&rt, "refused", (failed, scarce.refused()), (Some(0), 1));
    has_block(&rt, &list, 10);
    list.shrink_to_fit();
    has_block(&rt, &list, 1);
    same(&rt, "counts", counts(&scarce), (3, 1));
}

#[test]
fn an_owner_may_be_the_list(rt: HostRuntime) {
    let mut list = Vec::new(Scarce::new(rt.alloc()));
    list.push(1u8).expect(&rt, "an element");
    list.allocator().refuse_nth(1);
    assert!(rt; list.reserve(100).is_err());
    same(&rt, "refused", list.allocator().refused(), 1);
}

#[test]
fn the_inner_allocator_is_not_asked(rt: HostRuntime) {
    let inner = Scarce::new(rt.alloc());
    let outer = Scarce::new(&inner);
    outer.refuse_nth(1);
    assert!(rt; is_refused(&outer));
    same(&rt, "growths", (outer.growths(), inner.growths()), (1, 0));
    inner.refuse_nth(1);
    assert!(rt; is_refused(&outer));
    assert!(rt; !is_refused(&outer));
    same(&rt, "growths", (outer.growths(), inner.growths()), (3, 2));
    same(&rt, "refused", (outer.refused(), inner.refused()), (1, 1));
}

fn boxes(scarce: &Scarce, count: u64) -> Result<(), AllocError> {
    for number in 0..count {
        Box::new(scarce, number)?;
    }
    Ok(())
}

// Returns the number of tries that fail, of a call that makes `count` growths.
fn tries(scarce: &Scarce, count: u64) -> Option<u64> {
    scarce.refuse_each(|| boxes(scarce, count).is_ok())
}

#[test]
fn the_tries_end(rt: HostRuntime) {
    let scarce = Scarce::new(rt.alloc());
    same(&rt, "no growth", tries(&scarce, 0), Some(0));
    same(&rt, "many", tries(&scarce, 999), Some(999));
    same(&rt, "too many", tries(&scarce, 1000), None);
    assert!(rt; boxes(&scarce, 1).is_ok());
    let refused = scarce.refused();
    same(&rt, "never", scarce.refuse_each(|| false), None);
    same(&rt, "refused", scarce.refused(), refused);
}

fn filled(scarce: &Scarce, seed: u64) -> Result<Vec<u64, &Scarce>, AllocError> {
    let mut list = Vec::new(scarce);
    for number in 0..20 {
        list.push(seed.wrapping_add(number))?;
    }
    Ok(list)
}

fn is_filled(list: &[u64], seed: u64) -> bool {
    list.len() == 20 && (0..20).all(|number| list.contains(&seed.wrapping_add(number)))
}

// Returns the number of lists that were refused.
fn fill_many<R: Abort>(rt: &R, scarce: &Scarce, seed: u64, count: u64) -> u64 {
    let mut refused = 0u64;
    for _ in 0..count {
        match filled(scarce, seed) {
            Ok(list) => assert!(rt; is_filled(list.as_slice(), seed)),
            Err(_) => refused = refused.saturating_add(1),
        }
    }
    refused
}

// The parts that a thread sees: refusals, and a list that another thread drops.
#[derive(Drop)]
struct Seen<'a> {
    refused: u64,
    list: Option<Vec<u64, &'a Scarce>>,
}

// The parts that threads share. Before the first gate all growths are refused, and from the second on none.
#[derive(Drop)]
struct Work<'a> {
    scarce: &'a Scarce,
    gate: Barrier,
    busy: AtomicU64,
}

fn fill_between<'a, R: Wait + Abort>(rt: &R, work: &Work<'a>, seed: u64) -> Seen<'a> {
    let early = fill_many(rt, work.scarce, seed, 1);
    assert_eq!(rt; early, 1);
    work.gate.wait(rt);
    let refused = fill_many(rt, work.scarce, seed, 2000).saturating_add(early);
    work.busy.fetch_sub(1, Ordering::SeqCst);
    work.gate.wait(rt);
    let list = filled(work.scarce, seed).ok();
    Seen { refused, list }
}

// The switching ends also where a thread stays busy, so that no schedule makes the test run for long.
fn switch_while_busy(work: &Work) {
    for _ in 0..1_000_000 {
        if work.busy.load(Ordering::SeqCst) == 0 {
            break;
        }
        work.scarce.refuse_all(true);
        work.scarce.refuse_all(false);
        for nth in 0..20 {
            work.scarce.refuse_nth(nth);
        }
    }
    work.scarce.refuse_nth(0);
}

// Returns the number of refusals that a thread saw, whose list is whole.
fn refusals_of(rt: &impl Abort, seed: u64, seen: Seen<'_>) -> u64 {
    let list = seen.list.expect(rt, "nothing is refused");
    assert!(rt; is_filled(list.as_slice(), seed));
    seen.refused
}

#[test]
fn threads_see_each_refusal(rt: HostRuntime) {
    let scarce = Scarce::new(rt.alloc());
    let work = Work {
        scarce: &scarce,
        gate: Barrier::new(4),
        busy: AtomicU64::new(3),
    };
    let shared = &work;
    scarce.refuse_all(true);
    let refused = thread::scope(thread::scope_env(), &rt, |scope| {
        let first = scope.spawn(move || fill_between(&rt, shared, 1));
        let second = scope.spawn(move || fill_between(&rt, shared, 2));
        let third = scope.spawn(move || fill_between(&rt, shared, 3));
        let (Ok(first), Ok(second), Ok(third)) = (first, second, third) else {
            panic!(rt; "no thread");
        };
        shared.gate.wait(&rt);
        switch_while_busy(shared);
        shared.gate.wait(&rt);
        refusals_of(&rt, 1, first.join(&rt))
            .saturating_add(refusals_of(&rt, 2, second.join(&rt)))
            .saturating_add(refusals_of(&rt, 3, third.join(&rt)))
    });
    assert!(rt; refused >= 3);
    same(&rt, "refused", refused, scarce.refused());
}
