//! Reads and writes through a view of a plain store.

use super::same;
use plain_runner::{Bytes, KeyMap, Row};
use plain_site::PlainStore;
use scarce::Scarce;
use schema::{Look, OrNoMemory};
use std::alloc::{Allocator, Global};
use std::process::Abort;
use txn_view::{Gone, Own, Store, View, count_rows, next_row, read_row};

/// Asserts the first byte of a row of table 1.
fn has_row<S: Store, A: Allocator + Copy>(
    rt: &impl Abort,
    view: &mut View<S, A>,
    key: u64,
    wanted: Result<Option<u8>, OrNoMemory<Gone>>,
) {
    let own = &mut view.own;
    let found = read_row(&view.store, &own.writes, &mut own.looks, 1, key);
    let byte = match found {
        Ok(Some(bytes)) => Ok(bytes.first().copied()),
        Ok(None) => Ok(None),
        Err(fault) => Err(fault),
    };
    same(rt, "row", (key, byte), (key, wanted));
}

fn has_count<S: Store, A: Allocator + Copy>(
    rt: &impl Abort,
    view: &mut View<S, A>,
    look: Look,
    wanted: Result<u64, OrNoMemory<Gone>>,
) {
    let own = &mut view.own;
    let found = count_rows(&view.store, &own.writes, &mut own.looks, look);
    same(rt, "count", (look, found), (look, wanted));
}

/// Asserts the key of the first row, and its first byte.
fn has_first<S: Store, A: Allocator + Copy>(
    rt: &impl Abort,
    view: &mut View<S, A>,
    look: Look,
    wanted: Result<Option<(u64, Option<u8>)>, OrNoMemory<Gone>>,
) {
    let own = &mut view.own;
    let found = next_row(&view.store, &own.writes, &mut own.looks, look);
    let first = match found {
        Ok(Some((key, bytes))) => Ok(Some((key, bytes.first().copied()))),
        Ok(None) => Ok(None),
        Err(fault) => Err(fault),
    };
    same(rt, "first", (look, first), (look, wanted));
}

fn has_looks<S: Store, A: Allocator + Copy>(rt: &impl Abort, view: &View<S, A>, looks: &[Look]) {
    same(rt, "looks", view.own.looks.looks(), looks);
}

const FROM_10: Look = Look {
    table: 1,
    lo: 10,
    hi: 20,
};

const FROM_12: Look = Look {
    table: 1,
    lo: 12,
    hi: 20,
};

const EMPTY: Look = Look {
    table: 1,
    lo: 20,
    hi: 10,
};

type Rows = KeyMap<Bytes<Global>, Global>;

fn row_at(rt: &impl Abort, alloc: Global, key: u8) -> Row {
    let bytes = Vec::from_slice(alloc, &[key]).expect(rt, "a row");
    Row::new(1, u64::from(key), bytes)
}

/// Rows of table 1, each of one byte, its key.
fn some_rows(rt: &impl Abort, alloc: Global) -> Rows {
    let rows = [
        row_at(rt, alloc, 9),
        row_at(rt, alloc, 12),
        row_at(rt, alloc, 15),
    ];
    KeyMap::from_rows(alloc, &rows).expect(rt, "the rows")
}

fn view_of<A: Allocator + Copy>(
    alloc: A,
    rows: &Rows,
    gone: bool,
) -> View<PlainStore<'_, Global>, A> {
    View::over(PlainStore { rows, gone }, Own::new(alloc))
}

fn write_over<S: Store>(rt: &impl Abort, view: &mut View<S>) {
    view.put(1, 11, &[1]).expect(rt, "a put");
    view.remove(1, 12).expect(rt, "a removal");
    view.remove(1, 13).expect(rt, "a removal of no row");
    view.put(1, 20, &[2]).expect(rt, "a put at the end");
}

/// The looks of the test below: each as far as what was found, and none of an empty range.
static LOOKS: [Look; 6] = [
    FROM_10,
    Look {
        table: 1,
        lo: 10,
        hi: 12,
    },
    FROM_10,
    Look {
        table: 1,
        lo: 10,
        hi: 11,
    },
    Look {
        table: 1,
        lo: 12,
        hi: 15,
    },
    Look {
        table: 1,
        lo: 9,
        hi: 9,
    },
];

fn stand_over_the_store<S: Store>(rt: &impl Abort, view: &mut View<S>) {
    has_count(rt, view, FROM_10, Ok(3));
    has_first(rt, view, FROM_10, Ok(Some((11, Some(1)))));
    has_first(rt, view, FROM_12, Ok(Some((15, Some(15)))));
    has_row(rt, view, 12, Ok(None));
    has_row(rt, view, 9, Ok(Some(9)));
    has_count(rt, view, EMPTY, Ok(0));
    has_looks(rt, view, &LOOKS);
}

#[test]
fn own_writes_stand_over_the_store(rt: HostRuntime) {
    let rows = some_rows(&rt, rt.alloc());
    let mut view = view_of(rt.alloc(), &rows, false);
    has_count(&rt, &mut view, FROM_10, Ok(2));
    has_first(&rt, &mut view, FROM_10, Ok(Some((12, Some(12)))));
    write_over(&rt, &mut view);
    stand_over_the_store(&rt, &mut view);
}

fn is_told<S: Store>(rt: &impl Abort, view: &mut View<S>) {
    let gone = OrNoMemory::Fault(Gone);
    has_row(rt, view, 5, Ok(Some(7)));
    has_row(rt, view, 6, Err(gone));
    has_count(rt, view, FROM_10, Err(gone));
    has_first(rt, view, FROM_10, Err(gone));
    has_first(rt, view, EMPTY, Ok(None));
    has_looks(rt, view, &[]);
}

#[test]
fn a_store_that_is_gone_is_told(rt: HostRuntime) {
    let rows = Rows::new(rt.alloc());
    let mut view = view_of(rt.alloc(), &rows, true);
    view.put(1, 5, &[7]).expect(&rt, "a put");
    is_told(&rt, &mut view);
}

fn is_as_it_was<S: Store>(rt: &impl Abort, scarce: &Scarce, view: &mut View<S, &Scarce>) {
    scarce.refuse_nth(1);
    has_row(rt, view, 5, Err(OrNoMemory::NoMemory));
    has_looks(rt, view, &[]);
    has_row(rt, view, 5, Ok(None));
    same(rt, "looks", view.own.looks.looks().len(), 1);
}

#[test]
fn a_refused_look_leaves_the_call_as_it_was(rt: HostRuntime) {
    let scarce = Scarce::new(rt.alloc());
    let rows = Rows::new(rt.alloc());
    is_as_it_was(&rt, &scarce, &mut view_of(&scarce, &rows, false));
}

/// Asserts what a call has after a put, paused and taken up again.
fn has_written(rt: &impl Abort, rows: &Rows, own: Own, cancel: bool) {
    let store = PlainStore { rows, gone: false };
    let (looks, writes, code) = View::over(store, own).finish();
    let found = (looks.looks().len(), writes.is_empty(), code);
    same(
        rt,
        "looks, no writes, code",
        found,
        (0, cancel, cancel.then_some(3)),
    );
}

fn call(rt: &impl Abort, alloc: Global, rows: &Rows, cancel: bool) -> Own {
    let mut view = view_of(alloc, rows, false);
    view.put(1, 5, &[7]).expect(rt, "a put");
    if cancel {
        view.cancel(3);
    }
    view.pause()
}

#[test]
fn a_cancelled_call_has_written_nothing(rt: HostRuntime) {
    let rows = Rows::new(rt.alloc());
    has_written(&rt, &rows, call(&rt, rt.alloc(), &rows, false), false);
    has_written(&rt, &rows, call(&rt, rt.alloc(), &rows, true), true);
}
