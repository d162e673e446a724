//! Tests of what a database begins with: rows, and requests that were done before.

use catalogue::{Catalogue, RequestFault, RowFault};
use log_model::RequestId;
use replica::Replica;
use row_sets::Row;
use scarce::Scarce;
use schema::{OrNoMemory, Schema};
use std::alloc::{Allocator, Global};
use std::fmt::Debug;
use std::process::Abort;

const TABLES: [(u8, u16); 2] = [(1, 2), (64, 1)];

/// Asserts that a value is the one that is wanted.
fn same<T: PartialEq + Debug + Copy>(rt: &impl Abort, case: &str, found: T, wanted: T) {
    assert_eq!(rt; found, wanted, "{case}");
}

/// A row: its table, its key and its bytes.
type RowCase = (u8, u64, &'static [u8]);

/// Rows in the order of tables and keys, with the least key and the greatest.
static ROWS: [RowCase; 4] = [
    (1, 0, &[1, 2]),
    (1, 5, &[3, 4]),
    (1, u64::MAX, &[5, 6]),
    (64, 0, &[7]),
];

/// A request that was done: session, sequence number, reply, procedure and arguments.
type DoneCase = (u32, u32, u64, u16, &'static [u8]);

static DONE: [DoneCase; 3] = [
    (1, 0, 0, 0, &[]),
    (7, 3, 10, 65_535, &[1, 2, 3]),
    (u32::MAX, u32::MAX, u64::MAX, 1, &[4]),
];

/// A request of the session that stands between the others in `DONE`, whose last is 3.
fn of_seven(sequence: u32) -> Option<RequestId> {
    let session = 7;
    Some(RequestId { session, sequence })
}

fn empty<A: Allocator + Copy>(rt: &impl Abort, alloc: A) -> Catalogue<A> {
    let schema = Schema::new(alloc, &TABLES).expect(rt, "memory");
    Catalogue::new(alloc, schema)
}

fn put_row<A: Allocator + Copy>(
    catalogue: &mut Catalogue<A>,
    row: &RowCase,
) -> Option<OrNoMemory<RowFault>> {
    catalogue.put_row(row.0, row.1, row.2).err()
}

fn put_request<A: Allocator + Copy>(
    catalogue: &mut Catalogue<A>,
    done: &DoneCase,
) -> Option<OrNoMemory<RequestFault>> {
    let (session, sequence, reply, procedure, args) = *done;
    let request = RequestId { session, sequence };
    catalogue.put_request(request, reply, procedure, args).err()
}

/// A catalogue with all of these rows and requests.
fn filled<A: Allocator + Copy>(rt: &impl Abort, alloc: A) -> Catalogue<A> {
    let mut catalogue = empty(rt, alloc);
    for row in &ROWS {
        same(rt, "row", put_row(&mut catalogue, row), None);
    }
    for done in &DONE {
        same(rt, "request", put_request(&mut catalogue, done), None);
    }
    catalogue
}

fn are_rows<A: Allocator + Copy>(rt: &impl Abort, rows: &[Row<A>]) {
    same(rt, "count of rows", rows.len(), ROWS.len());
    for (row, wanted) in rows.iter().zip(&ROWS) {
        same(rt, "key", (row.table(), row.key()), (wanted.0, wanted.1));
        same(rt, "bytes", row.bytes(), wanted.2);
    }
}

fn count_of_rows<A: Allocator + Copy>(catalogue: &Catalogue<A>) -> usize {
    let mut count = 0usize;
    for _ in catalogue.rows().rows() {
        count = count.wrapping_add(1);
    }
    count
}

#[test]
fn rows_stand_in_the_order_of_tables_and_keys(rt: HostRuntime) {
    let catalogue = filled(&rt, rt.alloc());
    same(&rt, "count of rows", count_of_rows(&catalogue), ROWS.len());
    for (row, wanted) in catalogue.rows().rows().zip(&ROWS) {
        same(&rt, "key", (row.table, row.key), (wanted.0, wanted.1));
        same(&rt, "bytes", row.bytes, wanted.2);
    }
    same(&rt, "no rows", catalogue.rows().is_empty(), false);
    same(&rt, "behind", catalogue.rows().is_behind(64, 1), true);
    same(&rt, "not behind", catalogue.rows().is_behind(64, 0), false);
}

#[test]
fn requests_stand_by_session(rt: HostRuntime) {
    let catalogue = filled(&rt, rt.alloc());
    let requests = catalogue.requests();
    same(&rt, "count", requests.requests().len(), DONE.len());
    for (done, wanted) in requests.requests().iter().zip(&DONE) {
        let request = done.request();
        let found = (
            request.session,
            request.sequence,
            done.reply(),
            done.procedure(),
        );
        same(
            &rt,
            "request",
            found,
            (wanted.0, wanted.1, wanted.2, wanted.3),
        );
        same(&rt, "arguments", done.args(), wanted.4);
    }
    same(&rt, "done", requests.reply(of_seven(3)), Some(10));
    same(&rt, "before", requests.reply(of_seven(2)), None);
    same(&rt, "none", requests.reply(None), None);
}

/// Rows behind the first two, and why they can't be put: the lowest cause.
static ROW_FAULTS: [(RowCase, RowFault); 8] = [
    ((2, 9, &[1, 2]), RowFault::NoTable),
    ((0, 0, &[]), RowFault::NoTable),
    ((2, 0, &[1]), RowFault::NoTable),
    ((1, 9, &[1]), RowFault::Width),
    ((1, 9, &[1, 2, 3]), RowFault::Width),
    ((1, 0, &[]), RowFault::Width),
    ((1, 5, &[3, 4]), RowFault::Order),
    ((1, 4, &[3, 4]), RowFault::Order),
];

#[test]
fn rows_that_cannot_be_put_leave_the_others(rt: HostRuntime) {
    let mut catalogue = empty(&rt, rt.alloc());
    for row in &ROWS[..2] {
        same(&rt, "row", put_row(&mut catalogue, row), None);
    }
    for (row, fault) in &ROW_FAULTS {
        let told = put_row(&mut catalogue, row);
        same(&rt, "fault", told, Some(OrNoMemory::Fault(*fault)));
        same(&rt, "rows", count_of_rows(&catalogue), 2);
    }
}

static DONE_FAULTS: [DoneCase; 3] = [(7, 3, 10, 1, &[]), (7, 4, 10, 1, &[]), (6, 9, 10, 1, &[])];

#[test]
fn requests_that_cannot_be_put_leave_the_others(rt: HostRuntime) {
    let mut catalogue = empty(&rt, rt.alloc());
    for done in &DONE[..2] {
        same(&rt, "request", put_request(&mut catalogue, done), None);
    }
    for done in &DONE_FAULTS {
        let told = put_request(&mut catalogue, done);
        same(
            &rt,
            "fault",
            told,
            Some(OrNoMemory::Fault(RequestFault::Order)),
        );
        same(&rt, "requests", catalogue.requests().requests().len(), 2);
    }
}

fn is_printed(rt: &impl Abort, printed: &str, text: &str) {
    same(rt, "printed", printed, text);
}

static ROW_TEXTS: [(RowFault, &str); 3] = [
    (RowFault::NoTable, "D1"),
    (RowFault::Width, "D2"),
    (RowFault::Order, "D3"),
];

#[test]
fn faults_are_printed_by_number(rt: HostRuntime) {
    let alloc = rt.alloc();
    for (fault, text) in &ROW_TEXTS {
        let printed = format!(in alloc; "{fault}").expect(&rt, text);
        is_printed(&rt, printed.as_str(), text);
    }
    let fault = RequestFault::Order;
    let printed = format!(in alloc; "{fault}").expect(&rt, "Q1");
    is_printed(&rt, printed.as_str(), "Q1");
}

/// A row takes memory for its key, for the number of its bytes and for these, and keeps what it got. A request takes
/// memory for its arguments and for its place.
#[test]
fn each_refused_growth_leaves_what_is_there(rt: HostRuntime) {
    let scarce = Scarce::new(rt.alloc());
    let mut catalogue = empty(&rt, &scarce);
    for nth in &[1, 2, 2] {
        scarce.refuse_nth(*nth);
        let told = put_row(&mut catalogue, &ROWS[0]);
        same(&rt, "row", told, Some(OrNoMemory::NoMemory));
        same(&rt, "rows", count_of_rows(&catalogue), 0);
    }
    for nth in 1..=2 {
        scarce.refuse_nth(nth);
        let told = put_request(&mut catalogue, &DONE[1]);
        same(&rt, "request", told, Some(OrNoMemory::NoMemory));
        same(&rt, "requests", catalogue.requests().requests().len(), 0);
    }
    scarce.refuse_nth(0);
    same(&rt, "put", put_row(&mut catalogue, &ROWS[0]), None);
}

/// Asserts that a replica that delivered nothing has what its catalogue has.
fn begins<A: Allocator + Copy>(rt: &impl Abort, global: Global, replica: &Replica<A>) {
    same(rt, "position", replica.position(), 0);
    let rows = replica.rows(global).expect(rt, "memory");
    are_rows(rt, &rows);
    same(rt, "done", replica.repeated(of_seven(3)), Some(0));
    same(rt, "before", replica.repeated(of_seven(2)), None);
}

/// A replica begins with the rows and the requests of its catalogue, or finds no memory for them.
#[test]
fn replicas_begin_with_rows_and_requests(rt: HostRuntime) {
    let scarce = Scarce::new(rt.alloc());
    let catalogue = filled(&rt, &scarce);
    let mut refused = 0;
    for nth in 1..100 {
        scarce.refuse_nth(nth);
        let replica = Replica::new(&scarce, 4, &catalogue);
        scarce.refuse_nth(0);
        match replica {
            Err(_) => refused = nth,
            Ok(replica) => {
                begins(&rt, rt.alloc(), &replica);
                break;
            }
        }
    }
    assert!(rt; refused > 8 && refused < 99, "{refused}");
}
