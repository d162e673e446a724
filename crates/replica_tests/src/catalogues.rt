//! Tests of catalogues: each fault, and each refused growth.

use bpf_bytes::decode;
use bpf_verify::{Accepted, verify};
use catalogue::{Catalogue, CatalogueFault, ListedProcedure};
use scarce::Scarce;
use schema::Schema;
use std::alloc::{Allocator, Global};
use std::fmt::Debug;
use std::process::Abort;

/// Replies 1.
const PROGRAM: [u8; 16] = [0xb7, 0, 0, 0, 1, 0, 0, 0, 0x95, 0, 0, 0, 0, 0, 0, 0];

const TABLES: [(u8, u16); 2] = [(1, 8), (64, 128)];

/// Asserts that a value is the one that is wanted. The assertion stands in a function of its own, since a proof of many
/// comparisons in one function beside values to be dropped takes long.
fn same<T: PartialEq + Debug + Copy>(rt: &impl Abort, case: &str, found: T, wanted: T) {
    assert_eq!(rt; found, wanted, "{case}");
}

/// The program, accepted for these tables and arguments of `args_len` bytes.
fn accepted<A: Allocator + Copy>(
    rt: &impl Abort,
    alloc: A,
    tables: &[(u8, u16)],
    args_len: u16,
) -> Accepted<A, A> {
    let code = decode(alloc, &PROGRAM).expect(rt, "the program");
    let schema = Schema::new(alloc, tables).expect(rt, "memory");
    verify(alloc, code, &schema, args_len.min(256)).expect(rt, "it is accepted")
}

/// The parts that a catalogue is asked for: a name, a number, and the tables for which the program is accepted.
type Asked = (&'static [u8], u16, &'static [(u8, u16)]);

/// Adds the program, and returns what is answered.
fn add<A: Allocator + Copy>(
    rt: &impl Abort,
    alloc: A,
    catalogue: &mut Catalogue<A>,
    asked: &Asked,
    args_len: u16,
) -> Option<CatalogueFault> {
    let (name, number, tables) = *asked;
    let accepted = accepted(rt, alloc, tables, args_len);
    catalogue.add(name, number, accepted).err()
}

/// The names of 1 and of 32 bytes are the shortest and the longest, 0 and 65,535 the least and the greatest number.
static PROCEDURES: [(Asked, u16); 4] = [
    ((b"increment", 7, &TABLES), 16),
    ((b"_", 65_535, &TABLES), 0),
    ((b"Z9_aaaaaaaaaaaaaaaaaaaaaaaaaaaaa", 0, &TABLES), 256),
    ((b"Increment", 8, &TABLES), 1),
];

/// A catalogue with all these procedures.
fn filled(rt: &impl Abort, alloc: Global) -> Catalogue {
    let mut catalogue = Catalogue::new(alloc, Schema::new(alloc, &TABLES).expect(rt, "memory"));
    for (asked, args_len) in &PROCEDURES {
        let fault = add(rt, alloc, &mut catalogue, asked, *args_len);
        same(rt, "added", fault, None);
    }
    catalogue
}

fn is_listed(
    rt: &impl Abort,
    listed: ListedProcedure<'_>,
    name: &[u8],
    number: u16,
    args_len: u16,
) {
    same(rt, "listed name", listed.name, name);
    let found = (listed.number, listed.accepted.args_len());
    same(rt, "listed number and length", found, (number, args_len));
}

/// The number of a name, and the argument length of a number.
fn found(catalogue: &Catalogue, name: &[u8], number: u16) -> (Option<u16>, Option<u16>) {
    let length = catalogue.by_number(number).map(|it| it.args_len());
    (catalogue.by_name(name), length)
}

#[test]
fn procedures_are_listed_and_found(rt: HostRuntime) {
    let catalogue = filled(&rt, rt.alloc());
    for (listed, ((name, number, _), args_len)) in catalogue.list().zip(&PROCEDURES) {
        is_listed(&rt, listed, name, *number, *args_len);
        let by_both = found(&catalogue, name, *number);
        same(&rt, "found", by_both, (Some(*number), Some(*args_len)));
    }
    same(&rt, "count", catalogue.list().count(), 4);
    same(
        &rt,
        "short",
        found(&catalogue, b"incremen", 9),
        (None, None),
    );
    same(
        &rt,
        "upper",
        found(&catalogue, b"INCREMENT", 9),
        (None, None),
    );
    same(&rt, "width", catalogue.schema().width(64), Some(128));
}

/// The requests that are made after a procedure `get` of number 7, and the faults for which they are refused.
static FAULTS: [(Asked, CatalogueFault); 14] = [
    ((b"get", 8, &TABLES), CatalogueFault::NameTaken),
    ((b"get", 7, &[]), CatalogueFault::NameTaken),
    ((b"put", 7, &TABLES), CatalogueFault::NumberTaken),
    ((b"", 7, &[]), CatalogueFault::NumberTaken),
    ((b"", 8, &TABLES), CatalogueFault::NameShape),
    ((b"a-b", 8, &TABLES), CatalogueFault::NameShape),
    ((b"a b", 8, &[]), CatalogueFault::NameShape),
    ((b"put\0", 8, &TABLES), CatalogueFault::NameShape),
    ((b"\xc3\xa9", 8, &TABLES), CatalogueFault::NameShape),
    (
        (b"aaaaaaaaaaaaaaaaaaaaaaaaaaaaaaaaa", 8, &TABLES),
        CatalogueFault::NameShape,
    ),
    ((b"put", 8, &[]), CatalogueFault::ForeignSchema),
    ((b"put", 8, &[(1, 8)]), CatalogueFault::ForeignSchema),
    (
        (b"put", 8, &[(1, 8), (64, 127)]),
        CatalogueFault::ForeignSchema,
    ),
    (
        (b"put", 8, &[(1, 8), (2, 8), (64, 128)]),
        CatalogueFault::ForeignSchema,
    ),
];

static TEXTS: [(CatalogueFault, &str); 5] = [
    (CatalogueFault::NameTaken, "C1"),
    (CatalogueFault::NumberTaken, "C2"),
    (CatalogueFault::NoMemory, "C3"),
    (CatalogueFault::NameShape, "C4"),
    (CatalogueFault::ForeignSchema, "C5"),
];

fn is_printed(rt: &impl Abort, alloc: Global, fault: CatalogueFault, text: &str) {
    let printed = format!(in alloc; "{fault}").expect(rt, text);
    same(rt, "printed", printed.as_str(), text);
}

#[test]
fn faults_are_told_by_the_lowest_cause(rt: HostRuntime) {
    let alloc = rt.alloc();
    let mut catalogue = Catalogue::new(alloc, Schema::new(alloc, &TABLES).expect(&rt, "memory"));
    same(
        &rt,
        "get",
        add(&rt, alloc, &mut catalogue, &(b"get", 7, &TABLES), 8),
        None,
    );
    for (at, (asked, fault)) in FAULTS.iter().enumerate() {
        let told = add(&rt, alloc, &mut catalogue, asked, 8);
        let found = (at, told, catalogue.list().count());
        same(&rt, "case, fault, count", found, (at, Some(*fault), 1));
    }
    for (fault, text) in &TEXTS {
        is_printed(&rt, alloc, *fault, text);
    }
}

/// Returns what is answered where the growth of this number of the addition is refused.
fn add_refused<'s>(
    rt: &impl Abort,
    scarce: &'s Scarce,
    catalogue: &mut Catalogue<&'s Scarce>,
    asked: &Asked,
    nth: u64,
) -> Option<CatalogueFault> {
    let (name, number, tables) = *asked;
    let accepted = accepted(rt, scarce, tables, 8);
    scarce.refuse_nth(nth);
    let told = catalogue.add(name, number, accepted).err();
    scarce.refuse_nth(0);
    told
}

/// Returns the number of procedures, the number of a name, and whether there is a procedure of a number.
fn state(catalogue: &Catalogue<&Scarce>, asked: &Asked) -> (usize, Option<u16>, bool) {
    let has_number = catalogue.by_number(asked.1).is_some();
    (
        catalogue.list().count(),
        catalogue.by_name(asked.0),
        has_number,
    )
}

/// Adds a procedure, with each of `growths` growths refused before.
fn refuse_each<'s>(
    rt: &impl Abort,
    scarce: &'s Scarce,
    catalogue: &mut Catalogue<&'s Scarce>,
    asked: &Asked,
    growths: u64,
) {
    let before = catalogue.list().count();
    for nth in 1..=growths {
        let told = add_refused(rt, scarce, catalogue, asked, nth);
        same(
            rt,
            "refused",
            (nth, told),
            (nth, Some(CatalogueFault::NoMemory)),
        );
        same(
            rt,
            "unchanged",
            state(catalogue, asked),
            (before, None, false),
        );
    }
    let told = add_refused(rt, scarce, catalogue, asked, growths.wrapping_add(1));
    same(rt, "added", told, None);
    let after = (before.wrapping_add(1), Some(asked.1), true);
    same(rt, "there", state(catalogue, asked), after);
}

/// The first procedure takes memory for its program, its name and the map, the second for its program and its name.
#[test]
fn each_refused_growth_is_want_of_memory(rt: HostRuntime) {
    let scarce = Scarce::new(rt.alloc());
    let schema = Schema::new(&scarce, &TABLES).expect(&rt, "memory");
    scarce.refuse_all(true);
    let mut catalogue = Catalogue::new(&scarce, schema);
    scarce.refuse_all(false);
    refuse_each(&rt, &scarce, &mut catalogue, &(b"get", 7, &TABLES), 5);
    refuse_each(&rt, &scarce, &mut catalogue, &(b"put", 8, &TABLES), 2)
}
