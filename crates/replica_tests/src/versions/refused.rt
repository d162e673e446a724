//! Versions of rows where a growth of an install is refused: each in turn.

use row_sets::WriteSet;
use rows_mv::{Gone, Versions};
use scarce::Scarce;
use schema::Schema;
use std::alloc::{AllocError, Allocator, Global};
use std::process::Abort;
use test_programs::TABLES;
use test_replicas::CheckedVersions;

/// The growths of the last install. One makes the pair of a second version, three make the run of a third, two the
/// upper half of a page, with room for more keys. The lower half shrinks between these two, which can't fail.
const INSTALL_GROWTHS: u64 = 7;

/// The counts of the rows of table 1 at a position: how many there are, and how many have their key's own number.
#[derive(Clone, Copy, Debug, PartialEq, Eq)]
struct Counts {
    rows: usize,
    own: usize,
}

fn has_own_number<A: Allocator + Copy>(
    versions: &Versions<A>,
    position: u32,
    key: u64,
) -> Result<bool, Gone> {
    let row = versions.read_at(position, 1, key)?;
    Ok(row == Some(key.to_le_bytes().as_slice()))
}

fn counts_at<A: Allocator + Copy>(versions: &Versions<A>, position: u32) -> Result<Counts, Gone> {
    let mut own = 0usize;
    for key in 0..100u64 {
        if has_own_number(versions, position, key)? {
            own = own.wrapping_add(1);
        }
    }
    let rows = versions.count_at(position, 1, 0, u64::MAX)?;
    Ok(Counts { rows, own })
}

/// Puts of their own numbers at keys from 1 to 64.
fn own_numbers(rt: &impl Abort, alloc: Global) -> WriteSet {
    let mut writes = WriteSet::new(alloc);
    for key in 1..=64u64 {
        writes.put(1, key, &key.to_le_bytes()).expect(rt, "memory");
    }
    writes
}

/// Puts of numbers at keys.
fn numbers(rt: &impl Abort, alloc: Global, numbers: &[(u64, u64)]) -> WriteSet {
    let mut writes = WriteSet::new(alloc);
    for &(key, number) in numbers {
        writes
            .put(1, key, &number.to_le_bytes())
            .expect(rt, "memory");
    }
    writes
}

/// The writes at positions 1, 2 and 3.
#[derive(Drop)]
struct Writes {
    first: WriteSet,
    again: WriteSet,
    further: WriteSet,
}

impl Writes {
    /// Each key its own number; key 2 once more; then a second version of key 1, a third of key 2, and two keys for
    /// which a page of 64 has to be split.
    fn new(rt: &impl Abort, alloc: Global) -> Writes {
        Writes {
            first: own_numbers(rt, alloc),
            again: numbers(rt, alloc, &[(2, 2)]),
            further: numbers(rt, alloc, &[(1, 9), (2, 2), (65, 65), (66, 66)]),
        }
    }
}

/// The outcome of installs at positions 1, 2 and, with a growth refused, 3, and what is counted then.
#[derive(Clone, Copy, Debug, PartialEq, Eq)]
struct Attempt {
    first: Result<bool, AllocError>,
    again: Result<bool, AllocError>,
    installed: Result<bool, AllocError>,
    before: Result<Counts, Gone>,
    after: Result<Counts, Gone>,
    pages: usize,
}

/// Installs at positions 1, 2 and 3, there with the growth of this number, from 1 on, refused.
fn install_all<A: Allocator + Copy>(
    scarce: &Scarce,
    checked: &mut CheckedVersions<A>,
    writes: &Writes,
    refused: u64,
) -> Attempt {
    let first = checked.install(1, &writes.first);
    let again = checked.install(2, &writes.again);
    scarce.refuse_nth(refused);
    let installed = checked.install(3, &writes.further);
    scarce.refuse_nth(0);
    Attempt {
        first,
        again,
        installed,
        before: counts_at(checked.versions(), 2),
        after: counts_at(checked.versions(), 3),
        pages: checked.versions().pages(1),
    }
}

fn attempt_install(rt: &impl Abort, alloc: Global, writes: &Writes, refused: u64) -> Attempt {
    let scarce = Scarce::new(alloc);
    let schema = Schema::new(&scarce, &TABLES).expect(rt, "memory");
    let mut checked = CheckedVersions::new(&scarce, &schema).expect(rt, "memory");
    install_all(&scarce, &mut checked, writes, refused)
}

/// Tells whether an attempt, refused or not, came to what is expected.
fn is_expected(came: Attempt) -> bool {
    let old = Ok(Counts { rows: 64, own: 64 });
    let new = Ok(Counts { rows: 66, own: 65 });
    // A page that was split before the refusal stays split.
    let left = match came.installed {
        Ok(installed) => installed && came.after == new && came.pages == 2,
        Err(_) => came.after == old && (came.pages == 1 || came.pages == 2),
    };
    left && came.before == old && came.first == Ok(true) && came.again == Ok(true)
}

#[test]
fn refused_room_leaves_versions_as_they_were(rt: HostRuntime) {
    let writes = Writes::new(&rt, rt.alloc());
    let mut refused = 0u64;
    for growth in 1..=INSTALL_GROWTHS {
        let came = attempt_install(&rt, rt.alloc(), &writes, growth);
        assert!(rt; is_expected(came), "{growth}: {came:?}");
        if came.installed.is_err() {
            refused = refused.wrapping_add(1);
        }
    }
    assert_eq!(rt; refused, INSTALL_GROWTHS - 1);
    let came = attempt_install(&rt, rt.alloc(), &writes, INSTALL_GROWTHS + 1);
    assert!(rt; came.installed.is_ok(), "{came:?}");
}
