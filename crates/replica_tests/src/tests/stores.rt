//! Rows at a position, while later calls are delivered.

use catalogue::Catalogue;
use replica::Replica;
use std::alloc::Global;
use std::process::Abort;
use test_programs::{EntryCase, entry_of, small_catalogue};
use test_replicas::CheckedReplica;
use txn_view::{Gone, Store};

/// The byte at key 1 of table 1 after a position that was reached.
fn value_at(replica: &Replica, position: u32) -> Result<Option<u8>, Gone> {
    if position > replica.position() {
        return Err(Gone);
    }
    let store = replica.at(position);
    match store.get(1, 1)? {
        Some(bytes) => Ok(bytes.first().copied()),
        None => Ok(None),
    }
}

/// Returns what stands at that key after a position, when `delivered` calls were delivered of which each puts its
/// position. No row stands there at first, and the rows are gone where more than the window were delivered since.
fn expected(window: u32, delivered: u32, position: u32) -> Result<Option<u8>, Gone> {
    if delivered.saturating_sub(position) > window {
        Err(Gone)
    } else if position == 0 {
        Ok(None)
    } else {
        Ok(u8::try_from(position).ok())
    }
}

/// The first position that reads otherwise when `delivered` calls were delivered.
fn wrong_position(replica: &Replica, delivered: u32) -> Option<u32> {
    if replica.begin() != delivered {
        return Some(delivered);
    }
    for position in 0..=delivered {
        if value_at(replica, position) != expected(replica.window(), delivered, position) {
            return Some(position);
        }
    }
    None
}

/// Delivers one more call, and looks where the replica reads otherwise then.
fn differs(
    rt: &impl Abort,
    alloc: Global,
    catalogue: &Catalogue,
    checked: &mut CheckedReplica,
    delivered: u32,
) -> Option<u32> {
    let byte = u8::try_from(delivered).ok();
    let put = EntryCase::Call(delivered.saturating_sub(1), 9, 9, 1, byte);
    let entry = entry_of(alloc, catalogue.schema(), put).expect(rt, "memory");
    let told = checked.deliver(&entry);
    if matches!(told, Some(Ok(_))) {
        wrong_position(checked.replica(), delivered)
    } else {
        Some(0)
    }
}

/// Returns the number of calls after which, and the position at which, a replica first reads otherwise.
fn difference_in(
    rt: &impl Abort,
    alloc: Global,
    catalogue: &Catalogue,
    checked: &mut CheckedReplica,
) -> Option<(u32, u32)> {
    for delivered in 1..=30u32 {
        if let Some(position) = differs(rt, alloc, catalogue, checked, delivered) {
            return Some((delivered, position));
        }
    }
    None
}

fn difference_of(
    rt: &impl Abort,
    alloc: Global,
    catalogue: &Catalogue,
    window: u32,
) -> Option<(u32, u32)> {
    let mut checked = CheckedReplica::new(alloc, window, catalogue).expect(rt, "memory");
    difference_in(rt, alloc, catalogue, &mut checked)
}

#[test]
fn a_position_reads_alike_until_it_is_gone(rt: HostRuntime) {
    let catalogue = small_catalogue(rt.alloc()).expect(&rt, "memory");
    for window in [1, 4, 8] {
        let difference = difference_of(&rt, rt.alloc(), &catalogue, window);
        assert_eq!(rt; difference, None, "window {window}");
    }
}
