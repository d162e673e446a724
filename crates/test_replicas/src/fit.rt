//! Tests whether writes are of a schema's tables, and whether entries are a log of such writes.

ghost use Rattle.std.specs.Prelude.{◌<◌, ◌^◌, All, IsTrue, length};
ghost use Rattle.schema.specs.Rows.{AreWrites, IsWrite};
ghost use Rattle.log_model.specs.Log.{IsLog, IsPlaced};
ghost use Rattle.log_model.specs.Entries.{item_of, items_of};
ghost use Rattle.log_entry.specs.Kind.{entry_of};
ghost use Rattle.replica.specs.Replica.{IsForTables, IsNamed, entries_of, writes_in};

use catalogue::is_name;
use log_entry::Entry;
use row_sets::{Bytes, WriteSet};
use schema::{Schema, rows_are_of_bytes_and_words};
use std::alloc::Allocator;

fn write_fits<A: Allocator, B: Allocator>(
    schema: &Schema<A>,
    key: (u8, u64),
    write: &Option<Bytes<B>>,
) -> bool
    ensures { IsTrue result → IsWrite schema.now key write.now }
{
    // Laws:
    rows_are_of_bytes_and_words();
    match write {
        Some(row) => schema.fits(key.0, row.as_slice()),
        None => schema.width(key.0).is_some(),
    }
}

/// Tells whether each write is one of the schema's.
pub fn writes_fit<A: Allocator, B: Allocator + Copy>(
    schema: &Schema<A>,
    writes: &WriteSet<B>,
) -> bool
    ensures { IsTrue result → AreWrites schema.now writes.now }
{
    for (key, write) in writes.iter() {
        if !write_fits(schema, *key, write) {
            return false;
        }
    }
    true
}

/// Tells whether an entry may be delivered where `before` entries came before it. The snapshot of a call has to be
/// reached, and its writes have to be the schema's. The name of an addition has to be a name, and its program accepted
/// for the schema's tables.
pub fn entry_fits<P: Allocator + Copy>(schema: &Schema<P>, entry: &Entry<P>, before: u32) -> bool
    ensures placed { IsTrue result → IsPlaced before (item_of (entry_of entry.now)) }
    ensures writes { IsTrue result → AreWrites schema.now (writes_in (entry_of entry.now)) }
    ensures named { IsTrue result → IsNamed (entry_of entry.now) }
    ensures for_tables { IsTrue result → IsForTables schema.now entry.now }
{
    match entry {
        Entry::Call(call) => call.snapshot <= before && writes_fit(schema, &call.writes),
        Entry::Addition(added) => {
            is_name(added.name.as_slice()) && *added.accepted.schema() == *schema
        }
    }
}

/// Tells whether the entries may be delivered one after the other.
pub fn entries_fit<P: Allocator + Copy>(schema: &Schema<P>, entries: &[Entry<P>]) -> bool
    requires { length entries.now < 2 ^ 32 }
    ensures log { IsTrue result → IsLog (items_of (entries_of entries.now)) }
    ensures writes { IsTrue result → All (λ e. AreWrites schema.now (writes_in (entry_of e))) entries.now }
    ensures named { IsTrue result → All (λ e. IsNamed (entry_of e)) entries.now }
    ensures for_tables { IsTrue result → All (λ e. IsForTables schema.now e) entries.now }
{
    for before in 0..entries.len() {
        if !entry_fits(schema, &entries[before], before as u32) {
            return false;
        }
    }
    true
}
